//! Which names of an opened sheet are not as they should be: a free name that is not public, or a name whose type is
//! not well formed in its scope.
#![tactic(auto)]

ghost use Rattle.std.specs.Prelude.{◌≡◌, true, length};
ghost use Rattle.calculus.specs.Scopes.{in_scope, WellFormed};
ghost use Rattle.calculus.specs.Types.{public};
ghost use Rattle.tables.specs.Elements.{elements};
ghost use Rattle.meaning.specs.Failures.{FirstFailure};
ghost use Rattle.meaning.specs.Scopes.{free, scope_for};
ghost use Rattle.meaning.specs.Types.{types_of};

mod charted;
mod forms;
mod free;
mod scopes;

use crate::charted::Charted;
use counting::Counting;
use sheet::OpenedSheet;

/// The first free name that is not public, or none.
pub fn first_free_not_public<C: Counting>(sheet: &OpenedSheet<C>) -> Option<usize>
    ensures { FirstFailure (λ x. in_scope (free sheet.now.tables) x ≡ true → types_of sheet.now.tables x ≡ public) (length (elements sheet.now.tables.names)) result }
{
    Charted::new(sheet.as_tables()).find_free_not_public()
}

/// The first name whose type is not well formed in its scope, or none.
pub fn first_ill_formed<C: Counting>(sheet: &OpenedSheet<C>) -> Option<usize>
    ensures { FirstFailure (λ x. WellFormed (scope_for sheet.now.tables x) (types_of sheet.now.tables x)) (length (elements sheet.now.tables.names)) result }
{
    Charted::new(sheet.as_tables()).find_ill_formed()
}
