//! How the nodes of an opened sheet use their channels: with the right count of names, each of the required type.
#![tactic(auto)]

ghost use Rattle.std.specs.Prelude.{length};
ghost use Rattle.tables.specs.Elements.{elements};
ghost use Rattle.sheet.specs.Tree.{node_at};
ghost use Rattle.meaning.specs.Failures.{FirstFailure};
ghost use Rattle.meaning.specs.Types.{types_of};
ghost use Rattle.meaning.specs.Uses.{CountFits, TypesFit};

mod arguments;
mod counts;
mod effects;
mod equal;
mod fill;
mod lookup;

use arguments::first_mistyped;
use counting::Counting;
use counts::first_miscounted;
use sheet::OpenedSheet;

/// The first node whose channel is pure or takes another count of names, or none.
pub fn first_bad_channel<C: Counting>(sheet: &OpenedSheet<C>) -> Option<usize>
    ensures { FirstFailure (λ n. CountFits (types_of sheet.now.tables) (node_at (elements sheet.now.tables.nodes) n)) (length (elements sheet.now.tables.nodes)) result }
{
    first_miscounted(sheet.as_tables())
}

/// The first node that sends or receives a name that has not the required type, or none.
pub fn first_wrong_type<C: Counting>(sheet: &OpenedSheet<C>) -> Option<usize>
    ensures { FirstFailure (λ n. TypesFit (C.Counting.operations sheet.now.counting) (types_of sheet.now.tables) (node_at (elements sheet.now.tables.nodes) n)) (length (elements sheet.now.tables.nodes)) result }
{
    first_mistyped(sheet)
}
