//! Free names, which have to be public.
ghost use Rattle.std.specs.Prelude.{◌≡◌, ◌<◌, true, length, Decides, slice_index_or};
ghost use Rattle.calculus.specs.Scopes.{in_scope};
ghost use Rattle.calculus.specs.Types.{public};
ghost use Rattle.tables.specs.Elements.{elements};
ghost use Rattle.meaning.specs.Failures.{FirstFailure};
ghost use Rattle.meaning.specs.Scopes.{free};
ghost use Rattle.meaning.specs.Types.{type_within, types_of};

use crate::charted::Charted;
use tables::tables::SheetType;

/// Whether type `at` is public; it is not where there is no such type. One pattern, as in `uses`: that one is of a type, this
/// of a number that may have none.
fn is_public_at(types: &[SheetType], at: usize) -> bool
    ensures { Decides result (type_within types.now 4 at ≡ public) }
{
    matches!(types.get(at), Some(SheetType::Public))
}

impl<'a> Charted<'a> {
    /// Whether name `x` is free: it is there, and no node binds it.
    pub(crate) fn is_free(&self, x: usize) -> bool
        ensures { result ≡ free self.now.tables.now x }
    {
        x < self.tables.names.len() && self.chart.binder(x).is_none()
    }

    /// Whether name `x` is public, if it is free.
    fn is_public_if_free(&self, x: usize) -> bool
        requires { x < 64 }
        ensures { Decides result (in_scope (free self.now.tables.now) x ≡ true → types_of self.now.tables.now x ≡ public) }
    {
        !self.is_free(x) || is_public_at(self.tables.types.as_slice(), self.tables.type_number(x))
    }

    /// The first free name that is not public, or none.
    pub(crate) fn find_free_not_public(&self) -> Option<usize>
        ensures { FirstFailure (λ x. in_scope (free self.now.tables.now) x ≡ true → types_of self.now.tables.now x ≡ public) (length (elements self.now.tables.now.names)) result }
    {
        (0..self.tables.names.len()).find(|x| !self.is_public_if_free(*x))
    }
}
