//! Types compared, the right one with arguments put in.
ghost use Rattle.std.specs.Prelude.{◌≡◌, ℕ, ◌-◌, true, map, Decides};
ghost use Rattle.calculus.specs.Types.{fill_entry};
ghost use Rattle.meaning.specs.Types.{entry};
ghost use Rattle.tables.specs.Channels.{entries};
ghost use Rattle.tables.specs.Encoding.{parts};
ghost use Rattle.sheet.specs.Types.{type_at, nests};
ghost use Rattle.uses.specs.Entries.{SoundEntries, SameEffects};
ghost use Rattle.uses.specs.Pairs.{SameHead, SameWithin};

use crate::effects::Effect;
use crate::fill::fill_entries;
use crate::lookup::type_at;
use counting::Counting;
use sheet::types::entries_of;
use tables::tables::SheetType;
use tables::tuple::Tuple;

/// Types compared: by which counting, among which types, and with which arguments put into the right one. The entries of
/// each type are such as can be compared.
#[derive(Drop)]
pub(crate) struct Comparison<'a, C: Counting> {
    counting: &'a C,
    types: &'a [SheetType],
    arguments: &'a Tuple<u8>,
    ghost sound: { (i : ℕ) → ∥ SoundEntries (C.Counting.operations counting.now) (entries (type_at types.now i)) ∥₁ },
}

impl<'a, C: Counting> Comparison<'a, C> {
    /// A comparison by this counting, among these types, with these arguments.
    pub(crate) fn new(
        counting: &'a C,
        types: &'a [SheetType],
        arguments: &'a Tuple<u8>,
    ) -> Comparison<'a, C>
        requires { (i : ℕ) → SoundEntries (C.Counting.operations counting.now) (entries (type_at types.now i)) }
        ensures counting { result.counting.now ≡ counting.now }
        ensures types { result.types.now ≡ types.now }
        ensures arguments { result.arguments.now ≡ arguments.now }
    {
        Comparison {
            counting,
            types,
            arguments,
        }
    }

    // The level and the two types are no fields: all three are others at each step into the types.

    /// Whether type `left` is type `right` with the arguments put in at this level, as a component of a channel has it
    /// at level 1: their heads are the same, and so are their components in turn, one level further in.
    pub(crate) fn is_same(&self, level: usize, left: usize, right: usize) -> bool
        requires { nests self.now.types.now (4 - level) right ≡ true }
        ensures { Decides result (SameWithin (C.Counting.operations self.now.counting.now) self.now.types.now (parts self.now.arguments.now) level (4 - level) left right) }
    {
        if !self.has_same_head(level, left, right) {
            return false;
        }
        let a = type_at(self.types, left);
        let b = type_at(self.types, right);
        let pairs = a.components().into_iter().zip(b.components());
        for (component, required) in pairs {
            if !self.is_same(level + 1, usize::from(component), usize::from(required)) {
                return false;
            }
        }
        true
    }

    /// Whether two types are of one kind and, for channels, have equal counts and effects, once the arguments are put
    /// into the right one at this level.
    fn has_same_head(&self, level: usize, left: usize, right: usize) -> bool
        ensures { Decides result (SameHead (C.Counting.operations self.now.counting.now) (parts self.now.arguments.now) level (type_at self.now.types.now left) (type_at self.now.types.now right)) }
    {
        match (type_at(self.types, left), type_at(self.types, right)) {
            (SheetType::Pure, SheetType::Pure) => true,
            (SheetType::Public, SheetType::Public) => true,
            (SheetType::Channel(a), SheetType::Channel(b)) => {
                a.components.count() == b.components.count()
                    && self.has_same_effect(level, left, right)
            }
            // A pair of patterns: the types have no `==`, as their tables of entries have none.
            _ => false,
        }
    }

    /// Whether two types have equal effects, once the arguments are put into the right one at this level.
    fn has_same_effect(&self, level: usize, left: usize, right: usize) -> bool
        ensures { Decides result (SameEffects (C.Counting.operations self.now.counting.now) (map entry (entries (type_at self.now.types.now left))) (map (fill_entry (parts self.now.arguments.now) level) (map entry (entries (type_at self.now.types.now right))))) }
    {
        let filled = fill_entries(self.arguments, level, entries_of(self.types, right));
        let own = Effect::new(self.counting, entries_of(self.types, left));
        own.is_same(&Effect::new(self.counting, filled.as_slice()))
    }
}
