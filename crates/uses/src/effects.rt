//! Effects compared: the amounts that two lists of entries give every label.
ghost use Rattle.std.specs.Prelude.{◌≡◌, ◌≤◌, true, map, Decides};
ghost use Rattle.std.specs.List.{AllByRecursion};
ghost use Rattle.calculus.specs.Types.{entries_at};
ghost use Rattle.meaning.specs.Labels.{label_of};
ghost use Rattle.meaning.specs.Types as meant;
ghost use Rattle.uses.specs.Entries.{placed_label, SoundEntries, SameAmounts, SameEffects};

use counting::Counting;
use fault::Label;
use meaning::joined_for;
use tables::tables::{Entry, Item};

/// A type's effect: its entries, whose amounts this counting can join and whose labels can be compared.
#[derive(Drop)]
pub(crate) struct Effect<'a, C: Counting> {
    counting: &'a C,
    entries: &'a [Entry],
    ghost sound: { ∥ SoundEntries (C.Counting.operations counting.now) entries.now ∥₁ },
}

impl<'a, C: Counting> Effect<'a, C> {
    /// The effect of these entries.
    pub(crate) fn new(counting: &'a C, entries: &'a [Entry]) -> Effect<'a, C>
        requires { ∥ SoundEntries (C.Counting.operations counting.now) entries.now ∥₁ }
        ensures counting { result.counting.now ≡ counting.now }
        ensures entries { result.entries.now ≡ entries.now }
    {
        Effect { counting, entries }
    }

    /// What the entries give a label: the amounts of those that have this label, joined.
    fn amount_at(&self, label: &Label<Item>) -> u32
        requires { placed_label label.now ≡ true }
        ensures { result ≡ entries_at (C.Counting.operations self.now.counting.now) (map meant.entry self.now.entries.now) (label_of meant.item label.now.items) }
    {
        joined_for(self.counting, self.entries, label)
    }

    /// Whether this effect and another give the same amounts to the labels of some entries.
    fn agrees_on(&self, other: &Effect<'a, C>, some: &Effect<'a, C>) -> bool
        requires { self.now.counting.now ≡ other.now.counting.now }
        ensures { Decides result (AllByRecursion (SameAmounts (C.Counting.operations self.now.counting.now) (map meant.entry self.now.entries.now) (map meant.entry other.now.entries.now)) (map meant.entry some.now.entries.now)) }
    {
        for entry in some.entries {
            let label = &entry.label;
            if self.amount_at(label) != other.amount_at(label) {
                return false;
            }
        }
        true
    }

    /// Whether this effect and another give the same amount to every label: it is enough to look at their own labels,
    /// since both give every other label nothing.
    pub(crate) fn is_same(&self, other: &Effect<'a, C>) -> bool
        requires { self.now.counting.now ≡ other.now.counting.now }
        ensures { Decides result (SameEffects (C.Counting.operations self.now.counting.now) (map meant.entry self.now.entries.now) (map meant.entry other.now.entries.now)) }
    {
        self.agrees_on(other, self) && self.agrees_on(other, other)
    }
}
