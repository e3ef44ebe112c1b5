//! Types that are well formed in a scope.
ghost use Rattle.std.specs.Prelude.{◌≡◌, ℕ, ◌<◌, length, Decides};
ghost use Rattle.std.specs.List.{AllByRecursion};
ghost use Rattle.calculus.specs.Scopes.{push, WellFormedItem, WellFormedEntry, WellFormedInside, WellFormed};
ghost use Rattle.tables.specs.Elements.{elements};
ghost use Rattle.meaning.specs.Failures.{FirstFailure};
ghost use Rattle.meaning.specs.Scopes.{scope_for};
ghost use Rattle.meaning.specs.Types as meant;
ghost use Rattle.names.specs.Marks.{marked, outer, Counts};

use crate::charted::Charted;
use sheet::types::{LEVELS, components_of, entries_of};
use tables::tables::{Entry, Item, SheetType};

/// Where a type stands: the names in its scope, and how many arguments of the channels around it come before, from the
/// nearest channel out. Arrays by number, since nothing here may allocate.
#[derive(Drop)]
struct Inside<'a> {
    scope: &'a [bool; 64],
    counts: [usize; 4],
}

impl<'a> Inside<'a> {
    /// One channel further in, with so many arguments of it before.
    fn pushed(&self, count: usize) -> Inside<'a>
        ensures scope { result.scope.now ≡ self.now.scope.now }
        ensures each { (u : ℕ) → u < 4 → outer result.counts u ≡ push count (outer self.now.counts) u }
        ensures size { length result.counts ≡ 4 }
    {
        let [first, second, third, _] = self.counts;
        Inside {
            scope: self.scope,
            counts: [count, first, second, third],
        }
    }

    /// Whether an item may stand in a type: a name in scope, or an argument that comes before.
    fn item_fits(&self, item: Item) -> bool
        ensures { Decides result (WellFormedItem (marked self.now.scope.now) (outer self.now.counts) (meant.item item)) }
    {
        match item {
            Item::Name(name) => {
                let scope = self.scope;
                scope.get(usize::from(name)).copied().unwrap_or(false)
            }
            Item::Index { arrows, position } => {
                let before = self.counts.get(usize::from(arrows)).copied().unwrap_or(0);
                usize::from(position).saturating_sub(1) < before
            }
        }
    }

    /// Whether an entry may stand in a type.
    fn entry_fits(&self, entry: &Entry) -> bool
        ensures { Decides result (WellFormedEntry (marked self.now.scope.now) (outer self.now.counts) (meant.entry entry.now)) }
    {
        entry.label.items.all(|item| self.item_fits(item))
    }

    /// Whether each of the entries may stand in a type.
    fn entries_fit(&self, entries: &[Entry]) -> bool
        ensures { Decides result (AllByRecursion (λ e. WellFormedEntry (marked self.now.scope.now) (outer self.now.counts) (meant.entry e)) entries.now) }
    {
        entries.iter().all(|entry| self.entry_fits(entry))
    }

    // The types and a number among them stay two, as the number changes at each level.

    /// Whether type `at`, so many levels in, is well formed.
    fn is_formed(&self, types: &[SheetType], levels: usize, at: usize) -> bool
        requires { Counts levels self.now.counts }
        ensures { Decides result (WellFormedInside (marked self.now.scope.now) (outer self.now.counts) (meant.type_within types.now levels at)) }
    {
        if levels == 0 {
            return true;
        }
        let inner = components_of(types, at);
        if !self
            .pushed(inner.count())
            .entries_fit(entries_of(types, at))
        {
            return false;
        }
        // As many arguments come before a component as its place says.
        for (place, component) in inner.into_iter().enumerate() {
            if !self
                .pushed(place)
                .is_formed(types, levels - 1, usize::from(component))
            {
                return false;
            }
        }
        true
    }
}

impl<'a> Charted<'a> {
    /// Whether the type of name `x` is well formed in its scope.
    fn is_well_formed(&self, x: usize) -> bool
        requires { x < 64 }
        ensures { Decides result (WellFormed (scope_for self.now.tables.now x) (meant.types_of self.now.tables.now x)) }
    {
        let outermost = Inside {
            scope: &self.scope_for(x),
            counts: [0; 4],
        };
        outermost.is_formed(
            self.tables.types.as_slice(),
            LEVELS,
            self.tables.type_number(x),
        )
    }

    /// The first name whose type is not well formed in its scope, or none.
    pub(crate) fn find_ill_formed(&self) -> Option<usize>
        ensures { FirstFailure (λ x. WellFormed (scope_for self.now.tables.now x) (meant.types_of self.now.tables.now x)) (length (elements self.now.tables.now.names)) result }
    {
        (0..self.tables.names.len()).find(|x| !self.is_well_formed(*x))
    }
}
