//! The scope of a name's type, as a mark for each of the 64 names.
ghost use Rattle.std.specs.Prelude.{◌≡◌, ℕ, ◌<◌, false, ◌||◌, [], ◌∷◌, length, take, Some, Decides, slice_index_or};
ghost use Rattle.fault.specs.First.{Lowest};
ghost use Rattle.fault.specs.Items.{nth};
ghost use Rattle.tables.specs.Encoding.{parts};
ghost use Rattle.sheet.specs.Tree.{node_at};
ghost use Rattle.sheet.specs.Scope.{member, binds};
ghost use Rattle.meaning.specs.Scopes.{free, scope_at, scope_for, earlier};
ghost use Rattle.names.specs.Marks.{Marks};

use crate::charted::Charted;
use sheet::chart::names_bound;
use std::array;
use tables::tables::Node;
use tables::tuple::Tuple;

/// Marks the name, if it has a place. One shape with `note` of sheet's charts, which writes and says something else.
fn mark_name(name: usize, marks: &mut [bool])
    ensures { (y : ℕ) → y < length marks.old → slice_index_or marks.new y false ≡ (member y (name ∷ []) || slice_index_or marks.old y false) }
{
    if name < marks.len() {
        marks[name] = true;
    }
}

/// Marks the first `count` of the names.
fn mark(names: &Tuple<u8>, count: usize, marks: &mut [bool])
    ensures { (y : ℕ) → y < length marks.old → slice_index_or marks.new y false ≡ (member y (take count (parts names.now)) || slice_index_or marks.old y false) }
{
    for name in names.first(count) {
        mark_name(usize::from(name), marks);
    }
}

/// The names that node `n` binds; none where there is no such node.
fn bound_at(nodes: &[Node], n: usize) -> Tuple<u8>
    ensures { parts result ≡ binds (node_at nodes.now n) }
{
    nodes.get(n).map_or(Tuple(None), names_bound)
}

/// Whether `x` stands at a place of the names.
fn stands_at(names: &Tuple<u8>, place: usize, x: usize) -> bool
    ensures { Decides result (nth (parts names.now) place ≡ Some x) }
{
    names.get(place).is_some_and(|name| usize::from(name) == x)
}

/// The first place at which `x` stands among the names, or none.
fn place_of(names: &Tuple<u8>, x: usize) -> Option<usize>
    ensures { Lowest (λ k. nth (parts names.now) k ≡ Some x) (length (parts names.now)) result }
{
    (0..names.count()).find(|place| stands_at(names, *place, x))
}

/// How many of the names stand before `x`; all of them, where it is not among them.
fn count_before(names: &Tuple<u8>, x: usize) -> usize
    ensures { take result (parts names.now) ≡ earlier x (parts names.now) }
{
    place_of(names, x).unwrap_or(names.count())
}

impl<'a> Charted<'a> {
    /// The free names. A mark for each number, here and below, since nothing here may allocate.
    fn free_names(&self) -> [bool; 64]
        ensures { Marks result (free self.now.tables.now) }
    {
        array::from_fn(|x| self.is_free(x))
    }

    /// The names in scope at node `n`: the free ones, and those that the nodes above it bind.
    fn scope_at(&self, n: usize) -> [bool; 64]
        requires { n < 1024 }
        ensures { Marks result (scope_at self.now.tables.now n) }
    {
        let mut marks = self.free_names();
        let mut from = n;
        while let Some(parent) = self.chart.parent(from) {
            let names = bound_at(self.tables.nodes.as_slice(), parent);
            mark(&names, names.count(), &mut marks);
            from = parent;
        }
        marks
    }

    // `x < 64` is asked here and in two functions more: it is what the search through the names knows of a name's number.

    /// The names that the type of `x` may mention: those in scope where it is bound, and those earlier in the same
    /// receive; for a free name, the free names.
    pub(crate) fn scope_for(&self, x: usize) -> [bool; 64]
        requires { x < 64 }
        ensures { Marks result (scope_for self.now.tables.now x) }
    {
        let Some(binder) = self.chart.binder(x) else {
            return self.free_names();
        };
        let mut marks = self.scope_at(binder);
        let names = bound_at(self.tables.nodes.as_slice(), binder);
        mark(&names, count_before(&names, x), &mut marks);
        marks
    }
}
