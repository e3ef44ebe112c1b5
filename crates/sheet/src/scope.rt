//! Scope: a name is bound once at most, and used only below its binder.
ghost use Rattle.std.specs.Prelude.{◌≡◌, ℕ, ◌<◌, ◌≤◌, true, false, ◌⊎◌, ◌++◌, length, Decides};
ghost use Rattle.fault.specs.First.{Lowest};
ghost use Rattle.tables.specs.Encoding.{parts};
ghost use Rattle.tables.specs.Range.{all, node_fits};
ghost use Rattle.sheet.specs.Tree.{misgrown};
ghost use Rattle.sheet.specs.Scope.{repeats, binds, uses, Misnamed, Any, Over, Falling, Taken, Outside};

use crate::chart::{Chart, names_bound};
use fault::Items;
use tables::tables::Node;
use tables::tuple::Tuple;

/// The names that a node uses: its channel, if it has one, and the others.
fn names_used(node: &Node) -> (Tuple<u8>, Tuple<u8>)
    ensures { parts result.0 ++ parts result.1 ≡ uses node.now }
{
    let none = Tuple(None);
    match node {
        Node::Send { channel, names } => (Tuple(Some(Items::One(*channel))), *names),
        Node::Receive { channel, .. } => (Tuple(Some(Items::One(*channel))), none),
        Node::Test { left, right, .. } => (none, Tuple(Some(Items::Two(*left, *right)))),
        Node::Begin { label, .. } | Node::End { label, .. } => (none, Tuple(Some(label.items))),
        _ => (none, none),
    }
}

/// The chart of nodes that form a tree. Every parent has a lower number, so that the way up from a node ends.
#[derive(Clone, Copy)]
struct TreeChart<'a> {
    chart: &'a Chart,
    ghost falls: { Falling chart.now.parents },
}

impl TreeChart<'_> {
    /// Whether `n` stands below node `b`: goes up the parents from `n`.
    fn is_below(&self, n: usize, b: usize) -> bool
        ensures { Decides result (Over self.now.chart.now.parents b n) }
    {
        let mut from = n;
        while let Some(parent) = self.chart.parent(from) {
            if parent == b {
                return true;
            }
            from = parent;
        }
        false
    }

    /// Whether a node with a number lower than `n` binds the name. One of two facts of a name's binder; the other,
    /// `is_outside`, goes up the tree.
    fn is_taken(&self, name: u8, n: usize) -> bool
        ensures { Decides result (Taken self.now.chart.now.binders n name) }
    {
        self.chart.binder(usize::from(name)).is_some_and(|b| b < n)
    }

    /// Whether the name is bound by a node that `n` does not stand below.
    fn is_outside(&self, name: u8, n: usize) -> bool
        ensures { Decides result (Outside self.now.chart.now.binders self.now.chart.now.parents n name) }
    {
        let Some(binder) = self.chart.binder(usize::from(name)) else {
            return false;
        };
        !self.is_below(n, binder)
    }

    /// Whether node number `n` binds a name twice, or one that a node with a lower number binds.
    fn binds_wrongly(&self, node: &Node, n: usize) -> bool
        ensures { Decides result ((repeats (binds node.now) ≡ true) ⊎ Any (Taken self.now.chart.now.binders n) (binds node.now)) }
    {
        let names = names_bound(node);
        has_repeats(&names) || names.any(|x| self.is_taken(x, n))
    }

    /// Whether node number `n` uses a name that is bound by a node that it does not stand below.
    fn uses_wrongly(&self, node: &Node, n: usize) -> bool
        ensures { Decides result (Any (Outside self.now.chart.now.binders self.now.chart.now.parents n) (uses node.now)) }
    {
        let (channel, names) = names_used(node);
        channel.any(|x| self.is_outside(x, n)) || names.any(|x| self.is_outside(x, n))
    }

    /// Whether something is wrong with the names of node number `n`.
    fn is_misnamed(&self, node: &Node, n: usize) -> bool
        ensures { Decides result (((repeats (binds node.now) ≡ true) ⊎ Any (Taken self.now.chart.now.binders n) (binds node.now)) ⊎ Any (Outside self.now.chart.now.binders self.now.chart.now.parents n) (uses node.now)) }
    {
        self.binds_wrongly(node, n) || self.uses_wrongly(node, n)
    }
}

/// Whether a name stands among the names twice.
fn has_repeats(names: &Tuple<u8>) -> bool
    ensures { result ≡ repeats (parts names.now) }
{
    let mut left = names.0;
    while let Some(items) = left {
        let (first, others) = items.split_first();
        if Tuple(others).any(|x| x == first) {
            return true;
        }
        left = others;
    }
    false
}

/// The first node that binds a name already bound, or uses a bound name and does not stand below its binder.
pub fn first_misnamed(nodes: &[Node]) -> Option<usize>
    requires few { length nodes.now ≤ 1024 }
    requires tree { (n : ℕ) → n < length nodes.now → misgrown nodes.now n ≡ false }
    requires ranged { (names : ℕ) × (names ≤ 64) × (all (node_fits names (length nodes.now)) nodes.now ≡ true) }
    ensures { Lowest (Misnamed nodes.now) (length nodes.now) result }
{
    let chart = Chart::new(nodes);
    let tree = TreeChart { chart: &chart };
    for (n, node) in nodes.iter().enumerate() {
        if tree.is_misnamed(node, n) {
            return Some(n);
        }
    }
    None
}
