//! The chart of a sheet's nodes: which node binds each name, and which node each is a child of.
ghost use Rattle.std.specs.Prelude.{◌≡◌, ℕ, ◌<◌, List, [], ◌∷◌, length, None, slice_index_or};
ghost use Rattle.std.specs.Option.{option_or};
ghost use Rattle.std.specs.Bool.{then_some};
ghost use Rattle.tables.specs.Encoding.{parts};
ghost use Rattle.sheet.specs.Tree.{children};
ghost use Rattle.tables.specs.declared.tables.Node.{Node};
ghost use Rattle.sheet.specs.Scope.{member, binds, Holders};

use crate::tree::children_of;
use fault::Items;
use tables::tables::Node;
use tables::tuple::Tuple;

/// For each name the lowest node that binds it, and for each number the lowest node that has it as a child. Arrays by
/// number, since nothing here may allocate.
#[derive(Drop)]
pub struct Chart {
    binders: [Option<usize>; 64],
    parents: [Option<usize>; 1024],
}

impl Chart {
    /// The chart of these nodes.
    pub fn new(nodes: &[Node]) -> Chart
        ensures binders { Holders binds nodes.now (length nodes.now) result.binders }
        ensures parents { Holders children nodes.now (length nodes.now) result.parents }
        ensures sizes { (length result.binders ≡ 64) × (length result.parents ≡ 1024) }
    {
        let mut binders = [None; 64];
        let mut parents = [None; 1024];
        find_holders(nodes, |node| names_bound(node).map(u16::from), &mut binders);
        find_holders(nodes, children_of, &mut parents);
        Chart { binders, parents }
    }

    /// The node that binds the name; none also for a name that there cannot be.
    pub fn binder(&self, name: usize) -> Option<usize>
        ensures { result ≡ slice_index_or self.now.binders name None }
    {
        at(&self.binders, name)
    }

    /// The node that this one is a child of; none also for a node that there cannot be.
    pub fn parent(&self, node: usize) -> Option<usize>
        ensures { result ≡ slice_index_or self.now.parents node None }
    {
        at(&self.parents, node)
    }
}

/// The names that a node binds.
pub fn names_bound(node: &Node) -> Tuple<u8>
    ensures { parts result ≡ binds node.now }
{
    match node {
        Node::Receive { names, .. } => *names,
        Node::New { name, .. } => Tuple(Some(Items::One(*name))),
        _ => Tuple(None),
    }
}

/// Notes node `n` for number `x`, if it has a place, unless a node is noted there already.
// One shape with `count_child`, and with `mark_name` of names: what is written differs (the lowest node, one more, a mark),
// and so does what is said of it.
fn note(x: usize, n: usize, table: &mut [Option<usize>])
    ensures { (y : ℕ) → y < length table.old → slice_index_or table.new y None ≡ option_or (slice_index_or table.old y None) (then_some (member y (x ∷ [])) n) }
{
    if x < table.len() && table[x].is_none() {
        table[x] = Some(n);
    }
}

/// Notes node `n` for each of the numbers.
fn note_each(numbers: Tuple<u16>, n: usize, table: &mut [Option<usize>])
    ensures { (y : ℕ) → y < length table.old → slice_index_or table.new y None ≡ option_or (slice_index_or table.old y None) (then_some (member y (parts numbers)) n) }
{
    for number in numbers {
        note(usize::from(number), n, table);
    }
}

/// The lowest node that holds each number that has a place, where `held` tells which numbers a node holds.
fn find_holders<F: Fn(&Node) -> Tuple<u16>>(nodes: &[Node], held: F, table: &mut [Option<usize>])
    requires callable { F.IsAlwaysCallable held }
    requires empty { (x : ℕ) → x < length table.old → slice_index_or table.old x None ≡ None }
    ensures { (of : Node → List ℕ) → ((node : _) (r : _) → F.post held node r → parts r ≡ of node.now) → Holders of nodes.now (length nodes.now) table.new }
{
    for (n, node) in nodes.iter().enumerate() {
        note_each(held(node), n, table);
    }
}

/// What a table has at a place; none past its end.
fn at(table: &[Option<usize>], place: usize) -> Option<usize>
    ensures { result ≡ slice_index_or table.now place None }
{
    table.get(place).copied().flatten()
}
