//! The nodes as a tree: each child above its parent, and every node but 0 a child just once.
ghost use Rattle.std.specs.Prelude.{◌≡◌, ℕ, ◌+◌, ◌<◌, ◌≤◌, true, not, ◌&&◌, ◌||◌, [], ◌∷◌, length, ◌==◌, nat_lt, slice_index};
ghost use Rattle.fault.specs.First.{Lowest};
ghost use Rattle.tables.specs.Encoding.{parts};
ghost use Rattle.tables.specs.Range.{all};
ghost use Rattle.sheet.specs.Tree.{children, times, named, misgrown};

use fault::Items;
use tables::tables::Node;
use tables::tuple::Tuple;

/// The numbers of the nodes that go on from a node: two at most.
pub fn children_of(node: &Node) -> Tuple<u16>
    ensures { parts result ≡ children node.now }
{
    match node {
        Node::Stop | Node::Send { .. } => Tuple(None),
        Node::Receive { next, .. }
        | Node::Copy { next }
        | Node::New { next, .. }
        | Node::Begin { next, .. }
        | Node::End { next, .. } => Tuple(Some(Items::One(*next))),
        Node::Both { first, second } => Tuple(Some(Items::Two(*first, *second))),
        Node::Test { same, other, .. } => Tuple(Some(Items::Two(*same, *other))),
    }
}

/// One more for a child, if it has a place. One shape with `note` of the chart, which writes and says something else.
fn count_child(child: usize, counts: &mut [usize])
    requires { (k : ℕ) → k < length counts.old → slice_index counts.old k ≤ 8192 }
    ensures { (k : ℕ) → k < length counts.old → slice_index counts.new k ≡ slice_index counts.old k + times k (child ∷ []) }
{
    if child < counts.len() {
        counts[child] += 1;
    }
}

/// One more for each of the children that has a place.
fn count_each(children: Tuple<u16>, counts: &mut [usize])
    requires { (k : ℕ) → k < length counts.old → slice_index counts.old k ≤ 4096 }
    ensures { (k : ℕ) → k < length counts.old → slice_index counts.new k ≡ slice_index counts.old k + times k (parts children) }
{
    for child in children {
        count_child(usize::from(child), counts);
    }
}

// That there are at most 1,024 nodes is what `Table<Node, 1024>` holds; these functions ask it of a slice, over which their
// loops go.

/// How often each number that has a place is named as a child.
fn count_children(nodes: &[Node], counts: &mut [usize])
    requires few { length nodes.now ≤ 1024 }
    requires fresh { (k : ℕ) → k < length counts.old → slice_index counts.old k ≡ 0 }
    ensures { (k : ℕ) → k < length counts.old → slice_index counts.new k ≡ named nodes.now k }
{
    for node in nodes {
        count_each(children_of(node), counts);
    }
}

/// Whether node number `n`, which is named `count` times, has a child not above it or is not a child just once.
fn is_misgrown(node: &Node, n: usize, count: usize) -> bool
    ensures { result ≡ (not (all (λ c. nat_lt n c) (children node.now)) || (nat_lt 0 n && not (count == 1))) }
{
    let above = children_of(node).all(|c| n < usize::from(c));
    !above || (n > 0 && count != 1)
}

/// The first misgrown node, where `counts` says how often each is named.
fn find_misgrown(nodes: &[Node], counts: &[usize]) -> Option<usize>
    requires room { length nodes.now ≤ length counts.now }
    requires counted { (k : ℕ) → k < length counts.now → slice_index counts.now k ≡ named nodes.now k }
    ensures { Lowest (λ n. misgrown nodes.now n ≡ true) (length nodes.now) result }
{
    for (n, node) in nodes.iter().enumerate() {
        if is_misgrown(node, n, counts[n]) {
            return Some(n);
        }
    }
    None
}

/// The first node that has a child not above it, or is not 0 and not a child just once.
pub fn first_misgrown(nodes: &[Node]) -> Option<usize>
    requires { length nodes.now ≤ 1024 }
    ensures { Lowest (λ n. misgrown nodes.now n ≡ true) (length nodes.now) result }
{
    // An array by number, since nothing here may allocate.
    let mut counts = [0; 1024];
    count_children(nodes, &mut counts);
    find_misgrown(nodes, &counts)
}
