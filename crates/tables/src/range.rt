//! Whether fields are in range.
ghost use Rattle.std.specs.Prelude.{◌≡◌};
ghost use Rattle.tables.specs.Encoding.{parts};
ghost use Rattle.tables.specs.Range as range;

use crate::tables::{Entry, Item, Node};
use crate::tuple::Tuple;

/// Whether each number is below `limit`.
pub fn tuple_below(limit: usize, tuple: &Tuple<u8>) -> bool
    ensures { result ≡ range.below limit (parts tuple.now) }
{
    tuple.all(|x| usize::from(x) < limit)
}

/// Whether an item is in range, where there are so many names.
fn item_fits(names: usize, item: Item) -> bool
    ensures { result ≡ range.item_fits names item }
{
    match item {
        Item::Name(name) => usize::from(name) < names,
        Item::Index { arrows, position } => arrows <= 3 && (1..=4).contains(&position),
    }
}

/// Whether an entry is in range: its amount is 1 to the largest, and its items are.
pub fn entry_fits(largest: u32, names: usize, entry: &Entry) -> bool
    ensures { result ≡ range.entry_fits largest names entry.now }
{
    (1..=largest).contains(&entry.amount) && entry.label.items.all(|item| item_fits(names, item))
}

/// Whether a node is in range: its names and the nodes that it goes on to are there.
pub fn node_fits(names: usize, nodes: usize, node: &Node) -> bool
    ensures { result ≡ range.node_fits names nodes node.now }
{
    match *node {
        Node::Stop => true,
        Node::Send {
            channel,
            names: sent,
        } => usize::from(channel) < names && tuple_below(names, &sent),
        Node::Receive {
            channel,
            names: bound,
            next,
        } => {
            usize::from(channel) < names && tuple_below(names, &bound) && usize::from(next) < nodes
        }
        Node::Both { first, second } => usize::from(first) < nodes && usize::from(second) < nodes,
        Node::Copy { next } => usize::from(next) < nodes,
        Node::New { name, next } => usize::from(name) < names && usize::from(next) < nodes,
        Node::Test {
            left,
            right,
            same,
            other,
        } => {
            usize::from(left) < names
                && usize::from(right) < names
                && usize::from(same) < nodes
                && usize::from(other) < nodes
        }
        Node::Begin { label, next } | Node::End { label, next } => {
            label.items.all(|name| usize::from(name) < names) && usize::from(next) < nodes
        }
    }
}
