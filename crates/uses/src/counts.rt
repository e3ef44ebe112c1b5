//! Whether a node's channel takes as many names as go with it.
ghost use Rattle.std.specs.Prelude.{length, Decides};
ghost use Rattle.calculus.specs.Typing.{Takes};
ghost use Rattle.tables.specs.Elements.{elements};
ghost use Rattle.sheet.specs.Tree.{node_at};
ghost use Rattle.meaning.specs.Failures.{FirstFailure};
ghost use Rattle.meaning.specs.Types.{types_of};
ghost use Rattle.meaning.specs.Uses.{CountFits};

use crate::lookup::type_at;
use tables::tables::{Node, SheetType, Tables};

/// The first node whose channel is pure or takes another count of names, or none.
pub(crate) fn first_miscounted(tables: &Tables) -> Option<usize>
    ensures { FirstFailure (λ n. CountFits (types_of tables.now) (node_at (elements tables.now.nodes) n)) (length (elements tables.now.nodes)) result }
{
    let nodes = tables.nodes.as_slice();
    nodes.iter().position(|node| !count_fits(tables, node))
}

/// Whether the node uses no channel, or one that takes as many names as go with it.
fn count_fits(tables: &Tables, node: &Node) -> bool
    ensures { Decides result (CountFits (types_of tables.now) node.now) }
{
    match node {
        Node::Send { channel, names } | Node::Receive { channel, names, .. } => {
            takes(tables, *channel, names.count())
        }
        _ => true,
    }
}

/// Whether a name is a channel for so many names.
fn takes(tables: &Tables, channel: u8, count: usize) -> bool
    ensures { Decides result (Takes (types_of tables.now channel) count) }
{
    let at = tables.type_number(usize::from(channel));
    match type_at(tables.types.as_slice(), at) {
        SheetType::Pure => false,
        SheetType::Public => true,
        SheetType::Channel(found) => found.components.count() == count,
    }
}
