//! What the amounts of a sheet's nodes come from.
ghost use Rattle.std.specs.Prelude.{◌≡◌, ◌*◌, ◌≤◌, length, take};
ghost use Rattle.tables.specs.Elements.{elements};

use crate::row::Row;
use tables::tables::{Node, Tables};

/// How many rows a node has.
pub(crate) const ROWS: usize = 8;

/// A counting, the nodes of a sheet, and their work rows: eight a node, in the order of the nodes. The rows stand beside the
/// nodes, as the caller lends them.
#[derive(Drop)]
pub(crate) struct Work<'a, C> {
    pub(crate) counting: &'a C,
    pub(crate) nodes: &'a [Node],
    pub(crate) rows: &'a [Row],
    ghost few: { length nodes.now ≤ 1024 },
    ghost eight: { length rows.now ≡ 8 * length nodes.now },
}

impl<'a, C> Work<'a, C> {
    /// The work on the nodes of these tables, whose rows stand first among the rows.
    pub(crate) fn new(counting: &'a C, tables: &'a Tables, rows: &'a [Row]) -> Work<'a, C>
        requires { 8 * length (elements tables.now.nodes) ≤ length rows.now }
        ensures counting { result.counting.now ≡ counting.now }
        ensures nodes { result.nodes.now ≡ elements tables.now.nodes }
        ensures rows { result.rows.now ≡ take (8 * length (elements tables.now.nodes)) rows.now }
    {
        let nodes = tables.nodes.as_slice();
        Work {
            counting,
            nodes,
            rows: &rows[..ROWS * nodes.len()],
        }
    }
}
