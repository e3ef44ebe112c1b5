//! The work rows: eight a node.
ghost use Rattle.std.specs.Prelude.{◌≡◌, ℕ, ◌+◌, ◌*◌, ◌<◌, ◌≤◌, map, length, replicate, slice_index_or};
ghost use Rattle.calculus.specs.Effects.{named as name_of};
ghost use Rattle.tables.specs.Encoding.{parts};
ghost use Rattle.meaning.specs.Types.{item as item_of};
ghost use Rattle.effects.specs.Rows.{blank, map_items, entry_row, carried, rows_of, Filled, places};

use crate::row::Row;
use crate::work::ROWS;
use fault::{Items, Label};
use sheet::types::entries_of;
use std::array;
use tables::tables::{Entry, Item, Node, SheetType};
use tables::tuple::Tuple;

/// A row of nothing: what stands in a row that is not used. No `Option`: the rows are lent, so many bytes each.
fn blank_row() -> Row
    ensures { result ≡ blank }
{
    Row {
        label: Label {
            items: Items::One(0),
        },
        amount: 0,
    }
}

/// Sets all rows to zero. That they are zero again is promised by each public call to which rows are lent, as they stay the
/// caller's.
pub fn clear_rows(rows: &mut [Row])
    ensures { rows.new ≡ replicate (length rows.old) blank }
{
    rows.fill(blank_row());
}

/// The name that an item stands for, once the names are put in; 0 past the last name, as the rules' own look-up has it, and
/// so no `Option`.
fn put_in(names: &Tuple<u8>, item: Item) -> u8
    ensures { result ≡ name_of (parts names.now) (item_of item) }
{
    match item {
        Item::Name(name) => name,
        Item::Index { position, .. } => names
            .get(usize::from(position).saturating_sub(1))
            .unwrap_or(0),
    }
}

/// The row of an entry, with the names put in.
fn row_of_entry(names: &Tuple<u8>, entry: &Entry) -> Row
    ensures { result ≡ entry_row (parts names.now) entry.now }
{
    let items = entry.label.items.map(|item| put_in(names, item));
    Row {
        label: Label { items },
        amount: entry.amount,
    }
}

/// The entries of what a message on a channel carries. The number of its type is looked up as `Tables::type_number` does,
/// in the lists alone: who fills rows need not have tables.
fn carried<'a>(types: &'a [SheetType], owners: &[u8], channel: u8) -> &'a [Entry]
    ensures { result.now ≡ carried types.now owners.now channel }
{
    let number = owners.get(usize::from(channel));
    entries_of(types, number.map_or(types.len(), |at| usize::from(*at)))
}

/// What stands in the eight rows of a node: what its message carries, or one full right, and then rows of nothing.
fn rows_for(full: u32, types: &[SheetType], owners: &[u8], node: &Node) -> [Row; 8]
    ensures size { length result ≡ 8 }
    ensures rows { (j : ℕ) → j < 8 → slice_index_or result j blank ≡ slice_index_or (rows_of full types.now owners.now node.now) j blank }
{
    match *node {
        Node::Send { channel, names } | Node::Receive { channel, names, .. } => {
            entry_rows(carried(types, owners, channel), &names)
        }
        Node::Begin { label, .. } | Node::End { label, .. } => {
            let mut rows = [blank_row(); 8];
            rows[0] = Row {
                label,
                amount: full,
            };
            rows
        }
        _ => [blank_row(); 8],
    }
}

/// The rows of what a message with these names carries, and then rows of nothing.
fn entry_rows(all: &[Entry], names: &Tuple<u8>) -> [Row; 8]
    ensures size { length result ≡ 8 }
    ensures rows { (j : ℕ) → j < 8 → slice_index_or result j blank ≡ slice_index_or (map (entry_row (parts names.now)) all.now) j blank }
{
    array::from_fn(|j| entry_at(all, names, j))
}

/// Row `j` of what a message with these names carries.
fn entry_at(all: &[Entry], names: &Tuple<u8>, j: usize) -> Row
    ensures { result ≡ slice_index_or (map (entry_row (parts names.now)) all.now) j blank }
{
    all.get(j)
        .map_or(blank_row(), |entry| row_of_entry(names, entry))
}

/// Writes the rows of all nodes.
pub fn fill_rows(full: u32, types: &[SheetType], owners: &[u8], nodes: &[Node], rows: &mut [Row])
    requires { 8 * length nodes.now ≤ length rows.old }
    ensures { Filled full types.now owners.now nodes.now rows.new (8 * length nodes.now) }
{
    for (n, node) in nodes.iter().enumerate() {
        rows[ROWS * n..ROWS * n + ROWS].copy_from_slice(&rows_for(full, types, owners, node));
    }
}

/// The rows of a node.
pub fn node_rows(rows: &[Row], node: usize) -> &[Row]
    requires { 8 * node + 8 ≤ length rows.now }
    ensures { result.now ≡ places rows.now node }
{
    &rows[ROWS * node..ROWS * node + ROWS]
}
