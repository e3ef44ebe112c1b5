//! Arguments put into the labels of a type's entries.
ghost use Rattle.std.specs.Prelude.{◌≡◌, ◌≤◌, true, map, length, take};
ghost use Rattle.calculus.specs.Labels.{map_label};
ghost use Rattle.calculus.specs.Types.{fill_item, fill_entry};
ghost use Rattle.tables.specs.Elements.{elements};
ghost use Rattle.tables.specs.Encoding.{parts};
ghost use Rattle.meaning.specs.Labels.{label_of};
ghost use Rattle.meaning.specs.Types as meant;
ghost use Rattle.uses.specs.Entries.{placed, placed_label, Placed};

use fault::Label;
use tables::table::Table;
use tables::tables::{Entry, Item, no_entries};
use tables::tuple::Tuple;

// That an item is placed (an index counts from 1) is asked in each function here and not held by `Item`: that type is
// public, and a narrower one would ask more of those who make it.

// `arguments` and `level` stay two: the level grows with each step into a type, the arguments stay those of one message.

/// The item with the arguments put in: an index of this level becomes the argument at its position, if there is one;
/// any other item stays.
fn fill_item(arguments: &Tuple<u8>, level: usize, item: Item) -> Item
    requires { placed item ≡ true }
    ensures value { meant.item result ≡ fill_item (parts arguments.now) level (meant.item item) }
    ensures placed { placed result ≡ true }
{
    match item {
        Item::Name(_) => item,
        Item::Index { arrows, position } => {
            if usize::from(arrows) == level {
                arguments
                    .get(usize::from(position) - 1)
                    .map_or(item, Item::Name)
            } else {
                item
            }
        }
    }
}

/// The label with the arguments put in.
fn fill_label(arguments: &Tuple<u8>, level: usize, label: Label<Item>) -> Label<Item>
    requires { placed_label label ≡ true }
    ensures value { label_of meant.item result.items ≡ map_label (fill_item (parts arguments.now) level) (label_of meant.item label.items) }
    ensures placed { placed_label result ≡ true }
{
    let items = label.items.map(|item| fill_item(arguments, level, item));
    Label { items }
}

/// The entries with the arguments put in.
pub(crate) fn fill_entries(
    arguments: &Tuple<u8>,
    level: usize,
    entries: &[Entry],
) -> Table<Entry, 8>
    requires { (length entries.now ≤ 8) × Placed entries.now }
    ensures value { map meant.entry (elements result) ≡ map (fill_entry (parts arguments.now) level) (map meant.entry entries.now) }
    ensures placed { Placed (elements result) }
{
    let mut filled = no_entries();
    for entry in entries {
        let label = fill_label(arguments, level, entry.label);
        let _ = filled.push(Entry {
            label,
            amount: entry.amount,
        });
    }
    filled
}
