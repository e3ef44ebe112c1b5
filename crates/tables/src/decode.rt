//! Records read back into the forms of the tables.
//!
//! These are functions and no `TryFrom`: that asks for an error, and there is nothing to tell but that there is none;
//! an entry and a tuple are made of two values, and neither `Label` nor `Quad` is of this crate.
ghost use Rattle.std.specs.Prelude.{◌≡◌, map, length, IfSome};
ghost use Rattle.fault.specs.Items.{list};
ghost use Rattle.tables.specs.Decoding as decoding;
ghost use Rattle.tables.specs.Encoding.{parts, spread, item_byte, entry_record, node_record};
ghost use Rattle.records.specs.declared.record.Record.TheVariants.{Entry as entry};

use crate::tables::{Entry, Item, Node};
use crate::tuple::Tuple;
use fault::{Items, Label};
use records::record::{Quad, Record};

/// The bytes that are used, at least one; none where a byte stands after one that is not used. The forms are written out:
/// which of them it is, is what the bytes say.
fn used(bytes: Quad) -> Option<Items<u8>>
    ensures value { result ≡ decoding.used bytes }
    ensures back { IfSome result (λ xs. spread (list xs) ≡ bytes) }
{
    match bytes {
        Quad(255, _, _, _) => None,
        Quad(a, 255, 255, 255) => Some(Items::One(a)),
        Quad(_, 255, _, _) => None,
        Quad(a, b, 255, 255) => Some(Items::Two(a, b)),
        Quad(_, _, 255, _) => None,
        Quad(a, b, c, 255) => Some(Items::Three(a, b, c)),
        Quad(a, b, c, d) => Some(Items::Four(a, b, c, d)),
    }
}

/// So many bytes that are used, and no others.
pub fn tuple_of(count: u8, bytes: Quad) -> Option<Tuple<u8>>
    ensures value { result ≡ decoding.tuple_of count bytes }
    ensures back { IfSome result (λ xs. (length (parts xs) ≡ count) × (spread (parts xs) ≡ bytes)) }
{
    if count == 0 {
        return (bytes == Quad(255, 255, 255, 255)).then_some(Tuple(None));
    }
    let items = used(bytes)?;
    (items.count() == usize::from(count)).then_some(Tuple(Some(items)))
}

/// The label of names that is written so.
pub fn label_of(bytes: Quad) -> Option<Label<u8>>
    ensures value { result ≡ decoding.label_of bytes }
    ensures back { IfSome result (λ l. spread (list l.items) ≡ bytes) }
{
    used(bytes).map(|items| Label { items })
}

/// The item that a byte stands for: a name below 64, an index below 80.
fn item_of(byte: u8) -> Option<Item>
    ensures value { result ≡ decoding.item_of byte }
    ensures back { IfSome result (λ i. item_byte i ≡ byte) }
{
    match byte {
        0..=63 => Some(Item::Name(byte)),
        64..=79 => Some(Item::Index {
            arrows: (byte - 64) / 4,
            position: (byte - 64) % 4 + 1,
        }),
        _ => None,
    }
}

/// The items that bytes stand for.
fn items_of(bytes: Items<u8>) -> Option<Items<Item>>
    ensures value { result ≡ decoding.items_of bytes }
    ensures back { IfSome result (λ xs. map item_byte (list xs) ≡ list bytes) }
{
    bytes.try_map(item_of)
}

/// The entry that is written so.
pub fn entry_of(amount: u32, bytes: Quad) -> Option<Entry>
    ensures value { result ≡ decoding.entry_of amount bytes }
    ensures back { IfSome result (λ e. entry_record e ≡ entry amount bytes) }
{
    let items = items_of(used(bytes)?)?;
    Some(Entry {
        label: Label { items },
        amount,
    })
}

/// The node that a record means.
pub fn node_of(given: Record) -> Option<Node>
    ensures value { result ≡ decoding.node_of given }
    ensures back { IfSome result (λ x. node_record x ≡ given) }
{
    match given {
        Record::Stop => Some(Node::Stop),
        Record::Send {
            channel,
            count,
            names,
        } => Some(Node::Send {
            channel,
            names: tuple_of(count, names)?,
        }),
        Record::Receive {
            channel,
            count,
            names,
            next,
        } => {
            Some(Node::Receive {
                channel,
                names: tuple_of(count, names)?,
                next,
            })
        }
        Record::Both { first, second } => Some(Node::Both { first, second }),
        Record::Copy { next } => Some(Node::Copy { next }),
        Record::New { name, next } => Some(Node::New { name, next }),
        Record::Test {
            left,
            right,
            same,
            other,
        } => Some(Node::Test {
            left,
            right,
            same,
            other,
        }),
        Record::Begin { names, next } => Some(Node::Begin {
            label: label_of(names)?,
            next,
        }),
        Record::End { names, next } => Some(Node::End {
            label: label_of(names)?,
            next,
        }),
        _ => None,
    }
}
