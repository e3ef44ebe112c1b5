//! Labels: their order, and which names they name.
ghost use Rattle.std.specs.Prelude.{◌≡◌, ℕ, ◌<◌, length, IfSome, slice_index};
ghost use Rattle.std.specs.Option.{unwrap_or};
ghost use Rattle.fault.specs.Items.{list, nth};
ghost use Rattle.tables.specs.Encoding.{parts};
ghost use Rattle.sheet.specs.Scope.{member};
ghost use Rattle.effects.specs.Found.{meets, label_before};

use fault::Label;
use std::array;
use tables::tuple::Tuple;

/// The number that a label is ordered by at a place: its item, or 256, above every item, where it has none. As an `Option`
/// the missing one would come first.
fn order_at(label: &Label<u8>, place: usize) -> u16
    ensures value { result ≡ unwrap_or (nth (list label.now.items) place) 256 }
    ensures small { IfSome (nth (list label.now.items) place) (λ x. x < 256) }
{
    label.items.get(place).map_or(256, u16::from)
}

/// The four numbers that a label is ordered by.
fn order_key(label: &Label<u8>) -> [u16; 4]
    ensures size { length result ≡ 4 }
    ensures each { (i : ℕ) → i < 4 → slice_index result i ≡ unwrap_or (nth (list label.now.items) i) 256 }
    ensures small { (i : ℕ) → i < 4 → IfSome (nth (list label.now.items) i) (λ x. x < 256) }
{
    array::from_fn(|place| order_at(label, place))
}

/// Whether one label comes before another: the first items that differ decide, and a missing item comes after every
/// item. A derived order would go by the count of items first, and one of options would put the missing item first.
pub(crate) fn is_before(left: &Label<u8>, right: &Label<u8>) -> bool
    ensures { result ≡ label_before left.now right.now }
{
    order_key(left) < order_key(right)
}

/// Whether a label names a name.
fn mentions(label: &Label<u8>, name: u8) -> bool
    ensures { result ≡ member name (list label.now.items) }
{
    label.items.any(|item| item == name)
}

/// Whether a label names one of the names.
pub(crate) fn mentions_any(label: &Label<u8>, names: &Tuple<u8>) -> bool
    ensures { result ≡ meets (parts names.now) (list label.now.items) }
{
    names.any(|name| mentions(label, name))
}
