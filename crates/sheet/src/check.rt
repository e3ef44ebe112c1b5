//! The third look at a sheet: its nodes form a tree, its names are in scope, and its types are well shaped.
ghost use Rattle.std.specs.Prelude.{◌≡◌, ℕ, ◌<◌, ◌≤◌, true, length};
ghost use Rattle.std.specs.List.{flat_map};
ghost use Rattle.fault.specs.First.{First};
ghost use Rattle.tables.specs.Elements.{elements};
ghost use Rattle.tables.specs.Encoding.{type_records};
ghost use Rattle.tables.specs.Range.{ranged, totals};
ghost use Rattle.tables.specs.Channels.{entries};
ghost use Rattle.sheet.specs.Types.{type_at};
ghost use Rattle.sheet.specs.Opening.{Crooked, Limited, fault_of};

use crate::scope::first_misnamed;
use crate::tree::first_misgrown;
use crate::types::first_misformed;
use fault::Fault;
use tables::tables::{SheetType, Tables};

/// How many records a type has: its own, and those of its entries.
fn records_of_type(given: &SheetType) -> usize
    ensures value { result ≡ length (type_records given.now) }
    ensures few { result ≤ 9 }
    ensures entries { length (entries given.now) ≤ 8 }
{
    match given {
        SheetType::Pure | SheetType::Public => 1,
        SheetType::Channel(channel) => 1 + channel.entries.len(),
    }
}

/// How many records the types have.
fn records_of_types(types: &[SheetType]) -> usize
    requires { length types.now ≤ 64 }
    ensures value { result ≡ length (flat_map type_records types.now) }
    ensures few { result ≤ 576 }
    ensures each { (i : ℕ) → i < length types.now → length (entries (type_at types.now i)) ≤ 8 }
{
    types.iter().map(records_of_type).sum()
}

/// The first fault of tables whose fields are in range, or none.
pub(crate) fn check(tables: &Tables) -> Result<(), Fault>
    requires { (largest : ℕ) × (ranged largest (totals tables.now) tables.now ≡ true) }
    ensures first { First (Crooked tables.now) (fault_of result) }
    ensures limits { Limited tables.now }
{
    let types = tables.types.as_slice();
    let nodes = tables.nodes.as_slice();
    let before = 1 + records_of_types(types) + tables.names.len();
    if let Some(node) = first_misgrown(nodes) {
        return Err(Fault::NotATree(before + node));
    }
    if let Some(node) = first_misnamed(nodes) {
        return Err(Fault::OutOfScope(before + node));
    }
    if let Some(at) = first_misformed(types) {
        return Err(Fault::BadType(1 + records_of_types(&types[0..at])));
    }
    Ok(())
}
