//! The second look at a sheet: its records, in range, become its tables.
ghost use Rattle.std.specs.Prelude.{◌≡◌, ℕ, ◌<◌, ◌≤◌, List, [], length, Decides, MatchOption};
ghost use Rattle.sheet.specs.Order.{class_of};
ghost use Rattle.tables.specs.Range.{Fits};
ghost use Rattle.sheet.specs.Filling.{totals_of, Room, Grown, IsType, IsEntry, last_channel, NoTypeFits, NoEntryFits, NoNameFits, NoNodeFits, Readable, Filled};
ghost use Rattle.tables.specs.Elements.{elements};
ghost use Rattle.records.specs.declared.record.Record.{Record};
ghost use Rattle.records.specs.declared.record.Record.TheVariants.{Head as head};
ghost use Rattle.sheet.specs.declared.census.Class.TheVariants.{Entry as entry};

use crate::census::{Census, Class};
use crate::scan::class;
use fault::Fault;
use records::record::{Record, read};
use tables::basis::Basis;
use tables::decode::{entry_of, node_of, tuple_of};
use tables::range::{entry_fits, node_fits, tuple_below};
use tables::tables::{ChannelType, Entry, Node, SheetType, Tables, no_entries};

/// What every record is held to: what the counting asks for, and how many of each the whole sheet has.
#[derive(Clone, Copy)]
struct Limits {
    basis: Basis,
    totals: Census,
    ghost few: { totals.names ≤ 64 },
}

/// The type that a record means, as type number `own`, with no entries yet; none where it is out of range.
fn type_of(given: Record, own: usize) -> Option<SheetType>
    requires { own ≤ 64 }
    ensures { MatchOption result (NoTypeFits own given) (IsType own given) }
{
    match given {
        Record::Pure => Some(SheetType::Pure),
        Record::Public => Some(SheetType::Public),
        Record::Channel { count, components } => {
            let components = tuple_of(count, components)?;
            if !tuple_below(own, &components) {
                return None;
            }
            Some(SheetType::Channel(ChannelType {
                components,
                entries: no_entries(),
            }))
        }
        _ => None,
    }
}

/// The entry that a record means; none where it is out of range.
fn entry_in(given: Record, limits: Limits) -> Option<Entry>
    ensures { MatchOption result (NoEntryFits limits.basis (totals_of limits.totals) given) (IsEntry limits.basis (totals_of limits.totals) given) }
{
    let Record::Entry { amount, items } = given else {
        return None;
    };
    let made = entry_of(amount, items)?;
    entry_fits(limits.basis.largest, limits.totals.names, &made).then_some(made)
}

// `tables`, a record and `limits` stay three here: the first change, the second is taken apart, the third is read; a struct
// of them would be made once and taken apart at once.

/// The type of a record, at the end of the types; none where it is out of range.
fn add_type(tables: &mut Tables, given: Record, limits: Limits) -> Option<()>
    requires { length (elements tables.old.types) < 64 }
    ensures { MatchOption result (NoTypeFits (length (elements tables.old.types)) given) (λ _. Grown limits.basis (totals_of limits.totals) tables.old tables.new given) }
{
    let made = type_of(given, tables.types.len())?;
    tables.types.push(made).ok()
}

/// The last type, where it is a channel.
fn last_channel(tables: &Tables) -> Option<ChannelType>
    ensures { result ≡ last_channel tables.now }
{
    match tables.types.last() {
        Some(SheetType::Channel(channel)) => Some(channel),
        _ => None,
    }
}

/// The entry of a record, at the end of the last channel's; none where it is out of range.
fn add_entry(tables: &mut Tables, given: Record, limits: Limits) -> Option<()>
    requires { Room tables.old entry }
    ensures { MatchOption result (NoEntryFits limits.basis (totals_of limits.totals) given) (λ _. Grown limits.basis (totals_of limits.totals) tables.old tables.new given) }
{
    let made = entry_in(given, limits)?;
    let mut channel = last_channel(tables)?;
    channel.entries.push(made).ok()?;
    tables.types.replace_last(SheetType::Channel(channel));
    Some(())
}

/// The name of a record, at the end of the names; none where it is out of range.
fn add_name(tables: &mut Tables, given: Record, limits: Limits) -> Option<()>
    requires { length (elements tables.old.names) < 64 }
    ensures { MatchOption result (NoNameFits (totals_of limits.totals) given) (λ _. Grown limits.basis (totals_of limits.totals) tables.old tables.new given) }
{
    match given {
        Record::Name { sort } if usize::from(sort) < limits.totals.types => tables
            .names
            .push(sort)
            .ok(),
        _ => None,
    }
}

/// The node of a record, at the end of the nodes; none where it is out of range.
fn add_node(tables: &mut Tables, given: Record, limits: Limits) -> Option<()>
    requires { length (elements tables.old.nodes) < 1024 }
    ensures { MatchOption result (NoNodeFits (totals_of limits.totals) given) (λ _. Grown limits.basis (totals_of limits.totals) tables.old tables.new given) }
{
    let made = node_of(given)?;
    if !node_fits(limits.totals.names, limits.totals.nodes, &made) {
        return None;
    }
    tables.nodes.push(made).ok()
}

/// What a record means, at its place in the tables; none where it is out of range.
fn add(tables: &mut Tables, given: Record, limits: Limits) -> Option<()>
    requires { Room tables.old (class_of given) }
    ensures { MatchOption result (Fits limits.basis (totals_of limits.totals) (length (elements tables.old.types)) given → ⊥) (λ _. Grown limits.basis (totals_of limits.totals) tables.old tables.new given) }
{
    // No function is chosen here that is called later: the classes are few, and each has its own `requires`.
    match class(given) {
        Class::Head => None,
        Class::Plain | Class::Channel => add_type(tables, given, limits),
        Class::Entry => add_entry(tables, given, limits),
        Class::Name => add_name(tables, given, limits),
        Class::Node => add_node(tables, given, limits),
    }
}

/// Whether a head is the one that the counting asks for.
fn head_fits(given: Record, basis: Basis) -> bool
    ensures { Decides result (given ≡ head 1 basis.code basis.full) }
{
    given
        == Record::Head {
            edition: 1,
            code: basis.code,
            full: basis.full,
        }
}

/// The tables that the records of `bytes` mean, or the first record that is out of range. All records can be read and
/// stand in order, and `totals` is how many there are of each.
pub fn fill(bytes: &[u8], basis: Basis, totals: Census) -> Result<Tables, Fault>
    requires { (rs : List Record) × Readable bytes.now totals rs }
    ensures { Filled basis bytes.now totals result }
{
    let Some((head, rest)) = read(bytes) else {
        return Err(Fault::Unreadable(0));
    };
    if !head_fits(head, basis) {
        return Err(Fault::OutOfRange(0));
    }
    let limits = Limits { basis, totals };
    let mut tables = Tables::new();
    // The place is counted along with the bytes that are left: an iterator of what `read` gives would be a type with laws of
    // its own, for two loops (this one and that of `scan`) that both end where the bytes are no record.
    let mut place = 1;
    let mut left = rest;
    while !left.is_empty() {
        let Some((next, rest)) = read(left) else {
            return Err(Fault::Unreadable(place));
        };
        let Some(()) = add(&mut tables, next, limits) else {
            return Err(Fault::OutOfRange(place));
        };
        place += 1;
        left = rest;
    }
    Ok(tables)
}
