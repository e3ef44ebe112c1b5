//! What a type must keep beyond its ranges: no label twice, and nesting at most 4.
ghost use Rattle.std.specs.Prelude.{◌≡◌, ◌-◌, ◌<◌, length, Decides};
ghost use Rattle.fault.specs.First.{Lowest};
ghost use Rattle.tables.specs.Encoding.{parts};
ghost use Rattle.sheet.specs.Labels.{Labelled, Repeated};
ghost use Rattle.tables.specs.Channels.{components, entries};
ghost use Rattle.sheet.specs.Types.{Misformed, nests, type_at};

use fault::Label;
use tables::tables::{Entry, Item, SheetType};
use tables::tuple::Tuple;

/// The most levels that a type may nest.
pub const LEVELS: usize = 4;

/// The number of the first type that has one label on two entries or is nested too deep, or none.
pub fn first_misformed(types: &[SheetType]) -> Option<usize>
    ensures { Lowest (Misformed types.now) (length types.now) result }
{
    // `find` is no plainer here: the proof asks for the closure's contract, written out.
    for at in 0..types.len() {
        if is_misformed(types, at) {
            return Some(at);
        }
    }
    None
}

/// Whether type `at` has one label on two entries or is nested too deep.
fn is_misformed(types: &[SheetType], at: usize) -> bool
    ensures { Decides result (Misformed types.now at) }
{
    repeats_label(entries_of(types, at)) || !nests_within(types, LEVELS, at)
}

/// Whether the nesting of type `at` is at most `levels`. It looks no more than `levels` levels down.
#[cycle(nests_within)]
fn nests_within(types: &[SheetType], levels: usize, at: usize) -> bool
    ensures { result ≡ nests types.now levels at }
{
    levels > 0
        && components_of(types, at).all(
            |component| -> bool
                requires { 0 < levels }
                ensures { result ≡ nests types.entry.now (levels - 1) component }
            { nests_within(types, levels - 1, usize::from(component)) },
        )
}

// Types and a number among them stay two, here and above: the number changes at each level down, and a pair of both would
// be made and taken apart at each.

/// The components of type `at`, by their numbers; none where there is no such type.
pub fn components_of(types: &[SheetType], at: usize) -> Tuple<u8>
    ensures { parts result ≡ components (type_at types.now at) }
{
    types
        .get(at)
        .map_or(Tuple(None), |found| found.components())
}

/// The entries of type `at`; none where there is no such type. Not one with `components_of`: they read different things.
pub fn entries_of(types: &[SheetType], at: usize) -> &[Entry]
    ensures { result.now ≡ entries (type_at types.now at) }
{
    types.get(at).map_or(&[], |found| found.entries())
}

/// Whether two of the entries have one label.
fn repeats_label(all: &[Entry]) -> bool
    ensures { Decides result (Repeated all.now) }
{
    for (i, entry) in all.iter().enumerate() {
        if has_label(&all[i + 1..], &entry.label) {
            return true;
        }
    }
    false
}

/// Whether one of the entries has this label.
fn has_label(all: &[Entry], label: &Label<Item>) -> bool
    ensures { Decides result (Labelled all.now label.now) }
{
    all.iter().any(|entry| entry.label.is_same(label))
}
