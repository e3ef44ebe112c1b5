//! Types looked up by their numbers, and numbers by their places.
ghost use Rattle.std.specs.Prelude.{◌≡◌, slice_index};
ghost use Rattle.tables.specs.Encoding.{parts};
ghost use Rattle.sheet.specs.Types.{type_at};

use tables::tables::SheetType;
use tables::tuple::Tuple;

/// The type of this number; pure where there is none. Types and a number stay two, as the number changes at each level.
pub(crate) fn type_at(types: &[SheetType], at: usize) -> SheetType
    ensures { result ≡ type_at types.now at }
{
    types.get(at).copied().unwrap_or(SheetType::Pure)
}

/// The number at a place; 0 past the last, as the rules' own look-up has it, and so no `Option`.
pub(crate) fn number_at(numbers: &Tuple<u8>, place: usize) -> usize
    ensures { result ≡ slice_index (parts numbers.now) place }
{
    numbers.get(place).map_or(0, usize::from)
}
