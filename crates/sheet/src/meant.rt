//! What bytes mean: the tables of a sheet, or the first fault.
ghost use Rattle.sheet.specs.Opening.{Means};

use crate::check::check;
use crate::fill::fill;
use crate::scan::scan;
use fault::Fault;
use tables::basis::Basis;
use tables::tables::Tables;

/// The tables of the sheet that bytes mean for a counting with this basis, or the first fault: by its number for the
/// whole sheet, then by its place.
pub(crate) fn meant(bytes: &[u8], basis: Basis) -> Result<Tables, Fault>
    ensures { Means basis bytes.now result }
{
    let totals = scan(bytes)?;
    let tables = fill(bytes, basis, totals)?;
    check(&tables)?;
    Ok(tables)
}
