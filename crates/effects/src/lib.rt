//! The effects of a sheet's nodes: how much of each label's right a node needs, and the first fault of these amounts.
#![tactic(auto)]

ghost use Rattle.std.specs.Prelude.{◌≡◌, ℕ, ◌*◌, ◌<◌, ◌≤◌, length, replicate, take, MatchResult};
ghost use Rattle.fault.specs.declared.fault.Fault.TheVariants.{FewRows};
ghost use Rattle.fault.specs.declared.label.Label.{Label as L};
ghost use Rattle.meaning.specs.Amounts.{amount_at};
ghost use Rattle.meaning.specs.Faults.{names_label, Faulty, FirstTold};
ghost use Rattle.sheet.specs.Opening.{fault_of};
ghost use Rattle.effects.specs.Faults.{OfEffects};
ghost use Rattle.tables.specs.Elements.{elements};
ghost use Rattle.effects.specs.Rows.{blank};
ghost use Rattle.effects.specs.Steps.{Amounts};

use crate::faults::told;
use crate::rows::fill_rows;
use crate::work::Work;
use counting::Counting;
use fault::{Fault, Label};
use sheet::OpenedSheet;

mod amounts;
mod faults;
mod found;
mod labels;
pub mod row;
pub mod rows;
mod work;

pub use row::Row;
pub use rows::clear_rows;

/// How many rows are enough for every sheet: eight for each of 1,024 nodes.
pub const ENOUGH: usize = 8192;

/// The first fault of the effects, by the numbers 12 to 14; too few rows are 7. All rows are zero then.
pub fn judge_effects<C: Counting>(sheet: &OpenedSheet<C>, rows: &mut [Row]) -> Result<(), Fault>
    ensures first { FirstTold (λ f. Faulty (C.Counting.operations sheet.now.counting) sheet.now.tables (length rows.old) f × OfEffects f) (fault_of result) }
    ensures zero { rows.new ≡ replicate (length rows.old) blank }
{
    if rows.len() < ENOUGH {
        clear_rows(rows);
        return Err(Fault::FewRows);
    }
    // The frame of `amount_of` again: a closure for what differs would need a contract longer than the frame.
    let tables = sheet.as_tables();
    prepare(sheet, rows);
    let first = Work::new(&sheet.counting(), tables, rows).first_fault();
    clear_rows(rows);
    match first {
        Some(found) => Err(told(tables.nodes.as_slice(), &found)),
        None => Ok(()),
    }
}

/// The least amount that a node needs of a label; past the last node it is 0. Too few rows are 7. All rows are zero then.
pub fn amount_of<C: Counting>(
    sheet: &OpenedSheet<C>,
    rows: &mut [Row],
    node: usize,
    label: Label<u8>,
) -> Result<u32, Fault>
    ensures told { MatchResult result (λ a. (8192 ≤ length rows.old) × (a ≡ amount_at (C.Counting.operations sheet.now.counting) sheet.now.tables node (names_label label))) (λ f. (f ≡ FewRows) × (length rows.old < 8192)) }
    ensures zero { rows.new ≡ replicate (length rows.old) blank }
{
    if rows.len() < ENOUGH {
        clear_rows(rows);
        return Err(Fault::FewRows);
    }
    let tables = sheet.as_tables();
    prepare(sheet, rows);
    let amount = Work::new(&sheet.counting(), tables, rows).amount_at(node, &label);
    clear_rows(rows);
    Ok(amount)
}

/// Writes the rows of a sheet's nodes: the amounts of the nodes come from them.
fn prepare<C: Counting>(sheet: &OpenedSheet<C>, rows: &mut [Row])
    requires { 8192 ≤ length rows.old }
    ensures { (l : L ℕ) → Amounts (C.Counting.operations sheet.now.counting) (elements sheet.now.tables.nodes) (take (8 * length (elements sheet.now.tables.nodes)) rows.new) l (λ n. amount_at (C.Counting.operations sheet.now.counting) sheet.now.tables n (names_label l)) }
{
    let tables = sheet.as_tables();
    fill_rows(
        sheet.counting().full_right(),
        tables.types.as_slice(),
        tables.names.as_slice(),
        tables.nodes.as_slice(),
        rows,
    );
}
