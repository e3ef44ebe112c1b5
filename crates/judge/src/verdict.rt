//! The verdict: the first fault of a sheet by the numbers 7 to 14, or none; judging and telling.
ghost use Rattle.std.specs.Prelude.{◌≡◌, ℕ, ◌<◌, ◌≤◌, true, length, replicate, is_ok, is_err, IfOk, None, Option, MatchResult};
ghost use Rattle.fault.specs.declared.fault.Fault.{Fault as Refusal};
ghost use Rattle.fault.specs.declared.fault.Fault.TheVariants.{FewRows};
ghost use Rattle.tables.specs.Elements.{elements};
ghost use Rattle.sheet.specs.Opening.{fault_of};
ghost use Rattle.meaning.specs.Accepts.{Accepts};
ghost use Rattle.meaning.specs.Amounts.{amount_at, Least};
ghost use Rattle.meaning.specs.Faults.{Faulty, FirstTold, names_label};
ghost use Rattle.meaning.specs.Processes.{process_at};
ghost use Rattle.meaning.specs.Scopes.{scope_at};
ghost use Rattle.meaning.specs.Types.{types_of};
ghost use Rattle.effects.specs.Rows.{blank};
ghost use Rattle.judge.specs.Typed.{OfTypes, Typed};

use crate::passed::{PassedSheet, passed_of};
use counting::Counting;
use effects::{ENOUGH, Row, amount_of, clear_rows, judge_effects};
use fault::{Fault, Label};
use names::{first_free_not_public, first_ill_formed};
use sheet::OpenedSheet;
use uses::{first_bad_channel, first_wrong_type};

/// The first fault of names and of the uses of channels, by the numbers 8 to 11, or none.
pub fn judge_types<C: Counting>(sheet: &OpenedSheet<C>) -> Result<(), Fault>
    ensures first { (rows : ℕ) → FirstTold (λ f. Faulty (C.Counting.operations sheet.now.counting) sheet.now.tables rows f × OfTypes f) (fault_of result) }
    ensures typed { is_ok result ≡ true → Typed (C.Counting.operations sheet.now.counting) sheet.now.tables }
{
    if let Some(name) = first_free_not_public(sheet) {
        return Err(Fault::FreeNotPublic(name));
    }
    if let Some(bound) = first_ill_formed(sheet) {
        return Err(Fault::IllFormed(bound));
    }
    if let Some(user) = first_bad_channel(sheet) {
        return Err(Fault::BadChannel(user));
    }
    if let Some(node) = first_wrong_type(sheet) {
        return Err(Fault::WrongType(node));
    }
    Ok(())
}

/// The first fault of a sheet, by the numbers 7 to 14, or none; with none the rules accept it. All rows are zero then.
fn first_fault<C: Counting>(sheet: &OpenedSheet<C>, rows: &mut [Row]) -> Result<(), Fault>
    ensures first { FirstTold (Faulty (C.Counting.operations sheet.now.counting) sheet.now.tables (length rows.old)) (fault_of result) }
    ensures accepted { is_ok result ≡ true → Accepts (C.Counting.operations sheet.now.counting) sheet.now.tables }
    ensures zero { rows.new ≡ replicate (length rows.old) blank }
{
    if rows.len() < ENOUGH {
        clear_rows(rows);
        return Err(Fault::FewRows);
    }
    if let Err(fault) = judge_types(sheet) {
        clear_rows(rows);
        return Err(fault);
    }
    judge_effects(sheet, rows)
}

/// Judges an opened sheet by the counting that it was opened with. It passes exactly where the rules accept it, and the
/// place then holds its tables and its counting; else the answer is the first fault, and the place is as it was.
/// The opened sheet stays as it was, and all rows are zero then.
pub fn judge<C: Counting>(
    sheet: &OpenedSheet<C>,
    rows: &mut [Row],
    place: &mut PassedSheet<C>,
) -> Result<(), Fault>
    ensures first { FirstTold (Faulty (C.Counting.operations sheet.now.counting) sheet.now.tables (length rows.old)) (fault_of result) }
    ensures one { (o : Option Refusal) → FirstTold (Faulty (C.Counting.operations sheet.now.counting) sheet.now.tables (length rows.old)) o → o ≡ fault_of result }
    ensures passing { is_ok result ≡ true → Accepts (C.Counting.operations sheet.now.counting) sheet.now.tables }
    ensures accepted { 8192 ≤ length rows.old → Accepts (C.Counting.operations sheet.now.counting) sheet.now.tables → is_ok result ≡ true }
    ensures held { is_ok result ≡ true → place.new.sheet.tables ≡ sheet.now.tables }
    ensures own { is_ok result ≡ true → place.new.sheet.counting ≡ sheet.now.counting }
    ensures kept { is_err result ≡ true → place.new ≡ place.old }
    ensures zero { rows.new ≡ replicate (length rows.old) blank }
{
    first_fault(sheet, rows)?;
    *place = passed_of(sheet);
    Ok(())
}

/// The amount of a node and a label of a passed sheet: the least that the rules give the process there; past the last
/// node it is 0. Too few rows are refused. All rows are zero then.
pub fn tell<C: Counting>(
    sheet: &PassedSheet<C>,
    rows: &mut [Row],
    node: usize,
    label: Label<u8>,
) -> Result<u32, Fault>
    ensures told { MatchResult result (λ a. (8192 ≤ length rows.old) × (a ≡ amount_at (C.Counting.operations sheet.now.sheet.counting) sheet.now.sheet.tables node (names_label label))) (λ f. (f ≡ FewRows) × (length rows.old < 8192)) }
    ensures least { IfOk result (λ a. node < length (elements sheet.now.sheet.tables.nodes) → ∥ Least (C.Counting.operations sheet.now.sheet.counting) (types_of sheet.now.sheet.tables) (scope_at sheet.now.sheet.tables node) (process_at (elements sheet.now.sheet.tables.nodes) node) (names_label label) a ∥₁) }
    ensures past { IfOk result (λ a. length (elements sheet.now.sheet.tables.nodes) ≤ node → a ≡ 0) }
    ensures zero { rows.new ≡ replicate (length rows.old) blank }
{
    amount_of(sheet.as_opened(), rows, node, label)
}
