//! Opened sheets: tables that opening has found sound, with the counting that they were opened with.
ghost use Rattle.std.specs.Prelude.{◌≡◌, true, is_err};
ghost use Rattle.sheet.specs.Opening.{Sound, Opens, OneReading, OneStop, basis_of};
ghost use Rattle.tables.specs.declared.tables.Tables.{Tables};

use crate::meant::meant;
use counting::Counting;
use fault::Fault;
use tables::basis::Basis;
use tables::tables::{Node, Tables};

/// A sheet that was opened, with the counting that it was opened with. It moves, and is filled only by opening.
#[derive(Drop)]
pub struct OpenedSheet<C: Counting> {
    counting: C,
    tables: Tables,
    ghost sound: { Sound (C.Counting.operations counting).largest tables },
}

impl<C: Counting> OpenedSheet<C> {
    /// A place for a sheet of this counting: a sheet of one stop.
    pub fn new(counting: C) -> OpenedSheet<C>
        ensures counting { result.counting ≡ counting }
        ensures tables { OneStop result.tables }
    {
        OpenedSheet::seal(counting, one_stop())
    }

    /// The opened sheet of tables that are sound by this counting.
    pub fn seal(counting: C, tables: Tables) -> OpenedSheet<C>
        requires { Sound (C.Counting.operations counting).largest tables }
        ensures counting { result.counting ≡ counting }
        ensures tables { result.tables ≡ tables }
    {
        OpenedSheet { counting, tables }
    }

    /// The counting that the sheet was opened with.
    pub fn counting(&self) -> C
        ensures { result ≡ self.now.counting }
    {
        self.counting
    }

    /// The counting that the sheet was opened with, lent: nothing is copied.
    pub fn as_counting(&self) -> &C
        ensures { result.now ≡ self.now.counting }
    {
        &self.counting
    }

    /// A copy of the tables of the sheet, which does not keep the sheet from being filled again.
    pub fn tables(&self) -> Tables
        ensures value { result ≡ self.now.tables }
        ensures sound { Sound (C.Counting.operations self.now.counting).largest result }
    {
        self.tables
    }

    /// The tables of the sheet, lent: nothing is copied.
    pub fn as_tables(&self) -> &Tables
        ensures value { result.now ≡ self.now.tables }
        ensures sound { Sound (C.Counting.operations self.now.counting).largest result.now }
    {
        &self.tables
    }
}

/// The tables of a sheet of one stop.
fn one_stop() -> Tables
    ensures { OneStop result }
{
    let mut tables = Tables::new();
    let _ = tables.nodes.push(Node::Stop);
    tables
}

/// What a counting asks of a sheet. No `From`: `Basis` is another crate's, and every counting is a type of its own.
fn basis_of<C: Counting>(counting: &C) -> Basis
    ensures { result ≡ basis_of (C.Counting.tag counting.now) (C.Counting.operations counting.now) }
{
    Basis {
        code: counting.code(),
        full: counting.full_right(),
        largest: counting.largest_entry(),
    }
}

/// Opens the sheet that `bytes` mean, by the counting of `place`, into it. Refuses by the first fault, and then leaves
/// the place as it was.
pub fn open<C: Counting>(bytes: &[u8], place: &mut OpenedSheet<C>) -> Result<(), Fault>
    ensures meaning { Opens (basis_of (C.Counting.tag place.old.counting) (C.Counting.operations place.old.counting)) bytes.now place.new.tables result }
    ensures one { OneReading bytes.now }
    ensures counting { place.new.counting ≡ place.old.counting }
    ensures kept { is_err result ≡ true → place.new ≡ place.old }
{
    let counting = place.counting;
    let tables = meant(bytes, basis_of(&counting))?;
    *place = OpenedSheet::seal(counting, tables);
    Ok(())
}
