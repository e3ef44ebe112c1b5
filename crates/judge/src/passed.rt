//! Passed sheets: opened sheets that the rules accept.
ghost use Rattle.std.specs.Prelude.{◌≡◌};
ghost use Rattle.sheet.specs.Opening.{OneStop, Sound};
ghost use Rattle.meaning.specs.Accepts.{Accepts};

use counting::Counting;
use sheet::OpenedSheet;
use tables::tables::Tables;

/// A sheet that passed, with its counting. It moves, and holds nothing but what the rules accept: it is filled by judging,
/// or made by `seal` from an opened sheet for which that is shown.
#[derive(Drop)]
pub struct PassedSheet<C: Counting> {
    sheet: OpenedSheet<C>,
    ghost accepted: { ∥ Accepts (C.Counting.operations sheet.counting) sheet.tables ∥₁ },
}

impl<C: Counting> PassedSheet<C> {
    /// A place for a passed sheet of this counting: a sheet of one stop.
    pub fn new(counting: C) -> PassedSheet<C>
        ensures counting { result.sheet.counting ≡ counting }
        ensures tables { OneStop result.sheet.tables }
    {
        let opened = OpenedSheet::new(counting);
        passed_of(&opened)
    }

    /// The passed sheet of an opened one that the rules accept.
    pub fn seal(sheet: OpenedSheet<C>) -> PassedSheet<C>
        requires { Accepts (C.Counting.operations sheet.counting) sheet.tables }
        ensures { result.sheet ≡ sheet }
    {
        PassedSheet { sheet }
    }

    /// The counting that the sheet was judged with.
    pub fn counting(&self) -> C
        ensures { result ≡ self.now.sheet.counting }
    {
        self.sheet.counting()
    }

    /// A copy of the tables of the sheet, which the rules accept.
    pub fn tables(&self) -> Tables
        ensures value { result ≡ self.now.sheet.tables }
        ensures sound { Sound (C.Counting.operations self.now.sheet.counting).largest result }
        ensures accepted { ∥ Accepts (C.Counting.operations self.now.sheet.counting) result ∥₁ }
    {
        self.sheet.tables()
    }

    /// The tables of the sheet, lent: nothing is copied.
    pub fn as_tables(&self) -> &Tables
        ensures value { result.now ≡ self.now.sheet.tables }
        ensures sound { Sound (C.Counting.operations self.now.sheet.counting).largest result.now }
        ensures accepted { ∥ Accepts (C.Counting.operations self.now.sheet.counting) result.now ∥₁ }
    {
        self.sheet.as_tables()
    }

    /// The opened sheet that passed: a copy of its tables, with its counting.
    pub fn opened(&self) -> OpenedSheet<C>
        ensures counting { result.counting ≡ self.now.sheet.counting }
        ensures tables { result.tables ≡ self.now.sheet.tables }
    {
        OpenedSheet::seal(self.counting(), self.tables())
    }

    /// The opened sheet that passed, lent: nothing is copied.
    pub fn as_opened(&self) -> &OpenedSheet<C>
        ensures { result.now ≡ self.now.sheet }
    {
        &self.sheet
    }
}

/// A passed sheet of an opened one that the rules accept: a copy of its tables and its counting.
pub(crate) fn passed_of<C: Counting>(sheet: &OpenedSheet<C>) -> PassedSheet<C>
    requires { Accepts (C.Counting.operations sheet.now.counting) sheet.now.tables }
    ensures counting { result.sheet.counting ≡ sheet.now.counting }
    ensures tables { result.sheet.tables ≡ sheet.now.tables }
{
    let copy = OpenedSheet::seal(sheet.counting(), sheet.tables());
    PassedSheet::seal(copy)
}
