//! Labels: what a right is about.
ghost use Rattle.std.specs.Prelude.{◌≡◌, Decides};
ghost use Rattle.std.specs.Cmp.{unsigned_Decides};

use crate::items::Items;

/// What a right is about: one to four items in order. The items of a type's entry are names or indices, those of
/// a sheet's begins and ends are names, and those of a ledger's are values.
#[derive(Clone, Copy, PartialEq, Eq, Debug)]
pub struct Label<T> {
    pub items: Items<T>,
}

/// Values that are one exactly where `==` says so, as items of labels are.
pub trait Exact: Copy + Eq {
    ghost exact: { (a b : Self) → Decides (Self.eq a b) (a ≡ b) };
}

impl Exact for u8 {
    ghost exact = { unsigned_Decides };
}

impl<T: Exact> Label<T> {
    /// Whether two labels are one.
    pub fn is_same(&self, other: &Label<T>) -> bool
        ensures { Decides result (self.now ≡ other.now) }
    {
        *self == *other
    }
}
