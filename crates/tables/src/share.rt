//! Shares: so much of a right, by the label that names it.
ghost use Rattle.tables.specs.Shares.{Gives};

use fault::{Exact, Label};

/// A share: so much of the right that a label names.
#[derive(Clone, Copy)]
pub struct Share<T> {
    pub label: Label<T>,
    pub amount: u32,
}

impl<T: Exact> Share<T> {
    /// What it gives a label: its amount where it has this label, else nothing.
    pub fn given_to(&self, label: &Label<T>) -> u32
        ensures { Gives label.now self.now result }
    {
        if self.label.is_same(label) {
            self.amount
        } else {
            0
        }
    }
}
