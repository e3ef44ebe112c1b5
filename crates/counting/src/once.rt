//! Once: a right is there or it is not, and joining takes the larger.
ghost use Rattle.std.specs.Prelude.{◌≡◌};
ghost use Rattle.calculus.specs.Built.{once};
ghost use Rattle.calculus.proofs.Built.{once_laws};

use crate::Counting;

/// A right is there or it is not: the only amounts are 0 and 1, and having it twice is having it once.
#[derive(Clone, Copy, PartialEq, Eq, Debug)]
pub struct Once;

impl Counting for Once {
    ghost tag = { λ _. 1 };

    ghost operations = { λ _. once };

    ghost lawful = { λ o. once_laws };

    fn code(&self) -> u8 {
        1
    }

    fn full_right(&self) -> u32 {
        1
    }

    fn largest_entry(&self) -> u32 {
        1
    }

    fn ceiling(&self) -> u32 {
        1
    }

    fn join(&self, a: u32, b: u32) -> Option<u32> {
        let larger = a.max(b);
        (larger <= 1).then_some(larger)
    }

    fn lack(&self, a: u32, b: u32) -> u32 {
        if a <= b { 0 } else { a }
    }
}
