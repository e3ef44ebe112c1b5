//! Parts: amounts are parts of a full right, and joining adds them.
ghost use Rattle.std.specs.Prelude.{◌≡◌, ◌≤◌, MatchResult};
ghost use Rattle.calculus.specs.Built.{parts};
ghost use Rattle.fault.specs.declared.fault.Fault.TheVariants.{OutOfRange};
ghost use Rattle.calculus.proofs.Built.{parts_laws};

use crate::Counting;
use fault::Fault;

/// Amounts are parts, and joining adds them. A full right has so many parts.
#[derive(Clone, Copy, PartialEq, Eq, Debug)]
pub struct Parts {
    full: u32,
    ghost some: { 1 ≤ full },
    ghost fits: { full ≤ 100000 },
}

impl Parts {
    /// Parts with a full right of 1 to 100,000; any other is out of range, at the head.
    pub fn new(full: u32) -> Result<Parts, Fault>
        ensures { MatchResult result (λ p. p.full ≡ full) (λ f. (f ≡ OutOfRange 0) × ((1 ≤ full) × (full ≤ 100000) → ⊥)) }
    {
        if !(1..=100000).contains(&full) {
            return Err(Fault::OutOfRange(0));
        }
        Ok(Parts { full })
    }

    /// Parts with a full right of 1.
    pub fn whole() -> Parts
        ensures { result.full ≡ 1 }
    {
        Parts { full: 1 }
    }
}

impl Counting for Parts {
    ghost tag = { λ _. 0 };

    ghost operations = { λ p. parts p.full };

    ghost lawful = { λ p. parts_laws p.full p.some p.fits };

    fn code(&self) -> u8 {
        0
    }

    fn full_right(&self) -> u32 {
        self.full
    }

    fn largest_entry(&self) -> u32 {
        100000
    }

    fn ceiling(&self) -> u32 {
        1000000000
    }

    fn join(&self, a: u32, b: u32) -> Option<u32> {
        a.checked_add(b).filter(|sum| *sum <= 1000000000)
    }

    fn lack(&self, a: u32, b: u32) -> u32 {
        a.saturating_sub(b)
    }
}
