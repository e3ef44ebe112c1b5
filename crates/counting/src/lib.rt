//! Countings: how amounts of a right are joined, and what one amount lacks against another.
#![tactic(auto)]

ghost use Rattle.std.specs.Prelude.{◌≡◌, ℕ, ◌≤◌};
ghost use Rattle.std.specs.Option.{SomeIff};
ghost use Rattle.calculus.specs.Countings.{Operations, Laws};

pub mod once;
pub mod parts;

pub use once::Once;
pub use parts::Parts;

/// How amounts join. Its meaning is a record of operations, which may depend on the counting's own fields, and which
/// keeps the five laws.
pub trait Counting: Copy {
    // the number by which a sheet's head asks for this counting
    ghost tag: { Self → ℕ };

    ghost operations: { Self → Operations };

    /// The number by which a sheet's head asks for this counting. A byte of the file, and no enum: each counting claims
    /// its own, and none knows the others.
    fn code(&self) -> u8
        ensures { result ≡ tag self.now };

    /// The amount of one full right.
    fn full_right(&self) -> u32
        ensures { result ≡ (operations self.now).full };

    /// The largest amount that an entry of a type may have.
    fn largest_entry(&self) -> u32
        ensures { result ≡ (operations self.now).largest };

    /// The largest amount that is ever answered.
    fn ceiling(&self) -> u32
        ensures { result ≡ (operations self.now).ceiling };

    /// Two amounts joined, or nothing exactly where that passes the ceiling.
    fn join(&self, a: u32, b: u32) -> Option<u32>
        ensures { SomeIff result ((operations self.now).join a b ≤ (operations self.now).ceiling) ((operations self.now).join a b) };

    /// Two amounts joined; 0 where that passes the ceiling. An `Option` would be no plainer: the callers' contracts speak of
    /// amounts within the ceiling alone, and each would put 0 in its place.
    final fn join_or_zero(&self, a: u32, b: u32) -> u32
        ensures within { (operations self.now).join a b ≤ (operations self.now).ceiling → result ≡ (operations self.now).join a b }
        ensures past { ((operations self.now).join a b ≤ (operations self.now).ceiling → ⊥) → result ≡ 0 }
    {
        self.join(a, b).unwrap_or(0)
    }

    /// What `a` still lacks once `b` is there.
    fn lack(&self, a: u32, b: u32) -> u32
        ensures { result ≡ (operations self.now).lack a b };

    ghost lawful: { (c : Self) → Laws (operations c) };
}

#[cfg(test)]
mod tests;
