//! The mathematics that sheets are judged and run by. No bytes, no tables, no limits of memory.
//!
//! The definitions and the statements stand in `specs/`, the proofs in `proofs/`. Each function here answers 0;
//! what it is for stands in its contract, a theorem.
#![tactic(auto)]

ghost use Rattle.calculus.specs.Theorems.{LabelsOrdered, TypingAgrees, AcceptanceAgrees, RunsSafe, AmountsFit, NothingEmpty};

/// Labels stand in one strict order, so that there is a first among the labels at fault.
pub fn labels_ordered() -> u8
    ensures { LabelsOrdered }
{
    0
}

/// The rules derive an effect for a process exactly when the checks accept it, and the least amount is the least effect that they derive.
/// So they accept a whole process exactly when it passes the checks, its free names are public, and it needs nothing.
pub fn typing_agrees() -> u8
    ensures processes { TypingAgrees }
    ensures whole { AcceptanceAgrees }
{
    0
}

/// Every configuration that a run of an accepted process reaches is safe, and none is an error, whatever the counting.
pub fn runs_safe() -> u8
    ensures { RunsSafe }
{
    0
}

/// No join passes the ceiling: an amount is made of at most 8 entries a node, so a process of 1,024 nodes stays below.
pub fn amounts_fit() -> u8
    ensures { AmountsFit }
{
    0
}

/// Nothing of this is empty: a worked process is accepted under both countings, and a run of it reaches an end.
pub fn nothing_empty() -> u8
    ensures { NothingEmpty }
{
    0
}
