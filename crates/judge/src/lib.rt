//! Judging: the verdict on an opened sheet, passed sheets, and what is told of them.
#![tactic(auto)]

pub mod nine;
pub mod passed;
pub mod verdict;

pub use passed::PassedSheet;
pub use verdict::{judge, tell};
