//! The line that answers an input, as the bench prints it.
#![tactic(auto)]

pub mod answer;
pub mod choice;
pub mod lines;
#[cfg(test)]
mod tests;

pub use answer::{LIMIT, line_for, line_of};
pub use lines::Line;
