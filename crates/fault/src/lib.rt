//! What a refusal says: its number, the layer that says no, the place, and for amounts the label and the amount.
#![tactic(auto)]

pub mod fault;
pub mod items;
pub mod label;

pub use fault::{Fault, Layer};
pub use items::Items;
pub use label::{Exact, Label};

#[cfg(test)]
mod tests;
