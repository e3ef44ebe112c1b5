//! Sheets, opened from bytes.
#![tactic(auto)]

mod census;
pub mod chart;
mod check;
mod fill;
mod meant;
pub mod opened;
mod scan;
mod scope;
mod tree;
pub mod types;

pub use chart::Chart;
pub use opened::{OpenedSheet, open};
