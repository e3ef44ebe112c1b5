//! Records: what the bytes of a sheet are cut into.
#![tactic(auto)]

pub mod record;

pub use record::{Quad, Record, read};
