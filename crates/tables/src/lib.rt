//! The tables of a sheet: their forms, how a record becomes one of them, and which fields are in range.
#![tactic(auto)]

pub mod basis;
pub mod decode;
pub mod range;
pub mod share;
pub mod table;
pub mod tables;
pub mod tuple;

pub use basis::Basis;
pub use share::Share;
pub use table::{Full, Table};
pub use tables::{ChannelType, Entry, Item, Node, SheetType, Tables};
pub use tuple::Tuple;
