//! Work rows.
use tables::Share;

/// A work row: so much for a label of names.
pub type Row = Share<u8>;
