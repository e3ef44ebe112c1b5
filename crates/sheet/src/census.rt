//! The order of records: what a record is to it, and what stands before.
use records::record::Record;

/// What a record is to the order of records.
#[derive(Clone, Copy)]
pub enum Class {
    Head,
    /// A pure or public type.
    Plain,
    Channel,
    Entry,
    Name,
    Node,
}

/// What stands before a record: how many of each, and for how many entries there is room.
#[derive(Clone, Copy, Default)]
pub struct Census {
    pub heads: usize,
    pub types: usize,
    pub names: usize,
    pub nodes: usize,
    pub room: usize,
}

/// What a scan has seen: how many records, the first that stands wrongly, and what stands before the next one.
#[derive(Clone, Copy)]
pub struct Scan {
    pub place: usize,
    pub wrong: Option<usize>,
    pub census: Census,
}
