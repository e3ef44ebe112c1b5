//! What a sheet must agree in with its counting.

/// What a sheet must agree in with its counting: the head's code (a byte, which any counting may claim) and full right, and
/// the largest amount of an entry.
#[derive(Clone, Copy)]
pub struct Basis {
    pub code: u8,
    pub full: u32,
    pub largest: u32,
}
