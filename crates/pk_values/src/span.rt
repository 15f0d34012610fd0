//! The pages of a value.

/// The pages of a value: its first page on the flash, and how many it has. A `Place` has the
/// value's length in bytes instead, from which only a shape computes the pages; the live map counts
/// pages and knows no shape, so it takes these.
#[derive(Clone, Copy, Debug, PartialEq, Eq)]
pub struct Span {
    pub page: u32,
    pub count: u32,
}
