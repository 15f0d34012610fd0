//! Why an epoch was not replayed.

/// Why an epoch was not replayed.
#[derive(Clone, Copy, Debug, PartialEq, Eq)]
pub enum ReplayError {
    /// This page is Whole and not the epoch's page at its place, or its entries bring the epoch's keys above those of a write
    /// buffer.
    Damaged { page: u32 },
    /// A read failed. The call may be made again.
    Fault,
}
