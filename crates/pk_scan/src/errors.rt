//! What is returned if a flash is refused.
use thiserror::Error;

/// Why pages of a flash are not what is looked for in them. Nothing but reads was done on the board, of which one failed
/// exactly at `Fault`.
#[derive(Clone, Copy, Debug, PartialEq, Eq)]
pub enum PageError {
    /// This page is the first that is wrong.
    Damaged { page: u32 },
    /// A read failed. The board's counts record it.
    Fault,
}

/// Why a flash is not opened. Nothing but reads was done on the board, of which one failed exactly at `Fault`.
#[derive(Clone, Copy, Debug, PartialEq, Eq, Error)]
pub enum OpenError {
    /// There is no root.
    #[error("NotFormatted")]
    NotFormatted,
    /// This page is the first at which the reading of the flash refuses.
    #[error("Damaged")]
    Damaged { page: u32 },
    /// A read failed. The board's counts record it.
    #[error("Fault")]
    Fault,
    /// The allocator has not enough memory.
    #[error("Memory")]
    Memory,
}
