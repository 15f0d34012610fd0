//! Numbers of the layout of a table page.

/// The first byte of the list of the blocks that the used spares serve, two bytes each.
pub const LIST_FROM: usize = 32;
/// The number in this list that marks a spare that failed.
pub const FAILED: u16 = 0xFFFF;
/// Most spares of a flash.
pub const MOST_SPARES: usize = 64;
