//! Sizes of pieces, in bytes. Code and contracts name them.

/// The most bytes of a fetch, and of data whose digits are posted in one piece.
pub const PIECE: usize = 4096;
