//! Sizes of what a host asks for.

/// The bytes of a value that are asked for at first, before its length is known: most values are no longer.
pub const FIRST_BYTES: u32 = 4096;
/// The most keys of a page. A key is spelled in four bytes at least, so 65,536 bytes spell no more.
pub const MOST_KEYS: usize = 16384;
