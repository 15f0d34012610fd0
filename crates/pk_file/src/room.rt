//! How much of the input and of the posts is held at a time.

/// Bytes that are read ahead, and bytes of posts that are gathered: what a pipe holds.
pub const GATHERED: usize = 65536;

/// Most pages that are read by one call: a MiB if pages are the largest, so that a call costs
/// little beside its bytes.
pub const RUN_PAGES: usize = 64;
