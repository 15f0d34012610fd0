//! Sizes of a summary, in bytes. Code and contracts name them.

/// The most bytes of a line: a name of at most eight, a blank, ten digits, and a line feed.
pub const SUMMARY_LINE_BYTES: usize = 20;
/// The most bytes of a summary, which has nine lines.
pub const SUMMARY_BYTES: usize = 9 * SUMMARY_LINE_BYTES;
