//! Sizes of lines, in bytes. Code, contracts and definitions name them.

/// The most bytes of a line, its line feed not counted.
pub const MOST_LINE_BYTES: usize = 2_200_000;
/// The most bytes of the value of a line: each is two digits of it.
pub const MOST_LINE_VALUE_BYTES: usize = MOST_LINE_BYTES / 2;
