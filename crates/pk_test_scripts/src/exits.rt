//! The exit statuses of the program.

/// The input was read to its end, or the word is done.
pub const DONE: u8 = 0;
/// The words are outside the table.
pub const WORDS: u8 = 2;
/// The input ends inside an entry, a value or a record.
pub const TRUNCATED: u8 = 3;
/// The input failed.
pub const INPUT: u8 = 4;
/// The output failed.
pub const OUTPUT: u8 = 5;
/// The flash failed.
pub const FLASH: u8 = 6;
/// Memory is missing.
pub const MEMORY: u8 = 7;
/// No drive is found.
pub const NO_DRIVE: u8 = 8;
/// An image is there already.
pub const IMAGE_EXISTS: u8 = 9;
/// Another entry begins, and no more are taken.
pub const WORN: u8 = 10;
/// A line of a text script is outside the grammar.
pub const BAD_LINE: u8 = 12;
