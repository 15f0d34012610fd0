//! Sizes that the formats share, in bytes if nothing else is said. Code, contracts and definitions
//! name them.

/// The most bytes of a key.
pub const KEY_BYTES: usize = 16;
/// The most namespaces of a drive.
pub const MOST_SPACES: u8 = 8;
/// An entry in a journal or meta page.
pub const ENTRY_BYTES: usize = 32;
/// The head of a journal page, of a meta page, and of the first page of a value.
pub const HEAD_BYTES: usize = 32;
/// The blocks of the roots, which are the first of the flash.
pub const ROOT_BLOCKS: u32 = 2;
/// The blocks of an epoch of the journal.
pub const EPOCH_BLOCKS: u32 = 2;
/// The most pages of run 1; each further run has room for four times as many, and run 4 for what the flash can hold.
pub const CAP_1: u32 = 4;
/// The most pages of run 2.
pub const CAP_2: u32 = 16;
/// The most pages of run 3.
pub const CAP_3: u32 = 64;
/// The levels of runs.
pub const LEVELS: u8 = 4;
/// The most bytes of a page.
pub const MOST_PAGE_BYTES: u32 = 16384;
/// The most pages of a block.
pub const MOST_BLOCK_PAGES: u32 = 256;
/// The most blocks of a flash.
pub const MOST_BLOCKS: u32 = 4096;
/// The most bytes of a flash.
pub const MOST_FLASH_BYTES: u64 = 268_435_456;
