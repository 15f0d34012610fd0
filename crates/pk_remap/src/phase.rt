//! What a relocation does next.

/// The one call that the next step makes.
#[derive(Clone, Copy, Debug, PartialEq, Eq)]
pub enum Phase {
    /// Erases the spare.
    EraseSpare,
    /// Reads this page of the block, to copy it.
    Read { page: u32 },
    /// Programs this page of the spare.
    Write { page: u32 },
    /// Erases the table block without the newest table.
    EraseTable,
    /// Programs the next table in this page, the first of a pair.
    First { page: u32 },
    /// Programs it in the next page.
    Second { page: u32 },
}
