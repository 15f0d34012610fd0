//! The room of a board in memory, and the failures that are planned for it.

/// How many bytes may be posted, and how many marks made. A call that would pass this room fails, with nothing done.
#[derive(Clone, Copy)]
pub struct Room {
    pub posted: usize,
    pub marks: usize,
}

/// What a failing program leaves of its page.
#[derive(Clone, Copy, Debug, PartialEq, Eq)]
pub enum PageLeft {
    /// The page is unchanged.
    Untouched,
    /// The page is Torn.
    Torn,
    /// The page has the bytes.
    Done,
}

/// What a failing erase leaves of one page.
#[derive(Clone, Copy, Debug, PartialEq, Eq)]
pub enum EraseLeft {
    /// The page is unchanged.
    Kept,
    /// The page is Erased.
    Erased,
    /// The page is Torn.
    Torn,
}

/// What a failing call leaves. One that does not fit the kind of call counts as `Untouched`.
#[derive(Drop)]
pub enum Left {
    /// Nothing was done.
    Untouched,
    /// The page, or each page of the block, is Torn.
    Torn,
    /// The call was done.
    Done,
    /// Of an erased block each page by itself: the first of these is what becomes of its first
    /// page, and the pages after the last of these are unchanged.
    Each(Vec<EraseLeft>),
    /// The second page of a pair becomes this, and the first one is Torn.
    WithEven(PageLeft),
    /// This many bytes of a post were sent, or all if it has fewer.
    Part(u32),
}

/// A call that is to fail, by its number.
#[derive(Drop)]
pub struct Planned {
    pub call: u64,
    pub left: Left,
}
