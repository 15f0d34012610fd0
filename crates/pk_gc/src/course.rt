//! How far a reclaim has come.

/// What a reclaim does.
#[derive(Clone, Copy)]
pub enum Phase {
    /// None runs.
    Idle,
    /// The live values of a block are copied, and then their moves are committed.
    Copies(Course),
    /// The first page of the moves' commit is programmed, and its second page is next. This block, in which no value is live any
    /// more, is to be freed after it.
    Commits(u32),
    /// The commit of the moves is made. This block, in which no value is live any more, is to be freed.
    GivesBack(u32),
}

/// How far the copy has come.
#[derive(Clone, Copy)]
pub struct Course {
    /// The block whose live values are copied.
    pub victim: u32,
    /// The block that takes the copies.
    pub output: u32,
    /// How many pages of the victim were copied, or passed by.
    pub seen: u32,
    /// How many pages of the output are written.
    pub used: u32,
    /// How many pages of the last value are not written yet.
    pub left: u32,
    /// Whether the next one of them was read.
    pub held: bool,
}
