//! What a drive answers.

/// The result of a command. The data are the first `data_len` bytes of the buffer that was passed
/// in.
#[derive(Clone, Copy, Debug)]
pub struct Outcome {
    /// The status code.
    pub status: u8,
    /// Dword 0 of the completion.
    pub result: u32,
    /// Bytes of data.
    pub data_len: u32,
    /// Pages that were read for it.
    pub reads: u32,
    /// A program or an erase failed, and no call follows.
    pub stopped: bool,
}

/// The result of a background step.
#[derive(Clone, Copy, Debug, PartialEq, Eq)]
pub enum Ticked {
    /// A step was made.
    Worked,
    /// Nothing remains to be done.
    Idle,
    /// A flash operation failed: a read, or a program or an erase, which stops the drive.
    Fault { stopped: bool },
}

/// The sixteen numbers of a Report, in its order: three of its namespace, and those of the drive.
#[derive(Clone, Copy, Debug)]
pub struct Counts {
    /// Live pages of the namespace.
    pub live: u32,
    /// Most live pages of the namespace.
    pub limit: u32,
    /// Keys of the namespace.
    pub keys: u32,
    /// Levels that always have all their pages in frames, by the number of frames alone.
    pub pinned: u32,
    /// Frames of the arena.
    pub frames: u32,
    /// Frames that are leased.
    pub leased: u32,
    /// Entries of the active buffer.
    pub active: u32,
    /// Entries of the frozen buffer.
    pub frozen: u32,
    /// Entries of run 1.
    pub run1: u32,
    /// Entries of run 2.
    pub run2: u32,
    /// Entries of run 3.
    pub run3: u32,
    /// Entries of run 4.
    pub run4: u32,
    /// Commits of the newest epoch.
    pub epoch: u32,
    /// Data blocks in use.
    pub blocks: u32,
    /// Free blocks that were erased since opening.
    pub ready: u32,
    /// The level into which a merge runs; 0 if none does.
    pub merge: u32,
}
