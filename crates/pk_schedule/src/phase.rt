//! How far a merge is, and what a step did.

/// A merge between its steps.
#[derive(Clone, Copy, Debug, PartialEq, Eq)]
pub enum Phase {
    /// None runs.
    Idle,
    /// Its output is made, into the run of this level.
    Running { level: u8 },
    /// Its output is complete, and its root is installed.
    Ready { level: u8 },
}

/// What a step of the merges did.
#[derive(Clone, Copy, Debug, PartialEq, Eq)]
pub enum Stepped {
    /// A step was made.
    Worked,
    /// No merge runs, and nothing is frozen: nothing was done.
    Idle,
}
