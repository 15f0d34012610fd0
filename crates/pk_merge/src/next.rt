//! What a merge does next.

/// The one action of a step.
#[derive(Clone, Copy)]
pub enum Next {
    /// Loads the page at the source's cursor.
    LoadSource,
    /// Loads the page at the target's cursor.
    LoadTarget,
    /// Takes the entries that are known, with no flash operation.
    Gather,
    /// Takes a block for the next page.
    TakeBlock,
    /// Programs the next page.
    Program,
    /// Nothing remains.
    End,
}
