//! What an installer does next.

/// What the next step does to the root blocks.
#[derive(Clone, Copy, Debug, PartialEq, Eq)]
pub enum Next {
    /// Erases the root block that does not have this page.
    Erase { beside: u32 },
    /// Programs the root in this page, the first one of a pair.
    Program { page: u32 },
    /// Programs the root once more, in the page after this one.
    Again { page: u32 },
}
