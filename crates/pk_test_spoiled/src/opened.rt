//! What opening is asked, apart from a session.

use pk_flash::Flash;
use pk_test_scripts::Program;
use std::alloc::Global;

/// What opening answers, and of a flash that holds a map, how many keys namespace 1 has.
#[derive(Clone, Copy, PartialEq, Eq)]
pub enum Opened {
    Keys(u32),
    NotFormatted,
    Damaged(u32),
    /// A read failed, or memory was missing.
    Failed,
}

/// A program whose opening alone is tried, too.
pub trait Opens: Program {
    fn opened(alloc: Global, flash: &mut Flash) -> Opened;
}
