//! Why a drive answers no command.

/// Why a command was not answered.
#[derive(Clone, Copy, Debug, PartialEq, Eq)]
pub enum Halt {
    /// The drive stopped, at this command or before it.
    Stopped,
    /// No more roots are installed; nothing was done.
    Worn,
}
