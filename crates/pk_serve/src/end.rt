//! How serving ends.

/// Why no more entries are served.
#[derive(Clone, Copy, Debug, PartialEq, Eq)]
pub enum End {
    /// The input was read to its end.
    Done,
    /// The input ends inside an entry or a value.
    Truncated,
    /// The input failed.
    Input,
    /// The output failed.
    Output,
    /// A program or an erase failed.
    Flash,
    /// Another entry begins, and no more are taken.
    Worn,
}
