//! How a run over the input ends.

/// Why no more of the input is read.
#[derive(Clone, Copy, Debug, PartialEq, Eq)]
pub enum TextEnd {
    /// The input was read to its end.
    Done,
    /// The input ends inside a record.
    Truncated,
    /// The input failed.
    Input,
    /// The output failed.
    Output,
    /// Another line or record begins after 2^32-1 of them.
    TooMany,
    /// A line is outside the grammar.
    BadLine,
}
