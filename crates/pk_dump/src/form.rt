//! How lines are written.

/// Whom the lines are for.
#[derive(Clone, Copy, Debug, PartialEq, Eq)]
pub enum Form {
    /// Sentences.
    People,
    /// A name, and after it `name=value` for each field.
    Programs,
}
