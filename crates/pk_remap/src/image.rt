//! What a flash with spare blocks knows of the image of its inner flash.

/// How far the image is known.
#[derive(Clone, Copy, Debug, PartialEq, Eq)]
pub enum Image {
    /// No call answered yet with a shape, or that there is none.
    Unknown,
    /// The last load answered that there is none, and none was made since.
    Missing,
    /// It has a table; whether the one in memory is the newest one is not known.
    Unsure,
    /// The newest table is in memory.
    Sure,
}
