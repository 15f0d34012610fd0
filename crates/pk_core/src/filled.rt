//! How far a buffer is filled.

/// How many bytes were written, how many keys they have, and how many bytes there is room for.
#[derive(Clone, Copy)]
pub struct Filled {
    pub end: u32,
    pub count: u32,
    pub room: u32,
}
