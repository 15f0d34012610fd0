//! What a head is read as.
use pk_base::Key;

/// A value's key, and its length in bytes.
#[derive(Drop)]
pub struct Head {
    pub key: Key,
    pub len: u32,
}

/// Bytes are no head: the first wrong one.
#[derive(Clone, Copy, Debug, PartialEq, Eq)]
pub struct BadHead {
    pub at: u32,
}
