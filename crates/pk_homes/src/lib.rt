//! Tables of homes: for each hash of a key, where its entry is in a list of entries.
//!
//! A table has a number of two bytes for each home. An entry is found from the home of its key: its
//! number is there, or that home is shared with other entries, and a search in the list decides. So
//! a table answers exactly, and has no key of its own.
#![tactic(auto)]

mod hashing;
mod table;

pub use hashing::{hash, hash_cell};
pub use table::{SHARED, add, home};
