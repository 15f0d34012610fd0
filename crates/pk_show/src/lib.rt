//! Records as lines of text: the start of a line from the head of 24 bytes, and the digits of the
//! data piece by piece, so that no room limits the length of a line.
#![tactic(auto)]

mod head;
pub mod laws;
mod piece;

pub use head::show_head;
pub use piece::show_piece;
