//! The words of the program over the port of a drive: what each says of the map that it finds, and of the one that it leaves.
//!
//! All memory is taken before the first command, and a call takes none.
#![tactic(auto)]

pub mod lines;
mod listing;
mod question;
mod report;
pub mod sizes;
mod status;
mod words;

pub use listing::ListPosition;
pub use question::Question;
pub use words::Words;
