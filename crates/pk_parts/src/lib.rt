//! The parts of a drive, what they find without a change, and the commit of the pending entries.
//!
//! Each call says what it does to every map that the parts represent, and what the flash holds
//! wherever it is cut.
#![tactic(auto)]

mod jobs;
mod listing;
mod moves;
mod numbers;
mod over;
mod parts;
mod place;
mod reading;

pub use parts::Parts;
