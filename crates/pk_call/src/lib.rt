//! What is said of a call of a drive: what it answers, what it leaves of the map and the flash, how
//! many flash operations it makes, and how the background work settles. Definitions alone: the
//! contract of a drive, and the parts of one, name them.
#![tactic(auto)]

mod types;

pub use types::{Counts, Outcome, Ticked};
