//! The jobs that keep the lists of a drive short, over its log and its runs, in steps of at most
//! one flash operation: merges, which empty the frozen buffer into the runs, and freezes of the
//! active one.
//!
//! The map is the same wherever a step is cut, each new root follows the former one, and commands
//! that are served between the steps see the former lists.
#![tactic(auto)]

mod exchange;
mod install;
mod merging;
mod phase;
mod schedule;

pub use phase::{Phase, Stepped};
pub use schedule::Schedule;
