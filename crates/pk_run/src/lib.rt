//! A run of meta pages: a list of entries that rise by key, on the flash, and what memory keeps of
//! it.
//!
//! The entry of a key is found by at most one read, and by none if the pages of the run have
//! frames.
#![tactic(auto)]

mod frame;
mod laws;
mod run;
mod search;

pub use laws::{
    frame_filled, frame_given, frame_taken, leases_of_a_run, stands_elsewhere, stands_outside,
};
pub use run::Run;
