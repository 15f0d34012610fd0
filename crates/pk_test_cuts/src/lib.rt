//! Trials of any program whose sessions are cut at every mark, from a made drive on.
//!
//! Each trial compares the status and the posted bytes with the records of the answers that it
//! lists. `pk_test_program` runs them on the program.
#![tactic(auto)]

pub mod cuts;
pub mod erases;
pub mod halves;
pub mod reclaims;
pub mod recut;
pub mod space_cuts;
pub mod ways;
