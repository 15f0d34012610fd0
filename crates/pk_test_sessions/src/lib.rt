//! Trials of whole sessions of any program: what they answer, write and leave, and full drives.
//!
//! They see words, scripts and records alone, and the board in memory. `pk_test_program` runs them
//! on the program.
#![tactic(auto)]

pub mod sessions;
pub mod space;
