//! Trials of any program while calls of the board fail, and on flashes that are damaged.
//!
//! `pk_test_program` runs them on the program.
#![tactic(auto)]

pub mod damage;
pub mod faults;
pub mod runs;
