//! Trials of any program whose answers are compared: with those of the machine in memory, and of
//! several namespaces with those of each one alone.
//!
//! `pk_test_program` runs them on the program.
#![tactic(auto)]

pub mod isolation;
pub mod machine;
pub mod spaces;
