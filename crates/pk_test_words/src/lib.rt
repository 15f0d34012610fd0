//! Trials of rows and words: worked rows of commands, the words and their texts, scripts that end early, and wear, of any program.
//!
//! They see words, scripts and records alone, and the board in memory. `pk_test_program` runs them
//! on the program.
#![tactic(auto)]

pub mod ends;
pub mod rows;
pub mod wear;
pub mod words;
