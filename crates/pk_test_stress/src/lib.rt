//! Trials of hard cases: each call of a session failing, drives that are cut three sessions deep, and one with more keys than memory has
//! room for. As in `pk_test_scripts` the program is a parameter.
#![tactic(auto)]

pub mod bounds;
pub mod calls;
pub mod deep;
pub mod failing;
pub mod large;
pub mod listing;
pub mod merged;
