//! The trials run on the program, each a test: whole sessions and cuts; and sessions over the skeleton of a board (`skeleton`).
//!
//! `pink` is the program as the trials run it, for other crates of tests too.
#![tactic(auto)]

#[cfg(test)]
mod cuts;
pub mod pink;
#[cfg(test)]
mod sessions;
#[cfg(test)]
mod skeleton;
