//! Whole sessions of any program over the board in memory, with words, scripts and records alone:
//! what trials of several crates need.
//!
//! Boards go from session to session, scripts are written and their records read, pages are made by
//! hand. The program is a parameter, so that all this depends on none of its parts; other crates have
//! the trials, and `pk_test_program` runs them on the program.
#![tactic(auto)]

pub mod boards;
pub mod cuts;
pub mod damage;
pub mod exits;
pub mod overwritten;
pub mod pages;
pub mod program;
pub mod runs;
pub mod script;
pub mod space;
pub mod steps;
mod tried;
pub mod ways;

pub use boards::{MAKE_WORKED, board, made, serve, worked};
pub use tried::{Place, Program, holds, same};
