//! The contract of a drive: what it answers, what it leaves on the flash, and what the flash holds
//! wherever power is lost.
//!
//! Whoever serves commands depends on this contract alone, and whoever stores the map is built to
//! it.
#![tactic(auto)]

mod engine;

pub use engine::Engine;
