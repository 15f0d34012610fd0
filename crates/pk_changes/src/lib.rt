//! The changes of the map: a key gets a value, which is placed in the open block, or loses its own.
//!
//! Each call says what it does to every map that the parts represent, and what the flash holds
//! wherever it is cut.
#![tactic(auto)]

mod change;
mod committing;
mod noting;
mod placing;

pub use change::{put, take_out};
pub use noting::pages_at;
