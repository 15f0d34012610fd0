//! The drive with its board as a port of a host.
//!
//! Each command is committed before it is answered. What one command does, and what a list of them does to the board that was
//! lent, are records of `specs/Steps.antt`.
#![tactic(auto)]

mod halt;
mod port;
mod step;
mod submit;
mod tally;

pub use halt::Halt;
pub use port::DrivePort;
pub use step::serve_lent;
pub use tally::Tally;
