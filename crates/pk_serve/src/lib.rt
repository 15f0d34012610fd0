//! The serving loop over the contract of a drive.
//!
//! A record is posted only after what it reports is on the flash. At whatever point power is lost, the
//! flash holds the map after a prefix of the commands, and that prefix contains every command of whose
//! record a byte was posted.
#![tactic(auto)]

mod end;
mod entry;
mod input;
mod port;
mod serve;
mod server;
mod step;

pub use end::End;
pub use port::submit;
pub use server::Server;
