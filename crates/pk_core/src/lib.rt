//! The drive: formatting and opening, commands, commits and background steps over the parts of a
//! drive.
//!
//! Its map is the one that the flash holds with the pending entries. Wherever a command, a commit
//! or a step is cut, the flash holds what the contract of a drive says.
#![tactic(auto)]

mod counts;
mod drive;
mod engine;
mod filled;
mod list;
mod listed;
mod making;
mod numbers;
mod open;
mod quiet;
mod store;
mod storing;
mod tick;
mod ticks;

pub use drive::Drive;
pub use making::format;
pub use pk_scan::OpenError;
