//! The workload that a start generates: each turn gives the entry of a command and, for a Store, its value.
#![tactic(auto)]

mod command;
mod draw;
pub mod laws;
mod numbers;
mod value;
mod workload;

pub use numbers::MOST_VALUE_BYTES;
pub use workload::Workload;
