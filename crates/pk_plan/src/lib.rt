//! The numbers that follow from a shape: quotas of blocks, frames to pin levels, device calls of a command, and the order of merges.
#![tactic(auto)]

mod owner;
mod plan;

pub use owner::Owner;
pub use plan::Plan;
