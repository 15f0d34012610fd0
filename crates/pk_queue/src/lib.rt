//! The records that wait for a commit, in order.
//!
//! Room for them is taken once, and no other call takes memory.
#![tactic(auto)]

mod queue;

pub use queue::Queue;
