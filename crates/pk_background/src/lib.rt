//! How room is made in a drive: the steps of merges, freezes and reclaims, each of them alone as a
//! background step, or to their end inside a command, and the second program of a pair that is half
//! made.
//!
//! Each call keeps the map that the parts represent, wherever it is cut.
#![tactic(auto)]

mod emptying;
mod fill;
mod pair;
mod reclaim;
mod room;
mod space;
mod tick;

pub use pair::make_whole;
pub use room::make_room;
pub use space::{make_space, needs_space};
pub use tick::advance;
