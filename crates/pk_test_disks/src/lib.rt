//! A file in memory of which calls fail, and what a loss of power may leave of it: by the extremes of what the model of a disk allows, and
//! by chance.
#![tactic(auto)]

mod medium;
mod outcomes;
mod random;

pub use medium::{Effect, Fails, MADE_TO_FAIL, Medium, Unsynced};
pub use outcomes::{
    BASIC, Earlier, Remains, any_left, extremes, last_len, outcome, simple_extremes,
};
pub use random::Random;
