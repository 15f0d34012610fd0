//! The words of a mirrored pair on two opened drives, from their commands to their text.
//!
//! A word posts its text on the first board after all its commands. Wherever either board is cut,
//! the first holds the map before the word or the one after it, and the second holds a map.
#![tactic(auto)]

mod ending;
mod pair_speaker;

pub use pair_speaker::PairSpeaker;
