//! The words that ask a drive, from their commands to their text.
//!
//! The commands of a workload are committed in groups, each other command before the next one, and the text goes out after the last
//! commit. Wherever a word is cut off, the flash holds the map after a prefix of its commands, and if a byte went out, after all of
//! them.
#![tactic(auto)]

mod ask;
mod end;
mod group;
mod keys;
mod list;
pub mod say;
mod sizes;
mod speaker;
mod summary;
mod task;
mod tell;
mod workload;

pub use end::{WordEnd, end_of};
pub use speaker::Speaker;
pub use task::{Series, Task};
