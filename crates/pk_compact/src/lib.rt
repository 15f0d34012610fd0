//! Jobs that keep the lists of a flash short, in steps of at most one flash operation. A freeze
//! makes the newest epoch the older one, and begins an empty one in two blocks of the pool; a merge
//! empties the older epoch, or a run, into the next run. The map is the same wherever a step is
//! cut, and commands that are served between the steps see the former lists.
#![tactic(auto)]

mod blocks;
mod freezing;
mod laws;
mod merge;
mod next;
mod roots;

pub use blocks::retire_epoch;
pub use freezing::{FreezeJob, freeze_step};
pub use laws::{merged, unread};
pub use merge::install_merge;
pub use roots::{install_root, prepare_root, repeat_root};
