//! What a drive keeps of its journal: the newest root, the epoch that is written, the two write buffers, and the entries that
//! wait for a commit. A commit adds all of these by the two programs of a pair: at every cut the flash holds the map without
//! them or with them. A freeze makes the newest epoch the older one, and does not change the map at any cut. Lookups call no
//! board.
#![tactic(auto)]

mod finish;
mod freeze;
mod laws;
mod log;
mod merge;

pub use laws::elsewhere;
pub use log::Log;
