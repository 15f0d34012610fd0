//! The newest root of a flash, found by a read of each page of the two root blocks, and the install
//! of the next one, by at most one flash operation a step: the first install of a session, and one
//! after a full block, erases the block without the newest root. Wherever a step is cut the newest
//! root is the former or the new one, and no page after the root blocks differs.
#![tactic(auto)]

mod installer;
mod laws;
mod next;
mod scan;

pub use installer::Installer;
pub use laws::changes_behind;
pub use scan::newest;
