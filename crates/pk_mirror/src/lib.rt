//! Two drives that are used as one, over the ports that are lent to each call.
//!
//! A store or a delete goes to the first drive and then to the second. Wherever that ends, each of
//! them holds the map before it or the one after it, and both hold the one after it if the answer
//! was success; `resync` makes the second drive's map equal to the first's again.
#![tactic(auto)]

mod buffers;
mod deleting;
mod error;
mod listing;
mod mirror;
mod resync;
mod retrieving;
mod storing;
mod visiting;

pub use buffers::last_of;
pub use error::{MirrorError, Side};
pub use mirror::Mirror;
