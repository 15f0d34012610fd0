//! The epochs of the journal. `append` adds entries to an epoch by the two programs of a pair:
//! at every cut all of them or none. `replay` reads an epoch into a write buffer, in which the later
//! entry of a key counts, or names the page that refuses. Laws say what of an epoch is unchanged if
//! other parts of the flash change.
#![tactic(auto)]

mod entries;
mod epoch;
mod error;
mod laws;
mod reading;

pub use epoch::Epoch;
pub use error::ReplayError;
pub use laws::{changes_elsewhere, fits_elsewhere, reads_elsewhere};
pub use reading::{replay, replay_in};
