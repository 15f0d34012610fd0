//! A real file as a disk, and the log that lies beside an image. Each call of the system is noted with its answer in a record that only
//! clauses read; what the file holds, and what a crash may leave of it, is a definition on that record.
//!
//! What is trusted, a sentence for each call of the system that this crate makes:
//! - `metadata` answers the length of the file.
//! - `pread` gives the bytes that the file has at that place, as many as it answers.
//! - `pwrite` writes the first bytes of those that it is given, as many as it answers, and nothing else; one that fails may have written
//!   any of them.
//! - `ftruncate` cuts the file or fills it up with zeros, and nothing else.
//! - `fdatasync` that answers success has brought to the disk all that was written, and the length.
//! - After a loss of power each byte that was written since the last such sync is the old one or one that was written (`Unknown`), or any
//!   byte (`Wary`); all others are as they were.
//! - After a kill, all that a call answered is in the file, and of a call that it interrupted each byte is the old one or the new one. So a
//!   disk that makes no sync call (`Syncs::None`) keeps what its syncs promise for a kill, and for nothing else.
//! - `open` with `O_EXCL` makes a file that was not there, and `rename`, `unlink` and a sync of a folder do to its names what they say.
//! - Nothing else writes to the files while they are open: the board has the lock of the image first.
#![tactic(auto)]

mod host;
mod opening;
mod record;

pub use host::{Host, Syncs};
pub use opening::{OpenDisk, find_log, log_path, make_log, open_disk, remove_log};
pub use sqlite_disk::{Start, Unknown, Wary};

/// A file that held what `S` says.
pub type DiskFile<S> = sqlite_disk::Modelled<Host, S>;
