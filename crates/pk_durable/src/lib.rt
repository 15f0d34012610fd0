//! A board over an image and its log, each any disk, that records its trail. It also records what
//! both held when it was opened, its input and what was posted. Its pages are in memory. Changes go
//! to the log, and nothing that was posted leaves before the changes before it are durable. Whatever
//! a crash leaves of both disks is read as the pages after the first of its marks, at least those
//! before the last barrier after which posts left. So what is proved of a run over every board that
//! records its trail can be said of the bytes of two disks.
#![tactic(auto)]

mod board;
mod flash;
mod image_pages;
mod opening;
mod trail;

pub use board::DurableBoard;
pub use flash::DurableFlash;
pub use opening::OpenedFiles;
pub use trail::BoundedTrail;
