//! Sessions over an image and its log, from the bytes of both disks to the map. A session runs the
//! program over a board that records its trail; the law is over any number of them, each on what a
//! crash of the one before left of both.
#![tactic(auto)]

pub mod laws;
mod running;

pub use running::session;
