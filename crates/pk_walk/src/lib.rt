//! A walk over the keys that exist, in rising order: those of two write buffers and of four runs.
//!
//! Each key is returned once, with the place of its value, and no page of a run is read twice in a walk.
#![tactic(auto)]

mod begin;
mod buffers;
mod cursor;
mod cursors;
mod head;
mod orders;
mod page;
mod position;
mod seek;
mod walk;

pub use position::Position;
pub use walk::Walk;
