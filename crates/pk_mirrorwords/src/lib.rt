//! The words of a mirrored pair over two ports: what each asks, and what it says of the map of the first.
//!
//! Each word first makes the second drive equal to the first. Its text is the definition's, with the map that it leaves on both
//! drives; or a read of a drive failed, and the text says that.
#![tactic(auto)]

mod answering;
mod pages;
mod pair_room;
mod task;

pub use answering::answer_pair;
pub use pair_room::PairRoom;
pub use task::PairTask;
