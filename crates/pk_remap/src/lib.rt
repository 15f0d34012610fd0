//! A flash with spare blocks over another flash: a block whose program or erase failed is copied to a spare block, so that the drive
//! above meets no fault, unless no spare block is left or the move fails itself. A table page says which spare block each block is in. Wherever one of the steps that copy a block is cut, and
//! where one fails, the outer flash is as it was before the call that failed, or what this call may leave.
#![tactic(auto)]

mod board;
mod check;
mod counts;
mod first_table;
mod image;
mod images;
pub mod laws;
mod layout;
mod mark_log;
mod marking;
mod nand;
mod noting;
mod pages;
mod phase;
mod places;
mod relocation;
mod remap;
mod search;
mod serving;
mod shapes;
mod steps;
mod table;
mod top;

pub use counts::BoardCounts;
pub use image::Image;
pub use layout::{FAILED, LIST_FROM, MOST_SPARES};
pub use mark_log::{MarkLog, NotedMark};
pub use phase::Phase;
pub use places::{page_in, place};
pub use relocation::{Call, Relocation};
pub use remap::Remap;
pub use search::newest;
pub use shapes::{inner_shape, outer_shape};
pub use table::{BadTable, decode, encode};
pub use top::Top;
