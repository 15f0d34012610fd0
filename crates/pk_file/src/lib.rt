//! A board over an image file, standard input and standard output: the trusted edge of the program.
//! It meets the contracts of a board with its pages in memory. Pages that are programmed one after
//! another are written together, before the next change elsewhere and before what was posted leaves;
//! if it has to be durable, they are on the disk then. Of a page it writes no byte that the file
//! has, but for a few zeros between two. It reads ahead and gathers what is posted, which leaves
//! before the input may wait. What a file or a terminal does with the bytes is not proved.
#![tactic(auto)]

mod backing;
mod file_board;
mod image_file;
mod image_log;
mod incoming;
mod logged;
mod opening;
mod outgoing;
mod page_reader;
mod pages_to_file;
mod piece;
mod room;
mod row;
mod slot;
mod slots;
mod trimmed;

pub use backing::Keeping;
pub use file_board::{EndFault, FileBoard};
pub use logged::{
    SlotPages, begin_logged, commit_steps, end_logged, erase_logged, program_logged, replay_steps,
};
pub use page_reader::copied;
pub use pk_disk::{DiskFile, OpenDisk, Unknown, Wary};
pub use slot::Slot;
pub use slots::{known, read_slot};
pub use trimmed::Trimmed;
