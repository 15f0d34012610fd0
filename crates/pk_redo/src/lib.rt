//! A write-ahead log beside an image file: batches of steps, each there whole or not at all, and a checkpoint that brings their pages into
//! the image. Whatever a crash leaves of the two files, they are read as the pages after the steps of all batches that were committed, or
//! after these and the one whose commit it interrupted. `RedoLog` is an open image with its open log and the batch in memory: after each
//! call, whatever it answers, what a crash leaves is read as the pages that were kept before it, or as all of them.
#![tactic(auto)]

mod batch;
mod checkpoints;
mod image;
mod laws;
mod log;
mod pending;
mod reader;
mod record;
mod redo_calls;
mod redo_log;
mod replay;
mod step;

pub use batch::{BATCH_HEAD, FIRST_BATCH, MOST_BATCH, batch_at, is_open, seal};
pub use checkpoints::checkpoint;
pub use image::{Pages, barrier, close, finish, put_page, put_states};
pub use laws::{
    each_prefix_is_a_cut, kept_is_read, reads_once, replay_is_absolute, steps_read_once,
};
pub use log::{commit, extend, reset, shut};
pub use reader::{LogFault, find_batches, read_log, read_steps};
pub use record::{is_record_of, put_record, record_len, set_pages};
pub use redo_log::{LogSizes, LogState, RedoLog};
pub use replay::Replay;
pub use step::{STEP_BYTES, Step, put_erase, put_program};
