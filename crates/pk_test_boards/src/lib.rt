//! The boards on which parts of a drive are tested, and whole drives.
#![tactic(auto)]

mod boards;

pub use boards::{
    Held, NONE, board_in, board_with, copied, erased_board, put_root, shape_of, small, whole,
    worked,
};
