//! Sessions over an image and its log, both files in memory, and what is opened after a loss of power.
#![tactic(auto)]

mod cell;
mod deeds;
mod drive;
mod moment;
mod reading;
mod session;
mod trial;
mod which;

pub use cell::{Cell, Front, PAGE};
pub use deeds::{Deed, bytes_from, deeds_of, worked_deeds};
pub use drive::{BLOCK, DrivePages, PAGES};
pub use moment::{Moment, Moments, moment_of};
pub use reading::{IMAGE, OpenedDrive, drive_of, open_files};
pub use session::{After, Done, FailingCalls, Files, NO_FAILURE, log_session, new_files};
pub use trial::{
    Seen, fresh_session, further, is_cut, is_image_alone, pages_after, reopened, try_chances,
    try_extremes, try_pairs, whole_session,
};
pub use which::{WhichFile, failing_of, file_of, stopped_session};
