//! One of both files, and sessions of which a call of it fails.

use crate::deeds::worked_deeds;
use crate::session::{After, Done, FailingCalls, Files};
use crate::trial::{fresh_session, whole_session};
use pk_test_disks::{Fails, Medium};
use std::alloc::Global;
use std::test::Fail;

/// One of the files.
#[derive(Clone, Copy, Debug, PartialEq, Eq)]
pub enum WhichFile {
    Log,
    Image,
}

/// Calls of a file that fail, and none of the other.
pub fn failing_of(which: WhichFile, fails: Fails) -> FailingCalls {
    match which {
        WhichFile::Log => FailingCalls {
            log: fails,
            image: Fails::Never,
        },
        WhichFile::Image => FailingCalls {
            log: Fails::Never,
            image: fails,
        },
    }
}

/// The file.
pub fn file_of(files: &Files, which: WhichFile) -> &Medium {
    match which {
        WhichFile::Log => &files.log,
        WhichFile::Image => &files.image,
    }
}

/// The files of a session that the last sync of its image stopped: the log has steps that the image
/// lacks.
pub fn stopped_session(alloc: Global, is_mixing: bool) -> Result<(Done, Files), Fail> {
    let (_, files) = whole_session(alloc, is_mixing, &worked_deeds())?;
    let last = files.image.calls().saturating_sub(1);
    let failing = failing_of(WhichFile::Image, Fails::From(last));
    match fresh_session(alloc, is_mixing, failing, &worked_deeds(), After::Stops)? {
        Some(it) => Ok(it),
        None => Err("the files are refused".into()),
    }
}
