//! What is opened after a loss of power: the pages after some first steps of a session, with all before the last barrier that returned
//! success.
ghost use Rattle.std.specs.Prelude.{◌≤◌};

use crate::deeds::{Deed, bytes_from};
use crate::drive::DrivePages;
use crate::reading::open_files;
use crate::session::{After, Done, FailingCalls, Files, NO_FAILURE, log_session, new_files};
use pk_test_disks::{BASIC, Fails, Medium, Random, Remains, any_left, extremes, outcome};
use sqlite_disk::Disk;
use std::alloc::{AllocError, Global};
use std::test::Fail;

/// What was opened after losses of power.
#[derive(Clone, Copy, Debug, PartialEq, Eq)]
pub struct Seen {
    /// How many outcomes were tried.
    pub outcomes: u64,
    /// How many of them were refused, or read as other pages.
    pub wrong: u64,
}

impl Seen {
    pub const NONE: Seen = Seen {
        outcomes: 0,
        wrong: 0,
    };

    fn note(&mut self, is_right: bool) {
        self.outcomes = self.outcomes.saturating_add(1);
        if !is_right {
            self.wrong = self.wrong.saturating_add(1);
        }
    }
}

// Does a step to the pages.
fn apply(alloc: Global, drive: &mut DrivePages, step: Deed) -> Result<(), AllocError> {
    match step {
        Deed::Program { page, byte, len } => {
            let bytes = bytes_from(byte);
            drive.program(alloc, page, &bytes[..len.min(bytes.len())])
        }
        Deed::Erase { block } => {
            drive.erase(block);
            Ok(())
        }
        Deed::Barrier | Deed::Room => Ok(()),
    }
}

/// The pages after the first steps of a session, as many as this.
pub fn pages_after(alloc: Global, done: &Done, count: usize) -> Result<DrivePages, AllocError> {
    let mut drive = done.start.copy(alloc)?;
    for step in done.steps.iter().take(count) {
        apply(alloc, &mut drive, *step)?;
    }
    Ok(drive)
}

/// The pages are those before a session and after some first steps of it, with all that are durable.
pub fn is_cut(alloc: Global, done: &Done, found: &DrivePages) -> Result<bool, AllocError> {
    let mut drive = done.start.copy(alloc)?;
    for i in 0..done.steps.len() {
        if i >= done.durable && drive.is_same(found) {
            return Ok(true);
        }
        apply(alloc, &mut drive, done.steps[i])?;
    }
    Ok(drive.is_same(found))
}

// What a loss of power leaves of a file, as a file of which these calls fail.
fn left_of(
    alloc: Global,
    medium: &Medium,
    left: Remains,
    fails: Fails,
) -> Result<Medium, AllocError> {
    let bytes = outcome(alloc, medium, left)?;
    Medium::new(alloc, bytes.as_slice(), medium.mixes(), fails)
}

// Opens files after a session, and notes what they are read as.
fn try_files(
    alloc: Global,
    done: &Done,
    log: &mut Medium,
    image: &mut Medium,
    seen: &mut Seen,
) -> Result<(), AllocError> {
    match open_files(alloc, log, image)? {
        Ok(opened) => seen.note(is_cut(alloc, done, &opened.drive)?),
        Err(_) => seen.note(false),
    }
    Ok(())
}

// Each of these outcomes of the log beside one image.
fn try_logs(
    alloc: Global,
    done: &Done,
    log: &Medium,
    lefts: &[Remains],
    image: &mut Medium,
    seen: &mut Seen,
) -> Result<(), AllocError> {
    for left in lefts {
        let mut log = left_of(alloc, log, *left, Fails::Never)?;
        try_files(alloc, done, &mut log, image, seen)?;
    }
    Ok(())
}

/// Each of these outcomes of the log beside each of these of the image.
pub fn try_pairs(
    alloc: Global,
    done: &Done,
    files: &Files,
    logs: &[Remains],
    images: &[Remains],
    seen: &mut Seen,
) -> Result<(), AllocError> {
    for left in images {
        let mut image = left_of(alloc, &files.image, *left, Fails::Never)?;
        try_logs(alloc, done, &files.log, logs, &mut image, seen)?;
    }
    Ok(())
}

/// The extremes of each file beside those that each file has of the other one.
pub fn try_extremes(
    alloc: Global,
    done: &Done,
    files: &Files,
    seen: &mut Seen,
) -> Result<(), AllocError> {
    let logs = extremes(alloc, &files.log)?;
    let images = extremes(alloc, &files.image)?;
    try_pairs(alloc, done, files, &logs, &BASIC, seen)?;
    try_pairs(alloc, done, files, &BASIC, &images, seen)
}

/// What chance leaves of both files, this many times.
pub fn try_chances(
    alloc: Global,
    done: &Done,
    files: &Files,
    times: u32,
    random: &mut Random,
    seen: &mut Seen,
) -> Result<(), AllocError> {
    for _ in 0..times {
        let log = any_left(random, &files.log);
        let image = any_left(random, &files.image);
        try_pairs(alloc, done, files, &[log], &[image], seen)?;
    }
    Ok(())
}

/// A further session, over what chance left of the files of one; None if they are refused.
pub fn further(
    alloc: Global,
    files: &Files,
    deeds: &[Deed],
    failing: FailingCalls,
    random: &mut Random,
) -> Result<Option<(Done, Files)>, AllocError> {
    let log = any_left(random, &files.log);
    let image = any_left(random, &files.image);
    let left = Files {
        log: left_of(alloc, &files.log, log, failing.log)?,
        image: left_of(alloc, &files.image, image, failing.image)?,
    };
    match log_session(alloc, left, deeds, After::Stops)? {
        Ok(it) => Ok(Some(it)),
        Err(_) => Ok(None),
    }
}

/// The same files after a loss of power that lost nothing.
pub fn reopened(alloc: Global, files: &Files, failing: FailingCalls) -> Result<Files, AllocError> {
    Ok(Files {
        log: left_of(alloc, &files.log, Remains::Whole, failing.log)?,
        image: left_of(alloc, &files.image, Remains::Whole, failing.image)?,
    })
}

/// A session came to its end, and the image alone is the drive.
pub fn is_image_alone(alloc: Global, done: &Done, files: &Files) -> Result<bool, AllocError> {
    let mut log = Medium::new(alloc, &[], true, Fails::Never)?;
    let mut image = Medium::new(alloc, files.image.synced(), true, Fails::Never)?;
    match open_files(alloc, &mut log, &mut image)? {
        Ok(opened) => Ok(done.is_over && opened.drive.is_same(&done.end)),
        Err(_) => Ok(false),
    }
}

/// A session over a drive that was never written; None if a call fails while it is opened.
pub fn fresh_session(
    alloc: Global,
    is_mixing: bool,
    failing: FailingCalls,
    deeds: &[Deed],
    after: After,
) -> Result<Option<(Done, Files)>, Fail> {
    let files = new_files(alloc, is_mixing, failing)?.ok_or("no files")?;
    match log_session(alloc, files, deeds, after)? {
        Ok(it) => Ok(Some(it)),
        Err(_) => Ok(None),
    }
}

/// The same, in which no call fails.
pub fn whole_session(
    alloc: Global,
    is_mixing: bool,
    deeds: &[Deed],
) -> Result<(Done, Files), Fail> {
    match fresh_session(alloc, is_mixing, NO_FAILURE, deeds, After::Stops)? {
        Some(it) => Ok(it),
        None => Err("the files are refused".into()),
    }
}
