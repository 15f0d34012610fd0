//! What an image and its log are opened as: the pages of the image after the steps of the log.
ghost use Rattle.std.specs.Prelude.{◌≡◌, length, IfOk};

use crate::cell::{Cell, Front, PAGE};
use crate::drive::{DrivePages, PAGES};
use pk_image::HEADER_BYTES;
use pk_redo::{LogFault, Replay, Step};
use pk_test_disks::Medium;
use sqlite_disk::Disk;
use std::alloc::{AllocError, Global};

/// Bytes of the image of a drive.
pub const IMAGE: usize = HEADER_BYTES + PAGES * (PAGE + 1);

/// A drive that was opened.
#[derive(Drop)]
pub struct OpenedDrive {
    pub drive: DrivePages,
    pub replay: Replay,
}

// The bytes at the place of a page of an image.
fn place(image: &[u8], page: usize) -> &[u8] {
    let at = HEADER_BYTES
        .saturating_add(PAGES)
        .saturating_add(page.saturating_mul(PAGE));
    if at > image.len() || image.len() - at < PAGE {
        return &[];
    }
    &image[at..at + PAGE]
}

// A page of an image, by its state byte and its bytes.
fn cell_of(alloc: Global, image: &[u8], page: usize) -> Result<Cell, AllocError> {
    match image.get(HEADER_BYTES.saturating_add(page)) {
        Some(0) => Ok(Cell::Erased),
        Some(1) => Ok(Cell::Whole(Front::new(alloc, place(image, page))?)),
        _ => Ok(Cell::Torn),
    }
}

fn load(alloc: Global, drive: &mut DrivePages, image: &[u8]) -> Result<(), AllocError> {
    for page in 0..PAGES {
        drive.set(page, cell_of(alloc, image, page)?);
    }
    Ok(())
}

/// The pages of an image alone; None if there is no such drive.
pub fn drive_of(alloc: Global, image: &[u8]) -> Result<Option<DrivePages>, AllocError> {
    let Some(mut drive) = DrivePages::new(alloc)? else {
        return Ok(None);
    };
    load(alloc, &mut drive, image)?;
    Ok(Some(drive))
}

fn replay_steps(alloc: Global, drive: &mut DrivePages, replay: &Replay) -> Result<(), AllocError> {
    for step in replay.steps.as_slice() {
        match step {
            Step::Program { page, at, len } => {
                let end = at.saturating_add(*len);
                match replay.bytes.get(*at..end) {
                    Some(front) => drive.program(alloc, *page, front)?,
                    None => drive.set(*page as usize, Cell::Torn),
                }
            }
            Step::Erase { block } => drive.erase(*block),
        }
    }
    Ok(())
}

/// Opens the files; the fault if they are refused.
pub fn open_files(
    alloc: Global,
    log: &mut Medium,
    image: &mut Medium,
) -> Result<Result<OpenedDrive, LogFault>, AllocError> {
    let Some(mut drive) = DrivePages::new(alloc)? else {
        return Ok(Err(LogFault::Memory));
    };
    if !log.may_be_used() || !image.may_be_used() {
        return Ok(Err(LogFault::Disk));
    }
    let replay = match Replay::read(alloc, log, image, &drive.shape) {
        Ok(replay) => replay,
        Err(fault) => return Ok(Err(fault)),
    };
    load(alloc, &mut drive, image.bytes())?;
    replay_steps(alloc, &mut drive, &replay)?;
    Ok(Ok(OpenedDrive { drive, replay }))
}
