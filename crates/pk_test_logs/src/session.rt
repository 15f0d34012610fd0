//! A session: the files are opened, deeds are done, and the run ends; or as much of it as the files let through.
ghost use Rattle.std.specs.Prelude.{◌≡◌, ◌≤◌, true, is_ok, IfOk};
ghost use Rattle.pk_redo.specs.Kept.{HasRoomForStep};
ghost use Rattle.pk_test_logs.specs.declared.cell.TheConstants.{PAGE};

use crate::cell::PAGE;
use crate::deeds::{Deed, bytes_from};
use crate::drive::DrivePages;
use crate::reading::{IMAGE, OpenedDrive, open_files};
use pk_base::Shape;
use pk_image::header;
use pk_redo::{LogFault, LogSizes, RedoLog, Replay};
use pk_test_disks::{Fails, Medium};
use std::alloc::{AllocError, Global};
use std::io;

// How many bytes of steps a batch has, of zeros there are ahead, and a log has before it is emptied.
const BATCH_BYTES: u32 = 1_100;

const BLANK_BYTES: u32 = 1_300;

const MOST_BYTES: u32 = 2_900;

/// The log and the image.
#[derive(Drop)]
pub struct Files {
    pub log: Medium,
    pub image: Medium,
}

/// What a session has done.
#[derive(Drop)]
pub struct Done {
    /// The pages before it.
    pub start: DrivePages,
    /// Those in memory at its end.
    pub end: DrivePages,
    /// Its steps, the oldest first.
    pub steps: Vec<Deed>,
    /// How many of them a barrier that returned success made durable.
    pub durable: usize,
    /// It came to its end, so that the image alone is the drive.
    pub is_over: bool,
    /// How often a call of the log answered the error of a call of a file that was made to fail.
    pub errors: u64,
}

/// The calls of each file that fail.
#[derive(Clone, Copy)]
pub struct FailingCalls {
    pub log: Fails,
    pub image: Fails,
}

pub const NO_FAILURE: FailingCalls = FailingCalls {
    log: Fails::Never,
    image: Fails::Never,
};

/// What a session does after an error.
#[derive(Clone, Copy, PartialEq, Eq)]
pub enum After {
    /// Nothing: the machine has stopped.
    Stops,
    /// The next deed, unless the log is lost, and then its end.
    GoesOn,
}

/// The files of a drive that was never written: the image, and no byte of a log.
pub fn new_files(
    alloc: Global,
    is_mixing: bool,
    failing: FailingCalls,
) -> Result<Option<Files>, AllocError> {
    let Some(drive) = DrivePages::new(alloc)? else {
        return Ok(None);
    };
    let mut bytes = Vec::from_elem(alloc, 0u8, IMAGE)?;
    let head = header(&drive.shape);
    if bytes.len() < head.len() {
        return Ok(None);
    }
    bytes[..head.len()].copy_from_slice(&head);
    Ok(Some(Files {
        log: Medium::new(alloc, &[], is_mixing, failing.log)?,
        image: Medium::new(alloc, bytes.as_slice(), is_mixing, failing.image)?,
    }))
}

// Whether a call of the log succeeded; the error of a call that was made to fail is counted.
fn is_done(outcome: io::Result<()>, errors: &mut u64) -> bool
    ensures { result ≡ is_ok outcome }
{
    match outcome {
        Ok(()) => true,
        Err(error) => {
            if error.kind() == io::ErrorKind::TimedOut {
                *errors = errors.saturating_add(1);
            }
            false
        }
    }
}

// An image and its log, both open, with little room in the log, so that a session makes checkpoints.
fn small_log(
    alloc: Global,
    files: Files,
    shape: Shape,
    replay: &Replay,
) -> Result<RedoLog<Medium>, AllocError>
    ensures { IfOk result (λ redo. redo.shape ≡ shape) }
{
    let Files { log, image } = files;
    let sizes = LogSizes::new(&shape, BATCH_BYTES, BLANK_BYTES, MOST_BYTES);
    RedoLog::new(alloc, log, image, shape, replay, sizes)
}

// An open drive: its image and its log, and its pages in memory.
#[derive(Drop)]
struct Run {
    redo: RedoLog<Medium>,
    drive: DrivePages,
    errors: u64,
    ghost one_shape: { redo.shape ≡ drive.shape },
}

impl Run {
    fn new(alloc: Global, files: Files, opened: OpenedDrive) -> Result<Run, AllocError> {
        let OpenedDrive { drive, replay } = opened;
        Ok(Run {
            redo: small_log(alloc, files, drive.shape, &replay)?,
            drive,
            errors: 0,
        })
    }

    // Secures room for a step; whether there is some.
    fn is_ready(&mut self, len: usize) -> bool
        requires { len ≤ PAGE }
        ensures room { result ≡ true → HasRoomForStep self.new.redo len }
        ensures drive { self.new.drive ≡ self.old.drive }
    {
        is_done(self.redo.ready(&self.drive, len), &mut self.errors) && self.redo.has_room(len)
    }

    // Programs a page if there is room; whether it did.
    fn program(&mut self, alloc: Global, page: u32, front: &[u8]) -> Result<bool, AllocError> {
        if page >= self.drive.shape.page_count()
            || front.len() > PAGE
            || !self.is_ready(front.len())
        {
            return Ok(false);
        }
        self.redo.program(page, front);
        self.drive.program(alloc, page, front)?;
        Ok(true)
    }

    // The same for the erase of a block.
    fn erase(&mut self, block: u32) -> bool {
        if block >= self.drive.shape.blocks() || !self.is_ready(0) {
            return false;
        }
        self.redo.erase(block);
        self.drive.erase(block);
        true
    }

    fn is_committed(&mut self) -> bool {
        is_done(self.redo.barrier(), &mut self.errors)
    }

    // Nothing more is to be done.
    fn is_ended(&self, after: After) -> bool {
        self.redo.is_lost() || (after == After::Stops && self.errors > 0)
    }
}

// Does a step or a barrier of a session. A step for which there is no room is skipped.
fn does(alloc: Global, run: &mut Run, done: &mut Done, deed: Deed) -> Result<(), AllocError> {
    let is_step = match deed {
        Deed::Program { page, byte, len } => {
            let bytes = bytes_from(byte);
            run.program(alloc, page, &bytes[..len.min(PAGE)])?
        }
        Deed::Erase { block } => run.erase(block),
        Deed::Barrier => {
            if run.is_committed() {
                done.durable = done.steps.len();
            }
            false
        }
        Deed::Room => {
            let _ = run.is_ready(0);
            false
        }
    };
    if is_step {
        done.steps.push(deed)?;
    }
    Ok(())
}

// Does the deeds of a session.
fn does_all(
    alloc: Global,
    run: &mut Run,
    done: &mut Done,
    deeds: &[Deed],
    after: After,
) -> Result<(), AllocError> {
    for deed in deeds {
        if run.is_ended(after) {
            return Ok(());
        }
        does(alloc, run, done, *deed)?;
    }
    Ok(())
}

// What a session is before its deeds.
fn nothing_done(alloc: Global, drive: &DrivePages) -> Result<Done, AllocError> {
    Ok(Done {
        start: drive.copy(alloc)?,
        end: drive.copy(alloc)?,
        steps: Vec::new(alloc),
        durable: 0,
        is_over: false,
        errors: 0,
    })
}

// Ends a run, unless the machine has stopped.
fn end_of(run: Run, mut done: Done, after: After) -> (Done, Files) {
    let is_stopped = after == After::Stops && run.errors > 0;
    let Run {
        mut redo,
        drive,
        mut errors,
    } = run;
    if !is_stopped && is_done(redo.finish(&drive), &mut errors) {
        done.durable = done.steps.len();
        done.is_over = true;
    }
    done.end = drive;
    done.errors = errors;
    let (log, image) = redo.into_disks();
    (done, Files { log, image })
}

/// A session over these files; the fault if they are refused.
pub fn log_session(
    alloc: Global,
    mut files: Files,
    deeds: &[Deed],
    after: After,
) -> Result<Result<(Done, Files), LogFault>, AllocError> {
    let opened = match open_files(alloc, &mut files.log, &mut files.image)? {
        Ok(opened) => opened,
        Err(fault) => return Ok(Err(fault)),
    };
    let mut done = nothing_done(alloc, &opened.drive)?;
    let mut run = Run::new(alloc, files, opened)?;
    does_all(alloc, &mut run, &mut done, deeds, after)?;
    Ok(Ok(end_of(run, done, after)))
}
