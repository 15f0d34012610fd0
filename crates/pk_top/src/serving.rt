//! The word that serves a script.
ghost use Rattle.std.specs.Prelude.{◌≡◌, ◌≤◌};
ghost use Rattle.pk_nand.specs.Calls.{IsReady};
ghost use Rattle.pk_top.specs.Ends.{end_status, open_status};
ghost use Rattle.pk_top.specs.Serves.{ServeRun, RunServes};
ghost use Rattle.pk_top.specs.Statuses.{Tells};
ghost use Rattle.pk_top.specs.declared.words.TheConstants.{MOST_FRAMES};

use crate::making::of_load_fault;
use crate::status::Status;
use pk_base::Shape;
use pk_core::{Drive, OpenError};
use pk_nand::Board;
use pk_serve::{End, Server};
use std::alloc::Global;

/// The status of an end.
fn of_end(end: End) -> Status
    ensures { result.0 ≡ end_status end }
{
    match end {
        End::Done => Status::DONE,
        End::Truncated => Status::TRUNCATED,
        End::Input => Status::INPUT,
        End::Output => Status::OUTPUT,
        End::Flash => Status::FLASH,
        End::Worn => Status::WORN,
    }
}

/// The status if a drive was not opened.
pub fn of_open_error(error: OpenError) -> Status
    ensures { result.0 ≡ open_status error }
{
    match error {
        OpenError::NotFormatted => Status::NO_DRIVE,
        OpenError::Damaged { .. } => Status::NO_DRIVE,
        OpenError::Fault => Status::FLASH,
        OpenError::Memory => Status::MEMORY,
    }
}

/// Opens the drive of an image and serves the input. All memory is taken before the first byte of it.
fn serve_image<B: Board>(alloc: Global, shape: Shape, frames: u32, board: &mut B) -> Status
    requires ready { IsReady (B.state board.old) shape }
    requires frames { frames ≤ MOST_FRAMES }
    ensures { RunServes shape frames (B.state board.old) (B.state board.new) result.0 }
{
    let Ok(mut server) = Server::new(alloc, shape) else {
        return Status::MEMORY;
    };
    match Drive::open(alloc, board, shape, frames) {
        Ok(mut drive) => of_end(server.serve(&mut drive, board)),
        Err(error) => of_open_error(error),
    }
}

/// Serves the script of the input with this many frames, on the drive of the image that is found.
pub fn serve<B: Board>(alloc: Global, frames: u32, board: &mut B) -> Status
    requires { frames ≤ MOST_FRAMES }
    ensures runs { ServeRun frames (B.state board.old) (B.state board.new) result.0 }
    ensures tells { Tells (B.state board.old) (B.state board.new) result.0 }
{
    match board.load(alloc) {
        Ok(Some(shape)) => serve_image(alloc, shape, frames, board),
        Ok(None) => Status::NO_DRIVE,
        Err(fault) => of_load_fault(fault),
    }
}
