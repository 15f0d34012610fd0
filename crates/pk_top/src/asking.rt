//! The words that ask the drive.
ghost use Rattle.std.specs.Prelude.{◌≡◌};
ghost use Rattle.pk_nand.specs.Calls.{IsReady};
ghost use Rattle.pk_wordrun.specs.Seen.{seen, IsAllowedTask};
ghost use Rattle.pk_top.specs.Asks.{Asks, AskRun, word_status};
ghost use Rattle.pk_top.specs.Statuses.{Tells};

use crate::making::of_load_fault;
use crate::serving::of_open_error;
use crate::status::Status;
use pk_base::Shape;
use pk_core::Drive;
use pk_nand::Board;
use pk_wordrun::{Speaker, Task, WordEnd};
use std::alloc::Global;

/// The frames with which a word opens the drive: those that pin two levels, 4 and 16 for their pages and 16 for the output of a
/// merge into the second.
pub const WORD_FRAMES: u32 = 36;

/// The status of an end.
pub fn of_word_end(end: WordEnd) -> Status
    ensures { result.0 ≡ word_status end }
{
    match end {
        WordEnd::Done => Status::DONE,
        WordEnd::Output => Status::OUTPUT,
        WordEnd::Flash => Status::FLASH,
        WordEnd::Worn => Status::WORN,
    }
}

/// Opens the drive of an image and does what a word asks of it. All memory is taken before the first byte goes out.
fn ask_image<B: Board>(alloc: Global, shape: Shape, task: Task, board: &mut B) -> Status
    requires ready { IsReady (B.state board.old) shape }
    requires allowed { IsAllowedTask (seen task) }
    ensures { Asks (seen task) shape (B.state board.old) (B.state board.new) result.0 }
{
    let Ok(speaker) = Speaker::new(alloc, shape) else {
        return Status::MEMORY;
    };
    match Drive::open(alloc, board, shape, WORD_FRAMES) {
        Ok(mut drive) => of_word_end(speaker.run(&mut drive, board, task)),
        Err(error) => of_open_error(error),
    }
}

/// Asks the drive of the image that is found.
pub fn ask<B: Board>(alloc: Global, task: Task, board: &mut B) -> Status
    requires { IsAllowedTask (seen task) }
    ensures runs { AskRun (seen task) (B.state board.old) (B.state board.new) result.0 }
    ensures tells { Tells (B.state board.old) (B.state board.new) result.0 }
{
    match board.load(alloc) {
        Ok(Some(shape)) => ask_image(alloc, shape, task, board),
        Ok(None) => Status::NO_DRIVE,
        Err(fault) => of_load_fault(fault),
    }
}
