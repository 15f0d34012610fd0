//! The serving loop: functions over the parts of a `Server`, since their contracts say which
//! records are held before and after a call, and of what a call writes into a field of `&mut self`
//! the check gives no plain equation.
ghost use Rattle.std.specs.Prelude.{◌≡◌, ◌<◌, ◌⊎◌, [], true, OnOk, IfErr};
ghost use Rattle.pk_queue.specs.Queue.{bytes_of};
ghost use Rattle.pk_serve.specs.Ends.{IsFault, Blames};
ghost use Rattle.pk_call.specs.Running.{DriveRuns};
ghost use Rattle.pk_serve.specs.Part.{CanRun, HasBuffers, KeepsRunning, SameSizes};
ghost use Rattle.pk_serve.specs.Input.{InputAdvances, Quits};
ghost use Rattle.pk_serve.specs.Script.{Runs};
ghost use Rattle.pk_serve.specs.Further.{most_entries};

use crate::End;
use crate::entry::{Numbered, take_entry, take_value};
use crate::step::{flush, serve_one};
use pk_base::Shape;
use pk_drive::Engine;
use pk_nand::Board;
use pk_nvme::{Request, SUBMISSION_BYTES};
use pk_queue::Queue;

/// Takes one command and serves it.
pub fn serve_next<D: Engine, B: Board>(
    drive: &mut D,
    board: &mut B,
    held: &mut Queue,
    value: &mut [u8],
    into: &mut [u8],
    shape: &Shape,
    taken: u32,
) -> Result<(), End>
    requires running { DriveRuns (D.agrees drive.old) (D.sight drive.old) (B.state board.old) }
    requires count { taken < most_entries }
    requires buffers { HasBuffers (B.state board.old) shape.now value.old into.old }

    // The drive, the board and the buffers.
    ensures runs_on { OnOk result (KeepsRunning (D.agrees drive.new) (D.sight drive.new)
        (B.state board.old) (B.state board.new)) }
    ensures sizes { SameSizes (B.state board.old) (B.state board.new) held.old.room held.new.room
        value.old value.new into.old into.new }
    ensures in_faults { OnOk result
        ((B.state board.new).in_faults ≡ (B.state board.old).in_faults) }

    // The command that was served.
    ensures advances { OnOk result (InputAdvances (B.state board.old) (B.state board.new)
        (D.sight drive.old) (D.sight drive.new) (bytes_of held.old.heads) (bytes_of held.new.heads)
        taken) }

    // How none was.
    ensures blames { IfErr result (Blames (B.state board.old) (B.state board.new)) }
    ensures quits { IfErr result (λ end. Quits (B.state board.old) (B.state board.new)
        (D.sight drive.old) (bytes_of held.old.heads) taken end) }
    ensures open { IfErr result (λ end. IsFault end ⊎ ((D.agrees drive.new (B.state board.new).shape
        (B.state board.new).pages) × (drive.new ≡ drive.old) × (held.new.heads ≡ held.old.heads))) }
{
    let worn = drive.is_worn();
    let mut entry = [0u8; SUBMISSION_BYTES];
    match take_entry(board, &mut entry, worn) {
        Ok(()) => {}
        Err(end) => return Err(end),
    }
    let request = Request::of(&entry);
    let handed = match take_value(board, &request, shape, value) {
        Ok(handed) => handed,
        Err(_) => return Err(End::Input),
    };
    match handed {
        Some(n) => {
            let numbered = Numbered {
                request,
                before: taken,
            };
            match serve_one(drive, board, held, into, shape, &numbered, &value[..n]) {
                Ok(()) => Ok(()),
                Err(end) => Err(end),
            }
        }
        None => Err(End::Truncated),
    }
}

/// Takes commands and serves them until the input ends or something fails.
pub fn serve_entries<D: Engine, B: Board>(
    drive: &mut D,
    board: &mut B,
    held: &mut Queue,
    value: &mut [u8],
    into: &mut [u8],
    shape: &Shape,
) -> End
    // The drive with no record held, and the buffers.
    requires { CanRun (D.agrees drive.old) (D.sight drive.old) (B.state board.old) shape.now
        held.old.heads value.old into.old }

    // The commands that were served.
    ensures runs { Runs (B.state board.old) (B.state board.new) (D.sight drive.old)
        (D.sight drive.new) (bytes_of held.new.heads) result }

    // The drive and the board after them.
    ensures shape { (B.state board.new).shape ≡ (B.state board.old).shape }
    ensures open { IsFault result
        ⊎ DriveRuns (D.agrees drive.new) (D.sight drive.new) (B.state board.new) }
{
    for taken in 0..u32::MAX {
        match serve_next(drive, board, held, value, into, shape, taken) {
            Ok(()) => {}
            Err(end) => return end,
        }
    }
    let mut entry = [0u8; SUBMISSION_BYTES];
    match take_entry(board, &mut entry, true) {
        Ok(()) => End::Worn,
        Err(end) => end,
    }
}

/// Serves the input, and at its end commits and posts what is held.
pub fn serve_all<D: Engine, B: Board>(
    drive: &mut D,
    board: &mut B,
    held: &mut Queue,
    value: &mut [u8],
    into: &mut [u8],
    shape: &Shape,
) -> End
    // The drive with no record held, and the buffers.
    requires { CanRun (D.agrees drive.old) (D.sight drive.old) (B.state board.old) shape.now
        held.old.heads value.old into.old }

    // The commands that were served.
    ensures runs { Runs (B.state board.old) (B.state board.new) (D.sight drive.old)
        (D.sight drive.new) [] result }

    // The drive and the board after them.
    ensures none { IsFault result ⊎ (((D.sight drive.new).pending ≡ [])
        × (D.agrees drive.new (B.state board.new).shape (B.state board.new).pages)) }
{
    let end = serve_entries(drive, board, held, value, into, shape);
    match end {
        End::Output | End::Flash => end,
        _ => match flush(drive, board, held) {
            Ok(()) => end,
            Err(fault) => fault,
        },
    }
}
