//! A generated workload on a drive, and its summary to the host.
ghost use Rattle.std.specs.Prelude.{◌≡◌, ◌≤◌, [], length, false, OnOk, IfOk, IfErr};
ghost use Rattle.pk_base.specs.Map.{Map};
ghost use Rattle.pk_nvme.specs.Bytes.{RoomyList};
ghost use Rattle.pk_nvme.specs.Seen.{command_of};
ghost use Rattle.pk_gen.specs.Workload.{Generator, request_of, value_of, after};
ghost use Rattle.pk_gen.specs.declared.numbers.TheConstants.{MOST_VALUE_BYTES};
ghost use Rattle.pk_model.specs.Reading.{Holds};
ghost use Rattle.pk_call.specs.Running.{DriveRuns, CanServe};
ghost use Rattle.pk_serve.specs.Part.{HasRoom};
ghost use Rattle.pk_call.specs.Running.{HasRoomForData};
ghost use Rattle.pk_port.specs.Ready.{Fits};
ghost use Rattle.pk_nvme.specs.Command.{IsWhole};
ghost use Rattle.pk_wordrun.specs.Generated.{Generating, Generated, Unfinished};
ghost use Rattle.pk_wordrun.specs.Tasks.{generate};
ghost use Rattle.pk_wordrun.specs.Told.{Told};
ghost use Rattle.pk_wordrun.specs.Turns.{Turn};
ghost use Rattle.pk_wordrun.specs.declared.sizes.TheConstants.{SUMMARY_BYTES};
ghost use Rattle.pk_port.specs.Steps.{mount};

use crate::end::{WordEnd, end_of};
use crate::group::{commit_group, serve_grouped};
use crate::say::say;
use crate::summary::Summary;
use crate::task::Series;
use pk_base::Shape;
use pk_drive::Engine;
use pk_gen::Workload;
use pk_gen::laws::whole;
use pk_nand::{Board, Nand, NandFault};
use pk_nvme::Bytes;
use pk_port::Halt;

/// Serves the next command of a workload while `held` records wait.
fn serve_turn<D: Engine, B: Nand>(
    drive: &mut D,
    board: &mut B,
    shape: &Shape,
    workload: &mut Workload,
    value: &mut Bytes,
    buffer: &mut [u8],
    summary: &mut Summary,
    held: &mut u32,
) -> Result<(), NandFault>
    // The drive on its board, and the buffers.
    requires can_serve { CanServe (D.agrees drive.old) (D.sight drive.old) (B.state board.old) }
    requires value { MOST_VALUE_BYTES ≤ value.old.room }
    requires room { HasRoom (B.state board.old) shape.now buffer.old }
    ensures running { OnOk result
        (DriveRuns (D.agrees drive.new) (D.sight drive.new) (B.state board.new)) }
    ensures shape { (B.state board.new).shape ≡ (B.state board.old).shape }
    ensures value { value.new.room ≡ value.old.room }
    ensures room { length buffer.new ≡ length buffer.old }

    // The command, and the counters.
    ensures after { workload.new ≡ after workload.old }
    ensures turn { Turn (B.state board.old) (B.state board.new) (D.sight drive.old)
        (D.sight drive.new) (command_of (request_of workload.old) (value_of workload.old))
        summary.old summary.new result }
{
    whole();
    let request = workload.next_request(value);
    match serve_grouped(drive, board, shape, &request, value.bytes(), buffer, held) {
        Ok(outcome) => {
            summary.add(&request, &outcome);
            Ok(())
        }
        Err(fault) => Err(fault),
    }
}

/// Serves `count` commands of a workload, and counts how they were answered. Entries of the last ones may be pending.
fn serve_turns<D: Engine, B: Nand>(
    drive: &mut D,
    board: &mut B,
    shape: &Shape,
    value: &mut Bytes,
    buffer: &mut [u8],
    start: u32,
    count: u32,
) -> Result<Summary, Halt>
    // The drive on its board with nothing pending, and the buffers.
    requires running { DriveRuns (D.agrees drive.old) (D.sight drive.old) (B.state board.old) }
    requires none { (D.sight drive.old).pending ≡ [] }
    requires value { MOST_VALUE_BYTES ≤ value.old.room }
    requires room { HasRoom (B.state board.old) shape.now buffer.old }

    // All commands were served, or one was not.
    ensures running { OnOk result
        (DriveRuns (D.agrees drive.new) (D.sight drive.new) (B.state board.new)) }
    ensures served { IfOk result (λ s. (m : Map) → Holds shape.now (B.state board.old).pages m
        → Generating start count shape.now (mount (B.state board.old) (D.sight drive.old)).terms m
        (B.state board.old) (B.state board.new) (D.sight drive.new) s) }
    ensures fails { IfErr result (λ h. (m : Map) → Holds shape.now (B.state board.old).pages m
        → Unfinished start count shape.now (mount (B.state board.old) (D.sight drive.old)).terms m
        (B.state board.old) (B.state board.new) h) }
{
    let mut workload = Workload::new(start);
    let mut summary = Summary::new();
    let mut held = 0u32;
    for turn in 0..count {
        if drive.is_worn() {
            return match commit_group(drive, board) {
                Ok(()) => Err(Halt::Worn),
                Err(_) => Err(Halt::Stopped),
            };
        }
        match serve_turn(
            drive,
            board,
            shape,
            &mut workload,
            value,
            buffer,
            &mut summary,
            &mut held,
        ) {
            Ok(()) => {}
            Err(_) => return Err(Halt::Stopped),
        }
    }
    Ok(summary)
}

/// Serves `count` commands of a workload, commits the last group, and counts how they were answered.
fn serve_workload<D: Engine, B: Nand>(
    drive: &mut D,
    board: &mut B,
    shape: &Shape,
    value: &mut Bytes,
    buffer: &mut [u8],
    start: u32,
    count: u32,
) -> Result<Summary, Halt>
    // The drive on its board, and the buffers.
    requires fits { Fits (D.agrees drive.old) shape.now (B.state board.old) (D.sight drive.old) }
    requires runs { (D.sight drive.old).stopped ≡ false }
    requires value { MOST_VALUE_BYTES ≤ value.old.room }
    requires room { HasRoomForData shape.now buffer.old }

    // All commands were answered, or one was not.
    ensures running { OnOk result
        (DriveRuns (D.agrees drive.new) (D.sight drive.new) (B.state board.new)) }
    ensures none { OnOk result ((D.sight drive.new).pending ≡ []) }
    ensures served { IfOk result (λ s. (m : Map) → Holds shape.now (B.state board.old).pages m
        → Generated start count shape.now (mount (B.state board.old) (D.sight drive.old)).terms m
        (B.state board.old) (B.state board.new) s) }
    ensures fails { IfErr result (λ h. (m : Map) → Holds shape.now (B.state board.old).pages m
        → Unfinished start count shape.now (mount (B.state board.old) (D.sight drive.old)).terms m
        (B.state board.old) (B.state board.new) h) }
{
    match serve_turns(drive, board, shape, value, buffer, start, count) {
        Ok(summary) => match commit_group(drive, board) {
            Ok(()) => Ok(summary),
            Err(_) => Err(Halt::Stopped),
        },
        Err(halt) => Err(halt),
    }
}

/// Serves a workload on a drive on its board, and gives its summary to the host.
pub fn tell_workload<D: Engine, B: Board>(
    drive: &mut D,
    board: &mut B,
    buffer: &mut [u8],
    shape: Shape,
    value: &mut Bytes,
    text: &mut Bytes,
    series: Series,
) -> WordEnd
    // The drive on its board, and the buffers.
    requires fits { Fits (D.agrees drive.old) shape (B.state board.old) (D.sight drive.old) }
    requires runs { (D.sight drive.old).stopped ≡ false }
    requires value { MOST_VALUE_BYTES ≤ value.old.room }
    requires text { SUMMARY_BYTES ≤ text.old.room }
    requires room { HasRoomForData shape buffer.old }

    ensures { (m : Map) → Holds shape (B.state board.old).pages m
        → Told (generate series.start series.count) shape
        (mount (B.state board.old) (D.sight drive.old)).terms m
        (B.state board.old) (B.state board.new) result }
{
    let Series { start, count } = series;
    match serve_workload(drive, board, &shape, value, buffer, start, count) {
        Ok(summary) => {
            // so that the first namespace is known to be there
            let _ = drive.spaces();
            let counts = drive.counts(1);
            summary.say(counts.keys, counts.live, text);
            match say(board, text.bytes()) {
                Ok(()) => WordEnd::Done,
                Err(_) => WordEnd::Output,
            }
        }
        Err(halt) => end_of(halt),
    }
}
