//! One command, committed before it is answered.
ghost use Rattle.std.specs.Prelude.{◌≡◌, ◌≤◌, ℕ, List, length, true, [], is_err, OnOk, OnErr, IfOk};
ghost use Rattle.pk_nvme.specs.Seen.{command_of};
ghost use Rattle.pk_nand.specs.BoardState.{shape_of};
ghost use Rattle.pk_nand.specs.Effects.{OnlyReading};
ghost use Rattle.pk_call.specs.Calling.{only_looks};
ghost use Rattle.pk_call.specs.Exec.{IsValue};
ghost use Rattle.pk_call.specs.Running.{CanServe, PassesValue, HasRoomForData, LeavesDrive};
ghost use Rattle.pk_call.specs.Seen.{reply_of};
ghost use Rattle.pk_serve.specs.Port.{Submits, SubmitStops, CountsSubmit};

use pk_call::Outcome;
use pk_drive::Engine;
use pk_nand::{Nand, NandFault};
use pk_nvme::Request;

/// Executes one command on a drive with nothing pending, and commits it. `NandFault` if a program
/// or an erase failed; the drive is stopped then.
pub fn submit<D: Engine, B: Nand>(
    drive: &mut D,
    board: &mut B,
    request: &Request,
    value: &[u8],
    into: &mut [u8],
) -> Result<Outcome, NandFault>
    // The drive and the board, what is passed, and the buffer for data.
    requires serves { CanServe (D.agrees drive.old) (D.sight drive.old) (B.state board.old) }
    requires none { (D.sight drive.old).pending ≡ [] }
    requires passes { PassesValue (shape_of (B.state board.old)) request.now.opcode
        request.now.size value.now }
    requires room { HasRoomForData (shape_of (B.state board.old)) into.old }

    // The drive, the board and the buffer.
    ensures leaves { LeavesDrive (D.agrees drive.new) (D.sight drive.new) (B.state board.old)
        (B.state board.new) (is_err result) }
    ensures none { OnOk result ((D.sight drive.new).pending ≡ []) }
    ensures fits { IfOk result (λ o. o.data_len ≤ length into.new) }
    ensures looks { only_looks request.now.opcode ≡ true
        → OnlyReading (B.state board.old) (B.state board.new) }

    // The command, with the value of which these bytes were passed.
    ensures submits { IfOk result (λ o. (v : List ℕ)
        → IsValue (shape_of (B.state board.old)) request.now.opcode request.now.size value.now v
        → Submits (B.state board.old) (B.state board.new) (D.sight drive.old) (D.sight drive.new)
        (command_of request.now v) (reply_of o into.new) o.reads) }
    ensures stops { OnErr result ((v : List ℕ)
        → IsValue (shape_of (B.state board.old)) request.now.opcode request.now.size value.now v
        → SubmitStops (B.state board.old) (B.state board.new) (D.sight drive.old)
        (command_of request.now v)) }

    // What is counted.
    ensures counts { CountsSubmit (B.state board.old) (B.state board.new) request.now result }
{
    let outcome = drive.exec(board, request, value, into);
    if outcome.stopped {
        return Err(NandFault);
    }
    match drive.commit(board) {
        Ok(()) => Ok(outcome),
        Err(fault) => Err(fault),
    }
}
