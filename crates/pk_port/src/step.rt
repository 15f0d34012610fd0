//! One command on a drive with its board.
ghost use Rattle.std.specs.Prelude.{◌≡◌, ◌≤◌, ℕ, length, IfOk};
ghost use Rattle.pk_nvme.specs.Seen.{command_of};
ghost use Rattle.pk_nvme.specs.Command.{IsWhole};
ghost use Rattle.pk_nvme.specs.declared.limits.TheConstants.{NAMESPACE};
ghost use Rattle.pk_call.specs.Exec.{IsValue};
ghost use Rattle.pk_call.specs.Seen.{reply_of};
ghost use Rattle.pk_host.specs.Good.{IsHanded};
ghost use Rattle.pk_host.specs.Port.{Replies, room_of};
ghost use Rattle.pk_port.specs.Steps.{mount, seen, Makes};
ghost use Rattle.pk_call.specs.Running.{PassesValue, HasRoomForData};
ghost use Rattle.pk_port.specs.Ready.{Fits};

use crate::Halt;
use pk_base::Shape;
use pk_call::Outcome;
use pk_drive::Engine;
use pk_host::are_fields;
use pk_nand::Nand;
use pk_nvme::Request;
use pk_nvme::opcode::STORE;
use pk_serve::submit;

/// What of a value is handed to a drive: no byte of one that is too large.
fn handed<'v>(shape: &Shape, request: &Request, value: &'v [u8]) -> &'v [u8]
    requires { IsWhole (command_of request.now value.now) }
    ensures value { IsValue shape.now request.now.opcode request.now.size result.now value.now }
    ensures passes { PassesValue shape.now request.now.opcode request.now.size result.now }
{
    if request.opcode == STORE && request.size > shape.greatest() {
        return &[];
    }
    value
}

/// Executes and commits one command, or says why it is not answered.
pub fn serve<D: Engine, B: Nand>(
    drive: &mut D,
    board: &mut B,
    shape: &Shape,
    request: &Request,
    value: &[u8],
    into: &mut [u8],
) -> Result<Outcome, Halt>
    // The drive on its board, what is passed, and the buffer for data.
    requires fits { Fits (D.agrees drive.old) shape.now (B.state board.old) (D.sight drive.old) }
    requires handed { IsHanded (command_of request.now value.now) }
    requires room { HasRoomForData shape.now into.old }

    // The drive on its board, and what it made of the command.
    ensures fits { Fits (D.agrees drive.new) shape.now (B.state board.new) (D.sight drive.new) }
    ensures makes { Makes shape.now (mount (B.state board.old) (D.sight drive.old))
        (mount (B.state board.new) (D.sight drive.new)) (command_of request.now value.now) result
        into.new }

    // The reply to a host, which passes commands in the first namespace.
    ensures replies { IfOk result (λ o. (command_of request.now value.now).namespace ≡ NAMESPACE
        → (before behind : ℕ) → Replies (seen shape.now (mount (B.state board.old) (D.sight drive.old)) before)
        (seen shape.now (mount (B.state board.new) (D.sight drive.new)) behind) (command_of request.now value.now)
        (reply_of o into.new)) }
    ensures data { IfOk result (λ o. o.data_len ≤ room_of (command_of request.now value.now)) }
    ensures fits_data { IfOk result (λ o. o.data_len ≤ length into.new) }
{
    if drive.is_stopped() {
        return Err(Halt::Stopped);
    }
    if drive.is_worn() {
        return Err(Halt::Worn);
    }
    match submit(drive, board, request, handed(shape, request, value), into) {
        Ok(outcome) => {
            are_fields(outcome.status, outcome.result);
            Ok(outcome)
        }
        Err(_) => Err(Halt::Stopped),
    }
}

/// The same on a drive of which it is only known that it fits its board somehow, as a port knows it.
pub fn serve_lent<D: Engine, B: Nand>(
    drive: &mut D,
    board: &mut B,
    shape: &Shape,
    request: &Request,
    value: &[u8],
    into: &mut [u8],
) -> Result<Outcome, Halt>
    // The drive on its board, what is passed, and the buffer for data.
    requires fits { ∥ Fits (D.agrees drive.old) shape.now (B.state board.old)
        (D.sight drive.old) ∥₁ }
    requires handed { IsHanded (command_of request.now value.now) }
    requires room { HasRoomForData shape.now into.old }

    // The drive on its board, and what it made of the command.
    ensures fits { Fits (D.agrees drive.new) shape.now (B.state board.new) (D.sight drive.new) }
    ensures makes { Makes shape.now (mount (B.state board.old) (D.sight drive.old))
        (mount (B.state board.new) (D.sight drive.new)) (command_of request.now value.now) result
        into.new }

    // The reply to a host, which passes commands in the first namespace.
    ensures replies { IfOk result (λ o. (command_of request.now value.now).namespace ≡ NAMESPACE
        → (before behind : ℕ) → Replies (seen shape.now (mount (B.state board.old) (D.sight drive.old)) before)
        (seen shape.now (mount (B.state board.new) (D.sight drive.new)) behind) (command_of request.now value.now)
        (reply_of o into.new)) }
    ensures data { IfOk result (λ o. o.data_len ≤ room_of (command_of request.now value.now)) }
    ensures fits_data { IfOk result (λ o. o.data_len ≤ length into.new) }
{
    serve(drive, board, shape, request, value, into)
}
