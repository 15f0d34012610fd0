//! Commands that are committed in groups, as the serving loop commits them.
//!
//! No record goes to the host. That of a Store or a Delete waits while its entry is pending with few others; before every other
//! command, and after one whose record does not wait, what is pending is committed.
ghost use Rattle.std.specs.Prelude.{◌≡◌, [], ◌∷◌, length, OnOk, OnErr, IfOk};
ghost use Rattle.pk_nvme.specs.Command.{IsWhole};
ghost use Rattle.pk_nvme.specs.Seen.{command_of};
ghost use Rattle.pk_call.specs.Exec.{IsValue};
ghost use Rattle.pk_call.specs.Seen.{reply_of};
ghost use Rattle.pk_model.specs.Wear.{roots};
ghost use Rattle.pk_call.specs.Running.{DriveRuns, CanServe, PassesValue};
ghost use Rattle.pk_serve.specs.Part.{HasRoom};
ghost use Rattle.pk_wordrun.specs.Grouped.{exchange, KeepsGroup, AddsToGroup, StopsGroup};
ghost use Rattle.pk_nvme.specs.declared.opcode.TheConstants.{TICK};

use pk_base::Shape;
use pk_call::Outcome;
use pk_drive::Engine;
use pk_nand::{Nand, NandFault};
use pk_nvme::Request;
use pk_nvme::opcode::{DELETE, STORE};
use pk_nvme::status::SUCCESSFUL_COMPLETION;

/// Commits what is pending.
pub fn commit_group<D: Engine, B: Nand>(drive: &mut D, board: &mut B) -> Result<(), NandFault>
    requires { DriveRuns (D.agrees drive.old) (D.sight drive.old) (B.state board.old) }

    // The drive and the board.
    ensures running { OnOk result
        (DriveRuns (D.agrees drive.new) (D.sight drive.new) (B.state board.new)) }
    ensures none { OnOk result ((D.sight drive.new).pending ≡ []) }
    ensures shape { (B.state board.new).shape ≡ (B.state board.old).shape }
    ensures installs { roots (B.state board.new) ≡ roots (B.state board.old) }

    // The commands that were served before.
    ensures keeps { OnOk result (KeepsGroup (B.state board.old) (B.state board.new)
        (D.sight drive.old) (D.sight drive.new)) }
    ensures stops { OnErr result
        (StopsGroup (B.state board.old) (B.state board.new) (D.sight drive.old) []) }
{
    match drive.commit(board) {
        Ok(()) => Ok(()),
        Err(fault) => Err(fault),
    }
}

/// Before a command that is neither a Store nor a Delete, commits what is pending, and no record waits.
fn prepare<D: Engine, B: Nand>(
    drive: &mut D,
    board: &mut B,
    request: &Request,
    held: &mut u32,
) -> Result<(), NandFault>
    requires { DriveRuns (D.agrees drive.old) (D.sight drive.old) (B.state board.old) }

    // The drive and the board.
    ensures running { OnOk result
        (DriveRuns (D.agrees drive.new) (D.sight drive.new) (B.state board.new)) }
    ensures tick { OnOk result (request.now.opcode ≡ TICK → (D.sight drive.new).pending ≡ []) }
    ensures shape { (B.state board.new).shape ≡ (B.state board.old).shape }
    ensures installs { roots (B.state board.new) ≡ roots (B.state board.old) }

    // The commands that were served before.
    ensures keeps { OnOk result (KeepsGroup (B.state board.old) (B.state board.new)
        (D.sight drive.old) (D.sight drive.new)) }
    ensures stops { OnErr result
        (StopsGroup (B.state board.old) (B.state board.new) (D.sight drive.old) []) }
{
    if request.opcode == STORE || request.opcode == DELETE {
        return Ok(());
    }
    *held = 0;
    match commit_group(drive, board) {
        Ok(()) => Ok(()),
        Err(fault) => Err(fault),
    }
}

/// What of a value is handed to a drive: no byte of one that is too large.
fn handed<'v>(shape: &Shape, request: &Request, value: &'v [u8]) -> &'v [u8]
    requires { IsWhole (command_of request.now value.now) }
    ensures value { IsValue shape.now request.now.opcode request.now.size result.now value.now }
    ensures passes { PassesValue shape.now request.now.opcode request.now.size result.now }
{
    if request.opcode == STORE && request.size > shape.greatest() {
        return &[];
    }
    value
}

/// Executes one command.
fn execute<D: Engine, B: Nand>(
    drive: &mut D,
    board: &mut B,
    shape: &Shape,
    request: &Request,
    value: &[u8],
    into: &mut [u8],
) -> Result<Outcome, NandFault>
    // The drive on its board, a whole value, and the buffer.
    requires can_serve { CanServe (D.agrees drive.old) (D.sight drive.old) (B.state board.old) }
    requires tick { request.now.opcode ≡ TICK → (D.sight drive.old).pending ≡ [] }
    requires whole { IsWhole (command_of request.now value.now) }
    requires room { HasRoom (B.state board.old) shape.now into.old }
    ensures running { OnOk result
        (DriveRuns (D.agrees drive.new) (D.sight drive.new) (B.state board.new)) }
    ensures shape { (B.state board.new).shape ≡ (B.state board.old).shape }
    ensures room { length into.new ≡ length into.old }

    // The command.
    ensures adds { IfOk result (λ o. AddsToGroup (B.state board.old) (B.state board.new)
        (D.sight drive.old) (D.sight drive.new)
        (exchange (command_of request.now value.now) (reply_of o into.new) o.reads)) }
    ensures stops { OnErr result (StopsGroup (B.state board.old) (B.state board.new)
        (D.sight drive.old) (command_of request.now value.now ∷ [])) }
{
    let outcome = drive.exec(board, request, handed(shape, request, value), into);
    if outcome.stopped {
        return Err(NandFault);
    }
    Ok(outcome)
}

/// Whether the record of a command waits: it is that of a Store or a Delete that succeeded, the entry is pending with fewer
/// others than a journal page takes, and fewer records than that wait.
fn waits<D: Engine>(
    drive: &D,
    held: u32,
    entries: u32,
    request: &Request,
    outcome: &Outcome,
) -> bool {
    let pending = drive.pending();
    (request.opcode == STORE || request.opcode == DELETE)
        && outcome.status == SUCCESSFUL_COMPLETION
        && pending > 0
        && pending < entries
        && held < entries
}

/// After a command, one more record waits; or what is pending is committed, and no record waits.
fn finish<D: Engine, B: Nand>(
    drive: &mut D,
    board: &mut B,
    waits: bool,
    held: &mut u32,
) -> Result<(), NandFault>
    requires { DriveRuns (D.agrees drive.old) (D.sight drive.old) (B.state board.old) }

    // The drive and the board.
    ensures running { OnOk result
        (DriveRuns (D.agrees drive.new) (D.sight drive.new) (B.state board.new)) }
    ensures shape { (B.state board.new).shape ≡ (B.state board.old).shape }

    // The commands that were served before.
    ensures keeps { OnOk result (KeepsGroup (B.state board.old) (B.state board.new)
        (D.sight drive.old) (D.sight drive.new)) }
    ensures stops { OnErr result
        (StopsGroup (B.state board.old) (B.state board.new) (D.sight drive.old) []) }
{
    if waits {
        *held = held.saturating_add(1);
        return Ok(());
    }
    *held = 0;
    match commit_group(drive, board) {
        Ok(()) => Ok(()),
        Err(fault) => Err(fault),
    }
}

/// Serves one command while `held` records wait.
pub fn serve_grouped<D: Engine, B: Nand>(
    drive: &mut D,
    board: &mut B,
    shape: &Shape,
    request: &Request,
    value: &[u8],
    into: &mut [u8],
    held: &mut u32,
) -> Result<Outcome, NandFault>
    // The drive on its board, a whole value, and the buffer.
    requires can_serve { CanServe (D.agrees drive.old) (D.sight drive.old) (B.state board.old) }
    requires whole { IsWhole (command_of request.now value.now) }
    requires room { HasRoom (B.state board.old) shape.now into.old }
    ensures running { OnOk result
        (DriveRuns (D.agrees drive.new) (D.sight drive.new) (B.state board.new)) }
    ensures shape { (B.state board.new).shape ≡ (B.state board.old).shape }
    ensures room { length into.new ≡ length into.old }

    // The command.
    ensures adds { IfOk result (λ o. AddsToGroup (B.state board.old) (B.state board.new)
        (D.sight drive.old) (D.sight drive.new)
        (exchange (command_of request.now value.now) (reply_of o into.new) o.reads)) }
    ensures stops { OnErr result (StopsGroup (B.state board.old) (B.state board.new)
        (D.sight drive.old) (command_of request.now value.now ∷ [])) }
{
    match prepare(drive, board, request, held) {
        Ok(()) => {}
        Err(fault) => return Err(fault),
    }
    let outcome = match execute(drive, board, shape, request, value, into) {
        Ok(outcome) => outcome,
        Err(fault) => return Err(fault),
    };
    let waits = waits(drive, *held, shape.entries(), request, &outcome);
    match finish(drive, board, waits, held) {
        Ok(()) => Ok(outcome),
        Err(fault) => Err(fault),
    }
}
