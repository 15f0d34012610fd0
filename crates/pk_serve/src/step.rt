//! The serving step: a command is executed, and its record is held until it is committed.
ghost use Rattle.std.specs.Prelude.{◌≡◌, ◌≤◌, ◌<◌, ℕ, List, [], ◌++◌, length, take, true, false, OnOk, IfErr};
ghost use Rattle.pk_nvme.specs.Reply.{reply_record};
ghost use Rattle.pk_nvme.specs.Seen.{command_of};
ghost use Rattle.pk_queue.specs.Queue.{bytes_of};
ghost use Rattle.pk_call.specs.Seen.{reply_of};
ghost use Rattle.pk_call.specs.Exec.{IsValue};
ghost use Rattle.pk_serve.specs.Ends.{NoFaults};
ghost use Rattle.pk_call.specs.Running.{DriveRuns, CanServe, PassesValue};
ghost use Rattle.pk_call.specs.Settling.{may_raise};
ghost use Rattle.pk_nvme.specs.declared.status.TheConstants.{SUCCESSFUL_COMPLETION};
ghost use Rattle.pk_serve.specs.Part.{HasRoom, KeepsRunning, Faulted, TakesNone, InstallsNone, OnlyGives, SameRoom};
ghost use Rattle.pk_serve.specs.Serving.{Flushed, FailsHolding, Posts, PostBreaks, Keeps, CommandServed, CommandStops};
ghost use Rattle.pk_serve.specs.Further.{most_entries};
ghost use Rattle.pk_nvme.specs.declared.opcode.TheConstants.{TICK};

use crate::End;
use crate::entry::Numbered;
use pk_base::Shape;
use pk_call::Outcome;
use pk_drive::Engine;
use pk_nand::Board;
use pk_nvme::opcode::{DELETE, STORE};
use pk_nvme::status::SUCCESSFUL_COMPLETION;
use pk_nvme::{RECORD_HEAD_BYTES, Request, completion, record_head};
use pk_queue::Queue;

/// Posts bytes; none if there are none.
pub fn give<B: Board>(board: &mut B, bytes: &[u8]) -> Result<(), End>
    // What of the board is unchanged.
    ensures only { OnlyGives (B.state board.old) (B.state board.new) }

    // The posts, or a fault.
    ensures posts { OnOk result (Posts (B.state board.old) (B.state board.new) bytes.now) }
    ensures quiet { OnOk result (NoFaults (B.state board.old) (B.state board.new)) }
    ensures fault { IfErr result (Faulted (B.state board.old) (B.state board.new)) }
    ensures breaks { IfErr result (PostBreaks (B.state board.old) (B.state board.new) bytes.now) }
{
    if bytes.is_empty() {
        return Ok(());
    }
    match board.post(bytes) {
        Ok(()) => Ok(()),
        Err(_) => Err(End::Output),
    }
}

/// Gives the held records to the host, in order.
pub fn give_all<B: Board>(board: &mut B, heads: &[[u8; RECORD_HEAD_BYTES]]) -> Result<(), End>
    // What of the board is unchanged.
    ensures only { OnlyGives (B.state board.old) (B.state board.new) }

    // The posts, or a fault.
    ensures posts { OnOk result
        (Posts (B.state board.old) (B.state board.new) (bytes_of heads.now)) }
    ensures quiet { OnOk result (NoFaults (B.state board.old) (B.state board.new)) }
    ensures fault { IfErr result (Faulted (B.state board.old) (B.state board.new)) }
    ensures breaks { IfErr result
        (PostBreaks (B.state board.old) (B.state board.new) (bytes_of heads.now)) }
{
    for head in heads {
        match give(board, head) {
            Ok(()) => {}
            Err(end) => return Err(end),
        }
    }
    Ok(())
}

/// Commits, and posts the records that were held; nothing is done if no entry is pending and no
/// record is held.
pub fn flush<D: Engine, B: Board>(drive: &mut D, board: &mut B, held: &mut Queue) -> Result<(), End>
    requires { DriveRuns (D.agrees drive.old) (D.sight drive.old) (B.state board.old) }

    // The drive and the board.
    ensures runs_on { OnOk result (KeepsRunning (D.agrees drive.new) (D.sight drive.new)
        (B.state board.old) (B.state board.new)) }
    ensures none { OnOk result ((D.sight drive.new).pending ≡ []) }
    ensures rest { InstallsNone (B.state board.old) (B.state board.new) }

    // The records.
    ensures held { OnOk result (held.new ≡ record held.old { heads = [] }) }
    ensures room { held.new.room ≡ held.old.room }
    ensures serves { OnOk result (Flushed (B.state board.old) (B.state board.new)
        (D.sight drive.old) (D.sight drive.new) (bytes_of held.old.heads)) }

    // A fault.
    ensures fails { IfErr result (FailsHolding (B.state board.old) (B.state board.new)
        (D.sight drive.old) (bytes_of held.old.heads)) }
{
    // so a command that only reads, after a flush of its own, makes none before its record
    if drive.pending() == 0 && held.held().is_empty() {
        return Ok(());
    }
    match drive.commit(board) {
        Ok(()) => {}
        Err(_) => return Err(End::Flash),
    }
    match give_all(board, held.held()) {
        Ok(()) => {}
        Err(end) => return Err(end),
    }
    held.clear();
    Ok(())
}

/// Before a command that is neither a Store nor a Delete, commits and posts what is held.
pub fn prepare<D: Engine, B: Board>(
    drive: &mut D,
    board: &mut B,
    held: &mut Queue,
    request: &Request,
) -> Result<(), End>
    requires { DriveRuns (D.agrees drive.old) (D.sight drive.old) (B.state board.old) }

    // The drive and the board.
    ensures runs_on { OnOk result (KeepsRunning (D.agrees drive.new) (D.sight drive.new)
        (B.state board.old) (B.state board.new)) }
    ensures tick { OnOk result (request.now.opcode ≡ TICK → (D.sight drive.new).pending ≡ []) }
    ensures first { OnOk result (may_raise request.now.opcode ≡ false
        → ((D.sight drive.new).pending ≡ []) × (held.new.heads ≡ [])) }
    ensures rest { InstallsNone (B.state board.old) (B.state board.new) }

    // The records.
    ensures room { held.new.room ≡ held.old.room }
    ensures keeps { OnOk result (Keeps (B.state board.old) (B.state board.new) (D.sight drive.old)
        (D.sight drive.new) (bytes_of held.old.heads) (bytes_of held.new.heads)) }

    // A fault.
    ensures fails { IfErr result (FailsHolding (B.state board.old) (B.state board.new)
        (D.sight drive.old) (bytes_of held.old.heads)) }
{
    if request.opcode == STORE || request.opcode == DELETE {
        return Ok(());
    }
    flush(drive, board, held)
}

/// Whether the record of a command waits: that of a Store or a Delete that is done, while its entry is pending with fewer others than a
/// journal page takes, and fewer records than that are held.
pub fn is_held<D: Engine>(
    drive: &D,
    held: &Queue,
    entries: u32,
    request: &Request,
    outcome: &Outcome,
) -> bool
    ensures changes { result ≡ true → may_raise request.now.opcode ≡ true }
    ensures done { result ≡ true → outcome.now.status ≡ SUCCESSFUL_COMPLETION }
    ensures room { result ≡ true → length held.now.heads < held.now.room }
    ensures none { result ≡ true → outcome.now.data_len ≡ 0 }
{
    let pending = drive.pending();
    (request.opcode == STORE || request.opcode == DELETE)
        && outcome.status == SUCCESSFUL_COMPLETION
        && outcome.data_len == 0
        && pending > 0
        && pending < entries
        && held.has_room()
}

/// The head of a command's record; its data follow.
pub fn head_of(request: &Request, count: u32, outcome: &Outcome) -> [u8; RECORD_HEAD_BYTES]
    ensures { (into : List ℕ) → outcome.now.data_len ≤ length into
        → reply_record count request.now.cid (reply_of outcome.now into) outcome.now.reads
        ≡ result ++ take outcome.now.data_len into }
{
    let entry = completion(request.cid, count, outcome.status, outcome.result);
    record_head(&entry, outcome.reads, outcome.data_len)
}

/// Holds the record of a command if it is to wait; otherwise commits and posts all records.
pub fn finish<D: Engine, B: Board>(
    drive: &mut D,
    board: &mut B,
    held: &mut Queue,
    head: [u8; RECORD_HEAD_BYTES],
    bytes: &[u8],
    waits: bool,
) -> Result<(), End>
    requires running { DriveRuns (D.agrees drive.old) (D.sight drive.old) (B.state board.old) }
    requires has_room { waits ≡ true → length held.old.heads < held.old.room }
    requires bare { waits ≡ true → bytes.now ≡ [] }

    // The drive and the board.
    ensures runs_on { OnOk result (KeepsRunning (D.agrees drive.new) (D.sight drive.new)
        (B.state board.old) (B.state board.new)) }
    ensures rest { TakesNone (B.state board.old) (B.state board.new) }

    // The records.
    ensures room { held.new.room ≡ held.old.room }
    ensures keeps { OnOk result (Keeps (B.state board.old) (B.state board.new) (D.sight drive.old)
        (D.sight drive.new) (bytes_of held.old.heads ++ (head ++ bytes.now))
        (bytes_of held.new.heads)) }

    // A fault.
    ensures fails { IfErr result (FailsHolding (B.state board.old) (B.state board.new)
        (D.sight drive.old) (bytes_of held.old.heads ++ (head ++ bytes.now))) }
{
    if waits {
        held.hold(head);
        return Ok(());
    }
    match flush(drive, board, held) {
        Ok(()) => {}
        Err(end) => return Err(end),
    }
    match give(board, &head) {
        Ok(()) => {}
        Err(end) => return Err(end),
    }
    match give(board, bytes) {
        Ok(()) => Ok(()),
        Err(end) => Err(end),
    }
}

/// Serves one command. A value is passed if it is not too large.
pub fn serve_one<D: Engine, B: Board>(
    drive: &mut D,
    board: &mut B,
    held: &mut Queue,
    into: &mut [u8],
    shape: &Shape,
    entry: &Numbered,
    value: &[u8],
) -> Result<(), End>
    requires can_serve { CanServe (D.agrees drive.old) (D.sight drive.old) (B.state board.old) }
    requires count { entry.now.before < most_entries }
    requires handed { PassesValue shape.now entry.now.request.opcode entry.now.request.size value.now }
    requires has_room { HasRoom (B.state board.old) shape.now into.old }

    // The drive, the board and the buffers.
    ensures runs_on { OnOk result (KeepsRunning (D.agrees drive.new) (D.sight drive.new)
        (B.state board.old) (B.state board.new)) }
    ensures rest { TakesNone (B.state board.old) (B.state board.new) }
    ensures rooms { SameRoom held.old.room held.new.room into.old into.new }

    // The command, with the value of which these bytes were passed.
    ensures serves { OnOk result ((v : List ℕ)
        → IsValue shape.now entry.now.request.opcode entry.now.request.size value.now v
        → CommandServed (B.state board.old) (B.state board.new) (D.sight drive.old) (D.sight drive.new)
        (bytes_of held.old.heads) (bytes_of held.new.heads) entry.now.before
        (command_of entry.now.request v)) }

    // A fault.
    ensures fault { IfErr result (Faulted (B.state board.old) (B.state board.new)) }
    ensures stops { IfErr result (λ end. (v : List ℕ)
        → IsValue shape.now entry.now.request.opcode entry.now.request.size value.now v
        → CommandStops (B.state board.old) (B.state board.new) (D.sight drive.old)
        (bytes_of held.old.heads) entry.now.before end (command_of entry.now.request v)) }
{
    match prepare(drive, board, held, &entry.request) {
        Ok(()) => {}
        Err(end) => return Err(end),
    }
    let outcome = drive.exec(board, &entry.request, value, into);
    if outcome.stopped {
        return Err(End::Flash);
    }
    let head = head_of(&entry.request, entry.before + 1, &outcome);
    let waits = is_held(drive, held, shape.entries(), &entry.request, &outcome);
    let bytes = &into[..outcome.data_len as usize];
    match finish(drive, board, held, head, bytes, waits) {
        Ok(()) => Ok(()),
        Err(end) => Err(end),
    }
}
