//! The commands that change nothing.
ghost use Rattle.std.specs.Prelude.{◌≡◌, ◌≤◌, ℕ, List, length, min, false, None, Some};
ghost use Rattle.pk_base.specs.Shape.{greatest};
ghost use Rattle.pk_nvme.specs.Seen.{command_of};
ghost use Rattle.pk_core.specs.Serving.{IsServable};
ghost use Rattle.pk_core.specs.Done.{Executes};
ghost use Rattle.pk_core.specs.Quiet.{OnlyLooks, DoneWithout};
ghost use Rattle.pk_nvme.specs.declared.opcode.TheConstants.{FLUSH, RETRIEVE, EXIST};

use crate::counts::reads_since;
use pk_call::Outcome;
use pk_nand::Nand;
use pk_nvme::Request;
use pk_nvme::status::{KEY_DOES_NOT_EXIST, SUCCESSFUL_COMPLETION, UNRECOVERED_ERROR};
use pk_parts::Parts;
use pk_region::Region;

/// A success with this result and this many bytes of data, after this many reads.
pub(crate) fn served(answer: u32, data_len: u32, reads: u32) -> Outcome
    ensures { result ≡ record {
      status = SUCCESSFUL_COMPLETION;
      result = answer;
      data_len = data_len;
      reads = reads;
      stopped = false;
    } }
{
    Outcome {
        status: SUCCESSFUL_COMPLETION,
        result: answer,
        data_len,
        reads,
        stopped: false,
    }
}

/// A status alone, after this many reads.
pub(crate) fn refusal(status: u8, reads: u32) -> Outcome
    ensures { result ≡ record {
      status = status;
      result = 0;
      data_len = 0;
      reads = reads;
      stopped = false;
    } }
{
    Outcome {
        status,
        result: 0,
        data_len: 0,
        reads,
        stopped: false,
    }
}

/// Nothing is to be done: all that was answered before is committed by then.
pub(crate) fn flush<A: Region>(parts: &Parts<A>) -> Outcome
    ensures does { (into : List ℕ) → DoneWithout parts.now FLUSH result into }
    ensures told { (result.status ≡ SUCCESSFUL_COMPLETION) × (result.stopped ≡ false) }
    ensures no_data { result.data_len ≡ 0 }
{
    let _ = parts;
    served(0, 0, 0)
}

/// Whether a key exists.
pub(crate) fn exist<B: Nand, A: Region>(
    parts: &mut Parts<A>,
    board: &mut B,
    request: &Request,
) -> Outcome
    requires servable { IsServable parts.old (B.state board.old) request.now }
    requires opcode { request.now.opcode ≡ EXIST }
    ensures executes { (v into : List ℕ)
        → Executes parts.old parts.new (B.state board.old) (B.state board.new)
        (command_of request.now v) result into result.reads }
    ensures only { OnlyLooks parts.old parts.new (B.state board.old) (B.state board.new) }
    ensures no_data { result.data_len ≡ 0 }
{
    let before = board.read_count();
    let key = request.key();
    match parts.look(board, &key) {
        Ok(Some(_)) => served(0, 0, reads_since(board, before)),
        Ok(None) => refusal(KEY_DOES_NOT_EXIST, reads_since(board, before)),
        // only a read can fail here
        Err(_) => refusal(UNRECOVERED_ERROR, reads_since(board, before)),
    }
}

/// The prefix of a key's value that is requested, and the value's length.
pub(crate) fn retrieve<B: Nand, A: Region>(
    parts: &mut Parts<A>,
    board: &mut B,
    request: &Request,
    into: &mut [u8],
) -> Outcome
    // The command is one that it serves, and the buffer has room for its data.
    requires servable { IsServable parts.old (B.state board.old) request.now }
    requires opcode { request.now.opcode ≡ RETRIEVE }
    requires room { greatest parts.old.log.shape ≤ length into.old }

    // The command.
    ensures executes { (v : List ℕ)
        → Executes parts.old parts.new (B.state board.old) (B.state board.new)
        (command_of request.now v) result into.new result.reads }
    ensures only { OnlyLooks parts.old parts.new (B.state board.old) (B.state board.new) }

    // Its data.
    ensures fits { result.data_len ≤ length into.new }
    ensures len { length into.new ≡ length into.old }
{
    let before = board.read_count();
    let key = request.key();
    // so that it is known to have 1 to 16 bytes
    let _ = key.bytes();
    match parts.look(board, &key) {
        Ok(Some(place)) => {
            let count = place.len.min(request.size);
            match parts.hand_over(board, place.page, count, into) {
                Ok(()) => served(place.len, count, reads_since(board, before)),
                // only a read can fail here, and below
                Err(_) => refusal(UNRECOVERED_ERROR, reads_since(board, before)),
            }
        }
        Ok(None) => refusal(KEY_DOES_NOT_EXIST, reads_since(board, before)),
        Err(_) => refusal(UNRECOVERED_ERROR, reads_since(board, before)),
    }
}
