//! The command that lists keys.
ghost use Rattle.std.specs.Prelude.{◌≡◌, ◌≤◌, ◌∷◌, List, [], length, IfOk, IfErr, OnOk, OnErr};
ghost use Rattle.pk_base.specs.Key.{Key as KeySpec};
ghost use Rattle.pk_base.specs.declared.sizes.TheConstants.{KEY_BYTES, MOST_SPACES};
ghost use Rattle.pk_base.specs.Entry.{Place};
ghost use Rattle.pk_nand.specs.declared.types.Fault.TheVariants.{Reading};
ghost use Rattle.pk_walk.specs.Walking.{IsLeft, Reads, ReadsFail, pages_read, most_read};
ghost use Rattle.pk_nvme.specs.Seen.{command_of};
ghost use Rattle.pk_parts.specs.Keys.{MayWalk, Walked, keys_of};
ghost use Rattle.pk_core.specs.Serving.{IsServable};
ghost use Rattle.pk_core.specs.Done.{Executes};
ghost use Rattle.pk_core.specs.Listed.{IsFilled, OffersNext, ListsAll, first_listed, own_keys};
ghost use Rattle.pk_nvme.specs.declared.limits.TheConstants.{COUNT_BYTES, MOST_LIST_BYTES};
ghost use Rattle.pk_nvme.specs.declared.opcode.TheConstants.{LIST};
ghost use Rattle.pk_core.specs.Quiet.{OnlyLooks};

use crate::counts::{reads_since, reads_so_far};
use crate::filled::Filled;
use crate::listed::put_own;
use crate::quiet::{refusal, served};
use pk_base::{Key, put_u32};
use pk_call::Outcome;
use pk_nand::{Fault, Nand};
use pk_nvme::Request;
use pk_nvme::limits::{COUNT_BYTES, MOST_LIST_BYTES};
use pk_nvme::status::UNRECOVERED_ERROR;
use pk_parts::Parts;
use pk_region::Region;

// Writes the next key of the walk, if there is one, it is of this namespace and it fits into the
// room.
fn put_next<B: Nand, A: Region>(
    parts: &mut Parts<A>,
    board: &mut B,
    space: u8,
    at: Filled,
    into: &mut [u8],
) -> Result<Option<Filled>, Fault>
    requires may { MayWalk parts.old.walk (B.state board.old) parts.old.levels parts.old.arena
        parts.old.log }
    requires filled { IsFilled at (length into.old) }

    // The key, and the pages that were read for it.
    ensures offers { IfOk result (λ next. OffersNext parts.old.walk parts.new.walk
        (B.state board.old) (B.state board.new) parts.old.levels parts.old.arena parts.old.log
        space at next into.old into.new) }
    ensures walked { Walked parts.old.walk parts.new.walk (B.state board.old) (B.state board.new)
        parts.old.levels }
    ensures reads { OnOk result (Reads (pages_read parts.old.levels.runs parts.old.walk.cursors)
        (pages_read parts.old.levels.runs parts.new.walk.cursors)
        (B.state board.old) (B.state board.new)) }
    ensures reading { IfErr result (λ fault. fault ≡ Reading) }
    ensures err { OnErr result (ReadsFail (pages_read parts.old.levels.runs parts.old.walk.cursors)
        (pages_read parts.old.levels.runs parts.new.walk.cursors)
        (B.state board.old) (B.state board.new)) }

    // What is unchanged.
    ensures rest { parts.new ≡ record parts.old { walk = parts.new.walk } }
    ensures len { length into.new ≡ length into.old }
{
    match parts.next_key(board) {
        Ok(Some(entry)) => Ok(put_own(into, space, at, entry.key())),
        Ok(None) => Ok(None),
        Err(fault) => Err(fault),
    }
}

// Writes the keys of this namespace at the start of those that remain, after the bytes of their
// count, as many as fit into the room.
fn put_left<B: Nand, A: Region>(
    parts: &mut Parts<A>,
    board: &mut B,
    space: u8,
    room: u32,
    into: &mut [u8],
) -> Result<Filled, Fault>
    requires may { MayWalk parts.old.walk (B.state board.old) parts.old.levels parts.old.arena
        parts.old.log }
    requires none_read { pages_read parts.old.levels.runs parts.old.walk.cursors ≡ 0 }
    requires some { COUNT_BYTES ≤ room }
    requires room { (room ≤ MOST_LIST_BYTES) × (room ≤ length into.old) }

    // The keys, and the pages that were read for them.
    ensures lists { IfOk result (λ at. (at.end ≤ room) × ((rest : List (KeySpec × Place))
        → IsLeft parts.old.walk (B.state board.old).pages parts.old.arena parts.old.levels.runs
        parts.old.log.active.entries parts.old.log.frozen.entries rest
        → ListsAll (own_keys space (keys_of rest)) room into.new at)) }
    ensures reads { OnOk result (Reads 0 (most_read parts.old.levels.runs)
        (B.state board.old) (B.state board.new)) }
    ensures err { OnErr result (ReadsFail 0 (most_read parts.old.levels.runs)
        (B.state board.old) (B.state board.new)) }

    // What is unchanged.
    ensures rest { parts.new ≡ record parts.old { walk = parts.new.walk } }
    ensures len { length into.new ≡ length into.old }
{
    let mut at = Filled {
        end: COUNT_BYTES,
        count: 0,
        room,
    };
    loop {
        match put_next(parts, board, space, at, into) {
            Ok(Some(next)) => {
                at = next;
            }
            Ok(None) => return Ok(at),
            Err(fault) => return Err(fault),
        }
    }
}

// The key at which a List begins: the least of its namespace if it names none.
fn first_key(request: &Request) -> Key
    requires len { request.now.key_len ≤ KEY_BYTES }
    requires values { 1 ≤ request.now.namespace × request.now.namespace ≤ MOST_SPACES }
    ensures { result ≡ first_listed (command_of request.now []) }
{
    let values = request.namespace as u8;
    let from = &request.key[..request.key_len as usize];
    if from.is_empty() {
        Key::of(values, &[0])
    } else {
        Key::of(values, from)
    }
}

/// Executes a List that passed the checks that read it alone: the number of keys of its namespace
/// from the one that it names on, or from the least one if it names none, and as many of them as fit
/// into its size, of which no more than `MOST_LIST_BYTES` count; `UNRECOVERED_ERROR` without data if
/// a read fails.
pub(crate) fn list<B: Nand, A: Region>(
    parts: &mut Parts<A>,
    board: &mut B,
    request: &Request,
    into: &mut [u8],
) -> Outcome
    // The command is one that it serves, and the buffer has room for its data.
    requires servable { IsServable parts.old (B.state board.old) request.now }
    requires opcode { request.now.opcode ≡ LIST }
    requires room { MOST_LIST_BYTES ≤ length into.old }

    // The command.
    ensures executes { Executes parts.old parts.new (B.state board.old) (B.state board.new)
        (command_of request.now []) result into.new result.reads }
    ensures only { OnlyLooks parts.old parts.new (B.state board.old) (B.state board.new) }

    // Its data.
    ensures fits { result.data_len ≤ length into.new }
    ensures room { length into.new ≡ length into.old }
{
    let before = reads_so_far(board);
    let room = request.size.min(MOST_LIST_BYTES);
    let first = first_key(request);
    parts.start_keys(&first);
    match put_left(parts, board, request.namespace as u8, room, into) {
        Ok(at) => {
            put_u32(into, 0, at.count);
            served(0, at.end, reads_since(board, before))
        }
        // only a read can fail here
        Err(_) => refusal(UNRECOVERED_ERROR, reads_since(board, before)),
    }
}
