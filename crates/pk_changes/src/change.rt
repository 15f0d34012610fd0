//! Changes of the map: a key gets a value, or loses its own.
ghost use Rattle.std.specs.Prelude.{◌≡◌, ◌+◌, false, OnOk};
ghost use Rattle.pk_parts.specs.Parts.{pages_for, sight_of};
ghost use Rattle.pk_background.specs.Costs.{NumbersLast, Spends, place_calls, put_calls};
ghost use Rattle.pk_log.specs.State.{needs_freeze as needs_freeze_for};
ghost use Rattle.pk_law_work.specs.Calls.{commit_calls, room_calls, room_roots};
ghost use Rattle.pk_call.specs.Calling.{FewCalls};
ghost use Rattle.pk_changes.specs.Changes.{CanPut, CanTake, StepPuts, StepTakes, PutsOrReads, TakesOrReads, StaysBetween, PutLeaves};
ghost use Rattle.pk_background.specs.Emptying.{OnRunning};
ghost use Rattle.pk_background.specs.Spacing.{needs};
ghost use Rattle.pk_parts.specs.Staying.{Stays, StaysOrOpens, IsNoted};
ghost use Rattle.pk_parts.specs.Stopping.{StoppedOn};
ghost use Rattle.pk_call.specs.Moving.{commits_for};
ghost use Rattle.pk_changes.specs.Programming.{Programs, FillsQuietly, PutsQuietly, TakesQuietly, ReadsQuietly};

use crate::committing::commit_if_full;
use crate::noting::{note_gone, note_put};
use crate::placing::place_value;
use pk_background::make_room;
use pk_base::{Key, Place};
use pk_nand::{Fault, Nand};
use pk_parts::Parts;
use pk_region::Region;

// Writes a value of `count` pages for a key that has room, notes its place, and commits if the
// journal page is full.
fn put_with_room<B: Nand, A: Region>(
    parts: &mut Parts<A>,
    board: &mut B,
    key: Key,
    value: &[u8],
    old: Option<Place>,
    count: u32,
) -> Result<(), Fault>
    requires can { CanPut parts.old (B.state board.old) key value.now old
        × (count ≡ pages_for parts.old value.now) }
    requires no_freeze { needs_freeze_for parts.old.log key ≡ false }
    requires room { needs (pages_for parts.old value.now) parts.old ≡ false }

    // The map, and then the drive itself.
    ensures step { StepPuts parts.old parts.new 0 (B.state board.old) (B.state board.new)
        key value.now old result }
    ensures stays { OnOk result (StaysBetween parts.old parts.new) }
    ensures opens { OnOk result (StaysOrOpens parts.old parts.new
        (pages_for parts.old value.now)) }
    ensures noted { OnOk result (IsNoted parts.new key) }
    ensures programs { OnOk result (FillsQuietly parts.old
        (pages_for parts.old value.now) (B.state board.old)
        (B.state board.new)) }
    ensures calls { FewCalls (place_calls (pages_for parts.old value.now)
        + commit_calls) (B.state board.old) (B.state board.new) }
    ensures stops { StoppedOn parts.new result }
{
    let shape = parts.shape();
    // so that the number of bytes is known to fit
    let _ = shape.greatest();
    match place_value(parts, board, &key, value) {
        Ok(page) => {
            note_put(parts, key, page, value.len() as u32, count, old);
            commit_if_full(parts, board)
        }
        Err(fault) => Err(parts.fail(fault)),
    }
}

/// A key gets this value of `count` pages, in place of the one at `old`. `Reading` if a read of
/// a merge fails, which had to make room: the map is unchanged. `Stopped` if a program or an
/// erase fails.
pub fn put<B: Nand, A: Region>(
    parts: &mut Parts<A>,
    board: &mut B,
    key: Key,
    value: &[u8],
    old: Option<Place>,
    count: u32,
) -> Result<(), Fault>
    requires can { CanPut parts.old (B.state board.old) key value.now old
        × (count ≡ pages_for parts.old value.now) }
    requires room { needs (pages_for parts.old value.now) parts.old ≡ false }
    requires number { NumbersLast (room_calls parts.old.log.shape) (B.state board.old) }

    // The map, and then the drive itself.
    ensures step { PutsOrReads parts.old parts.new (room_calls parts.old.log.shape)
        (B.state board.old) (B.state board.new) key value.now old result }
    ensures leaves { PutLeaves parts.old parts.new key (pages_for parts.old value.now) result }
    ensures programs { OnOk result (PutsQuietly parts.old key
        (pages_for parts.old value.now) (B.state board.old)
        (B.state board.new)) }
    ensures quiet { OnOk result (ReadsQuietly parts.old key (B.state board.old)
        (B.state board.new)) }
    ensures spends { Spends (put_calls parts.old.log.shape
        (pages_for parts.old value.now)) room_roots (B.state board.old)
        (B.state board.new) }
{
    match make_room(parts, board, &key) {
        Ok(()) => put_with_room(parts, board, key, value, old, count),
        Err(fault) => Err(parts.fail(fault)),
    }
}

// Notes that a key with room has no value, and commits if the journal page is full.
fn take_with_room<B: Nand, A: Region>(
    parts: &mut Parts<A>,
    board: &mut B,
    key: Key,
    old: Place,
) -> Result<(), Fault>
    requires can { CanTake parts.old (B.state board.old) key old }
    requires no_freeze { needs_freeze_for parts.old.log key ≡ false }

    // The map, and then the drive itself.
    ensures step { StepTakes parts.old parts.new 0 (B.state board.old) (B.state board.new)
        key old result }
    ensures stays { OnOk result (StaysBetween parts.old parts.new) }
    ensures moves { OnOk result (Stays parts.old parts.new) }
    ensures programs { OnOk result (Programs
        (commits_for parts.old.log.shape (sight_of parts.old)) (B.state board.old)
        (B.state board.new)) }
    ensures calls { FewCalls commit_calls (B.state board.old) (B.state board.new) }
    ensures stops { StoppedOn parts.new result }
{
    note_gone(parts, key, old);
    commit_if_full(parts, board)
}

/// A key loses its value, the one at `old`. `Reading` if a read of a merge fails, which had to
/// make room: the map is unchanged. `Stopped` if a program or an erase fails.
pub fn take_out<B: Nand, A: Region>(
    parts: &mut Parts<A>,
    board: &mut B,
    key: Key,
    old: Place,
) -> Result<(), Fault>
    requires can { CanTake parts.old (B.state board.old) key old }
    requires number { NumbersLast (room_calls parts.old.log.shape) (B.state board.old) }

    // The map, and then the drive itself.
    ensures step { TakesOrReads parts.old parts.new (room_calls parts.old.log.shape)
        (B.state board.old) (B.state board.new) key old result }
    ensures stays { OnRunning (StaysBetween parts.old parts.new) result }
    ensures moves { OnRunning (Stays parts.old parts.new) result }
    ensures programs { OnOk result
        (TakesQuietly parts.old key (B.state board.old) (B.state board.new)) }
    ensures quiet { OnOk result (ReadsQuietly parts.old key (B.state board.old)
        (B.state board.new)) }
    ensures spends { Spends (room_calls parts.old.log.shape + commit_calls) room_roots
        (B.state board.old) (B.state board.new) }
    ensures stops { StoppedOn parts.new result }
{
    match make_room(parts, board, &key) {
        Ok(()) => take_with_room(parts, board, key, old),
        Err(fault) => Err(parts.fail(fault)),
    }
}
