//! A key gets a value: after reclaims, if there is no room for it without them.
ghost use Rattle.std.specs.Prelude.{◌≡◌, ◌≤◌, ◌+◌, true, false, OnOk};
ghost use Rattle.pk_parts.specs.Parts.{pages_for, is_half};
ghost use Rattle.pk_background.specs.Costs.{NumbersLast, Spends, put_calls, space_and_put_calls};
ghost use Rattle.pk_nand.specs.Calls.{last_count};
ghost use Rattle.pk_model.specs.Wear.{is_worn};
ghost use Rattle.pk_law_work.specs.Calls.{commit_calls, lookup_calls, pair_calls, room_calls, room_roots, store_roots};
ghost use Rattle.pk_changes.specs.Changes.{CanPut, StaysBetween};
ghost use Rattle.pk_background.specs.Emptying.{OnRunning};
ghost use Rattle.pk_parts.specs.Staying.{Stays};
ghost use Rattle.pk_parts.specs.Stopping.{StoppedOn};
ghost use Rattle.pk_background.specs.Spacing.{needs};
ghost use Rattle.pk_core.specs.Programming.{ReadsNone};
ghost use Rattle.pk_changes.specs.Programming.{PutsQuietly, TakesQuietly, ReadsQuietly};
ghost use Rattle.pk_core.specs.Whole.{CanStore, CanStoreOver, CanTakeBetween, StoresWithin, TakesWhole, store_most};

use pk_background::{make_space, make_whole, needs_space};
use pk_base::{Key, Place};
use pk_changes::{put, take_out};
use pk_nand::{Fault, Nand};
use pk_parts::Parts;
use pk_region::Region;

// A key gets a value of `count` pages that has room, in place of the one that a lookup finds.
fn put_found<B: Nand, A: Region>(
    parts: &mut Parts<A>,
    board: &mut B,
    key: Key,
    value: &[u8],
    count: u32,
) -> Result<(), Fault>
    requires can { CanStore parts.old (B.state board.old) key value.now
        × (count ≡ pages_for parts.old value.now) }
    requires whole { is_half parts.old ≡ false }
    requires room { needs (pages_for parts.old value.now) parts.old ≡ false }
    requires number { NumbersLast (room_calls parts.old.log.shape) (B.state board.old) }
    requires counted { (B.state board.old).reads ≤ last_count }

    ensures { StoresWithin (4 + room_calls parts.old.log.shape) (lookup_calls
        + put_calls parts.old.log.shape (pages_for parts.old value.now)) room_roots
        parts.old parts.new (B.state board.old) (B.state board.new) key value.now result }
{
    let _ = board.read_count();
    let _ = key.bytes();
    match parts.look(board, &key) {
        Ok(old) => put(parts, board, key, value, old, count),
        Err(_) => Err(Fault::Reading),
    }
}

// A key gets a value of `count` pages for which there is no room, after the reclaims that make it.
// They may have moved the key's former value.
fn put_behind_reclaims<B: Nand, A: Region>(
    parts: &mut Parts<A>,
    board: &mut B,
    key: Key,
    value: &[u8],
    count: u32,
) -> Result<(), Fault>
    requires can { CanStore parts.old (B.state board.old) key value.now
        × (count ≡ pages_for parts.old value.now) }
    requires whole { is_half parts.old ≡ false }
    requires no_room { needs (pages_for parts.old value.now) parts.old
        ≡ true }
    requires unworn { is_worn (B.state board.old) ≡ false }

    ensures { StoresWithin (store_most parts.old.log.shape) (space_and_put_calls
        parts.old.log.shape (pages_for parts.old value.now)) store_roots
        parts.old parts.new (B.state board.old) (B.state board.new) key value.now result }
{
    match make_space(parts, board, count) {
        Ok(()) => {
            // so that the board's counts are known to be of 64 bits
            let _ = board.read_count();
            put_found(parts, board, key, value, count)
        }
        Err(fault) => Err(fault),
    }
}

/// A key gets a value of `count` pages, in place of the one at `old`. If it has no room, reclaims
/// make it. `Reading` if a read of a reclaim, of a merge or of a lookup fails: the map is unchanged.
/// `Stopped` if a program or an erase fails.
pub(crate) fn put_with_space<B: Nand, A: Region>(
    parts: &mut Parts<A>,
    board: &mut B,
    key: Key,
    value: &[u8],
    old: Option<Place>,
    count: u32,
) -> Result<(), Fault>
    requires can { CanPut parts.old (B.state board.old) key value.now old
        × (count ≡ pages_for parts.old value.now) }
    requires unworn { is_worn (B.state board.old) ≡ false }

    ensures stores { StoresWithin (store_most parts.old.log.shape) (space_and_put_calls
        parts.old.log.shape (pages_for parts.old value.now)) store_roots
        parts.old parts.new (B.state board.old) (B.state board.new) key value.now result }
    ensures programs { OnOk result (PutsQuietly parts.old key
        (pages_for parts.old value.now) (B.state board.old)
        (B.state board.new)) }
    ensures quiet { OnOk result (ReadsNone parts.old key
        (pages_for parts.old value.now) (B.state board.old)
        (B.state board.new)) }
{
    if needs_space(parts, count) {
        put_behind_reclaims(parts, board, key, value, count)
    } else {
        put(parts, board, key, value, old, count)
    }
}

/// A key gets a value of `count` pages, in place of the one at `old`, after the second program of a
/// pair that is half made. If the value has no room, reclaims make it. `Reading` if a read of a
/// reclaim, of a merge or of a lookup fails: the map is unchanged. `Stopped` if a program or an erase
/// fails.
pub(crate) fn put_whole<B: Nand, A: Region>(
    parts: &mut Parts<A>,
    board: &mut B,
    key: Key,
    value: &[u8],
    old: Option<Place>,
    count: u32,
) -> Result<(), Fault>
    requires can { CanStoreOver parts.old (B.state board.old) key value.now old
        × (count ≡ pages_for parts.old value.now) }
    requires unworn { is_worn (B.state board.old) ≡ false }
    ensures stores { StoresWithin (store_most parts.old.log.shape) (pair_calls
        + space_and_put_calls parts.old.log.shape (pages_for parts.old value.now)) store_roots
        parts.old parts.new (B.state board.old) (B.state board.new) key value.now result }

    // A Store that waits for nothing.
    ensures programs { is_half parts.old ≡ false → OnOk result (PutsQuietly parts.old key
        (pages_for parts.old value.now) (B.state board.old)
        (B.state board.new)) }
    ensures quiet { is_half parts.old ≡ false → OnOk result (ReadsNone parts.old key
        (pages_for parts.old value.now) (B.state board.old)
        (B.state board.new)) }
{
    match make_whole(parts, board) {
        Ok(()) => put_with_space(parts, board, key, value, old, count),
        Err(fault) => Err(fault),
    }
}

/// A key loses its value, the one at `old`, after the second program of a pair that is half made.
/// `Reading` if a read of a merge fails, which had to make room: the map is unchanged. `Stopped` if
/// a program or an erase fails.
pub(crate) fn take_whole<B: Nand, A: Region>(
    parts: &mut Parts<A>,
    board: &mut B,
    key: Key,
    old: Place,
) -> Result<(), Fault>
    requires can { CanTakeBetween parts.old (B.state board.old) key old }
    requires number { NumbersLast (room_calls parts.old.log.shape) (B.state board.old) }

    // The map, and then the drive itself.
    ensures step { TakesWhole parts.old parts.new (room_calls parts.old.log.shape)
        (B.state board.old) (B.state board.new) key old result }
    ensures stops { StoppedOn parts.new result }
    ensures stays { OnRunning (StaysBetween parts.old parts.new) result }
    ensures moves { OnRunning (Stays parts.old parts.new) result }
    ensures spends { Spends (pair_calls + (room_calls parts.old.log.shape + commit_calls))
        room_roots (B.state board.old) (B.state board.new) }

    // A Delete that waits for nothing.
    ensures programs { is_half parts.old ≡ false → OnOk result
        (TakesQuietly parts.old key (B.state board.old) (B.state board.new)) }
    ensures quiet { is_half parts.old ≡ false → OnOk result
        (ReadsQuietly parts.old key (B.state board.old) (B.state board.new)) }
{
    match make_whole(parts, board) {
        Ok(()) => take_out(parts, board, key, old),
        Err(fault) => Err(fault),
    }
}
