//! The first wanted entry of a run, from a cursor on.
ghost use Rattle.std.specs.Prelude.{◌≡◌, ◌<◌, ◌+◌, ◌%◌, ℕ, List, slice_get, None, Some, IfErr, IfOk, OnOk};
ghost use Rattle.pk_base.specs.Entry.{Entry as EntrySpec};
ghost use Rattle.pk_base.specs.Seen.{entry as seen};
ghost use Rattle.pk_base.specs.Shape.{page_entries};
ghost use Rattle.pk_base.specs.declared.entry.Entry.{Entry as RustEntry};
ghost use Rattle.pk_meta.specs.PageChecks.{IsMetaPage};
ghost use Rattle.pk_walk.specs.Steps.{FailsToSeek, FindsIn, HasPage, MaySeek, SeeksOn, ShowsIn, bytes_in, holding};

use crate::cursor::Cursor;
use crate::position::Position;
use pk_base::Entry;
use pk_nand::{Fault, Nand};
use pk_pin::PinArena;
use pk_run::Run;
use std::alloc::Allocator;

/// Knows the first entry of the run whose key is wanted. Each page is read once at most, as the
/// cursor passes it, and once exactly if none is skipped. `Reading` if a read fails; otherwise
/// nothing fails.
#[inline(always)]
pub fn seek<A: Allocator, B: Nand>(
    cursor: &mut Cursor<A>,
    board: &mut B,
    arena: &PinArena<A>,
    run: &Run<A>,
    position: &Position,
) -> Result<(), Fault>
    requires may { MaySeek run.now arena.now position.now (B.state board.old) cursor.old }

    // The first wanted entry.
    ensures shows { OnOk result (ShowsIn run.now position.now
        (B.state board.old) (B.state board.new) cursor.old cursor.new) }

    // Or a read failed; either way the cursor goes on, and nothing but reads was done.
    ensures err { IfErr result (λ fault. FailsToSeek run.now
        (B.state board.old) (B.state board.new) cursor.old cursor.new fault) }
    ensures on { SeeksOn run.now arena.now position.now
        (B.state board.old) (B.state board.new) cursor.old cursor.new }
{
    run.known();
    let _ = run.entries();
    if cursor.head().is_known() {
        Ok(())
    } else if cursor.is_ready(run) {
        hold_next(cursor, arena, run);
        Ok(())
    } else {
        seek_page(cursor, board, arena, run, position)
    }
}

// Has the entry at the cursor's place, whose page is there. It is apart, so that the room for an
// entry is made only if one is read.
#[inline(always)]
fn hold_next<A: Allocator>(cursor: &mut Cursor<A>, arena: &PinArena<A>, run: &Run<A>)
    requires page { HasPage run.now arena.now cursor.old }
    requires room { cursor.old.place + 1 < 4294967296 }
    ensures { (e : RustEntry) × (cursor.new ≡ holding (Some (seen e)) cursor.old)
        × ((level index : ℕ) (entries : List EntrySpec) → IsMetaPage cursor.old.shape
        (bytes_in run.now arena.now cursor.old) level index entries
        → slice_get entries (cursor.old.place % page_entries cursor.old.shape) ≡ Some (seen e)) }
{
    let entry = cursor.entry(arena, run);
    cursor.hold(Some(entry));
}

// Knows the first wanted entry, which was not looked for, if the page of the place is not there. A
// call, for the same reason.
#[inline(never)]
fn seek_page<A: Allocator, B: Nand>(
    cursor: &mut Cursor<A>,
    board: &mut B,
    arena: &PinArena<A>,
    run: &Run<A>,
    position: &Position,
) -> Result<(), Fault>
    requires may { MaySeek run.now arena.now position.now (B.state board.old) cursor.old }
    requires sought { cursor.old.head ≡ None }

    // The first wanted entry.
    ensures shows { OnOk result (ShowsIn run.now position.now
        (B.state board.old) (B.state board.new) cursor.old cursor.new) }

    // Or a read failed; either way the cursor goes on, and nothing but reads was done.
    ensures err { IfErr result (λ fault. FailsToSeek run.now
        (B.state board.old) (B.state board.new) cursor.old cursor.new fault) }
    ensures on { SeeksOn run.now arena.now position.now
        (B.state board.old) (B.state board.new) cursor.old cursor.new }
{
    run.known();
    let _ = run.entries();
    match search(cursor, board, arena, run, position) {
        Ok(found) => {
            cursor.hold(found);
            Ok(())
        }
        Err(fault) => Err(fault),
    }
}

// Comes to the first entry of the run whose key is wanted; None if there is none.
fn search<A: Allocator, B: Nand>(
    cursor: &mut Cursor<A>,
    board: &mut B,
    arena: &PinArena<A>,
    run: &Run<A>,
    position: &Position,
) -> Result<Option<Entry>, Fault>
    requires may { MaySeek run.now arena.now position.now (B.state board.old) cursor.old }
    requires sought { cursor.old.head ≡ None }

    // The first wanted entry.
    ensures finds { IfOk result (λ found. FindsIn run.now arena.now position.now
        (B.state board.old) (B.state board.new) cursor.old cursor.new found) }

    // Or a read failed; either way the cursor goes on, and nothing but reads was done.
    ensures err { IfErr result (λ fault. FailsToSeek run.now
        (B.state board.old) (B.state board.new) cursor.old cursor.new fault) }
    ensures on { SeeksOn run.now arena.now position.now
        (B.state board.old) (B.state board.new) cursor.old cursor.new }
{
    run.known();
    cursor.begin(run, position);
    while cursor.place() < run.entries() {
        match cursor.look(board, arena, run) {
            Ok(()) => {}
            Err(fault) => return Err(fault),
        }
        if cursor.skip(arena, run, position) {
            return Ok(Some(cursor.entry(arena, run)));
        }
    }
    Ok(None)
}
