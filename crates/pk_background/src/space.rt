//! Space for a value: reclaims to their end, inside a Store that needs it.
ghost use Rattle.std.specs.Prelude.{◌≡◌, ◌≤◌, ◌||◌, [], false, OnOk};
ghost use Rattle.pk_background.specs.Costs.{NumbersLast, Spends, reclaim_calls};
ghost use Rattle.pk_base.specs.Shape as spec;
ghost use Rattle.pk_law_work.specs.Calls.{space_calls, room_roots};
ghost use Rattle.pk_gc.specs.Stepping.{runs_in};
ghost use Rattle.pk_parts.specs.Moves.{MayStep};
ghost use Rattle.pk_background.specs.Emptying.{OnRunning};
ghost use Rattle.pk_parts.specs.Stopping.{StoppedOn};
ghost use Rattle.pk_background.specs.Spacing.{Awaits, MaySpace, MovesOrReads, SpacesOnce, StaysSame, needs, space_left};

use crate::emptying::empty_active;
use crate::pair::end_commit;
use crate::reclaim::reclaim_once;
use pk_gc::Reclaimed;
use pk_nand::{Fault, Nand};
use pk_parts::Parts;
use pk_region::Region;

/// Whether a value of `count` pages has no room without a reclaim.
pub fn needs_space<A: Region>(parts: &Parts<A>, count: u32) -> bool
    requires { count ≤ spec.most_pages parts.now.log.shape }
    ensures { result ≡ needs count parts.now }
{
    let shape = parts.shape();
    parts.values.needs_reclaim(&shape, &parts.pool, count)
}

// Whether a reclaim runs, or has to before a value of `count` pages.
fn awaits_space<A: Region>(parts: &Parts<A>, count: u32) -> bool
    requires { count ≤ spec.most_pages parts.now.log.shape }
    ensures { result ≡ runs_in parts.now.reclaim.phase || needs count parts.now }
{
    parts.reclaim.runs() || needs_space(parts, count)
}

// One step of a reclaim, with the second program of its moves' commit if it makes the first; if
// its moves find no room, merges and a freeze make it.
fn make_space_once<B: Nand, A: Region>(
    parts: &mut Parts<A>,
    board: &mut B,
    count: u32,
) -> Result<(), Fault>
    requires may { MaySpace count parts.old (B.state board.old) }
    requires some { count ≤ spec.most_pages parts.old.log.shape }
    requires awaits { Awaits count parts.old }
    ensures { SpacesOnce count parts.old parts.new (B.state board.old) (B.state board.new)
        result }
{
    let _ = board.read_count();
    match reclaim_once(parts, board) {
        Ok(Reclaimed::Worked) => end_commit(parts, board),
        Ok(Reclaimed::Ended) => Ok(()),
        Ok(Reclaimed::NeedsFreeze) => empty_active(parts, board),
        Err(fault) => Err(fault),
    }
}

// Makes steps of reclaims until none runs, and a value of `count` pages has room.
fn reclaim_for<B: Nand, A: Region>(
    parts: &mut Parts<A>,
    board: &mut B,
    count: u32,
) -> Result<(), Fault>
    requires may { MaySpace count parts.old (B.state board.old) }
    requires some { count ≤ spec.most_pages parts.old.log.shape }

    // The map, and the value has room.
    ensures step { MovesOrReads parts.old parts.new (space_left count parts.old)
        (B.state board.old) (B.state board.new) result }
    ensures room { OnOk result (needs count parts.new ≡ false) }
    ensures spends { Spends (space_left count parts.old) room_roots (B.state board.old)
        (B.state board.new) }

    // What else is unchanged.
    ensures none { OnRunning (parts.new.log.pending ≡ []) result }
    ensures stays { OnRunning (StaysSame parts.old parts.new) result }
    ensures stops { StoppedOn parts.new result }
{
    // the proof names the loop by its label
    'reclaims: loop {
        if !awaits_space(parts, count) {
            return Ok(());
        }
        match make_space_once(parts, board, count) {
            Ok(()) => {}
            Err(fault) => return Err(parts.fail(fault)),
        }
    }
}

/// Makes room for a value of `count` pages by reclaims, one of which may already be running.
/// The pending entries are committed first. Existing values may be elsewhere afterwards.
/// `Reading` if a read fails: the map is unchanged.
pub fn make_space<B: Nand, A: Region>(
    parts: &mut Parts<A>,
    board: &mut B,
    count: u32,
) -> Result<(), Fault>
    requires may { MayStep parts.old (B.state board.old) }
    requires some { count ≤ spec.most_pages parts.old.log.shape }
    requires number { NumbersLast (space_calls parts.old.log.shape) (B.state board.old) }

    // The map, and the value has room.
    ensures step { MovesOrReads parts.old parts.new (space_calls parts.old.log.shape)
        (B.state board.old) (B.state board.new) result }
    ensures room { OnOk result (needs count parts.new ≡ false) }
    ensures spends { Spends (reclaim_calls parts.old.log.shape) room_roots (B.state board.old)
        (B.state board.new) }

    // What else is unchanged.
    ensures none { OnRunning (parts.new.log.pending ≡ []) result }
    ensures stays { OnRunning (StaysSame parts.old parts.new) result }
    ensures stops { StoppedOn parts.new result }
{
    match parts.commit_pending(board) {
        Ok(()) => reclaim_for(parts, board, count),
        Err(fault) => Err(fault),
    }
}
