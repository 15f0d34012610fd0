//! Merges to the end and a whole freeze, inside a command that needs the room.
ghost use Rattle.std.specs.Prelude.{◌≡◌, ◌+◌, [], true, OnOk, OnErr, IfOk, IfErr};
ghost use Rattle.pk_background.specs.Merging.{DoesMerge, FailsMerge, FreezesOn};
ghost use Rattle.pk_background.specs.Reclaiming.{FailsAll};
ghost use Rattle.pk_background.specs.Costs.{NumbersLast, Spends};
ghost use Rattle.pk_law_work.specs.Rest.{whole_freeze};
ghost use Rattle.pk_law_work.specs.Work.{emptying};
ghost use Rattle.pk_law_work.specs.Calls.{room_calls, room_roots};
ghost use Rattle.pk_schedule.specs.Steps.{has_no_merge};
ghost use Rattle.pk_parts.specs.Parts.{index_of};
ghost use Rattle.pk_parts.specs.Moves.{MayStep, StepKeeps, LeavesValues};
ghost use Rattle.pk_background.specs.Emptying.{MayEmpty, MergesOnce, MergesWhole, FreezesOnce, FreezesWhole, KeepsOrReads, OnRunning, HasRoom, merges_left};
ghost use Rattle.pk_parts.specs.Staying.{Stays};

use crate::pair::settle;
use pk_nand::{Fault, Nand};
use pk_parts::Parts;
use pk_region::Region;
use pk_schedule::Stepped;

// One step of the merges, by at most one flash operation, which may leave the pair of a root half made. `Reading` if a read fails:
// the step can be made again.
pub(crate) fn merge_once<B: Nand, A: Region>(
    parts: &mut Parts<A>,
    board: &mut B,
) -> Result<Stepped, Fault>
    requires { MayEmpty parts.old (B.state board.old) }

    // A step was made, or nothing was left to do.
    ensures does { IfOk result (λ s. DoesMerge parts.old parts.new (B.state board.old)
        (B.state board.new) s) }

    // A flash operation failed.
    ensures fails { IfErr result (λ e. FailsMerge parts.old parts.new (B.state board.old)
        (B.state board.new) e) }

    // After success and failure.
    ensures once { MergesOnce parts.old parts.new (B.state board.old) (B.state board.new) result }
{
    // so that the board's counts are known to be of 64 bits
    let _ = board.read_count();
    parts.schedule.step(
        board,
        &mut parts.pool,
        &mut parts.arena,
        &mut parts.levels,
        &mut parts.log,
        &mut parts.page,
    )
}

// One step of the merges, with the second program of a root whose first one it makes. `Reading` if a read fails: the step can be made
// again.
fn merge_whole<B: Nand, A: Region>(parts: &mut Parts<A>, board: &mut B) -> Result<Stepped, Fault>
    requires { MayEmpty parts.old (B.state board.old) }
    ensures { MergesWhole parts.old parts.new (B.state board.old) (B.state board.new) result }
{
    match merge_once(parts, board) {
        Ok(Stepped::Worked) => match settle(parts, board) {
            Ok(()) => Ok(Stepped::Worked),
            Err(fault) => Err(fault),
        },
        Ok(Stepped::Idle) => Ok(Stepped::Idle),
        Err(fault) => Err(fault),
    }
}

// Makes steps of the merges until none runs and nothing is frozen. `Reading` if a read fails:
// what was merged stays so.
fn empty_frozen<B: Nand, A: Region>(parts: &mut Parts<A>, board: &mut B) -> Result<(), Fault>
    // Nothing is pending, and the numbers of roots last.
    requires may { MayStep parts.old (B.state board.old) }
    requires none_pending { parts.old.log.pending ≡ [] }
    requires number { NumbersLast (merges_left parts.old) (B.state board.old) }

    // The map, and nothing remains.
    ensures step { KeepsOrReads parts.old parts.new (merges_left parts.old + 1)
        (B.state board.old) (B.state board.new) result }
    ensures done { OnOk result (has_no_merge (index_of parts.new) ≡ true) }
    ensures spends { Spends (merges_left parts.old) 4 (B.state board.old) (B.state board.new) }

    // What else is unchanged.
    ensures none { OnRunning (parts.new.log.pending ≡ []) result }
    ensures leaves { OnRunning (LeavesValues parts.old parts.new) result }
    ensures moves { OnRunning (Stays parts.old parts.new) result }
{
    // the proof names the loop by its label
    'merges: loop {
        match merge_whole(parts, board) {
            Ok(Stepped::Worked) => {}
            Ok(Stepped::Idle) => return Ok(()),
            Err(fault) => return Err(fault),
        }
    }
}

// One step of a freeze of the active buffer, by at most one flash operation, up to the first program of its root, which leaves the
// pair half made.
pub(crate) fn freeze_once<B: Nand, A: Region>(
    parts: &mut Parts<A>,
    board: &mut B,
) -> Result<(), Fault>
    requires may { MayEmpty parts.old (B.state board.old) }
    requires none_merges { has_no_merge (index_of parts.old) ≡ true }

    // A step was made, or a flash operation failed.
    ensures does { OnOk result (FreezesOn parts.old parts.new (B.state board.old)
        (B.state board.new)) }
    ensures fails { OnErr result (FailsAll parts.old (B.state board.old) (B.state board.new)) }

    // After success and failure.
    ensures once { FreezesOnce parts.old parts.new (B.state board.old) (B.state board.new) result }
{
    match parts.schedule.freeze_step(
        board,
        &mut parts.pool,
        &parts.arena,
        &parts.levels,
        &mut parts.log,
        &mut parts.page,
    ) {
        Ok(_) => Ok(()),
        Err(fault) => Err(fault),
    }
}

// One step of a freeze of the active buffer, with the second program of its root if it makes the first; true if it has ended.
fn freeze_whole<B: Nand, A: Region>(parts: &mut Parts<A>, board: &mut B) -> Result<bool, Fault>
    requires may { MayEmpty parts.old (B.state board.old) }
    requires none_merges { has_no_merge (index_of parts.old) ≡ true }
    ensures { FreezesWhole parts.old parts.new (B.state board.old) (B.state board.new) result }
{
    match freeze_once(parts, board) {
        Ok(()) => {
            let ends = parts.log.repeats_next();
            match settle(parts, board) {
                Ok(()) => Ok(ends),
                Err(fault) => Err(fault),
            }
        }
        Err(fault) => Err(fault),
    }
}

// Freezes the active buffer, so that any key has room. Nothing may be pending, no merge run, and nothing be frozen.
fn freeze_log<B: Nand, A: Region>(parts: &mut Parts<A>, board: &mut B) -> Result<(), Fault>
    // Nothing is in the way, and the numbers of roots last.
    requires may { MayStep parts.old (B.state board.old) }
    requires none_pending { parts.old.log.pending ≡ [] }
    requires none_merges { has_no_merge (index_of parts.old) ≡ true }
    requires number { NumbersLast whole_freeze (B.state board.old) }

    // The map, and any key has room, and so have the moves of a reclaim.
    ensures step { StepKeeps parts.old parts.new whole_freeze (B.state board.old)
        (B.state board.new) result }
    ensures room { OnOk result (HasRoom parts.new) }
    ensures spends { Spends whole_freeze 1 (B.state board.old) (B.state board.new) }

    // What else is unchanged.
    ensures none { OnOk result (parts.new.log.pending ≡ []) }
    ensures leaves { OnOk result (LeavesValues parts.old parts.new) }
    ensures moves { OnOk result (Stays parts.old parts.new) }
{
    // the proof names the loop by its label
    'freezes: loop {
        match freeze_whole(parts, board) {
            Ok(false) => {}
            Ok(true) => return Ok(()),
            Err(fault) => return Err(fault),
        }
    }
}

/// Empties the frozen buffer by merges, and freezes the active one, so that any key has room.
/// Nothing may be pending. `Reading` if a read of a merge fails: the map is unchanged.
pub(crate) fn empty_active<B: Nand, A: Region>(
    parts: &mut Parts<A>,
    board: &mut B,
) -> Result<(), Fault>
    requires may { MayStep parts.old (B.state board.old) }
    requires none_pending { parts.old.log.pending ≡ [] }
    requires number { NumbersLast (room_calls parts.old.log.shape) (B.state board.old) }

    // The map, and any key has room, and so have the moves of a reclaim.
    ensures step { KeepsOrReads parts.old parts.new (room_calls parts.old.log.shape)
        (B.state board.old) (B.state board.new) result }
    ensures room { OnOk result (HasRoom parts.new) }
    ensures spends { Spends (emptying parts.old.log.shape 4 + whole_freeze) room_roots
        (B.state board.old) (B.state board.new) }

    // What else is unchanged.
    ensures none { OnRunning (parts.new.log.pending ≡ []) result }
    ensures leaves { OnRunning (LeavesValues parts.old parts.new) result }
    ensures moves { OnRunning (Stays parts.old parts.new) result }
{
    match empty_frozen(parts, board) {
        Ok(()) => freeze_log(parts, board),
        Err(fault) => Err(fault),
    }
}
