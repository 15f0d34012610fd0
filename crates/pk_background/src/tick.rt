//! A background step.
ghost use Rattle.std.specs.Prelude.{◌≡◌, ◌==◌, ℕ, length, true, false, IfOk, OnOk, OnErr, MatchBool, slice_get};
ghost use Rattle.pk_nand.specs.Calls.{IsReady};
ghost use Rattle.pk_pool.specs.Blocks.{PoolOnFlash, IsShared, IsOwned};
ghost use Rattle.pk_pool.specs.Taking.{ErasesOne, ErasesNone, FailsToErase};
ghost use Rattle.pk_call.specs.declared.types.Ticked.TheVariants.{Fault as StopsDrive};
ghost use Rattle.pk_compact.specs.FreezeSteps.{taken_by};
ghost use Rattle.pk_schedule.specs.Steps.{has_no_merge};
ghost use Rattle.pk_parts.specs.Parts as spec;
ghost use Rattle.pk_parts.specs.Parts.{index_of, is_half};
ghost use Rattle.pk_background.specs.Ticking.{MayTick, Advances, WantsFreeze, WantsReclaim, wants_reclaim};
ghost use Rattle.pk_background.specs.Filling.{lacks_frames};

use crate::emptying::{freeze_once, merge_once};
use crate::fill::{fill_once, lacks_frames};
use crate::pair::{finish_half, is_half};
use crate::reclaim::reclaim_once;
use pk_call::Ticked;
use pk_gc::Reclaimed;
use pk_nand::{Fault, Nand};
use pk_parts::Parts;
use pk_region::Region;
use pk_schedule::Stepped;

// Erases the lowest free block that was not erased in this session; false if there is none.
fn erase_spare<B: Nand, A: Region>(parts: &mut Parts<A>, board: &mut B) -> Result<bool, Fault>
    requires ready { IsReady (B.state board.old) parts.old.pool.shape }
    requires fits { PoolOnFlash parts.old.pool (B.state board.old).pages }

    // The block that was erased.
    ensures erased { IfOk result (λ erased. MatchBool erased
        (ErasesOne parts.old.pool (B.state board.old) parts.new.pool (B.state board.new))
        (ErasesNone parts.old.pool (B.state board.old) parts.new.pool (B.state board.new))) }
    ensures rest { OnOk result (parts.new ≡ record parts.old { pool = parts.new.pool }) }
    ensures failed { OnErr result (FailsToErase parts.old.pool (B.state board.old)
        (B.state board.new)) }
    ensures kept { OnErr result (parts.new ≡ parts.old) }

    // The pool and the board, however it went.
    ensures shared { IsShared parts.old.pool.shape parts.old.pool.states }
    ensures ready { IsReady (B.state board.new) parts.old.pool.shape }
    ensures owned { (b : ℕ) → IsOwned parts.old.pool b
        → slice_get parts.new.pool.states b ≡ slice_get parts.old.pool.states b }
    ensures fits { PoolOnFlash parts.new.pool (B.state board.new).pages }
{
    parts.pool.known();
    parts.pool.erase_one(board)
}

// A call failed that stops the drive.
fn stop<A: Region>(parts: &mut Parts<A>) -> Ticked
    ensures value { result ≡ StopsDrive true }
    ensures stopped { parts.new ≡ record parts.old { stopped = true } }
{
    let _ = parts.fail(Fault::Stopped);
    Ticked::Fault { stopped: true }
}

// The second program of the pair that is half made.
fn finish_step<B: Nand, A: Region>(parts: &mut Parts<A>, board: &mut B) -> Ticked
    requires may { MayTick parts.old (B.state board.old) }
    requires half { is_half parts.old ≡ true }
    ensures { Advances parts.old parts.new (B.state board.old) (B.state board.new) result }
{
    parts.pool.known();
    match finish_half(parts, board) {
        Ok(()) => Ticked::Worked,
        // only a program can fail here
        Err(_) => stop(parts),
    }
}

// One step of the merges, of which one runs, or the frozen buffer has entries.
fn merge_step<B: Nand, A: Region>(parts: &mut Parts<A>, board: &mut B) -> Ticked
    requires may { MayTick parts.old (B.state board.old) }
    requires whole { is_half parts.old ≡ false }
    requires merges { has_no_merge (index_of parts.old) ≡ false }
    ensures { Advances parts.old parts.new (B.state board.old) (B.state board.new) result }
{
    match merge_once(parts, board) {
        Ok(Stepped::Worked) => Ticked::Worked,
        // a merge runs, or is due
        Ok(Stepped::Idle) => unreachable!(),
        Err(Fault::Reading) => Ticked::Fault { stopped: false },
        Err(Fault::Stopped) => stop(parts),
    }
}

// One step of the freeze that runs, or that a reclaim needs.
fn freeze_step<B: Nand, A: Region>(parts: &mut Parts<A>, board: &mut B) -> Ticked
    requires may { MayTick parts.old (B.state board.old) }
    requires whole { is_half parts.old ≡ false }
    requires merged { has_no_merge (index_of parts.old) ≡ true }
    requires wanted { WantsFreeze parts.old }
    ensures { Advances parts.old parts.new (B.state board.old) (B.state board.new) result }
{
    parts.pool.known();
    match freeze_once(parts, board) {
        Ok(_) => Ticked::Worked,
        // only a program or an erase can fail here
        Err(_) => stop(parts),
    }
}

// One step of the reclaim that runs or is due; if its moves find no room, one of the freeze
// that makes it.
fn reclaim_step<B: Nand, A: Region>(parts: &mut Parts<A>, board: &mut B) -> Ticked
    requires may { MayTick parts.old (B.state board.old) }
    requires whole { is_half parts.old ≡ false }
    requires merged { has_no_merge (index_of parts.old) ≡ true }
    requires frozen { (length (taken_by parts.old.schedule.freeze) == 0) ≡ true }
    requires wanted { WantsReclaim parts.old }
    ensures { Advances parts.old parts.new (B.state board.old) (B.state board.new) result }
{
    parts.pool.known();
    match reclaim_once(parts, board) {
        Ok(Reclaimed::Worked) => Ticked::Worked,
        Ok(Reclaimed::Ended) => Ticked::Worked,
        Ok(Reclaimed::NeedsFreeze) => freeze_step(parts, board),
        Err(Fault::Reading) => Ticked::Fault { stopped: false },
        Err(Fault::Stopped) => stop(parts),
    }
}

// The lowest free block that was not erased in this session is erased; idle if there is none.
fn erase_step<B: Nand, A: Region>(parts: &mut Parts<A>, board: &mut B) -> Ticked
    // The drive is whole.
    requires may { MayTick parts.old (B.state board.old) }
    requires whole { is_half parts.old ≡ false }

    // No other background work remains.
    requires merged { has_no_merge (index_of parts.old) ≡ true }
    requires frozen { (length (taken_by parts.old.schedule.freeze) == 0) ≡ true }
    requires reclaimed { wants_reclaim parts.old ≡ false }
    requires filled { lacks_frames parts.old ≡ false }

    // What the step does.
    ensures { Advances parts.old parts.new (B.state board.old) (B.state board.new) result }
{
    match erase_spare(parts, board) {
        Ok(true) => Ticked::Worked,
        Ok(false) => Ticked::Idle,
        // only an erase can fail here
        Err(_) => stop(parts),
    }
}

// A page that may have a frame and has none is read into one.
fn fill_step<B: Nand, A: Region>(parts: &mut Parts<A>, board: &mut B) -> Ticked
    // The drive is whole.
    requires may { MayTick parts.old (B.state board.old) }
    requires whole { is_half parts.old ≡ false }

    // No other background work remains but that frames lack pages.
    requires merged { has_no_merge (index_of parts.old) ≡ true }
    requires frozen { (length (taken_by parts.old.schedule.freeze) == 0) ≡ true }
    requires reclaimed { wants_reclaim parts.old ≡ false }
    requires unfilled { lacks_frames parts.old ≡ true }

    // What the step does.
    ensures { Advances parts.old parts.new (B.state board.old) (B.state board.new) result }
{
    // no run has more pages than its level may have
    parts.levels.known();
    match fill_once(parts, board) {
        Ok(()) => Ticked::Worked,
        // only a read can fail here
        Err(_) => Ticked::Fault { stopped: false },
    }
}

// As many blocks are in use as may be, in addition to the one that a reclaim holds, and the
// open one does not take every value.
fn is_reclaim_due<A: Region>(parts: &Parts<A>) -> bool
    ensures { result ≡ spec.is_reclaim_due parts.now }
{
    let shape = parts.shape();
    parts.used_blocks() == shape.data_blocks() - 1
        && !parts.values.fits_open(&shape, shape.most_pages())
}

// A reclaim runs, or one is due.
fn wants_reclaim<A: Region>(parts: &Parts<A>) -> bool
    ensures { result ≡ wants_reclaim parts.now }
{
    parts.reclaim.runs() || is_reclaim_due(parts)
}

/// The next background step: the second program of a pair that is half made, first of all; a merge's, a freeze's, a reclaim's, the
/// read of a page into a spare frame, or the erase of a free block. Idle if there is none.
pub fn advance<B: Nand, A: Region>(parts: &mut Parts<A>, board: &mut B) -> Ticked
    requires may { MayTick parts.old (B.state board.old) }
    ensures { Advances parts.old parts.new (B.state board.old) (B.state board.new) result }
{
    if is_half(parts) {
        finish_step(parts, board)
    } else if !parts.schedule.has_no_merge(&parts.log) {
        merge_step(parts, board)
    } else if parts.schedule.freezes() {
        freeze_step(parts, board)
    } else if wants_reclaim(parts) {
        reclaim_step(parts, board)
    } else if lacks_frames(parts) {
        fill_step(parts, board)
    } else {
        erase_step(parts, board)
    }
}
