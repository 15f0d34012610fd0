//! A pair that is half made, and its second program.
ghost use Rattle.std.specs.Prelude.{◌≡◌, true, false, IsOk};
ghost use Rattle.pk_root.specs.Installing.{repeats_next};
ghost use Rattle.pk_parts.specs.Parts.{commits_in, is_half};
ghost use Rattle.pk_parts.specs.Moves.{MayCommit};
ghost use Rattle.pk_parts.specs.Stopping.{StoppedOn};
ghost use Rattle.pk_background.specs.Pairing.{MayFinishHalf, FinishesOr, FinishesRootOr, SettlesOr, FinishesCommitOr, CommitsOr};

use pk_gc::Phase;
use pk_nand::{Fault, Nand};
use pk_parts::Parts;
use pk_reclaim::reclaim_step;
use pk_region::Region;

// Whether the commit of a reclaim's moves is half made.
fn commits<A: Region>(parts: &Parts<A>) -> bool
    ensures { result ≡ commits_in parts.now.reclaim.phase }
{
    match parts.reclaim.phase() {
        Phase::Idle => false,
        Phase::Copies(_) => false,
        Phase::Commits(_) => true,
        Phase::GivesBack(_) => false,
    }
}

/// Whether a pair is half made, of a root or of the commit of a reclaim's moves: its second program is the next step.
pub fn is_half<A: Region>(parts: &Parts<A>) -> bool
    ensures { result ≡ is_half parts.now }
{
    parts.log.repeats_next() || commits(parts)
}

// The second program of the newest root, whose pair is half made; then the blocks that leave are free. The map is the same, wherever
// it is cut. `Stopped` if it fails.
fn finish_root<B: Nand, A: Region>(parts: &mut Parts<A>, board: &mut B) -> Result<(), Fault>
    requires may { MayCommit parts.old (B.state board.old) }
    requires half { repeats_next parts.old.log.next ≡ true }
    ensures { FinishesRootOr parts.old parts.new (B.state board.old) (B.state board.new) result }
{
    parts.pool.known();
    parts
        .schedule
        .finish(board, &mut parts.pool, &mut parts.log, &mut parts.page)
}

/// Makes the second program of the newest root if its pair is half made, and nothing otherwise.
pub(crate) fn settle<B: Nand, A: Region>(parts: &mut Parts<A>, board: &mut B) -> Result<(), Fault>
    requires may { MayCommit parts.old (B.state board.old) }
    ensures { SettlesOr parts.old parts.new (B.state board.old) (B.state board.new) result }
{
    if parts.log.repeats_next() {
        finish_root(parts, board)
    } else {
        Ok(())
    }
}

// The second program of the commit of a reclaim's moves, which is half made. The map is the same, wherever it is cut. `Stopped` if it
// fails.
fn finish_commit<B: Nand, A: Region>(parts: &mut Parts<A>, board: &mut B) -> Result<(), Fault>
    requires may { MayCommit parts.old (B.state board.old) }
    requires half { commits_in parts.old.reclaim.phase ≡ true }
    ensures { FinishesCommitOr parts.old parts.new (B.state board.old) (B.state board.new)
        result }
{
    parts.pool.known();
    match reclaim_step(
        board,
        &mut parts.reclaim,
        &mut parts.values,
        &mut parts.log,
        &mut parts.pool,
    ) {
        Ok(_) => Ok(()),
        Err(fault) => Err(fault),
    }
}

/// Makes the second program of the commit of a reclaim's moves if it is half made, and nothing otherwise.
pub(crate) fn end_commit<B: Nand, A: Region>(
    parts: &mut Parts<A>,
    board: &mut B,
) -> Result<(), Fault>
    requires may { MayCommit parts.old (B.state board.old) }
    ensures { CommitsOr parts.old parts.new (B.state board.old) (B.state board.new) result }
{
    if commits(parts) {
        finish_commit(parts, board)
    } else {
        Ok(())
    }
}

/// The second program of the pair that is half made. `Stopped` if it fails.
pub(crate) fn finish_half<B: Nand, A: Region>(
    parts: &mut Parts<A>,
    board: &mut B,
) -> Result<(), Fault>
    requires may { MayFinishHalf parts.old (B.state board.old) }
    ensures { FinishesOr parts.old parts.new (B.state board.old) (B.state board.new) result }
{
    if parts.log.repeats_next() {
        finish_root(parts, board)
    } else {
        finish_commit(parts, board)
    }
}

/// Makes the second program of a pair that is half made; does nothing if none is. The map is the same, wherever it is cut. `Stopped`
/// if the program fails.
pub fn make_whole<B: Nand, A: Region>(parts: &mut Parts<A>, board: &mut B) -> Result<(), Fault>
    requires may { MayCommit parts.old (B.state board.old) }

    // Nothing was to be done, or the pair is whole, or its program failed.
    ensures finishes { is_half parts.old ≡ true
        → FinishesOr parts.old parts.new (B.state board.old) (B.state board.new) result }
    ensures rests { is_half parts.old ≡ false
        → IsOk result × (parts.new ≡ parts.old) × (B.state board.new ≡ B.state board.old) }
    ensures stops { StoppedOn parts.new result }
{
    if is_half(parts) {
        match finish_half(parts, board) {
            Ok(()) => Ok(()),
            Err(fault) => Err(parts.fail(fault)),
        }
    } else {
        Ok(())
    }
}
