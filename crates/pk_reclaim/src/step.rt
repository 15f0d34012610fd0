//! A step of a reclaim over the space of a drive.
ghost use Rattle.std.specs.Prelude.{◌≡◌, ℕ, Err, IfOk, OnOk};
ghost use Rattle.pk_base.specs.Map.{Map};
ghost use Rattle.pk_nand.specs.Calls.{IsReady};
ghost use Rattle.pk_nand.specs.Effects.{AtMostOneCall, NoFault, OnlyFlash, Stops};
ghost use Rattle.pk_nand.specs.declared.types.Fault.TheVariants.{Reading, Stopped};
ghost use Rattle.pk_rootfmt.specs.Root.{Root as RootValue};
ghost use Rattle.pk_model.specs.Found.{Found};
ghost use Rattle.pk_model.specs.Growth.{Grows};
ghost use Rattle.pk_model.specs.Wear.{roots};
ghost use Rattle.pk_reclaim.specs.Space.{MayReclaim, reclaim_parts};
ghost use Rattle.pk_reclaim.specs.Steps.{Does, Unread, ReclaimBroken, KeepsLog, RepeatsIn};

use pk_gc::{ReclaimJob, Reclaimed};
use pk_log::Log;
use pk_nand::{Fault, Nand};
use pk_pool::Pool;
use pk_region::Region;
use pk_values::Values;

/// One step of a reclaim, by at most one flash operation: it begins if none runs, a page of the
/// victim is read, or programmed into the output, the first or the second program of the moves'
/// commit is made, or the victim is freed. After the first program the step is the second one
/// alone, which a Store or a Delete makes before its own entry. `NeedsFreeze` if the moves find no
/// room in the active buffer or the newest epoch: nothing was done, and after a freeze the step is
/// to be made again. `Reading` if a read fails: nothing has changed, and the step can be made
/// again. `Stopped` if a program or an erase fails; nothing may be used after that.
pub fn reclaim_step<B: Nand, A: Region>(
    board: &mut B,
    job: &mut ReclaimJob<A>,
    values: &mut Values<A>,
    log: &mut Log<A>,
    pool: &mut Pool<A>,
) -> Result<Reclaimed, Fault>
    // They are the space of the drive on this board.
    requires ready { IsReady (B.state board.old) log.old.shape }
    requires may { (top : ℕ × RootValue) × (found : Found) × (m : Map)
        × MayReclaim (reclaim_parts log.old values.old pool.old job.old) (B.state board.old).pages top
        found m }

    // A step was made, or needs a freeze before it.
    ensures does { IfOk result (λ r. Does (reclaim_parts log.old values.old pool.old job.old)
        (B.state board.old) (reclaim_parts log.new values.new pool.new job.new) (B.state board.new) r) }

    // Out of a commit that is half made it is its second program.
    ensures repeats { RepeatsIn job.old.phase (B.state board.old) (B.state board.new) result }

    // Whatever came of it, of the log only the newest epoch differs, and the roots are the same.
    ensures same_log { KeepsLog (reclaim_parts log.old values.old pool.old job.old)
        (reclaim_parts log.new values.new pool.new job.new) }
    ensures grows { Grows log.old.shape (B.state board.old).pages (B.state board.new).pages }
    ensures same_roots { roots (B.state board.new) ≡ roots (B.state board.old) }

    // A call failed.
    ensures unread { result ≡ Err Reading → Unread (reclaim_parts log.old values.old pool.old job.old)
        (B.state board.old) (reclaim_parts log.new values.new pool.new job.new) (B.state board.new) }
    ensures broken { result ≡ Err Stopped → ReclaimBroken (reclaim_parts log.old values.old pool.old job.old)
        (B.state board.old) (B.state board.new) × Stops (B.state board.old) (B.state board.new) }

    // The board.
    ensures sound { OnOk result (NoFault (B.state board.old) (B.state board.new)) }
    ensures calls { AtMostOneCall (B.state board.old) (B.state board.new) }
    ensures rest { OnlyFlash (B.state board.old) (B.state board.new) }
    ensures ready { IsReady (B.state board.new) log.old.shape }
{
    pool.known();
    job.step(
        board,
        pool,
        &mut values.live,
        &mut log.active,
        &mut log.epoch,
        &mut values.open_block,
    )
}
