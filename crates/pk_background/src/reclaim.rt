//! A step of a reclaim.
ghost use Rattle.std.specs.Prelude.{◌≡◌, [], IfOk, IfErr, OnOk};
ghost use Rattle.pk_nand.specs.Calls.{IsReady};
ghost use Rattle.pk_nand.specs.Effects.{AtMostOneCall, NoFault, OnlyFlash};
ghost use Rattle.pk_model.specs.Growth.{Grows};
ghost use Rattle.pk_model.specs.Wear.{roots};
ghost use Rattle.pk_background.specs.Reclaiming.{MayReclaim, DoesReclaim, FailsReclaim};

use pk_gc::Reclaimed;
use pk_nand::{Fault, Nand};
use pk_parts::Parts;
use pk_reclaim::reclaim_step;
use pk_region::Region;

/// One step of a reclaim, by at most one flash operation, which may leave the commit of its
/// moves half made; one is begun if none runs. `NeedsFreeze` if its moves find no room: nothing
/// was done. `Reading` if a read fails: the step can be made again.
pub(crate) fn reclaim_once<B: Nand, A: Region>(
    parts: &mut Parts<A>,
    board: &mut B,
) -> Result<Reclaimed, Fault>
    requires may { MayReclaim parts.old (B.state board.old) }

    // A step was made, or needs a freeze before it.
    ensures does { IfOk result (λ r. DoesReclaim parts.old parts.new (B.state board.old)
        (B.state board.new) r) }

    // A call failed.
    ensures fails { IfErr result (λ e. FailsReclaim parts.old parts.new (B.state board.old)
        (B.state board.new) e) }

    // Whatever came of it, nothing is pending, and the flash has the same roots.
    ensures none { parts.new.log.pending ≡ [] }
    ensures grows { Grows parts.old.log.shape (B.state board.old).pages
        (B.state board.new).pages }
    ensures same_roots { roots (B.state board.new) ≡ roots (B.state board.old) }

    // The board.
    ensures sound { OnOk result (NoFault (B.state board.old) (B.state board.new)) }
    ensures calls { AtMostOneCall (B.state board.old) (B.state board.new) }
    ensures rest { OnlyFlash (B.state board.old) (B.state board.new) }
    ensures ready { IsReady (B.state board.new) parts.old.log.shape }
{
    reclaim_step(
        board,
        &mut parts.reclaim,
        &mut parts.values,
        &mut parts.log,
        &mut parts.pool,
    )
}
