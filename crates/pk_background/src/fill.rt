//! A step that fills a frame.
ghost use Rattle.std.specs.Prelude.{◌≡◌, ℕ, false, true, OnOk, IfErr, OnErr};
ghost use Rattle.pk_nand.specs.Calls.{IsReady};
ghost use Rattle.pk_nand.specs.Operations.{ReadFailed};
ghost use Rattle.pk_nand.specs.declared.types.Fault.TheVariants.{Reading};
ghost use Rattle.pk_schedule.specs.Steps.{has_no_merge};
ghost use Rattle.pk_parts.specs.Parts.{index_of, is_half};
ghost use Rattle.pk_background.specs.Ticking.{MayTick};
ghost use Rattle.pk_background.specs.Filling.{FillsSpare, lacks_frames};

use pk_nand::{Fault, Nand};
use pk_parts::Parts;
use pk_region::Region;

/// Whether a page has no frame of a level that may have frames for all its pages.
pub(crate) fn lacks_frames<A: Region>(parts: &Parts<A>) -> bool
    ensures { result ≡ lacks_frames parts.now }
{
    parts.levels.known();
    let last = parts.levels.last_level(parts.arena.frames());
    for level in 1..last + 1 {
        if !parts.levels.run(level).is_pinned() {
            return true;
        }
    }
    false
}

/// Reads one of these pages into a frame. `Reading` if the read fails: the step can be made again.
pub(crate) fn fill_once<B: Nand, A: Region>(
    parts: &mut Parts<A>,
    board: &mut B,
) -> Result<(), Fault>
    requires may { MayTick parts.old (B.state board.old) }
    requires whole { is_half parts.old ≡ false }
    requires merged { has_no_merge (index_of parts.old) ≡ true }
    requires unfilled { lacks_frames parts.old ≡ true }

    // A page was read into a frame.
    ensures fills { OnOk result (FillsSpare parts.old parts.new (B.state board.old)
        (B.state board.new)) }

    // Or that read failed, and nothing else changed.
    ensures reading { IfErr result (λ fault. fault ≡ Reading) }
    ensures err { OnErr result ((page : ℕ) × ReadFailed (B.state board.old) (B.state board.new)
        page) }
    ensures kept { OnErr result (parts.new ≡ parts.old) }

    // The board.
    ensures ready { IsReady (B.state board.new) parts.old.log.shape }
{
    let filled = parts
        .levels
        .fill_step(board, &mut parts.arena, &mut parts.page);
    match filled {
        Ok(true) => Ok(()),
        // a page has no frame
        Ok(false) => unreachable!(),
        Err(fault) => Err(fault),
    }
}
