//! The install of a merge.
ghost use Rattle.std.specs.Prelude.{◌≡◌, ℕ, length};
ghost use Rattle.pk_base.specs.Map.{Map};
ghost use Rattle.pk_nand.specs.Calls.{IsReady};
ghost use Rattle.pk_rootfmt.specs.Root.{Root as RootValue};
ghost use Rattle.pk_model.specs.Found.{Found};
ghost use Rattle.pk_schedule.specs.declared.phase.Phase.TheVariants.{Ready};
ghost use Rattle.pk_compact.specs.Steps.{StepByCall};
ghost use Rattle.pk_schedule.specs.Index.{index};
ghost use Rattle.pk_schedule.specs.Steps.{MayWork, StepsOn, KeepsActive, Breaks};

use crate::schedule::Schedule;
use pk_level::Levels;
use pk_log::Log;
use pk_nand::{Fault, Nand};
use pk_pin::PinArena;
use pk_pool::Pool;
use pk_region::Region;

impl<A: Region> Schedule<A> {
    // One step of the install of the merge whose output is complete, up to the first program of its
    // root: the erase before the root, if one is next, or that program. After it the runs are
    // exchanged; the blocks of the former ones and of the source leave, and their frames are freed,
    // as are those of levels that may have none any more. `Stopped` if the operation fails.
    pub(crate) fn install<B: Nand>(
        &mut self,
        board: &mut B,
        pool: &mut Pool<A>,
        arena: &mut PinArena<A>,
        levels: &mut Levels<A>,
        log: &mut Log<A>,
        buf: &mut [u8],
    ) -> Result<(), Fault>
        requires ready { IsReady (B.state board.old) log.old.shape }
        requires may { (frames : ℕ) × (top : ℕ × RootValue) × (found : Found) × (m : Map)
            × MayWork (index log.old levels.old arena.old pool.old self.old) frames
            (B.state board.old).pages top found m }
        requires phase { (level : ℕ) × (self.old.phase ≡ Ready level) }
        requires room { length buf.old ≡ log.old.shape.page_bytes }

        // The install is a step further, or over; or its call failed.
        ensures step { StepByCall
            (λ u. StepsOn (index log.old levels.old arena.old pool.old self.old) (B.state board.old)
            (index log.new levels.new arena.new pool.new self.new) (B.state board.new))
            (Breaks (index log.old levels.old arena.old pool.old self.old) (B.state board.old)
            (B.state board.new))
            log.old.shape 1 (B.state board.old) (B.state board.new) result }

        // The rest is unchanged.
        ensures active { KeepsActive log.old log.new }
        ensures same_freeze { self.new.freeze ≡ self.old.freeze }
        ensures buffer { length buf.new ≡ length buf.old }
    {
        pool.known();
        levels.known();
        if log.erases_next() {
            return log.prepare_root(board);
        }
        let level = self.merging();
        let older = log.root().older();
        let output = self.job.output();
        let count = output.entries();
        match log.install_merge(board, level, count, output.blocks(), buf) {
            Ok(()) => {
                if level == 1 {
                    self.end_first(pool, arena, levels, older);
                    levels.release(arena);
                    Ok(())
                } else {
                    self.end_deep(pool, arena, levels, level);
                    levels.release(arena);
                    Ok(())
                }
            }
            Err(fault) => Err(fault),
        }
    }
}
