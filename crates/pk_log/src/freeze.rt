//! The freeze of a log.
ghost use Rattle.std.specs.Prelude.{◌≡◌, ℕ, length};
ghost use Rattle.pk_base.specs.Map.{Map};
ghost use Rattle.pk_nand.specs.Calls.{IsReady};
ghost use Rattle.pk_rootfmt.specs.Root.{Root as RootValue};
ghost use Rattle.pk_model.specs.Found.{Found};
ghost use Rattle.pk_compact.specs.Steps.{StepByCall};
ghost use Rattle.pk_log.specs.FreezeSteps.{CanStep, LogSteps, LogStepBreaks};

use crate::log::Log;
use pk_compact::{FreezeJob, freeze_step, retire_epoch};
use pk_jrn::Epoch;
use pk_nand::{Fault, Nand};
use pk_pool::Pool;
use pk_region::Region;

impl<A: Region> Log<A> {
    /// One step of a freeze up to the first program of its root, by at most one flash operation: a
    /// block of the empty epoch, the other one, the erase before the root, its first program. True
    /// exactly if this call made that program: the empty epoch is the newest one then, the buffers
    /// are exchanged, the blocks of a former epoch without entries leave, and the second program is
    /// next. Until then log and lists are unchanged. Nothing may be pending, nothing frozen, and no
    /// pair half made. `Stopped` if the operation fails; log, pool and freeze may not be used after
    /// that. `buf` has the size of a page and is overwritten.
    pub fn freeze_step<B: Nand>(
        &mut self,
        board: &mut B,
        pool: &mut Pool<A>,
        job: &mut FreezeJob,
        buf: &mut [u8],
    ) -> Result<bool, Fault>
        // The board, what the freeze has done, and a page's bytes.
        requires ready { IsReady (B.state board.old) self.old.shape }
        requires can { (top : ℕ × RootValue) × (found : Found) × (m : Map)
            × CanStep self.old pool.old job.old (B.state board.old).pages top found m }
        requires room { length buf.old ≡ self.old.shape.page_bytes }

        // What the step did, or the call that failed.
        ensures step { StepByCall
            (λ done. LogSteps self.old pool.old job.old (B.state board.old) done
            self.new pool.new job.new (B.state board.new))
            (LogStepBreaks self.old pool.old job.old (B.state board.old) (B.state board.new))
            self.old.shape 1 (B.state board.old) (B.state board.new) result }

        // What is unchanged in any case.
        ensures same_shape { self.new.shape ≡ self.old.shape }
        ensures pending { self.new.pending ≡ self.old.pending }
        ensures buffer { length buf.new ≡ length buf.old }
    {
        let has_entries = self.active.len() > 0;
        let former = self.root.newest();
        match freeze_step(
            board,
            pool,
            &mut self.root,
            &mut self.installer,
            job,
            has_entries,
            buf,
        ) {
            Ok(true) => {
                retire_epoch(pool, former, has_entries);
                let shape = *self.root.shape();
                let blocks = self.root.newest();
                self.epoch = Epoch::start(shape, self.root.epoch(), blocks);
                self.active.exchange(&mut self.frozen);
                Ok(true)
            }
            Ok(false) => Ok(false),
            Err(fault) => Err(fault),
        }
    }
}
