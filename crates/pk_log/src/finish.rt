//! The second program of the newest root.
ghost use Rattle.std.specs.Prelude.{◌≡◌, ◌≤◌, ℕ, length, true, OnOk, OnErr};
ghost use Rattle.pk_base.specs.Map.{Map};
ghost use Rattle.pk_base.specs.Page.{Flash};
ghost use Rattle.pk_nand.specs.Calls.{IsReady};
ghost use Rattle.pk_nand.specs.Effects.{OneProgram};
ghost use Rattle.pk_rootfmt.specs.Root.{Root as RootValue};
ghost use Rattle.pk_model.specs.Found.{Found};
ghost use Rattle.pk_model.specs.Wear.{roots};
ghost use Rattle.pk_pool.specs.Blocks.{freed, NoneLeaves, PoolOnFlash};
ghost use Rattle.pk_root.specs.Installing.{repeats_next};
ghost use Rattle.pk_compact.specs.Steps.{StepByCall};
ghost use Rattle.pk_log.specs.Finishing.{MayFinish, LogFinishes, LogFinishBreaks};

use crate::log::Log;
use pk_compact::repeat_root;
use pk_nand::{Fault, Nand};
use pk_pool::Pool;
use pk_region::Region;

impl<A: Region> Log<A> {
    /// Whether the pair of the newest root is half made: its second program is next.
    pub fn repeats_next(&self) -> bool
        ensures { result ≡ repeats_next self.now.next }
    {
        self.installer.repeats()
    }

    /// Programs the newest root once more, in the second page of its pair: the one flash operation.
    /// Then the blocks that leave are free. The map is the same wherever it is cut. `Stopped` if it
    /// fails; log and pool may not be used after that. `buf` has the size of a page and is
    /// overwritten.
    pub fn finish_pair<B: Nand>(
        &mut self,
        board: &mut B,
        pool: &mut Pool<A>,
        buf: &mut [u8],
    ) -> Result<(), Fault>
        // The board, a pair that is half made, and a page's bytes.
        requires ready { IsReady (B.state board.old) self.old.shape }
        requires repeats { repeats_next self.old.next ≡ true }
        requires may { (top : ℕ × RootValue) × (found : Found) × (m : Map)
            × MayFinish self.old (B.state board.old).pages top found m }
        requires room { length buf.old ≡ self.old.shape.page_bytes }

        // The pair is whole, or the call failed.
        ensures step { StepByCall
            (λ u. LogFinishes self.old (B.state board.old) self.new (B.state board.new))
            (LogFinishBreaks self.old (B.state board.old) (B.state board.new))
            self.old.shape 1 (B.state board.old) (B.state board.new) result }
        ensures program { OneProgram (B.state board.old) (B.state board.new) }
        ensures number { roots (B.state board.new) ≤ roots (B.state board.old) }

        // The blocks that leave are free.
        ensures freed { OnOk result (pool.new ≡ freed pool.old) }
        ensures none { OnOk result (NoneLeaves pool.new) }
        ensures fits { (flash : Flash) → PoolOnFlash pool.old flash → PoolOnFlash pool.new flash }

        // What is unchanged in any case.
        ensures same_log { self.new ≡ record self.old { next = self.new.next } }
        ensures buffer { length buf.new ≡ length buf.old }
    {
        match repeat_root(board, &self.root, &mut self.installer, buf) {
            Ok(()) => {}
            Err(fault) => return Err(fault),
        }
        pool.free_left();
        Ok(())
    }
}
