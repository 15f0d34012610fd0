//! The install of a merge over a log.
ghost use Rattle.std.specs.Prelude.{◌≡◌, ℕ, length, true, false};
ghost use Rattle.pk_base.specs.Map.{Map};
ghost use Rattle.pk_nand.specs.Calls.{IsReady};
ghost use Rattle.pk_rootfmt.specs.Root.{Root as RootValue};
ghost use Rattle.pk_root.specs.Installing.{erases_next, programs_next};
ghost use Rattle.pk_model.specs.Found.{Found};
ghost use Rattle.pk_compact.specs.Steps.{StepByCall};
ghost use Rattle.pk_log.specs.MergeSteps.{MayPrepare, LogPrepares, LogPrepareBreaks, MayMerge, LogMerges, LogMergeBreaks, KeepsActive, frozen_after};

use crate::log::Log;
use pk_buf::Buffer;
use pk_compact::{install_merge, prepare_root};
use pk_nand::{Fault, Nand};
use pk_region::Region;

// Empties the frozen buffer after a merge of it, which is one into level 1.
fn empty_merged<A: Region>(frozen: &mut Buffer<A>, level: u8)
    ensures { frozen.new ≡ frozen_after level frozen.old }
{
    if level == 1 {
        frozen.clear();
    }
}

impl<A: Region> Log<A> {
    /// Whether an erase of a root block comes before the program of the next root.
    pub fn erases_next(&self) -> bool
        ensures { result ≡ erases_next self.now.next }
    {
        self.installer.erases()
    }

    /// Erases the root block that is next, after which the next root is programmed: the one flash
    /// operation. The log is as before, and the map is the same wherever it is cut. `Stopped` if it
    /// fails; the log may not be used after that.
    pub fn prepare_root<B: Nand>(&mut self, board: &mut B) -> Result<(), Fault>
        // The board, and an erase that is next.
        requires ready { IsReady (B.state board.old) self.old.shape }
        requires erases { erases_next self.old.next ≡ true }
        requires may { (top : ℕ × RootValue) × (found : Found) × (m : Map)
            × MayPrepare self.old (B.state board.old).pages top found m }

        // The block was erased, or the call failed.
        ensures step { StepByCall
            (λ u. LogPrepares self.old (B.state board.old) self.new (B.state board.new))
            (LogPrepareBreaks self.old (B.state board.old) (B.state board.new))
            self.old.shape 0 (B.state board.old) (B.state board.new) result }

        // What is unchanged in any case.
        ensures same_log { self.new ≡ record self.old { next = self.new.next } }
    {
        prepare_root(board, self.root.shape(), &mut self.installer)
    }

    /// Installs the root after a merge into this level, whose output, of `count` entries, is in
    /// these blocks: its first program is the one flash operation, and its second one is next. A
    /// merge into level 1 empties the frozen buffer. The map is the same wherever it is cut.
    /// `Stopped` if it fails; the log may not be used after that. `buf` has the size of a page and
    /// is overwritten.
    pub fn install_merge<B: Nand>(
        &mut self,
        board: &mut B,
        level: u8,
        count: u32,
        taken: &[u16],
        buf: &mut [u8],
    ) -> Result<(), Fault>
        // The board, an output that is complete, a first program that is next, and a page's bytes.
        requires ready { IsReady (B.state board.old) self.old.shape }
        requires programs { programs_next self.old.next ≡ true }
        requires may { (top : ℕ × RootValue) × (found : Found) × (m : Map)
            × MayMerge self.old (B.state board.old).pages top found m level count taken.now }
        requires room { length buf.old ≡ self.old.shape.page_bytes }

        // The root was installed, or the call failed.
        ensures step { StepByCall
            (λ u. LogMerges self.old (B.state board.old) level count taken.now self.new
            (B.state board.new))
            (LogMergeBreaks self.old (B.state board.old) level count taken.now (B.state board.new))
            self.old.shape 1 (B.state board.old) (B.state board.new) result }

        // What is unchanged in any case.
        ensures keeps { KeepsActive self.old self.new }
        ensures buffer { length buf.new ≡ length buf.old }
    {
        match install_merge(
            board,
            &mut self.root,
            &mut self.installer,
            level,
            count,
            taken,
            buf,
        ) {
            Ok(()) => {
                empty_merged(&mut self.frozen, level);
                Ok(())
            }
            Err(fault) => Err(fault),
        }
    }
}
