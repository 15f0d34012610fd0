//! Programs and erases of a flash with spare blocks, with their marks and their faults.
ghost use Rattle.std.specs.Prelude.{◌≡◌, ◌+◌, ◌-◌, ◌<◌, ◌∷◌, [], length, true, OnOk, OnErr};
ghost use Rattle.pk_base.specs.Shape.{page_count};
ghost use Rattle.pk_base.specs.Page.{IsPage};
ghost use Rattle.pk_base.specs.Mark.{program, erase};
ghost use Rattle.pk_nand.specs.Calls.{longer};
ghost use Rattle.pk_nand.specs.Operations.{InOrder};
ghost use Rattle.pk_remap.specs.Logged.{told, HasLogRoom};
ghost use Rattle.pk_remap.specs.Remapped.{is_open as is_open_image, outer_pages, with_stop};
ghost use Rattle.pk_remap.specs.Causes.{MarkMade};
ghost use Rattle.pk_remap.specs.MostCalls.{find_calls, CallsUnlessMoved, relocation_calls};

use crate::remap::Remap;
use pk_nand::{Nand, NandFault};

impl<N: Nand> Remap<N> {
    /// Programs a page in this block. The mark is noted whether it is done or fails, and a fault is counted.
    pub(crate) fn program_noted(
        &mut self,
        page: u32,
        bytes: &[u8],
        block: u32,
    ) -> Result<(), NandFault>
        // The page and its bytes.
        requires opened { is_open_image self.old.image ≡ true }
        requires inside { page < page_count self.old.work.shape }
        requires full { IsPage self.old.work.shape bytes.now }
        requires order { InOrder self.old.work.shape (outer_pages self.old.work.shape
            self.old.work.spares (N.state self.old.inner).pages) page }
        requires room { HasLogRoom self.old.log (length bytes.now) }

        // The mark on the outer flash, and the calls of the inner one.
        ensures made { MarkMade self.old.work (program page bytes.now) (N.state self.old.inner)
            result self.new.work (N.state self.new.inner) }
        ensures calls { CallsUnlessMoved (find_calls self.old.image self.old.work.shape + 2)
            (relocation_calls self.old.work.shape (self.old.work.spares - self.old.work.taken))
            (N.state self.old.inner) (N.state self.new.inner) }

        // What is noted of it.
        ensures opened { is_open_image self.new.image ≡ true }
        ensures told { told self.new.log
            ≡ longer (told self.old.log) (program page bytes.now ∷ []) }
        ensures ok { OnOk result (self.new.counts ≡ self.old.counts) }
        ensures err { OnErr result (self.new.counts ≡ with_stop block self.old.counts) }
    {
        self.log.note_program(page, bytes);
        match self.program_page(page, bytes) {
            Ok(()) => Ok(()),
            Err(_) => {
                self.counts.stop_failed(block);
                Err(NandFault)
            }
        }
    }

    /// Erases a block. The mark is noted whether it is done or fails, and a fault is counted.
    pub(crate) fn erase_noted(&mut self, block: u32) -> Result<(), NandFault>
        // The block.
        requires opened { is_open_image self.old.image ≡ true }
        requires inside { block < self.old.work.shape.blocks }
        requires room { HasLogRoom self.old.log 0 }

        // The mark on the outer flash, and the calls of the inner one.
        ensures made { MarkMade self.old.work (erase block) (N.state self.old.inner) result
            self.new.work (N.state self.new.inner) }
        ensures calls { CallsUnlessMoved (find_calls self.old.image self.old.work.shape + 1)
            (relocation_calls self.old.work.shape (self.old.work.spares - self.old.work.taken))
            (N.state self.old.inner) (N.state self.new.inner) }

        // What is noted of it.
        ensures opened { is_open_image self.new.image ≡ true }
        ensures told { told self.new.log ≡ longer (told self.old.log) (erase block ∷ []) }
        ensures ok { OnOk result (self.new.counts ≡ self.old.counts) }
        ensures err { OnErr result (self.new.counts ≡ with_stop block self.old.counts) }
    {
        self.log.note_erase(block);
        match self.erase_block(block) {
            Ok(()) => Ok(()),
            Err(_) => {
                self.counts.stop_failed(block);
                Err(NandFault)
            }
        }
    }
}
