//! What a flash with spare blocks does with its pages, by calls of its inner flash.
ghost use Rattle.std.specs.Prelude.{◌≡◌, ◌+◌, ◌-◌, ◌<◌, ◌/◌, length, true, IfOk, OnOk, OnErr};
ghost use Rattle.pk_base.specs.Shape.{page_count};
ghost use Rattle.pk_base.specs.Page.{page_at, IsPage};
ghost use Rattle.pk_base.specs.Mark.{program, erase};
ghost use Rattle.pk_nand.specs.Calls.{Rose};
ghost use Rattle.pk_nand.specs.Effects.{OnlyReading};
ghost use Rattle.pk_nand.specs.Operations.{InOrder, filled};
ghost use Rattle.pk_nand.specs.Seen.{answer};
ghost use Rattle.pk_remap.specs.declared.image.Image.TheVariants.{Sure};
ghost use Rattle.pk_remap.specs.Serving.{outer_of, OuterOutcome};
ghost use Rattle.pk_remap.specs.Counting.{OuterCounts};
ghost use Rattle.pk_remap.specs.Remapped.{is_open as is_open_image, outer_pages, SameTaken};
ghost use Rattle.pk_remap.specs.Causes.{MarkMade};
ghost use Rattle.pk_remap.specs.MostCalls.{AtMostCalls, find_calls, CallsUnlessMoved, relocation_calls};

use crate::image::Image;
use crate::remap::Remap;
use pk_nand::{Nand, NandFault, PageRead};

impl<N: Nand> Remap<N> {
    /// The block of a page.
    pub(crate) fn block_of(&self, page: u32) -> u32
        ensures { result ≡ page / self.now.work.shape.block_pages }
    {
        self.work.shape.known();
        page / self.work.shape.block_pages()
    }

    /// Reads a page by the newest table.
    pub(crate) fn read_page(&mut self, page: u32, into: &mut [u8]) -> Result<PageRead, NandFault>
        // The page and the buffer.
        requires opened { is_open_image self.old.image ≡ true }
        requires inside { page < page_count self.old.work.shape }
        requires room { length into.old ≡ self.old.work.shape.page_bytes }

        // What is read.
        ensures found { IfOk result (λ r. r ≡ answer (page_at (outer_pages self.old.work.shape
            self.old.work.spares (N.state self.old.inner).pages) page)) }
        ensures bytes { OnOk result (into.new ≡ filled (page_at (outer_pages
            self.old.work.shape self.old.work.spares (N.state self.old.inner).pages) page)
            into.old) }
        ensures err { OnErr result (Rose (N.state self.old.inner).read_faults
            (N.state self.new.inner).read_faults) }

        // The calls of the inner flash.
        ensures reads { OnlyReading (N.state self.old.inner) (N.state self.new.inner) }
        ensures calls { AtMostCalls (find_calls self.old.image self.old.work.shape + 1)
            (N.state self.old.inner) (N.state self.new.inner) }

        // What is unchanged.
        ensures opened { is_open_image self.new.image ≡ true }
        ensures same { SameTaken self.old.work self.new.work }
        ensures log { self.new.log ≡ self.old.log }
        ensures counts { self.new.counts ≡ self.old.counts }
    {
        match self.find_table() {
            Ok(()) => self.work.read_outer(&mut self.inner, page, into),
            Err(_) => Err(NandFault),
        }
    }

    /// Programs a page by the newest table. After a failure nobody knows which table that is.
    pub(crate) fn program_page(&mut self, page: u32, bytes: &[u8]) -> Result<(), NandFault>
        // The page and its bytes.
        requires opened { is_open_image self.old.image ≡ true }
        requires inside { page < page_count self.old.work.shape }
        requires full { IsPage self.old.work.shape bytes.now }
        requires order { InOrder self.old.work.shape (outer_pages self.old.work.shape
            self.old.work.spares (N.state self.old.inner).pages) page }

        // The mark on the outer flash, and the calls of the inner one.
        ensures made { MarkMade self.old.work (program page bytes.now) (N.state self.old.inner)
            result self.new.work (N.state self.new.inner) }
        ensures calls { CallsUnlessMoved (find_calls self.old.image self.old.work.shape + 2)
            (relocation_calls self.old.work.shape (self.old.work.spares - self.old.work.taken))
            (N.state self.old.inner) (N.state self.new.inner) }

        // What is unchanged.
        ensures opened { is_open_image self.new.image ≡ true }
        ensures log { self.new.log ≡ self.old.log }
        ensures counts { self.new.counts ≡ self.old.counts }
    {
        match self.find_table() {
            Ok(()) => self.program_found(page, bytes),
            Err(_) => Err(NandFault),
        }
    }

    /// Programs a page by the newest table, which is in memory.
    fn program_found(&mut self, page: u32, bytes: &[u8]) -> Result<(), NandFault>
        // The page and its bytes.
        requires sure { self.old.image ≡ Sure }
        requires inside { page < page_count self.old.work.shape }
        requires full { IsPage self.old.work.shape bytes.now }
        requires order { InOrder self.old.work.shape (outer_of self.old.work
            (N.state self.old.inner).pages) page }

        // What became of the outer flash, and the calls of the inner one.
        ensures outcome { OuterOutcome self.old.work (program page bytes.now)
            (N.state self.old.inner) result self.new.work (N.state self.new.inner) }
        ensures taken { OuterCounts self.old.work (N.state self.old.inner) result self.new.work
            (N.state self.new.inner) }
        ensures calls { CallsUnlessMoved 2 (relocation_calls self.old.work.shape
            (self.old.work.spares - self.old.work.taken)) (N.state self.old.inner)
            (N.state self.new.inner) }

        // What is unchanged.
        ensures opened { is_open_image self.new.image ≡ true }
        ensures log { self.new.log ≡ self.old.log }
        ensures counts { self.new.counts ≡ self.old.counts }
    {
        self.image = Image::Unsure;
        match self.work.program_outer(&mut self.inner, page, bytes) {
            Ok(()) => {
                self.image = Image::Sure;
                Ok(())
            }
            Err(_) => Err(NandFault),
        }
    }

    /// Erases a block by the newest table. After a failure nobody knows which table that is.
    pub(crate) fn erase_block(&mut self, block: u32) -> Result<(), NandFault>
        // The block.
        requires opened { is_open_image self.old.image ≡ true }
        requires inside { block < self.old.work.shape.blocks }

        // The mark on the outer flash, and the calls of the inner one.
        ensures made { MarkMade self.old.work (erase block) (N.state self.old.inner) result
            self.new.work (N.state self.new.inner) }
        ensures calls { CallsUnlessMoved (find_calls self.old.image self.old.work.shape + 1)
            (relocation_calls self.old.work.shape (self.old.work.spares - self.old.work.taken))
            (N.state self.old.inner) (N.state self.new.inner) }

        // What is unchanged.
        ensures opened { is_open_image self.new.image ≡ true }
        ensures log { self.new.log ≡ self.old.log }
        ensures counts { self.new.counts ≡ self.old.counts }
    {
        match self.find_table() {
            Ok(()) => self.erase_found(block),
            Err(_) => Err(NandFault),
        }
    }

    /// Erases a block by the newest table, which is in memory.
    fn erase_found(&mut self, block: u32) -> Result<(), NandFault>
        // The block.
        requires sure { self.old.image ≡ Sure }
        requires inside { block < self.old.work.shape.blocks }

        // What became of the outer flash, and the calls of the inner one.
        ensures outcome { OuterOutcome self.old.work (erase block) (N.state self.old.inner) result
            self.new.work (N.state self.new.inner) }
        ensures taken { OuterCounts self.old.work (N.state self.old.inner) result self.new.work
            (N.state self.new.inner) }
        ensures calls { CallsUnlessMoved 1 (relocation_calls self.old.work.shape
            (self.old.work.spares - self.old.work.taken)) (N.state self.old.inner)
            (N.state self.new.inner) }

        // What is unchanged.
        ensures opened { is_open_image self.new.image ≡ true }
        ensures log { self.new.log ≡ self.old.log }
        ensures counts { self.new.counts ≡ self.old.counts }
    {
        self.image = Image::Unsure;
        match self.work.erase_outer(&mut self.inner, block) {
            Ok(()) => {
                self.image = Image::Sure;
                Ok(())
            }
            Err(_) => Err(NandFault),
        }
    }
}
