//! The first table of a flash, by which no spare is used.
ghost use Rattle.std.specs.Prelude.{◌≡◌, ◌≤◌, ◌<◌, length, OnOk, OnErr};
ghost use Rattle.pk_base.specs.Page.{IsPage};
ghost use Rattle.pk_nand.specs.BoardState.{BoardState};
ghost use Rattle.pk_nand.specs.Calls.{IsReady, after_program, ProgramFailed};
ghost use Rattle.pk_nand.specs.Operations.{InOrder};
ghost use Rattle.pk_remap.specs.declared.layout.TheConstants.{MOST_SPARES};
ghost use Rattle.pk_remap.specs.Newest.{first_table_page};
ghost use Rattle.pk_remap.specs.Places.{inner_shape};
ghost use Rattle.pk_remap.specs.Running.{HasPageBuffers};
ghost use Rattle.pk_remap.specs.FirstTable.{first_table_bytes, IsMade, IsHalfMade, FirstTableOutcome};

use crate::places::page_in;
use crate::relocation::Relocation;
use crate::steps::program_table;
use pk_nand::{Nand, NandFault};

impl Relocation {
    /// Writes the first table to the first pair of the first table block. All pages are Erased before.
    pub(crate) fn write_first_table<N: Nand>(&mut self, inner: &mut N) -> Result<(), NandFault>
        requires made { IsMade self.old.shape self.old.spares (N.state inner.old) }
        requires few { self.old.spares ≤ MOST_SPARES }
        requires none { self.old.taken ≡ 0 }
        requires room { HasPageBuffers self.old }
        ensures { FirstTableOutcome self.old (N.state inner.old) result self.new
            (N.state inner.new) }
    {
        self.shape.known();
        let page = page_in(&self.shape, self.shape.blocks() + self.spares as u32, 0);
        match self.program_empty(inner, page) {
            Ok(()) => self.program_again(inner, page),
            Err(_) => Err(NandFault),
        }
    }

    /// Programs it in the second page of the pair.
    fn program_again<N: Nand>(&mut self, inner: &mut N, page: u32) -> Result<(), NandFault>
        requires at { page ≡ first_table_page self.old.shape self.old.spares }
        requires half { (made : BoardState) × IsHalfMade self.old made (N.state inner.old) }
        requires few { self.old.spares ≤ MOST_SPARES }
        requires none { self.old.taken ≡ 0 }
        requires room { HasPageBuffers self.old }
        ensures { (made : BoardState) → IsHalfMade self.old made (N.state inner.old)
            → FirstTableOutcome self.old made result self.new (N.state inner.new) }
    {
        self.shape.known();
        match self.program_empty(inner, page + 1) {
            Ok(()) => {
                self.number = 1;
                self.used = 0;
                self.top = page;
                self.next = Some(page + 2);
                Ok(())
            }
            Err(_) => Err(NandFault),
        }
    }

    /// Programs a table page by which no spare is used.
    fn program_empty<N: Nand>(&mut self, inner: &mut N, page: u32) -> Result<(), NandFault>
        // The page of the inner flash, and the buffers.
        requires ready { IsReady (N.state inner.old) (inner_shape self.old.shape self.old.spares) }
        requires exists { page < length (N.state inner.old).pages }
        requires order { InOrder (inner_shape self.old.shape self.old.spares)
            (N.state inner.old).pages page }
        requires few { self.old.spares ≤ MOST_SPARES }
        requires room { HasPageBuffers self.old }

        // What is programmed.
        ensures full { IsPage self.old.shape (first_table_bytes self.old) }
        ensures ok { OnOk result (N.state inner.new
            ≡ after_program (N.state inner.old) page (first_table_bytes self.old)) }
        ensures err { OnErr result (ProgramFailed (N.state inner.old) (N.state inner.new) page
            (first_table_bytes self.old)) }

        // What of the work changed.
        ensures copy { self.new ≡ record self.old { copy = self.new.copy } }
        ensures room { HasPageBuffers self.new }
    {
        self.shape.known();
        program_table(
            inner,
            page,
            &self.shape,
            self.spares,
            1,
            &[],
            &mut self.copy,
        )
    }
}
