//! Calls of the outer flash that a relocation serves, from its first step to its last.
ghost use Rattle.pk_base.specs.Page.{Flash, page_at, IsPage};
ghost use Rattle.std.specs.Prelude.{◌≡◌, ◌-◌, ◌*◌, ◌<◌, ◌≤◌, length, take, max, true, IfOk, OnOk, OnErr};
ghost use Rattle.pk_base.specs.Mark.{program, erase};
ghost use Rattle.pk_base.specs.Shape.{page_count};
ghost use Rattle.pk_nand.specs.Calls.{IsReady};
ghost use Rattle.pk_nand.specs.Operations.{InOrder, filled, after_read, ReadFailed};
ghost use Rattle.pk_nand.specs.Counts.{after_reads};
ghost use Rattle.pk_remap.specs.Newest.{newest_table};
ghost use Rattle.pk_remap.specs.Searched.{table_found, UsesAtMost};
ghost use Rattle.pk_nand.specs.Seen.{answer};
ghost use Rattle.pk_remap.specs.declared.layout.TheConstants.{MOST_SPARES};
ghost use Rattle.pk_remap.specs.Places.{inner_shape, placed_page};
ghost use Rattle.pk_remap.specs.Counting.{SearchFailed, UsesOnlyTaken, ServeCounts, OuterCounts};
ghost use Rattle.pk_remap.specs.Running.{relocation_of, RelocationRuns, IsAtRest, relocation_steps_left};
ghost use Rattle.pk_remap.specs.MostCalls.{AtMostCalls, CallsUnlessMoved, relocation_calls};
ghost use Rattle.pk_remap.specs.Serving.{outer_of, HasPartner, PartnerOutcome, CanFind, FindOutcome, found_top, RelocationServes, OuterOutcome};

use crate::phase::Phase;
use crate::places::{page_in, place};
use crate::relocation::{Call, Relocation};
use crate::search::newest;
use crate::steps::read_into;
use crate::top::Top;
use pk_base::Shape;
use pk_nand::{Nand, NandFault, PageRead};

impl Relocation {
    /// Searches for the newest table of the inner flash, and takes it into memory. The answer is whether there is one.
    pub fn find<N: Nand>(&mut self, inner: &mut N) -> Result<bool, NandFault>
        requires { CanFind self.old (N.state inner.old) }
        ensures found { FindOutcome self.old (N.state inner.old) result self.new
            (N.state inner.new) }
        ensures taken { UsesOnlyTaken self.old (N.state inner.old).pages
            → self.new.taken ≡ self.old.taken }
        ensures most { IfOk result (λ found. found ≡ true
            → self.new.taken ≡ max self.old.taken self.new.used) }
        ensures calls { AtMostCalls (2 * self.old.shape.block_pages) (N.state inner.old)
            (N.state inner.new) }
    {
        match newest_by(
            inner,
            &self.shape,
            self.spares,
            &mut self.serves,
            &mut self.copy,
        ) {
            Ok(Some(top)) => {
                self.take_found(top);
                Ok(true)
            }
            Ok(None) => Ok(false),
            Err(_) => Err(NandFault),
        }
    }

    /// Takes the newest table that was found.
    fn take_found(&mut self, top: Top)
        requires { top.used ≤ MOST_SPARES }
        ensures { self.new ≡ found_top self.old top }
    {
        self.number = top.number;
        self.used = top.used;
        self.top = top.page;
        self.next = None;
        if (self.taken as usize) < top.used {
            self.taken = top.used as u16;
        }
    }

    /// The inner page of a page of the outer flash.
    fn inner_page(&self, page: u32) -> u32
        requires inside { page < page_count self.now.shape }
        requires used { self.now.used ≤ MOST_SPARES }
        requires all { length self.now.serves ≡ MOST_SPARES }
        ensures { result ≡ placed_page self.now.shape (relocation_of self.now).table page }
    {
        self.shape.known();
        let pages = self.shape.block_pages();
        let block = place(&self.shape, &self.serves[..self.used], page / pages);
        page_in(&self.shape, block, page % pages)
    }

    /// Reads a page of the outer flash.
    pub fn read_outer<N: Nand>(
        &self,
        inner: &mut N,
        page: u32,
        into: &mut [u8],
    ) -> Result<PageRead, NandFault>
        // The page and the buffer.
        requires rests { IsAtRest self.now (N.state inner.old) }
        requires inside { page < page_count self.now.shape }
        requires room { length into.old ≡ self.now.shape.page_bytes }

        // What is read.
        ensures found { IfOk result (λ r. r
            ≡ answer (page_at (outer_of self.now (N.state inner.old).pages) page)) }
        ensures bytes { OnOk result (into.new
            ≡ filled (page_at (outer_of self.now (N.state inner.old).pages) page) into.old) }

        // The read of the inner flash.
        ensures ok { OnOk result (N.state inner.new ≡ after_read (N.state inner.old)) }
        ensures err { OnErr result (ReadFailed (N.state inner.old) (N.state inner.new)
            (placed_page self.now.shape (relocation_of self.now).table page)) }
    {
        inner.read(self.inner_page(page), into)
    }

    /// Reads the first page of a pair into memory, if this page is the second one: a relocation needs its bytes if the program of this page
    /// fails, which may tear the first page.
    fn keep_partner<N: Nand>(&mut self, inner: &mut N, page: u32) -> Result<(), NandFault>
        requires rests { IsAtRest self.old (N.state inner.old) }
        requires inside { page < page_count self.old.shape }
        ensures { PartnerOutcome self.old page (N.state inner.old) result self.new
            (N.state inner.new) }
    {
        self.shape.known();
        self.kept = false;
        if page % self.shape.block_pages() % 2 == 0 {
            return Ok(());
        }
        let size = self.shape.page_bytes() as usize;
        let at = self.inner_page(page - 1);
        match read_into(inner, at, size, &mut self.partner) {
            Ok(PageRead::Whole) => {
                self.kept = true;
                Ok(())
            }
            Ok(PageRead::Erased) => Ok(()),
            Ok(PageRead::Torn) => Ok(()),
            Err(_) => Err(NandFault),
        }
    }

    /// Programs a page of the outer flash, with the first page of its pair in memory meanwhile. If a spare block remains, a relocation serves a
    /// call that failed.
    pub fn program_outer<N: Nand>(
        &mut self,
        inner: &mut N,
        page: u32,
        bytes: &[u8],
    ) -> Result<(), NandFault>
        // The page and its bytes.
        requires rests { IsAtRest self.old (N.state inner.old) }
        requires inside { page < page_count self.old.shape }
        requires full { IsPage self.old.shape bytes.now }
        requires order { InOrder self.old.shape (outer_of self.old (N.state inner.old).pages) page }

        // What became of the outer flash, and the calls of the inner one.
        ensures outcome { OuterOutcome self.old (program page bytes.now) (N.state inner.old) result
            self.new (N.state inner.new) }
        ensures counts { OuterCounts self.old (N.state inner.old) result self.new
            (N.state inner.new) }
        ensures calls { CallsUnlessMoved 2 (relocation_calls self.old.shape
            (self.old.spares - self.old.taken)) (N.state inner.old) (N.state inner.new) }
    {
        match self.keep_partner(inner, page) {
            Ok(()) => self.program_with_partner(inner, page, bytes),
            Err(_) => Err(NandFault),
        }
    }

    /// Programs a page of the outer flash. If a spare block remains, a relocation serves a call that failed.
    fn program_with_partner<N: Nand>(
        &mut self,
        inner: &mut N,
        page: u32,
        bytes: &[u8],
    ) -> Result<(), NandFault>
        // The page, its bytes, and the other page of its pair.
        requires rests { IsAtRest self.old (N.state inner.old) }
        requires inside { page < page_count self.old.shape }
        requires full { IsPage self.old.shape bytes.now }
        requires order { InOrder self.old.shape (outer_of self.old (N.state inner.old).pages) page }
        requires partner { HasPartner self.old page (outer_of self.old (N.state inner.old).pages) }

        // What became of the outer flash, and the calls of the inner one.
        ensures outcome { OuterOutcome self.old (program page bytes.now) (N.state inner.old) result
            self.new (N.state inner.new) }
        ensures counts { OuterCounts self.old (N.state inner.old) result self.new
            (N.state inner.new) }
        ensures calls { CallsUnlessMoved 1 (relocation_calls self.old.shape
            (self.old.spares - self.old.taken)) (N.state inner.old) (N.state inner.new) }
    {
        let at = self.inner_page(page);
        match inner.program(at, bytes) {
            Ok(()) => Ok(()),
            Err(_) => {
                if self.taken < self.spares {
                    self.call = Call::Program { page };
                    self.phase = Phase::EraseSpare;
                    put_front(&mut self.bytes, bytes);
                    self.serve(inner)
                } else {
                    Err(NandFault)
                }
            }
        }
    }

    /// Erases a block of the outer flash. If a spare block remains, a relocation serves a call that failed.
    pub fn erase_outer<N: Nand>(&mut self, inner: &mut N, block: u32) -> Result<(), NandFault>
        requires rests { IsAtRest self.old (N.state inner.old) }
        requires inside { block < self.old.shape.blocks }
        ensures outcome { OuterOutcome self.old (erase block) (N.state inner.old) result
            self.new (N.state inner.new) }
        ensures counts { OuterCounts self.old (N.state inner.old) result self.new
            (N.state inner.new) }
        ensures calls { CallsUnlessMoved 1 (relocation_calls self.old.shape
            (self.old.spares - self.old.taken)) (N.state inner.old) (N.state inner.new) }
    {
        self.shape.known();
        let at = place(&self.shape, &self.serves[..self.used], block);
        match inner.erase(at) {
            Ok(()) => Ok(()),
            Err(_) => {
                if self.taken < self.spares {
                    self.call = Call::Erase { block };
                    self.kept = false;
                    self.phase = Phase::EraseSpare;
                    self.serve(inner)
                } else {
                    Err(NandFault)
                }
            }
        }
    }

    /// Makes the steps of a relocation that was begun, to the last one. If one stops, the outer flash is what the call that is served may
    /// leave.
    fn serve<N: Nand>(&mut self, inner: &mut N) -> Result<(), NandFault>
        requires { (before : Flash) × RelocationRuns self.old before (N.state inner.old) }
        ensures serves { RelocationServes self.old (N.state inner.old) result self.new
            (N.state inner.new) }
        ensures counts { ServeCounts self.old (N.state inner.old) result self.new
            (N.state inner.new) }
        ensures calls { AtMostCalls (relocation_steps_left self.old) (N.state inner.old)
            (N.state inner.new) }
    {
        loop {
            match self.step(inner) {
                Ok(true) => return Ok(()),
                Ok(false) => {}
                Err(_) => return Err(NandFault),
            }
        }
    }
}

/// Finds the newest table of a flash, with the first bytes of a buffer for its pages.
fn newest_by<N: Nand>(
    inner: &mut N,
    shape: &Shape,
    spares: u16,
    serves: &mut [u16],
    buffer: &mut [u8],
) -> Result<Option<Top>, NandFault>
    // The inner flash and the buffers.
    requires ready { IsReady (N.state inner.old) (inner_shape shape.now spares) }
    requires few { spares ≤ MOST_SPARES }
    requires all { length serves.old ≡ MOST_SPARES }
    requires room { shape.now.page_bytes ≤ length buffer.old }

    // The newest table.
    ensures found { IfOk result
        (λ r. newest_table shape.now spares (page_at (N.state inner.old).pages)
        ≡ table_found r serves.new) }
    ensures few { IfOk result (λ r. UsesAtMost spares r) }

    // The calls of the inner flash.
    ensures ok { OnOk result (N.state inner.new
        ≡ after_reads (2 * shape.now.block_pages) (N.state inner.old)) }
    ensures err { OnErr result (SearchFailed (N.state inner.old) (N.state inner.new)) }
    ensures calls { AtMostCalls (2 * shape.now.block_pages) (N.state inner.old)
        (N.state inner.new) }

    // What is unchanged.
    ensures all { length serves.new ≡ length serves.old }
    ensures len { length buffer.new ≡ length buffer.old }
{
    let size = shape.page_bytes() as usize;
    newest(inner, shape, spares, serves, &mut buffer[..size])
}

/// Copies bytes to the first places of a buffer.
fn put_front(buffer: &mut [u8], bytes: &[u8])
    requires { length bytes.now ≤ length buffer.old }
    ensures front { take (length bytes.now) buffer.new ≡ bytes.now }
    ensures len { length buffer.new ≡ length buffer.old }
{
    buffer[..bytes.len()].copy_from_slice(bytes);
}
