//! A flash with spare blocks is a flash. Its causes: what of the inner flash, and of the log's room, makes a call fail.
ghost use Rattle.std.specs.Prelude.{◌≡◌, ◌≢◌, ◌≤◌, ◌<◌, ◌+◌, ◌⊎◌, ◌∷◌, [], ℕ, length, true, false, IsSome, IfOk, OnOk, OnErr, Ok, Err, Some};
ghost use Rattle.pk_base.specs.Shape as spec;
ghost use Rattle.pk_base.specs.Page.{page_at};
ghost use Rattle.pk_base.specs.Mark.{program, erase};
ghost use Rattle.pk_nand.specs.BoardState.{shape_of};
ghost use Rattle.pk_nand.specs.Seen.{answer};
ghost use Rattle.pk_nand.specs.Calls.{Rose, IsReady, longer, after_program, ProgramFailed, Loaded, LoadFailed, Made, MakeFailed};
ghost use Rattle.pk_nand.specs.Effects.{OnlyReading};
ghost use Rattle.pk_nand.specs.Operations.{filled, InOrder, after_read, after_erase, EraseFailed, ReadFailed};
ghost use Rattle.pk_nand.specs.declared.types.LoadFault.{LoadFault};
ghost use Rattle.pk_remap.specs.Through.{through, MayShow};
ghost use Rattle.pk_remap.specs.Serving.{PassesCalls};
ghost use Rattle.pk_remap.specs.Logged.{HasLogRoom};
ghost use Rattle.pk_remap.specs.Remapped.{remap_board, is_open as is_open_image, spares_left as spares_left_of};
ghost use Rattle.pk_remap.specs.Causes.{LoadCause, MakeCause, StopCause, SparesFallBy, IsRefused};
ghost use Rattle.pk_remap.specs.Loading.{LoadsInner, HoldsOuter, OpensOuter, MakesInner};
ghost use Rattle.pk_remap.specs.MostCalls.{AtMostCalls, find_calls, CallsUnlessMoved, relocation_calls};

use crate::image::Image;
use crate::remap::Remap;
use crate::shapes::inner_shape;
use pk_base::Shape;
use pk_nand::{LoadFault, Nand, NandFault, PageRead, raise};
use std::alloc::Global;

impl<N: Nand> Nand for Remap<N> {
    ghost state = { λ r. remap_board r.image r.work r.log r.counts (N.state r.inner) };

    fn load(&mut self, alloc: Global) -> Result<Option<Shape>, LoadFault>
        // As the trait has it.
        ensures ok { IfOk result (Loaded (⟦<Remap<N> as Nand>⟧.state self.old)
            (⟦<Remap<N> as Nand>⟧.state self.new)) }
        ensures err { OnErr result (LoadFailed (⟦<Remap<N> as Nand>⟧.state self.old)
            (⟦<Remap<N> as Nand>⟧.state self.new)) }
        ensures fault { result ≡ Err LoadFault.Fault
            → Rose (⟦<Remap<N> as Nand>⟧.state self.old).flash_faults
            (⟦<Remap<N> as Nand>⟧.state self.new).flash_faults }
        ensures no_fault { result ≢ Err LoadFault.Fault
            → (⟦<Remap<N> as Nand>⟧.state self.new).flash_faults
            ≡ (⟦<Remap<N> as Nand>⟧.state self.old).flash_faults }
        ensures ready { (shape : spec.Shape)
            → (⟦<Remap<N> as Nand>⟧.state self.new).shape ≡ Some shape
            → IsReady (⟦<Remap<N> as Nand>⟧.state self.new) shape }
        ensures bad { (at : ℕ) → result ≡ Err (LoadFault.BadImage at)
            → (⟦<Remap<N> as Nand>⟧.state self.new).bad ≡ Some at }
        ensures held { IsSome (⟦<Remap<N> as Nand>⟧.state self.old).shape → (at : ℕ)
            → result ≢ Err (LoadFault.BadImage at) }

        // If the shape was known it is the answer, and else the inner flash decides: it is loaded,
        // and then only read. If it holds an outer flash, this is what the load shows.
        ensures known { is_open_image self.old.image ≡ true
            → (result ≡ Ok (Some self.old.work.shape)) × (self.new.inner ≡ self.old.inner) }
        ensures cause { is_open_image self.old.image ≡ false → LoadCause self.old.work.spares
            (N.state self.old.inner) result (spares_left_of self.new.image self.new.work)
            (N.state self.new.inner) }
        ensures reads { is_open_image self.old.image ≡ false
            → LoadsInner (N.state self.old.inner) result (N.state self.new.inner) }
        ensures opens { is_open_image self.old.image ≡ false → (shape : spec.Shape)
            → HoldsOuter self.old.work.spares shape (N.state self.old.inner)
            → OpensOuter self.old.work.spares shape (N.state self.old.inner)
            (⟦<Remap<N> as Nand>⟧.state self.old) result (⟦<Remap<N> as Nand>⟧.state self.new) }
        ensures spares { self.new.work.spares ≡ self.old.work.spares }
        ensures left { spares_left_of self.old.image self.old.work
            ≤ spares_left_of self.new.image self.new.work }
    {
        self.counts.bad = None;
        if self.is_open() {
            Ok(Some(self.work.shape))
        } else {
            self.image = Image::Unknown;
            self.load_inner(alloc)
        }
    }

    fn make(&mut self, alloc: Global, shape: Shape) -> Result<(), LoadFault>
        requires { (⟦<Remap<N> as Nand>⟧.state self.old).bare ≡ true }

        // As the trait has it.
        ensures ok { OnOk result (Made (⟦<Remap<N> as Nand>⟧.state self.old)
            (⟦<Remap<N> as Nand>⟧.state self.new) shape) }
        ensures err { OnErr result (MakeFailed (⟦<Remap<N> as Nand>⟧.state self.old)
            (⟦<Remap<N> as Nand>⟧.state self.new)) }
        ensures fault { result ≡ Err LoadFault.Fault
            → Rose (⟦<Remap<N> as Nand>⟧.state self.old).flash_faults
            (⟦<Remap<N> as Nand>⟧.state self.new).flash_faults }
        ensures no_fault { result ≢ Err LoadFault.Fault
            → (⟦<Remap<N> as Nand>⟧.state self.new).flash_faults
            ≡ (⟦<Remap<N> as Nand>⟧.state self.old).flash_faults }
        ensures ready { (own : spec.Shape) → (⟦<Remap<N> as Nand>⟧.state self.new).shape ≡ Some own
            → IsReady (⟦<Remap<N> as Nand>⟧.state self.new) own }
        ensures bad { (at : ℕ) → result ≢ Err (LoadFault.BadImage at) }

        // What of the inner flash makes it fail, and what its cuts leave.
        ensures cause { MakeCause self.old.work.spares shape (N.state self.old.inner) result
            (spares_left_of self.new.image self.new.work) (N.state self.new.inner) }
        ensures cuts { MakesInner self.old.work.spares shape (N.state self.old.inner)
            (N.state self.new.inner) }
        ensures spares { self.new.work.spares ≡ self.old.work.spares }
    {
        match inner_shape(&shape, self.work.spares) {
            Ok(inner) => self.make_inner(alloc, shape, inner),
            Err(_) => Err(self.refuse(LoadFault::Fault)),
        }
    }

    fn read(&mut self, page: u32, into: &mut [u8]) -> Result<PageRead, NandFault>
        requires exists { page < length (⟦<Remap<N> as Nand>⟧.state self.old).pages }
        requires room { length into.old
            ≡ (shape_of (⟦<Remap<N> as Nand>⟧.state self.old)).page_bytes }

        // As the trait has it.
        ensures found { IfOk result
            (λ r. r ≡ answer (page_at (⟦<Remap<N> as Nand>⟧.state self.old).pages page)) }
        ensures bytes { OnOk result
            (into.new ≡ filled (page_at (⟦<Remap<N> as Nand>⟧.state self.old).pages page)
            into.old) }
        ensures ok { OnOk result (⟦<Remap<N> as Nand>⟧.state self.new
            ≡ after_read (⟦<Remap<N> as Nand>⟧.state self.old)) }
        ensures err { OnErr result (ReadFailed (⟦<Remap<N> as Nand>⟧.state self.old)
            (⟦<Remap<N> as Nand>⟧.state self.new) page) }

        // What of the inner flash makes it fail; that is only read, and no spare is taken.
        ensures cause { OnErr result (Rose (N.state self.old.inner).read_faults
            (N.state self.new.inner).read_faults) }
        ensures only_reads { OnlyReading (N.state self.old.inner) (N.state self.new.inner) }
        ensures calls { AtMostCalls (find_calls self.old.image self.old.work.shape + 1)
            (N.state self.old.inner) (N.state self.new.inner) }
        ensures spares { self.new.work.spares ≡ self.old.work.spares }
        ensures left { spares_left_of self.new.image self.new.work
            ≡ spares_left_of self.old.image self.old.work }
    {
        raise(&mut self.counts.reads);
        match self.read_page(page, into) {
            Ok(found) => Ok(found),
            Err(_) => {
                let block = self.block_of(page);
                self.counts.read_failed(block);
                Err(NandFault)
            }
        }
    }

    fn program(&mut self, page: u32, bytes: &[u8]) -> Result<(), NandFault>
        requires exists { page < length (⟦<Remap<N> as Nand>⟧.state self.old).pages }
        requires full { length bytes.now
            ≡ (shape_of (⟦<Remap<N> as Nand>⟧.state self.old)).page_bytes }
        requires order { InOrder (shape_of (⟦<Remap<N> as Nand>⟧.state self.old))
            (⟦<Remap<N> as Nand>⟧.state self.old).pages page }

        // As the trait has it.
        ensures ok { OnOk result (⟦<Remap<N> as Nand>⟧.state self.new
            ≡ after_program (⟦<Remap<N> as Nand>⟧.state self.old) page bytes.now) }
        ensures err { OnErr result (ProgramFailed (⟦<Remap<N> as Nand>⟧.state self.old)
            (⟦<Remap<N> as Nand>⟧.state self.new) page bytes.now) }

        // At each cut of the calls of the inner flash the outer flash is what this call may leave.
        ensures passes { PassesCalls (MayShow self.old.work.shape self.old.work.spares
            (⟦<Remap<N> as Nand>⟧.state self.old).pages (program page bytes.now))
            (N.state self.old.inner) (N.state self.new.inner) }
        ensures calls { CallsUnlessMoved (find_calls self.old.image self.old.work.shape + 2)
            (relocation_calls self.old.work.shape (spares_left_of self.old.image self.old.work))
            (N.state self.old.inner) (N.state self.new.inner) }
        ensures spares { self.new.work.spares ≡ self.old.work.spares }

        ensures shown { OnOk result (through self.old.work.shape self.old.work.spares
            (N.state self.new.inner).pages ≡ Some (⟦<Remap<N> as Nand>⟧.state self.new).pages) }
        ensures noted { OnErr result (IsRefused self.old.log (length bytes.now)
            (N.state self.old.inner) (N.state self.new.inner)
            ⊎ (⟦<Remap<N> as Nand>⟧.state self.new).trail
            ≡ longer (⟦<Remap<N> as Nand>⟧.state self.old).trail
            (program page bytes.now ∷ [])) }

        // What of the inner flash, or of the log's room, makes it fail; and how many spares are left.
        ensures fits { OnOk result (HasLogRoom self.old.log (length bytes.now)) }
        ensures cause { OnErr result (IsRefused self.old.log (length bytes.now)
            (N.state self.old.inner)
            (N.state self.new.inner) ⊎ StopCause self.old.work.shape self.old.work.spares
            (program page bytes.now) (N.state self.old.inner)
            (spares_left_of self.new.image self.new.work) (N.state self.new.inner)) }
        ensures left { SparesFallBy (spares_left_of self.old.image self.old.work)
            (N.state self.old.inner) (spares_left_of self.new.image self.new.work)
            (N.state self.new.inner) }
    {
        raise(&mut self.counts.programs);
        let block = self.block_of(page);
        if self.log.has_room(bytes.len()) {
            self.program_noted(page, bytes, block)
        } else {
            self.counts.stop_failed(block);
            Err(NandFault)
        }
    }

    fn erase(&mut self, block: u32) -> Result<(), NandFault>
        requires { block < (shape_of (⟦<Remap<N> as Nand>⟧.state self.old)).blocks }

        // As the trait has it.
        ensures ok { OnOk result (⟦<Remap<N> as Nand>⟧.state self.new
            ≡ after_erase (⟦<Remap<N> as Nand>⟧.state self.old) block) }
        ensures err { OnErr result (EraseFailed (⟦<Remap<N> as Nand>⟧.state self.old)
            (⟦<Remap<N> as Nand>⟧.state self.new) block) }

        // At each cut of the calls of the inner flash the outer flash is what this call may leave.
        ensures passes { PassesCalls (MayShow self.old.work.shape self.old.work.spares
            (⟦<Remap<N> as Nand>⟧.state self.old).pages (erase block)) (N.state self.old.inner)
            (N.state self.new.inner) }
        ensures calls { CallsUnlessMoved (find_calls self.old.image self.old.work.shape + 1)
            (relocation_calls self.old.work.shape (spares_left_of self.old.image self.old.work))
            (N.state self.old.inner) (N.state self.new.inner) }
        ensures spares { self.new.work.spares ≡ self.old.work.spares }

        ensures shown { OnOk result (through self.old.work.shape self.old.work.spares
            (N.state self.new.inner).pages ≡ Some (⟦<Remap<N> as Nand>⟧.state self.new).pages) }
        ensures noted { OnErr result (IsRefused self.old.log 0 (N.state self.old.inner)
            (N.state self.new.inner) ⊎ (⟦<Remap<N> as Nand>⟧.state self.new).trail
            ≡ longer (⟦<Remap<N> as Nand>⟧.state self.old).trail (erase block ∷ [])) }

        // What of the inner flash, or of the log's room, makes it fail; and how many spares are left.
        ensures fits { OnOk result (HasLogRoom self.old.log 0) }
        ensures cause { OnErr result (IsRefused self.old.log 0 (N.state self.old.inner)
            (N.state self.new.inner) ⊎ StopCause self.old.work.shape self.old.work.spares
            (erase block) (N.state self.old.inner) (spares_left_of self.new.image self.new.work)
            (N.state self.new.inner)) }
        ensures left { SparesFallBy (spares_left_of self.old.image self.old.work)
            (N.state self.old.inner) (spares_left_of self.new.image self.new.work)
            (N.state self.new.inner) }
    {
        raise(&mut self.counts.erases);
        if self.log.has_room(0) {
            self.erase_noted(block)
        } else {
            self.counts.stop_failed(block);
            Err(NandFault)
        }
    }

    fn read_count(&self) -> u64 {
        // so that these counts are known to be of 64 bits
        let _read_faults = self.counts.read_faults;
        let _flash_faults = self.counts.flash_faults;
        let _stop_faults = self.counts.stop_faults;
        self.counts.reads
    }
}
