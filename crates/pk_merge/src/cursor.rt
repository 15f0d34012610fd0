//! A place among the entries of a run, which goes forward.
ghost use Rattle.std.specs.Prelude.{◌≡◌, suc, ◌<◌, ◌^◌, List, false, slice_get, Some, IfOk, IfErr, OnOk, OnErr};
ghost use Rattle.pk_base.specs.Shape.{IsShape};
ghost use Rattle.pk_base.specs.Entry.{Entry as EntrySpec};
ghost use Rattle.pk_base.specs.Page.{Flash};
ghost use Rattle.pk_base.specs.EntryBytes.{entry_at};
ghost use Rattle.pk_meta.specs.Cells.{IsCell};
ghost use Rattle.pk_nand.specs.Calls.{IsReady};
ghost use Rattle.pk_nand.specs.declared.types.Fault.TheVariants.{Reading};
ghost use Rattle.pk_pin.specs.Frames.{Frames};
ghost use Rattle.pk_run.specs.Kept.{RunOnFlash};
ghost use Rattle.pk_merge.specs.Cursors.{Follows, at_start, passed, own_cell, wants_page, MayLoad, Loads, FailsToLoad};

use pk_base::Shape;
use pk_meta::cell;
use pk_nand::{Fault, Nand};
use pk_pin::PinArena;
use pk_run::Run;
use std::alloc::{AllocError, Allocator};
use std::marker::Model;

/// How many entries are before the place, how many pages of the run were reached, and the bytes of
/// the last of them.
#[derive(Drop)]
pub struct Cursor<A: Allocator> {
    shape: Shape,
    place: u32,
    loaded: u32,
    page: Vec<u8, A>,
}

impl<A: Allocator> Model for Cursor<A> {
    ghost use Rattle.std.specs.Prelude.{◌≡◌, length};
    ghost use Rattle.pk_merge.specs.Cursors as spec;

    ghost Value = { spec.Cursor };

    ghost view = { λ c. record {
      shape = c.shape;
      place = c.place;
      loaded = c.loaded;
      bytes = c.page.items;
    } };

    ghost invariant = { λ c. length c.page.items ≡ c.shape.page_bytes };
}

impl<A: Allocator> Cursor<A> {
    /// A cursor before all entries. Its memory, a page's bytes, is taken here.
    pub fn new(alloc: A, shape: Shape) -> Result<Cursor<A>, AllocError>
        ensures shape { IfOk result (λ c. c.shape ≡ shape) }
        ensures start { IfOk result (λ c. c ≡ at_start c) }
    {
        let page = Vec::from_elem(alloc, 0u8, shape.page_bytes() as usize)?;
        Ok(Cursor {
            shape,
            place: 0,
            loaded: 0,
            page,
        })
    }

    /// Goes back before all entries.
    pub fn restart(&mut self)
        ensures { self.new ≡ at_start self.old }
    {
        self.place = 0;
        self.loaded = 0;
    }

    /// Does nothing: brings the invariant of the cursor into a proof.
    pub fn known(&self)
        ensures { IsShape self.now.shape }
    {
        self.shape.known();
    }

    /// How many entries are before the place.
    pub fn place(&self) -> u32
        ensures { result ≡ self.now.place }
    {
        self.place
    }

    /// Moves past the entry at the place.
    pub fn pass(&mut self)
        requires { suc self.old.place < 2 ^ 32 }
        ensures { self.new ≡ passed self.old }
    {
        self.place += 1;
    }

    /// Whether the page of the place is not loaded.
    pub fn wants_page(&self) -> bool
        ensures { result ≡ wants_page self.now }
    {
        self.shape.known();
        self.loaded <= self.place / self.shape.entries()
    }

    /// Loads the page of the place, by at most one read. `Reading` if it fails; otherwise nothing
    /// fails.
    pub fn load<B: Nand>(
        &mut self,
        board: &mut B,
        arena: &PinArena<A>,
        run: &Run<A>,
    ) -> Result<(), Fault>
        requires { MayLoad run.now self.old (B.state board.old) arena.now }
        ensures loads { OnOk result
            (Loads run.now self.old (B.state board.old) self.new (B.state board.new)) }
        ensures reading { IfErr result (λ fault. fault ≡ Reading) }
        ensures fails { OnErr result
            (FailsToLoad run.now self.old (B.state board.old) self.new (B.state board.new)) }
        ensures ready { IsReady (B.state board.new) run.now.shape }
    {
        run.known();
        let p = self.place / self.shape.entries();
        match run.load_page(board, arena, p, &mut self.page) {
            Ok(()) => {
                self.loaded = p + 1;
                Ok(())
            }
            Err(fault) => Err(fault),
        }
    }

    /// The bytes of the entry at the place, whose page is loaded.
    pub fn head(&self, run: &Run<A>) -> &[u8]
        requires here { (flash : Flash) × (arena : Frames) × (es : List EntrySpec)
            × RunOnFlash run.now flash arena es × Follows flash run.now self.now }
        requires exists { self.now.place < run.now.count }
        requires loaded { wants_page self.now ≡ false }
        ensures entry { (flash : Flash) (arena : Frames) (es : List EntrySpec)
            → RunOnFlash run.now flash arena es → Follows flash run.now self.now
            → slice_get es self.now.place ≡ Some (entry_at result.now) }
        ensures value { result.now ≡ own_cell self.now }
        ensures cell { IsCell result.now }
    {
        run.known();
        cell(&self.shape, &self.page, self.place % self.shape.entries())
    }
}
