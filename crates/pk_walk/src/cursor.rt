//! A place among the entries of a run, which goes forward.
ghost use Rattle.std.specs.Prelude.{◌≡◌, ◌<◌, ◌+◌, ◌-◌, ◌*◌, ◌/◌, ◌%◌, suc, true, if◌then◌else◌, ℕ, List, [], length, is_some, option_map, slice_get, Some, None, IfOk, IfErr, IsSome, OnOk, OnErr};
ghost use Rattle.std.specs.Ordering.{is_eq};
ghost use Rattle.pk_base.specs.Fields.{number_at};
ghost use Rattle.pk_base.specs.Seen.{entry as seen};
ghost use Rattle.pk_base.specs.Shape.{page_entries};
ghost use Rattle.pk_base.specs.Entry.{Entry as EntrySpec};
ghost use Rattle.pk_base.specs.Page.{Flash, page_at, whole};
ghost use Rattle.pk_meta.specs.PageChecks.{IsMetaPage};
ghost use Rattle.pk_nand.specs.Calls.{IsReady};
ghost use Rattle.pk_nand.specs.declared.types.Fault.TheVariants.{Reading};
ghost use Rattle.pk_pin.specs.Frames.{Frames};
ghost use Rattle.pk_run.specs.Kept.{RunOnFlash, page_of};
ghost use Rattle.pk_walk.specs.declared.position.Position.{Position as PositionSpec};
ghost use Rattle.pk_walk.specs.Heads.{entry_in, let_go, seen_head};
ghost use Rattle.pk_walk.specs.Visible.{behind_found};
ghost use Rattle.pk_walk.specs.Steps.{FailsToLoad, FailsToShow, HasPage, IsFirstWanted, Loads, CursorLooks, MayLoad, CursorMoves, StaysAt, bytes_in, holding};
ghost use Rattle.pk_walk.specs.Walking.{Follows, HasPassed, SkipsNoPage, at_start};

use crate::begin::begins_at;
use crate::head::Head;
use crate::page::{entry_at, first_wanted};
use crate::position::Position;
use pk_base::{Entry, Shape, get_u16};
use pk_nand::{Fault, Nand};
use pk_pin::PinArena;
use pk_run::Run;
use std::alloc::{AllocError, Allocator};
use std::cmp::Ordering;
use std::marker::Model;

/// The place, how many pages of the run lie up to it, and the bytes of the last of them that was
/// read; and the first wanted entry, once it was found, just before the place. `end` is the place
/// where those pages end.
pub struct Cursor<A: Allocator> {
    shape: Shape,
    place: u32,
    loaded: u32,
    end: u32,
    page: Vec<u8, A>,
    head: Head,
    has_found: bool,
}

// Written out, so that whoever drops one meets a call, and not the drops of all its parts.
impl<A: Allocator> Drop for Cursor<A> {
    fn drop(self) {
        let Cursor {
            shape: _,
            place: _,
            loaded: _,
            end: _,
            page: _,
            head: _,
            has_found: _,
        } = self;
    }
}

impl<A: Allocator> Model for Cursor<A> {
    ghost use Rattle.std.specs.Prelude.{◌≡◌, ◌*◌, length};
    ghost use Rattle.pk_base.specs.Shape.{page_entries};
    ghost use Rattle.pk_walk.specs.Heads.{seen_head};
    ghost use Rattle.pk_walk.specs.Walking as spec;

    ghost Value = { spec.Cursor };

    ghost view = { λ c. record {
      shape = c.shape;
      place = c.place;
      loaded = c.loaded;
      bytes = c.page.items;
      head = seen_head c.head;
      has_found = c.has_found;
    } };

    ghost invariant = { λ c. (length c.page.items ≡ c.shape.page_bytes)
        × (c.end ≡ c.loaded * page_entries c.shape) };
}

impl<A: Allocator> Cursor<A> {
    /// A cursor before all entries. Its memory, a page's bytes, is taken here.
    pub fn new(alloc: A, shape: Shape) -> Result<Cursor<A>, AllocError>
        ensures shape { IfOk result (λ c. c.shape ≡ shape) }
        ensures start { IfOk result (λ c. c ≡ at_start c) }
    {
        let page = Vec::from_elem(alloc, 0u8, shape.page_bytes() as usize)?;
        Ok(Cursor {
            shape,
            place: 0,
            loaded: 0,
            end: 0,
            page,
            head: Head::Sought,
            has_found: false,
        })
    }

    /// Goes back before all entries.
    pub fn restart(&mut self)
        ensures { self.new ≡ at_start self.old }
    {
        self.place = 0;
        self.loaded = 0;
        self.end = 0;
        self.head = Head::Sought;
        self.has_found = false;
    }

    /// How many entries are before the place.
    pub fn place(&self) -> u32
        ensures { result ≡ self.now.place }
    {
        self.place
    }

    /// What is known of the first wanted entry.
    pub fn head(&self) -> &Head
        ensures { seen_head result.now ≡ self.now.head }
    {
        &self.head
    }

    /// Takes what was found at the place, and moves past it.
    #[inline(always)]
    pub fn hold(&mut self, found: Option<Entry>)
        requires { IsSome found → self.old.place + 1 < 4294967296 }
        ensures { self.new ≡ holding (option_map seen found) self.old }
    {
        if found.is_some() {
            self.place += 1;
            self.has_found = true;
        }
        self.head = Head::of(found);
    }

    /// Returns the first wanted entry, so that the next one has to be looked for; None if there is
    /// none.
    #[inline(always)]
    pub fn take(&mut self) -> Option<Entry>
        ensures entry { option_map seen result ≡ entry_in self.old.head }
        ensures cursor { self.new ≡ record self.old { head = let_go self.old.head } }
    {
        self.head.take()
    }

    /// Moves the position past the first wanted entry, if there is one.
    #[inline(always)]
    pub fn lead(&self, position: &mut Position)
        ensures { position.new ≡ behind_found (entry_in self.now.head) position.old }
    {
        self.head.lead(position);
    }

    /// Drops its entry if the key that is returned is its own.
    pub fn pass(&mut self, given: Ordering)
        ensures { self.new
            ≡ record self.old { head = if is_eq given then None else self.old.head } }
    {
        self.head.pass(given);
    }

    /// Goes to the page where a walk from this position begins, unless it has passed a page.
    pub fn begin(&mut self, run: &Run<A>, position: &Position)
        requires { self.old.head ≡ None }
        ensures place { self.new ≡ record self.old { place = self.new.place } }
        ensures follows { (flash : Flash) (arena : Frames) (es : List EntrySpec)
            → RunOnFlash run.now flash arena es → Follows flash run.now es position.now self.old
            → Follows flash run.now es position.now self.new }
        ensures passed { SkipsNoPage position.now → HasPassed self.old → HasPassed self.new }
    {
        run.known();
        if self.loaded == 0 {
            self.place = begins_at(run, position);
        }
    }

    // Has come past the pages up to page `p`.
    fn come_past(&mut self, p: u32)
        requires { p < 1000000 }
        ensures { self.new ≡ record self.old { loaded = suc p } }
    {
        let end = (p + 1) * self.shape.entries();
        self.loaded = p + 1;
        self.end = end;
    }

    // Comes to page `p`, the one of the place, by one read at most: it has its bytes, unless they
    // are in a frame.
    fn load<B: Nand>(
        &mut self,
        board: &mut B,
        arena: &PinArena<A>,
        run: &Run<A>,
        p: u32,
    ) -> Result<(), Fault>
        requires ready { IsReady (B.state board.old) run.now.shape }
        requires shape { self.old.shape ≡ run.now.shape }
        requires stands { (es : List EntrySpec)
            × RunOnFlash run.now (B.state board.old).pages arena.now es }
        requires may { MayLoad (B.state board.old).pages run.now p self.old }

        // The page.
        ensures loads { OnOk result (Loads run.now p (B.state board.old) (B.state board.new)
            self.old self.new) }
        ensures page { OnOk result (slice_get run.now.leases p ≡ None
            → page_at (B.state board.old).pages (page_of run.now p) ≡ whole self.new.bytes) }

        // Only a read fails.
        ensures fails { OnErr result (FailsToLoad run.now p (B.state board.old)
            (B.state board.new) self.old self.new) }
        ensures reading { IfErr result (λ fault. fault ≡ Reading) }

        // The flash is unchanged.
        ensures same { (B.state board.new).pages ≡ (B.state board.old).pages }
        ensures ready { IsReady (B.state board.new) run.now.shape }
    {
        run.known();
        if self.loaded == p + 1 {
            Ok(())
        } else {
            match run.lease(p) {
                Some(_) => {
                    self.come_past(p);
                    Ok(())
                }
                None => match run.load_page(board, arena, p, &mut self.page) {
                    Ok(()) => {
                        self.come_past(p);
                        Ok(())
                    }
                    Err(fault) => Err(fault),
                },
            }
        }
    }

    /// Has the page of the place, by one read at most. `Reading` if the read fails; otherwise
    /// nothing fails.
    pub fn look<B: Nand>(
        &mut self,
        board: &mut B,
        arena: &PinArena<A>,
        run: &Run<A>,
    ) -> Result<(), Fault>
        requires ready { IsReady (B.state board.old) run.now.shape }
        requires shape { self.old.shape ≡ run.now.shape }
        requires follows { (es : List EntrySpec) × (position : PositionSpec)
            × RunOnFlash run.now (B.state board.old).pages arena.now es
            × Follows (B.state board.old).pages run.now es position self.old }
        requires exists { self.old.place < run.now.count }

        // The page of the place.
        ensures looks { OnOk result (CursorLooks run.now arena.now (B.state board.old)
            (B.state board.new) self.old self.new) }

        // The cursor stays at its place in any case, and only a read fails.
        ensures stays { StaysAt (B.state board.old).pages run.now self.old self.new }
        ensures fails { OnErr result (FailsToShow run.now (B.state board.old)
            (B.state board.new) self.old self.new) }
        ensures reading { IfErr result (λ fault. fault ≡ Reading) }

        // The flash is unchanged.
        ensures same { (B.state board.new).pages ≡ (B.state board.old).pages }
        ensures ready { IsReady (B.state board.new) run.now.shape }
    {
        run.known();
        let size = self.shape.entries();
        let p = self.place / size;
        match self.load(board, arena, run, p) {
            Ok(()) => Ok(()),
            Err(fault) => Err(fault),
        }
    }

    // The bytes of the page of the place: if the page has a frame they are read in it.
    fn bytes<'a>(&'a self, arena: &'a PinArena<A>, run: &Run<A>) -> &'a [u8]
        requires { HasPage run.now arena.now self.now }
        ensures { result.now ≡ bytes_in run.now arena.now self.now }
    {
        match run.lease(self.loaded - 1) {
            Some(lease) => arena.bytes(lease),
            None => &self.page,
        }
    }

    // The place in its page of the first wanted entry from the place on; the end if there is none.
    fn wanted_here(&self, arena: &PinArena<A>, run: &Run<A>, position: &Position) -> u32
        requires { HasPage run.now arena.now self.now }
        ensures { IsFirstWanted position.now (bytes_in run.now arena.now self.now)
            (self.now.place % page_entries self.now.shape) result }
    {
        let before = self.place % self.shape.entries();
        first_wanted(&self.shape, self.bytes(arena, run), position, before)
    }

    // How many entries its page has.
    fn entries_here(&self, arena: &PinArena<A>, run: &Run<A>) -> u32
        requires { HasPage run.now arena.now self.now }
        ensures { result ≡ number_at 2 10 (bytes_in run.now arena.now self.now) }
    {
        self.shape.known();
        get_u16(self.bytes(arena, run), 10) as u32
    }

    /// Goes to the first wanted entry from the place on in its page; false if there is none, and
    /// the cursor is past the page then.
    pub fn skip(&mut self, arena: &PinArena<A>, run: &Run<A>, position: &Position) -> bool
        requires page { HasPage run.now arena.now self.old }
        requires fits { self.old.place - self.old.place % page_entries self.old.shape
            + number_at 2 10 (bytes_in run.now arena.now self.old) < 4294967296 }
        ensures { CursorMoves position.now (bytes_in run.now arena.now self.old) self.old self.new
            result }
    {
        let before = self.place % self.shape.entries();
        let to = self.wanted_here(arena, run, position);
        let end = self.entries_here(arena, run);
        self.place = self.place - before + to;
        to < end
    }

    /// Whether the entry at the place is the next wanted one, and its page is there. If a walk has
    /// found an entry it wants all those after it.
    pub fn is_ready(&self, run: &Run<A>) -> bool
        ensures { result ≡ true → (self.now.has_found ≡ true) × (self.now.place < run.now.count)
            × (self.now.place < self.now.loaded * page_entries self.now.shape) }
    {
        self.has_found && self.place < self.end && self.place < run.entries()
    }

    /// The entry at the place, whose page is there.
    #[inline(always)]
    pub fn entry(&self, arena: &PinArena<A>, run: &Run<A>) -> Entry
        requires { HasPage run.now arena.now self.now }
        ensures { (level index : ℕ) (entries : List EntrySpec)
            → IsMetaPage self.now.shape (bytes_in run.now arena.now self.now) level index entries
            → slice_get entries (self.now.place % page_entries self.now.shape)
            ≡ Some (seen result) }
    {
        let start = self.end - self.shape.entries();
        entry_at(&self.shape, self.bytes(arena, run), self.place - start)
    }
}
