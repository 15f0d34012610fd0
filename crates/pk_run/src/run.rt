//! A run, as memory keeps it.
ghost use Rattle.std.specs.Prelude.{◌≡◌, ◌+◌, ◌*◌, ◌<◌, ◌≤◌, ◌⊎◌, ℕ, List, [], ◌∷◌, ◌++◌, length, slice_get, Some, None, IsNone, IfSome, IfOk, IfErr, OnOk, OnErr, MatchOption};
ghost use Rattle.pk_base.specs.declared.sizes.TheConstants.{LEVELS};
ghost use Rattle.pk_base.specs.Shape.{IsShape, page_entries};
ghost use Rattle.pk_base.specs.Entry.{Entry as EntrySpec};
ghost use Rattle.pk_base.specs.Page.{Flash, page_at, whole};
ghost use Rattle.pk_nand.specs.Calls.{IsReady};
ghost use Rattle.pk_nand.specs.Operations.{after_read, ReadFailed};
ghost use Rattle.pk_nand.specs.declared.types.Fault.TheVariants.{Reading};
ghost use Rattle.pk_pin.specs.Frames.{Frames, free_frames};
ghost use Rattle.pk_run.specs.Kept.{Kept, IsKept, IsPinned, RunOnFlash, IsNext, empty, page_of, most_pages, most_blocks, with_page, after_look, FillsPage, is_pinned};
ghost use Rattle.pk_run.specs.Leases.{AreLeased, LeavesOthers, LeavesOtherLeases, given_all};
ghost use Rattle.pk_run.specs.Search.{IsBeforeAll, IsFound, IsPageFor, RunLooks};

use crate::frame::find_by_number;
use crate::search::page_for;
use pk_base::{Entry, Key, Shape};
use pk_homes::hash;
use pk_meta::find as find_in_page;
use pk_nand::{Fault, Nand};
use pk_pin::{Lease, PinArena};
use pk_seg::read_page;
use std::alloc::{AllocError, Allocator};
use std::marker::Model;

/// What memory keeps of a run. Contracts see it as a value, and `RunOnFlash` says which entries it has on a flash.
pub struct Run<A: Allocator> {
    shape: Shape,
    level: u8,
    count: u32,
    blocks: Vec<u16, A>,
    firsts: Vec<Key, A>,
    leases: Vec<Lease, A>,
}

// Written out, so that whoever drops one meets a call, and not the drops of all its parts.
impl<A: Allocator> Drop for Run<A> {
    fn drop(self) {
        let Run {
            shape: _,
            level: _,
            count: _,
            blocks: _,
            firsts: _,
            leases: _,
        } = self;
    }
}

impl<A: Allocator> Model for Run<A> {
    ghost use Rattle.std.specs.Prelude.{◌≤◌, vec_capacity};
    ghost use Rattle.pk_base.specs.Shape.{cap, blocks_of};
    ghost use Rattle.pk_run.specs.Kept.{Kept, IsKept};

    ghost Value = { Kept };

    ghost view = { λ r. record {
      shape = r.shape;
      level = r.level;
      count = r.count;
      blocks = r.blocks.items;
      firsts = r.firsts.items;
      leases = r.leases.items;
    } };

    ghost invariant = { λ r. IsKept (record {
      shape = r.shape;
      level = r.level;
      count = r.count;
      blocks = r.blocks.items;
      firsts = r.firsts.items;
      leases = r.leases.items;
    })
        × (cap r.shape r.level ≤ vec_capacity r.firsts)
        × (cap r.shape r.level ≤ vec_capacity r.leases)
        × (blocks_of r.shape (cap r.shape r.level) ≤ vec_capacity r.blocks) };
}

impl<A: Allocator + Clone> Run<A> {
    /// A run of this level, 1 to 4, without entries. All its memory is taken here: for the blocks, the first keys and the leases
    /// of as many pages as the level may have.
    pub fn new(alloc: A, shape: Shape, level: u8) -> Result<Run<A>, AllocError>
        requires { 1 ≤ level × level ≤ LEVELS }
        ensures empty { IfOk result (λ r. r ≡ empty shape level) }
        ensures stands { IfOk result (λ r. (flash : Flash) (arena : Frames)
            → RunOnFlash r flash arena []) }
    {
        shape.known();
        let pages = shape.cap(level);
        let places = pages.div_ceil(shape.block_pages());
        let blocks = Vec::with_capacity(alloc.clone()?, places as usize)?;
        let firsts = Vec::with_capacity(alloc.clone()?, pages as usize)?;
        let leases = Vec::with_capacity(alloc, pages as usize)?;
        Ok(Run {
            shape,
            level,
            count: 0,
            blocks,
            firsts,
            leases,
        })
    }
}

impl<A: Allocator> Run<A> {
    /// Does nothing: brings the invariant of the run into a proof.
    pub fn known(&self)
        ensures kept { IsKept self.now }
        ensures shape { IsShape self.now.shape }
    {
        self.shape.known();
    }

    /// The shape of the flash.
    pub fn shape(&self) -> Shape
        ensures { result ≡ self.now.shape }
    {
        self.shape
    }

    /// The level, 1 to 4.
    pub fn level(&self) -> u8
        ensures { result ≡ self.now.level }
    {
        self.level
    }

    /// How many entries the run has.
    pub fn entries(&self) -> u32
        ensures { result ≡ self.now.count }
    {
        self.count
    }

    /// The blocks in the order of their pages.
    pub fn blocks(&self) -> &[u16]
        ensures { result.now ≡ self.now.blocks }
    {
        &self.blocks
    }

    /// How many pages the run has.
    pub fn pages(&self) -> u32
        ensures { result ≡ length self.now.firsts }
    {
        self.firsts.len() as u32
    }

    /// How many of its pages have a frame.
    pub fn leases(&self) -> u32
        ensures { result ≡ length self.now.leases }
    {
        self.leases.len() as u32
    }

    /// Whether each of its pages has a frame.
    pub fn is_pinned(&self) -> bool
        ensures { result ≡ is_pinned self.now }
    {
        self.firsts.len() <= self.leases.len()
    }

    /// The number on the flash of a page of the run's blocks.
    pub fn page(&self, i: u32) -> u32
        requires { i < length self.now.blocks * self.now.shape.block_pages }
        ensures { result ≡ page_of self.now i }
    {
        let in_block = self.shape.block_pages();
        self.blocks[(i / in_block) as usize] as u32 * in_block + i % in_block
    }

    /// The frame of a page; None if it has none.
    pub fn lease(&self, i: u32) -> Option<&Lease>
        ensures { MatchOption result (length self.now.leases ≤ i) (λ l. slice_get self.now.leases i
            ≡ Some l.now) }
    {
        if (i as usize) < self.leases.len() {
            Some(&self.leases[i as usize])
        } else {
            None
        }
    }

    /// Takes all entries and blocks away. No page may have a frame.
    pub fn clear(&mut self)
        requires { self.old.leases ≡ [] }
        ensures empty { self.new ≡ empty self.old.shape self.old.level }
        ensures stands { (flash : Flash) (arena : Frames) → RunOnFlash self.new flash arena [] }
    {
        self.shape.known();
        self.count = 0;
        self.blocks.clear();
        self.firsts.clear();
    }

    /// Adds a block after the others.
    pub fn push_block(&mut self, block: u16)
        requires { length self.old.blocks < most_blocks self.old }
        ensures added { self.new ≡ record self.old { blocks = self.old.blocks ++ block ∷ [] } }
        ensures stands { (flash : Flash) (arena : Frames) (es : List EntrySpec)
            → RunOnFlash self.old flash arena es → RunOnFlash self.new flash arena es }
    {
        self.shape.known();
        self.blocks.push_reserved(block);
    }

    /// Adds the next page of the run's blocks, after full ones: its first key, its frame if the
    /// others have some, and how many entries it has.
    pub fn push_page(&mut self, first: Key, lease: Option<Lease>, entries: u32)
        requires room { length self.old.firsts < most_pages self.old }
        requires within { length self.old.firsts
            < length self.old.blocks * self.old.shape.block_pages }
        requires full { self.old.count ≡ length self.old.firsts * page_entries self.old.shape }
        requires some { 1 ≤ entries × entries ≤ page_entries self.old.shape }
        requires alike { MatchOption lease (self.old.leases ≡ []) (λ _. IsPinned self.old) }

        // The run has the page, and represents its entries too.
        ensures added { self.new ≡ with_page self.old first lease entries }
        ensures stands { (flash : Flash) (arena : Frames) (es more : List EntrySpec)
            → RunOnFlash self.old flash arena es → IsNext self.old flash arena es more first lease
            → length more ≡ entries → RunOnFlash self.new flash arena (es ++ more) }
    {
        self.shape.known();
        self.count += entries;
        self.firsts.push_reserved(first);
        match lease {
            Some(lease) => self.leases.push_reserved(lease),
            None => {}
        }
    }

    /// Takes the last lease out, whose frame belongs to the caller then; None if there is none.
    pub fn pop_lease(&mut self) -> Option<Lease>
        ensures taken { MatchOption result (self.old.leases ≡ []) (λ l. self.old.leases
            ≡ self.new.leases ++ l ∷ []) }
        ensures kept { self.new ≡ record self.old { leases = self.new.leases } }
        ensures none { IsNone result → self.new ≡ self.old }
    {
        self.leases.pop()
    }

    /// The page that may have the key: it begins at or before the key, and the next one above it.
    /// None if no page begins at or before the key.
    pub fn page_for(&self, key: &Key) -> Option<u32>
        ensures { MatchOption result (IsBeforeAll key.now self.now.firsts) (λ p.
            IsPageFor key.now self.now.firsts p) }
    {
        self.known();
        match page_for(&self.firsts, key) {
            None => None,
            Some(i) => Some(i as u32),
        }
    }

    /// The entry of the key. A page is looked at only if it begins at or before the key and the
    /// next one above it, and it is read only if it has no frame. `Reading` if the read fails;
    /// otherwise nothing fails. `buf` has the size of a page and is overwritten.
    pub fn find<B: Nand>(
        &self,
        board: &mut B,
        arena: &PinArena<A>,
        key: &Key,
        buf: &mut [u8],
    ) -> Result<Option<Entry>, Fault>
        requires ready { IsReady (B.state board.old) self.now.shape }
        requires stands { (es : List EntrySpec)
            × RunOnFlash self.now (B.state board.old).pages arena.now es }
        requires room { length buf.old ≡ self.now.shape.page_bytes }

        // The entry of the key, by at most one read.
        ensures found { IfOk result (λ found. (es : List EntrySpec)
            → RunOnFlash self.now (B.state board.old).pages arena.now es
            → IsFound key.now es found) }
        ensures looks { OnOk result (RunLooks self.now key.now (B.state board.old)
            (B.state board.new)) }
        ensures calls { OnOk result ((B.state board.new ≡ B.state board.old)
            ⊎ (B.state board.new ≡ after_read (B.state board.old))) }
        ensures pinned { IsPinned self.now → B.state board.new ≡ B.state board.old }

        // Or that read failed.
        ensures reading { IfErr result (λ fault. fault ≡ Reading) }
        ensures err { OnErr result ((p : ℕ) × IsPageFor key.now self.now.firsts p
            × ReadFailed (B.state board.old) (B.state board.new) (page_of self.now p)) }
        ensures unpinned { OnErr result (IsPinned self.now → ⊥) }

        // Either way nothing but a read was done.
        ensures same { (B.state board.new).pages ≡ (B.state board.old).pages }
        ensures ready { IsReady (B.state board.new) self.now.shape }
    {
        self.known();
        match page_for(&self.firsts, key) {
            None => Ok(None),
            Some(i) => match self.lease(i as u32) {
                Some(lease) => {
                    let number = arena.number_of(lease, hash(key));
                    Ok(find_by_number(&self.shape, arena.bytes(lease), number, key))
                }
                None => match read_page(board, self.page(i as u32), buf) {
                    Ok(()) => Ok(find_in_page(&self.shape, buf, key)),
                    Err(fault) => Err(fault),
                },
            },
        }
    }

    /// Fills `buf` with a page of the run, by one read, and by none if the page has a frame.
    /// `Reading` if the read fails; otherwise nothing fails.
    pub fn load_page<B: Nand>(
        &self,
        board: &mut B,
        arena: &PinArena<A>,
        i: u32,
        buf: &mut [u8],
    ) -> Result<(), Fault>
        requires ready { IsReady (B.state board.old) self.now.shape }
        requires stands { (es : List EntrySpec)
            × RunOnFlash self.now (B.state board.old).pages arena.now es }
        requires exists { i < length self.now.firsts }
        requires room { length buf.old ≡ self.now.shape.page_bytes }

        // The page, by at most one read.
        ensures page { OnOk result (page_at (B.state board.old).pages (page_of self.now i)
            ≡ whole buf.new) }
        ensures ok { OnOk result (B.state board.new
            ≡ after_look (slice_get self.now.leases i) (B.state board.old)) }
        ensures pinned { IsPinned self.now → B.state board.new ≡ B.state board.old }

        // Or that read failed.
        ensures reading { IfErr result (λ fault. fault ≡ Reading) }
        ensures err { OnErr result (ReadFailed (B.state board.old) (B.state board.new)
            (page_of self.now i)) }
        ensures unpinned { OnErr result (length self.now.leases ≤ i) }

        // Either way nothing but a read was done.
        ensures same { (B.state board.new).pages ≡ (B.state board.old).pages }
        ensures ready { IsReady (B.state board.new) self.now.shape }
    {
        self.known();
        match self.lease(i) {
            Some(lease) => {
                buf.copy_from_slice(arena.bytes(lease));
                Ok(())
            }
            None => read_page(board, self.page(i), buf),
        }
    }

    /// Reads the first page that has no frame into a frame, of which one must be free. `Reading` if
    /// the read fails; otherwise nothing fails. `buf` has the size of a page and is overwritten.
    pub fn fill_page<B: Nand>(
        &mut self,
        board: &mut B,
        arena: &mut PinArena<A>,
        buf: &mut [u8],
    ) -> Result<(), Fault>
        requires ready { IsReady (B.state board.old) self.old.shape }
        requires stands { (es : List EntrySpec)
            × RunOnFlash self.old (B.state board.old).pages arena.old es }
        requires unfilled { length self.old.leases < length self.old.firsts }
        requires free { 0 < free_frames arena.old }
        requires page { arena.old.page_bytes ≡ self.old.shape.page_bytes }
        requires room { length buf.old ≡ self.old.shape.page_bytes }

        // The page has a frame, by one read, and the run is as before.
        ensures filled { OnOk result (FillsPage self.old arena.old self.new arena.new) }
        ensures stands { OnOk result ((es : List EntrySpec)
            → RunOnFlash self.old (B.state board.old).pages arena.old es
            → RunOnFlash self.new (B.state board.new).pages arena.new es) }
        ensures ok { OnOk result (B.state board.new ≡ after_read (B.state board.old)) }

        // Or that read failed, and nothing else changed.
        ensures reading { IfErr result (λ fault. fault ≡ Reading) }
        ensures err { OnErr result (ReadFailed (B.state board.old) (B.state board.new)
            (page_of self.old (length self.old.leases))) }
        ensures kept { OnErr result ((self.new ≡ self.old) × (arena.new ≡ arena.old)) }

        // Either way nothing but a read was done, and of the run only the leases differ.
        ensures same { (B.state board.new).pages ≡ (B.state board.old).pages }
        ensures ready { IsReady (B.state board.new) self.old.shape }
        ensures buffer { length buf.new ≡ length buf.old }
        ensures rest { self.new ≡ record self.old { leases = self.new.leases } }
    {
        self.known();
        match read_page(board, self.page(self.leases()), buf) {
            Ok(()) => match arena.take() {
                Some(lease) => {
                    arena.fill(&lease, buf);
                    self.leases.push_reserved(lease);
                    Ok(())
                }
                // one is free
                None => unreachable!(),
            },
            Err(fault) => Err(fault),
        }
    }

    /// Frees the frames of all pages.
    pub fn give_frames(&mut self, arena: &mut PinArena<A>)
        requires { AreLeased arena.old self.old.leases }
        ensures bare { self.new ≡ record self.old { leases = [] } }
        ensures given { arena.new ≡ given_all arena.old self.old.leases }
        ensures same_bytes { arena.new.page_bytes ≡ arena.old.page_bytes }
        ensures same_size { length arena.new.used ≡ length arena.old.used }

        // The run is as before, and so is every other.
        ensures stands { (flash : Flash) (es : List EntrySpec)
            → RunOnFlash self.old flash arena.old es → RunOnFlash self.new flash arena.new es }
        ensures others { LeavesOthers self.old.leases arena.old arena.new }
        ensures leases { LeavesOtherLeases self.old.leases arena.old arena.new }
    {
        while let Some(lease) = self.pop_lease() {
            arena.give(lease);
        }
    }
}
