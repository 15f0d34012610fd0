//! Which pages begin a live value, how many live pages each block has, and which blocks are closed.
//!
//! Contracts see the pages of the value that begins at each page, and the closed blocks; every number
//! that is answered is one of theirs.
#![tactic(auto)]

mod open_block;

ghost use Rattle.std.specs.Prelude.{◌≡◌, ℕ, ◌+◌, ◌*◌, ◌/◌, ◌%◌, ◌<◌, ◌≤◌, ◌^◌, ◌↔◌, All, length, sum, count_by, replicate, true, false, slice_index, slice_get, slice_set, slice_index_or, Some, IfOk, IfSome, IfNone, MatchOption, IsTrue};
ghost use Rattle.pk_base.specs.Shape.{IsShape, page_count};
ghost use Rattle.pk_live.specs.Values.{Values, no_values, count_of, IsLive, IsClosed, IsLeastClosed, AreValues, IsBestOf};

pub use open_block::{OpenBlock, close};
use pk_base::{MOST_BLOCK_PAGES, Shape};
use std::alloc::{AllocError, Allocator};
use std::marker::Model;

/// The live values. Contracts see how many pages the value has that begins at each page, which is 0
/// if none begins, and which blocks are closed.
pub struct Live<A: Allocator> {
    block_pages: u32,
    total: u32,
    heads: Vec<u16, A>,
    counts: Vec<u32, A>,
    closed: Vec<bool, A>,
}

// Written out, so that whoever drops one meets a call, and not the drops of all its parts.
impl<A: Allocator> Drop for Live<A> {
    fn drop(self) {
        let Live {
            block_pages: _,
            total: _,
            heads: _,
            counts: _,
            closed: _,
        } = self;
    }
}

impl<A: Allocator> Model for Live<A> {
    ghost use Rattle.pk_live.specs.Values.{Values, IsCounted};

    ghost Value = { Values };

    ghost view = { λ a. record {
      block_pages = a.block_pages;
      heads = a.heads.items;
      closed = a.closed.items;
    } };

    ghost invariant = { λ a. IsCounted a.block_pages a.total a.heads.items a.counts.items
        a.closed.items };
}

impl<A: Allocator + Clone> Live<A> {
    /// No live value, and no closed block. All its memory is taken here: two bytes for each page of the
    /// flash, and five for each block.
    pub fn new(alloc: A, shape: Shape) -> Result<Live<A>, AllocError>
        ensures { IfOk result (λ a. a ≡ no_values shape) }
    {
        let heads = Vec::from_elem(alloc.clone()?, 0u16, shape.page_count() as usize)?;
        let counts = Vec::from_elem(alloc.clone()?, 0u32, shape.blocks() as usize)?;
        let closed = Vec::from_elem(alloc, false, shape.blocks() as usize)?;
        Ok(Live {
            block_pages: shape.block_pages(),
            total: 0,
            heads,
            counts,
            closed,
        })
    }
}

impl<A: Allocator> Live<A> {
    /// A value of `count` pages begins at the page, where none began, and ends in the page's block.
    pub fn set(&mut self, page: u32, count: u32)
        requires free { slice_get self.old.heads page ≡ Some 0 }
        requires inside { page % self.old.block_pages + count ≤ self.old.block_pages }
        ensures { self.new ≡ record self.old { heads = slice_set self.old.heads page count } }
    {
        let block = (page / self.block_pages) as usize;
        self.heads[page as usize] = count as u16;
        self.counts[block] += count;
        self.total += count;
    }

    /// The value that begins at the page, of `count` pages, is no longer live.
    pub fn clear(&mut self, page: u32, count: u32)
        requires { slice_get self.old.heads page ≡ Some count }
        ensures { self.new ≡ record self.old { heads = slice_set self.old.heads page 0 } }
    {
        let block = (page / self.block_pages) as usize;
        self.heads[page as usize] = 0;
        self.counts[block] -= count;
        self.total -= count;
    }

    /// Whether a live value begins at the page.
    pub fn is_head(&self, page: u32) -> bool
        ensures { IsTrue result ↔ (0 < slice_index self.now.heads page) }
    {
        head_at(&self.heads, page as usize) != 0
    }

    /// Whether the page belongs to a live value.
    pub fn is_live(&self, page: u32) -> bool
        ensures { IsTrue result ↔ IsLive self.now page }
    {
        covers(&self.heads, page as usize)
    }

    /// The live pages of the block.
    pub fn count(&self, block: u32) -> u32
        ensures { result ≡ count_of self.now block }
    {
        if (block as usize) < self.counts.len() {
            self.counts[block as usize]
        } else {
            0
        }
    }

    /// Does nothing: brings into a proof that a flash has few blocks, each of some pages, and that no value is longer than a
    /// block.
    pub fn known(&self)
        ensures { AreValues self.now }
    {
        let _ = &self.total;
    }

    /// All live pages.
    pub fn total(&self) -> u32
        ensures { result ≡ sum self.now.heads }
    {
        self.total
    }

    /// Closes a block of the flash.
    pub fn close(&mut self, block: u32)
        requires { block < length self.old.closed }
        ensures { self.new ≡ record self.old { closed = slice_set self.old.closed block true } }
    {
        self.closed[block as usize] = true;
    }

    /// A closed block without live pages is closed no more.
    pub fn forget(&mut self, block: u32)
        requires closed { IsClosed self.old block }
        requires empty { count_of self.old block ≡ 0 }
        ensures { self.new ≡ record self.old { closed = slice_set self.old.closed block false } }
    {
        self.closed[block as usize] = false;
    }

    /// Whether a block is closed; false past the last one.
    pub fn is_closed(&self, block: u32) -> bool
        ensures { result ≡ slice_index_or self.now.closed block false }
    {
        (block as usize) < self.closed.len() && self.closed[block as usize]
    }

    /// How many blocks are closed.
    pub fn closed(&self) -> u32
        ensures { result ≡ count_by (λ b. b) self.now.closed }
    {
        let mut closed = 0;
        for b in self.closed.as_slice() {
            if *b {
                closed += 1;
            }
        }
        closed
    }

    /// The closed block with the fewest live pages, of equals the lowest.
    pub fn least_closed(&self) -> Option<u32>
        ensures { MatchOption result ((b : ℕ) → IsClosed self.now b → ⊥)
            (λ b. IsLeastClosed self.now b) }
    {
        let least = least(&self.counts, &self.closed)?;
        Some(least as u32)
    }
}

// The first closed block with the least count.
fn least(counts: &[u32], closed: &[bool]) -> Option<usize>
    requires { length counts.now ≡ length closed.now }
    ensures { IsBestOf counts.now closed.now (length closed.now) result }
{
    let mut best = None;
    for i in 0..closed.len() {
        best = better(counts, closed, i, best);
    }
    best
}

// The best of the blocks up to `i`, if `best` is that of the blocks below.
fn better(counts: &[u32], closed: &[bool], i: usize, best: Option<usize>) -> Option<usize>
    requires lengths { length counts.now ≡ length closed.now }
    requires i { i < length closed.now }
    requires best { IsBestOf counts.now closed.now i best }
    ensures { IsBestOf counts.now closed.now (i + 1) result }
{
    if !closed[i] {
        return best;
    }
    match best {
        None => Some(i),
        Some(b) => {
            if counts[b] <= counts[i] {
                Some(b)
            } else {
                Some(i)
            }
        }
    }
}

// The pages of the value that begins at the page.
fn head_at(heads: &[u16], page: usize) -> u16
    ensures { result ≡ slice_index heads.now page }
{
    if page < heads.len() { heads[page] } else { 0 }
}

// Whether a value covers the page. It begins less than a block of pages before, and all of these are looked at
// without a branch, so that the machine takes many at a time.
fn covers(heads: &[u16], page: usize) -> bool
    requires short { All (λ h. h ≤ MOST_BLOCK_PAGES) heads.now }
    requires page { page < 2 ^ 32 }
    ensures { IsTrue result ↔ ((h : ℕ) × (h ≤ page) × (page < h + slice_index heads.now h)) }
{
    let mut found = false;
    for h in page.saturating_sub(MOST_BLOCK_PAGES as usize - 1)..heads.len().min(page + 1) {
        found |= heads[h] > (page - h) as u16;
    }
    found
}
