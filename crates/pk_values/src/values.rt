//! The data blocks of a drive.
ghost use Rattle.std.specs.Prelude.{◌≡◌, ℕ, List, [], ◌+◌, ◌<◌, ◌≤◌, false, true, length, slice_get, Some, None, IfOk, IfErr, OnOk, OnErr, MatchOption, if◌then◌else◌};
ghost use Rattle.std.specs.FinMap.Entries.{put};
ghost use Rattle.pk_base.specs.Key.{Key, key_cmp};
ghost use Rattle.pk_base.specs.Shape as spec;
ghost use Rattle.pk_base.specs.Page.{Flash};
ghost use Rattle.pk_base.specs.Entry.{Place};
ghost use Rattle.pk_nand.specs.Calls.{IsReady};
ghost use Rattle.pk_nand.specs.declared.types.Fault.TheVariants.{Stopped};
ghost use Rattle.pk_pool.specs.Blocks.{Blocks};
ghost use Rattle.pk_pool.specs.Taking.{FailsToErase};
ghost use Rattle.pk_values.specs.State.{ValuesState, IsSmall, with_none_open, block_opened, more_used, with_written, with_head, with_heads};
ghost use Rattle.pk_values.specs.State as state;
ghost use Rattle.pk_values.specs.Placed.{ValuesOnFlash, HasPlaced, StayPlaced, FoundAtOpening, without};
ghost use Rattle.pk_values.specs.Reserving.{IsReserved, TakesNextOrOpens, WritesNext, AreFree};
ghost use Rattle.pk_values.specs.Entries.{ValueHeld, ValueMoves, IsInOpen, heads_without};

use crate::span::Span;
use pk_base::{MOST_BLOCKS, Shape};
use pk_live::{Live, OpenBlock, close};
use pk_nand::{Fault, Nand};
use pk_plan::Owner;
use pk_pool::Pool;
use std::alloc::Allocator;
use std::marker::Model;

/// Where values go.
#[derive(Drop)]
pub struct Values<A: Allocator> {
    /// The live values, with the blocks that are closed.
    pub live: Live<A>,
    /// The block that takes the next value, if there is one.
    pub open_block: Option<OpenBlock>,
}

impl<A: Allocator> Model for Values<A> {
    ghost use Rattle.pk_values.specs.State.{ValuesState, IsSmall};

    ghost Value = { ValuesState };

    ghost view = { λ d. record { live = d.live; open_block = d.open_block } };

    ghost invariant = { λ d. IsSmall d.open_block };
}

// The value at these pages is live no more, if there is one.
fn clear<A: Allocator>(live: &mut Live<A>, old: Option<Span>)
    requires { MatchOption old (Unit {0}) (λ s. slice_get live.old.heads s.page ≡ Some s.count) }
    ensures { live.new ≡ record live.old { heads = heads_without old live.old.heads } }
{
    match old {
        None => {}
        Some(span) => live.clear(span.page, span.count),
    }
}

// The block with `count` more pages written, if there is one.
fn more(shape: &Shape, open_block: Option<OpenBlock>, count: u32) -> Option<OpenBlock>
    requires room { state.has_left shape.now open_block count ≡ true }
    requires small { IsSmall open_block }
    ensures value { result ≡ more_used open_block count }
    ensures small { IsSmall result }
{
    shape.known();
    match open_block {
        None => None,
        Some(open) => Some(OpenBlock {
            block: open.block,
            used: open.used + count,
        }),
    }
}

impl<A: Allocator> Values<A> {
    /// As after opening: the values are live, and no block takes values. Takes no memory.
    pub fn new(live: Live<A>) -> Values<A>
        ensures value { result ≡ with_none_open live }
        ensures placed { (shape : spec.Shape) (named : List ℕ) (pool : Blocks) (flash : Flash)
            (es : List (Key × Place)) → FoundAtOpening shape named live pool flash es
            → ValuesOnFlash shape result pool [] flash es }
    {
        Values {
            live,
            open_block: None,
        }
    }

    /// The live values, with the blocks that are closed.
    pub fn live(&self) -> &Live<A>
        ensures { result.now ≡ self.now.live }
    {
        &self.live
    }

    /// The block that takes the next value, if there is one.
    pub fn open_block(&self) -> Option<OpenBlock>
        ensures { result ≡ self.now.open_block }
    {
        self.open_block
    }

    /// Whether a value of `count` pages has room in the open block.
    pub fn fits_open(&self, shape: &Shape, count: u32) -> bool
        requires { count ≤ spec.most_pages shape.now }
        ensures { result ≡ state.fits_open shape.now self.now count }
    {
        let pages = shape.block_pages();
        match self.open_block {
            None => false,
            Some(open) => open.used + count <= pages,
        }
    }

    /// Whether a block has to be reclaimed before a value of `count` pages: it has no room in the
    /// open block, and the pool has only one block left for values, which is kept for reclaims.
    pub fn needs_reclaim(&self, shape: &Shape, pool: &Pool<A>, count: u32) -> bool
        requires { count ≤ spec.most_pages shape.now }
        ensures { result ≡ state.needs_reclaim shape.now self.now pool.now count }
    {
        !self.fits_open(shape, count) && pool.used(Owner::Values) >= shape.data_blocks() - 1
    }

    // The next page of the open block, if it has room for `count`.
    fn next_in_open(&self, shape: &Shape, count: u32) -> Option<u32>
        requires { count ≤ spec.most_pages shape.now }
        ensures { result ≡ (if state.fits_open shape.now self.now count
            then Some (state.next_page shape.now self.now) else None) }
    {
        let pages = shape.block_pages();
        match self.open_block {
            None => None,
            Some(open) => {
                if open.used + count <= pages {
                    Some(open.block * pages + open.used)
                } else {
                    None
                }
            }
        }
    }

    // This block takes values from now on, and the one before is closed.
    fn open_next(&mut self, block: u32)
        requires small { block ≤ MOST_BLOCKS }
        requires closes { MatchOption self.old.open_block (Unit {0})
            (λ o. o.block < length self.old.live.closed) }
        ensures { self.new ≡ block_opened self.old block }
    {
        close(&mut self.live, self.open_block);
        self.open_block = Some(OpenBlock { block, used: 0 });
    }

    /// Finds the pages for a value of `count` pages, and returns the first: the next ones of the
    /// open block if it has room; otherwise the open block is closed, and another one is taken from
    /// the pool, by at most one erase. `Stopped` if this erase fails; nothing changes then but the
    /// flash.
    pub fn reserve<B: Nand>(
        &mut self,
        board: &mut B,
        shape: &Shape,
        pool: &mut Pool<A>,
        count: u32,
    ) -> Result<u32, Fault>
        requires some { 1 ≤ count }
        requires most { count ≤ spec.most_pages shape.now }
        requires ready { IsReady (B.state board.old) shape.now }
        requires placed { HasPlaced shape.now self.old pool.old (B.state board.old).pages }
        requires room { state.needs_reclaim shape.now self.old pool.old count ≡ false }

        // The pages, and where they come from.
        ensures reserved { IfOk result
            (λ page. IsReserved shape.now self.new pool.new (B.state board.new).pages page count) }
        ensures cases { OnOk result (TakesNextOrOpens shape.now self.old pool.old
            (B.state board.old) count self.new pool.new (B.state board.new)) }
        ensures free { IfOk result
            (λ page. AreFree shape.now self.old pool.old (B.state board.old).pages page count) }

        // Or the erase failed, and nothing else changed.
        ensures stopped { IfErr result (λ e. e ≡ Stopped) }
        ensures failed { OnErr result
            (FailsToErase pool.old (B.state board.old) (B.state board.new)) }
        ensures had_no_room { OnErr result (state.fits_open shape.now self.old count ≡ false) }
        ensures kept { OnErr result (self.new ≡ self.old) }
        ensures kept_pool { OnErr result (pool.new ≡ pool.old) }

        // Either way the values stay placed.
        ensures placed { StayPlaced shape.now self.old pool.old (B.state board.old).pages
            self.new pool.new (B.state board.new).pages }
        ensures ready { IsReady (B.state board.new) shape.now }
    {
        match self.next_in_open(shape, count) {
            Some(page) => Ok(page),
            None => match pool.take(board, Owner::Values) {
                Ok(block) => {
                    self.open_next(block);
                    Ok(block * shape.block_pages())
                }
                Err(_) => Err(Fault::Stopped),
            },
        }
    }

    /// The next `count` pages of the open block are written.
    pub fn wrote(&mut self, shape: &Shape, count: u32)
        requires { state.fits_open shape.now self.old count ≡ true }
        ensures written { self.new ≡ with_written self.old count }
        ensures in_open { IsInOpen shape.now self.new (state.next_page shape.now self.old) count }
        ensures placed { (pool : Blocks) (old new : Flash)
            → WritesNext shape.now self.old count old new → StayPlaced shape.now self.old pool old
            self.new pool new }
    {
        self.open_block = more(shape, self.open_block, count);
    }

    /// A key has its value at the pages of `new` from now on, and no more at those of `old`.
    pub fn replace(&mut self, old: Option<Span>, new: Span)
        requires { ValueMoves self.old old new }
        ensures moved { self.new ≡ with_head (with_heads self.old
            (heads_without old self.old.live.heads)) new.page new.count }
        ensures placed { (m : ValueMoves self.old old new)
            → ValuesOnFlash m.shape self.new m.pool m.outputs m.flash
            (put key_cmp m.key m.place m.es) }
    {
        clear(&mut self.live, old);
        self.live.set(new.page, new.count);
    }

    /// The value at these pages is live no more: its key was removed.
    pub fn remove(&mut self, span: Span)
        requires { ValueHeld self.old span }
        ensures removed { self.new ≡ with_head self.old span.page 0 }
        ensures placed { (h : ValueHeld self.old span)
            → ValuesOnFlash h.shape self.new h.pool h.outputs h.flash
            (without h.key h.es) }
    {
        self.live.clear(span.page, span.count);
    }
}
