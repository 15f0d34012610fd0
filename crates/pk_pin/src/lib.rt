//! An arena of page frames, whose memory is taken once.
//!
//! Free and leased frames together are always all frames. A frame contains what it was filled with,
//! whatever happens to the others, and has a table of homes of the entries of its page. Who has
//! which frames is a relation of the specification.
#![tactic(auto)]

ghost use Rattle.std.specs.Prelude.{◌≡◌, ◌≢◌, ℕ, ◌+◌, ◌*◌, ◌<◌, ◌↔◌, length, replicate, true, false, slice_get, slice_set, IfOk, IfSome, IfNone, IsNone, Some, count_by, not, slice_index_or, []};
ghost use Rattle.pk_pin.specs.Index.{IsNumberOf};
ghost use Rattle.pk_pin.specs.Frames.{Frames, free_frames, leased_frames, IsLeased, frame_of, leased, given, filled, KeepsPage, chunks};

mod index;
mod laws;

use crate::index::{homes_for, index_frame, table_of};
pub use laws::{
    free_and_leased, lease_given, lease_taken, leases_counted, leases_filled, none_leased,
};
use pk_homes::home;
use std::alloc::{AllocError, Allocator};
use std::marker::Model;

/// A frame that was taken. Contracts see it as the number of the frame. One that is dropped stays leased.
#[derive(Drop)]
pub struct Lease {
    frame: u32,
}

impl Model for Lease {
    ghost use Rattle.std.specs.Prelude.{ℕ, ◌<◌, ◌^◌};

    ghost Value = { ℕ };

    ghost view = { λ l. l.frame };
}

/// The frames, each of one page. Contracts see which are leased, and what each contains.
pub struct PinArena<A: Allocator> {
    page_bytes: usize,
    free: u32,
    used: Vec<bool, A>,
    bytes: Vec<u8, A>,
    // of each frame, how many homes its table has, and the tables
    homes: usize,
    tables: Vec<u16, A>,
}

// Written out, so that whoever drops one meets a call, and not the drops of all its parts.
impl<A: Allocator> Drop for PinArena<A> {
    fn drop(self) {
        let PinArena {
            page_bytes: _,
            free: _,
            used: _,
            bytes: _,
            homes: _,
            tables: _,
        } = self;
    }
}

impl<A: Allocator> Model for PinArena<A> {
    ghost use Rattle.std.specs.Prelude.{length};
    ghost use Rattle.pk_pin.specs.Frames.{Frames, chunks};
    ghost use Rattle.pk_pin.specs.Index.{IsArena};

    ghost Value = { Frames };

    ghost view = { λ a. record {
      page_bytes = a.page_bytes;
      used = a.used.items;
      frames = chunks a.page_bytes (length a.used.items) a.bytes.items;
    } };

    ghost invariant = { λ a. IsArena a.page_bytes a.homes a.free a.used.items a.bytes.items
        a.tables.items };
}

// Takes the first place that is not used.
fn take_first(used: &mut [bool]) -> Option<usize>
    ensures found { IfSome result (λ i. slice_get used.old i ≡ Some false) }
    ensures used { IfSome result (λ i. used.new ≡ slice_set used.old i true) }
    ensures taken { IfSome result (λ i. slice_get used.new i ≡ Some true) }
    ensures count { IfSome result (λ _. count_by not used.new + 1 ≡ count_by not used.old) }
    ensures none { IfNone result (count_by not used.old ≡ 0) }
    ensures kept { IfNone result (used.new ≡ used.old) }
{
    let i = first_free(used)?;
    used[i] = true;
    Some(i)
}

// The first place that is not used.
fn first_free(used: &[bool]) -> Option<usize>
    ensures found { IfSome result (λ i. slice_get used.now i ≡ Some false) }
    ensures none { IfNone result (count_by not used.now ≡ 0) }
{
    for (i, u) in used.iter().enumerate() {
        if !*u {
            return Some(i);
        }
    }
    None
}

// Piece `i` of `n` pieces of `page` bytes.
fn piece(bytes: &[u8], page: usize, n: usize, i: usize) -> &[u8]
    requires inside { i < n }
    requires whole { length bytes.now ≡ n * page }
    ensures contents { result.now ≡ slice_index_or (chunks page n bytes.now) i [] }
    ensures len { length result.now ≡ page }
{
    let start = i * page;
    &bytes[start..start + page]
}

// Writes piece `i`.
fn put_piece(bytes: &mut [u8], page: usize, n: usize, i: usize, from: &[u8])
    requires inside { i < n }
    requires whole { length bytes.old ≡ n * page }
    requires page { length from.now ≡ page }
    ensures pieces { chunks page n bytes.new ≡ slice_set (chunks page n bytes.old) i from.now }
    ensures written { slice_index_or (chunks page n bytes.new) i [] ≡ from.now }
{
    let start = i * page;
    bytes[start..start + page].copy_from_slice(from);
}

impl<A: Allocator + Clone> PinArena<A> {
    /// An arena of `frames` frames of this many bytes, all free. All its memory is taken here: the
    /// bytes of the frames, one byte for each frame, and a quarter of its size for its table.
    pub fn new(alloc: A, frames: u32, page_bytes: u32) -> Result<PinArena<A>, AllocError>
        ensures page { IfOk result (λ a. a.page_bytes ≡ page_bytes) }
        ensures free { IfOk result (λ a. a.used ≡ replicate frames false) }
        ensures frames { IfOk result (λ a. length a.frames ≡ frames) }
    {
        let used = Vec::from_elem(alloc.clone()?, false, frames as usize)?;
        let bytes = Vec::from_elem(alloc.clone()?, 0u8, frames as usize * page_bytes as usize)?;
        let homes = homes_for(page_bytes as usize);
        let tables = Vec::from_elem(alloc, 0u16, frames as usize * homes)?;
        Ok(PinArena {
            page_bytes: page_bytes as usize,
            free: frames,
            used,
            bytes,
            homes,
            tables,
        })
    }
}

impl<A: Allocator> PinArena<A> {
    /// Leases the first free frame, whose content is unchanged; None if every frame is leased.
    pub fn take(&mut self) -> Option<Lease>
        ensures none { IsNone result ↔ (free_frames self.old ≡ 0) }
        ensures kept { IfNone result (self.new ≡ self.old) }
        ensures was_free { IfSome result (λ l. slice_get self.old.used l ≡ Some false) }
        ensures leased { IfSome result (λ l. self.new ≡ leased self.old l) }
        ensures held { IfSome result (λ l. IsLeased self.new l) }
    {
        let i = take_first(&mut self.used)?;
        self.free -= 1;
        Some(Lease { frame: i as u32 })
    }

    /// Gives a frame back, which must be one of this arena.
    pub fn give(&mut self, lease: Lease)
        requires { IsLeased self.old lease }
        ensures { self.new ≡ given self.old lease }
    {
        self.used[lease.frame as usize] = false;
        self.free += 1;
    }

    /// Fills a frame of this arena with a page of bytes.
    pub fn fill(&mut self, lease: &Lease, bytes: &[u8])
        requires leased { IsLeased self.old lease.now }
        requires page { length bytes.now ≡ self.old.page_bytes }
        ensures filled { self.new ≡ filled self.old lease.now bytes.now }
        ensures holds { frame_of self.new lease.now ≡ bytes.now }
    {
        let frames = self.used.len();
        put_piece(
            &mut self.bytes,
            self.page_bytes,
            frames,
            lease.frame as usize,
            bytes,
        );
        index_frame(
            &mut self.tables,
            self.homes,
            frames,
            lease.frame as usize,
            bytes,
        );
    }

    /// Keeps a page of bytes in the first free frame, if a frame is needed; None if none is.
    pub fn keep(&mut self, wanted: bool, bytes: &[u8]) -> Option<Lease>
        requires free { wanted ≡ true → 0 < free_frames self.old }
        requires page { length bytes.now ≡ self.old.page_bytes }
        ensures { KeepsPage wanted self.old self.new bytes.now result }
    {
        if !wanted {
            return None;
        }
        match self.take() {
            Some(lease) => {
                self.fill(&lease, bytes);
                Some(lease)
            }
            None => unreachable!(),
        }
    }

    /// What a frame of this arena contains.
    pub fn bytes(&self, lease: &Lease) -> &[u8]
        requires { IsLeased self.now lease.now }
        ensures contents { result.now ≡ frame_of self.now lease.now }
        ensures page { length result.now ≡ self.now.page_bytes }
    {
        let frames = self.used.len();
        piece(&self.bytes, self.page_bytes, frames, lease.frame as usize)
    }

    /// The number, counted from 1, that an entry with this hash has in the page in a frame of this
    /// arena, if there is one; or that of a home that several entries share.
    pub fn number_of(&self, lease: &Lease, hash: u64) -> u16
        requires { IsLeased self.now lease.now }
        ensures { IsNumberOf (frame_of self.now lease.now) hash result }
    {
        let frames = self.used.len();
        let table = table_of(&self.tables, self.homes, frames, lease.frame as usize);
        table[home(hash, table.len())]
    }

    /// How many frames there are, free and leased.
    pub fn frames(&self) -> u32
        ensures frames { result ≡ length self.now.frames }
        ensures states { result ≡ length self.now.used }
    {
        self.used.len() as u32
    }

    /// How many frames are free.
    pub fn free(&self) -> u32
        ensures free { result ≡ free_frames self.now }
        ensures all { result + leased_frames self.now ≡ length self.now.frames }
    {
        self.free
    }
}
