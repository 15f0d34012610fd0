//! The pages of values, taken one value after another.
ghost use Rattle.std.specs.Prelude.{◌≡◌, ◌==◌, ◌<◌, ◌≤◌, ◌+◌, ◌-◌, ◌++◌, ◌∷◌, [], ◌&&◌, nat_le, ◌^◌, ◌↔◌, ℕ, List, true, false, if◌then◌else◌, count_by, slice_index, IsTrue};
ghost use Rattle.std.specs.List.{list_any};
ghost use Rattle.pk_base.specs.Key.{Key as KeySpec};
ghost use Rattle.pk_base.specs.Shape.{limit, data_blocks};
ghost use Rattle.pk_base.specs.Entry.{Place as PlaceSpec};
ghost use Rattle.pk_base.specs.EntryChecks.{IsPlace};
ghost use Rattle.pk_live.specs.Values.{IsLive, count_of};
ghost use Rattle.pk_segfmt.specs.Value.{value_pages};
ghost use Rattle.pk_model.specs.Spaces.{limit_of};
ghost use Rattle.pk_model.specs.Values.{fits, all_pages, fits_after};
ghost use Rattle.pk_space.specs.Uses.{IsSpace, space_live};
ghost use Rattle.pk_scan.specs.Adopts as spec;
ghost use Rattle.pk_scan.specs.Adopts.{owned_blocks};
ghost use Rattle.pk_scan.specs.Used.{IsUseOf, held_limits};
ghost use Rattle.pk_live.specs.Lives.{Lives, StartsWithNone};

use crate::namespaces::{limit_under, spaces_under};
use pk_base::{Key, Place, Shape};
use pk_live::Live;
use pk_pool::{BlockState, Pool};
use pk_rootfmt::Root;
use pk_space::Use;
use std::alloc::Allocator;

// Whether a block of this state has an owner; a block past the last one has none.
fn has_owner(state: Option<BlockState>) -> bool
    ensures { result ≡ spec.has_owner state }
{
    match state {
        Some(BlockState::Owned(_)) => true,
        Some(BlockState::Leaving(_)) => true,
        Some(BlockState::Root) => false,
        Some(BlockState::Free) => false,
        Some(BlockState::Ready) => false,
        None => false,
    }
}

// Whether the block has an owner.
fn is_owned<A: Allocator>(pool: &Pool<A>, block: u32) -> bool
    ensures { result ≡ list_any (λ b. b == block) (owned_blocks pool.now) }
{
    has_owner(pool.state(block))
}

// Whether a live value begins at one of the pages from here up to `end`.
fn begins_before<A: Allocator>(live: &Live<A>, from: u32, end: u32) -> bool
    ensures { IsTrue result
        ↔ ((p : ℕ) × (from ≤ p) × (p < end) × (0 < slice_index live.now.heads p)) }
{
    for page in from..end {
        if live.is_head(page) {
            return true;
        }
    }
    false
}

// Whether one of `count` pages is live: the first is, or a value begins after it.
fn overlaps<A: Allocator>(live: &Live<A>, page: u32, count: u32) -> bool
    requires some { 0 < count }
    requires small { page + count < 2 ^ 32 }
    ensures { IsTrue result ↔ ((p : ℕ) × (page ≤ p) × (p < page + count) × IsLive live.now p) }
{
    live.is_live(page) || begins_before(live, page + 1, page + count)
}

// How many blocks have a live page, with this one.
fn blocks_used<A: Allocator>(live: &Live<A>, block: u32) -> u32
    ensures value { result
        ≡ count_by (λ b. b) live.now.closed + (if count_of live.now block == 0 then 1 else 0) }
{
    live.known();
    let closed = live.closed();
    if live.count(block) == 0 {
        closed + 1
    } else {
        closed
    }
}

// Whether this many live pages, in this many blocks, are not too many.
fn are_few(shape: &Shape, pages: u32, blocks: u32) -> bool
    ensures { result
        ≡ (nat_le pages (limit shape.now) && nat_le blocks (data_blocks shape.now - 1)) }
{
    pages <= shape.limit() && blocks <= shape.data_blocks() - 1
}

// Whether the pages of a value may be taken.
fn has_room<A: Allocator>(shape: &Shape, pool: &Pool<A>, live: &Live<A>, place: Place) -> bool
    requires place { IsPlace shape.now place }
    requires lives { (taken : List (KeySpec × PlaceSpec))
        × Lives shape.now (owned_blocks pool.now) live.now taken }
    ensures { (taken : List (KeySpec × PlaceSpec))
        → Lives shape.now (owned_blocks pool.now) live.now taken
        → result ≡ fits shape.now (owned_blocks pool.now)
        (all_pages shape.now taken ++ value_pages shape.now place) }
{
    live.known();
    // so that the numbers of pages are known to fit
    let _ = shape.page_count();
    let count = shape.charge(place.len);
    let block = place.page / shape.block_pages();
    if is_owned(pool, block) {
        return false;
    }
    if overlaps(live, place.page, count) {
        return false;
    }
    let pages = live.total() + count;
    are_few(shape, pages, blocks_used(live, block))
}

// Whether a namespace may have this many pages more.
fn is_within<A: Allocator>(root: &Root<A>, spaces: &Use, space: u8, count: u32) -> bool
    requires space { IsSpace space }
    requires some { 0 < count }
    ensures { result ≡ nat_le (space_live spaces.now space + count)
        (limit_of (held_limits root.now) space) }
{
    space <= spaces_under(root)
        && spaces.live(space) as u64 + count as u64 <= limit_under(root, space) as u64
}

/// Whether the pages of a value are in no block that has an owner, none of them belongs to a value
/// that was taken before, with them the live pages and the blocks that have one are not too many,
/// and the live pages of its namespace are within its limit. If so they are live from now on, and
/// their block is closed, and they are counted for their namespace; otherwise the live map and what
/// is counted are unchanged. The block gets its owner when all values are taken.
pub fn take_value<A: Allocator>(
    shape: &Shape,
    root: &Root<A>,
    pool: &Pool<A>,
    live: &mut Live<A>,
    spaces: &mut Use,
    key: &Key,
    place: Place,
) -> bool
    requires place { IsPlace shape.now place }
    requires lives { (taken : List (KeySpec × PlaceSpec))
        × Lives shape.now (owned_blocks pool.now) live.old taken
        × IsUseOf shape.now spaces.old taken }
    ensures fits { (taken : List (KeySpec × PlaceSpec))
        → Lives shape.now (owned_blocks pool.now) live.old taken
        → IsUseOf shape.now spaces.old taken
        → result ≡ fits_after shape.now (held_limits root.now)
        (owned_blocks pool.now) taken (key.now, place) }
    ensures taken { result ≡ true → (taken : List (KeySpec × PlaceSpec))
        → Lives shape.now (owned_blocks pool.now) live.old taken
        → Lives shape.now (owned_blocks pool.now) live.new (taken ++ (key.now, place) ∷ []) }
    ensures used { result ≡ true → (taken : List (KeySpec × PlaceSpec))
        → IsUseOf shape.now spaces.old taken
        → IsUseOf shape.now spaces.new (taken ++ (key.now, place) ∷ []) }
    ensures left { result ≡ false → (live.new ≡ live.old) × (spaces.new ≡ spaces.old) }
{
    if !has_room(shape, pool, live, place) {
        return false;
    }
    let block = place.page / shape.block_pages();
    let count = shape.charge(place.len);
    let space = key.space();
    if !is_within(root, spaces, space, count) {
        return false;
    }
    live.set(place.page, count);
    live.close(block);
    spaces.change(space, 0, count);
    true
}

/// A live map without values represents none.
pub fn starts_with_none()
    ensures { StartsWithNone }
{}
