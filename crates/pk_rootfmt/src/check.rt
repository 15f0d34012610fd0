//! The first wrong field of a root page.
ghost use Rattle.std.specs.Prelude.{◌≡◌, ◌+◌, ◌*◌, ◌<◌, ◌≤◌, ◌^◌, ◌==◌, ◌&&◌, ◌-◌, nat_le, nat_lt, not, [], length, drop, if◌then◌else◌, true, false, MatchResult};
ghost use Rattle.std.specs.List.{list_any};
ghost use Rattle.pk_base.specs.FieldFaults.{Finds};
ghost use Rattle.pk_base.specs.Shape.{run_blocks, limit as limit_of};
ghost use Rattle.pk_rootfmt.specs.Root.{u16s_at, u32s_at, has_limits, has_limits_room, list_from as list_from_of};
ghost use Rattle.pk_rootfmt.specs.Fault.{is_run_count, is_epoch, is_other_block, blocks_fault, is_version as is_version_of, is_space_count as is_space_count_of, limits_fault, space_fault, listed as listed_of, shape_fault, number_fault, list_fault, root_fault};

use crate::layout::{LIMITS_BYTES, LIMITS_VERSION, LIST_FROM, SPACES, VERSION};
use pk_base::{
    EPOCH_BLOCKS, ROOT_BLOCKS, Shape, Wrong, get_u16, get_u32, get_u64, passes, text, zeros,
};

pub(crate) const MAGIC: [u8; 8] = *b"PINKROOT";

/// The blocks of a run of `entries` entries.
pub(crate) fn run_size(shape: &Shape, entries: u32) -> u32
    ensures { result ≡ run_blocks shape.now entries }
{
    let pages = entries.div_ceil(shape.entries());
    pages.div_ceil(shape.block_pages())
}

/// A run of this level may have `entries` entries.
fn is_count(shape: &Shape, level: u8, entries: u32) -> bool
    requires { 1 ≤ level × level ≤ 4 }
    ensures { result ≡ is_run_count shape.now level entries }
{
    entries as u64 <= shape.cap(level) as u64 * shape.entries() as u64
}

/// The newest epoch of a root with this many journal blocks may have this number.
fn is_newest(journal: u16, number: u64, epoch: u64) -> bool
    ensures { result ≡ is_epoch journal number epoch }
{
    epoch >= 1 && epoch <= number && (journal as u32 == EPOCH_BLOCKS || epoch >= 2)
}

/// A page has room for limits.
pub(crate) fn has_room(shape: &Shape) -> bool
    ensures { result ≡ has_limits_room shape.now }
{
    shape.known();
    (LIST_FROM + LIMITS_BYTES) as u32 + 2 * (shape.meta_blocks() + 4) <= shape.page_bytes()
}

/// A root page may have this version.
fn is_version(shape: &Shape, version: u16) -> bool
    ensures { result ≡ is_version_of shape.now version }
{
    version == VERSION || (version == LIMITS_VERSION && has_room(shape))
}

/// A root page of this version may have `count` limits.
fn is_space_count(version: u16, count: u32) -> bool
    ensures { result ≡ is_space_count_of version count }
{
    if version == LIMITS_VERSION {
        count >= 1 && count as usize <= SPACES
    } else {
        count == 0
    }
}

/// The place of the list of blocks in a page.
pub(crate) fn list_from(page: &[u8]) -> usize
    requires { LIST_FROM ≤ length page.now }
    ensures { result ≡ list_from_of page.now }
{
    if get_u16(page, 8) == LIMITS_VERSION {
        LIST_FROM + LIMITS_BYTES
    } else {
        LIST_FROM
    }
}

/// What remains of `left` pages after one of the eight numbers, which is a limit or zero.
fn take_limit(at: usize, left: u32, is_limit: bool, limit: u32) -> Result<u32, Wrong>
    requires { at < 2 ^ 31 }
    ensures { MatchResult result
        (λ rest. ((if is_limit then nat_le 1 limit && nat_le limit left else limit == 0) ≡ true)
        × (rest ≡ (if is_limit then left - limit else left)))
        (λ wrong. ((if is_limit then nat_le 1 limit && nat_le limit left else limit == 0) ≡ false)
        × (wrong.at ≡ at)) }
{
    if is_limit {
        if limit >= 1 && limit <= left {
            Ok(left - limit)
        } else {
            Err(Wrong { at: at as u32 })
        }
    } else if limit == 0 {
        Ok(left)
    } else {
        Err(Wrong { at: at as u32 })
    }
}

/// The first `count` of the eight numbers are limits of together at most `most` pages, and the
/// others are zero.
fn check_limits(page: &[u8], most: u32, count: u32) -> Result<(), Wrong>
    requires { LIST_FROM + LIMITS_BYTES ≤ length page.now }
    ensures { Finds result
        (limits_fault LIST_FROM most count (u32s_at SPACES (drop LIST_FROM page.now))) }
{
    let mut left = most;
    for i in 0..SPACES {
        let at = LIST_FROM + 4 * i;
        match take_limit(at, left, (i as u32) < count, get_u32(page, at)) {
            Ok(rest) => left = rest,
            Err(wrong) => return Err(wrong),
        }
    }
    Ok(())
}

/// The page has limits as its version and its count say.
#[tactic(auto, unfolding(crate::specs::Fault::space_fault))]
fn check_spaces(shape: &Shape, page: &[u8]) -> Result<(), Wrong>
    requires { length page.now ≡ shape.now.page_bytes }
    ensures { Finds result (space_fault shape.now page.now) }
{
    shape.known();
    if get_u16(page, 8) == LIMITS_VERSION {
        check_limits(page, shape.limit(), get_u32(page, 20))
    } else {
        Ok(())
    }
}

/// As many blocks as the fields of the page name.
#[tactic(auto, unfolding(crate::specs::Fault::listed))]
fn listed(shape: &Shape, page: &[u8]) -> usize
    requires { LIST_FROM ≤ length page.now }
    ensures { result ≡ listed_of shape.now page.now }
{
    let deep = run_size(shape, get_u32(page, 48)) as usize
        + run_size(shape, get_u32(page, 52)) as usize;
    let runs = run_size(shape, get_u32(page, 40)) as usize
        + (run_size(shape, get_u32(page, 44)) as usize + deep);
    get_u16(page, 18) as usize + runs
}

/// None of the first `count` blocks is this one.
fn is_new(page: &[u8], from: usize, count: usize, block: u16) -> bool
    requires { from + 2 * count ≤ length page.now }
    ensures { result
        ≡ not (list_any (λ other. block == other) (u16s_at count (drop from page.now))) }
{
    for i in 0..count {
        if get_u16(page, from + 2 * i) == block {
            return false;
        }
    }
    true
}

/// The block number after `count` others may be there.
fn is_block(shape: &Shape, page: &[u8], from: usize, count: usize, block: u16) -> bool
    requires { from + 2 * count ≤ length page.now }
    ensures { result ≡ is_other_block shape.now (u16s_at count (drop from page.now)) block }
{
    block as u32 >= ROOT_BLOCKS
        && (block as u32) < shape.blocks()
        && is_new(page, from, count, block)
}

/// The page has `count` block numbers.
fn check_blocks(shape: &Shape, page: &[u8], from: usize, count: usize) -> Result<(), Wrong>
    requires fits { from + 2 * count ≤ length page.now }
    requires small { length page.now < 2 ^ 31 }
    ensures { Finds result
        (blocks_fault shape.now from [] (u16s_at count (drop from page.now))) }
{
    for i in 0..count {
        let at = from + 2 * i;
        if !is_block(shape, page, from, i, get_u16(page, at)) {
            return Err(Wrong { at: at as u32 });
        }
    }
    Ok(())
}

#[tactic(auto, unfolding(crate::specs::Fault::shape_fault))]
fn check_shape(shape: &Shape, page: &[u8]) -> Result<(), Wrong>
    requires { length page.now ≡ shape.now.page_bytes }
    ensures { Finds result (shape_fault shape.now page.now) }
{
    shape.known();
    text(page, 0, &MAGIC)?;
    let version = get_u16(page, 8);
    passes(8, is_version(shape, version))?;
    passes(10, get_u16(page, 10) as u32 == shape.block_pages())?;
    passes(12, get_u32(page, 12) == shape.page_bytes())?;
    passes(16, get_u16(page, 16) as u32 == shape.blocks())?;
    let journal = get_u16(page, 18) as u32;
    passes(18, journal == EPOCH_BLOCKS || journal == 2 * EPOCH_BLOCKS)?;
    passes(20, is_space_count(version, get_u32(page, 20)))
}

#[tactic(auto, unfolding(crate::specs::Fault::number_fault))]
fn check_numbers(shape: &Shape, page: &[u8]) -> Result<(), Wrong>
    requires { length page.now ≡ shape.now.page_bytes }
    ensures { Finds result (number_fault shape.now page.now) }
{
    shape.known();
    let number = get_u64(page, 24);
    passes(24, number >= 1)?;
    passes(32, is_newest(get_u16(page, 18), number, get_u64(page, 32)))?;
    passes(40, is_count(shape, 1, get_u32(page, 40)))?;
    passes(44, is_count(shape, 2, get_u32(page, 44)))?;
    passes(48, is_count(shape, 3, get_u32(page, 48)))?;
    passes(52, is_count(shape, 4, get_u32(page, 52)))?;
    zeros(page, 56, LIST_FROM)
}

#[tactic(auto, unfolding(crate::specs::Fault::list_fault))]
fn check_lists(shape: &Shape, page: &[u8]) -> Result<(), Wrong>
    requires sized { length page.now ≡ shape.now.page_bytes }
    requires room { list_from_of page.now + 2 * listed_of shape.now page.now ≤ length page.now }
    ensures { Finds result (list_fault shape.now page.now) }
{
    shape.known();
    let from = list_from(page);
    let count = listed(shape, page);
    check_blocks(shape, page, from, count)?;
    zeros(page, from + 2 * count, page.len())
}

/// The first wrong field.
pub(crate) fn checked(shape: &Shape, page: &[u8]) -> Result<(), Wrong>
    requires { length page.now ≡ shape.now.page_bytes }
    ensures { Finds result (root_fault shape.now page.now) }
{
    shape.known();
    check_shape(shape, page)?;
    check_numbers(shape, page)?;
    check_spaces(shape, page)?;
    check_lists(shape, page)
}
