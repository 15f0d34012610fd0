//! The map that pages hold, or the page at which reading it fails, in the order of docs/ARCHITECTURE.md's opening.

use crate::plain::{
    Item, Spaces, Top, is_empty_from, is_head, pages_of, push_commit, push_meta, top_of, whole,
};
use pk_base::Shape;
use pk_nand::PageState;
use std::alloc::{AllocError, Global};

/// How a reading ends.
#[derive(Drop)]
pub enum Reading {
    NotFormatted,
    Damaged(u32),
    Map(Held),
}

/// What a drive holds: its namespaces, and the entries that count of the keys that exist, rising by
/// namespace and then by key.
#[derive(Drop)]
pub struct Held {
    pub spaces: Spaces,
    pub items: Vec<Item>,
}

// A list of entries, or the page at which reading it fails.
#[derive(Drop)]
enum List {
    Entries(Vec<Item>),
    Damaged(u32),
}

// The page with this index in these blocks.
fn page_in(shape: &Shape, blocks: &[u32], index: u32) -> u32 {
    let count = shape.block_pages().max(1);
    let block = blocks.get((index / count) as usize).copied().unwrap_or(0);
    block.saturating_mul(count).saturating_add(index % count)
}

// The newest root: the one with the greatest number, of equals the first.
fn newest(alloc: Global, shape: &Shape, pages: &[PageState]) -> Result<Option<Top>, AllocError> {
    let mut newest: Option<Top> = None;
    for page in 0..shape.block_pages().saturating_mul(2) {
        let top = match whole(pages, page) {
            Some(bytes) => top_of(alloc, shape, bytes)?,
            None => None,
        };
        newest = newer(newest, top);
    }
    Ok(newest)
}

fn newer(first: Option<Top>, later: Option<Top>) -> Option<Top> {
    match (first, later) {
        (None, later) => later,
        (first, None) => first,
        (Some(first), Some(later)) => {
            if later.number > first.number {
                Some(later)
            } else {
                Some(first)
            }
        }
    }
}

// Whether a key counts before another one.
fn is_before(one: &Item, other: &Item) -> bool {
    if one.space != other.space {
        return one.space < other.space;
    }
    for i in 0..16usize {
        if one.key[i] != other.key[i] {
            return one.key[i] < other.key[i];
        }
    }
    one.key_len < other.key_len
}

fn is_same_key(one: &Item, other: &Item) -> bool {
    one.space == other.space && one.key == other.key && one.key_len == other.key_len
}

// The place of the first entry whose key is not before this one's.
fn place_of(sorted: &[Item], item: &Item) -> usize {
    for i in 0..sorted.len() {
        if !is_before(&sorted[i], item) {
            return i;
        }
    }
    sorted.len()
}

// Puts an entry into a rising list, in place of that of its key, if that is requested.
fn put(sorted: &mut Vec<Item>, item: Item, replaces: bool) -> Result<(), AllocError> {
    let at = place_of(sorted, &item);
    match sorted.get_mut(at) {
        Some(found) if is_same_key(found, &item) => {
            if replaces {
                *found = item;
            }
            Ok(())
        }
        _ => {
            sorted.insert(at.min(sorted.len()), item)?;
            Ok(())
        }
    }
}

// The entries of these in rising order, the later one of each key.
fn rising(alloc: Global, items: &[Item]) -> Result<Vec<Item>, AllocError> {
    let mut sorted = Vec::new(alloc);
    for item in items {
        put(&mut sorted, *item, true)?;
    }
    Ok(sorted)
}

// The page of the commit with this index: its first one, if that is Whole, otherwise its second
// one.
fn page_of_commit<'a>(
    shape: &Shape,
    pages: &'a [PageState],
    blocks: &[u32],
    index: u32,
) -> Option<(u32, &'a [u8])> {
    let first = page_in(shape, blocks, index.saturating_mul(2));
    for page in first..first.saturating_add(2) {
        if let Some(bytes) = whole(pages, page) {
            return Some((page, bytes));
        }
    }
    None
}

// The entries that count of an epoch in these blocks.
fn epoch(
    alloc: Global,
    shape: &Shape,
    pages: &[PageState],
    spaces: &Spaces,
    number: u64,
    blocks: &[u32],
) -> Result<List, AllocError> {
    let mut items = Vec::new(alloc);
    for index in 0..shape.block_pages() {
        match page_of_commit(shape, pages, blocks, index) {
            None => return Ok(List::Entries(rising(alloc, &items)?)),
            Some((page, bytes)) => {
                let is_one = push_commit(shape, spaces, bytes, number, index, &mut items)?;
                let keys = rising(alloc, &items)?.len();
                if !is_one || keys > shape.buffer() as usize {
                    return Ok(List::Damaged(page));
                }
            }
        }
    }
    Ok(List::Entries(rising(alloc, &items)?))
}

// Whether a page of a run went on well: its entries from this one on rise after the one before, and
// none is deleted in run 4.
fn goes_on(items: &[Item], from: usize, level: u8) -> bool {
    for i in from..items.len() {
        let Some(item) = items.get(i) else {
            return false;
        };
        if level == 4 && item.place.is_none() {
            return false;
        }
        match items.get(i.wrapping_sub(1)) {
            Some(before) if !is_before(before, item) => return false,
            _ => {}
        }
    }
    true
}

// The entries of a run of `entries` in these blocks.
fn run(
    alloc: Global,
    shape: &Shape,
    pages: &[PageState],
    spaces: &Spaces,
    level: u8,
    entries: u32,
    blocks: &[u32],
) -> Result<List, AllocError> {
    let mut items = Vec::new(alloc);
    let full = shape.entries().max(1);
    for index in 0..entries.div_ceil(full) {
        let page = page_in(shape, blocks, index);
        let count = full.min(entries.saturating_sub(index.saturating_mul(full)));
        let from = items.len();
        let is_one = match whole(pages, page) {
            Some(bytes) => push_meta(shape, spaces, bytes, level, index, count, &mut items)?,
            None => false,
        };
        if !is_one || !goes_on(&items, from, level) {
            return Ok(List::Damaged(page));
        }
    }
    Ok(List::Entries(items))
}

// Puts the entries of a list after those that count more.
fn cover(into: &mut Vec<Item>, items: &[Item]) -> Result<(), AllocError> {
    for item in items {
        put(into, *item, false)?;
    }
    Ok(())
}

// Puts the entries of both epochs; the page at which reading them fails.
fn read_epochs(
    alloc: Global,
    shape: &Shape,
    pages: &[PageState],
    top: &Top,
    into: &mut Vec<Item>,
) -> Result<Option<u32>, AllocError> {
    let blocks = top.blocks.as_slice();
    let older = if top.has_older {
        let blocks = blocks.get(2..4).unwrap_or(&[]);
        let number = top.epoch.wrapping_sub(1);
        match epoch(alloc, shape, pages, &top.spaces, number, blocks)? {
            List::Damaged(page) => return Ok(Some(page)),
            List::Entries(items) if items.is_empty() => {
                return Ok(Some(page_in(shape, blocks, 0)));
            }
            List::Entries(items) => items,
        }
    } else {
        Vec::new(alloc)
    };
    match epoch(
        alloc,
        shape,
        pages,
        &top.spaces,
        top.epoch,
        blocks.get(..2).unwrap_or(&[]),
    )? {
        List::Damaged(page) => Ok(Some(page)),
        List::Entries(items) => {
            cover(into, &items)?;
            cover(into, &older)?;
            Ok(None)
        }
    }
}

// Puts the entries of the runs; the page at which reading them fails.
fn read_runs(
    alloc: Global,
    shape: &Shape,
    pages: &[PageState],
    top: &Top,
    into: &mut Vec<Item>,
) -> Result<Option<u32>, AllocError> {
    let mut from = if top.has_older { 4usize } else { 2 };
    let mut level = 0u8;
    for count in &top.counts {
        level = level.saturating_add(1);
        let blocks = top.blocks.get(from..).unwrap_or(&[]);
        match run(alloc, shape, pages, &top.spaces, level, *count, blocks)? {
            List::Damaged(page) => return Ok(Some(page)),
            List::Entries(items) => cover(into, &items)?,
        }
        let pages = count.div_ceil(shape.entries().max(1));
        from = from.saturating_add(pages.div_ceil(shape.block_pages().max(1)) as usize);
    }
    Ok(None)
}

// What the values before took: each of their pages, how many of each namespace, and their blocks.
#[derive(Drop)]
struct Taken {
    pages: Vec<u32>,
    in_spaces: [u32; 8],
    blocks: Vec<u32>,
}

// Adds these pages to those of a namespace: whether they are within its limit.
fn count_in(spaces: &Spaces, space: u8, count: u32, taken: &mut Taken) -> bool {
    let place = usize::from(space).wrapping_sub(1);
    match taken.in_spaces.get_mut(place) {
        Some(sum) => {
            *sum = sum.saturating_add(count);
            *sum <= spaces.limit(space)
        }
        None => false,
    }
}

// Takes the pages of a value, if they may be its own.
fn take(
    shape: &Shape,
    top: &Top,
    space: u8,
    first: u32,
    count: u32,
    taken: &mut Taken,
) -> Result<bool, AllocError> {
    let block = first / shape.block_pages().max(1);
    if top.blocks.contains(&block) {
        return Ok(false);
    }
    if !taken.blocks.contains(&block) {
        taken.blocks.push(block)?;
    }
    for i in 0..count {
        let page = first.saturating_add(i);
        if taken.pages.contains(&page) {
            return Ok(false);
        }
        taken.pages.push(page)?;
    }
    let is_within = count_in(&top.spaces, space, count, taken);
    Ok(
        is_within
            && taken.pages.len() <= shape.limit() as usize
            && taken.blocks.len() < shape.data_blocks() as usize,
    )
}

// The first page of a value that is not its own.
fn wrong_page(
    shape: &Shape,
    pages: &[PageState],
    item: &Item,
    first: u32,
    len: u32,
) -> Option<u32> {
    let size = shape.page_bytes() as usize;
    let end = (len as usize).saturating_add(32);
    for i in 0..pages_of(shape, len).min(256) as u32 {
        let page = first.saturating_add(i);
        let Some(bytes) = whole(pages, page) else {
            return Some(page);
        };
        let behind = end.saturating_sub(size.saturating_mul(i as usize));
        if i == 0 && !is_head(bytes, item, len) || !is_empty_from(bytes, behind) {
            return Some(page);
        }
    }
    None
}

// The entries of the keys that exist, whose values are where these say.
fn with_values(
    alloc: Global,
    shape: &Shape,
    pages: &[PageState],
    top: &Top,
    items: &[Item],
) -> Result<Reading, AllocError> {
    let mut there = Vec::new(alloc);
    let mut taken = Taken {
        pages: Vec::new(alloc),
        in_spaces: [0; 8],
        blocks: Vec::new(alloc),
    };
    for item in items {
        if let Some((first, len)) = item.place {
            let count = pages_of(shape, len).min(256) as u32;
            if !take(shape, top, item.space, first, count, &mut taken)? {
                return Ok(Reading::Damaged(first));
            }
            if let Some(page) = wrong_page(shape, pages, item, first, len) {
                return Ok(Reading::Damaged(page));
            }
            there.push(*item)?;
        }
    }
    Ok(Reading::Map(Held {
        spaces: top.spaces,
        items: there,
    }))
}

/// The map that these pages of a shape hold.
pub fn reading_of(
    alloc: Global,
    shape: &Shape,
    pages: &[PageState],
) -> Result<Reading, AllocError> {
    let Some(top) = newest(alloc, shape, pages)? else {
        return Ok(Reading::NotFormatted);
    };
    let mut items = Vec::new(alloc);
    if let Some(page) = read_epochs(alloc, shape, pages, &top, &mut items)? {
        return Ok(Reading::Damaged(page));
    }
    if let Some(page) = read_runs(alloc, shape, pages, &top, &mut items)? {
        return Ok(Reading::Damaged(page));
    }
    with_values(alloc, shape, pages, &top, &items)
}
