//! Pages read plainly, as docs/FORMATS.md has them: what the trials of damage compare the program with. Of the
//! program only the types of shapes and pages are used.

use pk_base::Shape;
use pk_nand::PageState;
use std::alloc::{AllocError, Global};

/// An entry: a key in a namespace, 1 to 8, and where its value begins and how many bytes it has,
/// unless the key was deleted. After the key's bytes are zeros.
#[derive(Clone, Copy)]
pub struct Item {
    pub space: u8,
    pub key: [u8; 16],
    pub key_len: u8,
    pub place: Option<(u32, u32)>,
}

/// The namespaces of a drive: how many there are, and the pages that the values of each may take.
#[derive(Clone, Copy)]
pub struct Spaces {
    pub count: u8,
    pub limits: [u32; 8],
}

impl Spaces {
    /// Whether there is this namespace.
    pub fn has(&self, space: u8) -> bool {
        1 <= space && space <= self.count
    }

    /// The limit of a namespace.
    pub fn limit(&self, space: u8) -> u32 {
        let place = usize::from(space).wrapping_sub(1);
        self.limits.get(place).copied().unwrap_or(0)
    }
}

/// A root: the numbers of its fields, and its blocks in their order.
#[derive(Drop)]
pub struct Top {
    pub spaces: Spaces,
    pub number: u64,
    pub epoch: u64,
    pub has_older: bool,
    pub counts: [u32; 4],
    pub blocks: Vec<u32>,
}

/// The bytes of a page that is Whole.
pub fn whole(pages: &[PageState], page: u32) -> Option<&[u8]> {
    match pages.get(page as usize) {
        Some(PageState::Whole(bytes)) => Some(bytes.bytes()),
        _ => None,
    }
}

fn byte(page: &[u8], at: usize) -> u8 {
    page.get(at).copied().unwrap_or(0)
}

// The number of `size` bytes that begins here, the least byte first.
fn number(page: &[u8], at: usize, size: usize) -> u64 {
    let mut sum = 0u64;
    for i in 0..size {
        let place = at.saturating_add(size.saturating_sub(i + 1));
        sum = sum
            .wrapping_mul(256)
            .wrapping_add(u64::from(byte(page, place)));
    }
    sum
}

fn small(page: &[u8], at: usize, size: usize) -> u32 {
    (number(page, at, size.min(4)) % (1 << 32)) as u32
}

fn zeros(page: &[u8], from: usize, to: usize) -> bool {
    for i in from..to {
        if byte(page, i) != 0 {
            return false;
        }
    }
    true
}

fn is_text(page: &[u8], at: usize, text: &[u8]) -> bool {
    page.get(at..at.saturating_add(text.len())) == Some(text)
}

fn key_at(page: &[u8], at: usize) -> [u8; 16] {
    let mut key = [0u8; 16];
    for i in 0..16usize {
        key[i] = byte(page, at.saturating_add(i));
    }
    key
}

// Whether a value of `len` bytes may begin at this page.
fn may_be(shape: &Shape, first: u32, len: u32) -> bool {
    let count = shape.block_pages();
    count > 0
        && len <= shape.greatest()
        && first < shape.page_count()
        && first % 2 == 0
        && first / count >= 2
        && pages_of(shape, len).saturating_add(u64::from(first % count)) <= u64::from(count)
}

/// How many pages a value of `len` bytes has: those of as many pairs as take it with its head.
pub fn pages_of(shape: &Shape, len: u32) -> u64 {
    let pair = u64::from(shape.page_bytes().max(1)) * 2;
    (u64::from(len) + 32).div_ceil(pair) * 2
}

// The entry that begins here, if there is one.
fn item_at(shape: &Shape, page: &[u8], at: usize) -> Option<Item> {
    let key_len = byte(page, at);
    let space = byte(page, at.saturating_add(2));
    let kind = byte(page, at.saturating_add(1));
    let first = small(page, at.saturating_add(20), 4);
    let len = small(page, at.saturating_add(24), 4);
    let padding = at.saturating_add(4).saturating_add(usize::from(key_len));
    let is_sound = 1 <= key_len
        && key_len <= 16
        && space < 8
        && byte(page, at.saturating_add(3)) == 0
        && zeros(page, padding, at.saturating_add(20))
        && zeros(page, at.saturating_add(28), at.saturating_add(32));
    if !is_sound {
        return None;
    }
    let place = match kind {
        1 if may_be(shape, first, len) => Some((first, len)),
        2 if first == 0 && len == 0 => None,
        _ => return None,
    };
    let key = key_at(page, at.saturating_add(4));
    Some(Item {
        space: space.saturating_add(1),
        key,
        key_len,
        place,
    })
}

// Adds the entries of a page that has `count` of them, from 1 to those of a full one, and zeros
// after them: whether these are entries of keys in these namespaces.
fn push_items(
    shape: &Shape,
    spaces: &Spaces,
    page: &[u8],
    count: u32,
    into: &mut Vec<Item>,
) -> Result<bool, AllocError> {
    if count == 0 || count > shape.entries() {
        return Ok(false);
    }
    for i in 0..count as usize {
        match item_at(shape, page, i.saturating_mul(32).saturating_add(32)) {
            Some(item) if spaces.has(item.space) => into.push(item)?,
            _ => return Ok(false),
        }
    }
    let end = (count as usize).saturating_mul(32).saturating_add(32);
    Ok(zeros(page, end, shape.page_bytes() as usize))
}

/// Adds the entries of a page of an epoch, if it is one of the commit with this index.
pub fn push_commit(
    shape: &Shape,
    spaces: &Spaces,
    page: &[u8],
    epoch: u64,
    index: u32,
    into: &mut Vec<Item>,
) -> Result<bool, AllocError> {
    let is_one = is_text(page, 0, b"PINKJRNL")
        && number(page, 8, 8) == epoch
        && small(page, 16, 4) == index
        && zeros(page, 22, 32);
    if !is_one {
        return Ok(false);
    }
    push_items(shape, spaces, page, small(page, 20, 2), into)
}

/// Adds the entries of a page of a run, if it is the one with this index and has `count` of them.
pub fn push_meta(
    shape: &Shape,
    spaces: &Spaces,
    page: &[u8],
    level: u8,
    index: u32,
    count: u32,
    into: &mut Vec<Item>,
) -> Result<bool, AllocError> {
    let is_one = is_text(page, 0, b"PINKMETA")
        && byte(page, 8) == level
        && byte(page, 9) == 0
        && small(page, 10, 2) == count
        && small(page, 12, 4) == index
        && zeros(page, 16, 32);
    if !is_one {
        return Ok(false);
    }
    push_items(shape, spaces, page, count, into)
}

/// Whether this page begins the value of an entry of `len` bytes.
pub fn is_head(page: &[u8], item: &Item, len: u32) -> bool {
    byte(page, 0) == item.key_len
        && byte(page, 1) == 0x44
        && byte(page, 2).wrapping_add(1) == item.space
        && byte(page, 3) == 0
        && key_at(page, 4) == item.key
        && small(page, 20, 4) == len
        && is_text(page, 24, b"PINKDATA")
}

/// Whether the bytes of a page from this one on are zeros.
pub fn is_empty_from(page: &[u8], from: usize) -> bool {
    zeros(page, from, page.len())
}

// How many blocks a run of `entries` entries has.
fn blocks_of(shape: &Shape, entries: u32) -> u32 {
    let pages = entries.div_ceil(shape.entries().max(1));
    pages.div_ceil(shape.block_pages().max(1))
}

// How many blocks a root with these numbers names.
fn named_by(shape: &Shape, journal: u32, counts: &[u32; 4]) -> u32 {
    let mut sum = journal;
    for count in counts {
        sum = sum.saturating_add(blocks_of(shape, *count));
    }
    sum
}

fn are_within(shape: &Shape, counts: &[u32; 4]) -> bool {
    let mut level = 0u8;
    for count in counts {
        level = level.saturating_add(1);
        if level > 4 || *count > shape.cap(level).saturating_mul(shape.entries()) {
            return false;
        }
    }
    true
}

// The numbers of the blocks of a root from this place on, if all are there, and no two are the
// same.
fn blocks_at(
    alloc: Global,
    shape: &Shape,
    page: &[u8],
    from: usize,
    count: u32,
) -> Result<Option<Vec<u32>>, AllocError> {
    let mut blocks = Vec::new(alloc);
    for i in 0..count as usize {
        let block = small(page, i.saturating_mul(2).saturating_add(from), 2);
        if block < 2 || block >= shape.blocks() || blocks.contains(&block) {
            return Ok(None);
        }
        blocks.push(block)?;
    }
    Ok(Some(blocks))
}

fn counts_at(page: &[u8]) -> [u32; 4] {
    [
        small(page, 40, 4),
        small(page, 44, 4),
        small(page, 48, 4),
        small(page, 52, 4),
    ]
}

// Whether the fields of a root before its blocks are those of one on a flash of this shape.
fn is_top(shape: &Shape, page: &[u8]) -> bool {
    let journal = small(page, 18, 2);
    let root = number(page, 24, 8);
    let epoch = number(page, 32, 8);
    is_text(page, 0, b"PINKROOT")
        && small(page, 10, 2) == shape.block_pages()
        && small(page, 12, 4) == shape.page_bytes()
        && small(page, 16, 2) == shape.blocks()
        && (journal == 2 || journal == 4)
        && (if journal == 4 { 2 } else { 1 }) <= epoch
        && epoch <= root
        && zeros(page, 56, 64)
}

// The limits of this many namespaces of a root with limits, if each is at least one page, they are
// together no more than the drive has, and the other fields are zeros.
fn limits_at(shape: &Shape, page: &[u8], count: u8) -> Option<Spaces> {
    let mut limits = [0u32; 8];
    let mut sum = 0u64;
    let mut end = 64usize;
    for i in 0..usize::from(count) {
        let limit = small(page, end, 4);
        end = end.saturating_add(4);
        match limits.get_mut(i) {
            Some(place) if limit > 0 => *place = limit,
            _ => return None,
        }
        sum = sum.saturating_add(u64::from(limit));
    }
    let is_empty = zeros(page, end, 96);
    if sum > u64::from(shape.limit()) || !is_empty {
        return None;
    }
    Some(Spaces { count, limits })
}

// The namespaces of a root with limits, of which there are one to eight. In its page there has to be
// room for as many blocks as a root can name.
fn spaces_with_limits(shape: &Shape, page: &[u8]) -> Option<Spaces> {
    let count = small(page, 20, 4);
    let most = shape.meta_blocks().saturating_add(4);
    let has_room = 96 + 2 * u64::from(most) <= u64::from(shape.page_bytes());
    if !has_room || count == 0 || count > 8 {
        return None;
    }
    limits_at(shape, page, count as u8)
}

// The namespaces of a root without limits: one, with all pages.
fn one_space(shape: &Shape, page: &[u8]) -> Option<Spaces> {
    if !zeros(page, 20, 24) {
        return None;
    }
    let limits = [shape.limit(), 0, 0, 0, 0, 0, 0, 0];
    Some(Spaces { count: 1, limits })
}

// The namespaces of a root, and where its blocks begin.
fn spaces_of(shape: &Shape, page: &[u8]) -> Option<(Spaces, usize)> {
    match small(page, 8, 2) {
        2 => Some((one_space(shape, page)?, 64)),
        3 => Some((spaces_with_limits(shape, page)?, 96)),
        _ => None,
    }
}

/// The root that a page is, if it is one.
pub fn top_of(alloc: Global, shape: &Shape, page: &[u8]) -> Result<Option<Top>, AllocError> {
    let counts = counts_at(page);
    if !is_top(shape, page) || !are_within(shape, &counts) {
        return Ok(None);
    }
    let Some((spaces, from)) = spaces_of(shape, page) else {
        return Ok(None);
    };
    let journal = small(page, 18, 2);
    let count = named_by(shape, journal, &counts);
    let end = (count as usize).saturating_mul(2).saturating_add(from);
    if end > page.len() || !is_empty_from(page, end) {
        return Ok(None);
    }
    let blocks = match blocks_at(alloc, shape, page, from, count)? {
        Some(blocks) => blocks,
        None => return Ok(None),
    };
    Ok(Some(Top {
        spaces,
        number: number(page, 24, 8),
        epoch: number(page, 32, 8),
        has_older: journal == 4,
        counts,
        blocks,
    }))
}
