//! Pages by hand, byte for byte as their formats say, of 512 bytes.

use crate::script::{Value, push_value};
use pk_base::{put_text, put_u8, put_u16, put_u32, put_u64};
use pk_nand::{PageBytes, PageState};
use std::alloc::{AllocError, Global};
use std::test::*;

/// An entry of a key of one byte.
#[derive(Clone, Copy)]
pub enum Note {
    /// Its value begins at this page and has this many bytes.
    Put(u8, u32, u32),
    /// It was deleted.
    Gone(u8),
}

// Writes an entry at this place among those of a page, which has room for 15.
fn put_note(page: &mut [u8], i: usize, note: &Note) {
    if i >= 15 || page.len() < 512 {
        return;
    }
    let at = 32 + 32 * i;
    put_u8(page, at, 1);
    match note {
        Note::Put(key, first, len) => {
            put_u8(page, at + 1, 1);
            put_u8(page, at + 4, *key);
            put_u32(page, at + 20, *first);
            put_u32(page, at + 24, *len);
        }
        Note::Gone(key) => {
            put_u8(page, at + 1, 2);
            put_u8(page, at + 4, *key);
        }
    }
}

fn put_notes(page: &mut [u8], notes: &[Note]) {
    for i in 0..notes.len() {
        put_note(page, i, &notes[i]);
    }
}

/// The page of the commit of an epoch with this index.
pub fn journal_page(epoch: u64, index: u32, notes: &[Note]) -> [u8; 512] {
    let mut page = [0u8; 512];
    put_text(&mut page, 0, b"PINKJRNL");
    put_u64(&mut page, 8, epoch);
    put_u32(&mut page, 16, index);
    put_u16(&mut page, 20, notes.len().min(15) as u16);
    put_notes(&mut page, notes);
    page
}

/// The page of a run with this index.
pub fn meta_page(level: u8, index: u32, notes: &[Note]) -> [u8; 512] {
    let mut page = [0u8; 512];
    put_text(&mut page, 0, b"PINKMETA");
    put_u8(&mut page, 8, level);
    put_u16(&mut page, 10, notes.len().min(15) as u16);
    put_u32(&mut page, 12, index);
    put_notes(&mut page, notes);
    page
}

/// How large a flash is: the bytes of a page, the pages of a block, and the blocks.
#[derive(Clone, Copy)]
pub struct Sizes {
    pub page_bytes: u16,
    pub block_pages: u16,
    pub blocks: u16,
}

/// What a root records: its number, the newest epoch, how many epochs have blocks, one or two, the
/// entries of the runs, and the blocks of the epochs and of the runs.
#[derive(Clone, Copy)]
pub struct Top<'a> {
    pub number: u64,
    pub epoch: u64,
    pub epochs: u16,
    pub runs: [u32; 4],
    pub blocks: &'a [u16],
}

/// Writes a root of a flash of these sizes into a page.
pub fn put_root(page: &mut [u8], sizes: &Sizes, top: &Top) {
    if page.len() < 512 {
        return;
    }
    put_text(page, 0, b"PINKROOT");
    put_u16(page, 8, 2);
    put_u16(page, 18, top.epochs.saturating_mul(2));
    put_u64(page, 24, top.number);
    put_u64(page, 32, top.epoch);
    put_sizes(page, sizes);
    put_runs(page, &top.runs);
    put_blocks(page, top.blocks);
}

fn put_sizes(page: &mut [u8], sizes: &Sizes) {
    if page.len() < 512 {
        return;
    }
    put_u16(page, 10, sizes.block_pages);
    put_u32(page, 12, u32::from(sizes.page_bytes));
    put_u16(page, 16, sizes.blocks);
}

fn put_runs(page: &mut [u8], runs: &[u32; 4]) {
    for i in 0..4usize {
        if page.len() >= 512 {
            put_u32(page, 40 + 4 * i, runs[i]);
        }
    }
}

// Writes the numbers of at most 20 blocks.
fn put_blocks(page: &mut [u8], blocks: &[u16]) {
    for i in 0..blocks.len().min(20) {
        if page.len() >= 512 {
            put_u16(page, 64 + 2 * i, blocks[i]);
        }
    }
}

/// The root of a flash of 64 blocks of 16 pages with this number, this newest epoch, these entries of its runs, and these blocks: of the
/// epochs, of which there are one or two, and of the runs.
pub fn root_page(
    number: u64,
    epoch: u64,
    epochs: u16,
    runs: [u32; 4],
    blocks: &[u16],
) -> [u8; 512] {
    let mut page = [0u8; 512];
    let sizes = Sizes {
        page_bytes: 512,
        block_pages: 16,
        blocks: 64,
    };
    let top = Top {
        number,
        epoch,
        epochs,
        runs,
        blocks,
    };
    put_root(&mut page, &sizes, &top);
    page
}

// The root with 32 zero bytes before its list.
fn with_room(root: &[u8; 512]) -> [u8; 512] {
    let mut page = *root;
    for i in 64..104 {
        page[i + 32] = root[i];
    }
    for i in 64..96 {
        page[i] = 0;
    }
    page
}

/// The root with these limits of namespaces, at most eight, in place of one without limits. It names at most 20 blocks.
pub fn with_limits(root: &[u8; 512], limits: &[u32]) -> [u8; 512] {
    let mut page = with_room(root);
    put_u16(&mut page, 8, 3);
    put_u32(&mut page, 20, limits.len().min(8) as u32);
    for i in 0..limits.len().min(8) {
        put_u32(&mut page, 64 + 4 * i, limits[i]);
    }
    page
}

// Puts the entry or head that begins here into namespace 2, if its key begins with at least this byte.
fn put_second(page: &mut [u8], at: usize, first: u8) {
    let key = page.get(at.saturating_add(4)).copied().unwrap_or(0);
    match page.get_mut(at.saturating_add(2)) {
        Some(byte) if key >= first => *byte = 1,
        _ => {}
    }
}

/// How many entries a page of an epoch or of a run has; none if it is neither.
pub fn entries_of(page: &[u8]) -> u8 {
    let at = if page.get(..8) == Some(b"PINKJRNL".as_slice()) {
        20
    } else if page.get(..8) == Some(b"PINKMETA".as_slice()) {
        10
    } else {
        return 0;
    };
    page.get(at).copied().unwrap_or(0)
}

// The same with all entries of a page of an epoch or a run, or with the head in a value's first page; another page is unchanged.
fn split_page(page: &mut [u8], first: u8) {
    for i in 0..entries_of(page) {
        put_second(page, 32 + 32 * usize::from(i), first);
    }
    if page.get(24..32) == Some(b"PINKDATA".as_slice()) {
        put_second(page, 0, first);
    }
}

fn split_state(
    alloc: Global,
    page: &PageState,
    first: u8,
) -> Result<Option<PageState>, AllocError> {
    match page {
        PageState::Whole(bytes) => {
            let mut own = bytes.bytes().to_vec(alloc)?;
            split_page(&mut own, first);
            Ok(Some(PageState::Whole(PageBytes::of(own))))
        }
        _ => Ok(None),
    }
}

/// Puts the keys that begin with at least this byte into namespace 2, on all pages of epochs, runs and values.
pub fn split_keys(alloc: Global, pages: &mut Vec<PageState>, first: u8) -> Result<(), AllocError> {
    for i in 0..pages.len() {
        if let Some(page) = split_state(alloc, &pages[i], first)? {
            pages[i] = page;
        }
    }
    Ok(())
}

// The head of a value, the value, and zeros up to whole pairs of pages.
fn value_bytes(alloc: Global, key: u8, value: &Value) -> Result<Vec<u8>, AllocError> {
    let mut bytes = value_head(key, value.len).to_vec(alloc)?;
    push_padded(&mut bytes, value)?;
    Ok(bytes)
}

fn value_head(key: u8, len: u32) -> [u8; 32] {
    let mut head = [0u8; 32];
    put_u8(&mut head, 0, 1);
    put_u8(&mut head, 1, 0x44);
    put_u8(&mut head, 4, key);
    put_u32(&mut head, 20, len);
    put_text(&mut head, 24, b"PINKDATA");
    head
}

fn push_padded(into: &mut Vec<u8>, value: &Value) -> Result<(), AllocError> {
    push_value(into, value)?;
    for _ in 0..1024u32 {
        if into.len() % 1024 != 0 {
            into.push(0)?;
        }
    }
    Ok(())
}

/// Sets one page.
pub fn set(pages: &mut Vec<PageState>, at: u32, page: PageState) -> Result<(), Fail> {
    let at = at as usize;
    if at >= pages.len() {
        return Err(Fail::from("a page"));
    }
    pages[at] = page;
    Ok(())
}

/// Makes this page Whole with these bytes.
pub fn write(alloc: Global, pages: &mut Vec<PageState>, at: u32, bytes: &[u8]) -> Result<(), Fail> {
    let own = bytes.to_vec(alloc)?;
    set(pages, at, PageState::Whole(PageBytes::of(own)))
}

/// Makes both pages of a pair Whole with these bytes.
pub fn write_pair(
    alloc: Global,
    pages: &mut Vec<PageState>,
    first: u32,
    bytes: &[u8],
) -> Result<(), Fail> {
    write(alloc, pages, first, bytes)?;
    write(alloc, pages, first.saturating_add(1), bytes)
}

/// Writes the pages of a value of at most 4 pages, from this one on.
pub fn write_value(
    alloc: Global,
    pages: &mut Vec<PageState>,
    first: u32,
    key: u8,
    value: &Value,
) -> Result<(), Fail> {
    let bytes = value_bytes(alloc, key, value)?;
    write_pages(alloc, pages, first, &bytes)
}

// Writes at most 4 pages of bytes, from this one on.
fn write_pages(
    alloc: Global,
    pages: &mut Vec<PageState>,
    first: u32,
    bytes: &[u8],
) -> Result<(), Fail> {
    for i in 0..4u8 {
        let from = 512 * usize::from(i);
        if let Some(page) = bytes.get(from..from + 512) {
            write(alloc, pages, first.saturating_add(u32::from(i)), page)?;
        }
    }
    Ok(())
}

/// `count` Erased pages.
pub fn erased(alloc: Global, count: u32) -> Result<Vec<PageState>, AllocError> {
    let mut pages = Vec::new(alloc);
    for _ in 0..count {
        pages.push(PageState::Erased)?;
    }
    Ok(pages)
}
