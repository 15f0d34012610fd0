//! Flashes with runs on all four levels, whose pages are made by hand.
//!
//! The lists are, from the first that counts: the newest epoch, the older one, and runs 1 to 4.
//! Keys are bytes, and the value of a key is at a place of its own. An entry that one of an earlier
//! list covers names a page that has no value.

use crate::pages::{
    Note, erased, journal_page, meta_page, root_page, split_keys, with_limits, write, write_pair,
    write_value,
};
use crate::script::Value;
use pk_nand::PageState;
use std::alloc::{AllocError, Global};
use std::test::*;

/// A page without a value.
pub const NOTHING: u32 = 1008;

/// The keys that exist.
pub const KEYS: [u8; 43] = [
    0, 1, 2, 3, 4, 5, 6, 7, 9, 14, 16, 20, 21, 22, 24, 25, 26, 27, 28, 32, 33, 34, 35, 36, 38, 39,
    40, 42, 44, 45, 46, 48, 50, 52, 54, 55, 56, 58, 60, 62, 65, 75, 80,
];

/// The value of a key. Those of two keys need two pages, and the others one, with zeros in the second page of their pair.
pub fn value_of(key: u8) -> Value {
    let len = if key == 33 || key == 40 { 600 } else { 100 };
    Value { first: key, len }
}

// The first page of the value of a key, from block 20 on.
fn place(key: u8) -> u32 {
    320 + 2 * u32::from(key)
}

// The entry of a key that exists.
fn there(key: u8) -> Note {
    Note::Put(key, place(key), value_of(key).len)
}

// The entry of a key that an earlier list has.
fn covered(key: u8) -> Note {
    Note::Put(key, NOTHING, 100)
}

// Keys with the same distance from one to the next, from one to another, of which these were deleted and these are covered.
fn notes(
    alloc: Global,
    from: u8,
    to: u8,
    distance: u8,
    gone: &[u8],
    stale: &[u8],
) -> Result<Vec<Note>, AllocError> {
    let mut notes = Vec::new(alloc);
    let mut next = from;
    for key in from..=to {
        if key == next {
            next = next.saturating_add(distance);
            notes.push(note(key, gone, stale))?;
        }
    }
    Ok(notes)
}

// The entry of a key, of which these were deleted and these are covered.
fn note(key: u8, gone: &[u8], stale: &[u8]) -> Note {
    if gone.contains(&key) {
        Note::Gone(key)
    } else if stale.contains(&key) {
        covered(key)
    } else {
        there(key)
    }
}

// Writes a run of this level into a block, with 15 entries in each page but the last.
fn write_run(
    alloc: Global,
    pages: &mut Vec<PageState>,
    level: u8,
    block: u32,
    notes: &[Note],
) -> Result<(), Fail> {
    let first = block.saturating_mul(16);
    for index in 0..4u8 {
        let notes = on_page(notes, index);
        if !notes.is_empty() {
            let page = meta_page(level, u32::from(index), notes);
            write(alloc, pages, first.saturating_add(u32::from(index)), &page)?;
        }
    }
    Ok(())
}

// The entries of the page with this index.
fn on_page(notes: &[Note], index: u8) -> &[Note] {
    let from = 15 * usize::from(index);
    let to = (from + 15).min(notes.len());
    notes.get(from..to).unwrap_or(&[])
}

// Writes runs of 2, 16, 31 and 17 entries into the blocks 6 to 9. They have 1, 2, 3 and 2 pages.
fn write_runs(alloc: Global, pages: &mut Vec<PageState>) -> Result<(), Fail> {
    write_run(alloc, pages, 1, 6, &[Note::Gone(10), there(20)])?;
    write_second(alloc, pages)?;
    write_third(alloc, pages)?;
    write_fourth(alloc, pages)
}

fn write_second(alloc: Global, pages: &mut Vec<PageState>) -> Result<(), Fail> {
    let notes = notes(alloc, 5, 80, 5, &[15, 70], &[10, 20, 30, 60])?;
    write_run(alloc, pages, 2, 7, &notes)
}

fn write_third(alloc: Global, pages: &mut Vec<PageState>) -> Result<(), Fail> {
    let notes = notes(alloc, 2, 62, 2, &[8, 12], &[10, 18, 20, 30, 40, 50, 60])?;
    write_run(alloc, pages, 3, 8, &notes)
}

fn write_fourth(alloc: Global, pages: &mut Vec<PageState>) -> Result<(), Fail> {
    let under = [6, 12, 15, 18, 24, 30, 36, 42, 45, 48];
    let notes = notes(alloc, 0, 48, 3, &[], &under)?;
    write_run(alloc, pages, 4, 9, &notes)
}

// Epoch 3 in the blocks 2 and 3, over epoch 2 in the blocks 4 and 5.
fn write_two_epochs(alloc: Global, pages: &mut Vec<PageState>) -> Result<(), Fail> {
    write_pair(alloc, pages, 64, &journal_page(2, 0, &first_notes()))?;
    write_pair(alloc, pages, 32, &journal_page(3, 0, &next_notes()))?;
    write_pair(alloc, pages, 34, &journal_page(3, 1, &last_notes()))?;
    write_root(alloc, pages, 2, &[2, 3, 4, 5, 6, 7, 8, 9])
}

// The entries of the journal, in three commits.
fn first_notes() -> [Note; 3] {
    [Note::Gone(30), there(7), Note::Gone(1)]
}

fn next_notes() -> [Note; 2] {
    [covered(1), Note::Gone(18)]
}

fn last_notes() -> [Note; 2] {
    [there(1), there(60)]
}

// The entries of the runs.
const RUNS: [u32; 4] = [2, 16, 31, 17];

// Writes the root with this many epochs.
fn write_root(
    alloc: Global,
    pages: &mut Vec<PageState>,
    epochs: u16,
    blocks: &[u16],
) -> Result<(), Fail> {
    let page = root_page(7, 3, epochs, RUNS, blocks);
    write_pair(alloc, pages, 0, &page)
}

// The same entries in epoch 3 alone, in the blocks 2 and 3.
fn write_one_epoch(alloc: Global, pages: &mut Vec<PageState>) -> Result<(), Fail> {
    write_pair(alloc, pages, 32, &journal_page(3, 0, &first_notes()))?;
    write_pair(alloc, pages, 34, &journal_page(3, 1, &next_notes()))?;
    write_pair(alloc, pages, 36, &journal_page(3, 2, &last_notes()))?;
    write_root(alloc, pages, 1, &[2, 3, 6, 7, 8, 9])
}

// Runs and the values of all keys that exist, without an epoch and without a root.
fn with_runs(alloc: Global) -> Result<Vec<PageState>, Fail> {
    let mut pages = erased(alloc, 1024)?;
    write_runs(alloc, &mut pages)?;
    write_values(alloc, &mut pages)?;
    Ok(pages)
}

fn write_values(alloc: Global, pages: &mut Vec<PageState>) -> Result<(), Fail> {
    for key in &KEYS {
        write_value(alloc, pages, place(*key), *key, &value_of(*key))?;
    }
    Ok(())
}

/// The flash whose lists are all six.
pub fn with_two_epochs(alloc: Global) -> Result<Vec<PageState>, Fail> {
    let mut pages = with_runs(alloc)?;
    write_two_epochs(alloc, &mut pages)?;
    Ok(pages)
}

/// The same flash, but for keys from this one on, which are in namespace 2, and a root with these limits.
pub fn with_two_spaces(alloc: Global, first: u8, limits: &[u32]) -> Result<Vec<PageState>, Fail> {
    let mut pages = with_two_epochs(alloc)?;
    split_keys(alloc, &mut pages, first)?;
    let root = root_page(7, 3, 2, RUNS, &[2, 3, 4, 5, 6, 7, 8, 9]);
    write_pair(alloc, &mut pages, 0, &with_limits(&root, limits))?;
    Ok(pages)
}

/// The same entries in a flash whose newest epoch alone has those of the buffers.
pub fn with_one_epoch(alloc: Global) -> Result<Vec<PageState>, Fail> {
    let mut pages = with_runs(alloc)?;
    write_one_epoch(alloc, &mut pages)?;
    Ok(pages)
}
