//! The worked rows: a program that fails in a session moves its block to a spare block, and five that fail use the spare blocks up.

use crate::spared::{
    BLOCK_PAGES, FIRST_TABLE_BLOCK, Failing, Image, LIST, call_after_opening, left, made, one,
    said, serve, serve_failing,
};
use pk_flash::{Flash, Left};
use pk_nand::{Mark, PageState};
use pk_test_scripts::program::{RECORDS, SCRIPT};
use pk_top::Status;
use std::alloc::Global;
use std::process::Abort;
use std::test::*;

// How many programs and erases a session makes before the first program of a value, and the page of this program. The two blocks of the
// roots come first on a flash; the programs of roots are passed over.
fn first_value(rt: &impl Abort, flash: &Flash) -> (usize, u32) {
    for mark in 0..flash.marks() {
        if let Mark::Program { page, .. } = flash.mark(mark) {
            if *page >= 2 * BLOCK_PAGES {
                return (mark, *page);
            }
        }
    }
    panic!(rt; "a program of a value")
}

// The call of the first program of a value in the worked session: of the calls whose failure uses a spare block, which are programs and
// erases, the one after so many.
fn call_of_value(rt: &impl Abort, alloc: Global, image: &Image, before: usize) -> u64 {
    let quiet = serve(rt, alloc, image, &SCRIPT);
    let start = call_after_opening(&quiet.flash);
    let mut found = 0usize;
    for call in start..start.saturating_add(40) {
        let failing = one(rt, alloc, call, Left::Untouched);
        let ran = serve_failing(rt, alloc, image, &SCRIPT, failing);
        if ran.status == Status::DONE && ran.left == 3 {
            if found == before {
                return call;
            }
            found = found.saturating_add(1);
        }
    }
    panic!(rt; "a call that programs a value")
}

// The bytes of a page of the inner flash, if it is Whole.
fn bytes_of(flash: &Flash, page: u32) -> Option<&[u8]> {
    let shape = flash.shape()?;
    if page >= shape.page_count() {
        return None;
    }
    match flash.page(page) {
        PageState::Whole(bytes) => Some(bytes.bytes()),
        _ => None,
    }
}

// The first bytes of table 2 of this drive, of whose spare blocks the first one has a block; the number of the block follows.
const TABLE: [u8; 32] = [
    0x50, 0x49, 0x4e, 0x4b, 0x53, 0x50, 0x41, 0x52, 2, 0, 0, 0, 0, 0, 0, 0, 0, 2, 0, 0, 16, 0, 64,
    0, 4, 0, 1, 0, 0, 0, 0, 0,
];

// Whether a page of the table blocks is that table, with this block.
fn has_table(rt: &impl Abort, alloc: Global, flash: &Flash, block: u32) -> bool {
    let number = block.to_le_bytes();
    let mut wanted = TABLE.to_vec(alloc).expect(rt, "memory");
    wanted
        .extend_from_slice(&[number[0], number[1]])
        .expect(rt, "memory");
    let first = FIRST_TABLE_BLOCK * BLOCK_PAGES;
    for page in first..first + 2 * BLOCK_PAGES {
        if let Some(bytes) = bytes_of(flash, page) {
            if bytes.starts_with(&wanted) {
                return true;
            }
        }
    }
    false
}

/// The first program of the value is left Torn: the session is as without the fault, and three spare blocks remain.
#[test]
fn a_block_that_moves(rt: HostRuntime) {
    let alloc = rt.alloc();
    let image = made(&rt, alloc);
    let quiet = serve(&rt, alloc, &image, &SCRIPT);
    assert!(rt; quiet.status == Status::DONE && quiet.left == 4);
    assert!(rt; quiet.flash.posted() == RECORDS.as_slice());
    let (before, page) = first_value(&rt, &quiet.flash);
    assert!(rt;
        page == 32,
        "the first page of the first block after those of the roots"
    );
    let call = call_of_value(&rt, alloc, &image, before);
    let failing = one(&rt, alloc, call, Left::Torn);
    let ran = serve_failing(&rt, alloc, &image, &SCRIPT, failing);
    assert!(rt; ran.status == Status::DONE && ran.left == 3);
    assert!(rt; ran.flash.posted() == RECORDS.as_slice());
    assert!(rt; has_table(&rt, alloc, &ran.flash, page / BLOCK_PAGES));
}

// The call of this number and every second one after it, five in all.
fn every_second(rt: &impl Abort, alloc: Global, call: u64) -> Vec<Failing> {
    let mut all = Vec::new(alloc);
    for number in 0..5u64 {
        let call = call.saturating_add(2 * number);
        let left = Left::Torn;
        all.push(Failing { call, left }).expect(rt, "memory");
    }
    all
}

/// The first program of a value and four more fail one after another, each on the block or the spare block in use: the session stops with
/// nothing posted. The map is empty when the drive is opened again, and no table was written, so four spare blocks are left.
#[test]
fn spare_blocks_that_are_used_up(rt: HostRuntime) {
    let alloc = rt.alloc();
    let image = made(&rt, alloc);
    let quiet = serve(&rt, alloc, &image, &SCRIPT);
    let (before, _) = first_value(&rt, &quiet.flash);
    let call = call_of_value(&rt, alloc, &image, before);
    let ran = serve_failing(&rt, alloc, &image, &SCRIPT, every_second(&rt, alloc, call));
    assert!(rt; ran.status == Status::FLASH && ran.left == 0);
    assert!(rt; ran.flash.posted().is_empty());
    let image = left(&rt, alloc, &ran.flash);
    let again = said(&rt, alloc, &image, &LIST, &[]);
    assert!(rt; again.left == 4);
}
