//! Images whose tables are missing, wrong or more than one, and words that are refused.

use crate::spared::{
    BLOCK_PAGES, FIRST_TABLE_BLOCK, GET, LIST, MAKE, board_of, inner, left, made, made_by,
    run_over, said, serve,
};
use pk_flash::Flash;
use pk_nand::PageState;
use pk_test_scripts::boards;
use pk_test_scripts::program::SCRIPT;
use pk_test_scripts::script::{Answer, Ask, Value, records, script_over};
use pk_top::{Status, run_spared};
use std::alloc::Global;
use std::process::Abort;
use std::test::*;

// The drive is not opened, and nothing is done to its flash.
fn no_drive(rt: &impl Abort, alloc: Global, flash: Flash, words: &[&str]) {
    let ran = run_over(rt, alloc, flash, words);
    assert!(rt; ran.status == Status::NO_DRIVE && ran.left == 0);
    assert!(rt; ran.flash.marks() == 0 && ran.flash.posted().is_empty());
}

/// An image without a table has no drive with spare blocks.
#[test]
fn no_table(rt: HostRuntime) {
    let alloc = rt.alloc();
    let flash = boards::blank(alloc, Some(inner(&rt)), Vec::new(alloc)).expect(&rt, "memory");
    no_drive(&rt, alloc, flash, &LIST);
}

/// A table of other spare blocks is no table: an image that was made with three has no drive with four, nor one that was made with four a
/// drive with three.
#[test]
fn a_table_of_another_shape(rt: HostRuntime) {
    let alloc = rt.alloc();
    let blank = boards::blank(alloc, None, Vec::new(alloc)).expect(&rt, "memory");
    let other = run_over(
        &rt,
        alloc,
        blank,
        &["spared", "3", "make", "512", "16", "65"],
    );
    assert!(rt; other.status == Status::DONE && other.left == 3);
    let image = left(&rt, alloc, &other.flash);
    no_drive(&rt, alloc, board_of(&rt, alloc, &image, &[]), &LIST);
    let own = made(&rt, alloc);
    let words = ["spared", "3", "list"];
    no_drive(&rt, alloc, board_of(&rt, alloc, &own, &[]), &words);
}

// Another page in place of one that there is.
fn put(rt: &impl Abort, pages: &mut Vec<PageState>, at: usize, page: PageState) {
    match pages.get_mut(at) {
        Some(place) => *place = page,
        None => panic!(rt; "a page"),
    }
}

/// Of two tables with one number the one in the lower page counts: a second copy of the table in the other block changes nothing.
#[test]
fn two_tables(rt: HostRuntime) {
    let alloc = rt.alloc();
    let ran = serve(&rt, alloc, &made(&rt, alloc), &SCRIPT);
    let mut image = left(&rt, alloc, &ran.flash);
    let from = (FIRST_TABLE_BLOCK * BLOCK_PAGES) as usize;
    let table = match image.pages.get(from) {
        Some(page) => boards::copied(alloc, page).expect(&rt, "memory"),
        None => panic!(rt; "a table"),
    };
    put(&rt, &mut image.pages, from + BLOCK_PAGES as usize, table);
    let again = said(&rt, alloc, &image, &GET, b"ok 616263\n");
    assert!(rt; again.left == 4);
}

/// One page of the pair of the table is enough.
#[test]
fn half_a_table(rt: HostRuntime) {
    let alloc = rt.alloc();
    let ran = serve(&rt, alloc, &made(&rt, alloc), &SCRIPT);
    let mut image = left(&rt, alloc, &ran.flash);
    let from = (FIRST_TABLE_BLOCK * BLOCK_PAGES) as usize;
    put(&rt, &mut image.pages, from, PageState::Torn);
    said(&rt, alloc, &image, &GET, b"ok 616263\n");
}

/// An image of spare blocks that is there is not made again.
#[test]
fn an_image_that_is_there(rt: HostRuntime) {
    let alloc = rt.alloc();
    let image = made(&rt, alloc);
    let ran = run_over(&rt, alloc, board_of(&rt, alloc, &image, &[]), &MAKE);
    assert!(rt; ran.status == Status::IMAGE_EXISTS && ran.flash.marks() == 0);
}

// The words are refused, and the board is dropped.
fn refused(rt: &impl Abort, alloc: Global, words: &[&str]) {
    let flash = boards::blank(alloc, None, Vec::new(alloc)).expect(rt, "memory");
    let (status, remap) = run_spared(alloc, words, flash, 0);
    assert!(rt; status == Status::WORDS && remap.is_none());
}

/// Words that ask for no spare blocks, for too many, for a word that needs no drive, or for a shape that does not fit.
#[test]
fn refused_words(rt: HostRuntime) {
    let alloc = rt.alloc();
    refused(&rt, alloc, &["spared"]);
    refused(&rt, alloc, &["spared", "4"]);
    refused(&rt, alloc, &["spared", "0", "list"]);
    refused(&rt, alloc, &["spared", "65", "list"]);
    refused(&rt, alloc, &["spared", "04", "list"]);
    refused(&rt, alloc, &["spared", "4", "asm"]);
    refused(&rt, alloc, &["spared", "4", "show"]);
    refused(&rt, alloc, &["spared", "4", "spared", "4", "list"]);
    refused(&rt, alloc, &["spared", "4", "put", "61", "6"]);
    refused(&rt, alloc, &["spared", "4", "make", "512", "16", "4095"]);
    refused(&rt, alloc, &["list"]);
}

/// A drive with spare blocks and limits of two namespaces: it is asked for in the words of `make`, and answers each namespace apart.
#[test]
fn limits_with_spare_blocks(rt: HostRuntime) {
    let alloc = rt.alloc();
    refused(
        &rt,
        alloc,
        &["spared", "4", "make", "512", "16", "64", "100", "393"],
    );
    refused(&rt, alloc, &["spared", "4", "make", "512", "16", "64", "0"]);
    let words = ["spared", "4", "make", "512", "16", "64", "100", "392"];
    let image = made_by(&rt, alloc, &words);
    let value = Value { first: 1, len: 600 };
    let asks = [
        (2u32, Ask::Store(0x61, value)),
        (1u32, Ask::Retrieve(0x61)),
        (2u32, Ask::Retrieve(0x61)),
    ];
    let input = script_over(alloc, &asks).expect(&rt, "memory");
    let answers = [Answer::Done, Answer::Missing, Answer::Found(value)];
    let wanted = records(alloc, &answers).expect(&rt, "memory");
    let ran = serve(&rt, alloc, &image, &input);
    assert!(rt; ran.status == Status::DONE && ran.left == 4);
    assert!(rt; ran.flash.posted() == wanted.as_slice());
}
