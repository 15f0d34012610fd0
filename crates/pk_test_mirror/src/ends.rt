//! Drives that are worn, damaged or full.

use crate::pairs::{
    Images, MAKE_SMALL, MAKE_WORKED, alone, board_of, done, empty, images_of, made, run_over, said,
    same_alone, shape_of,
};
use pk_nand::{PageBytes, PageState};
use pk_test_scripts::boards::pages_left;
use pk_test_scripts::script::{Ask, Value};
use std::alloc::Global;
use std::process::Abort;
use std::test::*;

// A page of a root with this number in place of its own, which begins at byte 24.
fn numbered(rt: &impl Abort, alloc: Global, page: &PageState, number: u64) -> PageState {
    let PageState::Whole(bytes) = page else {
        panic!(rt; "a root");
    };
    let mut root = bytes.bytes().to_vec(alloc).expect(rt, "memory");
    assert!(rt; root.len() >= 32, "a root");
    root[24..32].copy_from_slice(&number.to_le_bytes());
    PageState::Whole(PageBytes::of(root))
}

// A made drive of 64 blocks whose root, the only one, has this number in both of its pages.
fn made_with_number(rt: &impl Abort, alloc: Global, number: u64) -> Vec<PageState> {
    let mut pages = done(rt, pages_left(alloc, &made(rt, alloc, MAKE_WORKED)));
    for page in 0..2usize {
        match pages.get_mut(page) {
            Some(state) => *state = numbered(rt, alloc, state, number),
            None => panic!(rt; "a root"),
        }
    }
    pages
}

// Two drives of 64 blocks whose roots have these numbers.
fn with_numbers(rt: &impl Abort, alloc: Global, first: u64, second: u64) -> Images {
    Images {
        shape: shape_of(rt, &made(rt, alloc, MAKE_WORKED)),
        first: made_with_number(rt, alloc, first),
        second: made_with_number(rt, alloc, second),
    }
}

// A word over both has this status, and posts and writes nothing.
fn refused(rt: &impl Abort, alloc: Global, images: &Images, text: &str, status: u8) {
    let ran = run_over(rt, alloc, images, text);
    assert!(rt;
        ran.status == status && ran.first.posted().is_empty(),
        "{text}"
    );
    assert!(rt; ran.first.marks() == 0 && ran.second.marks() == 0, "{text}");
}

const WORDS: [&str; 5] = ["put 61 616263", "get 61", "del 61", "list", "resync"];

const WORN: u64 = 1 << 63;

/// No word is done when either drive is worn; the last store before that is.
#[test]
fn worn_drives(rt: HostRuntime) {
    let alloc = rt.alloc();
    for text in WORDS {
        refused(&rt, alloc, &with_numbers(&rt, alloc, WORN, 1), text, 10);
        refused(&rt, alloc, &with_numbers(&rt, alloc, 1, WORN), text, 10);
    }
    let last = with_numbers(&rt, alloc, WORN - 1, WORN - 1);
    let worn = said(&rt, alloc, &last, "put 61 616263", b"ok\n");
    refused(&rt, alloc, &worn, "get 61", 10);
}

// These pages, of which the one of the first value is torn.
fn torn(rt: &impl Abort, alloc: Global, images: &Images, pages: &[PageState]) -> Vec<PageState> {
    let mut torn = done(
        rt,
        pages_left(alloc, &board_of(rt, alloc, images.shape, pages)),
    );
    match torn.get_mut(32) {
        Some(page) => *page = PageState::Torn,
        None => panic!(rt; "a page"),
    }
    torn
}

/// No word is done when either drive is damaged.
#[test]
fn damaged_drives(rt: HostRuntime) {
    let alloc = rt.alloc();
    let images = empty(&rt, alloc, MAKE_WORKED);
    let images = said(&rt, alloc, &images, "put 61 616263", b"ok\n");
    for text in WORDS {
        let first = Images {
            shape: images.shape,
            first: torn(&rt, alloc, &images, &images.first),
            second: done(
                &rt,
                pages_left(alloc, &board_of(&rt, alloc, images.shape, &images.second)),
            ),
        };
        refused(&rt, alloc, &first, text, 8);
        let second = Images {
            shape: images.shape,
            first: done(
                &rt,
                pages_left(alloc, &board_of(&rt, alloc, images.shape, &images.first)),
            ),
            second: torn(&rt, alloc, &images, &images.second),
        };
        refused(&rt, alloc, &second, text, 8);
    }
}

// The longest value of a drive of 33 blocks, which takes two pages: six of them fill it.
const LONGEST: Value = Value { first: 1, len: 992 };

// A full drive of 33 blocks with these keys.
fn full(rt: &impl Abort, alloc: Global, keys: [u8; 6]) -> Vec<PageState> {
    let made = made(rt, alloc, MAKE_SMALL);
    let mut asks = Vec::new(alloc);
    for key in keys {
        asks.push(Ask::Store(key, LONGEST)).expect(rt, "memory");
    }
    let input = pk_test_scripts::script::script(alloc, &asks).expect(rt, "memory");
    let shape = shape_of(rt, &made);
    let pages = done(rt, pages_left(alloc, &made));
    let mut flash = done(rt, pk_test_scripts::board(alloc, shape, pages, input));
    assert!(rt; pk_top::run(alloc, &["serve", "36"], &mut flash).0 == 0);
    done(rt, pages_left(alloc, &flash))
}

/// A second drive that is full of other keys is made equal to a full first; a store that the first refuses for want of space is not
/// asked of the second; a value gives way to another of as many pages, of which none has fewer than two, and a new key has room after a
/// Delete.
#[test]
fn full_drives(rt: HostRuntime) {
    let alloc = rt.alloc();
    let images = Images {
        shape: shape_of(&rt, &made(&rt, alloc, MAKE_SMALL)),
        first: full(&rt, alloc, [0x61, 0x62, 0x63, 0x64, 0x65, 0x66]),
        second: full(&rt, alloc, [0x71, 0x72, 0x73, 0x74, 0x75, 0x76]),
    };
    let other = alone(&rt, alloc, images.shape, &images.second, "list");
    assert!(rt; other.posted() == b"71\n72\n73\n74\n75\n76\n".as_slice());
    let ran = run_over(&rt, alloc, &images, "put 67 -");
    assert!(rt; ran.status == 0 && ran.first.posted() == b"refused 81\n".as_slice());
    let images = images_of(&rt, alloc, &ran.first, &ran.second);
    for text in ["list", "get 61", "get 66", "get 67", "get 71"] {
        same_alone(&rt, alloc, &images, text);
    }
    let images = said(&rt, alloc, &images, "list", b"61\n62\n63\n64\n65\n66\n");
    let images = said(&rt, alloc, &images, "put 61 00", b"ok\n");
    let images = said(&rt, alloc, &images, "put 67 -", b"refused 81\n");
    let images = said(&rt, alloc, &images, "del 62", b"ok\n");
    let images = said(&rt, alloc, &images, "put 67 -", b"ok\n");
    same_alone(&rt, alloc, &images, "list");
}
