//! The worked rows, and the words of a pair.

use crate::pairs::{
    Half, Images, MAKE_SMALL, MAKE_WORKED, Ran, alone, blank, empty, images_of, made, pair_status,
    run_failing, run_over, said,
};
use pk_flash::{Flash, Left};
use pk_nand::Mark;
use std::alloc::Global;
use std::process::Abort;
use std::test::*;

// The pages of a block of a drive that `MAKE_WORKED` makes.
const BLOCK_PAGES: u32 = 16;

// The words that make a drive of 512 blocks of 64 pages of 4,096 bytes.
const MAKE_LARGE: &str = "make 4096 64 512";

// How many programs of roots a session makes before its first program of a value. The two blocks of the roots come first on a flash.
fn roots_before_a_value(rt: &impl Abort, flash: &Flash) -> u64 {
    let mut roots = 0u64;
    for mark in 0..flash.marks() {
        if let Mark::Program { page, .. } = flash.mark(mark) {
            if *page >= 2 * BLOCK_PAGES {
                return roots;
            }
            roots = roots.saturating_add(1);
        }
    }
    panic!(rt; "a program of a value")
}

// The run of a `put` in which the first program of its value on the second drive fails.
fn put_that_fails(rt: &impl Abort, alloc: Global, images: &Images) -> Ran {
    // Opening and the resync only read, so the second drive's first program or erase comes after the reads of a `resync`.
    let quiet = run_over(rt, alloc, images, "resync");
    assert!(rt; quiet.second.marks() == 0);
    let put = run_over(rt, alloc, images, "put 62 -");
    let wanted = roots_before_a_value(rt, &put.second).saturating_add(1);
    let start = quiet.second.read_count();
    for call in start..start.saturating_add(30) {
        let ran = run_failing(
            rt,
            alloc,
            images,
            "put 62 -",
            Half::Second,
            call,
            Left::Torn,
        );
        // a program that failed is counted, and stops the drive
        if ran.second.program_count() == wanted {
            return ran;
        }
    }
    panic!(rt; "a call that programs a value")
}

/// A store whose first program of the value on the second drive fails is on the first drive, and the next run brings it to the second.
#[test]
fn a_store_that_the_second_drive_lost(rt: HostRuntime) {
    let alloc = rt.alloc();
    let images = said(
        &rt,
        alloc,
        &empty(&rt, alloc, MAKE_WORKED),
        "put 61 616263",
        b"ok\n",
    );
    let ran = put_that_fails(&rt, alloc, &images);
    assert!(rt; ran.status == 6 && ran.first.posted().is_empty());
    let images = images_of(&rt, alloc, &ran.first, &ran.second);
    let before = alone(&rt, alloc, images.shape, &images.second, "list");
    assert!(rt; before.posted() == b"61\n".as_slice());
    let images = said(&rt, alloc, &images, "list", b"61\n62\n");
    let after = alone(&rt, alloc, images.shape, &images.second, "list");
    assert!(rt; after.posted() == b"61\n62\n".as_slice());
}

/// Drives of two shapes, and a drive beside no image, are no pair; nothing is done to them.
#[test]
fn no_pair(rt: HostRuntime) {
    let alloc = rt.alloc();
    let mut worked = made(&rt, alloc, MAKE_WORKED);
    let mut small = made(&rt, alloc, MAKE_SMALL);
    let mut large = made(&rt, alloc, MAKE_LARGE);
    let mut none = blank(&rt, alloc);
    let (worked_marks, small_marks) = (worked.marks(), small.marks());
    let large_marks = large.marks();
    let text = "put 61 616263";
    assert!(rt; pair_status(&rt, alloc, &mut worked, &mut large, text) == 8);
    assert!(rt; pair_status(&rt, alloc, &mut worked, &mut small, text) == 8);
    assert!(rt; pair_status(&rt, alloc, &mut small, &mut worked, text) == 8);
    assert!(rt; pair_status(&rt, alloc, &mut none, &mut worked, text) == 8);
    assert!(rt; pair_status(&rt, alloc, &mut worked, &mut none, text) == 8);
    assert!(rt; worked.marks() == worked_marks && small.marks() == small_marks);
    assert!(rt; large.marks() == large_marks);
    assert!(rt; none.marks() == 0 && none.shape().is_none());
}

/// Drives whose limits of namespace 1 differ are no pair, and nothing is done to them; the limits of other namespaces may differ.
#[test]
fn limits_of_a_pair(rt: HostRuntime) {
    let alloc = rt.alloc();
    let mut first = made(&rt, alloc, "make 512 16 64 100 392");
    let mut other = made(&rt, alloc, "make 512 16 64 200 100");
    let mut whole = made(&rt, alloc, MAKE_WORKED);
    let (first_marks, other_marks) = (first.marks(), other.marks());
    let whole_marks = whole.marks();
    let text = "put 61 616263";
    assert!(rt; pair_status(&rt, alloc, &mut first, &mut other, text) == 8);
    assert!(rt; pair_status(&rt, alloc, &mut other, &mut first, text) == 8);
    assert!(rt; pair_status(&rt, alloc, &mut first, &mut whole, text) == 8);
    assert!(rt; pair_status(&rt, alloc, &mut whole, &mut first, text) == 8);
    assert!(rt; first.marks() == first_marks && other.marks() == other_marks);
    assert!(rt; whole.marks() == whole_marks);
    let mut second = made(&rt, alloc, "make 512 16 64 100 200");
    assert!(rt; pair_status(&rt, alloc, &mut first, &mut second, text) == 0);
    assert!(rt; first.posted() == b"ok\n".as_slice());
}

// A word of a pair, and the text that it is to post with status 0.
#[derive(Clone, Copy)]
struct Said {
    words: &'static str,
    text: &'static [u8],
}

const SAID: [Said; 12] = [
    Said {
        words: "resync",
        text: b"ok\n",
    },
    Said {
        words: "get 61",
        text: b"refused 87\n",
    },
    Said {
        words: "del 61",
        text: b"refused 87\n",
    },
    Said {
        words: "put 61 616263",
        text: b"ok\n",
    },
    Said {
        words: "put 62 -",
        text: b"ok\n",
    },
    Said {
        words: "get 61",
        text: b"ok 616263\n",
    },
    Said {
        words: "get 62",
        text: b"ok -\n",
    },
    Said {
        words: "list",
        text: b"61\n62\n",
    },
    Said {
        words: "put 61 00",
        text: b"ok\n",
    },
    Said {
        words: "get 61",
        text: b"ok 00\n",
    },
    Said {
        words: "del 61",
        text: b"ok\n",
    },
    Said {
        words: "list",
        text: b"62\n",
    },
];

// Words of one drive, and others, that are none of a pair.
const OUTSIDE: [&str; 11] = [
    "stat",
    "has 61",
    "list 61",
    "gen 7 1",
    "make 512 16 64",
    "serve 36",
    "resync 61",
    "put 61",
    "get 6",
    "hello",
    "",
];

/// Each word of a pair has its text, and words outside the table end with status 2 and do nothing.
#[test]
fn words_of_a_pair(rt: HostRuntime) {
    let alloc = rt.alloc();
    let mut images = empty(&rt, alloc, MAKE_WORKED);
    for said_by in &SAID {
        images = said(&rt, alloc, &images, said_by.words, said_by.text);
    }
    for text in OUTSIDE {
        let ran = run_over(&rt, alloc, &images, text);
        assert!(rt; ran.status == 2, "{text}");
        assert!(rt; ran.first.marks() == 0 && ran.second.marks() == 0, "{text}");
    }
}

// The first drive's last read of a word fails, which is that of its value or of its keys: the text is this.
fn answered_by_the_second(rt: &impl Abort, alloc: Global, text: &str, wanted: &[u8]) {
    let images = empty(rt, alloc, MAKE_WORKED);
    let images = said(rt, alloc, &images, "put 61 616263", b"ok\n");
    let quiet = run_over(rt, alloc, &images, text);
    let last = quiet.first.read_count().saturating_sub(1);
    let ran = run_failing(rt, alloc, &images, text, Half::First, last, Left::Untouched);
    assert!(rt; ran.status == 0 && ran.first.posted() == wanted, "{text}");
    assert!(rt;
        ran.first.read_count() == quiet.first.read_count(),
        "{text}"
    );
    assert!(rt;
        ran.second.read_count() > quiet.second.read_count(),
        "{text}"
    );
}

/// A value that the first drive cannot read is that of the second.
#[test]
fn a_value_that_the_first_drive_cannot_read(rt: HostRuntime) {
    answered_by_the_second(&rt, rt.alloc(), "get 61", b"ok 616263\n");
}
