//! Each cut of either flash, in some ways, followed by a run over both: nothing that was completed is lost, the word that was cut off is
//! done or not done at all, and both drives hold the same.

use crate::pairs::{
    Change, DELETE, Half, Images, PUT, RESYNC, Ran, board_of, different, done, images_of, mended,
    mended_to_either, run_over,
};
use pk_flash::{Flash, Left};
use pk_nand::PageState;
use pk_test_scripts::boards::pages_left;
use pk_test_scripts::ways::few_ways;
use std::alloc::Global;
use std::process::Abort;
use std::test::*;

// Copies of the pages of an image.
fn copy_of(rt: &impl Abort, alloc: Global, images: &Images, half: Half) -> Vec<PageState> {
    let pages = match half {
        Half::First => &images.first,
        Half::Second => &images.second,
    };
    done(
        rt,
        pages_left(alloc, &board_of(rt, alloc, images.shape, pages)),
    )
}

// The pages of a board after a cut of the mark with this number.
fn cut_of(
    rt: &impl Abort,
    alloc: Global,
    flash: &Flash,
    mark: usize,
    left: &Left,
) -> Vec<PageState> {
    match pk_test_scripts::boards::cut(alloc, flash, mark, left) {
        Ok(pages) => pages,
        Err(_) => panic!(rt; "a cut"),
    }
}

// The first drive is cut off at each mark, with the second as it is here. After the last mark, which is that of the text, the word is done.
fn cuts_of_first(rt: &impl Abort, alloc: Global, ran: &Ran, second: &Images, change: &Change) {
    let marks = ran.first.marks();
    for mark in 0..marks.saturating_add(1) {
        let ways = few_ways(alloc, &ran.first, mark).expect(rt, "memory");
        for way in &ways {
            let images = Images {
                shape: second.shape,
                first: cut_of(rt, alloc, &ran.first, mark, way),
                second: copy_of(rt, alloc, second, Half::Second),
            };
            if mark < marks {
                mended_to_either(rt, alloc, &images, change);
            } else {
                mended(rt, alloc, &images, change, change.after);
            }
        }
    }
}

// The second drive is cut off at each mark, with the first as it is here: its keys are these.
fn cuts_of_second(
    rt: &impl Abort,
    alloc: Global,
    ran: &Ran,
    first: &Images,
    change: &Change,
    keys: &[u8],
) {
    for mark in 0..ran.second.marks().saturating_add(1) {
        let ways = few_ways(alloc, &ran.second, mark).expect(rt, "memory");
        for way in &ways {
            let images = Images {
                shape: first.shape,
                first: copy_of(rt, alloc, first, Half::First),
                second: cut_of(rt, alloc, &ran.second, mark, way),
            };
            mended(rt, alloc, &images, change, keys);
        }
    }
}

// A run of a word that is not cut off.
fn whole(rt: &impl Abort, alloc: Global, images: &Images, change: &Change) -> Ran {
    let ran = run_over(rt, alloc, images, change.text);
    assert!(rt; ran.status == 0 && ran.first.posted() == b"ok\n".as_slice());
    ran
}

// Each cut of the first drive in a run of a word; the second is as it was before the run, or as the run left it.
fn each_cut_of_first(rt: &impl Abort, alloc: Global, change: &Change) {
    let before = different(rt, alloc);
    let ran = whole(rt, alloc, &before, change);
    let after = images_of(rt, alloc, &ran.first, &ran.second);
    cuts_of_first(rt, alloc, &ran, &before, change);
    cuts_of_first(rt, alloc, &ran, &after, change);
}

// Each cut of the second drive in a run of a word; the first is as it was before the run, or as the run left it.
fn each_cut_of_second(rt: &impl Abort, alloc: Global, change: &Change) {
    let before = different(rt, alloc);
    let ran = whole(rt, alloc, &before, change);
    let after = images_of(rt, alloc, &ran.first, &ran.second);
    cuts_of_second(rt, alloc, &ran, &before, change, change.before);
    cuts_of_second(rt, alloc, &ran, &after, change, change.after);
}

/// Each cut of the first drive in a Store.
#[test]
fn store_with_first_cut_off(rt: HostRuntime) {
    each_cut_of_first(&rt, rt.alloc(), &PUT);
}

/// Each cut of the first drive in a Delete.
#[test]
fn delete_with_first_cut_off(rt: HostRuntime) {
    each_cut_of_first(&rt, rt.alloc(), &DELETE);
}

/// Each cut of the first drive in a resync.
#[test]
fn resync_with_first_cut_off(rt: HostRuntime) {
    each_cut_of_first(&rt, rt.alloc(), &RESYNC);
}

/// Each cut of the second drive in a Store.
#[test]
fn store_with_second_cut_off(rt: HostRuntime) {
    each_cut_of_second(&rt, rt.alloc(), &PUT);
}

/// Each cut of the second drive in a Delete.
#[test]
fn delete_with_second_cut_off(rt: HostRuntime) {
    each_cut_of_second(&rt, rt.alloc(), &DELETE);
}

/// Each cut of the second drive in a resync.
#[test]
fn resync_with_second_cut_off(rt: HostRuntime) {
    each_cut_of_second(&rt, rt.alloc(), &RESYNC);
}
