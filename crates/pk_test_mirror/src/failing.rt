//! Each call of either flash that fails, a program in each way and an erase in three, followed by a run over both: nothing that was
//! completed is lost, the word that was not completed is done or not done at all, and both drives hold the same.

use crate::pairs::{
    Change, DELETE, Half, PUT, RESYNC, Ran, different, images_of, mended, mended_to_either,
    run_failing, run_over,
};
use pk_flash::{Flash, Left, PageLeft};
use pk_test_scripts::ways::{Kind, kind_of};
use std::alloc::Global;
use std::process::Abort;
use std::test::*;

// What a failing call leaves, by its number; after the first three, a program of the second page of a pair, whose first page is Torn besides.
fn way(number: u8) -> Left {
    match number {
        0 => Left::Untouched,
        1 => Left::Torn,
        2 => Left::Done,
        3 => Left::WithEven(PageLeft::Untouched),
        4 => Left::WithEven(PageLeft::Torn),
        _ => Left::WithEven(PageLeft::Done),
    }
}

// In how many ways the last call of a board that left a mark can fail.
fn ways_of_last(flash: &Flash) -> u8 {
    match flash.marks().checked_sub(1) {
        Some(last) if kind_of(flash, last) == Kind::Second => 6,
        _ => 3,
    }
}

// The calls of a board that had no failing one: its reads, and those that left marks.
fn calls(flash: &Flash) -> u64 {
    flash.read_count().saturating_add(flash.marks() as u64)
}

// The run that had a failing call does not end as if it had none. What it posted is true of the map that the first drive has, and the next
// run mends the pair.
fn check(rt: &impl Abort, alloc: Global, ran: &Ran, change: &Change) {
    let images = images_of(rt, alloc, &ran.first, &ran.second);
    let text = ran.first.posted();
    if text == b"ok\n".as_slice() {
        assert!(rt; ran.status == 5);
        mended(rt, alloc, &images, change, change.after);
    } else if ran.status == 5 {
        assert!(rt; text.is_empty());
        mended(rt, alloc, &images, change, change.after);
    } else {
        let unread = ran.status == 0 && text == b"refused 88\n".as_slice();
        assert!(rt; unread || (ran.status == 6 && text.is_empty()));
        mended_to_either(rt, alloc, &images, change);
    }
}

// Whether the call that failed was a read, which leaves the same in each way.
fn was_read(ran: &Ran, half: Half) -> bool {
    let flash = ran.of(half);
    let quiet = flash.program_count() == 0 && flash.erase_count() == 0;
    ran.status == 0 || (ran.status == 6 && quiet)
}

// A run of a word in which this call of one half fails, and the run after it.
fn failing(
    rt: &impl Abort,
    alloc: Global,
    half: Half,
    change: &Change,
    call: u64,
    number: u8,
) -> Ran {
    let images = different(rt, alloc);
    let ran = run_failing(rt, alloc, &images, change.text, half, call, way(number));
    check(rt, alloc, &ran, change);
    ran
}

// Each call of one half in a run of a word fails, in each way.
fn each_failing(rt: &impl Abort, alloc: Global, half: Half, change: &Change) {
    let quiet = run_over(rt, alloc, &different(rt, alloc), change.text);
    assert!(rt; quiet.status == 0 && quiet.first.posted() == b"ok\n".as_slice());
    for call in 0..calls(quiet.of(half)) {
        let ran = failing(rt, alloc, half, change, call, 0);
        if !was_read(&ran, half) {
            for number in 1..ways_of_last(ran.of(half)) {
                failing(rt, alloc, half, change, call, number);
            }
        }
    }
}

/// Each call of the first drive in a Store.
#[test]
fn store_with_failing_first(rt: HostRuntime) {
    each_failing(&rt, rt.alloc(), Half::First, &PUT);
}

/// Each call of the first drive in a Delete.
#[test]
fn delete_with_failing_first(rt: HostRuntime) {
    each_failing(&rt, rt.alloc(), Half::First, &DELETE);
}

/// Each call of the first drive in a resync.
#[test]
fn resync_with_failing_first(rt: HostRuntime) {
    each_failing(&rt, rt.alloc(), Half::First, &RESYNC);
}

/// Each call of the second drive in a Store.
#[test]
fn store_with_failing_second(rt: HostRuntime) {
    each_failing(&rt, rt.alloc(), Half::Second, &PUT);
}

/// Each call of the second drive in a Delete.
#[test]
fn delete_with_failing_second(rt: HostRuntime) {
    each_failing(&rt, rt.alloc(), Half::Second, &DELETE);
}

/// Each call of the second drive in a resync.
#[test]
fn resync_with_failing_second(rt: HostRuntime) {
    each_failing(&rt, rt.alloc(), Half::Second, &RESYNC);
}
