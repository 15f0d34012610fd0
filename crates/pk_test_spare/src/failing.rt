//! Each call of the inner flash in a session fails. What was answered is kept, and the drive serves on.

use crate::spared::{
    Failing, Image, call_after_opening, left, made, one, serve, serve_failing, serves_on, way,
};
use pk_flash::Flash;
use pk_test_scripts::program::{RECORDS, SCRIPT};
use pk_test_scripts::script::{Answer, records};
use pk_top::Status;
use std::alloc::Global;
use std::process::Abort;
use std::test::*;

// The calls of a session without a fault: its reads, those that left marks, and those that took its input.
fn calls_of(flash: &Flash) -> u64 {
    flash
        .read_count()
        .saturating_add(flash.marks() as u64)
        .saturating_add(8)
}

// The session with these faults answers with a prefix of the records, or that a read failed; what it answered is kept, and the drive
// serves on.
fn check(rt: &impl Abort, alloc: Global, image: &Image, failing: Vec<Failing>) {
    let ran = serve_failing(rt, alloc, image, &SCRIPT, failing);
    let posted = ran.flash.posted();
    let unread = records(alloc, &[Answer::Done, Answer::Unread]).expect(rt, "memory");
    let is_unread = posted == unread.as_slice();
    let is_whole = is_unread || posted == RECORDS.as_slice();
    assert!(rt; is_unread || RECORDS.starts_with(posted));
    assert!(rt; is_whole || ran.status != Status::DONE);
    let stored = posted.len() >= 24;
    serves_on(rt, alloc, &left(rt, alloc, &ran.flash), !stored);
}

/// Each call fails alone.
#[test]
fn one_call_that_fails(rt: HostRuntime) {
    let alloc = rt.alloc();
    let image = made(&rt, alloc);
    let quiet = serve(&rt, alloc, &image, &SCRIPT);
    for call in 0..calls_of(&quiet.flash) {
        check(&rt, alloc, &image, one(&rt, alloc, call, way(0)));
    }
}

/// Each call after the opening, all programs and erases among them, fails alone, a program in each way and an erase in three.
#[test]
fn each_way_of_a_failure(rt: HostRuntime) {
    let alloc = rt.alloc();
    let image = made(&rt, alloc);
    let quiet = serve(&rt, alloc, &image, &SCRIPT);
    for call in call_after_opening(&quiet.flash)..calls_of(&quiet.flash) {
        for number in 0..6u8 {
            check(&rt, alloc, &image, one(&rt, alloc, call, way(number)));
        }
    }
}
