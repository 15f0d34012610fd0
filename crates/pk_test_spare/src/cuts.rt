//! A session in which a block moves to a spare block is cut off at each call of the inner flash: what was answered is kept, and the drive
//! serves on.

use crate::spared::{
    Failing, Image, MOST_CALLS, left, made, moving, one, serve_failing, serves_on, way,
};
use pk_flash::Left;
use pk_test_scripts::program::SCRIPT;
use std::alloc::Global;
use std::process::Abort;
use std::test::*;

// A fault, and a cut after it: every call from the cut on fails, and nothing is done after the one at the cut.
fn cut_at(rt: &impl Abort, alloc: Global, fault: u64, cut: u64, number: u8) -> Vec<Failing> {
    let mut all = one(rt, alloc, fault, Left::Torn);
    let left = way(number);
    all.push(Failing { call: cut, left }).expect(rt, "memory");
    for call in cut.saturating_add(1)..cut.saturating_add(80) {
        let left = Left::Untouched;
        all.push(Failing { call, left }).expect(rt, "memory");
    }
    all
}

// The session with a fault is cut off at this call, in each of six ways, and the drive is used after it.
fn check_cut(rt: &impl Abort, alloc: Global, image: &Image, fault: u64, cut: u64) {
    for number in 0..6u8 {
        let failing = cut_at(rt, alloc, fault, cut, number);
        let ran = serve_failing(rt, alloc, image, &SCRIPT, failing);
        let stored = ran.flash.posted().len() >= 24;
        serves_on(rt, alloc, &left(rt, alloc, &ran.flash), !stored);
    }
}

/// Each call that moves a block fails, and the session is cut off at each of the calls after it, to the end of the session.
#[test]
fn a_move_that_is_cut_off(rt: HostRuntime) {
    let alloc = rt.alloc();
    let image = made(&rt, alloc);
    for fault in &moving(&rt, alloc, &image) {
        for more in 1..MOST_CALLS {
            check_cut(&rt, alloc, &image, *fault, fault.saturating_add(more));
        }
    }
}
