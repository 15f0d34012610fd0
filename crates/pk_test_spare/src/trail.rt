//! The marks that a flash with spare blocks records itself: one for each program, erase and post of the drive, and none for the calls that
//! move a block. Without room for the next one it refuses the call.

use crate::spared::{
    Failing, Image, MAKE, Ran, SERVE, call_after_opening, failing_board, made, one, run_logged,
    serve,
};
use pk_flash::Left;
use pk_test_scripts::boards;
use pk_test_scripts::program::{RECORDS, SCRIPT};
use pk_top::Status;
use std::alloc::Global;
use std::process::Abort;
use std::test::*;

// The marks of the worked session: it erases four blocks and programs two pages of a root, two of a value and two of the journal; then it
// posts its first record, its second one, and the data of that.
const FLASH_MARKS: usize = 10;

const MARKS: usize = 13;

fn serve_logged(
    rt: &impl Abort,
    alloc: Global,
    image: &Image,
    failing: Vec<Failing>,
    log: usize,
) -> Ran {
    let flash = failing_board(rt, alloc, image, &SCRIPT, failing);
    run_logged(rt, alloc, flash, &SERVE, log)
}

// The status of the worked session with room for this many marks.
fn status_with(log: usize) -> Status {
    if log < FLASH_MARKS {
        Status::FLASH
    } else if log < MARKS {
        Status::OUTPUT
    } else {
        Status::DONE
    }
}

// The session ended so with room for this many marks, and posted as much as there is room for.
fn ended(rt: &impl Abort, ran: &Ran, log: usize) {
    let posted = match log.saturating_sub(FLASH_MARKS) {
        0 => 0,
        1 => 24,
        2 => 48,
        _ => RECORDS.len(),
    };
    assert!(rt; ran.status == status_with(log));
    assert!(rt; ran.flash.posted().len() == posted && RECORDS.starts_with(ran.flash.posted()));
}

/// The session makes as many calls that leave marks as there is room for.
#[test]
fn room_for_some_marks(rt: HostRuntime) {
    let alloc = rt.alloc();
    let image = made(&rt, alloc);
    for log in 1..MARKS + 3 {
        let ran = serve_logged(&rt, alloc, &image, Vec::new(alloc), log);
        ended(&rt, &ran, log);
        assert!(rt; ran.flash.marks() == log.min(MARKS) && ran.left == 4);
    }
}

/// The calls that move a block leave no marks of the drive: the session in which the first erase fails needs room for as many.
#[test]
fn a_move_leaves_no_mark(rt: HostRuntime) {
    let alloc = rt.alloc();
    let image = made(&rt, alloc);
    let quiet = serve(&rt, alloc, &image, &SCRIPT);
    let mut moved = 0u32;
    let start = call_after_opening(&quiet.flash);
    for call in start..start.saturating_add(40) {
        for log in MARKS - 1..MARKS + 1 {
            let failing = one(&rt, alloc, call, Left::Torn);
            let ran = serve_logged(&rt, alloc, &image, failing, log);
            if ran.left == 3 {
                ended(&rt, &ran, log);
                assert!(rt; ran.flash.marks() > log);
                moved = moved.saturating_add(1);
            }
        }
    }
    assert!(rt; moved == 20);
}

/// A drive is made by the two programs of its first root.
#[test]
fn a_drive_that_is_made(rt: HostRuntime) {
    let alloc = rt.alloc();
    for log in 1..4usize {
        let flash = boards::blank(alloc, None, Vec::new(alloc)).expect(&rt, "memory");
        let ran = run_logged(&rt, alloc, flash, &MAKE, log);
        let status = if log < 2 { Status::FLASH } else { Status::DONE };
        assert!(rt; ran.status == status);
    }
}
