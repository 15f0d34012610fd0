//! A list of more keys than one command returns: the word `list` asks again, and a later read
//! fails.

use pk_base::Shape;
use pk_flash::{Flash, Left, Room};
use pk_nand::PageState;
use pk_nvme::Request;
use pk_nvme::opcode::STORE;
use pk_test_scripts::boards::{Session, board_in, made, pages_left};
use pk_test_scripts::exits::DONE;
use pk_test_scripts::{Program, holds, serve};
use std::alloc::{AllocError, Global};
use std::test::*;

// The words that make a drive with room for n keys.
const MAKE: [&str; 4] = ["make", "512", "16", "650"];

const KEYS: u32 = 3_300;

// How many of them one command returns: 65,536 bytes have four for the count, and twenty for each
// key of sixteen.
const TOLD: u32 = 3_276;

const ROOM: Room = Room {
    posted: 131_072,
    marks: 27_000,
};

fn shape() -> Result<Shape, Fail> {
    Ok(Shape::new(512, 16, 650).ok().ok_or("a shape")?)
}

// Sixteen bytes that rise with the number.
fn key_of(number: u32) -> [u8; 16] {
    let last = number.to_be_bytes();
    let mut key = [0u8; 16];
    key[14] = last[2];
    key[15] = last[3];
    key
}

// Stores of no byte, of the last key first, so that the last keys are in the runs.
fn script(alloc: Global) -> Result<Vec<u8>, AllocError> {
    let mut script = Vec::new(alloc);
    for i in 0..KEYS {
        let request = Request {
            opcode: STORE,
            cid: 1,
            namespace: 1,
            key_len: 16,
            key: key_of(KEYS - 1 - i),
            size: 0,
            options: 0,
        };
        script.extend_from_slice(&request.entry())?;
    }
    Ok(script)
}

// The bytes of a line: two digits for each byte of a key, and a line feed.
const LINE: usize = 33;

fn digit(number: u8) -> u8 {
    let low = number % 16;
    if low < 10 { 48 + low } else { 87 + low }
}

fn push_line(into: &mut Vec<u8>, key: &[u8; 16]) -> Result<(), AllocError> {
    for byte in key {
        into.extend_from_slice(&[digit(*byte / 16), digit(*byte)])?;
    }
    into.push(b'\n')?;
    Ok(())
}

// The lines of all keys.
fn lines(alloc: Global) -> Result<Vec<u8>, AllocError> {
    let mut lines = Vec::new(alloc);
    for number in 0..KEYS {
        push_line(&mut lines, &key_of(number))?;
    }
    Ok(lines)
}

fn filling_board<P: Program>(alloc: Global) -> Result<Flash, Fail> {
    let shape = shape()?;
    let script = script(alloc)?;
    let pages = made::<P>(alloc, &MAKE)?;
    board_in(alloc, shape, pages, script, ROOM)
}

// The board of a drive with all keys.
fn filled<P: Program>(alloc: Global) -> Result<Flash, Fail> {
    let mut flash = filling_board::<P>(alloc)?;
    holds(serve::<P>(alloc, &mut flash) == 0, "the Stores")?;
    Ok(flash)
}

// The list of all keys on these pages, in which the call with this number fails, if there is one.
fn listed<P: Program>(
    alloc: Global,
    pages: Vec<PageState>,
    call: Option<u64>,
) -> Result<Session, Fail> {
    let mut flash = board_in(alloc, shape()?, pages, Vec::new(alloc), ROOM)?;
    if let Some(call) = call {
        flash.fail(alloc, call, Left::Untouched)?;
    }
    let status = P::run(alloc, &["list"], &mut flash);
    Ok(Session { status, flash })
}

// The lines of the first `count` keys.
fn front(all: &[u8], count: u32) -> &[u8] {
    let end = (count as usize).saturating_mul(LINE);
    &all[..end.min(all.len())]
}

// These are the lines of the first `count` keys, and the line that a command failed after them.
fn is_failure(posted: &[u8], all: &[u8], count: u32) -> bool {
    match posted.strip_prefix(front(all, count)) {
        Some(rest) => rest == b"refused 88\n".as_slice(),
        None => false,
    }
}

// Which end a list with this status and text has, if these are the lines of all keys: a read failed
// in the first, the second or the third command, or one of the three posts failed.
fn end_of(status: u8, posted: &[u8], all: &[u8]) -> Option<usize> {
    match status {
        0 if is_failure(posted, all, 0) => Some(0),
        0 if is_failure(posted, all, TOLD) => Some(1),
        0 if is_failure(posted, all, KEYS) => Some(2),
        5 if posted.is_empty() => Some(3),
        5 if posted == front(all, TOLD) => Some(4),
        5 if posted == all => Some(5),
        _ => None,
    }
}

// The whole list, which posts three times: how many calls it makes after the first one.
fn calls_of_list<P: Program>(alloc: Global, filled: &Flash, all: &[u8]) -> Result<u64, Fail> {
    let whole = listed::<P>(alloc, pages_left(alloc, filled)?, None)?;
    let is_so = whole.status == DONE && whole.flash.posted() == all && whole.flash.marks() == 3;
    holds(is_so, "a whole list")?;
    Ok(whole.flash.read_count().saturating_add(3))
}

// The end of the list in which this call fails.
fn failing<P: Program>(
    alloc: Global,
    filled: &Flash,
    all: &[u8],
    call: u64,
) -> Result<usize, Fail> {
    let done = listed::<P>(alloc, pages_left(alloc, filled)?, Some(call))?;
    match end_of(done.status, done.flash.posted(), all) {
        Some(end) => Ok(end),
        None => Err(Fail::from("a list in which a call fails")),
    }
}

// How often each end is seen of lists of which the last calls fail.
fn ends_seen<P: Program>(alloc: Global, filled: &Flash, all: &[u8]) -> Result<[u32; 6], Fail> {
    let calls = calls_of_list::<P>(alloc, filled, all)?;
    let mut seen = [0u32; 6];
    for back in 1..13u64 {
        let end = failing::<P>(alloc, filled, all, calls.saturating_sub(back))?;
        if end < 6 {
            seen[end] = seen[end].saturating_add(1);
        }
    }
    Ok(seen)
}

/// A list asks three times: for the first keys, for the others, and whether one follows them; and
/// it posts what it finds each time. Each of its last calls fails in turn. After a read of the
/// second command that fails the keys of the first one are posted, and that a command failed; and
/// after a post that fails nothing more is posted.
pub fn later_commands_fail<P: Program>(alloc: Global) -> Result<(), Fail> {
    let all = lines(alloc)?;
    let filled = filled::<P>(alloc)?;
    let [first, second, _, none, told, whole] = ends_seen::<P>(alloc, &filled, &all)?;
    let are_reads = first > 0 && second > 0;
    let are_posts = none == 1 && told == 1 && whole == 1;
    holds(are_reads && are_posts, "how often each end is seen")
}
