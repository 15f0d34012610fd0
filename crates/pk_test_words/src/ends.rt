//! Scripts that end early, and records that wait for a commit.

use pk_flash::Left;
use pk_nvme::opcode::STORE;
use pk_nvme::status::INVALID_COMMAND_OPCODE;
use pk_test_scripts::exits::{DONE, INPUT, OUTPUT, TRUNCATED};
use pk_test_scripts::script::{
    Answer, Ask, UNKNOWN, Value, entry, push_done, push_head, records, script,
};
use pk_test_scripts::steps::{joined, made_board, posted, serve};
use pk_test_scripts::{Place, Program};
use std::alloc::Global;
use std::test::*;

// The reads that open a made drive: 32 pages of the root blocks, and the two Erased pages of the first commit of the journal.
const OPENING: u64 = 34;

// The calls of the first Store: the fetch of its entry, the erases of two blocks for the epoch and of the other root block, both pages of
// the root, the erase of a block for values, and both pages of the value.
const FIRST: u64 = 9;

// The calls of a later Store: the fetch, and both pages of the value. The ninth Store erases a block besides, since eight values fill one.
const LATER: u64 = 3;

// A Store of a value without bytes.
fn store(cid: u16) -> [u8; 64] {
    entry(cid, STORE, [0x61, 0], 1, 0)
}

// The session of this script on a made drive has this status, and posts this.
fn check<P: Program>(alloc: Global, script: Vec<u8>, status: u8, want: &[u8]) -> Result<(), Fail> {
    let session = serve::<P>(alloc, made_board::<P>(alloc, script)?);
    posted(&session, status, want, Place::Named("no call fails"))
}

// The same while the call with this number after those of opening fails, and leaves this.
fn check_failing<P: Program>(
    alloc: Global,
    script: Vec<u8>,
    call: u64,
    left: Left,
    status: u8,
    want: &[u8],
) -> Result<(), Fail> {
    let mut flash = made_board::<P>(alloc, script)?;
    flash.fail(alloc, OPENING.saturating_add(call), left)?;
    posted(&serve::<P>(alloc, flash), status, want, Place::Call(call))
}

/// The record of a Store is posted if the input ends inside the entry of the next command, after each number of its bytes.
pub fn inside_an_entry<P: Program>(alloc: Global) -> Result<(), Fail> {
    let next = entry(2, STORE, [0x62, 0], 1, 3);
    for len in 1..next.len() {
        let part = next.get(..len).unwrap_or(&[]);
        let script = joined(alloc, &[&store(1), part])?;
        let want = records(alloc, &[Answer::Done])?;
        check::<P>(alloc, script, TRUNCATED, &want)?;
    }
    Ok(())
}

// The record of a Store is posted if the input ends inside the value of the next one, of this many
// bytes.
fn check_inside<P: Program>(alloc: Global, size: u32) -> Result<(), Fail> {
    let next = entry(2, STORE, [0x62, 0], 1, size);
    let script = joined(alloc, &[&store(1), &next, b"ab"])?;
    let want = records(alloc, &[Answer::Done])?;
    check::<P>(alloc, script, TRUNCATED, &want)
}

/// The record of a Store is posted if the input ends inside the value of the next one, whether that
/// is too large or not. A Store whose value lacks a byte has no record.
pub fn inside_a_value<P: Program>(alloc: Global) -> Result<(), Fail> {
    check_inside::<P>(alloc, 3)?;
    check_inside::<P>(alloc, 2017)?;
    let first = entry(1, STORE, [0x61, 0], 1, 3);
    let script = joined(alloc, &[&first, b"ab"])?;
    check::<P>(alloc, script, TRUNCATED, &[])
}

// A Store, an unknown command, and a Store.
fn with_unknown(alloc: Global) -> Result<Vec<u8>, Fail> {
    let unknown = entry(2, UNKNOWN, [0x61, 0], 1, 0);
    joined(alloc, &[&store(1), &unknown, &store(3)])
}

/// A record of a command that is no Store goes out with those before it, by one post.
pub fn command_between<P: Program>(alloc: Global) -> Result<(), Fail> {
    let mut want = records(alloc, &[Answer::Done])?;
    push_head(&mut want, 2, INVALID_COMMAND_OPCODE, 0, 0, 0)?;
    push_done(&mut want, 3)?;
    check::<P>(alloc, with_unknown(alloc)?, DONE, &want)?;
    let front = want.get(..7).unwrap_or(&[]);
    let script = with_unknown(alloc)?;
    // the fetch of the second entry is followed by both pages of the commit, and then by the post
    check_failing::<P>(alloc, script, FIRST + 3, Left::Part(7), OUTPUT, front)
}

const NO_BYTE: Value = Value { first: 0, len: 0 };

const SIXTEEN: [Ask; 16] = [Ask::Store(0x61, NO_BYTE); 16];

/// The record of a Store is out when as many Stores are done as a commit has entries, which is 15, and not before.
pub fn held_records<P: Program>(alloc: Global) -> Result<(), Fail> {
    let stored = records(alloc, &[Answer::Done; 14])?;
    let front = stored.get(..9).unwrap_or(&[]);
    let post = FIRST + 14 * LATER + 1 + 2;
    let left = Left::Part(9);
    check_failing::<P>(alloc, script(alloc, &SIXTEEN)?, post, left, OUTPUT, front)?;
    let fetch = FIRST + 13 * LATER + 1;
    let left = Left::Untouched;
    check_failing::<P>(alloc, script(alloc, &SIXTEEN)?, fetch, left, INPUT, &stored)
}
