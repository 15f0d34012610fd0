//! Drives that are full, and values that are overwritten on them.

use crate::boards::{MAKE_WORKED, board_in, made, serve, worked};
use crate::exits::DONE;
use crate::overwritten::{
    OTHER, all_with, firsts, firsts_behind, push_plain, push_retrieves, push_store, push_stores,
    record_at, value_of,
};
use crate::script::{Value, entry, value_bytes};
use crate::tried::{Program, same};
use pk_flash::{Flash, Room};
use pk_nvme::opcode::{DELETE, FLUSH, RETRIEVE};
use pk_nvme::status::{CAPACITY_EXCEEDED, SUCCESSFUL_COMPLETION};
use std::alloc::{AllocError, Global};
use std::test::*;

// The keys of two pages each that a full drive of 64 blocks of 16 pages has.
const KEYS: u32 = 246;

const ROOM: Room = Room {
    posted: 262_144,
    marks: 30_000,
};

// The status of a Store that is done, as a record's number.
const COMPLETED: u32 = SUCCESSFUL_COMPLETION as u32;

// One more key has no room; an overwrite of two pages has, and one of four pages has not.
const OVERWRITTEN: [u8; 3] = [CAPACITY_EXCEEDED, SUCCESSFUL_COMPLETION, CAPACITY_EXCEEDED];

// The session of this script on a made drive, which is to end well.
fn session<P: Program>(alloc: Global, script: Vec<u8>) -> Result<Flash, Fail> {
    let mut flash = large_board::<P>(alloc, script)?;
    same(serve::<P>(alloc, &mut flash), DONE, "the status")?;
    Ok(flash)
}

fn large_board<P: Program>(alloc: Global, script: Vec<u8>) -> Result<Flash, Fail> {
    let pages = made::<P>(alloc, &MAKE_WORKED)?;
    board_in(alloc, worked()?, pages, script, ROOM)
}

fn of_len(len: u32) -> Value {
    Value { first: 9, len }
}

// One more key, overwrites of two pages and of four, and a Retrieve.
fn push_tries(into: &mut Vec<u8>) -> Result<(), AllocError> {
    push_store(into, KEYS, &value_of(OTHER))?;
    push_store(into, 0, &of_len(992))?;
    push_store(into, 0, &of_len(993))?;
    into.extend_from_slice(&entry(2, RETRIEVE, [0, 0], 2, 1000))
}

// A Delete, the key again, and a Flush.
fn push_again(into: &mut Vec<u8>) -> Result<(), AllocError> {
    into.extend_from_slice(&entry(4, DELETE, [0, 0], 2, 0))?;
    push_store(into, KEYS, &value_of(OTHER))?;
    push_plain(into, FLUSH, 0)
}

/// The script of a drive that becomes full.
pub fn full_script(alloc: Global) -> Result<Vec<u8>, AllocError> {
    let mut script = Vec::new(alloc);
    push_full(&mut script)?;
    Ok(script)
}

fn push_full(into: &mut Vec<u8>) -> Result<(), AllocError> {
    push_stores(into, KEYS, 0, KEYS)?;
    push_tries(into)?;
    push_again(into)
}

// The records from this byte on have these statuses, and no data: where the next one begins.
fn check_statuses(posted: &[u8], from: usize, statuses: &[u8]) -> Result<usize, Fail> {
    let mut at = from;
    for status in statuses {
        at = all_with(posted, at, 1, u32::from(*status))?;
    }
    Ok(at)
}

// The record that begins here has the value of two pages: where the next one begins.
fn check_old(alloc: Global, posted: &[u8], at: usize) -> Result<usize, Fail> {
    let old = record_at(posted, at).ok_or("a record")?;
    let found = posted.get(old.data..old.end()).unwrap_or(&[]);
    check_value(alloc, found)?;
    Ok(old.end())
}

fn check_value(alloc: Global, found: &[u8]) -> Result<(), Fail> {
    let want = value_bytes(alloc, &of_len(992))?;
    same(found, want.as_slice(), "the old value")
}

/// The drive is full with 246 values of two pages each. One more key has no room; an overwrite of two pages has, one of four pages has
/// not, and leaves the old value; and after a Delete the key has room.
pub fn full_drive<P: Program>(alloc: Global) -> Result<(), Fail> {
    let flash = session::<P>(alloc, full_script(alloc)?)?;
    check_full(alloc, flash.posted())
}

fn check_full(alloc: Global, posted: &[u8]) -> Result<(), Fail> {
    let mut at = all_with(posted, 0, KEYS, COMPLETED)?;
    at = check_statuses(posted, at, &OVERWRITTEN)?;
    at = check_old(alloc, posted, at)?;
    at = check_statuses(posted, at, &[SUCCESSFUL_COMPLETION; 3])?;
    same(at, posted.len(), "the bytes posted")
}

/// The full drive takes 2,000 overwrites, and each key has its last value.
pub fn overwrites<P: Program>(alloc: Global) -> Result<(), Fail> {
    let flash = session::<P>(alloc, overwriting(alloc)?)?;
    check_overwritten(alloc, flash.posted())
}

fn check_overwritten(alloc: Global, posted: &[u8]) -> Result<(), Fail> {
    let at = all_with(posted, 0, COMMANDS, COMPLETED)?;
    let found = firsts(alloc, posted, at, KEYS)?;
    let want = firsts_behind(alloc, KEYS, COMMANDS)?;
    same(found.as_slice(), want.as_slice(), "the values")
}

const COMMANDS: u32 = KEYS + 2000;

// The Stores, and a Retrieve of each key.
fn overwriting(alloc: Global) -> Result<Vec<u8>, AllocError> {
    let mut script = Vec::new(alloc);
    push_overwriting(&mut script)?;
    Ok(script)
}

fn push_overwriting(into: &mut Vec<u8>) -> Result<(), AllocError> {
    push_stores(into, KEYS, 0, COMMANDS)?;
    push_retrieves(into, KEYS)
}
