//! A drive of 65,536 pages with 24,000 keys: their index with all keys has 576,000 bytes, and the pages of its runs more.

use pk_base::Shape;
use pk_flash::{Flash, Room};
use pk_nvme::Request;
use pk_nvme::opcode::{RETRIEVE, STORE};
use pk_nvme::status::SUCCESSFUL_COMPLETION;
use pk_test_scripts::boards::{board_in, made, serve_with};
use pk_test_scripts::overwritten::{Record, all_with, record_at, value_of};
use pk_test_scripts::script::{push_value, value_bytes};
use pk_test_scripts::{Program, holds};
use std::alloc::{AllocError, Global};
use std::test::*;

const MAKE: [&str; 4] = ["make", "4096", "64", "1024"];

const KEYS: u32 = 24_000;

// The first n keys are in runs, and the others in the buffers or in runs.
const IN_RUNS: u32 = 23_400;

const ROOM: Room = Room {
    posted: 4_000_000,
    marks: 130_000,
};

// The text `key:`, and the number in twelve decimal digits.
fn key_of(number: u32) -> [u8; 16] {
    let mut key = *b"key:000000000000";
    let mut rest = number;
    for i in 0..12usize {
        key[15 - i] = b'0' + (rest % 10) as u8;
        rest = rest / 10;
    }
    key
}

fn push_command(into: &mut Vec<u8>, opcode: u8, key: u32) -> Result<(), AllocError> {
    let request = Request {
        opcode,
        cid: 1,
        namespace: 1,
        key_len: 16,
        key: key_of(key),
        size: 100,
        options: 0,
    };
    into.extend_from_slice(&request.entry())
}

// A Store of each key, and then a Retrieve of each.
fn commands(alloc: Global) -> Result<Vec<u8>, AllocError> {
    let mut script = Vec::new(alloc);
    for key in 0..KEYS {
        push_command(&mut script, STORE, key)?;
        push_value(&mut script, &value_of(key))?;
    }
    push_retrieves(&mut script)?;
    Ok(script)
}

fn push_retrieves(into: &mut Vec<u8>) -> Result<(), AllocError> {
    for key in 0..KEYS {
        push_command(into, RETRIEVE, key)?;
    }
    Ok(())
}

fn is_value(alloc: Global, data: Option<&[u8]>, key: u32) -> bool {
    match value_bytes(alloc, &value_of(key)) {
        Ok(want) => data == Some(want.as_slice()),
        Err(_) => false,
    }
}

// The record has the value of this key, and reports the pages of its lookup and the first one of
// the value.
fn is_record(alloc: Global, posted: &[u8], record: &Record, key: u32) -> bool {
    let least = if key < IN_RUNS { 2 } else { 1 };
    let is_read = least <= record.reads && record.reads <= 5;
    record.status == u32::from(SUCCESSFUL_COMPLETION)
        && is_read
        && is_value(alloc, posted.get(record.data..record.end()), key)
}

// The records of the Retrieves, from this byte on, are as they have to be, and nothing follows
// them.
fn are_records(alloc: Global, posted: &[u8], from: usize) -> bool {
    let mut at = from;
    for key in 0..KEYS {
        match record_at(posted, at) {
            Some(record) if is_record(alloc, posted, &record, key) => at = record.end(),
            _ => return false,
        }
    }
    at == posted.len()
}

// The board of all commands on a made drive.
fn large_board<P: Program>(alloc: Global) -> Result<Flash, Fail> {
    let Ok(shape) = Shape::new(4096, 64, 1024) else {
        return Err(Fail::from("a shape"));
    };
    let script = commands(alloc)?;
    let pages = made::<P>(alloc, &MAKE)?;
    board_in(alloc, shape, pages, script, ROOM)
}

/// The drive takes 24,000 Stores, and gives each value back. Without frames each key of a run costs a page of every run down to its own.
pub fn many_keys<P: Program>(alloc: Global) -> Result<(), Fail> {
    let mut flash = large_board::<P>(alloc)?;
    holds(
        serve_with::<P>(alloc, &mut flash, "0") == 0,
        "the status of many keys",
    )?;
    let posted = flash.posted();
    let at = all_with(posted, 0, KEYS, 0)?;
    holds(are_records(alloc, posted, at), "the values of many keys")
}
