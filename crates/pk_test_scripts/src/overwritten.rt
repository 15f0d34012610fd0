//! Keys that are stored once each and then overwritten, over and over: what each command stores,
//! the value of each key after a number of them, and what a session's records show of it.

use crate::script::{Value, entry, push_value};
use pk_base::get_u32;
use pk_nvme::opcode::{RETRIEVE, STORE};
use pk_nvme::status::SUCCESSFUL_COMPLETION;
use std::alloc::{AllocError, Global};
use std::test::*;

const LEN: u32 = 100;

// From one overwritten key to the next.
const STRIDE: u32 = 7;

/// A command of none of the workload's numbers.
pub const OTHER: u32 = 100_000;

fn key_bytes(key: u32) -> [u8; 2] {
    let bytes = key.to_be_bytes();
    [bytes[2], bytes[3]]
}

/// The key of the command with this number, of `keys` keys: each in turn, and then every seventh.
pub fn key_of(command: u32, keys: u32) -> u32 {
    if keys == 0 {
        return 0;
    }
    if command < keys {
        return command;
    }
    command.saturating_sub(keys).saturating_mul(STRIDE) % keys
}

/// The value that the command with this number stores.
pub fn value_of(command: u32) -> Value {
    Value {
        first: (command % 251) as u8,
        len: LEN,
    }
}

/// Adds a Store of this key of two bytes.
pub fn push_store(into: &mut Vec<u8>, key: u32, value: &Value) -> Result<(), AllocError> {
    into.extend_from_slice(&entry(1, STORE, key_bytes(key), 2, value.len))?;
    push_value(into, value)
}

/// Adds the Stores with these numbers, of `keys` keys.
pub fn push_stores(into: &mut Vec<u8>, keys: u32, from: u32, to: u32) -> Result<(), AllocError> {
    for command in from..to {
        push_store(into, key_of(command, keys), &value_of(command))?;
    }
    Ok(())
}

/// Adds a Retrieve of each key.
pub fn push_retrieves(into: &mut Vec<u8>, keys: u32) -> Result<(), AllocError> {
    for key in 0..keys {
        into.extend_from_slice(&entry(2, RETRIEVE, key_bytes(key), 2, 1000))?;
    }
    Ok(())
}

/// Adds a command without a key.
pub fn push_plain(into: &mut Vec<u8>, opcode: u8, size: u32) -> Result<(), AllocError> {
    into.extend_from_slice(&entry(3, opcode, [0, 0], 0, size))
}

/// A record: its status, how many pages were read, where its data begin, and how many they are.
#[derive(Clone, Copy, Debug)]
pub struct Record {
    pub status: u32,
    pub reads: u32,
    pub data: usize,
    pub len: usize,
}

impl Record {
    /// Whether the command was done.
    pub fn is_done(&self) -> bool {
        self.status == u32::from(SUCCESSFUL_COMPLETION)
    }

    // Whether a Retrieve was done, and read 1 to 5 pages.
    fn gives_value(&self) -> bool {
        self.is_done() && 1 <= self.reads && self.reads <= 5
    }

    /// Where the next record begins.
    pub fn end(&self) -> usize {
        self.data.saturating_add(self.len)
    }
}

/// The record that begins here; None if none of this length is there.
pub fn record_at(posted: &[u8], at: usize) -> Option<Record> {
    if at > posted.len() || posted.len() - at < 24 {
        return None;
    }
    let record = Record {
        status: get_u32(posted, at + 12) / 131_072 % 256,
        reads: get_u32(posted, at + 16),
        data: at + 24,
        len: get_u32(posted, at + 20) as usize,
    };
    if posted.len() - record.data < record.len {
        return None;
    }
    Some(record)
}

// Where the record ends that begins here, which has to have this status and no data.
fn end_with(posted: &[u8], at: usize, status: u32) -> Option<usize> {
    match record_at(posted, at) {
        Some(record) if record.status == status && record.len == 0 => Some(record.end()),
        _ => None,
    }
}

/// The end of the first `count` records, each of which has to have this status and no data.
pub fn all_with(posted: &[u8], from: usize, count: u32, status: u32) -> Result<usize, Fail> {
    let mut at = from;
    for i in 0..count {
        match end_with(posted, at, status) {
            Some(end) => at = end,
            None => return Err(other_record(posted, at, i)),
        }
    }
    Ok(at)
}

// What the record with this number is, which is not the one that was expected.
fn other_record(posted: &[u8], at: usize, i: u32) -> Fail {
    let record = record_at(posted, at);
    Fail::new(format_args!("record {i}: {record:?}"))
}

// Whether these are the 100 bytes of a value.
fn is_value(data: &[u8]) -> bool {
    let mut next = data.first().copied().unwrap_or(0);
    for byte in data {
        if *byte != next {
            return false;
        }
        next = next.wrapping_add(1);
    }
    data.len() == LEN as usize
}

// The first byte of a value, and where its record ends.
#[derive(Clone, Copy)]
struct First {
    byte: u8,
    end: usize,
}

// The value of 100 bytes that the record of a Retrieve has which begins here, and which read 1 to 5 pages.
fn first_at(posted: &[u8], at: usize) -> Option<First> {
    let record = record_at(posted, at)?;
    let data = posted.get(record.data..record.end()).unwrap_or(&[]);
    match data.first() {
        Some(byte) if record.gives_value() && is_value(data) => Some(First {
            byte: *byte,
            end: record.end(),
        }),
        _ => None,
    }
}

/// The first byte of the data of `keys` Retrieves, each of a value of 100 bytes of one page, in a
/// table by key.
pub fn firsts(alloc: Global, posted: &[u8], from: usize, keys: u32) -> Result<Vec<u8>, Fail> {
    let mut firsts = Vec::new(alloc);
    push_firsts(&mut firsts, posted, from, keys)?;
    Ok(firsts)
}

fn push_firsts(into: &mut Vec<u8>, posted: &[u8], from: usize, keys: u32) -> Result<(), Fail> {
    let mut at = from;
    for key in 0..keys {
        match first_at(posted, at) {
            Some(first) => {
                into.push(first.byte)?;
                at = first.end;
            }
            None => return Err(other_record(posted, at, key)),
        }
    }
    Ok(())
}

/// The first bytes of the values of all keys after this many commands.
pub fn firsts_behind(alloc: Global, keys: u32, commands: u32) -> Result<Vec<u8>, AllocError> {
    let mut firsts = Vec::from_elem(alloc, 0u8, keys as usize)?;
    for command in 0..commands {
        overwrite(&mut firsts, keys, command);
    }
    Ok(firsts)
}

/// Sets the first byte of the value that the command with this number stores, in a table by key.
pub fn overwrite(firsts: &mut [u8], keys: u32, command: u32) {
    let key = key_of(command, keys) as usize;
    if key < firsts.len() {
        firsts[key] = value_of(command).first;
    }
}
