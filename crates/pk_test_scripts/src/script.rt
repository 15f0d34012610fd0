//! What a host asks, the bytes in which it asks, and the records that it is answered.

use pk_nvme::opcode::{DELETE, FLUSH, LIST, REPORT, RETRIEVE, STORE, TICK};
use pk_nvme::status::{KEY_DOES_NOT_EXIST, SUCCESSFUL_COMPLETION, UNRECOVERED_ERROR};
use pk_nvme::{Request, completion, record_head};
use std::alloc::{AllocError, Global};

/// No command has this opcode.
pub const UNKNOWN: u8 = 0x03;

/// A value of `len` bytes: the first one, and each next one greater by one, 0 after 255.
#[derive(Clone, Copy)]
pub struct Value {
    pub first: u8,
    pub len: u32,
}

/// What a host asks. Keys have one byte.
#[derive(Clone, Copy)]
pub enum Ask {
    Store(u8, Value),
    /// With a buffer of 1,000 bytes.
    Retrieve(u8),
    Delete(u8),
    Flush,
    /// At most this many background steps.
    Tick(u32),
    /// From the first key on, with a buffer of 1,000 bytes.
    List,
    Report,
}

/// How it is answered.
#[derive(Clone, Copy)]
pub enum Answer {
    /// Done, without data.
    Done,
    /// There is no such key.
    Missing,
    /// A flash operation failed, after one read.
    Unread,
    /// Done, with this value, whose pages were read.
    Found(Value),
    /// Done, with these keys of one byte.
    Keys(&'static [u8]),
}

// A command on a key of one or two bytes in namespace 1; 0 bytes name no key.
fn request(cid: u16, opcode: u8, key: [u8; 2], key_len: u8, size: u32) -> Request {
    let mut bytes = [0u8; 16];
    bytes[0] = key[0];
    bytes[1] = key[1];
    Request {
        opcode,
        cid,
        namespace: 1,
        key_len,
        key: bytes,
        size,
        options: 0,
    }
}

/// The entry of a command on a key of one or two bytes; 0 bytes name none.
pub fn entry(cid: u16, opcode: u8, key: [u8; 2], key_len: u8, size: u32) -> [u8; 64] {
    request(cid, opcode, key, key_len, size).entry()
}

fn request_of(cid: u16, ask: &Ask) -> Request {
    match ask {
        Ask::Store(key, value) => request(cid, STORE, [*key, 0], 1, value.len),
        Ask::Retrieve(key) => request(cid, RETRIEVE, [*key, 0], 1, 1000),
        Ask::Delete(key) => request(cid, DELETE, [*key, 0], 1, 0),
        Ask::Flush => request(cid, FLUSH, [0, 0], 0, 0),
        Ask::Tick(steps) => request(cid, TICK, [0, 0], 0, *steps),
        Ask::List => request(cid, LIST, [0, 0], 0, 1000),
        Ask::Report => request(cid, REPORT, [0, 0], 0, 0),
    }
}

/// Adds the bytes of a value.
pub fn push_value(into: &mut Vec<u8>, value: &Value) -> Result<(), AllocError> {
    let mut next = value.first;
    for _ in 0..value.len {
        into.push(next)?;
        next = next.wrapping_add(1);
    }
    Ok(())
}

/// The bytes of a value.
pub fn value_bytes(alloc: Global, value: &Value) -> Result<Vec<u8>, AllocError> {
    let mut bytes = Vec::new(alloc);
    push_value(&mut bytes, value)?;
    Ok(bytes)
}

fn push_ask(into: &mut Vec<u8>, cid: u16, namespace: u32, ask: &Ask) -> Result<(), AllocError> {
    let mut request = request_of(cid, ask);
    request.namespace = namespace;
    into.extend_from_slice(&request.entry())?;
    match ask {
        Ask::Store(_, value) => push_value(into, value),
        _ => Ok(()),
    }
}

/// The bytes of a script. The CID of a command is its number, counted from 1.
pub fn script(alloc: Global, asks: &[Ask]) -> Result<Vec<u8>, AllocError> {
    let mut bytes = Vec::new(alloc);
    let mut cid = 0u16;
    for ask in asks {
        cid = cid.wrapping_add(1);
        push_ask(&mut bytes, cid, 1, ask)?;
    }
    Ok(bytes)
}

/// The bytes of a script of commands, each with its namespace.
pub fn script_over(alloc: Global, asks: &[(u32, Ask)]) -> Result<Vec<u8>, AllocError> {
    let mut bytes = Vec::new(alloc);
    let mut cid = 0u16;
    for row in asks {
        let (namespace, ask) = *row;
        cid = cid.wrapping_add(1);
        push_ask(&mut bytes, cid, namespace, &ask)?;
    }
    Ok(bytes)
}

/// Adds what precedes the data of the record with this number and CID.
pub fn push_head(
    into: &mut Vec<u8>,
    number: u16,
    status: u8,
    result_field: u32,
    reads: u32,
    data_len: u32,
) -> Result<(), AllocError> {
    let done = completion(number, u32::from(number), status, result_field);
    into.extend_from_slice(&record_head(&done, reads, data_len))
}

/// Adds the record of a command that was done, without data and without a read.
pub fn push_done(into: &mut Vec<u8>, number: u16) -> Result<(), AllocError> {
    push_head(into, number, SUCCESSFUL_COMPLETION, 0, 0, 0)
}

/// Adds the record of a Retrieve that gives this whole value after this many reads.
pub fn push_found(
    into: &mut Vec<u8>,
    number: u16,
    reads: u32,
    value: &Value,
) -> Result<(), AllocError> {
    push_head(
        into,
        number,
        SUCCESSFUL_COMPLETION,
        value.len,
        reads,
        value.len,
    )?;
    push_value(into, value)
}

/// The pages of 512 bytes that a value of `len` bytes has after its head of 32; none are read for
/// no bytes.
pub fn pages_read(len: u32) -> u32 {
    if len == 0 {
        return 0;
    }
    len.saturating_add(32).div_ceil(512)
}

fn push_keys(into: &mut Vec<u8>, keys: &[u8]) -> Result<(), AllocError> {
    for key in keys {
        into.extend_from_slice(&[1, 0, *key, 0])?;
    }
    Ok(())
}

/// Adds the record of a List that gives these keys after this many reads.
pub fn push_list(
    into: &mut Vec<u8>,
    number: u16,
    reads: u32,
    keys: &[u8],
) -> Result<(), AllocError> {
    let count = keys.len().min(200) as u32;
    push_head(into, number, SUCCESSFUL_COMPLETION, 0, reads, 4 + 4 * count)?;
    into.extend_from_slice(&count.to_le_bytes())?;
    push_keys(into, keys)
}

/// Adds the record with this number and CID.
pub fn push_answer(into: &mut Vec<u8>, number: u16, answer: &Answer) -> Result<(), AllocError> {
    match answer {
        Answer::Done => push_done(into, number),
        Answer::Missing => push_head(into, number, KEY_DOES_NOT_EXIST, 0, 0, 0),
        Answer::Unread => push_head(into, number, UNRECOVERED_ERROR, 0, 1, 0),
        Answer::Found(value) => push_found(into, number, pages_read(value.len), value),
        Answer::Keys(keys) => push_list(into, number, 0, keys),
    }
}

/// The records of the first commands of a script, with these answers.
pub fn records(alloc: Global, answers: &[Answer]) -> Result<Vec<u8>, AllocError> {
    let mut bytes = Vec::new(alloc);
    let mut number = 0u16;
    for answer in answers {
        number = number.wrapping_add(1);
        push_answer(&mut bytes, number, answer)?;
    }
    Ok(bytes)
}
