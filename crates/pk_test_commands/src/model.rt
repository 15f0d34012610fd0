//! Answers of the machine in memory.

use pk_base::Shape;
use pk_model::{Answer, MapMachine};
use pk_nvme::Request;
use pk_nvme::opcode::{DELETE, EXIST, FLUSH, LIST, REPORT, RETRIEVE, STORE, TICK};
use pk_nvme::status::{
    CAPACITY_EXCEEDED, INVALID_COMMAND_OPCODE, INVALID_FIELD_IN_COMMAND, INVALID_KEY_SIZE,
    INVALID_NAMESPACE_OR_FORMAT, INVALID_VALUE_SIZE, KEY_DOES_NOT_EXIST, KEY_EXISTS,
    SUCCESSFUL_COMPLETION,
};
use std::alloc::Global;
use std::test::*;

/// What is asked: a Store of a value under a key, with these options, or a command with an opcode,
/// a key and a size.
#[derive(Clone, Copy)]
enum Ask {
    Store(&'static [u8], u8, &'static [u8]),
    Other(u8, &'static [u8], u32),
}

/// A command and its answer: the status, the number in the completion, and the bytes.
type Row = (Ask, u8, u32, &'static [u8]);

fn request(opcode: u8, key: &[u8], size: u32, options: u8) -> Request {
    let mut place = [0; 16];
    let len = key.len().min(16);
    place[..len].copy_from_slice(&key[..len]);
    Request {
        opcode,
        cid: 1,
        namespace: 1,
        key_len: len as u8,
        key: place,
        size,
        options,
    }
}

fn request_of(ask: &Ask) -> Request {
    match ask {
        Ask::Store(key, options, value) => {
            request(STORE, key, value.len().min(65536) as u32, *options)
        }
        Ask::Other(opcode, key, size) => request(*opcode, key, *size, 0),
    }
}

fn value_of(ask: &Ask) -> &[u8] {
    match ask {
        Ask::Store(_, _, value) => value,
        Ask::Other(_, _, _) => &[],
    }
}

fn is_answer(answer: &Answer, status: u8, result_field: u32, bytes: &[u8]) -> bool {
    answer.status == status && answer.result == result_field && answer.bytes.bytes() == bytes
}

/// Whether the machine answers this request, with this value, so.
fn answers(
    alloc: Global,
    machine: &mut MapMachine,
    request: &Request,
    value: &[u8],
    (status, result_field, bytes): (u8, u32, &[u8]),
) -> bool {
    if value.len() != request.value_bytes() as usize {
        return false;
    }
    match machine.step(alloc, &request.entry(), value) {
        Ok(answer) => is_answer(&answer, status, result_field, bytes),
        Err(_) => false,
    }
}

fn machine(alloc: Global) -> Option<MapMachine> {
    match Shape::new(512, 16, 64) {
        Ok(shape) => MapMachine::new(alloc, shape).ok(),
        Err(_) => None,
    }
}

/// The first row that this machine answers otherwise.
fn first_wrong(alloc: Global, machine: &mut MapMachine, rows: &[Row]) -> Option<usize> {
    for i in 0..rows.len() {
        let (ask, status, result_field, bytes) = &rows[i];
        let answer = (*status, *result_field, *bytes);
        if !answers(alloc, machine, &request_of(ask), value_of(ask), answer) {
            return Some(i);
        }
    }
    None
}

/// Whether a new machine answers as all rows say.
fn answers_all(alloc: Global, rows: &[Row]) -> bool {
    match machine(alloc) {
        Some(mut machine) => first_wrong(alloc, &mut machine, rows).is_none(),
        None => false,
    }
}

/// A Report with two live pages and one key.
const TWO_PAGES: &[u8; 64] = b"\
    \x02\0\0\0\xec\x01\0\0\x01\0\0\0\0\0\0\0\
    \0\0\0\0\0\0\0\0\0\0\0\0\0\0\0\0\
    \0\0\0\0\0\0\0\0\0\0\0\0\0\0\0\0\
    \0\0\0\0\0\0\0\0\0\0\0\0\0\0\0\0";

/// A Report with four live pages and one key.
const FOUR_PAGES: &[u8; 64] = b"\
    \x04\0\0\0\xec\x01\0\0\x01\0\0\0\0\0\0\0\
    \0\0\0\0\0\0\0\0\0\0\0\0\0\0\0\0\
    \0\0\0\0\0\0\0\0\0\0\0\0\0\0\0\0\
    \0\0\0\0\0\0\0\0\0\0\0\0\0\0\0\0";

/// A value of no byte.
const EMPTY_VALUE: &[Row] = &[
    (Ask::Store(b"a", 0, b""), SUCCESSFUL_COMPLETION, 0, b""),
    (Ask::Other(EXIST, b"a", 0), SUCCESSFUL_COMPLETION, 0, b""),
    (
        Ask::Other(RETRIEVE, b"a", 10),
        SUCCESSFUL_COMPLETION,
        0,
        b"",
    ),
    (
        Ask::Other(REPORT, b"", 0),
        SUCCESSFUL_COMPLETION,
        0,
        TWO_PAGES,
    ),
];

/// A value of the greatest size, and one of one byte more.
const GREATEST_VALUE: &[Row] = &[
    (
        Ask::Store(b"a", 0, &[7; 2016]),
        SUCCESSFUL_COMPLETION,
        0,
        b"",
    ),
    (
        Ask::Other(REPORT, b"", 0),
        SUCCESSFUL_COMPLETION,
        0,
        FOUR_PAGES,
    ),
    (Ask::Store(b"a", 0, &[7; 2017]), INVALID_VALUE_SIZE, 0, b""),
    (Ask::Other(EXIST, b"a", 0), SUCCESSFUL_COMPLETION, 0, b""),
];

/// A prefix of a value.
const FRONT: &[Row] = &[
    (Ask::Store(b"a", 0, b"hello"), SUCCESSFUL_COMPLETION, 0, b""),
    (
        Ask::Other(RETRIEVE, b"a", 2),
        SUCCESSFUL_COMPLETION,
        5,
        b"he",
    ),
    (Ask::Other(RETRIEVE, b"a", 0), SUCCESSFUL_COMPLETION, 5, b""),
];

/// Options of a Store on a missing key and on one that exists, and a key that is deleted.
const OPTIONS: &[Row] = &[
    (Ask::Store(b"a", 1, b"x"), KEY_DOES_NOT_EXIST, 0, b""),
    (Ask::Store(b"a", 3, b"x"), KEY_DOES_NOT_EXIST, 0, b""),
    (Ask::Store(b"a", 2, b"x"), SUCCESSFUL_COMPLETION, 0, b""),
    (Ask::Store(b"a", 2, b"x"), KEY_EXISTS, 0, b""),
    (Ask::Store(b"a", 3, b"x"), KEY_EXISTS, 0, b""),
    (Ask::Store(b"a", 1, b"x"), SUCCESSFUL_COMPLETION, 0, b""),
    (Ask::Other(DELETE, b"a", 0), SUCCESSFUL_COMPLETION, 0, b""),
    (Ask::Other(DELETE, b"a", 0), KEY_DOES_NOT_EXIST, 0, b""),
    (Ask::Other(EXIST, b"a", 0), KEY_DOES_NOT_EXIST, 0, b""),
    (Ask::Other(RETRIEVE, b"a", 1), KEY_DOES_NOT_EXIST, 0, b""),
];

/// The keys 61, 6100 and 62 in buffers of several sizes.
const LISTS: &[Row] = &[
    (Ask::Store(b"b", 0, b"x"), SUCCESSFUL_COMPLETION, 0, b""),
    (Ask::Store(b"a\0", 0, b"x"), SUCCESSFUL_COMPLETION, 0, b""),
    (Ask::Store(b"a", 0, b"x"), SUCCESSFUL_COMPLETION, 0, b""),
    (Ask::Other(LIST, b"a", 3), INVALID_FIELD_IN_COMMAND, 0, b""),
    (
        Ask::Other(LIST, b"a", 4),
        SUCCESSFUL_COMPLETION,
        0,
        b"\0\0\0\0",
    ),
    (
        Ask::Other(LIST, b"a", 7),
        SUCCESSFUL_COMPLETION,
        0,
        b"\0\0\0\0",
    ),
    (
        Ask::Other(LIST, b"a", 8),
        SUCCESSFUL_COMPLETION,
        0,
        b"\x01\0\0\0\x01\0a\0",
    ),
    (
        Ask::Other(LIST, b"a", 11),
        SUCCESSFUL_COMPLETION,
        0,
        b"\x01\0\0\0\x01\0a\0",
    ),
    (
        Ask::Other(LIST, b"a", 12),
        SUCCESSFUL_COMPLETION,
        0,
        b"\x02\0\0\0\x01\0a\0\x02\0a\0",
    ),
    (
        Ask::Other(LIST, b"a", 16),
        SUCCESSFUL_COMPLETION,
        0,
        b"\x03\0\0\0\x01\0a\0\x02\0a\0\x01\0b\0",
    ),
    (
        Ask::Other(LIST, b"\x60\0", 8),
        SUCCESSFUL_COMPLETION,
        0,
        b"\x01\0\0\0\x01\0a\0",
    ),
    (
        Ask::Other(LIST, b"", 70000),
        SUCCESSFUL_COMPLETION,
        0,
        b"\x03\0\0\0\x01\0a\0\x02\0a\0\x01\0b\0",
    ),
];

#[test]
fn answers_to_commands(rt: HostRuntime) {
    let alloc = rt.alloc();
    assert!(rt; answers_all(alloc, EMPTY_VALUE) && answers_all(alloc, GREATEST_VALUE));
    assert!(rt; answers_all(alloc, FRONT) && answers_all(alloc, OPTIONS));
    assert!(rt; answers_all(alloc, LISTS));
}

/// An opcode that no command has.
const UNKNOWN: u8 = 0x03;

/// Opcodes, namespaces and lengths of keys, and the status of each.
const EARLY: &[(u8, u32, u8, u8)] = &[
    (STORE, 1, 0, INVALID_KEY_SIZE),
    (STORE, 1, 1, SUCCESSFUL_COMPLETION),
    (STORE, 1, 16, SUCCESSFUL_COMPLETION),
    (STORE, 1, 17, INVALID_KEY_SIZE),
    (STORE, 1, 200, INVALID_KEY_SIZE),
    (LIST, 1, 17, INVALID_KEY_SIZE),
    (UNKNOWN, 1, 1, INVALID_COMMAND_OPCODE),
    (EXIST, 2, 1, INVALID_NAMESPACE_OR_FORMAT),
    (FLUSH, 0xffff_ffff, 1, SUCCESSFUL_COMPLETION),
    (EXIST, 0xffff_ffff, 1, INVALID_NAMESPACE_OR_FORMAT),
    (UNKNOWN, 2, 1, INVALID_COMMAND_OPCODE),
    (TICK, 1, 1, SUCCESSFUL_COMPLETION),
];

/// Whether a command with this opcode, namespace and length of its key has this status.
fn has_status(
    alloc: Global,
    machine: &mut MapMachine,
    (opcode, namespace, key_len, status): (u8, u32, u8, u8),
) -> bool {
    let value: &[u8] = if opcode == STORE { b"four" } else { b"" };
    let request = Request {
        opcode,
        cid: 1,
        namespace,
        key_len,
        key: *b"abcdefghijklmnop",
        size: 4,
        options: 0,
    };
    answers(alloc, machine, &request, value, (status, 0, &[]))
}

fn have_status(alloc: Global, machine: &mut MapMachine) -> bool {
    for row in EARLY {
        if !has_status(alloc, machine, *row) {
            return false;
        }
    }
    true
}

#[test]
fn early_checks(rt: HostRuntime) {
    let all = match machine(rt.alloc()) {
        Some(mut machine) => have_status(rt.alloc(), &mut machine),
        None => false,
    };
    assert!(rt; all);
}

/// Whether a Store of `len` bytes under a number has this status.
fn stores(alloc: Global, machine: &mut MapMachine, number: u16, len: u16, status: u8) -> bool {
    let value = [7; 1024];
    let len = len.min(1024);
    let request = request(STORE, &number.to_be_bytes(), u32::from(len), 0);
    let value = &value[..usize::from(len)];
    answers(alloc, machine, &request, value, (status, 0, &[]))
}

/// Whether `count` Stores of two pages each succeed.
fn fills(alloc: Global, machine: &mut MapMachine, count: u16) -> bool {
    for number in 0..count {
        if !stores(alloc, machine, number, 100, SUCCESSFUL_COMPLETION) {
            return false;
        }
    }
    true
}

/// Whether a command on the first key is done, with this number in its completion.
fn is_done(alloc: Global, machine: &mut MapMachine, opcode: u8, result_field: u32) -> bool {
    let request = request(opcode, &[0, 0], 0, 0);
    answers(
        alloc,
        machine,
        &request,
        &[],
        (SUCCESSFUL_COMPLETION, result_field, &[]),
    )
}

/// Whether a machine with the keys 0 to 245 is full, up to the byte, until one is deleted.
fn is_full(alloc: Global, machine: &mut MapMachine) -> bool {
    stores(alloc, machine, 246, 100, CAPACITY_EXCEEDED)
        && stores(alloc, machine, 0, 992, SUCCESSFUL_COMPLETION)
        && stores(alloc, machine, 0, 993, CAPACITY_EXCEEDED)
        && is_done(alloc, machine, RETRIEVE, 992)
        && is_done(alloc, machine, DELETE, 0)
        && stores(alloc, machine, 246, 100, SUCCESSFUL_COMPLETION)
}

// A machine that is filled up to its limit of 492 pages.
#[test]
fn capacity(rt: HostRuntime) {
    let alloc = rt.alloc();
    let all = match machine(alloc) {
        Some(mut machine) => fills(alloc, &mut machine, 246) && is_full(alloc, &mut machine),
        None => false,
    };
    assert!(rt; all);
}
