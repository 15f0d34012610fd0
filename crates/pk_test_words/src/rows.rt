//! Consecutive commands on a made drive, each with its answer: options and lengths, namespaces, and the keys of a List.

use pk_nand::PageState;
use pk_nvme::Request;
use pk_nvme::opcode::{DELETE, EXIST, FLUSH, LIST, REPORT, RETRIEVE, STORE, TICK};
use pk_nvme::status::{
    CAPACITY_EXCEEDED, INVALID_COMMAND_OPCODE, INVALID_FIELD_IN_COMMAND, INVALID_KEY_SIZE,
    INVALID_NAMESPACE_OR_FORMAT, INVALID_VALUE_SIZE, KEY_DOES_NOT_EXIST, KEY_EXISTS,
    SUCCESSFUL_COMPLETION,
};
use pk_test_scripts::boards::{Session, made, pages_left};
use pk_test_scripts::exits::DONE;
use pk_test_scripts::script::{Ask, UNKNOWN, Value, push_head};
use pk_test_scripts::steps::{add, ask, ended, holds, posted, serve, worked_board, wrote};
use pk_test_scripts::{MAKE_WORKED, Place, Program};
use std::alloc::Global;
use std::test::*;

const OK: u8 = SUCCESSFUL_COMPLETION;

const ALL: u32 = 0xffff_ffff;

// A command and its answer: the opcode, the namespace, the bytes of the key and its length, the size, the options; the status and the
// data. A Store has as many bytes of the value as its size says. No page is read for any of them.
type Row = (u8, u32, &'static [u8; 16], u8, u32, u8, u8, &'static [u8]);

const A: &[u8; 16] = b"a\0\0\0\0\0\0\0\0\0\0\0\0\0\0\0";

const B: &[u8; 16] = b"b\0\0\0\0\0\0\0\0\0\0\0\0\0\0\0";

const WHOLE: &[u8; 16] = b"abcdefghijklmnop";

const BEFORE: &[u8; 16] = b"\x60\0\0\0\0\0\0\0\0\0\0\0\0\0\0\0";

// The numbers of a Report: live pages, the limit, keys, levels with frames, frames, and of the drive's own the entries of the active
// buffer, the commits of the epoch and the blocks in use.
const ONE_KEY: &[u8; 64] = b"\
    \x02\0\0\0\xec\x01\0\0\x01\0\0\0\x02\0\0\0\
    \x24\0\0\0\0\0\0\0\x01\0\0\0\0\0\0\0\
    \0\0\0\0\0\0\0\0\0\0\0\0\0\0\0\0\
    \x01\0\0\0\x01\0\0\0\0\0\0\0\0\0\0\0";

const NO_BYTE: &[Row] = &[
    (STORE, 1, A, 1, 0, 0, OK, b""),
    (EXIST, 1, A, 1, 0, 0, OK, b""),
    (RETRIEVE, 1, A, 1, 10, 0, OK, b""),
    (REPORT, 1, A, 0, 0, 0, OK, ONE_KEY),
];

const LENGTHS: &[Row] = &[
    (STORE, 1, WHOLE, 0, 4, 0, INVALID_KEY_SIZE, b""),
    (STORE, 1, WHOLE, 1, 4, 0, OK, b""),
    (STORE, 1, WHOLE, 16, 4, 0, OK, b""),
    (STORE, 1, WHOLE, 17, 4, 0, INVALID_KEY_SIZE, b""),
    (STORE, 1, WHOLE, 200, 4, 0, INVALID_KEY_SIZE, b""),
    (LIST, 1, WHOLE, 0, 4, 0, OK, b"\0\0\0\0"),
    (LIST, 1, WHOLE, 17, 4, 0, INVALID_KEY_SIZE, b""),
];

const OPTIONS: &[Row] = &[
    (STORE, 1, A, 1, 1, 1, KEY_DOES_NOT_EXIST, b""),
    (STORE, 1, A, 1, 1, 3, KEY_DOES_NOT_EXIST, b""),
    (STORE, 1, A, 1, 1, 2, OK, b""),
    (STORE, 1, A, 1, 1, 2, KEY_EXISTS, b""),
    (STORE, 1, A, 1, 1, 3, KEY_EXISTS, b""),
    (STORE, 1, A, 1, 1, 1, OK, b""),
];

// After a Flush, so that the last command has CID 5.
const DELETED: &[Row] = &[
    (FLUSH, 1, A, 0, 0, 0, OK, b""),
    (STORE, 1, A, 1, 1, 0, OK, b""),
    (DELETE, 1, A, 1, 0, 0, OK, b""),
    (DELETE, 1, A, 1, 0, 0, KEY_DOES_NOT_EXIST, b""),
    (EXIST, 1, A, 1, 0, 0, KEY_DOES_NOT_EXIST, b""),
];

const LISTS: &[Row] = &[
    (STORE, 1, A, 1, 1, 0, OK, b""),
    (STORE, 1, A, 2, 1, 0, OK, b""),
    (STORE, 1, B, 1, 1, 0, OK, b""),
    (LIST, 1, A, 1, 3, 0, INVALID_FIELD_IN_COMMAND, b""),
    (LIST, 1, A, 1, 4, 0, OK, b"\0\0\0\0"),
    (LIST, 1, A, 1, 7, 0, OK, b"\0\0\0\0"),
    (LIST, 1, A, 1, 8, 0, OK, b"\x01\0\0\0\x01\0a\0"),
    (LIST, 1, A, 1, 11, 0, OK, b"\x01\0\0\0\x01\0a\0"),
    (LIST, 1, A, 1, 12, 0, OK, b"\x02\0\0\0\x01\0a\0\x02\0a\0"),
    (
        LIST,
        1,
        A,
        1,
        16,
        0,
        OK,
        b"\x03\0\0\0\x01\0a\0\x02\0a\0\x01\0b\0",
    ),
    (LIST, 1, BEFORE, 2, 8, 0, OK, b"\x01\0\0\0\x01\0a\0"),
];

const NAMESPACES: &[Row] = &[
    (UNKNOWN, 1, A, 1, 0, 0, INVALID_COMMAND_OPCODE, b""),
    (EXIST, 2, A, 1, 0, 0, INVALID_NAMESPACE_OR_FORMAT, b""),
    (FLUSH, ALL, A, 1, 0, 0, OK, b""),
    (EXIST, ALL, A, 1, 0, 0, INVALID_NAMESPACE_OR_FORMAT, b""),
    (UNKNOWN, 2, A, 1, 0, 0, INVALID_COMMAND_OPCODE, b""),
];

// The words of drives of two and of three namespaces.
const TWO: &[&str] = &["make", "512", "16", "64", "100", "392"];

const THREE: &[&str] = &["make", "512", "16", "64", "100", "100", "292"];

// Namespaces that a drive of two does not have, in the order of the checks: the opcode first, then the namespace, then the rest. Nothing
// is stored.
const ELSEWHERE: &[Row] = &[
    (EXIST, 1, A, 1, 0, 0, KEY_DOES_NOT_EXIST, b""),
    (EXIST, 2, A, 1, 0, 0, KEY_DOES_NOT_EXIST, b""),
    (EXIST, 0, A, 1, 0, 0, INVALID_NAMESPACE_OR_FORMAT, b""),
    (EXIST, 3, A, 1, 0, 0, INVALID_NAMESPACE_OR_FORMAT, b""),
    (EXIST, 8, A, 1, 0, 0, INVALID_NAMESPACE_OR_FORMAT, b""),
    (EXIST, 9, A, 1, 0, 0, INVALID_NAMESPACE_OR_FORMAT, b""),
    (EXIST, 256, A, 1, 0, 0, INVALID_NAMESPACE_OR_FORMAT, b""),
    (EXIST, 257, A, 1, 0, 0, INVALID_NAMESPACE_OR_FORMAT, b""),
    (EXIST, 65_538, A, 1, 0, 0, INVALID_NAMESPACE_OR_FORMAT, b""),
    (
        EXIST,
        0x8000_0001,
        A,
        1,
        0,
        0,
        INVALID_NAMESPACE_OR_FORMAT,
        b"",
    ),
    (EXIST, ALL, A, 1, 0, 0, INVALID_NAMESPACE_OR_FORMAT, b""),
    (UNKNOWN, 0, A, 1, 0, 0, INVALID_COMMAND_OPCODE, b""),
    (UNKNOWN, 2, A, 1, 0, 0, INVALID_COMMAND_OPCODE, b""),
    (UNKNOWN, 3, A, 1, 0, 0, INVALID_COMMAND_OPCODE, b""),
    (FLUSH, 2, A, 0, 0, 0, OK, b""),
    (FLUSH, ALL, A, 0, 0, 0, OK, b""),
    (FLUSH, 0, A, 0, 0, 0, INVALID_NAMESPACE_OR_FORMAT, b""),
    (FLUSH, 3, A, 0, 0, 0, INVALID_NAMESPACE_OR_FORMAT, b""),
    (TICK, 2, A, 0, 0, 0, OK, b""),
    (TICK, 3, A, 0, 1000, 0, INVALID_NAMESPACE_OR_FORMAT, b""),
    (TICK, ALL, A, 0, 0, 0, INVALID_NAMESPACE_OR_FORMAT, b""),
    (REPORT, 3, A, 0, 64, 0, INVALID_NAMESPACE_OR_FORMAT, b""),
    (REPORT, ALL, A, 0, 64, 0, INVALID_NAMESPACE_OR_FORMAT, b""),
    (RETRIEVE, 3, A, 1, 64, 0, INVALID_NAMESPACE_OR_FORMAT, b""),
    (DELETE, 3, A, 1, 0, 0, INVALID_NAMESPACE_OR_FORMAT, b""),
    (STORE, 3, A, 1, 4, 0, INVALID_NAMESPACE_OR_FORMAT, b""),
    (STORE, 258, A, 1, 4, 0, INVALID_NAMESPACE_OR_FORMAT, b""),
    (STORE, 3, A, 0, 4, 0, INVALID_NAMESPACE_OR_FORMAT, b""),
    (STORE, 2, A, 0, 4, 0, INVALID_KEY_SIZE, b""),
    (STORE, 2, WHOLE, 17, 4, 0, INVALID_KEY_SIZE, b""),
    (STORE, 2, A, 1, 4, 1, KEY_DOES_NOT_EXIST, b""),
    (LIST, 3, A, 17, 3, 0, INVALID_NAMESPACE_OR_FORMAT, b""),
    (LIST, 2, A, 17, 3, 0, INVALID_KEY_SIZE, b""),
    (LIST, 2, A, 0, 3, 0, INVALID_FIELD_IN_COMMAND, b""),
    (LIST, 1, A, 0, 64, 0, OK, b"\0\0\0\0"),
    (LIST, 2, A, 0, 64, 0, OK, b"\0\0\0\0"),
];

// One key in two namespaces.
const SHARED: &[Row] = &[
    (STORE, 1, A, 1, 4, 0, OK, b""),
    (EXIST, 2, A, 1, 0, 0, KEY_DOES_NOT_EXIST, b""),
    (DELETE, 2, A, 1, 0, 0, KEY_DOES_NOT_EXIST, b""),
    (RETRIEVE, 2, A, 1, 64, 0, KEY_DOES_NOT_EXIST, b""),
    (STORE, 2, A, 1, 4, 1, KEY_DOES_NOT_EXIST, b""),
    (STORE, 2, A, 1, 0, 2, OK, b""),
    (STORE, 2, A, 1, 4, 2, KEY_EXISTS, b""),
    (STORE, 1, A, 1, 4, 2, KEY_EXISTS, b""),
    (DELETE, 1, A, 1, 0, 0, OK, b""),
    (EXIST, 1, A, 1, 0, 0, KEY_DOES_NOT_EXIST, b""),
    (EXIST, 2, A, 1, 0, 0, OK, b""),
    (RETRIEVE, 2, A, 1, 64, 0, OK, b""),
    (DELETE, 1, A, 1, 0, 0, KEY_DOES_NOT_EXIST, b""),
    (DELETE, 2, A, 1, 0, 0, OK, b""),
    (EXIST, 2, A, 1, 0, 0, KEY_DOES_NOT_EXIST, b""),
];

// Keys in three namespaces, which are listed next.
const KEYS_OF_THREE: &[Row] = &[
    (STORE, 3, A, 1, 4, 0, OK, b""),
    (STORE, 2, B, 1, 4, 0, OK, b""),
    (STORE, 1, WHOLE, 16, 4, 0, OK, b""),
    (STORE, 2, BEFORE, 1, 4, 0, OK, b""),
    (STORE, 1, A, 1, 4, 0, OK, b""),
];

// Each List ends with its namespace: those from a key after the last one of the namespace have no key.
const LISTS_OF_THREE: &[Row] = &[
    (LIST, 1, A, 0, 64, 0, OK, A_AND_WHOLE),
    (LIST, 1, A, 1, 64, 0, OK, A_AND_WHOLE),
    (LIST, 1, A, 2, 64, 0, OK, ONLY_WHOLE),
    (LIST, 1, WHOLE, 16, 64, 0, OK, ONLY_WHOLE),
    (LIST, 1, B, 1, 64, 0, OK, b"\0\0\0\0"),
    (LIST, 2, A, 0, 64, 0, OK, b"\x02\0\0\0\x01\0\x60\0\x01\0b\0"),
    (LIST, 2, BEFORE, 2, 64, 0, OK, b"\x01\0\0\0\x01\0b\0"),
    (LIST, 2, A, 1, 64, 0, OK, b"\x01\0\0\0\x01\0b\0"),
    (LIST, 2, B, 2, 64, 0, OK, b"\0\0\0\0"),
    (LIST, 2, A, 0, 8, 0, OK, b"\x01\0\0\0\x01\0\x60\0"),
    (LIST, 3, A, 0, 64, 0, OK, b"\x01\0\0\0\x01\0a\0"),
    (LIST, 3, BEFORE, 1, 64, 0, OK, b"\x01\0\0\0\x01\0a\0"),
    (LIST, 3, B, 1, 64, 0, OK, b"\0\0\0\0"),
    (LIST, 4, A, 0, 64, 0, INVALID_NAMESPACE_OR_FORMAT, b""),
];

const A_AND_WHOLE: &[u8] = b"\x02\0\0\0\x01\0a\0\x10\0abcdefghijklmnop\0\0";

// A Store after an opening needs a freeze, and background steps merge the frozen keys.
const MERGING: [Ask; 2] = [
    Ask::Store(0x61, Value { first: 1, len: 4 }),
    Ask::Tick(1000),
];

const ONLY_WHOLE: &[u8] = b"\x01\0\0\0\x10\0abcdefghijklmnop\0\0";

// Limits of one to six pages and the rest, in which 0, 1, 1, 2, 2 and 3 values of two pages have room. A value of 993 bytes takes four.
const SIX: &[&str] = &["make", "512", "16", "64", "1", "2", "3", "4", "5", "6"];

const FULL: &[Row] = &[
    (STORE, 1, A, 1, 0, 0, CAPACITY_EXCEEDED, b""),
    (STORE, 2, A, 1, 4, 0, OK, b""),
    (STORE, 2, B, 1, 4, 0, CAPACITY_EXCEEDED, b""),
    (STORE, 3, A, 1, 4, 0, OK, b""),
    (STORE, 3, B, 1, 4, 0, CAPACITY_EXCEEDED, b""),
    (STORE, 2, A, 1, 0, 0, OK, b""),
    (STORE, 4, A, 1, 4, 0, OK, b""),
    (STORE, 4, B, 1, 4, 0, OK, b""),
    (STORE, 4, BEFORE, 1, 4, 0, CAPACITY_EXCEEDED, b""),
    (DELETE, 4, A, 1, 0, 0, OK, b""),
    (STORE, 4, BEFORE, 1, 4, 0, OK, b""),
    (STORE, 4, A, 1, 4, 0, CAPACITY_EXCEEDED, b""),
    (STORE, 5, A, 1, 4, 0, OK, b""),
    (STORE, 5, B, 1, 4, 0, OK, b""),
    (STORE, 5, BEFORE, 1, 4, 0, CAPACITY_EXCEEDED, b""),
    (STORE, 6, A, 1, 4, 0, OK, b""),
    (STORE, 6, B, 1, 4, 0, OK, b""),
    (STORE, 6, BEFORE, 1, 4, 0, OK, b""),
    (STORE, 6, WHOLE, 16, 4, 0, CAPACITY_EXCEEDED, b""),
    (STORE, 1, A, 1, 2017, 0, INVALID_VALUE_SIZE, b""),
    (STORE, 1, A, 1, 0, 1, KEY_DOES_NOT_EXIST, b""),
    (STORE, 2, A, 1, 4, 2, KEY_EXISTS, b""),
    (EXIST, 1, A, 1, 0, 0, KEY_DOES_NOT_EXIST, b""),
    (EXIST, 2, B, 1, 0, 0, KEY_DOES_NOT_EXIST, b""),
    (EXIST, 4, A, 1, 0, 0, KEY_DOES_NOT_EXIST, b""),
];

// Adds the entry of a row with this number, and the value of a Store.
fn add_row(into: &mut Vec<u8>, cid: u16, row: &Row) -> Result<(), Fail> {
    let (opcode, namespace, key, key_len, size, options, _, _) = *row;
    let request = Request {
        opcode,
        cid,
        namespace,
        key_len,
        key: *key,
        size,
        options,
    };
    add(into, &request.entry())?;
    if opcode == STORE {
        add(into, VALUE.get(..size as usize).unwrap_or(&VALUE))?;
    }
    Ok(())
}

// The bytes of values.
const VALUE: [u8; 2017] = [7; 2017];

// Adds the record of a row.
fn add_answer(into: &mut Vec<u8>, cid: u16, row: &Row) -> Result<(), Fail> {
    let (_, _, _, _, _, _, status, data) = *row;
    let size = u32::try_from(data.len()).map_err(Fail::new)?;
    push_head(into, cid, status, 0, 0, size)?;
    add(into, data)
}

// These commands in a session of a drive that has these pages have these answers.
fn check_on<P: Program>(
    alloc: Global,
    pages: Vec<PageState>,
    name: &'static str,
    rows: &[Row],
) -> Result<Session, Fail> {
    let mut script = Vec::new(alloc);
    let mut want = Vec::new(alloc);
    let mut cid = 0u16;
    for row in rows {
        cid = cid.wrapping_add(1);
        add_row(&mut script, cid, row)?;
        add_answer(&mut want, cid, row)?;
    }
    let session = serve::<P>(alloc, worked_board(alloc, pages, script)?);
    posted(&session, DONE, &want, Place::Named(name))?;
    Ok(session)
}

// The same on a drive that these words made.
fn check_made<P: Program>(
    alloc: Global,
    words: &[&str],
    name: &'static str,
    rows: &[Row],
) -> Result<Session, Fail> {
    Ok(check_on::<P>(alloc, made::<P>(alloc, words)?, name, rows)?)
}

// The same on a drive of one namespace.
fn check<P: Program>(alloc: Global, name: &'static str, rows: &[Row]) -> Result<Session, Fail> {
    check_made::<P>(alloc, &MAKE_WORKED, name, rows)
}

/// Values of no byte, lengths of keys, options of a Store, Deletes, Lists into buffers of several sizes, and namespaces.
pub fn answers<P: Program>(alloc: Global) -> Result<(), Fail> {
    let _ = check::<P>(alloc, "no byte", NO_BYTE)?;
    let _ = check::<P>(alloc, "lengths", LENGTHS)?;
    let _ = check::<P>(alloc, "options", OPTIONS)?;
    let _ = check::<P>(alloc, "lists", LISTS)?;
    let _ = check::<P>(alloc, "namespaces", NAMESPACES)?;
    let deleted = check::<P>(alloc, "deleted", DELETED)?;
    let last = [5, 0, 0x0f, 1, 0, 0, 0, 0, 0, 0, 0, 0];
    let is_so = deleted.flash.posted().ends_with(&last);
    holds(is_so, "the last dwords", Place::Named("deleted"))
}

/// On a drive of two namespaces: namespaces that it does not have, and one key in both.
pub fn answers_of_two<P: Program>(alloc: Global) -> Result<(), Fail> {
    let elsewhere = check_made::<P>(alloc, TWO, "elsewhere", ELSEWHERE)?;
    wrote(&elsewhere, 0, 0)?;
    let _ = check_made::<P>(alloc, TWO, "shared", SHARED)?;
    Ok(())
}

/// Lists of three namespaces: of keys in the buffer, after an opening, and of keys in run 1, which has frames.
pub fn lists_of_three<P: Program>(alloc: Global) -> Result<(), Fail> {
    let stored = check_made::<P>(alloc, THREE, "keys", KEYS_OF_THREE)?;
    let pages = pages_left(alloc, &stored.flash)?;
    let _ = check_on::<P>(alloc, pages, "lists of a buffer", LISTS_OF_THREE)?;
    let pages = pages_left(alloc, &stored.flash)?;
    let merged = ask::<P>(alloc, pages, &MERGING)?;
    ended(&merged, DONE, Place::Named("a merge"))?;
    let pages = pages_left(alloc, &merged.flash)?;
    let _ = check_on::<P>(alloc, pages, "lists of a run", LISTS_OF_THREE)?;
    Ok(())
}

/// Limits of one to six pages.
pub fn full_namespaces<P: Program>(alloc: Global) -> Result<(), Fail> {
    let _ = check_made::<P>(alloc, SIX, "limits", FULL)?;
    Ok(())
}
