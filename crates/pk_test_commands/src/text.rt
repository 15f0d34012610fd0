//! Scripts that are assembled and records that are shown, over a board in memory.

use pk_flash::{Flash, Left, Room};
use pk_text::{Assembler, Shower, TextEnd};
use std::alloc::{AllocError, Global};
use std::test::*;

const ROOM: Room = Room {
    posted: 1024,
    marks: 32,
};

// A Store of CID 1 with key 61 and the value 616263.
const STORE: [u8; 67] = *b"\
    \x01\0\x01\0\x01\0\0\0\x61\0\0\0\0\0\0\0\
    \0\0\0\0\0\0\0\0\0\0\0\0\0\0\0\0\
    \0\0\0\0\0\0\0\0\x03\0\0\0\x01\0\0\0\
    \0\0\0\0\0\0\0\0\0\0\0\0\0\0\0\0\
    abc";
// A Retrieve of CID 2 of the same key with a buffer of 3 bytes.
const RETRIEVE: [u8; 64] = *b"\
    \x02\0\x02\0\x01\0\0\0\x61\0\0\0\0\0\0\0\
    \0\0\0\0\0\0\0\0\0\0\0\0\0\0\0\0\
    \0\0\0\0\0\0\0\0\x03\0\0\0\x01\0\0\0\
    \0\0\0\0\0\0\0\0\0\0\0\0\0\0\0\0";
// A Flush of CID 1.
const FLUSH: [u8; 64] = *b"\
    \0\0\x01\0\x01\0\0\0\0\0\0\0\0\0\0\0\
    \0\0\0\0\0\0\0\0\0\0\0\0\0\0\0\0\
    \0\0\0\0\0\0\0\0\0\0\0\0\0\0\0\0\
    \0\0\0\0\0\0\0\0\0\0\0\0\0\0\0\0";
// The records of the Store and the Retrieve.
const RECORDS: &[u8] = b"\
    \0\0\0\0\0\0\0\0\x01\0\x01\0\x01\0\x01\0\
    \0\0\0\0\0\0\0\0\x03\0\0\0\0\0\0\0\
    \x02\0\x01\0\x02\0\x01\0\x01\0\0\0\x03\0\0\0\
    abc";

fn board(alloc: Global, input: &[u8]) -> Result<Flash, AllocError> {
    Flash::new(alloc, None, input.to_vec(alloc)?, ROOM)
}

// How a script that is assembled ends; None if memory was missing.
fn end_of(alloc: Global, flash: &mut Flash) -> Option<TextEnd> {
    match Assembler::new(alloc) {
        Ok(mut assembler) => Some(assembler.assemble(flash)),
        Err(_) => None,
    }
}

// How records that are shown end; None if memory was missing.
fn end_of_show(alloc: Global, flash: &mut Flash) -> Option<TextEnd> {
    match Shower::new(alloc) {
        Ok(mut shower) => Some(shower.show(flash)),
        Err(_) => None,
    }
}

// The script gives these two parts, one after the other.
fn assembles(alloc: Global, script: &[u8], end: TextEnd, first: &[u8], second: &[u8]) -> bool {
    match board(alloc, script) {
        Ok(mut flash) => {
            end_of(alloc, &mut flash) == Some(end) && joins(flash.posted(), first, second)
        }
        Err(_) => false,
    }
}

// The bytes are these two parts, one after the other.
fn joins(bytes: &[u8], first: &[u8], second: &[u8]) -> bool {
    match bytes.strip_prefix(first) {
        Some(rest) => rest == second,
        None => false,
    }
}

const BOTH: &[u8] = b"store 61 616263\nretrieve 61 3\n";

const NO_FEED: &[u8] = b"store 61 616263\nretrieve 61 3";

// Two entries, with and without the last line feed; comments and empty lines; a line outside the grammar.
fn are_assembled(alloc: Global) -> bool {
    assembles(alloc, BOTH, TextEnd::Done, &STORE, &RETRIEVE)
        && assembles(alloc, NO_FEED, TextEnd::Done, &STORE, &RETRIEVE)
        && assembles(alloc, b"# one\n\nflush\n", TextEnd::Done, &FLUSH, b"")
        && assembles(alloc, b"flush\nstroe\n", TextEnd::BadLine, &FLUSH, b"")
        && assembles(alloc, b"", TextEnd::Done, b"", b"")
}

const SHOWN: &[u8] = b"cid=1 status=00 result=0 reads=0 data=-\n\
    cid=2 status=00 result=3 reads=1 data=616263\n";

// This many bytes of the records give this many bytes of their lines.
fn shows(alloc: Global, size: usize, end: TextEnd, shown: usize) -> bool {
    match board(alloc, &RECORDS[..size.min(RECORDS.len())]) {
        Ok(mut flash) => {
            end_of_show(alloc, &mut flash) == Some(end)
                && flash.posted() == &SHOWN[..shown.min(SHOWN.len())]
        }
        Err(_) => false,
    }
}

// Two records; one that is cut short within its data, and one within its head.
fn are_shown(alloc: Global) -> bool {
    shows(alloc, 51, TextEnd::Done, 85)
        && shows(alloc, 50, TextEnd::Truncated, 82)
        && shows(alloc, 34, TextEnd::Truncated, 40)
        && shows(alloc, 0, TextEnd::Done, 0)
}

// A board of which this call fails.
fn failing(alloc: Global, input: &[u8], call: u64, left: Left) -> Result<Flash, AllocError> {
    let mut flash = board(alloc, input)?;
    flash.fail(alloc, call, left)?;
    Ok(flash)
}

// An assembly whose call of this number fails ends so, and this is posted.
fn assembly_fails(alloc: Global, call: u64, left: Left, end: TextEnd, posted: &[u8]) -> bool {
    match failing(alloc, b"flush\n", call, left) {
        Ok(mut flash) => end_of(alloc, &mut flash) == Some(end) && flash.posted() == posted,
        Err(_) => false,
    }
}

// A show whose call of this number fails ends so, and these bytes are posted first, and this many
// in all.
fn show_fails(alloc: Global, call: u64, left: Left, end: TextEnd, len: usize) -> bool {
    match failing(alloc, RECORDS, call, left) {
        Ok(mut flash) => {
            end_of_show(alloc, &mut flash) == Some(end)
                && flash.posted().starts_with(&SHOWN[..44])
                && flash.posted().len() == len
        }
        Err(_) => false,
    }
}

// The first call fetches, and posts follow it.
fn are_failures(alloc: Global) -> bool {
    assembly_fails(alloc, 0, Left::Untouched, TextEnd::Input, b"")
        && assembly_fails(alloc, 1, Left::Part(10), TextEnd::Output, &FLUSH[..10])
        && show_fails(alloc, 3, Left::Part(4), TextEnd::Output, 44)
        && show_fails(alloc, 6, Left::Untouched, TextEnd::Input, 85)
}

#[test]
fn texts(rt: HostRuntime) {
    assert!(rt; are_assembled(rt.alloc()));
    assert!(rt; are_shown(rt.alloc()));
    assert!(rt; are_failures(rt.alloc()));
}
