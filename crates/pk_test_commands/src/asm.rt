//! Lines of scripts, and the entries and bytes that they give.

use pk_asm::{BadLine, assemble_line, number, print};
use pk_nvme::Bytes;
use std::alloc::{AllocError, Global};
use std::test::*;

/// An entry in namespace 1 of this opcode and number, with a key of one byte, or of none if it is
/// 0, a size and options.
fn entry([opcode, cid, key, size, options]: [u8; 5]) -> [u8; 64] {
    let mut entry = [0u8; 64];
    entry[0] = opcode;
    entry[2] = cid;
    entry[4] = 1;
    entry[8] = key;
    entry[40] = size;
    entry[44] = key.min(1);
    entry[45] = options;
    entry
}

/// Lines, each number 5 of its script, with their entries and bytes.
const FORMS: &[(&[u8], [u8; 5], &[u8])] = &[
    (b"store 61 616263", [0x01, 5, 0x61, 3, 0], b"abc"),
    (b"store 61 - if-exists", [0x01, 5, 0x61, 0, 1], b""),
    (b"store 61 00 if-absent", [0x01, 5, 0x61, 1, 2], b"\0"),
    (b"store 61 ff both", [0x01, 5, 0x61, 1, 3], b"\xff"),
    (b"retrieve 61 3", [0x02, 5, 0x61, 3, 0], b""),
    (b"delete 61", [0x10, 5, 0x61, 0, 0], b""),
    (b"exist 61", [0x14, 5, 0x61, 0, 0], b""),
    (b"list 61 16", [0x06, 5, 0x61, 16, 0], b""),
    (b"list - 0", [0x06, 5, 0, 0, 0], b""),
    (b"flush", [0x00, 5, 0, 0, 0], b""),
    (b"report", [0xC2, 5, 0, 0, 0], b""),
    (b"tick 200", [0xC0, 5, 0, 200, 0], b""),
    // Another number, namespace or option, or bytes after another command, have no named line.
    (
        b"raw 0200060001000000610000000000000000000000000000000000000000000000\
          0000000000000000030000000100000000000000000000000000000000000000 -",
        [0x02, 6, 0x61, 3, 0],
        b"",
    ),
    (
        b"raw 0100050001000000610000000000000000000000000000000000000000000000\
          0000000000000000000000000104000000000000000000000000000000000000 -",
        [0x01, 5, 0x61, 0, 4],
        b"",
    ),
    (
        b"raw 0000050001000000000000000000000000000000000000000000000000000000\
          0000000000000000000000000000000000000000000000000000000000000000 4142",
        [0x00, 5, 0, 0, 0],
        b"AB",
    ),
];

/// The line gives this entry, or none, and these bytes.
fn gives(
    value: &mut Bytes,
    line: &[u8],
    number: u64,
    entry: Option<[u8; 64]>,
    bytes: &[u8],
) -> bool {
    if value.room() < 1_100_000 {
        return false;
    }
    assemble_line(line, number, value) == Ok(entry) && value.bytes() == bytes
}

/// The entry, number 5 of its script, and these bytes give the line.
fn prints(into: &mut Bytes, entry: &[u8; 64], bytes: &[u8], line: &[u8]) -> bool {
    into.clear();
    print(entry, bytes, 5, into)
        && match into.bytes().split_last() {
            Some((end, text)) => *end == b'\n' && text == line,
            None => false,
        }
}

/// The form goes both ways.
fn goes_both_ways(
    value: &mut Bytes,
    into: &mut Bytes,
    (line, fields, bytes): &(&[u8], [u8; 5], &[u8]),
) -> bool {
    let entry = entry(*fields);
    gives(value, line, 5, Some(entry), bytes) && prints(into, &entry, bytes, line)
}

/// All forms go both ways.
fn forms_hold(value: &mut Bytes, into: &mut Bytes) -> bool {
    for form in FORMS {
        if !goes_both_ways(value, into, form) {
            return false;
        }
    }
    true
}

fn have_forms(alloc: Global) -> Result<bool, AllocError> {
    let mut value = Bytes::with_room(alloc, 1_100_000)?;
    let mut into = Bytes::with_room(alloc, 200)?;
    Ok(forms_hold(&mut value, &mut into))
}

/// A line with its number, and the entry and bytes that it gives.
type Row = (&'static [u8], u64, Option<[u8; 5]>, &'static [u8]);

/// The line gives its entry and bytes.
fn is_given(value: &mut Bytes, (line, number, fields, bytes): &Row) -> bool {
    let expected = match fields {
        Some(fields) => Some(entry(*fields)),
        None => None,
    };
    gives(value, line, *number, expected, bytes)
}

fn are_given(value: &mut Bytes, rows: &[Row]) -> bool {
    for row in rows {
        if !is_given(value, row) {
            return false;
        }
    }
    true
}

/// All these lines give their entries and bytes.
fn give_all(alloc: Global, rows: &[Row]) -> bool {
    match Bytes::with_room(alloc, 1_100_000) {
        Ok(mut value) => are_given(&mut value, rows),
        Err(_) => false,
    }
}

// A Store and a Retrieve as the entries and bytes of a script, 131 in all.
const SCRIPT: &[Row] = &[
    (b"store 61 616263", 1, Some([0x01, 1, 0x61, 3, 0]), b"abc"),
    (b"retrieve 61 3", 2, Some([0x02, 2, 0x61, 3, 0]), b""),
];

/// Lines outside the grammar.
const BAD: &[&[u8]] = &[
    b"store  61 61",
    b"store 61 61 ",
    b" flush",
    b"flush ",
    b"flush 1",
    b" ",
    b"stroe",
    b"Flush",
    b"retrieve 61 03",
    b"retrieve 61 +3",
    b"retrieve 61 -",
    b"retrieve - 3",
    b"retrieve 6 3",
    b"tick 4294967296",
    b"tick 99999999999999999999",
    b"tick",
    b"store 61 6",
    b"store 61 6g",
    b"store 61",
    b"store 61 61 never",
    b"store 61 61 both both",
    b"delete 6161616161616161616161616161616161",
    b"list  3",
    b"raw 00 -",
];

/// The line gives nothing, and is refused.
fn is_bad(value: &mut Bytes, line: &[u8]) -> bool {
    if value.room() < 1_100_000 {
        return false;
    }
    assemble_line(line, 1, value) == Err(BadLine) && value.is_empty()
}

fn are_bad(value: &mut Bytes) -> bool {
    for line in BAD {
        if !is_bad(value, line) {
            return false;
        }
    }
    true
}

fn refuses_bad(alloc: Global) -> bool {
    match Bytes::with_room(alloc, 1_100_000) {
        Ok(mut value) => are_bad(&mut value),
        Err(_) => false,
    }
}

// Upper and lower case are read; empty lines and comments give nothing.
const OTHERS: &[Row] = &[
    (
        b"store 6A AbfF",
        1,
        Some([0x01, 1, 0x6a, 2, 0]),
        b"\xab\xff",
    ),
    (b"", 1, None, b""),
    (b"# store 61 6", 1, None, b""),
];

/// Numbers go up to 2^32 - 1.
fn are_numbers() -> bool {
    number(b"4294967295") == Some(4294967295)
        && number(b"0") == Some(0)
        && number(b"00") == None
        && number(b"") == None
}

/// This many bytes, these first and digits after them.
fn long_line(alloc: Global, size: usize, front: &[u8]) -> Result<Vec<u8>, AllocError> {
    let mut line = vec![in alloc; b'0'; size]?;
    for (i, byte) in front.iter().enumerate() {
        if i < line.len() {
            line[i] = *byte;
        }
    }
    Ok(line)
}

/// How many bytes a line gives, if it is inside the grammar.
fn given(value: &mut Bytes, line: &[u8]) -> Option<usize> {
    if value.room() < 1_100_000 {
        return None;
    }
    match assemble_line(line, 1, value) {
        Ok(_) => Some(value.len()),
        Err(_) => None,
    }
}

/// A line of this length, which begins so and goes on with digits, gives this many bytes, or is
/// refused.
fn long_gives(alloc: Global, size: usize, front: &[u8], bytes: Option<usize>) -> bool {
    let Ok(line) = long_line(alloc, size, front) else {
        return false;
    };
    match Bytes::with_room(alloc, 1_100_000) {
        Ok(mut value) => given(&mut value, &line) == bytes,
        Err(_) => false,
    }
}

// A comment of the greatest length and one that is longer; a Store of nearly that length and one that is longer.
fn are_longest(alloc: Global) -> bool {
    let store = b"store 61 ".as_slice();
    long_gives(alloc, 2_200_000, b"#", Some(0))
        && long_gives(alloc, 2_200_001, b"#", None)
        && long_gives(alloc, 2_199_999, store, Some(1_099_995))
        && long_gives(alloc, 2_200_001, store, None)
}

/// How many of two flushes are printed, if they leave this text.
fn flushes(into: &mut Bytes, text: &[u8]) -> Option<u32> {
    let flush = entry([0x00, 1, 0, 0, 0]);
    let first = print(&flush, b"", 1, into);
    let second = print(&flush, b"", 1, into);
    if into.bytes() != text {
        return None;
    }
    Some(first as u32 + second as u32)
}

/// This many of two flushes fit this much room, if they print this text.
fn fit(alloc: Global, room: usize, text: &[u8], count: u32) -> bool {
    match Bytes::with_room(alloc, room) {
        Ok(mut into) => flushes(&mut into, text) == Some(count),
        Err(_) => false,
    }
}

// A line and its line feed are written if they fit, after what is there.
fn have_room(alloc: Global) -> bool {
    fit(alloc, 11, b"flush\n", 1) && fit(alloc, 12, b"flush\nflush\n", 2)
}

#[test]
fn lines(rt: HostRuntime) {
    let alloc = rt.alloc();
    assert!(rt; have_forms(alloc) == Ok(true));
    assert!(rt; give_all(alloc, SCRIPT) && give_all(alloc, OTHERS) && are_numbers());
    assert!(rt; refuses_bad(alloc) && are_longest(alloc) && have_room(alloc));
}
