//! Pages of values by their bytes.

use pk_base::{Key, Shape};
use pk_segfmt::{BadHead, head, page};
use std::test::*;

// The page of this number of a value, if its shape has one.
fn written(shape: &Shape, key: &[u8], value: &[u8], number: u32) -> Option<[u8; 512]> {
    written_in(shape, 1, key, value, number)
}

// The same of a key in this namespace.
fn written_in(
    shape: &Shape,
    space: u8,
    key: &[u8],
    value: &[u8],
    number: u32,
) -> Option<[u8; 512]> {
    let key = Key::in_space(space, key)?;
    if shape.page_bytes() != 512 || value.len() > shape.greatest() as usize {
        return None;
    }
    if number >= shape.charge(value.len() as u32) {
        return None;
    }
    let mut into = [0xffu8; 512];
    page(shape, &key, value, number, &mut into);
    Some(into)
}

// The page has these bytes, one part after the other, and zeros after them.
fn is_made_of(page: &[u8; 512], parts: &[&[u8]]) -> bool {
    let mut rest = page.as_slice();
    for part in parts {
        match rest.strip_prefix(*part) {
            Some(behind) => rest = behind,
            None => return false,
        }
    }
    rest.iter().all(|byte| *byte == 0)
}

// The page of this number of a value is written, of these parts.
fn has_parts(shape: &Shape, key: &[u8], value: &[u8], number: u32, parts: &[&[u8]]) -> bool {
    match written(shape, key, value, number) {
        Some(page) => is_made_of(&page, parts),
        None => false,
    }
}

// The first page of the value "hi" of the key "ab": its head, the value, and zeros.
const SMALL: &[&[u8]] = &[
    b"\x02\x44\0\0\x61\x62",
    b"\0\0\0\0\0\0\0\0\0\0\0\0\0\0",
    b"\x02\0\0\0",
    b"\x50\x49\x4e\x4b\x44\x41\x54\x41",
    b"hi",
];

// The value's last ten bytes are at the start of its second page.
const FIRST: &[&[u8]] = &[
    b"\x10\x44\0\0",
    b"abcdefghijklmnop",
    b"\xea\x01\0\0",
    b"PINKDATA",
    &[0x2e; 480],
];

const SECOND: &[&[u8]] = &[b"0123456789"];

const KEY: &[u8] = b"abcdefghijklmnop";

// The value that fills two pages with its head, and one that is longer by a byte: its third page has that byte, and its fourth none.
fn fills_pairs(shape: &Shape) -> bool {
    let value = [0x2eu8; 993];
    has_parts(shape, KEY, &value[..992], 1, &[&[0x2e; 512]])
        && written(shape, KEY, &value[..992], 2).is_none()
        && has_parts(shape, KEY, &value, 2, &[b"."])
        && has_parts(shape, KEY, &value, 3, &[])
}

fn has_both(shape: &Shape) -> bool {
    let mut value = [0x2eu8; 490];
    value[480..].copy_from_slice(b"0123456789");
    has_parts(shape, KEY, &value, 0, FIRST) && has_parts(shape, KEY, &value, 1, SECOND)
}

// A head by its bytes.
fn written_out() -> [u8; 512] {
    let mut page = [0u8; 512];
    page[0] = 2;
    page[1] = 0x44;
    page[4] = 0x61;
    page[5] = 0x62;
    page[20] = 0xe0;
    page[21] = 7;
    page[24..32].copy_from_slice(b"PINKDATA");
    page
}

// The key "ab" and the length 2,016 are read.
fn is_head(shape: &Shape) -> bool {
    if shape.page_bytes() != 512 {
        return false;
    }
    match head(shape, &written_out()) {
        Ok(found) => found.key.bytes() == b"ab".as_slice() && found.len == 2016,
        Err(_) => false,
    }
}

// The head in namespace 5 is written and read.
fn has_namespace(shape: &Shape) -> bool {
    let Some(page) = written_in(shape, 5, b"ab", b"hi", 0) else {
        return false;
    };
    if shape.page_bytes() != 512 || page[..6] != [2, 0x44, 4, 0, 0x61, 0x62] {
        return false;
    }
    match head(shape, &page) {
        Ok(found) => found.key.space() == 5 && found.len == 2,
        Err(_) => false,
    }
}

// The place that a head is refused at which has another byte at this place.
fn refused_at(shape: &Shape, place: usize, byte: u8) -> Option<u32> {
    let mut page = written_out();
    if place < 512 {
        page[place] = byte;
    }
    if shape.page_bytes() != 512 {
        return None;
    }
    match head(shape, &page) {
        Ok(_) => None,
        Err(BadHead { at }) => Some(at),
    }
}

// Heads with another byte at a place, and the first wrong field of each.
const WRONG: &[(usize, u8, u32)] = &[
    (0, 0, 0),
    (0, 17, 0),
    (0, 1, 4),
    (1, 0x45, 1),
    (2, 8, 2),
    (3, 1, 2),
    (6, 1, 4),
    (19, 1, 4),
    (20, 0xe1, 20),
    (23, 1, 20),
    (24, 0, 24),
    (31, 0, 24),
];

fn are_refused(shape: &Shape) -> bool {
    for (place, byte, at) in WRONG {
        if refused_at(shape, *place, *byte) != Some(*at) {
            return false;
        }
    }
    true
}

// Values are written that leave the second page of their pair empty, use it and fill it, and one that needs a second pair; a head is
// read, and heads that differ from it in one byte are refused.
fn are_values(shape: &Shape) -> bool {
    has_parts(shape, b"ab", b"hi", 0, SMALL)
        && has_parts(shape, b"ab", b"hi", 1, &[])
        && has_both(shape)
        && fills_pairs(shape)
        && is_head(shape)
        && has_namespace(shape)
        && are_refused(shape)
}

#[test]
fn values(rt: HostRuntime) {
    let all = match Shape::new(512, 16, 64) {
        Ok(shape) => are_values(&shape),
        Err(_) => false,
    };
    assert!(rt; all);
}
