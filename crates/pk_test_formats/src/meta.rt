//! Meta pages by their bytes.

use pk_base::{Entry, Key, Shape};
use pk_meta::{MetaHead, decode, find};
use std::test::*;

// A page of level 2 and index 258 with two entries, a value of three bytes at page 32 and a deleted key, byte by byte.
fn written_out() -> [u8; 512] {
    let mut page = [0u8; 512];
    page[..32].copy_from_slice(b"PINKMETA\x02\0\x02\0\x02\x01\0\0\0\0\0\0\0\0\0\0\0\0\0\0\0\0\0\0");
    page[32..64].copy_from_slice(
        b"\x01\x01\0\0a\0\0\0\0\0\0\0\0\0\0\0\0\0\0\0\x20\0\0\0\x03\0\0\0\0\0\0\0",
    );
    page[64..96].copy_from_slice(
        b"\x02\x02\0\0ab\0\0\0\0\0\0\0\0\0\0\0\0\0\0\0\0\0\0\0\0\0\0\0\0\0\0",
    );
    page
}

// The place that a page is refused at which has another byte at this place.
fn refused_at(shape: &Shape, place: usize, byte: u8) -> Option<u32> {
    let mut page = written_out();
    if place < 512 {
        page[place] = byte;
    }
    if shape.page_bytes() != 512 {
        return None;
    }
    match decode(shape, &page) {
        Ok(_) => None,
        Err(bad) => Some(bad.at),
    }
}

// What precedes the entries of the page is read.
fn is_read(shape: &Shape) -> bool {
    if shape.page_bytes() != 512 {
        return false;
    }
    let wanted = MetaHead {
        level: 2,
        index: 258,
        count: 2,
    };
    match decode(shape, &written_out()) {
        Ok(head) => head == wanted,
        Err(_) => false,
    }
}

// Pages with another byte at a place, and the first wrong field of each.
const WRONG: &[(usize, u8, Option<u32>)] = &[
    (0, b'p', Some(0)),
    (7, b'a', Some(0)),
    (8, 0, Some(8)),
    (8, 4, None),
    (8, 5, Some(8)),
    (9, 1, Some(9)),
    (10, 0, Some(10)),
    (10, 16, Some(10)),
    (11, 1, Some(10)),
    (10, 1, Some(64)),
    (10, 3, Some(96)),
    (15, 255, None),
    (16, 1, Some(16)),
    (31, 1, Some(16)),
    (32, 0, Some(32)),
    (33, 3, Some(32)),
    (34, 7, Some(64)),
    (34, 8, Some(32)),
    (66, 7, None),
    (36, b'b', Some(64)),
    (37, 1, Some(32)),
    (52, 31, Some(32)),
    (52, 33, Some(32)),
    (56, 8, None),
    (57, 8, Some(32)),
    (60, 1, Some(32)),
    (64, 1, Some(64)),
    (84, 1, Some(64)),
    (96, 1, Some(96)),
    (511, 1, Some(96)),
];

fn are_refused(shape: &Shape) -> bool {
    for (place, byte, at) in WRONG {
        if refused_at(shape, *place, *byte) != *at {
            return false;
        }
    }
    true
}

// The length of the value of a key, 0 if it was deleted.
fn len_of(shape: &Shape, page: &[u8], key: &[u8]) -> Option<u32> {
    let key = Key::new(key)?;
    if page.len() != shape.page_bytes() as usize {
        return None;
    }
    match decode(shape, page) {
        Ok(_) => match find(shape, page, &key) {
            Some(Entry::Put { len, .. }) => Some(len),
            Some(Entry::Gone { .. }) => Some(0),
            None => None,
        },
        Err(_) => None,
    }
}

// The lengths of the values of keys.
const LENGTHS: &[(&[u8], Option<u32>)] = &[
    (b"a", Some(3)),
    (b"ab", Some(0)),
    (b"A", None),
    (b"aa", None),
    (b"b", None),
];

fn have_lengths(shape: &Shape, page: &[u8]) -> bool {
    for (key, len) in LENGTHS {
        if len_of(shape, page, key) != *len {
            return false;
        }
    }
    true
}

// The page is decoded, its keys are found, and each field in turn is wrong.
#[test]
fn a_page(rt: HostRuntime) {
    let all = match Shape::new(512, 16, 64) {
        Ok(shape) => {
            is_read(&shape) && are_refused(&shape) && have_lengths(&shape, &written_out())
        }
        Err(_) => false,
    };
    assert!(rt; all);
}
