//! Journal pages by their bytes.

use pk_base::Shape;
use pk_jrnfmt::{JrnHead, decode};
use std::test::*;

// A page of epoch 258 and of the commit with index 9, with two entries, the later of which deletes the key of the first, byte by byte.
fn written_out() -> [u8; 512] {
    let mut page = [0u8; 512];
    page[..32].copy_from_slice(b"PINKJRNL\x02\x01\0\0\0\0\0\0\x09\0\0\0\x02\0\0\0\0\0\0\0\0\0\0\0");
    page[32..64].copy_from_slice(
        b"\x01\x01\0\0a\0\0\0\0\0\0\0\0\0\0\0\0\0\0\0\x20\0\0\0\x03\0\0\0\0\0\0\0",
    );
    page[64..96].copy_from_slice(
        b"\x01\x02\0\0a\0\0\0\0\0\0\0\0\0\0\0\0\0\0\0\0\0\0\0\0\0\0\0\0\0\0\0",
    );
    page
}

// The place that a page is refused at which has another byte at this place.
fn refused_at(shape: &Shape, place: usize, byte: u8) -> Option<u32> {
    let mut page = written_out();
    if place < 512 {
        page[place] = byte;
    }
    if shape.page_bytes() != 512 {
        return None;
    }
    match decode(shape, &page) {
        Ok(_) => None,
        Err(bad) => Some(bad.at),
    }
}

// What precedes the entries of the page is read.
fn is_read(shape: &Shape) -> bool {
    if shape.page_bytes() != 512 {
        return false;
    }
    let wanted = JrnHead {
        epoch: 258,
        index: 9,
        count: 2,
    };
    match decode(shape, &written_out()) {
        Ok(head) => head == wanted,
        Err(_) => false,
    }
}

// Pages with another byte at a place, and the first wrong field of each.
const WRONG: &[(usize, u8, Option<u32>)] = &[
    (0, b'p', Some(0)),
    (7, b'l', Some(0)),
    (15, 255, None),
    (16, 15, None),
    (16, 16, Some(16)),
    (19, 1, Some(16)),
    (20, 0, Some(20)),
    (20, 16, Some(20)),
    (20, 1, Some(64)),
    (20, 3, Some(96)),
    (22, 1, Some(22)),
    (31, 1, Some(22)),
    (32, 0, Some(32)),
    (32, 17, Some(32)),
    (33, 3, Some(32)),
    (34, 7, None),
    (34, 8, Some(32)),
    (35, 1, Some(32)),
    (37, 1, Some(32)),
    (52, 31, Some(32)),
    (52, 33, Some(32)),
    (52, 46, None),
    (52, 47, Some(32)),
    (53, 4, Some(32)),
    (57, 8, Some(32)),
    (60, 1, Some(32)),
    (84, 1, Some(64)),
    (88, 1, Some(64)),
    (96, 1, Some(96)),
    (511, 1, Some(96)),
];

fn are_refused(shape: &Shape) -> bool {
    for (place, byte, at) in WRONG {
        if refused_at(shape, *place, *byte) != *at {
            return false;
        }
    }
    true
}

// The page is decoded, and each field in turn is wrong.
#[test]
fn a_page(rt: HostRuntime) {
    let all = match Shape::new(512, 16, 64) {
        Ok(shape) => is_read(&shape) && are_refused(&shape),
        Err(_) => false,
    };
    assert!(rt; all);
}
