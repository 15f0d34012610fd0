//! Shapes, the pages of values, and the bytes of entries.

use pk_base::{BadEntry, Entry, Key, Shape, ShapeError};
use std::test::*;

// The numbers of a shape of 64 blocks of 16 pages of 512 bytes.
fn is_small(shape: &Shape) -> bool {
    (shape.entries(), shape.most_pages(), shape.greatest()) == (15, 4, 2016)
        && (shape.buffer(), shape.cap(4), shape.limit()) == (30, 76, 492)
        && (shape.meta_blocks(), shape.data_blocks()) == (16, 42)
}

// The numbers of a shape of 512 blocks of 64 pages of 4,096 bytes.
fn is_large(shape: &Shape) -> bool {
    (shape.entries(), shape.greatest()) == (127, 65504)
        && (shape.cap(4), shape.limit()) == (218, 23712)
        && (shape.meta_blocks(), shape.data_blocks()) == (11, 495)
}

fn has_small_numbers() -> bool {
    match Shape::new(512, 16, 64) {
        Ok(shape) => is_small(&shape),
        Err(_) => false,
    }
}

fn has_large_numbers() -> bool {
    match Shape::new(4096, 64, 512) {
        Ok(shape) => is_large(&shape),
        Err(_) => false,
    }
}

// Lengths of values, and the pages that each takes: whole pairs that hold it after its head.
const SMALL_CHARGES: &[(u32, u32)] = &[
    (0, 2),
    (100, 2),
    (480, 2),
    (481, 2),
    (992, 2),
    (993, 4),
    (2016, 4),
];

const LARGE_CHARGES: &[(u32, u32)] = &[
    (0, 2),
    (8160, 2),
    (8161, 4),
    (57312, 14),
    (57313, 16),
    (65504, 16),
];

fn are_charged(shape: &Shape, charges: &[(u32, u32)]) -> bool {
    for (len, pages) in charges {
        if *len > shape.greatest() || shape.charge(*len) != *pages {
            return false;
        }
    }
    true
}

fn has_charges() -> bool {
    match (Shape::new(512, 16, 64), Shape::new(4096, 64, 512)) {
        (Ok(small), Ok(large)) => {
            are_charged(&small, SMALL_CHARGES) && are_charged(&large, LARGE_CHARGES)
        }
        _ => false,
    }
}

fn is_refused(page_bytes: u32, block_pages: u32, blocks: u32, error: ShapeError) -> bool {
    match Shape::new(page_bytes, block_pages, blocks) {
        Ok(_) => false,
        Err(found) => found == error,
    }
}

// Shapes that are none.
fn refuses_shapes() -> bool {
    is_refused(500, 16, 64, ShapeError::BadPage)
        && is_refused(512, 32, 64, ShapeError::BadBlock)
        && is_refused(512, 16, 4096, ShapeError::TooLarge)
        && is_refused(512, 16, 16, ShapeError::TooSmall)
}

// An entry of 32 bytes.
const ENTRY: [u8; 32] = [
    1, 1, 0, 0, 0x61, 0, 0, 0, 0, 0, 0, 0, 0, 0, 0, 0, 0, 0, 0, 0, 64, 0, 0, 0, 3, 0, 0, 0, 0, 0,
    0, 0,
];

// The first wrong field of the entry with another byte at this place.
fn refused_at(shape: &Shape, place: usize, byte: u8) -> Option<u32> {
    let mut wrong = ENTRY;
    if place < 32 {
        wrong[place] = byte;
    }
    match Entry::read(shape, &wrong) {
        Ok(_) => None,
        Err(BadEntry { at }) => Some(at),
    }
}

// The first wrong field of an entry's bytes, each changed at one place; the first is no change.
const FIELDS: &[(usize, u8, Option<u32>)] = &[
    (0, 1, None),
    (0, 17, Some(0)),
    (1, 3, Some(1)),
    (2, 7, None),
    (2, 8, Some(2)),
    (3, 1, Some(3)),
    (19, 1, Some(4)),
    (22, 1, Some(20)),
    (20, 31, Some(20)),
    (20, 65, Some(20)),
    (20, 78, None),
    (20, 79, Some(20)),
    (26, 1, Some(24)),
    (31, 1, Some(28)),
];

fn are_found(shape: &Shape) -> bool {
    for (place, byte, at) in FIELDS {
        if refused_at(shape, *place, *byte) != *at {
            return false;
        }
    }
    true
}

// The entry in namespace 8 is read and written again.
fn has_namespace(shape: &Shape) -> bool {
    let mut bytes = ENTRY;
    bytes[2] = 7;
    match Entry::read(shape, &bytes) {
        Ok(entry) => {
            let mut into = [0xffu8; 32];
            entry.write(&mut into);
            let key = entry.key();
            into == bytes && key.space() == 8 && key.bytes() == b"a".as_slice()
        }
        Err(_) => false,
    }
}

fn finds_fields() -> bool {
    match Shape::new(512, 16, 64) {
        Ok(shape) => are_found(&shape) && has_namespace(&shape),
        Err(_) => false,
    }
}

// The namespace of this key; 0 if it is no key.
fn space_of(key: Option<Key>) -> u8 {
    match key {
        Some(key) => key.space(),
        None => 0,
    }
}

// Keys are in the order of their namespaces, and then of their bytes.
fn is_ordered() -> bool {
    match (Key::in_space(1, b"b"), Key::in_space(2, b"a")) {
        (Some(first), Some(second)) => first < second,
        _ => false,
    }
}

// Keys of eight namespaces.
fn has_spaces() -> bool {
    is_ordered()
        && (space_of(Key::new(b"a")), space_of(Key::in_space(8, b"a"))) == (1, 8)
        && Key::in_space(0, b"a").is_none()
        && Key::in_space(9, b"a").is_none()
        && Key::in_space(2, b"").is_none()
        && Key::in_space(2, b"abcdefghijklmnopq").is_none()
}

// The numbers of two shapes, shapes that are refused, the pages of values, wrong fields of entries, and namespaces.
#[test]
fn shapes_and_entries(rt: HostRuntime) {
    assert!(rt; has_small_numbers() && has_large_numbers() && refuses_shapes());
    assert!(rt; has_charges());
    assert!(rt; finds_fields());
    assert!(rt; has_spaces());
}
