//! Headers of images, states of pages, and places.

use pk_base::Shape;
use pk_image::{ImageError, PageTag, header, page_at, read_header, state, state_at};
use std::test::*;

// The header of shape (512, 16, 64) by its bytes.
fn written_out() -> [u8; 32] {
    let mut bytes = [0u8; 32];
    bytes[..8].copy_from_slice(b"PINKIMG1");
    bytes[9] = 2;
    bytes[12] = 16;
    bytes[16] = 64;
    bytes
}

// The length of the file.
const SIZE: u64 = 32 + 1024 * 513;

// Where a header with another byte at this place is refused, in a file of this length.
fn refused_at(place: usize, byte: u8, len: u64) -> Option<u64> {
    let mut other = written_out();
    if place < 32 {
        other[place] = byte;
    }
    match read_header(&other, len) {
        Err(ImageError::Bad { at }) => Some(at),
        _ => None,
    }
}

// Headers that differ from it in one byte, files of other lengths, and where each is refused.
const WRONG: &[(usize, u8, u64, u64)] = &[
    (0, b'p', SIZE, 0),
    (7, b'2', SIZE, 0),
    (8, 1, SIZE, 8),
    (12, 32, SIZE, 8),
    (16, 16, SIZE, 8),
    (17, 1, SIZE, 32),
    (19, 1, SIZE, 8),
    (20, 1, SIZE, 20),
    (31, 1, SIZE, 20),
    (0, b'P', 0, 0),
    (0, b'P', 31, 31),
    (0, b'P', 32, 32),
    (0, b'P', SIZE - 1, 32),
    (0, b'P', SIZE + 1, 32),
];

fn are_refused() -> bool {
    for (place, byte, len, at) in WRONG {
        if refused_at(*place, *byte, *len) != Some(*at) {
            return false;
        }
    }
    true
}

fn is_written() -> bool {
    match Shape::new(512, 16, 64) {
        Ok(shape) => header(&shape) == written_out(),
        Err(_) => false,
    }
}

// The places of the states and of the bytes of pages.
fn are_places(shape: &Shape) -> bool {
    if shape.page_count() != 1024 {
        return false;
    }
    state_at(shape, 1023) == 1055
        && page_at(shape, 0) == 1056
        && page_at(shape, 1023) == 32 + 1024 + 1023 * 512
}

// The byte at this place has this state.
fn is_state(byte: u8, place: u64, tag: PageTag) -> bool {
    match state(byte, place) {
        Ok(found) => found == tag,
        Err(_) => false,
    }
}

// A byte is no state, which is found at this place.
fn is_no_state(byte: u8, place: u64) -> bool {
    match state(byte, place) {
        Err(ImageError::Bad { at }) => at == place,
        _ => false,
    }
}

fn has_places() -> bool {
    match Shape::new(512, 16, 64) {
        Ok(shape) => are_places(&shape),
        Err(_) => false,
    }
}

fn are_states() -> bool {
    is_state(0, 32, PageTag::Erased)
        && is_state(1, 33, PageTag::Whole)
        && is_state(2, 34, PageTag::Torn)
        && is_no_state(3, 35)
        && is_no_state(255, 36)
}

// The header is written and read, the states of bytes, and the places of pages.
#[test]
fn images(rt: HostRuntime) {
    assert!(rt; is_written() && read_header(&written_out(), SIZE).is_ok() && are_refused());
    assert!(rt; are_states() && has_places());
}
