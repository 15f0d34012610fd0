//! Commands, records and texts by their bytes.
ghost use Rattle.std.specs.Prelude.{◌+◌, ◌*◌, ◌≤◌, length};

use pk_nvme::{Bytes, Request, completion, laws, record_head};
use std::alloc::Global;
use std::test::*;

const STORE: [u8; 12] = [1, 0, 1, 0, 1, 0, 0, 0, 0x61, 0, 0, 0];

// These are the fields of a Store of three bytes under the key 61.
fn is_store(request: &Request) -> bool {
    (request.opcode, request.cid, request.namespace) == (1, 1, 1)
        && (request.key_len, request.key[0], request.key[15]) == (1, 0x61, 0)
        && (request.size, request.options, request.value_bytes()) == (3, 0, 3)
}

// A Store of three bytes under the key 61, as bytes.
fn reads_store() -> bool {
    let mut entry = [0; 64];
    entry[0..12].copy_from_slice(&STORE);
    entry[40] = 3;
    entry[44] = 1;
    let request = Request::of(&entry);
    is_store(&request) && request.entry() == entry
}

// The bytes of an entry of a Retrieve whose key is in the dwords 2, 3, 14 and 15.
fn is_split(entry: &[u8; 64]) -> bool {
    &entry[0..8] == [2, 0, 1, 2, 7, 8, 9, 10].as_slice()
        && &entry[8..16] == b"hello, w".as_slice()
        && &entry[56..64] == b"orld!\0\0\0".as_slice()
        && &entry[40..48] == [0x10, 0x20, 0x30, 0x40, 13, 0, 0, 0].as_slice()
}

// Bytes 0 to 15 of a key are in the dwords 2, 3, 14 and 15; a Retrieve brings no value.
fn splits_key() -> bool {
    let request = Request {
        opcode: 2,
        cid: 0x0201,
        namespace: 0x0a090807,
        key_len: 13,
        key: *b"hello, world!\0\0\0",
        size: 0x40302010,
        options: 0,
    };
    let entry = request.entry();
    is_split(&entry) && request.value_bytes() == 0 && laws::read_back(&request).entry() == entry
}

// The record of a Store.
const STORED: [u8; 24] = [
    0, 0, 0, 0, 0, 0, 0, 0, 1, 0, 1, 0, 1, 0, 1, 0, 0, 0, 0, 0, 0, 0, 0, 0,
];
// The record of a Retrieve of three bytes that read one page.
const READ: [u8; 24] = [
    3, 0, 0, 0, 0, 0, 0, 0, 2, 0, 1, 0, 2, 0, 1, 0, 1, 0, 0, 0, 3, 0, 0, 0,
];

// The records of a Store, and of a Retrieve of three bytes that read one page.
fn are_records() -> bool {
    record_head(&completion(1, 1, 0, 0), 0, 0) == STORED
        && record_head(&completion(2, 2, 0, 3), 1, 3) == READ
}

fn is_refused() -> bool {
    let refused = completion(0x0403, 65_537, 0x87, 0);
    &refused[8..16] == [1, 0, 1, 0, 3, 4, 0x0f, 1].as_slice()
}

// A number, a blank and the digits of some bytes.
fn spell(text: &mut Bytes, number: u32, bytes: &[u8])
    requires { length text.old.items + 11 + 2 * length bytes.now ≤ text.old.room }
{
    text.push_number(number);
    text.push(b' ');
    text.push_hex(bytes);
}

// Texts that are written, cut and emptied.
fn is_written(text: &mut Bytes) -> bool {
    if text.room() != 32 || !text.is_empty() {
        return false;
    }
    text.extend(b"n=");
    spell(text, 4_294_967_295, &[0x00, 0x7f, 0xab, 0xff]);
    text.bytes() == b"n=4294967295 007fabff".as_slice()
        && (text.len(), text.left(), text.room()) == (21, 11, 32)
}

// What is there is cut to this text, and then emptied.
fn is_cut(text: &mut Bytes, cut: &[u8]) -> bool {
    text.truncate(3);
    let is_front = text.bytes() == cut;
    text.clear();
    is_front && (text.len(), text.left()) == (0, 32)
}

fn text_of_32(alloc: Global) -> bool {
    match Bytes::with_room(alloc, 32) {
        Ok(mut text) => is_written(&mut text) && is_cut(&mut text, b"n=4"),
        Err(_) => false,
    }
}

fn text_of_zero(alloc: Global) -> bool {
    match Bytes::with_room(alloc, 16) {
        Ok(mut zero) => {
            spell(&mut zero, 0, &[]);
            zero.bytes() == b"0 ".as_slice()
        }
        Err(_) => false,
    }
}

fn has_left(alloc: Global, room: usize) -> bool {
    match Bytes::with_room(alloc, room) {
        Ok(text) => text.left() == room,
        Err(_) => false,
    }
}

#[test]
fn entries_and_bytes(rt: HostRuntime) {
    let alloc = rt.alloc();
    assert!(rt; reads_store() && splits_key());
    assert!(rt; are_records() && is_refused());
    assert!(rt; text_of_32(alloc) && text_of_zero(alloc) && has_left(alloc, 1_100_000));
}
