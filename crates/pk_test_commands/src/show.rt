//! Records as lines of text.

use pk_nvme::{Bytes, completion, record_head};
use pk_show::{show_head, show_piece};
use std::alloc::Global;
use std::test::*;

// The record and its data are shown as this line.
fn shows(alloc: Global, head: &[u8; 24], bytes: &[u8], line: &[u8]) -> bool {
    match Bytes::with_room(alloc, 64) {
        Ok(mut text) => {
            show_head(head, &mut text) && show_piece(bytes, &mut text) && text.bytes() == line
        }
        Err(_) => false,
    }
}

fn shows_store(alloc: Global) -> bool {
    let head = record_head(&completion(1, 1, 0, 0), 0, 0);
    shows(
        alloc,
        &head,
        b"",
        b"cid=1 status=00 result=0 reads=0 data=-",
    )
}

fn shows_retrieve(alloc: Global) -> bool {
    let head = record_head(&completion(2, 2, 0, 3), 1, 3);
    let line = b"cid=2 status=00 result=3 reads=1 data=616263".as_slice();
    shows(alloc, &head, b"abc", line)
}

fn shows_largest(alloc: Global) -> bool {
    let done = completion(65_535, 7, 0x87, 4_294_967_295);
    let head = record_head(&done, 4_294_967_295, 1);
    let line = b"cid=65535 status=87 result=4294967295 reads=4294967295 data=fe".as_slice();
    shows(alloc, &head, b"\xfe", line)
}

// Whether the record's head is shown in this much room, whether a byte fits after it, and how many
// bytes are there then.
fn shown_in(alloc: Global, room: usize) -> Option<(bool, bool, usize)> {
    let head = record_head(&completion(1, 1, 0, 0), 0, 0);
    let mut text = Bytes::with_room(alloc, room).ok()?;
    let is_shown = show_head(&head, &mut text);
    let is_behind = is_shown && show_piece(b"a", &mut text);
    Some((is_shown, is_behind, text.len()))
}

// The lines of a Store, of a Retrieve of three bytes that read one page, and of the largest numbers; a text that does not fit is not
// written at all.
#[test]
fn lines(rt: HostRuntime) {
    let alloc = rt.alloc();
    assert!(rt; shows_store(alloc) && shows_retrieve(alloc) && shows_largest(alloc));
    assert!(rt; shown_in(alloc, 39) == Some((true, false, 39)));
    assert!(rt; shown_in(alloc, 38) == Some((false, false, 0)));
}
