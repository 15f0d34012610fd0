//! The first commands of a workload.

use pk_gen::Workload;
use pk_nvme::{Bytes, Request};
use std::test::*;

// The text of the Store of 843 bytes: the draw 31,051 begins with the letter 7, and 823 letters end
// with the letter 23.
fn is_text(value: &[u8]) -> bool {
    value.len() == 843
        && &value[..22] == b"{\"id\":2515,\"pad\":\"hijk".as_slice()
        && &value[839..] == b"wx\"}".as_slice()
}

// The command has these fields, namespace 1, a key of 16 bytes and no options.
fn is_command(request: &Request, opcode: u8, cid: u16, key: &[u8; 16], size: u32) -> bool {
    (request.opcode, request.cid, request.size) == (opcode, cid, size)
        && (request.namespace, request.key_len, request.options) == (1, 16, 0)
        && request.key == *key
}

// The fields of a command: its opcode, CID, key and size, and how many bytes follow it.
type Row = (u8, u16, &'static [u8; 16], u32, usize);

// The workload's next command has these fields, and this many bytes.
fn follows(
    workload: &mut Workload,
    value: &mut Bytes,
    (opcode, cid, key, size, len): &Row,
) -> bool {
    if value.room() < 4000 {
        return false;
    }
    let request = Request::of(&workload.next(value));
    is_command(&request, *opcode, *cid, key, *size)
        && value.len() == *len
        && (*opcode != 0x01 || is_text(value.bytes()))
}

// An Exist, a Store of 843 bytes and a Delete.
const FIRST: &[Row] = &[
    (0x14, 1, b"key:000000000758", 0, 0),
    (0x01, 2, b"key:000000002515", 843, 843),
    (0x10, 3, b"key:000000003010", 0, 0),
];

// The commands of the start 1 begin so.
fn begins(value: &mut Bytes) -> bool {
    let mut workload = Workload::new(1);
    for row in FIRST {
        if !follows(&mut workload, value, row) {
            return false;
        }
    }
    true
}

// The first three commands of the start 1.
#[test]
fn first_commands(rt: HostRuntime) {
    let all = match Bytes::with_room(rt.alloc(), 4000) {
        Ok(mut value) => begins(&mut value),
        Err(_) => false,
    };
    assert!(rt; all);
}
