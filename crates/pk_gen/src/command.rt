//! The command of a turn.
ghost use Rattle.std.specs.Prelude.{◌≡◌, ◌<◌, ◌^◌, ◌++◌, codes};
ghost use Rattle.pk_nvme.specs.Text.{padded_number};
ghost use Rattle.pk_gen.specs.Workload.{request, drawn_request, tick as spec_tick};
ghost use Rattle.pk_gen.specs.declared.numbers.TheConstants.{KEY_DIGITS};

use crate::numbers::{
    KEYS, LEAST_VALUE_BYTES, LIST_BYTES, RETRIEVE_BYTES, TICK_STEPS, VALUE_LENGTHS,
};
use pk_base::KEY_BYTES;
use pk_nvme::Request;
use pk_nvme::limits::NAMESPACE;
use pk_nvme::opcode::{DELETE, EXIST, LIST, RETRIEVE, STORE, TICK};

/// The command by the numbers that its turn drew: of ten, five are Stores, two Retrieves, one a Delete, one an Exist, and one a Tick
/// or a List.
pub fn command(cid: u16, a: u32, b: u32, c: u32) -> Request
    requires { c < 2 ^ 15 }
    ensures { result ≡ drawn_request cid a b c }
{
    match a % 10 {
        0..=4 => keyed(STORE, cid, b, LEAST_VALUE_BYTES + c % VALUE_LENGTHS),
        5 | 6 => keyed(RETRIEVE, cid, b, RETRIEVE_BYTES),
        7 => keyed(DELETE, cid, b, 0),
        8 => keyed(EXIST, cid, b, 0),
        _ if b % 2 == 1 => tick(cid),
        _ => keyed(LIST, cid, b, LIST_BYTES),
    }
}

// A command that names the key of a number.
fn keyed(opcode: u8, cid: u16, number: u32, size: u32) -> Request
    ensures { result ≡ request opcode cid number size }
{
    Request {
        opcode,
        cid,
        namespace: NAMESPACE,
        key_len: KEY_BYTES as u8,
        key: key(u64::from(number % KEYS)),
        size,
        options: 0,
    }
}

// A Tick.
fn tick(cid: u16) -> Request
    ensures { result ≡ spec_tick cid }
{
    Request {
        opcode: TICK,
        cid,
        namespace: NAMESPACE,
        key_len: 0,
        key: [0; KEY_BYTES],
        size: TICK_STEPS,
        options: 0,
    }
}

// The text `key:` and the number in `KEY_DIGITS` decimal digits.
fn key(number: u64) -> [u8; KEY_BYTES]
    requires { number < KEYS }
    ensures { result ≡ codes "key:" ++ padded_number KEY_DIGITS number }
{
    let mut key = *b"key:000000000000";
    itoa::write_digits(number, &mut key, KEY_BYTES);
    key
}
