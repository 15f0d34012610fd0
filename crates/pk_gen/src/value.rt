//! The value of a Store.
ghost use Rattle.std.specs.Prelude.{◌≡◌, ◌+◌, ◌≤◌, ◌<◌, ◌^◌, ◌++◌, length};
ghost use Rattle.pk_nvme.specs.Bytes.{RoomyList};
ghost use Rattle.pk_gen.specs.Workload.{letters, value_text};
ghost use Rattle.pk_gen.specs.declared.numbers.TheConstants.{MOST_VALUE_BYTES};

use crate::numbers::{KEYS, LEAST_VALUE_BYTES, LETTERS, VALUE_LENGTHS};
use pk_nvme::Bytes;

/// Writes the value of a Store over what was there.
pub fn write_value(b: u32, c: u32, value: &mut Bytes)
    requires room { MOST_VALUE_BYTES ≤ value.old.room }
    requires drawn { c < 2 ^ 15 }
    ensures { value.new ≡ record value.old { items = value_text b c } }
{
    value.clear();
    value.extend(b"{\"id\":");
    value.push_number(b % KEYS);
    value.extend(b",\"pad\":\"");
    let count = LEAST_VALUE_BYTES as usize + c as usize % VALUE_LENGTHS as usize
        - (value.len() + 2);
    push_letters(c, count, value);
    value.extend(b"\"}");
}

// `count` letters, from that of the number on.
fn push_letters(c: u32, count: usize, value: &mut Bytes)
    requires room { length value.old.items + count ≤ value.old.room }
    requires drawn { c < 2 ^ 15 }
    requires few { count ≤ MOST_VALUE_BYTES }
    ensures { value.new
        ≡ record value.old { items = value.old.items ++ letters c count } }
{
    for j in 0..count {
        value.push(b'a' + ((c as usize + j) % LETTERS) as u8);
    }
}
