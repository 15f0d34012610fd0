//! The bytes of a List: keys one after another, each with its length.
ghost use Rattle.std.specs.Prelude.{◌≡◌, ◌+◌, ◌≤◌, ◌++◌, ◌∷◌, [], length, replicate, take};
ghost use Rattle.pk_base.specs.declared.sizes.TheConstants.{KEY_BYTES};
ghost use Rattle.pk_model.specs.Answer.{item_bytes};
ghost use Rattle.pk_core.specs.Listed.{OffersBytes, OffersFirst, OffersKey, IsFilled, own_keys};

use crate::filled::Filled;
use pk_base::{KEY_BYTES, Key, put_text, put_u16, put_zeros};
use pk_model::listed_size;
use pk_nvme::fill_behind;

// Writes a length of two bytes, the key, and zeros up to a multiple of four bytes.
#[inline(always)]
fn put_listed(into: &mut [u8], at: usize, key: &[u8])
    requires key { length key.now ≤ KEY_BYTES }
    requires room { at + length (item_bytes key.now) ≤ length into.old }
    ensures front { take (at + length (item_bytes key.now)) into.new
        ≡ take at into.old ++ item_bytes key.now }
    ensures len { length into.new ≡ length into.old }
{
    let len = key.len();
    put_u16(into, at, len as u16);
    put_bytes(into, at + 2, key);
    put_padding(into, at + 2 + len, fill_behind(len));
}

// Writes the bytes of a key; those of a whole one by a copy of a fixed size, which is faster.
#[inline]
fn put_bytes(into: &mut [u8], at: usize, key: &[u8])
    requires { at + length key.now ≤ length into.old }
    ensures front { take (at + length key.now) into.new ≡ take at into.old ++ key.now }
    ensures len { length into.new ≡ length into.old }
{
    if key.len() == KEY_BYTES {
        put_text(into, at, &key[..KEY_BYTES]);
    } else {
        put_text(into, at, key);
    }
}

// Writes `count` zeros; two of them, as after a key of 16 bytes, at once.
fn put_padding(into: &mut [u8], at: usize, count: usize)
    requires { at + count ≤ length into.old }
    ensures front { take (at + count) into.new ≡ take at into.old ++ replicate count 0 }
    ensures len { length into.new ≡ length into.old }
{
    if count == 2 {
        put_u16(into, at, 0);
    } else {
        put_zeros(into, at, at + count);
    }
}

/// Writes one more key, if it is of this namespace and fits into the room.
pub(crate) fn put_own(into: &mut [u8], space: u8, at: Filled, key: &Key) -> Option<Filled>
    requires filled { IsFilled at (length into.old) }
    ensures offers { OffersFirst into.old at at.room (own_keys space (key.now ∷ [])) result
        into.new [] }
    ensures len { length into.new ≡ length into.old }
{
    if key.space() == space {
        put_key(into, at, key)
    } else {
        None
    }
}

// Writes one more key, if it fits into the room; a whole one by itself, whose sizes are all numbers
// then, which is faster.
fn put_key(into: &mut [u8], at: Filled, key: &Key) -> Option<Filled>
    requires filled { IsFilled at (length into.old) }
    ensures offers { OffersKey into.old at at.room key.now result into.new }
    ensures len { length into.new ≡ length into.old }
{
    let bytes = key.bytes();
    if bytes.len() == KEY_BYTES {
        put_one(into, at, &bytes[..KEY_BYTES])
    } else {
        put_one(into, at, bytes)
    }
}

// Writes the bytes of one more key, if they fit into the room.
#[inline(always)]
fn put_one(into: &mut [u8], at: Filled, key: &[u8]) -> Option<Filled>
    requires key { length key.now ≤ KEY_BYTES }
    requires filled { IsFilled at (length into.old) }
    ensures offers { OffersBytes into.old at at.room key.now result into.new }
    ensures len { length into.new ≡ length into.old }
{
    let size = listed_size(key);
    if size > (at.room - at.end) as usize {
        return None;
    }
    put_listed(into, at.end as usize, key);
    Some(Filled {
        end: at.end + size as u32,
        count: at.count + 1,
        room: at.room,
    })
}
