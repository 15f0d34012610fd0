//! The hash of a key, from its bytes and from those of an entry.
ghost use Rattle.std.specs.Prelude.{◌≡◌, ◌≤◌, length};
ghost use Rattle.pk_base.specs.declared.sizes.TheConstants.{ENTRY_BYTES};
ghost use Rattle.pk_homes.specs.Hash.{folded, hash_of, hash_of_cell, mixed};

use crate::table::HALF;
use pk_base::{KEY_BYTES, Key, get_u64, put_padded};

const FIRST_FACTOR: u64 = 11_400_714_819_323_198_485;

const LAST_FACTOR: u64 = 14_029_467_366_897_019_727;

const SPACE_FACTOR: u64 = 1_609_587_929_392_839_161;

/// A sum that is multiplied once more, with its high half added first: keys that are counted in
/// decimal digits would share their homes otherwise, half of them where a tenth need to.
#[inline(always)]
#[tactic(auto, unfolding(crate::specs::Hash::folded))]
fn fold(sum: u64) -> u64
    ensures { result ≡ folded sum }
{
    (sum / HALF).wrapping_add(sum).wrapping_mul(FIRST_FACTOR)
}

/// The hash of the number of a namespace and of two others.
#[inline(always)]
#[tactic(auto, unfolding(crate::specs::Hash::mixed))]
fn mix(space: u64, first: u64, last: u64) -> u64
    ensures { result ≡ mixed space first last }
{
    let of_first = first.wrapping_mul(FIRST_FACTOR);
    let of_last = last.wrapping_mul(LAST_FACTOR);
    let of_space = space.wrapping_mul(SPACE_FACTOR);
    fold(of_first.wrapping_add(of_last).wrapping_add(of_space))
}

/// The hash of a key.
#[inline(always)]
pub fn hash(key: &Key) -> u64
    ensures { result ≡ hash_of key.now }
{
    let bytes = key.bytes();
    if bytes.len() == KEY_BYTES {
        return mix(key.space() as u64, get_u64(bytes, 0), get_u64(bytes, 8));
    }
    hash_padded(key)
}

// The same, of a key of fewer bytes: a call, so that whole keys are hashed in the code of the callers.
#[inline(never)]
fn hash_padded(key: &Key) -> u64
    ensures { result ≡ hash_of key.now }
{
    let mut own = [0u8; KEY_BYTES];
    put_padded(&mut own, 0, KEY_BYTES, key.bytes());
    mix(key.space() as u64, get_u64(&own, 0), get_u64(&own, 8))
}

/// The hash of the key in the bytes of an entry; of other bytes any number.
#[inline(always)]
pub fn hash_cell(cell: &[u8]) -> u64
    requires { length cell.now ≡ ENTRY_BYTES }
    ensures { result ≡ hash_of_cell cell.now }
{
    mix(cell[2] as u64 + 1, get_u64(cell, 4), get_u64(cell, 12))
}
