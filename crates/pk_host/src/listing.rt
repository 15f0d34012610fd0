//! The keys that the data of a List spell.
ghost use Rattle.std.specs.Prelude.{◌≡◌, ◌≤◌, ◌+◌, ◌++◌, [], ◌∷◌, drop, length, min, IfSome};
ghost use Rattle.std.specs.Option.{option_copied};
ghost use Rattle.std.specs.Ordering.{is_lt};
ghost use Rattle.pk_base.specs.Key.{key_cmp};
ghost use Rattle.pk_nvme.specs.Command.{key_or_none};
ghost use Rattle.pk_host.specs.Calls.{IsOwnKey};
ghost use Rattle.pk_host.specs.Listing.{first_key, keys_of, above};

use crate::key_page::KeyPage;
use crate::sizes::MOST_KEYS;
use pk_base::{KEY_BYTES, Key, get_u16, get_u32, is_below};
use pk_model::listed_size;
use pk_nvme::limits::{COUNT_BYTES, NAMESPACE};

/// The key that is spelled at the head of these bytes.
fn head_key(bytes: &[u8]) -> Option<Key>
    ensures value { result ≡ first_key bytes.now }
    ensures own { IfSome result IsOwnKey }
{
    if bytes.len() < 2 {
        return None;
    }
    let len = get_u16(bytes, 0) as usize;
    if len < 1 || len > KEY_BYTES || 2 + len > bytes.len() {
        return None;
    }
    Some(Key::of(NAMESPACE as u8, &bytes[2..2 + len]))
}

/// The key that is spelled at this place.
fn key_at(bytes: &[u8], at: usize) -> Option<Key>
    ensures value { result ≡ first_key (drop at bytes.now) }
    ensures own { IfSome result IsOwnKey }
{
    if bytes.len() < at {
        return None;
    }
    head_key(&bytes[at..])
}

/// The key is above this one: each is if there is none.
fn is_above(key: &Key, from: Option<&Key>) -> bool
    ensures { result ≡ is_lt (key_cmp (key_or_none (option_copied from.entry)) key.now) }
{
    // so that it is known to be one
    let _ = key.bytes();
    match from {
        Some(from) => is_below(from, key),
        None => true,
    }
}

/// One more key, unless it is not above the one that the page begins after.
fn offer(page: &mut KeyPage, from: Option<&Key>, key: Key)
    requires own { IsOwnKey key }
    requires room { length page.old + 1 ≤ MOST_KEYS }
    ensures keys { page.new
        ≡ page.old ++ above (key_or_none (option_copied from.entry)) (key ∷ []) }
    ensures most { length page.new ≤ length page.old + 1 }
{
    if is_above(&key, from) {
        page.push(key);
    }
}

/// Fills the page with the keys above this one that are spelled, with all if there is none.
pub fn read_keys(bytes: &[u8], from: Option<&Key>, page: &mut KeyPage)
    ensures { page.new ≡ above (key_or_none (option_copied from.entry)) (keys_of bytes.now) }
{
    page.clear();
    if bytes.len() < COUNT_BYTES as usize {
        return;
    }
    let count = get_u32(bytes, 0).min(MOST_KEYS as u32);
    let mut at = COUNT_BYTES as usize;
    for _i in 0..count {
        match key_at(bytes, at) {
            None => return,
            Some(key) => {
                at += listed_size(key.bytes());
                offer(page, from, key);
            }
        }
    }
}
