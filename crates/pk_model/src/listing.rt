//! The data of a List, written key by key.
ghost use Rattle.std.specs.Prelude.{◌≡◌, ◌≤◌, ◌<◌, ◌^◌, ◌+◌, ◌-◌, ◌++◌, ◌∷◌, length, [], false, IfOk};
ghost use Rattle.pk_base.specs.declared.sizes.TheConstants.{KEY_BYTES};
ghost use Rattle.pk_model.specs.Answer.{item_bytes};
ghost use Rattle.pk_model.specs.Listing.{offered_bytes, offered_from};

use pk_base::{Key, is_below_bytes};
use pk_nvme::{Bytes, fill_behind};
use std::alloc::{AllocError, Global};
use std::marker::Model;

/// The keys so far and the room that remains, in bytes.
#[derive(Drop)]
pub struct Page {
    bytes: Bytes,
    count: u32,
    left: usize,
    full: bool,
}

impl Model for Page {
    ghost use Rattle.std.specs.Prelude.{◌≡◌, ◌≤◌, ◌<◌, ◌^◌, ◌+◌, length};
    ghost use Rattle.pk_model.specs.Listing.{Listing};

    ghost Value = { Listing };

    ghost view = { λ p. record {
      bytes = p.bytes.items;
      count = p.count;
      left = p.left;
      full = p.full;
    } };

    ghost invariant = { λ p. (length p.bytes.items + p.left ≤ p.bytes.room)
        × (p.count + p.left < 2 ^ 31) };
}

impl Page {
    /// No keys, and room for this many bytes; an error if the memory for them is missing.
    pub fn with_room(alloc: Global, room: usize) -> Result<Page, AllocError>
        requires { room < 2 ^ 31 }
        ensures { IfOk result
            (λ p. p ≡ record { bytes = []; count = 0; left = room; full = false }) }
    {
        Ok(Page {
            bytes: Bytes::with_room(alloc, room)?,
            count: 0,
            left: room,
            full: false,
        })
    }

    /// How many keys there are.
    pub fn count(&self) -> u32
        ensures { result ≡ self.now.count }
    {
        self.count
    }

    /// The bytes of the keys.
    pub fn bytes(&self) -> &[u8]
        ensures { result.now ≡ self.now.bytes }
    {
        self.bytes.bytes()
    }

    /// One more key of these bytes, if it fits and all before it did.
    fn offer(&mut self, key: &[u8])
        requires { length key.now ≤ KEY_BYTES }
        ensures { self.new ≡ offered_bytes self.old key.now }
    {
        if self.full {
            return;
        }
        let size = listed_size(key);
        if size > self.left {
            self.full = true;
            return;
        }
        put_listed(&mut self.bytes, key);
        self.count += 1;
        self.left -= size;
    }

    /// One more key, unless it is below the first that is wanted: these bytes, which may be none, in this namespace.
    pub fn offer_from(&mut self, space: u8, from: &[u8], key: &Key)
        ensures { self.new ≡ offered_from (space ∷ from.now) self.old key.now }
    {
        if !is_below_bytes(key, space, from) {
            self.offer(key.bytes());
        }
    }
}

/// The bytes of a listed key: its length, itself and zeros up to a multiple of four.
#[inline(always)]
pub fn listed_size(key: &[u8]) -> usize
    requires { length key.now ≤ KEY_BYTES }
    ensures size { result ≡ length (item_bytes key.now) }
    ensures most { result ≤ 21 }
{
    2 + key.len() + fill_behind(key.len())
}

fn put_listed(bytes: &mut Bytes, key: &[u8])
    requires key { length key.now ≤ KEY_BYTES }
    requires room { length bytes.old.items + length (item_bytes key.now) ≤ bytes.old.room }
    ensures { bytes.new ≡ record bytes.old { items = bytes.old.items ++ item_bytes key.now } }
{
    let zeros = [0u8; 3];
    bytes.extend(&(key.len() as u16).to_le_bytes());
    bytes.extend(key);
    bytes.extend(&zeros[..fill_behind(key.len())]);
}
