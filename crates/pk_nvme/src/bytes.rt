//! Lists of bytes in memory that is taken once.
ghost use Rattle.std.specs.Prelude.{◌≡◌, ◌+◌, ◌<◌, ◌≤◌, List, [], ◌∷◌, ◌++◌, length, take, IfOk, IsTrue, ◌↔◌};
ghost use Rattle.pk_nvme.specs.Bytes.{RoomyList};

use std::alloc::{AllocError, Global};
use std::marker::Model;

/// A list of bytes and its room, in bytes: the room stays as it was made, and only `with_room` takes memory.
#[derive(Drop)]
pub struct Bytes {
    items: Vec<u8>,
    room: usize,
}

impl Model for Bytes {
    ghost use Rattle.std.specs.Prelude.{◌≤◌, length, vec_capacity};
    ghost use Rattle.pk_nvme.specs.Bytes.{RoomyList};

    ghost Value = { RoomyList };

    ghost view = { λ b. record { items = b.items.items; room = b.room } };

    ghost invariant = { λ b. (length b.items.items ≤ b.room) × (b.room ≤ vec_capacity b.items) };
}

impl Bytes {
    /// No bytes, and room for this many; an error if the memory for them is missing.
    pub fn with_room(alloc: Global, room: usize) -> Result<Bytes, AllocError>
        ensures { IfOk result (λ b. b ≡ record { items = []; room = room }) }
    {
        let items = Vec::with_capacity(alloc, room)?;
        Ok(Bytes { items, room })
    }

    /// The bytes.
    pub fn bytes(&self) -> &[u8]
        ensures { result.now ≡ self.now.items }
    {
        self.items.as_slice()
    }

    /// How many bytes there are.
    pub fn len(&self) -> usize
        ensures { result ≡ length self.now.items }
    {
        self.items.len()
    }

    /// Whether there is no byte.
    pub fn is_empty(&self) -> bool
        ensures { IsTrue result ↔ (self.now.items ≡ []) }
    {
        self.items.is_empty()
    }

    /// How many bytes there is room for, those that are there included.
    pub fn room(&self) -> usize
        ensures { result ≡ self.now.room }
    {
        self.room
    }

    /// How many bytes more there is room for.
    pub fn left(&self) -> usize
        ensures { length self.now.items + result ≡ self.now.room }
    {
        self.room - self.items.len()
    }

    /// One more byte, for which there is room.
    pub fn push(&mut self, byte: u8)
        requires { length self.old.items < self.old.room }
        ensures { self.new ≡ record self.old { items = self.old.items ++ byte ∷ [] } }
    {
        self.items.push_reserved(byte);
    }

    /// More bytes, for which there is room.
    pub fn extend(&mut self, bytes: &[u8])
        requires { length self.old.items + length bytes.now ≤ self.old.room }
        ensures { self.new ≡ record self.old { items = self.old.items ++ bytes.now } }
    {
        match self.items.extend_from_slice(bytes) {
            Ok(()) => {}
            Err(_) => unreachable!(),
        }
    }

    /// No bytes.
    pub fn clear(&mut self)
        ensures { self.new ≡ record self.old { items = [] } }
    {
        self.items.clear();
    }

    /// The first `len` bytes alone; all if there are no more.
    pub fn truncate(&mut self, len: usize)
        ensures { self.new ≡ record self.old { items = take len self.old.items } }
    {
        self.items.truncate(len);
    }
}
