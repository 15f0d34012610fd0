//! The queue of held records.
ghost use Rattle.std.specs.Prelude.{◌≡◌, ◌<◌, ◌++◌, [], ◌∷◌, length, true, nat_lt, IfOk};
ghost use Rattle.pk_base.specs.Shape.{page_entries};
ghost use Rattle.pk_queue.specs.Queue.{Queue as spec};

use pk_base::Shape;
use pk_nvme::RECORD_HEAD_BYTES;
use std::alloc::{AllocError, Global};
use std::marker::Model;

/// Heads of records in order. Contracts see them as a list, with the number that has room.
#[derive(Drop)]
pub struct Queue {
    heads: Vec<[u8; RECORD_HEAD_BYTES]>,
    room: usize,
}

impl Model for Queue {
    ghost use Rattle.std.specs.Prelude.{◌≤◌, length, vec_capacity};
    ghost use Rattle.pk_queue.specs.Queue.{Queue as spec};

    ghost Value = { spec };

    ghost view = { λ q. record { heads = q.heads.items; room = q.room } };

    ghost invariant = { λ q. (length q.heads.items ≤ q.room) × (q.room ≤ vec_capacity q.heads) };
}

impl Queue {
    /// No record, and room for as many as a journal page has entries.
    pub fn new(alloc: Global, shape: Shape) -> Result<Queue, AllocError>
        ensures { IfOk result (λ q. q ≡ record { heads = []; room = page_entries shape }) }
    {
        let room = shape.entries() as usize;
        let heads = Vec::with_capacity(alloc, room)?;
        Ok(Queue { heads, room })
    }

    /// Holds another record.
    pub fn hold(&mut self, head: [u8; RECORD_HEAD_BYTES])
        requires { length self.old.heads < self.old.room }
        ensures { self.new ≡ record self.old { heads = self.old.heads ++ head ∷ [] } }
    {
        self.heads.push_reserved(head);
    }

    /// The heads that are held.
    pub fn held(&self) -> &[[u8; RECORD_HEAD_BYTES]]
        ensures { result.now ≡ self.now.heads }
    {
        &self.heads
    }

    /// Another record has room.
    pub fn has_room(&self) -> bool
        ensures { result ≡ nat_lt (length self.now.heads) self.now.room }
    {
        self.heads.len() < self.room
    }

    /// Holds none.
    pub fn clear(&mut self)
        ensures { self.new ≡ record self.old { heads = [] } }
    {
        self.heads.clear();
    }
}
