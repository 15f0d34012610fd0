//! The marks of a board, up to a room.
ghost use Rattle.std.specs.Prelude.{◌≡◌, ◌≤◌, ◌<◌, ◌+◌, ◌++◌, ◌∷◌, [], ◌↔◌, length, IsTrue, IfOk, vec_capacity};
ghost use Rattle.pk_nand.specs.Seen.{mark as seen_mark, marks as seen_marks};

use pk_nand::{Mark, PageBytes};
use std::alloc::{AllocError, Global};

/// The marks since a board was opened. Their number has a bound, and the memory for it is taken
/// before; each mark has its bytes from its own call.
#[derive(Drop)]
pub struct BoundedTrail {
    pub marks: Vec<Mark>,
    room: usize,
    ghost holds: { room ≤ vec_capacity marks },
}

/// A copy of bytes, for a mark.
pub fn mark_bytes(alloc: Global, bytes: &[u8]) -> Result<PageBytes, AllocError>
    ensures { IfOk result (λ own. own ≡ bytes.now) }
{
    match Vec::from_slice(alloc, bytes) {
        Ok(own) => Ok(PageBytes::of(own)),
        Err(error) => Err(error),
    }
}

impl BoundedTrail {
    /// No marks, and room for `room`.
    pub fn new(alloc: Global, room: usize) -> Result<BoundedTrail, AllocError>
        ensures { IfOk result (λ t. t.marks.items ≡ []) }
    {
        let marks = Vec::with_capacity(alloc, room)?;
        Ok(BoundedTrail { marks, room })
    }

    /// Whether no mark has room.
    pub fn is_full(&self) -> bool
        ensures { IsTrue result ↔ (self.now.room ≤ length self.now.marks.items) }
    {
        self.marks.len() >= self.room
    }

    /// How many marks there are.
    pub fn len(&self) -> usize
        ensures { result ≡ length self.now.marks.items }
    {
        self.marks.len()
    }

    /// Adds a mark.
    pub fn note(&mut self, mark: Mark)
        requires { length self.old.marks.items < self.old.room }
        ensures marks { seen_marks self.new.marks.items
            ≡ seen_marks self.old.marks.items ++ seen_mark mark ∷ [] }
        ensures count { length self.new.marks.items ≡ length self.old.marks.items + 1 }
    {
        self.marks.push_reserved(mark);
    }
}
