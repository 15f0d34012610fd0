//! The marks of a board in memory, with the buffers for those to come.
ghost use Rattle.std.specs.Prelude.{◌≡◌, ◌<◌, ◌≤◌, ◌+◌, ◌++◌, ◌∷◌, [], ◌↔◌, length, IsTrue, IfOk, OnOk, OnErr, vec_capacity};
ghost use Rattle.pk_base.specs.Mark.{program, post};
ghost use Rattle.pk_nand.specs.Seen.{mark as seen_mark, marks as seen_marks};
ghost use Rattle.pk_flash.specs.Spare.{AreSpare};

use crate::pages::copy_of;
use crate::spare::{copy_into_spare, spare_buffers};
use pk_nand::{Mark, PageBytes};
use std::alloc::{AllocError, Global};

/// The marks since the board was passed in. Each mark to come has two spare buffers, for its bytes
/// and for those of its page.
pub struct Trail {
    pub marks: Vec<Mark>,
    pub room: usize,
    pub page_bytes: u32,
    spare: Vec<Vec<u8>>,
    ghost within: { length marks.items ≤ room },
    ghost holds: { room ≤ vec_capacity marks },
    ghost left: { room + room ≤ length marks.items + length marks.items + length spare.items },
    ghost spare_room: { AreSpare page_bytes spare.items },
}

// Written out, so that whoever drops one meets a call, and not the drops of all its parts.
impl Drop for Trail {
    fn drop(self) {
        let Trail {
            marks: _,
            room: _,
            page_bytes: _,
            spare: _,
        } = self;
    }
}

impl Trail {
    /// No marks, and room for `room`, each with a page of bytes.
    pub fn new(alloc: Global, room: usize, page_bytes: u32) -> Result<Trail, AllocError>
        ensures marks { IfOk result (λ t. t.marks.items ≡ []) }
        ensures room { IfOk result (λ t. t.room ≡ room) }
        ensures page { IfOk result (λ t. t.page_bytes ≡ page_bytes) }
    {
        let marks = Vec::with_capacity(alloc, room)?;
        let spare = spare_buffers(alloc, room, page_bytes as usize)?;
        Ok(Trail {
            marks,
            room,
            page_bytes,
            spare,
        })
    }

    /// Takes buffers for pages of another size.
    pub fn refit(&mut self, alloc: Global, page_bytes: u32) -> Result<(), AllocError>
        ensures ok { OnOk result (self.new.page_bytes ≡ page_bytes) }
        ensures err { OnErr result (self.new ≡ self.old) }
        ensures marks { self.new.marks.items ≡ self.old.marks.items }
        ensures room { self.new.room ≡ self.old.room }
    {
        self.spare = spare_buffers(alloc, self.room, page_bytes as usize)?;
        self.page_bytes = page_bytes;
        Ok(())
    }

    /// Whether no mark has room.
    pub fn is_full(&self) -> bool
        ensures { IsTrue result ↔ (self.now.room ≤ length self.now.marks.items) }
    {
        self.marks.len() >= self.room
    }

    /// Adds a mark.
    pub fn note(&mut self, mark: Mark)
        requires { length self.old.marks.items < self.old.room }
        ensures marks { seen_marks self.new.marks.items
            ≡ seen_marks self.old.marks.items ++ seen_mark mark ∷ [] }
        ensures room { self.new.room ≡ self.old.room }
        ensures page { self.new.page_bytes ≡ self.old.page_bytes }
    {
        self.marks.push_reserved(mark);
    }

    /// Adds the mark of a program, and gives its bytes once more for the page.
    pub fn note_program(&mut self, page: u32, bytes: &[u8]) -> PageBytes
        requires space { length self.old.marks.items < self.old.room }
        requires full { length bytes.now ≡ self.old.page_bytes }
        ensures bytes { result ≡ bytes.now }
        ensures marks { seen_marks self.new.marks.items
            ≡ seen_marks self.old.marks.items ++ program page bytes.now ∷ [] }
        ensures room { self.new.room ≡ self.old.room }
        ensures page { self.new.page_bytes ≡ self.old.page_bytes }
    {
        let own = copy_into_spare(&mut self.spare, bytes);
        let copy = copy_into_spare(&mut self.spare, bytes);
        self.marks
            .push_reserved(Mark::Program { page, bytes: copy });
        own
    }

    /// Adds the mark of a post. Bytes that fit a page have a buffer for them; more take memory, and nothing is done without.
    pub fn note_post(&mut self, alloc: Global, bytes: &[u8]) -> Result<(), AllocError>
        requires { length self.old.marks.items < self.old.room }
        ensures marks { OnOk result (seen_marks self.new.marks.items
            ≡ seen_marks self.old.marks.items ++ post bytes.now ∷ []) }
        ensures err { OnErr result (self.new.marks.items ≡ self.old.marks.items) }
        ensures small { OnErr result (self.old.page_bytes < length bytes.now) }
        ensures room { self.new.room ≡ self.old.room }
        ensures page { self.new.page_bytes ≡ self.old.page_bytes }
    {
        if bytes.len() <= self.page_bytes as usize {
            let copy = copy_into_spare(&mut self.spare, bytes);
            self.marks.push_reserved(Mark::Post { bytes: copy });
            Ok(())
        } else {
            let copy = copy_of(alloc, bytes)?;
            self.note(Mark::Post { bytes: copy });
            Ok(())
        }
    }
}
