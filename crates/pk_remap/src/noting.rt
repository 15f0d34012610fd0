//! How marks are noted in a log.
ghost use Rattle.std.specs.Prelude.{◌≡◌, ◌≤◌, ◌∷◌, [], length, true, false, IfOk};
ghost use Rattle.pk_base.specs.Mark.{program, erase, post};
ghost use Rattle.pk_nand.specs.Calls.{longer};
ghost use Rattle.pk_remap.specs.Noted.{no_marks, marks_for, bytes_of_mark, mark_with};
ghost use Rattle.pk_remap.specs.Logged.{told, HasLogRoom};

use crate::mark_log::{MarkLog, NotedMark};
use std::alloc::{AllocError, Global};

impl MarkLog {
    /// No marks, and no room yet for those to come.
    pub fn new(alloc: Global, room: usize) -> MarkLog
        ensures told { told result ≡ no_marks room }
        ensures room { result.room ≡ room }
        ensures bare { result.page_bytes ≡ 0 }
    {
        MarkLog {
            room,
            page_bytes: 0,
            used: 0,
            marks: Vec::new(alloc),
            bytes: Vec::new(alloc),
        }
    }

    /// No marks, and room for those to come.
    pub fn with_room(alloc: Global, room: usize, page_bytes: usize) -> Result<MarkLog, AllocError>
        requires { 1 ≤ page_bytes }
        ensures told { IfOk result (λ log. told log ≡ no_marks room) }
        ensures room { IfOk result (λ log. log.room ≡ room) }
        ensures page { IfOk result (λ log. log.page_bytes ≡ page_bytes) }
    {
        if room > usize::MAX / page_bytes {
            return Err(AllocError);
        }
        let marks = Vec::with_capacity(alloc, room)?;
        let bytes = Vec::with_capacity(alloc, room * page_bytes)?;
        Ok(MarkLog {
            room,
            page_bytes,
            used: 0,
            marks,
            bytes,
        })
    }

    /// How many marks of the room these bytes take.
    fn takes(&self, len: usize) -> usize
        requires { 1 ≤ self.now.page_bytes }
        ensures { result ≡ marks_for self.now.page_bytes len }
    {
        len.div_ceil(self.page_bytes).max(1)
    }

    /// Whether a mark with `len` bytes has room.
    pub fn has_room(&self, len: usize) -> bool
        ensures yes { result ≡ true → HasLogRoom self.now len }
        ensures no { result ≡ false → HasLogRoom self.now len → ⊥ }
    {
        if self.room == 0 {
            true
        } else if self.page_bytes == 0 {
            false
        } else {
            self.takes(len) <= self.room - self.used
        }
    }

    /// Notes a program.
    pub fn note_program(&mut self, page: u32, bytes: &[u8])
        requires { HasLogRoom self.old (length bytes.now) }
        ensures told { told self.new ≡ longer (told self.old) (program page bytes.now ∷ []) }
        ensures room { self.new.room ≡ self.old.room }
        ensures page { self.new.page_bytes ≡ self.old.page_bytes }
    {
        let mark = NotedMark::Program {
            page,
            len: bytes.len(),
        };
        self.note(mark, bytes);
    }

    /// Notes an erase.
    pub fn note_erase(&mut self, block: u32)
        requires { HasLogRoom self.old 0 }
        ensures told { told self.new ≡ longer (told self.old) (erase block ∷ []) }
        ensures room { self.new.room ≡ self.old.room }
        ensures page { self.new.page_bytes ≡ self.old.page_bytes }
    {
        self.note(NotedMark::Erase { block }, &[]);
    }

    /// Notes a post.
    pub fn note_post(&mut self, bytes: &[u8])
        requires { HasLogRoom self.old (length bytes.now) }
        ensures told { told self.new ≡ longer (told self.old) (post bytes.now ∷ []) }
        ensures room { self.new.room ≡ self.old.room }
        ensures page { self.new.page_bytes ≡ self.old.page_bytes }
    {
        let mark = NotedMark::Post { len: bytes.len() };
        self.note(mark, bytes);
    }

    /// Notes a mark with its bytes, if marks are reported.
    fn note(&mut self, mark: NotedMark, bytes: &[u8])
        requires sized { bytes_of_mark mark ≡ length bytes.now }
        requires room { HasLogRoom self.old (length bytes.now) }
        ensures told { told self.new ≡ longer (told self.old) (mark_with mark bytes.now ∷ []) }
        ensures room { self.new.room ≡ self.old.room }
        ensures page { self.new.page_bytes ≡ self.old.page_bytes }
    {
        if self.room > 0 {
            self.used += self.takes(bytes.len());
            self.marks.push_reserved(mark);
            match self.bytes.extend_from_slice(bytes) {
                Ok(()) => {}
                Err(_) => unreachable!(),
            }
        }
    }
}
