//! Bytes of pages that follow one another, gathered for one write.
ghost use Rattle.std.specs.Prelude.{◌≡◌, ◌≤◌, ◌<◌, ◌+◌, ◌-◌, ◌*◌, ◌++◌, length, replicate, true, IfOk};
ghost use Rattle.pk_base.specs.Shape as spec;
ghost use Rattle.pk_nand.specs.Calls.{longer};
ghost use Rattle.pk_file.specs.FileSteps.{piece_steps};
ghost use Rattle.pk_file.specs.Pieces.{Grows};
ghost use Rattle.pk_file.specs.declared.piece.TheConstants.{MOST_BYTES};

use crate::image_file::PageFile;
use pk_base::Shape;
use std::alloc::{AllocError, Global};

/// Most bytes of a write.
const MOST_BYTES: usize = 262144;

/// Most zeros between pages that are written, so that one write has both.
const MOST_GAP: usize = 512;

/// Bytes from the first of a page on.
#[derive(Drop)]
pub struct Piece {
    pub first: u32,
    pub bytes: Vec<u8>,
    /// How many bytes of the last page follow them: these are zeros in the file, and in the page.
    pub gap: usize,
}

impl Piece {
    /// No bytes, and no memory for some.
    pub fn new(alloc: Global) -> Piece
        ensures { length result.bytes.items ≡ 0 }
    {
        Piece {
            first: 0,
            bytes: Vec::new(alloc),
            gap: 0,
        }
    }

    /// No bytes, with the memory for pages that have these many: to add some takes none.
    pub fn with_room(alloc: Global, len: usize) -> Result<Piece, AllocError>
        ensures { IfOk result (λ piece. length piece.bytes.items ≡ 0) }
    {
        Ok(Piece {
            first: 0,
            bytes: Vec::with_capacity(alloc, len.min(MOST_BYTES))?,
            gap: 0,
        })
    }

    /// Forgets the bytes, of which a write failed.
    pub fn clear(&mut self)
        ensures { length self.new.bytes.items ≡ 0 }
    {
        self.bytes.clear();
    }

    /// Writes the bytes, if there are some, and forgets them.
    pub fn write<F: PageFile>(&mut self, file: &mut F, shape: &Shape) -> bool
        requires { 0 < length self.old.bytes.items → self.old.first < spec.page_count shape.now }
        ensures steps { result ≡ true → F.steps file.new
            ≡ longer (F.steps file.old) (piece_steps self.old.first self.old.bytes.items) }
        ensures none { length self.new.bytes.items ≡ 0 }
    {
        if self.bytes.is_empty() {
            return true;
        }
        let is_done = file
            .write_from(shape, self.first, self.bytes.as_slice())
            .is_ok();
        self.bytes.clear();
        is_done
    }

    /// Whether these many bytes of the next page may follow others in the same write.
    fn has_room(&self, need: usize) -> bool
        ensures some { result ≡ true → 0 < length self.now.bytes.items }
        ensures need { result ≡ true → 0 < need }
        ensures room { result ≡ true
            → length self.now.bytes.items + self.now.gap + need ≤ MOST_BYTES }
    {
        let len = self.bytes.len();
        0 < len
            && 0 < need
            && need <= MOST_BYTES
            && self.gap <= MOST_GAP
            && len <= MOST_BYTES - need
            && self.gap <= MOST_BYTES - need - len
    }

    /// Adds zeros up to the place of the next page, these bytes of it, and zeros up to `need`
    /// bytes.
    fn append(&mut self, front: &[u8], need: usize, size: usize) -> bool
        requires room { length self.old.bytes.items + self.old.gap + need ≤ MOST_BYTES }
        requires front { length front.now ≤ need }
        requires need { need ≤ size }
        ensures first { self.new.first ≡ self.old.first }
        ensures gap { result ≡ true → self.new.gap ≡ size - need }
        ensures bytes { result ≡ true → self.new.bytes.items
            ≡ (self.old.bytes.items ++ replicate self.old.gap 0)
            ++ front.now ++ replicate (need - length front.now) 0 }
    {
        let from = self.bytes.len() + self.gap;
        let Ok(()) = self.bytes.resize(from, 0) else {
            return false;
        };
        let Ok(()) = self.bytes.extend_from_slice(front) else {
            return false;
        };
        let Ok(()) = self.bytes.resize(from + need, 0) else {
            return false;
        };
        self.gap = size - need;
        true
    }

    /// Adds the bytes of the next page: these, and zeros as far as its place in the file may need
    /// them. Only zeros follow these in the page. What cannot be in one write with them is written
    /// before.
    pub fn add<F: PageFile>(
        &mut self,
        file: &mut F,
        shape: &Shape,
        page: u32,
        front: &[u8],
        need: usize,
    ) -> bool
        requires started { 0 < length self.old.bytes.items
            → self.old.first < spec.page_count shape.now }
        requires exists { page < spec.page_count shape.now }
        requires front { length front.now ≤ need }
        requires need { need ≤ shape.now.page_bytes }
        ensures started { 0 < length self.new.bytes.items
            → self.new.first < spec.page_count shape.now }
        ensures grows { result ≡ true → Grows shape.now.page_bytes (page * shape.now.page_bytes)
            front.now need (F.steps file.old) (F.steps file.new)
            self.old.first self.old.bytes.items self.old.gap
            self.new.first self.new.bytes.items self.new.gap }
    {
        let size = shape.page_bytes() as usize;
        if self.has_room(need) {
            return self.append(front, need, size);
        }
        if !self.write(file, shape) {
            return false;
        }
        self.first = page;
        self.gap = 0;
        if need == 0 {
            return true;
        }
        self.append(front, need, size)
    }
}
