//! The file of an image, as what a board asks of it.
ghost use Rattle.std.specs.Prelude.{◌≡◌, ◌≤◌, ◌<◌, ◌∷◌, [], None, List, Option, OnOk, length};
ghost use Rattle.pk_base.specs.Shape as spec;
ghost use Rattle.pk_image.specs.Image.{byte_of};
ghost use Rattle.pk_image.specs.declared.tag.TheConstants.{ERASED};
ghost use Rattle.pk_nand.specs.Calls.{longer};
ghost use Rattle.pk_file.specs.FileSteps.{FileStep, states_set, bytes_written, synced};

use pk_base::{MOST_BLOCK_PAGES, Shape};
use pk_image::{PageTag, page_at, state_at};
use std::fs::File;
use std::io;
use std::os::unix::fs::FileExt;

/// A file with the pages of a board. If it records its steps, those that were made are in them.
pub trait PageFile {
    /// What was asked of it.
    ghost steps: { Self → Option (List FileStep) };

    /// Fails if the file is not as long as its image any more. A write would make it so again, with
    /// zeros.
    fn begin(&mut self) -> io::Result<()>
        ensures { steps self.new ≡ steps self.old };

    /// Sets the state bytes of pages, from the first on.
    fn set_states(&mut self, shape: &Shape, first: u32, count: u32, tag: PageTag) -> io::Result<()>
        requires small { count ≤ MOST_BLOCK_PAGES }
        requires exists { first < spec.page_count shape.now }
        ensures { OnOk result (steps self.new
            ≡ longer (steps self.old) (states_set first count (byte_of tag) ∷ [])) };

    /// Writes bytes from the first of a page on, which may go on in the pages after it.
    fn write_from(&mut self, shape: &Shape, page: u32, part: &[u8]) -> io::Result<()>
        requires { page < spec.page_count shape.now }
        ensures { OnOk result (steps self.new
            ≡ longer (steps self.old) (bytes_written page part.now ∷ [])) };

    /// Sets the state bytes of pages to Erased, and answers of how many.
    fn erase_states(&mut self, shape: &Shape, first: u32, count: u32) -> u32
        requires small { count ≤ MOST_BLOCK_PAGES }
        requires exists { first < spec.page_count shape.now }
        ensures most { result ≤ count }
        ensures steps { steps self.new
            ≡ longer (steps self.old) (states_set first result ERASED ∷ []) };

    /// Brings what was written to the disk.
    fn sync(&mut self) -> io::Result<()>
        ensures { OnOk result (steps self.new ≡ longer (steps self.old) (synced ∷ [])) };
}

/// The open file of an image.
#[derive(Drop)]
pub struct ImageFile {
    file: File,
    /// Its length in bytes.
    len: u64,
    /// Whether what is written has to be on the disk; otherwise the system brings it there when it likes.
    is_durable: bool,
}

impl ImageFile {
    /// A file of this length.
    pub fn new(file: File, len: u64, is_durable: bool) -> ImageFile {
        ImageFile {
            file,
            len,
            is_durable,
        }
    }

    /// The same file by another descriptor: its lock goes when both are closed.
    pub fn copy(&self) -> io::Result<File> {
        self.file.try_clone()
    }
}

impl PageFile for ImageFile {
    ghost steps = { λ _. None };

    fn begin(&mut self) -> io::Result<()> {
        match self.file.metadata() {
            Ok(data) if data.len() == self.len => Ok(()),
            Ok(_) => Err(io::Error::from(io::ErrorKind::UnexpectedEof)),
            Err(e) => Err(e),
        }
    }

    fn set_states(
        &mut self,
        shape: &Shape,
        first: u32,
        count: u32,
        tag: PageTag,
    ) -> io::Result<()> {
        let states = [tag.byte(); MOST_BLOCK_PAGES as usize];
        self.file
            .write_all_at(&states[..count as usize], state_at(shape, first))
    }

    fn write_from(&mut self, shape: &Shape, page: u32, part: &[u8]) -> io::Result<()> {
        self.file.write_all_at(part, page_at(shape, page))
    }

    /// A write that a signal interrupted is made again.
    fn erase_states(&mut self, shape: &Shape, first: u32, count: u32) -> u32 {
        let states = [PageTag::Erased.byte(); MOST_BLOCK_PAGES as usize];
        // A loop has an end: no process lives to see this many interrupted writes.
        for _ in 0..u64::MAX {
            match self
                .file
                .write_at(&states[..count as usize], state_at(shape, first))
            {
                Ok(done) => return done as u32,
                Err(e) if e.kind() == io::ErrorKind::Interrupted => {}
                Err(_) => return 0,
            }
        }
        0
    }

    fn sync(&mut self) -> io::Result<()> {
        if self.is_durable {
            return self.file.sync_data();
        }
        Ok(())
    }
}
