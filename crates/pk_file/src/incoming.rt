//! The input, read as much at a time as is there.
ghost use Rattle.std.specs.Prelude.{◌≡◌, [], length};
ghost use Rattle.std.specs.Io.{ReadsAtMost};
ghost use Rattle.std.specs.Io.Buffered.{reader_buffer};
ghost use Rattle.std.specs.Bool.{OnTrue};

use crate::room::GATHERED;
use std::alloc::Global;
use std::io;
use std::io::{BufReader, Read};

/// EBADF, the system's number for a descriptor that is closed, or not open for this.
const CLOSED: i32 = 9;

/// A reader with its buffer.
#[derive(Drop)]
pub struct Incoming<R: Read + Drop> {
    from: BufReader<R>,
}

/// The reader with room for what is read ahead. If there is no memory for it each fetch is a read.
fn buffered<R: Read + Drop + Copy>(alloc: Global, from: R) -> BufReader<R> {
    match BufReader::with_capacity(alloc, GATHERED, from) {
        Ok(reader) => reader,
        Err(_) => match BufReader::with_capacity(alloc, 0, from) {
            Ok(reader) => reader,
            Err(_) => unreachable!(),
        },
    }
}

impl<R: Read + Drop + Copy> Incoming<R> {
    /// Nothing was read yet.
    pub fn new(alloc: Global, from: R) -> Incoming<R> {
        Incoming {
            from: buffered(alloc, from),
        }
    }
}

impl<R: Read + Drop> Incoming<R> {
    /// Whether the next fetch reads, and so may wait.
    pub fn may_wait(&self) -> bool {
        self.from.buffer().is_empty()
    }

    /// Takes the next bytes of the input, those that were read ahead before it reads again. A read that a signal interrupted is made
    /// again, and an input that is closed is at its end.
    pub fn fetch(&mut self, into: &mut [u8]) -> io::Result<usize>
        ensures { ReadsAtMost result into.new }
    {
        // A loop has an end: no process lives to see this many interrupted reads.
        for _ in 0..u64::MAX {
            match self.from.read(into) {
                Ok(count) => return Ok(count),
                Err(e) if e.kind() == io::ErrorKind::Interrupted => {}
                Err(e) if e.raw_os_error() == Some(CLOSED) => return Ok(0),
                Err(e) => return Err(e),
            }
        }
        Err(io::Error::from(io::ErrorKind::Interrupted))
    }
}
