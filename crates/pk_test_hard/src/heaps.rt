//! Programs whose drives have a heap of n bytes.
ghost use Rattle.std.specs.Prelude.{◌≤◌};

use linked_list_allocator::LocalHeap;
use pk_core::{Drive, OpenError};
use pk_flash::Flash;
use pk_serve::{End, Server};
use pk_test_scripts::Program;
use pk_test_scripts::exits::{DONE, FLASH, INPUT, MEMORY, NO_DRIVE, OUTPUT, TRUNCATED, WORN};
use pk_top::run;
use std::alloc::Global;

// The status of a run in which a call after the opening kept memory.
const MORE_MEMORY: u8 = 70;

fn of_end(end: End) -> u8 {
    match end {
        End::Done => DONE,
        End::Truncated => TRUNCATED,
        End::Input => INPUT,
        End::Output => OUTPUT,
        End::Flash => FLASH,
        End::Worn => WORN,
    }
}

fn of_open_error(error: OpenError) -> u8 {
    match error {
        OpenError::NotFormatted | OpenError::Damaged { .. } => NO_DRIVE,
        OpenError::Fault => FLASH,
        OpenError::Memory => MEMORY,
    }
}

// Opens the drive over a heap of `bytes` bytes, in which it is itself, and serves the input, by
// which no more of the heap may be in use. What serving needs in addition is taken elsewhere.
fn serve_in(alloc: Global, frames: u32, bytes: usize, flash: &mut Flash) -> u8
    requires { frames ≤ 16384 }
{
    let Some(shape) = flash.shape() else {
        return NO_DRIVE;
    };
    let Ok(mut server) = Server::new(alloc, shape) else {
        return MEMORY;
    };
    let Ok(heap) = LocalHeap::new(alloc, bytes) else {
        return MEMORY;
    };
    let drive = match Drive::open(&heap, flash, shape, frames) {
        Ok(drive) => drive,
        Err(error) => return of_open_error(error),
    };
    match Box::new(&heap, drive) {
        Ok(mut drive) => {
            let used = heap.used();
            let status = of_end(server.serve(&mut *drive, flash));
            if heap.used() == used {
                status
            } else {
                MORE_MEMORY
            }
        }
        Err(_) => MEMORY,
    }
}

// Serves with 36 frames or none, in a heap of `bytes` bytes; other words are the program's own.
fn run_in(alloc: Global, words: &[&str], bytes: usize, flash: &mut Flash) -> u8 {
    if flash.shape().is_none() {
        return run(alloc, words, flash).0;
    }
    match words {
        [_, frames] => {
            let frames = if frames.as_bytes() == b"36".as_slice() {
                36
            } else {
                0
            };
            serve_in(alloc, frames, bytes, flash)
        }
        _ => run(alloc, words, flash).0,
    }
}

/// Drives in 131,072 bytes.
pub struct Small;

impl Program for Small {
    fn run(alloc: Global, words: &[&str], flash: &mut Flash) -> u8 {
        run_in(alloc, words, 131_072, flash)
    }
}

/// Drives in 16,384 bytes.
pub struct TooSmall;

impl Program for TooSmall {
    fn run(alloc: Global, words: &[&str], flash: &mut Flash) -> u8 {
        run_in(alloc, words, 16_384, flash)
    }
}

/// Drives in 294,912 bytes.
pub struct Large;

impl Program for Large {
    fn run(alloc: Global, words: &[&str], flash: &mut Flash) -> u8 {
        run_in(alloc, words, 294_912, flash)
    }
}
