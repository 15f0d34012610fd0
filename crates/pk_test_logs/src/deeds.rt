//! What a session does: a list of deeds, worked out by hand or by its number.
ghost use Rattle.std.specs.Prelude.{◌≤◌, ◌<◌};
ghost use Rattle.pk_test_logs.specs.declared.cell.TheConstants.{PAGE};

use crate::cell::PAGE;
use pk_test_disks::Random;
use std::alloc::{AllocError, Global};

/// Pages and blocks that sessions change, so that they change them again.
const PAGES: usize = 48;

const BLOCKS: usize = 6;

/// Deeds of a session that has a number.
const DEEDS: u32 = 24;

#[derive(Clone, Copy)]
pub enum Deed {
    /// A page is programmed with this many bytes, the first of which this one is.
    Program { page: u32, byte: u8, len: usize },
    Erase { block: u32 },
    Barrier,
    /// Room for a step is secured, and the step is not done.
    Room,
}

fn program(page: u32, byte: u8, len: usize) -> Deed {
    Deed::Program { page, byte, len }
}

/// A session with two blocks that are erased and written again, a page of no byte, and more bytes
/// than the log takes before it is emptied.
pub fn worked_deeds() -> [Deed; 20] {
    [
        program(0, 1, PAGE),
        program(1, 20, 100),
        Deed::Barrier,
        Deed::Erase { block: 1 },
        program(8, 40, PAGE),
        program(9, 60, 3),
        Deed::Barrier,
        program(2, 80, PAGE),
        program(16, 100, PAGE),
        program(17, 120, 40),
        program(3, 140, PAGE),
        Deed::Erase { block: 0 },
        Deed::Barrier,
        program(4, 160, PAGE),
        program(5, 180, PAGE),
        program(6, 200, PAGE),
        Deed::Barrier,
        program(0, 220, 0),
        Deed::Erase { block: 2 },
        program(20, 240, 200),
    ]
}

fn len_of(random: &mut Random) -> usize
    ensures { result ≤ PAGE }
{
    match random.below(4) {
        0 => random.below(40),
        1 => PAGE,
        _ => random.below(PAGE),
    }
}

fn any_deed(random: &mut Random) -> Deed {
    match random.below(8) {
        0..=4 => Deed::Program {
            page: random.below(PAGES) as u32,
            byte: random.byte(),
            len: len_of(random),
        },
        5 => Deed::Erase {
            block: random.below(BLOCKS) as u32,
        },
        _ => Deed::Barrier,
    }
}

/// The deeds of the session with this number.
pub fn deeds_of(alloc: Global, number: u32) -> Result<Vec<Deed>, AllocError> {
    let mut random = Random::new(number);
    let mut deeds = Vec::new(alloc);
    for _ in 0..DEEDS {
        deeds.push(any_deed(&mut random))?;
    }
    Ok(deeds)
}

/// The bytes of a page that begins with this one; none is 0.
pub fn bytes_from(byte: u8) -> [u8; PAGE] {
    let mut bytes = [1u8; PAGE];
    for i in 0..PAGE {
        bytes[i] = byte.wrapping_add((i % 256) as u8) | 1;
    }
    bytes
}
