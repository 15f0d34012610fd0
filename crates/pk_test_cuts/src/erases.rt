//! The erase of a full block, cut in all its ways.

use crate::ways::Ways;
use pk_flash::Flash;
use pk_nand::Mark;
use pk_test_scripts::boards::{cut, made, pages_left};
use pk_test_scripts::script::{Answer, Ask, Value};
use pk_test_scripts::steps::{MAKE_SMALL, answered, ask_small, ended_well};
use pk_test_scripts::{Place, Program, same};
use std::alloc::Global;
use std::test::*;

const A: Value = Value { first: 1, len: 480 };

const B: Value = Value { first: 2, len: 600 };

const C: Value = Value { first: 3, len: 3 };

// Four values of two pages each fill the first block for values. All of them are dead after the
// Delete, and `b` is in the next one.
const FILL: [Ask; 6] = [
    Ask::Store(0x61, A),
    Ask::Store(0x61, A),
    Ask::Store(0x61, A),
    Ask::Store(0x61, A),
    Ask::Store(0x62, B),
    Ask::Delete(0x61),
];

const NEXT: [Ask; 4] = [
    Ask::Retrieve(0x61),
    Ask::Retrieve(0x62),
    Ask::Store(0x63, C),
    Ask::Retrieve(0x63),
];

const ANSWERS: [Answer; 4] = [
    Answer::Missing,
    Answer::Found(B),
    Answer::Done,
    Answer::Found(C),
];

// The place of the first erase among the marks.
fn first_erase(flash: &Flash) -> Option<usize> {
    for i in 0..flash.marks() {
        if matches!(flash.mark(i), Mark::Erase { .. }) {
            return Some(i);
        }
    }
    None
}

/// Eight written pages, of the block of the dead values, are erased first, for the journal: each of
/// them is unchanged, is Erased or is Torn, by itself. The third session answers as the second one.
pub fn full_block<P: Program>(alloc: Global) -> Result<(), Fail> {
    let filled = ask_small::<P>(alloc, made::<P>(alloc, &MAKE_SMALL)?, &FILL)?;
    let filled = ended_well(filled, Place::Named("the first session"))?;
    let second = ask_small::<P>(alloc, pages_left(alloc, &filled)?, &NEXT)?;
    answered(alloc, &second, &ANSWERS, Place::Named("the second session"))?;
    let k = first_erase(&second.flash).ok_or("an erase")?;
    let ways = Ways::of(alloc, &second.flash, k)?;
    same(u64::from(ways.count), 6561, "ways")?;
    for way in 0..ways.count {
        let left = ways.left(alloc, way)?;
        let pages = cut(alloc, &second.flash, k, &left)?;
        let third = ask_small::<P>(alloc, pages, &NEXT)?;
        answered(alloc, &third, &ANSWERS, Place::Way(k, way))?;
    }
    Ok(())
}
