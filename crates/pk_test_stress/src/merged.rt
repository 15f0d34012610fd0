//! Drives of the smallest shapes whose next session freezes, alone or after a merge into each of
//! the four levels, cut three sessions deep.
//!
//! If there are merges, enough keys were stored and deleted that the frozen buffer is more than run
//! 1 has room for, run 1 more than run 2 has, and run 2 more than run 3. The merge into run 4
//! leaves the deleted keys out, so that the session has few marks.

use crate::deep::{Few, LONG, Part, SMALL, Trial, WIDE, check, first, in_all_ways};
use pk_flash::Flash;
use pk_nand::Mark;
use pk_test_scripts::{Program, holds};
use std::alloc::Global;
use std::test::*;

/// Drives of few keys, whose values fit one block, with nothing frozen.
pub const FREEZES: [Few; 3] = [
    Few {
        smallest: SMALL,
        keys: 3,
        stores: 3,
        gone: 0,
    },
    Few {
        smallest: WIDE,
        keys: 3,
        stores: 3,
        gone: 0,
    },
    Few {
        smallest: LONG,
        keys: 5,
        stores: 5,
        gone: 0,
    },
];

/// Drives whose next merges are into levels 4, 3, 2 and 1.
pub const MERGES: [Few; 3] = [
    Few {
        smallest: SMALL,
        keys: 3,
        stores: 3,
        gone: 1_168,
    },
    Few {
        smallest: WIDE,
        keys: 3,
        stores: 3,
        gone: 2_302,
    },
    Few {
        smallest: LONG,
        keys: 5,
        stores: 5,
        gone: 1_082,
    },
];

// All ways of the first session, and of one mark in `every` of the later ones one way by turns.
fn first_in_all_ways(every: usize) -> Part {
    Part {
        every,
        all_of_first: true,
        all_of_second: false,
        all_of_third: false,
    }
}

// How many roots are programmed in a session, each to both pages of a pair: one for each merge, and one for a freeze.
fn roots(flash: &Flash, few: &Few) -> u32 {
    let [_, block_pages, _] = few.smallest.numbers;
    let end = block_pages.saturating_mul(2);
    let mut roots = 0u32;
    for i in 0..flash.marks() {
        if let Mark::Program { page, .. } = flash.mark(i) {
            if *page < end && *page % 2 == 0 {
                roots = roots.saturating_add(1);
            }
        }
    }
    roots
}

// From this drive on, whose first session has to program this many roots.
fn check_roots<P: Program>(
    alloc: Global,
    few: &Few,
    wanted: u32,
    part: &Part,
) -> Result<usize, Fail> {
    let trial = Trial {
        alloc,
        few,
        shape: few.shape()?,
        part,
    };
    let first = first::<P>(&trial)?;
    if roots(&first.flash, few) != wanted {
        return Err(Fail::from("the roots of a first session"));
    }
    check::<P>(&trial, &first)
}

/// A freeze on each shape, cut off at every mark in all ways, and the sessions after it at one of every two in one way by turns.
pub fn freezes<P: Program>(alloc: Global) -> Result<(), Fail> {
    for few in &FREEZES {
        let cuts = check_roots::<P>(alloc, few, 1, &first_in_all_ways(2))?;
        holds(cuts >= 1_000, "1,000 cuts")?;
    }
    Ok(())
}

/// Merges into levels 4, 3, 2 and 1 and the freeze after them, cut at every mark in all ways, and
/// the sessions after it at one of every five.
pub fn merges<P: Program>(alloc: Global, few: &Few) -> Result<(), Fail> {
    let cuts = check_roots::<P>(alloc, few, 5, &first_in_all_ways(5))?;
    holds(cuts >= 500, "500 cuts")
}

/// A freeze in all ways of all three sessions, the later two at one mark in `every`. This takes
/// long if that is each.
pub fn freeze_in_all_ways<P: Program>(
    alloc: Global,
    few: &Few,
    every: usize,
) -> Result<usize, Fail> {
    check_roots::<P>(alloc, few, 1, &in_all_ways(every))
}

/// So are merges into levels 4, 3, 2 and 1 and the freeze after them.
pub fn merges_in_all_ways<P: Program>(
    alloc: Global,
    few: &Few,
    every: usize,
) -> Result<usize, Fail> {
    check_roots::<P>(alloc, few, 5, &in_all_ways(every))
}
