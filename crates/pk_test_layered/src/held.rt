//! Spare frames hold further levels: background steps read the pages, and an install gives the
//! frames back.

use crate::merges::{REPORT_BYTES, Step, behind_pages, numbers, reads_of};
use pk_test_scripts::boards::{made, pages_left};
use pk_test_scripts::{MAKE_WORKED, Program, same};
use std::alloc::Global;
use std::test::*;

// The bytes of a Retrieve's record: its buffer has 10 bytes, and the value more.
const FOUND_BYTES: usize = 24 + 10;

// 361 Stores of 246 keys leave runs of 60, 60, 240 and no entries, which have 4, 4, 16 and no
// pages.
const AT_REST: [Step; 4] = [
    Step::StoresOf(361, 246),
    Step::Tick(1000),
    Step::Report,
    Step::Retrieve(200),
];

// By the frames: how many have a page after the Tick, and how many pages the Retrieve reads.
#[derive(Clone, Copy)]
struct Held {
    frames: &'static str,
    leased: u32,
    reads: u32,
}

// The key is in run 3, and other runs have keys before it. Levels 1 and 2 are pinned with 36 frames,
// level 1 with 35, none with 7. So 35 frames have room for levels 2 and 3 beside it, 36 for none, and
// 7 for level 1. Level 4 is empty.
const HELD: [Held; 5] = [
    Held {
        frames: "7",
        leased: 4,
        reads: 3,
    },
    Held {
        frames: "35",
        leased: 24,
        reads: 1,
    },
    Held {
        frames: "36",
        leased: 8,
        reads: 2,
    },
    Held {
        frames: "51",
        leased: 8,
        reads: 2,
    },
    Held {
        frames: "52",
        leased: 24,
        reads: 1,
    },
];

// The numbers of entries and of frames with a page in the Report this many bytes before the end.
fn lists(posted: &[u8], behind: usize) -> Result<[u32; 5], Fail> {
    let found = numbers(posted, behind)?;
    Ok([found[8], found[9], found[10], found[11], found[5]])
}

fn check_lists(found: [u32; 5], leased: u32) -> Result<(), Fail> {
    let wanted = [60, 60, 240, 0, leased];
    for i in 0..5usize {
        same(u64::from(found[i]), u64::from(wanted[i]), "a number")?;
    }
    Ok(())
}

/// A Tick to rest fills the spare frames with the pages of further levels if all pages of a level
/// have room, and a Retrieve reads no page of a level that is held.
pub fn levels_are_held<P: Program>(alloc: Global) -> Result<(), Fail> {
    for held in &HELD {
        let pages = made::<P>(alloc, &MAKE_WORKED)?;
        let flash = behind_pages::<P>(alloc, pages, &AT_REST, held.frames)?;
        let posted = flash.posted();
        check_lists(lists(posted, FOUND_BYTES)?, held.leased)?;
        let reads = reads_of(posted, FOUND_BYTES, 0)?;
        same(u64::from(reads), u64::from(held.reads), "reads")?;
    }
    Ok(())
}

/// The flash that a session with 52 frames left is served with 36, which hold no level that is not pinned: a Retrieve of the same key reads
/// one page more.
pub fn fewer_frames_hold_less<P: Program>(alloc: Global) -> Result<(), Fail> {
    let pages = made::<P>(alloc, &MAKE_WORKED)?;
    let flash = behind_pages::<P>(alloc, pages, &AT_REST, "52")?;
    same(
        u64::from(reads_of(flash.posted(), FOUND_BYTES, 0)?),
        1,
        "reads",
    )?;
    let left = pages_left(alloc, &flash)?;
    let later = behind_pages::<P>(alloc, left, &[Step::Retrieve(200)], "36")?;
    same(
        u64::from(reads_of(later.posted(), FOUND_BYTES, 0)?),
        2,
        "reads",
    )
}

const OPENED: [Step; 6] = [
    Step::Report,
    Step::Retrieve(200),
    Step::Tick(15),
    Step::Report,
    Step::Tick(1),
    Step::Retrieve(200),
];

/// After an opening the pinned levels alone have frames. Each background step reads one page; up to
/// the last page of level 3 a Retrieve of a key on it reads it from the flash.
pub fn frames_fill_one_by_one<P: Program>(alloc: Global) -> Result<(), Fail> {
    let pages = made::<P>(alloc, &MAKE_WORKED)?;
    let first = behind_pages::<P>(alloc, pages, &AT_REST, "36")?;
    let left = pages_left(alloc, &first)?;
    let flash = behind_pages::<P>(alloc, left, &OPENED, "52")?;
    let posted = flash.posted();
    let end = FOUND_BYTES + 24;
    check_lists(lists(posted, end)?, 23)?;
    same(u64::from(reads_of(posted, FOUND_BYTES, 0)?), 1, "reads")?;
    let begin = end + REPORT_BYTES + 24;
    same(u64::from(reads_of(posted, FOUND_BYTES, begin)?), 2, "reads")?;
    check_lists(lists(posted, begin + FOUND_BYTES)?, 8)
}
