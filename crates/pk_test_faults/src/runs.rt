//! Flashes with runs on all four levels, whose pages are made by hand.

use crate::damage::refused;
use pk_flash::{Flash, Left};
use pk_nand::PageState;
use pk_nvme::status::{KEY_DOES_NOT_EXIST, SUCCESSFUL_COMPLETION};
use pk_test_scripts::boards::{Session, cut, pages_left};
use pk_test_scripts::cuts::bytes_out;
use pk_test_scripts::exits::{DONE, NO_DRIVE};
use pk_test_scripts::pages::set;
use pk_test_scripts::runs::{KEYS, NOTHING, value_of, with_one_epoch, with_two_epochs};
use pk_test_scripts::script::{Ask, pages_read, push_found, push_head, push_list, script};
use pk_test_scripts::steps::{copied, ended, holds, posted, serve_with, worked_board, wrote};
use pk_test_scripts::ways::ways_of_program;
use pk_test_scripts::{Place, Program};
use std::alloc::Global;
use std::test::*;

// Serves this script with this many frames.
fn ask_with<P: Program>(
    alloc: Global,
    pages: Vec<PageState>,
    asks: &[Ask],
    frames: &str,
) -> Result<Session, Fail> {
    let flash = worked_board(alloc, pages, script(alloc, asks)?)?;
    Ok(serve_with::<P>(alloc, flash, frames))
}

// By the key: the level whose run has the entry that counts, 0 for the buffers and 4 for none, and whether the key exists.
#[derive(Clone, Copy)]
struct Row {
    key: u8,
    level: u32,
    is_there: bool,
}

const ROWS: [Row; 20] = [
    Row {
        key: 1,
        level: 0,
        is_there: true,
    },
    Row {
        key: 60,
        level: 0,
        is_there: true,
    },
    Row {
        key: 7,
        level: 0,
        is_there: true,
    },
    Row {
        key: 18,
        level: 0,
        is_there: false,
    },
    Row {
        key: 30,
        level: 0,
        is_there: false,
    },
    Row {
        key: 20,
        level: 1,
        is_there: true,
    },
    Row {
        key: 10,
        level: 1,
        is_there: false,
    },
    Row {
        key: 25,
        level: 2,
        is_there: true,
    },
    Row {
        key: 40,
        level: 2,
        is_there: true,
    },
    Row {
        key: 80,
        level: 2,
        is_there: true,
    },
    Row {
        key: 15,
        level: 2,
        is_there: false,
    },
    Row {
        key: 70,
        level: 2,
        is_there: false,
    },
    Row {
        key: 32,
        level: 3,
        is_there: true,
    },
    Row {
        key: 62,
        level: 3,
        is_there: true,
    },
    Row {
        key: 12,
        level: 3,
        is_there: false,
    },
    Row {
        key: 33,
        level: 4,
        is_there: true,
    },
    Row {
        key: 45,
        level: 2,
        is_there: true,
    },
    Row {
        key: 39,
        level: 4,
        is_there: true,
    },
    Row {
        key: 23,
        level: 4,
        is_there: false,
    },
    Row {
        key: 100,
        level: 4,
        is_there: false,
    },
];

// Adds the record of the Retrieve of a key, if this many levels are pinned: one page is read for
// each other level down to that of the entry, and then the value's pages.
fn add_retrieved(into: &mut Vec<u8>, number: u16, pinned: u32, row: &Row) -> Result<(), Fail> {
    let looked = row.level.saturating_sub(pinned);
    let value = value_of(row.key);
    let reads = looked.saturating_add(pages_read(value.len));
    let added = if row.is_there {
        push_found(into, number, reads, &value)
    } else {
        push_head(into, number, KEY_DOES_NOT_EXIST, 0, looked, 0)
    };
    added?;
    Ok(())
}

// Adds the record of a Report.
fn add_report(into: &mut Vec<u8>, number: u16, numbers: &[u32; 16]) -> Result<(), Fail> {
    push_head(into, number, SUCCESSFUL_COMPLETION, 0, 0, 64)?;
    for number in numbers {
        into.extend_from_slice(&number.to_le_bytes())?;
    }
    Ok(())
}

// A Retrieve of each key of the rows.
fn retrieves(alloc: Global) -> Result<Vec<Ask>, Fail> {
    let mut asks = Vec::new(alloc);
    for row in &ROWS {
        asks.push(Ask::Retrieve(row.key))?;
    }
    Ok(asks)
}

// The records of these.
fn retrieved(alloc: Global, pinned: u32) -> Result<Vec<u8>, Fail> {
    let mut bytes = Vec::new(alloc);
    let mut number = 0u16;
    for row in &ROWS {
        number = number.wrapping_add(1);
        add_retrieved(&mut bytes, number, pinned, row)?;
    }
    Ok(bytes)
}

// Frames, and how many levels they pin.
#[derive(Clone, Copy)]
struct Pins {
    frames: &'static str,
    pinned: u32,
}

const PINS: [Pins; 8] = [
    Pins {
        frames: "0",
        pinned: 0,
    },
    Pins {
        frames: "7",
        pinned: 0,
    },
    Pins {
        frames: "8",
        pinned: 1,
    },
    Pins {
        frames: "35",
        pinned: 1,
    },
    Pins {
        frames: "36",
        pinned: 2,
    },
    Pins {
        frames: "147",
        pinned: 2,
    },
    Pins {
        frames: "148",
        pinned: 3,
    },
    Pins {
        frames: "236",
        pinned: 4,
    },
];

/// A Retrieve reads no page of a pinned run, and one of each other run down to that with the entry.
pub fn keys_are_found<P: Program>(alloc: Global) -> Result<(), Fail> {
    let asks = retrieves(alloc)?;
    for pins in &PINS {
        let pages = with_two_epochs(alloc)?;
        let session = ask_with::<P>(alloc, pages, &asks, pins.frames)?;
        wrote(&session, 0, 0)?;
        let want = retrieved(alloc, pins.pinned)?;
        posted(&session, DONE, &want, Place::Named(pins.frames))?;
    }
    Ok(())
}

// By the frames: the pinned levels, the pages that a List reads, and the frames with a page.
#[derive(Clone, Copy)]
struct Listing {
    frames: &'static str,
    number: u32,
    pinned: u32,
    reads: u32,
    leased: u32,
}

const LISTINGS: [Listing; 5] = [
    Listing {
        frames: "0",
        number: 0,
        pinned: 0,
        reads: 8,
        leased: 0,
    },
    Listing {
        frames: "8",
        number: 8,
        pinned: 1,
        reads: 7,
        leased: 1,
    },
    Listing {
        frames: "36",
        number: 36,
        pinned: 2,
        reads: 5,
        leased: 3,
    },
    Listing {
        frames: "148",
        number: 148,
        pinned: 3,
        reads: 2,
        leased: 6,
    },
    Listing {
        frames: "236",
        number: 236,
        pinned: 4,
        reads: 0,
        leased: 8,
    },
];

impl Listing {
    // The numbers of a Report.
    fn numbers(&self) -> [u32; 16] {
        let (pinned, number, leased) = (self.pinned, self.number, self.leased);
        [
            86, 492, 43, pinned, number, leased, 3, 3, 2, 16, 31, 17, 2, 11, 0, 0,
        ]
    }
}

// The records of a List of these keys and, if there are numbers, of a Report.
fn listed(
    alloc: Global,
    reads: u32,
    keys: &[u8],
    report: Option<&[u32; 16]>,
) -> Result<Vec<u8>, Fail> {
    let mut want = Vec::new(alloc);
    push_list(&mut want, 1, reads, keys)?;
    if let Some(numbers) = report {
        add_report(&mut want, 2, numbers)?;
    }
    Ok(want)
}

/// A List of all keys reads each page of the runs that are not pinned once, and a Report counts the lists.
pub fn keys_are_listed<P: Program>(alloc: Global) -> Result<(), Fail> {
    for listing in &LISTINGS {
        let pages = with_two_epochs(alloc)?;
        let session = ask_with::<P>(alloc, pages, &[Ask::List, Ask::Report], listing.frames)?;
        let want = listed(alloc, listing.reads, &KEYS, Some(&listing.numbers()))?;
        posted(&session, DONE, &want, Place::Named(listing.frames))?;
    }
    Ok(())
}

// The session that stores the key 90 if one epoch has all entries of the buffers.
fn stored<P: Program>(alloc: Global) -> Result<Session, Fail> {
    let pages = with_one_epoch(alloc)?;
    ask_with::<P>(alloc, pages, &[Ask::Store(90, value_of(90))], "36")
}

// All keys with that one.
fn keys_with_stored(alloc: Global) -> Result<Vec<u8>, Fail> {
    let mut keys = copied(alloc, &KEYS)?;
    keys.push(90)?;
    Ok(keys)
}

// The numbers of a Report after the Store.
const STORED: [u32; 16] = [88, 492, 44, 2, 36, 3, 1, 5, 2, 16, 31, 17, 1, 12, 0, 0];

/// A Store begins an epoch over the one with five keys, by a root that names the same runs. The
/// session after it has all keys.
pub fn store_over_runs<P: Program>(alloc: Global) -> Result<(), Fail> {
    let place = Place::Named("behind the Store");
    let stored = stored::<P>(alloc)?;
    ended(&stored, DONE, Place::Named("the Store"))?;
    wrote(&stored, 6, 4)?;
    let pages = pages_left(alloc, &stored.flash)?;
    let lists = ask_with::<P>(alloc, pages, &[Ask::List, Ask::Report], "36")?;
    let keys = keys_with_stored(alloc)?;
    let want = listed(alloc, 5, &keys, Some(&STORED))?;
    posted(&lists, DONE, &want, place)?;
    let pages = pages_left(alloc, &stored.flash)?;
    let found = ask_with::<P>(alloc, pages, &retrieves(alloc)?, "36")?;
    posted(&found, DONE, &retrieved(alloc, 2)?, place)
}

// Lists the keys after a cut of the Store. The new one exists if a byte of its record was posted,
// and may exist otherwise.
fn check_cut<P: Program>(alloc: Global, stored: &Flash, k: usize, left: &Left) -> Result<(), Fail> {
    let pages = cut(alloc, stored, k, left)?;
    let session = ask_with::<P>(alloc, pages, &[Ask::List], "36")?;
    ended(&session, DONE, Place::Mark(k))?;
    let posted = session.flash.posted();
    let new = listed(alloc, 5, &keys_with_stored(alloc)?, None)?;
    let old = listed(alloc, 5, &KEYS, None)?;
    let is_told = bytes_out(stored, k) > 0;
    let is_so = posted == new.as_slice() || !is_told && posted == old.as_slice();
    holds(is_so, "what is there", Place::Mark(k))
}

/// The Store is cut at each of its marks, which is not begun, torn or done, and if it programs the
/// second page of a pair, with the first one torn besides.
pub fn cut_over_runs<P: Program>(alloc: Global) -> Result<(), Fail> {
    let stored = stored::<P>(alloc)?.flash;
    for k in 0..stored.marks().saturating_add(1) {
        for left in &ways_of_program(alloc, true)? {
            check_cut::<P>(alloc, &stored, k, left)?;
        }
    }
    Ok(())
}

// Pages that are Torn, n from one on: the status of a session.
#[derive(Clone, Copy)]
struct TornPage {
    name: &'static str,
    page: u32,
    count: u32,
    status: u8,
}

// The values of the keys 80, 33 and 39 begin at the pages 480, 386 and 398. No value has the pages 402 and 403.
const TORN_PAGES: [TornPage; 15] = [
    TornPage {
        name: "the page of run 1",
        page: 96,
        count: 1,
        status: NO_DRIVE,
    },
    TornPage {
        name: "the second page of run 2",
        page: 113,
        count: 1,
        status: NO_DRIVE,
    },
    TornPage {
        name: "the last page of run 3",
        page: 130,
        count: 1,
        status: NO_DRIVE,
    },
    TornPage {
        name: "the first page of run 4",
        page: 144,
        count: 1,
        status: NO_DRIVE,
    },
    TornPage {
        name: "after run 4",
        page: 146,
        count: 1,
        status: DONE,
    },
    TornPage {
        name: "the value of a key in run 2",
        page: 480,
        count: 1,
        status: NO_DRIVE,
    },
    TornPage {
        name: "the second page of a value in run 4",
        page: 387,
        count: 1,
        status: NO_DRIVE,
    },
    TornPage {
        name: "the second page of a value in run 4 that has no byte of it",
        page: 399,
        count: 1,
        status: NO_DRIVE,
    },
    TornPage {
        name: "between two values",
        page: 402,
        count: 2,
        status: DONE,
    },
    TornPage {
        name: "the place of covered entries",
        page: NOTHING,
        count: 1,
        status: DONE,
    },
    TornPage {
        name: "the first page of a commit of the newest epoch",
        page: 32,
        count: 1,
        status: DONE,
    },
    TornPage {
        name: "the second page of a commit of the newest epoch",
        page: 33,
        count: 1,
        status: DONE,
    },
    TornPage {
        name: "the first page of the older epoch",
        page: 64,
        count: 1,
        status: DONE,
    },
    TornPage {
        name: "the second page of the older epoch",
        page: 65,
        count: 1,
        status: DONE,
    },
    TornPage {
        name: "the only commit of the older epoch",
        page: 64,
        count: 2,
        status: NO_DRIVE,
    },
];

/// A page of a run that is Torn, and one of a value under any list, are damage, and so is a commit
/// whose pages are both Torn, if it is the only one of the older epoch; pages that no list counts
/// are none, and neither is one page of a commit.
pub fn torn_pages<P: Program>(alloc: Global) -> Result<(), Fail> {
    for torn in &TORN_PAGES {
        let mut pages = with_two_epochs(alloc)?;
        for i in 0..torn.count {
            let page = torn.page.saturating_add(i);
            set(&mut pages, page, PageState::Torn)?;
        }
        let session = ask_with::<P>(alloc, pages, &[Ask::Retrieve(33)], "36")?;
        refused(&session, torn.status, Place::Named(torn.name))?;
    }
    Ok(())
}
