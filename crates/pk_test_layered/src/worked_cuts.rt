//! The worked session, and a session of 121 Stores, cut at each mark with each outcome: what is left opens, has what was answered, and
//! takes a Store.

use crate::layered::ways;
use crate::merges::{FOUND_BYTES, Step, behind_pages, numbers};
use pk_flash::{Flash, Left};
use pk_test_scripts::boards::{cut, made};
use pk_test_scripts::cuts::bytes_out;
use pk_test_scripts::exits::DONE;
use pk_test_scripts::program::{RECORDS, SCRIPT};
use pk_test_scripts::script::{Answer, Ask, Value, records};
use pk_test_scripts::steps::{add, ask, at_least, ended, holds, made_board, serve};
use pk_test_scripts::{MAKE_WORKED, Place, Program, same};
use std::alloc::Global;
use std::test::*;

const ABC: Value = Value {
    first: 0x61,
    len: 3,
};

const OTHER: Value = Value {
    first: 0x70,
    len: 5,
};

// What is asked of the drive that a cut of the worked session left: its value, and a Store.
const LATER: [Ask; 3] = [
    Ask::Retrieve(0x61),
    Ask::Store(0x62, OTHER),
    Ask::Retrieve(0x62),
];

// The drive after this cut of the worked session has its value if a byte of the Store's record was posted, and may have it otherwise.
fn check_worked<P: Program>(
    alloc: Global,
    first: &Flash,
    k: usize,
    left: &Left,
) -> Result<(), Fail> {
    let later = ask::<P>(alloc, cut(alloc, first, k, left)?, &LATER)?;
    ended(&later, DONE, Place::Mark(k))?;
    let stored = [Answer::Found(ABC), Answer::Done, Answer::Found(OTHER)];
    let missing = [Answer::Missing, Answer::Done, Answer::Found(OTHER)];
    let posted = later.flash.posted();
    let is_there = posted == records(alloc, &stored)?.as_slice();
    let is_missing = posted == records(alloc, &missing)?.as_slice();
    let is_so = is_there || is_missing && bytes_out(first, k) == 0;
    holds(is_so, "the records", Place::Mark(k))
}

/// The worked session, a Store of three bytes and a Retrieve, cut at each of its marks in all ways of a program and four of an erase.
pub fn worked_session<P: Program>(alloc: Global) -> Result<(), Fail> {
    let mut input = Vec::new(alloc);
    add(&mut input, &SCRIPT)?;
    let first = serve::<P>(alloc, made_board::<P>(alloc, input)?).flash;
    holds(
        first.posted() == RECORDS.as_slice(),
        "the records",
        Place::Named("no cut"),
    )?;
    let mut cuts = 0u32;
    for k in 0..first.marks().saturating_add(1) {
        for left in &ways(alloc, &first, k)? {
            check_worked::<P>(alloc, &first, k, left)?;
            cuts = cuts.saturating_add(1);
        }
    }
    at_least(cuts, 40, "cuts")
}

const STORES: u16 = 121;

// What is asked after 121 Stores that were cut: how many keys there are, one Store, and its value.
const NEXT: [Step; 3] = [Step::Report, Step::Stores(1), Step::Retrieve(0)];

// The bytes of a Store's record.
const DONE_BYTES: usize = 24;

// The drive after this cut of the Stores has a first part of them, with all of whose records a byte was posted.
fn check_stores<P: Program>(
    alloc: Global,
    first: &Flash,
    k: usize,
    left: &Left,
) -> Result<(), Fail> {
    let later = behind_pages::<P>(alloc, cut(alloc, first, k, left)?, &NEXT, "36")?;
    let keys = numbers(later.posted(), DONE_BYTES + FOUND_BYTES)?[2];
    let told = bytes_out(first, k).div_ceil(DONE_BYTES) as u64;
    let is_so = told <= u64::from(keys) && keys <= u32::from(STORES);
    holds(is_so, "the keys", Place::Mark(k))?;
    let is_there = later.posted().ends_with(&[0x61, 0x62, 0x63]);
    holds(is_there, "the value of the Store", Place::Mark(k))
}

/// 121 Stores, with the freezes and merges that they make, cut at each of their marks in all ways of a program and four of an erase.
pub fn stores_with_merges<P: Program>(alloc: Global) -> Result<(), Fail> {
    let pages = made::<P>(alloc, &MAKE_WORKED)?;
    let first = behind_pages::<P>(alloc, pages, &[Step::Stores(STORES)], "36")?;
    same(first.posted().len() as u64, 121 * 24, "bytes posted")?;
    let mut cuts = 0u32;
    for k in 0..first.marks().saturating_add(1) {
        for left in &ways(alloc, &first, k)? {
            check_stores::<P>(alloc, &first, k, left)?;
            cuts = cuts.saturating_add(1);
        }
    }
    at_least(cuts, 1_000, "cuts")
}
