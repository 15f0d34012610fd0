//! Freezes and merges by commands from a made drive on; and merges into each level, on flashes made
//! by hand, cut at every mark.

use crate::layered::{FLASHES, Layered, Lists, Wanted, is_pair_there, key_of, roots_behind, ways};
use pk_base::{Shape, get_u32};
use pk_flash::{Flash, Left, Room};
use pk_nand::{Mark, PageState};
use pk_nvme::opcode::{LIST, REPORT, RETRIEVE, STORE, TICK};
use pk_test_scripts::boards::{Session, board_in, cut, made, pages_left, worked};
use pk_test_scripts::cuts::bytes_out;
use pk_test_scripts::exits::DONE;
use pk_test_scripts::script::{Value, entry, push_found, push_value};
use pk_test_scripts::steps::{
    add, at_least, ended, ended_well, holds, last_program, serve, serve_with,
};
use pk_test_scripts::ways::by_turns;
use pk_test_scripts::{MAKE_WORKED, Place, Program, same};
use std::alloc::Global;
use std::test::*;

// For sessions of some hundred commands.
const LONG: Room = Room {
    posted: 65536,
    marks: 1500,
};

// A board with room for these.
fn long_board(
    alloc: Global,
    shape: Shape,
    pages: Vec<PageState>,
    input: Vec<u8>,
) -> Result<Flash, Fail> {
    Ok(board_in(alloc, shape, pages, input, LONG)?)
}

// The number of four bytes that begins here.
fn number_at(posted: &[u8], at: usize) -> Result<u32, Fail> {
    pk_test_scripts::holds(at <= posted.len() && posted.len() - at >= 4, "a record")?;
    Ok(get_u32(posted, at))
}

/// The sixteen numbers of the Report whose record ends this many bytes before the end.
pub fn numbers(posted: &[u8], behind: usize) -> Result<[u32; 16], Fail> {
    let start = posted
        .len()
        .checked_sub(behind.saturating_add(64))
        .ok_or("a Report")?;
    let mut numbers = [0u32; 16];
    for i in 0..16usize {
        numbers[i] = number_at(posted, start.saturating_add(4 * i))?;
    }
    Ok(numbers)
}

// ---- from a made drive on

// A value of two pages, the second one of zeros.
const ABC: Value = Value {
    first: 0x61,
    len: 3,
};

// A value of 100 bytes, which has two pages too.
const HUNDRED: Value = Value {
    first: 0x61,
    len: 100,
};

/// What is asked of a made drive.
#[derive(Clone, Copy)]
pub enum Step {
    // Stores of n keys of two bytes, of two pages each.
    Stores(u16),
    // The first of these numbers of Stores of 100 bytes, of the second of these numbers of keys by turns.
    StoresOf(u16, u16),
    // With a buffer of 10 bytes.
    Retrieve(u16),
    Tick(u32),
    List,
    Report,
}

// Adds what is asked by a step.
fn add_step(into: &mut Vec<u8>, step: &Step) -> Result<(), Fail> {
    match step {
        Step::Stores(count) => add_stores(into, *count, *count, &ABC)?,
        Step::StoresOf(count, keys) => add_stores(into, *count, *keys, &HUNDRED)?,
        Step::Retrieve(key) => add(into, &entry(2, RETRIEVE, key_of(*key), 2, 10))?,
        Step::Tick(steps) => add(into, &entry(1, TICK, [0, 0], 0, *steps))?,
        Step::List => add(into, &entry(1, LIST, [0, 0], 0, 65536))?,
        Step::Report => add(into, &entry(1, REPORT, [0, 0], 0, 0))?,
    }
    Ok(())
}

fn add_stores(into: &mut Vec<u8>, count: u16, keys: u16, value: &Value) -> Result<(), Fail> {
    for i in 0..count {
        let key = key_of(i.checked_rem(keys).unwrap_or(i));
        add(into, &entry(i, STORE, key, 2, value.len))?;
        push_value(into, value)?;
    }
    Ok(())
}

fn script_of(alloc: Global, steps: &[Step]) -> Result<Vec<u8>, Fail> {
    let mut script = Vec::new(alloc);
    for step in steps {
        add_step(&mut script, step)?;
    }
    Ok(script)
}

/// The bytes of a Report's record.
pub const REPORT_BYTES: usize = 24 + 64;

/// The bytes of a Retrieve's record.
pub const FOUND_BYTES: usize = 24 + 3;

/// How many pages the Retrieve read whose record has this length, and ends this many bytes before the end.
pub fn reads_of(posted: &[u8], bytes: usize, behind: usize) -> Result<u32, Fail> {
    let start = posted
        .len()
        .checked_sub(behind.saturating_add(bytes))
        .ok_or("a record")?;
    number_at(posted, start.saturating_add(16))
}

// That Retrieve read one page.
fn check_one_read(posted: &[u8], behind: usize) -> Result<(), Fail> {
    same(
        u64::from(reads_of(posted, FOUND_BYTES, behind)?),
        1,
        "reads",
    )
}

/// These pages after a session with this many frames, which has to end well.
pub fn behind_pages<P: Program>(
    alloc: Global,
    pages: Vec<PageState>,
    steps: &[Step],
    frames: &str,
) -> Result<Flash, Fail> {
    let flash = long_board(alloc, worked()?, pages, script_of(alloc, steps)?)?;
    let session = serve_with::<P>(alloc, flash, frames);
    ended_well(session, Place::Named("from a made drive on"))
}

// A made drive after such a session.
fn behind<P: Program>(alloc: Global, steps: &[Step]) -> Result<Flash, Fail> {
    Ok(behind_pages::<P>(alloc, made::<P>(alloc, &MAKE_WORKED)?, steps, "36")?)
}

const FIRST_MERGE: [Step; 5] = [
    Step::Stores(31),
    Step::Retrieve(0),
    Step::Tick(1000),
    Step::Report,
    Step::Retrieve(0),
];

// All numbers of a Report after the first merge.
const MERGED: [u32; 16] = [62, 492, 31, 2, 36, 2, 1, 0, 30, 0, 0, 0, 1, 4, 55, 0];

/// Thirty keys are frozen by the 31st Store, and a Tick merges them into run 1: all sixteen numbers
/// of a Report, and the pages that a Retrieve of the first key reads before and after the merge.
pub fn first_merge<P: Program>(alloc: Global) -> Result<(), Fail> {
    let flash = behind::<P>(alloc, &FIRST_MERGE)?;
    let posted = flash.posted();
    check_one_read(posted, 0)?;
    check_one_read(posted, FOUND_BYTES + REPORT_BYTES + 24)?;
    let found = numbers(posted, FOUND_BYTES)?;
    holds(
        found == MERGED,
        "the numbers",
        Place::Named("the first merge"),
    )
}

const ONE_STEP: [Step; 6] = [
    Step::Stores(31),
    Step::Tick(1),
    Step::Report,
    Step::Retrieve(0),
    Step::Tick(1000),
    Step::Report,
];

// The Report this many bytes before the end says whether a merge has begun, and has this many
// frozen entries and entries of run 1.
fn check_merge(posted: &[u8], behind: usize, wanted: [u32; 3]) -> Result<(), Fail> {
    let found = numbers(posted, behind)?;
    let found = [found[15], found[7], found[8]];
    holds(found == wanted, "the numbers", Place::Named("one step"))
}

/// One step of the merge is made, and the lists are unchanged; the rest of the steps ends it.
pub fn one_step<P: Program>(alloc: Global) -> Result<(), Fail> {
    let flash = behind::<P>(alloc, &ONE_STEP)?;
    let posted = flash.posted();
    check_merge(posted, 0, [0, 0, 30])?;
    check_one_read(posted, REPORT_BYTES + 24)?;
    check_merge(posted, REPORT_BYTES + 24 + FOUND_BYTES, [1, 30, 0])
}

const TWO_RUNS: [Step; 3] = [Step::Stores(121), Step::Report, Step::Retrieve(0)];

// Four freezes: the numbers of entries of the lists.
const FOUR_FREEZES: [u32; 6] = [1, 30, 30, 60, 0, 0];

/// Four freezes merge into runs 1 and 2. A Retrieve of the first key reads the value's page alone
/// if both levels have frames; without frames it reads a page of each run besides, two to five in
/// all, and gives the same.
pub fn two_runs<P: Program>(alloc: Global) -> Result<(), Fail> {
    let place = Place::Named("two runs");
    let flash = behind::<P>(alloc, &TWO_RUNS)?;
    let found = numbers(flash.posted(), FOUND_BYTES)?;
    holds(entries_of(&found) == FOUR_FREEZES, "the entries", place)?;
    same(u64::from(found[12]), 1, "the epoch")?;
    check_one_read(flash.posted(), 0)?;
    let pages = pages_left(alloc, &flash)?;
    let later = behind_pages::<P>(alloc, pages, &[Step::Retrieve(0)], "0")?;
    let reads = reads_of(later.posted(), FOUND_BYTES, 0)?;
    holds(2 <= reads && reads <= 5, "the reads of a Retrieve", place)?;
    let mut want = Vec::new(alloc);
    push_found(&mut want, 2, reads, &ABC)?;
    let is_so = later.posted().get(20..) == want.get(20..);
    holds(is_so, "the data", place)
}

// The place of the erase of this block that comes last among the marks.
fn last_erase(flash: &Flash, wanted: u32) -> Option<usize> {
    let mut last = None;
    for i in 0..flash.marks() {
        if let Mark::Erase { block } = flash.mark(i) {
            if *block == wanted {
                last = Some(i);
            }
        }
    }
    last
}

/// Roots fill block 1, and block 0 is erased for the next install: cut there, with its pages
/// unchanged, Erased and Torn by turns, opening takes the newest root, of block 1: the next one is
/// programmed to block 0. Every key whose record was posted exists.
pub fn roots_fill_a_block<P: Program>(alloc: Global) -> Result<(), Fail> {
    let flash = behind::<P>(alloc, &[Step::Stores(240)])?;
    let k = last_erase(&flash, 0).ok_or("an erase of block 0")?;
    let left = by_turns(alloc)?;
    let pages = cut(alloc, &flash, k, &left)?;
    let later = behind_pages::<P>(alloc, pages, &[Step::List, Step::Report], "36")?;
    let keys = numbers(later.posted(), 0)?[2];
    let told = bytes_out(&flash, k).div_ceil(24).min(1000) as u32;
    let is_so = told <= keys && keys <= 240 && keys > 0;
    holds(is_so, "the keys", Place::Mark(k))?;
    let pages = cut(alloc, &flash, k, &left)?;
    let next = behind_pages::<P>(alloc, pages, &[Step::Stores(1)], "36")?;
    same(
        u64::from(first_root(&next)?),
        0,
        "the page of the next root",
    )
}

// The page of the first root that a session programs; the two blocks of the roots come first on a flash.
fn first_root(flash: &Flash) -> Result<u32, Fail> {
    let block_pages = worked()?.block_pages();
    for mark in 0..flash.marks() {
        if let Mark::Program { page, .. } = flash.mark(mark) {
            if *page < block_pages.saturating_mul(2) {
                return Ok(*page);
            }
        }
    }
    Err(Fail::new("a root"))
}

// ---- on flashes made by hand

/// Serves this script on these pages.
pub fn serve_layered<P: Program>(
    alloc: Global,
    layered: &Layered,
    pages: Vec<PageState>,
    script: Vec<u8>,
) -> Result<Session, Fail> {
    Ok(serve::<P>(alloc, long_board(alloc, layered.shape()?, pages, script)?))
}

// The numbers of entries in a Report.
fn entries_of(report: &[u32; 16]) -> [u32; 6] {
    [
        report[6], report[7], report[8], report[9], report[10], report[11],
    ]
}

// The same of lists.
fn entries_in(lists: &Lists) -> [u32; 6] {
    [
        u32::from(lists.active),
        u32::from(lists.frozen),
        u32::from(lists.runs[0]),
        u32::from(lists.runs[1]),
        u32::from(lists.runs[2]),
        u32::from(lists.runs[3]),
    ]
}

// The Report that ends the posted bytes has the entries of these lists.
fn check_entries(posted: &[u8], lists: &Lists, place: Place) -> Result<(), Fail> {
    let found = entries_of(&numbers(posted, 0)?);
    holds(found == entries_in(lists), "the entries", place)
}

// On these pages the keys are those of the flash that was made, and the one that was stored; and
// the lists have these numbers of entries.
fn check_lists<P: Program>(
    alloc: Global,
    layered: &Layered,
    pages: Vec<PageState>,
    want: &Wanted,
    place: Place,
) -> Result<(), Fail> {
    let script = script_of(alloc, &[Step::List, Step::Report])?;
    let session = serve_layered::<P>(alloc, layered, pages, script)?;
    ended(&session, DONE, place)?;
    let keys = layered.keys_listed(alloc, want.stored)?;
    let posted = session.flash.posted();
    let found = posted.get(24..).unwrap_or(&[]);
    holds(found.starts_with(&keys), "the keys", place)?;
    check_entries(posted, &want.lists, place)
}

// The session that makes all merges: the lists are empty but for run 4 and the outputs of the last three, and no merge is begun.
fn all_merges<P: Program>(alloc: Global, layered: &Layered) -> Result<Flash, Fail> {
    let place = Place::Named("all merges");
    let script = script_of(alloc, &[Step::Tick(5000), Step::Report])?;
    let session = serve_layered::<P>(alloc, layered, layered.pages(alloc)?, script)?;
    let flash = ended_well(session, place)?;
    check_entries(flash.posted(), &layered.lists.behind(4), place)?;
    let numbers = numbers(flash.posted(), 0)?;
    same(u64::from(numbers[15]), 0, "a merge")?;
    Ok(flash)
}

// What exists if this mark is interrupted and leaves this: each merge and the freeze are made whose
// root is there; and if a key is stored, it exists if the commit with its entry, whose pages are
// programmed last, is there.
fn wanted_behind(
    layered: &Layered,
    flash: &Flash,
    stored: Option<u16>,
    k: usize,
    left: &Left,
) -> Wanted {
    let roots = roots_behind(flash, &layered.sizes, k, left);
    let lists = layered.lists.behind(roots);
    match last_program(flash) {
        Some(second) if is_pair_there(second.saturating_sub(1), k, left) => {
            lists.with_stored(stored)
        }
        _ => lists.with_stored(None),
    }
}

/// Each mark of a session that makes merges, or stores this key after a freeze, is interrupted in
/// some ways; and how many cuts these are.
pub fn check_marks<P: Program>(
    alloc: Global,
    layered: &Layered,
    flash: &Flash,
    stored: Option<u16>,
) -> Result<u32, Fail> {
    let mut cuts = 0u32;
    for k in 0..flash.marks().saturating_add(1) {
        for left in &ways(alloc, flash, k)? {
            let want = wanted_behind(layered, flash, stored, k, left);
            let pages = cut(alloc, flash, k, left)?;
            check_lists::<P>(alloc, layered, pages, &want, Place::Mark(k))?;
            cuts = cuts.saturating_add(1);
        }
    }
    Ok(cuts)
}

/// Merges into levels 4, 3, 2 and 1 in one session, which is cut at every mark: the keys are the
/// same after each cut, and the lists are those of the newest root.
pub fn every_cut_of_merges<P: Program>(alloc: Global) -> Result<(), Fail> {
    let mut cuts = 0u32;
    for layered in &FLASHES {
        let flash = all_merges::<P>(alloc, layered)?;
        cuts = cuts.saturating_add(check_marks::<P>(alloc, layered, &flash, None)?);
    }
    at_least(cuts, 500, "cuts")
}
