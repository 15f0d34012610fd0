//! A session that begins with a reclaim and a freeze inside it, with each of its calls failing in turn.

use crate::deep::{Before, Few, Trial, drive, few_board, held, in_all_ways, session, stored};
use pk_flash::{EraseLeft, Flash, Left, PageLeft};
use pk_nand::Mark;
use pk_nvme::status::{SUCCESSFUL_COMPLETION, UNRECOVERED_ERROR};
use pk_test_scripts::boards::{Session, pages_left, serve_board};
use pk_test_scripts::overwritten::{Record, record_at};
use pk_test_scripts::{Program, holds};
use std::alloc::{AllocError, Global};
use std::test::*;

// More calls than the session makes.
const MOST: u64 = 400;

// The result of a session in which a call failed, by its status and what else shows the kind of
// that call.
#[derive(Clone, Copy)]
enum Kind {
    // Status 0 with all records 00h: there is no such call.
    NoCall,
    // Status 0 with one record 88h.
    Read,
    // Status 4.
    Fetch,
    // Status 5.
    Post,
    // Status 6 with nothing posted and no mark.
    Opening,
    // Status 6, the last mark a program or an erase.
    Stop,
}

// How often each kind came.
#[derive(Clone, Copy)]
struct Kinds {
    reads: u64,
    fetches: u64,
    posts: u64,
    stops: u64,
}

const NONE: Kinds = Kinds {
    reads: 0,
    fetches: 0,
    posts: 0,
    stops: 0,
};

impl Kinds {
    fn with(self, kind: Kind) -> Kinds {
        let mut kinds = self;
        match kind {
            Kind::NoCall => {}
            Kind::Read | Kind::Opening => kinds.reads = kinds.reads.saturating_add(1),
            Kind::Fetch => kinds.fetches = kinds.fetches.saturating_add(1),
            Kind::Post => kinds.posts = kinds.posts.saturating_add(1),
            Kind::Stop => kinds.stops = kinds.stops.saturating_add(1),
        }
        kinds
    }
}

// The records that are posted whole: how many are of an unrecovered error; None if one is neither
// that nor a success.
fn unread(posted: &[u8], records: u32) -> Option<u32> {
    let mut at = 0usize;
    let mut unread = 0u32;
    for _ in 0..records {
        let Some(record) = record_at(posted, at) else {
            return Some(unread);
        };
        at = record.end();
        if record.status == u32::from(UNRECOVERED_ERROR) {
            unread = unread.saturating_add(1);
        } else if record.status != u32::from(SUCCESSFUL_COMPLETION) {
            return None;
        }
    }
    Some(unread)
}

// The record with this number, if it is posted.
fn record_of(posted: &[u8], number: u32) -> Option<Record> {
    let mut at = 0usize;
    for _ in 0..number {
        at = record_at(posted, at)?.end();
    }
    record_at(posted, at)
}

fn is_change(mark: &Mark) -> bool {
    matches!(mark, Mark::Program { .. } | Mark::Erase { .. })
}

fn ends_with_change(flash: &Flash) -> bool {
    let marks = flash.marks();
    marks > 0 && is_change(flash.mark(marks - 1))
}

fn is_idle(flash: &Flash) -> bool {
    flash.marks() == 0 && flash.posted().is_empty()
}

// All records of a session are posted.
fn is_whole(flash: &Flash, keys: u32) -> bool {
    record_of(flash.posted(), keys.saturating_add(1)).is_some()
}

// The kind of call that failed in this session on `keys` keys; None if its result fits none.
fn kind_of(done: &Session, keys: u32) -> Option<Kind> {
    let flash = &done.flash;
    let unread = unread(flash.posted(), keys.saturating_add(2))?;
    match (done.status, unread) {
        (0, 0) if is_whole(flash, keys) => Some(Kind::NoCall),
        (0, 1) => Some(Kind::Read),
        (4, 0) => Some(Kind::Fetch),
        (5, 0) => Some(Kind::Post),
        (6, 0) if is_idle(flash) => Some(Kind::Opening),
        (6, 0) if ends_with_change(flash) => Some(Kind::Stop),
        _ => None,
    }
}

// What the next session is to find, by the record of the Store.
fn behind(trial: &Trial, held: &[u8], posted: &[u8]) -> Result<Before, AllocError> {
    let keys = trial.few.keys;
    let record = record_of(posted, keys);
    let is_refused =
        matches!(record, Some(record) if record.status != u32::from(SUCCESSFUL_COMPLETION));
    Ok(Before {
        held: held.to_vec(trial.alloc)?,
        key: if is_refused { keys } else { 1 },
        first: stored(1),
        is_told: record.is_some(),
    })
}

// The session after one in which a call failed.
fn check_next<P: Program>(trial: &Trial, held: &[u8], flash: &Flash) -> Result<(), Fail> {
    let known = behind(trial, held, flash.posted())?;
    let pages = pages_left(trial.alloc, flash)?;
    let _ = session::<P>(trial, pages, &known, 2)?;
    Ok(())
}

// The session on this drive while this call fails, and the next one.
fn fails<P: Program>(
    trial: &Trial,
    drive: &Flash,
    held: &[u8],
    call: u64,
    way: u8,
) -> Result<Kind, Fail> {
    let done = served_with_fault::<P>(trial, drive, call, way)?;
    check_next::<P>(trial, held, &done.flash)?;
    match kind_of(&done, trial.few.keys) {
        Some(kind) => Ok(kind),
        None => Err(Fail::from("how a session ends in which a call fails")),
    }
}

// The board of the first session on this drive, of which this call fails.
fn board_with_fault(trial: &Trial, drive: &Flash, call: u64, way: u8) -> Result<Flash, Fail> {
    let left = left(trial.alloc, way)?;
    let pages = pages_left(trial.alloc, drive)?;
    let mut flash = few_board(trial, pages, 1)?;
    flash.fail(trial.alloc, call, left)?;
    Ok(flash)
}

fn served_with_fault<P: Program>(
    trial: &Trial,
    drive: &Flash,
    call: u64,
    way: u8,
) -> Result<Session, Fail> {
    let flash = board_with_fault(trial, drive, call, way)?;
    Ok(serve_board::<P>(trial.alloc, flash))
}

const KEPT: EraseLeft = EraseLeft::Kept;

const ERASED: EraseLeft = EraseLeft::Erased;

const TORN: EraseLeft = EraseLeft::Torn;

// Each of 16 pages Torn, unchanged or Erased by turns.
const FROM_TORN: [EraseLeft; 16] = [
    TORN, KEPT, ERASED, TORN, KEPT, ERASED, TORN, KEPT, ERASED, TORN, KEPT, ERASED, TORN, KEPT,
    ERASED, TORN,
];

fn left(alloc: Global, way: u8) -> Result<Left, AllocError> {
    match way {
        0 => Ok(Left::Untouched),
        1 => Ok(Left::Torn),
        2 => Ok(Left::Done),
        3 => Ok(Left::Each(FROM_TORN.to_vec(alloc)?)),
        4 => Ok(Left::WithEven(PageLeft::Untouched)),
        5 => Ok(Left::WithEven(PageLeft::Torn)),
        6 => Ok(Left::WithEven(PageLeft::Done)),
        _ => Ok(Left::Part(9)),
    }
}

// How many posts a session made.
fn posts_of(flash: &Flash) -> u64 {
    let mut posts = 0u64;
    for i in 0..flash.marks() {
        if !is_change(flash.mark(i)) {
            posts = posts.saturating_add(1);
        }
    }
    posts
}

// The kinds of all calls of the session on this drive, each of which fails in turn and leaves this.
fn kinds_of<P: Program>(trial: &Trial, drive: &Flash, held: &[u8], way: u8) -> Result<Kinds, Fail> {
    let mut kinds = NONE;
    for call in 0..MOST {
        kinds = kinds.with(fails::<P>(trial, drive, held, call, way)?);
    }
    Ok(kinds)
}

fn are_same(one: &Kinds, other: &Kinds) -> bool {
    one.reads == other.reads
        && one.fetches == other.fetches
        && one.posts == other.posts
        && one.stops == other.stops
}

// The kinds of calls that the whole session makes, with this many fetches.
fn wanted_kinds(flash: &Flash, fetches: u64) -> Kinds {
    Kinds {
        reads: flash.read_count(),
        fetches,
        posts: posts_of(flash),
        stops: flash.program_count().saturating_add(flash.erase_count()),
    }
}

// Each call fails in each way, if this is the board of the whole session: as many of each kind as
// that makes.
fn check_ways<P: Program>(
    trial: &Trial,
    drive: &Flash,
    held: &[u8],
    whole: &Flash,
) -> Result<(), Fail> {
    for way in 0..8u8 {
        let kinds = kinds_of::<P>(trial, drive, held, way)?;
        let wanted = wanted_kinds(whole, kinds.fetches);
        holds(
            are_same(&kinds, &wanted) && kinds.fetches > u64::from(trial.few.keys),
            "the kinds of calls that failed",
        )?;
    }
    Ok(())
}

fn check_drive<P: Program>(trial: &Trial, drive: &Flash) -> Result<(), Fail> {
    let before = held(trial)?;
    let pages = pages_left(trial.alloc, drive)?;
    let whole = session::<P>(trial, pages, &before, 1)?;
    check_ways::<P>(trial, drive, &before.held, &whole.flash)
}

/// Each call fails and leaves everything unchanged, a page or a block Torn, its work done, a block
/// page by page, the first page of a pair Torn with the second one unchanged, Torn or done, or a
/// part of a post. A read fails its command, or the opening; a fetch, a post, a program and an
/// erase end the run; and the next session finds what was answered.
pub fn each_call<P: Program>(alloc: Global, few: &Few) -> Result<(), Fail> {
    let part = in_all_ways(1);
    let trial = Trial {
        alloc,
        few,
        shape: few.shape()?,
        part: &part,
    };
    let drive = drive::<P>(&trial)?;
    check_drive::<P>(&trial, &drive)
}
