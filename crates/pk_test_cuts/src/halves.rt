//! Background steps that leave a pair half made, and the commands that come then.

use pk_flash::{Flash, Left};
use pk_nand::{Mark, PageState};
use pk_test_scripts::boards::{cut, made, pages_left};
use pk_test_scripts::cuts::bytes_out;
use pk_test_scripts::exits::DONE;
use pk_test_scripts::overwritten::all_with;
use pk_test_scripts::script::{Answer, Ask, Value, records};
use pk_test_scripts::steps::{MAKE_SMALL, ask_small, at_least, ended_well, holds};
use pk_test_scripts::ways::few_ways;
use pk_test_scripts::{Place, Program, same};
use std::alloc::Global;
use std::test::*;

const OLD: Value = Value { first: 1, len: 100 };

const LATER: Value = Value { first: 2, len: 100 };

const NEW: Value = Value { first: 3, len: 100 };

// ---- the pairs of a trail

// The page of a root or of a commit that the mark with this number programs.
fn relied_on(flash: &Flash, k: usize) -> Option<u32> {
    if k >= flash.marks() {
        return None;
    }
    match flash.mark(k) {
        Mark::Program { page, bytes } => {
            let text = bytes.bytes();
            if text.starts_with(b"PINKROOT") || text.starts_with(b"PINKJRNL") {
                Some(*page)
            } else {
                None
            }
        }
        _ => None,
    }
}

// The next program or erase after this mark.
fn next_change(flash: &Flash, mark: usize) -> Option<usize> {
    for i in mark.saturating_add(1)..flash.marks() {
        if !matches!(flash.mark(i), Mark::Post { .. }) {
            return Some(i);
        }
    }
    None
}

// Each root and each commit is programmed to both pages of a pair, and nothing else is programmed or erased between the two programs: how
// many pairs have a post between them, so that a command was answered while they were half made.
fn half_made(flash: &Flash, place: Place) -> Result<u32, Fail> {
    let mut count = 0u32;
    for i in 0..flash.marks() {
        match relied_on(flash, i) {
            Some(page) if page % 2 == 0 => {
                let next = next_change(flash, i).ok_or("a second program")?;
                let second = relied_on(flash, next);
                holds(
                    second == Some(page.saturating_add(1)),
                    "the second page",
                    place,
                )?;
                if next > i.saturating_add(1) {
                    count = count.saturating_add(1);
                }
            }
            _ => {}
        }
    }
    Ok(count)
}

// ---- what is there

// The values of six keys.
type Held = [Option<Value>; 6];

const KEYS: [u8; 6] = [0x61, 0x62, 0x63, 0x64, 0x65, 0x66];

const RETRIEVES: [Ask; 6] = [
    Ask::Retrieve(0x61),
    Ask::Retrieve(0x62),
    Ask::Retrieve(0x63),
    Ask::Retrieve(0x64),
    Ask::Retrieve(0x65),
    Ask::Retrieve(0x66),
];

// The same after this command.
fn after(held: &Held, ask: &Ask) -> Held {
    let mut next = *held;
    if let Ask::Store(key, value) = ask {
        for i in 0..KEYS.len() {
            if KEYS[i] == *key {
                next[i] = Some(*value);
            }
        }
    }
    next
}

fn answer(value: Option<Value>) -> Answer {
    match value {
        Some(value) => Answer::Found(value),
        None => Answer::Missing,
    }
}

// The records of the Retrieves.
fn found(alloc: Global, held: &Held) -> Result<Vec<u8>, Fail> {
    let [first, second, third, fourth, fifth, sixth] = *held;
    let answers = [
        answer(first),
        answer(second),
        answer(third),
        answer(fourth),
        answer(fifth),
        answer(sixth),
    ];
    Ok(records(alloc, &answers)?)
}

// A session: what is there before it, and its commands, the record of each of which has 24 bytes.
#[derive(Drop)]
struct Asked {
    before: Held,
    asks: Vec<Ask>,
    flash: Flash,
}

// Whether these are the records of the Retrieves on what exists after some of the commands, at
// least this many.
fn are_kept(alloc: Global, asked: &Asked, posted: &[u8], least: usize) -> Result<bool, Fail> {
    let mut held = asked.before;
    for i in 0..asked.asks.len().saturating_add(1) {
        if i >= least && posted == found(alloc, &held)?.as_slice() {
            return Ok(true);
        }
        if let Some(ask) = asked.asks.get(i) {
            held = after(&held, ask);
        }
    }
    Ok(false)
}

fn check_cut<P: Program>(alloc: Global, asked: &Asked, k: usize, left: &Left) -> Result<(), Fail> {
    let pages = cut(alloc, &asked.flash, k, left)?;
    let next = ask_small::<P>(alloc, pages, &RETRIEVES)?;
    let least = bytes_out(&asked.flash, k).div_ceil(24);
    let is_kept = are_kept(alloc, asked, next.flash.posted(), least)?;
    let is_so = next.status == DONE && is_kept;
    holds(is_so, "the status, or what is there", Place::Mark(k))
}

// Interrupts each mark from the first post on, in all ways of a program: how many cuts these are.
fn check_cuts<P: Program>(alloc: Global, asked: &Asked) -> Result<u32, Fail> {
    let mut cuts = 0u32;
    for k in 0..asked.flash.marks().saturating_add(1) {
        if bytes_out(&asked.flash, k) > 0 {
            for left in &few_ways(alloc, &asked.flash, k)? {
                check_cut::<P>(alloc, asked, k, left)?;
                cuts = cuts.saturating_add(1);
            }
        }
    }
    Ok(cuts)
}

// The session of these commands on these pages, which is to answer each with success. What a Store reads that finishes a merge or a reclaim
// is its own.
fn session_with<P: Program>(
    alloc: Global,
    pages: Vec<PageState>,
    before: Held,
    asks: Vec<Ask>,
    steps: u32,
) -> Result<Asked, Fail> {
    let place = Place::Way(asks.len(), steps);
    let session = ask_small::<P>(alloc, pages, &asks)?;
    let flash = ended_well(session, place)?;
    let posted = flash.posted();
    let count = asks.len().min(100) as u32;
    let end = all_with(posted, 0, count, 0)?;
    holds(end == posted.len(), "the records", place)?;
    Ok(Asked {
        before,
        asks,
        flash,
    })
}

fn asks_of(alloc: Global, parts: &[&[Ask]]) -> Result<Vec<Ask>, Fail> {
    let mut asks = Vec::new(alloc);
    for part in parts {
        asks.extend_from_slice(part)?;
    }
    Ok(asks)
}

// ---- roots

// A session freezes the key of an earlier one, makes this many steps of the merge of it, and stores
// a further key.
fn merging<P: Program>(alloc: Global, steps: u32) -> Result<Asked, Fail> {
    let first = ask_small::<P>(
        alloc,
        made::<P>(alloc, &MAKE_SMALL)?,
        &[Ask::Store(0x61, OLD)],
    )?;
    let first = ended_well(first, Place::Named("the first session"))?;
    let asks = [
        Ask::Store(0x62, LATER),
        Ask::Tick(steps),
        Ask::Store(0x63, NEW),
        Ask::Flush,
    ];
    let before = [Some(OLD), None, None, None, None, None];
    let pages = pages_left(alloc, &first)?;
    Ok(session_with::<P>(alloc, pages, before, asks_of(alloc, &[&asks])?, steps)?)
}

/// The root of a merge is programmed in two steps. After any number of steps a Store comes: exactly
/// once the root is half made then, and the Store makes its second program before anything else.
/// Each session is cut at every mark.
pub fn root_of_a_merge<P: Program>(alloc: Global) -> Result<(), Fail> {
    let mut halves = 0u32;
    let mut cuts = 0u32;
    for steps in 0..12u32 {
        let asked = merging::<P>(alloc, steps)?;
        halves = halves.saturating_add(half_made(&asked.flash, Place::Way(0, steps))?);
        cuts = cuts.saturating_add(check_cuts::<P>(alloc, &asked)?);
    }
    same(u64::from(halves), 1, "half made roots")?;
    at_least(cuts, 300, "cuts")
}

// ---- the commit of moves

// Six keys, two of which are overwritten, fill both blocks that values may have.
const FILLING: [Ask; 8] = [
    Ask::Store(0x61, OLD),
    Ask::Store(0x62, OLD),
    Ask::Store(0x63, OLD),
    Ask::Store(0x64, OLD),
    Ask::Store(0x65, OLD),
    Ask::Store(0x66, OLD),
    Ask::Store(0x61, LATER),
    Ask::Store(0x62, LATER),
];

// A session fills the drive, makes this many steps of a reclaim, and overwrites a key, whose value
// the reclaim may have copied.
fn reclaiming<P: Program>(alloc: Global, steps: u32) -> Result<Asked, Fail> {
    let asks = [Ask::Tick(steps), Ask::Store(0x63, NEW), Ask::Flush];
    let pages = made::<P>(alloc, &MAKE_SMALL)?;
    Ok(session_with::<P>(
        alloc,
        pages,
        [None; 6],
        asks_of(alloc, &[&FILLING, &asks])?,
        steps,
    )?)
}

/// The commit of a reclaim's moves is programmed in two steps. After any number of steps a Store
/// comes: exactly once the commit is half made then, and the Store makes its second program before
/// anything else. Each session is cut at every mark.
pub fn commit_of_moves<P: Program>(alloc: Global) -> Result<(), Fail> {
    let mut halves = 0u32;
    let mut cuts = 0u32;
    for steps in 0..24u32 {
        let asked = reclaiming::<P>(alloc, steps)?;
        halves = halves.saturating_add(half_made(&asked.flash, Place::Way(0, steps))?);
        cuts = cuts.saturating_add(check_cuts::<P>(alloc, &asked)?);
    }
    same(u64::from(halves), 1, "half made commits")?;
    at_least(cuts, 600, "cuts")
}
