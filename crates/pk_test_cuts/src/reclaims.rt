//! Reclaims of drives that are full, cut at every mark, and with each flash operation failing in
//! turn.

use pk_base::Shape;
use pk_flash::{Flash, Left, PageLeft, Room};
use pk_nand::PageState;
use pk_nvme::opcode::FLUSH;
use pk_nvme::status::UNRECOVERED_ERROR;
use pk_test_scripts::boards::{Session, board_in, cut, made, pages_left, worked};
use pk_test_scripts::cuts::bytes_out;
use pk_test_scripts::exits::{DONE, FLASH, INPUT, OUTPUT};
use pk_test_scripts::overwritten::{
    OTHER, firsts, firsts_behind, overwrite, push_plain, push_retrieves, push_store, push_stores,
    record_at, value_of,
};
use pk_test_scripts::steps::{MAKE_SMALL, at_least, ended, ended_well, holds, serve, small};
use pk_test_scripts::ways::few_ways;
use pk_test_scripts::{MAKE_WORKED, Place, Program};
use std::alloc::Global;
use std::test::*;

// For first sessions.
const ROOM: Room = Room {
    posted: 131_072,
    marks: 6_000,
};

// For later sessions, which retrieve each key: of a drive of 64 blocks, and of one of 33.
const LATER: Room = Room {
    posted: 65_536,
    marks: 1_500,
};

const FEW: Room = Room {
    posted: 16_384,
    marks: 400,
};

// A drive that is full with n keys of two pages each, and how many commands are made before one
// that reclaims a block.
#[derive(Clone, Copy)]
struct Full {
    keys: u32,
    before: u32,
    is_small: bool,
}

// The first reclaim is made by the ninth command. By the 19th, which makes one too, the records of the first 15 are out.
const SMALL: Full = Full {
    keys: 6,
    before: 18,
    is_small: true,
};

// The first reclaim is made when all blocks for values but one are full, and each has eight values.
const WORKED: Full = Full {
    keys: 246,
    before: 328,
    is_small: false,
};

impl Full {
    fn shape(&self) -> Result<Shape, Fail> {
        Ok(if self.is_small { small()? } else { worked()? })
    }

    // The words that make it.
    fn words(&self) -> &'static [&'static str] {
        if self.is_small {
            &MAKE_SMALL
        } else {
            &MAKE_WORKED
        }
    }

    // The room of a later session.
    fn later(&self) -> Room {
        if self.is_small { FEW } else { LATER }
    }

    // Serves this script on these pages.
    fn serve<P: Program>(
        &self,
        alloc: Global,
        pages: Vec<PageState>,
        script: Vec<u8>,
        room: Room,
    ) -> Result<Session, Fail> {
        let flash = board_in(alloc, self.shape()?, pages, script, room)?;
        Ok(serve::<P>(alloc, flash))
    }

    // The session of the commands up to this one, on a made drive.
    fn commands<P: Program>(&self, alloc: Global, to: u32) -> Result<Flash, Fail> {
        let script = stores(alloc, self.keys, 0, to)?;
        let session = self.serve::<P>(alloc, made::<P>(alloc, self.words())?, script, ROOM)?;
        ended_well(session, Place::Named("the first session"))
    }

    // A script that retrieves each key.
    fn retrieves(&self, alloc: Global) -> Result<Vec<u8>, Fail> {
        let mut script = Vec::new(alloc);
        push_retrieves(&mut script, self.keys)?;
        Ok(script)
    }
}

// The Stores with these numbers, of this many keys.
fn stores(alloc: Global, keys: u32, from: u32, to: u32) -> Result<Vec<u8>, Fail> {
    let mut script = Vec::new(alloc);
    push_stores(&mut script, keys, from, to)?;
    Ok(script)
}

/// How many cuts of a first session were tried, and how many of the sessions after them.
#[derive(Clone, Copy)]
pub struct Cuts {
    pub first: u32,
    pub second: u32,
}

// How many commands were answered, at least a byte of the record of each, if this mark is
// interrupted.
fn told(flash: &Flash, k: usize) -> u32 {
    (bytes_out(flash, k) / 24).min(100_000) as u32
}

// The first bytes of the values that a session retrieved which is to end well.
fn found_in(alloc: Global, full: &Full, session: &Session, place: Place) -> Result<Vec<u8>, Fail> {
    ended(session, DONE, place)?;
    Ok(firsts(alloc, session.flash.posted(), 0, full.keys)?)
}

// The first bytes of the values that a session finds on these pages which retrieves each key.
fn values_on<P: Program>(
    alloc: Global,
    full: &Full,
    pages: Vec<PageState>,
    place: Place,
) -> Result<Vec<u8>, Fail> {
    let script = full.retrieves(alloc)?;
    let session = full.serve::<P>(alloc, pages, script, full.later())?;
    found_in(alloc, full, &session, place)
}

// How a first session is cut: of a drive like this, with at most this many commands, from this mark
// on. Of the cuts of the second session after each one, one of every n is made, none if `every` is
// 0; which ones goes on from cut to cut, and `turn`, below n, says with which they begin.
#[derive(Clone, Copy)]
struct Cutting {
    full: Full,
    most: u32,
    from: usize,
    every: u32,
    turn: u32,
}

// After how many commands, between these two numbers, these are the first bytes of the values of
// all keys, if the first bytes that are held are those after the least number of commands.
fn kept_from(held: &mut [u8], found: &[u8], keys: u32, least: u32, most: u32) -> Option<u32> {
    for command in least..most.saturating_add(1) {
        if *held == *found {
            return Some(command);
        }
        overwrite(held, keys, command);
    }
    None
}

// A session after its end, and the first bytes of the values that it retrieved.
#[derive(Drop)]
struct Behind {
    flash: Flash,
    found: Vec<u8>,
}

// The second session after this cut of the first one, which retrieves each key and then overwrites
// the first one: it finds the values after as many commands as the first session answered, or some
// more.
fn second<P: Program>(
    alloc: Global,
    cutting: &Cutting,
    first: &Flash,
    k: usize,
    left: &Left,
) -> Result<Behind, Fail> {
    let full = &cutting.full;
    let mut script = full.retrieves(alloc)?;
    push_store(&mut script, 0, &value_of(OTHER))?;
    push_plain(&mut script, FLUSH, 0)?;
    let pages = cut(alloc, first, k, left)?;
    let session = full.serve::<P>(alloc, pages, script, full.later())?;
    let found = found_in(alloc, full, &session, Place::Mark(k))?;
    let least = told(first, k);
    let mut held = firsts_behind(alloc, full.keys, least)?;
    let kept = kept_from(&mut held, &found, full.keys, least, cutting.most);
    holds(kept.is_some(), "the values", Place::Mark(k))?;
    Ok(Behind {
        flash: session.flash,
        found,
    })
}

// Whether these values are those of the second session, but for the first key's, which is the one
// that it stored if this was answered, and may be it otherwise.
fn is_kept(found: &[u8], held: &[u8], is_told: bool) -> bool {
    let is_new = found.first() == Some(&value_of(OTHER).first);
    let is_old = found.first() == held.first();
    found.get(1..) == held.get(1..) && (is_new || is_old && !is_told)
}

// The third session after this cut of the second one.
fn check_third<P: Program>(
    alloc: Global,
    full: &Full,
    second: &Behind,
    k: usize,
    left: &Left,
) -> Result<(), Fail> {
    let pages = cut(alloc, &second.flash, k, left)?;
    let found = values_on::<P>(alloc, full, pages, Place::Mark(k))?;
    // whether a byte is posted after the records of the Retrieves
    let retrieved = u64::from(full.keys).saturating_mul(124);
    let is_told = bytes_out(&second.flash, k) as u64 > retrieved;
    let is_so = is_kept(&found, &second.found, is_told);
    holds(is_so, "the values of the third session", Place::Mark(k))
}

// Some of the cuts of a second session, which take turns.
#[derive(Clone, Copy)]
struct Turns {
    every: u32,
    at: u32,
    taken: u32,
}

impl Turns {
    // Whether the next cut is to be made.
    fn take(&mut self) -> bool {
        self.at = self.at.wrapping_add(1);
        if self.every == 0 || self.at % self.every != 0 {
            return false;
        }
        self.taken = self.taken.saturating_add(1);
        true
    }
}

// Of all cuts of a second session one of every n: how many these are.
fn check_second<P: Program>(
    alloc: Global,
    cutting: &Cutting,
    second: &Behind,
    at: u32,
) -> Result<u32, Fail> {
    let mut turns = Turns {
        every: cutting.every,
        at,
        taken: 0,
    };
    for k in 0..second.flash.marks().saturating_add(1) {
        let ways = few_ways(alloc, &second.flash, k)?;
        for left in &ways {
            if turns.take() {
                check_third::<P>(alloc, &cutting.full, second, k, left)?;
            }
        }
    }
    Ok(turns.taken)
}

// Cuts the first session off at this mark, in some ways.
fn check_mark<P: Program>(
    alloc: Global,
    cutting: &Cutting,
    first: &Flash,
    k: usize,
    cuts: &mut Cuts,
) -> Result<(), Fail> {
    let ways = few_ways(alloc, first, k)?;
    for left in &ways {
        let second = second::<P>(alloc, cutting, first, k, left)?;
        if cutting.every > 0 {
            let at = cuts.first.wrapping_add(cutting.turn);
            let taken = check_second::<P>(alloc, cutting, &second, at)?;
            cuts.second = cuts.second.saturating_add(taken);
        }
        cuts.first = cuts.first.saturating_add(1);
    }
    Ok(())
}

// Cuts the first session at each mark after which all keys were answered, in some ways each.
fn check<P: Program>(alloc: Global, cutting: &Cutting, first: &Flash) -> Result<Cuts, Fail> {
    let mut cuts = Cuts {
        first: 0,
        second: 0,
    };
    for k in cutting.from..first.marks().saturating_add(1) {
        if told(first, k) >= cutting.full.keys {
            check_mark::<P>(alloc, cutting, first, k, &mut cuts)?;
        }
    }
    Ok(cuts)
}

// A reclaim of a full drive, cut at every mark: from before it to the end of the command that makes
// it.
fn check_one<P: Program>(alloc: Global, full: &Full, every: u32, turn: u32) -> Result<Cuts, Fail> {
    let before = full.commands::<P>(alloc, full.before)?;
    let cutting = Cutting {
        full: *full,
        most: full.before.saturating_add(1),
        // the last commit and its post are those of the end of the input
        from: before.marks().saturating_sub(4),
        every,
        turn,
    };
    let first = full.commands::<P>(alloc, cutting.most)?;
    check::<P>(alloc, &cutting, &first)
}

// One of every three cuts of the session after each cut of the first reclaim of a full drive of 64 blocks.
fn check_first_on_full<P: Program>(alloc: Global, turn: u32) -> Result<(), Fail> {
    let cuts = check_one::<P>(alloc, &WORKED, 3, turn)?;
    at_least(cuts.first, 70, "cuts")?;
    at_least(cuts.second, 4_000, "cuts after them")
}

/// The first reclaim of a full drive of 64 blocks, cut at every mark, and so the session after each one: this test and the two after it
/// take one of every three cuts of that session in turn, and make all of them together.
pub fn first_on_full<P: Program>(alloc: Global) -> Result<(), Fail> {
    check_first_on_full::<P>(alloc, 0)
}

/// The second third of them.
pub fn first_on_full_second_third<P: Program>(alloc: Global) -> Result<(), Fail> {
    check_first_on_full::<P>(alloc, 1)
}

/// The last third of them.
pub fn first_on_full_last_third<P: Program>(alloc: Global) -> Result<(), Fail> {
    check_first_on_full::<P>(alloc, 2)
}

/// The same, and of the cuts of the session after each one, of every mark in some ways, one in
/// `every`. This takes minutes.
pub fn first_on_full_twice<P: Program>(alloc: Global, every: u32) -> Result<Cuts, Fail> {
    check_one::<P>(alloc, &WORKED, every, 0)
}

/// A reclaim of a full drive of 33 blocks, cut off at every mark, and of the cuts of the session after each one, one of every four.
pub fn one_on_small<P: Program>(alloc: Global) -> Result<(), Fail> {
    let cuts = check_one::<P>(alloc, &SMALL, 4, 0)?;
    at_least(cuts.first, 40, "cuts")?;
    at_least(cuts.second, 500, "cuts after them")
}

// A session of n commands on a full drive of 33 blocks.
const OVERWRITES: Cutting = Cutting {
    full: SMALL,
    most: 60,
    from: 0,
    every: 0,
    turn: 0,
};

/// A full drive of 33 blocks takes overwrites, of which nearly each makes a reclaim, and some a
/// freeze inside it: it is cut at every mark after the Stores of all keys.
pub fn every_cut_of_reclaims<P: Program>(alloc: Global) -> Result<(), Fail> {
    let first = SMALL.commands::<P>(alloc, OVERWRITES.most)?;
    let cuts = check::<P>(alloc, &OVERWRITES, &first)?;
    at_least(cuts.first, 300, "cuts")
}

// ---- calls that fail

// The overwrites are the commands from the Stores of all keys up to this one.
const LAST: u32 = 40;

// Takes into the values of all keys the overwrites whose records these are: those that succeeded,
// and not one for which a flash operation failed. The first command whose record is missing.
fn replay(held: &mut [u8], posted: &[u8]) -> Result<u32, Fail> {
    let mut at = 0usize;
    let mut next = SMALL.keys;
    for command in SMALL.keys..LAST {
        if let Some(record) = record_at(posted, at) {
            if record.is_done() {
                overwrite(held, SMALL.keys, command);
            } else {
                let is_unread = record.status == u32::from(UNRECOVERED_ERROR);
                holds(is_unread, "the status of a record", Place::Call(0))?;
            }
            at = record.end();
            next = command.saturating_add(1);
        }
    }
    Ok(next)
}

// The drive is opened again after a call that failed, and has the values after the commands that
// were answered, or after some more.
fn check_behind<P: Program>(alloc: Global, flash: &Flash, call: u64) -> Result<(), Fail> {
    let mut held = firsts_behind(alloc, SMALL.keys, SMALL.keys)?;
    let next = replay(&mut held, flash.posted())?;
    let pages = pages_left(alloc, flash)?;
    let found = values_on::<P>(alloc, &SMALL, pages, Place::Call(call))?;
    let kept = kept_from(&mut held, &found, SMALL.keys, next, LAST);
    holds(kept.is_some(), "the values", Place::Call(call))
}

// Overwrites on the full drive of 33 blocks while the call with this number fails: whether there was one. The session read or wrote
// something, and ended well or with the status of a call that failed.
fn failing<P: Program>(alloc: Global, stored: &Flash, call: u64, left: Left) -> Result<bool, Fail> {
    let pages = pages_left(alloc, stored)?;
    let script = stores(alloc, SMALL.keys, SMALL.keys, LAST)?;
    let mut flash = board_in(alloc, small()?, pages, script, FEW)?;
    flash.fail(alloc, call, left)?;
    let session = serve::<P>(alloc, flash);
    check_behind::<P>(alloc, &session.flash, call)?;
    let is_one = [DONE, INPUT, OUTPUT, FLASH].contains(&session.status);
    let has_calls = session.flash.read_count() > 0 || session.flash.program_count() > 0;
    holds(is_one && has_calls, "the status", Place::Call(call))?;
    Ok(session.status != DONE || !is_done(session.flash.posted(), SMALL.keys, LAST))
}

// Whether each of these commands was done by its record.
fn is_done(posted: &[u8], from: u32, to: u32) -> bool {
    let mut at = 0usize;
    for _ in from..to {
        match record_at(posted, at) {
            Some(record) => {
                if !record.is_done() {
                    return false;
                }
                at = record.end();
            }
            None => return false,
        }
    }
    true
}

// What the call with this number leaves.
fn left_by(call: u64) -> Left {
    match call % 5 {
        0 => Left::Torn,
        1 => Left::Done,
        2 => Left::WithEven(PageLeft::Torn),
        3 => Left::WithEven(PageLeft::Untouched),
        _ => Left::WithEven(PageLeft::Done),
    }
}

/// Each call of a session of overwrites on a full drive of 33 blocks fails once, reads of opening,
/// fetches, values, entries, roots, copies, erases and posts: nothing that was answered is lost.
pub fn every_call_fails<P: Program>(alloc: Global) -> Result<(), Fail> {
    let stored = SMALL.commands::<P>(alloc, SMALL.keys)?;
    let mut failed = 0u32;
    for call in 0..600u64 {
        if failing::<P>(alloc, &stored, call, left_by(call))? {
            failed = failed.saturating_add(1);
        }
    }
    at_least(failed, 100, "calls that failed")
}
