//! A session of which each call of a file stops the machine, or fails once: each command that was answered is there after whatever a loss
//! of power leaves, and the others are there from the first on or not at all.

use crate::disks::{Ended, InMemory, disks_of, made_image, serve_over};
use crate::map::Map;
use crate::outcomes::{Play, Tally, try_chances, try_outcomes};
use pk_test_disks::{Effect, Fails, Random};
use pk_test_scripts::boards::{served, small};
use pk_test_scripts::exits::DONE;
use pk_test_scripts::script::{Ask, Value};
use pk_test_scripts::steps::MAKE_SMALL;
use pk_test_scripts::{holds, made, same};
use std::alloc::Global;
use std::test::*;

/// Stores of new keys and of keys that have values, a Delete, and Flushes: more than the log takes
/// before it is emptied.
pub const STORES: [Ask; 10] = [
    Ask::Store(0x61, Value { first: 1, len: 3 }),
    Ask::Store(0x62, Value { first: 2, len: 990 }),
    Ask::Flush,
    Ask::Store(0x61, Value { first: 3, len: 900 }),
    Ask::Store(0x63, Value { first: 4, len: 0 }),
    Ask::Delete(0x62),
    Ask::Flush,
    Ask::Store(0x64, Value { first: 5, len: 800 }),
    Ask::Store(0x62, Value { first: 6, len: 600 }),
    Ask::Store(0x66, Value { first: 7, len: 980 }),
];

const PLAY: Play<'static> = Play {
    before: Map::EMPTY,
    asks: &STORES,
};

// Outcomes by chance after each session of which one call fails.
const TIMES: u32 = 4;

// The session over the image of a made drive and no byte of a log; None if they are not opened.
fn stores(
    alloc: Global,
    image: &[u8],
    is_mixing: bool,
    fails: (Fails, Fails),
) -> Result<Option<Ended>, Fail> {
    let disks = disks_of(alloc, (&[], fails.0), (image, fails.1), is_mixing)?;
    serve_over(alloc, &STORES, disks)
}

/// A session over disks posts what it posts over the board in memory, and all of it is sent.
#[test]
fn as_in_memory(rt: HostRuntime) -> Result<(), Fail> {
    let alloc = rt.alloc();
    let wanted = served::<InMemory>(
        alloc,
        small()?,
        made::<InMemory>(alloc, &MAKE_SMALL)?,
        &STORES,
    )?;
    let image = made_image(alloc)?;
    for is_mixing in [true, false] {
        let ended = stores(alloc, &image, is_mixing, (Fails::Never, Fails::Never))?.ok_or(
            "no session",
        )?;
        same(ended.status, DONE, "a session")?;
        same(ended.sent.as_slice(), wanted.flash.posted(), "its records")?;
        same(ended.answered(), STORES.len(), "its commands")?;
        let mut tally = Tally::NONE;
        try_outcomes(alloc, &PLAY, &ended, &mut tally)?;
        same(tally.wrong, 0, "wrong outcomes")?;
    }
    Ok(())
}

// A call of one of both files.
fn calls_of(is_log: bool, fails: Fails) -> (Fails, Fails) {
    if is_log {
        (fails, Fails::Never)
    } else {
        (Fails::Never, fails)
    }
}

// How many calls of a file the whole session makes.
fn count_calls(alloc: Global, image: &[u8], is_mixing: bool, is_log: bool) -> Result<u32, Fail> {
    let ended = stores(alloc, image, is_mixing, (Fails::Never, Fails::Never))?.ok_or("no session")?;
    let disks = &ended.disks;
    Ok(if is_log {
        disks.log.calls()
    } else {
        disks.image.calls()
    })
}

// What sessions sent of which one call failed.
#[derive(Clone, Copy, Debug, PartialEq, Eq)]
struct Sent {
    // None of a file that was not opened, and then how many commands.
    unopened: u32,
    least: usize,
    most: usize,
}

impl Sent {
    const NONE: Sent = Sent {
        unopened: 0,
        least: STORES.len(),
        most: 0,
    };

    fn note(&mut self, ended: &Ended) {
        self.least = self.least.min(ended.answered());
        self.most = self.most.max(ended.answered());
    }
}

// Each call of a file stops the machine, and the extremes of what remains are read.
fn try_stops(
    alloc: Global,
    is_mixing: bool,
    is_log: bool,
    tally: &mut Tally,
) -> Result<Sent, Fail> {
    let image = made_image(alloc)?;
    let mut sent = Sent::NONE;
    for call in 0..count_calls(alloc, &image, is_mixing, is_log)? {
        let fails = calls_of(is_log, Fails::From(call));
        match stores(alloc, &image, is_mixing, fails)? {
            Some(ended) => {
                sent.note(&ended);
                try_outcomes(alloc, &PLAY, &ended, tally)?;
            }
            None => sent.unopened = sent.unopened.saturating_add(1),
        }
    }
    Ok(sent)
}

fn stops_of(is_log: bool, alloc: Global) -> Result<(), Fail> {
    for is_mixing in [true, false] {
        let mut tally = Tally::NONE;
        let sent = try_stops(alloc, is_mixing, is_log, &mut tally)?;
        same(tally.wrong, 0, "wrong outcomes")?;
        holds(
            tally.outcomes > 500,
            format_args!("outcomes: {}", tally.outcomes),
        )?;
        same(sent.least, 0, "a session that sends nothing")?;
        holds(sent.most > STORES.len() / 2, "a session that sends most")?;
    }
    Ok(())
}

#[test]
fn log_stopped(rt: HostRuntime) -> Result<(), Fail> {
    stops_of(true, rt.alloc())
}

#[test]
fn image_stopped(rt: HostRuntime) -> Result<(), Fail> {
    stops_of(false, rt.alloc())
}

// One call of a file fails, in this way, and the session goes on or ends as it does then.
fn try_failures(
    alloc: Global,
    is_mixing: bool,
    is_log: bool,
    effect: Effect,
    tally: &mut Tally,
) -> Result<Sent, Fail> {
    let image = made_image(alloc)?;
    let mut sent = Sent::NONE;
    let mut random = Random::new(1);
    for call in 0..count_calls(alloc, &image, is_mixing, is_log)? {
        let fails = calls_of(is_log, Fails::Once(call, effect));
        match stores(alloc, &image, is_mixing, fails)? {
            Some(ended) => {
                sent.note(&ended);
                try_chances(alloc, &PLAY, &ended, TIMES, &mut random, tally)?;
            }
            None => sent.unopened = sent.unopened.saturating_add(1),
        }
    }
    Ok(sent)
}

/// Each call of a file fails once: no command that was answered is lost.
#[test]
fn each_call_fails(rt: HostRuntime) -> Result<(), Fail> {
    let mut tally = Tally::NONE;
    for effect in [Effect::Nothing, Effect::Half, Effect::Everything] {
        for is_mixing in [true, false] {
            for is_log in [true, false] {
                let sent = try_failures(rt.alloc(), is_mixing, is_log, effect, &mut tally)?;
                holds(sent.unopened >= 3, "files that are not opened")?;
                holds(sent.least < STORES.len(), "a session that fails")?;
            }
        }
    }
    same(tally.wrong, 0, "wrong outcomes")?;
    holds(tally.outcomes > 500, "outcomes")
}
