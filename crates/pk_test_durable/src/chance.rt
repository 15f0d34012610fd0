//! Sessions of random commands that chance stops, and what chance leaves of their files; and sessions over what remains.

use crate::disks::{Ended, disks_of, made_image, serve_over};
use crate::map::{FIRST_KEY, KEYS, Map};
use crate::outcomes::{Play, Tally, found_after, left_of, try_chances};
use pk_test_disks::{Fails, Random, any_left};
use pk_test_logs::Moments;
use pk_test_scripts::script::{Ask, Value};
use std::alloc::{AllocError, Global};
use std::test::Fail;

// Sessions over a made drive, and outcomes after each of the two of one. Each session has a number,
// from this one on, with which its sequence of numbers begins.
const SESSIONS: u32 = 60;

const TIMES: u32 = 10;

const SEED: u32 = 0;

// Calls of a file while it is opened, at most.
const OPENING: u32 = 5;

// Bytes of a value, fewer than these; the drive takes 992.
const MOST_BYTES: usize = 993;

// Commands of a session.
const ASKS: usize = 9;

fn any_key(random: &mut Random) -> u8 {
    FIRST_KEY + random.below(KEYS) as u8
}

fn any_ask(random: &mut Random) -> Ask {
    match random.below(8) {
        0 => Ask::Delete(any_key(random)),
        1 => Ask::Flush,
        2 => Ask::Tick(random.below(6) as u32),
        _ => Ask::Store(
            any_key(random),
            Value {
                first: random.byte(),
                len: random.below(MOST_BYTES) as u32,
            },
        ),
    }
}

fn any_asks(random: &mut Random) -> [Ask; ASKS] {
    let mut asks = [Ask::Flush; ASKS];
    for i in 0..ASKS {
        asks[i] = any_ask(random);
    }
    asks
}

// Both files stop somewhere after they were opened.
fn any_stop(random: &mut Random) -> (Fails, Fails) {
    (
        Fails::From(random.below(70) as u32 + OPENING),
        Fails::From(random.below(70) as u32 + OPENING),
    )
}

// What was found in all sessions.
#[derive(Clone, Copy)]
struct Totals {
    tally: Tally,
    moments: Moments,
}

// Reads what chance leaves of the files of a session.
fn try_left(
    alloc: Global,
    play: &Play,
    ended: &Ended,
    random: &mut Random,
    totals: &mut Totals,
) -> Result<(), Fail> {
    let disks = &ended.disks;
    totals.moments.note(&disks.log, &disks.image, TIMES);
    try_chances(alloc, play, ended, TIMES, random, &mut totals.tally)
}

// What chance leaves of the files of a session is opened, and a session of random commands over it is
// stopped; the map that it began with.
fn go_on(
    alloc: Global,
    play: &Play,
    ended: &Ended,
    asks: &[Ask],
    random: &mut Random,
) -> Result<(Map, Ended), Fail> {
    let log = any_left(random, &ended.disks.log);
    let image = any_left(random, &ended.disks.image);
    let count = found_after(alloc, play, ended, log, image)?.ok_or("another map")?;
    let disks = left_of(alloc, &ended.disks, log, image, any_stop(random))?;
    let next = serve_over(alloc, asks, disks)?.ok_or("files that are not opened")?;
    Ok((play.after(count), next))
}

// A session over a made drive, and two over what remains.
fn try_session(alloc: Global, image: &[u8], number: u32, totals: &mut Totals) -> Result<(), Fail> {
    let mut random = Random::new(number);
    let (first, second) = (any_asks(&mut random), any_asks(&mut random));
    let (log_fails, image_fails) = any_stop(&mut random);
    let disks = disks_of(
        alloc,
        (&[], log_fails),
        (image, image_fails),
        number % 2 == 0,
    )?;
    let ended = serve_over(alloc, &first, disks)?.ok_or("files that are not opened")?;
    let play = Play {
        before: Map::EMPTY,
        asks: &first,
    };
    try_left(alloc, &play, &ended, &mut random, totals)?;
    let (before, ended) = go_on(alloc, &play, &ended, &second, &mut random)?;
    let play = Play {
        before,
        asks: &second,
    };
    try_left(alloc, &play, &ended, &mut random, totals)
}

#[test]
fn random_outcomes(rt: HostRuntime) -> Result<(), Fail> {
    let mut totals = Totals {
        tally: Tally::NONE,
        moments: Moments::NONE,
    };
    let image = made_image(rt.alloc())?;
    for number in 0..SESSIONS {
        try_session(rt.alloc(), &image, SEED.wrapping_add(number), &mut totals)?;
    }
    let (tally, moments) = (totals.tally, totals.moments);
    assert_eq!(rt; tally.wrong, 0);
    assert_eq!(rt; tally.outcomes, 2 * TIMES as u64 * SESSIONS as u64);
    let least = SESSIONS as u64;
    assert!(rt;
        moments.checkpoints > least && moments.barriers > least,
        "{moments:?}"
    );
    println!(rt;
        "{SESSIONS} sessions from number {SEED} on, {} outcomes: {moments:?}",
        tally.outcomes
    )?;
    Ok(())
}
