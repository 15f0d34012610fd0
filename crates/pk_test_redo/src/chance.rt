//! Sessions that chance stops, and what chance leaves of their files; and sessions over what remains.

use pk_test_disks::{Fails, Random};
use pk_test_logs::{
    After, Done, FailingCalls, Files, Moments, NO_FAILURE, Seen, deeds_of, fresh_session, further,
    is_cut, is_image_alone, try_chances,
};
use std::alloc::Global;
use std::test::Fail;

// Sessions, and outcomes after each of the three of one. Each session has a number, from this one on,
// with which its sequence of numbers begins.
const SESSIONS: u32 = 500;

const TIMES: u32 = 10;

const SEED: u32 = 0;

// What was found in all sessions.
#[derive(Clone, Copy)]
struct Totals {
    seen: Seen,
    moments: Moments,
}

// Both files stop somewhere after they were opened.
fn any_stop(random: &mut Random) -> FailingCalls {
    FailingCalls {
        log: Fails::From(random.below(60) as u32 + 2),
        image: Fails::From(random.below(150) as u32 + 2),
    }
}

// A session over what remains of the files of one, of which these calls fail.
fn try_further(
    alloc: Global,
    done: &Done,
    files: &Files,
    failing: FailingCalls,
    random: &mut Random,
    totals: &mut Totals,
) -> Result<(Done, Files), Fail> {
    let deeds = deeds_of(alloc, random.seed())?;
    let (next, left) = further(alloc, files, &deeds, failing, random)?.ok_or("refused")?;
    if !is_cut(alloc, done, &next.start)? {
        return Err("other pages are read".into());
    }
    totals.moments.note(&left.log, &left.image, TIMES);
    try_chances(alloc, &next, &left, TIMES, random, &mut totals.seen)?;
    Ok((next, left))
}

// A session that chance stops, one over what remains that chance stops too, and one that comes to its
// end.
fn try_session(alloc: Global, number: u32, totals: &mut Totals) -> Result<(), Fail> {
    let mut random = Random::new(number);
    let deeds = deeds_of(alloc, random.seed())?;
    let failing = any_stop(&mut random);
    let (done, files) = fresh_session(alloc, number % 2 == 0, failing, &deeds, After::Stops)?.ok_or(
        "the files are refused",
    )?;
    totals.moments.note(&files.log, &files.image, TIMES);
    try_chances(alloc, &done, &files, TIMES, &mut random, &mut totals.seen)?;
    let failing = any_stop(&mut random);
    let (next, left) = try_further(alloc, &done, &files, failing, &mut random, totals)?;
    let (last, left) = try_further(alloc, &next, &left, NO_FAILURE, &mut random, totals)?;
    if !is_image_alone(alloc, &last, &left)? {
        return Err("the image alone is not the drive".into());
    }
    Ok(())
}

#[test]
fn random_outcomes(rt: HostRuntime) -> Result<(), Fail> {
    let mut totals = Totals {
        seen: Seen::NONE,
        moments: Moments::NONE,
    };
    for number in 0..SESSIONS {
        try_session(rt.alloc(), SEED.wrapping_add(number), &mut totals)?;
    }
    let (seen, moments) = (totals.seen, totals.moments);
    assert_eq!(rt; seen.wrong, 0);
    assert_eq!(rt; seen.outcomes, 3 * TIMES as u64 * SESSIONS as u64);
    let least = SESSIONS as u64;
    assert!(rt;
        moments.checkpoints > least && moments.barriers > least,
        "{moments:?}"
    );
    assert!(rt; moments.extensions > least / 10, "{moments:?}");
    println!(rt;
        "{SESSIONS} sessions from number {SEED} on, {} outcomes: {moments:?}",
        seen.outcomes
    )?;
    Ok(())
}
