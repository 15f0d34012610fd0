//! Sessions of which one call of a file fails, and which go on.

use pk_test_disks::{BASIC, Effect, Fails, Random};
use pk_test_logs::{
    After, Done, Files, Seen, WhichFile, failing_of, file_of, fresh_session, is_image_alone,
    try_chances, try_pairs, whole_session, worked_deeds,
};
use std::alloc::Global;
use std::test::Fail;

// Outcomes by chance after each session.
const TIMES: u32 = 3;

// What sessions did of which one call failed.
#[derive(Clone, Copy, Debug, PartialEq, Eq)]
struct Found {
    // The call failed while the files were opened.
    unopened: u32,
    // The session came to its end.
    over: u32,
    // It did not.
    lost: u32,
}

// One call failed, the call of the log within which it failed answered its error, and after a sync
// that failed nothing more was written to its file.
fn is_answered(done: &Done, files: &Files) -> bool {
    let failures = files.log.failures().saturating_add(files.image.failures());
    failures == 1
        && done.errors == 1
        && files.log.late_writes() == 0
        && files.image.late_writes() == 0
}

// Nothing is lost that was durable, whatever a loss of power leaves.
fn note_session(
    alloc: Global,
    done: &Done,
    files: &Files,
    found: &mut Found,
    seen: &mut Seen,
) -> Result<(), Fail> {
    if !is_answered(done, files) {
        return Err("a call that failed was not answered".into());
    }
    if done.is_over && !is_image_alone(alloc, done, files)? {
        return Err("the image alone is not the drive".into());
    }
    if done.is_over {
        found.over = found.over.saturating_add(1);
    } else {
        found.lost = found.lost.saturating_add(1);
    }
    let mut random = Random::new(found.lost);
    try_pairs(alloc, done, files, &BASIC, &BASIC, seen)?;
    try_chances(alloc, done, files, TIMES, &mut random, seen)?;
    Ok(())
}

// Each call of a file fails in this way, one in each session.
fn try_failures(
    alloc: Global,
    is_mixing: bool,
    which: WhichFile,
    effect: Effect,
    seen: &mut Seen,
) -> Result<Found, Fail> {
    let (_, files) = whole_session(alloc, is_mixing, &worked_deeds())?;
    let mut found = Found {
        unopened: 0,
        over: 0,
        lost: 0,
    };
    for call in 0..file_of(&files, which).calls() {
        let failing = failing_of(which, Fails::Once(call, effect));
        match fresh_session(alloc, is_mixing, failing, &worked_deeds(), After::GoesOn)? {
            Some((done, files)) => note_session(alloc, &done, &files, &mut found, seen)?,
            None => found.unopened = found.unopened.saturating_add(1),
        }
    }
    Ok(found)
}

// A call that fails while zeros are written ahead, or in a checkpoint before its sync, is made again.
#[test]
fn each_call_fails(rt: HostRuntime) -> Result<(), Fail> {
    let mut seen = Seen::NONE;
    for is_mixing in [true, false] {
        for effect in [Effect::Nothing, Effect::Half, Effect::Everything] {
            for which in [WhichFile::Log, WhichFile::Image] {
                let found = try_failures(rt.alloc(), is_mixing, which, effect, &mut seen)?;
                assert_eq!(rt; found.unopened, 2);
                assert!(rt; found.over >= 2 && found.lost >= 3, "{which:?} {found:?}");
            }
        }
    }
    assert_eq!(rt; seen.wrong, 0);
    assert!(rt; seen.outcomes > 5_000, "{seen:?}");
    Ok(())
}
