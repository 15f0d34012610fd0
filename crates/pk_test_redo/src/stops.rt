//! Sessions that are stopped at each call of either file: whatever a loss of power leaves of both then, they are read as the pages after
//! some first steps of the session, with all before the last barrier that returned success.

use pk_test_disks::{Fails, Medium, Remains, last_len};
use pk_test_logs::{
    After, Deed, Done, Files, Seen, WhichFile, failing_of, file_of, fresh_session, is_image_alone,
    log_session, reopened, stopped_session, try_extremes, try_pairs, whole_session, worked_deeds,
};
use std::alloc::{AllocError, Global};
use std::process::Abort;
use std::test::Fail;

// Each extreme of what a loss of power leaves after each call of a file; after how many of them the
// drive was open.
fn try_stops(
    alloc: Global,
    is_mixing: bool,
    which: WhichFile,
    calls: u32,
    seen: &mut Seen,
) -> Result<u32, Fail> {
    let mut stops = 0u32;
    for call in 0..calls {
        let failing = failing_of(which, Fails::From(call));
        match fresh_session(alloc, is_mixing, failing, &worked_deeds(), After::Stops)? {
            Some((done, files)) => {
                try_extremes(alloc, &done, &files, seen)?;
                stops = stops.saturating_add(1);
            }
            None => {}
        }
    }
    Ok(stops)
}

// The first two calls of a file measure and read it. The image is synced at the first step, when the
// log is full, and at the end.
fn stops_of(
    rt: &impl Abort,
    alloc: Global,
    is_mixing: bool,
    which: WhichFile,
    seen: &mut Seen,
) -> Result<(), Fail> {
    let (done, files) = whole_session(alloc, is_mixing, &worked_deeds())?;
    assert!(rt; is_image_alone(alloc, &done, &files)?);
    assert_eq!(rt; done.steps.len(), 16);
    assert_eq!(rt; files.image.syncs(), 3);
    let calls = file_of(&files, which).calls();
    let stops = try_stops(alloc, is_mixing, which, calls, seen)?;
    assert_eq!(rt; stops.saturating_add(2), calls);
    assert!(rt; stops >= 20, "{which:?} {stops}");
    Ok(())
}

// Each stop, with one sync a barrier and with two.
#[test]
fn every_call(rt: HostRuntime) -> Result<(), Fail> {
    for is_mixing in [true, false] {
        let mut seen = Seen::NONE;
        stops_of(&rt, rt.alloc(), is_mixing, WhichFile::Log, &mut seen)?;
        stops_of(&rt, rt.alloc(), is_mixing, WhichFile::Image, &mut seen)?;
        assert_eq!(rt; seen.wrong, 0);
        assert!(rt; seen.outcomes > 10_000, "{seen:?}");
    }
    Ok(())
}

// Stops each call of a file of a session that opens these files and makes a checkpoint. The pages
// stay the same.
fn try_checkpoint(
    alloc: Global,
    before: &(Done, Files),
    deeds: &[Deed],
    which: WhichFile,
    seen: &mut Seen,
) -> Result<u32, Fail> {
    let mut stops = 0u32;
    for call in 2..1_000 {
        let failing = failing_of(which, Fails::From(call));
        let files = reopened(alloc, &before.1, failing)?;
        let Ok((done, files)) = log_session(alloc, files, deeds, After::Stops)? else {
            return Err("the files are refused".into());
        };
        if !done.start.is_same(&before.0.end) {
            return Err("other pages are read".into());
        }
        try_extremes(alloc, &done, &files, seen)?;
        if done.is_over {
            return Ok(stops);
        }
        stops = stops.saturating_add(1);
    }
    Ok(stops)
}

// The checkpoint at the first step after a log with steps was found, and the one at the end of a run
// without a step.
#[test]
fn checkpoint(rt: HostRuntime) -> Result<(), Fail> {
    for is_mixing in [true, false] {
        let before = stopped_session(rt.alloc(), is_mixing)?;
        let mut seen = Seen::NONE;
        for deeds in [[Deed::Room].as_slice(), &[]] {
            for which in [WhichFile::Log, WhichFile::Image] {
                let stops = try_checkpoint(rt.alloc(), &before, deeds, which, &mut seen)?;
                assert!(rt; stops >= 4, "{which:?} {stops}");
            }
        }
        assert_eq!(rt; seen.wrong, 0);
        assert!(rt; seen.outcomes > 1_000, "{seen:?}");
    }
    Ok(())
}

// All outcomes in which one byte of the last change is another one than was there or was written.
fn spoiled(alloc: Global, medium: &Medium) -> Result<Vec<Remains>, AllocError> {
    let mut all = Vec::new(alloc);
    for place in 0..last_len(medium) {
        all.push(Remains::ByteSpoiled(place))?;
    }
    Ok(all)
}

// Such outcomes after each call of a file.
fn try_spoiled(
    alloc: Global,
    is_mixing: bool,
    which: WhichFile,
    seen: &mut Seen,
) -> Result<(), Fail> {
    let (_, files) = whole_session(alloc, is_mixing, &worked_deeds())?;
    for call in 2..file_of(&files, which).calls() {
        let failing = failing_of(which, Fails::From(call));
        let Some((done, files)) = fresh_session(
            alloc,
            is_mixing,
            failing,
            &worked_deeds(),
            After::Stops,
        )?
        else {
            return Err("the files are refused".into());
        };
        let (log, image) = (spoiled(alloc, &files.log)?, spoiled(alloc, &files.image)?);
        try_pairs(alloc, &done, &files, &log, &[Remains::Whole], seen)?;
        try_pairs(alloc, &done, &files, &[Remains::Whole], &image, seen)?;
    }
    Ok(())
}

// With one sync a barrier the premise on torn writes is needed: a byte of a front that became another
// one than 0 leaves the count as it is. Of an image any byte may be lost where a checkpoint writes.
#[test]
fn two_syncs_bear_other_bytes(rt: HostRuntime) -> Result<(), Fail> {
    for which in [WhichFile::Log, WhichFile::Image] {
        let (mut one, mut two) = (Seen::NONE, Seen::NONE);
        try_spoiled(rt.alloc(), true, which, &mut one)?;
        try_spoiled(rt.alloc(), false, which, &mut two)?;
        assert!(rt;
            one.outcomes > 1_000 && two.outcomes > 1_000,
            "{one:?} {two:?}"
        );
        assert_eq!(rt; two.wrong, 0);
        assert_eq!(rt; one.wrong > 100, which == WhichFile::Log, "{one:?}");
    }
    Ok(())
}
