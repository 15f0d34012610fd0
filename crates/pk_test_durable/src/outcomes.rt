//! What is read after a loss of power: the map after some first commands of a script, with all that were answered.
ghost use Rattle.std.specs.Prelude.{◌≤◌};

use crate::disks::{Disks, Ended, disks_of, serve_over};
use crate::map::{Map, READING, without_reads};
use pk_test_disks::{BASIC, Fails, Random, Remains, any_left, extremes, outcome, simple_extremes};
use pk_test_scripts::exits::DONE;
use pk_test_scripts::script::Ask;
use sqlite_disk::Disk;
use std::alloc::{AllocError, Global};
use std::test::Fail;

/// What was read after losses of power.
#[derive(Clone, Copy, Debug, PartialEq, Eq)]
pub struct Tally {
    /// How many outcomes were opened.
    pub outcomes: u64,
    /// How many of them were refused, or read as another map.
    pub wrong: u64,
}

impl Tally {
    pub const NONE: Tally = Tally {
        outcomes: 0,
        wrong: 0,
    };

    fn note(&mut self, is_right: bool) {
        self.outcomes = self.outcomes.saturating_add(1);
        if !is_right {
            self.wrong = self.wrong.saturating_add(1);
        }
    }
}

/// A script over a drive with this map.
#[derive(Clone, Copy)]
pub struct Play<'s> {
    pub before: Map,
    pub asks: &'s [Ask],
}

impl<'s> Play<'s> {
    /// The map after the first commands, as many as this.
    pub fn after(&self, count: usize) -> Map {
        let mut map = self.before;
        for ask in self.asks.iter().take(count) {
            map.apply(ask);
        }
        map
    }

    // How many commands were done of which at least these many were answered, if these are the
    // records of a reading session.
    fn done_by(
        &self,
        alloc: Global,
        found: &[u8],
        answered: usize,
    ) -> Result<Option<usize>, AllocError> {
        for count in answered..=self.asks.len() {
            if self.after(count).records(alloc)?.as_slice() == found {
                return Ok(Some(count));
            }
        }
        Ok(None)
    }
}

// The map in these files: how many commands of a script were done; None if no such map is read.
fn read_whole(
    alloc: Global,
    play: &Play,
    answered: usize,
    disks: Disks,
) -> Result<Option<usize>, Fail> {
    let Some(reading) = serve_over(alloc, &READING, disks)? else {
        return Ok(None);
    };
    let mut records = reading.sent;
    without_reads(&mut records);
    if reading.status != DONE {
        return Ok(None);
    }
    Ok(play.done_by(alloc, &records, answered)?)
}

/// What remains of both files, as files of which these calls fail.
pub fn left_of(
    alloc: Global,
    disks: &Disks,
    log: Remains,
    image: Remains,
    fails: (Fails, Fails),
) -> Result<Disks, AllocError> {
    let is_mixing = disks.log.mixes();
    let log = outcome(alloc, &disks.log, log)?;
    let image = outcome(alloc, &disks.image, image)?;
    disks_of(alloc, (&log, fails.0), (&image, fails.1), is_mixing)
}

/// Opens what remains of both files after a session; how many commands of its script were done, or
/// None if they are refused or read as another map.
pub fn found_after(
    alloc: Global,
    play: &Play,
    ended: &Ended,
    log: Remains,
    image: Remains,
) -> Result<Option<usize>, Fail> {
    let left = left_of(
        alloc,
        &ended.disks,
        log,
        image,
        (Fails::Never, Fails::Never),
    )?;
    read_whole(alloc, play, ended.answered(), left)
}

// Each of these outcomes of the log beside one of the image.
fn try_logs(
    alloc: Global,
    play: &Play,
    ended: &Ended,
    logs: &[Remains],
    image: Remains,
    tally: &mut Tally,
) -> Result<(), Fail> {
    for log in logs {
        let found = found_after(alloc, play, ended, *log, image)?;
        tally.note(found.is_some());
    }
    Ok(())
}

// Each of these outcomes of the log beside each of these of the image.
fn try_images(
    alloc: Global,
    play: &Play,
    ended: &Ended,
    logs: &[Remains],
    images: &[Remains],
    tally: &mut Tally,
) -> Result<(), Fail> {
    for image in images {
        try_logs(alloc, play, ended, logs, *image, tally)?;
    }
    Ok(())
}

/// The extremes of the log beside a whole image, and the simple ones of each file beside those that
/// each file has of the other one.
pub fn try_outcomes(
    alloc: Global,
    play: &Play,
    ended: &Ended,
    tally: &mut Tally,
) -> Result<(), Fail> {
    let torn = extremes(alloc, &ended.disks.log)?;
    try_images(alloc, play, ended, &torn, &[Remains::Whole], tally)?;
    let logs = simple_extremes(alloc, &ended.disks.log)?;
    let images = simple_extremes(alloc, &ended.disks.image)?;
    try_images(alloc, play, ended, &logs, &BASIC, tally)?;
    try_images(alloc, play, ended, &BASIC, &images, tally)
}

/// What chance leaves of both files, this many times.
pub fn try_chances(
    alloc: Global,
    play: &Play,
    ended: &Ended,
    times: u32,
    random: &mut Random,
    tally: &mut Tally,
) -> Result<(), Fail> {
    for _ in 0..times {
        let log = any_left(random, &ended.disks.log);
        let image = any_left(random, &ended.disks.image);
        try_logs(alloc, play, ended, &[log], image, tally)?;
    }
    Ok(())
}
