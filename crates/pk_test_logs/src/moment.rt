//! Within what a session was stopped, by what is not synced of its files.
ghost use Rattle.std.specs.Prelude.{◌≤◌};

use pk_redo::FIRST_BATCH;
use pk_test_disks::{Medium, Unsynced};

/// What a session was doing when the machine stopped.
#[derive(Clone, Copy, Debug, PartialEq, Eq)]
pub enum Moment {
    /// It wrote pages into the image, or emptied the log.
    Checkpoint,
    /// It wrote zeros ahead.
    Extension,
    /// It wrote a batch.
    Barrier,
    /// All was synced.
    Between,
}

fn is_blank(bytes: &[u8]) -> bool {
    for byte in bytes {
        if *byte != 0 {
            return false;
        }
    }
    true
}

// Whether the head or the first batch of a log was written.
fn is_reset(changes: &[Unsynced]) -> bool {
    for change in changes {
        match change {
            Unsynced::Write { at, .. } if *at <= FIRST_BATCH => return true,
            _ => {}
        }
    }
    false
}

/// Within what a session was stopped that left these files.
pub fn moment_of(log: &Medium, image: &Medium) -> Moment {
    if !image.changes().is_empty() || is_reset(log.changes()) {
        return Moment::Checkpoint;
    }
    match log.changes().last() {
        Some(Unsynced::Write { bytes, .. }) if is_blank(bytes) => Moment::Extension,
        Some(_) => Moment::Barrier,
        None => Moment::Between,
    }
}

/// How many outcomes were of sessions that were stopped within what.
#[derive(Clone, Copy, Debug, PartialEq, Eq)]
pub struct Moments {
    pub checkpoints: u64,
    pub extensions: u64,
    pub barriers: u64,
    pub others: u64,
}

impl Moments {
    pub const NONE: Moments = Moments {
        checkpoints: 0,
        extensions: 0,
        barriers: 0,
        others: 0,
    };

    /// Counts the outcomes, of this number, of a session that left these files.
    pub fn note(&mut self, log: &Medium, image: &Medium, times: u32) {
        let count = match moment_of(log, image) {
            Moment::Checkpoint => &mut self.checkpoints,
            Moment::Extension => &mut self.extensions,
            Moment::Barrier => &mut self.barriers,
            Moment::Between => &mut self.others,
        };
        *count = count.saturating_add(times as u64);
    }
}
