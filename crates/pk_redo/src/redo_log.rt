//! An image and its log, both open, with the batch in memory.
ghost use Rattle.std.specs.Prelude.{◌≡◌, ◌≢◌, ◌+◌, ◌^◌, ◌<◌, ◌≤◌, ℕ, length, slice_index};
ghost use Rattle.pk_base.specs.Shape as spec;
ghost use Rattle.pk_redo.specs.Record.{record_size};
ghost use Rattle.pk_redo.specs.declared.batch.TheConstants.{BATCH_HEAD, MOST_BATCH};
ghost use Rattle.pk_redo.specs.declared.step.TheConstants.{STEP_BYTES};
ghost use Rattle.pk_redo.specs.declared.redo_log.LogState.{LogState};

use crate::batch::{BATCH_HEAD, MOST_BATCH};
use crate::pending::Pending;
use crate::step::STEP_BYTES;
use pk_base::Shape;
use sqlite_disk::Disk;

/// What the log of an image is in now.
#[derive(Clone, Copy, Debug, PartialEq, Eq)]
pub enum LogState {
    /// As it was found: what follows its last batch is not known. A checkpoint comes before the
    /// next step.
    Found,
    /// Ready for batches.
    Ready,
    /// A write or a sync failed, or the run has ended: nothing more is written.
    Ended,
}

/// How many bytes a log and its batch take.
#[derive(Clone, Copy, Debug)]
pub struct LogSizes {
    /// Steps of a batch in memory.
    pub(crate) batch: usize,
    /// Zeros that are written ahead at a time, and first behind the record.
    pub(crate) blank: usize,
    /// A log that is as long is emptied before it grows more.
    pub(crate) limit: usize,
    ghost most: { (batch ≤ MOST_BATCH) × (blank ≤ MOST_BATCH) × (limit ≤ MOST_BATCH) },
}

/// Steps of a batch in memory, zeros ahead, and the length of a log, if nobody asks for others.
const USUAL_BATCH: u32 = 1 << 20;

const USUAL_BLANK: u32 = 1 << 18;

const USUAL_LIMIT: u32 = 4 << 20;

impl LogSizes {
    /// The usual ones.
    pub fn usual(shape: &Shape) -> LogSizes
        ensures batch { STEP_BYTES + shape.now.page_bytes ≤ result.batch }
        ensures blank { BATCH_HEAD + STEP_BYTES + shape.now.page_bytes < result.blank }
    {
        LogSizes::new(shape, USUAL_BATCH, USUAL_BLANK, USUAL_LIMIT)
    }

    /// The same, with zeros ahead for all of a log at once, so that no barrier waits for more.
    pub fn ahead(shape: &Shape) -> LogSizes
        ensures batch { STEP_BYTES + shape.now.page_bytes ≤ result.batch }
        ensures blank { BATCH_HEAD + STEP_BYTES + shape.now.page_bytes < result.blank }
    {
        LogSizes::new(shape, USUAL_BATCH, USUAL_LIMIT, USUAL_LIMIT)
    }

    /// These, each raised to the least with which a step fits, and none above the longest batch.
    pub fn new(shape: &Shape, batch: u32, blank: u32, limit: u32) -> LogSizes
        ensures batch { STEP_BYTES + shape.now.page_bytes ≤ result.batch }
        ensures blank { BATCH_HEAD + STEP_BYTES + shape.now.page_bytes < result.blank }
    {
        let step = STEP_BYTES + shape.page_bytes() as usize;
        LogSizes {
            batch: step.max((batch as usize).min(MOST_BATCH)),
            blank: (BATCH_HEAD + step + 1).max((blank as usize).min(MOST_BATCH)),
            limit: (limit as usize).min(MOST_BATCH),
        }
    }
}

/// An open image and its open log.
#[derive(Drop)]
pub struct RedoLog<D: Disk> {
    pub(crate) log: D,
    pub(crate) image: D,
    pub(crate) shape: Shape,
    pub(crate) state: LogState,
    /// Where the batches of the log end, and up to where zeros follow, in bytes, if it is Ready.
    pub(crate) end: usize,
    pub(crate) room: usize,
    /// A log that is as long is emptied before it grows more.
    pub(crate) limit: usize,
    pub(crate) batch: Pending,
    /// Which pages the image may lack.
    pub(crate) lacks: Vec<bool>,
    /// How many bytes at the place of each page in the image may differ from zero.
    pub(crate) extents: Vec<usize>,
    /// Memory for a checkpoint: the states of all pages, the record of the image, and a page.
    pub(crate) states: Vec<u8>,
    pub(crate) record: Vec<u8>,
    pub(crate) page: Vec<u8>,
    /// Zeros that are written ahead.
    pub(crate) blank: Vec<u8>,
    ghost sizes: { (length lacks.items ≡ spec.page_count shape)
        × (length extents.items ≡ spec.page_count shape)
        × (length states.items ≡ spec.page_count shape)
        × (length record.items ≡ BATCH_HEAD + record_size shape)
        × (length page.items ≡ shape.page_bytes) },
    ghost zeros: { (i : ℕ) → i < length blank.items → slice_index blank.items i ≡ 0 },
    ghost step: { (BATCH_HEAD + STEP_BYTES + shape.page_bytes < length blank.items)
        × (BATCH_HEAD + STEP_BYTES + shape.page_bytes ≤ length batch.bytes.items) },
    ghost most: { (room < 2 ^ 62) × (limit ≤ MOST_BATCH) × (length blank.items ≤ MOST_BATCH) },
    ghost fits: { batch.filled ≢ BATCH_HEAD
        → (state ≡ LogState.Ready) × (end + batch.filled < room) },
    ghost ready: { state ≡ LogState.Ready → end < room },
}
