//! What a log says to its image when both are opened.
ghost use Rattle.std.specs.Prelude.{◌≡◌, ◌≢◌, ◌+◌, ◌<◌, ◌≤◌, ◌↔◌, ℕ, List, [], length, take, drop, get_or, Ok, Err, true, false, IfOk, IsTrue};
ghost use Rattle.sqlite_disk.specs.Disk.{Holds};
ghost use Rattle.pk_base.specs.Mark.{Mark};
ghost use Rattle.pk_base.specs.Shape as spec;
ghost use Rattle.pk_image.specs.Header.{file_size, header_bytes};
ghost use Rattle.pk_redo.specs.Log.{LogHolds};
ghost use Rattle.pk_redo.specs.Steps.{Sets, step_marks};
ghost use Rattle.pk_redo.specs.Record.{RecordedAs};
ghost use Rattle.pk_redo.specs.Image.{BatchesSay, BelongTo, flash_after};
ghost use Rattle.pk_redo.specs.Kept.{ReplayedTo, replay_marks};
ghost use Rattle.pk_redo.specs.declared.reader.LogFault.{LogFault};

use crate::batch::{BATCH_HEAD, FIRST_BATCH, batch_at, is_open};
use crate::reader::{LogFault, read_log, read_steps};
use crate::record::{is_record_of, set_pages};
use crate::step::Step;
use pk_base::Shape;
use pk_image::{HEADER_BYTES, file_len, header};
use sqlite_disk::Disk;
use std::alloc::Global;
use std::io;

/// The longest log that is read, in bytes.
const LONGEST_LOG: usize = 1 << 40;

/// The bytes of a log, and its steps: what is to be done to the pages of its image, in this order.
#[derive(Drop)]
pub struct Replay {
    pub bytes: Vec<u8>,
    pub steps: Vec<Step>,
}

/// Why a file is not read.
fn fault_of(error: &io::Error) -> LogFault
    ensures { result ≢ LogFault.OtherImage }
{
    if error.kind() == io::ErrorKind::OutOfMemory {
        LogFault::Memory
    } else {
        LogFault::Disk
    }
}

/// The header and the state bytes of an image, if it has the length of one.
fn read_head<D: Disk>(image: &mut D, alloc: Global, shape: &Shape) -> Result<Vec<u8>, LogFault>
    // The image.
    requires { IsTrue (D.Disk.is_usable image.old) }

    // What is read.
    ensures len { IfOk result (λ v. length v.items ≡ HEADER_BYTES + spec.page_count shape.now) }
    ensures found { IfOk result (λ v. IsTrue (D.Disk.is_clean image.new)
        → Holds (D.Disk.seen image.old) 0 v.items
        × (file_size shape.now ≤ length (D.Disk.seen image.old))) }

    // Why it is not.
    ensures other { result ≢ Err (LogFault.OtherImage) }

    // The image stays as it was.
    ensures seen { D.Disk.seen image.new ≡ D.Disk.seen image.old }
    ensures usable { IsTrue (D.Disk.is_usable image.new) }
    ensures crash { (c : List ℕ) → D.Disk.may_leave image.new c → D.Disk.may_leave image.old c }
{
    let len = HEADER_BYTES + shape.page_count() as usize;
    let Ok(mut head) = Vec::from_elem(alloc, 0u8, len) else {
        return Err(LogFault::Memory);
    };
    match image.len() {
        Ok(size) if file_len(shape) <= size as u64 => {}
        Ok(_) => return Err(LogFault::Disk),
        Err(error) => return Err(fault_of(&error)),
    }
    match image.read_at(0, head.as_mut_slice()) {
        Ok(()) => Ok(head),
        Err(error) => Err(fault_of(&error)),
    }
}

/// The header in the head of an image.
fn header_of(head: &[u8]) -> &[u8]
    requires { HEADER_BYTES ≤ length head.now }
    ensures value { result.now ≡ take HEADER_BYTES head.now }
    ensures len { length result.now ≡ HEADER_BYTES }
{
    &head[..HEADER_BYTES]
}

/// The states of the pages after it.
fn states_of(head: &[u8]) -> &[u8]
    requires { HEADER_BYTES ≤ length head.now }
    ensures value { result.now ≡ drop HEADER_BYTES head.now }
    ensures len { HEADER_BYTES + length result.now ≡ length head.now }
{
    &head[HEADER_BYTES..]
}

/// Whether a log is of an image with this header and these states: it has no record, or one of
/// them, but for pages that its steps set.
fn is_of(shape: &Shape, log: &[u8], set: &[bool], header: &[u8], states: &[u8]) -> bool
    requires header { length header.now ≡ HEADER_BYTES }
    requires states { length states.now ≡ spec.page_count shape.now }
    requires set { length set.now ≡ spec.page_count shape.now }
    ensures yes { result ≡ true → (batches : List (List ℕ)) (marks : List Mark)
        → LogHolds log.now batches
        → ((k : ℕ) → k < spec.page_count shape.now
        → (get_or set.now k false ≡ true) ↔ Sets shape.now marks k)
        → RecordedAs shape.now batches header.now states.now marks }
    ensures no { result ≡ false → (batches : List (List ℕ)) (marks : List Mark)
        → LogHolds log.now batches
        → ((k : ℕ) → k < spec.page_count shape.now
        → (get_or set.now k false ≡ true) ↔ Sets shape.now marks k)
        → ¬ RecordedAs shape.now batches header.now states.now marks }
{
    if !is_open(log) {
        return true;
    }
    let Some(len) = batch_at(log, FIRST_BATCH) else {
        return true;
    };
    let at = FIRST_BATCH + BATCH_HEAD;
    is_record_of(shape, &log[at..at + len], header, states, set)
}

/// Whether a log with these steps is of an image with this head.
fn belongs(
    alloc: Global,
    shape: &Shape,
    log: &[u8],
    steps: &[Step],
    head: &[u8],
) -> Result<bool, LogFault>
    requires { length head.now ≡ HEADER_BYTES + spec.page_count shape.now }
    ensures header { result ≡ Ok true → take HEADER_BYTES head.now ≡ header_bytes shape.now }
    ensures record { result ≡ Ok true → (batches : List (List ℕ)) → LogHolds log.now batches
        → RecordedAs shape.now batches (take HEADER_BYTES head.now) (drop HEADER_BYTES head.now)
        (step_marks shape.now log.now steps.now) }
    ensures refused { result ≡ Ok false → (batches : List (List ℕ)) → LogHolds log.now batches
        → take HEADER_BYTES head.now ≡ header_bytes shape.now
        → ¬ RecordedAs shape.now batches (take HEADER_BYTES head.now) (drop HEADER_BYTES head.now)
        (step_marks shape.now log.now steps.now) }
    ensures other { result ≢ Err (LogFault.OtherImage) }
{
    let Ok(set) = set_pages(alloc, shape, steps) else {
        return Err(LogFault::Memory);
    };
    let (own, states) = (header_of(head), states_of(head));
    let wanted = header(shape);
    if own != &wanted[..] {
        return Ok(false);
    }
    Ok(is_of(shape, log, &set, own, states))
}

impl Replay {
    /// Reads a log, and sees that it is of this image. Neither file is written.
    pub fn read<D: Disk>(
        alloc: Global,
        log: &mut D,
        image: &mut D,
        shape: &Shape,
    ) -> Result<Replay, LogFault>
        requires log { IsTrue (D.Disk.is_usable log.old) }
        requires image { IsTrue (D.Disk.is_usable image.old) }
        // The steps are those that a reader of both files does.
        ensures found { IfOk result (λ replay. IsTrue (D.Disk.is_clean log.new)
            → IsTrue (D.Disk.is_clean image.new)
            → ReplayedTo shape.now (D.Disk.seen log.old) (D.Disk.seen image.old) replay
            (flash_after shape.now (replay_marks shape.now replay) (D.Disk.seen image.old))) }
        // It is refused as one of another image only if it does not fit this one.
        ensures refused { result ≡ Err (LogFault.OtherImage) → IsTrue (D.Disk.is_clean log.new)
            → IsTrue (D.Disk.is_clean image.new) → (batches : List (List ℕ)) (marks : List Mark)
            → LogHolds (D.Disk.seen log.old) batches → BatchesSay shape.now batches marks
            → take HEADER_BYTES (D.Disk.seen image.old) ≡ header_bytes shape.now
            → ¬ BelongTo shape.now batches marks (D.Disk.seen image.old) }
        ensures log_seen { D.Disk.seen log.new ≡ D.Disk.seen log.old }
        ensures image_seen { D.Disk.seen image.new ≡ D.Disk.seen image.old }
        ensures log_crash { (c : List ℕ) → D.Disk.may_leave log.new c
            → D.Disk.may_leave log.old c }
        ensures image_crash { (c : List ℕ) → D.Disk.may_leave image.new c
            → D.Disk.may_leave image.old c }
        ensures usable { IsTrue (D.Disk.is_usable log.new) × IsTrue (D.Disk.is_usable image.new) }
    {
        let bytes = match read_log(log, alloc) {
            Ok(bytes) => bytes,
            Err(error) => return Err(fault_of(&error)),
        };
        if bytes.len() > LONGEST_LOG {
            return Err(LogFault::Memory);
        }
        let steps = match read_steps(alloc, shape, &bytes) {
            Ok(steps) => steps,
            Err(fault) => return Err(fault),
        };
        let head = match read_head(image, alloc, shape) {
            Ok(head) => head,
            Err(fault) => return Err(fault),
        };
        match belongs(alloc, shape, &bytes, &steps, &head) {
            Ok(true) => Ok(Replay { bytes, steps }),
            Ok(false) => Err(LogFault::OtherImage),
            Err(fault) => Err(fault),
        }
    }

    /// Whether the log has no step.
    pub fn is_empty(&self) -> bool
        ensures { IsTrue result ↔ (self.now.steps.items ≡ []) }
    {
        self.steps.is_empty()
    }
}
