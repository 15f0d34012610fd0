//! What a log holds when it is opened.
ghost use Rattle.std.specs.Prelude.{◌≡◌, ◌≢◌, ◌+◌, ◌^◌, ◌<◌, ◌≤◌, ◌++◌, ℕ, List, Err, length, IfOk, OnOk, IsTrue};
ghost use Rattle.pk_base.specs.Mark.{Mark};
ghost use Rattle.pk_base.specs.Shape as spec;
ghost use Rattle.pk_redo.specs.Log.{LogHolds, bodies};
ghost use Rattle.pk_redo.specs.Steps.{AreSteps, step_marks};
ghost use Rattle.pk_redo.specs.Image.{BatchesSay};
ghost use Rattle.pk_redo.specs.declared.reader.LogFault.{LogFault};

use crate::batch::{BATCH_HEAD, FIRST_BATCH, batch_at, is_open};
use crate::step::{Step, step_at};
use pk_base::Shape;
use sqlite_disk::Disk;
use std::alloc::{AllocError, Global};
use std::io;

/// Why no steps are read of a log.
#[derive(Clone, Copy, Debug, PartialEq, Eq)]
pub enum LogFault {
    Memory,
    /// A file cannot be read.
    Disk,
    /// The log is of another image.
    OtherImage,
    /// A batch has bytes that are no step, from a place of the log on.
    BadStep { at: usize },
}

/// The bytes of a log, of which nothing is changed.
pub fn read_log<D: Disk>(disk: &mut D, alloc: Global) -> io::Result<Vec<u8>>
    requires { IsTrue (D.Disk.is_usable disk.old) }
    ensures found { IfOk result
        (λ v. IsTrue (D.Disk.is_clean disk.new) → v.items ≡ D.Disk.seen disk.old) }
    ensures clean { IsTrue (D.Disk.is_clean disk.new) → IsTrue (D.Disk.is_clean disk.old) }
    ensures seen { D.Disk.seen disk.new ≡ D.Disk.seen disk.old }
    ensures usable { IsTrue (D.Disk.is_usable disk.new) }
    ensures crash { (c : List ℕ) → D.Disk.may_leave disk.new c → D.Disk.may_leave disk.old c }
{
    let len = disk.len()?;
    let Ok(mut bytes) = Vec::from_elem(alloc, 0u8, len) else {
        return Err(io::ErrorKind::OutOfMemory.into());
    };
    disk.read_at(0, bytes.as_mut_slice())?;
    Ok(bytes)
}

/// The batches of a log, the oldest first, each by its place and its length.
pub fn find_batches(alloc: Global, log: &[u8]) -> Result<Vec<(usize, usize)>, AllocError>
    requires { length log.now < 2 ^ 62 }
    ensures { IfOk result (λ v. LogHolds log.now (bodies log.now v.items)) }
{
    let mut found = Vec::new(alloc);
    if !is_open(log) {
        return Ok(found);
    }
    let mut at = FIRST_BATCH;
    while let Some(len) = batch_at(log, at) {
        found.push((at + BATCH_HEAD, len))?;
        at += BATCH_HEAD + len;
    }
    Ok(found)
}

/// Adds the steps that stand between two places of a log.
fn read_body(
    shape: &Shape,
    log: &[u8],
    from: usize,
    to: usize,
    steps: &mut Vec<Step>,
) -> Result<(), LogFault>
    requires order { from ≤ to }
    requires within { to ≤ length log.now }
    requires short { length log.now < 2 ^ 62 }
    ensures read { OnOk result ((marks : List Mark) × AreSteps shape.now log.now from marks to
        × (step_marks shape.now log.now steps.new.items
        ≡ step_marks shape.now log.now steps.old.items ++ marks)) }
    // They are refused only if they are no steps.
    ensures bad { (at : ℕ) → result ≡ Err (LogFault.BadStep at)
        → (marks : List Mark) → ¬ AreSteps shape.now log.now from marks to }
    ensures other { result ≢ Err (LogFault.OtherImage) }
{
    let mut at = from;
    while at < to {
        let Some((step, next)) = step_at(shape, log, at) else {
            return Err(LogFault::BadStep { at });
        };
        if next > to {
            return Err(LogFault::BadStep { at });
        }
        match steps.push(step) {
            Ok(()) => {}
            Err(_) => return Err(LogFault::Memory),
        }
        at = next;
    }
    Ok(())
}

/// The steps of a log, the oldest first: those of all its batches but the first, which is the
/// record of its image.
pub fn read_steps(alloc: Global, shape: &Shape, log: &[u8]) -> Result<Vec<Step>, LogFault>
    requires { length log.now < 2 ^ 62 }
    ensures found { IfOk result (λ v. (batches : List (List ℕ)) × LogHolds log.now batches
        × BatchesSay shape.now batches (step_marks shape.now log.now v.items)) }
    // A log is refused only if its batches say no steps.
    ensures bad { (at : ℕ) → result ≡ Err (LogFault.BadStep at)
        → (batches : List (List ℕ)) (marks : List Mark) → LogHolds log.now batches
        → ¬ BatchesSay shape.now batches marks }
    ensures other { result ≢ Err (LogFault.OtherImage) }
{
    let mut steps = Vec::new(alloc);
    if !is_open(log) {
        return Ok(steps);
    }
    let Some(first) = batch_at(log, FIRST_BATCH) else {
        return Ok(steps);
    };
    let mut at = FIRST_BATCH + BATCH_HEAD + first;
    while let Some(len) = batch_at(log, at) {
        let next = at + BATCH_HEAD + len;
        match read_body(shape, log, at + BATCH_HEAD, next, &mut steps) {
            Ok(()) => {}
            Err(fault) => return Err(fault),
        }
        at = next;
    }
    Ok(steps)
}
