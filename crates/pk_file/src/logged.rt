//! Changes of pages in memory that go to the log of their image.
ghost use Rattle.std.specs.Prelude.{◌≡◌, ◌⊎◌, ◌≤◌, ◌<◌, ◌+◌, ℕ, List, [], ◌∷◌, ◌++◌, length, true, OnOk, OnErr, IfOk, IsTrue, slice_set};
ghost use Rattle.pk_base.specs.Fields.{padded};
ghost use Rattle.pk_base.specs.Shape as spec;
ghost use Rattle.pk_base.specs.Page.{Flash, IsPage, whole};
ghost use Rattle.pk_base.specs.Mark.{Mark, program, erase, after, after_all};
ghost use Rattle.pk_redo.specs.Bytes.{bytes_at};
ghost use Rattle.pk_redo.specs.Steps.{step_mark};
ghost use Rattle.pk_redo.specs.Kept.{ImageAlone, replay_marks};
ghost use Rattle.pk_redo.specs.declared.batch.TheConstants.{BATCH_HEAD};
ghost use Rattle.pk_redo.specs.declared.redo_log.LogState.{LogState};
ghost use Rattle.pk_file.specs.Slots.{pages_of, AllFit, ErasedRow};
ghost use Rattle.pk_file.specs.Trims.{bytes_in};
ghost use Rattle.pk_file.specs.Logged.{KeepsTrail, StillKeepsTrail, ReadsPrefix};

use crate::page_reader::copied;
use crate::slot::Slot;
use crate::slots::{erase_slots, known, set_slot};
use crate::trimmed::Trimmed;
use pk_base::{Shape, put_text, put_zeros};
use pk_image::PageTag;
use pk_nand::{LoadFault, NandFault};
use pk_redo::{Pages, RedoLog, Replay, Step};
use sqlite_disk::Disk;
use std::alloc::Global;

/// The pages of a board, as the log of its image sees them.
#[derive(Drop)]
pub struct SlotPages<'s> {
    pub shape: Shape,
    pub slots: &'s Vec<Slot>,
    ghost count: { length slots.now.items ≡ spec.page_count shape },
    ghost fit: { AllFit shape slots.now.items },
}

impl Pages for SlotPages<'_> {
    ghost shape_of = { λ p. p.shape };

    ghost flash_of = { λ p. pages_of p.slots.now.items };

    fn state(&self, page: u32) -> PageTag {
        match &self.slots[page as usize] {
            Slot::Erased { .. } => PageTag::Erased,
            Slot::Whole(_) => PageTag::Whole,
            Slot::Torn { .. } => PageTag::Torn,
        }
    }

    fn front(&self, page: u32) -> &[u8] {
        match &self.slots[page as usize] {
            Slot::Erased { .. } => &[],
            Slot::Whole(kept) => kept.front.as_slice(),
            Slot::Torn { .. } => &[],
        }
    }
}

/// Programs a page in memory, and adds the step to those that wait for the log. Without memory for
/// the page, or room in the log, nothing is done.
pub fn program_logged<D: Disk>(
    alloc: Global,
    redo: &mut RedoLog<D>,
    shape: &Shape,
    slots: &mut Vec<Slot>,
    page: u32,
    bytes: &[u8],
) -> Result<(), NandFault>
    requires exists { page < length slots.old.items }
    requires full { length bytes.now ≡ shape.now.page_bytes }
    requires count { length slots.old.items ≡ spec.page_count shape.now }
    requires fit { AllFit shape.now slots.old.items }
    requires shape { redo.old.shape ≡ shape.now }

    // In memory.
    ensures pages { OnOk result
        (pages_of slots.new.items ≡ slice_set (pages_of slots.old.items) page (whole bytes.now)) }
    ensures left { OnErr result (slots.new ≡ slots.old) }
    ensures count { length slots.new.items ≡ length slots.old.items }
    ensures fit { AllFit shape.now slots.new.items }
    ensures shape { redo.new.shape ≡ redo.old.shape }

    // Whatever a crash leaves of the files is read as the pages after the first steps, at least
    // those before the last barrier.
    ensures crash { IsTrue (D.Disk.is_clean redo.new.log)
        → (start : Flash) (trail : List Mark) (least : ℕ)
        → KeepsTrail D.Disk redo.old shape.now start trail least (pages_of slots.old.items)
        → ReadsPrefix D.Disk redo.new shape.now start (trail ++ program page bytes.now ∷ []) least }
    ensures keeps { OnOk result (IsTrue (D.Disk.is_clean redo.new.log)
        → (start : Flash) (trail : List Mark) (least : ℕ)
        → KeepsTrail D.Disk redo.old shape.now start trail least (pages_of slots.old.items)
        → KeepsTrail D.Disk redo.new shape.now start (trail ++ program page bytes.now ∷ []) least
        (pages_of slots.new.items)) }
    ensures failed { OnErr result (IsTrue (D.Disk.is_clean redo.new.log)
        → (start : Flash) (trail : List Mark) (least : ℕ)
        → KeepsTrail D.Disk redo.old shape.now start trail least (pages_of slots.old.items)
        → StillKeepsTrail D.Disk redo.new shape.now start trail least
        (pages_of slots.old.items)) }
    ensures clean { IsTrue (D.Disk.is_clean redo.new.log) → IsTrue (D.Disk.is_clean redo.old.log) }
    ensures image_clean { IsTrue (D.Disk.is_clean redo.new.image)
        → IsTrue (D.Disk.is_clean redo.old.image) }
{
    known(bytes);
    let Ok(kept) = Trimmed::of(alloc, bytes) else {
        return Err(NandFault);
    };
    let pages = SlotPages {
        shape: *shape,
        slots,
    };
    match redo.ready(&pages, kept.front.len()) {
        Ok(()) => {}
        Err(_) => return Err(NandFault),
    }
    redo.program(page, kept.front.as_slice());
    set_slot(slots, page as usize, Slot::Whole(kept));
    Ok(())
}

/// Erases a block in memory, and adds the step to those that wait for the log. Without room in the
/// log nothing is done.
pub fn erase_logged<D: Disk>(
    redo: &mut RedoLog<D>,
    shape: &Shape,
    slots: &mut Vec<Slot>,
    block: u32,
) -> Result<(), NandFault>
    requires exists { block < shape.now.blocks }
    requires count { length slots.old.items ≡ spec.page_count shape.now }
    requires fit { AllFit shape.now slots.old.items }
    requires shape { redo.old.shape ≡ shape.now }

    // In memory.
    ensures pages { OnOk result (pages_of slots.new.items
        ≡ after shape.now (erase block) (pages_of slots.old.items)) }
    ensures left { OnErr result (slots.new ≡ slots.old) }
    ensures count { length slots.new.items ≡ length slots.old.items }
    ensures fit { AllFit shape.now slots.new.items }
    ensures shape { redo.new.shape ≡ redo.old.shape }

    // The same of a crash as at a program.
    ensures crash { IsTrue (D.Disk.is_clean redo.new.log)
        → (start : Flash) (trail : List Mark) (least : ℕ)
        → KeepsTrail D.Disk redo.old shape.now start trail least (pages_of slots.old.items)
        → ReadsPrefix D.Disk redo.new shape.now start (trail ++ erase block ∷ []) least }
    ensures keeps { OnOk result (IsTrue (D.Disk.is_clean redo.new.log)
        → (start : Flash) (trail : List Mark) (least : ℕ)
        → KeepsTrail D.Disk redo.old shape.now start trail least (pages_of slots.old.items)
        → KeepsTrail D.Disk redo.new shape.now start (trail ++ erase block ∷ []) least
        (pages_of slots.new.items)) }
    ensures failed { OnErr result (IsTrue (D.Disk.is_clean redo.new.log)
        → (start : Flash) (trail : List Mark) (least : ℕ)
        → KeepsTrail D.Disk redo.old shape.now start trail least (pages_of slots.old.items)
        → StillKeepsTrail D.Disk redo.new shape.now start trail least
        (pages_of slots.old.items)) }
    ensures clean { IsTrue (D.Disk.is_clean redo.new.log) → IsTrue (D.Disk.is_clean redo.old.log) }
    ensures image_clean { IsTrue (D.Disk.is_clean redo.new.image)
        → IsTrue (D.Disk.is_clean redo.old.image) }
{
    let pages = SlotPages {
        shape: *shape,
        slots,
    };
    match redo.ready(&pages, 0) {
        Ok(()) => {}
        Err(_) => return Err(NandFault),
    }
    redo.erase(block);
    let count = shape.block_pages();
    let first = block * count;
    erase_slots(slots, first as usize, count as usize);
    Ok(())
}

/// Makes a log as it was found ready for steps, before the first of them.
pub fn begin_logged<D: Disk>(redo: &mut RedoLog<D>, shape: &Shape, slots: &Vec<Slot>) -> bool
    requires count { length slots.now.items ≡ spec.page_count shape.now }
    requires fit { AllFit shape.now slots.now.items }
    requires shape { redo.old.shape ≡ shape.now }
    ensures crash { IsTrue (D.Disk.is_clean redo.new.log)
        → (start : Flash) (trail : List Mark) (least : ℕ)
        → KeepsTrail D.Disk redo.old shape.now start trail least (pages_of slots.now.items)
        → ReadsPrefix D.Disk redo.new shape.now start trail least }
    ensures keeps { IsTrue (D.Disk.is_clean redo.new.log)
        → (start : Flash) (trail : List Mark) (least : ℕ)
        → KeepsTrail D.Disk redo.old shape.now start trail least (pages_of slots.now.items)
        → StillKeepsTrail D.Disk redo.new shape.now start trail least
        (pages_of slots.now.items) }
    ensures ready { result ≡ true → redo.new.state ≡ LogState.Ready }
    ensures shape { redo.new.shape ≡ redo.old.shape }
{
    let pages = SlotPages {
        shape: *shape,
        slots,
    };
    match redo.begin(&pages) {
        Ok(()) => true,
        Err(_) => false,
    }
}

/// The barrier: makes the steps that wait durable.
pub fn commit_steps<D: Disk>(redo: &mut RedoLog<D>) -> bool
    ensures crash { IsTrue (D.Disk.is_clean redo.new.log) → (shape : spec.Shape)
        → (start : Flash) (trail : List Mark) (least : ℕ) (pages : Flash)
        → KeepsTrail D.Disk redo.old shape start trail least pages
        → ReadsPrefix D.Disk redo.new shape start trail least }
    // Once it succeeded a crash keeps the pages after all steps.
    ensures keeps { result ≡ true → IsTrue (D.Disk.is_clean redo.new.log) → (shape : spec.Shape)
        → (start : Flash) (trail : List Mark) (least : ℕ) (pages : Flash)
        → KeepsTrail D.Disk redo.old shape start trail least pages
        → KeepsTrail D.Disk redo.new shape start trail (length trail) pages }
    ensures failed { IsTrue (D.Disk.is_clean redo.new.log) → (shape : spec.Shape)
        → (start : Flash) (trail : List Mark) (least : ℕ) (pages : Flash)
        → KeepsTrail D.Disk redo.old shape start trail least pages
        → StillKeepsTrail D.Disk redo.new shape start trail least pages }
    ensures none_waits { result ≡ true → redo.new.batch.filled ≡ BATCH_HEAD }
    ensures clean { IsTrue (D.Disk.is_clean redo.new.log) → IsTrue (D.Disk.is_clean redo.old.log) }
    ensures image_clean { IsTrue (D.Disk.is_clean redo.new.image)
        → IsTrue (D.Disk.is_clean redo.old.image) }
    ensures shape { redo.new.shape ≡ redo.old.shape }
{
    match redo.barrier() {
        Ok(()) => true,
        Err(_) => false,
    }
}

/// The end of a run: the image alone has the pages then, and the log may be removed.
pub fn end_logged<D: Disk>(redo: &mut RedoLog<D>, shape: &Shape, slots: &Vec<Slot>) -> bool
    requires count { length slots.now.items ≡ spec.page_count shape.now }
    requires fit { AllFit shape.now slots.now.items }
    requires shape { redo.old.shape ≡ shape.now }
    ensures crash { IsTrue (D.Disk.is_clean redo.new.log)
        → (start : Flash) (trail : List Mark) (least : ℕ)
        → KeepsTrail D.Disk redo.old shape.now start trail least (pages_of slots.now.items)
        → ReadsPrefix D.Disk redo.new shape.now start trail least }
    ensures alone { result ≡ true → IsTrue (D.Disk.is_clean redo.new.log)
        → (start : Flash) (trail : List Mark) (least : ℕ)
        → KeepsTrail D.Disk redo.old shape.now start trail least (pages_of slots.now.items)
        → ImageAlone D.Disk redo.new (pages_of slots.now.items) }
{
    let pages = SlotPages {
        shape: *shape,
        slots,
    };
    match redo.finish(&pages) {
        Ok(()) => true,
        Err(_) => false,
    }
}

/// Makes a page of its front, and zeros after it.
fn put_front(page: &mut [u8], front: &[u8])
    requires { length front.now ≤ length page.old }
    ensures { page.new ≡ padded (length page.old) front.now }
{
    put_text(page, 0, front);
    put_zeros(page, front.len(), page.len());
}

/// The bytes of a front, from a place of a log on.
fn front_in_log(log: &[u8], at: usize, len: usize) -> &[u8]
    requires { at + len ≤ length log.now }
    ensures value { result.now ≡ bytes_at log.now at len }
    ensures len { length result.now ≡ len }
{
    &log[at..at + len]
}

/// The page that a step programs, whose front is at a place of the log. Zeros follow it.
fn page_in_log(
    alloc: Global,
    shape: &Shape,
    log: &[u8],
    at: usize,
    len: usize,
    page: &mut [u8],
) -> Result<Trimmed, LoadFault>
    requires { length page.old ≡ shape.now.page_bytes }
    ensures page { IfOk result (λ kept. IsPage shape.now (bytes_in kept)) }
    ensures bytes { IfOk result
        (λ kept. bytes_in kept ≡ padded shape.now.page_bytes (bytes_at log.now at len)) }
{
    if log.len() < at || log.len() - at < len || len > page.len() {
        return Err(LoadFault::Fault);
    }
    put_front(page, front_in_log(log, at, len));
    copied(alloc, shape, page)
}

/// Pages from one on become Erased. The image may have any bytes at their places.
fn clear_slots(slots: &mut Vec<Slot>, first: usize, count: usize, extent: usize)
    requires { first + count ≤ length slots.old.items }
    ensures pages { ErasedRow first count (pages_of slots.old.items) (pages_of slots.new.items) }
    ensures count { length slots.new.items ≡ length slots.old.items }
    ensures fit { (shape : spec.Shape) → AllFit shape slots.old.items
        → AllFit shape slots.new.items }
{
    for i in 0..count {
        set_slot(slots, first + i, Slot::Erased { extent });
    }
}

/// Does a step of a log to the pages of its image in memory. A page is room for one.
fn replay_step(
    alloc: Global,
    shape: &Shape,
    slots: &mut Vec<Slot>,
    log: &[u8],
    step: &Step,
    room: &mut [u8],
) -> Result<(), LoadFault>
    requires count { length slots.old.items ≡ spec.page_count shape.now }
    requires fit { AllFit shape.now slots.old.items }
    requires room { length room.old ≡ shape.now.page_bytes }
    ensures pages { OnOk result (pages_of slots.new.items
        ≡ after shape.now (step_mark shape.now log.now step.now) (pages_of slots.old.items)) }
    ensures count { length slots.new.items ≡ length slots.old.items }
    ensures fit { AllFit shape.now slots.new.items }
{
    match step {
        Step::Program { page, at, len } => {
            if *page >= shape.page_count() {
                return Err(LoadFault::Fault);
            }
            match page_in_log(alloc, shape, log, *at, *len, room) {
                Ok(kept) => {
                    set_slot(slots, *page as usize, Slot::Whole(kept));
                    Ok(())
                }
                Err(fault) => Err(fault),
            }
        }
        Step::Erase { block } => {
            if *block >= shape.blocks() {
                return Err(LoadFault::Fault);
            }
            let count = shape.block_pages();
            let first = *block * count;
            clear_slots(slots, first as usize, count as usize, room.len());
            Ok(())
        }
    }
}

/// Does the steps of a log to the pages of its image in memory.
pub fn replay_steps(
    alloc: Global,
    shape: &Shape,
    slots: &mut Vec<Slot>,
    replay: &Replay,
) -> Result<(), LoadFault>
    requires count { length slots.old.items ≡ spec.page_count shape.now }
    requires fit { AllFit shape.now slots.old.items }
    // The pages in memory are those that the log says then.
    ensures pages { OnOk result (pages_of slots.new.items
        ≡ after_all shape.now (replay_marks shape.now replay.now) (pages_of slots.old.items)) }
    ensures count { length slots.new.items ≡ length slots.old.items }
    ensures fit { AllFit shape.now slots.new.items }
{
    let Ok(mut room) = Vec::from_elem(alloc, 0u8, shape.page_bytes() as usize) else {
        return Err(LoadFault::Memory);
    };
    let log = replay.bytes.as_slice();
    for i in 0..replay.steps.len() {
        match replay_step(
            alloc,
            shape,
            slots,
            log,
            &replay.steps[i],
            room.as_mut_slice(),
        ) {
            Ok(()) => {}
            Err(fault) => return Err(fault),
        }
    }
    Ok(())
}
