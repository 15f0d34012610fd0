//! The pages of a board over an image and its log, its marks, and what was posted.
ghost use Rattle.std.specs.Prelude.{◌≡◌, ◌≤◌, ◌<◌, ◌+◌, ◌∷◌, [], ◌++◌, ℕ, length, take, true, false, slice_set, IfOk, IsTrue, OnOk, OnErr};
ghost use Rattle.pk_base.specs.Shape as spec;
ghost use Rattle.pk_base.specs.Page.{whole};
ghost use Rattle.pk_base.specs.Mark.{program, erase, post, after, all_posted};
ghost use Rattle.pk_nand.specs.Seen.{marks as seen_marks};
ghost use Rattle.pk_redo.specs.declared.batch.TheConstants.{BATCH_HEAD};
ghost use Rattle.pk_redo.specs.declared.step.TheConstants.{STEP_BYTES};
ghost use Rattle.pk_redo.specs.Image.{ReadAs};
ghost use Rattle.pk_file.specs.Slots.{pages_of, AllFit};
ghost use Rattle.pk_durable.specs.Durable.{KeepsOpened};

use crate::opening::{OpenedFiles, read_files};
use crate::trail::{BoundedTrail, mark_bytes};
use pk_base::Shape;
use pk_file::{Slot, commit_steps, erase_logged, program_logged};
use pk_nand::{LoadFault, Mark, NandFault};
use pk_redo::{LogSizes, RedoLog};
use sqlite_disk::Disk;
use std::alloc::Global;

/// Posts that wait are sent once there are as many bytes, and before the input is read.
const MOST_WAITING: usize = 1 << 16;

/// The pages of an image in memory, with its log. Each change goes to the log, and each change and
/// each post is a mark of its trail. What was posted is sent only after a barrier.
#[derive(Drop)]
pub struct DurableFlash<D: Disk> {
    pub(crate) redo: RedoLog<D>,
    pub(crate) shape: Shape,
    pub(crate) slots: Vec<Slot>,
    /// What both files held when they were opened.
    pub(crate) opened_log: Vec<u8>,
    pub(crate) opened_image: Vec<u8>,
    pub(crate) trail: BoundedTrail,
    /// How many of the marks there were at the last barrier after which posts were sent.
    pub(crate) durable: usize,
    /// What was posted: the bytes that left, and those that wait for a barrier.
    pub(crate) sent: Vec<u8>,
    pub(crate) waiting: Vec<u8>,
    ghost same: { redo.shape ≡ shape },
    ghost count: { length slots.items ≡ spec.page_count shape },
    ghost fit: { AllFit shape slots.items },
    ghost within: { durable ≤ length trail.marks.items },
    ghost posts: { sent.items ++ waiting.items ≡ all_posted (seen_marks trail.marks.items) },
    ghost left_after: { sent.items ≡ all_posted (take durable (seen_marks trail.marks.items)) },
    ghost keeps: { ∥ KeepsOpened D.Disk redo shape opened_log.items opened_image.items
        (seen_marks trail.marks.items) durable (pages_of slots.items) ∥₁ },
}

impl<D: Disk + Drop> DurableFlash<D> {
    /// Opens an image and its log, which is read, and not written: the pages in memory are those
    /// that a reader of both finds. There is room for `room` marks.
    pub fn open(
        alloc: Global,
        log: D,
        image: D,
        shape: Shape,
        sizes: LogSizes,
        room: usize,
    ) -> Result<DurableFlash<D>, LoadFault>
        requires log { IsTrue (D.Disk.is_usable log) }
        requires image { IsTrue (D.Disk.is_usable image) }
        requires sizes { (STEP_BYTES + shape.page_bytes ≤ sizes.batch)
            × (BATCH_HEAD + STEP_BYTES + shape.page_bytes < sizes.blank) }
        ensures found { IfOk result (λ f. IsTrue (D.Disk.is_clean f.redo.log)
            → IsTrue (D.Disk.is_clean f.redo.image) → (f.opened_log.items ≡ D.Disk.seen log)
            × (f.opened_image.items ≡ D.Disk.seen image)
            × ReadAs shape (D.Disk.seen log) (D.Disk.seen image) (pages_of f.slots.items)) }
        ensures shape { IfOk result (λ f. f.shape ≡ shape) }
        ensures none { IfOk result (λ f. (f.trail.marks.items ≡ []) × (f.sent.items ≡ [])
            × (f.waiting.items ≡ [])) }
    {
        let (mut log, mut image) = (log, image);
        let OpenedFiles {
            log: opened_log,
            image: opened_image,
            replay,
            slots,
        } = match read_files(alloc, &mut log, &mut image, &shape) {
            Ok(opened) => opened,
            Err(fault) => return Err(fault),
        };
        let Ok(trail) = BoundedTrail::new(alloc, room) else {
            return Err(LoadFault::Memory);
        };
        let Ok(redo) = RedoLog::new(alloc, log, image, shape, &replay, sizes) else {
            return Err(LoadFault::Memory);
        };
        Ok(DurableFlash {
            redo,
            shape,
            slots,
            opened_log,
            opened_image,
            trail,
            durable: 0,
            sent: Vec::new(alloc),
            waiting: Vec::new(alloc),
        })
    }
}

impl<D: Disk> DurableFlash<D> {
    /// Programs a page. After an error nothing was done.
    pub fn program(&mut self, alloc: Global, page: u32, bytes: &[u8]) -> Result<(), NandFault>
        // The page and its bytes.
        requires exists { page < length self.old.slots.items }
        requires full { length bytes.now ≡ self.old.shape.page_bytes }

        // The pages and the trail; both stay if the program fails.
        ensures pages { OnOk result (pages_of self.new.slots.items
            ≡ slice_set (pages_of self.old.slots.items) page (whole bytes.now)) }
        ensures marks { OnOk result (seen_marks self.new.trail.marks.items
            ≡ seen_marks self.old.trail.marks.items ++ program page bytes.now ∷ []) }
        ensures left { OnErr result ((self.new.slots ≡ self.old.slots)
            × (self.new.trail ≡ self.old.trail)) }

        // What is unchanged.
        ensures shape { self.new.shape ≡ self.old.shape }
        ensures opened { (self.new.opened_log ≡ self.old.opened_log)
            × (self.new.opened_image ≡ self.old.opened_image) }
        ensures posted { (self.new.sent ≡ self.old.sent) × (self.new.waiting ≡ self.old.waiting) }
    {
        if self.redo.is_lost() || self.trail.is_full() {
            return Err(NandFault);
        }
        let Ok(own) = mark_bytes(alloc, bytes) else {
            return Err(NandFault);
        };
        match program_logged(
            alloc,
            &mut self.redo,
            &self.shape,
            &mut self.slots,
            page,
            bytes,
        ) {
            Ok(()) => {
                self.trail.note(Mark::Program { page, bytes: own });
                Ok(())
            }
            Err(fault) => Err(fault),
        }
    }

    /// Erases a block. After an error nothing was done.
    pub fn erase(&mut self, block: u32) -> Result<(), NandFault>
        // The block.
        requires exists { block < self.old.shape.blocks }

        // The pages and the trail; both stay if the erase fails.
        ensures pages { OnOk result (pages_of self.new.slots.items
            ≡ after self.old.shape (erase block) (pages_of self.old.slots.items)) }
        ensures marks { OnOk result (seen_marks self.new.trail.marks.items
            ≡ seen_marks self.old.trail.marks.items ++ erase block ∷ []) }
        ensures left { OnErr result ((self.new.slots ≡ self.old.slots)
            × (self.new.trail ≡ self.old.trail)) }

        // What is unchanged.
        ensures shape { self.new.shape ≡ self.old.shape }
        ensures opened { (self.new.opened_log ≡ self.old.opened_log)
            × (self.new.opened_image ≡ self.old.opened_image) }
        ensures posted { (self.new.sent ≡ self.old.sent) × (self.new.waiting ≡ self.old.waiting) }
    {
        if self.redo.is_lost() || self.trail.is_full() {
            return Err(NandFault);
        }
        match erase_logged(&mut self.redo, &self.shape, &mut self.slots, block) {
            Ok(()) => {
                self.trail.note(Mark::Erase { block });
                Ok(())
            }
            Err(fault) => Err(fault),
        }
    }

    /// Posts bytes, which wait for a barrier. Without room for the mark, or memory, nothing is done.
    pub fn post(&mut self, alloc: Global, bytes: &[u8]) -> bool
        // The trail and the bytes that wait; both stay if the post is refused.
        ensures marks { result ≡ true → seen_marks self.new.trail.marks.items
            ≡ seen_marks self.old.trail.marks.items ++ post bytes.now ∷ [] }
        ensures waits { result ≡ true
            → self.new.waiting.items ≡ self.old.waiting.items ++ bytes.now }
        ensures refused { result ≡ false → (self.new.trail ≡ self.old.trail)
            × (self.new.waiting.items ≡ self.old.waiting.items) }

        // What is unchanged.
        ensures sent { self.new.sent ≡ self.old.sent }
        ensures slots { self.new.slots ≡ self.old.slots }
        ensures shape { self.new.shape ≡ self.old.shape }
        ensures opened { (self.new.opened_log ≡ self.old.opened_log)
            × (self.new.opened_image ≡ self.old.opened_image) }
    {
        if self.trail.is_full() {
            return false;
        }
        let Ok(own) = mark_bytes(alloc, bytes) else {
            return false;
        };
        match self.waiting.extend_from_slice(bytes) {
            Ok(()) => {}
            Err(_) => return false,
        }
        self.trail.note(Mark::Post { bytes: own });
        true
    }

    /// The barrier, after which what was posted is sent. After a barrier that failed nothing more is
    /// sent.
    pub fn deliver(&mut self) -> bool
        // The bytes that were sent, and those that wait.
        ensures sent { result ≡ true → self.new.waiting.items ≡ [] }
        ensures held { result ≡ false → self.new.sent.items ≡ self.old.sent.items }
        ensures posted { self.new.sent.items ++ self.new.waiting.items
            ≡ self.old.sent.items ++ self.old.waiting.items }

        // The marks that are on the disk.
        ensures durable { result ≡ true → self.new.durable ≡ length self.new.trail.marks.items }

        // What is unchanged.
        ensures trail { self.new.trail ≡ self.old.trail }
        ensures slots { self.new.slots ≡ self.old.slots }
        ensures shape { self.new.shape ≡ self.old.shape }
        ensures opened { (self.new.opened_log ≡ self.old.opened_log)
            × (self.new.opened_image ≡ self.old.opened_image) }
    {
        if self.redo.is_lost() || !commit_steps(&mut self.redo) {
            return false;
        }
        match self.sent.extend_from_slice(&self.waiting) {
            Ok(()) => {}
            Err(_) => return false,
        }
        self.waiting.clear();
        self.durable = self.trail.len();
        true
    }

    /// Sends posts if there are some, as before the input may wait. A failure is found by the next
    /// one, or at the end.
    pub fn deliver_waiting(&mut self)
        ensures posted { self.new.sent.items ++ self.new.waiting.items
            ≡ self.old.sent.items ++ self.old.waiting.items }
        ensures trail { self.new.trail ≡ self.old.trail }
        ensures slots { self.new.slots ≡ self.old.slots }
        ensures shape { self.new.shape ≡ self.old.shape }
        ensures opened { (self.new.opened_log ≡ self.old.opened_log)
            × (self.new.opened_image ≡ self.old.opened_image) }
    {
        if !self.waiting.is_empty() {
            self.deliver();
        }
    }

    /// Sends posts if many wait.
    pub fn make_room(&mut self) -> bool
        ensures posted { self.new.sent.items ++ self.new.waiting.items
            ≡ self.old.sent.items ++ self.old.waiting.items }
        ensures trail { self.new.trail ≡ self.old.trail }
        ensures slots { self.new.slots ≡ self.old.slots }
        ensures shape { self.new.shape ≡ self.old.shape }
        ensures opened { (self.new.opened_log ≡ self.old.opened_log)
            × (self.new.opened_image ≡ self.old.opened_image) }
    {
        if self.waiting.len() < MOST_WAITING {
            return true;
        }
        self.deliver()
    }

    /// The bytes that left.
    pub fn sent(&self) -> &[u8]
        ensures { result.now ≡ self.now.sent.items }
    {
        self.sent.as_slice()
    }

    /// The log and the image, as they are when power is lost: what waits for a barrier is lost.
    pub fn into_disks(self) -> (D, D)
        ensures { result ≡ (self.redo.log, self.redo.image) }
    {
        self.redo.into_disks()
    }
}
