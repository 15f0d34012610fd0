//! What a board asks of an image and its log. Each clause on what is kept holds whatever the call answers.
ghost use Rattle.std.specs.Prelude.{◌≡◌, ◌≢◌, ◌⊎◌, ◌+◌, ◌^◌, ◌<◌, ◌≤◌, ◌↔◌, ℕ, List, [], ◌∷◌, ◌++◌, length, take, drop, slice_index, get_or, true, false, replicate, IsTrue, OnOk, OnErr, IfOk};
ghost use Rattle.sqlite_disk.specs.Disk.{Only};
ghost use Rattle.pk_base.specs.Fields.{padded};
ghost use Rattle.pk_base.specs.Mark.{Mark, program, erase, after};
ghost use Rattle.pk_base.specs.Page.{Flash, page_at};
ghost use Rattle.pk_base.specs.Shape as spec;
ghost use Rattle.pk_image.specs.Header.{file_size, header_bytes};
ghost use Rattle.pk_image.specs.Image.{state_byte};
ghost use Rattle.pk_redo.specs.Log.{IsSealed};
ghost use Rattle.pk_redo.specs.Record.{RecordFits, record_size};
ghost use Rattle.pk_redo.specs.Steps.{AreSteps};
ghost use Rattle.pk_redo.specs.Image.{AllSameBut, LogSays, ReadAs, flash_after};
ghost use Rattle.pk_redo.specs.Kept.{KeepsPages, StillKeeps, ImageAlone, HasRoomForStep, ReplayedTo};

use crate::batch::{BATCH_HEAD, FIRST_BATCH};
use crate::checkpoints::{checkpoint, note_states};
use crate::image::{Pages, barrier, close, finish};
use crate::log::extend;
use crate::pending::Pending;
use crate::record::{clear_pages, note_row, put_record, record_len, set_pages};
use crate::redo_log::{LogSizes, LogState, RedoLog};
use crate::replay::Replay;
use crate::step::STEP_BYTES;
use pk_base::Shape;
use sqlite_disk::Disk;
use std::alloc::{AllocError, Global};
use std::io;

/// A call of a log to which nothing more is written.
fn ended() -> io::Error {
    io::Error::other("the log has ended")
}

/// Makes the record of an image that has these pages.
fn note_record<P: Pages>(first: &mut Vec<u8>, states: &mut Vec<u8>, shape: &Shape, pages: &P)
    // The shape and the buffers.
    requires shape { P.shape_of pages.now ≡ shape.now }
    requires states { length states.old.items ≡ spec.page_count shape.now }
    requires room { length first.old.items ≡ BATCH_HEAD + record_size shape.now }

    // The batch with the record of the pages.
    ensures sealed { IsSealed first.new.items }
    ensures fits { RecordFits shape.now (drop BATCH_HEAD first.new.items) (header_bytes shape.now)
        (λ k. state_byte (page_at (P.flash_of pages.now) k)) [] }

    // The buffers keep their lengths.
    ensures states_len { length states.new.items ≡ length states.old.items }
    ensures len { length first.new.items ≡ length first.old.items }
{
    note_states(states.as_mut_slice(), shape, pages);
    put_record(first.as_mut_slice(), shape, states.as_slice());
}

/// Commits the batch in memory after the batches of the log, which end at a place. A log that was
/// cut short is not filled up.
fn commit_pending<D: Disk>(
    log: &mut D,
    image: &D,
    shape: &Shape,
    end: usize,
    room: usize,
    batch: &mut Pending,
) -> io::Result<()>
    // The log and the batch.
    requires usable { IsTrue (D.Disk.is_usable log.old) }
    requires fits { end + batch.old.filled < room }
    requires room { room < 2 ^ 63 }

    // What both files hold after a crash, and when the batch is in the log.
    ensures crash { (base : List ℕ) (marks now : List Mark)
        → LogSays D.Disk log.old shape.now base marks end room
        → AllSameBut D.Disk image.now shape.now marks base
        → AreSteps shape.now batch.old.bytes.items BATCH_HEAD now batch.old.filled
        → (l i : List ℕ) → D.Disk.may_leave log.new l → D.Disk.may_leave image.now i
        → ReadAs shape.now l i (flash_after shape.now marks base)
        ⊎ ReadAs shape.now l i (flash_after shape.now (marks ++ now) base) }
    ensures done { OnOk result ((base : List ℕ) (marks now : List Mark)
        → LogSays D.Disk log.old shape.now base marks end room
        → AllSameBut D.Disk image.now shape.now marks base
        → AreSteps shape.now batch.old.bytes.items BATCH_HEAD now batch.old.filled
        → LogSays D.Disk log.new shape.now base (marks ++ now) (end + batch.old.filled) room
        × AllSameBut D.Disk image.now shape.now (marks ++ now) base) }

    // A wrong answer is not forgotten, and the batch keeps its length.
    ensures usable { OnOk result (IsTrue (D.Disk.is_usable log.new)) }
    ensures clean { IsTrue (D.Disk.is_clean log.new) → IsTrue (D.Disk.is_clean log.old) }
    ensures filled { batch.new.filled ≡ batch.old.filled }
    ensures len { length batch.new.bytes.items ≡ length batch.old.bytes.items }
{
    match log.len() {
        Ok(len) if room <= len => {}
        Ok(_) => return Err(io::ErrorKind::UnexpectedEof.into()),
        Err(error) => return Err(error),
    }
    batch.seal();
    barrier(log, image, shape, end, room, batch.as_slice())
}

impl<D: Disk + Drop> RedoLog<D> {
    /// Takes an image and its log, as both were read, and the memory for all later calls. Nothing
    /// is asked of the disks. What is at the place of a page is known once this run wrote it.
    pub fn new(
        alloc: Global,
        log: D,
        image: D,
        shape: Shape,
        replay: &Replay,
        sizes: LogSizes,
    ) -> Result<RedoLog<D>, AllocError>
        requires sizes { (STEP_BYTES + shape.page_bytes ≤ sizes.batch)
            × (BATCH_HEAD + STEP_BYTES + shape.page_bytes < sizes.blank) }
        // If the disks hold what is seen of them, and nothing else, the pages after the replay are
        // kept.
        ensures keeps { IfOk result (λ redo. (kept : Flash)
            → Only (D.Disk.seen log) (D.Disk.may_leave log)
            → Only (D.Disk.seen image) (D.Disk.may_leave image)
            → ReplayedTo shape (D.Disk.seen log) (D.Disk.seen image) replay.now kept
            → KeepsPages D.Disk redo kept kept) }
        ensures shape { IfOk result (λ redo. redo.shape ≡ shape) }
        ensures disks { IfOk result (λ redo. (redo.log ≡ log) × (redo.image ≡ image)) }
    {
        let count = shape.page_count() as usize;
        let extents = Vec::from_elem(alloc, shape.page_bytes() as usize, count)?;
        Ok(RedoLog {
            log,
            image,
            state: LogState::Found,
            end: 0,
            room: 0,
            limit: sizes.limit,
            batch: Pending::new(alloc, sizes.batch)?,
            lacks: set_pages(alloc, &shape, &replay.steps)?,
            extents,
            states: Vec::from_elem(alloc, 0u8, count)?,
            record: Vec::from_elem(alloc, 0u8, BATCH_HEAD + record_len(&shape))?,
            page: Vec::from_elem(alloc, 0u8, shape.page_bytes() as usize)?,
            blank: Vec::from_elem(alloc, 0u8, sizes.blank)?,
            shape,
        })
    }
}

impl<D: Disk> RedoLog<D> {
    /// Whether nothing more is written: a write or a sync failed, or the run has ended.
    pub fn is_lost(&self) -> bool
        ensures ended { self.now.state ≡ LogState.Ended → result ≡ true }
        ensures not { result ≡ false → (self.now.state ≢ LogState.Ended)
            × IsTrue (D.Disk.is_usable self.now.log) × IsTrue (D.Disk.is_usable self.now.image) }
    {
        self.state == LogState::Ended || !self.log.may_be_used() || !self.image.may_be_used()
    }

    /// The log and the image.
    pub fn into_disks(self) -> (D, D)
        ensures { result ≡ (self.log, self.image) }
    {
        (self.log, self.image)
    }

    /// Whether steps wait for a barrier.
    pub fn has_steps(&self) -> bool
        ensures { result ≡ false → self.now.batch.filled ≡ BATCH_HEAD }
    {
        !self.batch.is_empty()
    }

    /// Whether there is room for a step whose front has this length.
    pub fn has_room(&self, len: usize) -> bool
        requires { len ≤ self.now.shape.page_bytes }
        ensures { IsTrue result ↔ HasRoomForStep self.now len }
    {
        let len = STEP_BYTES + len;
        self.state == LogState::Ready
            && self.batch.has_room(len)
            && self.end + self.batch.len() + len < self.room
    }

    /// Makes the steps in memory durable. After an error nothing more is written.
    pub fn barrier(&mut self) -> io::Result<()>
        ensures keeps { IsTrue (D.Disk.is_clean self.new.log) → (kept now : Flash)
            → KeepsPages D.Disk self.old kept now → StillKeeps D.Disk self.new kept now }
        ensures done { OnOk result (IsTrue (D.Disk.is_clean self.new.log) → (kept now : Flash)
            → KeepsPages D.Disk self.old kept now → KeepsPages D.Disk self.new now now) }
        ensures empty { OnOk result ((self.new.batch.filled ≡ BATCH_HEAD)
            × (self.new.state ≡ self.old.state)) }
        ensures clean { IsTrue (D.Disk.is_clean self.new.log)
            → IsTrue (D.Disk.is_clean self.old.log) }
        ensures image_clean { IsTrue (D.Disk.is_clean self.new.image)
            → IsTrue (D.Disk.is_clean self.old.image) }
        ensures shape { self.new.shape ≡ self.old.shape }
    {
        if self.is_lost() {
            return Err(ended());
        }
        if self.batch.is_empty() {
            return Ok(());
        }
        match commit_pending(
            &mut self.log,
            &self.image,
            &self.shape,
            self.end,
            self.room,
            &mut self.batch,
        ) {
            Ok(()) => {
                self.end += self.batch.len();
                self.batch.clear();
                Ok(())
            }
            Err(error) => {
                self.state = LogState::Ended;
                self.batch.clear();
                Err(error)
            }
        }
    }

    /// Writes the pages that the image may lack, and empties the log.
    fn settle<P: Pages>(&mut self, pages: &P) -> io::Result<()>
        // The pages, of which none waits.
        requires shape { P.shape_of pages.now ≡ self.old.shape }
        requires empty { self.old.batch.filled ≡ BATCH_HEAD }

        // What both files keep.
        ensures keeps { IsTrue (D.Disk.is_clean self.new.log) → (kept : Flash)
            → KeepsPages D.Disk self.old kept kept → P.flash_of pages.now ≡ kept
            → StillKeeps D.Disk self.new kept kept }

        // The log after a checkpoint.
        ensures done { OnOk result ((self.new.state ≡ LogState.Ready)
            × (self.new.batch.filled ≡ BATCH_HEAD)
            × (self.new.end + BATCH_HEAD + STEP_BYTES + self.new.shape.page_bytes
            < self.new.room)) }

        // Wrong answers are not forgotten, and the shape stays.
        ensures clean { IsTrue (D.Disk.is_clean self.new.log)
            → IsTrue (D.Disk.is_clean self.old.log) }
        ensures image_clean { IsTrue (D.Disk.is_clean self.new.image)
            → IsTrue (D.Disk.is_clean self.old.image) }
        ensures shape { self.new.shape ≡ self.old.shape }
    {
        if self.is_lost() {
            return Err(ended());
        }
        note_record(&mut self.record, &mut self.states, &self.shape, pages);
        match checkpoint(
            &mut self.image,
            &self.shape,
            pages,
            &self.lacks,
            &mut self.extents,
            self.states.as_mut_slice(),
            self.page.as_mut_slice(),
        ) {
            Ok(()) => {}
            Err(error) => return Err(error),
        }
        let blank = self.blank.as_slice();
        match finish(
            &mut self.log,
            &mut self.image,
            &self.shape,
            &self.record,
            blank,
        ) {
            Ok(()) => {
                self.end = FIRST_BATCH + self.record.len();
                self.room = self.end + blank.len();
                clear_pages(&mut self.lacks);
                self.state = LogState::Ready;
                Ok(())
            }
            Err(error) => {
                self.state = LogState::Ended;
                Err(error)
            }
        }
    }

    /// Sees that a step whose front has this length fits the batch: a full one is committed.
    fn secure_batch(&mut self, len: usize) -> io::Result<()>
        // The length of the page.
        requires { len ≤ self.old.shape.page_bytes }

        // What both files keep.
        ensures keeps { IsTrue (D.Disk.is_clean self.new.log) → (kept now : Flash)
            → KeepsPages D.Disk self.old kept now → StillKeeps D.Disk self.new kept now }

        // The room of the batch.
        ensures fits { OnOk result (self.new.batch.filled + (STEP_BYTES + len)
            ≤ length self.new.batch.bytes.items) }

        // Wrong answers are not forgotten, and the shape stays.
        ensures state { OnOk result (self.new.state ≡ self.old.state) }
        ensures clean { IsTrue (D.Disk.is_clean self.new.log)
            → IsTrue (D.Disk.is_clean self.old.log) }
        ensures image_clean { IsTrue (D.Disk.is_clean self.new.image)
            → IsTrue (D.Disk.is_clean self.old.image) }
        ensures shape { self.new.shape ≡ self.old.shape }
    {
        if self.batch.has_room(STEP_BYTES + len) {
            return Ok(());
        }
        self.barrier()
    }

    /// Writes more zeros ahead.
    fn extend(&mut self) -> io::Result<()>
        // The log.
        requires ready { self.old.state ≡ LogState.Ready }
        requires short { self.old.room < self.old.limit }

        // What both files keep.
        ensures keeps { (kept now : Flash)
            → KeepsPages D.Disk self.old kept now → KeepsPages D.Disk self.new kept now }

        // The room of the log.
        ensures done { OnOk result ((self.new.room ≡ self.old.room + length self.old.blank.items)
            × (self.new.end ≡ self.old.end) × (self.new.batch ≡ self.old.batch)) }

        // Wrong answers are not forgotten, and the shape stays.
        ensures state { self.new.state ≡ self.old.state }
        ensures clean { IsTrue (D.Disk.is_clean self.new.log)
            → IsTrue (D.Disk.is_clean self.old.log) }
        ensures image_clean { IsTrue (D.Disk.is_clean self.new.image)
            → IsTrue (D.Disk.is_clean self.old.image) }
        ensures shape { self.new.shape ≡ self.old.shape }
    {
        if self.is_lost() {
            return Err(ended());
        }
        match extend(&mut self.log, self.end, self.room, &self.blank) {
            Ok(()) => {
                self.room += self.blank.len();
                Ok(())
            }
            Err(error) => Err(error),
        }
    }

    /// Sees that a step whose front has this length, which fits the batch, fits the log.
    fn secure_log<P: Pages>(&mut self, pages: &P, len: usize) -> io::Result<()>
        // The pages, the log and the batch.
        requires shape { P.shape_of pages.now ≡ self.old.shape }
        requires short { len ≤ self.old.shape.page_bytes }
        requires ready { self.old.state ≡ LogState.Ready }
        requires fits { self.old.batch.filled + (STEP_BYTES + len)
            ≤ length self.old.batch.bytes.items }

        // What both files keep.
        ensures keeps { IsTrue (D.Disk.is_clean self.new.log) → (kept now : Flash)
            → KeepsPages D.Disk self.old kept now → P.flash_of pages.now ≡ now
            → StillKeeps D.Disk self.new kept now }

        // The room of the log.
        ensures room { OnOk result (HasRoomForStep self.new len) }

        // Wrong answers are not forgotten, and the shape stays.
        ensures clean { IsTrue (D.Disk.is_clean self.new.log)
            → IsTrue (D.Disk.is_clean self.old.log) }
        ensures image_clean { IsTrue (D.Disk.is_clean self.new.image)
            → IsTrue (D.Disk.is_clean self.old.image) }
        ensures shape { self.new.shape ≡ self.old.shape }
    {
        if self.has_room(len) {
            return Ok(());
        }
        if self.room < self.limit {
            return self.extend();
        }
        match self.barrier() {
            Ok(()) => self.settle(pages),
            Err(error) => Err(error),
        }
    }

    /// Secures room for one more step, whose front has this length: commits a full batch, writes
    /// zeros ahead, or makes a checkpoint of a log that is long, or as it was found. After an error
    /// nothing of the step was done.
    pub fn ready<P: Pages>(&mut self, pages: &P, len: usize) -> io::Result<()>
        // The pages.
        requires shape { P.shape_of pages.now ≡ self.old.shape }
        requires short { len ≤ self.old.shape.page_bytes }

        // What both files keep.
        ensures keeps { IsTrue (D.Disk.is_clean self.new.log) → (kept now : Flash)
            → KeepsPages D.Disk self.old kept now → P.flash_of pages.now ≡ now
            → StillKeeps D.Disk self.new kept now }

        // The room of batch and log.
        ensures room { OnOk result (HasRoomForStep self.new len) }

        // Wrong answers are not forgotten, and the shape stays.
        ensures clean { IsTrue (D.Disk.is_clean self.new.log)
            → IsTrue (D.Disk.is_clean self.old.log) }
        ensures image_clean { IsTrue (D.Disk.is_clean self.new.image)
            → IsTrue (D.Disk.is_clean self.old.image) }
        ensures shape { self.new.shape ≡ self.old.shape }
    {
        match self.begin(pages) {
            Ok(()) => {}
            Err(error) => return Err(error),
        }
        match self.secure_batch(len) {
            Ok(()) => self.secure_log(pages, len),
            Err(error) => Err(error),
        }
    }

    /// Makes a log as it was found ready for steps: the image gets its pages, and zeros follow the
    /// record of the image. A log that is ready stays as it is.
    pub fn begin<P: Pages>(&mut self, pages: &P) -> io::Result<()>
        requires shape { P.shape_of pages.now ≡ self.old.shape }
        ensures keeps { IsTrue (D.Disk.is_clean self.new.log) → (kept now : Flash)
            → KeepsPages D.Disk self.old kept now → P.flash_of pages.now ≡ now
            → StillKeeps D.Disk self.new kept now }
        ensures ready { OnOk result (self.new.state ≡ LogState.Ready) }
        ensures clean { IsTrue (D.Disk.is_clean self.new.log)
            → IsTrue (D.Disk.is_clean self.old.log) }
        ensures image_clean { IsTrue (D.Disk.is_clean self.new.image)
            → IsTrue (D.Disk.is_clean self.old.image) }
        ensures shape { self.new.shape ≡ self.old.shape }
    {
        match self.state {
            LogState::Ready => Ok(()),
            LogState::Found => self.settle(pages),
            LogState::Ended => Err(ended()),
        }
    }

    /// Adds the step that programs a page with this front, after which it has zeros.
    pub fn program(&mut self, page: u32, front: &[u8])
        requires exists { page < spec.page_count self.old.shape }
        requires short { length front.now ≤ self.old.shape.page_bytes }
        requires room { HasRoomForStep self.old (length front.now) }
        ensures keeps { (kept now : Flash) → KeepsPages D.Disk self.old kept now
            → KeepsPages D.Disk self.new kept (after self.old.shape
            (program page (padded self.old.shape.page_bytes front.now)) now) }
        ensures disks { (self.new.log ≡ self.old.log) × (self.new.image ≡ self.old.image) }
        ensures shape { self.new.shape ≡ self.old.shape }
    {
        self.batch.program(&self.shape, page, front);
        note_row(&mut self.lacks, page as usize, 1);
    }

    /// Adds the step that erases a block.
    pub fn erase(&mut self, block: u32)
        requires exists { block < self.old.shape.blocks }
        requires room { HasRoomForStep self.old 0 }
        ensures keeps { (kept now : Flash) → KeepsPages D.Disk self.old kept now
            → KeepsPages D.Disk self.new kept (after self.old.shape (erase block) now) }
        ensures disks { (self.new.log ≡ self.old.log) × (self.new.image ≡ self.old.image) }
        ensures shape { self.new.shape ≡ self.old.shape }
    {
        let count = self.shape.block_pages() as usize;
        self.batch.erase(&self.shape, block);
        note_row(&mut self.lacks, block as usize * count, count);
    }

    /// Ends a run: the image alone is the drive then, and the log, which is shut, may be removed.
    pub fn finish<P: Pages>(&mut self, pages: &P) -> io::Result<()>
        // The pages.
        requires shape { P.shape_of pages.now ≡ self.old.shape }

        // What both files keep.
        ensures keeps { IsTrue (D.Disk.is_clean self.new.log) → (kept now : Flash)
            → KeepsPages D.Disk self.old kept now → P.flash_of pages.now ≡ now
            → StillKeeps D.Disk self.new kept now }

        // The image without its log.
        ensures done { OnOk result (IsTrue (D.Disk.is_clean self.new.log) → (kept now : Flash)
            → KeepsPages D.Disk self.old kept now → P.flash_of pages.now ≡ now
            → ImageAlone D.Disk self.new now) }
        ensures ended { OnOk result (self.new.state ≡ LogState.Ended) }

        // Wrong answers are not forgotten, and the shape stays.
        ensures clean { IsTrue (D.Disk.is_clean self.new.log)
            → IsTrue (D.Disk.is_clean self.old.log) }
        ensures image_clean { IsTrue (D.Disk.is_clean self.new.image)
            → IsTrue (D.Disk.is_clean self.old.image) }
        ensures shape { self.new.shape ≡ self.old.shape }
    {
        match self.barrier() {
            Ok(()) => self.end_run(pages),
            Err(error) => Err(error),
        }
    }

    /// Brings the pages into the image, and shuts the log.
    fn end_run<P: Pages>(&mut self, pages: &P) -> io::Result<()>
        // The pages, of which none waits.
        requires shape { P.shape_of pages.now ≡ self.old.shape }
        requires empty { self.old.batch.filled ≡ BATCH_HEAD }

        // What both files keep.
        ensures keeps { IsTrue (D.Disk.is_clean self.new.log) → (kept : Flash)
            → KeepsPages D.Disk self.old kept kept → P.flash_of pages.now ≡ kept
            → StillKeeps D.Disk self.new kept kept }

        // The image without its log.
        ensures done { OnOk result (IsTrue (D.Disk.is_clean self.new.log) → (kept : Flash)
            → KeepsPages D.Disk self.old kept kept → P.flash_of pages.now ≡ kept
            → ImageAlone D.Disk self.new kept) }
        ensures ended { OnOk result (self.new.state ≡ LogState.Ended) }

        // Wrong answers are not forgotten, and the shape stays.
        ensures clean { IsTrue (D.Disk.is_clean self.new.log)
            → IsTrue (D.Disk.is_clean self.old.log) }
        ensures image_clean { IsTrue (D.Disk.is_clean self.new.image)
            → IsTrue (D.Disk.is_clean self.old.image) }
        ensures shape { self.new.shape ≡ self.old.shape }
    {
        if self.is_lost() {
            return Err(ended());
        }
        match checkpoint(
            &mut self.image,
            &self.shape,
            pages,
            &self.lacks,
            &mut self.extents,
            self.states.as_mut_slice(),
            self.page.as_mut_slice(),
        ) {
            Ok(()) => {}
            Err(error) => return Err(error),
        }
        self.state = LogState::Ended;
        close(&mut self.log, &mut self.image, &self.shape)
    }
}
