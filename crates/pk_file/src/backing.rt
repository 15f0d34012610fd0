//! The files under the pages of a board: the image, and its log once there is one.
ghost use Rattle.std.specs.Prelude.{◌≡◌, ◌<◌, ◌≤◌, ◌+◌, ◌*◌, [], length, None, IfSome, OnOk, OnErr, true, false, slice_set};
ghost use Rattle.pk_base.specs.Shape as spec;
ghost use Rattle.pk_base.specs.Page.{whole};
ghost use Rattle.pk_base.specs.Mark.{program, erase, after};
ghost use Rattle.pk_nand.specs.BoardState.{shape_or_none};
ghost use Rattle.pk_nand.specs.Calls.{LeftBehind};
ghost use Rattle.pk_redo.specs.declared.batch.TheConstants.{BATCH_HEAD};
ghost use Rattle.pk_file.specs.Slots.{pages_of, AllFit};

use crate::image_file::{ImageFile, PageFile};
use crate::image_log::{ImageLog, new_log};
use crate::logged::{commit_steps, erase_logged, program_logged};
use crate::row::{PageWrites, Row};
use crate::slot::Slot;
use crate::slots::{erase_slots, known, set_slot};
use crate::trimmed::Trimmed;
use pk_base::Shape;
use pk_disk::OpenDisk;
use pk_nand::NandFault;
use std::alloc::Global;

/// How changes get to the image, and when they are on the disk.
#[derive(Clone, Copy, Debug, PartialEq, Eq)]
pub enum Keeping {
    /// Pages that follow one another are written together, and the system brings them to the disk
    /// when it likes.
    Rows,
    /// Each page is written by its program, and is on the disk when this returns or when the system
    /// likes.
    Direct {
        is_durable: bool,
    },
    /// Changes go to a log beside the image, and are on the disk before anything leaves: all of
    /// them, or all but the first ones, which are written to the image, each row synced, as are all
    /// if no log can be made. A log that is made ahead is made when the image is opened, with all of
    /// its room, and takes all changes.
    Log {
        from_the_first: bool,
        is_made_ahead: bool,
    },
}

/// Changes of a run that are written to the image before a log is made: a run of one word makes
/// none.
const CHANGES_WITHOUT_LOG: u32 = 16;

impl Keeping {
    /// Whether what is written has to be on the disk.
    pub fn is_durable(self) -> bool {
        match self {
            Keeping::Rows => false,
            Keeping::Direct { is_durable } => is_durable,
            Keeping::Log { .. } => true,
        }
    }

    /// Whether changes go to a log.
    fn uses_log(self) -> bool {
        matches!(&self, Keeping::Log { .. })
    }

    /// How many changes of a run go to no log.
    fn first_changes(self) -> u32 {
        match self {
            Keeping::Log {
                from_the_first: true,
                ..
            } => 0,
            _ => CHANGES_WITHOUT_LOG,
        }
    }

    /// Whether a log is made when the image is opened.
    pub fn is_made_ahead(self) -> bool {
        match self {
            Keeping::Log { is_made_ahead, .. } => is_made_ahead,
            _ => false,
        }
    }

    /// When a page is written that goes to no log.
    pub fn writes(self) -> PageWrites {
        match self {
            Keeping::Direct { .. } => PageWrites::Direct,
            _ => PageWrites::Gathered,
        }
    }
}

/// The image file of a board, and its log.
#[derive(Drop)]
pub struct Backing<'a, D: OpenDisk> {
    rt: &'a HostRuntime,
    path: &'a str,
    pub file: Option<ImageFile>,
    /// The pages that are not in the file yet, where they go to no log.
    pub row: Row,
    /// The log that was found, or made by this run.
    pub log: Option<ImageLog<D>>,
    /// Whether changes go to a log.
    uses_log: bool,
    /// How many more changes are written to the image before a log is made.
    left: u32,
    /// Whether a change was asked for.
    is_changed: bool,
}

/// Whether a page has the same bytes as the one before it, as the second of a pair that ends a
/// commit or a root.
fn ends_pair(slots: &Vec<Slot>, page: u32, kept: &Trimmed) -> bool
    requires { page < length slots.now.items }
{
    if page == 0 {
        return false;
    }
    match &slots[page as usize - 1] {
        Slot::Whole(other) => other.front.as_slice() == kept.front.as_slice(),
        _ => false,
    }
}

/// Programs a page in memory, and adds it to those that wait for the file. They are written before,
/// if it is not the next of them; and after it, if it ends a pair or is not to wait. Without memory
/// for the page nothing is done.
fn program_page(
    alloc: Global,
    file: &mut Option<ImageFile>,
    shape: &Option<Shape>,
    slots: &mut Vec<Slot>,
    row: &mut Row,
    page: u32,
    bytes: &[u8],
) -> Result<(), NandFault>
    requires exists { page < length slots.old.items }
    requires full { length bytes.now ≡ (shape_or_none shape.now).page_bytes }
    requires count { length slots.old.items ≡ spec.page_count (shape_or_none shape.now) }
    requires fit { AllFit (shape_or_none shape.now) slots.old.items }
    requires row { row.old.first + length row.old.extents.items ≤ length slots.old.items }

    // The whole effect, or a part of it as a cut may leave it.
    ensures pages { OnOk result
        (pages_of slots.new.items ≡ slice_set (pages_of slots.old.items) page (whole bytes.now)) }
    ensures left { OnErr result (LeftBehind (shape_or_none shape.now) (program page bytes.now)
        (pages_of slots.old.items) (pages_of slots.new.items) None None) }

    // The board keeps its form.
    ensures count { length slots.new.items ≡ length slots.old.items }
    ensures fit { AllFit (shape_or_none shape.now) slots.new.items }
    ensures row { row.new.first + length row.new.extents.items ≤ length slots.new.items }

    // A page that is not to wait does not.
    ensures direct { OnOk result (row.old.writes ≡ PageWrites.Direct
        → row.new.extents.items ≡ []) }
{
    known(bytes);
    let Ok(kept) = Trimmed::of(alloc, bytes) else {
        return Err(NandFault);
    };
    match (file, shape) {
        (Some(file), Some(shape)) => {
            if !row.add(file, shape, slots, page) {
                return Err(NandFault);
            }
            let is_direct = row.is_direct();
            let is_end = ends_pair(slots, page, &kept);
            let torn = slots[page as usize].torn(bytes, kept.front.len());
            set_slot(slots, page as usize, Slot::Whole(kept));
            if !is_direct && !is_end {
                return Ok(());
            }
            if row.write(file, shape, slots) {
                return Ok(());
            }
            if !is_direct {
                return Err(NandFault);
            }
            // the file may have it in part
            set_slot(slots, page as usize, torn);
            Err(NandFault)
        }
        _ => Err(NandFault),
    }
}

/// The barrier before posts leave: writes the pages that wait to the file.
fn write_waiting(
    file: &mut Option<ImageFile>,
    shape: &Option<Shape>,
    slots: &Vec<Slot>,
    row: &mut Row,
) -> bool
    // The pages and the row.
    requires count { length slots.now.items ≡ spec.page_count (shape_or_none shape.now) }
    requires fit { AllFit (shape_or_none shape.now) slots.now.items }
    requires row { row.old.first + length row.old.extents.items ≤ length slots.now.items }

    // The row.
    ensures row { row.new.first + length row.new.extents.items ≤ length slots.now.items }

    // If it is written, and if it was lost before.
    ensures none { result ≡ true → row.new.extents.items ≡ [] }
    ensures kept { result ≡ true → row.new.is_lost ≡ false }
    ensures lost { row.old.is_lost ≡ true → (result ≡ false) × (row.new.is_lost ≡ true) }
{
    match (file, shape) {
        (Some(file), Some(shape)) => row.write(file, shape, slots),
        _ => row.is_empty() && !row.is_lost(),
    }
}

/// Erases a block in the file and in memory, after the pages that wait were written. A write or
/// sync that fails erases the pages whose state bytes were set.
fn erase_block(
    file: &mut Option<ImageFile>,
    shape: &Option<Shape>,
    slots: &mut Vec<Slot>,
    row: &mut Row,
    block: u32,
) -> Result<(), NandFault>
    requires exists { block < (shape_or_none shape.now).blocks }
    requires count { length slots.old.items ≡ spec.page_count (shape_or_none shape.now) }
    requires fit { AllFit (shape_or_none shape.now) slots.old.items }
    requires row { row.old.first + length row.old.extents.items ≤ length slots.old.items }

    // The whole effect, or a part of it as a cut may leave it.
    ensures pages { OnOk result (pages_of slots.new.items
        ≡ after (shape_or_none shape.now) (erase block) (pages_of slots.old.items)) }
    ensures left { OnErr result (LeftBehind (shape_or_none shape.now) (erase block)
        (pages_of slots.old.items) (pages_of slots.new.items) None None) }

    // The board keeps its form.
    ensures count { length slots.new.items ≡ length slots.old.items }
    ensures fit { AllFit (shape_or_none shape.now) slots.new.items }
    ensures row { row.new.first + length row.new.extents.items ≤ length slots.new.items }
{
    let (Some(file), Some(shape)) = (file, shape) else {
        return Err(NandFault);
    };
    let count = shape.block_pages();
    let first = block * count;
    let cleared = row.erase(file, shape, slots, first, count);
    erase_slots(slots, first as usize, cleared.count as usize);
    if cleared.is_done {
        return Ok(());
    }
    Err(NandFault)
}

/// Programs a page of an image that has a log.
fn program_beside<D: OpenDisk>(
    alloc: Global,
    log: &mut ImageLog<D>,
    shape: &Option<Shape>,
    slots: &mut Vec<Slot>,
    page: u32,
    bytes: &[u8],
) -> Result<(), NandFault>
    // The page and the image.
    requires exists { page < length slots.old.items }
    requires full { length bytes.now ≡ (shape_or_none shape.now).page_bytes }
    requires count { length slots.old.items ≡ spec.page_count (shape_or_none shape.now) }
    requires fit { AllFit (shape_or_none shape.now) slots.old.items }

    // The pages; they stay if the program fails.
    ensures pages { OnOk result
        (pages_of slots.new.items ≡ slice_set (pages_of slots.old.items) page (whole bytes.now)) }
    ensures left { OnErr result (slots.new ≡ slots.old) }

    // What is unchanged.
    ensures count { length slots.new.items ≡ length slots.old.items }
    ensures fit { AllFit (shape_or_none shape.now) slots.new.items }
{
    let Some(shape) = shape else {
        return Err(NandFault);
    };
    if !log.is_of(shape) {
        return Err(NandFault);
    }
    program_logged(alloc, &mut log.redo, shape, slots, page, bytes)
}

/// Erases a block of an image that has a log.
fn erase_beside<D: OpenDisk>(
    log: &mut ImageLog<D>,
    shape: &Option<Shape>,
    slots: &mut Vec<Slot>,
    block: u32,
) -> Result<(), NandFault>
    // The block and the image.
    requires exists { block < (shape_or_none shape.now).blocks }
    requires count { length slots.old.items ≡ spec.page_count (shape_or_none shape.now) }
    requires fit { AllFit (shape_or_none shape.now) slots.old.items }

    // The pages; they stay if the erase fails.
    ensures pages { OnOk result (pages_of slots.new.items
        ≡ after (shape_or_none shape.now) (erase block) (pages_of slots.old.items)) }
    ensures left { OnErr result (slots.new ≡ slots.old) }

    // What is unchanged.
    ensures count { length slots.new.items ≡ length slots.old.items }
    ensures fit { AllFit (shape_or_none shape.now) slots.new.items }
{
    let Some(shape) = shape else {
        return Err(NandFault);
    };
    if !log.is_of(shape) {
        return Err(NandFault);
    }
    erase_logged(&mut log.redo, shape, slots, block)
}

/// Makes the steps that wait durable, if the image was not cut short: a checkpoint would fill it up
/// with zeros.
fn commit<D: OpenDisk>(file: &mut Option<ImageFile>, row: &mut Row, log: &mut ImageLog<D>) -> bool
    ensures row { (row.new.first ≡ row.old.first) × (row.new.extents ≡ row.old.extents) }
    ensures none { result ≡ true → row.new.extents.items ≡ [] }
    ensures kept { result ≡ true → row.new.is_lost ≡ false }
    ensures lost { row.old.is_lost ≡ true → (result ≡ false) × (row.new.is_lost ≡ true) }
    ensures none_waits { result ≡ true → log.new.redo.batch.filled ≡ BATCH_HEAD }
{
    if row.is_lost() || !row.is_empty() || log.redo.is_lost() {
        return false;
    }
    if !log.redo.has_steps() {
        return true;
    }
    if is_whole(file) && commit_steps(&mut log.redo) {
        return true;
    }
    row.lose();
    false
}

/// Whether an image is as long as it was.
fn is_whole(file: &mut Option<ImageFile>) -> bool {
    match file {
        Some(file) => file.begin().is_ok(),
        None => false,
    }
}

impl<'a, D: OpenDisk> Backing<'a, D> {
    /// No file is open.
    pub fn new(rt: &'a HostRuntime, path: &'a str, keeping: Keeping) -> Backing<'a, D>
        ensures first { result.row.first ≡ 0 }
        ensures none { length result.row.extents.items ≡ 0 }
    {
        Backing {
            rt,
            path,
            file: None,
            row: Row::new(rt.alloc(), keeping.is_durable(), keeping.writes()),
            log: None,
            uses_log: keeping.uses_log(),
            left: keeping.first_changes(),
            is_changed: false,
        }
    }

    /// Brings what a log says into the image, and removes it.
    fn end_log(&mut self, shape: &Shape, slots: &Vec<Slot>) -> bool
        requires count { length slots.now.items ≡ spec.page_count shape.now }
        requires fit { AllFit shape.now slots.now.items }
        ensures { (self.new.row.first ≡ self.old.row.first)
            × (self.new.row.extents ≡ self.old.row.extents) }
    {
        let Some(log) = self.log.take() else {
            return true;
        };
        match log.end(self.rt, shape, slots) {
            Ok(()) => true,
            Err(_) => {
                self.row.lose();
                false
            }
        }
    }

    /// A log for the image, which has all pages; None if none can be made.
    fn made_log(&self, shape: &Shape) -> Option<ImageLog<D>> {
        match &self.file {
            Some(file) => new_log(self.rt, self.path, file, *shape, false).ok(),
            None => None,
        }
    }

    /// Makes the log of an image that has all pages. If that fails, each row is synced from now on.
    fn begin_log(&mut self, shape: &Shape, slots: &Vec<Slot>) -> bool
        requires count { length slots.now.items ≡ spec.page_count shape.now }
        requires fit { AllFit shape.now slots.now.items }
        requires row { self.old.row.first + length self.old.row.extents.items
            ≤ length slots.now.items }
        ensures { self.new.row.first + length self.new.row.extents.items
            ≤ length slots.now.items }
    {
        let own = Some(*shape);
        if !write_waiting(&mut self.file, &own, slots, &mut self.row) {
            return false;
        }
        self.log = self.made_log(shape);
        self.uses_log = self.log.is_some();
        true
    }

    /// Sees before a change that it can go where it has to.
    fn prepare(&mut self, shape: &Option<Shape>, slots: &Vec<Slot>) -> bool
        requires count { length slots.now.items ≡ spec.page_count (shape_or_none shape.now) }
        requires fit { AllFit (shape_or_none shape.now) slots.now.items }
        requires row { self.old.row.first + length self.old.row.extents.items
            ≤ length slots.now.items }
        ensures { self.new.row.first + length self.new.row.extents.items
            ≤ length slots.now.items }
    {
        let Some(shape) = shape else {
            return false;
        };
        self.is_changed = true;
        if self.row.is_lost() {
            return false;
        }
        if self.log.is_some() {
            return self.uses_log || self.end_log(shape, slots);
        }
        if !self.uses_log {
            return true;
        }
        if self.left > 0 {
            self.left -= 1;
            return true;
        }
        self.begin_log(shape, slots)
    }

    /// Programs a page in memory, and brings it to where it has to go.
    pub fn program(
        &mut self,
        shape: &Option<Shape>,
        slots: &mut Vec<Slot>,
        page: u32,
        bytes: &[u8],
    ) -> Result<(), NandFault>
        requires exists { page < length slots.old.items }
        requires full { length bytes.now ≡ (shape_or_none shape.now).page_bytes }
        requires count { length slots.old.items ≡ spec.page_count (shape_or_none shape.now) }
        requires fit { AllFit (shape_or_none shape.now) slots.old.items }
        requires row { self.old.row.first + length self.old.row.extents.items
            ≤ length slots.old.items }

        // The whole effect, or a part of it as a cut may leave it.
        ensures pages { OnOk result
            (pages_of slots.new.items ≡ slice_set (pages_of slots.old.items) page
            (whole bytes.now)) }
        ensures left { OnErr result (LeftBehind (shape_or_none shape.now) (program page bytes.now)
            (pages_of slots.old.items) (pages_of slots.new.items) None None) }

        // The board keeps its form.
        ensures count { length slots.new.items ≡ length slots.old.items }
        ensures fit { AllFit (shape_or_none shape.now) slots.new.items }
        ensures row { self.new.row.first + length self.new.row.extents.items
            ≤ length slots.new.items }
    {
        if !self.prepare(shape, slots) {
            return Err(NandFault);
        }
        let alloc = self.rt.alloc();
        match &mut self.log {
            Some(log) => program_beside(alloc, log, shape, slots, page, bytes),
            None => program_page(
                alloc,
                &mut self.file,
                shape,
                slots,
                &mut self.row,
                page,
                bytes,
            ),
        }
    }

    /// Erases a block in memory, and where it has to be.
    pub fn erase(
        &mut self,
        shape: &Option<Shape>,
        slots: &mut Vec<Slot>,
        block: u32,
    ) -> Result<(), NandFault>
        requires exists { block < (shape_or_none shape.now).blocks }
        requires count { length slots.old.items ≡ spec.page_count (shape_or_none shape.now) }
        requires fit { AllFit (shape_or_none shape.now) slots.old.items }
        requires row { self.old.row.first + length self.old.row.extents.items
            ≤ length slots.old.items }

        // The whole effect, or a part of it as a cut may leave it.
        ensures pages { OnOk result (pages_of slots.new.items
            ≡ after (shape_or_none shape.now) (erase block) (pages_of slots.old.items)) }
        ensures left { OnErr result (LeftBehind (shape_or_none shape.now) (erase block)
            (pages_of slots.old.items) (pages_of slots.new.items) None None) }

        // The board keeps its form.
        ensures count { length slots.new.items ≡ length slots.old.items }
        ensures fit { AllFit (shape_or_none shape.now) slots.new.items }
        ensures row { self.new.row.first + length self.new.row.extents.items
            ≤ length slots.new.items }
    {
        if !self.prepare(shape, slots) {
            return Err(NandFault);
        }
        match &mut self.log {
            Some(log) => erase_beside(log, shape, slots, block),
            None => erase_block(&mut self.file, shape, slots, &mut self.row, block),
        }
    }

    /// The barrier before posts leave: all changes are in the files, and on the disk if they have
    /// to be.
    pub fn barrier(&mut self, shape: &Option<Shape>, slots: &Vec<Slot>) -> bool
        // The pages and the row.
        requires count { length slots.now.items ≡ spec.page_count (shape_or_none shape.now) }
        requires fit { AllFit (shape_or_none shape.now) slots.now.items }
        requires row { self.old.row.first + length self.old.row.extents.items
            ≤ length slots.now.items }

        // The row.
        ensures row { self.new.row.first + length self.new.row.extents.items
            ≤ length slots.now.items }

        // If all is written, and if the row was lost before.
        ensures none { result ≡ true → self.new.row.extents.items ≡ [] }
        ensures kept { result ≡ true → self.new.row.is_lost ≡ false }
        ensures lost { self.old.row.is_lost ≡ true
            → (result ≡ false) × (self.new.row.is_lost ≡ true) }
        ensures none_waits { result ≡ true
            → IfSome self.new.log (λ log. log.redo.batch.filled ≡ BATCH_HEAD) }
    {
        match &mut self.log {
            Some(log) => commit(&mut self.file, &mut self.row, log),
            None => write_waiting(&mut self.file, shape, slots, &mut self.row),
        }
    }

    /// Whether the log is brought into the image at the end: a change was asked for, or this run
    /// made it.
    fn ends_log(&self) -> bool {
        if self.is_changed {
            return true;
        }
        match &self.log {
            Some(log) => log.is_new(),
            None => false,
        }
    }

    /// The end of a run: the image alone is the drive, unless the run changed nothing of an image
    /// and its log.
    pub fn end(&mut self, shape: &Option<Shape>, slots: &Vec<Slot>) -> bool
        requires count { length slots.now.items ≡ spec.page_count (shape_or_none shape.now) }
        requires fit { AllFit (shape_or_none shape.now) slots.now.items }
        ensures { (self.new.row.first ≡ self.old.row.first)
            × (self.new.row.extents ≡ self.old.row.extents) }
    {
        match shape {
            Some(shape) if self.ends_log() => self.end_log(shape, slots),
            _ => true,
        }
    }
}
