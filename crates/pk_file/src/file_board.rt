//! A board over a file, standard input and standard output. It records neither input, posted bytes
//! nor trail.
ghost use Rattle.std.specs.Prelude.{◌≡◌, ◌≢◌, ◌<◌, ◌≤◌, ◌+◌, ◌*◌, ◌/◌, ◌++◌, [], length, Option, None, Some, Err, OnOk, OnErr, true, false, slice_set};
ghost use Rattle.std.specs.Io.KnownBytes.{Appends};
ghost use Rattle.pk_base.specs.Shape as spec;
ghost use Rattle.pk_base.specs.Page.{whole};
ghost use Rattle.pk_base.specs.Mark.{program, erase, after};
ghost use Rattle.pk_nand.specs.BoardState.{shape_or_none};
ghost use Rattle.pk_nand.specs.Calls.{Rose, LeftBehind};
ghost use Rattle.pk_file.specs.Slots.{pages_of, AllFit};

use crate::backing::{Backing, Keeping};
use crate::incoming::Incoming;
use crate::outgoing::Outgoing;
use crate::pages_to_file::{create_image, find_image};
use crate::row::Row;
use crate::slot::Slot;
use crate::slots::{erased_slots, read_slot};
use pk_base::Shape;
use pk_disk::{DiskFile, OpenDisk, Unknown};
use pk_nand::{Board, HostFault, LoadFault, Nand, NandFault, PageRead, raise};
use std::alloc::Global;
use std::io::Write;
use std::rt::{Stdin, Stdout};

/// The image file of a drive, with its pages in memory, and standard input and output.
#[derive(Drop)]
pub struct FileBoard<'a, D: OpenDisk = DiskFile<Unknown>> {
    rt: &'a HostRuntime,
    path: &'a str,
    keeping: Keeping,
    backing: Backing<'a, D>,
    /// Whether a load found no file, and none was made since.
    bare: bool,
    shape: Option<Shape>,
    slots: Vec<Slot>,
    input: Incoming<Stdin>,
    output: Outgoing<Stdout>,
    reads: u64,
    programs: u64,
    erases: u64,
    flash_faults: u64,
    read_faults: u64,
    stop_faults: u64,
    failed_at: Option<u32>,
    bad: Option<u64>,
    in_faults: u64,
    out_faults: u64,
    ghost count: { length slots.items ≡ spec.page_count (shape_or_none shape) },
    ghost fit: { AllFit (shape_or_none shape) slots.items },
    ghost waiting: { backing.row.first + length backing.row.extents.items ≤ length slots.items },
}

/// How the end of a run failed.
#[derive(Clone, Copy, Debug, PartialEq, Eq)]
pub enum EndFault {
    /// Changes that waited could not be written, or brought to the disk. Nothing leaves after it.
    Flash,
    /// The output failed.
    Output,
    /// All that was posted has left, but the log could not be brought into the image, and stays.
    Log,
}

/// Sends what is gathered, and these bytes after it, once no change waits. If changes that waited
/// were lost, now or before, nothing leaves.
fn deliver<D: OpenDisk, W: Write + Drop>(
    backing: &mut Backing<'_, D>,
    shape: &Option<Shape>,
    slots: &Vec<Slot>,
    output: &mut Outgoing<W>,
    bytes: &[u8],
) -> Result<(), EndFault>
    requires count { length slots.now.items ≡ spec.page_count (shape_or_none shape.now) }
    requires fit { AllFit (shape_or_none shape.now) slots.now.items }
    requires row { backing.old.row.first + length backing.old.row.extents.items
        ≤ length slots.now.items }
    ensures row { backing.new.row.first + length backing.new.row.extents.items
        ≤ length slots.now.items }

    // What was posted has left, and no page waits.
    ensures sent { OnOk result (Appends (W.contents output.old.to) (W.contents output.new.to)
        (output.old.gathered.items ++ bytes.now)) }
    ensures none_waits { OnOk result
        ((backing.new.row.extents.items ≡ []) × (output.new.gathered.items ≡ [])) }
    ensures written { result ≡ Err EndFault.Output → backing.new.row.extents.items ≡ [] }

    // Nothing has left, nor will.
    ensures held { result ≡ Err EndFault.Flash → output.new ≡ output.old }
    ensures lost { backing.old.row.is_lost ≡ true
        → (result ≡ Err EndFault.Flash) × (backing.new.row.is_lost ≡ true) }
    ensures sent_or_not { result ≢ Err EndFault.Log }
{
    if !backing.barrier(shape, slots) {
        return Err(EndFault::Flash);
    }
    match output.send(backing, bytes) {
        Ok(()) => Ok(()),
        Err(_) => Err(EndFault::Output),
    }
}

/// Sends what is gathered if the input may wait. A failure is reported by the next post, or at the
/// end.
fn deliver_gathered<D: OpenDisk, W: Write + Drop>(
    may_wait: bool,
    backing: &mut Backing<'_, D>,
    shape: &Option<Shape>,
    slots: &Vec<Slot>,
    output: &mut Outgoing<W>,
)
    requires count { length slots.now.items ≡ spec.page_count (shape_or_none shape.now) }
    requires fit { AllFit (shape_or_none shape.now) slots.now.items }
    requires row { backing.old.row.first + length backing.old.row.extents.items
        ≤ length slots.now.items }
    ensures { backing.new.row.first + length backing.new.row.extents.items
        ≤ length slots.now.items }
{
    if !may_wait || output.is_empty() {
        return;
    }
    let _ = deliver(backing, shape, slots, output, &[]);
}

/// The end of a run: what was posted leaves, and the image alone is the drive.
fn close<D: OpenDisk, W: Write + Drop>(
    backing: &mut Backing<'_, D>,
    shape: &Option<Shape>,
    slots: &Vec<Slot>,
    output: &mut Outgoing<W>,
) -> Result<(), EndFault>
    // The pages and the row.
    requires count { length slots.now.items ≡ spec.page_count (shape_or_none shape.now) }
    requires fit { AllFit (shape_or_none shape.now) slots.now.items }
    requires row { backing.old.row.first + length backing.old.row.extents.items
        ≤ length slots.now.items }

    // What does not wait any more, by how the run ended.
    ensures row { backing.new.row.first + length backing.new.row.extents.items
        ≤ length slots.now.items }
    ensures none_waits { OnOk result
        ((backing.new.row.extents.items ≡ []) × (output.new.gathered.items ≡ [])) }
    ensures written { result ≡ Err EndFault.Output → backing.new.row.extents.items ≡ [] }
    ensures held { result ≡ Err EndFault.Flash → output.new ≡ output.old }
    ensures sent { result ≡ Err EndFault.Log → output.new.gathered.items ≡ [] }
    ensures lost { backing.old.row.is_lost ≡ true → result ≡ Err EndFault.Flash }
{
    match deliver(backing, shape, slots, output, &[]) {
        Ok(()) => {}
        Err(fault) => return Err(fault),
    }
    if backing.end(shape, slots) {
        return Ok(());
    }
    Err(EndFault::Log)
}

impl<'a> FileBoard<'a, DiskFile<Unknown>> {
    /// A board whose image is the file at this path. Nothing is opened before `load` or `make`.
    /// Pages that were programmed are gathered and written before a post, and the system brings
    /// them to the disk when it likes.
    pub fn new(rt: &'a HostRuntime, path: &'a str) -> FileBoard<'a, DiskFile<Unknown>>
        ensures { result.shape ≡ None }
    {
        FileBoard::with(rt, path, Keeping::Rows)
    }
}

impl<'a, D: OpenDisk> FileBoard<'a, D> {
    /// The same, with changes that are kept so. `D` is what a file is as a disk: it says what a loss
    /// of power may leave of a write to the log.
    pub fn with(rt: &'a HostRuntime, path: &'a str, keeping: Keeping) -> FileBoard<'a, D>
        ensures { result.shape ≡ None }
    {
        FileBoard {
            rt,
            path,
            keeping,
            backing: Backing::new(rt, path, keeping),
            bare: false,
            shape: None,
            slots: Vec::new(rt.alloc()),
            input: Incoming::new(rt.alloc(), rt.stdin()),
            output: Outgoing::new(rt.alloc(), rt.stdout()),
            reads: 0,
            programs: 0,
            erases: 0,
            flash_faults: 0,
            read_faults: 0,
            stop_faults: 0,
            failed_at: None,
            bad: None,
            in_faults: 0,
            out_faults: 0,
        }
    }

    /// Sends what was posted and has not left, after a barrier, and brings the log into the image:
    /// the end of a run, without which what was posted last is lost. Success means that all pages
    /// are in the image, and on the disk if they have to be, and that all that was posted was sent.
    pub fn finish(&mut self) -> Result<(), EndFault>
        ensures ok { OnOk result (self.new.out_faults ≡ self.old.out_faults) }
        ensures err { OnErr result (Rose self.old.out_faults self.new.out_faults) }
        ensures flash { (self.new.shape ≡ self.old.shape) × (self.new.slots ≡ self.old.slots) }
        ensures written { OnOk result ((self.new.backing.row.extents.items ≡ [])
            × (self.new.output.gathered.items ≡ [])) }

        // What remains after each cause.
        ensures output { result ≡ Err EndFault.Output → self.new.backing.row.extents.items ≡ [] }
        ensures held { result ≡ Err EndFault.Flash → self.new.output ≡ self.old.output }
        ensures sent { result ≡ Err EndFault.Log → self.new.output.gathered.items ≡ [] }
        ensures lost { self.old.backing.row.is_lost ≡ true → result ≡ Err EndFault.Flash }
    {
        let outcome = close(
            &mut self.backing,
            &self.shape,
            &self.slots,
            &mut self.output,
        );
        match outcome {
            Ok(()) => Ok(()),
            Err(fault) => {
                raise(&mut self.out_faults);
                Err(fault)
            }
        }
    }

    fn block_of(&self, page: u32) -> Option<u32>
        requires { page < length self.now.slots.items }
        ensures { result ≡ Some (page / (shape_or_none self.now.shape).block_pages) }
    {
        match &self.shape {
            None => unreachable!(),
            Some(shape) => Some(page / shape.block_pages()),
        }
    }
}

impl<D: OpenDisk> Nand for FileBoard<'_, D> {
    ghost state = { λ f. record {
      shape = f.shape;
      bare = f.bare;
      pages = pages_of f.slots.items;
      trail = None;
      reads = f.reads;
      programs = f.programs;
      erases = f.erases;
      flash_faults = f.flash_faults;
      read_faults = f.read_faults;
      stop_faults = f.stop_faults;
      failed_at = f.failed_at;
      bad = f.bad;
      input = None;
      posted = None;
      in_faults = f.in_faults;
      out_faults = f.out_faults;
    } };

    #[tactic(auto, using(crate::proofs::Slotting::ready_flash))]
    fn load(&mut self, alloc: Global) -> Result<Option<Shape>, LoadFault> {
        self.bad = None;
        if self.shape.is_some() {
            return Ok(self.shape);
        }
        match find_image(self.rt, alloc, self.path, self.keeping) {
            Ok(None) => {
                self.bare = true;
                Ok(None)
            }
            Ok(Some(image)) => {
                self.bare = false;
                self.backing.row = image.row;
                self.backing.file = Some(image.file);
                self.backing.log = image.log;
                self.slots = image.slots;
                self.shape = Some(image.shape);
                Ok(self.shape)
            }
            Err(LoadFault::Fault) => {
                raise(&mut self.flash_faults);
                Err(LoadFault::Fault)
            }
            Err(LoadFault::BadImage { at }) => {
                self.bad = Some(at);
                Err(LoadFault::BadImage { at })
            }
            Err(LoadFault::Memory) => Err(LoadFault::Memory),
        }
    }

    #[tactic(auto, using(crate::proofs::Slotting::ready_flash))]
    fn make(&mut self, alloc: Global, shape: Shape) -> Result<(), LoadFault> {
        let Ok(slots) = erased_slots(alloc, &shape) else {
            return Err(LoadFault::Memory);
        };
        let keeping = self.keeping;
        let Ok(row) = Row::for_shape(alloc, &shape, keeping.is_durable(), keeping.writes()) else {
            return Err(LoadFault::Memory);
        };
        self.bare = false;
        let Ok(file) = create_image(self.rt, self.path, &shape, keeping.is_durable()) else {
            raise(&mut self.flash_faults);
            return Err(LoadFault::Fault);
        };
        self.backing.row = row;
        self.backing.file = Some(file);
        self.backing.log = None;
        self.slots = slots;
        self.shape = Some(shape);
        Ok(())
    }

    fn read(&mut self, page: u32, into: &mut [u8]) -> Result<PageRead, NandFault> {
        raise(&mut self.reads);
        Ok(read_slot(&self.slots, page as usize, into))
    }

    fn program(&mut self, page: u32, bytes: &[u8]) -> Result<(), NandFault> {
        raise(&mut self.programs);
        match self
            .backing
            .program(&self.shape, &mut self.slots, page, bytes)
        {
            Ok(()) => Ok(()),
            Err(_) => {
                raise(&mut self.flash_faults);
                raise(&mut self.stop_faults);
                self.failed_at = self.block_of(page);
                Err(NandFault)
            }
        }
    }

    fn erase(&mut self, block: u32) -> Result<(), NandFault> {
        raise(&mut self.erases);
        match self.backing.erase(&self.shape, &mut self.slots, block) {
            Ok(()) => Ok(()),
            Err(_) => {
                raise(&mut self.flash_faults);
                raise(&mut self.stop_faults);
                self.failed_at = Some(block);
                Err(NandFault)
            }
        }
    }

    fn read_count(&self) -> u64 {
        // so that these counts are known to be of 64 bits
        let _read_faults = self.read_faults;
        let _flash_faults = self.flash_faults;
        let _stop_faults = self.stop_faults;
        self.reads
    }
}

impl<D: OpenDisk> Board for FileBoard<'_, D> {
    fn fetch(&mut self, into: &mut [u8]) -> Result<usize, HostFault> {
        deliver_gathered(
            self.input.may_wait(),
            &mut self.backing,
            &self.shape,
            &self.slots,
            &mut self.output,
        );
        match self.input.fetch(into) {
            Ok(count) => Ok(count),
            Err(_) => {
                raise(&mut self.in_faults);
                Err(HostFault { given: 0 })
            }
        }
    }

    fn post(&mut self, bytes: &[u8]) -> Result<(), HostFault> {
        if self.output.gather(bytes) {
            return Ok(());
        }
        let outcome = deliver(
            &mut self.backing,
            &self.shape,
            &self.slots,
            &mut self.output,
            bytes,
        );
        match outcome {
            Ok(()) => Ok(()),
            Err(_) => {
                raise(&mut self.out_faults);
                Err(HostFault { given: 0 })
            }
        }
    }
}
