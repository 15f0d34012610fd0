//! A board over an image and its log that records its input, its trail and what was posted.
ghost use Rattle.std.specs.Prelude.{◌≡◌, ◌≤◌, ◌<◌, ◌+◌, ◌/◌, ◌++◌, [], length, drop, false, Some, None, IfOk, IsTrue};
ghost use Rattle.pk_nand.specs.Seen.{marks as seen_marks};
ghost use Rattle.pk_file.specs.Slots.{pages_of};
ghost use Rattle.pk_durable.specs.Durable.{opened_marks};

use crate::flash::DurableFlash;
use pk_base::Shape;
use pk_file::read_slot;
use pk_nand::{Board, HostFault, LoadFault, Nand, NandFault, PageRead, raise};
use sqlite_disk::Disk;
use std::alloc::Global;

/// A board over an image and its log, with its input in memory. It has an image, and none is made.
#[derive(Drop)]
pub struct DurableBoard<D: Disk> {
    alloc: Global,
    pub(crate) flash: DurableFlash<D>,
    /// Whether a load found no image: never.
    pub(crate) bare: bool,
    pub(crate) input: Vec<u8>,
    /// How many of its bytes were read.
    pub(crate) taken: usize,
    pub(crate) reads: u64,
    pub(crate) programs: u64,
    pub(crate) erases: u64,
    pub(crate) flash_faults: u64,
    pub(crate) stop_faults: u64,
    pub(crate) failed_at: Option<u32>,
    pub(crate) in_faults: u64,
    pub(crate) out_faults: u64,
    ghost in_input: { taken ≤ length input.items },
}

impl<D: Disk> DurableBoard<D> {
    /// A board over this flash, with this input.
    pub fn new(alloc: Global, flash: DurableFlash<D>, input: Vec<u8>) -> DurableBoard<D>
        ensures flash { result.flash ≡ flash }
        ensures input { (result.input ≡ input) × (result.taken ≡ 0) }
        ensures counts { (result.reads ≡ 0) × (result.flash_faults ≡ 0) }
    {
        DurableBoard {
            alloc,
            flash,
            bare: false,
            input,
            taken: 0,
            reads: 0,
            programs: 0,
            erases: 0,
            flash_faults: 0,
            stop_faults: 0,
            failed_at: None,
            in_faults: 0,
            out_faults: 0,
        }
    }

    /// Sends what was posted, after a barrier: the end of a run, without which what was posted last
    /// does not leave.
    pub fn finish(&mut self) -> bool
        ensures { self.new.flash.trail ≡ self.old.flash.trail }
    {
        self.flash.deliver()
    }

    /// The flash, with its log, its image and what was sent.
    pub fn into_flash(self) -> DurableFlash<D>
        ensures { result ≡ self.flash }
    {
        let DurableBoard {
            alloc: _,
            flash,
            bare: _,
            input: _,
            taken: _,
            reads: _,
            programs: _,
            erases: _,
            flash_faults: _,
            stop_faults: _,
            failed_at: _,
            in_faults: _,
            out_faults: _,
        } = self;
        flash
    }

    fn block_of(&self, page: u32) -> Option<u32>
        ensures { result ≡ Some (page / self.now.flash.shape.block_pages) }
    {
        Some(page / self.flash.shape.block_pages())
    }
}

impl<D: Disk> Nand for DurableBoard<D> {
    ghost state = { λ b. record {
      shape = Some b.flash.shape;
      bare = b.bare;
      pages = pages_of b.flash.slots.items;
      trail = Some (opened_marks b.flash.opened_log.items b.flash.opened_image.items
          ++ seen_marks b.flash.trail.marks.items);
      reads = b.reads;
      programs = b.programs;
      erases = b.erases;
      flash_faults = b.flash_faults;
      read_faults = 0;
      stop_faults = b.stop_faults;
      failed_at = b.failed_at;
      bad = None;
      input = Some (drop b.taken b.input.items);
      posted = Some (b.flash.sent.items ++ b.flash.waiting.items);
      in_faults = b.in_faults;
      out_faults = b.out_faults;
    } };

    fn load(&mut self, _alloc: Global) -> Result<Option<Shape>, LoadFault> {
        Ok(Some(self.flash.shape))
    }

    fn make(&mut self, _alloc: Global, _shape: Shape) -> Result<(), LoadFault> {
        // an image is made before it is opened beside a log
        raise(&mut self.flash_faults);
        Err(LoadFault::Fault)
    }

    fn read(&mut self, page: u32, into: &mut [u8]) -> Result<PageRead, NandFault> {
        raise(&mut self.reads);
        Ok(read_slot(&self.flash.slots, page as usize, into))
    }

    fn program(&mut self, page: u32, bytes: &[u8]) -> Result<(), NandFault> {
        raise(&mut self.programs);
        match self.flash.program(self.alloc, page, bytes) {
            Ok(()) => Ok(()),
            Err(_) => {
                raise(&mut self.flash_faults);
                raise(&mut self.stop_faults);
                self.failed_at = self.block_of(page);
                Err(NandFault)
            }
        }
    }

    fn erase(&mut self, block: u32) -> Result<(), NandFault> {
        raise(&mut self.erases);
        match self.flash.erase(block) {
            Ok(()) => Ok(()),
            Err(_) => {
                raise(&mut self.flash_faults);
                raise(&mut self.stop_faults);
                self.failed_at = Some(block);
                Err(NandFault)
            }
        }
    }

    fn read_count(&self) -> u64 {
        // so that these counts are known to be of 64 bits
        let _flash_faults = self.flash_faults;
        let _stop_faults = self.stop_faults;
        self.reads
    }
}

impl<D: Disk> Board for DurableBoard<D> {
    fn fetch(&mut self, into: &mut [u8]) -> Result<usize, HostFault> {
        self.flash.deliver_waiting();
        let count = into.len().min(self.input.len() - self.taken);
        let end = self.taken + count;
        into[..count].copy_from_slice(&self.input[self.taken..end]);
        self.taken = end;
        Ok(count)
    }

    fn post(&mut self, bytes: &[u8]) -> Result<(), HostFault> {
        if self.flash.make_room() && self.flash.post(self.alloc, bytes) {
            return Ok(());
        }
        raise(&mut self.out_faults);
        Err(HostFault { given: 0 })
    }
}
