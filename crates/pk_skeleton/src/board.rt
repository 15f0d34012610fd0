//! The board: it counts calls and faults, and passes each call on.
ghost use Rattle.std.specs.Prelude.{◌≡◌, ◌<◌, ◌/◌, is_none, length, None, Some};
ghost use Rattle.pk_nand.specs.BoardState.{shape_or_none};

use crate::chips::Chips;
use crate::link::Link;
use pk_base::Shape;
use pk_nand::{Board, HostFault, LoadFault, Nand, NandFault, PageRead, raise};
use std::alloc::Global;

/// Flash parts and a link to a host. The board records neither its input, nor what it posts, nor its trail.
#[derive(Drop)]
pub struct ChipBoard<C: Chips + Drop, L: Link + Drop> {
    chips: C,
    link: L,
    reads: u64,
    programs: u64,
    erases: u64,
    flash_faults: u64,
    read_faults: u64,
    stop_faults: u64,
    failed_at: Option<u32>,
    in_faults: u64,
    out_faults: u64,
}

impl<C: Chips + Drop, L: Link + Drop> ChipBoard<C, L> {
    /// The board over these parts and this link.
    pub fn new(chips: C, link: L) -> ChipBoard<C, L> {
        ChipBoard {
            chips,
            link,
            reads: 0,
            programs: 0,
            erases: 0,
            flash_faults: 0,
            read_faults: 0,
            stop_faults: 0,
            failed_at: None,
            in_faults: 0,
            out_faults: 0,
        }
    }

    /// The parts and the link, when the board is done with.
    pub fn into_parts(self) -> (C, L) {
        let ChipBoard {
            chips,
            link,
            reads: _,
            programs: _,
            erases: _,
            flash_faults: _,
            read_faults: _,
            stop_faults: _,
            failed_at: _,
            in_faults: _,
            out_faults: _,
        } = self;
        (chips, link)
    }

    /// The block of a page.
    fn block_of(&self, page: u32) -> Option<u32>
        requires { page < length (C.pages self.now.chips) }
        ensures { result ≡ Some (page / (shape_or_none (C.geometry self.now.chips)).block_pages) }
    {
        match self.chips.shape() {
            Some(shape) => Some(page / shape.block_pages()),
            None => unreachable!(),
        }
    }
}

impl<C: Chips + Drop, L: Link + Drop> Nand for ChipBoard<C, L> {
    ghost state = { λ b. record {
      shape = C.geometry b.chips;
      bare = is_none (C.geometry b.chips);
      pages = C.pages b.chips;
      trail = None;
      reads = b.reads;
      programs = b.programs;
      erases = b.erases;
      flash_faults = b.flash_faults;
      read_faults = b.read_faults;
      stop_faults = b.stop_faults;
      failed_at = b.failed_at;
      bad = None;
      input = None;
      posted = None;
      in_faults = b.in_faults;
      out_faults = b.out_faults;
    } };

    fn load(&mut self, _alloc: Global) -> Result<Option<Shape>, LoadFault> {
        Ok(self.chips.shape())
    }

    fn make(&mut self, _alloc: Global, shape: Shape) -> Result<(), LoadFault> {
        let made = self.chips.prepare(shape);
        // so that the pages are known to be those of the shape
        let _ = self.chips.shape();
        match made {
            Ok(()) => Ok(()),
            Err(_) => {
                raise(&mut self.flash_faults);
                Err(LoadFault::Fault)
            }
        }
    }

    fn read(&mut self, page: u32, into: &mut [u8]) -> Result<PageRead, NandFault> {
        raise(&mut self.reads);
        match self.chips.read(page, into) {
            Ok(found) => Ok(found),
            Err(_) => {
                raise(&mut self.flash_faults);
                raise(&mut self.read_faults);
                self.failed_at = self.block_of(page);
                Err(NandFault)
            }
        }
    }

    #[tactic(auto, using(crate::proofs::Leftovers::left_behind))]
    fn program(&mut self, page: u32, bytes: &[u8]) -> Result<(), NandFault> {
        raise(&mut self.programs);
        match self.chips.program(page, bytes) {
            Ok(()) => Ok(()),
            Err(_) => {
                raise(&mut self.flash_faults);
                raise(&mut self.stop_faults);
                self.failed_at = self.block_of(page);
                Err(NandFault)
            }
        }
    }

    #[tactic(auto, using(crate::proofs::Leftovers::left_behind))]
    fn erase(&mut self, block: u32) -> Result<(), NandFault> {
        raise(&mut self.erases);
        match self.chips.erase(block) {
            Ok(()) => Ok(()),
            Err(_) => {
                raise(&mut self.flash_faults);
                raise(&mut self.stop_faults);
                self.failed_at = Some(block);
                Err(NandFault)
            }
        }
    }

    fn read_count(&self) -> u64 {
        // so that these counts are known to be of 64 bits
        let _read_faults = self.read_faults;
        let _flash_faults = self.flash_faults;
        let _stop_faults = self.stop_faults;
        self.reads
    }
}

impl<C: Chips + Drop, L: Link + Drop> Board for ChipBoard<C, L> {
    fn fetch(&mut self, into: &mut [u8]) -> Result<usize, HostFault> {
        match self.link.receive(into) {
            Ok(count) => Ok(count),
            Err(_) => {
                raise(&mut self.in_faults);
                Err(HostFault { given: 0 })
            }
        }
    }

    fn post(&mut self, bytes: &[u8]) -> Result<(), HostFault> {
        match self.link.send(bytes) {
            Ok(()) => Ok(()),
            Err(_) => {
                raise(&mut self.out_faults);
                Err(HostFault { given: 0 })
            }
        }
    }
}
