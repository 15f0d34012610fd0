//! Parts and a link for tests: parts in memory, of which calls can be planned to fail, and a host in memory.
ghost use Rattle.std.specs.Prelude.{◌≤◌, length};

use crate::chips::{ChipFault, Chips};
use crate::link::{Link, LinkFault};
use pk_base::Shape;
use pk_flash::{Flash, Left, Room};
use pk_nand::{Nand, PageRead};
use std::alloc::{AllocError, Global};

/// Flash parts in memory.
#[derive(Drop)]
pub struct SimulatedChips {
    alloc: Global,
    flash: Flash,
}

impl SimulatedChips {
    /// Parts on which there is no drive. After this many programs and erases each further one fails.
    pub fn blank(alloc: Global, calls: usize) -> Result<SimulatedChips, AllocError> {
        let room = Room {
            posted: 0,
            marks: calls,
        };
        let flash = Flash::new(alloc, None, Vec::new(alloc), room)?;
        Ok(SimulatedChips { alloc, flash })
    }

    /// How many reads, programs and erases were made of the parts.
    pub fn calls(&self) -> u64 {
        let changes = self
            .flash
            .program_count()
            .saturating_add(self.flash.erase_count());
        self.flash.read_count().saturating_add(changes)
    }

    /// Plans that the call with this number, counted from 0, fails and leaves this.
    pub fn fail(&mut self, call: u64, left: Left) -> Result<(), AllocError> {
        self.flash.fail(self.alloc, call, left)
    }
}

impl Chips for SimulatedChips {
    ghost geometry = { λ c. (⟦<Flash as Nand>⟧.state c.flash).shape };

    ghost pages = { λ c. (⟦<Flash as Nand>⟧.state c.flash).pages };

    fn shape(&self) -> Option<Shape> {
        self.flash.shape()
    }

    fn prepare(&mut self, shape: Shape) -> Result<(), ChipFault> {
        match self.flash.shape() {
            Some(_) => Err(ChipFault),
            None => match self.flash.make(self.alloc, shape) {
                Ok(()) => Ok(()),
                Err(_) => Err(ChipFault),
            },
        }
    }

    fn read(&mut self, page: u32, into: &mut [u8]) -> Result<PageRead, ChipFault> {
        match self.flash.read(page, into) {
            Ok(found) => Ok(found),
            Err(_) => Err(ChipFault),
        }
    }

    #[tactic(auto, using(crate::proofs::Leftovers::interrupted_by))]
    fn program(&mut self, page: u32, bytes: &[u8]) -> Result<(), ChipFault> {
        match self.flash.program(page, bytes) {
            Ok(()) => Ok(()),
            Err(_) => Err(ChipFault),
        }
    }

    #[tactic(auto, using(crate::proofs::Leftovers::interrupted_by))]
    fn erase(&mut self, block: u32) -> Result<(), ChipFault> {
        match self.flash.erase(block) {
            Ok(()) => Ok(()),
            Err(_) => Err(ChipFault),
        }
    }
}

/// A host in memory: what it says, and what it was given.
#[derive(Drop)]
pub struct MemoryLink {
    says: Vec<u8>,
    taken: usize,
    given: Vec<u8>,
    ghost in_says: { taken ≤ length says.items },
}

impl MemoryLink {
    /// A host that says this.
    pub fn new(alloc: Global, says: Vec<u8>) -> MemoryLink {
        MemoryLink {
            says,
            taken: 0,
            given: Vec::new(alloc),
        }
    }

    /// What it was given.
    pub fn given(&self) -> &[u8] {
        self.given.as_slice()
    }
}

impl Link for MemoryLink {
    fn receive(&mut self, into: &mut [u8]) -> Result<usize, LinkFault> {
        let count = into.len().min(self.says.len() - self.taken);
        let end = self.taken + count;
        into[..count].copy_from_slice(&self.says[self.taken..end]);
        self.taken = end;
        Ok(count)
    }

    fn send(&mut self, bytes: &[u8]) -> Result<(), LinkFault> {
        match self.given.extend_from_slice(bytes) {
            Ok(()) => Ok(()),
            Err(_) => Err(LinkFault),
        }
    }
}
