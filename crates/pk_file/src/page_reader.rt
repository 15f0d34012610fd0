//! The pages of an image file, neighbouring Whole ones read by one call.
ghost use Rattle.std.specs.Prelude.{◌≡◌, ◌≢◌, ◌<◌, ◌≤◌, ◌-◌, ◌*◌, ℕ, Err, length, IfOk, OnOk};
ghost use Rattle.pk_base.specs.Shape as spec;
ghost use Rattle.pk_base.specs.Page.{IsPage};
ghost use Rattle.pk_nand.specs.declared.types.LoadFault.{LoadFault};
ghost use Rattle.pk_file.specs.Trims.{bytes_in};
ghost use Rattle.pk_file.specs.declared.room.TheConstants.{RUN_PAGES};

use crate::room::RUN_PAGES;
use crate::slots::known;
use crate::trimmed::Trimmed;
use pk_base::Shape;
use pk_image::{PageTag, page_at};
use pk_nand::LoadFault;
use std::alloc::{AllocError, Global};
use std::fs::File;
use std::io;
use std::os::unix::fs::FileExt;

/// A run of pages that was read, and room for the longest.
#[derive(Drop)]
pub struct PageReader {
    pub shape: Shape,
    buffer: Vec<u8>,
    first: u32,
    count: u32,
    ghost room: { length buffer.items ≡ RUN_PAGES * shape.page_bytes },
    ghost short: { count ≤ RUN_PAGES },
}

/// How many consecutive pages from this one on are Whole by their state bytes, which this one is,
/// up to what one call reads.
fn run_length(states: &[u8], first: usize) -> usize
    requires { first < length states.now }
    ensures some { 1 ≤ result }
    ensures short { result ≤ RUN_PAGES }
{
    for count in 1..RUN_PAGES {
        match states.get(first + count) {
            Some(byte) if *byte == PageTag::Whole.byte() => {}
            _ => return count,
        }
    }
    RUN_PAGES
}

/// A page of its own with these bytes.
pub fn copied(alloc: Global, shape: &Shape, bytes: &[u8]) -> Result<Trimmed, LoadFault>
    requires { length bytes.now ≡ shape.now.page_bytes }
    ensures page { IfOk result (λ kept. IsPage shape.now (bytes_in kept)) }
    ensures bytes { IfOk result (λ kept. bytes_in kept ≡ bytes.now) }
    ensures bad { (at : ℕ) → result ≢ Err (LoadFault.BadImage at) }
{
    known(bytes);
    match Trimmed::of(alloc, bytes) {
        Ok(kept) => Ok(kept),
        Err(_) => Err(LoadFault::Memory),
    }
}

/// Reads `len` bytes of a file into the start of a buffer.
fn read_front(file: &File, buffer: &mut Vec<u8>, len: usize, at: u64) -> io::Result<()>
    requires { len ≤ length buffer.old.items }
    ensures { length buffer.new.items ≡ length buffer.old.items }
{
    file.read_exact_at(&mut buffer.as_mut_slice()[..len], at)
}

impl PageReader {
    /// A reader of a file of this shape that has read no page.
    pub fn new(alloc: Global, shape: Shape) -> Result<PageReader, AllocError>
        ensures { IfOk result (λ r. r.shape ≡ shape) }
    {
        let buffer = Vec::from_elem(alloc, 0u8, RUN_PAGES * shape.page_bytes() as usize)?;
        Ok(PageReader {
            shape,
            buffer,
            first: 0,
            count: 0,
        })
    }

    /// Reads the run of Whole pages that begins with this one.
    fn fill(&mut self, file: &File, states: &[u8], page: u32) -> io::Result<()>
        requires count { length states.now ≡ spec.page_count self.old.shape }
        requires exists { page < length states.now }
        ensures shape { self.new.shape ≡ self.old.shape }
        ensures found { OnOk result ((self.new.first ≡ page) × (0 < self.new.count)) }
    {
        let count = run_length(states, page as usize);
        let at = page_at(&self.shape, page);
        self.first = page;
        self.count = 0;
        let len = count * self.shape.page_bytes() as usize;
        match read_front(file, &mut self.buffer, len, at) {
            Ok(()) => {
                self.count = count as u32;
                Ok(())
            }
            Err(fault) => Err(fault),
        }
    }

    /// Sees that this page, a Whole one, is among those that were read.
    fn reach(&mut self, file: &File, states: &[u8], page: u32) -> io::Result<()>
        requires count { length states.now ≡ spec.page_count self.old.shape }
        requires exists { page < length states.now }
        ensures shape { self.new.shape ≡ self.old.shape }
        ensures found { OnOk result ((self.new.first ≤ page)
            × (page - self.new.first < self.new.count)) }
    {
        if self.first <= page && page - self.first < self.count {
            return Ok(());
        }
        self.fill(file, states, page)
    }

    /// The bytes of a page that is Whole by these state bytes.
    pub fn copy(
        &mut self,
        alloc: Global,
        file: &File,
        states: &[u8],
        page: u32,
    ) -> Result<Trimmed, LoadFault>
        requires count { length states.now ≡ spec.page_count self.old.shape }
        requires exists { page < length states.now }
        ensures shape { self.new.shape ≡ self.old.shape }
        ensures page { IfOk result (λ kept. IsPage self.old.shape (bytes_in kept)) }
        ensures bad { (at : ℕ) → result ≢ Err (LoadFault.BadImage at) }
    {
        match self.reach(file, states, page) {
            Ok(()) => {
                let len = self.shape.page_bytes() as usize;
                let at = (page - self.first) as usize * len;
                copied(alloc, &self.shape, &self.buffer.as_slice()[at..at + len])
            }
            Err(_) => Err(LoadFault::Fault),
        }
    }
}
