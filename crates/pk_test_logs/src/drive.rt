//! The pages of a drive in memory.
ghost use Rattle.std.specs.Prelude.{◌≡◌, length, IfOk, IfSome};
ghost use Rattle.pk_base.specs.Shape as spec;
ghost use Rattle.pk_test_logs.specs.declared.cell.TheConstants.{PAGE};

use crate::cell::{Cell, Front, PAGE};
use pk_base::Shape;
use pk_image::PageTag;
use pk_redo::Pages;
use std::alloc::{AllocError, Global};

/// Pages of a block, and of a drive.
pub const BLOCK: usize = 8;

pub const PAGES: usize = 272;

#[derive(Drop)]
pub struct DrivePages {
    pub shape: Shape,
    cells: Vec<Cell>,
    ghost size: { shape.page_bytes ≡ PAGE },
    ghost count: { length cells.items ≡ spec.page_count shape },
}

impl Pages for DrivePages {
    ghost use Rattle.pk_test_logs.specs.Cells.{flash_of_cells};

    ghost shape_of = { λ d. d.shape };

    ghost flash_of = { λ d. flash_of_cells d.cells.items };

    #[tactic(auto, using(crate::proofs::Cells::page_here))]
    fn state(&self, page: u32) -> PageTag {
        self.cells[page as usize].tag()
    }

    #[tactic(auto, using(crate::proofs::Cells::page_here))]
    fn front(&self, page: u32) -> &[u8] {
        self.cells[page as usize].front()
    }
}

// The shape of 34 blocks of 8 pages of 512 bytes.
fn shape() -> Option<Shape>
    ensures { IfSome result (λ shape. shape.page_bytes ≡ PAGE) }
{
    match Shape::new(PAGE as u32, BLOCK as u32, 34) {
        Ok(shape) if shape.page_bytes() as usize == PAGE => Some(shape),
        _ => None,
    }
}

fn erased(alloc: Global, count: usize) -> Result<Vec<Cell>, AllocError>
    ensures { IfOk result (λ v. length v.items ≡ count) }
{
    let mut cells = Vec::new(alloc);
    for _ in 0..count {
        cells.push(Cell::Erased)?;
    }
    Ok(cells)
}

fn copied(alloc: Global, cells: &Vec<Cell>) -> Result<Vec<Cell>, AllocError>
    ensures { IfOk result (λ v. length v.items ≡ length cells.now.items) }
{
    let mut copy = Vec::new(alloc);
    for i in 0..cells.len() {
        copy.push(cells[i].copy(alloc)?)?;
    }
    Ok(copy)
}

impl DrivePages {
    /// A drive that was never written; None if there is no such shape.
    pub fn new(alloc: Global) -> Result<Option<DrivePages>, AllocError> {
        let Some(shape) = shape() else {
            return Ok(None);
        };
        let cells = erased(alloc, shape.page_count() as usize)?;
        Ok(Some(DrivePages { shape, cells }))
    }

    pub fn copy(&self, alloc: Global) -> Result<DrivePages, AllocError> {
        Ok(DrivePages {
            shape: self.shape,
            cells: copied(alloc, &self.cells)?,
        })
    }

    /// Makes a page this one.
    pub fn set(&mut self, page: usize, cell: Cell)
        ensures { self.new.shape ≡ self.old.shape }
    {
        if page < self.cells.len() {
            self.cells[page] = cell;
        }
    }

    /// Programs a page.
    pub fn program(&mut self, alloc: Global, page: u32, front: &[u8]) -> Result<(), AllocError>
        ensures { self.new.shape ≡ self.old.shape }
    {
        self.set(page as usize, Cell::Whole(Front::new(alloc, front)?));
        Ok(())
    }

    pub fn erase(&mut self, block: u32)
        ensures { self.new.shape ≡ self.old.shape }
    {
        for i in 0..BLOCK {
            self.set((block as usize * BLOCK).saturating_add(i), Cell::Erased);
        }
    }

    /// Both have the same pages.
    pub fn is_same(&self, other: &DrivePages) -> bool {
        if self.cells.len() != other.cells.len() {
            return false;
        }
        for i in 0..self.cells.len() {
            if !self.cells[i].is_same(&other.cells[i]) {
                return false;
            }
        }
        true
    }
}
