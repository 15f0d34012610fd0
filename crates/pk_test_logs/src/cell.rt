//! A page in memory.
ghost use Rattle.std.specs.Prelude.{◌≡◌, ◌≤◌, ℕ, List, length};
ghost use Rattle.pk_test_logs.specs.declared.cell.TheConstants.{PAGE};

use pk_image::PageTag;
use std::alloc::{AllocError, Global};

/// Bytes of a page of the drives of these tests.
pub const PAGE: usize = 512;

/// The bytes of a Whole page up to the last that is not 0.
#[derive(Drop)]
pub struct Front {
    bytes: Vec<u8>,
    ghost short: { length bytes.items ≤ PAGE },
}

#[derive(Drop)]
pub enum Cell {
    Erased,
    Torn,
    Whole(Front),
}

// How many bytes there are up to the last that is not 0.
fn trimmed(bytes: &[u8]) -> usize
    ensures { result ≤ length bytes.now }
{
    for i in 0..bytes.len() {
        let len = bytes.len() - i;
        if bytes[len - 1] != 0 {
            return len;
        }
    }
    0
}

// The bytes up to the last that is not 0, and at most those of a page.
fn front_of(bytes: &[u8]) -> &[u8]
    ensures { length result.now ≤ PAGE }
{
    &bytes[..trimmed(bytes).min(PAGE)]
}

impl Front {
    /// The first bytes of a page, of these; those after its end are left out.
    pub fn new(alloc: Global, bytes: &[u8]) -> Result<Front, AllocError> {
        Ok(Front {
            bytes: front_of(bytes).to_vec(alloc)?,
        })
    }

    pub fn as_slice(&self) -> &[u8]
        ensures bytes { result.now ≡ self.now.bytes.items }
        ensures short { length result.now ≤ PAGE }
    {
        &self.bytes
    }
}

impl Cell {
    ghost use Rattle.pk_base.specs.Fields.{padded};
    ghost use Rattle.pk_base.specs.Page.{whole};
    ghost use Rattle.pk_image.specs.Image.{byte_of, state_byte};
    ghost use Rattle.pk_test_logs.specs.Cells.{page_of_cell};

    pub fn tag(&self) -> PageTag
        ensures { byte_of result ≡ state_byte (page_of_cell self.now) }
    {
        match self {
            Cell::Erased => PageTag::Erased,
            Cell::Torn => PageTag::Torn,
            Cell::Whole(_) => PageTag::Whole,
        }
    }

    /// The kept bytes of a Whole page, and no byte of another one.
    pub fn front(&self) -> &[u8]
        ensures short { length result.now ≤ PAGE }
        ensures page { (own : List ℕ) → page_of_cell self.now ≡ whole own → own ≡ padded PAGE result.now }
    {
        match self {
            Cell::Whole(front) => front.as_slice(),
            _ => &[],
        }
    }

    pub fn copy(&self, alloc: Global) -> Result<Cell, AllocError> {
        match self {
            Cell::Erased => Ok(Cell::Erased),
            Cell::Torn => Ok(Cell::Torn),
            Cell::Whole(front) => Ok(Cell::Whole(Front::new(alloc, front.as_slice())?)),
        }
    }

    /// Both are pages of the same bytes.
    pub fn is_same(&self, other: &Cell) -> bool {
        match (self, other) {
            (Cell::Erased, Cell::Erased) | (Cell::Torn, Cell::Torn) => true,
            (Cell::Whole(one), Cell::Whole(other)) => one.as_slice() == other.as_slice(),
            _ => false,
        }
    }
}
