//! A relocation in memory.
ghost use Rattle.std.specs.Prelude.{◌≡◌, ◌≤◌, length, None, IfOk};
ghost use Rattle.pk_base.specs.declared.sizes.TheConstants.{MOST_PAGE_BYTES};
ghost use Rattle.pk_base.specs.Shape.{IsShape};
ghost use Rattle.pk_remap.specs.Running.{HasPageBuffers};

use crate::phase::Phase;
use pk_base::{MOST_PAGE_BYTES, Shape};
use std::alloc::{AllocError, Global};

/// The call of the outer flash that is served: its call of the inner flash failed.
#[derive(Clone, Copy, Debug, PartialEq, Eq)]
pub enum Call {
    Program { page: u32 },
    Erase { block: u32 },
}

/// The newest table of the inner flash, and the spare that gets the pages of a block.
#[derive(Drop)]
pub struct Relocation {
    pub(crate) shape: Shape,
    pub(crate) spares: u16,
    /// The newest table: its number, how many spares it uses, the blocks that they serve, and its page.
    pub(crate) number: u64,
    pub(crate) used: usize,
    pub(crate) serves: [u16; 64],
    pub(crate) top: u32,
    /// The pair for the next table, if this value wrote the newest one and the block of that has another pair.
    pub(crate) next: Option<u32>,
    /// The spare that is filled; those before it are used, or they failed.
    pub(crate) taken: u16,
    pub(crate) call: Call,
    pub(crate) phase: Phase,
    /// Whether `partner` has the page before the one that is programmed, which is odd.
    pub(crate) kept: bool,
    pub(crate) partner: Vec<u8>,
    /// The bytes that are programmed, and the page that was read last.
    pub(crate) bytes: Vec<u8>,
    pub(crate) copy: Vec<u8>,
}

impl Relocation {
    /// The buffers for a flash with `spares` spare blocks, whose shape is not known yet.
    pub(crate) fn new(alloc: Global, spares: u16) -> Result<Relocation, AllocError>
        ensures room { IfOk result (λ r. HasPageBuffers r) }
        ensures spares { IfOk result (λ r. r.spares ≡ spares) }
        ensures none { IfOk result (λ r. r.taken ≡ 0) }
        ensures shape { IfOk result (λ r. IsShape r.shape) }
    {
        let partner = page_buffer(alloc)?;
        let bytes = page_buffer(alloc)?;
        let copy = page_buffer(alloc)?;
        Ok(Relocation {
            shape: any_shape(),
            spares,
            number: 0,
            used: 0,
            serves: [0; 64],
            top: 0,
            next: None,
            taken: 0,
            call: Call::Erase { block: 0 },
            phase: Phase::EraseSpare,
            kept: false,
            partner,
            bytes,
            copy,
        })
    }

    /// For a flash of this shape, of which no table is known.
    pub(crate) fn fit(&mut self, shape: Shape)
        ensures { self.new ≡ record self.old
            { shape = shape; number = 0; used = 0; top = 0; next = None; taken = 0 } }
    {
        self.shape = shape;
        self.number = 0;
        self.used = 0;
        self.top = 0;
        self.next = None;
        self.taken = 0;
    }
}

/// A buffer for a page of any shape.
fn page_buffer(alloc: Global) -> Result<Vec<u8>, AllocError>
    ensures { IfOk result (λ v. MOST_PAGE_BYTES ≤ length v.items) }
{
    Vec::from_elem(alloc, 0u8, MOST_PAGE_BYTES as usize)
}

/// Some shape, until the shape of the flash is known.
fn any_shape() -> Shape
    ensures { IsShape result }
{
    match Shape::new(512, 16, 64) {
        Ok(shape) => {
            shape.known();
            shape
        }
        Err(_) => unreachable!(),
    }
}
