//! The memory of an opening.
ghost use Rattle.std.specs.Prelude.{IfOk};
ghost use Rattle.pk_scan.specs.Memory.{FoundNothing, IsUnread};

use crate::contents::{Found, Memory};
use pk_base::Shape;
use pk_buf::Buffer;
use pk_jrn::Epoch;
use pk_level::Levels;
use pk_live::Live;
use pk_pin::PinArena;
use pk_plan::Plan;
use pk_pool::Pool;
use pk_region::Region;
use pk_rootfmt::Root;
use pk_space::Use;
use pk_walk::Walk;
use std::alloc::AllocError;

impl<A: Region> Found<A> {
    // Memory for all that may be on a flash of this shape, and for this many frames.
    fn nothing(alloc: A, shape: Shape, frames: u32) -> Result<Found<A>, AllocError>
        ensures { IfOk result (λ f. FoundNothing shape frames f) }
    {
        shape.known();
        Ok(Found {
            root: Root::new(alloc, shape)?,
            root_page: 0,
            active: Buffer::new(alloc, shape)?,
            frozen: Buffer::new(alloc, shape)?,
            levels: Levels::new(alloc, Plan::of(shape), frames)?,
            arena: PinArena::new(alloc, frames, shape.page_bytes())?,
            live: Live::new(alloc, shape)?,
            pool: Pool::new(alloc, Plan::of(shape))?,
            epoch: Epoch::found(shape, 0, [0; 2], 0),
            spaces: Use::new(),
        })
    }
}

impl<A: Region> Memory<A> {
    /// Memory for a flash of this shape and this many frames, into which nothing was read.
    pub fn new(alloc: A, shape: Shape, frames: u32) -> Result<Memory<A>, AllocError>
        ensures { IfOk result (λ m. IsUnread shape frames m) }
    {
        shape.known();
        let found = Found::nothing(alloc, shape, frames)?;
        let walk = Walk::new(alloc, shape)?;
        let page = Vec::from_elem(alloc, 0u8, shape.page_bytes() as usize)?;
        Ok(Memory { found, walk, page })
    }
}
