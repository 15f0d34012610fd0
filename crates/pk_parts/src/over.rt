//! The parts over what opening found.
ghost use Rattle.std.specs.Prelude.{ℕ, false, IfOk};
ghost use Rattle.pk_base.specs.Shape as spec;
ghost use Rattle.pk_base.specs.Page.{Flash, IsFlash};
ghost use Rattle.pk_scan.specs.Opened.{FoundOnFlash};
ghost use Rattle.pk_parts.specs.Opening.{OpenedOn};

use crate::jobs::no_jobs;
use crate::parts::Parts;
use pk_base::Shape;
use pk_log::Log;
use pk_region::Region;
use pk_scan::Found;
use pk_values::Values;
use pk_walk::Walk;
use std::alloc::AllocError;

impl<A: Region> Parts<A> {
    /// The parts of a drive over what opening found. The memory that opening did not need is taken here.
    pub fn over(alloc: A, found: Found<A>) -> Result<Parts<A>, AllocError>
        ensures { IfOk result (λ d. (shape : spec.Shape) (flash : Flash) (frames : ℕ)
            → IsFlash shape flash → FoundOnFlash shape flash frames found
            → OpenedOn shape flash frames d) }
    {
        let shape = *found.root.shape();
        shape.known();
        let log = Log::new(
            alloc,
            found.root,
            found.root_page,
            found.epoch,
            found.active,
            found.frozen,
        )?;
        let page = Vec::from_elem(alloc, 0u8, shape.page_bytes() as usize)?;
        let walk = Walk::new(alloc, shape)?;
        let jobs = no_jobs(alloc, shape, found.arena.frames())?;
        Ok(Parts {
            log,
            levels: found.levels,
            arena: found.arena,
            schedule: jobs.schedule,
            values: Values::new(found.live),
            reclaim: jobs.reclaim,
            pool: found.pool,
            spaces: found.spaces,
            stopped: false,
            page,
            walk,
        })
    }
}
