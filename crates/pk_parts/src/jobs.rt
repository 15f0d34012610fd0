//! The jobs of a drive: merges and freezes, and reclaims.
ghost use Rattle.std.specs.Prelude.{◌≡◌, [], IfOk};
ghost use Rattle.pk_base.specs.Shape.{pinned};
ghost use Rattle.pk_merge.specs.Jobs.{IsIdle};
ghost use Rattle.pk_compact.specs.declared.freezing.FreezeJob.TheVariants.{Idle as NoFreeze};
ghost use Rattle.pk_schedule.specs.declared.phase.Phase.TheVariants.{Idle as NoMerge};
ghost use Rattle.pk_gc.specs.declared.course.Phase.TheVariants.{Idle as NoReclaim};

use pk_base::Shape;
use pk_gc::ReclaimJob;
use pk_plan::Plan;
use pk_region::Region;
use pk_schedule::Schedule;
use std::alloc::AllocError;

/// The jobs of a drive.
#[derive(Drop)]
pub struct Jobs<A: Region> {
    pub schedule: Schedule<A>,
    pub reclaim: ReclaimJob<A>,
}

/// None of them runs, for an arena of this many frames. All their memory is taken here.
pub fn no_jobs<A: Region>(alloc: A, shape: Shape, frames: u32) -> Result<Jobs<A>, AllocError>
    ensures merges { IfOk result (λ j. (j.schedule.phase ≡ NoMerge)
        × (j.schedule.freeze ≡ NoFreeze) × IsIdle shape j.schedule.job) }
    ensures pins { IfOk result (λ j. j.schedule.job.pinned ≡ pinned shape frames) }
    ensures reclaims { IfOk result (λ j. (j.reclaim.shape ≡ shape)
        × (j.reclaim.phase ≡ NoReclaim) × (j.reclaim.moves ≡ [])) }
{
    let schedule = Schedule::new(alloc, Plan::of(shape), frames)?;
    let reclaim = ReclaimJob::new(alloc, shape)?;
    Ok(Jobs { schedule, reclaim })
}
