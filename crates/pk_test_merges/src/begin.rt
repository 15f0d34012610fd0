//! The beginning of a merge of two runs.
ghost use Rattle.std.specs.Prelude.{◌≡◌, List, true, slice_get, Some};
ghost use Rattle.pk_base.specs.Entry.{Entry as EntrySpec};
ghost use Rattle.pk_base.specs.Page.{Flash as Pages};
ghost use Rattle.pk_plan.specs.declared.owner.Owner.TheVariants.{Meta};
ghost use Rattle.pk_pool.specs.Blocks.{PoolOnFlash};
ghost use Rattle.pk_pool.specs.declared.state.BlockState.TheVariants.{Owned};
ghost use Rattle.pk_merge.specs.Jobs.{IsIdle, JobRuns};
ghost use Rattle.pk_test_merges.specs.Opened.{IsOpened, HasRoom, from_run};

use pk_base::Shape;
use pk_merge::MergeJob;
use pk_pin::PinArena;
use pk_pool::{BlockState, Owner, Pool};
use pk_region::Region;
use pk_run::Run;
use std::alloc::Allocator;

/// Makes a block one for meta pages, if it may be.
pub fn own<A: Allocator>(pool: &mut Pool<A>, block: u32) -> bool
    ensures shape { pool.new.shape ≡ pool.old.shape }
    ensures fits { (flash : Pages) → PoolOnFlash pool.old flash → PoolOnFlash pool.new flash }
{
    match pool.state(block) {
        Some(BlockState::Free) => {
            if !pool.has_room(Owner::Meta) {
                return false;
            }
            pool.adopt(block, Owner::Meta);
            true
        }
        _ => false,
    }
}

// Whether a block is one for meta pages.
fn is_meta<A: Allocator>(pool: &Pool<A>, block: u32) -> bool
    ensures { result ≡ true → slice_get pool.now.states block ≡ Some (Owned Meta) }
{
    match pool.state(block) {
        Some(BlockState::Owned(Owner::Meta)) => true,
        _ => false,
    }
}

// Whether both blocks are for meta pages, and there is room for a block and a frame more.
fn has_room<A: Allocator>(pool: &Pool<A>, arena: &PinArena<A>, shape: &Shape) -> bool
    requires pool { pool.now.shape ≡ shape.now }
    requires frames { arena.now.page_bytes ≡ shape.now.page_bytes }
    ensures { result ≡ true → HasRoom shape.now pool.now arena.now }
{
    is_meta(pool, 2) && is_meta(pool, 3) && pool.has_room(Owner::Meta) && arena.free() > 0
}

/// Begins a merge of the run in block 2 into the one in block 3, if there is room for it.
pub fn begin<A: Region>(
    job: &mut MergeJob<A>,
    pool: &Pool<A>,
    arena: &PinArena<A>,
    source: &Run<A>,
    target: &Run<A>,
) -> bool
    requires idle { IsIdle target.now.shape job.old }
    requires pool { pool.now.shape ≡ target.now.shape }
    requires frames { arena.now.page_bytes ≡ target.now.shape.page_bytes }
    ensures runs { result ≡ true → (flash : Pages) → PoolOnFlash pool.now flash
        → IsOpened target.now.shape flash arena.now 2 source.now
        → IsOpened target.now.shape flash arena.now 3 target.now
        → (es : List EntrySpec) × (fs : List EntrySpec)
        × JobRuns (from_run source.now) target.now job.new pool.now flash arena.now es fs }
    ensures shape { result ≡ true → job.new.merger.shape ≡ target.now.shape }
{
    target.known();
    let shape = target.shape();
    if !has_room(pool, arena, &shape) {
        return false;
    }
    if source.entries() > 4 || target.entries() > 4 {
        return false;
    }
    let level = target.level();
    let _ = shape.cap(level);
    job.begin(level);
    true
}
