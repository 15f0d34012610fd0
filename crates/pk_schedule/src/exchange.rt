//! The exchange of runs after a merge.
ghost use Rattle.std.specs.Prelude.{◌≡◌, ◌≤◌, ℕ};
ghost use Rattle.pk_base.specs.Page.{Flash};
ghost use Rattle.pk_plan.specs.declared.owner.Owner.{Owner};
ghost use Rattle.pk_pool.specs.Blocks.{given_back, freed, used_by, PoolOnFlash};
ghost use Rattle.pk_rootfmt.specs.Held.{blocks_or_none};
ghost use Rattle.pk_run.specs.Kept.{Kept};
ghost use Rattle.pk_schedule.specs.declared.phase.Phase.TheVariants.{Idle};
ghost use Rattle.pk_schedule.specs.Exchanges.{CanExchange, ExchangesRun, CanFree, CanEndFirst, EndsFirst, CanEndDeep, EndsDeep};

use crate::phase::Phase;
use crate::schedule::Schedule;
use pk_compact::retire_epoch;
use pk_level::Levels;
use pk_pin::PinArena;
use pk_pool::Pool;
use pk_region::Region;
use std::alloc::Allocator;

// The blocks of an epoch leave, if there is one that is named no more.
fn retire_named<A: Allocator>(pool: &mut Pool<A>, blocks: Option<[u16; 2]>)
    requires { CanFree (freed pool.old) (blocks_or_none blocks) }
    ensures left { freed pool.new ≡ given_back (freed pool.old) (blocks_or_none blocks) }
    ensures counted { (o : Owner) → used_by o pool.new.states ≡ used_by o pool.old.states }
    ensures fits { (flash : Flash) → PoolOnFlash (freed pool.old) flash
        → PoolOnFlash (freed pool.new) flash }
{
    match blocks {
        Some(blocks) => retire_epoch(pool, blocks, false),
        None => {}
    }
}

impl<A: Region> Schedule<A> {
    // Puts the job's run of this level in place of the former one, whose blocks leave and whose frames are freed.
    fn exchange(
        &mut self,
        pool: &mut Pool<A>,
        arena: &mut PinArena<A>,
        levels: &mut Levels<A>,
        level: u8,
    )
        requires level { 1 ≤ level × level ≤ 4 }
        requires can { (r : Kept)
            × CanExchange levels.old arena.old (freed pool.old) self.old.job level r }
        ensures exchanged { ExchangesRun levels.old arena.old (freed pool.old) self.old.job level
            levels.new arena.new (freed pool.new) self.new.job }
        ensures counted { (o : Owner) → used_by o pool.new.states ≡ used_by o pool.old.states }
        ensures rest { self.new ≡ record self.old { job = self.new.job } }
    {
        let run = self.job.take(level);
        let former = levels.install_run(level, run);
        self.job.leave(pool, arena, former);
    }

    // Ends the merge into level 1, whose root is installed: the blocks of the older epoch leave as well.
    pub(crate) fn end_first(
        &mut self,
        pool: &mut Pool<A>,
        arena: &mut PinArena<A>,
        levels: &mut Levels<A>,
        older: Option<[u16; 2]>,
    )
        requires can { CanEndFirst levels.old arena.old (freed pool.old) self.old.job
            (blocks_or_none older) }
        ensures ends { EndsFirst levels.old arena.old (freed pool.old) self.old.job
            (blocks_or_none older) levels.new arena.new (freed pool.new) self.new.job }
        ensures counted { (o : Owner) → used_by o pool.new.states ≡ used_by o pool.old.states }
        ensures rest { self.new ≡ record self.old { job = self.new.job; phase = Idle } }
    {
        self.exchange(pool, arena, levels, 1);
        retire_named(pool, older);
        self.job.end();
        self.phase = Phase::Idle;
    }

    // Ends the merge into a deeper level, whose root is installed: a run without entries replaces
    // its source.
    pub(crate) fn end_deep(
        &mut self,
        pool: &mut Pool<A>,
        arena: &mut PinArena<A>,
        levels: &mut Levels<A>,
        level: u8,
    )
        requires level { 2 ≤ level × level ≤ 4 }
        requires can { CanEndDeep levels.old arena.old (freed pool.old) self.old.job level }
        ensures ends { EndsDeep levels.old arena.old (freed pool.old) self.old.job level
            levels.new arena.new (freed pool.new) self.new.job }
        ensures counted { (o : Owner) → used_by o pool.new.states ≡ used_by o pool.old.states }
        ensures rest { self.new ≡ record self.old { job = self.new.job; phase = Idle } }
    {
        self.exchange(pool, arena, levels, level);
        self.exchange(pool, arena, levels, level - 1);
        self.job.end();
        self.phase = Phase::Idle;
    }
}
