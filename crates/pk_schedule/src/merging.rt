//! A merge begins, and goes on by the steps of its job.
ghost use Rattle.std.specs.Prelude.{◌≡◌, ◌≤◌, ℕ, length, Err, OnOk};
ghost use Rattle.pk_base.specs.Map.{Map};
ghost use Rattle.pk_base.specs.Page.{Flash};
ghost use Rattle.pk_nand.specs.BoardState.{BoardState};
ghost use Rattle.pk_nand.specs.Calls.{IsReady};
ghost use Rattle.pk_nand.specs.Effects.{NoFault, Stops};
ghost use Rattle.pk_nand.specs.declared.types.Fault.TheVariants.{Reading, Stopped};
ghost use Rattle.pk_pin.specs.Frames.{Frames};
ghost use Rattle.pk_pool.specs.Blocks.{Blocks};
ghost use Rattle.pk_rootfmt.specs.Root.{Root as RootValue};
ghost use Rattle.pk_model.specs.Found.{Found};
ghost use Rattle.pk_schedule.specs.declared.phase.Phase.TheVariants.{Idle as NoMerge, Running};
ghost use Rattle.pk_schedule.specs.Index.{Schedule as ScheduleSpec, index, source_at};
ghost use Rattle.pk_schedule.specs.Steps.{MayWork, Moves, Less, StepsOn, FailsByRead, CallsOnce, Breaks};
ghost use Rattle.pk_schedule.specs.Sources.{ShowsSame};

use crate::phase::{Phase, Stepped};
use crate::schedule::Schedule;
use pk_level::Levels;
use pk_log::Log;
use pk_merge::Source;
use pk_nand::{Fault, Nand};
use pk_pin::PinArena;
use pk_pool::Pool;
use pk_region::Region;

// The source of a merge into this level: the frozen buffer, or the run above.
fn source_of<'a, A: Region>(log: &'a Log<A>, levels: &'a Levels<A>, level: u8) -> Source<'a, A>
    requires { 1 ≤ level × level ≤ 4 }
    ensures { (arena : Frames) (pool : Blocks) (s : ScheduleSpec)
        → ShowsSame (source_at (index log.now levels.now arena pool s) level) result }
{
    if level == 1 {
        Source::Frozen(log.frozen())
    } else {
        Source::Run(levels.run(level - 1))
    }
}

impl<A: Region> Schedule<A> {
    // Begins the merge that is next, if something is frozen. No flash operation is made.
    pub(crate) fn begin(&mut self, levels: &Levels<A>, log: &Log<A>) -> Stepped
        // No merge runs, and the parts fit each other.
        requires idle { self.old.phase ≡ NoMerge }
        requires may { (arena : Frames) × (pool : Blocks) × (flash : Flash) × (frames : ℕ)
            × (top : ℕ × RootValue) × (found : Found) × (m : Map)
            × MayWork (index log.now levels.now arena pool self.old) frames flash top found m }

        // Nothing is frozen, and nothing was done; or a merge was begun.
        ensures idle { result ≡ Stepped.Idle → (length log.now.frozen.entries ≡ 0)
            × (self.new ≡ self.old) }
        ensures works { result ≡ Stepped.Worked → length log.now.frozen.entries ≡ 0 → ⊥ }

        // A merge that was begun leaves the map, and less is to be done.
        ensures moves { result ≡ Stepped.Worked → (arena : Frames) (pool : Blocks)
            (board : BoardState) → IsReady board log.now.shape
            → Moves (index log.now levels.now arena pool self.old) board
            (index log.now levels.now arena pool self.new) board }
        ensures less { result ≡ Stepped.Worked → (arena : Frames) (pool : Blocks)
            (board : BoardState) → IsReady board log.now.shape
            → Less (index log.now levels.now arena pool self.old) board.pages
            (index log.now levels.now arena pool self.new) }

        // What is unchanged in any case.
        ensures same_freeze { self.new.freeze ≡ self.old.freeze }
    {
        levels.known();
        match levels.next_merge(log.frozen().len()) {
            None => Stepped::Idle,
            Some(level) => {
                self.job.begin(level);
                self.job.known();
                self.phase = Phase::Running { level };
                Stepped::Worked
            }
        }
    }

    // The next step of the job of the merge into this level.
    pub(crate) fn run_job<B: Nand>(
        &mut self,
        board: &mut B,
        pool: &mut Pool<A>,
        arena: &mut PinArena<A>,
        levels: &Levels<A>,
        log: &Log<A>,
        level: u8,
    ) -> Result<(), Fault>
        requires ready { IsReady (B.state board.old) log.now.shape }
        requires phase { self.old.phase ≡ Running level }
        requires may { (frames : ℕ) × (top : ℕ × RootValue) × (found : Found) × (m : Map)
            × MayWork (index log.now levels.now arena.old pool.old self.old) frames
            (B.state board.old).pages top found m }

        // The step was made.
        ensures steps { OnOk result (StepsOn (index log.now levels.now arena.old pool.old self.old)
            (B.state board.old) (index log.now levels.now arena.new pool.new self.new)
            (B.state board.new)) }
        ensures sound { OnOk result (NoFault (B.state board.old) (B.state board.new)) }

        // A call failed.
        ensures unread { result ≡ Err Reading → FailsByRead (index log.now levels.now arena.old
            pool.old self.old) (B.state board.old) (index log.now levels.now arena.new pool.new
            self.new) (B.state board.new) }
        ensures broken { result ≡ Err Stopped → Breaks (index log.now levels.now arena.old pool.old
            self.old) (B.state board.old) (B.state board.new)
            × Stops (B.state board.old) (B.state board.new) }

        // Either way it was one call, and the freeze is where it was.
        ensures calls { CallsOnce log.now.shape (B.state board.old) (B.state board.new) }
        ensures same_freeze { self.new.freeze ≡ self.old.freeze }
    {
        pool.known();
        let source = source_of(log, levels, level);
        let target = levels.run(level);
        match self.job.step(board, pool, arena, source, target) {
            Ok(true) => {
                self.phase = Phase::Ready { level };
                Ok(())
            }
            Ok(false) => Ok(()),
            Err(fault) => Err(fault),
        }
    }
}
