//! The schedule of merges and freezes.
ghost use Rattle.std.specs.Prelude.{◌≡◌, ◌≤◌, ◌<◌, ◌+◌, ◌⊎◌, true, false, ℕ, length, IfOk, IfErr, OnOk, OnErr, Ok, Err, MatchBool, MatchOption, not, ◌==◌};
ghost use Rattle.pk_base.specs.Map.{Map};
ghost use Rattle.pk_base.specs.Shape.{pinned};
ghost use Rattle.pk_nand.specs.Calls.{IsReady};
ghost use Rattle.pk_nand.specs.Effects.{NoFault, OneProgram, Stops, Works};
ghost use Rattle.pk_nand.specs.declared.types.Fault.TheVariants.{Reading, Stopped};
ghost use Rattle.pk_rootfmt.specs.Root.{Root as RootValue};
ghost use Rattle.pk_model.specs.Found.{Found};
ghost use Rattle.pk_model.specs.Wear.{roots};
ghost use Rattle.pk_merge.specs.Jobs.{IsIdle};
ghost use Rattle.pk_compact.specs.FreezeSteps.{taken_by};
ghost use Rattle.pk_compact.specs.declared.freezing.FreezeJob.TheVariants.{Idle as NoFreeze};
ghost use Rattle.pk_schedule.specs.declared.phase.Phase.TheVariants.{Idle as NoMerge};
ghost use Rattle.pk_schedule.specs.Index.{index, merging as merging_of};
ghost use Rattle.pk_schedule.specs.Steps.{MayWork, MayFreeze, MaySettle, Moves, Less, FailsByRead, KeepsActive, CallsOnce, Breaks, Settles, SettleBreaks, FreezeBreaks, FreezeMoves, Freezes, has_no_merge, is_between};
ghost use Rattle.pk_pin.specs.Frames.{Frames};
ghost use Rattle.pk_level.specs.Levels.{Levels as LevelsSpec};
ghost use Rattle.pk_root.specs.Installing.{repeats_next};

use crate::phase::{Phase, Stepped};
use pk_compact::FreezeJob;
use pk_level::Levels;
use pk_log::Log;
use pk_merge::MergeJob;
use pk_nand::{Fault, Nand};
use pk_pin::PinArena;
use pk_plan::Plan;
use pk_pool::Pool;
use pk_region::Region;
use std::alloc::AllocError;
use std::marker::Model;

/// The merge that runs, or none, and the freeze that runs, or none. It does not own what it works on: each call is lent the log, the
/// runs, the frames and the blocks of one drive.
#[derive(Drop)]
pub struct Schedule<A: Region> {
    pub(crate) job: MergeJob<A>,
    pub(crate) phase: Phase,
    pub(crate) freeze: FreezeJob,
}

impl<A: Region> Model for Schedule<A> {
    ghost use Rattle.pk_schedule.specs.Index as spec;

    ghost Value = { spec.Schedule };

    ghost view = { λ s. record { job = s.job; phase = s.phase; freeze = s.freeze } };
}

impl<A: Region> Schedule<A> {
    /// Nothing runs, for an arena of this many frames. All memory of the jobs is taken here.
    pub fn new(alloc: A, plan: Plan, frames: u32) -> Result<Schedule<A>, AllocError>
        ensures idle { IfOk result (λ s. (s.phase ≡ NoMerge) × (s.freeze ≡ NoFreeze)
            × IsIdle plan s.job) }
        ensures pins { IfOk result (λ s. s.job.pinned ≡ pinned plan frames) }
    {
        let job = MergeJob::new(alloc, plan, frames)?;
        Ok(Schedule {
            job,
            phase: Phase::Idle,
            freeze: FreezeJob::Idle,
        })
    }

    /// The level into which a merge runs; 0 if none does.
    pub fn merging(&self) -> u8
        ensures { result ≡ merging_of self.now.phase }
    {
        match self.phase {
            Phase::Idle => 0,
            Phase::Running { level } => level,
            Phase::Ready { level } => level,
        }
    }

    /// Whether a freeze has begun and is not over.
    pub fn freezes(&self) -> bool
        ensures { result ≡ not (length (taken_by self.now.freeze) == 0) }
    {
        match self.freeze {
            FreezeJob::Idle => false,
            _ => true,
        }
    }

    /// Whether no merge runs, and nothing is frozen: a step of the merges would do nothing.
    pub fn has_no_merge(&self, log: &Log<A>) -> bool
        ensures { (levels : _) (arena : _) (pool : _) → result ≡ has_no_merge
            (index log.now levels arena pool self.now) }
    {
        match self.phase {
            Phase::Idle => log.frozen().len() == 0,
            _ => false,
        }
    }

    /// One step of the merges, by at most one flash operation: the next merge begins, its output
    /// grows, the root block that is next is erased, or its root gets its first program. In the
    /// step that makes that program the runs are exchanged, the blocks of the former ones leave,
    /// and their frames are freed; `finish` is the next step then. No pair may be half made
    /// before. `Reading` if a read fails: nothing has changed, and the step can be made again.
    /// `Stopped` if a program or an erase fails; nothing may be used after that. `buf` has the size
    /// of a page and is overwritten.
    pub fn step<B: Nand>(
        &mut self,
        board: &mut B,
        pool: &mut Pool<A>,
        arena: &mut PinArena<A>,
        levels: &mut Levels<A>,
        log: &mut Log<A>,
        buf: &mut [u8],
    ) -> Result<Stepped, Fault>
        // They are the index of the drive on this board.
        requires ready { IsReady (B.state board.old) log.old.shape }
        requires may { (frames : ℕ) × (top : ℕ × RootValue) × (found : Found) × (m : Map)
            × MayWork (index log.old levels.old arena.old pool.old self.old) frames
            (B.state board.old).pages top found m }
        requires room { length buf.old ≡ log.old.shape.page_bytes }

        // Nothing remains to be done, or a step was made.
        ensures idle { result ≡ Ok Stepped.Idle → (has_no_merge (index log.old levels.old arena.old
            pool.old self.old) ≡ true)
            × (index log.new levels.new arena.new pool.new self.new ≡ index log.old levels.old
            arena.old pool.old self.old) × (B.state board.new ≡ B.state board.old) }
        ensures works { result ≡ Ok Stepped.Worked → has_no_merge
            (index log.old levels.old arena.old pool.old self.old) ≡ false }
        ensures moves { result ≡ Ok Stepped.Worked → Moves (index log.old levels.old arena.old
            pool.old self.old) (B.state board.old) (index log.new levels.new arena.new pool.new
            self.new) (B.state board.new) }
        ensures less { result ≡ Ok Stepped.Worked → Less (index log.old levels.old arena.old
            pool.old self.old) (B.state board.old).pages (index log.new levels.new arena.new
            pool.new self.new) }
        ensures same_freeze { self.new.freeze ≡ self.old.freeze }

        // Whatever came of it, of the log only the root, what its installer does next, and the frozen buffer may differ.
        ensures active { KeepsActive log.old log.new }

        // A call failed, so that a merge ran.
        ensures running { OnErr result (is_between self.old.phase ≡ false) }
        ensures unread { result ≡ Err Reading → FailsByRead (index log.old levels.old arena.old
            pool.old self.old) (B.state board.old) (index log.new levels.new arena.new pool.new
            self.new) (B.state board.new) }
        ensures broken { result ≡ Err Stopped → Breaks (index log.old levels.old arena.old pool.old
            self.old) (B.state board.old) (B.state board.new)
            × Stops (B.state board.old) (B.state board.new) }

        // The board.
        ensures sound { OnOk result (NoFault (B.state board.old) (B.state board.new)) }
        ensures calls { CallsOnce log.old.shape (B.state board.old) (B.state board.new) }
        ensures buffer { length buf.new ≡ length buf.old }
    {
        match self.phase {
            Phase::Idle => match self.begin(levels, log) {
                Stepped::Worked => Ok(Stepped::Worked),
                Stepped::Idle => Ok(Stepped::Idle),
            },
            Phase::Running { level } => {
                match self.run_job(board, pool, arena, levels, log, level) {
                    Ok(()) => Ok(Stepped::Worked),
                    Err(fault) => Err(fault),
                }
            }
            Phase::Ready { .. } => match self.install(board, pool, arena, levels, log, buf) {
                Ok(()) => Ok(Stepped::Worked),
                Err(fault) => Err(fault),
            },
        }
    }

    /// The second program of the newest root, whose pair is half made: the one flash operation.
    /// After it the blocks that leave are free. `Stopped` if it fails; nothing may be used after
    /// that. `buf` has the size of a page and is overwritten.
    pub fn finish<B: Nand>(
        &self,
        board: &mut B,
        pool: &mut Pool<A>,
        log: &mut Log<A>,
        buf: &mut [u8],
    ) -> Result<(), Fault>
        requires ready { IsReady (B.state board.old) log.old.shape }
        requires repeats { repeats_next log.old.next ≡ true }
        requires may { (levels : LevelsSpec) × (arena : Frames) × (frames : ℕ)
            × (top : ℕ × RootValue) × (found : Found) × (m : Map)
            × MaySettle (index log.old levels arena pool.old self.now) frames
            (B.state board.old).pages top found m }
        requires room { length buf.old ≡ log.old.shape.page_bytes }

        // The pair is whole.
        ensures settles { OnOk result ((levels : LevelsSpec) (arena : Frames)
            → Settles (index log.old levels arena pool.old self.now) (B.state board.old)
            (index log.new levels arena pool.new self.now) (B.state board.new)) }

        // Or the program failed.
        ensures stopped { IfErr result (λ fault. fault ≡ Stopped) }
        ensures broken { OnErr result ((levels : LevelsSpec) (arena : Frames) → SettleBreaks
            (index log.old levels arena pool.old self.now) (B.state board.old)
            (B.state board.new)) }
        ensures stops { OnErr result (Stops (B.state board.old) (B.state board.new)) }

        // The board and the log.
        ensures sound { OnOk result (Works (B.state board.old) (B.state board.new)) }
        ensures calls { CallsOnce log.old.shape (B.state board.old) (B.state board.new) }
        ensures program { OneProgram (B.state board.old) (B.state board.new) }
        ensures number { roots (B.state board.new) ≤ roots (B.state board.old) }
        ensures same_log { log.new ≡ record log.old { next = log.new.next } }
        ensures buffer { length buf.new ≡ length buf.old }
    {
        pool.known();
        log.finish_pair(board, pool, buf)
    }

    /// One step of a freeze of the active buffer, by at most one flash operation: a block of the
    /// empty epoch, the other one, the erase before the root, its first program, its second one.
    /// True exactly if this call made the second program of a root. From the first program on the
    /// empty epoch is the newest one, and the buffers are exchanged; the blocks of a former epoch
    /// without entries are free after the second. Nothing may be pending; at the freeze's start no
    /// merge may run, and nothing be frozen. `Stopped` if the operation fails; nothing may be used
    /// after that. `buf` has the size of a page and is overwritten.
    pub fn freeze_step<B: Nand>(
        &mut self,
        board: &mut B,
        pool: &mut Pool<A>,
        arena: &PinArena<A>,
        levels: &Levels<A>,
        log: &mut Log<A>,
        buf: &mut [u8],
    ) -> Result<bool, Fault>
        requires ready { IsReady (B.state board.old) log.old.shape }
        requires may { (frames : ℕ) × (top : ℕ × RootValue) × (found : Found) × (m : Map)
            × (MayFreeze (index log.old levels.now arena.now pool.old self.old) frames
            (B.state board.old).pages top found m
            ⊎ MaySettle (index log.old levels.now arena.now pool.old self.old) frames
            (B.state board.old).pages top found m) }
        requires room { length buf.old ≡ log.old.shape.page_bytes }

        // The second program of a root, or a step before the first one, or the first one.
        ensures turn { IfOk result (λ done. done ≡ repeats_next log.old.next) }
        ensures settles { result ≡ Ok true → Settles (index log.old levels.now arena.now pool.old
            self.old) (B.state board.old) (index log.new levels.now arena.now pool.new self.new)
            (B.state board.new) }
        ensures moves { result ≡ Ok false → Moves (index log.old levels.now arena.now pool.old
            self.old) (B.state board.old) (index log.new levels.now arena.now pool.new self.new)
            (B.state board.new) }
        ensures freezes { result ≡ Ok false
            → FreezeMoves (index log.old levels.now arena.now pool.old self.old)
            (index log.new levels.now arena.now pool.new self.new)
            ⊎ Freezes (index log.old levels.now arena.now pool.old self.old)
            (index log.new levels.now arena.now pool.new self.new) }

        // Whatever came of it, nothing is pending.
        ensures same_log { (log.new.shape ≡ log.old.shape) × (log.new.pending ≡ log.old.pending) }

        // Or the call failed.
        ensures stopped { IfErr result (λ fault. fault ≡ Stopped) }
        ensures broken { OnErr result (FreezeBreaks (index log.old levels.now arena.now pool.old
            self.old) (B.state board.old) (B.state board.new)) }
        ensures stops { OnErr result (Stops (B.state board.old) (B.state board.new)) }

        // The board.
        ensures sound { OnOk result (Works (B.state board.old) (B.state board.new)) }
        ensures calls { CallsOnce log.old.shape (B.state board.old) (B.state board.new) }
        ensures buffer { length buf.new ≡ length buf.old }
    {
        if log.repeats_next() {
            return match self.finish(board, pool, log, buf) {
                Ok(()) => Ok(true),
                Err(fault) => Err(fault),
            };
        }
        match self.freeze_once(board, pool, arena, levels, log, buf) {
            Ok(_) => Ok(false),
            Err(fault) => Err(fault),
        }
    }

    // One step of a freeze up to the first program of its root. True exactly if this call made that program.
    fn freeze_once<B: Nand>(
        &mut self,
        board: &mut B,
        pool: &mut Pool<A>,
        arena: &PinArena<A>,
        levels: &Levels<A>,
        log: &mut Log<A>,
        buf: &mut [u8],
    ) -> Result<bool, Fault>
        requires ready { IsReady (B.state board.old) log.old.shape }
        requires may { (frames : ℕ) × (top : ℕ × RootValue) × (found : Found) × (m : Map)
            × MayFreeze (index log.old levels.now arena.now pool.old self.old) frames
            (B.state board.old).pages top found m }
        requires room { length buf.old ≡ log.old.shape.page_bytes }

        // The freeze is a step further, or its root is named.
        ensures moves { OnOk result (Moves (index log.old levels.now arena.now pool.old self.old)
            (B.state board.old) (index log.new levels.now arena.now pool.new self.new)
            (B.state board.new)) }
        ensures freezes { IfOk result (λ done. MatchBool done
            (Freezes (index log.old levels.now arena.now pool.old self.old)
            (index log.new levels.now arena.now pool.new self.new))
            (FreezeMoves (index log.old levels.now arena.now pool.old self.old)
            (index log.new levels.now arena.now pool.new self.new))) }
        ensures same_log { (log.new.shape ≡ log.old.shape) × (log.new.pending ≡ log.old.pending) }

        // Or the call failed.
        ensures stopped { IfErr result (λ fault. fault ≡ Stopped) }
        ensures broken { OnErr result (Breaks (index log.old levels.now arena.now pool.old self.old)
            (B.state board.old) (B.state board.new) × Stops (B.state board.old)
            (B.state board.new)) }

        // The board.
        ensures sound { OnOk result (Works (B.state board.old) (B.state board.new)) }
        ensures calls { CallsOnce log.old.shape (B.state board.old) (B.state board.new) }
        ensures buffer { length buf.new ≡ length buf.old }
    {
        pool.known();
        log.freeze_step(board, pool, &mut self.freeze, buf)
    }
}
