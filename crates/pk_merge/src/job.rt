//! The job of merges, one after another.
ghost use Rattle.std.specs.Prelude.{◌≡◌, ◌≤◌, ℕ, List, None, Some, IsSome, IfOk, IfErr, OnOk, OnErr, Err, IsTrue, ◌↔◌, ◌++◌};
ghost use Rattle.pk_base.specs.Entry.{Entry as EntrySpec};
ghost use Rattle.pk_base.specs.Page.{Flash};
ghost use Rattle.pk_base.specs.declared.sizes.TheConstants.{LEVELS};
ghost use Rattle.pk_base.specs.Shape as shapes;
ghost use Rattle.pk_base.specs.Shape.{IsShape};
ghost use Rattle.pk_nand.specs.Calls.{IsReady, Rose};
ghost use Rattle.pk_nand.specs.Effects.{AtMostOneCall, NoFault, OnlyFlash, OnlyReading, Stops};
ghost use Rattle.pk_nand.specs.declared.types.Fault.TheVariants.{Reading, Stopped};
ghost use Rattle.pk_pin.specs.Frames.{Frames};
ghost use Rattle.pk_plan.specs.declared.owner.Owner.{Owner};
ghost use Rattle.pk_pool.specs.Blocks.{Blocks, given_back, freed, used_by, PoolOnFlash};
ghost use Rattle.pk_pool.specs.Unready.{unready};
ghost use Rattle.pk_run.specs.Kept.{Kept, empty, most_pages, most_blocks};
ghost use Rattle.pk_run.specs.Leases.{AreLeased, LeavesOthers, LeavesOtherLeases, given_all};
ghost use Rattle.pk_merge.specs.declared.source.Source.{Source as SourceSpec};
ghost use Rattle.pk_merge.specs.Merging.{IsDone};
ghost use Rattle.pk_merge.specs.Running.{IsMergerOf, CanBegin};
ghost use Rattle.pk_merge.specs.Steps.{Steps, Fails};
ghost use Rattle.pk_merge.specs.Remaining.{LowersTo, IsWithin};
ghost use Rattle.pk_merge.specs.Elsewhere.{StepReaches, StepWent, LeavesRuns, LeavesLeases, IsElsewhere};
ghost use Rattle.pk_merge.specs.Jobs.{pins, output_of, begun, IsIdle, JobRuns, RunsOn, Completes, LowersRest, given_to, held_at, taken_from, ended, AreOwned, LeavesBlocks};

use crate::merger::Merger;
use crate::source::{Inputs, Source};
use crate::spares::Spares;
use pk_nand::{Fault, Nand};
use pk_pin::PinArena;
use pk_plan::Plan;
use pk_pool::Pool;
use pk_region::Region;
use pk_run::Run;
use std::alloc::{AllocError, Allocator};
use std::marker::Model;

/// A merge, or none; and the runs for the outputs of the next ones.
pub struct MergeJob<A: Region> {
    pinned: u8,
    /// The level of the output, 1 to 4; 0 if no merge runs.
    target: u8,
    output: Option<Run<A>>,
    merger: Merger<A>,
    spares: Spares<A>,
}

// Written out, so that whoever drops one meets a call, and not the drops of all its parts.
impl<A: Region> Drop for MergeJob<A> {
    fn drop(self) {
        let MergeJob {
            pinned: _,
            target: _,
            output: _,
            merger: _,
            spares: _,
        } = self;
    }
}

impl<A: Region> Model for MergeJob<A> {
    ghost use Rattle.pk_merge.specs.Jobs as spec;

    ghost Value = { spec.Job };

    ghost view = { λ j. record {
      pinned = j.pinned;
      target = j.target;
      output = j.output;
      merger = j.merger;
      spares = j.spares;
    } };
}

impl<A: Region> MergeJob<A> {
    /// No merge, for an arena of this many frames. All memory of merges is taken here: three page
    /// buffers, and one run of each level.
    pub fn new(alloc: A, plan: Plan, frames: u32) -> Result<MergeJob<A>, AllocError>
        ensures idle { IfOk result (λ j. IsIdle plan j) }
        ensures pinned { IfOk result (λ j. j.pinned ≡ shapes.pinned plan frames) }
    {
        let merger = Merger::new(alloc, plan.shape())?;
        let spares = Spares::new(alloc, plan.shape())?;
        Ok(MergeJob {
            pinned: plan.pinned(frames),
            target: 0,
            output: None,
            merger,
            spares,
        })
    }

    /// Begins a merge into the run of a level, 1 to 4, if none runs.
    pub fn begin(&mut self, target: u8)
        requires level { 1 ≤ target × target ≤ LEVELS }
        requires idle { IsIdle self.old.merger.shape self.old }
        ensures begun { self.new ≡ begun self.old.merger.shape self.old target }
        ensures runs { (source : SourceSpec A) (target_run : Kept) (pool : Blocks) (flash : Flash)
            (arena : Frames) (es fs : List EntrySpec)
            → CanBegin source target_run (pins self.new) self.old.merger.shape target pool flash
            arena es fs
            → JobRuns source target_run self.new pool flash arena es fs }
    {
        self.start(target);
    }

    // Begins a merge, of which nothing is known yet.
    fn start(&mut self, target: u8)
        requires level { 1 ≤ target × target ≤ LEVELS }
        requires idle { IsIdle self.old.merger.shape self.old }
        ensures begun { self.new ≡ begun self.old.merger.shape self.old target }
        ensures shape { IsShape self.old.merger.shape }
        ensures own { IsMergerOf self.old.merger.shape self.old.merger }
    {
        self.merger.known();
        self.target = target;
        self.output = self.spares.take(target);
        self.merger.restart();
    }

    /// Ghost: brings into a proof that a merge runs as before if others change no page of a block
    /// that is owned for meta pages, and that no more of it remains than of a whole one.
    pub fn known(&self)
        ensures elsewhere { (source : SourceSpec A) (target : Kept) (pool later : Blocks)
            (old new : Flash) (arena : Frames) (es fs : List EntrySpec)
            → IsElsewhere pool old later new
            → JobRuns source target self.now pool old arena es fs
            → JobRuns source target self.now later new arena es fs }
        ensures within { (source : SourceSpec A) (target : Kept)
            → IsWithin source target (output_of self.now) self.now.merger }
    {
        self.merger.known();
    }

    /// The level of the target; 0 if no merge runs.
    pub fn target(&self) -> u8
        ensures { result ≡ self.now.target }
    {
        self.target
    }

    /// The next step, with at most one flash operation. True if every entry of source and target
    /// was taken and programmed.
    ///
    /// Then every page of the output is programmed. Into run 4 the last entries may all be of
    /// deleted keys: then these pages are programmed before, but this is known only once those
    /// entries were read. `Reading` if a read fails; the merge runs as before, and the step can be
    /// made again. `Stopped` if a program or an erase fails.
    pub fn step<B: Nand>(
        &mut self,
        board: &mut B,
        pool: &mut Pool<A>,
        arena: &mut PinArena<A>,
        source: Source<A>,
        target: &Run<A>,
    ) -> Result<bool, Fault>
        requires ready { IsReady (B.state board.old) self.old.merger.shape }
        requires running { (es : List EntrySpec) × (fs : List EntrySpec)
            × JobRuns source target.now self.old pool.old (B.state board.old).pages arena.old
            es fs }

        // The merge goes on.
        ensures running { OnOk result (RunsOn source.entry target.now self.old pool.old
            (B.state board.old).pages arena.old self.new pool.new (B.state board.new).pages
            arena.new) }
        ensures done { IfOk result (λ done. IsTrue done
            ↔ IsDone source.entry target.now self.new.merger) }
        ensures whole { IfOk result (λ done. Completes source.entry target.now self.old pool.old
            (B.state board.old).pages arena.old self.new (B.state board.new).pages arena.new
            done) }

        // What was done, exactly, and that less remains.
        ensures steps { OnOk result (Steps source.entry target.now (pins self.old)
            (output_of self.old) self.old.merger pool.old (B.state board.old) arena.old
            (output_of self.new) self.new.merger pool.new (B.state board.new) arena.new) }
        ensures job { self.new ≡ record self.old
            { output = self.new.output; merger = self.new.merger } }
        ensures lowers { OnOk result (LowersTo source.entry target.now (output_of self.old)
            self.old.merger pool.old (output_of self.new) self.new.merger pool.new
            (most_pages (output_of self.old)) (most_blocks (output_of self.old))) }
        ensures rest { OnOk result (LowersRest source.entry target.now self.old pool.old
            (B.state board.old).pages arena.old self.new pool.new) }

        // Other runs and leases are unchanged, and wherever it is cut no page differs that another
        // may read.
        ensures others { OnOk result (LeavesRuns pool.old (output_of self.old)
            (B.state board.old).pages arena.old (B.state board.new).pages arena.new) }
        ensures leases { OnOk result (LeavesLeases (output_of self.old) arena.old
            (output_of self.new) arena.new) }
        ensures cuts { OnOk result (StepReaches pool.old (output_of self.old) (B.state board.old)
            (B.state board.new)) }

        // A step that failed.
        ensures fails { IfErr result (λ fault. Fails source.entry target.now (output_of self.old)
            self.old.merger pool.old (B.state board.old) fault self.new.merger
            (B.state board.new)) }
        ensures kept { OnErr result ((self.new.output ≡ self.old.output)
            × (pool.new ≡ pool.old) × (arena.new ≡ arena.old)) }
        ensures again { result ≡ Err Reading → RunsOn source.entry target.now self.old pool.old
            (B.state board.old).pages arena.old self.new pool.new (B.state board.new).pages
            arena.new }
        ensures went { result ≡ Err Stopped → StepWent pool.old (output_of self.old)
            (B.state board.old) (B.state board.new) }

        // The board.
        ensures calls { AtMostOneCall (B.state board.old) (B.state board.new) }
        ensures only_flash { OnlyFlash (B.state board.old) (B.state board.new) }
        ensures sound { OnOk result (NoFault (B.state board.old) (B.state board.new)) }
        ensures read { result ≡ Err Reading
            → Rose (B.state board.old).read_faults (B.state board.new).read_faults
            × Rose (B.state board.old).flash_faults (B.state board.new).flash_faults
            × OnlyReading (B.state board.old) (B.state board.new) }
        ensures stopped { result ≡ Err Stopped
            → Stops (B.state board.old) (B.state board.new) }
        ensures ready { IsReady (B.state board.new) self.old.merger.shape }
    {
        let inputs = Inputs {
            source: &source,
            target,
            pins: self.target <= self.pinned,
        };
        match &mut self.output {
            Some(out) => {
                out.known();
                self.merger.step(out, board, pool, arena, &inputs)
            }
            None => unreachable!(),
        }
    }

    /// The output so far.
    pub fn output(&self) -> &Run<A>
        requires { self.now.output ≡ Some (output_of self.now) }
        ensures { result.now ≡ output_of self.now }
    {
        match &self.output {
            Some(out) => out,
            None => unreachable!(),
        }
    }

    /// The output for its level, and a run without entries for another.
    pub fn take(&mut self, level: u8) -> Run<A>
        requires level { 1 ≤ level × level ≤ LEVELS }
        requires held { IsSome (held_at self.old level) }
        ensures taken { held_at self.old level ≡ Some result }
        ensures left { self.new ≡ taken_from self.old level }
    {
        let held = if level == self.target {
            self.output.take()
        } else {
            self.spares.take(level)
        };
        match held {
            Some(run) => run,
            None => unreachable!(),
        }
    }

    /// Makes the blocks of the former run of a level leave, frees its frames, and keeps it for a
    /// later merge.
    pub fn leave(&mut self, pool: &mut Pool<A>, arena: &mut PinArena<A>, mut former: Run<A>)
        requires blocks { AreOwned (freed pool.old) former.blocks }
        requires frames { AreLeased arena.old former.leases }

        // The run is a spare one.
        ensures kept { self.new ≡ given_to self.old former }

        // Its blocks leave: once those are freed that do, they are free.
        ensures pool { freed pool.new ≡ given_back (freed pool.old) former.blocks }
        ensures blocks { LeavesBlocks former.blocks (freed pool.old) (freed pool.new) }
        ensures counted { (o : Owner) → used_by o pool.new.states ≡ used_by o pool.old.states }
        ensures unready { unready (freed pool.new).states ≡ unready (freed pool.old).states }
        ensures fits { (flash : Flash) → PoolOnFlash (freed pool.old) flash
            → PoolOnFlash (freed pool.new) flash }

        // Its frames are free.
        ensures arena { arena.new ≡ given_all arena.old former.leases }
        ensures others { LeavesOthers former.leases arena.old arena.new }
        ensures leases { LeavesOtherLeases former.leases arena.old arena.new }
    {
        former.known();
        leave_blocks(pool, former.blocks());
        former.give_frames(arena);
        former.clear();
        self.spares.put(former.level(), former);
    }

    /// Ends the merge, whose output was taken.
    pub fn end(&mut self)
        ensures { self.new ≡ ended self.old }
    {
        self.target = 0;
    }
}

// Makes blocks leave, which are owned.
fn leave_blocks<A: Allocator>(pool: &mut Pool<A>, blocks: &[u16])
    requires { AreOwned (freed pool.old) blocks.now }
    ensures left { freed pool.new ≡ given_back (freed pool.old) blocks.now }
    ensures counted { (o : Owner) → used_by o pool.new.states ≡ used_by o pool.old.states }
    ensures unready { unready (freed pool.new).states ≡ unready (freed pool.old).states }
    ensures fits { (flash : Flash) → PoolOnFlash (freed pool.old) flash
        → PoolOnFlash (freed pool.new) flash }
{
    for block in blocks {
        pool.leave(*block as u32);
    }
}
