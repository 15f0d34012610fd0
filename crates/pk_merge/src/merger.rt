//! A merge that runs: where it is in its source and its target, and the entries of its next page.
ghost use Rattle.std.specs.Prelude.{◌≡◌, ◌<◌, ◌≤◌, ◌^◌, suc, List, [], ◌≢◌, true, false, length, slice_get, Some, IfOk, IfErr, OnOk, OnErr, IsTrue, ◌↔◌};
ghost use Rattle.pk_base.specs.Shape as shapes;
ghost use Rattle.pk_base.specs.Shape.{IsShape, page_entries};
ghost use Rattle.pk_base.specs.Entry.{Entry as EntrySpec};
ghost use Rattle.pk_base.specs.Page.{Flash};
ghost use Rattle.pk_base.specs.EntryBytes.{entry_at};
ghost use Rattle.pk_nand.specs.Calls.{IsReady};
ghost use Rattle.pk_nand.specs.declared.types.Fault.TheVariants.{Reading, Stopped};
ghost use Rattle.pk_pin.specs.Frames.{Frames};
ghost use Rattle.pk_run.specs.Kept.{RunOnFlash};
ghost use Rattle.pk_merge.specs.Cursors.{Follows, own_cell, wants_page, MayLoad, FailsToLoad};
ghost use Rattle.pk_merge.specs.Sources.{head_in, HasNextEntry, IsNextEntry, MayLoadIn, FailsToLoadIn};
ghost use Rattle.pk_merge.specs.Merging as spec;
ghost use Rattle.pk_merge.specs.Merging.{restarted, takes_source, takes_target, takes_both, taken, StandsIn, GoesOn, Tells, IsAtEnd, IsDone, HasNextPage};
ghost use Rattle.pk_merge.specs.Outputs.{MayProgram, ProgramsPage, FailsToProgram};
ghost use Rattle.pk_merge.specs.Running.{Running, IsMergerOf};
ghost use Rattle.pk_merge.specs.Steps.{Acts, Steps, Fails, LoadsSource, LoadsTarget};

use crate::cursor::Cursor;
use crate::gathered::Gathered;
use crate::next::Next;
use crate::output::{program_page, take_block, wants_block};
use crate::source::{Inputs, Source};
use pk_base::Shape;
use pk_nand::{Fault, Nand};
use pk_pin::PinArena;
use pk_pool::Pool;
use pk_region::Region;
use pk_run::Run;
use std::alloc::AllocError;
use std::cmp::Ordering;
use std::marker::Model;

/// A cursor in the source and one in the target, and the next output page.
pub struct Merger<A: Region> {
    source: Cursor<A>,
    target: Cursor<A>,
    gathered: Gathered<A>,
}

// Written out, so that whoever drops one meets a call, and not the drops of all its parts.
impl<A: Region> Drop for Merger<A> {
    fn drop(self) {
        let Merger {
            source: _,
            target: _,
            gathered: _,
        } = self;
    }
}

impl<A: Region> Model for Merger<A> {
    ghost use Rattle.std.specs.Prelude.{◌≡◌, length};
    ghost use Rattle.pk_merge.specs.Merging as spec;

    ghost Value = { spec.Merger };

    ghost view = { λ m. record {
      shape = m.gathered.shape;
      source = m.source;
      target = m.target;
      gathered = m.gathered.entries;
    } };

    ghost invariant = { λ m. (m.source.shape ≡ m.gathered.shape)
        × (m.target.shape ≡ m.gathered.shape) };
}

impl<A: Region> Merger<A> {
    /// At the start. All its memory is taken here: three pages.
    pub fn new(alloc: A, shape: Shape) -> Result<Merger<A>, AllocError>
        ensures shape { IfOk result (λ m. IsMergerOf shape m) }
        ensures start { IfOk result (λ m. m ≡ restarted m) }
    {
        let source = Cursor::new(alloc, shape)?;
        let target = Cursor::new(alloc, shape)?;
        let gathered = Gathered::new(alloc, shape)?;
        Ok(Merger {
            source,
            target,
            gathered,
        })
    }

    /// Does nothing: brings the invariant of the merge into a proof.
    pub fn known(&self)
        ensures shape { IsShape self.now.shape }
        ensures own { IsMergerOf self.now.shape self.now }
    {
        self.gathered.known();
    }

    /// Goes back to the start.
    pub fn restart(&mut self)
        ensures start { self.new ≡ restarted self.old }
        ensures shape { IsMergerOf self.old.shape self.new }
    {
        self.source.restart();
        self.target.restart();
        self.gathered.clear();
    }

    // Whether no entry remains of source and target.
    fn is_at_end(&self, source: &Source<A>, target: &Run<A>) -> bool
        ensures { IsTrue result ↔ IsAtEnd source.now target.now self.now }
    {
        self.source.place() >= source.entries() && self.target.place() >= target.entries()
    }

    /// Whether every entry was taken, and none waits for its page.
    pub fn is_done(&self, source: &Source<A>, target: &Run<A>) -> bool
        ensures { IsTrue result ↔ IsDone source.now target.now self.now }
    {
        self.is_at_end(source, target) && self.gathered.is_empty()
    }

    // Whether the next entry is known, and there is room for it in its page.
    #[tactic(auto, unfolding(crate::specs::Merging::can_gather))]
    fn can_gather(&self, source: &Source<A>, target: &Run<A>) -> bool
        ensures can { result ≡ spec.can_gather source.now target.now self.now }
        ensures bound { length self.now.gathered ≤ page_entries self.now.shape }
    {
        let source_left = self.source.place() < source.entries();
        let target_left = self.target.place() < target.entries();
        // joined by `&` and `|`, as each path through a function is proved by itself
        !self.gathered.is_full()
            & (source_left | target_left)
            & !(source_left & source.wants_page(&self.source))
            & !(target_left & self.target.wants_page())
    }

    // Whether the entries of the next page are all there.
    fn has_page(&self, source: &Source<A>, target: &Run<A>) -> bool
        ensures yes { IsTrue result → HasNextPage source.now target.now self.now }
        ensures no { result ≡ false → IsAtEnd source.now target.now self.now
            → self.now.gathered ≡ [] }
        ensures room { result ≡ false → length self.now.gathered ≢ page_entries self.now.shape }
    {
        if self.gathered.is_full() {
            return true;
        }
        self.is_at_end(source, target) && !self.gathered.is_empty()
    }

    // What the next step does.
    fn next(&self, out: &Run<A>, source: &Source<A>, target: &Run<A>) -> Next
        ensures tells { Tells source.now target.now out.now self.now result }
        ensures bound { length self.now.gathered ≤ page_entries self.now.shape }
    {
        if self.can_gather(source, target) {
            return Next::Gather;
        }
        if self.has_page(source, target) {
            if wants_block(out) {
                return Next::TakeBlock;
            }
            return Next::Program;
        }
        if self.is_at_end(source, target) {
            return Next::End;
        }
        if self.source.place() < source.entries() {
            if source.wants_page(&self.source) {
                return Next::LoadSource;
            }
        }
        Next::LoadTarget
    }

    // Takes an entry of the source.
    fn take_source(&mut self, level: u8, source: &Source<A>)
        requires head { HasNextEntry source.now self.old.source }
        requires room { length self.old.gathered < page_entries self.old.shape }
        requires place { suc self.old.source.place < 2 ^ 32 }
        ensures takes { self.new
            ≡ takes_source level (head_in source.now self.old.source) self.old }
        ensures head { IsNextEntry source.now self.old.source (head_in source.now self.old.source) }
    {
        source.give_head(&self.source, level, &mut self.gathered);
        self.source.pass();
    }

    // Takes an entry of the target.
    fn take_target(&mut self, level: u8, target: &Run<A>)
        requires here { (flash : Flash) × (arena : Frames) × (fs : List EntrySpec)
            × RunOnFlash target.now flash arena fs × Follows flash target.now self.old.target }
        requires exists { self.old.target.place < target.now.count }
        requires loaded { wants_page self.old.target ≡ false }
        requires room { length self.old.gathered < page_entries self.old.shape }
        requires place { suc self.old.target.place < 2 ^ 32 }
        ensures takes { self.new
            ≡ takes_target level (entry_at (own_cell self.old.target)) self.old }
        ensures head { (flash : Flash) (arena : Frames) (fs : List EntrySpec)
            → RunOnFlash target.now flash arena fs → Follows flash target.now self.old.target
            → slice_get fs self.old.target.place ≡ Some (entry_at (own_cell self.old.target)) }
    {
        self.gathered.keep(level, self.target.head(target));
        self.target.pass();
    }

    // Takes an entry of the source over one of the target.
    fn take_both(&mut self, level: u8, source: &Source<A>)
        requires head { HasNextEntry source.now self.old.source }
        requires room { length self.old.gathered < page_entries self.old.shape }
        requires source { suc self.old.source.place < 2 ^ 32 }
        requires target { suc self.old.target.place < 2 ^ 32 }
        ensures { self.new ≡ takes_both level (head_in source.now self.old.source) self.old }
    {
        source.give_head(&self.source, level, &mut self.gathered);
        self.source.pass();
        self.target.pass();
    }

    // Takes the entry that comes next: the one of the lower key, and of one key that of the source.
    fn gather_one(&mut self, level: u8, source: &Source<A>, target: &Run<A>)
        requires here { (flash : Flash) × (arena : Frames) × (es : List EntrySpec)
            × (fs : List EntrySpec)
            × StandsIn source.now target.now flash arena es fs self.old }
        requires can { spec.can_gather source.now target.now self.old ≡ true }
        requires bound { length self.old.gathered ≤ page_entries self.old.shape }
        ensures goes_on { GoesOn source.now target.now level self.old self.new }
        ensures taken { taken self.old < taken self.new }
    {
        self.source.known();
        self.target.known();
        let source_end = source.entries();
        let target_end = target.entries();
        if self.target.place() >= target_end {
            self.take_source(level, source);
        } else if self.source.place() >= source_end {
            self.take_target(level, target);
        } else {
            match source.compare_head(&self.source, self.target.head(target)) {
                Ordering::Less => self.take_source(level, source),
                Ordering::Equal => self.take_both(level, source),
                Ordering::Greater => self.take_target(level, target),
            }
        }
    }

    // Takes entries until a page is needed for the next one, those of a page are taken, or none
    // remains.
    fn gather(&mut self, level: u8, source: &Source<A>, target: &Run<A>)
        requires { (flash : Flash) × (arena : Frames) × (es : List EntrySpec)
            × (fs : List EntrySpec)
            × StandsIn source.now target.now flash arena es fs self.old }
        ensures goes_on { GoesOn source.now target.now level self.old self.new }
        ensures stuck { spec.can_gather source.now target.now self.new ≡ false }
    {
        while self.can_gather(source, target) {
            self.gather_one(level, source, target);
        }
    }

    // Does what comes next, with at most one flash operation.
    fn act<B: Nand>(
        &mut self,
        next: Next,
        out: &mut Run<A>,
        board: &mut B,
        pool: &mut Pool<A>,
        arena: &mut PinArena<A>,
        inputs: &Inputs<A>,
    ) -> Result<(), Fault>
        requires ready { IsReady (B.state board.old) out.old.shape }
        requires running { (es : List EntrySpec) × (fs : List EntrySpec)
            × Running inputs.now.source.now inputs.now.target.now inputs.now.pins out.old self.old
            pool.old (B.state board.old).pages arena.old es fs }
        requires tells { Tells inputs.now.source.now inputs.now.target.now out.old self.old next }
        requires bound { length self.old.gathered ≤ page_entries self.old.shape }

        // What was done, or the call that failed.
        ensures acts { OnOk result (Acts inputs.now.source.now inputs.now.target.now inputs.now.pins
            out.old self.old pool.old (B.state board.old) arena.old next out.new self.new pool.new
            (B.state board.new) arena.new) }
        ensures fails { IfErr result (λ fault. Fails inputs.now.source.now inputs.now.target.now
            out.old self.old pool.old (B.state board.old) fault self.new (B.state board.new)) }
        ensures kept { OnErr result
            ((out.new ≡ out.old) × (pool.new ≡ pool.old) × (arena.new ≡ arena.old)) }

        // Either way the board may be called as before.
        ensures ready { IsReady (B.state board.new) out.old.shape }
    {
        out.known();
        match next {
            Next::LoadSource => self.load_source(board, arena, inputs.source),
            Next::LoadTarget => self.load_target(board, arena, inputs.target),
            Next::TakeBlock => take_block(out, board, pool),
            Next::Program => self.program(out, inputs.pins, board, arena),
            Next::Gather => Ok(()),
            Next::End => Ok(()),
        }
    }

    // Loads the page at the source's cursor. `Reading` if its read fails; otherwise nothing fails.
    fn load_source<B: Nand>(
        &mut self,
        board: &mut B,
        arena: &PinArena<A>,
        source: &Source<A>,
    ) -> Result<(), Fault>
        requires { MayLoadIn source.now self.old.source (B.state board.old) arena.now }
        ensures loads { OnOk result (LoadsSource source.now self.old (B.state board.old) self.new
            (B.state board.new)) }
        ensures reading { IfErr result (λ fault. fault ≡ Reading) }
        ensures fails { OnErr result (FailsToLoadIn source.now self.old.source (B.state board.old)
            self.new.source (B.state board.new)) }
        ensures kept { self.new ≡ record self.old { source = self.new.source } }
        ensures ready { (shape : shapes.Shape) → IsReady (B.state board.old) shape
            → IsReady (B.state board.new) shape }
    {
        source.load(&mut self.source, board, arena)
    }

    // Loads the page at the target's cursor. `Reading` if its read fails; otherwise nothing fails.
    fn load_target<B: Nand>(
        &mut self,
        board: &mut B,
        arena: &PinArena<A>,
        target: &Run<A>,
    ) -> Result<(), Fault>
        requires { MayLoad target.now self.old.target (B.state board.old) arena.now }
        ensures loads { OnOk result (LoadsTarget target.now self.old (B.state board.old) self.new
            (B.state board.new)) }
        ensures reading { IfErr result (λ fault. fault ≡ Reading) }
        ensures fails { OnErr result (FailsToLoad target.now self.old.target (B.state board.old)
            self.new.target (B.state board.new)) }
        ensures kept { self.new ≡ record self.old { target = self.new.target } }
        ensures ready { IsReady (B.state board.new) target.now.shape }
    {
        self.target.load(board, arena, target)
    }

    // Programs the next page of the output. `Stopped` if the program fails, and all is as before.
    fn program<B: Nand>(
        &mut self,
        out: &mut Run<A>,
        pins: bool,
        board: &mut B,
        arena: &mut PinArena<A>,
    ) -> Result<(), Fault>
        requires ready { IsReady (B.state board.old) out.old.shape }
        requires may { MayProgram pins out.old self.old.gathered (B.state board.old).pages
            arena.old }
        requires shape { self.old.shape ≡ out.old.shape }

        // The page is there.
        ensures programmed { OnOk result (ProgramsPage pins out.old self.old.gathered
            (B.state board.old) arena.old out.new (B.state board.new) arena.new) }
        ensures taken { OnOk result (self.new ≡ record self.old { gathered = [] }) }

        // Or its program failed, and all is as before.
        ensures stopped { IfErr result (λ e. e ≡ Stopped) }
        ensures failed { OnErr result (FailsToProgram out.old self.old.gathered
            (B.state board.old) (B.state board.new)) }
        ensures kept { OnErr result
            ((out.new ≡ out.old) × (self.new ≡ self.old) × (arena.new ≡ arena.old)) }

        // Either way the board may be called as before.
        ensures ready { IsReady (B.state board.new) out.old.shape }
    {
        match program_page(out, &mut self.gathered, pins, board, arena) {
            Ok(()) => {
                self.gathered.clear();
                Ok(())
            }
            Err(fault) => Err(fault),
        }
    }

    /// The next step, with at most one flash operation; true if every entry was taken, and none
    /// waits for its page.
    ///
    /// It acts first and takes entries afterwards, so a read that failed changes only a cursor's
    /// bytes.
    pub fn step<B: Nand>(
        &mut self,
        out: &mut Run<A>,
        board: &mut B,
        pool: &mut Pool<A>,
        arena: &mut PinArena<A>,
        inputs: &Inputs<A>,
    ) -> Result<bool, Fault>
        requires ready { IsReady (B.state board.old) out.old.shape }
        requires running { (es : List EntrySpec) × (fs : List EntrySpec)
            × Running inputs.now.source.now inputs.now.target.now inputs.now.pins out.old self.old
            pool.old (B.state board.old).pages arena.old es fs }

        // What the step did, and whether it was the last one.
        ensures steps { OnOk result (Steps inputs.now.source.now inputs.now.target.now
            inputs.now.pins out.old self.old pool.old (B.state board.old) arena.old out.new self.new
            pool.new (B.state board.new) arena.new) }
        ensures done { IfOk result (λ done. IsTrue done
            ↔ IsDone inputs.now.source.now inputs.now.target.now self.new) }

        // Or the call that failed.
        ensures fails { IfErr result (λ fault. Fails inputs.now.source.now inputs.now.target.now
            out.old self.old pool.old (B.state board.old) fault self.new (B.state board.new)) }
        ensures kept { OnErr result
            ((out.new ≡ out.old) × (pool.new ≡ pool.old) × (arena.new ≡ arena.old)) }

        // Either way the board may be called as before.
        ensures ready { IsReady (B.state board.new) out.old.shape }
    {
        out.known();
        let next = self.next(out, inputs.source, inputs.target);
        match self.act(next, out, board, pool, arena, inputs) {
            Ok(()) => {
                self.gather(out.level(), inputs.source, inputs.target);
                Ok(self.is_done(inputs.source, inputs.target))
            }
            Err(fault) => Err(fault),
        }
    }
}
