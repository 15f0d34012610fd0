//! The four runs.
ghost use Rattle.std.specs.Prelude.{◌≡◌, ◌+◌, ◌-◌, ◌<◌, ◌≤◌, ℕ, List, [], ◌∷◌, length, map, slice_get, Some, IsNone, IfSome, ◌↔◌, IfOk, IfErr, OnOk, OnErr, MatchOption, MatchBool, if◌then◌else◌};
ghost use Rattle.std.specs.List.{AllByRecursion};
ghost use Rattle.pk_base.specs.Entry.{Entry as EntrySpec};
ghost use Rattle.pk_base.specs.Merge.{next_merge};
ghost use Rattle.pk_base.specs.Shape.{pinned as pinned_by};
ghost use Rattle.pk_base.specs.Page.{Flash};
ghost use Rattle.pk_nand.specs.Calls.{IsReady};
ghost use Rattle.pk_nand.specs.Operations.{after_read, ReadFailed};
ghost use Rattle.pk_nand.specs.declared.types.Fault.TheVariants.{Reading};
ghost use Rattle.pk_pin.specs.Frames.{Frames, free_frames};
ghost use Rattle.pk_run.specs.Kept.{IsKept, RunOnFlash};
ghost use Rattle.pk_run.specs.Leases.{AreLeased};
ghost use Rattle.pk_run.specs.Search.{IsFound};
ghost use Rattle.pk_level.specs.Levels as spec;
ghost use Rattle.pk_level.specs.Levels.{IsLevels, IsOfLevel, RunsOnFlash, LooksFor, ReadsUpTo, ReadFailsWithin, no_runs, run_of, with_run, all_entries, reads_through, held_levels, is_held};
ghost use Rattle.pk_level.specs.Arenas.{HasArena, HasLeases, FillsRun, FillsOne, FillsNone, IsUnfilled, BaresRun, Releases, last_level, unfilled_from, lacks};

use pk_adapt::adapted;
use pk_base::{Entry, Key, LEVELS};
use pk_nand::{Fault, Nand};
use pk_pin::PinArena;
use pk_plan::Plan;
use pk_run::Run;
use std::alloc::{AllocError, Allocator};
use std::marker::Model;
use std::mem;

/// The runs of levels 1 to 4. Contracts see the list of them, and how many levels have frames for all their pages.
pub struct Levels<A: Allocator> {
    plan: Plan,
    pinned: u8,
    first: Run<A>,
    second: Run<A>,
    third: Run<A>,
    fourth: Run<A>,
}

// Written out, so that whoever drops one meets a call, and not the drops of all its parts.
impl<A: Allocator> Drop for Levels<A> {
    fn drop(self) {
        let Levels {
            plan: _,
            pinned: _,
            first: _,
            second: _,
            third: _,
            fourth: _,
        } = self;
    }
}

impl<A: Allocator> Model for Levels<A> {
    ghost use Rattle.std.specs.Prelude.{[], ◌∷◌};
    ghost use Rattle.pk_level.specs.Levels as spec;
    ghost use Rattle.pk_level.specs.Levels.{IsLevels};

    ghost Value = { spec.Levels };

    ghost view = { λ l. record {
      shape = l.plan;
      pinned = l.pinned;
      runs = l.first ∷ l.second ∷ l.third ∷ l.fourth ∷ [];
    } };

    ghost invariant = { λ l. IsLevels (record {
      shape = l.plan;
      pinned = l.pinned;
      runs = l.first ∷ l.second ∷ l.third ∷ l.fourth ∷ [];
    }) };
}

impl<A: Allocator + Clone> Levels<A> {
    /// Four runs without entries, for an arena of `frames` frames. All memory of the runs is taken
    /// here.
    pub fn new(alloc: A, plan: Plan, frames: u32) -> Result<Levels<A>, AllocError>
        ensures empty { IfOk result (λ l. l ≡ no_runs plan (pinned_by plan frames)) }
        ensures stands { IfOk result (λ l. (flash : Flash) (arena : Frames)
            → RunsOnFlash flash arena l.runs ([] ∷ [] ∷ [] ∷ [] ∷ [])) }
    {
        let shape = plan.shape();
        let first = Run::new(alloc.clone()?, shape, 1)?;
        let second = Run::new(alloc.clone()?, shape, 2)?;
        let third = Run::new(alloc.clone()?, shape, 3)?;
        let fourth = Run::new(alloc, shape, 4)?;
        Ok(Levels {
            plan,
            pinned: plan.pinned(frames),
            first,
            second,
            third,
            fourth,
        })
    }
}

impl<A: Allocator> Levels<A> {
    /// All levels keep this, and each run keeps within its level. A lookup reads at most once for
    /// each level that is neither pinned nor held.
    pub fn known(&self)
        ensures levels { IsLevels self.now }
        ensures runs { AllByRecursion IsKept self.now.runs }
        ensures exact { reads_through self.now.runs + self.now.pinned + held_levels self.now
            ≡ LEVELS }
        ensures few { reads_through self.now.runs + self.now.pinned ≤ LEVELS }
    {
        self.first.known();
        self.second.known();
        self.third.known();
        self.fourth.known();
    }

    /// How many levels have frames for all their pages: the upper ones.
    pub fn pinned(&self) -> u8
        ensures { result ≡ self.now.pinned }
    {
        self.pinned
    }

    /// How many levels below the pinned ones have frames for all their pages.
    pub fn held(&self) -> u8
        ensures held { result ≡ held_levels self.now }
        ensures most { result + self.now.pinned ≤ LEVELS }
    {
        self.known();
        self.held_at(1) + self.held_at(2) + self.held_at(3) + self.held_at(4)
    }

    // 1 if a level is held, and otherwise 0.
    fn held_at(&self, level: u8) -> u8
        requires { 1 ≤ level × level ≤ LEVELS }
        ensures value { result ≡ (if is_held self.now.pinned level (run_of self.now level) then 1
            else 0) }
        ensures most { result ≤ 1 }
    {
        if self.pinned < level && self.at(level - 1).is_pinned() {
            1
        } else {
            0
        }
    }

    /// The last level that may have frames, of which there are this many.
    pub fn last_level(&self, frames: u32) -> u8
        ensures value { result ≡ last_level self.now frames }
        ensures most { result ≤ LEVELS }
    {
        let pages = [
            self.first.pages(),
            self.second.pages(),
            self.third.pages(),
            self.fourth.pages(),
        ];
        adapted(&self.plan, frames, &pages)
    }

    // The run at this place among the four.
    fn at(&self, place: u8) -> &Run<A>
        requires { place < LEVELS }
        ensures { slice_get self.now.runs place ≡ Some result.now }
    {
        match place {
            0 => &self.first,
            1 => &self.second,
            2 => &self.third,
            _ => &self.fourth,
        }
    }

    /// The run of a level, 1 to 4.
    pub fn run(&self, level: u8) -> &Run<A>
        requires { 1 ≤ level × level ≤ LEVELS }
        ensures run { result.now ≡ run_of self.now level }
        ensures of_level { IsOfLevel self.now.shape self.now.pinned level result.now }
    {
        self.known();
        self.at(level - 1)
    }

    /// How many entries the run of a level has, 1 to 4.
    pub fn entries(&self, level: u8) -> u32
        requires { 1 ≤ level × level ≤ LEVELS }
        ensures { result ≡ (run_of self.now level).count }
    {
        self.run(level).entries()
    }

    /// The level into which the next merge goes, for this many frozen keys. None exactly if no key
    /// is frozen.
    pub fn next_merge(&self, frozen: u32) -> Option<u8>
        ensures target { result
            ≡ next_merge self.now.shape frozen (map (λ r. r.count) self.now.runs) }
        ensures none { IsNone result ↔ (frozen ≡ 0) }
        ensures level { IfSome result (λ t. 1 ≤ t × t ≤ LEVELS) }
    {
        let counts = [
            self.first.entries(),
            self.second.entries(),
            self.third.entries(),
            self.fourth.entries(),
        ];
        self.plan.next_merge(frozen, &counts)
    }

    /// Puts a run in place of the one of its level, which is returned. All its pages have frames if
    /// those of the level have.
    pub fn install_run(&mut self, level: u8, run: Run<A>) -> Run<A>
        requires level { 1 ≤ level × level ≤ LEVELS }
        requires of_level { IsOfLevel self.old.shape self.old.pinned level run }
        ensures installed { self.new ≡ with_run self.old level run }
        ensures former { result ≡ run_of self.old level }
    {
        match level {
            1 => mem::replace(&mut self.first, run),
            2 => mem::replace(&mut self.second, run),
            3 => mem::replace(&mut self.third, run),
            _ => mem::replace(&mut self.fourth, run),
        }
    }

    /// The entry of the key in the first run that has one. Each run is read at most once, and not
    /// at all if it has no pages or they have frames. `Reading` if a read fails; otherwise nothing
    /// fails. `buf` has the size of a page and is overwritten.
    pub fn lookup<B: Nand>(
        &self,
        board: &mut B,
        arena: &PinArena<A>,
        key: &Key,
        buf: &mut [u8],
    ) -> Result<Option<Entry>, Fault>
        requires ready { IsReady (B.state board.old) self.now.shape }
        requires stand { (ess : List (List EntrySpec))
            × RunsOnFlash (B.state board.old).pages arena.now self.now.runs ess }
        requires room { length buf.old ≡ self.now.shape.page_bytes }

        // The entry of the first run that has the key, by at most this many reads.
        ensures found { IfOk result (λ found. (ess : List (List EntrySpec))
            → RunsOnFlash (B.state board.old).pages arena.now self.now.runs ess
            → IsFound key.now (all_entries ess) found) }
        ensures reads { OnOk result
            (ReadsUpTo (reads_through self.now.runs) (B.state board.old) (B.state board.new)) }
        ensures looks { OnOk result ((ess : List (List EntrySpec))
            → RunsOnFlash (B.state board.old).pages arena.now self.now.runs ess
            → LooksFor key.now self.now.runs ess (B.state board.old) (B.state board.new)) }

        // Or one of them failed.
        ensures reading { IfErr result (λ fault. fault ≡ Reading) }
        ensures err { OnErr result (ReadFailsWithin (reads_through self.now.runs)
            (B.state board.old) (B.state board.new)) }

        // Either way nothing but reads was done.
        ensures same { (B.state board.new).pages ≡ (B.state board.old).pages }
        ensures ready { IsReady (B.state board.new) self.now.shape }
    {
        self.known();
        for place in 0..LEVELS {
            match self.at(place).find(board, arena, key, buf) {
                Ok(Some(entry)) => return Ok(Some(entry)),
                Ok(None) => {}
                Err(fault) => return Err(fault),
            }
        }
        Ok(None)
    }

    // The first level, up to this one, of which a page has no frame; None if there is none.
    fn unfilled_level(&self, last: u8) -> Option<u8>
        requires { last ≤ LEVELS }
        ensures { MatchOption result (unfilled_from last 1 self.now.runs ≡ 0)
            (λ level. IsUnfilled last self.now level) }
    {
        self.known();
        if self.lacks(1, last) {
            return Some(1);
        }
        if self.lacks(2, last) {
            return Some(2);
        }
        if self.lacks(3, last) {
            return Some(3);
        }
        if self.lacks(4, last) {
            return Some(4);
        }
        None
    }

    // Whether a page of a run has no frame, and may have one.
    fn lacks(&self, level: u8, last: u8) -> bool
        requires { 1 ≤ level × level ≤ LEVELS }
        ensures { result ≡ lacks last level (run_of self.now level) }
    {
        level <= last && !self.at(level - 1).is_pinned()
    }

    // Reads the first page of a run that has no frame into a frame, of which one must be free.
    fn fill_run<B: Nand>(
        &mut self,
        level: u8,
        board: &mut B,
        arena: &mut PinArena<A>,
        buf: &mut [u8],
    ) -> Result<(), Fault>
        requires level { 1 ≤ level × level ≤ LEVELS }
        requires above { self.old.pinned < level }
        requires ready { IsReady (B.state board.old) self.old.shape }
        requires stands { (es : List EntrySpec)
            × RunOnFlash (run_of self.old level) (B.state board.old).pages arena.old es }
        requires unfilled { length (run_of self.old level).leases
            < length (run_of self.old level).firsts }
        requires free { 0 < free_frames arena.old }
        requires page { arena.old.page_bytes ≡ self.old.shape.page_bytes }
        requires room { length buf.old ≡ self.old.shape.page_bytes }

        // One of its pages more has a frame, by one read.
        ensures fills { OnOk result (FillsRun self.old arena.old level self.new arena.new) }
        ensures stands { OnOk result ((es : List EntrySpec)
            → RunOnFlash (run_of self.old level) (B.state board.old).pages arena.old es
            → RunOnFlash (run_of self.new level) (B.state board.new).pages arena.new es) }
        ensures ok { OnOk result (B.state board.new ≡ after_read (B.state board.old)) }

        // Or that read failed, and nothing else changed.
        ensures reading { IfErr result (λ fault. fault ≡ Reading) }
        ensures err { OnErr result ((page : ℕ) × ReadFailed (B.state board.old)
            (B.state board.new) page) }
        ensures kept { OnErr result ((self.new ≡ self.old) × (arena.new ≡ arena.old)) }

        // Either way nothing but a read was done.
        ensures same { (B.state board.new).pages ≡ (B.state board.old).pages }
        ensures ready { IsReady (B.state board.new) self.old.shape }
        ensures buffer { length buf.new ≡ length buf.old }
    {
        self.known();
        match level {
            1 => self.first.fill_page(board, arena, buf),
            2 => self.second.fill_page(board, arena, buf),
            3 => self.third.fill_page(board, arena, buf),
            _ => self.fourth.fill_page(board, arena, buf),
        }
    }

    /// Reads a page of the first level that may have frames and lacks one into a frame. False, and
    /// nothing is done, if no level lacks one. `Reading` if the read fails; otherwise nothing fails.
    /// `buf` has the size of a page and is overwritten.
    pub fn fill_step<B: Nand>(
        &mut self,
        board: &mut B,
        arena: &mut PinArena<A>,
        buf: &mut [u8],
    ) -> Result<bool, Fault>
        requires ready { IsReady (B.state board.old) self.old.shape }
        requires stand { (ess : List (List EntrySpec))
            × RunsOnFlash (B.state board.old).pages arena.old self.old.runs ess }
        requires arena { HasArena self.old.shape (length arena.old.used) self.old arena.old [] }
        requires room { length buf.old ≡ self.old.shape.page_bytes }

        // A page was read into a frame, or there was none to read.
        ensures filled { IfOk result (λ filled. MatchBool filled
            (FillsOne self.old arena.old (B.state board.old) self.new arena.new (B.state board.new))
            (FillsNone self.old arena.old (B.state board.old) self.new arena.new
            (B.state board.new))) }
        ensures stand { OnOk result ((ess : List (List EntrySpec))
            → RunsOnFlash (B.state board.old).pages arena.old self.old.runs ess
            → RunsOnFlash (B.state board.new).pages arena.new self.new.runs ess) }
        ensures arena { OnOk result (HasArena self.new.shape (length arena.new.used) self.new
            arena.new []) }

        // Or that read failed, and nothing else changed.
        ensures reading { IfErr result (λ fault. fault ≡ Reading) }
        ensures err { OnErr result ((page : ℕ) × ReadFailed (B.state board.old)
            (B.state board.new) page) }
        ensures kept { OnErr result ((self.new ≡ self.old) × (arena.new ≡ arena.old)) }

        // Either way nothing but a read was done.
        ensures same { (B.state board.new).pages ≡ (B.state board.old).pages }
        ensures ready { IsReady (B.state board.new) self.old.shape }
        ensures buffer { length buf.new ≡ length buf.old }
    {
        self.known();
        match self.unfilled_level(self.last_level(arena.frames())) {
            None => Ok(false),
            Some(level) => match self.fill_run(level, board, arena, buf) {
                Ok(()) => Ok(true),
                Err(fault) => Err(fault),
            },
        }
    }

    /// Frees the frames of all levels after the last one that may have frames.
    pub fn release(&mut self, arena: &mut PinArena<A>)
        requires { (others : List ℕ)
            × HasLeases self.old.shape (length arena.old.used) self.old arena.old others }
        ensures { Releases self.old arena.old self.new arena.new }
    {
        self.known();
        let last = self.last_level(arena.frames());
        for index in 0..LEVELS {
            self.bare_run(index + 1, last, arena);
        }
    }

    // Frees the frames of a run if its level is after the last one that may have frames.
    fn bare_run(&mut self, level: u8, last: u8, arena: &mut PinArena<A>)
        requires level { 1 ≤ level × level ≤ LEVELS }
        requires above { self.old.pinned ≤ last }
        requires leased { AreLeased arena.old (run_of self.old level).leases }
        ensures { BaresRun level last self.old arena.old self.new arena.new }
    {
        if level > last {
            match level {
                1 => self.first.give_frames(arena),
                2 => self.second.give_frames(arena),
                3 => self.third.give_frames(arena),
                _ => self.fourth.give_frames(arena),
            }
        }
    }
}
