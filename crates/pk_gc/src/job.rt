//! The job.
ghost use Rattle.std.specs.Prelude.{◌≡◌, ◌⊎◌, ◌≤◌, ◌<◌, ◌+◌, ◌-◌, ◌*◌, ◌++◌, ◌∷◌, [], ℕ};
ghost use Rattle.std.specs.Prelude.{Some, true, false, MatchOption, IfOk, IfErr, OnOk, OnErr};
ghost use Rattle.std.specs.Prelude.{length, slice_set};
ghost use Rattle.pk_base.specs.Shape as spec;
ghost use Rattle.pk_base.specs.Page.{Flash};
ghost use Rattle.pk_nand.specs.Calls.{IsReady};
ghost use Rattle.pk_nand.specs.Operations.{after_read};
ghost use Rattle.pk_nand.specs.declared.types.Fault.TheVariants.{Stopped};
ghost use Rattle.pk_live.specs.Values.{IsClosed, count_of};
ghost use Rattle.pk_live.specs.OpenBlocks.{closed_with};
ghost use Rattle.pk_pool.specs.declared.state.BlockState.TheVariants.{Free};
ghost use Rattle.pk_pool.specs.Blocks.{PoolOnFlash, IsOwned, with_state};
ghost use Rattle.pk_pool.specs.Taking.{FailsToErase};
ghost use Rattle.pk_jrn.specs.Epochs.{AreBlocks, EpochOnFlash, JournalEpoch};
ghost use Rattle.pk_jrn.specs.Appends.{EndsCommit, FailsToEnd};
ghost use Rattle.pk_gc.specs.declared.course.Course.{Course as CourseSpec};
ghost use Rattle.pk_gc.specs.declared.course.Phase.TheVariants.{Idle, Copies, Commits, GivesBack};
ghost use Rattle.pk_gc.specs.declared.reclaimed.Reclaimed.TheVariants.{Worked};
ghost use Rattle.pk_gc.specs.State.{source, read_next, programmed, begun_at, started};
ghost use Rattle.pk_gc.specs.Running.{begun_move};
ghost use Rattle.pk_gc.specs.Victims.{Chooses};
ghost use Rattle.pk_gc.specs.Beginning.{Begins};
ghost use Rattle.pk_gc.specs.Committing.{BecameOf, entries_left};
ghost use Rattle.pk_gc.specs.Stepping.{CanStep, Steps, ProgramsHeld, IsHalfCommitted, runs_in};
ghost use Rattle.pk_gc.specs.Breaking.{JobBroken, FailsToCopy};
ghost use Rattle.pk_gc.specs.Asking.{MayStart, MayCopy, MayBegin, ReadsFirst, CannotRead};
ghost use Rattle.pk_gc.specs.Asking.{IsEpoch, CannotAdd, IsBehindCommit, CanFinish, ReclaimFinished, ReclaimRunsOn, hands_of};

use crate::course::{Course, Phase};
use crate::moves::{Move, apply, fill_left, new_keys};
use crate::reclaimed::{Committed, Reclaimed};
use crate::victim::{choose, most_live, next_head};
use pk_base::{Entry, Shape};
use pk_buf::Buffer;
use pk_jrn::Epoch;
use pk_live::{Live, OpenBlock, close};
use pk_nand::{Fault, Nand};
use pk_plan::Owner;
use pk_pool::Pool;
use pk_region::Region;
use pk_seg::{read_page, write_page};
use pk_segfmt::{Head, head};
use std::alloc::{AllocError, Allocator};
use std::marker::Model;

/// A reclaim: how far it has come, the values that it copied, and the page between a read and a
/// program, in which the moves are written as well.
pub struct ReclaimJob<A: Region> {
    shape: Shape,
    phase: Phase,
    moves: Vec<Move, A>,
    entries: Vec<Entry, A>,
    page: Vec<u8, A>,
}

// Written out, so that whoever drops one meets a call, and not the drops of all its parts.
impl<A: Region> Drop for ReclaimJob<A> {
    fn drop(self) {
        let ReclaimJob {
            shape: _,
            phase: _,
            moves: _,
            entries: _,
            page: _,
        } = self;
    }
}

impl<A: Region> Model for ReclaimJob<A> {
    ghost use Rattle.std.specs.Prelude.{◌≡◌, ◌≤◌, length, vec_capacity};
    ghost use Rattle.pk_base.specs.Shape.{dense};
    ghost use Rattle.pk_base.specs.Seen.{entries as seen_all};
    ghost use Rattle.pk_gc.specs.State.{JobState, entries_in};

    ghost Value = { JobState };

    ghost view = { λ j. record {
      shape = j.shape;
      phase = j.phase;
      moves = j.moves.items;
      entries = entries_in j.phase (seen_all j.entries.items);
      page = j.page.items;
    } };

    ghost invariant = { λ j. (length j.moves.items ≤ dense j.shape)
        × (dense j.shape ≤ vec_capacity j.moves) × (dense j.shape ≤ vec_capacity j.entries)
        × (length j.page.items ≡ j.shape.page_bytes) };
}

// The victim is closed no more, and the output takes the next values.
fn hand_over<A: Allocator>(live: &mut Live<A>, front: &mut Option<OpenBlock>, course: Course)
    requires closed { IsClosed live.old course.victim }
    requires empty { count_of live.old course.victim ≡ 0 }
    requires front { MatchOption front.old (Unit {0}) (λ o. o.block < length live.old.closed) }
    ensures live { live.new ≡ record live.old {
      closed = closed_with front.old (slice_set live.old.closed course.victim false);
    } }
    ensures front { front.new ≡ Some (record { block = course.output; used = course.used }) }
{
    live.forget(course.victim);
    close(live, *front);
    *front = Some(OpenBlock {
        block: course.output,
        used: course.used,
    });
}

impl<A: Region> ReclaimJob<A> {
    /// No reclaim runs. All memory of the job is taken here.
    pub fn new(alloc: A, shape: Shape) -> Result<ReclaimJob<A>, AllocError>
        ensures { IfOk result (λ j. (j.shape ≡ shape) × (j.phase ≡ Idle) × (j.moves ≡ [])) }
    {
        shape.known();
        let most = most_live(&shape) as usize;
        let moves = Vec::with_capacity(alloc, most)?;
        let entries = Vec::with_capacity(alloc, most)?;
        let page = Vec::from_elem(alloc, 0u8, shape.page_bytes() as usize)?;
        Ok(ReclaimJob {
            shape,
            phase: Phase::Idle,
            moves,
            entries,
            page,
        })
    }

    /// Whether a reclaim runs.
    pub fn runs(&self) -> bool
        ensures { result ≡ runs_in self.now.phase }
    {
        match self.phase {
            Phase::Idle => false,
            Phase::Copies(_) => true,
            Phase::Commits(_) => true,
            Phase::GivesBack(_) => true,
        }
    }

    /// How far the reclaim has come.
    pub fn phase(&self) -> Phase
        ensures { result ≡ self.now.phase }
    {
        self.phase
    }

    /// A step of a reclaim, which is begun if none runs; at most one flash operation. `Reading` and
    /// `Stopped` if this operation fails.
    pub fn step<B: Nand>(
        &mut self,
        board: &mut B,
        pool: &mut Pool<A>,
        live: &mut Live<A>,
        active: &mut Buffer<A>,
        epoch: &mut Epoch,
        front: &mut Option<OpenBlock>,
    ) -> Result<Reclaimed, Fault>
        requires can { CanStep self.old
            (hands_of live.old front.old pool.old active.old epoch.old) (B.state board.old).pages }
        requires pool_shape { pool.old.shape ≡ self.old.shape }
        requires epoch_shape { epoch.old.shape ≡ self.old.shape }
        requires ready { IsReady (B.state board.old) self.old.shape }
        requires pool_fits { PoolOnFlash pool.old (B.state board.old).pages }
        requires epoch_fits { EpochOnFlash epoch.old (B.state board.old).pages }
        requires blocks { AreBlocks epoch.old.shape epoch.old.blocks }

        // What it did.
        ensures steps { IfOk result (λ r. Steps self.old
            (hands_of live.old front.old pool.old active.old epoch.old) (B.state board.old) self.new
            (hands_of live.new front.new pool.new active.new epoch.new) (B.state board.new) r) }

        // Or its call failed.
        ensures breaks { IfErr result (λ e. JobBroken self.old
            (hands_of live.old front.old pool.old active.old epoch.old) (B.state board.old)
            (B.state board.new) e) }
        ensures kept { OnErr result (self.new ≡ record self.old { page = self.new.page }) }
        ensures kept_parts { OnErr result ((live.new.heads ≡ live.old.heads)
            × (pool.new ≡ pool.old) × (active.new ≡ active.old) × (epoch.new ≡ epoch.old)) }
        ensures kept_values { OnErr result ((front.new ≡ front.old) × (live.new ≡ live.old)
            ⊎ (self.old.phase ≡ Idle) × (victim : ℕ)
            × Chooses self.old.shape live.old front.old live.new front.new victim) }

        // Either way all may be used again.
        ensures shape { self.new.shape ≡ self.old.shape }
        ensures ready { IsReady (B.state board.new) self.old.shape }
    {
        match self.phase {
            Phase::Idle => return self.begin(board, pool, live, front),
            Phase::Commits(victim) => return self.end_commit(board, epoch, victim),
            Phase::GivesBack(victim) => {
                self.give_back(pool, victim);
                return Ok(Reclaimed::Ended);
            }
            Phase::Copies(course) => {
                if course.held {
                    return self.program(board, course);
                }
                if course.left > 0 {
                    return self.read(board, course);
                }
                let first = course.victim * self.shape.block_pages();
                match next_head(live, first + course.seen, first + self.shape.block_pages()) {
                    Some(page) => return self.begin_value(board, course, page),
                    None => match self.commit(board, live, active, epoch, course.victim) {
                        Ok(committed) => {
                            return Ok(self.finish(committed, course, pool, live, active, front));
                        }
                        Err(fault) => return Err(fault),
                    },
                }
            }
        }
    }

    // Chooses the victim. One without live pages is freed immediately, otherwise a block is taken
    // for the copies.
    fn begin<B: Nand>(
        &mut self,
        board: &mut B,
        pool: &mut Pool<A>,
        live: &mut Live<A>,
        front: &mut Option<OpenBlock>,
    ) -> Result<Reclaimed, Fault>
        requires may { MayStart self.old live.old front.old pool.old (B.state board.old).pages }
        requires ready { IsReady (B.state board.old) self.old.shape }

        // It began.
        ensures begins { IfOk result (λ r. Begins self.old live.old front.old pool.old
            (B.state board.old) self.new live.new front.new pool.new (B.state board.new) r) }

        // Or the erase failed.
        ensures kept { OnErr result ((self.new ≡ self.old) × (pool.new ≡ pool.old)) }
        ensures chose { OnErr result ((victim : ℕ)
            × Chooses self.old.shape live.old front.old live.new front.new victim) }
        ensures failed { IfErr result (λ e. (e ≡ Stopped)
            × FailsToErase pool.old (B.state board.old) (B.state board.new)) }

        // Either way the board may be used again.
        ensures ready { IsReady (B.state board.new) self.old.shape }
        ensures fits { PoolOnFlash pool.new (B.state board.new).pages }
    {
        self.shape.known();
        let victim = choose(live, front, &self.shape);
        if live.count(victim) == 0 {
            live.forget(victim);
            pool.give(victim);
            return Ok(Reclaimed::Ended);
        }
        match pool.take(board, Owner::Values) {
            Ok(output) => {
                self.start(victim, output);
                Ok(Reclaimed::Worked)
            }
            Err(fault) => Err(fault),
        }
    }

    // A reclaim runs from now on.
    fn start(&mut self, victim: u32, output: u32)
        ensures { self.new
            ≡ record self.old { phase = Copies (started victim output); moves = []; entries = [] } }
    {
        self.moves.clear();
        self.phase = Phase::Copies(Course {
            victim,
            output,
            seen: 0,
            used: 0,
            left: 0,
            held: false,
        });
    }

    // Notes the value that begins at this page of the victim, whose first page was read.
    fn push(&mut self, course: Course, page: u32, found: Head)
        requires room { length self.old.moves < spec.dense self.old.shape }
        requires short { found.len ≤ spec.greatest self.old.shape }
        requires output { course.output < self.old.shape.blocks }
        requires used { course.used ≤ self.old.shape.block_pages }
        requires victim { course.victim * self.old.shape.block_pages ≤ page }
        ensures { self.new ≡ record self.old {
          phase = Copies (begun_at course (page - course.victim * self.old.shape.block_pages)
              (spec.charge self.old.shape found.len));
          moves = self.old.moves
              ++ begun_move self.old.shape course page found.key found.len ∷ [];
          entries = [];
        } }
    {
        self.shape.known();
        let pages = self.shape.block_pages();
        let count = self.shape.charge(found.len);
        self.moves.push_reserved(Move {
            key: found.key,
            len: found.len,
            from: page,
            to: course.output * pages + course.used,
            count,
        });
        self.phase = Phase::Copies(Course {
            seen: page - course.victim * pages,
            left: count,
            held: true,
            ..course
        });
    }

    // Reads the first page of the next live value, and notes where it goes.
    fn begin_value<B: Nand>(
        &mut self,
        board: &mut B,
        course: Course,
        page: u32,
    ) -> Result<Reclaimed, Fault>
        requires may { MayBegin course self.old (B.state board.old).pages page }
        requires ready { IsReady (B.state board.old) self.old.shape }

        // It was read.
        ensures worked { IfOk result (λ r. r ≡ Worked) }
        ensures reads { OnOk result (ReadsFirst course self.old page (B.state board.old) self.new
            (B.state board.new)) }

        // Or this failed.
        ensures unread { IfErr result (λ e.
            CannotRead page (B.state board.old) (B.state board.new) e) }
        ensures kept { OnErr result (self.new ≡ record self.old { page = self.new.page }) }
        ensures shape { self.new.shape ≡ self.old.shape }
    {
        self.shape.known();
        match read_page(board, page, &mut self.page) {
            Ok(()) => match head(&self.shape, &self.page) {
                Ok(found) => {
                    self.push(course, page, found);
                    Ok(Reclaimed::Worked)
                }
                Err(_) => unreachable!(),
            },
            Err(fault) => Err(fault),
        }
    }

    // Reads the next page of the value that is copied.
    fn read<B: Nand>(&mut self, board: &mut B, course: Course) -> Result<Reclaimed, Fault>
        requires may { MayCopy course self.old (B.state board.old).pages }
        requires some { 0 < course.left }
        requires ready { IsReady (B.state board.old) self.old.shape }

        // It was read.
        ensures worked { IfOk result (λ r. r ≡ Worked) }
        ensures job { OnOk result (self.new
            ≡ record self.old {
              phase = Copies (read_next course);
              entries = [];
              page = self.new.page;
            }) }
        ensures board { OnOk result (B.state board.new ≡ after_read (B.state board.old)) }
        ensures runs { OnOk result (ReclaimRunsOn course self.old (B.state board.old).pages
            (read_next course) self.new.page (B.state board.new).pages) }

        // Or this failed.
        ensures unread { IfErr result (λ e.
            CannotRead (source self.old.shape course) (B.state board.old) (B.state board.new) e) }
        ensures kept { OnErr result (self.new ≡ record self.old { page = self.new.page }) }
    {
        self.shape.known();
        let page = course.victim * self.shape.block_pages() + course.seen;
        match read_page(board, page, &mut self.page) {
            Ok(()) => {
                self.phase = Phase::Copies(Course {
                    held: true,
                    ..course
                });
                Ok(Reclaimed::Worked)
            }
            Err(fault) => Err(fault),
        }
    }

    // Programs the page that was read to the output.
    fn program<B: Nand>(&mut self, board: &mut B, course: Course) -> Result<Reclaimed, Fault>
        requires may { MayCopy course self.old (B.state board.old).pages }
        requires held { course.held ≡ true }
        requires ready { IsReady (B.state board.old) self.old.shape }

        // It was programmed.
        ensures worked { IfOk result (λ r. r ≡ Worked) }
        ensures programs { OnOk result (ProgramsHeld course self.old (B.state board.old) self.new
            (B.state board.new)) }
        ensures runs { OnOk result (ReclaimRunsOn course self.old (B.state board.old).pages
            (programmed course) self.old.page (B.state board.new).pages) }

        // Or this failed.
        ensures breaks { IfErr result (λ e. FailsToCopy course self.old (B.state board.old)
            (B.state board.new) e) }
        ensures kept { OnErr result (self.new ≡ self.old) }
        ensures ready { IsReady (B.state board.new) self.old.shape }
    {
        self.shape.known();
        let page = course.output * self.shape.block_pages() + course.used;
        match write_page(board, page, &self.page) {
            Ok(()) => {
                self.phase = Phase::Copies(Course {
                    seen: course.seen + 1,
                    used: course.used + 1,
                    left: course.left - 1,
                    held: false,
                    ..course
                });
                Ok(Reclaimed::Worked)
            }
            Err(fault) => Err(fault),
        }
    }

    // Adds the moves that remain to the newest epoch, by the first program of a commit. Its page is
    // made in the job's own, since all that was read is programmed.
    fn commit<B: Nand>(
        &mut self,
        board: &mut B,
        live: &Live<A>,
        active: &Buffer<A>,
        epoch: &mut Epoch,
        victim: u32,
    ) -> Result<Committed, Fault>
        requires copies { (c : CourseSpec) × MayCopy c self.old (B.state board.old).pages }
        requires epoch { IsEpoch self.old.shape epoch.old (B.state board.old).pages }
        requires whole { epoch.old.half ≡ false }
        requires ready { IsReady (B.state board.old) self.old.shape }

        // What became of them.
        ensures commits { IfOk result (λ r. BecameOf (entries_left live.now.heads self.old.moves)
            active.now epoch.old (B.state board.old) epoch.new (B.state board.new) r) }
        ensures failed { IfErr result (λ e. CannotAdd (entries_left live.now.heads self.old.moves)
            active.now epoch.old (B.state board.old) epoch.new (B.state board.new) e) }

        // Of the job phase, entries and page may differ, and these if the program was made.
        ensures job { IfOk result (λ r. IsBehindCommit r victim
            (entries_left live.now.heads self.old.moves) self.old self.new) }
        ensures kept { OnErr result (self.new ≡ record self.old { page = self.new.page }) }
        ensures moves { self.new.moves ≡ self.old.moves }
        ensures shape { self.new.shape ≡ self.old.shape }
        ensures ready { IsReady (B.state board.new) self.old.shape }
    {
        self.shape.known();
        fill_left(&self.moves, live, &mut self.entries);
        if self.entries.is_empty() {
            return Ok(Committed::None);
        }
        if active.room() < new_keys(&self.entries, active) || epoch.left() == 0 {
            return Ok(Committed::NeedsFreeze);
        }
        match epoch.append_step(board, &self.entries, &mut self.page) {
            Ok(_) => {
                self.phase = Phase::Commits(victim);
                Ok(Committed::All)
            }
            Err(fault) => Err(fault),
        }
    }

    // The second program of the commit of the moves.
    fn end_commit<B: Nand>(
        &mut self,
        board: &mut B,
        epoch: &mut Epoch,
        victim: u32,
    ) -> Result<Reclaimed, Fault>
        requires phase { self.old.phase ≡ Commits victim }
        requires half { (former : Flash)
            × IsHalfCommitted self.old epoch.old former (B.state board.old).pages }
        requires epoch { IsEpoch self.old.shape epoch.old (B.state board.old).pages }
        requires ready { IsReady (B.state board.old) self.old.shape }

        // It was made.
        ensures worked { IfOk result (λ r. r ≡ Worked) }
        ensures job { OnOk result (self.new ≡ record self.old {
          phase = GivesBack victim;
          entries = [];
          page = self.new.page;
        }) }
        ensures ends { OnOk result (EndsCommit epoch.old self.old.entries (B.state board.old)
            epoch.new (B.state board.new)) }

        // Or it failed.
        ensures stopped { IfErr result (λ e. e ≡ Stopped) }
        ensures failed { OnErr result (FailsToEnd epoch.old self.old.entries (B.state board.old)
            (B.state board.new)) }
        ensures kept { OnErr result (self.new ≡ record self.old { page = self.new.page }) }
        ensures kept_epoch { OnErr result (epoch.new ≡ epoch.old) }

        // Either way the board may be used again.
        ensures shape { self.new.shape ≡ self.old.shape }
        ensures ready { IsReady (B.state board.new) self.old.shape }
    {
        match epoch.append_step(board, &self.entries, &mut self.page) {
            Ok(_) => {
                self.phase = Phase::GivesBack(victim);
                Ok(Reclaimed::Worked)
            }
            Err(fault) => Err(fault),
        }
    }

    // Gives the victim back, and ends the reclaim.
    fn give_back(&mut self, pool: &mut Pool<A>, victim: u32)
        requires owned { IsOwned pool.old victim }
        ensures job { self.new ≡ record self.old { phase = Idle; entries = [] } }
        ensures given { pool.new ≡ with_state pool.old victim Free }
        ensures fits { (flash : Flash) → PoolOnFlash pool.old flash → PoolOnFlash pool.new flash }
    {
        pool.give(victim);
        self.phase = Phase::Idle;
    }

    // The remaining moves were made, and the output takes the next values. If none remained, the
    // victim is freed immediately.
    fn finish(
        &mut self,
        committed: Committed,
        course: Course,
        pool: &mut Pool<A>,
        live: &mut Live<A>,
        active: &mut Buffer<A>,
        front: &mut Option<OpenBlock>,
    ) -> Reclaimed
        requires can { CanFinish committed course self.old live.old front.old pool.old active.old }
        ensures finished { (epoch : JournalEpoch) → ReclaimFinished committed course self.old
            (hands_of live.old front.old pool.old active.old epoch) self.new
            (hands_of live.new front.new pool.new active.new epoch) result }
        ensures shape { self.new.shape ≡ self.old.shape }
    {
        match committed {
            Committed::NeedsFreeze => Reclaimed::NeedsFreeze,
            Committed::None => {
                hand_over(live, front, course);
                self.give_back(pool, course.victim);
                Reclaimed::Ended
            }
            Committed::All => {
                apply(&self.moves, live, active);
                hand_over(live, front, course);
                Reclaimed::Worked
            }
        }
    }
}
