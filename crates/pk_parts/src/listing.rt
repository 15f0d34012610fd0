//! The keys from one on, one after another.
ghost use Rattle.std.specs.Prelude.{◌≡◌, ◌≤◌, ◌<◌, List, ◌∷◌, length, IfOk, IfErr, OnOk, OnErr};
ghost use Rattle.pk_base.specs.Entry.{Entry as EntrySpec, Place};
ghost use Rattle.pk_base.specs.Key.{Key as KeySpec};
ghost use Rattle.pk_base.specs.Page.{Flash};
ghost use Rattle.pk_base.specs.Shape.{most_calls};
ghost use Rattle.pk_nand.specs.declared.types.Fault.TheVariants.{Reading};
ghost use Rattle.pk_level.specs.Levels.{RunsOnFlash};
ghost use Rattle.pk_walk.specs.Walking.{IsLeft, Reads, ReadsFail, pages_read, most_read};
ghost use Rattle.pk_parts.specs.Keys.{GivesKey, MayWalk, Walked, keys_of, keys_there};

use crate::parts::Parts;
use pk_base::{Entry, Key};
use pk_nand::{Fault, Nand};
use pk_region::Region;

impl<A: Region> Parts<A> {
    /// Begins a walk over the keys from this one on.
    pub fn start_keys(&mut self, from: &Key)
        // The keys that it will give.
        ensures left { (flash : Flash) (ess : List (List EntrySpec))
            → RunsOnFlash flash self.old.arena self.old.levels.runs ess
            → (rest : List (KeySpec × Place))
            × IsLeft self.new.walk flash self.old.arena self.old.levels.runs
            self.old.log.active.entries self.old.log.frozen.entries rest
            × (keys_of rest ≡ keys_there from.now
            (self.old.log.active.entries ∷ self.old.log.frozen.entries ∷ ess)) }

        // The pages that it may read.
        ensures none_read { pages_read self.old.levels.runs self.new.walk.cursors ≡ 0 }
        ensures few { most_read self.old.levels.runs ≤ 4000000 }
        ensures within { most_read self.old.levels.runs < most_calls self.old.levels.shape }

        // What is unchanged.
        ensures shape { self.new.walk.shape ≡ self.old.log.shape }
        ensures rest { self.new ≡ record self.old { walk = self.new.walk } }
    {
        // These calls do nothing: they say to the proof how many pages a run can have.
        self.levels.known();
        self.levels.run(1).known();
        self.levels.run(2).known();
        self.levels.run(3).known();
        self.levels.run(4).known();
        self.walk.start(Some(from));
    }

    /// The entry of the next key of the walk that `start_keys` began; None after the last.
    /// `Reading` if a read fails.
    #[inline]
    pub fn next_key<B: Nand>(&mut self, board: &mut B) -> Result<Option<Entry>, Fault>
        requires may { MayWalk self.old.walk (B.state board.old) self.old.levels self.old.arena
            self.old.log }

        // The key, and the pages that were read for it.
        ensures gives { IfOk result (λ found. GivesKey self.old.walk self.new.walk
            (B.state board.old) (B.state board.new) self.old.levels self.old.arena self.old.log
            found) }
        ensures walked { Walked self.old.walk self.new.walk (B.state board.old)
            (B.state board.new) self.old.levels }
        ensures reads { OnOk result (Reads (pages_read self.old.levels.runs self.old.walk.cursors)
            (pages_read self.old.levels.runs self.new.walk.cursors)
            (B.state board.old) (B.state board.new)) }
        ensures reading { IfErr result (λ fault. fault ≡ Reading) }
        ensures err { OnErr result (ReadsFail
            (pages_read self.old.levels.runs self.old.walk.cursors)
            (pages_read self.old.levels.runs self.new.walk.cursors)
            (B.state board.old) (B.state board.new)) }

        // What is unchanged.
        ensures rest { self.new ≡ record self.old { walk = self.new.walk } }
    {
        let active = self.log.active();
        let frozen = self.log.frozen();
        self.walk
            .next(board, &self.arena, &self.levels, active, frozen)
    }
}
