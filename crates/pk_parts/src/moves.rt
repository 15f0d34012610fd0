//! The steps inside a command. Each keeps the map, wherever it is cut.
ghost use Rattle.std.specs.Prelude.{◌≡◌, ◌≢◌, ◌≤◌, [], true, IsOk, OnOk, OnErr};
ghost use Rattle.pk_base.specs.Shape.{commit_programs};
ghost use Rattle.pk_jrn.specs.Epochs.{left_of};
ghost use Rattle.pk_parts.specs.Moves.{MayCommit, StepKeeps, OnlyCommits};
ghost use Rattle.pk_call.specs.Commit.{ProgramsOfCommit};
ghost use Rattle.pk_call.specs.Moving.{Commits};
ghost use Rattle.pk_parts.specs.Parts.{sight_of};
ghost use Rattle.pk_parts.specs.Staying.{Stays};

use crate::parts::Parts;
use pk_nand::{Fault, Nand};
use pk_region::Region;

impl<A: Region> Parts<A> {
    // Commits the pending entries; does nothing if there are none.
    pub(crate) fn commit_once<B: Nand>(&mut self, board: &mut B) -> Result<(), Fault>
        requires may { MayCommit self.old (B.state board.old) }

        // Nothing is pending, by the two programs of a commit or none.
        ensures step { StepKeeps self.old self.new 0 (B.state board.old)
            (B.state board.new) result }
        ensures none { OnOk result (self.new.log.pending ≡ []) }
        ensures program { self.old.log.pending ≢ []
            → ProgramsOfCommit 1 (B.state board.old) (B.state board.new) }
        ensures programs { OnOk result (self.old.log.pending ≢ []
            → ProgramsOfCommit commit_programs (B.state board.old) (B.state board.new)) }
        ensures idle { self.old.log.pending ≡ []
            → IsOk result × (self.new ≡ self.old) × (B.state board.new ≡ B.state board.old) }

        // What else is unchanged.
        ensures rest { OnOk result (OnlyCommits self.old self.new) }
        ensures pages_left { OnOk result (left_of self.new.log.epoch ≤ left_of self.old.log.epoch) }
        ensures kept { OnErr result (self.new ≡ self.old) }
        ensures seen { OnOk result (Commits (sight_of self.old) (sight_of self.new)) }
        ensures moves { OnOk result (Stays self.old self.new) }
    {
        self.log.commit(board, &mut self.page)
    }

    /// Commits the pending entries; does nothing if there are none. A program that fails stops the
    /// drive.
    pub fn commit_pending<B: Nand>(&mut self, board: &mut B) -> Result<(), Fault>
        requires may { MayCommit self.old (B.state board.old) }

        // Nothing is pending, by the two programs of a commit or none.
        ensures step { StepKeeps self.old self.new 0 (B.state board.old)
            (B.state board.new) result }
        ensures none { OnOk result (self.new.log.pending ≡ []) }
        ensures program { self.old.log.pending ≢ []
            → ProgramsOfCommit 1 (B.state board.old) (B.state board.new) }
        ensures programs { OnOk result (self.old.log.pending ≢ []
            → ProgramsOfCommit commit_programs (B.state board.old) (B.state board.new)) }
        ensures idle { self.old.log.pending ≡ []
            → IsOk result × (self.new ≡ self.old) × (B.state board.new ≡ B.state board.old) }

        // What else is unchanged.
        ensures rest { OnOk result (OnlyCommits self.old self.new) }
        ensures pages_left { OnOk result (left_of self.new.log.epoch ≤ left_of self.old.log.epoch) }
        ensures kept { OnErr result (self.new ≡ record self.old { stopped = true }) }
        ensures seen { OnOk result (Commits (sight_of self.old) (sight_of self.new)) }
        ensures moves { OnOk result (Stays self.old self.new) }
    {
        match self.commit_once(board) {
            Ok(()) => Ok(()),
            Err(fault) => Err(self.fail(fault)),
        }
    }
}
