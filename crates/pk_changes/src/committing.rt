//! A commit if the journal page is full.
ghost use Rattle.std.specs.Prelude.{◌≡◌, ◌≤◌, ◌<◌, length, OnOk};
ghost use Rattle.pk_base.specs.Shape.{commit_programs, page_entries};
ghost use Rattle.pk_law_work.specs.Calls.{commit_calls};
ghost use Rattle.pk_call.specs.Calling.{FewCalls};
ghost use Rattle.pk_parts.specs.Moves.{MayStep, StepKeeps, OnlyCommits};
ghost use Rattle.pk_parts.specs.Staying.{Stays};
ghost use Rattle.pk_parts.specs.Stopping.{StoppedOn};
ghost use Rattle.pk_changes.specs.Programming.{Programs};

use pk_nand::{Fault, Nand};
use pk_parts::Parts;
use pk_region::Region;

/// Commits the pending entries if there are as many as a journal page has.
pub(crate) fn commit_if_full<B: Nand, A: Region>(
    parts: &mut Parts<A>,
    board: &mut B,
) -> Result<(), Fault>
    requires may { MayStep parts.old (B.state board.old) }

    // Fewer entries are pending than a page of the journal takes, by the two programs of a commit or none.
    ensures step { StepKeeps parts.old parts.new 0 (B.state board.old)
        (B.state board.new) result }
    ensures few { OnOk result (length parts.new.log.pending < page_entries parts.old.log.shape) }
    ensures pending { OnOk result (length parts.new.log.pending ≤ length parts.old.log.pending) }
    ensures rest { OnOk result (OnlyCommits parts.old parts.new) }
    ensures idle { OnOk result (length parts.old.log.pending < page_entries parts.old.log.shape
        → (parts.new ≡ parts.old) × (B.state board.new ≡ B.state board.old)) }
    ensures moves { OnOk result (Stays parts.old parts.new) }
    ensures full { OnOk result (page_entries parts.old.log.shape ≤ length parts.old.log.pending
        → Programs commit_programs (B.state board.old) (B.state board.new)) }
    ensures calls { FewCalls commit_calls (B.state board.old) (B.state board.new) }
    ensures stops { StoppedOn parts.new result }
{
    if parts.log.pending() >= parts.log.root().shape().entries() {
        parts.commit_pending(board)
    } else {
        Ok(())
    }
}
