//! The command that requests background steps.
ghost use Rattle.std.specs.Prelude.{◌≡◌, ◌≤◌, ◌+◌, ℕ, List, [], false};
ghost use Rattle.pk_nvme.specs.Seen.{command_of};
ghost use Rattle.pk_nand.specs.Calls.{last_count};
ghost use Rattle.pk_call.specs.Seen.{stopped_by};
ghost use Rattle.pk_parts.specs.Parts.{sight_of};
ghost use Rattle.pk_parts.specs.Agreeing.{DriveOnFlash};
ghost use Rattle.pk_core.specs.Serving.{IsServable};
ghost use Rattle.pk_core.specs.Done.{Executes};
ghost use Rattle.pk_background.specs.Ticking.{MayTick};
ghost use Rattle.pk_core.specs.Stepping.{BackgroundSteps, Lessens, has_failed, outcome_of};
ghost use Rattle.pk_nvme.specs.declared.status.TheConstants.{SUCCESSFUL_COMPLETION};
ghost use Rattle.pk_nvme.specs.declared.opcode.TheConstants.{TICK};
ghost use Rattle.pk_call.specs.Calling.{FewCalls};
ghost use Rattle.pk_parts.specs.Staying.{StaysOrFrees};

use crate::counts::reads_since;
use pk_background::advance;
use pk_call::{Outcome, Ticked};
use pk_model::wear::WORN_FROM;
use pk_nand::Nand;
use pk_nvme::Request;
use pk_nvme::status::UNRECOVERED_ERROR;
use pk_parts::Parts;
use pk_region::Region;

// The result of the last step, after this many reads.
fn answer_of(last: Ticked, reads: u32) -> Outcome
    ensures { result ≡ outcome_of last reads }
{
    let (status, stopped) = match last {
        Ticked::Fault { stopped } => (UNRECOVERED_ERROR, stopped),
        _ => (0, false),
    };
    Outcome {
        status,
        result: 0,
        data_len: 0,
        reads,
        stopped,
    }
}

// Makes this many background steps, fewer if nothing remains to be done, the drive becomes worn, or
// a call fails. The last one answers.
fn work<B: Nand, A: Region>(parts: &mut Parts<A>, board: &mut B, steps: u32) -> Ticked
    requires may { MayTick parts.old (B.state board.old) }
    requires count { (B.state board.old).reads ≤ last_count }
    requires numbers { parts.old.log.root.number + steps ≤ last_count }

    // The drive.
    ensures stops { parts.new.stopped ≡ stopped_by result }
    ensures none { parts.new.log.pending ≡ [] }
    ensures agrees { stopped_by result ≡ false
        → DriveOnFlash parts.new (B.state board.new).shape (B.state board.new).pages }
    ensures moves { stopped_by result ≡ false → StaysOrFrees parts.old parts.new }

    // The steps.
    ensures steps { BackgroundSteps (B.state board.old) (B.state board.new) (sight_of parts.old)
        (sight_of parts.new) result steps }
    ensures done { has_failed result ≡ false → Lessens parts.old parts.new steps }
    ensures no_more { stopped_by result ≡ false
        → (sight_of parts.new).work ≤ (sight_of parts.old).work }
{
    for made in 0..steps {
        match advance(parts, board) {
            Ticked::Worked => {
                if parts.root_number() >= WORN_FROM {
                    return Ticked::Worked;
                }
            }
            Ticked::Idle => return Ticked::Idle,
            Ticked::Fault { stopped } => return Ticked::Fault { stopped },
        }
    }
    Ticked::Worked
}

/// Makes as many background steps as the command requests, fewer if a further one would do nothing or
/// the drive is worn.
pub(crate) fn tick_command<B: Nand, A: Region>(
    parts: &mut Parts<A>,
    board: &mut B,
    request: &Request,
) -> Outcome
    // The command is one that it serves, and nothing is pending.
    requires servable { IsServable parts.old (B.state board.old) request.now }
    requires opcode { request.now.opcode ≡ TICK }
    requires none { parts.old.log.pending ≡ [] }

    // The command.
    ensures executes { (v into : List ℕ)
        → Executes parts.old parts.new (B.state board.old) (B.state board.new)
        (command_of request.now v) result into result.reads }
    ensures no_data { result.data_len ≡ 0 }

    // Its steps.
    ensures none { parts.new.log.pending ≡ [] }
    ensures done { result.status ≡ SUCCESSFUL_COMPLETION
        → Lessens parts.old parts.new request.now.size }
    ensures no_more { result.stopped ≡ false
        → (sight_of parts.new).work ≤ (sight_of parts.old).work }
    ensures moves { result.stopped ≡ false → StaysOrFrees parts.old parts.new }
    ensures calls { FewCalls request.now.size (B.state board.old) (B.state board.new) }
{
    let before = board.read_count();
    let last = work(parts, board, request.size);
    answer_of(last, reads_since(board, before))
}
