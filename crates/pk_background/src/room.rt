//! Room for one more entry: merges and a freeze if the buffer or the journal is full, and a commit
//! if the journal page is.
ghost use Rattle.std.specs.Prelude.{◌≡◌, ◌≤◌, ◌<◌, length, false, OnOk};
ghost use Rattle.pk_background.specs.Costs.{NumbersLast, Spends};
ghost use Rattle.pk_log.specs.State.{needs_freeze as needs_freeze_for};
ghost use Rattle.pk_law_work.specs.Calls.{room_calls, room_roots};
ghost use Rattle.pk_parts.specs.Moves.{MayStep, LeavesValues};
ghost use Rattle.pk_background.specs.Emptying.{KeepsOrReads, OnRunning};
ghost use Rattle.pk_parts.specs.Staying.{Stays};

use crate::emptying::empty_active;
use pk_base::Key;
use pk_nand::{Fault, Nand};
use pk_parts::Parts;
use pk_region::Region;

/// Makes room for a further entry of the key: if that needs a freeze, the pending entries are
/// committed, merges empty the frozen buffer, and the active one is frozen. `Reading` if a read
/// of a merge fails: the map is unchanged.
pub fn make_room<B: Nand, A: Region>(
    parts: &mut Parts<A>,
    board: &mut B,
    key: &Key,
) -> Result<(), Fault>
    requires may { MayStep parts.old (B.state board.old) }
    requires number { NumbersLast (room_calls parts.old.log.shape) (B.state board.old) }

    // The map, and the key has room.
    ensures step { KeepsOrReads parts.old parts.new (room_calls parts.old.log.shape)
        (B.state board.old) (B.state board.new) result }
    ensures room { OnOk result (needs_freeze_for parts.new.log key.now ≡ false) }
    ensures spends { Spends (room_calls parts.old.log.shape) room_roots (B.state board.old)
        (B.state board.new) }

    // What else is unchanged; all of it if nothing is to be done.
    ensures pending { OnRunning (length parts.new.log.pending ≤ length parts.old.log.pending)
        result }
    ensures leaves { OnRunning (LeavesValues parts.old parts.new) result }
    ensures moves { OnRunning (Stays parts.old parts.new) result }
    ensures idle { OnOk result (needs_freeze_for parts.old.log key.now ≡ false
        → (parts.new ≡ parts.old) × (B.state board.new ≡ B.state board.old)) }
{
    if !parts.log.needs_freeze(key) {
        return Ok(());
    }
    match parts.commit_pending(board) {
        Ok(()) => empty_active(parts, board),
        Err(fault) => Err(fault),
    }
}
