//! A background step.
ghost use Rattle.std.specs.Prelude.{◌≡◌, [], false};
ghost use Rattle.pk_call.specs.Tick.{TellsIdle, SettlesStep};
ghost use Rattle.pk_call.specs.Seen.{stopped_by};
ghost use Rattle.pk_parts.specs.Parts.{sight_of};
ghost use Rattle.pk_parts.specs.Agreeing.{DriveOnFlash};
ghost use Rattle.pk_background.specs.Ticking.{MayTick, Ticks};
ghost use Rattle.pk_background.specs.Order.{MadeInOrder};
ghost use Rattle.pk_parts.specs.Staying.{StaysOrFrees};

use pk_background::advance;
use pk_call::Ticked;
use pk_nand::Nand;
use pk_parts::Parts;
use pk_region::Region;

/// One background step: the first that applies. It is idle exactly if nothing remains to be done.
pub(crate) fn step<B: Nand, A: Region>(parts: &mut Parts<A>, board: &mut B) -> Ticked
    requires may { MayTick parts.old (B.state board.old) }

    // The drive.
    ensures stops { parts.new.stopped ≡ stopped_by result }
    ensures none { parts.new.log.pending ≡ [] }
    ensures agrees { stopped_by result ≡ false
        → DriveOnFlash parts.new (B.state board.new).shape (B.state board.new).pages }
    ensures moves { stopped_by result ≡ false → StaysOrFrees parts.old parts.new }

    // The first step that applies is made, by what the drive is and by what is seen of it.
    ensures order { MadeInOrder parts.old parts.new (B.state board.old) (B.state board.new) result }
    ensures settles { SettlesStep (B.state board.old) (B.state board.new) (sight_of parts.old)
        (sight_of parts.new) result }

    // The step.
    ensures ticks { Ticks (B.state board.old) (B.state board.new) (sight_of parts.old)
        (sight_of parts.new) result }
    ensures idle { TellsIdle (B.state board.old) (sight_of parts.old) result }
{
    parts.known();
    advance(parts, board)
}
