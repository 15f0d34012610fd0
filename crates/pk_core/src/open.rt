//! A drive is opened.
ghost use Rattle.std.specs.Prelude.{◌≡◌, ◌≤◌, ◌<◌, [], length, false, None, IfOk, IfErr, OnOk};
ghost use Rattle.pk_base.specs.Shape.{page_entries, pinned};
ghost use Rattle.pk_base.specs.Map.{Map};
ghost use Rattle.pk_nand.specs.Calls.{IsReady};
ghost use Rattle.pk_nand.specs.Counts.{after_reads};
ghost use Rattle.pk_model.specs.Spaces.{terms_at};
ghost use Rattle.pk_call.specs.Drive.{HoldsMap};
ghost use Rattle.pk_call.specs.Sight.{entries_of_runs};
ghost use Rattle.pk_scan.specs.Reads.{opening_reads};
ghost use Rattle.pk_scan.specs.Opening.{NotOpened};
ghost use Rattle.pk_nand.specs.Effects.{OnlyReading};
ghost use Rattle.pk_parts.specs.Parts.{sight_of};
ghost use Rattle.pk_parts.specs.Agreeing.{DriveOnFlash};
ghost use Rattle.pk_call.specs.Steady.{IsSteady, live_blocks, pages_of_runs};
ghost use Rattle.pk_model.specs.Tree.{Tree, IsTree};

use crate::drive::Drive;
use pk_base::Shape;
use pk_nand::Nand;
use pk_parts::Parts;
use pk_region::Region;
use pk_scan::{OpenError, scan};

impl<A: Region> Drive<A> {
    /// Opens the flash of a board of this shape, with this many frames for the pages of runs. The
    /// drive's map is the one that the flash holds, and nothing is pending. Nothing is written; all
    /// memory of the drive is taken here.
    ///
    /// `NotFormatted` exactly if the flash has no root, `Damaged` exactly if it has one and holds
    /// no map, with the page at which its reading fails; `Fault` if a read failed. `Memory` if the
    /// allocator has none, before a read, between two or after the last. Whatever is returned,
    /// nothing but reads was done, of which one failed exactly at `Fault`.
    pub fn open<B: Nand>(
        alloc: A,
        board: &mut B,
        shape: Shape,
        frames: u32,
    ) -> Result<Drive<A>, OpenError>
        requires ready { IsReady (B.state board.old) shape }
        requires frames { frames ≤ 16384 }

        // The drive.
        ensures agrees { IfOk result (λ d. DriveOnFlash d (B.state board.new).shape
            (B.state board.new).pages × (length d.log.pending < page_entries d.log.shape)) }
        ensures stands { IfOk result (λ d. (m : Map)
            × HoldsMap shape (terms_at shape (B.state board.new).pages frames) (B.state board.new)
            (sight_of d) m) }
        ensures steady { IfOk result (λ d. IsSteady shape (B.state board.new).pages (sight_of d)) }
        ensures blocks { IfOk result (λ d. (tree : Tree)
            → IsTree shape (B.state board.new).pages tree
            → (sight_of d).counts.blocks ≡ live_blocks shape tree.found []) }
        ensures runs { IfOk result (λ d. d.stopped ≡ false) }
        ensures none { IfOk result (λ d. d.log.pending ≡ []) }
        ensures fresh { IfOk result (λ d. d.log.epoch.takes_more ≡ false) }
        ensures closed { IfOk result (λ d. d.values.open_block ≡ None) }

        // No pair is half made, and the pages of the pinned levels alone have frames.
        ensures whole { IfOk result (λ d. (sight_of d).half ≡ false) }
        ensures closed_levels { IfOk result (λ d. (sight_of d).counts.leased
            ≡ pages_of_runs shape (pinned shape frames) (entries_of_runs (sight_of d).counts)) }

        // The board.
        ensures reads { OnOk result (B.state board.new ≡ after_reads (opening_reads shape
            (B.state board.old).pages frames) (B.state board.old)) }
        ensures err { IfErr result (λ e. NotOpened shape (B.state board.old)
            (B.state board.new) e) }
        ensures rest { OnlyReading (B.state board.old) (B.state board.new) }
    {
        shape.known();
        match scan(alloc, board, shape, frames) {
            Err(error) => Err(error),
            Ok(found) => match Parts::over(alloc, found) {
                Err(_) => Err(OpenError::Memory),
                Ok(parts) => {
                    parts.known();
                    Ok(Drive { parts })
                }
            },
        }
    }
}
