//! Reads: where the value of a key is, and a prefix of it.
ghost use Rattle.std.specs.Prelude.{◌≡◌, ◌≤◌, ◌+◌, ℕ, List, length, take, Option, IfOk, OnOk, OnErr};
ghost use Rattle.pk_base.specs.Shape.{fetched};
ghost use Rattle.pk_nand.specs.Calls.{IsReady, last_count};
ghost use Rattle.pk_nand.specs.Counts.{after_reads};
ghost use Rattle.pk_seg.specs.Stored.{IsFront};
ghost use Rattle.pk_seg.specs.Counts.{ReadsFailed};
ghost use Rattle.pk_parts.specs.Agreeing.{DriveOnFlash};
ghost use Rattle.pk_parts.specs.Parts.{most_looks};
ghost use Rattle.pk_parts.specs.Quiet.{ReadsOnly, ReadsFailing, Looks};

use crate::parts::Parts;
use crate::place::{place_found, place_in};
use pk_base::{Key, Place};
use pk_nand::{Fault, Nand};
use pk_region::Region;
use pk_seg::read_value;

impl<A: Region> Parts<A> {
    /// Where the value of a key is, by at most one read of each level that has pages without a
    /// frame.
    pub fn look<B: Nand>(&mut self, board: &mut B, key: &Key) -> Result<Option<Place>, Fault>
        // The drive and the board.
        requires agrees { DriveOnFlash self.old (B.state board.old).shape
            (B.state board.old).pages }
        requires ready { IsReady (B.state board.old) self.old.log.shape }
        requires count { (B.state board.old).reads ≤ last_count }

        // The place, and the pages that were read for it.
        ensures looks { IfOk result (λ p. Looks self.old (B.state board.old).pages key.now p) }
        ensures reads { OnOk result (ReadsOnly (B.state board.old) (B.state board.new)
            (most_looks self.old)) }
        ensures failing { OnErr result (ReadsFailing (B.state board.old) (B.state board.new)
            (most_looks self.old)) }

        // A level that is pinned has no page without a frame.
        ensures few { most_looks self.old + self.old.levels.pinned ≤ 4 }

        // What is unchanged.
        ensures same { self.new ≡ self.old }
        ensures pages { (B.state board.new).pages ≡ (B.state board.old).pages }
        ensures ready { IsReady (B.state board.new) self.old.log.shape }
    {
        self.levels.known();
        match self.log.get(key) {
            Some(entry) => Ok(place_in(&Some(entry))),
            None => place_found(self.levels.lookup(board, &self.arena, key, &mut self.page)),
        }
    }

    /// Fills the start of `into` with the first `count` bytes of the value that begins at this
    /// page, by as many reads as they have pages.
    pub fn hand_over<B: Nand>(
        &mut self,
        board: &mut B,
        page: u32,
        count: u32,
        into: &mut [u8],
    ) -> Result<(), Fault>
        // The value, and the buffer.
        requires ready { IsReady (B.state board.old) self.old.log.shape }
        requires value { (key : List ℕ) × (value : List ℕ)
            × IsFront self.old.log.shape (B.state board.old).pages page count key value }
        requires room { count ≤ length into.old }

        // Its first bytes, and the pages that were read for them.
        ensures front { OnOk result ((key value : List ℕ)
            → IsFront self.old.log.shape (B.state board.old).pages page count key value
            → take count into.new ≡ take count value) }
        ensures ok { OnOk result (B.state board.new ≡ after_reads (fetched self.old.log.shape count)
            (B.state board.old)) }
        ensures err { OnErr result (ReadsFailed (B.state board.old) (B.state board.new) page
            (fetched self.old.log.shape count)) }

        // What is unchanged.
        ensures same { self.new ≡ self.old }
        ensures pages { (B.state board.new).pages ≡ (B.state board.old).pages }
        ensures len { length into.new ≡ length into.old }
    {
        let shape = self.shape();
        read_value(
            board,
            &shape,
            page,
            &mut into[..count as usize],
            &mut self.page,
        )
    }
}
