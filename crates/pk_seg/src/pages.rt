//! Single pages.
ghost use Rattle.std.specs.Prelude.{◌≡◌, ◌<◌, List, ℕ, length, IfErr, OnOk, OnErr};
ghost use Rattle.pk_base.specs.Shape as spec;
ghost use Rattle.pk_base.specs.Page.{page_at, whole};
ghost use Rattle.pk_nand.specs.BoardState.{shape_of};
ghost use Rattle.pk_nand.specs.Calls.{IsReady, after_program, ProgramFailed};
ghost use Rattle.pk_nand.specs.Operations.{InOrder, after_read, ReadFailed};
ghost use Rattle.pk_nand.specs.Crash.{Reached, Went};
ghost use Rattle.pk_nand.specs.Pairs.{SameOutsidePair};
ghost use Rattle.pk_nand.specs.declared.types.Fault.TheVariants.{Reading, Stopped};

use pk_nand::{Fault, Nand};

/// Reads a whole page into the buffer, by one read. `Reading` if it fails.
pub fn read_page<B: Nand>(board: &mut B, page: u32, buf: &mut [u8]) -> Result<(), Fault>
    requires exists { page < length (B.state board.old).pages }
    requires room { length buf.old ≡ (shape_of (B.state board.old)).page_bytes }
    requires whole { (bytes : List ℕ) × (page_at (B.state board.old).pages page ≡ whole bytes) }

    // The bytes, by one read.
    ensures bytes { OnOk result (page_at (B.state board.old).pages page ≡ whole buf.new) }
    ensures ok { OnOk result (B.state board.new ≡ after_read (B.state board.old)) }

    // Or the read failed.
    ensures reading { IfErr result (λ e. e ≡ Reading) }
    ensures err { OnErr result (ReadFailed (B.state board.old) (B.state board.new) page) }
{
    match board.read(page, buf) {
        Ok(_) => Ok(()),
        Err(_) => Err(Fault::Reading),
    }
}

/// Programs the next Erased page of its block with the buffer's bytes. `Stopped` if this fails.
/// Wherever it is cut, no page outside its pair differs.
pub fn write_page<B: Nand>(board: &mut B, page: u32, buf: &[u8]) -> Result<(), Fault>
    requires exists { page < length (B.state board.old).pages }
    requires full { length buf.now ≡ (shape_of (B.state board.old)).page_bytes }
    requires order { InOrder (shape_of (B.state board.old)) (B.state board.old).pages page }

    // One program.
    ensures ok { OnOk result (B.state board.new ≡ after_program (B.state board.old) page buf.now) }
    ensures written { OnOk result (page_at (B.state board.new).pages page ≡ whole buf.now) }
    ensures cuts { OnOk result (Reached (B.state board.old) (B.state board.new) (λ flash _.
        SameOutsidePair (shape_of (B.state board.old)) page (B.state board.old).pages flash)) }

    // Or it failed.
    ensures stopped { IfErr result (λ e. e ≡ Stopped) }
    ensures err { OnErr result (ProgramFailed (B.state board.old) (B.state board.new) page
        buf.now) }
    ensures cuts_err { OnErr result (Went (B.state board.old) (B.state board.new) (λ flash _.
        SameOutsidePair (shape_of (B.state board.old)) page (B.state board.old).pages flash)) }

    // Either way the board may be called again.
    ensures ready { (shape : spec.Shape) → IsReady (B.state board.old) shape
        → IsReady (B.state board.new) shape }
{
    match board.program(page, buf) {
        Ok(()) => Ok(()),
        Err(_) => Err(Fault::Stopped),
    }
}
