//! Pairs that are programmed.
ghost use Rattle.std.specs.Prelude.{◌≡◌, ◌<◌, ◌+◌, ◌%◌, ◌^◌, List, ℕ, length, IfErr, OnOk, OnErr};
ghost use Rattle.pk_base.specs.Shape as spec;
ghost use Rattle.pk_base.specs.Page.{Flash, page_at, whole};
ghost use Rattle.pk_nand.specs.BoardState.{shape_of};
ghost use Rattle.pk_nand.specs.Calls.{IsReady, after_program, after_programs, ProgramFailed, ProgramsFailed};
ghost use Rattle.pk_nand.specs.Operations.{InOrder};
ghost use Rattle.pk_nand.specs.Crash.{Reached, Went};
ghost use Rattle.pk_nand.specs.Pairs.{programs_of_pair, IsPairCut};
ghost use Rattle.pk_nand.specs.declared.types.Fault.TheVariants.{Stopped};

use pk_nand::{Fault, Nand};

/// Programs the first page of a pair whose pages are the next Erased ones of their block. `Stopped`
/// if this fails. Wherever it is cut, each page of the pair holds these bytes or nothing, and no
/// other page differs.
pub fn write_first<B: Nand>(board: &mut B, page: u32, bytes: &[u8]) -> Result<(), Fault>
    requires exists { page + 1 < length (B.state board.old).pages }
    requires full { length bytes.now ≡ (shape_of (B.state board.old)).page_bytes }
    requires even { page % (shape_of (B.state board.old)).block_pages % 2 ≡ 0 }
    requires room { page % (shape_of (B.state board.old)).block_pages + 1
        < (shape_of (B.state board.old)).block_pages }
    requires order { InOrder (shape_of (B.state board.old)) (B.state board.old).pages page }

    // One program, after which the second page is next.
    ensures ok { OnOk result (B.state board.new ≡ after_program (B.state board.old) page bytes.now) }
    ensures written { OnOk result (page_at (B.state board.new).pages page ≡ whole bytes.now) }
    ensures order { OnOk result (InOrder (shape_of (B.state board.old)) (B.state board.new).pages
        (page + 1)) }
    ensures cuts { OnOk result (Reached (B.state board.old) (B.state board.new) (λ flash _.
        IsPairCut page bytes.now (B.state board.old).pages flash)) }
    ensures cut { OnOk result (IsPairCut page bytes.now (B.state board.old).pages
        (B.state board.new).pages) }

    // Or it failed.
    ensures stopped { IfErr result (λ e. e ≡ Stopped) }
    ensures err { OnErr result (ProgramFailed (B.state board.old) (B.state board.new) page
        bytes.now) }
    ensures cuts_err { OnErr result (Went (B.state board.old) (B.state board.new) (λ flash _.
        IsPairCut page bytes.now (B.state board.old).pages flash)) }

    // Either way the board may be called again.
    ensures ready { (shape : spec.Shape) → IsReady (B.state board.old) shape
        → IsReady (B.state board.new) shape }
{
    match board.program(page, bytes) {
        Ok(()) => Ok(()),
        Err(_) => Err(Fault::Stopped),
    }
}

/// Programs the second page of a pair whose first page holds these bytes. `Stopped` if this fails.
/// Wherever it is cut, each page of the pair holds these bytes or nothing, and no other page
/// differs.
pub fn write_second<B: Nand>(board: &mut B, page: u32, bytes: &[u8]) -> Result<(), Fault>
    requires number { page + 1 < 2 ^ 32 }
    requires exists { page + 1 < length (B.state board.old).pages }
    requires full { length bytes.now ≡ (shape_of (B.state board.old)).page_bytes }
    requires even { page % (shape_of (B.state board.old)).block_pages % 2 ≡ 0 }
    requires order { InOrder (shape_of (B.state board.old)) (B.state board.old).pages (page + 1) }

    // One program. The cuts are seen from the flash before the first page was programmed.
    ensures ok { OnOk result (B.state board.new
        ≡ after_program (B.state board.old) (page + 1) bytes.now) }
    ensures written { OnOk result (page_at (B.state board.new).pages (page + 1)
        ≡ whole bytes.now) }
    ensures cuts { OnOk result ((start : Flash)
        → IsPairCut page bytes.now start (B.state board.old).pages
        → Reached (B.state board.old) (B.state board.new) (λ flash _.
        IsPairCut page bytes.now start flash)) }
    ensures cut { OnOk result ((start : Flash)
        → IsPairCut page bytes.now start (B.state board.old).pages
        → IsPairCut page bytes.now start (B.state board.new).pages) }

    // Or it failed.
    ensures stopped { IfErr result (λ e. e ≡ Stopped) }
    ensures err { OnErr result (ProgramFailed (B.state board.old) (B.state board.new) (page + 1)
        bytes.now) }
    ensures cuts_err { OnErr result ((start : Flash)
        → IsPairCut page bytes.now start (B.state board.old).pages
        → Went (B.state board.old) (B.state board.new) (λ flash _.
        IsPairCut page bytes.now start flash)) }

    // Either way the board may be called again.
    ensures ready { (shape : spec.Shape) → IsReady (B.state board.old) shape
        → IsReady (B.state board.new) shape }
{
    match board.program(page + 1, bytes) {
        Ok(()) => Ok(()),
        Err(_) => Err(Fault::Stopped),
    }
}

/// Programs both pages of a pair, the next Erased ones of their block, the first one first.
/// `Stopped` if a program fails. Wherever it is cut, each page of the pair holds these bytes or
/// nothing, and no other page differs.
pub fn write_pair<B: Nand>(board: &mut B, page: u32, bytes: &[u8]) -> Result<(), Fault>
    requires number { page + 1 < 2 ^ 32 }
    requires exists { page + 1 < length (B.state board.old).pages }
    requires full { length bytes.now ≡ (shape_of (B.state board.old)).page_bytes }
    requires even { page % (shape_of (B.state board.old)).block_pages % 2 ≡ 0 }
    requires room { page % (shape_of (B.state board.old)).block_pages + 1
        < (shape_of (B.state board.old)).block_pages }
    requires order { InOrder (shape_of (B.state board.old)) (B.state board.old).pages page }

    // Both programs.
    ensures ok { OnOk result (B.state board.new
        ≡ after_programs (B.state board.old) (programs_of_pair page bytes.now)) }
    ensures first { OnOk result (page_at (B.state board.new).pages page ≡ whole bytes.now) }
    ensures second { OnOk result (page_at (B.state board.new).pages (page + 1)
        ≡ whole bytes.now) }
    ensures cuts { OnOk result (Reached (B.state board.old) (B.state board.new) (λ flash _.
        IsPairCut page bytes.now (B.state board.old).pages flash)) }
    ensures cut { OnOk result (IsPairCut page bytes.now (B.state board.old).pages
        (B.state board.new).pages) }

    // Or one of them failed.
    ensures stopped { IfErr result (λ e. e ≡ Stopped) }
    ensures err { OnErr result (ProgramsFailed (B.state board.old) (B.state board.new)
        (programs_of_pair page bytes.now)) }
    ensures cuts_err { OnErr result (Went (B.state board.old) (B.state board.new) (λ flash _.
        IsPairCut page bytes.now (B.state board.old).pages flash)) }

    // Either way the board may be called again.
    ensures ready { (shape : spec.Shape) → IsReady (B.state board.old) shape
        → IsReady (B.state board.new) shape }
{
    match write_first(board, page, bytes) {
        Ok(()) => {}
        Err(fault) => return Err(fault),
    }
    match write_second(board, page, bytes) {
        Ok(()) => Ok(()),
        Err(fault) => Err(fault),
    }
}
