//! Runs of one page, as they are opened.
ghost use Rattle.std.specs.Prelude.{◌≡◌, ◌≤◌, ◌<◌, ◌*◌, length, true, OnOk};
ghost use Rattle.pk_base.specs.Shape.{cap, page_entries, run_blocks};
ghost use Rattle.pk_nand.specs.Calls.{IsReady};
ghost use Rattle.pk_run.specs.Kept.{empty};
ghost use Rattle.pk_scan.specs.Board.{StaysReady};
ghost use Rattle.pk_scan.specs.Runs.{RunsStand};
ghost use Rattle.pk_test_merges.specs.Opened.{IsOpened};

use pk_base::{MOST_SPACES, Shape};
use pk_nand::{Fault, Nand};
use pk_pin::PinArena;
use pk_run::Run;
use pk_scan::load_run;
use std::alloc::Allocator;

// Whether runs of two entries in one block may be at this level.
fn may_stand(shape: &Shape, level: u8) -> bool
    requires { 1 ≤ level × level ≤ 4 }
    ensures blocks { result ≡ true → run_blocks shape.now 2 ≡ 1 }
    ensures few { result ≡ true → 2 ≤ cap shape.now level * page_entries shape.now }
{
    let pages = 2u32.div_ceil(shape.entries());
    pages.div_ceil(shape.block_pages()) == 1 && 2 <= shape.cap(level) * shape.entries()
}

// Opens a run of two entries from this block, into one without entries.
fn open<A: Allocator, B: Nand>(
    board: &mut B,
    arena: &mut PinArena<A>,
    block: u16,
    run: &mut Run<A>,
    buf: &mut [u8],
) -> Result<(), Fault>
    // The board, a run without entries, its block, and room for a page.
    requires ready { IsReady (B.state board.old) run.old.shape }
    requires empty { run.old ≡ empty run.old.shape run.old.level }
    requires exists { block < run.old.shape.blocks }
    requires frames { arena.old.page_bytes ≡ run.old.shape.page_bytes }
    requires sized { length buf.old ≡ run.old.shape.page_bytes }

    // The run is as expected, and so are the others.
    ensures opened { OnOk result
        (IsOpened run.old.shape (B.state board.old).pages arena.new block run.new) }
    ensures others { OnOk result (RunsStand arena.old arena.new) }

    // What is unchanged of the sizes, and of the board.
    ensures frames { OnOk result (arena.new.page_bytes ≡ arena.old.page_bytes) }
    ensures board { OnOk result
        (StaysReady run.old.shape (B.state board.old) (B.state board.new)) }
    ensures sized { length buf.new ≡ length buf.old }
{
    run.known();
    if !may_stand(&run.shape(), run.level()) {
        return Err(Fault::Reading);
    }
    match load_run(board, arena, false, MOST_SPACES, 2, &[block], run, buf) {
        Ok(()) => Ok(()),
        Err(_) => Err(Fault::Reading),
    }
}

/// Opens the source from block 2 and the target from block 3.
pub fn open_both<A: Allocator, B: Nand>(
    board: &mut B,
    arena: &mut PinArena<A>,
    source: &mut Run<A>,
    target: &mut Run<A>,
    buf: &mut [u8],
) -> Result<(), Fault>
    // The board, both runs without entries, their blocks, and room for a page.
    requires ready { IsReady (B.state board.old) target.old.shape }
    requires empty { (source.old ≡ empty target.old.shape source.old.level)
        × (target.old ≡ empty target.old.shape target.old.level) }
    requires exist { 3 < target.old.shape.blocks }
    requires frames { arena.old.page_bytes ≡ target.old.shape.page_bytes }
    requires sized { length buf.old ≡ target.old.shape.page_bytes }

    // Both runs are as expected.
    ensures source { OnOk result
        (IsOpened target.old.shape (B.state board.new).pages arena.new 2 source.new) }
    ensures target { OnOk result
        (IsOpened target.old.shape (B.state board.new).pages arena.new 3 target.new) }

    // The board may be called, and what is unchanged of the sizes.
    ensures frames { OnOk result (arena.new.page_bytes ≡ target.old.shape.page_bytes) }
    ensures ready { OnOk result (IsReady (B.state board.new) target.new.shape) }
    ensures shape { OnOk result (target.new.shape ≡ target.old.shape) }
{
    match open(board, arena, 2, source, buf) {
        Ok(()) => open(board, arena, 3, target, buf),
        Err(fault) => Err(fault),
    }
}
