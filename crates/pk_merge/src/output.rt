//! The output's blocks and pages.
ghost use Rattle.std.specs.Prelude.{◌≡◌, ◌*◌, ◌==◌, length, IfErr, OnOk, OnErr};
ghost use Rattle.pk_nand.specs.Calls.{IsReady};
ghost use Rattle.pk_nand.specs.declared.types.Fault.TheVariants.{Stopped};
ghost use Rattle.pk_pool.specs.Blocks.{PoolOnFlash};
ghost use Rattle.pk_pool.specs.Taking.{FailsToErase};
ghost use Rattle.pk_merge.specs.Outputs.{MayTakeBlock, TakesBlock, MayProgram, ProgramsPage, FailsToProgram};

use crate::gathered::Gathered;
use pk_meta::entry;
use pk_nand::{Fault, Nand};
use pk_pin::PinArena;
use pk_pool::{Owner, Pool};
use pk_run::Run;
use pk_seg::write_page;
use std::alloc::Allocator;

/// Whether each page of the run's blocks is used.
pub fn wants_block<A: Allocator>(out: &Run<A>) -> bool
    ensures { result ≡ (length out.now.firsts
        == length out.now.blocks * out.now.shape.block_pages) }
{
    out.known();
    out.pages() == out.blocks().len() as u32 * out.shape().block_pages()
}

/// Takes a block for the next page, by at most one erase. `Stopped` if it fails, and all is as
/// before.
pub fn take_block<B: Nand, A: Allocator>(
    out: &mut Run<A>,
    board: &mut B,
    pool: &mut Pool<A>,
) -> Result<(), Fault>
    requires ready { IsReady (B.state board.old) pool.old.shape }
    requires may { MayTakeBlock pool.old out.old (B.state board.old).pages }

    // A block more.
    ensures taken { OnOk result (TakesBlock pool.old out.old (B.state board.old) pool.new out.new
        (B.state board.new)) }

    // Or its erase failed, and all is as before.
    ensures stopped { IfErr result (λ e. e ≡ Stopped) }
    ensures failed { OnErr result
        (FailsToErase pool.old (B.state board.old) (B.state board.new)) }
    ensures kept { OnErr result ((out.new ≡ out.old) × (pool.new ≡ pool.old)) }

    // Either way board and pool fit each other.
    ensures ready { IsReady (B.state board.new) pool.new.shape }
    ensures shape { pool.new.shape ≡ pool.old.shape }
    ensures fits { PoolOnFlash pool.new (B.state board.new).pages }
{
    pool.known();
    match pool.take(board, Owner::Meta) {
        Ok(block) => {
            out.push_block(block as u16);
            Ok(())
        }
        Err(fault) => Err(fault),
    }
}

/// Programs the next page with these entries, and keeps it in a frame if one is needed. `Stopped`
/// if the program fails, and all is as before.
pub fn program_page<B: Nand, A: Allocator>(
    out: &mut Run<A>,
    gathered: &mut Gathered<A>,
    pins: bool,
    board: &mut B,
    arena: &mut PinArena<A>,
) -> Result<(), Fault>
    requires ready { IsReady (B.state board.old) out.old.shape }
    requires may { MayProgram pins out.old gathered.old.entries (B.state board.old).pages
        arena.old }
    requires shape { gathered.old.shape ≡ out.old.shape }

    // The page is there.
    ensures programmed { OnOk result (ProgramsPage pins out.old gathered.old.entries
        (B.state board.old) arena.old out.new (B.state board.new) arena.new) }

    // Or its program failed, and all is as before.
    ensures stopped { IfErr result (λ e. e ≡ Stopped) }
    ensures failed { OnErr result (FailsToProgram out.old gathered.old.entries
        (B.state board.old) (B.state board.new)) }
    ensures kept { OnErr result ((out.new ≡ out.old) × (arena.new ≡ arena.old)) }

    // Either way the board may be called as before.
    ensures ready { IsReady (B.state board.new) out.old.shape }
    ensures gathered { (gathered.new.entries ≡ gathered.old.entries)
        × (gathered.new.shape ≡ gathered.old.shape) }
{
    out.known();
    let index = out.pages();
    gathered.complete(out.level(), index);
    match write_page(board, out.page(index), gathered.bytes()) {
        Ok(()) => {
            let lease = arena.keep(pins, gathered.bytes());
            let first = entry(&out.shape(), gathered.bytes(), 0);
            out.push_page(first.key().copy(), lease, gathered.len());
            Ok(())
        }
        Err(fault) => Err(fault),
    }
}
