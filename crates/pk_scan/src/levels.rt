//! The four runs, each read into a run of its level.
ghost use Rattle.std.specs.Prelude.{◌≡◌, length, OnOk, IfErr};
ghost use Rattle.pk_base.specs.Page.{page_at};
ghost use Rattle.pk_model.specs.Found.{runs_from};
ghost use Rattle.pk_model.specs.RootLimits.{root_spaces};
ghost use Rattle.pk_nand.specs.Calls.{IsReady};
ghost use Rattle.pk_nand.specs.Counts.{after_reads};
ghost use Rattle.pk_scan.specs.Board.{StaysReady};
ghost use Rattle.pk_scan.specs.Reads.{pages_of_runs};
ghost use Rattle.pk_scan.specs.OpeningParts.{PartNotOpened, MayLoadLevel, MayLoadRuns, LoadsLevel, LoadsRuns, level_of, level_reads};

use crate::errors::OpenError;
use crate::namespaces::spaces_under;
use crate::runs::load_run;
use pk_level::Levels;
use pk_nand::Nand;
use pk_pin::PinArena;
use pk_region::Region;
use pk_rootfmt::Root;
use pk_run::Run;

// Reads the run of a level, which replaces the one that is there.
fn load_level<B: Nand, A: Region>(
    alloc: A,
    board: &mut B,
    root: &Root<A>,
    level: u8,
    arena: &mut PinArena<A>,
    levels: &mut Levels<A>,
    buf: &mut [u8],
) -> Result<(), OpenError>
    requires ready { IsReady (B.state board.old) root.now.shape }
    requires may { MayLoadLevel root.now level arena.old levels.old }
    requires room { length buf.old ≡ root.now.shape.page_bytes }

    // The run is in its level, after this many reads.
    ensures loaded { OnOk result (LoadsLevel root.now.shape root.now.root level
        (B.state board.old).pages arena.old arena.new levels.old levels.new) }
    ensures reads { OnOk result (B.state board.new
        ≡ after_reads (level_reads root.now level) (B.state board.old)) }

    // Or the reading refuses it, a read failed, or memory is wanting.
    ensures err { IfErr result (λ e. PartNotOpened
        (level_of root.now (page_at (B.state board.old).pages) level)
        (B.state board.old) (B.state board.new) e) }

    // Either way nothing but reads was done.
    ensures board { StaysReady root.now.shape (B.state board.old) (B.state board.new) }
    ensures buffer { length buf.new ≡ length buf.old }
{
    let shape = *root.shape();
    shape.known();
    let pins = level <= levels.pinned();
    match Run::new(alloc, shape, level) {
        Ok(mut run) => {
            let count = root.entries(level);
            let blocks = root.blocks(level);
            let spaces = spaces_under(root);
            match load_run(board, arena, pins, spaces, count, blocks, &mut run, buf) {
                Ok(()) => {
                    run.known();
                    levels.install_run(level, run);
                    Ok(())
                }
                Err(error) => Err(OpenError::from(error)),
            }
        }
        Err(_) => Err(OpenError::Memory),
    }
}

/// Reads the four runs, each page once; each run replaces the one of its level. The arena has free
/// frames for all pages of the levels that are pinned. `Damaged` names the first page that is
/// wrong; `Fault` if a read failed; `Memory` if a run finds no memory. `buf` has the size of a page
/// and is overwritten.
pub fn load_runs<B: Nand, A: Region>(
    alloc: A,
    board: &mut B,
    root: &Root<A>,
    arena: &mut PinArena<A>,
    levels: &mut Levels<A>,
    buf: &mut [u8],
) -> Result<(), OpenError>
    requires ready { IsReady (B.state board.old) root.now.shape }
    requires may { MayLoadRuns root.now arena.old levels.old }
    requires room { length buf.old ≡ root.now.shape.page_bytes }

    // The runs are in their levels, after this many reads.
    ensures loaded { OnOk result (LoadsRuns root.now
        (B.state board.old).pages arena.old arena.new levels.old levels.new) }
    ensures reads { OnOk result (B.state board.new
        ≡ after_reads (pages_of_runs root.now.shape root.now.root.counts) (B.state board.old)) }

    // Or the reading refuses one, a read failed, or memory is wanting.
    ensures err { IfErr result (λ e. PartNotOpened
        (runs_from root.now.shape (root_spaces root.now.shape root.now.root)
        (page_at (B.state board.old).pages)
        1 root.now.root.counts root.now.root.runs)
        (B.state board.old) (B.state board.new) e) }

    // Either way nothing but reads was done.
    ensures board { StaysReady root.now.shape (B.state board.old) (B.state board.new) }
    ensures buffer { length buf.new ≡ length buf.old }
{
    levels.known();
    for place in 0..4u8 {
        match load_level(alloc, board, root, place + 1, arena, levels, buf) {
            Ok(()) => {}
            Err(error) => return Err(error),
        }
    }
    Ok(())
}
