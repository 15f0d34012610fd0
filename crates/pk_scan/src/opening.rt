//! Opening in one call.
ghost use Rattle.std.specs.Prelude.{◌≡◌, ◌*◌, ◌+◌, ◌≤◌, [], length, IfOk, IfErr, OnOk};
ghost use Rattle.pk_base.specs.Page.{page_at};
ghost use Rattle.pk_base.specs.Shape.{root_pages};
ghost use Rattle.pk_model.specs.RootLimits.{root_limits};
ghost use Rattle.pk_model.specs.Found.{Found as FoundLists};
ghost use Rattle.pk_model.specs.Values.{values_of};
ghost use Rattle.pk_nand.specs.Calls.{IsReady};
ghost use Rattle.pk_nand.specs.Counts.{after_reads};
ghost use Rattle.pk_rootfmt.specs.Root.{named};
ghost use Rattle.pk_law_steps.specs.Under.{places};
ghost use Rattle.pk_scan.specs.Adopts.{RootOwned};
ghost use Rattle.pk_scan.specs.Opened.{FoundOnFlash};
ghost use Rattle.pk_nand.specs.Effects.{OnlyReading};
ghost use Rattle.pk_scan.specs.Opening.{NotOpened};
ghost use Rattle.pk_scan.specs.OpeningParts.{PartNotOpened};
ghost use Rattle.pk_scan.specs.Reads.{list_reads, opening_reads};
ghost use Rattle.pk_scan.specs.Board.{StaysReady};
ghost use Rattle.pk_scan.specs.Memory.{AwaitsLists, AwaitsValues, FindsLists, FindsValues, HoldsLists};

use crate::accept::Named;
use crate::adopt::{adopt_blocks, adopt_values};
use crate::contents::{Found, Memory};
use crate::errors::OpenError;
use crate::lists::{find_root, read_lists};
use crate::visible::{Lists, read_values};
use pk_base::Shape;
use pk_nand::Nand;
use pk_region::Region;

// Finds the newest root, and reads the lists of entries that are found under it.
fn fill_lists<B: Nand, A: Region>(
    alloc: A,
    board: &mut B,
    memory: &mut Memory<A>,
) -> Result<(), OpenError>
    requires ready { IsReady (B.state board.old) memory.old.found.root.shape }
    requires awaits { AwaitsLists memory.old.found }
    requires room { length memory.old.page.items ≡ memory.old.found.root.shape.page_bytes }

    // The root and the lists, and that nothing else changes.
    ensures finds { OnOk result ((lists : FoundLists)
        × FindsLists (B.state board.old).pages memory.old.found memory.new.found lists) }
    ensures kept { memory.new ≡ record memory.old {
      page = memory.new.page;
      found = record memory.old.found {
        root = memory.new.found.root;
        root_page = memory.new.found.root_page;
        active = memory.new.found.active;
        frozen = memory.new.found.frozen;
        levels = memory.new.found.levels;
        arena = memory.new.found.arena;
        epoch = memory.new.found.epoch;
      };
    } }
    ensures shape { memory.new.found.root.shape ≡ memory.old.found.root.shape }
    ensures room { length memory.new.page.items ≡ memory.old.found.root.shape.page_bytes }
    ensures reads { OnOk result (B.state board.new
        ≡ after_reads (root_pages memory.old.found.root.shape
        + list_reads memory.old.found.root.shape (page_at (B.state board.old).pages)
        memory.new.found.root.root) (B.state board.old)) }

    // Or the reading refuses one, a read failed, or memory is wanting.
    ensures err { IfErr result (λ e.
        NotOpened memory.old.found.root.shape (B.state board.old) (B.state board.new) e) }
    ensures board { StaysReady memory.old.found.root.shape (B.state board.old) (B.state board.new) }
{
    match find_root(board, &mut memory.found.root, &mut memory.page) {
        Ok(page) => {
            memory.found.root_page = page;
            match read_lists(alloc, board, &mut memory.found, &mut memory.page) {
                Ok(()) => {
                    // so that its entries are known to have room
                    let _ = memory.found.active.len();
                    Ok(())
                }
                Err(error) => Err(error),
            }
        }
        Err(error) => Err(error),
    }
}

// Gives the blocks that the root names their owners, reads the values of all keys that exist under
// it, takes their pages, and counts what each namespace uses.
fn fill_values<B: Nand, A: Region>(board: &mut B, memory: &mut Memory<A>) -> Result<(), OpenError>
    requires ready { IsReady (B.state board.old) memory.old.found.root.shape }
    requires awaits { AwaitsValues memory.old }
    requires held { (lists : FoundLists)
        × HoldsLists (B.state board.old).pages memory.old.found lists }

    // The values and the owners of the root's blocks, and that nothing else changes.
    ensures finds { OnOk result ((lists : FoundLists)
        → HoldsLists (B.state board.old).pages memory.old.found lists
        → FindsValues (B.state board.old) (B.state board.new) memory.new.found lists) }
    ensures kept { memory.new ≡ record memory.old {
      walk = memory.new.walk;
      page = memory.new.page;
      found = record memory.old.found {
        live = memory.new.found.live;
        pool = memory.new.found.pool;
        spaces = memory.new.found.spaces;
      };
    } }
    ensures owned { RootOwned
        memory.old.found.root.shape memory.old.found.root.root memory.new.found.pool }

    // Or the reading refuses a value, or a read failed.
    ensures err { IfErr result (λ e. (lists : FoundLists)
        → HoldsLists (B.state board.old).pages memory.old.found lists
        → PartNotOpened
        (values_of memory.old.found.root.shape (page_at (B.state board.old).pages)
        (root_limits memory.old.found.root.shape memory.old.found.root.root)
        (named memory.old.found.root.root) [] (places lists []))
        (B.state board.old) (B.state board.new) e) }
    ensures board { StaysReady memory.old.found.root.shape (B.state board.old) (B.state board.new) }
{
    let shape = *memory.found.root.shape();
    shape.known();
    // first of all: no value may be in a block that has its owner
    adopt_blocks(&mut memory.found.pool, &memory.found.root);
    let named = Named {
        root: &memory.found.root,
        pool: &memory.found.pool,
    };
    let lists = Lists {
        arena: &memory.found.arena,
        levels: &memory.found.levels,
        active: &memory.found.active,
        frozen: &memory.found.frozen,
    };
    match read_values(
        board,
        &shape,
        &named,
        &mut memory.walk,
        &lists,
        &mut memory.found.live,
        &mut memory.found.spaces,
        &mut memory.page,
    ) {
        Ok(_) => Ok(()),
        Err(error) => Err(error),
    }
}

/// Opens the flash of a board of this shape, with this many frames for the pages of runs: reads all
/// that is on it, and gives each block its owner. Nothing is written. The memory of what is found is
/// taken before the first read, except that of a run, which is taken when the run is read.
///
/// `NotFormatted` exactly if the flash has no root, `Damaged` exactly if it has one and holds no
/// map, with the page at which its reading fails; `Fault` if a read failed; `Memory` if the
/// allocator has none. Whatever is returned, nothing but reads was done, of which one failed
/// exactly at `Fault`.
pub fn scan<B: Nand, A: Region>(
    alloc: A,
    board: &mut B,
    shape: Shape,
    frames: u32,
) -> Result<Found<A>, OpenError>
    requires ready { IsReady (B.state board.old) shape }
    requires frames { frames ≤ 16384 }
    ensures opened { IfOk result (λ f. FoundOnFlash shape (B.state board.old).pages frames f) }
    ensures reads { OnOk result (B.state board.new
        ≡ after_reads (opening_reads shape (B.state board.old).pages frames) (B.state board.old)) }
    ensures err { IfErr result (λ e. NotOpened shape (B.state board.old) (B.state board.new) e) }
    ensures rest { OnlyReading (B.state board.old) (B.state board.new) }
{
    shape.known();
    match Memory::new(alloc, shape, frames) {
        Ok(mut memory) => match fill_lists(alloc, board, &mut memory) {
            Ok(()) => match fill_values(board, &mut memory) {
                Ok(()) => {
                    let mut found = memory.found;
                    adopt_values(&mut found.pool, &found.live);
                    found.pool.known();
                    Ok(found)
                }
                Err(error) => Err(error),
            },
            Err(error) => Err(error),
        },
        Err(_) => Err(OpenError::Memory),
    }
}
