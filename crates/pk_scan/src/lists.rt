//! The newest root, and all lists of entries that are found under it.
ghost use Rattle.std.specs.Prelude.{◌≡◌, ◌<◌, length, true, Some, IfOk, IfErr, OnOk};
ghost use Rattle.pk_base.specs.Page.{page_at};
ghost use Rattle.pk_base.specs.Shape.{root_pages};
ghost use Rattle.pk_model.specs.Found.{Found as FoundLists, found_under};
ghost use Rattle.pk_nand.specs.Calls.{IsReady};
ghost use Rattle.pk_nand.specs.Counts.{after_reads};
ghost use Rattle.pk_rootfmt.specs.Newest.{newest_root};
ghost use Rattle.pk_rootfmt.specs.Root.{is_root};
ghost use Rattle.pk_scan.specs.Board.{StaysReady};
ghost use Rattle.pk_scan.specs.Memory.{AwaitsLists, LoadsLists};
ghost use Rattle.pk_scan.specs.Opening.{NotOpened};
ghost use Rattle.pk_scan.specs.OpeningParts.{PartNotOpened};
ghost use Rattle.pk_scan.specs.Reads.{list_reads};

use crate::contents::Found;
use crate::epochs::{read_newest, read_older};
use crate::errors::OpenError;
use crate::levels::load_runs;
use pk_nand::Nand;
use pk_region::Region;
use pk_root::newest;
use pk_rootfmt::Root;
use std::alloc::Allocator;

/// Takes the newest root of the flash, and returns its page. `NotFormatted` exactly if there is
/// none; `Fault` if a read failed. `buf` has the size of a page and is overwritten.
pub fn find_root<B: Nand, A: Allocator>(
    board: &mut B,
    root: &mut Root<A>,
    buf: &mut [u8],
) -> Result<u32, OpenError>
    requires ready { IsReady (B.state board.old) root.old.shape }
    requires room { length buf.old ≡ root.old.shape.page_bytes }

    // The newest root, after this many reads.
    ensures found { IfOk result (λ page.
        newest_root root.old.shape (page_at (B.state board.old).pages)
        ≡ Some (page, root.new.root)) }
    ensures place { IfOk result (λ page. page < root_pages root.old.shape) }
    ensures grammar { OnOk result (is_root root.old.shape root.new.root ≡ true) }
    ensures reads { OnOk result (B.state board.new
        ≡ after_reads (root_pages root.old.shape) (B.state board.old)) }

    // Or there is none, or a read failed.
    ensures err { IfErr result (λ e.
        NotOpened root.old.shape (B.state board.old) (B.state board.new) e) }

    // Either way nothing but reads was done.
    ensures shape { root.new.shape ≡ root.old.shape }
    ensures board { StaysReady root.old.shape (B.state board.old) (B.state board.new) }
    ensures buffer { length buf.new ≡ length buf.old }
{
    match newest(board, root, buf) {
        Ok(Some(page)) => Ok(page),
        Ok(None) => Err(OpenError::NotFormatted),
        Err(_) => Err(OpenError::Fault),
    }
}

/// Reads all lists of entries that are found under a root: the older epoch into the frozen buffer,
/// the newest one into the active one, and the four runs into the levels. Each page of them is read
/// once, of an epoch up to the first that is not Whole. The arena has free frames for all pages of
/// the levels that are pinned. `Damaged` names the first page that is wrong, in this order; `Fault`
/// if a read failed; `Memory` if a run finds no memory. `buf` has the size of a page and is
/// overwritten.
pub fn read_lists<B: Nand, A: Region>(
    alloc: A,
    board: &mut B,
    found: &mut Found<A>,
    buf: &mut [u8],
) -> Result<(), OpenError>
    requires ready { IsReady (B.state board.old) found.old.root.shape }
    requires grammar { is_root found.old.root.shape found.old.root.root ≡ true }
    requires awaits { AwaitsLists found.old }
    requires room { length buf.old ≡ found.old.root.shape.page_bytes }

    // The lists, and that nothing else changes.
    ensures loads { OnOk result ((lists : FoundLists)
        × LoadsLists (B.state board.old).pages found.old found.new lists) }
    ensures kept { found.new ≡ record found.old {
      active = found.new.active;
      frozen = found.new.frozen;
      levels = found.new.levels;
      arena = found.new.arena;
      epoch = found.new.epoch;
    } }
    ensures reads { OnOk result (B.state board.new ≡ after_reads
        (list_reads found.old.root.shape (page_at (B.state board.old).pages) found.old.root.root)
        (B.state board.old)) }

    // Or the reading refuses one, a read failed, or memory is wanting.
    ensures err { IfErr result (λ e. PartNotOpened
        (found_under found.old.root.shape (page_at (B.state board.old).pages) found.old.root.root)
        (B.state board.old) (B.state board.new) e) }

    // Either way nothing but reads was done.
    ensures board { StaysReady found.old.root.shape (B.state board.old) (B.state board.new) }
    ensures buffer { length buf.new ≡ length buf.old }
{
    match read_older(board, &found.root, &mut found.frozen, buf) {
        Ok(()) => match read_newest(board, &found.root, &mut found.active, buf) {
            Ok(epoch) => {
                found.epoch = epoch;
                match load_runs(
                    alloc,
                    board,
                    &found.root,
                    &mut found.arena,
                    &mut found.levels,
                    buf,
                ) {
                    Ok(()) => Ok(()),
                    Err(error) => Err(error),
                }
            }
            Err(error) => Err(OpenError::from(error)),
        },
        Err(error) => Err(OpenError::from(error)),
    }
}
