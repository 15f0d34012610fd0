//! A flash is made to hold the empty map.
ghost use Rattle.std.specs.Prelude.{◌≡◌, ◌<◌, ◌≤◌, ℕ, length, true, Some, OnOk, OnErr};
ghost use Rattle.std.specs.FinMap.{empty};
ghost use Rattle.pk_base.specs.Shape.{page_count};
ghost use Rattle.pk_nand.specs.Calls.{IsReady, ProgramsFailed, after_programs};
ghost use Rattle.pk_nand.specs.Operations.{IsErased};
ghost use Rattle.pk_nand.specs.Pairs.{programs_of_pair};
ghost use Rattle.pk_base.specs.Page.{page_at};
ghost use Rattle.pk_rootfmt.specs.Held.{first_with};
ghost use Rattle.pk_rootfmt.specs.Newest.{newest_root};
ghost use Rattle.pk_rootfmt.specs.Root.{root_bytes, are_limits, written_limits};
ghost use Rattle.pk_model.specs.Reading.{Holds};
ghost use Rattle.pk_model.specs.Spaces.{limits_at};

use pk_base::{MOST_PAGE_BYTES, Shape};
use pk_nand::{Nand, NandFault};
use pk_pair::write_pair;
use pk_rootfmt::first;
use pk_space::Limits;

/// The limits that the root of a drive that is made with these ones has: none if they are the one
/// limit of the shape.
fn limits_in_root<'a>(shape: &Shape, limits: &'a Limits) -> &'a [u32]
    requires { limits.now.shape ≡ shape.now }
    ensures value { result.now ≡ written_limits shape.now limits.now.each }
    ensures grammar { are_limits shape.now result.now ≡ true }
    ensures some { 1 ≤ length limits.now.each }
{
    let each = limits.each();
    if each.len() == 1 && each[0] == shape.limit() {
        return &[];
    }
    each
}

/// Writes the first root with these limits into pages 0 and 1; `page` has the bytes of a page, which
/// are lost.
fn write_first_root<B: Nand>(
    board: &mut B,
    shape: Shape,
    limits: &[u32],
    page: &mut [u8],
) -> Result<(), NandFault>
    requires limits { are_limits shape limits.now ≡ true }
    // The buffer, and a board that is erased.
    requires room { length page.old ≡ shape.page_bytes }
    requires ready { IsReady (B.state board.old) shape }
    requires erased { (q : ℕ) → q < page_count shape → IsErased (B.state board.old).pages q }

    // What it holds, by two programs.
    ensures holds { OnOk result (Holds shape (B.state board.new).pages empty) }
    ensures newest { OnOk result (newest_root shape (page_at (B.state board.new).pages)
        ≡ Some (0, first_with limits.now)) }
    ensures programs { OnOk result (B.state board.new ≡ after_programs (B.state board.old)
        (programs_of_pair 0 (root_bytes shape (first_with limits.now)))) }
    ensures err { OnErr result (ProgramsFailed (B.state board.old) (B.state board.new)
        (programs_of_pair 0 (root_bytes shape (first_with limits.now)))) }
    ensures ready { IsReady (B.state board.new) shape }
{
    shape.known();
    first(&shape, page, limits);
    match write_pair(board, 0, page) {
        Ok(()) => Ok(()),
        Err(_) => Err(NandFault),
    }
}

/// Makes a flash whose pages are all Erased one that holds the empty map in namespaces with these
/// limits, by programs of pages 0 and 1 with the same root. The root has no limits if they are the
/// one limit of the shape. Takes no memory.
///
/// `NandFault` if one of the two programs fails.
pub fn format<B: Nand>(board: &mut B, shape: Shape, limits: &Limits) -> Result<(), NandFault>
    // The flash, with all pages Erased, and the limits.
    requires ready { IsReady (B.state board.old) shape }
    requires erased { (q : ℕ) → q < page_count shape → IsErased (B.state board.old).pages q }
    requires limits { limits.now.shape ≡ shape }

    // The empty map, with these limits.
    ensures holds { OnOk result (Holds shape (B.state board.new).pages empty) }
    ensures limits { OnOk result (limits_at shape (B.state board.new).pages ≡ limits.now.each) }

    // The programs of the first root.
    ensures programs { OnOk result (B.state board.new ≡ after_programs (B.state board.old)
        (programs_of_pair 0 (root_bytes shape
        (first_with (written_limits shape limits.now.each))))) }
    ensures err { OnErr result (ProgramsFailed (B.state board.old) (B.state board.new)
        (programs_of_pair 0 (root_bytes shape
        (first_with (written_limits shape limits.now.each))))) }

    // What is unchanged.
    ensures ready { IsReady (B.state board.new) shape }
{
    shape.known();
    let bytes = shape.page_bytes() as usize;
    let mut page = [0u8; MOST_PAGE_BYTES as usize];
    let in_root = limits_in_root(&shape, limits);
    write_first_root(board, shape, in_root, &mut page[..bytes])
}
