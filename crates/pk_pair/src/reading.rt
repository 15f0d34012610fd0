//! Pairs that are read.
ghost use Rattle.std.specs.Prelude.{◌≡◌, ◌<◌, ◌+◌, ◌^◌, ◌⊎◌, List, ℕ, length, IfOk, IfErr, OnOk, OnErr, MatchBool};
ghost use Rattle.pk_base.specs.Page.{page_at, whole, page_of_pair};
ghost use Rattle.pk_nand.specs.BoardState.{shape_of};
ghost use Rattle.pk_nand.specs.Counts.{after_reads};
ghost use Rattle.pk_nand.specs.declared.types.PageRead.TheVariants.{Whole};
ghost use Rattle.pk_nand.specs.declared.types.Fault.TheVariants.{Reading};
ghost use Rattle.pk_pair.specs.Pairs.{reads_of_pair, whole_number, PairReadFailed};

use pk_nand::{Fault, Nand, PageRead};

// Whether the page that was read is Whole.
fn is_whole(found: PageRead) -> bool
    ensures { MatchBool result (found ≡ Whole) (found ≡ Whole → ⊥) }
{
    found == PageRead::Whole
}

/// Reads a pair from its first page on into the buffer, by one read if that page is Whole, and
/// otherwise by two. Returns the page whose bytes these are, None if neither is Whole. `Reading` if
/// a read fails.
pub fn read_pair<B: Nand>(board: &mut B, page: u32, buf: &mut [u8]) -> Result<Option<u32>, Fault>
    requires number { page + 1 < 2 ^ 32 }
    requires exists { page + 1 < length (B.state board.old).pages }
    requires room { length buf.old ≡ (shape_of (B.state board.old)).page_bytes }

    // The page and its bytes, and the number of reads.
    ensures found { IfOk result (λ found. found ≡ whole_number (page_of_pair page
        (page_at (B.state board.old).pages page) (page_at (B.state board.old).pages (page + 1)))) }
    ensures bytes { OnOk result ((bytes : List ℕ) → (page_of_pair page
        (page_at (B.state board.old).pages page)
        (page_at (B.state board.old).pages (page + 1))).1 ≡ whole bytes → buf.new ≡ bytes) }
    ensures ok { OnOk result (B.state board.new
        ≡ after_reads (reads_of_pair (page_at (B.state board.old).pages page))
        (B.state board.old)) }

    // Or a read failed.
    ensures reading { IfErr result (λ e. e ≡ Reading) }
    ensures err { OnErr result (PairReadFailed (B.state board.old) (B.state board.new) page) }

    // Nothing but reads was done.
    ensures flash { (B.state board.new).pages ≡ (B.state board.old).pages }
    ensures buffer { length buf.new ≡ length buf.old }
{
    match board.read(page, buf) {
        Ok(found) => {
            if is_whole(found) {
                return Ok(Some(page));
            }
        }
        Err(_) => return Err(Fault::Reading),
    }
    match board.read(page + 1, buf) {
        Ok(found) => {
            if is_whole(found) {
                Ok(Some(page + 1))
            } else {
                Ok(None)
            }
        }
        Err(_) => Err(Fault::Reading),
    }
}
