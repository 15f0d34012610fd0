//! The newest root of a flash.
ghost use Rattle.std.specs.Prelude.{◌≡◌, ◌<◌, length, true, None, Some, OnOk, OnErr, IfOk, IfErr, IfSome, MatchOption};
ghost use Rattle.pk_base.specs.Page.{page_at};
ghost use Rattle.pk_base.specs.Shape.{root_pages};
ghost use Rattle.pk_nand.specs.Calls.{IsReady};
ghost use Rattle.pk_nand.specs.Counts.{after_reads};
ghost use Rattle.pk_nand.specs.declared.types.Fault.TheVariants.{Reading};
ghost use Rattle.pk_rootfmt.specs.Root.{is_root, root_page};
ghost use Rattle.pk_rootfmt.specs.Newest.{newest_root};
ghost use Rattle.pk_seg.specs.Counts.{ReadsFailed};
ghost use Rattle.pk_root.specs.Scanned.{at_page, found_at, newer as newer_of, is_older as older_of, root_in};

use pk_base::get_u64;
use pk_nand::{Fault, Nand, PageRead};
use pk_rootfmt::Root;
use std::alloc::Allocator;

// Whether a root with this number is no newer than the one that was found in a page before.
fn is_older(best: Option<u32>, number: u64, other: u64) -> bool
    ensures { result ≡ older_of best number other }
{
    match best {
        None => false,
        Some(_) => other <= number,
    }
}

// Takes the root of these bytes if it is newer than the one that was found in a page before, and
// returns the page of the newer one.
fn newer<A: Allocator>(
    best: Option<u32>,
    page: u32,
    bytes: &[u8],
    into: &mut Root<A>,
) -> Option<u32>
    requires { length bytes.now ≡ into.old.shape.page_bytes }
    ensures newer { found_at result into.new.root
        ≡ newer_of (found_at best into.old.root)
        (at_page page (root_page into.old.shape bytes.now)) }
    ensures kept { result ≡ None → (best ≡ None) × (into.new ≡ into.old) }
    ensures shape { into.new.shape ≡ into.old.shape }
{
    into.shape().known();
    if is_older(best, into.number(), get_u64(bytes, 24)) {
        return best;
    }
    match into.decode(bytes) {
        Ok(()) => Some(page),
        Err(_) => best,
    }
}

// The same for a page that was read, which may be no whole one.
fn newer_read<A: Allocator>(
    best: Option<u32>,
    page: u32,
    found: PageRead,
    bytes: &[u8],
    into: &mut Root<A>,
) -> Option<u32>
    requires { length bytes.now ≡ into.old.shape.page_bytes }
    ensures newer { found_at result into.new.root
        ≡ newer_of (found_at best into.old.root)
        (at_page page (root_in into.old.shape found bytes.now)) }
    ensures kept { result ≡ None → (best ≡ None) × (into.new ≡ into.old) }
    ensures shape { into.new.shape ≡ into.old.shape }
{
    match found {
        PageRead::Whole => newer(best, page, bytes, into),
        PageRead::Erased => best,
        PageRead::Torn => best,
    }
}

/// The page of the newest root, which is taken into `into`; None exactly if there is none, `into`
/// unchanged. Reads every page of the root blocks, in order. `Reading` if a read fails. `buf` has
/// the size of a page and is overwritten.
pub fn newest<B: Nand, A: Allocator>(
    board: &mut B,
    into: &mut Root<A>,
    buf: &mut [u8],
) -> Result<Option<u32>, Fault>
    requires ready { IsReady (B.state board.old) into.old.shape }
    requires room { length buf.old ≡ into.old.shape.page_bytes }

    // The newest root, and the number of reads.
    ensures found { IfOk result (λ r. MatchOption r
        (newest_root into.old.shape (page_at (B.state board.old).pages) ≡ None) (λ page.
        newest_root into.old.shape (page_at (B.state board.old).pages)
        ≡ Some (page, into.new.root))) }
    ensures kept { IfOk result (λ r. r ≡ None → into.new ≡ into.old) }
    ensures place { IfOk result (λ r. IfSome r (λ page. page < root_pages into.old.shape)) }
    ensures grammar { IfOk result (λ r. IfSome r (λ page. is_root into.new.shape into.new.root
        ≡ true)) }
    ensures ok { OnOk result (B.state board.new
        ≡ after_reads (root_pages into.old.shape) (B.state board.old)) }

    // Or one of them failed.
    ensures reading { IfErr result (λ e. e ≡ Reading) }
    ensures err { OnErr result (ReadsFailed (B.state board.old) (B.state board.new) 0
        (root_pages into.old.shape)) }

    // Either way the board and the buffer may be used again.
    ensures shape { into.new.shape ≡ into.old.shape }
    ensures ready { IsReady (B.state board.new) into.new.shape }
    ensures buffer { length buf.new ≡ length buf.old }
{
    let pages = into.shape().root_pages();
    let mut best = None;
    for page in 0..pages {
        match board.read(page, buf) {
            Ok(found) => best = newer_read(best, page, found, buf, into),
            Err(_) => return Err(Fault::Reading),
        }
    }
    Ok(best)
}
