//! Values.
ghost use Rattle.std.specs.Prelude.{◌≡◌, ◌+◌, ◌-◌, ◌*◌, ◌%◌, ◌^◌, ◌<◌, ◌≤◌, ◌++◌, List, ℕ, length, min, take, drop, IfOk, IfErr, OnOk, OnErr};
ghost use Rattle.pk_base.specs.Shape as spec;
ghost use Rattle.pk_base.specs.Page.{page_at, whole};
ghost use Rattle.pk_nand.specs.Calls.{IsReady};
ghost use Rattle.pk_nand.specs.Operations.{InOrder, after_read, ReadFailed};
ghost use Rattle.pk_nand.specs.Crash.{Reached, Went, SameOutside};
ghost use Rattle.pk_nand.specs.declared.types.Fault.TheVariants.{Reading, Stopped};
ghost use Rattle.pk_segfmt.specs.Stored.{IsStored};
ghost use Rattle.pk_nand.specs.Counts.{after_reads};
ghost use Rattle.pk_seg.specs.Counts.{ReadsFailed};
ghost use Rattle.pk_seg.specs.Stored.{IsFront, BringsPiece, written, WriteFailed};

use crate::pages::write_page;
use pk_base::{HEAD_BYTES, Key, MOST_PAGE_BYTES, Shape};
use pk_nand::{Fault, Nand};
use pk_segfmt::page as value_page;

/// Programs the pages of a value, the next Erased ones of a block, from an even one on. `Stopped`
/// if a program fails. Wherever it is cut, no other page differs. `buf` has the size of a page and
/// is overwritten.
pub fn write_value<B: Nand>(
    board: &mut B,
    shape: &Shape,
    page: u32,
    key: &Key,
    value: &[u8],
    buf: &mut [u8],
) -> Result<(), Fault>
    requires ready { IsReady (B.state board.old) shape.now }
    requires short { length value.now ≤ spec.greatest shape.now }
    requires exist { page + spec.charge shape.now (length value.now) ≤ spec.page_count shape.now }
    requires block { page % shape.now.block_pages + spec.charge shape.now (length value.now)
        ≤ shape.now.block_pages }
    requires even { page % 2 ≡ 0 }
    requires order { InOrder shape.now (B.state board.old).pages page }
    requires room { length buf.old ≡ shape.now.page_bytes }

    // The value is there, and its pages were programmed in order.
    ensures stored { OnOk result (IsStored shape.now (page_at (B.state board.new).pages) key.now
        page value.now) }
    ensures ok { OnOk result (B.state board.new
        ≡ written shape.now key.now page value.now (spec.charge shape.now (length value.now))
        (B.state board.old)) }
    ensures order { OnOk result (page % shape.now.block_pages + spec.charge shape.now
        (length value.now) < shape.now.block_pages
        → InOrder shape.now (B.state board.new).pages
        (page + spec.charge shape.now (length value.now))) }
    ensures cuts { OnOk result (Reached (B.state board.old) (B.state board.new) (λ flash _.
        SameOutside page (spec.charge shape.now (length value.now)) (B.state board.old).pages
        flash)) }

    // Or one of the programs failed.
    ensures stopped { IfErr result (λ e. e ≡ Stopped) }
    ensures err { OnErr result (WriteFailed shape.now key.now page value.now (B.state board.old)
        (B.state board.new)) }
    ensures cuts_err { OnErr result (Went (B.state board.old) (B.state board.new) (λ flash _.
        SameOutside page (spec.charge shape.now (length value.now)) (B.state board.old).pages
        flash)) }

    // Either way the board and the buffer may be used again.
    ensures ready { IsReady (B.state board.new) shape.now }
    ensures buffer { length buf.new ≡ length buf.old }
{
    shape.known();
    // so that the numbers of pages are known to fit
    let _ = shape.page_count();
    let _ = shape.greatest();
    for i in 0..shape.charge(value.len() as u32) {
        value_page(shape, key, value, i, buf);
        match write_page(board, page + i, buf) {
            Ok(()) => {}
            Err(fault) => return Err(fault),
        }
    }
    Ok(())
}

// Copies page i of a value, after the bytes of its head, to its place in the value's prefix.
fn copy_page(into: &mut [u8], i: u32, page: &[u8])
    requires within { i * length page.now - HEAD_BYTES ≤ length into.old }
    requires head { HEAD_BYTES ≤ length page.now }
    requires small { length page.now ≤ MOST_PAGE_BYTES }
    ensures front { take (min (length into.old) ((i + 1) * length page.now - HEAD_BYTES)) into.new
        ≡ take (i * length page.now - HEAD_BYTES) into.old
        ++ take (length into.old - (i * length page.now - HEAD_BYTES))
        (drop (HEAD_BYTES - i * length page.now) page.now) }
    ensures len { length into.new ≡ length into.old }
{
    let done = (i as usize * page.len()).saturating_sub(HEAD_BYTES);
    let part = if i == 0 { &page[HEAD_BYTES..] } else { page };
    let count = part.len().min(into.len() - done);
    into[done..done + count].copy_from_slice(&part[..count]);
}

// Reads page i of a value to its place in the value's prefix: directly if all of it belongs there,
// otherwise by way of `buf`.
fn read_part<B: Nand>(
    board: &mut B,
    shape: &Shape,
    page: u32,
    i: u32,
    into: &mut [u8],
    buf: &mut [u8],
) -> Result<(), Fault>
    requires ready { IsReady (B.state board.old) shape.now }
    requires number { page + i < 2 ^ 32 }
    requires exists { page + i < length (B.state board.old).pages }
    requires within { i * shape.now.page_bytes - HEAD_BYTES ≤ length into.old }
    requires room { length buf.old ≡ shape.now.page_bytes }

    // The piece that the page brings, by one read.
    ensures piece { OnOk result ((bytes : List ℕ)
        → page_at (B.state board.old).pages (page + i) ≡ whole bytes
        → BringsPiece shape.now i bytes into.old into.new) }
    ensures ok { OnOk result (B.state board.new ≡ after_read (B.state board.old)) }

    // Or it failed.
    ensures reading { IfErr result (λ e. e ≡ Reading) }
    ensures err { OnErr result (ReadFailed (B.state board.old) (B.state board.new) (page + i)) }
{
    shape.known();
    let size = buf.len();
    let at = (i as usize * size).saturating_sub(HEAD_BYTES);
    if i > 0 && at + size <= into.len() {
        match board.read(page + i, &mut into[at..at + size]) {
            Ok(_) => Ok(()),
            Err(_) => Err(Fault::Reading),
        }
    } else {
        match board.read(page + i, buf) {
            Ok(_) => {
                copy_page(into, i, buf);
                Ok(())
            }
            Err(_) => Err(Fault::Reading),
        }
    }
}

/// Fills `into` with the prefix of the value from this page on, by as many reads as it has pages.
/// `Reading` if one fails. `buf` has the size of a page and is overwritten.
pub fn read_value<B: Nand>(
    board: &mut B,
    shape: &Shape,
    page: u32,
    into: &mut [u8],
    buf: &mut [u8],
) -> Result<(), Fault>
    requires ready { IsReady (B.state board.old) shape.now }
    requires value { (key : List ℕ) × (value : List ℕ)
        × IsFront shape.now (B.state board.old).pages page (length into.old) key value }
    requires room { length buf.old ≡ shape.now.page_bytes }

    // The prefix, and the number of reads.
    ensures front { OnOk result ((key value : List ℕ)
        → IsFront shape.now (B.state board.old).pages page (length into.old) key value
        → into.new ≡ take (length into.old) value) }
    ensures ok { OnOk result (B.state board.new
        ≡ after_reads (spec.fetched shape.now (length into.old)) (B.state board.old)) }

    // Or one of them failed.
    ensures reading { IfErr result (λ e. e ≡ Reading) }
    ensures err { OnErr result (ReadsFailed (B.state board.old) (B.state board.new) page
        (spec.fetched shape.now (length into.old))) }

    // Either way the board and the buffers may be used again.
    ensures ready { IsReady (B.state board.new) shape.now }
    ensures len { length into.new ≡ length into.old }
    ensures buffer { length buf.new ≡ length buf.old }
{
    shape.known();
    let _ = shape.greatest();
    let _ = shape.page_count();
    for i in 0..shape.fetched(into.len() as u32) {
        match read_part(board, shape, page, i, into, buf) {
            Ok(()) => {}
            Err(fault) => return Err(fault),
        }
    }
    Ok(())
}
