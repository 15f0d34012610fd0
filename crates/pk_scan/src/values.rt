//! Values, each read from its pages.
ghost use Rattle.std.specs.Prelude.{◌≡◌, ◌==◌, ◌<◌, ◌≤◌, ◌+◌, nat_eq, length, drop, true, IfErr, OnOk};
ghost use Rattle.std.specs.List.{list_all, starts_with};
ghost use Rattle.pk_base.specs.Shape as spec;
ghost use Rattle.pk_base.specs.EntryChecks.{IsPlace};
ghost use Rattle.pk_base.specs.Page.{page_at};
ghost use Rattle.pk_nand.specs.Calls.{IsReady};
ghost use Rattle.pk_nand.specs.Operations.{after_read};
ghost use Rattle.pk_nand.specs.Counts.{after_reads};
ghost use Rattle.pk_segfmt.specs.Value.{head_bytes};
ghost use Rattle.pk_scan.specs.Pages.{front_of, fits_page, left_at, is_right};
ghost use Rattle.pk_scan.specs.Checked.{HasValue, NotFound, PageRefused};
ghost use Rattle.pk_scan.specs.Board.{StaysReady};

use crate::errors::PageError;
use pk_base::{HEAD_BYTES, Key, Place, Shape, are_zeros, is_same};
use pk_nand::{Nand, PageRead};
use pk_segfmt::head;

// Whether the bytes of a page begin with the head of a value with this key and length.
fn begins_with_head(shape: &Shape, key: &Key, len: u32, bytes: &[u8]) -> bool
    requires short { len ≤ spec.greatest shape.now }
    requires sized { length bytes.now ≡ shape.now.page_bytes }
    ensures { result ≡ starts_with nat_eq bytes.now (head_bytes key.now len) }
{
    // so that the key is known to be one
    let _ = key.bytes();
    match head(shape, bytes) {
        Ok(found) => found.len == len && is_same(&found.key, key),
        Err(_) => false,
    }
}

// Whether only zeros follow the first `left` bytes.
fn ends_in_zeros(bytes: &[u8], left: usize) -> bool
    ensures { result ≡ list_all (λ b. b == 0) (drop left bytes.now) }
{
    if left < bytes.len() {
        are_zeros(&bytes[left..])
    } else {
        true
    }
}

// Whether the bytes of a page are those of page `i` of a value.
fn fits(shape: &Shape, key: &Key, len: u32, i: u32, bytes: &[u8]) -> bool
    requires short { len ≤ spec.greatest shape.now }
    requires within { i < spec.charge shape.now len }
    requires sized { length bytes.now ≡ shape.now.page_bytes }
    ensures { result
        ≡ fits_page (front_of (head_bytes key.now len) i) (left_at shape.now len i) bytes.now }
{
    shape.known();
    let left = (HEAD_BYTES + len as usize).saturating_sub(i as usize * bytes.len());
    if i == 0 {
        begins_with_head(shape, key, len, bytes) && ends_in_zeros(bytes, left)
    } else {
        ends_in_zeros(bytes, left)
    }
}

// Reads page `i` of a value.
fn check_page<B: Nand>(
    board: &mut B,
    shape: &Shape,
    key: &Key,
    place: Place,
    i: u32,
    buf: &mut [u8],
) -> Result<(), PageError>
    requires ready { IsReady (B.state board.old) shape.now }
    requires place { IsPlace shape.now place }
    requires within { i < spec.charge shape.now place.len }
    requires room { length buf.old ≡ shape.now.page_bytes }

    // The page is right, by one read.
    ensures right { OnOk result (is_right shape.now (page_at (B.state board.old).pages)
        key.now place i ≡ true) }
    ensures ok { OnOk result (B.state board.new ≡ after_read (B.state board.old)) }

    // Or it is not, or its read failed.
    ensures err { IfErr result (λ e. PageRefused shape.now
        (B.state board.old) (B.state board.new) key.now place i e) }
    ensures buffer { length buf.new ≡ length buf.old }
{
    // so that the numbers of pages are known to fit
    let _ = shape.page_count();
    match board.read(place.page + i, buf) {
        Ok(PageRead::Whole) => {
            if fits(shape, key, place.len, i, buf) {
                Ok(())
            } else {
                Err(PageError::Damaged {
                    page: place.page + i,
                })
            }
        }
        Ok(_) => Err(PageError::Damaged {
            page: place.page + i,
        }),
        Err(_) => Err(PageError::Fault),
    }
}

/// Checks that the pages of a value are Whole, begin with the head of this key and length, hold the
/// value, and have zeros after it. Reads them in order, up to the first that is wrong. `buf` has
/// the size of a page and is overwritten.
///
/// `Damaged` names the first page that is wrong. `Fault` if a read failed, after pages that are
/// right.
pub fn check_value<B: Nand>(
    board: &mut B,
    shape: &Shape,
    key: &Key,
    place: Place,
    buf: &mut [u8],
) -> Result<(), PageError>
    requires ready { IsReady (B.state board.old) shape.now }
    requires place { IsPlace shape.now place }
    requires room { length buf.old ≡ shape.now.page_bytes }

    // The value is there, by a read of each page.
    ensures value { OnOk result
        (HasValue shape.now (B.state board.old).pages key.now place) }
    ensures ok { OnOk result
        (B.state board.new ≡ after_reads (spec.charge shape.now place.len) (B.state board.old)) }

    // Or a page is wrong, or its read failed.
    ensures err { IfErr result (λ e. NotFound shape.now
        (B.state board.old) (B.state board.new) key.now place e) }

    // Either way nothing but reads was done.
    ensures board { StaysReady shape.now (B.state board.old) (B.state board.new) }
    ensures buffer { length buf.new ≡ length buf.old }
{
    shape.known();
    for i in 0..shape.charge(place.len) {
        match check_page(board, shape, key, place, i, buf) {
            Ok(()) => {}
            Err(error) => return Err(error),
        }
    }
    Ok(())
}
