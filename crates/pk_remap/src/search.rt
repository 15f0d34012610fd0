//! The newest table of a flash.
ghost use Rattle.std.specs.Prelude.{◌≡◌, ℕ, ◌*◌, ◌≤◌, length, Some, IfOk, OnOk, OnErr};
ghost use Rattle.pk_base.specs.Page.{page_at};
ghost use Rattle.pk_nand.specs.Calls.{IsReady};
ghost use Rattle.pk_nand.specs.Counts.{after_reads};
ghost use Rattle.pk_remap.specs.Counting.{SearchFailed};
ghost use Rattle.pk_remap.specs.MostCalls.{AtMostCalls};
ghost use Rattle.pk_remap.specs.Places.{inner_shape};
ghost use Rattle.pk_remap.specs.Table.{table_of, table_page};
ghost use Rattle.pk_remap.specs.Newest.{newest_table};
ghost use Rattle.pk_remap.specs.Searched.{table_found, UsesAtMost, newer_at, table_read};
ghost use Rattle.pk_remap.specs.declared.layout.TheConstants.{MOST_SPARES};

use crate::places::page_in;
use crate::table::decode;
use crate::top::Top;
use pk_base::Shape;
use pk_nand::{Nand, NandFault, PageRead};

/// Takes this table if it is newer than the one that was found before.
fn take(best: Option<Top>, table: Top, own: &[u16], serves: &mut [u16]) -> Option<Top>
    requires { length own.now ≡ length serves.old }
    ensures newer { table_found result serves.new
        ≡ newer_at (table_found best serves.old) table.page
        (Some (table_of table.number table.used own.now)) }
    ensures few { (most : ℕ) → UsesAtMost most best → table.used ≤ most → UsesAtMost most result }
    ensures len { length serves.new ≡ length serves.old }
{
    match best {
        Some(top) => {
            if top.number < table.number {
                serves.copy_from_slice(own);
                Some(table)
            } else {
                best
            }
        }
        None => {
            serves.copy_from_slice(own);
            Some(table)
        }
    }
}

/// The same for a page with bytes, which may be no table page.
fn take_page(
    shape: &Shape,
    spares: u16,
    best: Option<Top>,
    page: u32,
    bytes: &[u8],
    serves: &mut [u16],
) -> Option<Top>
    requires sized { length bytes.now ≡ shape.now.page_bytes }
    requires few { spares ≤ MOST_SPARES }
    requires room { length serves.old ≡ MOST_SPARES }
    ensures newer { table_found result serves.new ≡ newer_at (table_found best serves.old) page
        (table_page shape.now spares bytes.now) }
    ensures few { UsesAtMost spares best → UsesAtMost spares result }
    ensures len { length serves.new ≡ length serves.old }
{
    let mut own = [0u16; 64];
    match decode(shape, spares, bytes, &mut own) {
        Ok((number, used)) => {
            let table = Top { page, number, used };
            take(best, table, &own, serves)
        }
        Err(_) => best,
    }
}

fn take_read(
    shape: &Shape,
    spares: u16,
    best: Option<Top>,
    page: u32,
    found: PageRead,
    bytes: &[u8],
    serves: &mut [u16],
) -> Option<Top>
    requires sized { length bytes.now ≡ shape.now.page_bytes }
    requires few { spares ≤ MOST_SPARES }
    requires room { length serves.old ≡ MOST_SPARES }
    ensures newer { table_found result serves.new ≡ newer_at (table_found best serves.old) page
        (table_read shape.now spares found bytes.now) }
    ensures few { UsesAtMost spares best → UsesAtMost spares result }
    ensures len { length serves.new ≡ length serves.old }
{
    match found {
        PageRead::Whole => take_page(shape, spares, best, page, bytes, serves),
        PageRead::Erased => best,
        PageRead::Torn => best,
    }
}

/// Finds the newest table of a flash by a read of each page of the two table blocks; `serves` gets the blocks that its spares serve.
pub fn newest<N: Nand>(
    inner: &mut N,
    shape: &Shape,
    spares: u16,
    serves: &mut [u16],
    buf: &mut [u8],
) -> Result<Option<Top>, NandFault>
    // The inner flash and the buffers.
    requires ready { IsReady (N.state inner.old) (inner_shape shape.now spares) }
    requires few { spares ≤ MOST_SPARES }
    requires room { length serves.old ≡ MOST_SPARES }
    requires sized { length buf.old ≡ shape.now.page_bytes }

    // The newest table.
    ensures found { IfOk result
        (λ r. newest_table shape.now spares (page_at (N.state inner.old).pages)
        ≡ table_found r serves.new) }
    ensures few { IfOk result (λ r. UsesAtMost spares r) }

    // The calls of the inner flash.
    ensures ok { OnOk result (N.state inner.new
        ≡ after_reads (2 * shape.now.block_pages) (N.state inner.old)) }
    ensures err { OnErr result (SearchFailed (N.state inner.old) (N.state inner.new)) }
    ensures calls { AtMostCalls (2 * shape.now.block_pages) (N.state inner.old)
        (N.state inner.new) }

    // What is unchanged.
    ensures len { length serves.new ≡ length serves.old }
{
    shape.known();
    let first = page_in(shape, shape.blocks() + spares as u32, 0);
    let mut best = None;
    for i in 0..2 * shape.block_pages() {
        match inner.read(first + i, buf) {
            Ok(found) => {
                best = take_read(shape, spares, best, first + i, found, buf, serves);
            }
            Err(_) => return Err(NandFault),
        }
    }
    Ok(best)
}
