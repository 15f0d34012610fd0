//! The first wrong field of a table page.
ghost use Rattle.std.specs.Prelude.{◌≡◌, ◌+◌, ◌*◌, ◌<◌, ◌≤◌, ◌^◌, ◌&&◌, nat_le, length, drop};
ghost use Rattle.pk_base.specs.FieldFaults.{Finds};
ghost use Rattle.pk_rootfmt.specs.Root.{u16s_at};
ghost use Rattle.pk_remap.specs.Table.{is_served as served};
ghost use Rattle.pk_remap.specs.Fault.{used as used_of, serves_fault, table_head_fault, serves_list_fault, table_fault};

use crate::layout::{FAILED, LIST_FROM, MOST_SPARES};
use pk_base::{Shape, Wrong, get_u16, get_u32, get_u64, passes, text, zeros};

pub(crate) const MAGIC: [u8; 8] = *b"PINKSPAR";

/// Whether this is a block of the outer flash, or the number that marks a failed spare.
fn is_served(shape: &Shape, block: u16) -> bool
    ensures { result ≡ served shape.now block }
{
    (block as u32) < shape.blocks() || block == FAILED
}

/// Whether a table with this number may use this many spares.
fn is_count(spares: u16, number: u64, used: u16) -> bool
    ensures { result ≡ (nat_le used spares && nat_le number (used + 1)) }
{
    used <= spares && number <= used as u64 + 1
}

/// Checks the `count` block numbers of the page.
fn check_serves(shape: &Shape, page: &[u8], count: usize) -> Result<(), Wrong>
    requires fits { LIST_FROM + 2 * count ≤ length page.now }
    requires small { length page.now < 2 ^ 31 }
    ensures { Finds result
        (serves_fault shape.now LIST_FROM (u16s_at count (drop LIST_FROM page.now))) }
{
    for i in 0..count {
        let at = LIST_FROM + 2 * i;
        if !is_served(shape, get_u16(page, at)) {
            return Err(Wrong { at: at as u32 });
        }
    }
    Ok(())
}

#[tactic(auto, unfolding(crate::specs::Fault::table_head_fault))]
fn check_head(shape: &Shape, spares: u16, page: &[u8]) -> Result<(), Wrong>
    requires { length page.now ≡ shape.now.page_bytes }
    ensures { Finds result (table_head_fault shape.now spares page.now) }
{
    shape.known();
    text(page, 0, &MAGIC)?;
    let number = get_u64(page, 8);
    passes(8, number >= 1)?;
    passes(16, get_u32(page, 16) == shape.page_bytes())?;
    passes(20, get_u16(page, 20) as u32 == shape.block_pages())?;
    passes(22, get_u16(page, 22) as u32 == shape.blocks())?;
    passes(24, get_u16(page, 24) == spares)?;
    passes(26, is_count(spares, number, get_u16(page, 26)))?;
    zeros(page, 28, LIST_FROM)
}

#[tactic(auto, unfolding(crate::specs::Fault::serves_list_fault))]
fn check_list(shape: &Shape, page: &[u8]) -> Result<(), Wrong>
    requires sized { length page.now ≡ shape.now.page_bytes }
    requires room { LIST_FROM + 2 * used_of page.now ≤ length page.now }
    ensures { Finds result (serves_list_fault shape.now page.now) }
{
    shape.known();
    let count = get_u16(page, 26) as usize;
    check_serves(shape, page, count)?;
    zeros(page, LIST_FROM + 2 * count, page.len())
}

/// Checks a page, to its first wrong field.
pub(crate) fn checked(shape: &Shape, spares: u16, page: &[u8]) -> Result<(), Wrong>
    requires sized { length page.now ≡ shape.now.page_bytes }
    requires few { spares ≤ MOST_SPARES }
    ensures { Finds result (table_fault shape.now spares page.now) }
{
    shape.known();
    check_head(shape, spares, page)?;
    check_list(shape, page)
}
