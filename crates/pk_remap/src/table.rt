//! Spare tables and their pages.
ghost use Rattle.std.specs.Prelude.{◌≡◌, ◌+◌, ◌-◌, ◌*◌, ◌≤◌, ◌++◌, ◌∷◌, [], length, take, drop, true, Some, None, IfOk, IfErr, OnOk, OnErr};
ghost use Rattle.std.specs.List.{flat_map};
ghost use Rattle.pk_base.specs.Fields.{u16 as two_bytes};
ghost use Rattle.pk_base.specs.Shape.{IsShape};
ghost use Rattle.pk_base.specs.Page.{IsPage};
ghost use Rattle.pk_rootfmt.specs.Root.{u16s_at};
ghost use Rattle.pk_remap.specs.Table.{is_table, table_bytes, table_page, table_of};
ghost use Rattle.pk_remap.specs.Fault.{table_fault};

use crate::check::{MAGIC, checked};
use crate::layout::{LIST_FROM, MOST_SPARES};
use pk_base::{Shape, get_u16, get_u64, put_text, put_u16, put_u32, put_u64, put_zeros};

/// The bytes are no table page: the first byte of the first wrong field.
#[derive(Clone, Copy, Debug, PartialEq, Eq)]
pub struct BadTable {
    pub at: u32,
}

/// Reads `count` block numbers.
fn read_serves(page: &[u8], count: usize, into: &mut [u16])
    requires there { LIST_FROM + 2 * count ≤ length page.now }
    requires room { count ≤ length into.old }
    ensures front { take count into.new ≡ u16s_at count (drop LIST_FROM page.now) }
    ensures len { length into.new ≡ length into.old }
{
    for i in 0..count {
        into[i] = get_u16(page, LIST_FROM + 2 * i);
    }
}

/// Writes block numbers from this byte on.
fn put_serves(into: &mut [u8], at: usize, serves: &[u16])
    requires { at + 2 * length serves.now ≤ length into.old }
    ensures front { take (at + 2 * length serves.now) into.new
        ≡ take at into.old ++ flat_map two_bytes serves.now }
    ensures len { length into.new ≡ length into.old }
{
    for i in 0..serves.len() {
        put_u16(into, at + 2 * i, serves[i]);
    }
}

/// Reads a table page: the number of its table, and how many spares the table uses; `serves` gets the blocks that they serve. If it is
/// no table page, the answer is its first wrong byte, and `serves` is unchanged.
pub fn decode(
    shape: &Shape,
    spares: u16,
    page: &[u8],
    serves: &mut [u16],
) -> Result<(u64, usize), BadTable>
    // The page and the buffer.
    requires sized { length page.now ≡ shape.now.page_bytes }
    requires few { spares ≤ MOST_SPARES }
    requires room { MOST_SPARES ≤ length serves.old }

    // A table.
    ensures found { IfOk result (λ r. table_page shape.now spares page.now
        ≡ Some (table_of r.0 r.1 serves.new)) }
    ensures grammar { IfOk result (λ r. is_table shape.now spares (table_of r.0 r.1 serves.new)
        ≡ true) }
    ensures used { IfOk result (λ r. r.1 ≤ spares) }

    // None.
    ensures missing { OnErr result (table_page shape.now spares page.now ≡ None) }
    ensures exact { IfErr result (λ bad. table_fault shape.now spares page.now ≡ Some bad.at) }

    // What is unchanged.
    ensures kept { OnErr result (serves.new ≡ serves.old) }
    ensures len { length serves.new ≡ length serves.old }
{
    shape.known();
    match checked(shape, spares, page) {
        Ok(()) => {
            let number = get_u64(page, 8);
            let used = get_u16(page, 26) as usize;
            read_serves(page, used, serves);
            Ok((number, used))
        }
        Err(wrong) => Err(BadTable { at: wrong.at }),
    }
}

// Writes the fields of a table page.
fn put_table(shape: &Shape, spares: u16, number: u64, serves: &[u16], into: &mut [u8])
    requires few { spares ≤ MOST_SPARES }
    requires used { length serves.now ≤ spares }
    requires sized { length into.old ≡ shape.now.page_bytes }
    ensures bytes { into.new
        ≡ table_bytes shape.now spares (record { number = number; serves = serves.now }) }
    ensures shape { IsShape shape.now }
    ensures len { length into.new ≡ length into.old }
{
    shape.known();
    put_text(into, 0, &MAGIC);
    put_u64(into, 8, number);
    put_u32(into, 16, shape.page_bytes());
    put_u16(into, 20, shape.block_pages() as u16);
    put_u16(into, 22, shape.blocks() as u16);
    put_u16(into, 24, spares);
    put_u16(into, 26, serves.len() as u16);
    put_zeros(into, 28, LIST_FROM);
    put_serves(into, LIST_FROM, serves);
    let all = into.len();
    put_zeros(into, LIST_FROM + 2 * serves.len(), all);
}

/// Writes a table page; `into` has the length of a page.
pub fn encode(shape: &Shape, spares: u16, number: u64, serves: &[u16], into: &mut [u8])
    requires few { spares ≤ MOST_SPARES }
    requires used { length serves.now ≤ spares }
    requires sized { length into.old ≡ shape.now.page_bytes }
    ensures bytes { into.new
        ≡ table_bytes shape.now spares (record { number = number; serves = serves.now }) }
    ensures again { is_table shape.now spares (record { number = number; serves = serves.now })
        ≡ true → table_page shape.now spares into.new
        ≡ Some (record { number = number; serves = serves.now }) }
    ensures page { IsPage shape.now into.new }
{
    put_table(shape, spares, number, serves, into);
}
