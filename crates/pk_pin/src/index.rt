//! The table of homes of the page in a frame, by which an entry is found without halving.
ghost use Rattle.std.specs.Prelude.{◌≡◌, ◌+◌, ◌*◌, ◌<◌, ◌≤◌, ◌^◌, suc, length, slice_index_or, []};
ghost use Rattle.pk_base.specs.declared.sizes.TheConstants.{HEAD_BYTES, ENTRY_BYTES};
ghost use Rattle.pk_homes.specs.declared.table.TheConstants.{SHARED};
ghost use Rattle.pk_homes.specs.Homes.{HasHomes, IsAdded, home_of};
ghost use Rattle.pk_pin.specs.Frames.{chunks};
ghost use Rattle.pk_pin.specs.Index.{IsIndexed, IndexesFrame, hash_in};

use pk_base::{ENTRY_BYTES, HEAD_BYTES, cell_of, get_u16};
use pk_homes::{add, hash_cell, home};

/// A page that says that it has as many entries, or more, has no table. No page of a drive does.
const TOO_MANY_ENTRIES: usize = 32_767;

const MOST_HOMES: usize = 65_535;
/// The bytes of a page for each home: there are about four homes for an entry, so that few entries
/// share one.
const HOME_BYTES: usize = 8;

/// How many homes the table of a page of this many bytes has.
pub fn homes_for(page_bytes: usize) -> usize
    ensures some { 0 < result }
    ensures few { result < 2 ^ 16 }
{
    let homes = page_bytes / HOME_BYTES;
    if homes < MOST_HOMES {
        homes + 1
    } else {
        MOST_HOMES
    }
}

/// Notes an entry of a page at its home.
fn note(table: &mut [u16], page: &[u8], i: usize)
    requires some { 0 < length table.old }
    requires few { length table.old < 2 ^ 16 }
    requires within { HEAD_BYTES + ENTRY_BYTES + ENTRY_BYTES * i ≤ length page.now }
    requires small { suc i < SHARED }
    ensures { IsAdded table.old table.new (home_of (hash_in page.now i) (length table.old)) i }
{
    let at = home(hash_cell(cell_of(page, i)), table.len());
    add(table, at, i as u16);
}

/// Notes the first entries of a page, which are this many.
fn note_all(table: &mut [u16], page: &[u8], count: usize)
    requires some { 0 < length table.old }
    requires few { length table.old < 2 ^ 16 }
    requires within { HEAD_BYTES + ENTRY_BYTES * count ≤ length page.now }
    requires small { count < SHARED }
    ensures homes { HasHomes (hash_in page.now) count table.new }
    ensures size { length table.new ≡ length table.old }
{
    for i in 0..count {
        note(table, page, i);
    }
}

/// Makes the table of a page anew.
fn index(table: &mut [u16], page: &[u8])
    requires some { 0 < length table.old }
    requires few { length table.old < 2 ^ 16 }
    ensures indexed { IsIndexed page.now table.new }
    ensures size { length table.new ≡ length table.old }
{
    table.fill(0);
    if page.len() < HEAD_BYTES {
        return;
    }
    let count = get_u16(page, 10) as usize;
    if count >= TOO_MANY_ENTRIES {
        return;
    }
    if HEAD_BYTES + ENTRY_BYTES * count > page.len() {
        return;
    }
    note_all(table, page, count);
}

/// Makes table `i` of `n` tables anew, that of a page.
pub fn index_frame(tables: &mut [u16], homes: usize, n: usize, i: usize, page: &[u8])
    requires inside { i < n }
    requires whole { length tables.old ≡ n * homes }
    requires some { 0 < homes }
    requires few { homes < 2 ^ 16 }
    ensures tables { IndexesFrame homes n i page.now tables.old tables.new }
    ensures len { length tables.new ≡ length tables.old }
{
    let start = i * homes;
    index(&mut tables[start..start + homes], page);
}

/// Table `i` of `n` tables.
pub fn table_of(tables: &[u16], homes: usize, n: usize, i: usize) -> &[u16]
    requires inside { i < n }
    requires whole { length tables.now ≡ n * homes }
    ensures contents { result.now ≡ slice_index_or (chunks homes n tables.now) i [] }
    ensures len { length result.now ≡ homes }
{
    let start = i * homes;
    &tables[start..start + homes]
}
