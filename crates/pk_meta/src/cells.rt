//! Entries by their bytes, as a merge moves them.
ghost use Rattle.std.specs.Prelude.{◌≡◌, ◌+◌, ◌*◌, ◌<◌, ◌≤◌, ◌-◌, ◌++◌, ◌∷◌, [], List, ℕ, Some, length, slice_get, slice_index};
ghost use Rattle.pk_base.specs.Fields.{number_at, spelled, u16 as two_bytes, u32 as four_bytes, zeros as zeros_of};
ghost use Rattle.pk_base.specs.Entry.{Entry as EntrySpec, Place as PlaceSpec, key_of, put_entry, gone_entry};
ghost use Rattle.pk_base.specs.EntryBytes.{cell_at, entry_at, entry_bytes};
ghost use Rattle.pk_base.specs.Key.{IsKey, key_cmp};
ghost use Rattle.pk_base.specs.Seen.{entry as seen};
ghost use Rattle.pk_base.specs.Shape.{page_entries};
ghost use Rattle.pk_meta.specs.Cells.{IsCell, HasCells};
ghost use Rattle.pk_meta.specs.Page.{meta_bytes, meta_magic};
ghost use Rattle.pk_meta.specs.PageChecks.{IsMetaPage, Decodes};

use crate::MAGIC;
use pk_base::{
    ENTRY_BYTES, Entry, HEAD_BYTES, Key, Shape, cell_of, compare_cell, put_text, put_u8, put_u16,
    put_u32, put_zeros,
};
use std::cmp::Ordering;

/// The bytes of an entry of a page.
pub fn cell<'a>(shape: &Shape, page: &'a [u8], i: u32) -> &'a [u8]
    requires sized { length page.now ≡ shape.now.page_bytes }
    requires decodes { Decodes shape.now page.now }
    requires within { i < number_at 2 10 page.now }
    ensures value { result.now ≡ cell_at (HEAD_BYTES + ENTRY_BYTES * i) page.now }
    ensures entry { (level index : ℕ) (entries : List EntrySpec)
        → IsMetaPage shape.now page.now level index entries
        → slice_get entries i ≡ Some (entry_at result.now) }
    ensures cell { IsCell result.now }
{
    shape.known();
    cell_of(page, i as usize)
}

// Ghost: the bytes of an entry with these fields are read as it.
#[inline(always)]
fn put_is_read(key: &Key, page: u32, len: u32)
    ensures key { IsKey key.now }
    ensures read { (place : PlaceSpec) → place.page ≡ page → place.len ≡ len
        → entry_at (entry_bytes (put_entry key.now place)) ≡ put_entry key.now place }
{
    let _ = key.bytes();
}

// Ghost: the bytes of an entry of this deleted key are read as it.
#[inline(always)]
fn gone_is_read(key: &Key)
    ensures key { IsKey key.now }
    ensures read { entry_at (entry_bytes (gone_entry key.now)) ≡ gone_entry key.now }
{
    let _ = key.bytes();
}

// Ghost: the bytes of an entry are read as it.
#[inline(always)]
fn is_read(entry: &Entry)
    ensures key { IsKey (key_of (seen entry.now)) }
    ensures read { entry_at (entry_bytes (seen entry.now)) ≡ seen entry.now }
{
    match entry {
        Entry::Put { key, page, len } => put_is_read(key, *page, *len),
        Entry::Gone { key } => gone_is_read(key),
    }
}

/// The bytes of this entry.
pub fn written(entry: &Entry) -> [u8; ENTRY_BYTES]
    ensures entry { entry_at result ≡ seen entry.now }
    ensures cell { IsCell result }
{
    is_read(entry);
    let mut own = [0u8; ENTRY_BYTES];
    entry.write(&mut own);
    own
}

/// How the key of this entry compares with that of an entry of which these are the bytes.
pub fn compare_with_cell(key: &Key, cell: &[u8]) -> Ordering
    requires { IsCell cell.now }
    ensures { result ≡ key_cmp key.now (key_of (entry_at cell.now)) }
{
    compare_cell(cell, key).reverse()
}

/// How the keys of two entries compare, of which these are the bytes.
pub fn compare_cells(a: &[u8], b: &[u8]) -> Ordering
    requires left { IsCell a.now }
    requires right { IsCell b.now }
    ensures { result ≡ key_cmp (key_of (entry_at a.now)) (key_of (entry_at b.now)) }
{
    let size = b[0] as usize;
    let key = Key::of(b[2] + 1, &b[4..4 + size]);
    compare_cell(a, &key)
}

/// What precedes the entries of a page.
fn put_head(level: u8, index: u32, count: u16, into: &mut [u8])
    requires { length into.old ≡ HEAD_BYTES }
    ensures { into.new ≡ spelled (meta_magic ∷ (level ∷ []) ∷ zeros_of 1 ∷ two_bytes count
        ∷ four_bytes index ∷ zeros_of 16 ∷ []) }
{
    put_text(into, 0, &MAGIC);
    put_u8(into, 8, level);
    put_zeros(into, 9, 10);
    put_u16(into, 10, count);
    put_u32(into, 12, index);
    put_zeros(into, 16, HEAD_BYTES);
}

/// Makes the page that holds the entries whose bytes it has: writes what precedes and follows them.
pub fn complete(shape: &Shape, level: u8, index: u32, count: u32, into: &mut [u8])
    requires sized { length into.old ≡ shape.now.page_bytes }
    requires fits { count ≤ page_entries shape.now }
    ensures bytes { (entries : List EntrySpec) → length entries ≡ count → HasCells entries into.old
        → into.new ≡ meta_bytes shape.now level index entries }
    ensures len { length into.new ≡ length into.old }
{
    shape.known();
    put_head(level, index, count as u16, &mut into[0..HEAD_BYTES]);
    let all = into.len();
    put_zeros(into, HEAD_BYTES + ENTRY_BYTES * count as usize, all);
}
