//! The entry of a key in a page, by halving.
ghost use Rattle.std.specs.Prelude.{◌≡◌, ◌<◌, ◌+◌, ◌*◌, List, ℕ, length, option_map};
ghost use Rattle.pk_base.specs.Entry.{Entry as EntrySpec};
ghost use Rattle.pk_base.specs.declared.sizes.TheConstants.{HEAD_BYTES, ENTRY_BYTES};
ghost use Rattle.pk_base.specs.EntryBytes.{cell_at, cell_key};
ghost use Rattle.pk_base.specs.Fields.{number_at};
ghost use Rattle.pk_base.specs.Key.{key_cmp};
ghost use Rattle.pk_base.specs.Seen.{entry as seen};
ghost use Rattle.pk_meta.specs.PageChecks.{IsMetaPage, Decodes, IsEntryOf, IsPlaceOf};

use crate::entry;
use pk_base::{Entry, Key, Shape, cell_of, compare_cell, get_u16};
use std::cmp::Ordering;

/// How the key of an entry compares with this one.
fn compare_at(shape: &Shape, page: &[u8], i: usize, key: &Key) -> Ordering
    requires sized { length page.now ≡ shape.now.page_bytes }
    requires decodes { Decodes shape.now page.now }
    requires within { i < number_at 2 10 page.now }
    ensures { result
        ≡ key_cmp (cell_key (cell_at (HEAD_BYTES + ENTRY_BYTES * i) page.now)) key.now }
{
    shape.known();
    let cell = cell_of(page, i);
    compare_cell(cell, key)
}

/// The place of a key, by halving.
fn place_of(shape: &Shape, page: &[u8], key: &Key) -> Option<u32>
    requires sized { length page.now ≡ shape.now.page_bytes }
    requires decodes { Decodes shape.now page.now }
    ensures { IsPlaceOf shape.now page.now key.now result }
{
    shape.known();
    let mut low = 0;
    let mut high = get_u16(page, 10) as usize;
    while low < high {
        let middle = low + (high - low) / 2;
        match compare_at(shape, page, middle, key) {
            Ordering::Less => low = middle + 1,
            Ordering::Greater => high = middle,
            Ordering::Equal => return Some(middle as u32),
        }
    }
    None
}

/// The entry of a key; None exactly if the page has none of it.
pub fn find(shape: &Shape, page: &[u8], key: &Key) -> Option<Entry>
    requires sized { length page.now ≡ shape.now.page_bytes }
    requires decodes { Decodes shape.now page.now }
    ensures { (level index : ℕ) (entries : List EntrySpec)
        → IsMetaPage shape.now page.now level index entries
        → IsEntryOf key.now entries (option_map seen result) }
{
    shape.known();
    match place_of(shape, page, key) {
        Some(place) => Some(entry(shape, page, place)),
        None => None,
    }
}
