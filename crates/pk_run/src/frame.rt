//! The entry of a key in a page that has a frame, by the number at the home of the key.
ghost use Rattle.std.specs.Prelude.{◌≡◌, ◌≢◌, ◌+◌, ◌*◌, ◌<◌, ◌≤◌, List, ℕ, MatchOption, length, option_map, suc};
ghost use Rattle.std.specs.Ordering.{is_eq};
ghost use Rattle.pk_base.specs.Entry.{Entry as EntrySpec};
ghost use Rattle.pk_base.specs.declared.sizes.TheConstants.{HEAD_BYTES, ENTRY_BYTES};
ghost use Rattle.pk_base.specs.EntryBytes.{cell_at, cell_key};
ghost use Rattle.pk_base.specs.Fields.{number_at};
ghost use Rattle.pk_base.specs.Key.{key_cmp};
ghost use Rattle.pk_base.specs.Seen.{entry as seen};
ghost use Rattle.pk_homes.specs.declared.table.TheConstants.{SHARED};
ghost use Rattle.pk_homes.specs.Hash.{hash_of};
ghost use Rattle.pk_meta.specs.PageChecks.{IsMetaPage, Decodes, IsEntryOf};
ghost use Rattle.pk_pin.specs.Index.{IsNumberOf};
ghost use Rattle.pk_run.specs.Search.{IsPlaceBefore};

use pk_base::{Entry, Key, Shape, cell_of, compare_cell, get_u16};
use pk_homes::SHARED;
use pk_meta::{entry, find as find_in_page};

/// Whether an entry of a page has the key.
fn has_key(shape: &Shape, page: &[u8], i: usize, key: &Key) -> bool
    requires sized { length page.now ≡ shape.now.page_bytes }
    requires decodes { Decodes shape.now page.now }
    requires within { i < number_at 2 10 page.now }
    ensures { result
        ≡ is_eq (key_cmp (cell_key (cell_at (HEAD_BYTES + ENTRY_BYTES * i) page.now)) key.now) }
{
    shape.known();
    compare_cell(cell_of(page, i), key).is_eq()
}

/// The place of the entry with a number, counted from 1, if it has the key.
fn place_before(shape: &Shape, page: &[u8], number: u16, key: &Key) -> Option<u32>
    requires sized { length page.now ≡ shape.now.page_bytes }
    requires decodes { Decodes shape.now page.now }
    ensures { IsPlaceBefore page.now key.now number result }
{
    shape.known();
    if number == 0 {
        return None;
    }
    if number > get_u16(page, 10) {
        return None;
    }
    let place = number as usize - 1;
    if has_key(shape, page, place, key) {
        Some(place as u32)
    } else {
        None
    }
}

/// The entry of a key whose home is not shared.
fn find_single(shape: &Shape, page: &[u8], number: u16, key: &Key) -> Option<Entry>
    requires sized { length page.now ≡ shape.now.page_bytes }
    requires decodes { Decodes shape.now page.now }
    requires number { IsNumberOf page.now (hash_of key.now) number }
    requires single { number < SHARED }
    ensures { (level index : ℕ) (entries : List EntrySpec)
        → IsMetaPage shape.now page.now level index entries
        → IsEntryOf key.now entries (option_map seen result) }
{
    shape.known();
    match place_before(shape, page, number, key) {
        Some(place) => Some(entry(shape, page, place)),
        None => None,
    }
}

/// The entry of a key; None exactly if the page has none of it. The number is that of the entry, or
/// of the first entry at the home of the key, if others have that home too.
pub fn find_by_number(shape: &Shape, page: &[u8], number: u16, key: &Key) -> Option<Entry>
    requires sized { length page.now ≡ shape.now.page_bytes }
    requires decodes { Decodes shape.now page.now }
    requires number { IsNumberOf page.now (hash_of key.now) number }
    ensures { (level index : ℕ) (entries : List EntrySpec)
        → IsMetaPage shape.now page.now level index entries
        → IsEntryOf key.now entries (option_map seen result) }
{
    shape.known();
    if number < SHARED {
        return find_single(shape, page, number, key);
    }
    match place_before(shape, page, number - SHARED, key) {
        Some(place) => Some(entry(shape, page, place)),
        None => find_in_page(shape, page, key),
    }
}
