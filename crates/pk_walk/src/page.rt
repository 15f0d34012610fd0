//! The first wanted entry of a page, from a place on.
ghost use Rattle.std.specs.Prelude.{◌≡◌, ◌≤◌, ◌<◌, ◌+◌, ◌*◌, ℕ, List, length, slice_get, slice_index, Some};
ghost use Rattle.pk_base.specs.Entry.{Entry as EntrySpec};
ghost use Rattle.pk_base.specs.Seen.{entry as seen};
ghost use Rattle.pk_base.specs.declared.sizes.TheConstants.{HEAD_BYTES, ENTRY_BYTES, KEY_BYTES, MOST_SPACES};
ghost use Rattle.pk_base.specs.EntryBytes.{cell_at, cell_key, entry_at};
ghost use Rattle.pk_base.specs.Fields.{number_at};
ghost use Rattle.pk_meta.specs.PageChecks.{Decodes, IsMetaPage};
ghost use Rattle.pk_walk.specs.Visible.{is_wanted};
ghost use Rattle.pk_walk.specs.Steps.{IsFirstWanted};

use crate::position::Position;
use pk_base::{Entry, KEY_BYTES, Key, PUT_KIND, Shape, cell_of, get_u16, get_u32};
use pk_meta::entry;

// The entry of these bytes, which have a whole key and a value.
#[inline(always)]
#[tactic(auto, unfolding(pk_base::specs::EntryBytes::entry_at))]
fn whole_put(cell: &[u8]) -> Entry
    requires sized { length cell.now ≡ ENTRY_BYTES }
    requires whole { slice_index cell.now 0 ≡ KEY_BYTES }
    requires space { slice_index cell.now 2 < MOST_SPACES }
    requires put { slice_index cell.now 1 ≡ PUT_KIND }
    ensures { seen result ≡ entry_at cell.now }
{
    Entry::Put {
        key: Key::of(cell[2] + 1, &cell[4..4 + KEY_BYTES]),
        page: get_u32(cell, 20),
        len: get_u32(cell, 24),
    }
}

/// An entry of a page. If its key is a whole one that has a value, as mostly, that is known before
/// it is read, so that it is read without a choice and without a call.
#[inline(always)]
pub fn entry_at(shape: &Shape, page: &[u8], i: u32) -> Entry
    requires sized { length page.now ≡ shape.now.page_bytes }
    requires decodes { Decodes shape.now page.now }
    requires within { i < number_at 2 10 page.now }
    ensures { (level index : ℕ) (entries : List EntrySpec)
        → IsMetaPage shape.now page.now level index entries
        → slice_get entries i ≡ Some (seen result) }
{
    shape.known();
    let cell = cell_of(page, i as usize);
    if cell[0] as usize == KEY_BYTES && cell[1] == PUT_KIND {
        whole_put(cell)
    } else {
        entry(shape, page, i)
    }
}

/// Whether the key of an entry of the page is wanted.
fn wants_at(shape: &Shape, page: &[u8], position: &Position, i: u32) -> bool
    requires sized { length page.now ≡ shape.now.page_bytes }
    requires decodes { Decodes shape.now page.now }
    requires within { i < number_at 2 10 page.now }
    ensures { result ≡ is_wanted position.now
        (cell_key (cell_at (HEAD_BYTES + ENTRY_BYTES * i) page.now)) }
{
    shape.known();
    let cell = cell_of(page, i as usize);
    position.wants(cell)
}

/// How many of the next entries are looked at before the rest is halved: two, since a walk mostly
/// stays at its place or goes on by one, and none if it begins at a key.
fn first_looks(position: &Position) -> u32 {
    match position {
        Position::From(_) => 0,
        Position::First => 2,
        Position::Above(_) => 2,
    }
}

/// The place to look at next: some of the next ones first, and then the middle.
fn next_look(from: u32, low: u32, high: u32, first: u32) -> u32
    requires rest { low < high }
    requires forth { from ≤ low }
    ensures low { low ≤ result }
    ensures high { result < high }
{
    if low - from < first {
        low
    } else {
        low + (high - low) / 2
    }
}

/// The place of the first wanted entry of the page from this place on; the end if there is none.
pub fn first_wanted(shape: &Shape, page: &[u8], position: &Position, from: u32) -> u32
    requires sized { length page.now ≡ shape.now.page_bytes }
    requires decodes { Decodes shape.now page.now }
    requires within { from ≤ number_at 2 10 page.now }
    ensures { IsFirstWanted position.now page.now from result }
{
    shape.known();
    let first = first_looks(position);
    let mut low = from;
    let mut high = get_u16(page, 10) as u32;
    while low < high {
        let middle = next_look(from, low, high, first);
        if wants_at(shape, page, position, middle) {
            high = middle;
        } else {
            low = middle + 1;
        }
    }
    low
}
