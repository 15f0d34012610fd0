//! The entries of a journal page, written into a write buffer.
ghost use Rattle.std.specs.Prelude.{◌≡◌, ℕ, ◌<◌, List, length};
ghost use Rattle.pk_base.specs.Fields.{number_at};
ghost use Rattle.pk_base.specs.Shape.{epoch_commits};
ghost use Rattle.pk_base.specs.Entry.{Entry as EntrySpec};
ghost use Rattle.pk_base.specs.Seen.{entry as seen};
ghost use Rattle.pk_jrnfmt.specs.PageChecks.{Decodes, IsJournalPage};
ghost use Rattle.pk_space.specs.Entries.{in_spaces};
ghost use Rattle.pk_jrn.specs.Replays.{PutOrFull, PutsOrFull, TakesPage};

use pk_base::{Entry, Shape};
use pk_buf::Buffer;
use pk_jrnfmt::{decode, entry};
use pk_region::Region;

// Writes the entry, unless there is no room for its key.
fn put_one<A: Region>(into: &mut Buffer<A>, new: Entry) -> bool
    ensures { PutOrFull into.old (seen new) result into.new }
{
    // so that the entries are known to rise
    let _ = into.len();
    if into.room() == 0 && into.get(new.key()).is_none() {
        return false;
    }
    into.put(new);
    let _ = into.room();
    true
}

// Writes the entries of a page of `count`, up to the first for whose key there is no room.
fn put_all<A: Region>(shape: &Shape, page: &[u8], count: u32, into: &mut Buffer<A>) -> bool
    requires sized { length page.now ≡ shape.now.page_bytes }
    requires decodes { Decodes shape.now page.now }
    requires count { count ≡ number_at 2 20 page.now }
    ensures { (epoch index : ℕ) (es : List EntrySpec)
        → IsJournalPage shape.now page.now epoch index es → length es ≡ count
        → PutsOrFull into.old es result into.new }
{
    // so that the entries are known to rise
    let _ = into.len();
    for i in 0..count {
        if !put_one(into, entry(shape, page, i)) {
            return false;
        }
    }
    let _ = into.room();
    true
}

// Whether the entries of a page of `count` are of the first `spaces` namespaces.
fn are_in_spaces(shape: &Shape, page: &[u8], spaces: u8, count: u32) -> bool
    requires sized { length page.now ≡ shape.now.page_bytes }
    requires decodes { Decodes shape.now page.now }
    requires count { count ≡ number_at 2 20 page.now }
    ensures { (epoch index : ℕ) (es : List EntrySpec)
        → IsJournalPage shape.now page.now epoch index es → length es ≡ count
        → in_spaces spaces es ≡ result }
{
    for i in 0..count {
        if entry(shape, page, i).key().space() > spaces {
            return false;
        }
    }
    true
}

/// Writes the entries of the epoch's page of this index, unless the bytes are none, an entry is of another namespace than the
/// first `spaces`, or there is no room for all of them.
pub fn take_page<A: Region>(
    shape: &Shape,
    spaces: u8,
    number: u64,
    index: u32,
    page: &[u8],
    into: &mut Buffer<A>,
) -> bool
    requires sized { length page.now ≡ shape.now.page_bytes }
    requires within { index < epoch_commits shape.now }
    ensures { TakesPage shape.now spaces number index page.now into.old result into.new }
{
    match decode(shape, page) {
        Ok(head) => {
            if !head.is_of(number, index) {
                return false;
            }
            if !are_in_spaces(shape, page, spaces, head.count) {
                return false;
            }
            put_all(shape, page, head.count, into)
        }
        Err(_) => false,
    }
}
