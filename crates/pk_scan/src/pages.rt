//! A page of a run: whether its entries follow those of the pages before.
ghost use Rattle.std.specs.Prelude.{◌≡◌, ◌==◌, ◌||◌, not, ◌<◌, ◌≤◌, ℕ, List, T, true, length, slice_get, option_map, Some, MatchBool};
ghost use Rattle.std.specs.FinMap.Entries.{is_sorted};
ghost use Rattle.pk_base.specs.Key.{key_cmp};
ghost use Rattle.pk_base.specs.Fields.{number_at};
ghost use Rattle.pk_base.specs.Entry.{Entry as EntrySpec, key_of};
ghost use Rattle.pk_space.specs.Entries.{in_spaces};
ghost use Rattle.pk_meta.specs.Run.{may_hold};
ghost use Rattle.pk_meta.specs.PageChecks.{Decodes, IsMetaPage};
ghost use Rattle.pk_scan.specs.Runs as runs;
ghost use Rattle.pk_scan.specs.Runs.{IsLast, GoesOnOr};

use pk_base::{Key, LEVELS, Shape, is_below};
use pk_meta::{MetaHead, decode, entry};

// Whether a page begins so.
fn is_head(found: MetaHead, wanted: MetaHead) -> bool
    ensures { MatchBool result (found ≡ wanted) (found ≡ wanted → ⊥) }
{
    found == wanted
}

// Whether a key is above the last one, if there is one.
fn is_behind(last: &Option<Key>, key: &Key) -> bool
    ensures { result ≡ runs.is_behind last.now key.now }
{
    match last {
        None => true,
        Some(last) => is_below(last, key),
    }
}

// Whether no key of a page with `count` entries was deleted.
fn are_put(shape: &Shape, page: &[u8], count: u32) -> bool
    requires sized { length page.now ≡ shape.now.page_bytes }
    requires decodes { Decodes shape.now page.now }
    requires count { count ≡ number_at 2 10 page.now }
    ensures { (level index : ℕ) (es : List EntrySpec) → IsMetaPage shape.now page.now level index es
        → length es ≡ count → result ≡ runs.are_put es }
{
    for i in 0..count {
        if !entry(shape, page, i).is_put() {
            return false;
        }
    }
    true
}

// Whether the entries of a page of `count` are of the first `spaces` namespaces.
fn are_in_spaces(shape: &Shape, spaces: u8, page: &[u8], count: u32) -> bool
    requires sized { length page.now ≡ shape.now.page_bytes }
    requires decodes { Decodes shape.now page.now }
    requires count { count ≡ number_at 2 10 page.now }
    ensures { (level index : ℕ) (es : List EntrySpec) → IsMetaPage shape.now page.now level index es
        → length es ≡ count → result ≡ in_spaces spaces es }
{
    for i in 0..count {
        if entry(shape, page, i).key().space() > spaces {
            return false;
        }
    }
    true
}

// Whether a page with `count` entries may be in a run of this level: its entries are of the first
// `spaces` namespaces, and the deepest run keeps no deleted keys.
fn may_stand(shape: &Shape, spaces: u8, level: u8, page: &[u8], count: u32) -> bool
    requires sized { length page.now ≡ shape.now.page_bytes }
    requires decodes { Decodes shape.now page.now }
    requires count { count ≡ number_at 2 10 page.now }
    ensures { (index : ℕ) (es : List EntrySpec) → IsMetaPage shape.now page.now level index es
        → length es ≡ count → result ≡ may_hold spaces level es }
{
    (level != LEVELS || are_put(shape, page, count)) && are_in_spaces(shape, spaces, page, count)
}

/// The key of an entry of a page.
pub fn key_at(shape: &Shape, page: &[u8], i: u32) -> Key
    requires sized { length page.now ≡ shape.now.page_bytes }
    requires decodes { Decodes shape.now page.now }
    requires within { i < number_at 2 10 page.now }
    ensures { (level index : ℕ) (es : List EntrySpec) → IsMetaPage shape.now page.now level index es
        → option_map key_of (slice_get es i) ≡ Some result }
{
    entry(shape, page, i).key().copy()
}

/// Whether a page is that of this level and index with `count` entries, which follow others of
/// which the last has this key, are of the first `spaces` namespaces, and are not deleted in the
/// deepest run.
pub fn goes_on(
    shape: &Shape,
    spaces: u8,
    level: u8,
    index: u32,
    count: u32,
    last: &Option<Key>,
    page: &[u8],
) -> bool
    requires level { 1 ≤ level × level ≤ LEVELS }
    requires sized { length page.now ≡ shape.now.page_bytes }
    ensures goes_on { (before : List EntrySpec) → T (is_sorted key_cmp before)
        → IsLast last.now before → GoesOnOr shape.now spaces level index count before page.now
        result }
    ensures decodes { result ≡ true → Decodes shape.now page.now }
    ensures count { result ≡ true → count ≡ number_at 2 10 page.now }
{
    shape.known();
    match decode(shape, page) {
        Ok(head) => {
            if !is_head(
                head,
                MetaHead {
                    level,
                    index,
                    count,
                },
            ) {
                return false;
            }
            if !may_stand(shape, spaces, level, page, count) {
                return false;
            }
            is_behind(last, &key_at(shape, page, 0))
        }
        Err(_) => false,
    }
}
