//! The first wanted entry of a write buffer.
ghost use Rattle.std.specs.Prelude.{◌≡◌, ◌≤◌, ◌<◌, suc, length, drop, map, slice_get, None, Some, true, option_map};
ghost use Rattle.std.specs.Ordering.{is_eq};
ghost use Rattle.pk_base.specs.Key.{key_cmp};
ghost use Rattle.pk_base.specs.Entry.{key_of};
ghost use Rattle.pk_base.specs.Seen.{entry as seen};
ghost use Rattle.pk_walk.specs.declared.position.Position.TheVariants.{Above};
ghost use Rattle.pk_walk.specs.Heads.{known_as, seen_head};
ghost use Rattle.pk_walk.specs.Visible.{is_wanted, wanted, first_of};
ghost use Rattle.pk_walk.specs.Walking.{none_known, seen_tops};

use crate::head::Head;
use crate::position::Position;
use pk_base::{Entry, Key, compare};
use pk_buf::Buffer;
use pk_region::Region;
use std::cmp::Ordering;

/// The first wanted entry of a write buffer, as far as it was looked for, and the place where the
/// last one was found. Nothing is known of the place: it is looked at before it is taken.
#[derive(Drop)]
pub struct Top {
    pub head: Head,
    place: u32,
}

/// Those of the two write buffers.
#[derive(Drop)]
pub struct Tops {
    pub active: Top,
    pub frozen: Top,
}

impl Top {
    /// Nothing is known.
    pub fn new() -> Top
        ensures { seen_head result.head ≡ None }
    {
        Top {
            head: Head::Sought,
            place: 0,
        }
    }

    /// Knows the first wanted entry of the buffer.
    #[inline(always)]
    pub fn seek<A: Region>(&mut self, buffer: &Buffer<A>, position: &Position)
        ensures { seen_head self.new.head ≡ known_as
            (first_of (wanted (is_wanted position.now) buffer.now.entries))
            (seen_head self.old.head) }
    {
        if !self.head.is_known() {
            self.look(buffer, position);
        }
    }

    // Looks for it. A call, since it is mostly known.
    #[inline(never)]
    fn look<A: Region>(&mut self, buffer: &Buffer<A>, position: &Position)
        ensures { seen_head self.new.head
            ≡ Some (first_of (wanted (is_wanted position.now) buffer.now.entries)) }
    {
        self.place = place_in(buffer, position, self.place);
        self.head = Head::of(entry_at(buffer, self.place));
    }
}

impl Tops {
    /// Nothing is known of them.
    pub fn new() -> Tops
        ensures { seen_tops result ≡ none_known }
    {
        Tops {
            active: Top::new(),
            frozen: Top::new(),
        }
    }
}

/// The place of the first entry of the buffer whose key is wanted.
fn place_in<A: Region>(buffer: &Buffer<A>, position: &Position, hint: u32) -> u32
    ensures { slice_get buffer.now.entries result
        ≡ first_of (wanted (is_wanted position.now) buffer.now.entries) }
{
    match position {
        Position::First => 0,
        Position::From(key) => buffer.from(key),
        Position::Above(key) => place_above(buffer, key, hint),
    }
}

/// The entry at a place; None after the last.
fn entry_at<A: Region>(buffer: &Buffer<A>, i: u32) -> Option<Entry>
    ensures { option_map seen result ≡ slice_get buffer.now.entries i }
{
    if i < buffer.len() {
        Some(buffer.at(i))
    } else {
        None
    }
}

/// The place of the first key above this one, by two comparisons at most if it is the hint, or the
/// next one after the key itself.
fn place_above<A: Region>(buffer: &Buffer<A>, key: &Key, hint: u32) -> u32
    ensures { slice_get buffer.now.entries result
        ≡ first_of (wanted (is_wanted (Above key.now)) buffer.now.entries) }
{
    if hint < buffer.len() {
        match compare(buffer.key(hint), key) {
            Ordering::Less => search_above(buffer, key),
            Ordering::Equal => hint + 1,
            Ordering::Greater => lowest_above(buffer, key, hint),
        }
    } else {
        lowest_above(buffer, key, buffer.len())
    }
}

/// The place of the first key above this one, if the key at the hint is one, or the hint is after
/// the last.
fn lowest_above<A: Region>(buffer: &Buffer<A>, key: &Key, hint: u32) -> u32
    requires within { hint ≤ length buffer.now.entries }
    requires first { slice_get buffer.now.entries hint
        ≡ first_of (wanted (is_wanted (Above key.now)) (drop hint buffer.now.entries)) }
    ensures { slice_get buffer.now.entries result
        ≡ first_of (wanted (is_wanted (Above key.now)) buffer.now.entries) }
{
    let _ = buffer.len();
    if hint == 0 {
        hint
    } else {
        if compare(buffer.key(hint - 1), key).is_gt() {
            search_above(buffer, key)
        } else {
            hint
        }
    }
}

/// The place of the first key above this one, by halving.
fn search_above<A: Region>(buffer: &Buffer<A>, key: &Key) -> u32
    ensures { slice_get buffer.now.entries result
        ≡ first_of (wanted (is_wanted (Above key.now)) buffer.now.entries) }
{
    let end = buffer.len();
    let at = buffer.from(key);
    if at < end {
        if has_key(&buffer.at(at), key) {
            at + 1
        } else {
            at
        }
    } else {
        at
    }
}

/// Whether the entry has this key.
fn has_key(entry: &Entry, key: &Key) -> bool
    ensures { result ≡ is_eq (key_cmp (key_of (seen entry.now)) key.now) }
{
    compare(entry.key(), key).is_eq()
}
