//! The values that a reclaim copied.
ghost use Rattle.std.specs.Prelude.{◌≡◌, ◌+◌, ◌<◌, ◌≤◌, ◌++◌, ◌∷◌, [], length, vec_capacity, count_by};
ghost use Rattle.pk_base.specs.Seen.{entry as seen, entries as seen_all};
ghost use Rattle.pk_gc.specs.State.{moved_entry, is_new, heads_behind, entries_behind};
ghost use Rattle.pk_gc.specs.State.{heads_all, entries_all, CanGo, CanGoAll};
ghost use Rattle.pk_gc.specs.Committing.{entries_left};

use pk_base::{Entry, Key, MOST_BLOCK_PAGES};
use pk_buf::Buffer;
use pk_live::Live;
use pk_region::Region;
use std::alloc::Allocator;

/// A value that was copied: its key and length, the pages at which it begins in the victim and in the output, and how many
/// pages it has.
#[derive(Drop)]
pub struct Move {
    pub key: Key,
    pub len: u32,
    pub from: u32,
    pub to: u32,
    pub count: u32,
}

impl Move {
    /// The entry that names the new place.
    pub fn entry(&self) -> Entry
        ensures { seen result ≡ moved_entry self.now }
    {
        Entry::Put {
            key: self.key.copy(),
            page: self.to,
            len: self.len,
        }
    }
}

// Adds the entry of a move whose old place is still live.
fn add_left<A: Allocator>(one: &Move, live: &Live<A>, into: &mut Vec<Entry, A>)
    requires { length into.old.items < vec_capacity into.old }
    ensures left { seen_all into.new.items
        ≡ seen_all into.old.items ++ entries_left live.now.heads (one.now ∷ []) }
    ensures few { length into.new.items ≤ length into.old.items + 1 }
    ensures room { vec_capacity into.new ≡ vec_capacity into.old }
{
    if live.is_head(one.from) {
        into.push_reserved(one.entry());
    }
}

/// Fills `into` with the entries of those moves whose old place is still live.
pub(crate) fn fill_left<A: Allocator>(moves: &[Move], live: &Live<A>, into: &mut Vec<Entry, A>)
    requires { length moves.now ≤ vec_capacity into.old }
    ensures left { seen_all into.new.items ≡ entries_left live.now.heads moves.now }
    ensures few { length into.new.items ≤ length moves.now }
    ensures room { vec_capacity into.new ≡ vec_capacity into.old }
{
    into.clear();
    for m in moves {
        add_left(m, live, into);
    }
}

// Whether the buffer holds no entry of the key.
fn is_new_to<A: Region>(entry: &Entry, active: &Buffer<A>) -> bool
    ensures { result ≡ is_new active.now.entries (seen entry.now) }
{
    active.get(entry.key()).is_none()
}

/// How many of the entries have a key that the buffer does not hold.
pub(crate) fn new_keys<A: Region>(entries: &[Entry], active: &Buffer<A>) -> u32
    requires { length entries.now ≤ MOST_BLOCK_PAGES }
    ensures { result ≡ count_by (is_new active.now.entries) (seen_all entries.now) }
{
    let mut count = 0;
    for e in entries {
        if is_new_to(e, active) {
            count += 1;
        }
    }
    count
}

// Moves a value whose old place is still live.
fn apply_one<A: Region>(m: &Move, live: &mut Live<A>, active: &mut Buffer<A>)
    requires { CanGo live.old.block_pages active.old.capacity live.old.heads
        active.old.entries m.now }
    ensures live { live.new ≡ record live.old { heads = heads_behind live.old.heads m.now } }
    ensures active { active.new ≡ record active.old {
      entries = entries_behind live.old.heads active.old.entries m.now;
    } }
{
    if live.is_head(m.from) {
        live.clear(m.from, m.count);
        live.set(m.to, m.count);
        active.put(m.entry());
    }
}

/// Moves the values whose old place is still live, in the live map and in the active buffer.
pub(crate) fn apply<A: Region>(moves: &[Move], live: &mut Live<A>, active: &mut Buffer<A>)
    requires { CanGoAll live.old.block_pages active.old.capacity live.old.heads
        active.old.entries moves.now }
    ensures live { live.new ≡ record live.old { heads = heads_all live.old.heads moves.now } }
    ensures active { active.new ≡ record active.old {
      entries = entries_all live.old.heads active.old.entries moves.now;
    } }
{
    for m in moves {
        apply_one(m, live, active);
    }
}
