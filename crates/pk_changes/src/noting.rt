//! Entries that wait for a commit: a key gets the value that was written for it, or loses its own. No call takes the board.
ghost use Rattle.std.specs.Prelude.{◌≡◌, ◌+◌, ◌-◌, ◌<◌, ◌≤◌, ℕ, List, length, false, Some, None, MatchOption};
ghost use Rattle.std.specs.FinMap.{insert, remove};
ghost use Rattle.pk_base.specs.Shape as spec;
ghost use Rattle.pk_base.specs.Page.{Flash};
ghost use Rattle.pk_base.specs.Map.{Map};
ghost use Rattle.pk_log.specs.State.{needs_freeze as needs_freeze_for, pushed};
ghost use Rattle.pk_values.specs.Entries.{span_of, span_if_some};
ghost use Rattle.pk_parts.specs.Moves.{StandsFor};
ghost use Rattle.pk_changes.specs.Changes.{MayTake};
ghost use Rattle.pk_changes.specs.Noting.{Puts, pages_at as pages_at_by};
ghost use Rattle.pk_space.specs.Uses.{used_after};
ghost use Rattle.pk_base.specs.Key.{space_of};
ghost use Rattle.pk_parts.specs.Staying.{Stays, IsNoted};

use pk_base::{Entry, Key, Place, Shape};
use pk_parts::Parts;
use pk_region::Region;
use pk_values::Span;

// The pages of the value at a place.
fn span_at(shape: &Shape, place: &Place) -> Span
    requires { place.now.len ≤ spec.greatest shape.now }
    ensures { result ≡ span_of shape.now place.now }
{
    Span {
        page: place.page,
        count: shape.charge(place.len),
    }
}

// The same, if there is one.
fn span_if_there(shape: &Shape, place: &Option<Place>) -> Option<Span>
    requires { MatchOption place.now (Unit {0}) (λ p. p.len ≤ spec.greatest shape.now) }
    ensures { result ≡ span_if_some shape.now place.now }
{
    match place {
        None => None,
        Some(place) => Some(span_at(shape, place)),
    }
}

/// The pages of the value at a place; none if there is none.
pub fn pages_at(shape: &Shape, place: &Option<Place>) -> u32
    requires { MatchOption place.now (Unit {0}) (λ p. p.len ≤ spec.greatest shape.now) }
    ensures { result ≡ pages_at_by shape.now place.now }
{
    match place {
        None => 0,
        Some(place) => shape.charge(place.len),
    }
}

/// A key has the value of `len` bytes and `count` pages that was written at this page from now
/// on, and no more the one at `old`.
pub(crate) fn note_put<A: Region>(
    parts: &mut Parts<A>,
    key: Key,
    page: u32,
    len: u32,
    count: u32,
    old: Option<Place>,
)
    requires counted { count ≡ spec.charge parts.old.log.shape len }
    requires room { needs_freeze_for parts.old.log key ≡ false }
    requires few { length parts.old.log.pending < spec.page_entries parts.old.log.shape }
    requires puts { (flash : Flash) × (m : Map) × (value : List ℕ) × (length value ≡ len)
        × Puts parts.old parts.old.log.shape flash m key value page old }

    // The parts, and the map that they represent.
    ensures rest { parts.new ≡ record parts.old {
      log = pushed parts.old.log (key, Some (record { page = page; len = len }));
      values = parts.new.values;
      spaces = used_after parts.old.spaces (space_of key) (pages_at_by parts.old.log.shape old)
          count;
    } }
    ensures stands { (shape : spec.Shape) (flash : Flash) (m : Map) (value : List ℕ)
        → length value ≡ len → Puts parts.old shape flash m key value page old
        → StandsFor parts.new shape flash (insert m key value) }
    ensures moves { Stays parts.old parts.new }
    ensures noted { IsNoted parts.new key }
    ensures more { length parts.new.log.pending ≡ length parts.old.log.pending + 1 }
{
    let shape = parts.shape();
    let _ = key.bytes();
    let before = span_if_there(&shape, &old);
    let now = Span { page, count };
    parts
        .spaces
        .change(key.space(), pages_at(&shape, &old), count);
    parts.log.push(Entry::Put { key, page, len });
    parts.values.replace(before, now);
}

/// A key has no value from now on; it had the one at `old`.
pub(crate) fn note_gone<A: Region>(parts: &mut Parts<A>, key: Key, old: Place)
    requires room { needs_freeze_for parts.old.log key ≡ false }
    requires few { length parts.old.log.pending < spec.page_entries parts.old.log.shape }
    requires drops { (flash : Flash) × (m : Map)
        × MayTake parts.old parts.old.log.shape flash m key old }

    // The parts, and the map that they represent.
    ensures rest { parts.new ≡ record parts.old {
      log = pushed parts.old.log (key, None);
      values = parts.new.values;
      spaces = used_after parts.old.spaces (space_of key)
          (spec.charge parts.old.log.shape old.len) 0;
    } }
    ensures stands { (shape : spec.Shape) (flash : Flash) (m : Map)
        → MayTake parts.old shape flash m key old → StandsFor parts.new shape flash (remove m key) }
    ensures moves { Stays parts.old parts.new }
    ensures more { length parts.new.log.pending ≡ length parts.old.log.pending + 1 }
{
    let shape = parts.shape();
    let _ = key.bytes();
    let before = span_at(&shape, &old);
    parts.spaces.change(key.space(), before.count, 0);
    parts.log.push(Entry::Gone { key });
    parts.values.remove(before);
}
