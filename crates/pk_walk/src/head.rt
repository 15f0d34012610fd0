//! The first entry that a walk still wants of a run or a write buffer.
ghost use Rattle.std.specs.Prelude.{◌≡◌, if◌then◌else◌, is_some, option_map, Some, None};
ghost use Rattle.std.specs.Ordering.{is_eq, is_gt};
ghost use Rattle.pk_base.specs.Seen.{entry as seen};
ghost use Rattle.pk_walk.specs.Heads.{entry_in, let_go, order_of, seen_head};
ghost use Rattle.pk_walk.specs.Visible.{behind_found};

use crate::position::Position;
use pk_base::{Entry, compare};
use std::cmp::Ordering;
use std::mem;

/// What the walk knows of it.
#[derive(Drop)]
pub enum Head {
    /// It has still to be looked for.
    Sought,
    /// There is none.
    Ended,
    /// It is this one.
    Stands(Entry),
}

impl Head {
    /// As it was found.
    pub fn of(found: Option<Entry>) -> Head
        ensures { seen_head result ≡ Some (option_map seen found) }
    {
        match found {
            Some(entry) => Head::Stands(entry),
            None => Head::Ended,
        }
    }

    /// Whether it was looked for.
    pub fn is_known(&self) -> bool
        ensures { result ≡ is_some (seen_head self.now) }
    {
        match self {
            Head::Sought => false,
            Head::Ended => true,
            Head::Stands(_) => true,
        }
    }

    /// Returns it, so that the next one has to be looked for; None if there is none.
    #[inline(always)]
    pub fn take(&mut self) -> Option<Entry>
        ensures entry { option_map seen result ≡ entry_in (seen_head self.old) }
        ensures head { seen_head self.new ≡ let_go (seen_head self.old) }
    {
        match mem::replace(self, Head::Sought) {
            Head::Sought => None,
            Head::Ended => {
                *self = Head::Ended;
                None
            }
            Head::Stands(entry) => Some(entry),
        }
    }

    /// Moves the position past it, if there is one. Before it is returned, since what is returned
    /// is moved faster if nothing has pointed to it.
    #[inline(always)]
    pub fn lead(&self, position: &mut Position)
        ensures { position.new ≡ behind_found (entry_in (seen_head self.now)) position.old }
    {
        match self {
            Head::Sought => {}
            Head::Ended => {}
            Head::Stands(entry) => position.go_above(entry.key()),
        }
    }

    /// Drops it if the key that is returned is its own.
    pub fn pass(&mut self, given: Ordering)
        ensures { seen_head self.new
            ≡ (if is_eq given then None else seen_head self.old) }
    {
        if given.is_eq() {
            *self = Head::Sought;
        }
    }
}

/// How the key of one compares with that of another. A missing one is above all.
pub fn order(head: &Head, other: &Head) -> Ordering
    ensures { result ≡ order_of (entry_in (seen_head head.now)) (entry_in (seen_head other.now)) }
{
    match head {
        Head::Stands(entry) => match other {
            Head::Stands(another) => compare(entry.key(), another.key()),
            Head::Sought => Ordering::Less,
            Head::Ended => Ordering::Less,
        },
        Head::Sought => order_of_none(other),
        Head::Ended => order_of_none(other),
    }
}

// How nothing compares with it.
fn order_of_none(other: &Head) -> Ordering
    ensures { result ≡ order_of None (entry_in (seen_head other.now)) }
{
    match other {
        Head::Stands(_) => Ordering::Greater,
        Head::Sought => Ordering::Less,
        Head::Ended => Ordering::Less,
    }
}

/// The one whose key is lower, by how they compare, and of one key the first.
pub fn lower<'a>(head: &'a Head, other: &'a Head, order: Ordering) -> &'a Head
    ensures { result.now ≡ (if is_gt order then other.now else head.now) }
{
    if order.is_gt() { other } else { head }
}
