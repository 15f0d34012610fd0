//! A write buffer: a table of entries in the order of their keys, whose memory is taken once.
//! Its slots are in the order of arrival, so that a write moves numbers of two bytes, and a table
//! of homes leads from the hash of a key to its slot.
//!
//! Contracts see the list of its entries. A write puts an entry over the one of its key, or in its
//! place among the others, which are unchanged.
#![tactic(auto)]

mod slot;

ghost use Rattle.std.specs.Prelude.{ℕ, suc, ◌≡◌, ◌+◌, ◌<◌, ◌≤◌, ◌⊎◌, length, T, Some, None, IsSome, IfOk, IfErr, MatchOption, MatchResult, true, false, slice_get, option_map, []};
ghost use Rattle.std.specs.List.{AllWithin};
ghost use Rattle.std.specs.FinMap.Entries.{find, put, is_sorted};
ghost use Rattle.pk_base.specs.Key.{key_cmp};
ghost use Rattle.pk_base.specs.Entry.{key_of};
ghost use Rattle.pk_base.specs.Shape.{buffer};
ghost use Rattle.pk_base.specs.Seen.{entry};
ghost use Rattle.pk_buf.specs.Slots.{HasSlots};
ghost use Rattle.pk_buf.specs.Table.{Table, no_entries, place_of, is_below as is_below_key, has_key, has_at, content, numbered, sorted};

use crate::slot::Slot;
use pk_base::{Entry, Key, Shape, is_below, is_same};
use pk_homes::{SHARED, add, hash, home};
use pk_region::Region;
use smallvec::SmallVec;
use std::alloc::AllocError;
use std::marker::Model;
use std::mem;

/// The table. Contracts see its entries in order, and how many there is room for.
pub struct Buffer<A: Region> {
    capacity: u32,
    // in the order of arrival
    slots: SmallVec<Slot, 0, A>,
    // the places of the slots, in the order of their keys
    order: SmallVec<u16, 0, A>,
    // for each hash of a key, where its slot is
    table: Vec<u16, A>,
}

// Written out, so that whoever drops one meets a call, and not the drops of all its parts.
impl<A: Region> Drop for Buffer<A> {
    fn drop(self) {
        let Buffer {
            capacity: _,
            slots: _,
            order: _,
            table: _,
        } = self;
    }
}

impl<A: Region> Model for Buffer<A> {
    ghost use Rattle.std.specs.Prelude.{ℕ, suc, ◌≡◌, ◌≤◌, ◌<◌, ◌^◌, length, T};
    ghost use Rattle.std.specs.List.{AllWithin};
    ghost use Rattle.std.specs.FinMap.Entries.{is_sorted};
    ghost use Rattle.pk_base.specs.Key.{key_cmp};
    ghost use Rattle.pk_buf.specs.Slots.{HasSlots, AllNumbered};
    ghost use Rattle.pk_buf.specs.Table.{Table, sorted};

    ghost Value = { Table };

    ghost view = { λ b. record
        { capacity = b.capacity; entries = sorted b.slots.items b.order.items } };

    ghost invariant = { λ b. T (is_sorted key_cmp (sorted b.slots.items b.order.items))
        × AllWithin (λ i. i < length b.slots.items) b.order.items 0 (length b.order.items)
        × (length b.order.items ≡ length b.slots.items)
        × (length b.slots.items ≤ b.capacity) × (b.capacity ≤ b.slots.capacity)
        × (b.capacity ≤ b.order.capacity) × (b.capacity < 2 ^ 14)
        × HasSlots b.slots.items b.table.items
        × AllNumbered b.order.items (length b.slots.items) };
}

// Whether the slot's key is below this one.
fn comes_before(slot: &Slot, key: &Key) -> bool
    ensures { result ≡ is_below_key key.now (content slot.now) }
{
    is_below(slot.entry.key(), key)
}

// Whether the slot has this key.
fn has(slot: &Slot, key: &Key) -> bool
    ensures { result ≡ has_key key.now (content slot.now) }
{
    is_same(slot.entry.key(), key)
}

// How many keys are before the first one that is not below this one.
fn place(slots: &[Slot], order: &[u16], key: &Key) -> usize
    requires rising { T (is_sorted key_cmp (sorted slots.now order.now)) }
    requires within { AllWithin (λ i. i < length slots.now) order.now 0 (length order.now) }
    ensures place { result ≡ place_of key.now (sorted slots.now order.now) }
    ensures bound { result ≤ length order.now }
{
    let mut low = 0;
    let mut high = order.len();
    while low < high {
        let middle = low + (high - low) / 2;
        if comes_before(&slots[order[middle] as usize], key) {
            low = middle + 1;
        } else {
            high = middle;
        }
    }
    low
}

// Where the key is, or where it would go.
fn search(slots: &[Slot], order: &[u16], key: &Key) -> Result<usize, usize>
    requires rising { T (is_sorted key_cmp (sorted slots.now order.now)) }
    requires within { AllWithin (λ i. i < length slots.now) order.now 0 (length order.now) }
    ensures found { IfOk result (λ i. (i ≡ place_of key.now (sorted slots.now order.now))
        × (has_at key.now (sorted slots.now order.now) i ≡ true)) }
    ensures absent { IfErr result (λ i. (i ≡ place_of key.now (sorted slots.now order.now))
        × (has_at key.now (sorted slots.now order.now) i ≡ false)) }
    ensures bound { MatchResult result (λ i. i < length order.now) (λ i. i ≤ length order.now) }
{
    let at = place(slots, order, key);
    if at < order.len() && has(&slots[order[at] as usize], key) {
        Ok(at)
    } else {
        Err(at)
    }
}

// The slot before the one with this number, if it has the key.
fn slot_before(slots: &[Slot], number: usize, key: &Key) -> Option<usize>
    ensures { MatchOption result
        ((i : ℕ) → i < length slots.now → suc i ≡ number
        → has_key key.now (numbered slots.now i) ≡ false)
        (λ i. (i < length slots.now) × (has_key key.now (numbered slots.now i) ≡ true)) }
{
    if number == 0 {
        return None;
    }
    if number > slots.len() {
        return None;
    }
    if has(&slots[number - 1], key) {
        Some(number - 1)
    } else {
        None
    }
}

// The slot of a key, by halving.
fn slot_by_order(slots: &[Slot], order: &[u16], key: &Key) -> Option<usize>
    requires rising { T (is_sorted key_cmp (sorted slots.now order.now)) }
    requires within { AllWithin (λ i. i < length slots.now) order.now 0 (length order.now) }
    ensures { MatchOption result (find key_cmp key.now (sorted slots.now order.now) ≡ None)
        (λ i. (i < length slots.now) × (has_key key.now (numbered slots.now i) ≡ true)) }
{
    match search(slots, order, key) {
        Ok(at) => Some(order[at] as usize),
        Err(_) => None,
    }
}

// The slot of a key.
fn slot_of(slots: &[Slot], order: &[u16], table: &[u16], key: &Key) -> Option<usize>
    requires rising { T (is_sorted key_cmp (sorted slots.now order.now)) }
    requires within { AllWithin (λ i. i < length slots.now) order.now 0 (length order.now) }
    requires homes { HasSlots slots.now table.now }
    ensures { MatchOption result (find key_cmp key.now (sorted slots.now order.now) ≡ None)
        (λ i. (i < length slots.now) × (has_key key.now (numbered slots.now i) ≡ true)) }
{
    let found = table[home(hash(key), table.len())];
    if found < SHARED {
        return slot_before(slots, found as usize, key);
    }
    match slot_before(slots, (found - SHARED) as usize, key) {
        Some(number) => Some(number),
        None => slot_by_order(slots, order, key),
    }
}

impl<A: Region> Buffer<A> {
    /// An empty table with room for the entries of a write buffer. All its memory is taken here.
    pub fn new(alloc: A, shape: Shape) -> Result<Buffer<A>, AllocError>
        ensures { IfOk result (λ b. b ≡ no_entries shape) }
    {
        let capacity = shape.buffer();
        let slots = SmallVec::with_capacity(alloc, capacity as usize)?;
        let order = SmallVec::with_capacity(alloc, capacity as usize)?;
        let table = Vec::from_elem(alloc, 0u16, 2 * capacity as usize)?;
        Ok(Buffer {
            capacity,
            slots,
            order,
            table,
        })
    }

    /// How many entries there are.
    pub fn len(&self) -> u32
        ensures len { result ≡ length self.now.entries }
        ensures rising { T (is_sorted key_cmp self.now.entries) }
        ensures bound { length self.now.entries ≤ self.now.capacity }
    {
        self.slots.len() as u32
    }

    /// How many more entries there is room for.
    pub fn room(&self) -> u32
        ensures { result + length self.now.entries ≡ self.now.capacity }
    {
        self.capacity - self.slots.len() as u32
    }

    /// The entry at this place.
    pub fn at(&self, i: u32) -> Entry
        requires { i < length self.now.entries }
        ensures { slice_get self.now.entries i ≡ Some (entry result) }
    {
        self.slots.as_slice()[self.order.as_slice()[i as usize] as usize]
            .entry
            .copy()
    }

    /// The key of the entry at this place.
    pub fn key(&self, i: u32) -> &Key
        requires { i < length self.now.entries }
        ensures { option_map key_of (slice_get self.now.entries i) ≡ Some result.now }
    {
        self.slots.as_slice()[self.order.as_slice()[i as usize] as usize]
            .entry
            .key()
    }

    /// The place of the first key that is not below this one.
    pub fn from(&self, key: &Key) -> u32
        ensures place { result ≡ place_of key.now self.now.entries }
        ensures bound { result ≤ length self.now.entries }
    {
        place(self.slots.as_slice(), self.order.as_slice(), key) as u32
    }

    /// The entry of the key.
    pub fn get(&self, key: &Key) -> Option<Entry>
        ensures { MatchOption result (find key_cmp key.now self.now.entries ≡ None)
            (λ e. (key_of (entry e) ≡ key.now)
            × (find key_cmp key.now self.now.entries ≡ Some (entry e).1)) }
    {
        match slot_of(
            self.slots.as_slice(),
            self.order.as_slice(),
            &self.table,
            key,
        ) {
            Some(number) => Some(self.slots.as_slice()[number].entry.copy()),
            None => None,
        }
    }

    /// Writes the entry over the one of its key, or adds it, for which there must be room.
    pub fn put(&mut self, new: Entry)
        requires { (length self.old.entries < self.old.capacity)
            ⊎ IsSome (find key_cmp (key_of (entry new)) self.old.entries) }
        ensures { self.new ≡ record self.old
            { entries = put key_cmp (key_of (entry new)) (entry new).1 self.old.entries } }
    {
        match slot_of(
            self.slots.as_slice(),
            self.order.as_slice(),
            &self.table,
            new.key(),
        ) {
            Some(number) => {
                self.slots[number] = Slot { entry: new };
            }
            None => self.insert(new),
        }
    }

    // Adds the entry of a key that has none.
    fn insert(&mut self, new: Entry)
        requires room { length self.old.entries < self.old.capacity }
        requires absent { find key_cmp (key_of (entry new)) self.old.entries ≡ None }
        ensures { self.new ≡ record self.old
            { entries = put key_cmp (key_of (entry new)) (entry new).1 self.old.entries } }
    {
        let at = place(self.slots.as_slice(), self.order.as_slice(), new.key());
        let number = self.slots.len() as u16;
        let here = home(hash(new.key()), self.table.len());
        add(&mut self.table, here, number);
        match self.slots.push(Slot { entry: new }) {
            Ok(()) => {}
            Err(_) => unreachable!(),
        }
        match self.order.insert(at, number) {
            Ok(()) => {}
            Err(_) => unreachable!(),
        }
    }

    /// Takes all entries out.
    pub fn clear(&mut self)
        ensures { self.new ≡ record self.old { entries = [] } }
    {
        self.slots.clear();
        self.order.clear();
        self.table.fill(0);
    }

    /// Exchanges the two tables.
    pub fn exchange(&mut self, other: &mut Buffer<A>)
        ensures left { self.new ≡ other.old }
        ensures right { other.new ≡ self.old }
    {
        mem::swap(self, other);
    }
}
