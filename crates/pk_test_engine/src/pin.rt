//! Frames that are leased.

use linked_list_allocator::LocalHeap;
use pk_pin::PinArena;
use std::alloc::Global;
use std::test::*;

const FIRST: &[u8; 4] = &[1, 2, 3, 4];

const SECOND: &[u8; 4] = &[5, 6, 7, 8];

// Frames are leased until none is free, and each contains what it was filled with.
fn leases(alloc: Global) -> bool {
    let Ok(mut arena) = PinArena::new(alloc, 2, 4) else {
        return false;
    };
    let Some(first) = arena.take() else {
        return false;
    };
    let Some(second) = arena.take() else {
        return false;
    };
    let is_all = arena.take().is_none();
    arena.fill(&first, FIRST);
    arena.fill(&second, SECOND);
    let is_filled = arena.bytes(&first) == FIRST.as_slice();
    arena.give(first);
    let counts = (arena.free(), arena.frames());
    is_all && is_filled && counts == (1, 2) && arena.bytes(&second) == SECOND.as_slice()
}

const PAGE: &[u8; 512] = &[7; 512];

// The bytes that an arena of 64 frames takes: of their pages, whether each is used, and the tables of 65 homes of two bytes.
const ARENA_BYTES: usize = 64 * (512 + 1 + 65 * 2);

// An arena takes its bytes once, and no call takes any.
fn takes_once(heap: &LocalHeap) -> bool {
    let Ok(mut arena) = PinArena::new(heap, 64, 512) else {
        return false;
    };
    let used = heap.used();
    let Some(lease) = arena.take() else {
        return false;
    };
    arena.fill(&lease, PAGE);
    let is_filled = arena.bytes(&lease)[511] == 7;
    let free = arena.free();
    arena.give(lease);
    is_filled && (free, arena.frames()) == (63, 64) && used == ARENA_BYTES && heap.used() == used
}

fn memory(alloc: Global) -> bool {
    match LocalHeap::new(alloc, 48000) {
        Ok(heap) => takes_once(&heap),
        Err(_) => false,
    }
}

// An arena that finds no room is an error, and does not change the heap.
fn no_room(alloc: Global) -> bool {
    match LocalHeap::new(alloc, 16384) {
        Ok(heap) => PinArena::new(&heap, 36, 512).is_err() && heap.used() == 0,
        Err(_) => false,
    }
}

#[test]
fn frames(rt: HostRuntime) {
    assert!(rt; leases(rt.alloc()));
    assert!(rt; memory(rt.alloc()));
    assert!(rt; no_room(rt.alloc()));
}
