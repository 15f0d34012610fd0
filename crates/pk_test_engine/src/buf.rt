//! The memory of a write buffer.

use linked_list_allocator::LocalHeap;
use pk_base::{Entry, Key, Shape};
use pk_buf::Buffer;
use std::alloc::Global;
use std::test::*;

// Deletes a key if there is room.
fn delete(table: &mut Buffer<&LocalHeap>, name: &[u8]) {
    if let Some(key) = Key::new(name) {
        if table.len() < table.room() {
            table.put(Entry::Gone { key });
        }
    }
}

// Where the key is in the table, if it is there.
fn place_of(table: &Buffer<&LocalHeap>, name: &[u8]) -> Option<u32> {
    let key = Key::new(name)?;
    if table.get(&key).is_none() {
        return None;
    }
    Some(table.from(&key))
}

// Two keys, one of them deleted twice: the entries and the place of the greater.
fn deleted(table: &mut Buffer<&LocalHeap>) -> (u32, Option<u32>) {
    delete(table, b"b");
    delete(table, b"a");
    delete(table, b"b");
    (table.len(), place_of(table, b"b"))
}

// Entries are ordered by key, one for each, and no call takes memory.
fn holds_by_key(heap: &LocalHeap, table: &mut Buffer<&LocalHeap>) -> bool {
    let room = table.room();
    let used = heap.used();
    let seen = deleted(table);
    heap.used() == used && room == 30 && seen == (2, Some(1))
}

// The length of a boxed table that is cleared.
fn cleared(heap: &LocalHeap, table: Buffer<&LocalHeap>) -> Option<u32> {
    match Box::new(heap, table) {
        Ok(mut boxed) => {
            boxed.clear();
            Some(boxed.len())
        }
        Err(_) => None,
    }
}

// Whether a table is as it has to be; None if it finds no room.
fn found(heap: &LocalHeap, shape: Shape) -> Option<bool> {
    match Buffer::new(heap, shape) {
        Ok(mut table) => {
            let holds = holds_by_key(heap, &mut table);
            let len = cleared(heap, table)?;
            Some(holds && len == 0)
        }
        Err(_) => None,
    }
}

// This is found of a table in a heap of `size` bytes, and all of it is freed.
fn finds(alloc: Global, size: usize, shape: Shape, wanted: Option<bool>) -> bool {
    match LocalHeap::new(alloc, size) {
        Ok(heap) => found(&heap, shape) == wanted && heap.used() == 0,
        Err(_) => false,
    }
}

// The same for the shape of 64 blocks of 16 pages of 512 bytes.
fn finds_small(alloc: Global, size: usize, wanted: Option<bool>) -> bool {
    match Shape::new(512, 16, 64) {
        Ok(shape) => finds(alloc, size, shape, wanted),
        Err(_) => false,
    }
}

// A table that finds no room is an error.
#[test]
fn memory(rt: HostRuntime) {
    assert!(rt; finds_small(rt.alloc(), 4096, Some(true)));
    assert!(rt; finds_small(rt.alloc(), 512, None));
}
