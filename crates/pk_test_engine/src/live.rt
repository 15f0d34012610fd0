//! The memory of a live map.
ghost use Rattle.std.specs.Prelude.{◌≡◌};
ghost use Rattle.pk_base.specs.Shape.{IsShape};
ghost use Rattle.pk_live.specs.Values.{no_values};

use linked_list_allocator::LocalHeap;
use pk_base::Shape;
use pk_live::Live;
use std::alloc::{Allocator, Global};
use std::test::*;

// The map takes at most `most` bytes of the heap, and its calls take none.
fn takes_once(heap: &LocalHeap, shape: Shape, most: usize) -> bool {
    match Live::new(heap, shape) {
        Ok(mut live) => {
            shape.known();
            let used = heap.used();
            let is_one_value = is_one_value(&mut live, &shape);
            used <= most && is_one_value && heap.used() == used
        }
        Err(_) => false,
    }
}

fn takes_once_of(alloc: Global, shape: Shape, most: usize) -> bool {
    match LocalHeap::new(alloc, 8192) {
        Ok(heap) => takes_once(&heap, shape, most),
        Err(_) => false,
    }
}

// A flash of 1,024 pages in 64 blocks takes at most two bytes a page and eight a block, and no call
// takes more.
#[test]
fn memory(rt: HostRuntime) {
    let all = match Shape::new(512, 16, 64) {
        Ok(shape) => takes_once_of(rt.alloc(), shape, 2 * 1024 + 8 * 64),
        Err(_) => false,
    };
    assert!(rt; all);
}

// A value of two pages is seen in block 0, which is the only closed block, and then none.
fn is_one_value<A: Allocator>(live: &mut Live<A>, shape: &Shape) -> bool
    requires values { live.old ≡ no_values shape.now }
    requires shape { IsShape shape.now }
{
    let _ = shape;
    live.set(0, 2);
    live.close(0);
    let total = live.total();
    let count = live.count(0);
    let covered = live.is_live(1);
    let closed = live.closed();
    let least = live.least_closed().unwrap_or(64);
    live.clear(0, 2);
    live.forget(0);
    let is_head = live.is_head(0);
    let is_seen = (total, count, closed, least) == (2, 2, 1, 0);
    covered && is_seen && !is_head && live.closed() == 0
}
