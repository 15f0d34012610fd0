//! A queue that is filled and emptied.

use pk_base::Shape;
use pk_queue::Queue;
use std::alloc::Global;
use std::test::*;

// Holds heads until there is no room: how many.
fn filled(queue: &mut Queue) -> u8 {
    for i in 0..20u8 {
        if !queue.has_room() {
            return i;
        }
        queue.hold([i; 24]);
    }
    20
}

// There are 15 heads, in the order in which they came.
fn is_in_order(held: &[[u8; 24]]) -> bool {
    held.len() == 15 && held.first() == Some(&[0u8; 24]) && held.last() == Some(&[14u8; 24])
}

// A queue has room for 15 heads, in order, and again when it is cleared.
fn fills_and_clears(alloc: Global, shape: Shape) -> bool {
    match Queue::new(alloc, shape) {
        Ok(mut queue) => {
            let is_filled = filled(&mut queue) == 15 && is_in_order(queue.held());
            queue.clear();
            is_filled && queue.held().is_empty() && queue.has_room()
        }
        Err(_) => false,
    }
}

#[test]
fn holds_in_order(rt: HostRuntime) {
    let all = match Shape::new(512, 16, 64) {
        Ok(shape) => fills_and_clears(rt.alloc(), shape),
        Err(_) => false,
    };
    assert!(rt; all);
}
