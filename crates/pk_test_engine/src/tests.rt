//! Each allocation of each part refused in turn.

use crate::parts::{Part, made_in};
use linked_list_allocator::LocalHeap;
use pk_base::Shape;
use std::alloc::{AllocError, Global};
use std::test::*;

// Makes the part in heaps larger by 16 bytes each, the least block that a heap allocates: so each
// of its allocations is the first that is refused in some of them. All that is taken is freed.
// True if in the first heap that has enough nothing is taken once the part is made.
fn takes_once(alloc: Global, shape: Shape, part: Part) -> Result<bool, AllocError> {
    for i in 0..4096usize {
        let heap = LocalHeap::new(alloc, 16 * i)?;
        let made = made_in(&heap, shape, part);
        if heap.used() > 0 {
            return Ok(false);
        }
        if let Ok(used) = made {
            return Ok(used[0] > 0 && used[0] == used[1]);
        }
    }
    Ok(false)
}

#[test]
fn each_allocation_fails(rt: HostRuntime) -> Result<(), Fail> {
    let shape = Shape::new(512, 16, 64).ok().ok_or("a shape")?;
    for (name, part) in [
        ("pool", Part::Pool),
        ("levels", Part::Levels),
        ("walk", Part::Walk),
        ("merge", Part::Merge),
        ("reclaim", Part::Reclaim),
        ("log", Part::Log),
    ] {
        assert!(rt; takes_once(rt.alloc(), shape, part)?, "the {name}");
    }
    Ok(())
}
