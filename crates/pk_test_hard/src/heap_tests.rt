//! Sessions of drives in heaps, and openings that find no memory.

use crate::heaps::{Large, Small, TooSmall};
use linked_list_allocator::LocalHeap;
use pk_core::{Drive, OpenError};
use pk_flash::Flash;
use pk_test_scripts::exits::MEMORY;
use pk_test_scripts::{MAKE_WORKED, board, made, serve, worked};
use std::alloc::Global;
use std::test::*;

#[test]
fn full_drive(rt: HostRuntime) -> Result<(), Fail> {
    pk_test_scripts::space::full_drive::<Small>(rt.alloc())
}

#[test]
fn overwrites(rt: HostRuntime) -> Result<(), Fail> {
    pk_test_scripts::space::overwrites::<Small>(rt.alloc())
}

#[test]
fn many_keys(rt: HostRuntime) -> Result<(), Fail> {
    pk_test_stress::large::many_keys::<Large>(rt.alloc())
}

// The frames alone do not fit. Nothing is taken, posted or written.
#[test]
fn no_memory(rt: HostRuntime) -> Result<(), Fail> {
    let alloc = rt.alloc();
    let pages = made::<TooSmall>(alloc, &MAKE_WORKED)?;
    let mut flash = board(alloc, worked()?, pages, Vec::from_elem(alloc, 0u8, 64)?)?;
    assert_eq!(rt; serve::<TooSmall>(alloc, &mut flash), MEMORY);
    assert_eq!(rt; (flash.posted().len(), flash.marks()), (0, 0));
    Ok(())
}

// Opens the drive of a board in a heap of `bytes` bytes: how many of them are in use then.
fn opened_in(alloc: Global, flash: &mut Flash, bytes: usize) -> Result<Option<usize>, Fail> {
    let shape = flash.shape().ok_or("a shape")?;
    let heap = LocalHeap::new(alloc, bytes)?;
    let used = match Drive::open(&heap, flash, shape, 36) {
        Ok(_) => Some(heap.used()),
        Err(OpenError::Memory) => None,
        Err(_) => return Err("a drive, or no memory")?,
    };
    if heap.used() > 0 || flash.marks() > 0 {
        return Err("nothing kept, and nothing written")?;
    }
    Ok(used)
}

// Heaps larger by 16 bytes each, the least block that a heap allocates: so each allocation of an
// opening is the first that is refused in some of them. All answer that memory is missing, up to
// the first that has enough, and leave the heap empty and the flash unchanged.
#[test]
fn each_allocation_fails(rt: HostRuntime) -> Result<(), Fail> {
    let alloc = rt.alloc();
    let pages = made::<Small>(alloc, &MAKE_WORKED)?;
    let mut flash = board(alloc, worked()?, pages, Vec::new(alloc))?;
    let mut refused = 0usize;
    let mut most = 0usize;
    for i in 0..8192usize {
        match opened_in(alloc, &mut flash, 16 * i)? {
            Some(used) => most = used,
            None => {
                assert_eq!(rt; refused, i);
                refused = refused.saturating_add(1);
            }
        }
    }
    assert!(rt; 16 * refused.min(8192) >= most && most > 18_432);
    Ok(())
}
