//! Drives that are full, and values that are overwritten on them.

use pk_test_scripts::Program;
use std::alloc::Global;
use std::test::*;

/// The drive is full with 246 values of two pages each. One more key has no room; an overwrite of two pages has, one of four pages has
/// not, and leaves the old value; and after a Delete the key has room.
pub fn full_drive<P: Program>(alloc: Global) -> Result<(), Fail> {
    pk_test_scripts::space::full_drive::<P>(alloc)
}

/// The full drive takes 2,000 overwrites, and each key has its last value.
pub fn overwrites<P: Program>(alloc: Global) -> Result<(), Fail> {
    pk_test_scripts::space::overwrites::<P>(alloc)
}
