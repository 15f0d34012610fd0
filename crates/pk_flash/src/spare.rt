//! Buffers of a page each, which are taken with the room.
ghost use Rattle.std.specs.Prelude.{◌≡◌, ◌<◌, ◌+◌, ℕ, length, IfOk};
ghost use Rattle.pk_flash.specs.Spare.{AreSpare};

use pk_nand::PageBytes;
use std::alloc::{AllocError, Global};

/// Two empty buffers with room for a page for each of `marks` marks.
pub fn spare_buffers(
    alloc: Global,
    marks: usize,
    page_bytes: usize,
) -> Result<Vec<Vec<u8>>, AllocError>
    ensures count { IfOk result (λ v. length v.items ≡ marks + marks) }
    ensures spare { IfOk result (λ v. AreSpare page_bytes v.items) }
{
    if marks > usize::MAX / 2 {
        return Err(AllocError);
    }
    let count = marks + marks;
    let mut spare = Vec::with_capacity(alloc, count)?;
    for i in 0..count {
        let _ = i;
        spare.push_reserved(Vec::with_capacity(alloc, page_bytes)?);
    }
    Ok(spare)
}

/// A copy in one of the spare buffers.
pub fn copy_into_spare(spare: &mut Vec<Vec<u8>>, bytes: &[u8]) -> PageBytes
    requires some { 0 < length spare.old.items }
    requires room { AreSpare (length bytes.now) spare.old.items }
    ensures bytes { result ≡ bytes.now }
    ensures count { length spare.new.items + 1 ≡ length spare.old.items }
    ensures rest { (room : ℕ) → AreSpare room spare.old.items → AreSpare room spare.new.items }
{
    match spare.pop() {
        Some(mut buffer) => {
            match buffer.extend_from_slice(bytes) {
                Ok(()) => {}
                Err(_) => unreachable!(),
            }
            PageBytes::of(buffer)
        }
        None => unreachable!(),
    }
}
