//! The pages of an image whose bytes are in memory.
ghost use Rattle.std.specs.Prelude.{◌≡◌, ◌<◌, ◌≤◌, length, take, drop, IfOk};
ghost use Rattle.pk_base.specs.Shape as spec;
ghost use Rattle.pk_image.specs.Header.{file_size};
ghost use Rattle.pk_image.specs.Image.{page_in_file, page_place, flash_in_file};
ghost use Rattle.pk_file.specs.Slots.{slot_page, pages_of, SlotFits, AllFit};

use pk_base::Shape;
use pk_file::{Slot, copied};
use pk_image::{PageTag, page_at, state_at};
use pk_nand::LoadFault;
use std::alloc::Global;

/// The bytes at the place of a page.
fn bytes_of_page<'f>(shape: &Shape, file: &'f [u8], page: u32) -> &'f [u8]
    requires fits { file_size shape.now ≤ length file.now }
    requires exists { page < spec.page_count shape.now }
    ensures value { result.now ≡ take shape.now.page_bytes
        (drop (page_place shape.now page) file.now) }
    ensures len { length result.now ≡ shape.now.page_bytes }
{
    let at = page_at(shape, page) as usize;
    &file[at..at + shape.page_bytes() as usize]
}

/// The page of this number. One whose state byte is neither that of an Erased page nor that of a
/// Whole one counts as Torn, as for every reader of an image beside its log.
fn slot_at(alloc: Global, shape: &Shape, file: &[u8], page: u32) -> Result<Slot, LoadFault>
    requires fits { file_size shape.now ≤ length file.now }
    requires exists { page < spec.page_count shape.now }
    ensures page { IfOk result (λ slot. slot_page slot ≡ page_in_file shape.now file.now page) }
    ensures fit { IfOk result (λ slot. SlotFits shape.now slot) }
{
    let extent = shape.page_bytes() as usize;
    let byte = file[state_at(shape, page) as usize];
    if byte == PageTag::Erased.byte() {
        return Ok(Slot::Erased { extent });
    }
    if byte != PageTag::Whole.byte() {
        return Ok(Slot::Torn { extent });
    }
    match copied(alloc, shape, bytes_of_page(shape, file, page)) {
        Ok(kept) => Ok(Slot::Whole(kept)),
        Err(fault) => Err(fault),
    }
}

/// All pages of an image.
pub fn slots_in(alloc: Global, shape: &Shape, file: &[u8]) -> Result<Vec<Slot>, LoadFault>
    requires { file_size shape.now ≤ length file.now }
    ensures pages { IfOk result (λ v. pages_of v.items ≡ flash_in_file shape.now file.now) }
    ensures count { IfOk result (λ v. length v.items ≡ spec.page_count shape.now) }
    ensures fit { IfOk result (λ v. AllFit shape.now v.items) }
{
    let count = shape.page_count();
    let Ok(mut slots) = Vec::with_capacity(alloc, count as usize) else {
        return Err(LoadFault::Memory);
    };
    for page in 0..count {
        match slot_at(alloc, shape, file, page) {
            Ok(slot) => match slots.push(slot) {
                Ok(()) => {}
                Err(_) => return Err(LoadFault::Memory),
            },
            Err(fault) => return Err(fault),
        }
    }
    Ok(slots)
}
