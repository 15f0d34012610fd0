//! The pages of a board over a file, as slots in memory.
ghost use Rattle.std.specs.Prelude.{◌≡◌, ◌<◌, ◌≤◌, ◌+◌, ℕ, Err, Some, length, replicate, IfOk, slice_set, slice_index};
ghost use Rattle.pk_base.specs.Fields.{AreBytes};
ghost use Rattle.pk_base.specs.Shape as spec;
ghost use Rattle.pk_base.specs.Page.{page_at, erased};
ghost use Rattle.pk_nand.specs.Operations.{filled};
ghost use Rattle.pk_nand.specs.Seen.{answer};
ghost use Rattle.pk_nand.specs.declared.types.LoadFault.{LoadFault};
ghost use Rattle.pk_image.specs.declared.head.TheConstants.{HEADER_BYTES};
ghost use Rattle.pk_image.specs.declared.tag.TheConstants.{TORN};
ghost use Rattle.pk_image.specs.Image.{bad_state, byte_of};
ghost use Rattle.pk_file.specs.Slots.{byte_by, slot_page, pages_of, state_bytes, SlotFits, AllFit, ErasedRow};
ghost use Rattle.pk_file.specs.Extents.{extent_of, extents_of};

use crate::page_reader::PageReader;
use crate::slot::Slot;
use pk_base::Shape;
use pk_image::{ImageError, PageTag, state, state_at};
use pk_nand::{LoadFault, PageRead};
use std::alloc::{AllocError, Global};
use std::fs::File;

/// What is read are bytes.
pub fn known(bytes: &[u8])
    ensures { AreBytes bytes.now }
{
    let _ = bytes;
}

/// All pages of a shape, Erased, of a file that was just made: there are only zeros at their
/// places.
pub fn erased_slots(alloc: Global, shape: &Shape) -> Result<Vec<Slot>, AllocError>
    ensures pages { IfOk result
        (λ v. pages_of v.items ≡ replicate (spec.page_count shape.now) erased) }
    ensures count { IfOk result (λ v. length v.items ≡ spec.page_count shape.now) }
    ensures fit { IfOk result (λ v. AllFit shape.now v.items) }
{
    let count = shape.page_count();
    let mut slots = Vec::with_capacity(alloc, count as usize)?;
    for i in 0..count {
        let _ = i;
        slots.push(Slot::Erased { extent: 0 })?;
    }
    Ok(slots)
}

/// The state that the state byte of a page says.
fn state_by(shape: &Shape, byte: u8, page: u32) -> Result<PageTag, LoadFault>
    requires { page < spec.page_count shape.now }
    ensures ok { IfOk result (λ tag. byte_of tag ≡ byte) }
    ensures bad { (at : ℕ) → result ≡ Err (LoadFault.BadImage at)
        → (TORN < byte) × (at ≡ HEADER_BYTES + page) }
{
    match state(byte, state_at(shape, page)) {
        Ok(tag) => Ok(tag),
        Err(ImageError::Bad { at }) => Err(LoadFault::BadImage { at }),
    }
}

/// The page of this number in a file with these state bytes.
fn slot_in(
    alloc: Global,
    file: &File,
    reader: &mut PageReader,
    states: &[u8],
    page: u32,
) -> Result<Slot, LoadFault>
    requires count { length states.now ≡ spec.page_count reader.old.shape }
    requires exists { page < length states.now }
    ensures shape { reader.new.shape ≡ reader.old.shape }
    ensures state { IfOk result (λ slot. byte_by slot ≡ slice_index states.now page) }
    ensures fit { IfOk result (λ slot. SlotFits reader.old.shape slot) }
    ensures bad { (at : ℕ) → result ≡ Err (LoadFault.BadImage at)
        → (TORN < slice_index states.now page) × (at ≡ HEADER_BYTES + page) }
{
    let shape = reader.shape;
    // what an earlier run left at the place of a page that is not Whole is not known
    let extent = shape.page_bytes() as usize;
    match state_by(&shape, states[page as usize], page) {
        Ok(PageTag::Erased) => Ok(Slot::Erased { extent }),
        Ok(PageTag::Torn) => Ok(Slot::Torn { extent }),
        Ok(PageTag::Whole) => match reader.copy(alloc, file, states, page) {
            Ok(kept) => Ok(Slot::Whole(kept)),
            Err(fault) => Err(fault),
        },
        Err(fault) => Err(fault),
    }
}

/// The pages of a file with these state bytes, or the first byte that is no state.
pub fn slots_of(
    alloc: Global,
    file: &File,
    reader: &mut PageReader,
    states: &[u8],
) -> Result<Vec<Slot>, LoadFault>
    requires { length states.now ≡ spec.page_count reader.old.shape }
    ensures states { IfOk result (λ v. state_bytes v.items ≡ states.now) }
    ensures fit { IfOk result (λ v. AllFit reader.old.shape v.items) }
    ensures bad { (at : ℕ) → result ≡ Err (LoadFault.BadImage at)
        → bad_state HEADER_BYTES states.now ≡ Some at }
{
    let Ok(mut slots) = Vec::with_capacity(alloc, states.len()) else {
        return Err(LoadFault::Memory);
    };
    for i in 0..reader.shape.page_count() {
        match slot_in(alloc, file, reader, states, i) {
            Ok(slot) => match slots.push(slot) {
                Ok(()) => {}
                Err(_) => return Err(LoadFault::Memory),
            },
            Err(fault) => return Err(fault),
        }
    }
    Ok(slots)
}

/// Reads a page. A whole one fills `into`, another leaves it.
pub fn read_slot(slots: &Vec<Slot>, page: usize, into: &mut [u8]) -> PageRead
    requires exists { page < length slots.now.items }
    requires full { (shape : spec.Shape) × (length into.old ≡ shape.page_bytes)
        × AllFit shape slots.now.items }
    ensures found { result ≡ answer (page_at (pages_of slots.now.items) page) }
    ensures bytes { into.new ≡ filled (page_at (pages_of slots.now.items) page) into.old }
{
    match &slots[page] {
        Slot::Erased { .. } => PageRead::Erased,
        Slot::Whole(kept) => {
            kept.fill(into);
            PageRead::Whole
        }
        Slot::Torn { .. } => PageRead::Torn,
    }
}

/// The page becomes this one; the bytes that it had are freed.
pub fn set_slot(slots: &mut Vec<Slot>, page: usize, slot: Slot)
    requires { page < length slots.old.items }
    ensures pages { pages_of slots.new.items
        ≡ slice_set (pages_of slots.old.items) page (slot_page slot) }
    ensures extents { extents_of slots.new.items
        ≡ slice_set (extents_of slots.old.items) page (extent_of slot) }
    ensures count { length slots.new.items ≡ length slots.old.items }
    ensures fit { (shape : spec.Shape) → AllFit shape slots.old.items → SlotFits shape slot
        → AllFit shape slots.new.items }
{
    slots[page] = slot;
}

/// The next `count` pages from this one on become Erased. What the file has at their places is
/// unchanged.
pub fn erase_slots(slots: &mut Vec<Slot>, first: usize, count: usize)
    requires { first + count ≤ length slots.old.items }
    ensures pages { ErasedRow first count (pages_of slots.old.items) (pages_of slots.new.items) }
    ensures extents { extents_of slots.new.items ≡ extents_of slots.old.items }
    ensures count { length slots.new.items ≡ length slots.old.items }
    ensures fit { (shape : spec.Shape) → AllFit shape slots.old.items
        → AllFit shape slots.new.items }
{
    for i in 0..count {
        let slot = slots[first + i].erased();
        set_slot(slots, first + i, slot);
    }
}
