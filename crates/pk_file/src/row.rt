//! Pages in memory that are not in the file yet, and how they get there.
ghost use Rattle.std.specs.Prelude.{◌≡◌, ◌≢◌, ◌⊎◌, ◌≤◌, ◌<◌, ◌+◌, ◌%◌, [], length, slice_index, true, false, IfOk};
ghost use Rattle.pk_base.specs.Shape as spec;
ghost use Rattle.pk_base.specs.declared.sizes.TheConstants.{MOST_BLOCK_PAGES};
ghost use Rattle.pk_file.specs.Slots.{AllFit, pages_of};
ghost use Rattle.pk_file.specs.Extents.{extents_of};
ghost use Rattle.pk_file.specs.Sectors.{InOneSector, sector_bytes};
ghost use Rattle.pk_image.specs.Image.{state_place};
ghost use Rattle.pk_file.specs.RowSteps.{BytesWritten, RowErased, RowGrew, RowProgrammed, RowWritten};

use crate::image_file::PageFile;
use crate::pages_to_file::{Cleared, erase_pages};
use crate::piece::Piece;
use crate::slot::Slot;
use pk_base::{MOST_BLOCK_PAGES, Shape};
use pk_image::{PageTag, state_at};
use std::alloc::{AllocError, Global};

/// State bytes that a disk writes whole or not at all.
const SECTOR_BYTES: u64 = 512;

/// When a page that was programmed is written to the file.
#[derive(Clone, Copy, Debug)]
pub enum PageWrites {
    /// With those that follow it: a failure is reported by a later call.
    Gathered,
    /// At once: a failure is reported by the program itself.
    Direct,
}

/// Pages that follow one another in a block, programmed in memory alone. Their places in the file
/// have zeros from the extents on.
#[derive(Drop)]
pub struct Row {
    pub first: u32,
    pub extents: Vec<usize>,
    piece: Piece,
    /// Whether what is written has to be on the disk.
    is_durable: bool,
    writes: PageWrites,
    /// A write of pages that waited failed: the pages in memory are ahead of the file from now on,
    /// and nothing more is written.
    is_lost: bool,
    ghost few: { length extents.items ≤ MOST_BLOCK_PAGES },
    ghost sector: { is_durable ≡ true → InOneSector first (length extents.items) },
}

impl Row {
    /// No pages, and no memory for some.
    pub fn new(alloc: Global, is_durable: bool, writes: PageWrites) -> Row
        ensures first { result.first ≡ 0 }
        ensures none { length result.extents.items ≡ 0 }
    {
        Row {
            first: 0,
            extents: Vec::new(alloc),
            piece: Piece::new(alloc),
            is_durable,
            writes,
            is_lost: false,
        }
    }

    /// No pages, with the memory for all that may wait: to add and write some takes none.
    pub fn for_shape(
        alloc: Global,
        shape: &Shape,
        is_durable: bool,
        writes: PageWrites,
    ) -> Result<Row, AllocError>
        ensures first { IfOk result (λ row. row.first ≡ 0) }
        ensures none { IfOk result (λ row. length row.extents.items ≡ 0) }
    {
        let most = match writes {
            PageWrites::Gathered => shape.block_pages(),
            PageWrites::Direct => 1,
        };
        let extents = Vec::with_capacity(alloc, most as usize)?;
        let piece = Piece::with_room(alloc, most as usize * shape.page_bytes() as usize)?;
        Ok(Row {
            first: 0,
            extents,
            piece,
            is_durable,
            writes,
            is_lost: false,
        })
    }

    /// Whether each page is written at once.
    pub fn is_direct(&self) -> bool
        ensures direct { self.now.writes ≡ PageWrites.Direct → result ≡ true }
        ensures gathered { self.now.writes ≡ PageWrites.Gathered → result ≡ false }
    {
        match self.writes {
            PageWrites::Direct => true,
            PageWrites::Gathered => false,
        }
    }

    /// Whether a write of pages that waited failed.
    pub fn is_lost(&self) -> bool
        ensures { result ≡ self.now.is_lost }
    {
        self.is_lost
    }

    /// From now on nothing more is written.
    pub fn lose(&mut self)
        ensures { self.new ≡ record self.old { is_lost = true } }
    {
        self.is_lost = true;
    }

    /// Whether no page waits.
    pub fn is_empty(&self) -> bool
        ensures { result ≡ true → self.now.extents.items ≡ [] }
    {
        self.extents.is_empty()
    }

    /// Whether a page may be the next of the row. If a loss of power may leave some of its state
    /// bytes, they are within a sector.
    fn takes(&self, shape: &Shape, page: u32) -> bool
        requires { page < spec.page_count shape.now }
        ensures next { result ≡ true
            → page ≡ self.now.first + length self.now.extents.items }
        ensures room { result ≡ true → length self.now.extents.items < MOST_BLOCK_PAGES }
        ensures sector { result ≡ true → self.now.is_durable ≡ true
            → state_place page % sector_bytes ≢ 0 }
        ensures some { result ≡ true → 0 < length self.now.extents.items }
    {
        let count = self.extents.len();
        count > 0
            && count < MOST_BLOCK_PAGES as usize
            && page as usize == self.first as usize + count
            && page % shape.block_pages() != 0
            && !(self.is_durable && state_at(shape, page) % SECTOR_BYTES == 0)
    }

    #[tactic(auto, using(crate::proofs::Sectoring::sector_more, crate::proofs::Sectoring::sector_one))]
    /// Adds a page, at whose place the file has zeros from the extent on. A row that it does not
    /// belong to is written before.
    pub fn add<F: PageFile>(
        &mut self,
        file: &mut F,
        shape: &Shape,
        slots: &Vec<Slot>,
        page: u32,
    ) -> bool
        // The page, the pages and the row.
        requires exists { page < length slots.now.items }
        requires count { length slots.now.items ≡ spec.page_count shape.now }
        requires fit { AllFit shape.now slots.now.items }
        requires row { self.old.first + length self.old.extents.items ≤ length slots.now.items }

        // The row.
        ensures row { self.new.first + length self.new.extents.items ≤ length slots.now.items }
        ensures writes { self.new.writes ≡ self.old.writes }

        // If the page is added, and if the row was lost before.
        ensures added { result ≡ true → RowGrew shape.now.page_bytes (pages_of slots.now.items)
            self.old.first self.old.extents.items self.new.first self.new.extents.items
            page (slice_index (extents_of slots.now.items) page)
            (F.steps file.old) (F.steps file.new) }
        ensures lost { self.old.is_lost ≡ true → (result ≡ false) × (self.new.is_lost ≡ true)
            × (F.steps file.new ≡ F.steps file.old) }
    {
        if self.is_lost {
            return false;
        }
        if !self.takes(shape, page) {
            if !self.write(file, shape, slots) {
                return false;
            }
            self.first = page;
        }
        let extent = slots[page as usize].extent();
        self.extents.push(extent).is_ok()
    }

    /// Writes the pages to the file. The first of them counts as Torn until their bytes are
    /// written, and on the disk if they have to be, and the others as Erased; then all of them
    /// become Whole, in their order.
    pub fn write<F: PageFile>(&mut self, file: &mut F, shape: &Shape, slots: &Vec<Slot>) -> bool
        requires count { length slots.now.items ≡ spec.page_count shape.now }
        requires fit { AllFit shape.now slots.now.items }
        requires row { self.old.first + length self.old.extents.items ≤ length slots.now.items }
        ensures first { self.new.first ≡ self.old.first }
        ensures none { self.new.extents.items ≡ [] }
        ensures written { result ≡ true → RowWritten shape.now.page_bytes
            (pages_of slots.now.items) self.old.first self.old.extents.items
            (F.steps file.old) (F.steps file.new) }

        // Nothing is written after a failure, if pages wait.
        ensures lost { self.old.is_lost ≡ true → (result ≡ false) × (self.new.is_lost ≡ true)
            × (F.steps file.new ≡ F.steps file.old) }
        ensures stops { result ≡ false → self.old.writes ≡ PageWrites.Gathered
            → self.new.is_lost ≡ true }
        ensures kept { result ≡ true → self.new.is_lost ≡ false }
        ensures writes { self.new.writes ≡ self.old.writes }
    {
        if self.is_lost {
            self.extents.clear();
            return false;
        }
        if self.extents.is_empty() {
            return true;
        }
        let is_done = write_row(
            file,
            shape,
            slots,
            self.first,
            &self.extents,
            &mut self.piece,
        );
        self.extents.clear();
        if is_done {
            return true;
        }
        self.is_lost = !self.is_direct();
        false
    }

    /// Sets the state bytes of pages to Erased, after the row was written.
    pub fn erase<F: PageFile>(
        &mut self,
        file: &mut F,
        shape: &Shape,
        slots: &Vec<Slot>,
        first: u32,
        count: u32,
    ) -> Cleared
        // The block, the pages and the row.
        requires small { count ≤ MOST_BLOCK_PAGES }
        requires exists { first < spec.page_count shape.now }
        requires count { length slots.now.items ≡ spec.page_count shape.now }
        requires fit { AllFit shape.now slots.now.items }
        requires row { self.old.first + length self.old.extents.items ≤ length slots.now.items }

        // The row.
        ensures row { self.new.first + length self.new.extents.items ≤ length slots.now.items }

        // How many of its pages are erased.
        ensures most { result.count ≤ count }
        ensures all { result.is_done ≡ true → result.count ≡ count }

        // If all are, and if the row was lost before.
        ensures done { result.is_done ≡ true → RowErased shape.now.page_bytes
            (pages_of slots.now.items) self.old.first self.old.extents.items first count
            (F.steps file.old) (F.steps file.new) }
        ensures lost { self.old.is_lost ≡ true → (result.count ≡ 0) × (self.new.is_lost ≡ true)
            × (F.steps file.new ≡ F.steps file.old) }
    {
        let is_written = self.write(file, shape, slots);
        if !is_written {
            return Cleared {
                count: 0,
                is_done: false,
            };
        }
        erase_pages(file, shape, first, count)
    }
}

/// How many bytes of a page have to be written, if it ends in zeros after its front, and its place
/// in the file from the extent on.
fn needed(front: usize, extent: usize, size: usize) -> usize
    ensures front { front ≤ result }
    ensures extent { (extent ≤ result) ⊎ (size ≤ result) }
    ensures most { front ≤ size → result ≤ size }
{
    front.max(extent.min(size))
}

/// Writes the bytes of pages.
fn write_bytes<F: PageFile>(
    file: &mut F,
    shape: &Shape,
    slots: &Vec<Slot>,
    first: u32,
    extents: &Vec<usize>,
    piece: &mut Piece,
) -> bool
    requires count { length slots.now.items ≡ spec.page_count shape.now }
    requires fit { AllFit shape.now slots.now.items }
    requires row { first + length extents.now.items ≤ length slots.now.items }
    requires few { length extents.now.items ≤ MOST_BLOCK_PAGES }
    ensures { result ≡ true → BytesWritten shape.now.page_bytes (pages_of slots.now.items)
        first extents.now.items (F.steps file.old) (F.steps file.new) }
{
    let size = shape.page_bytes() as usize;
    // so that the numbers of the pages are known to be of 32 bits
    let _count = shape.page_count();
    piece.clear();
    for i in 0..extents.len() {
        let page = first + i as u32;
        let Slot::Whole(kept) = &slots[page as usize] else {
            return false;
        };
        let front = kept.front.as_slice();
        let need = needed(front.len(), extents[i], size);
        if need > size || !piece.add(file, shape, page, front, need) {
            return false;
        }
    }
    piece.write(file, shape)
}

/// Writes pages: first their bytes, then their states.
fn write_row<F: PageFile>(
    file: &mut F,
    shape: &Shape,
    slots: &Vec<Slot>,
    first: u32,
    extents: &Vec<usize>,
    piece: &mut Piece,
) -> bool
    requires count { length slots.now.items ≡ spec.page_count shape.now }
    requires fit { AllFit shape.now slots.now.items }
    requires row { first + length extents.now.items ≤ length slots.now.items }
    requires few { length extents.now.items ≤ MOST_BLOCK_PAGES }
    requires some { 0 < length extents.now.items }
    ensures { result ≡ true → RowProgrammed shape.now.page_bytes (pages_of slots.now.items)
        first extents.now.items (F.steps file.old) (F.steps file.new) }
{
    if file.begin().is_err() {
        return false;
    }
    let Ok(()) = file.set_states(shape, first, 1, PageTag::Torn) else {
        return false;
    };
    if !write_bytes(file, shape, slots, first, extents, piece) {
        return false;
    }
    let Ok(()) = file.sync() else {
        return false;
    };
    let count = extents.len() as u32;
    let Ok(()) = file.set_states(shape, first, count, PageTag::Whole) else {
        return false;
    };
    match file.sync() {
        Ok(()) => true,
        Err(_) => false,
    }
}
