//! What a checkpoint writes: the pages that the image may lack.
ghost use Rattle.std.specs.Prelude.{◌≡◌, ◌+◌, ◌-◌, ◌<◌, ◌≤◌, ℕ, List, length, take, drop, slice_index, get_or, true, false, OnOk, IsTrue};
ghost use Rattle.sqlite_disk.specs.Disk.{Torn};
ghost use Rattle.pk_base.specs.Shape as spec;
ghost use Rattle.pk_base.specs.Fields.{padded};
ghost use Rattle.pk_base.specs.Page.{page_at, whole};
ghost use Rattle.pk_base.specs.Mark.{Mark};
ghost use Rattle.pk_image.specs.declared.head.TheConstants.{HEADER_BYTES};
ghost use Rattle.pk_image.specs.Header.{file_size};
ghost use Rattle.pk_image.specs.Image.{page_in_file, state_byte, state_place, page_place};
ghost use Rattle.pk_redo.specs.Steps.{Sets};
ghost use Rattle.pk_redo.specs.Image.{SameButSet, AllSameBut, ZerosAfterExtents};

use crate::image::{Pages, put_page, put_states};
use crate::record::is_set;
use pk_base::{Shape, put_text, put_zeros};
use pk_image::PageTag;
use sqlite_disk::Disk;
use std::io;

/// Makes the first bytes of a page of its front and zeros.
fn fill(buffer: &mut [u8], front: &[u8], need: usize)
    requires front { length front.now ≤ need }
    requires need { need ≤ length buffer.old }
    ensures { take need buffer.new ≡ padded need front.now }
{
    put_text(buffer, 0, front);
    put_zeros(buffer, front.len(), need);
}

/// How many bytes of a page have to be written, if zeros follow its front, and its place in the
/// image from the extent on.
fn bytes_to_write(front: usize, extent: usize, size: usize) -> usize
    requires { front ≤ size }
    ensures front { front ≤ result }
    ensures extent { (k : ℕ) → result ≤ k → k < size → extent ≤ k }
    ensures most { result ≤ size }
{
    front.max(extent.min(size))
}

/// Writes the bytes of a Whole page: its front, and zeros as far as its place may differ from zero.
/// The extent of the place is never less than what a write that failed may have left.
fn put_front<D: Disk>(
    image: &mut D,
    shape: &Shape,
    page: u32,
    front: &[u8],
    extents: &mut Vec<usize>,
    buffer: &mut [u8],
) -> io::Result<()>
    // The image, the page and the buffers.
    requires usable { IsTrue (D.Disk.is_usable image.old) }
    requires exists { page < spec.page_count shape.now }
    requires short { length front.now ≤ shape.now.page_bytes }
    requires extents { length extents.old.items ≡ spec.page_count shape.now }
    requires buffer { length buffer.old ≡ shape.now.page_bytes }

    // What the image holds and may leave.
    ensures crash { (marks : List Mark) (base : List ℕ) → Sets shape.now marks page
        → AllSameBut D.Disk image.old shape.now marks base
        → AllSameBut D.Disk image.new shape.now marks base }
    ensures seen { (marks : List Mark) (base : List ℕ) → Sets shape.now marks page
        → SameButSet shape.now marks base (D.Disk.seen image.old)
        → SameButSet shape.now marks base (D.Disk.seen image.new) }
    ensures torn { Torn (page_place shape.now page) shape.now.page_bytes
        (D.Disk.seen image.old) (D.Disk.seen image.new) }

    // The bytes that are known to be zeros, and the page.
    ensures zeros { file_size shape.now ≤ length (D.Disk.seen image.old)
        → ZerosAfterExtents shape.now extents.old.items (D.Disk.seen image.old)
        → ZerosAfterExtents shape.now extents.new.items (D.Disk.seen image.new) }
    ensures own { OnOk result (file_size shape.now ≤ length (D.Disk.seen image.old)
        → ZerosAfterExtents shape.now extents.old.items (D.Disk.seen image.old)
        → take shape.now.page_bytes (drop (page_place shape.now page) (D.Disk.seen image.new))
        ≡ padded shape.now.page_bytes front.now) }

    // The image stays usable, and a wrong answer is not forgotten.
    ensures usable { IsTrue (D.Disk.is_usable image.new) }
    ensures clean { IsTrue (D.Disk.is_clean image.new) → IsTrue (D.Disk.is_clean image.old) }
    ensures len { length extents.new.items ≡ length extents.old.items }
{
    let need = bytes_to_write(front.len(), extents[page as usize], buffer.len());
    extents[page as usize] = need;
    fill(buffer, front, need);
    put_page(image, shape, page, &buffer[..need])?;
    extents[page as usize] = front.len();
    Ok(())
}

/// Writes the bytes of a page, if it is Whole; of another the image may have any.
fn put_bytes<D: Disk, P: Pages>(
    image: &mut D,
    shape: &Shape,
    pages: &P,
    page: u32,
    extents: &mut Vec<usize>,
    buffer: &mut [u8],
) -> io::Result<()>
    // The image, the page and the buffers.
    requires usable { IsTrue (D.Disk.is_usable image.old) }
    requires shape { P.shape_of pages.now ≡ shape.now }
    requires exists { page < spec.page_count shape.now }
    requires extents { length extents.old.items ≡ spec.page_count shape.now }
    requires buffer { length buffer.old ≡ shape.now.page_bytes }

    // What the image holds and may leave.
    ensures crash { (marks : List Mark) (base : List ℕ) → Sets shape.now marks page
        → AllSameBut D.Disk image.old shape.now marks base
        → AllSameBut D.Disk image.new shape.now marks base }
    ensures seen { (marks : List Mark) (base : List ℕ) → Sets shape.now marks page
        → SameButSet shape.now marks base (D.Disk.seen image.old)
        → SameButSet shape.now marks base (D.Disk.seen image.new) }
    ensures torn { Torn (page_place shape.now page) shape.now.page_bytes
        (D.Disk.seen image.old) (D.Disk.seen image.new) }

    // The bytes that are known to be zeros, and the page.
    ensures zeros { file_size shape.now ≤ length (D.Disk.seen image.old)
        → ZerosAfterExtents shape.now extents.old.items (D.Disk.seen image.old)
        → ZerosAfterExtents shape.now extents.new.items (D.Disk.seen image.new) }
    ensures own { OnOk result (file_size shape.now ≤ length (D.Disk.seen image.old)
        → ZerosAfterExtents shape.now extents.old.items (D.Disk.seen image.old)
        → (own : List ℕ) → page_at (P.flash_of pages.now) page ≡ whole own
        → take shape.now.page_bytes (drop (page_place shape.now page) (D.Disk.seen image.new))
        ≡ own) }

    // The image stays usable, and a wrong answer is not forgotten.
    ensures usable { IsTrue (D.Disk.is_usable image.new) }
    ensures clean { IsTrue (D.Disk.is_clean image.new) → IsTrue (D.Disk.is_clean image.old) }
    ensures len { length extents.new.items ≡ length extents.old.items }
{
    match pages.state(page) {
        PageTag::Whole => put_front(image, shape, page, pages.front(page), extents, buffer),
        PageTag::Erased => Ok(()),
        PageTag::Torn => Ok(()),
    }
}

/// Writes the bytes of the Whole pages that the image may lack.
fn put_all_bytes<D: Disk, P: Pages>(
    image: &mut D,
    shape: &Shape,
    pages: &P,
    lacks: &Vec<bool>,
    extents: &mut Vec<usize>,
    buffer: &mut [u8],
) -> io::Result<()>
    // The image, the pages that it lacks, and the buffers.
    requires usable { IsTrue (D.Disk.is_usable image.old) }
    requires shape { P.shape_of pages.now ≡ shape.now }
    requires lacks { length lacks.now.items ≡ spec.page_count shape.now }
    requires extents { length extents.old.items ≡ spec.page_count shape.now }
    requires buffer { length buffer.old ≡ shape.now.page_bytes }

    // What the image holds and may leave.
    ensures crash { (marks : List Mark) (base : List ℕ)
        → ((k : ℕ) → get_or lacks.now.items k false ≡ true → Sets shape.now marks k)
        → AllSameBut D.Disk image.old shape.now marks base
        → AllSameBut D.Disk image.new shape.now marks base }
    ensures seen { (marks : List Mark) (base : List ℕ)
        → ((k : ℕ) → get_or lacks.now.items k false ≡ true → Sets shape.now marks k)
        → SameButSet shape.now marks base (D.Disk.seen image.old)
        → SameButSet shape.now marks base (D.Disk.seen image.new) }

    // The bytes that are known to be zeros, and the pages.
    ensures zeros { file_size shape.now ≤ length (D.Disk.seen image.old)
        → ZerosAfterExtents shape.now extents.old.items (D.Disk.seen image.old)
        → ZerosAfterExtents shape.now extents.new.items (D.Disk.seen image.new) }
    ensures written { OnOk result (file_size shape.now ≤ length (D.Disk.seen image.old)
        → ZerosAfterExtents shape.now extents.old.items (D.Disk.seen image.old)
        → (k : ℕ) (own : List ℕ) → get_or lacks.now.items k false ≡ true
        → page_at (P.flash_of pages.now) k ≡ whole own
        → take shape.now.page_bytes (drop (page_place shape.now k) (D.Disk.seen image.new)) ≡ own) }

    // The image stays usable, and a wrong answer is not forgotten.
    ensures usable { IsTrue (D.Disk.is_usable image.new) }
    ensures clean { IsTrue (D.Disk.is_clean image.new) → IsTrue (D.Disk.is_clean image.old) }
    ensures len { length extents.new.items ≡ length extents.old.items }
    ensures buffer { length buffer.new ≡ length buffer.old }
{
    for page in 0..shape.page_count() {
        if is_set(lacks, page) {
            put_bytes(image, shape, pages, page, extents, buffer)?;
        }
    }
    Ok(())
}

/// The first page from this one on that the image may lack, or the count of all.
fn row_start(lacks: &Vec<bool>, from: usize) -> usize
    requires { from ≤ length lacks.now.items }
    ensures order { from ≤ result }
    ensures within { result ≤ length lacks.now.items }
    ensures none { (k : ℕ) → from ≤ k → k < result → get_or lacks.now.items k false ≡ false }
{
    for page in from..lacks.len() {
        if lacks[page] {
            return page;
        }
    }
    lacks.len()
}

/// The first page from this one on that the image has, or the count of all.
fn row_end(lacks: &Vec<bool>, first: usize) -> usize
    requires { first ≤ length lacks.now.items }
    ensures order { first ≤ result }
    ensures within { result ≤ length lacks.now.items }
    ensures lacking { (k : ℕ) → first ≤ k → k < result → get_or lacks.now.items k false ≡ true }
    ensures last { get_or lacks.now.items result false ≡ false }
{
    for page in first..lacks.len() {
        if !lacks[page] {
            return page;
        }
    }
    lacks.len()
}

/// Sets the state bytes of the pages from one up to another, of a table of those of all.
fn put_row<D: Disk>(
    image: &mut D,
    shape: &Shape,
    first: u32,
    end: usize,
    states: &[u8],
) -> io::Result<()>
    // The image and the pages.
    requires usable { IsTrue (D.Disk.is_usable image.old) }
    requires order { first ≤ end }
    requires within { end ≤ spec.page_count shape.now }
    requires states { length states.now ≡ spec.page_count shape.now }

    // What the image holds and may leave.
    ensures crash { (marks : List Mark) (base : List ℕ)
        → ((k : ℕ) → first ≤ k → k < end → Sets shape.now marks k)
        → AllSameBut D.Disk image.old shape.now marks base
        → AllSameBut D.Disk image.new shape.now marks base }
    ensures seen { (marks : List Mark) (base : List ℕ)
        → ((k : ℕ) → first ≤ k → k < end → Sets shape.now marks k)
        → SameButSet shape.now marks base (D.Disk.seen image.old)
        → SameButSet shape.now marks base (D.Disk.seen image.new) }
    ensures torn { Torn (state_place first) (end - first)
        (D.Disk.seen image.old) (D.Disk.seen image.new) }

    // The states that are written.
    ensures written { OnOk result ((k : ℕ) → first ≤ k → k < end
        → slice_index (D.Disk.seen image.new) (state_place k) ≡ slice_index states.now k) }

    // The image stays usable, and a wrong answer is not forgotten.
    ensures usable { IsTrue (D.Disk.is_usable image.new) }
    ensures clean { IsTrue (D.Disk.is_clean image.new) → IsTrue (D.Disk.is_clean image.old) }
{
    if first as usize == end {
        return Ok(());
    }
    put_states(image, shape, first, &states[first as usize..end])
}

/// Sets the state bytes of the pages that the image may lack, by one write those that follow one
/// another.
fn put_all_states<D: Disk>(
    image: &mut D,
    shape: &Shape,
    states: &[u8],
    lacks: &Vec<bool>,
) -> io::Result<()>
    // The image, and the pages that it lacks.
    requires usable { IsTrue (D.Disk.is_usable image.old) }
    requires states { length states.now ≡ spec.page_count shape.now }
    requires lacks { length lacks.now.items ≡ spec.page_count shape.now }

    // What the image holds and may leave.
    ensures crash { (marks : List Mark) (base : List ℕ)
        → ((k : ℕ) → get_or lacks.now.items k false ≡ true → Sets shape.now marks k)
        → AllSameBut D.Disk image.old shape.now marks base
        → AllSameBut D.Disk image.new shape.now marks base }
    ensures seen { (marks : List Mark) (base : List ℕ)
        → ((k : ℕ) → get_or lacks.now.items k false ≡ true → Sets shape.now marks k)
        → SameButSet shape.now marks base (D.Disk.seen image.old)
        → SameButSet shape.now marks base (D.Disk.seen image.new) }
    ensures torn { Torn HEADER_BYTES (spec.page_count shape.now)
        (D.Disk.seen image.old) (D.Disk.seen image.new) }

    // The states that are written.
    ensures written { OnOk result (file_size shape.now ≤ length (D.Disk.seen image.old)
        → (k : ℕ) → get_or lacks.now.items k false ≡ true
        → slice_index (D.Disk.seen image.new) (state_place k) ≡ slice_index states.now k) }

    // The image stays usable, and a wrong answer is not forgotten.
    ensures usable { IsTrue (D.Disk.is_usable image.new) }
    ensures clean { IsTrue (D.Disk.is_clean image.new) → IsTrue (D.Disk.is_clean image.old) }
{
    let count = shape.page_count() as usize;
    let mut at = 0;
    while at < count {
        let first = row_start(lacks, at);
        let end = row_end(lacks, first);
        put_row(image, shape, first as u32, end, states)?;
        at = end + 1;
    }
    Ok(())
}

/// Writes the states of all pages.
pub(crate) fn note_states<P: Pages>(states: &mut [u8], shape: &Shape, pages: &P)
    requires shape { P.shape_of pages.now ≡ shape.now }
    requires len { length states.old ≡ spec.page_count shape.now }
    ensures states { (k : ℕ) → k < length states.old
        → slice_index states.new k ≡ state_byte (page_at (P.flash_of pages.now) k) }
    ensures len { length states.new ≡ length states.old }
{
    for page in 0..shape.page_count() {
        states[page as usize] = pages.state(page).byte();
    }
}

/// Writes the pages that the image may lack. All of them count as Torn until the bytes of all are
/// written, for a reader of the image without its log. The extents say of each page how many bytes
/// at its place may differ from zero.
pub fn checkpoint<D: Disk, P: Pages>(
    image: &mut D,
    shape: &Shape,
    pages: &P,
    lacks: &Vec<bool>,
    extents: &mut Vec<usize>,
    states: &mut [u8],
    buffer: &mut [u8],
) -> io::Result<()>
    requires usable { IsTrue (D.Disk.is_usable image.old) }
    requires shape { P.shape_of pages.now ≡ shape.now }
    requires lacks { length lacks.now.items ≡ spec.page_count shape.now }
    requires extents { length extents.old.items ≡ spec.page_count shape.now }
    requires states { length states.old ≡ spec.page_count shape.now }
    requires buffer { length buffer.old ≡ shape.now.page_bytes }
    // If steps set these pages, the image differs as before at most in pages that steps set.
    ensures crash { (marks : List Mark) (base : List ℕ)
        → ((k : ℕ) → get_or lacks.now.items k false ≡ true → Sets shape.now marks k)
        → AllSameBut D.Disk image.old shape.now marks base
        → AllSameBut D.Disk image.new shape.now marks base }
    // The others are as they were.
    ensures others { (k : ℕ) → file_size shape.now ≤ length (D.Disk.seen image.old)
        → k < spec.page_count shape.now → get_or lacks.now.items k false ≡ false
        → page_in_file shape.now (D.Disk.seen image.new) k
        ≡ page_in_file shape.now (D.Disk.seen image.old) k }
    // If it had the others, it has all.
    ensures written { OnOk result (file_size shape.now ≤ length (D.Disk.seen image.old)
        → ZerosAfterExtents shape.now extents.old.items (D.Disk.seen image.old)
        → ((k : ℕ) → k < spec.page_count shape.now → get_or lacks.now.items k false ≡ false
        → page_in_file shape.now (D.Disk.seen image.old) k ≡ page_at (P.flash_of pages.now) k)
        → (k : ℕ) → k < spec.page_count shape.now
        → page_in_file shape.now (D.Disk.seen image.new) k ≡ page_at (P.flash_of pages.now) k) }
    // The extents say the same of the image as it is now.
    ensures zeros { file_size shape.now ≤ length (D.Disk.seen image.old)
        → ZerosAfterExtents shape.now extents.old.items (D.Disk.seen image.old)
        → ZerosAfterExtents shape.now extents.new.items (D.Disk.seen image.new) }
    ensures usable { IsTrue (D.Disk.is_usable image.new) }
    ensures clean { IsTrue (D.Disk.is_clean image.new) → IsTrue (D.Disk.is_clean image.old) }
    ensures extents_len { length extents.new.items ≡ length extents.old.items }
    ensures states_len { length states.new ≡ length states.old }
    ensures buffer { length buffer.new ≡ length buffer.old }
{
    states.fill(PageTag::Torn.byte());
    put_all_states(image, shape, states, lacks)?;
    put_all_bytes(image, shape, pages, lacks, extents, buffer)?;
    note_states(states, shape, pages);
    put_all_states(image, shape, states, lacks)
}
