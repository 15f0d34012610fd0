//! The image beside its log: what a barrier promises of both, writes to the image, and the end of a checkpoint.
ghost use Rattle.std.specs.Prelude.{◌≡◌, ◌⊎◌, ◌+◌, ◌^◌, ◌<◌, ◌≤◌, ℕ, List, [], ◌∷◌, ◌++◌, length, slice_index, get_or, drop, true, false, OnOk, IsTrue};
ghost use Rattle.sqlite_disk.specs.Disk.{Holds, Torn, Only};
ghost use Rattle.pk_base.specs.Shape as spec;
ghost use Rattle.pk_base.specs.Fields.{padded};
ghost use Rattle.pk_base.specs.Page.{Flash, page_at, whole};
ghost use Rattle.pk_base.specs.Mark.{Mark};
ghost use Rattle.pk_image.specs.Header.{file_size};
ghost use Rattle.pk_image.specs.Image.{byte_of, page_by, page_in_file, state_byte, state_place, page_place};
ghost use Rattle.pk_redo.specs.Log.{IsSealed, AllStand};
ghost use Rattle.pk_redo.specs.Steps.{BodySays, Sets};
ghost use Rattle.pk_redo.specs.Image.{SameButSet, AllSameBut, BelongTo, LogSays, LogStands, ReadAs, BothRead, flash_after};

use crate::batch::{BATCH_HEAD, FIRST_BATCH};
use crate::log::{commit, reset, shut};
use pk_base::Shape;
use pk_image::{PageTag, page_at, state_at};
use sqlite_disk::Disk;
use std::io;

/// Makes the steps of a sealed batch durable: they get to the log, and the image does not change.
pub fn barrier<D: Disk>(
    log: &mut D,
    image: &D,
    shape: &Shape,
    end: usize,
    room: usize,
    batch: &[u8],
) -> io::Result<()>
    requires usable { IsTrue (D.Disk.is_usable log.old) }
    requires sealed { IsSealed batch.now }
    requires fits { end + length batch.now < room }
    requires room { room < 2 ^ 63 }
    // Whatever a crash leaves of both files, they are read as the pages before these steps, or as
    // those after all of them.
    ensures crash { (base : List ℕ) (marks now : List Mark)
        → LogSays D.Disk log.old shape.now base marks end room
        → AllSameBut D.Disk image.now shape.now marks base
        → BodySays shape.now (drop BATCH_HEAD batch.now) now
        → (l i : List ℕ) → D.Disk.may_leave log.new l → D.Disk.may_leave image.now i
        → ReadAs shape.now l i (flash_after shape.now marks base)
        ⊎ ReadAs shape.now l i (flash_after shape.now (marks ++ now) base) }
    // Once it returned success, as those after them, and the log is ready for more.
    ensures done { OnOk result ((base : List ℕ) (marks now : List Mark)
        → LogSays D.Disk log.old shape.now base marks end room
        → AllSameBut D.Disk image.now shape.now marks base
        → BodySays shape.now (drop BATCH_HEAD batch.now) now
        → LogSays D.Disk log.new shape.now base (marks ++ now) (end + length batch.now) room
        × AllSameBut D.Disk image.now shape.now (marks ++ now) base
        × BothRead D.Disk log.new image.now shape.now
        (flash_after shape.now (marks ++ now) base)) }
    ensures usable { OnOk result (IsTrue (D.Disk.is_usable log.new)) }
    ensures clean { IsTrue (D.Disk.is_clean log.new) → IsTrue (D.Disk.is_clean log.old) }
{
    let _ = image;
    let _ = shape;
    commit(log, end, room, batch)
}

/// Sets the state bytes of pages that stand in a row.
pub fn put_states<D: Disk>(
    image: &mut D,
    shape: &Shape,
    first: u32,
    states: &[u8],
) -> io::Result<()>
    requires usable { IsTrue (D.Disk.is_usable image.old) }
    requires exists { first < spec.page_count shape.now }
    requires row { first + length states.now ≤ spec.page_count shape.now }
    // If steps set these pages, the image differs as before at most in pages that steps set.
    ensures crash { (marks : List Mark) (base : List ℕ)
        → ((k : ℕ) → first ≤ k → k < first + length states.now → Sets shape.now marks k)
        → AllSameBut D.Disk image.old shape.now marks base
        → AllSameBut D.Disk image.new shape.now marks base }
    ensures seen { (marks : List Mark) (base : List ℕ)
        → ((k : ℕ) → first ≤ k → k < first + length states.now → Sets shape.now marks k)
        → SameButSet shape.now marks base (D.Disk.seen image.old)
        → SameButSet shape.now marks base (D.Disk.seen image.new) }
    ensures written { OnOk result (0 < length states.now
        → Holds (D.Disk.seen image.new) (state_place first) states.now) }
    ensures torn { Torn (state_place first) (length states.now)
        (D.Disk.seen image.old) (D.Disk.seen image.new) }
    ensures usable { IsTrue (D.Disk.is_usable image.new) }
    ensures clean { IsTrue (D.Disk.is_clean image.new) → IsTrue (D.Disk.is_clean image.old) }
{
    image.write_at(state_at(shape, first) as usize, states)
}

/// Writes the first bytes of a page.
pub fn put_page<D: Disk>(image: &mut D, shape: &Shape, page: u32, front: &[u8]) -> io::Result<()>
    // The image and the page.
    requires usable { IsTrue (D.Disk.is_usable image.old) }
    requires exists { page < spec.page_count shape.now }
    requires short { length front.now ≤ shape.now.page_bytes }

    // What the image holds and may leave.
    ensures crash { (marks : List Mark) (base : List ℕ) → Sets shape.now marks page
        → AllSameBut D.Disk image.old shape.now marks base
        → AllSameBut D.Disk image.new shape.now marks base }
    ensures seen { (marks : List Mark) (base : List ℕ) → Sets shape.now marks page
        → SameButSet shape.now marks base (D.Disk.seen image.old)
        → SameButSet shape.now marks base (D.Disk.seen image.new) }

    // The bytes that are written.
    ensures written { OnOk result (0 < length front.now
        → Holds (D.Disk.seen image.new) (page_place shape.now page) front.now) }
    ensures torn { Torn (page_place shape.now page) (length front.now)
        (D.Disk.seen image.old) (D.Disk.seen image.new) }

    // The image stays usable, and a wrong answer is not forgotten.
    ensures usable { IsTrue (D.Disk.is_usable image.new) }
    ensures clean { IsTrue (D.Disk.is_clean image.new) → IsTrue (D.Disk.is_clean image.old) }
{
    image.write_at(page_at(shape, page) as usize, front)
}

/// The pages in memory.
pub trait Pages {
    ghost shape_of: { Self → spec.Shape };

    ghost flash_of: { Self → Flash };

    /// The state of a page.
    fn state(&self, page: u32) -> PageTag
        requires { page < spec.page_count (shape_of self.now) }
        ensures { byte_of result ≡ state_byte (page_at (flash_of self.now) page) };

    /// The bytes of a page, if it is Whole, up to the last that is not 0: zeros follow them.
    fn front(&self, page: u32) -> &[u8]
        requires { page < spec.page_count (shape_of self.now) }
        ensures short { length result.now ≤ (shape_of self.now).page_bytes }
        ensures page { (own : List ℕ) → page_at (flash_of self.now) page ≡ whole own
            → own ≡ padded (shape_of self.now).page_bytes result.now };
}

/// Ends a checkpoint: once the image is synced, the log is emptied, and begins with the record of
/// the image as it is now.
pub fn finish<D: Disk>(
    log: &mut D,
    image: &mut D,
    shape: &Shape,
    first: &[u8],
    blank: &[u8],
) -> io::Result<()>
    requires log_usable { IsTrue (D.Disk.is_usable log.old) }
    requires image_usable { IsTrue (D.Disk.is_usable image.old) }
    requires sealed { IsSealed first.now }
    requires room { FIRST_BATCH + length first.now + length blank.now < 2 ^ 63 }
    requires blank { (i : ℕ) → i < length blank.now → slice_index blank.now i ≡ 0 }
    requires long { 0 < length blank.now }
    // Whatever a crash leaves of both files, they are read as the pages after the steps of the log,
    // if the checkpoint wrote these pages.
    ensures crash { IsTrue (D.Disk.is_clean log.new) → (base : List ℕ) (marks : List Mark)
        → LogStands D.Disk log.old shape.now base marks
        → AllSameBut D.Disk image.old shape.now marks base
        → ((k : ℕ) → k < spec.page_count shape.now
        → page_in_file shape.now (D.Disk.seen image.old) k
        ≡ page_at (flash_after shape.now marks base) k)
        → BelongTo shape.now (drop BATCH_HEAD first.now ∷ []) [] (D.Disk.seen image.old)
        → BothRead D.Disk log.new image.new shape.now (flash_after shape.now marks base) }
    // The image alone holds them then, and the log is ready for more steps.
    ensures done { OnOk result (IsTrue (D.Disk.is_clean log.new)
        → BelongTo shape.now (drop BATCH_HEAD first.now ∷ []) [] (D.Disk.seen image.old)
        → LogSays D.Disk log.new shape.now (D.Disk.seen image.old) []
        (FIRST_BATCH + length first.now) (FIRST_BATCH + length first.now + length blank.now)
        × Only (D.Disk.seen image.old) (D.Disk.may_leave image.new)) }
    ensures seen { D.Disk.seen image.new ≡ D.Disk.seen image.old }
    ensures usable { OnOk result
        (IsTrue (D.Disk.is_usable log.new) × IsTrue (D.Disk.is_usable image.new)) }
    ensures clean { IsTrue (D.Disk.is_clean log.new) → IsTrue (D.Disk.is_clean log.old) }
    ensures image_clean { IsTrue (D.Disk.is_clean image.new)
        → IsTrue (D.Disk.is_clean image.old) }
{
    let _ = shape;
    image.sync()?; // before the log has no batch any more
    reset(log, first, blank)
}

/// The same at the end of a run: the log is shut, so that the image alone is the drive, and the log
/// may be removed.
pub fn close<D: Disk>(log: &mut D, image: &mut D, shape: &Shape) -> io::Result<()>
    // Both files.
    requires log_usable { IsTrue (D.Disk.is_usable log.old) }
    requires image_usable { IsTrue (D.Disk.is_usable image.old) }

    // What they hold together after a crash, and when the log is empty.
    ensures crash { IsTrue (D.Disk.is_clean log.new) → (base : List ℕ) (marks : List Mark)
        → LogStands D.Disk log.old shape.now base marks
        → AllSameBut D.Disk image.old shape.now marks base
        → ((k : ℕ) → k < spec.page_count shape.now
        → page_in_file shape.now (D.Disk.seen image.old) k
        ≡ page_at (flash_after shape.now marks base) k)
        → BothRead D.Disk log.new image.new shape.now (flash_after shape.now marks base) }
    ensures done { OnOk result (IsTrue (D.Disk.is_clean log.new)
        → AllStand D.Disk log.new [] × Only (D.Disk.seen image.old) (D.Disk.may_leave image.new)) }

    // The image stays as it is seen, and wrong answers are not forgotten.
    ensures seen { D.Disk.seen image.new ≡ D.Disk.seen image.old }
    ensures clean { IsTrue (D.Disk.is_clean log.new) → IsTrue (D.Disk.is_clean log.old) }
    ensures image_clean { IsTrue (D.Disk.is_clean image.new)
        → IsTrue (D.Disk.is_clean image.old) }
{
    let _ = shape;
    image.sync()?;
    shut(log)
}
