//! A session of the program over an image and its log.
ghost use Rattle.std.specs.Prelude.{◌≡◌, ℕ, List, [], map, IsTrue};
ghost use Rattle.pk_law_durable.specs.DurableRuns.{IsDurableRun};

use pk_durable::{DurableBoard, DurableFlash};
use pk_top::{Status, run};
use sqlite_disk::Disk;
use std::alloc::Global;

/// Does what the words ask for, with this input, over an image and its log that were opened, and sends what was posted. If neither disk has
/// taken a wrong answer, this is a run from the bytes of both disks: whatever a crash leaves of them after it is read as the pages at a cut
/// of its marks that has all of those before what was sent.
pub fn session<D: Disk>(
    alloc: Global,
    words: &[&str],
    input: Vec<u8>,
    flash: DurableFlash<D>,
) -> (Status, DurableFlash<D>)
    requires fresh { flash.trail.marks.items ≡ [] }
    ensures ran { IsTrue (D.Disk.is_clean flash.redo.log)
        → IsTrue (D.Disk.is_clean flash.redo.image)
        → IsTrue (D.Disk.is_clean result.1.redo.log) → IsTrue (D.Disk.is_clean result.1.redo.image)
        → (log_left image_left : List ℕ) → D.Disk.may_leave result.1.redo.log log_left
        → D.Disk.may_leave result.1.redo.image image_left → ∥ IsDurableRun flash.shape (record {
          words = map (λ w. w.now) words.now;
          input = input.items;
          log = flash.opened_log.items;
          image = flash.opened_image.items;
          status = result.0.0;
          sent = result.1.sent.items;
          log_left = log_left;
          image_left = image_left;
        }) ∥₁ }
{
    let mut board = DurableBoard::new(alloc, flash, input);
    let status = run(alloc, words, &mut board);
    let mut flash = board.into_flash();
    flash.deliver();
    (status, flash)
}
