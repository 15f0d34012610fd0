//! What an image and its log hold when they are opened.
ghost use Rattle.std.specs.Prelude.{◌≡◌, length, IfOk, IsTrue, OnOk};
ghost use Rattle.sqlite_disk.specs.Disk.{Only};
ghost use Rattle.pk_base.specs.Shape as spec;
ghost use Rattle.pk_redo.specs.Image.{flash_after};
ghost use Rattle.pk_redo.specs.Kept.{ReplayedTo, replay_marks};
ghost use Rattle.pk_file.specs.Slots.{pages_of, AllFit};

use crate::image_pages::slots_in;
use pk_base::Shape;
use pk_file::{Slot, replay_steps};
use pk_image::file_len;
use pk_nand::LoadFault;
use pk_redo::{LogFault, Replay, read_log};
use sqlite_disk::Disk;
use std::alloc::Global;

/// The bytes of a log and of its image, the steps of the log, and the pages after them.
#[derive(Drop)]
pub struct OpenedFiles {
    pub log: Vec<u8>,
    pub image: Vec<u8>,
    pub replay: Replay,
    pub slots: Vec<Slot>,
}

/// Why a log is not read, as a load reports it.
fn fault_of(fault: LogFault) -> LoadFault {
    match fault {
        LogFault::Memory => LoadFault::Memory,
        _ => LoadFault::Fault,
    }
}

/// The bytes of a disk, after a sync: what an earlier run left to the system is on the disk then.
fn read_synced<D: Disk>(alloc: Global, disk: &mut D) -> Result<Vec<u8>, LoadFault>
    requires { IsTrue (D.Disk.is_usable disk.old) }
    ensures found { IfOk result
        (λ v. IsTrue (D.Disk.is_clean disk.new) → v.items ≡ D.Disk.seen disk.old) }
    ensures only { OnOk result (Only (D.Disk.seen disk.old) (D.Disk.may_leave disk.new)) }
    ensures seen { D.Disk.seen disk.new ≡ D.Disk.seen disk.old }
    ensures usable { OnOk result (IsTrue (D.Disk.is_usable disk.new)) }
    ensures clean { IsTrue (D.Disk.is_clean disk.new) → IsTrue (D.Disk.is_clean disk.old) }
{
    match disk.sync() {
        Ok(()) => {}
        Err(_) => return Err(LoadFault::Fault),
    }
    match read_log(disk, alloc) {
        Ok(bytes) => Ok(bytes),
        Err(_) => Err(LoadFault::Fault),
    }
}

/// The pages of an image after the steps of its log.
fn replayed(
    alloc: Global,
    shape: &Shape,
    image: &Vec<u8>,
    replay: &Replay,
) -> Result<Vec<Slot>, LoadFault>
    ensures pages { IfOk result (λ v. pages_of v.items
        ≡ flash_after shape.now (replay_marks shape.now replay.now) image.now.items) }
    ensures count { IfOk result (λ v. length v.items ≡ spec.page_count shape.now) }
    ensures fit { IfOk result (λ v. AllFit shape.now v.items) }
{
    if (image.len() as u64) < file_len(shape) {
        return Err(LoadFault::Fault);
    }
    let mut slots = match slots_in(alloc, shape, image) {
        Ok(slots) => slots,
        Err(fault) => return Err(fault),
    };
    match replay_steps(alloc, shape, &mut slots, replay) {
        Ok(()) => Ok(slots),
        Err(fault) => Err(fault),
    }
}

/// Reads both files. Nothing is written.
pub fn read_files<D: Disk>(
    alloc: Global,
    log: &mut D,
    image: &mut D,
    shape: &Shape,
) -> Result<OpenedFiles, LoadFault>
    requires log { IsTrue (D.Disk.is_usable log.old) }
    requires image { IsTrue (D.Disk.is_usable image.old) }
    // If no disk gave a wrong answer, these are their bytes, and the pages that a reader of both
    // finds.
    ensures found { IfOk result (λ o. IsTrue (D.Disk.is_clean log.new)
        → IsTrue (D.Disk.is_clean image.new)
        → (o.log.items ≡ D.Disk.seen log.new) × (o.image.items ≡ D.Disk.seen image.new)
        × ReplayedTo shape.now (D.Disk.seen log.new) (D.Disk.seen image.new) o.replay
        (pages_of o.slots.items)) }
    ensures log_only { OnOk result (Only (D.Disk.seen log.new) (D.Disk.may_leave log.new)) }
    ensures image_only { OnOk result (Only (D.Disk.seen image.new) (D.Disk.may_leave image.new)) }
    ensures log_seen { D.Disk.seen log.new ≡ D.Disk.seen log.old }
    ensures image_seen { D.Disk.seen image.new ≡ D.Disk.seen image.old }
    ensures count { IfOk result (λ o. length o.slots.items ≡ spec.page_count shape.now) }
    ensures fit { IfOk result (λ o. AllFit shape.now o.slots.items) }
{
    let replay = match Replay::read(alloc, log, image, shape) {
        Ok(replay) => replay,
        Err(fault) => return Err(fault_of(fault)),
    };
    let log_bytes = match read_synced(alloc, log) {
        Ok(bytes) => bytes,
        Err(fault) => return Err(fault),
    };
    let image_bytes = match read_synced(alloc, image) {
        Ok(bytes) => bytes,
        Err(fault) => return Err(fault),
    };
    match replayed(alloc, shape, &image_bytes, &replay) {
        Ok(slots) => Ok(OpenedFiles {
            log: log_bytes,
            image: image_bytes,
            replay,
            slots,
        }),
        Err(fault) => Err(fault),
    }
}
