//! What is read of an image file and written to it.
ghost use Rattle.std.specs.Prelude.{◌≡◌, ◌≤◌, ◌<◌, ◌+◌, length, true, IfOk};
ghost use Rattle.pk_base.specs.Shape as spec;
ghost use Rattle.pk_nand.specs.Calls.{longer};
ghost use Rattle.pk_file.specs.Slots.{AllFit};
ghost use Rattle.pk_file.specs.FileSteps.{erase_steps};

use crate::backing::Keeping;
use crate::image_file::{ImageFile, PageFile};
use crate::image_log::{ImageLog, LogFile, drop_log, log_ahead, log_beside, open_log};
use crate::logged::replay_steps;
use crate::opening::{open_alone, sync_folder};
use crate::page_reader::PageReader;
use crate::row::Row;
use crate::slot::Slot;
use crate::slots::slots_of;
use pk_base::{MOST_BLOCK_PAGES, Shape};
use pk_disk::OpenDisk;
use pk_image::{HEADER_BYTES, ImageError, PageTag, file_len, header, read_header};
use pk_nand::LoadFault;
use pk_redo::{Replay, set_pages};
use std::alloc::Global;
use std::fs::{File, OpenOptions};
use std::io;
use std::os::unix::fs::FileExt;

/// The bytes of the text with which a header begins: without it a file is no image.
const MAGIC_BYTES: usize = 8;

/// An open image file and what was read of it.
#[derive(Drop)]
pub struct Image<D: OpenDisk> {
    pub file: ImageFile,
    pub shape: Shape,
    /// Its pages after the steps of its log.
    pub slots: Vec<Slot>,
    /// The pages that wait to be written: none.
    pub row: Row,
    pub log: Option<ImageLog<D>>,
    ghost count: { length slots.items ≡ spec.page_count shape },
    ghost fit: { AllFit shape slots.items },
    ghost waiting: { row.first + length row.extents.items ≤ length slots.items },
}

/// Opens the image file, with its length in bytes; None if it is missing or empty. An image that
/// another board has open is a fault.
fn opened(rt: &HostRuntime, path: &str) -> Result<Option<(File, u64)>, LoadFault> {
    let file = match open_alone(rt, OpenOptions::new().read(true).write(true), path) {
        Ok(file) => file,
        Err(e) if e.kind() == io::ErrorKind::NotFound => return Ok(None),
        Err(_) => return Err(LoadFault::Fault),
    };
    match file.metadata() {
        Ok(data) if data.len() == 0 => Ok(None),
        Ok(data) => Ok(Some((file, data.len()))),
        Err(_) => Err(LoadFault::Fault),
    }
}

/// The shape of a file of this length, by its header. Of a shorter file than a header nothing is read.
fn shape_of(file: &File, len: u64) -> Result<Shape, LoadFault> {
    let mut head = [0u8; HEADER_BYTES];
    if len >= HEADER_BYTES as u64 && file.read_exact_at(&mut head, 0).is_err() {
        return Err(LoadFault::Fault);
    }
    match read_header(&head, len) {
        Ok(shape) => Ok(shape),
        Err(ImageError::Bad { at }) => Err(LoadFault::BadImage { at }),
    }
}

/// The state bytes of a file.
fn states_in(alloc: Global, file: &File, shape: &Shape) -> Result<Vec<u8>, LoadFault>
    ensures count { IfOk result (λ v. length v.items ≡ spec.page_count shape.now) }
{
    let Ok(mut states) = Vec::from_elem(alloc, 0u8, shape.page_count() as usize) else {
        return Err(LoadFault::Memory);
    };
    match file.read_exact_at(states.as_mut_slice(), HEADER_BYTES as u64) {
        Ok(()) => Ok(states),
        Err(_) => Err(LoadFault::Fault),
    }
}

/// The pages of a file with these state bytes, with the bytes of the Whole ones.
fn slots_by(
    alloc: Global,
    file: &File,
    shape: &Shape,
    states: &[u8],
) -> Result<Vec<Slot>, LoadFault>
    requires { length states.now ≡ spec.page_count shape.now }
    ensures count { IfOk result (λ v. length v.items ≡ spec.page_count shape.now) }
    ensures fit { IfOk result (λ v. AllFit shape.now v.items) }
{
    let Ok(mut reader) = PageReader::new(alloc, *shape) else {
        return Err(LoadFault::Memory);
    };
    slots_of(alloc, file, &mut reader, states)
}

/// The pages that steps set count as Erased before they are done: a checkpoint that broke off may
/// have left any state byte of them.
fn hide(states: &mut [u8], set: &[bool])
    ensures { length states.new ≡ length states.old }
{
    let end = states.len().min(set.len());
    for k in 0..end {
        if set[k] {
            states[k] = PageTag::Erased.byte();
        }
    }
}

/// The pages of a file after the steps of its log.
fn slots_after(
    alloc: Global,
    file: &File,
    shape: &Shape,
    replay: &Replay,
) -> Result<Vec<Slot>, LoadFault>
    ensures count { IfOk result (λ v. length v.items ≡ spec.page_count shape.now) }
    ensures fit { IfOk result (λ v. AllFit shape.now v.items) }
{
    let mut states = match states_in(alloc, file, shape) {
        Ok(states) => states,
        Err(fault) => return Err(fault),
    };
    let Ok(set) = set_pages(alloc, shape, replay.steps.as_slice()) else {
        return Err(LoadFault::Memory);
    };
    hide(states.as_mut_slice(), set.as_slice());
    let mut slots = match slots_by(alloc, file, shape, states.as_slice()) {
        Ok(slots) => slots,
        Err(fault) => return Err(fault),
    };
    match replay_steps(alloc, shape, &mut slots, replay) {
        Ok(()) => Ok(slots),
        Err(fault) => Err(fault),
    }
}

/// The pages of a file that has no log.
fn slots_in(alloc: Global, file: &File, shape: &Shape) -> Result<Vec<Slot>, LoadFault>
    ensures count { IfOk result (λ v. length v.items ≡ spec.page_count shape.now) }
    ensures fit { IfOk result (λ v. AllFit shape.now v.items) }
{
    match states_in(alloc, file, shape) {
        Ok(states) => slots_by(alloc, file, shape, states.as_slice()),
        Err(fault) => Err(fault),
    }
}

/// Opens a file and its log, and reads what the log says.
fn log_of<D: OpenDisk>(
    alloc: Global,
    file: &File,
    shape: &Shape,
    log: LogFile,
    keeping: Keeping,
) -> Result<(ImageLog<D>, Replay), LoadFault> {
    match file.try_clone() {
        Ok(copy) => open_log(alloc, copy, log, *shape, keeping.is_made_ahead()),
        Err(_) => Err(LoadFault::Fault),
    }
}

/// The pages of a file after the steps of its log.
fn slots_beside<D: OpenDisk>(
    alloc: Global,
    file: &File,
    shape: &Shape,
    log: LogFile,
    keeping: Keeping,
) -> Result<(Vec<Slot>, ImageLog<D>), LoadFault>
    ensures count { IfOk result (λ it. length it.0.items ≡ spec.page_count shape.now) }
    ensures fit { IfOk result (λ it. AllFit shape.now it.0.items) }
{
    match log_of(alloc, file, shape, log, keeping) {
        Ok((log, replay)) => match slots_after(alloc, file, shape, &replay) {
            Ok(slots) => Ok((slots, log)),
            Err(fault) => Err(fault),
        },
        Err(fault) => Err(fault),
    }
}

/// What an open image holds, and its log, if it has one.
fn pages_in<D: OpenDisk>(
    alloc: Global,
    file: &File,
    shape: &Shape,
    log: Option<LogFile>,
    keeping: Keeping,
) -> Result<(Vec<Slot>, Option<ImageLog<D>>), LoadFault>
    ensures count { IfOk result (λ it. length it.0.items ≡ spec.page_count shape.now) }
    ensures fit { IfOk result (λ it. AllFit shape.now it.0.items) }
{
    match log {
        None => match slots_in(alloc, file, shape) {
            Ok(slots) => Ok((slots, None)),
            Err(fault) => Err(fault),
        },
        Some(log) => match slots_beside(alloc, file, shape, log, keeping) {
            Ok((slots, log)) => Ok((slots, Some(log))),
            Err(fault) => Err(fault),
        },
    }
}

/// The image of an open file of this length, with the memory for pages that wait.
fn read_image<D: OpenDisk>(
    alloc: Global,
    file: File,
    len: u64,
    log: Option<LogFile>,
    keeping: Keeping,
) -> Result<Image<D>, LoadFault> {
    let shape = match shape_of(&file, len) {
        Ok(shape) => shape,
        Err(fault) => return Err(fault),
    };
    let Ok(row) = Row::for_shape(alloc, &shape, keeping.is_durable(), keeping.writes()) else {
        return Err(LoadFault::Memory);
    };
    match pages_in(alloc, &file, &shape, log, keeping) {
        Ok((slots, log)) => Ok(Image {
            file: ImageFile::new(file, len, keeping.is_durable()),
            shape,
            slots,
            row,
            log,
        }),
        Err(fault) => Err(fault),
    }
}

/// The same image with a log, if it has none and one is made before the first change.
fn with_log<D: OpenDisk>(
    rt: &HostRuntime,
    path: &str,
    image: Image<D>,
    keeping: Keeping,
) -> Result<Image<D>, LoadFault> {
    let mut image = image;
    if image.log.is_some() || !keeping.is_made_ahead() {
        return Ok(image);
    }
    match log_ahead(rt, path, &image.file, &image.shape, &image.slots) {
        Ok(log) => {
            image.log = log;
            Ok(image)
        }
        Err(fault) => Err(fault),
    }
}

/// The image at this path, with what its log says; None if there is none. If changes have to be on
/// the disk, so has to be what an earlier run wrote. The image is not written, and of its log only
/// one that it had not.
pub fn find_image<D: OpenDisk>(
    rt: &HostRuntime,
    alloc: Global,
    path: &str,
    keeping: Keeping,
) -> Result<Option<Image<D>>, LoadFault> {
    let (file, len) = match opened(rt, path) {
        Ok(None) => return Ok(None),
        Ok(Some(found)) => found,
        Err(fault) => return Err(fault),
    };
    let Ok(log) = log_beside(rt, path, &file) else {
        return Err(LoadFault::Fault);
    };
    if keeping.is_durable() && file.sync_data().is_err() {
        return Err(LoadFault::Fault);
    }
    let image = match read_image(alloc, file, len, log, keeping) {
        Ok(image) => image,
        Err(fault) => return Err(fault),
    };
    match with_log(rt, path, image, keeping) {
        Ok(image) => Ok(Some(image)),
        Err(fault) => Err(fault),
    }
}

/// Makes an image file with all pages Erased of a missing or empty one that no other board has
/// open. A log that an earlier image of this name left is removed before. The text of the image is
/// written last, so that a file that was not made to its end is no image. If
/// changes have to be on the disk, so are the file and its name.
pub fn create_image(
    rt: &HostRuntime,
    path: &str,
    shape: &Shape,
    is_durable: bool,
) -> io::Result<ImageFile> {
    let mut how = OpenOptions::new();
    how.read(true).write(true).create(true);
    let file = open_alone(rt, &how, path)?;
    if file.metadata()?.len() != 0 {
        return Err(io::Error::from(io::ErrorKind::AlreadyExists));
    }
    drop_log(rt, path, &file)?;
    let head = header(shape);
    let len = file_len(shape);
    file.set_len(len)?;
    file.write_all_at(&head[MAGIC_BYTES..], MAGIC_BYTES as u64)?;
    if is_durable {
        file.sync_all()?;
    }
    file.write_all_at(&head[..MAGIC_BYTES], 0)?;
    if is_durable {
        file.sync_all()?;
        sync_folder(rt, path)?;
    }
    Ok(ImageFile::new(file, len, is_durable))
}

/// What an erase left of pages in the file.
#[derive(Clone, Copy, Debug)]
pub struct Cleared {
    /// Pages that are Erased, from the first on.
    pub count: u32,
    /// All of them are, and on the disk if they have to be.
    pub is_done: bool,
}

/// Sets the state bytes of pages to Erased.
pub fn erase_pages<F: PageFile>(file: &mut F, shape: &Shape, first: u32, count: u32) -> Cleared
    requires small { count ≤ MOST_BLOCK_PAGES }
    requires exists { first < spec.page_count shape.now }
    ensures most { result.count ≤ count }
    ensures all { result.is_done ≡ true → result.count ≡ count }
    ensures done { result.is_done ≡ true
        → F.steps file.new ≡ longer (F.steps file.old) (erase_steps first count) }
{
    if file.begin().is_err() {
        return Cleared {
            count: 0,
            is_done: false,
        };
    }
    let done = file.erase_states(shape, first, count);
    if done < count {
        return Cleared {
            count: done,
            is_done: false,
        };
    }
    let synced = file.sync();
    match synced {
        Ok(()) => Cleared {
            count,
            is_done: true,
        },
        Err(_) => Cleared {
            count,
            is_done: false,
        },
    }
}
