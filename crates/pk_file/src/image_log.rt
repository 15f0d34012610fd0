//! The log that lies beside an image file.
ghost use Rattle.std.specs.Prelude.{◌≡◌, ◌+◌, ◌<◌, ◌≤◌, length, true};
ghost use Rattle.pk_base.specs.Shape as spec;
ghost use Rattle.pk_redo.specs.declared.batch.TheConstants.{BATCH_HEAD};
ghost use Rattle.pk_redo.specs.declared.step.TheConstants.{STEP_BYTES};
ghost use Rattle.pk_file.specs.Slots.{AllFit};

use crate::image_file::ImageFile;
use crate::logged::{begin_logged, end_logged};
use crate::slot::Slot;
use pk_base::Shape;
use pk_disk::{OpenDisk, Syncs, Unknown, find_log, log_path, make_log, open_disk, remove_log};
use pk_nand::LoadFault;
use pk_redo::{LogFault, LogSizes, RedoLog, Replay, shut};
use std::alloc::Global;
use std::fs::File;
use std::io;

/// The file of a log, and its path.
#[derive(Drop)]
pub struct LogFile {
    file: File,
    path: String,
}

/// An image and its log, both open as disks.
#[derive(Drop)]
pub struct ImageLog<D: OpenDisk> {
    pub redo: RedoLog<D>,
    pub shape: Shape,
    path: String,
    /// Whether this run made it.
    is_new: bool,
    ghost same: { redo.shape ≡ shape },
}

/// The log that lies beside the image at this path, if there is one.
pub fn log_beside(rt: &HostRuntime, image: &str, file: &File) -> io::Result<Option<LogFile>> {
    let path = log_path(rt, image)?;
    match find_log(rt, path.as_str(), file)? {
        Some(file) => Ok(Some(LogFile { file, path })),
        None => Ok(None),
    }
}

/// Shuts the log that an earlier image of this name left, and removes it.
pub fn drop_log(rt: &HostRuntime, image: &str, file: &File) -> io::Result<()> {
    let Some(log) = log_beside(rt, image, file)? else {
        return Ok(());
    };
    let LogFile { file, path } = log;
    let mut disk = open_disk::<Unknown>(file, true, Syncs::Made)?;
    shut(&mut disk)?;
    remove_log(rt, path.as_str())
}

/// Why a log is not read, as a load reports it.
fn fault_of(fault: LogFault) -> LoadFault {
    match fault {
        LogFault::Memory => LoadFault::Memory,
        _ => LoadFault::Fault,
    }
}

/// How many bytes a log takes: with zeros ahead for all of it at once, or as it needs them.
fn sizes_of(shape: &Shape, is_ahead: bool) -> LogSizes
    ensures batch { STEP_BYTES + shape.now.page_bytes ≤ result.batch }
    ensures blank { BATCH_HEAD + STEP_BYTES + shape.now.page_bytes < result.blank }
{
    if is_ahead {
        LogSizes::ahead(shape)
    } else {
        LogSizes::usual(shape)
    }
}

/// Opens an image and its log as disks, and reads what the log says.
pub fn open_log<D: OpenDisk>(
    alloc: Global,
    image: File,
    log: LogFile,
    shape: Shape,
    is_ahead: bool,
) -> Result<(ImageLog<D>, Replay), LoadFault> {
    let LogFile { file, path } = log;
    let Ok(mut disk) = D::open(file, true, Syncs::Made) else {
        return Err(LoadFault::Fault);
    };
    let Ok(mut image) = D::open(image, false, Syncs::Made) else {
        return Err(LoadFault::Fault);
    };
    let replay = match Replay::read(alloc, &mut disk, &mut image, &shape) {
        Ok(replay) => replay,
        Err(fault) => return Err(fault_of(fault)),
    };
    let sizes = sizes_of(&shape, is_ahead);
    match RedoLog::new(alloc, disk, image, shape, &replay, sizes) {
        Ok(redo) => Ok((
            ImageLog {
                redo,
                shape,
                path,
                is_new: false,
            },
            replay,
        )),
        Err(_) => Err(LoadFault::Memory),
    }
}

/// Makes the log of an image that has none, with its name on the disk.
fn new_log_file(rt: &HostRuntime, path: &str, file: &File) -> io::Result<LogFile> {
    let path = log_path(rt, path)?;
    let file = make_log(rt, path.as_str(), file, Syncs::Made)?;
    Ok(LogFile { file, path })
}

/// Makes the log of an image at this path that has none. If that fails there is none.
pub fn new_log<D: OpenDisk>(
    rt: &HostRuntime,
    path: &str,
    image: &ImageFile,
    shape: Shape,
    is_ahead: bool,
) -> Result<ImageLog<D>, LoadFault> {
    let Ok(file) = image.copy() else {
        return Err(LoadFault::Fault);
    };
    let Ok(log) = new_log_file(rt, path, &file) else {
        return Err(LoadFault::Fault);
    };
    match open_log(rt.alloc(), file, log, shape, is_ahead) {
        Ok((log, _)) => Ok(log.made()),
        Err(fault) => {
            let _ = remove_beside(rt, path);
            Err(fault)
        }
    }
}

/// The same with all of its room, before the first change, so that no barrier has to wait for
/// zeros. None if it cannot be made, or not with this room: then no file is left of it.
pub fn log_ahead<D: OpenDisk>(
    rt: &HostRuntime,
    path: &str,
    image: &ImageFile,
    shape: &Shape,
    slots: &Vec<Slot>,
) -> Result<Option<ImageLog<D>>, LoadFault>
    requires count { length slots.now.items ≡ spec.page_count shape.now }
    requires fit { AllFit shape.now slots.now.items }
{
    let Ok(mut log) = new_log::<D>(rt, path, image, *shape, true) else {
        return Ok(None);
    };
    if log.is_of(shape) && begin_logged(&mut log.redo, shape, slots) {
        return Ok(Some(log));
    }
    match image.copy() {
        Ok(file) if drop_log(rt, path, &file).is_ok() => Ok(None),
        _ => Err(LoadFault::Fault),
    }
}

/// Removes the name of the log of an image.
fn remove_beside(rt: &HostRuntime, image: &str) -> io::Result<()> {
    let path = log_path(rt, image)?;
    remove_log(rt, path.as_str())
}

impl<D: OpenDisk> ImageLog<D> {
    /// The same, as a log that this run made.
    fn made(mut self) -> ImageLog<D> {
        self.is_new = true;
        self
    }

    /// Whether this run made it.
    pub fn is_new(&self) -> bool {
        self.is_new
    }

    /// Whether it is the log of an image of this shape.
    pub fn is_of(&self, shape: &Shape) -> bool
        ensures { result ≡ true → self.now.redo.shape ≡ shape.now }
    {
        let own = self.shape;
        own.page_bytes() == shape.page_bytes()
            && own.block_pages() == shape.block_pages()
            && own.blocks() == shape.blocks()
    }

    /// Brings all pages into the image, and removes the log.
    pub fn end(self, rt: &HostRuntime, shape: &Shape, slots: &Vec<Slot>) -> io::Result<()>
        requires count { length slots.now.items ≡ spec.page_count shape.now }
        requires fit { AllFit shape.now slots.now.items }
    {
        if !self.is_of(shape) {
            return Err(io::ErrorKind::InvalidInput.into());
        }
        let ImageLog {
            mut redo,
            shape: _,
            path,
            is_new: _,
        } = self;
        if !end_logged(&mut redo, shape, slots) {
            return Err(io::ErrorKind::Other.into());
        }
        remove_log(rt, path.as_str())
    }
}
