//! How the log of an image is named, made, found and removed, and how a file becomes a disk.
ghost use Rattle.std.specs.Prelude.{IsTrue, IfOk};
ghost use Rattle.pk_disk.specs.File.{disk_file_is_usable, IsJustSettled};

use crate::DiskFile;
use crate::host::{Host, Syncs};
use sqlite_disk::{Disk, Modelled, Start};
use std::fs::{File, OpenOptions, canonicalize, remove_file, symlink_metadata};
use std::io;
use std::os::fd::AsRawFd;
use std::os::unix::fs::{MetadataExt, OpenOptionsExt};

/// The greatest descriptor of a standard stream.
const STANDARD_ERROR: i32 = 2;

/// The bits of a file's mode that say who may use it.
const MODE_BITS: u32 = 0o777;

/// The path of the log of an image: in the folder of the file itself, so that two names of one
/// image that are links have one log.
pub fn log_path(rt: &HostRuntime, image: &str) -> io::Result<String> {
    let own = canonicalize(rt, image)?;
    match format!(in rt.alloc(); "{}-wal", own.as_str()) {
        Ok(path) => Ok(path),
        Err(_) => Err(io::Error::from(io::ErrorKind::OutOfMemory)),
    }
}

/// Two files with two names each would have two logs.
fn has_one_name(file: &File) -> io::Result<()> {
    if file.metadata()?.nlink() == 1 {
        return Ok(());
    }
    Err(io::Error::from(io::ErrorKind::Unsupported))
}

/// The file is the regular one that has this name, which no link has put there, on a descriptor
/// above those of the standard streams.
fn named(rt: &HostRuntime, path: &str, file: File) -> io::Result<File> {
    let (found, name) = (file.metadata()?, symlink_metadata(rt, path)?);
    let is_same = found.dev() == name.dev() && found.ino() == name.ino();
    if !is_same || !found.is_file() || file.as_raw_fd() <= STANDARD_ERROR {
        return Err(io::Error::from(io::ErrorKind::Unsupported));
    }
    has_one_name(&file)?;
    Ok(file)
}

/// Opens the log at this path; None if there is none. The board has the lock of the image then, so
/// no other one has the log open.
pub fn find_log(rt: &HostRuntime, path: &str, image: &File) -> io::Result<Option<File>> {
    match OpenOptions::new().read(true).write(true).open(rt, path) {
        Ok(file) => {
            has_one_name(image)?;
            Ok(Some(named(rt, path, file)?))
        }
        Err(e) if e.kind() == io::ErrorKind::NotFound => Ok(None),
        Err(e) => Err(e),
    }
}

/// Makes the log at this path, where no file is, for whoever may use the image; with its name on
/// the disk, if syncs are made.
pub fn make_log(rt: &HostRuntime, path: &str, image: &File, syncs: Syncs) -> io::Result<File> {
    has_one_name(image)?;
    let mode = image.metadata()?.mode() & MODE_BITS;
    let file = OpenOptions::new()
        .read(true)
        .write(true)
        .create_new(true)
        .mode(mode)
        .open(rt, path)?;
    let file = named(rt, path, file)?;
    bring_name(rt, path, syncs)?;
    Ok(file)
}

/// Brings the name of a file to the disk.
fn bring_name(rt: &HostRuntime, path: &str, syncs: Syncs) -> io::Result<()> {
    if syncs == Syncs::None {
        return Ok(());
    }
    let own = canonicalize(rt, path)?;
    match own.as_path().parent() {
        Some(folder) => File::open(rt, folder)?.sync_all(),
        None => Err(io::Error::from(io::ErrorKind::NotFound)),
    }
}

/// Removes the name of a log, which has to be shut and synced before: a name that comes back after
/// a loss of power is that of a shut log.
pub fn remove_log(rt: &HostRuntime, path: &str) -> io::Result<()> {
    remove_file(rt, path)
}

/// An open file as a disk, which holds what is on the disk once it was synced. `S` stands for that,
/// and its value is used up, so that code over any `S` opens one pair.
pub fn open_disk<S: Start>(file: File, is_log: bool, syncs: Syncs) -> io::Result<DiskFile<S>>
    ensures usable { IfOk result (λ disk. IsTrue (disk_file_is_usable S.Start disk)) }
    ensures fresh { IfOk result (λ disk. IsJustSettled is_log disk) }
{
    let host = Host::settle(file, syncs)?;
    Ok(Modelled::new(host, is_log, 0))
}

/// A disk that an open file can be.
pub trait OpenDisk: Disk + Drop {
    /// Opens a file as a log or as an image, and syncs it, if syncs are made.
    fn open(file: File, is_log: bool, syncs: Syncs) -> io::Result<Self>
    where
        Self: Sized,
        ensures { IfOk result (λ disk. IsTrue (Self.Disk.is_usable disk)) };
}

impl<S: Start> OpenDisk for DiskFile<S> {
    fn open(file: File, is_log: bool, syncs: Syncs) -> io::Result<Self> {
        open_disk(file, is_log, syncs)
    }
}
