//! How an image file is opened: on a descriptor of its own, and by one board at a time.

use std::fs::{File, OpenOptions, canonicalize};
use std::io;
use std::os::fd::AsRawFd;

/// The greatest descriptor of a standard stream.
const STANDARD_ERROR: i32 = 2;

/// The file on a descriptor above those of the standard streams. If one of these is closed, its
/// number is the first that the system gives again, and what is posted would be written over the
/// image, or the image read as the input.
fn apart(file: File) -> io::Result<File> {
    if file.as_raw_fd() > STANDARD_ERROR {
        return Ok(file);
    }
    let copy = file.try_clone()?;
    if copy.as_raw_fd() > STANDARD_ERROR {
        return Ok(copy);
    }
    Err(io::Error::from(io::ErrorKind::Other))
}

/// Opens a file, which no other board has open then, nor opens before it is closed. The lock is
/// advisory: it holds among programs that ask for it, goes with the process, and is refused at once
/// if another holds it.
pub fn open_alone(rt: &HostRuntime, how: &OpenOptions, path: &str) -> io::Result<File> {
    let file = apart(how.open(rt, path)?)?;
    match file.try_lock() {
        Ok(()) => Ok(file),
        Err(held) => Err(io::Error::from(held)),
    }
}

/// Brings the name of a file to the disk: its folder is synced, that of the file itself if the path
/// is a link.
pub fn sync_folder(rt: &HostRuntime, path: &str) -> io::Result<()> {
    let own = canonicalize(rt, path)?;
    match own.as_path().parent() {
        Some(folder) => File::open(rt, folder)?.sync_all(),
        None => Err(io::Error::from(io::ErrorKind::NotFound)),
    }
}
