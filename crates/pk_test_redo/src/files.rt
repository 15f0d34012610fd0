//! Real files as disks: what is written is read by the next opening, and a log is made, found and removed by its name.
ghost use Rattle.pk_redo.specs.Log.{IsSealed};

use crate::log::zeros;
use pk_disk::{Syncs, Unknown, Wary, find_log, log_path, make_log, open_disk, remove_log};
use pk_redo::{FIRST_BATCH, commit, find_batches, read_log, reset, seal};
use sqlite_disk::Disk;
use std::fs::File;
use std::os::unix::fs::{MetadataExt, symlink};
use std::test::Fail;
use std::{env, fs, io, process};

// The path of an image for one test, of which there is no file.
fn image_path(rt: &HostRuntime, name: &str) -> io::Result<String> {
    let all = env::temp_dir(rt)?;
    Ok(format!(in rt.alloc();
        "{}/pk_redo_{}_{}",
        all.display(),
        name,
        process::id(rt.process())
    )?)
}

// A batch of three bytes.
fn small_batch() -> [u8; 12]
    ensures { IsSealed result }
{
    let mut batch = [7u8; 12];
    seal(&mut batch);
    batch
}

// Makes a log of a file, and commits a batch to it.
fn commits<D: Disk>(disk: &mut D) -> bool {
    let batch = small_batch();
    if !disk.may_be_used() || reset(disk, &batch, &zeros()).is_err() {
        return false;
    }
    disk.may_be_used() && commit(disk, FIRST_BATCH + 12, 92, &batch).is_ok()
}

// How many batches a log has.
fn count_batches<D: Disk>(rt: &HostRuntime, disk: &mut D) -> io::Result<usize> {
    if !disk.may_be_used() {
        return Ok(0);
    }
    let log = read_log(disk, rt.alloc())?;
    if log.len() > 4096 {
        return Ok(0);
    }
    match find_batches(rt.alloc(), log.as_slice()) {
        Ok(found) => Ok(found.len()),
        Err(_) => Ok(0),
    }
}

// A batch is committed to a file that has become a log, and read from the file opened again.
fn is_read_again(rt: &HostRuntime, log: &str, made: File, image: &File) -> io::Result<bool> {
    let mut disk = open_disk::<Unknown>(made, true, Syncs::Made)?;
    if !commits(&mut disk) {
        return Ok(false);
    }
    let Some(found) = find_log(rt, log, image)? else {
        return Ok(false);
    };
    let mut disk = open_disk::<Wary>(found, true, Syncs::None)?;
    Ok(count_batches(rt, &mut disk)? == 2)
}

#[test]
fn a_log_is_made_found_and_removed(rt: HostRuntime) -> Result<(), Fail> {
    let path = image_path(&rt, "named")?;
    let link = format!(in rt.alloc(); "{}_link", path.as_str())?;
    fs::write(&rt, path.as_str(), b"image".as_slice())?;
    symlink(&rt, path.as_str(), link.as_str())?;
    let image = File::open(&rt, path.as_str())?;
    let log = log_path(&rt, link.as_str())?;
    assert!(rt; find_log(&rt, log.as_str(), &image)?.is_none());
    let made = make_log(&rt, log.as_str(), &image, Syncs::Made)?;
    let (mode, image_mode) = (made.metadata()?.mode(), image.metadata()?.mode());
    assert_eq!(rt; mode & 0o777, image_mode & 0o777);
    assert!(rt; is_read_again(&rt, log.as_str(), made, &image)?);
    assert!(rt; make_log(&rt, log.as_str(), &image, Syncs::Made).is_err());
    remove_log(&rt, log.as_str())?;
    assert!(rt; find_log(&rt, log.as_str(), &image)?.is_none());
    fs::remove_file(&rt, link.as_str())?;
    fs::remove_file(&rt, path.as_str())?;
    Ok(())
}

#[test]
fn an_image_with_two_names_has_no_log(rt: HostRuntime) -> Result<(), Fail> {
    let path = image_path(&rt, "twice")?;
    fs::write(&rt, path.as_str(), b"image".as_slice())?;
    let image = File::open(&rt, path.as_str())?;
    let log = log_path(&rt, path.as_str())?;
    let _made = make_log(&rt, log.as_str(), &image, Syncs::None)?;
    let other = format!(in rt.alloc(); "{}_other", path.as_str())?;
    fs::hard_link(&rt, path.as_str(), other.as_str())?;
    assert!(rt; find_log(&rt, log.as_str(), &image).is_err());
    fs::remove_file(&rt, other.as_str())?;
    assert!(rt; find_log(&rt, log.as_str(), &image)?.is_some());
    // nor is a link at the name of the log followed
    remove_log(&rt, log.as_str())?;
    symlink(&rt, path.as_str(), log.as_str())?;
    assert!(rt; find_log(&rt, log.as_str(), &image).is_err());
    fs::remove_file(&rt, log.as_str())?;
    fs::remove_file(&rt, path.as_str())?;
    Ok(())
}
