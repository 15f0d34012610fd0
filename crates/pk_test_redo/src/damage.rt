//! Logs that lost bytes after a session.
ghost use Rattle.std.specs.Prelude.{◌≤◌, length};

use pk_redo::{BATCH_HEAD, find_batches};
use pk_test_disks::{Fails, Medium};
use pk_test_logs::{DrivePages, is_cut, open_files, pages_after, stopped_session};
use std::alloc::{AllocError, Global};
use std::test::Fail;

// Where the last batch of a stopped session begins, after the record of the drive and a batch of one
// page, and where it ends: a page of no byte, an erase, and a page of 200 bytes.
const BEGIN: usize = 16 + (9 + 32 + 68) + (9 + 8 + 512);

const END: usize = BEGIN + 9 + 8 + 8 + (8 + 200);

// Bytes of a log of these sessions, at most.
const MOST_LOG: usize = 8192;

// Steps before that batch.
const BEFORE: usize = 13;

/// The pages that are opened of these bytes of a log and of an image.
pub fn open_bytes(
    alloc: Global,
    log: &[u8],
    image: &[u8],
) -> Result<Option<DrivePages>, AllocError> {
    let mut log = Medium::new(alloc, log, true, Fails::Never)?;
    let mut image = Medium::new(alloc, image, true, Fails::Never)?;
    match open_files(alloc, &mut log, &mut image)? {
        Ok(opened) => Ok(Some(opened.drive)),
        Err(_) => Ok(None),
    }
}

/// Whether they are opened as these pages.
pub fn opens_as(
    alloc: Global,
    log: &[u8],
    image: &[u8],
    wanted: &DrivePages,
) -> Result<bool, AllocError> {
    match open_bytes(alloc, log, image)? {
        Some(drive) => Ok(drive.is_same(wanted)),
        None => Ok(false),
    }
}

// A log of which the bytes from a place on are lost.
fn lost_from(alloc: Global, log: &[u8], at: usize) -> Result<Vec<u8>, AllocError> {
    let mut lost = log.to_vec(alloc)?;
    if at < lost.len() {
        lost[at..].fill(0);
    }
    Ok(lost)
}

// A log of which this byte is another one.
fn changed_at(alloc: Global, log: &[u8], at: usize, byte: u8) -> Result<Vec<u8>, AllocError> {
    let mut changed = log.to_vec(alloc)?;
    if at < changed.len() {
        changed[at] = byte;
    }
    Ok(changed)
}

// The first bytes of a log, all if it has fewer.
fn front(log: &[u8], len: usize) -> &[u8] {
    &log[..len.min(log.len())]
}

// The file ends there, or has zeros from there on. The last batch ends with a byte that is not 0.
#[test]
fn last_batch_cut(rt: HostRuntime) -> Result<(), Fail> {
    let alloc = rt.alloc();
    let (done, files) = stopped_session(alloc, true)?;
    let (log, image) = (files.log.bytes(), files.image.synced());
    assert!(rt; log.len() > END);
    assert!(rt; opens_as(alloc, front(log, END), image, &done.end)?);
    assert!(rt; opens_as(alloc, log, image, &done.end)?);
    assert_eq!(rt; done.steps.len(), BEFORE + 3);
    let without = pages_after(alloc, &done, BEFORE)?;
    assert!(rt; !without.is_same(&done.end));
    for at in BEGIN..END {
        assert!(rt;
            opens_as(alloc, front(log, at), image, &without)?,
            "ends at {at}"
        );
        let lost = lost_from(alloc, log, at)?;
        assert!(rt; opens_as(alloc, &lost, image, &without)?, "lost from {at}");
    }
    Ok(())
}

// A byte that is lost to a zero ends the log before its batch, and is no byte of another batch.
#[test]
fn each_byte_lost(rt: HostRuntime) -> Result<(), Fail> {
    let alloc = rt.alloc();
    let (mut done, files) = stopped_session(alloc, true)?;
    done.durable = 0;
    let (log, image) = (files.log.bytes(), files.image.synced());
    let without = pages_after(alloc, &done, BEFORE)?;
    let mut others = 0u32;
    for at in 0..END {
        let lost = changed_at(alloc, log, at, 0)?;
        let drive = open_bytes(alloc, &lost, image)?.ok_or("refused")?;
        if lost.as_slice() == log {
            assert!(rt; drive.is_same(&done.end), "{at}");
        } else {
            others = others.saturating_add(1);
            assert!(rt;
                is_cut(alloc, &done, &drive)? && !drive.is_same(&done.end),
                "{at}"
            );
            assert!(rt; at < BEGIN || drive.is_same(&without), "{at}");
        }
    }
    assert!(rt; others > 700, "{others}");
    Ok(())
}

// What a byte of the last batch is changed to, by what it is.
fn other_bytes(byte: u8) -> [u8; 7] {
    [
        0,
        1,
        0x50,
        0xFF,
        byte ^ 1,
        byte ^ 0x80,
        byte.wrapping_add(1),
    ]
}

// The batches that a log has of which a byte of the last one is another: all, exactly if it is a byte
// of the body and is 0 as it was, or is not 0 as it was not; and else those before the last one.
fn is_one_or_all(
    alloc: Global,
    log: &[u8],
    whole: &[(usize, usize)],
    at: usize,
    byte: u8,
) -> Result<bool, AllocError> {
    let old = log.get(at).copied().unwrap_or(0);
    let is_kept = old == byte || at >= BEGIN + BATCH_HEAD && (old == 0) == (byte == 0);
    let wanted = if is_kept {
        whole
    } else {
        &whole[..whole.len().saturating_sub(1)]
    };
    let changed = changed_at(alloc, log, at, byte)?;
    if changed.len() > MOST_LOG {
        return Ok(false);
    }
    Ok(find_batches(alloc, &changed)?.as_slice() == wanted)
}

// Any one byte of the last batch is another one: the batches before it are read, or all.
#[test]
fn any_byte(rt: HostRuntime) -> Result<(), Fail> {
    let (_, files) = stopped_session(rt.alloc(), true)?;
    let log = files.log.bytes();
    assert!(rt; log.len() <= MOST_LOG);
    let whole = find_batches(rt.alloc(), log)?;
    assert!(rt; whole.as_slice().last() == Some(&(BEGIN + BATCH_HEAD, END - BEGIN - BATCH_HEAD)));
    for at in BEGIN..END {
        for byte in other_bytes(log.get(at).copied().unwrap_or(0)) {
            assert!(rt;
                is_one_or_all(rt.alloc(), log, &whole, at, byte)?,
                "{at} {byte}"
            );
        }
    }
    Ok(())
}
