//! Logs that were written by hand, as FORMATS has them, beside the image of a session: what is read of them, and which are refused.
ghost use Rattle.std.specs.Prelude.{◌≤◌, length};

use crate::damage::opens_as;
use pk_redo::LogFault;
use pk_test_disks::{Fails, Medium};
use pk_test_logs::{
    DrivePages, PAGES, deeds_of, drive_of, open_files, stopped_session, whole_session,
};
use std::alloc::{AllocError, Global};
use std::test::Fail;

// The bytes of a header, and of the states of all pages in a record.
const HEADER: usize = 32;

const TABLE: usize = PAGES / 4;

// The first byte of a log that is open.
const OPENED: u8 = 0x50;

// Adds a batch with these bytes: its head has 1, their number, and their zeros with two for each that
// is missing to 2^30.
fn push_batch(log: &mut Vec<u8>, body: &[u8]) -> Result<(), AllocError> {
    let n = (body.len() % 65_536) as u32;
    let mut count = (1u32 << 31).wrapping_sub(n.wrapping_mul(2));
    for byte in body {
        if *byte == 0 {
            count = count.wrapping_add(1);
        }
    }
    log.push(1)?;
    log.extend_from_slice(&n.to_le_bytes())?;
    log.extend_from_slice(&count.to_le_bytes())?;
    log.extend_from_slice(body)
}

// A log that begins with this byte and has these batches.
fn log_of(alloc: Global, first: u8, bodies: &[&[u8]]) -> Result<Vec<u8>, AllocError> {
    let mut log = Vec::from_elem(alloc, 0u8, 16)?;
    log[0] = first;
    for body in bodies {
        push_batch(&mut log, body)?;
    }
    Ok(log)
}

// The state of a page of an image, by its byte; a number above 2 counts as 2.
fn state_in(image: &[u8], page: usize) -> u8
    ensures { result ≤ 2 }
{
    match image.get(HEADER.saturating_add(page)) {
        Some(byte) => (*byte).min(2),
        None => 2,
    }
}

// The states of four pages of an image, from this one on.
fn four_states(image: &[u8], page: usize) -> u8 {
    state_in(image, page)
        + 4 * state_in(image, page.saturating_add(1))
        + 16 * state_in(image, page.saturating_add(2))
        + 64 * state_in(image, page.saturating_add(3))
}

// The record of an image.
fn record_of(alloc: Global, image: &[u8]) -> Result<Vec<u8>, AllocError> {
    let mut record = image[..HEADER.min(image.len())].to_vec(alloc)?;
    for i in 0..TABLE {
        record.push(four_states(image, 4 * i))?;
    }
    Ok(record)
}

// What a log and an image are opened as: the pages, or the fault.
fn found(
    alloc: Global,
    log: &[u8],
    image: &[u8],
) -> Result<Result<DrivePages, LogFault>, AllocError> {
    let mut log = Medium::new(alloc, log, true, Fails::Never)?;
    let mut image = Medium::new(alloc, image, true, Fails::Never)?;
    match open_files(alloc, &mut log, &mut image)? {
        Ok(opened) => Ok(Ok(opened.drive)),
        Err(fault) => Ok(Err(fault)),
    }
}

// Whether they are refused for this reason.
fn is_refused(
    alloc: Global,
    log: &[u8],
    image: &[u8],
    fault: LogFault,
) -> Result<bool, AllocError> {
    match found(alloc, log, image)? {
        Ok(_) => Ok(false),
        Err(other) => Ok(other == fault),
    }
}

// The image of a session at its last checkpoint, and that of another session at its end.
fn images(alloc: Global) -> Result<(Vec<u8>, Vec<u8>), Fail> {
    let (_, files) = stopped_session(alloc, true)?;
    let (_, other) = whole_session(alloc, true, &deeds_of(alloc, 3)?)?;
    Ok((
        files.image.synced().to_vec(alloc)?,
        other.image.synced().to_vec(alloc)?,
    ))
}

// The steps that program page 3 with five bytes and erase block 2.
const STEPS: [u8; 21] = [
    3, 0, 0, 0, 5, 0, 0, 0, b'f', b'r', b'o', b'n', b't', 2, 0, 0, 0x80, 0, 0, 0, 0,
];

// The pages of an image after these steps.
fn after_steps(alloc: Global, image: &[u8]) -> Result<DrivePages, Fail> {
    let mut drive = drive_of(alloc, image)?.ok_or("a drive")?;
    drive.program(alloc, 3, b"front")?;
    drive.erase(2);
    Ok(drive)
}

fn is_set_by_steps(page: usize) -> bool {
    page == 3 || page / 8 == 2
}

// A byte of another state.
fn other_state(byte: u8) -> u8 {
    if byte == 0 { 2 } else { 0 }
}

// The image with another state of this page.
fn with_other_state(alloc: Global, image: &[u8], page: usize) -> Result<Vec<u8>, AllocError> {
    let mut other = image.to_vec(alloc)?;
    let at = HEADER.saturating_add(page);
    if at < other.len() {
        other[at] = other_state(other[at]);
    }
    Ok(other)
}

#[test]
fn log_of_another_image(rt: HostRuntime) -> Result<(), Fail> {
    let alloc = rt.alloc();
    let (image, other) = images(alloc)?;
    let record = record_of(alloc, &image)?;
    let log = log_of(alloc, OPENED, &[&record, &STEPS])?;
    let wanted = after_steps(alloc, &image)?;
    assert!(rt; opens_as(alloc, &log, &image, &wanted)?);
    assert!(rt; is_refused(alloc, &log, &other, LogFault::OtherImage)?);
    // the state of a page that the steps set may be any
    let mut refused = 0usize;
    for page in 0..PAGES {
        let changed = with_other_state(alloc, &image, page)?;
        if is_set_by_steps(page) {
            assert!(rt; opens_as(alloc, &log, &changed, &wanted)?, "{page}");
        } else {
            assert!(rt;
                is_refused(alloc, &log, &changed, LogFault::OtherImage)?,
                "{page}"
            );
            refused = refused.saturating_add(1);
        }
    }
    assert_eq!(rt; refused, PAGES - 9);
    Ok(())
}

#[test]
fn shut_log(rt: HostRuntime) -> Result<(), Fail> {
    let alloc = rt.alloc();
    let (image, other) = images(alloc)?;
    let record = record_of(alloc, &image)?;
    for image in [&image, &other] {
        let wanted = drive_of(alloc, image)?.ok_or("a drive")?;
        for first in 0..=255u8 {
            if first != OPENED {
                let log = log_of(alloc, first, &[&record, &STEPS])?;
                assert!(rt; opens_as(alloc, &log, image, &wanted)?, "{first}");
            }
        }
        assert!(rt; opens_as(alloc, b"".as_slice(), image, &wanted)?);
    }
    Ok(())
}

#[test]
fn log_without_steps(rt: HostRuntime) -> Result<(), Fail> {
    let alloc = rt.alloc();
    let (image, other) = images(alloc)?;
    let record = record_of(alloc, &image)?;
    let wanted = drive_of(alloc, &image)?.ok_or("a drive")?;
    // the record alone, and batches of no step after it
    let log = log_of(alloc, OPENED, &[&record])?;
    assert!(rt; opens_as(alloc, &log, &image, &wanted)?);
    assert!(rt; is_refused(alloc, &log, &other, LogFault::OtherImage)?);
    let log = log_of(alloc, OPENED, &[&record, &[], &[]])?;
    assert!(rt; opens_as(alloc, &log, &image, &wanted)?);
    let log = log_of(alloc, OPENED, &[&record, &[], &STEPS])?;
    assert!(rt; opens_as(alloc, &log, &image, &after_steps(alloc, &image)?)?);
    // no batch: of the log of another image, too
    let log = log_of(alloc, OPENED, &[])?;
    assert!(rt; opens_as(alloc, &log, &image, &wanted)?);
    for end in 0..log.len() {
        assert!(rt; opens_as(alloc, &log[..end], &image, &wanted)?);
    }
    let wanted = drive_of(alloc, &other)?.ok_or("a drive")?;
    assert!(rt; opens_as(alloc, &log, &other, &wanted)?);
    Ok(())
}

// The record with another byte at a place.
fn changed_record(alloc: Global, record: &[u8], at: usize) -> Result<Vec<u8>, AllocError> {
    let mut changed = record.to_vec(alloc)?;
    if at < changed.len() {
        changed[at] = changed[at].wrapping_add(3);
    }
    Ok(changed)
}

#[test]
fn record_that_does_not_fit(rt: HostRuntime) -> Result<(), Fail> {
    let alloc = rt.alloc();
    let (image, _) = images(alloc)?;
    let record = record_of(alloc, &image)?;
    assert_eq!(rt; record.len(), HEADER + TABLE);
    for len in 0..record.len() {
        let log = log_of(alloc, OPENED, &[&record[..len], &STEPS])?;
        assert!(rt;
            is_refused(alloc, &log, &image, LogFault::OtherImage)?,
            "{len}"
        );
    }
    let mut longer = record.to_vec(alloc)?;
    longer.push(0)?;
    let log = log_of(alloc, OPENED, &[&longer, &STEPS])?;
    assert!(rt; is_refused(alloc, &log, &image, LogFault::OtherImage)?);
    // the states of pages 16 to 23, in two bytes, are those of a block that is erased
    for at in 0..record.len() {
        let changed = changed_record(alloc, &record, at)?;
        let log = log_of(alloc, OPENED, &[&changed, &STEPS])?;
        let is_free = at == HEADER + 4 || at == HEADER + 5;
        let is_bad = is_refused(alloc, &log, &image, LogFault::OtherImage)?;
        assert_eq!(rt; is_bad, !is_free, "{at}");
    }
    Ok(())
}

// Where the first step of a log begins.
const FIRST_STEP: usize = 16 + (9 + HEADER + TABLE) + 9;

// A log with these two batches of steps is refused, as what is at a place is no step.
fn is_refused_at(
    alloc: Global,
    image: &[u8],
    one: &[u8],
    other: &[u8],
    at: usize,
) -> Result<bool, AllocError> {
    let record = record_of(alloc, image)?;
    let log = log_of(alloc, OPENED, &[&record, one, other])?;
    is_refused(alloc, &log, image, LogFault::BadStep { at })
}

// In a batch before one with steps, and in one after it.
#[test]
fn steps_that_are_none(rt: HostRuntime) -> Result<(), Fail> {
    let alloc = rt.alloc();
    let (image, _) = images(alloc)?;
    for bytes in [
        // page 272, and 513 bytes of a page
        [16, 1, 0, 0, 0, 0, 0, 0].as_slice(),
        &[3, 0, 0, 0, 1, 2, 0, 0],
        // block 34, and an erase with a byte
        &[34, 0, 0, 0x80, 0, 0, 0, 0],
        &[2, 0, 0, 0x80, 1, 0, 0, 0, 9],
        // less than a step, and a front that goes on after the batch
        &[3, 0, 0, 0, 0, 0, 0],
        &[3, 0, 0, 0, 2, 0, 0, 0, 7],
    ] {
        assert!(rt; is_refused_at(alloc, &image, bytes, &STEPS, FIRST_STEP)?);
        assert!(rt; is_refused_at(alloc, &image, &STEPS, bytes, FIRST_STEP + 21 + 9)?);
    }
    Ok(())
}
