//! A log alone: commits that are stopped, batches that lose bytes, and steps that are read back.
ghost use Rattle.std.specs.Prelude.{◌≡◌, ◌<◌, ℕ, slice_index};
ghost use Rattle.pk_redo.specs.Log.{IsSealed};

use pk_base::Shape;
use pk_redo::{
    BATCH_HEAD, FIRST_BATCH, STEP_BYTES, Step, batch_at, commit, find_batches, put_erase,
    put_program, read_log, read_steps, reset, seal,
};
use sqlite_disk::{Crash, Disk, Fuse, Memory};
use std::test::Fail;

// A batch of three bytes.
fn small_batch(byte: u8) -> [u8; 12]
    ensures { IsSealed result }
{
    let mut batch = [byte; 12];
    batch[11] = 0;
    seal(&mut batch);
    batch
}

/// The zeros after the batches of a small log.
pub fn zeros() -> [u8; 64]
    ensures { (i : ℕ) → i < 64 → slice_index result i ≡ 0 }
{
    [0u8; 64]
}

// A log over a disk that lets this many calls through, with a first batch and three more, of which as
// many are counted as returned success.
fn three_commits<D: Disk>(disk: &mut D) -> usize {
    if !disk.may_be_used() || reset(disk, &small_batch(9), &zeros()).is_err() {
        return 0;
    }
    for i in 1..4u8 {
        let end = FIRST_BATCH + 12 * i as usize;
        if !disk.may_be_used() || commit(disk, end, 92, &small_batch(i)).is_err() {
            return i as usize - 1;
        }
    }
    3
}

#[test]
fn a_crash_keeps_each_commit(rt: HostRuntime) -> Result<(), Fail> {
    for calls in 0..40u64 {
        let mut disk = Fuse::new(Memory::new(rt.alloc()), calls);
        let done = three_commits(&mut disk);
        disk.crash();
        let log = read_log(&mut disk, rt.alloc())?;
        assert!(rt; log.len() <= 92);
        let found = find_batches(rt.alloc(), log.as_slice())?;
        // the first batch is there as soon as one more is
        assert!(rt; done == 0 || found.len() > done);
        assert!(rt; found.len() <= done.saturating_add(2));
        for i in 1..found.len() {
            let (at, len) = found[i];
            assert_eq!(rt; len, 3);
            assert!(rt; log.get(at) == Some(&((i % 256) as u8)));
        }
    }
    Ok(())
}

#[test]
fn a_batch_that_lost_a_byte_is_none(rt: HostRuntime) -> Result<(), Fail> {
    let batch = small_batch(5);
    assert!(rt; batch_at(&batch, 0) == Some(3));
    for i in 0..12usize {
        let mut lost = batch;
        lost[i] = 0;
        assert!(rt; lost == batch || batch_at(&lost, 0).is_none());
        // all bytes from this one on are lost
        let mut cut = batch;
        cut[i..].fill(0);
        assert!(rt; cut == batch || batch_at(&cut, 0).is_none());
    }
    Ok(())
}

// A log of three batches, and room after them.
fn three_batches() -> [u8; 92] {
    let mut log = [0u8; 92];
    log[0] = 0x50;
    log[16..28].copy_from_slice(&small_batch(1));
    log[28..40].copy_from_slice(&small_batch(2));
    log[40..52].copy_from_slice(&small_batch(3));
    log
}

// The last byte of a batch is 0 here, so a log whose last batch lost no other one has it.
#[test]
fn a_cut_of_the_last_batch_leaves_those_before_it(rt: HostRuntime) -> Result<(), Fail> {
    let whole = three_batches();
    for end in 40..52usize {
        let mut cut = whole;
        cut[end..].fill(0);
        let found = find_batches(rt.alloc(), &cut)?;
        assert_eq!(rt; found.len(), if end == 51 { 3 } else { 2 });
        assert!(rt; found.get(0) == Some(&(25, 3)));
        assert!(rt; found.get(1) == Some(&(37, 3)));
        // the file ends there
        let found = find_batches(rt.alloc(), &whole[..end])?;
        assert_eq!(rt; found.len(), 2);
        assert!(rt; found.get(0) == Some(&(25, 3)));
        assert!(rt; found.get(1) == Some(&(37, 3)));
    }
    Ok(())
}

// A byte that becomes another one, and no zero, may not be found; what comes before its batch is.
#[test]
fn a_changed_byte_leaves_the_batches_before_its_own(rt: HostRuntime) -> Result<(), Fail> {
    let whole = three_batches();
    for place in 16..52usize {
        for byte in [0u8, 1, 0x50, 0x7F, 0xFF] {
            let mut changed = whole;
            changed[place] = byte;
            let found = find_batches(rt.alloc(), &changed)?;
            let before = (place - 16) / 12;
            assert!(rt; found.len() >= before, "{byte} at {place}");
            for i in 0..before {
                assert!(rt;
                    found.get(i) == Some(&(25 + 12 * i, 3)),
                    "{byte} at {place}"
                );
            }
        }
    }
    Ok(())
}

#[test]
fn each_mixture_of_a_batch_and_zeros_is_it_or_none(rt: HostRuntime) -> Result<(), Fail> {
    let mut batch = [0u8; 12];
    batch[9] = 7;
    batch[11] = 0;
    seal(&mut batch);
    for kept in 0..4096u32 {
        let mut mixed = [0u8; 12];
        let mut bits = kept;
        for i in 0..12usize {
            if bits % 2 == 1 {
                mixed[i] = batch[i];
            }
            bits /= 2;
        }
        match batch_at(&mixed, 0) {
            Some(len) => {
                assert_eq!(rt; len, 3);
                assert!(rt; mixed == batch);
            }
            None => assert!(rt; mixed != batch),
        }
    }
    Ok(())
}

#[test]
fn steps_are_read_as_they_were_written(rt: HostRuntime) -> Result<(), Fail> {
    let shape = Shape::new(512, 8, 34)?;
    assert_eq!(rt; shape.page_bytes(), 512);
    assert_eq!(rt; shape.page_count(), 272);
    assert_eq!(rt; shape.blocks(), 34);
    let mut log = [0u8; 128];
    log[0] = 0x50;
    let first = small_batch(1);
    log[FIRST_BATCH..FIRST_BATCH + 12].copy_from_slice(&first);
    let mut batch = [0u8; 64];
    let end = put_program(&mut batch, BATCH_HEAD, &shape, 3, b"front".as_slice());
    let end = put_erase(&mut batch, end, &shape, 2);
    assert_eq!(rt; end, BATCH_HEAD + 2 * STEP_BYTES + 5);
    seal(&mut batch[..end]);
    log[28..28 + end].copy_from_slice(&batch[..end]);
    match read_steps(rt.alloc(), &shape, &log) {
        Ok(steps) => {
            assert_eq!(rt; steps.len(), 2);
            assert!(rt;
                steps.get(0)
                    == Some(&Step::Program {
                        page: 3,
                        at: 45,
                        len: 5
                    })
            );
            assert!(rt; steps.get(1) == Some(&Step::Erase { block: 2 }));
        }
        Err(_) => assert!(rt; false),
    }
    Ok(())
}
