//! How many flash operations a command makes at most, and how many background steps bring a drive
//! to rest, on the smallest drives.
//!
//! A command's record has its reads, and the board's trail has its programs and erases before the
//! post of that record. With the two programs of its commit they are counted together: a Flush
//! follows each command, so that its record is not held.

use pk_base::Shape;
use pk_flash::{Flash, Room};
use pk_nand::{Mark, PageState};
use pk_nvme::Request;
use pk_nvme::opcode::{DELETE, FLUSH, STORE, TICK};
use pk_nvme::status::{CAPACITY_EXCEEDED, SUCCESSFUL_COMPLETION};
use pk_test_scripts::Program;
use pk_test_scripts::boards::{board_in, made, pages_left, serve_with};
use pk_test_scripts::overwritten::{Record, record_at};
use pk_test_scripts::script::entry;
use std::alloc::{AllocError, Global};
use std::test::*;

// Commands of the first session of a workload, before which no step is made for long; and of the later ones, one more from session to
// session.
const MANY: u32 = 2_600;

const FEW: u32 = 16;

const SESSIONS: u32 = 100;

// Background steps after the commands of a session, one command each.
const STEPS: u32 = 600;

const LONG: Room = Room {
    posted: 262_144,
    marks: 45_000,
};

const SHORT: Room = Room {
    posted: 32_768,
    marks: 6_000,
};

/// What was measured of a drive: the most flash operations that a command made, the most background
/// steps to rest, how many Stores found no room; and the bounds of the first two.
#[derive(Clone, Copy)]
pub struct Most {
    pub calls: u32,
    pub steps: u32,
    pub full: u32,
    pub calls_bound: u32,
    pub steps_bound: u32,
}

// A workload: a value of fewer bytes than these is stored under each next key, and this many Stores
// later it is deleted.
#[derive(Clone, Copy)]
struct Load {
    bytes: u32,
    behind: u32,
}

// What was seen, the series of the sizes, and the number of the next command.
#[derive(Clone, Copy)]
struct Seen {
    most: Most,
    series: u64,
    from: u32,
}

// A number below this one, from a series.
fn below(series: &mut u64, end: u32) -> u32 {
    *series = series
        .wrapping_mul(6364136223846793005)
        .wrapping_add(1442695040888963407);
    if end == 0 {
        return 0;
    }
    (*series >> 33) as u32 % end
}

// Adds a command on the key with this number, and a Flush.
fn push_command(into: &mut Vec<u8>, opcode: u8, key: u32, size: u32) -> Result<(), AllocError> {
    let mut bytes = [0u8; 16];
    bytes[..4].copy_from_slice(&key.to_be_bytes());
    let request = Request {
        opcode,
        cid: 1,
        namespace: 1,
        key_len: 4,
        key: bytes,
        size,
        options: 0,
    };
    into.extend_from_slice(&request.entry())?;
    if opcode == STORE {
        for _ in 0..size {
            into.push(7)?;
        }
    }
    into.extend_from_slice(&entry(2, FLUSH, [0, 0], 0, 0))
}

fn push_tick(into: &mut Vec<u8>, steps: u32) -> Result<(), AllocError> {
    into.extend_from_slice(&entry(3, TICK, [0, 0], 0, steps))
}

// The commands of a workload from this one on, a Store and a Delete by turns.
fn push_load(
    into: &mut Vec<u8>,
    load: &Load,
    series: &mut u64,
    from: u32,
    count: u32,
) -> Result<(), AllocError> {
    for number in from..from.saturating_add(count) {
        let key = number / 2;
        if number % 2 == 0 {
            push_command(into, STORE, key, below(series, load.bytes))?;
        } else {
            push_command(into, DELETE, key.saturating_sub(load.behind), 0)?;
        }
    }
    Ok(())
}

fn push_ticks(into: &mut Vec<u8>, bound: u32) -> Result<(), AllocError> {
    for _ in 0..STEPS {
        push_tick(into, 1)?;
    }
    push_tick(into, bound)
}

// The commands of a workload from the next one on, then steps one by one, and at last as many as the bound.
fn script(alloc: Global, load: &Load, seen: &mut Seen, count: u32) -> Result<Vec<u8>, AllocError> {
    let mut script = Vec::new(alloc);
    push_load(&mut script, load, &mut seen.series, seen.from, count)?;
    push_ticks(&mut script, seen.most.steps_bound)?;
    Ok(script)
}

// Notes how many operations the command or the step with this number made: false if a step after
// the first one with this number is not as it has to be.
fn note_record(most: &mut Most, record: &Record, calls: u32, number: u32, first_step: u32) -> bool {
    if number < first_step {
        let is_full = record.status == u32::from(CAPACITY_EXCEEDED);
        let full = if is_full { 1 } else { 0 };
        most.calls = most.calls.max(calls);
        most.full = most.full.saturating_add(full);
        return true;
    }
    let step = number - first_step;
    if step < STEPS && calls > 0 {
        most.steps = most.steps.max(step.saturating_add(1));
    }
    record.status == u32::from(SUCCESSFUL_COMPLETION) && (step < STEPS || calls == 0)
}

// Notes the result of a session of `commands` commands: false if it is not as it has to be.
fn note(most: &mut Most, flash: &Flash, commands: u32) -> bool {
    let first_step = commands.saturating_mul(2);
    let mut at = 0usize;
    let mut number = 0u32;
    let mut calls = 0u32;
    for i in 0..flash.marks() {
        if !matches!(flash.mark(i), Mark::Post { .. }) {
            calls = calls.saturating_add(1);
            continue;
        }
        let Some(record) = record_at(flash.posted(), at) else {
            return false;
        };
        at = record.end();
        let made = calls.saturating_add(record.reads);
        if !note_record(most, &record, made, number, first_step) {
            return false;
        }
        number = number.saturating_add(1);
        calls = 0;
    }
    number == first_step.saturating_add(STEPS).saturating_add(1)
}

// A session of the workload on these pages, and the pages after it.
fn session<P: Program>(
    alloc: Global,
    shape: Shape,
    pages: Vec<PageState>,
    script: Vec<u8>,
    count: u32,
    most: &mut Most,
) -> Result<Vec<PageState>, Fail> {
    let room = if count < MANY { SHORT } else { LONG };
    let mut flash = board_in(alloc, shape, pages, script, room)?;
    if serve_with::<P>(alloc, &mut flash, "0") != 0 || !note(most, &flash, count) {
        return Err(Fail::from("the records of a session"));
    }
    pages_left(alloc, &flash)
}

// The bounds of a shape, with nothing seen.
fn bounds(shape: &Shape) -> Most {
    let mut pages = shape.cap(1);
    for level in 2..5u8 {
        pages = pages.saturating_add(shape.cap(level));
    }
    let calls = pages
        .saturating_mul(8)
        .saturating_add(shape.block_pages().saturating_mul(4))
        .saturating_add(64);
    let steps = calls
        .saturating_mul(4)
        .saturating_add(shape.blocks().saturating_mul(2));
    Most {
        calls: 0,
        steps: 0,
        full: 0,
        calls_bound: calls,
        steps_bound: steps,
    }
}

// The sessions of one workload on these pages, and the pages after them.
fn sessions<P: Program>(
    alloc: Global,
    shape: Shape,
    pages: Vec<PageState>,
    load: &Load,
    seen: &mut Seen,
) -> Result<Vec<PageState>, Fail> {
    let mut pages = pages;
    for i in 0..SESSIONS {
        let count = if i == 0 { MANY } else { FEW.saturating_add(i) };
        let script = script(alloc, load, seen, count)?;
        pages = session::<P>(alloc, shape, pages, script, count, &mut seen.most)?;
        seen.from = seen.from.saturating_add(count);
    }
    Ok(pages)
}

fn are_within(most: &Most, blocks: u32) -> bool {
    most.calls <= most.calls_bound
        && most.calls >= most.calls_bound / 10
        && most.steps <= most.steps_bound
        && most.steps >= blocks
        && most.full > 0
}

// Three workloads on these pages.
fn workloads<P: Program>(
    alloc: Global,
    shape: Shape,
    pages: Vec<PageState>,
    seen: &mut Seen,
) -> Result<(), Fail> {
    let bytes = shape.greatest();
    let small = Load {
        bytes: 1,
        behind: 4,
    };
    let pages = sessions::<P>(alloc, shape, pages, &small, seen)?;
    let pages = sessions::<P>(alloc, shape, pages, &Load { bytes, behind: 3 }, seen)?;
    let _ = sessions::<P>(alloc, shape, pages, &Load { bytes, behind: 12 }, seen)?;
    Ok(())
}

/// What is seen of a drive of this shape, which these words make, without frames, under three workloads. No command makes more calls than
/// the bound, to a tenth of which a merge into each run, a freeze and a reclaim in one command come; and no more steps lead to rest than
/// the bound of them, and at least as many as there are blocks.
pub fn most_work<P: Program>(alloc: Global, make: &[&str], shape: Shape) -> Result<Most, Fail> {
    let mut seen = Seen {
        most: bounds(&shape),
        series: 1,
        from: 0,
    };
    let pages = made::<P>(alloc, make)?;
    workloads::<P>(alloc, shape, pages, &mut seen)?;
    if !are_within(&seen.most, shape.blocks()) {
        return Err(Fail::from("the bounds of calls and of steps, and a full drive"));
    }
    Ok(seen.most)
}
