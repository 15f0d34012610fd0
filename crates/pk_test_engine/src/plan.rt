//! Quotas, frames and merges of two shapes.

use pk_base::Shape;
use pk_plan::{Owner, Plan};
use std::test::*;

// This many frames pin this many levels, and no fewer do.
fn pins(plan: &Plan, levels: u8, frames: u32) -> bool {
    if levels > 4 || plan.need(levels) != frames || plan.pinned(frames) != levels {
        return false;
    }
    frames == 0 || plan.pinned(frames - 1) as u32 + 1 == levels as u32
}

// These frames pin 0 to 4 levels.
fn pins_all(plan: &Plan, need: &[u32; 5]) -> bool {
    for (levels, frames) in need.iter().enumerate() {
        if levels > 4 || !pins(plan, levels as u8, *frames) {
            return false;
        }
    }
    true
}

// A shape's numbers: the quotas of meta and values, the frames that pin 0 to 4 levels, and the most
// calls of a command.
type Numbers = ((u32, u32, u32), u32, u32, [u32; 5], u64);

const NUMBERS: &[Numbers] = &[
    ((512, 16, 64), 16, 42, [0, 8, 36, 148, 236], 1408),
    ((4096, 64, 512), 11, 495, [0, 8, 36, 148, 520], 2736),
];

// The plan's quotas of the journal, of meta and of values.
fn has_quotas(plan: &Plan, meta: u32, values: u32) -> bool {
    plan.quota(Owner::Journal) == 4
        && plan.quota(Owner::Meta) == meta
        && plan.quota(Owner::Values) == values
}

// The plan of a shape has these numbers.
fn has_numbers(((page_bytes, block_pages, blocks), meta, values, need, calls): &Numbers) -> bool {
    match Shape::new(*page_bytes, *block_pages, *blocks) {
        Ok(shape) => {
            let plan = Plan::of(shape);
            plan.shape().blocks() == *blocks
                && plan.calls() == *calls
                && has_quotas(&plan, *meta, *values)
                && pins_all(&plan, need)
        }
        Err(_) => false,
    }
}

// An error is the number of the first row whose numbers are others.
fn have_numbers() -> Result<(), usize> {
    for i in 0..NUMBERS.len() {
        if !has_numbers(&NUMBERS[i]) {
            return Err(i);
        }
    }
    Ok(())
}

// Frozen keys, entries of the four runs, and the next target.
type Order = (u32, [u32; 4], Option<u8>);

const ORDER: &[Order] = &[
    (0, [60, 240, 960, 1140], None),
    (30, [30, 0, 0, 0], Some(1)),
    (30, [31, 209, 0, 0], Some(2)),
    (30, [31, 210, 750, 0], Some(3)),
    (30, [31, 210, 751, 0], Some(4)),
    (30, [60, 240, 960, 1140], Some(4)),
    (1, [60, 180, 960, 0], Some(2)),
    (u32::MAX, [u32::MAX; 4], Some(4)),
];

// An error is the number of the first row whose next target is another, for the first shape, of
// which a page has 15 entries.
fn have_order(plan: &Plan) -> Result<(), usize> {
    for i in 0..ORDER.len() {
        let (frozen, runs, target) = &ORDER[i];
        if plan.next_merge(*frozen, runs) != *target {
            return Err(i);
        }
    }
    Ok(())
}

#[test]
fn numbers(_rt: HostRuntime) -> Result<(), usize> {
    have_numbers()
}

#[test]
fn order_of_merges(_rt: HostRuntime) -> Result<(), usize> {
    match Shape::new(512, 16, 64) {
        Ok(shape) => have_order(&Plan::of(shape)),
        Err(_) => Err(ORDER.len()),
    }
}
