//! Sessions that are cut, and flashes made by hand, run on the program.

use crate::pink::Pink;
use pk_test_cuts::{cuts, erases, halves, reclaims, recut, space_cuts};
use pk_test_layered::{freezes, held, merges, worked_cuts};
use std::test::*;

// ---- cuts

#[test]
fn every_cut(rt: HostRuntime) -> Result<(), Fail> {
    cuts::every_cut::<Pink>(rt.alloc())
}

// ---- recut

#[test]
fn cut_twice(rt: HostRuntime) -> Result<(), Fail> {
    recut::cut_twice::<Pink>(rt.alloc())
}

#[test]
fn every_cut_of_second(rt: HostRuntime) -> Result<(), Fail> {
    recut::every_cut_of_second::<Pink>(rt.alloc())
}

#[test]
fn cut_many_times(rt: HostRuntime) -> Result<(), Fail> {
    recut::cut_many_times::<Pink>(rt.alloc())
}

// ---- space_cuts

#[test]
fn every_cut_of_two(rt: HostRuntime) -> Result<(), Fail> {
    space_cuts::every_cut_of_two::<Pink>(rt.alloc())
}

// ---- erases

#[test]
fn full_block(rt: HostRuntime) -> Result<(), Fail> {
    erases::full_block::<Pink>(rt.alloc())
}

// ---- merges

#[test]
fn first_merge(rt: HostRuntime) -> Result<(), Fail> {
    merges::first_merge::<Pink>(rt.alloc())
}

#[test]
fn one_step(rt: HostRuntime) -> Result<(), Fail> {
    merges::one_step::<Pink>(rt.alloc())
}

#[test]
fn two_runs(rt: HostRuntime) -> Result<(), Fail> {
    merges::two_runs::<Pink>(rt.alloc())
}

#[test]
fn roots_fill_a_block(rt: HostRuntime) -> Result<(), Fail> {
    merges::roots_fill_a_block::<Pink>(rt.alloc())
}

#[test]
fn every_cut_of_merges(rt: HostRuntime) -> Result<(), Fail> {
    merges::every_cut_of_merges::<Pink>(rt.alloc())
}

// ---- freezes

#[test]
fn freezes_behind_merges(rt: HostRuntime) -> Result<(), Fail> {
    freezes::freezes_behind_merges::<Pink>(rt.alloc())
}

#[test]
fn freezes(rt: HostRuntime) -> Result<(), Fail> {
    freezes::freezes::<Pink>(rt.alloc())
}

// ---- held

#[test]
fn levels_are_held(rt: HostRuntime) -> Result<(), Fail> {
    held::levels_are_held::<Pink>(rt.alloc())
}

#[test]
fn fewer_frames_hold_less(rt: HostRuntime) -> Result<(), Fail> {
    held::fewer_frames_hold_less::<Pink>(rt.alloc())
}

#[test]
fn frames_fill_one_by_one(rt: HostRuntime) -> Result<(), Fail> {
    held::frames_fill_one_by_one::<Pink>(rt.alloc())
}

// ---- worked_cuts

#[test]
fn worked_session(rt: HostRuntime) -> Result<(), Fail> {
    worked_cuts::worked_session::<Pink>(rt.alloc())
}

#[test]
fn stores_with_merges(rt: HostRuntime) -> Result<(), Fail> {
    worked_cuts::stores_with_merges::<Pink>(rt.alloc())
}

// ---- halves

#[test]
fn root_of_a_merge(rt: HostRuntime) -> Result<(), Fail> {
    halves::root_of_a_merge::<Pink>(rt.alloc())
}

#[test]
fn commit_of_moves(rt: HostRuntime) -> Result<(), Fail> {
    halves::commit_of_moves::<Pink>(rt.alloc())
}

// ---- reclaims

#[test]
fn first_on_full(rt: HostRuntime) -> Result<(), Fail> {
    reclaims::first_on_full::<Pink>(rt.alloc())
}

#[test]
fn first_on_full_second_third(rt: HostRuntime) -> Result<(), Fail> {
    reclaims::first_on_full_second_third::<Pink>(rt.alloc())
}

#[test]
fn first_on_full_last_third(rt: HostRuntime) -> Result<(), Fail> {
    reclaims::first_on_full_last_third::<Pink>(rt.alloc())
}

#[test]
fn one_on_small(rt: HostRuntime) -> Result<(), Fail> {
    reclaims::one_on_small::<Pink>(rt.alloc())
}

#[test]
fn every_cut_of_reclaims(rt: HostRuntime) -> Result<(), Fail> {
    reclaims::every_cut_of_reclaims::<Pink>(rt.alloc())
}

#[test]
fn every_call_fails(rt: HostRuntime) -> Result<(), Fail> {
    reclaims::every_call_fails::<Pink>(rt.alloc())
}
