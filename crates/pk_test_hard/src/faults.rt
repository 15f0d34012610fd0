//! Calls that fail and flashes that are damaged, run on the program.

use pk_test_faults::{damage, faults, runs};
use pk_test_program::pink::Pink;
use std::test::*;

// ---- damage

#[test]
fn damaged(rt: HostRuntime) -> Result<(), Fail> {
    damage::damaged::<Pink>(rt.alloc())
}

// ---- faults

#[test]
fn read_of_retrieve(rt: HostRuntime) -> Result<(), Fail> {
    faults::read_of_retrieve::<Pink>(rt.alloc())
}

#[test]
fn reads_of_opening(rt: HostRuntime) -> Result<(), Fail> {
    faults::reads_of_opening::<Pink>(rt.alloc())
}

#[test]
fn calls_of_store(rt: HostRuntime) -> Result<(), Fail> {
    faults::calls_of_store::<Pink>(rt.alloc())
}

// ---- runs

#[test]
fn keys_are_found(rt: HostRuntime) -> Result<(), Fail> {
    runs::keys_are_found::<Pink>(rt.alloc())
}

#[test]
fn keys_are_listed(rt: HostRuntime) -> Result<(), Fail> {
    runs::keys_are_listed::<Pink>(rt.alloc())
}

#[test]
fn store_over_runs(rt: HostRuntime) -> Result<(), Fail> {
    runs::store_over_runs::<Pink>(rt.alloc())
}

#[test]
fn cut_over_runs(rt: HostRuntime) -> Result<(), Fail> {
    runs::cut_over_runs::<Pink>(rt.alloc())
}

#[test]
fn torn_pages(rt: HostRuntime) -> Result<(), Fail> {
    runs::torn_pages::<Pink>(rt.alloc())
}
