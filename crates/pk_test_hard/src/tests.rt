//! The trials of hard cases, one test for each.

use pk_test_program::pink::Pink;
use pk_test_stress::deep::SHAPES;
use pk_test_stress::merged::MERGES;
use std::test::*;

#[test]
fn calls_of_the_worked_session(rt: HostRuntime) -> Result<(), Fail> {
    pk_test_stress::calls::calls_of_the_worked_session::<Pink>(rt.alloc())
}

#[test]
fn reads_of_the_worked_opening(rt: HostRuntime) -> Result<(), Fail> {
    pk_test_stress::calls::reads_of_the_worked_opening::<Pink>(rt.alloc())
}

#[test]
fn journal_bytes(rt: HostRuntime) -> Result<(), Fail> {
    pk_test_spoiled::spoiled::journal_bytes::<Pink>(rt.alloc())
}

#[test]
fn journal_bytes_by_all(rt: HostRuntime) -> Result<(), Fail> {
    pk_test_spoiled::spoiled::journal_bytes_by_all::<Pink>(rt.alloc())
}

#[test]
fn every_byte(rt: HostRuntime) -> Result<(), Fail> {
    pk_test_spoiled::spoiled::every_byte::<Pink>(rt.alloc())
}

#[test]
fn every_page(rt: HostRuntime) -> Result<(), Fail> {
    pk_test_spoiled::spoiled::every_page::<Pink>(rt.alloc())
}

#[test]
fn every_pair(rt: HostRuntime) -> Result<(), Fail> {
    pk_test_spoiled::spoiled::every_pair::<Pink>(rt.alloc())
}

#[test]
fn exchanged(rt: HostRuntime) -> Result<(), Fail> {
    pk_test_spoiled::spoiled::exchanged::<Pink>(rt.alloc())
}

#[test]
fn others(rt: HostRuntime) -> Result<(), Fail> {
    pk_test_spoiled::spoiled::others::<Pink>(rt.alloc())
}

#[test]
fn entries_elsewhere(rt: HostRuntime) -> Result<(), Fail> {
    pk_test_spoiled::namespaces::entries_elsewhere::<Pink>(rt.alloc())
}

#[test]
fn limits_passed(rt: HostRuntime) -> Result<(), Fail> {
    pk_test_spoiled::namespaces::limits_passed::<Pink>(rt.alloc())
}

#[test]
fn every_byte_of_two(rt: HostRuntime) -> Result<(), Fail> {
    pk_test_spoiled::namespaces::every_byte_of_two::<Pink>(rt.alloc())
}

#[test]
fn three_deep(rt: HostRuntime) -> Result<(), Fail> {
    pk_test_stress::deep::three_deep::<Pink>(rt.alloc(), &SHAPES[0])
}

#[test]
fn three_deep_of_wide_pages(rt: HostRuntime) -> Result<(), Fail> {
    pk_test_stress::deep::three_deep::<Pink>(rt.alloc(), &SHAPES[1])
}

#[test]
fn three_deep_of_long_blocks(rt: HostRuntime) -> Result<(), Fail> {
    pk_test_stress::deep::three_deep::<Pink>(rt.alloc(), &SHAPES[2])
}

#[test]
fn freezes(rt: HostRuntime) -> Result<(), Fail> {
    pk_test_stress::merged::freezes::<Pink>(rt.alloc())
}

#[test]
fn merges(rt: HostRuntime) -> Result<(), Fail> {
    pk_test_stress::merged::merges::<Pink>(rt.alloc(), &MERGES[0])
}

#[test]
fn merges_of_wide_pages(rt: HostRuntime) -> Result<(), Fail> {
    pk_test_stress::merged::merges::<Pink>(rt.alloc(), &MERGES[1])
}

#[test]
fn merges_of_long_blocks(rt: HostRuntime) -> Result<(), Fail> {
    pk_test_stress::merged::merges::<Pink>(rt.alloc(), &MERGES[2])
}

#[test]
fn each_call_of_a_reclaim(rt: HostRuntime) -> Result<(), Fail> {
    pk_test_stress::failing::each_call::<Pink>(rt.alloc(), &SHAPES[0])
}

#[test]
fn each_call_with_wide_pages(rt: HostRuntime) -> Result<(), Fail> {
    pk_test_stress::failing::each_call::<Pink>(rt.alloc(), &SHAPES[1])
}

#[test]
fn each_call_with_long_blocks(rt: HostRuntime) -> Result<(), Fail> {
    pk_test_stress::failing::each_call::<Pink>(rt.alloc(), &SHAPES[2])
}

#[test]
fn list_that_fails(rt: HostRuntime) -> Result<(), Fail> {
    pk_test_stress::listing::later_commands_fail::<Pink>(rt.alloc())
}
