//! Whole sessions, run on the program.

use crate::pink::Pink;
use pk_test_answers::{isolation, machine, spaces};
use pk_test_sessions::{sessions, space};
use pk_test_words::{ends, rows, wear, words};
use std::test::*;

// ---- ends

#[test]
fn inside_an_entry(rt: HostRuntime) -> Result<(), Fail> {
    ends::inside_an_entry::<Pink>(rt.alloc())
}

#[test]
fn inside_a_value(rt: HostRuntime) -> Result<(), Fail> {
    ends::inside_a_value::<Pink>(rt.alloc())
}

#[test]
fn command_between(rt: HostRuntime) -> Result<(), Fail> {
    ends::command_between::<Pink>(rt.alloc())
}

#[test]
fn held_records(rt: HostRuntime) -> Result<(), Fail> {
    ends::held_records::<Pink>(rt.alloc())
}

// ---- isolation

#[test]
fn isolation_of_two(rt: HostRuntime) -> Result<(), Fail> {
    isolation::isolation_of_two::<Pink>(rt.alloc())
}

#[test]
fn isolation_of_eight(rt: HostRuntime) -> Result<(), Fail> {
    isolation::isolation_of_eight::<Pink>(rt.alloc())
}

#[test]
fn isolation_in_reclaims(rt: HostRuntime) -> Result<(), Fail> {
    isolation::isolation_in_reclaims::<Pink>(rt.alloc())
}

// ---- machine

#[test]
fn as_the_machine(rt: HostRuntime) -> Result<(), Fail> {
    machine::as_the_machine::<Pink>(rt.alloc())
}

#[test]
fn full_as_the_machine(rt: HostRuntime) -> Result<(), Fail> {
    machine::full_as_the_machine::<Pink>(rt.alloc())
}

// ---- rows

#[test]
fn answers(rt: HostRuntime) -> Result<(), Fail> {
    rows::answers::<Pink>(rt.alloc())
}

#[test]
fn answers_of_two(rt: HostRuntime) -> Result<(), Fail> {
    rows::answers_of_two::<Pink>(rt.alloc())
}

#[test]
fn lists_of_three(rt: HostRuntime) -> Result<(), Fail> {
    rows::lists_of_three::<Pink>(rt.alloc())
}

#[test]
fn full_namespaces(rt: HostRuntime) -> Result<(), Fail> {
    rows::full_namespaces::<Pink>(rt.alloc())
}

// ---- sessions

#[test]
fn makes_once(rt: HostRuntime) -> Result<(), Fail> {
    sessions::makes_once::<Pink>(rt.alloc())
}

#[test]
fn sessions(rt: HostRuntime) -> Result<(), Fail> {
    sessions::sessions::<Pink>(rt.alloc())
}

#[test]
fn refuses(rt: HostRuntime) -> Result<(), Fail> {
    sessions::refuses::<Pink>(rt.alloc())
}

#[test]
fn values_stay(rt: HostRuntime) -> Result<(), Fail> {
    sessions::values_stay::<Pink>(rt.alloc())
}

#[test]
fn three_stores(rt: HostRuntime) -> Result<(), Fail> {
    sessions::three_stores::<Pink>(rt.alloc())
}

#[test]
fn store_and_delete(rt: HostRuntime) -> Result<(), Fail> {
    sessions::store_and_delete::<Pink>(rt.alloc())
}

#[test]
fn full_blocks(rt: HostRuntime) -> Result<(), Fail> {
    sessions::full_blocks::<Pink>(rt.alloc())
}

#[test]
fn pages_of_a_commit(rt: HostRuntime) -> Result<(), Fail> {
    sessions::pages_of_a_commit::<Pink>(rt.alloc())
}

#[test]
fn pages_of_a_root(rt: HostRuntime) -> Result<(), Fail> {
    sessions::pages_of_a_root::<Pink>(rt.alloc())
}

#[test]
fn grouped_commits(rt: HostRuntime) -> Result<(), Fail> {
    sessions::grouped_commits::<Pink>(rt.alloc())
}

#[test]
fn commit_before_a_freeze(rt: HostRuntime) -> Result<(), Fail> {
    sessions::commit_before_a_freeze::<Pink>(rt.alloc())
}

#[test]
fn full_buffer(rt: HostRuntime) -> Result<(), Fail> {
    sessions::full_buffer::<Pink>(rt.alloc())
}

#[test]
fn first_of_full_buffer(rt: HostRuntime) -> Result<(), Fail> {
    sessions::first_of_full_buffer::<Pink>(rt.alloc())
}

#[test]
fn greatest_value(rt: HostRuntime) -> Result<(), Fail> {
    sessions::greatest_value::<Pink>(rt.alloc())
}

#[test]
fn full_epoch(rt: HostRuntime) -> Result<(), Fail> {
    sessions::full_epoch::<Pink>(rt.alloc())
}

#[test]
fn short_buffers(rt: HostRuntime) -> Result<(), Fail> {
    sessions::short_buffers::<Pink>(rt.alloc())
}

#[test]
fn no_commands(rt: HostRuntime) -> Result<(), Fail> {
    sessions::no_commands::<Pink>(rt.alloc())
}

#[test]
fn one_large_page(rt: HostRuntime) -> Result<(), Fail> {
    sessions::one_large_page::<Pink>(rt.alloc())
}

// ---- space

#[test]
fn full_drive(rt: HostRuntime) -> Result<(), Fail> {
    space::full_drive::<Pink>(rt.alloc())
}

#[test]
fn overwrites(rt: HostRuntime) -> Result<(), Fail> {
    space::overwrites::<Pink>(rt.alloc())
}

// ---- spaces

#[test]
fn two_namespaces(rt: HostRuntime) -> Result<(), Fail> {
    spaces::two_namespaces::<Pink>(rt.alloc())
}

#[test]
fn eight_namespaces(rt: HostRuntime) -> Result<(), Fail> {
    spaces::eight_namespaces::<Pink>(rt.alloc())
}

#[test]
fn limits_of_roots(rt: HostRuntime) -> Result<(), Fail> {
    spaces::limits_of_roots::<Pink>(rt.alloc())
}

#[test]
fn one_namespace(rt: HostRuntime) -> Result<(), Fail> {
    spaces::one_namespace::<Pink>(rt.alloc())
}

#[test]
fn without_limits(rt: HostRuntime) -> Result<(), Fail> {
    spaces::without_limits::<Pink>(rt.alloc())
}

// ---- wear

#[test]
fn numbers(rt: HostRuntime) -> Result<(), Fail> {
    wear::numbers::<Pink>(rt.alloc())
}

#[test]
fn tick_ends_at_the_last_root(rt: HostRuntime) -> Result<(), Fail> {
    wear::tick_ends_at_the_last_root::<Pink>(rt.alloc())
}

// ---- words

#[test]
fn words(rt: HostRuntime) -> Result<(), Fail> {
    words::words::<Pink>(rt.alloc())
}

#[test]
fn texts(rt: HostRuntime) -> Result<(), Fail> {
    words::texts::<Pink>(rt.alloc())
}

#[test]
fn words_that_ask(rt: HostRuntime) -> Result<(), Fail> {
    words::words_that_ask::<Pink>(rt.alloc())
}

#[test]
fn words_that_fail(rt: HostRuntime) -> Result<(), Fail> {
    words::words_that_fail::<Pink>(rt.alloc())
}

#[test]
fn words_on_a_torn_value(rt: HostRuntime) -> Result<(), Fail> {
    words::words_on_a_torn_value::<Pink>(rt.alloc())
}

#[test]
fn workload(rt: HostRuntime) -> Result<(), Fail> {
    words::workload::<Pink>(rt.alloc())
}

#[test]
fn grouped_workload(rt: HostRuntime) -> Result<(), Fail> {
    words::grouped_workload::<Pink>(rt.alloc())
}
