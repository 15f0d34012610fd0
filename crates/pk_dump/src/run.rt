//! Runs: their pages, with their entries.
ghost use Rattle.std.specs.Prelude.{◌≡◌, ◌≤◌, ◌<◌, length};
ghost use Rattle.pk_base.specs.Page.{whole};
ghost use Rattle.pk_nand.specs.Seen.{state};
ghost use Rattle.pk_dump.specs.Pages.{IsFullPage, AreFull};
ghost use Rattle.pk_dump.specs.Holds.{HoldsRunPage};
ghost use Rattle.pk_dump.specs.Named.{wanted_of};

use crate::form::Form;
use crate::held::{Held, page_in, tell_held};
use crate::words::tell_entry;
use pk_base::{LEVELS, Shape};
use pk_meta::{decode, entry};
use pk_nand::PageState;
use pk_rootfmt::Root;
use std::alloc::{AllocError, Allocator};
use std::fmt::Write;

/// Which page of which run.
#[derive(Clone, Copy)]
pub struct Wanted {
    pub level: u8,
    pub index: u32,
    pub count: u32,
}

/// The page of this index in a run of `entries` entries: each but the last is full.
fn wanted_page(shape: &Shape, level: u8, entries: u32, index: u32) -> Wanted
    ensures { result ≡ wanted_of shape.now level entries index }
{
    shape.known();
    let most = shape.entries() as u64;
    let left = (entries as u64).saturating_sub(index as u64 * most);
    Wanted {
        level,
        index,
        count: most.min(left) as u32,
    }
}

/// What these bytes are as this page of a run.
fn run_page_of(shape: &Shape, wanted: Wanted, bytes: &[u8]) -> Held
    requires full { length bytes.now ≡ shape.now.page_bytes }
    requires level { 1 ≤ wanted.level × wanted.level ≤ LEVELS }
    ensures { HoldsRunPage shape.now wanted (whole bytes.now) result }
{
    match decode(shape, bytes) {
        Ok(head) => {
            if head.level == wanted.level
                && head.index == wanted.index
                && head.count == wanted.count
            {
                Held::Entries { count: head.count }
            } else {
                Held::Wrong
            }
        }
        Err(_) => Held::Wrong,
    }
}

/// What this page is as this page of a run.
fn run_page_in(shape: &Shape, wanted: Wanted, page: &PageState) -> Held
    requires full { IsFullPage shape.now (state page.now) }
    requires level { 1 ≤ wanted.level × wanted.level ≤ LEVELS }
    ensures { HoldsRunPage shape.now wanted (state page.now) result }
{
    match page {
        PageState::Erased => Held::Erased,
        PageState::Torn => Held::Torn,
        PageState::Whole(bytes) => run_page_of(shape, wanted, bytes.bytes()),
    }
}

/// Prints the entries of a page of a run.
fn tell_entries(
    out: &mut String,
    form: Form,
    shape: &Shape,
    page: &PageState,
) -> Result<(), AllocError>
    requires { IsFullPage shape.now (state page.now) }
{
    let PageState::Whole(bytes) = page else {
        return Ok(());
    };
    let Ok(head) = decode(shape, bytes.bytes()) else {
        return Ok(());
    };
    for i in 0..head.count {
        tell_entry(out, form, &entry(shape, bytes.bytes(), i))?;
    }
    Ok(())
}

/// Prints a page of a run.
fn tell_page(
    out: &mut String,
    form: Form,
    shape: &Shape,
    wanted: Wanted,
    at: u32,
    page: &PageState,
) -> Result<(), AllocError>
    requires full { IsFullPage shape.now (state page.now) }
    requires level { 1 ≤ wanted.level × wanted.level ≤ LEVELS }
{
    let held = run_page_in(shape, wanted, page);
    tell_held(out, form, "run", at, held)?;
    match held {
        Held::Entries { .. } => tell_entries(out, form, shape, page),
        _ => Ok(()),
    }
}

/// Prints how many entries the run of a level has.
fn tell_count(out: &mut String, form: Form, level: u8, entries: u32) -> Result<(), AllocError> {
    match form {
        Form::People => writeln!(out, "run {level}: {entries} entries"),
        Form::Programs => writeln!(out, "run level={level} entries={entries}"),
    }
}

/// Prints the pages of the run of a level, with `entries` entries in these blocks.
fn tell_run(
    out: &mut String,
    form: Form,
    shape: &Shape,
    level: u8,
    entries: u32,
    blocks: &[u16],
    pages: &[PageState],
) -> Result<(), AllocError>
    requires full { AreFull shape.now pages.now }
    requires level { 1 ≤ level × level ≤ LEVELS }
{
    tell_count(out, form, level, entries)?;
    for index in 0..entries.div_ceil(shape.entries()) {
        let wanted = wanted_page(shape, level, entries, index);
        let Some(at) = page_in(shape, blocks, index) else {
            return Ok(());
        };
        let Some(page) = pages.get(at as usize) else {
            return Ok(());
        };
        tell_page(out, form, shape, wanted, at, page)?;
    }
    Ok(())
}

/// Prints the runs that a root names, from the first level on.
pub fn tell_runs<A: Allocator>(
    out: &mut String,
    form: Form,
    root: &Root<A>,
    pages: &[PageState],
) -> Result<(), AllocError>
    requires { AreFull root.now.shape pages.now }
{
    for level in 1..=LEVELS {
        let entries = root.entries(level);
        if entries > 0 {
            tell_run(
                out,
                form,
                root.shape(),
                level,
                entries,
                root.blocks(level),
                pages,
            )?;
        }
    }
    Ok(())
}
