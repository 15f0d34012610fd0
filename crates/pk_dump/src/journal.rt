//! Epochs: the commits of each, up to the first that has no page that is Whole, with their entries.
ghost use Rattle.std.specs.Prelude.{◌≡◌, ◌⊎◌, ◌<◌, length};
ghost use Rattle.pk_base.specs.Page.{whole};
ghost use Rattle.pk_base.specs.Shape.{epoch_commits};
ghost use Rattle.pk_nand.specs.Seen.{state};
ghost use Rattle.pk_dump.specs.Pages.{IsFullPage, AreFull};
ghost use Rattle.pk_dump.specs.Holds.{HoldsCommit};
ghost use Rattle.pk_dump.specs.Named.{newest_named, older_named};

use crate::form::Form;
use crate::held::{Held, page_in, tell_held};
use crate::words::tell_entry;
use pk_base::Shape;
use pk_jrnfmt::{decode, entry};
use pk_nand::PageState;
use pk_rootfmt::Root;
use std::alloc::{AllocError, Allocator};
use std::fmt::Write;

/// An epoch that a root names: its number, and its blocks.
#[derive(Clone, Copy)]
pub struct NamedEpoch {
    pub number: u64,
    pub blocks: [u16; 2],
}

/// The newest epoch of a root.
fn newest_of<A: Allocator>(root: &Root<A>) -> NamedEpoch
    ensures { result ≡ newest_named root.now.root }
{
    NamedEpoch {
        number: root.epoch(),
        blocks: root.newest(),
    }
}

/// The older epoch of a root, if it names one.
fn older_of<A: Allocator>(root: &Root<A>) -> Option<NamedEpoch>
    ensures { result ≡ older_named root.now.root }
{
    match root.older() {
        Some(blocks) => Some(NamedEpoch {
            number: root.epoch().saturating_sub(1),
            blocks,
        }),
        None => None,
    }
}

/// What these bytes are as the commit of this index in the epoch of this number.
fn commit_of(shape: &Shape, number: u64, index: u32, bytes: &[u8]) -> Held
    requires full { length bytes.now ≡ shape.now.page_bytes }
    requires index { index < epoch_commits shape.now }
    ensures { HoldsCommit shape.now number index (whole bytes.now) result }
{
    match decode(shape, bytes) {
        Ok(head) => {
            if head.is_of(number, index) {
                Held::Entries { count: head.count }
            } else {
                Held::Wrong
            }
        }
        Err(_) => Held::Wrong,
    }
}

/// What this page is as the commit of this index in the epoch of this number.
fn commit_in(shape: &Shape, number: u64, index: u32, page: &PageState) -> Held
    requires full { IsFullPage shape.now (state page.now) }
    requires index { index < epoch_commits shape.now }
    ensures { HoldsCommit shape.now number index (state page.now) result }
{
    match page {
        PageState::Erased => Held::Erased,
        PageState::Torn => Held::Torn,
        PageState::Whole(bytes) => commit_of(shape, number, index, bytes.bytes()),
    }
}

/// Prints the entries of a page that holds a commit.
fn tell_entries(
    out: &mut String,
    form: Form,
    shape: &Shape,
    page: &PageState,
) -> Result<(), AllocError>
    requires { IsFullPage shape.now (state page.now) }
{
    let PageState::Whole(bytes) = page else {
        return Ok(());
    };
    let Ok(head) = decode(shape, bytes.bytes()) else {
        return Ok(());
    };
    for i in 0..head.count {
        tell_entry(out, form, &entry(shape, bytes.bytes(), i))?;
    }
    Ok(())
}

/// Whether an epoch may go on after such a page.
fn goes_on(held: Held) -> bool {
    match held {
        Held::Entries { .. } | Held::Wrong => true,
        Held::Erased | Held::Torn => false,
    }
}

/// Prints a commit, and returns whether the epoch goes on after it.
fn tell_commit(
    out: &mut String,
    form: Form,
    shape: &Shape,
    number: u64,
    index: u32,
    at: u32,
    page: &PageState,
) -> Result<bool, AllocError>
    requires full { IsFullPage shape.now (state page.now) }
    requires index { index < epoch_commits shape.now }
{
    let held = commit_in(shape, number, index, page);
    if let Held::Erased = held {
        return Ok(false);
    }
    tell_held(out, form, "epoch", at, held)?;
    if let Held::Entries { .. } = held {
        tell_entries(out, form, shape, page)?;
    }
    Ok(goes_on(held))
}

/// Prints the number of an epoch.
fn tell_number(out: &mut String, form: Form, number: u64) -> Result<(), AllocError> {
    match form {
        Form::People => writeln!(out, "epoch {number}"),
        Form::Programs => writeln!(out, "epoch number={number}"),
    }
}

/// Whether the page of this number is Whole.
fn is_whole_at(pages: &[PageState], page: u32) -> bool {
    match pages.get(page as usize) {
        Some(PageState::Whole(_)) => true,
        _ => false,
    }
}

/// The page by which a pair is read: its first page, or its second one if that alone is Whole.
fn page_of_pair(pages: &[PageState], first: u32, second: u32) -> u32
    ensures { (result ≡ first) ⊎ (result ≡ second) }
{
    if !is_whole_at(pages, first) && is_whole_at(pages, second) {
        second
    } else {
        first
    }
}

/// Prints the commits of an epoch.
fn tell_epoch(
    out: &mut String,
    form: Form,
    shape: &Shape,
    epoch: NamedEpoch,
    pages: &[PageState],
) -> Result<(), AllocError>
    requires { AreFull shape.now pages.now }
{
    let number = epoch.number;
    tell_number(out, form, number)?;
    for index in 0..shape.epoch_commits() {
        let Some(first) = page_in(shape, &epoch.blocks, 2 * index) else {
            return Ok(());
        };
        let Some(second) = page_in(shape, &epoch.blocks, 2 * index + 1) else {
            return Ok(());
        };
        let at = page_of_pair(pages, first, second);
        let Some(page) = pages.get(at as usize) else {
            return Ok(());
        };
        if !tell_commit(out, form, shape, number, index, at, page)? {
            return Ok(());
        }
    }
    Ok(())
}

/// Prints the epochs that a root names, the newest one first.
pub fn tell_epochs<A: Allocator>(
    out: &mut String,
    form: Form,
    root: &Root<A>,
    pages: &[PageState],
) -> Result<(), AllocError>
    requires { AreFull root.now.shape pages.now }
{
    let shape = root.shape();
    tell_epoch(out, form, shape, newest_of(root), pages)?;
    match older_of(root) {
        Some(older) => tell_epoch(out, form, shape, older, pages),
        None => Ok(()),
    }
}
