//! Roots: what each page of the root blocks holds.
ghost use Rattle.std.specs.Prelude.{◌≡◌, ◌≤◌, None, Some, MatchBool};
ghost use Rattle.pk_nand.specs.Seen.{state};
ghost use Rattle.pk_rootfmt.specs.Newest.{root_of};
ghost use Rattle.pk_dump.specs.Pages.{IsFullPage, AreFull};

use crate::form::Form;
use crate::words::{tell_blocks, tell_pair};
use pk_base::{LEVELS, Shape};
use pk_nand::PageState;
use pk_rootfmt::Root;
use std::alloc::{AllocError, Allocator, Global};
use std::fmt::Write;

/// Takes the root of a page, and returns whether there is one; without one the root is unchanged.
fn root_in<A: Allocator>(root: &mut Root<A>, page: &PageState) -> bool
    requires { IsFullPage root.old.shape (state page.now) }
    ensures found { MatchBool result (root_of root.old.shape (state page.now) ≡ Some root.new.root)
        (root_of root.old.shape (state page.now) ≡ None) }
    ensures shape { root.new.shape ≡ root.old.shape }
{
    root.shape().known();
    match page {
        PageState::Whole(bytes) => match root.decode(bytes.bytes()) {
            Ok(()) => true,
            Err(_) => false,
        },
        _ => false,
    }
}

/// Prints the number of a root and of its newest epoch.
fn tell_epoch<A: Allocator>(
    out: &mut String,
    form: Form,
    page: u32,
    root: &Root<A>,
) -> Result<(), AllocError> {
    let number = root.number();
    let epoch = root.epoch();
    match form {
        Form::People => write!(
            out,
            "root {number} in page {page}: epoch {epoch} in blocks "
        )?,
        Form::Programs => write!(
            out,
            "root page={page} number={number} epoch={epoch} blocks="
        )?,
    }
    tell_pair(out, root.newest())
}

/// Prints the blocks of the older epoch, after those of the newest one.
fn tell_older(out: &mut String, form: Form, older: Option<[u16; 2]>) -> Result<(), AllocError> {
    match older {
        Some(blocks) => {
            out.push_str(match form {
                Form::People => ", the older one in blocks ",
                Form::Programs => " older=",
            })?;
            tell_pair(out, blocks)
        }
        None => out.push_str(match form {
            Form::People => "",
            Form::Programs => " older=-",
        }),
    }
}

/// Prints the limits of the namespaces of a root; for people not if it has one namespace with the limit
/// of the shape.
fn tell_limits<A: Allocator>(
    out: &mut String,
    form: Form,
    root: &Root<A>,
) -> Result<(), AllocError> {
    let is_whole = root.spaces() == 1 && root.space_limit(1) == root.shape().limit();
    match form {
        Form::People if is_whole => return Ok(()),
        Form::People => out.push_str("; limits of ")?,
        Form::Programs => out.push_str(" limits=")?,
    }
    for space in 1..=root.spaces() {
        if space > 1 {
            out.push_str(",")?;
        }
        write!(out, "{}", root.space_limit(space))?;
    }
    match form {
        Form::People => out.push_str(" pages"),
        Form::Programs => Ok(()),
    }
}

/// Prints whether a root is the newest, at the end of its line.
fn tell_newest(out: &mut String, form: Form, is_newest: bool) -> Result<(), AllocError> {
    out.push_str(match (form, is_newest) {
        (Form::People, true) => "; the newest\n",
        (Form::People, false) => "\n",
        (Form::Programs, true) => " newest=1\n",
        (Form::Programs, false) => " newest=0\n",
    })
}

/// Prints the root of a page.
fn tell_root<A: Allocator>(
    out: &mut String,
    form: Form,
    page: u32,
    root: &Root<A>,
    newest: Option<u32>,
) -> Result<(), AllocError> {
    tell_epoch(out, form, page, root)?;
    tell_older(out, form, root.older())?;
    for level in 1..=LEVELS {
        tell_level(out, form, level, root)?;
    }
    tell_limits(out, form, root)?;
    tell_newest(out, form, newest == Some(page))
}

/// Prints the run of a level under a root.
fn tell_level<A: Allocator>(
    out: &mut String,
    form: Form,
    level: u8,
    root: &Root<A>,
) -> Result<(), AllocError>
    requires { 1 ≤ level × level ≤ LEVELS }
{
    let entries = root.entries(level);
    match form {
        Form::People if entries == 0 => return Ok(()),
        Form::People => write!(out, "; run {level} of {entries} entries in blocks ")?,
        Form::Programs => write!(out, " run{level}={entries} run{level}_blocks=")?,
    }
    tell_blocks(out, root.blocks(level))
}

/// Prints every root of the root blocks.
pub fn tell_roots(
    alloc: Global,
    out: &mut String,
    form: Form,
    shape: &Shape,
    pages: &[PageState],
    newest: Option<u32>,
) -> Result<(), AllocError>
    requires { AreFull shape.now pages.now }
{
    let mut root = Root::new(alloc, *shape)?;
    for at in 0..shape.root_pages() {
        let Some(page) = pages.get(at as usize) else {
            return Ok(());
        };
        if root_in(&mut root, page) {
            tell_root(out, form, at, &root, newest)?;
        }
    }
    Ok(())
}
