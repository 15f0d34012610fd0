//! Pages at their places in an epoch or a run.
ghost use Rattle.std.specs.Prelude.{◌≡◌, ◌*◌, ◌≤◌, length, MatchOption};
ghost use Rattle.pk_base.specs.Page.{page_in as page_in_blocks};

use crate::form::Form;
use pk_base::Shape;
use std::alloc::AllocError;
use std::fmt::Write;

/// What is at the place of a page of an epoch or of a run.
#[derive(Clone, Copy)]
pub enum Held {
    /// The page is Erased.
    Erased,
    /// The page is Torn.
    Torn,
    /// The page is Whole and not the one that belongs there.
    Wrong,
    /// The page that belongs there, with n entries.
    Entries { count: u32 },
}

/// The page at a place of these blocks; `None` exactly after their last page.
pub fn page_in(shape: &Shape, blocks: &[u16], place: u32) -> Option<u32>
    ensures { MatchOption result (length blocks.now * shape.now.block_pages ≤ place)
        (λ page. page ≡ page_in_blocks shape.now blocks.now place) }
{
    let count = shape.block_pages();
    match blocks.get((place / count) as usize) {
        Some(block) => Some(*block as u32 * count + place % count),
        None => None,
    }
}

/// Prints the page that belongs at a place, with `count` entries, which are printed after it.
fn tell_count(
    out: &mut String,
    form: Form,
    of: &str,
    page: u32,
    count: u32,
) -> Result<(), AllocError> {
    match form {
        Form::People => writeln!(out, "{of}: page {page}, {count} entries"),
        Form::Programs => writeln!(out, "page of={of} number={page} entries={count}"),
    }
}

/// Prints a page without entries, by what it is called.
fn tell_name(
    out: &mut String,
    form: Form,
    of: &str,
    page: u32,
    name: &str,
) -> Result<(), AllocError> {
    match form {
        Form::People => writeln!(out, "{of}: page {page} is {name}"),
        Form::Programs => writeln!(out, "page of={of} number={page} is={name}"),
    }
}

/// Prints a page at its place; its entries are printed after it.
pub fn tell_held(
    out: &mut String,
    form: Form,
    of: &str,
    page: u32,
    held: Held,
) -> Result<(), AllocError> {
    match held {
        Held::Entries { count } => tell_count(out, form, of, page, count),
        Held::Erased => tell_name(out, form, of, page, "erased"),
        Held::Torn => tell_name(out, form, of, page, "torn"),
        Held::Wrong => tell_name(out, form, of, page, "wrong"),
    }
}
