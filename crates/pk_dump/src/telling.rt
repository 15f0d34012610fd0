//! All that is on a flash.
ghost use Rattle.std.specs.Prelude.{◌≡◌, length, None, Some, IfOk, MatchOption};
ghost use Rattle.pk_base.specs.Page.{page_at};
ghost use Rattle.pk_nand.specs.Calls.{IsReady};
ghost use Rattle.pk_rootfmt.specs.Newest.{newest_root};
ghost use Rattle.pk_scan.specs.Board.{StaysReady};
ghost use Rattle.pk_dump.specs.Pages.{AreFull};
ghost use Rattle.pk_dump.specs.Findings.{IsFindingOf};

use crate::block::{Ground, tell_blocks};
use crate::errors::DumpError;
use crate::finding::Finding;
use crate::form::Form;
use crate::journal::tell_epochs;
use crate::pages::read_pages;
use crate::reading::{Reading, reading_of, tell_reading};
use crate::root::tell_roots;
use crate::run::tell_runs;
use pk_base::Shape;
use pk_nand::Nand;
use pk_root::newest;
use pk_rootfmt::Root;
use std::alloc::{AllocError, Global};
use std::fmt::Write;

/// Prints the shape of a flash.
fn tell_shape(out: &mut String, form: Form, shape: &Shape) -> Result<(), AllocError> {
    let bytes = shape.page_bytes();
    let pages = shape.block_pages();
    let blocks = shape.blocks();
    match form {
        Form::People => writeln!(out, "{blocks} blocks of {pages} pages of {bytes} bytes"),
        Form::Programs => {
            writeln!(
                out,
                "image page_bytes={bytes} block_pages={pages} blocks={blocks}"
            )
        }
    }
}

/// The page of the newest root, which is taken into `root`; `None` exactly if there is none. `buf`
/// has the size of a page and is overwritten.
fn find_newest<B: Nand>(
    board: &mut B,
    root: &mut Root<Global>,
    buf: &mut [u8],
) -> Result<Option<u32>, DumpError>
    requires ready { IsReady (B.state board.old) root.old.shape }
    requires room { length buf.old ≡ root.old.shape.page_bytes }
    ensures found { IfOk result (λ r. MatchOption r
        (newest_root root.old.shape (page_at (B.state board.old).pages) ≡ None) (λ page.
        newest_root root.old.shape (page_at (B.state board.old).pages)
        ≡ Some (page, root.new.root))) }
    ensures shape { root.new.shape ≡ root.old.shape }
    ensures board { StaysReady root.old.shape (B.state board.old) (B.state board.new) }
{
    match newest(board, root, buf) {
        Ok(page) => Ok(page),
        Err(_) => Err(DumpError::Fault),
    }
}

/// Finds what is on a flash.
fn find<B: Nand>(alloc: Global, board: &mut B, shape: Shape) -> Result<Finding, DumpError>
    requires ready { IsReady (B.state board.old) shape }
    ensures found { IfOk result (λ f. IsFindingOf shape (B.state board.old).pages f) }
    ensures board { StaysReady shape (B.state board.old) (B.state board.new) }
{
    let Ok(mut buf) = Vec::from_elem(alloc, 0u8, shape.page_bytes() as usize) else {
        return Err(DumpError::Memory);
    };
    let Ok(mut root) = Root::new(alloc, shape) else {
        return Err(DumpError::Memory);
    };
    let pages = read_pages(alloc, board, &shape, &mut buf)?;
    let newest = find_newest(board, &mut root, &mut buf)?;
    let reading = reading_of(alloc, board, shape)?;
    Ok(Finding {
        pages,
        root,
        newest,
        reading,
    })
}

/// Prints what was found.
fn tell(alloc: Global, out: &mut String, form: Form, found: &Finding) -> Result<(), AllocError> {
    let shape = found.root.shape();
    tell_shape(out, form, shape)?;
    tell_roots(alloc, out, form, shape, &found.pages, found.newest)?;
    let root = match found.newest {
        Some(_) => Some(&found.root),
        None => None,
    };
    if let Some(root) = root {
        tell_epochs(out, form, root, &found.pages)?;
        tell_runs(out, form, root, &found.pages)?;
    }
    let live = match &found.reading {
        Reading::Map(found) => Some(&found.live),
        _ => None,
    };
    let ground = Ground {
        shape,
        root,
        live,
        pages: &found.pages,
    };
    tell_blocks(out, form, &ground)?;
    tell_reading(out, form, &found.reading)
}

/// Prints what is on the flash of a board of this shape: its shape, every root with the newest
/// marked, the epochs and the runs of the newest root with their entries, the blocks, and how
/// reading the flash ends. Nothing but reads is done. `Fault` if a read failed, `Memory` if the
/// allocator has none.
pub fn dump<B: Nand>(
    alloc: Global,
    form: Form,
    board: &mut B,
    shape: Shape,
) -> Result<String, DumpError>
    requires ready { IsReady (B.state board.old) shape }
    ensures board { StaysReady shape (B.state board.old) (B.state board.new) }
{
    let found = find(alloc, board, shape)?;
    let mut out = String::new(alloc);
    match tell(alloc, &mut out, form, &found) {
        Ok(()) => Ok(out),
        Err(_) => Err(DumpError::Memory),
    }
}
