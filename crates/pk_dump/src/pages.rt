//! The pages of a flash in memory.
ghost use Rattle.std.specs.Prelude.{◌≡◌, ◌<◌, length, IfOk};
ghost use Rattle.pk_base.specs.Shape as spec;
ghost use Rattle.pk_base.specs.Page.{page_at};
ghost use Rattle.pk_nand.specs.Calls.{IsReady};
ghost use Rattle.pk_nand.specs.Seen.{state, states};
ghost use Rattle.pk_scan.specs.Board.{StaysReady};
ghost use Rattle.pk_dump.specs.Pages.{IsFullPage, AreFull, read_as};

use crate::errors::DumpError;
use pk_base::Shape;
use pk_nand::{Nand, PageBytes, PageRead, PageState};
use std::alloc::{AllocError, Global};

/// The same bytes in memory of their own.
fn copied(alloc: Global, bytes: &[u8]) -> Result<PageBytes, AllocError>
    ensures { IfOk result (λ b. b ≡ bytes.now) }
{
    Ok(PageBytes::of(bytes.to_vec(alloc)?))
}

/// A page that was read, with its bytes in the buffer if it is Whole.
fn page_of(alloc: Global, found: PageRead, bytes: &[u8]) -> Result<PageState, AllocError>
    ensures { IfOk result (λ p. state p ≡ read_as found bytes.now) }
{
    match found {
        PageRead::Erased => Ok(PageState::Erased),
        PageRead::Torn => Ok(PageState::Torn),
        PageRead::Whole => match copied(alloc, bytes) {
            Ok(bytes) => Ok(PageState::Whole(bytes)),
            Err(error) => Err(error),
        },
    }
}

/// A page of the flash. `buf` has the bytes of a page, which are lost.
fn read_page<B: Nand>(
    alloc: Global,
    board: &mut B,
    shape: &Shape,
    page: u32,
    buf: &mut [u8],
) -> Result<PageState, DumpError>
    requires ready { IsReady (B.state board.old) shape.now }
    requires exists { page < spec.page_count shape.now }
    requires room { length buf.old ≡ shape.now.page_bytes }

    // The page as it is.
    ensures found { IfOk result (λ p. state p ≡ page_at (B.state board.old).pages page) }
    ensures full { IfOk result (λ p. IsFullPage shape.now (state p)) }

    // Either way board and buffer may be used again.
    ensures board { StaysReady shape.now (B.state board.old) (B.state board.new) }
    ensures buffer { length buf.new ≡ length buf.old }
{
    shape.known();
    match board.read(page, buf) {
        Ok(found) => match page_of(alloc, found, buf) {
            Ok(page) => Ok(page),
            Err(_) => Err(DumpError::Memory),
        },
        Err(_) => Err(DumpError::Fault),
    }
}

/// All pages of the flash, by one read each. `buf` has the bytes of a page, which are lost.
pub fn read_pages<B: Nand>(
    alloc: Global,
    board: &mut B,
    shape: &Shape,
    buf: &mut [u8],
) -> Result<Vec<PageState>, DumpError>
    requires ready { IsReady (B.state board.old) shape.now }
    requires room { length buf.old ≡ shape.now.page_bytes }
    ensures pages { IfOk result (λ v. states v.items ≡ (B.state board.old).pages) }
    ensures full { IfOk result (λ v. AreFull shape.now v.items) }
    ensures board { StaysReady shape.now (B.state board.old) (B.state board.new) }
    ensures buffer { length buf.new ≡ length buf.old }
{
    let count = shape.page_count();
    let mut pages = match Vec::with_capacity(alloc, count as usize) {
        Ok(pages) => pages,
        Err(_) => return Err(DumpError::Memory),
    };
    for page in 0..count {
        match read_page(alloc, board, shape, page, buf) {
            Ok(found) => match pages.push(found) {
                Ok(()) => {}
                Err(_) => return Err(DumpError::Memory),
            },
            Err(error) => return Err(error),
        }
    }
    Ok(pages)
}
