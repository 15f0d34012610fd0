//! The boards on which the parts are tested: a shape, pages that are not Erased, and one call that fails.
ghost use Rattle.std.specs.Prelude.{◌≡◌, ◌<◌, ℕ, length, replicate, IfOk};
ghost use Rattle.pk_base.specs.Shape.{page_count};
ghost use Rattle.pk_base.specs.Page.{erased};
ghost use Rattle.pk_nand.specs.Calls.{IsReady};
ghost use Rattle.pk_nand.specs.Operations.{IsErased};

use pk_base::{Shape, put_u64};
use pk_flash::{Flash, Left, Room, is_flash};
use pk_nand::{Nand, PageBytes, PageState};
use pk_rootfmt::first;
use std::alloc::{AllocError, Global};
use std::test::*;

/// The number of a call that no test makes.
pub const NONE: u64 = 100_000;

const ROOM: Room = Room {
    posted: 0,
    marks: 300,
};

/// The shape of these numbers.
pub fn shape_of(page_bytes: u32, block_pages: u32, blocks: u32) -> Result<Shape, Fail> {
    match Shape::new(page_bytes, block_pages, blocks) {
        Ok(shape) => Ok(shape),
        Err(_) => Err("a shape")?,
    }
}

/// The shape of 64 blocks of 16 pages of 512 bytes.
pub fn worked() -> Result<Shape, Fail>
    ensures shape { IfOk result (λ s. s ≡ record {
      page_bytes = 512;
      block_pages = 16;
      blocks = 64;
    }) }
    ensures numbers { IfOk result (λ s. (s.page_bytes ≡ 512) × (s.block_pages ≡ 16)
        × (s.blocks ≡ 64)) }
{
    match Shape::new(512, 16, 64) {
        Ok(shape) => Ok(shape),
        Err(_) => Err("a shape")?,
    }
}

/// The shape of 33 blocks of 8 pages of 512 bytes.
pub fn small() -> Result<Shape, Fail> {
    shape_of(512, 8, 33)
}

/// A board of Erased pages, of which the flash operation with this number fails and leaves this.
pub fn erased_board(alloc: Global, shape: Shape, call: u64, left: Left) -> Result<Flash, Fail>
    ensures ready { IfOk result (λ b. IsReady (⟦<Flash as Nand>⟧.state b) shape) }
    ensures pages { IfOk result (λ b. (⟦<Flash as Nand>⟧.state b).pages ≡ replicate
        (page_count shape) erased) }
    ensures each { IfOk result (λ b. (k : ℕ) → k < page_count shape
        → IsErased (⟦<Flash as Nand>⟧.state b).pages k) }
{
    let mut board = Flash::new(alloc, Some(shape), Vec::new(alloc), ROOM)?;
    board.fail(alloc, call, left)?;
    Ok(board)
}

/// A board with these pages, this input and this room.
pub fn board_in(
    alloc: Global,
    shape: Shape,
    pages: Vec<PageState>,
    input: Vec<u8>,
    room: Room,
) -> Result<Flash, Fail>
    ensures { IfOk result (λ b. IsReady (⟦<Flash as Nand>⟧.state b) shape) }
{
    if !is_flash(&shape, &pages) {
        return Err("pages of the shape")?;
    }
    Ok(Flash::with_pages(alloc, shape, pages, input, room)?)
}

/// A page that is Whole with these bytes.
pub fn whole(alloc: Global, bytes: &[u8]) -> Result<PageState, AllocError> {
    Ok(PageState::Whole(PageBytes::of(bytes.to_vec(alloc)?)))
}

/// The same page again.
pub fn copied(alloc: Global, page: &PageState) -> Result<PageState, AllocError> {
    match page {
        PageState::Erased => Ok(PageState::Erased),
        PageState::Whole(bytes) => whole(alloc, bytes.bytes()),
        PageState::Torn => Ok(PageState::Torn),
    }
}

/// What a page is that is not Erased.
#[derive(Clone, Copy)]
pub enum Held<'a> {
    /// The page of the first root, but for this number.
    Root(u64),
    /// The same without its first bytes.
    Foreign(u64),
    Bytes(&'a [u8]),
    Torn,
}

/// Writes the page of the first root, but for this number.
pub fn put_root(shape: &Shape, number: u64, into: &mut [u8])
    requires { length into.old ≡ shape.now.page_bytes }
    ensures { length into.new ≡ length into.old }
{
    shape.known();
    first(shape, into, &[]);
    put_u64(into, 24, number);
}

fn root_bytes(alloc: Global, shape: &Shape, number: u64) -> Result<Vec<u8>, AllocError>
    ensures { IfOk result (λ v. length v.items ≡ shape.now.page_bytes) }
{
    let mut bytes = Vec::from_elem(alloc, 0u8, shape.page_bytes() as usize)?;
    put_root(shape, number, &mut bytes);
    Ok(bytes)
}

fn state(alloc: Global, shape: &Shape, held: Held) -> Result<PageState, AllocError> {
    match held {
        Held::Torn => Ok(PageState::Torn),
        Held::Bytes(bytes) => whole(alloc, bytes),
        Held::Root(number) => Ok(PageState::Whole(PageBytes::of(root_bytes(
            alloc, shape, number,
        )?))),
        Held::Foreign(number) => {
            shape.known();
            let mut bytes = root_bytes(alloc, shape, number)?;
            put_u64(&mut bytes, 0, 0);
            Ok(PageState::Whole(PageBytes::of(bytes)))
        }
    }
}

// What this page is among those that are given.
fn held_in<'a>(pages: &[(u32, Held<'a>)], page: u32) -> Option<Held<'a>> {
    for (at, held) in pages {
        if *at == page {
            return Some(*held);
        }
    }
    None
}

/// A board with these pages, all others Erased, of which the flash operation with this number fails
/// and leaves this.
pub fn board_with(
    alloc: Global,
    shape: Shape,
    pages: &[(u32, Held)],
    call: u64,
    left: Left,
) -> Result<Flash, Fail>
    ensures { IfOk result (λ b. IsReady (⟦<Flash as Nand>⟧.state b) shape) }
{
    let mut states = Vec::new(alloc);
    for page in 0..shape.page_count() {
        match held_in(pages, page) {
            Some(held) => states.push(state(alloc, &shape, held)?)?,
            None => states.push(PageState::Erased)?,
        }
    }
    let mut board = board_in(alloc, shape, states, Vec::new(alloc), ROOM)?;
    board.fail(alloc, call, left)?;
    Ok(board)
}
