//! Boards with the pages that an earlier session left, and what the program makes of them.

use crate::exits::DONE;
use crate::script::{Ask, script};
use crate::tried::{Place, Program, same};
use pk_base::Shape;
pub use pk_test_boards::{board_in, copied, shape_of, small, whole, worked};
use pk_flash::{Flash, Left, Room};
use pk_nand::PageState;
use std::alloc::{AllocError, Global};
use std::test::*;

/// The words that make a drive of 64 blocks of 16 pages.
pub const MAKE_WORKED: [&str; 4] = ["make", "512", "16", "64"];

const ROOM: Room = Room {
    posted: 16384,
    marks: 200,
};

/// A board of Erased pages, or one without an image, with this input.
pub fn blank(alloc: Global, shape: Option<Shape>, input: Vec<u8>) -> Result<Flash, AllocError> {
    Flash::new(alloc, shape, input, ROOM)
}

/// A board with these pages and this input.
pub fn board(
    alloc: Global,
    shape: Shape,
    pages: Vec<PageState>,
    input: Vec<u8>,
) -> Result<Flash, Fail> {
    board_in(alloc, shape, pages, input, ROOM)
}

/// The pages after the first k marks, of which the next, if there is one, leaves this.
pub fn cut(alloc: Global, flash: &Flash, k: usize, left: &Left) -> Result<Vec<PageState>, Fail> {
    if flash.shape().is_none() || k > flash.marks() {
        return Err(Fail::from("a cut"));
    }
    Ok(flash.cut(alloc, k, left)?)
}

fn push_pages(into: &mut Vec<PageState>, alloc: Global, flash: &Flash) -> Result<(), Fail> {
    let shape = flash.shape().ok_or("a shape")?;
    for page in 0..shape.page_count() {
        into.push(copied(alloc, flash.page(page))?)?;
    }
    Ok(())
}

/// The pages that a board has now.
pub fn pages_left(alloc: Global, flash: &Flash) -> Result<Vec<PageState>, Fail> {
    let mut pages = Vec::new(alloc);
    push_pages(&mut pages, alloc, flash)?;
    Ok(pages)
}

/// The pages of a drive that these words made.
pub fn made<P: Program>(alloc: Global, words: &[&str]) -> Result<Vec<PageState>, Fail> {
    let mut flash = blank(alloc, None, Vec::new(alloc))?;
    let status = P::run(alloc, words, &mut flash);
    pages_done(alloc, status, &flash)
}

// The pages that a board has now, if this is the status of a session that ended well.
fn pages_done(alloc: Global, status: u8, flash: &Flash) -> Result<Vec<PageState>, Fail> {
    if status != DONE {
        return Err(Fail::from("a session that ends well"));
    }
    pages_left(alloc, flash)
}

/// The status with which the program serves the board's input with this many frames.
pub fn serve_with<P: Program>(alloc: Global, flash: &mut Flash, frames: &str) -> u8 {
    P::run(alloc, &["serve", frames], flash)
}

/// The status with which the program serves the board's input with the frames of two levels.
pub fn serve<P: Program>(alloc: Global, flash: &mut Flash) -> u8 {
    serve_with::<P>(alloc, flash, "36")
}

/// A session after its end.
#[derive(Drop)]
pub struct Session {
    pub status: u8,
    pub flash: Flash,
}

impl Session {
    /// A failure if the session had another status.
    pub fn ended(&self, status: u8, place: Place) -> Result<(), Fail> {
        same(self.status, status, format_args!("the status, {place}"))
    }

    /// A failure if the session had another status, or posted other bytes.
    pub fn posted(&self, status: u8, posted: &[u8], place: Place) -> Result<(), Fail> {
        self.ended(status, place)?;
        let found = self.flash.posted();
        same(found, posted, format_args!("the posted bytes, {place}"))
    }
}

/// The session of a board's input, with the frames of two levels.
pub fn serve_board<P: Program>(alloc: Global, mut flash: Flash) -> Session {
    let status = serve::<P>(alloc, &mut flash);
    Session { status, flash }
}

/// A made drive of 64 blocks, with this input.
pub fn made_board<P: Program>(alloc: Global, input: Vec<u8>) -> Result<Flash, Fail> {
    board(alloc, worked()?, made::<P>(alloc, &MAKE_WORKED)?, input)
}

/// Serves this script on these pages.
pub fn served<P: Program>(
    alloc: Global,
    shape: Shape,
    pages: Vec<PageState>,
    asks: &[Ask],
) -> Result<Session, Fail> {
    let flash = board(alloc, shape, pages, script(alloc, asks)?)?;
    Ok(serve_board::<P>(alloc, flash))
}

/// The pages that a session leaves, which is to end well.
pub fn pages_behind<P: Program>(
    alloc: Global,
    shape: Shape,
    pages: Vec<PageState>,
    asks: &[Ask],
) -> Result<Vec<PageState>, Fail> {
    let done = served::<P>(alloc, shape, pages, asks)?;
    pages_done(alloc, done.status, &done.flash)
}
