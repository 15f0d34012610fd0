//! The steps of the trials: boards that the program serves, and what is expected of them. Whatever
//! fails ends the trial.

use crate::boards::{self, MAKE_WORKED, Session, board, board_in, made, shape_of, worked};
use crate::exits::DONE;
use crate::script::{Answer, Ask, records, script};
use crate::tried::{self, Place, Program, same};
use pk_base::Shape;
use pk_flash::{Flash, Left, Room};
use pk_nand::{Mark, PageState};
use std::alloc::Global;
use std::test::*;

/// The words that make a drive of 33 blocks of 8 pages.
pub const MAKE_SMALL: [&str; 4] = ["make", "512", "8", "33"];

// ---- what is expected

/// A failure if this does not hold.
pub fn holds(is_so: bool, what: &str, place: Place) -> Result<(), Fail> {
    tried::holds(is_so, format_args!("{what}, {place}"))
}

/// A failure if there are fewer than this many.
pub fn at_least(count: u32, least: u32, what: &str) -> Result<(), Fail> {
    tried::holds(
        count >= least,
        format_args!("{what}: {count}, and not {least}"),
    )
}

/// A failure if the session had another status.
pub fn ended(session: &Session, status: u8, place: Place) -> Result<(), Fail> {
    let found = session.status;
    tried::holds(
        found == status,
        format_args!("the status, {place}: {found}, and not {status}"),
    )
}

/// A failure if the session had another status, or posted other bytes.
pub fn posted(session: &Session, status: u8, bytes: &[u8], place: Place) -> Result<(), Fail> {
    ended(session, status, place)?;
    holds(session.flash.posted() == bytes, "the posted bytes", place)
}

/// A failure if the session did not end well, or posted other records than these.
pub fn answered(
    alloc: Global,
    session: &Session,
    answers: &[Answer],
    place: Place,
) -> Result<(), Fail> {
    let want = records(alloc, answers)?;
    posted(session, DONE, &want, place)
}

/// A failure if the session made another number of programs or of erases.
pub fn wrote(session: &Session, programs: u64, erases: u64) -> Result<(), Fail> {
    same(session.flash.program_count(), programs, "programs")?;
    same(session.flash.erase_count(), erases, "erases")
}

/// The board after a session that has to end well.
pub fn ended_well(session: Session, place: Place) -> Result<Flash, Fail> {
    ended(&session, DONE, place)?;
    Ok(session.flash)
}

// ---- bytes

/// Adds these bytes.
pub fn add(into: &mut Vec<u8>, bytes: &[u8]) -> Result<(), Fail> {
    into.extend_from_slice(bytes)?;
    Ok(())
}

/// A copy of these bytes.
pub fn copied(alloc: Global, bytes: &[u8]) -> Result<Vec<u8>, Fail> {
    Ok(bytes.to_vec(alloc)?)
}

/// These bytes, one after another.
pub fn joined(alloc: Global, parts: &[&[u8]]) -> Result<Vec<u8>, Fail> {
    let mut bytes = Vec::new(alloc);
    for part in parts {
        add(&mut bytes, part)?;
    }
    Ok(bytes)
}

// ---- boards

/// The shape of 33 blocks of 8 pages.
pub fn small() -> Result<Shape, Fail> {
    shape_of(512, 8, 33)
}

/// A board of Erased pages, or one without an image, with this input.
pub fn blank(alloc: Global, shape: Option<Shape>, input: &[u8]) -> Result<Flash, Fail> {
    let own = copied(alloc, input)?;
    Ok(boards::blank(alloc, shape, own)?)
}

// The room of a session of several hundred commands.
const ROOM: Room = Room {
    posted: 131_072,
    marks: 4000,
};

/// A board with these pages and this input, with room for a session of several hundred commands.
pub fn roomy_board(
    alloc: Global,
    shape: Shape,
    pages: Vec<PageState>,
    input: Vec<u8>,
) -> Result<Flash, Fail> {
    board_in(alloc, shape, pages, input, ROOM)
}

/// A board of 64 blocks with these pages and this input.
pub fn worked_board(alloc: Global, pages: Vec<PageState>, input: Vec<u8>) -> Result<Flash, Fail> {
    board(alloc, worked()?, pages, input)
}

/// A made drive of 64 blocks, with this input.
pub fn made_board<P: Program>(alloc: Global, input: Vec<u8>) -> Result<Flash, Fail> {
    worked_board(alloc, made::<P>(alloc, &MAKE_WORKED)?, input)
}

/// The session of a board's input, with the frames of two levels.
pub fn serve<P: Program>(alloc: Global, flash: Flash) -> Session {
    serve_with::<P>(alloc, flash, "36")
}

/// The session of a board's input, with this many frames.
pub fn serve_with<P: Program>(alloc: Global, mut flash: Flash, frames: &str) -> Session {
    let status = P::run(alloc, &["serve", frames], &mut flash);
    Session { status, flash }
}

/// Serves this script on pages of 33 blocks.
pub fn ask_small<P: Program>(
    alloc: Global,
    pages: Vec<PageState>,
    asks: &[Ask],
) -> Result<Session, Fail> {
    let input = script(alloc, asks)?;
    Ok(serve::<P>(alloc, board(alloc, small()?, pages, input)?))
}

/// Serves this script on pages of 64 blocks.
pub fn ask<P: Program>(
    alloc: Global,
    pages: Vec<PageState>,
    asks: &[Ask],
) -> Result<Session, Fail> {
    let input = script(alloc, asks)?;
    Ok(serve::<P>(alloc, worked_board(alloc, pages, input)?))
}

/// Copies of these pages.
pub fn copies(alloc: Global, pages: &[PageState]) -> Result<Vec<PageState>, Fail> {
    let mut own = Vec::new(alloc);
    for page in pages {
        own.push(boards::copied(alloc, page)?)?;
    }
    Ok(own)
}

// Whether a page is in the same state as another.
fn is_same(page: &PageState, other: &PageState) -> bool {
    match (page, other) {
        (PageState::Erased, PageState::Erased) | (PageState::Torn, PageState::Torn) => true,
        (PageState::Whole(bytes), PageState::Whole(other)) => bytes.bytes() == other.bytes(),
        _ => false,
    }
}

/// A failure if these pages are not in the same states, one by one.
pub fn same_pages(left: &[PageState], wanted: &[PageState], place: Place) -> Result<(), Fail> {
    holds(left.len() == wanted.len(), "as many pages", place)?;
    for i in 0..left.len().min(wanted.len()) {
        holds(is_same(&left[i], &wanted[i]), "a page", place)?;
    }
    Ok(())
}

/// The place of the last program among the marks.
pub fn last_program(flash: &Flash) -> Option<usize> {
    let mut last = None;
    for i in 0..flash.marks() {
        if matches!(flash.mark(i), Mark::Program { .. }) {
            last = Some(i);
        }
    }
    last
}
