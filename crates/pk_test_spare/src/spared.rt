//! Boards with four spare blocks, and runs of the program over them. Whatever fails ends the test.

use pk_base::Shape;
use pk_flash::{Flash, Left, PageLeft, Room};
use pk_nand::PageState;
use pk_test_scripts::boards;
use pk_test_scripts::program::SCRIPT;
use pk_test_scripts::script::{Answer, Ask, Value, records, script};
use pk_test_scripts::steps::copies;
use pk_top::{Status, run_spared};
use std::alloc::Global;
use std::process::Abort;
use std::test::*;

/// The value of a step that did not fail.
pub fn done<T>(rt: &impl Abort, step: Result<T, Fail>) -> T {
    match step {
        Ok(value) => value,
        Err(_) => panic!(rt; "a step that fails"),
    }
}

/// The words that make a drive of 64 blocks of 16 pages, with four spare blocks.
pub const MAKE: [&str; 6] = ["spared", "4", "make", "512", "16", "64"];
/// Those that make one of 33 blocks of 8 pages.
pub const MAKE_SMALL: [&str; 6] = ["spared", "4", "make", "512", "8", "33"];
/// Those that serve the input of a board.
pub const SERVE: [&str; 4] = ["spared", "4", "serve", "36"];
/// Those that list all keys.
pub const LIST: [&str; 3] = ["spared", "4", "list"];
/// Those that ask for the value of the worked script.
pub const GET: [&str; 4] = ["spared", "4", "get", "61"];

/// The first block of the tables: after 64 blocks of the drive and four spare blocks.
pub const FIRST_TABLE_BLOCK: u32 = 68;
/// The pages of a block.
pub const BLOCK_PAGES: u32 = 16;

// Enough for any run of these trials.
const ROOM: Room = Room {
    posted: 4096,
    marks: 400,
};

/// What became of a run: its status, how many spare blocks are left, and the inner board.
#[derive(Drop)]
pub struct Ran {
    pub status: Status,
    pub left: u16,
    pub flash: Flash,
}

/// An inner board between two runs: its shape, and its pages.
#[derive(Drop)]
pub struct Image {
    pub shape: Shape,
    pub pages: Vec<PageState>,
}

/// Calls of a run that fail, and what they leave.
#[derive(Drop)]
pub struct Failing {
    pub call: u64,
    pub left: Left,
}

/// What a failing call leaves, by its number; the last three are of a program of the second page of a pair.
pub fn way(number: u8) -> Left {
    match number {
        0 => Left::Untouched,
        1 => Left::Torn,
        2 => Left::Done,
        3 => Left::WithEven(PageLeft::Untouched),
        4 => Left::WithEven(PageLeft::Torn),
        _ => Left::WithEven(PageLeft::Done),
    }
}

/// The shape of the inner flash under the drive of 64 blocks: its blocks, four spare blocks and two for tables.
pub fn inner(rt: &impl Abort) -> Shape {
    match Shape::new(512, 16, 70) {
        Ok(shape) => shape,
        Err(_) => panic!(rt; "a shape"),
    }
}

/// The run of words over this inner board, which are not refused. The flash with spare blocks records this many marks; if that is 0, it
/// records none, and takes any number.
pub fn run_logged(rt: &impl Abort, alloc: Global, flash: Flash, words: &[&str], log: usize) -> Ran {
    let (status, remap) = run_spared(alloc, words, flash, log);
    match remap {
        Some(remap) => {
            let left = remap.spares_left();
            Ran {
                status,
                left,
                flash: remap.into_inner(),
            }
        }
        None => panic!(rt; "words that are refused"),
    }
}

/// The same, without a record of marks.
pub fn run_over(rt: &impl Abort, alloc: Global, flash: Flash, words: &[&str]) -> Ran {
    run_logged(rt, alloc, flash, words, 0)
}

/// A board as it is now.
pub fn left(rt: &impl Abort, alloc: Global, flash: &Flash) -> Image {
    match flash.shape() {
        Some(shape) => Image {
            shape,
            pages: done(rt, boards::pages_left(alloc, flash)),
        },
        None => panic!(rt; "a board without an image"),
    }
}

/// An inner board with copies of these pages, and this input.
pub fn board_of(rt: &impl Abort, alloc: Global, image: &Image, input: &[u8]) -> Flash {
    let own = done(rt, copies(alloc, &image.pages));
    let input = input.to_vec(alloc).expect(rt, "memory");
    done(rt, boards::board_in(alloc, image.shape, own, input, ROOM))
}

/// The inner board of a drive that these words just made.
pub fn made_by(rt: &impl Abort, alloc: Global, words: &[&str]) -> Image {
    let flash = boards::blank(alloc, None, Vec::new(alloc)).expect(rt, "memory");
    let ran = run_over(rt, alloc, flash, words);
    assert!(rt; ran.status == Status::DONE && ran.left == 4);
    left(rt, alloc, &ran.flash)
}

/// The inner board of a drive of 64 blocks that was just made.
pub fn made(rt: &impl Abort, alloc: Global) -> Image {
    made_by(rt, alloc, &MAKE)
}

/// An inner board with copies of these pages and this input, of whose calls these fail.
pub fn failing_board(
    rt: &impl Abort,
    alloc: Global,
    image: &Image,
    input: &[u8],
    failing: Vec<Failing>,
) -> Flash {
    let mut flash = board_of(rt, alloc, image, input);
    for one in failing {
        flash.fail(alloc, one.call, one.left).expect(rt, "memory");
    }
    flash
}

/// The session of this input on copies of these pages, in which these calls fail.
pub fn serve_failing(
    rt: &impl Abort,
    alloc: Global,
    image: &Image,
    input: &[u8],
    failing: Vec<Failing>,
) -> Ran {
    run_over(
        rt,
        alloc,
        failing_board(rt, alloc, image, input, failing),
        &SERVE,
    )
}

/// The same, in which none does.
pub fn serve(rt: &impl Abort, alloc: Global, image: &Image, input: &[u8]) -> Ran {
    serve_failing(rt, alloc, image, input, Vec::new(alloc))
}

/// One call that fails.
pub fn one(rt: &impl Abort, alloc: Global, call: u64, left: Left) -> Vec<Failing> {
    let mut all = Vec::new(alloc);
    all.push(Failing { call, left }).expect(rt, "memory");
    all
}

/// What a word posts over copies of these pages, which ends with status 0.
pub fn said(rt: &impl Abort, alloc: Global, image: &Image, words: &[&str], wanted: &[u8]) -> Ran {
    let flash = board_of(rt, alloc, image, &[]);
    let ran = run_over(rt, alloc, flash, words);
    assert!(rt; ran.status == Status::DONE && ran.flash.posted() == wanted);
    ran
}

/// The number of a call near the end of the opening of the worked session, after which it programs and erases.
pub fn call_after_opening(flash: &Flash) -> u64 {
    flash.read_count().saturating_sub(12)
}

/// More calls than a session makes after its opening, if it moves two blocks.
pub const MOST_CALLS: u64 = 60;

/// The calls of the worked session whose failure moves a block to a spare block.
pub fn moving(rt: &impl Abort, alloc: Global, image: &Image) -> Vec<u64> {
    let quiet = serve(rt, alloc, image, &SCRIPT);
    let start = call_after_opening(&quiet.flash);
    let mut found = Vec::new(alloc);
    for call in start..start.saturating_add(40) {
        let failing = one(rt, alloc, call, Left::Torn);
        let ran = serve_failing(rt, alloc, image, &SCRIPT, failing);
        if ran.left == 3 {
            found.push(call).expect(rt, "memory");
        }
    }
    assert!(rt; found.len() >= 4);
    found
}

// What the next session asks: the value of the worked script, a Store of another value, and this value.
const ASKS: [Ask; 3] = [
    Ask::Retrieve(0x61),
    Ask::Store(0x62, OTHER),
    Ask::Retrieve(0x62),
];

const WORKED: Value = Value {
    first: 0x61,
    len: 3,
};

const OTHER: Value = Value { first: 7, len: 600 };

/// The drive can be used: the value of the worked script is there, or, if it may lack, is not; and another value is stored and read.
pub fn serves_on(rt: &impl Abort, alloc: Global, image: &Image, may_lack: bool) {
    let input = script(alloc, &ASKS).expect(rt, "memory");
    let ran = serve(rt, alloc, image, &input);
    let has = [Answer::Found(WORKED), Answer::Done, Answer::Found(OTHER)];
    let lacks = [Answer::Missing, Answer::Done, Answer::Found(OTHER)];
    let has = records(alloc, &has).expect(rt, "memory");
    let lacks = records(alloc, &lacks).expect(rt, "memory");
    let posted = ran.flash.posted();
    assert!(rt; ran.status == Status::DONE);
    assert!(rt; posted == has.as_slice() || (may_lack && posted == lacks.as_slice()));
}
