//! Two boards that the program uses as one, and each of them alone. Whatever fails ends the test.

use pk_base::Shape;
use pk_flash::{Flash, Left, Room};
use pk_nand::PageState;
use pk_test_scripts::boards;
use pk_test_scripts::boards::pages_left;
use pk_test_scripts::steps::copies;
use pk_top::{run, run_pair};
use std::alloc::Global;
use std::process::Abort;
use std::test::*;

/// The value of a step that did not fail.
pub fn done<T>(rt: &impl Abort, step: Result<T, Fail>) -> T {
    match step {
        Ok(value) => value,
        Err(_) => panic!(rt; "a step that fails"),
    }
}

/// The words that make a drive of 33 blocks of 8 pages.
pub const MAKE_SMALL: &str = "make 512 8 33";
/// Those that make one of 64 blocks of 16 pages.
pub const MAKE_WORKED: &str = "make 512 16 64";

// Enough for any run of these trials.
const ROOM: Room = Room {
    posted: 4096,
    marks: 200,
};

/// The pages of two drives of one shape.
#[derive(Drop)]
pub struct Images {
    pub shape: Shape,
    pub first: Vec<PageState>,
    pub second: Vec<PageState>,
}

/// What became of a run: its status, and both boards.
#[derive(Drop)]
pub struct Ran {
    pub status: u8,
    pub first: Flash,
    pub second: Flash,
}

/// One of the two boards.
#[derive(Clone, Copy, PartialEq, Eq)]
pub enum Half {
    First,
    Second,
}

/// A word, the keys that `list` says before it, those that it says after it, and a word that asks for a value.
#[derive(Clone, Copy)]
pub struct Change {
    pub text: &'static str,
    pub before: &'static [u8],
    pub after: &'static [u8],
    pub asking: &'static str,
}

impl Ran {
    /// The board of this half.
    pub fn of(&self, half: Half) -> &Flash {
        match half {
            Half::First => &self.first,
            Half::Second => &self.second,
        }
    }
}

/// The words of a text, which single blanks divide.
fn words_of<'t>(rt: &impl Abort, alloc: Global, text: &'t str) -> Vec<&'t str> {
    let mut words = Vec::new(alloc);
    for word in text.split(' ') {
        words.push(word).expect(rt, "memory");
    }
    words
}

/// The status of a run of a word over one board.
fn status_of(rt: &impl Abort, alloc: Global, flash: &mut Flash, text: &str) -> u8 {
    let words = words_of(rt, alloc, text);
    run(alloc, &words, flash).0
}

/// The status of a run of a word over two boards.
pub fn pair_status(
    rt: &impl Abort,
    alloc: Global,
    first: &mut Flash,
    second: &mut Flash,
    text: &str,
) -> u8 {
    let words = words_of(rt, alloc, text);
    run_pair(alloc, &words, first, second).0
}

/// A board without an image and without input.
pub fn blank(rt: &impl Abort, alloc: Global) -> Flash {
    boards::blank(alloc, None, Vec::new(alloc)).expect(rt, "memory")
}

/// A board with a drive that these words made.
pub fn made(rt: &impl Abort, alloc: Global, text: &str) -> Flash {
    let mut flash = blank(rt, alloc);
    assert!(rt; status_of(rt, alloc, &mut flash, text) == 0, "{text}");
    flash
}

/// The shape of a board that has a drive.
pub fn shape_of(rt: &impl Abort, flash: &Flash) -> Shape {
    match flash.shape() {
        Some(shape) => shape,
        None => panic!(rt; "a shape"),
    }
}

/// A board with copies of these pages, and no input.
pub fn board_of(rt: &impl Abort, alloc: Global, shape: Shape, pages: &[PageState]) -> Flash {
    let own = done(rt, copies(alloc, pages));
    let input = Vec::new(alloc);
    done(rt, boards::board_in(alloc, shape, own, input, ROOM))
}

/// The images of two boards that have drives of one shape.
pub fn images_of(rt: &impl Abort, alloc: Global, first: &Flash, second: &Flash) -> Images {
    Images {
        shape: shape_of(rt, first),
        first: done(rt, pages_left(alloc, first)),
        second: done(rt, pages_left(alloc, second)),
    }
}

/// Two drives without keys that these words made.
pub fn empty(rt: &impl Abort, alloc: Global, text: &str) -> Images {
    let first = made(rt, alloc, text);
    let second = made(rt, alloc, text);
    images_of(rt, alloc, &first, &second)
}

/// The run of a word over two boards.
fn run_on(rt: &impl Abort, alloc: Global, mut first: Flash, mut second: Flash, text: &str) -> Ran {
    let status = pair_status(rt, alloc, &mut first, &mut second, text);
    Ran {
        status,
        first,
        second,
    }
}

/// The run of a word over copies of both images.
pub fn run_over(rt: &impl Abort, alloc: Global, images: &Images, text: &str) -> Ran {
    let first = board_of(rt, alloc, images.shape, &images.first);
    let second = board_of(rt, alloc, images.shape, &images.second);
    run_on(rt, alloc, first, second, text)
}

/// The same, when one call of one board fails and leaves this.
pub fn run_failing(
    rt: &impl Abort,
    alloc: Global,
    images: &Images,
    text: &str,
    half: Half,
    call: u64,
    left: Left,
) -> Ran {
    let mut first = board_of(rt, alloc, images.shape, &images.first);
    let mut second = board_of(rt, alloc, images.shape, &images.second);
    let failing = match half {
        Half::First => &mut first,
        Half::Second => &mut second,
    };
    failing.fail(alloc, call, left).expect(rt, "memory");
    run_on(rt, alloc, first, second, text)
}

/// The images after a word over both, which has to end with status 0 and to post this on the first board alone.
pub fn said(rt: &impl Abort, alloc: Global, images: &Images, text: &str, wanted: &[u8]) -> Images {
    let ran = run_over(rt, alloc, images, text);
    assert!(rt; ran.status == 0 && ran.first.posted() == wanted, "{text}");
    assert!(rt; ran.second.posted().is_empty(), "{text}");
    images_of(rt, alloc, &ran.first, &ran.second)
}

/// The board of one image after a word over it alone, which has to end with status 0.
pub fn alone(
    rt: &impl Abort,
    alloc: Global,
    shape: Shape,
    pages: &[PageState],
    text: &str,
) -> Flash {
    let mut flash = board_of(rt, alloc, shape, pages);
    assert!(rt; status_of(rt, alloc, &mut flash, text) == 0, "{text}");
    flash
}

/// Ends the test unless a word over each image alone posts the same.
pub fn same_alone(rt: &impl Abort, alloc: Global, images: &Images, text: &str) {
    let one = alone(rt, alloc, images.shape, &images.first, text);
    let two = alone(rt, alloc, images.shape, &images.second, text);
    assert!(rt; one.posted() == two.posted(), "{text}");
}

/// Two drives of 33 blocks that differ: the first has two keys, and the second has another value of one of them and a key that the
/// first lacks.
pub fn different(rt: &impl Abort, alloc: Global) -> Images {
    let mut first = made(rt, alloc, MAKE_SMALL);
    let mut second = made(rt, alloc, MAKE_SMALL);
    for text in ["put 61 616263", "put 62 -"] {
        assert!(rt; status_of(rt, alloc, &mut first, text) == 0, "{text}");
    }
    for text in ["put 61 00", "put 63 0102"] {
        assert!(rt; status_of(rt, alloc, &mut second, text) == 0, "{text}");
    }
    images_of(rt, alloc, &first, &second)
}

/// A Store of a new key on two drives that differ.
pub const PUT: Change = Change {
    text: "put 64 0a0b0c",
    before: b"61\n62\n",
    after: b"61\n62\n64\n",
    asking: "get 64",
};

/// A Delete of a key of which the second drive has another value.
pub const DELETE: Change = Change {
    text: "del 61",
    before: b"61\n62\n",
    after: b"62\n",
    asking: "get 61",
};

/// A resync alone.
pub const RESYNC: Change = Change {
    text: "resync",
    before: b"61\n62\n",
    after: b"61\n62\n",
    asking: "get 61",
};

/// The next run over both images lists the keys of the first, which are these; then both drives hold them, with the same value of the key
/// that the change asks for.
pub fn mended(rt: &impl Abort, alloc: Global, images: &Images, change: &Change, keys: &[u8]) {
    let first = alone(rt, alloc, images.shape, &images.first, "list");
    assert!(rt; first.posted() == keys, "the keys of the first drive");
    let mended = said(rt, alloc, images, "list", keys);
    same_alone(rt, alloc, &mended, "list");
    same_alone(rt, alloc, &mended, change.asking);
}

/// The same, if the keys are those before the change or those after it.
pub fn mended_to_either(rt: &impl Abort, alloc: Global, images: &Images, change: &Change) {
    let first = alone(rt, alloc, images.shape, &images.first, "list");
    if first.posted() == change.before {
        mended(rt, alloc, images, change, change.before);
    } else {
        mended(rt, alloc, images, change, change.after);
    }
}
