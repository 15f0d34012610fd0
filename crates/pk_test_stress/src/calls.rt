//! Calls of the board that fail in the worked session, a Store and a Retrieve on a made drive, one by one.

use pk_flash::{Flash, Left, PageLeft};
use pk_test_scripts::boards::{Session, made_board, pages_left, serve_board, served, worked};
use pk_test_scripts::exits::{DONE, FLASH, INPUT, OUTPUT};
use pk_test_scripts::program::{RECORDS, SCRIPT};
use pk_test_scripts::script::{Answer, Ask, records};
use pk_test_scripts::ways::by_turns;
use pk_test_scripts::{Place, Program, same};
use std::alloc::{AllocError, Global};
use std::test::*;

// What a call that fails leaves.
#[derive(Clone, Copy)]
enum Way {
    Untouched,
    Torn,
    Done,
    // The second page of a pair becomes this, and the first one is Torn.
    WithEven(PageLeft),
    // The pages of a block as they were, Erased or Torn by turns.
    ByTurns,
    // This many bytes of a post.
    Part(u32),
}

fn left(alloc: Global, way: Way) -> Result<Left, AllocError> {
    match way {
        Way::Untouched => Ok(Left::Untouched),
        Way::Torn => Ok(Left::Torn),
        Way::Done => Ok(Left::Done),
        Way::WithEven(page) => Ok(Left::WithEven(page)),
        Way::ByTurns => by_turns(alloc),
        Way::Part(count) => Ok(Left::Part(count)),
    }
}

// What is to be posted if a call of the worked session fails.
#[derive(Clone, Copy)]
enum Posted {
    /// This many bytes of the records of the whole session.
    Front(usize),
    /// The record of the Store, and that of the Retrieve with 88h after one read.
    Unread,
}

fn bytes_posted(alloc: Global, what: Posted) -> Result<Vec<u8>, AllocError> {
    match what {
        Posted::Front(count) => RECORDS[..count.min(51)].to_vec(alloc),
        Posted::Unread => records(alloc, &[Answer::Done, Answer::Unread]),
    }
}

// A call of the worked session that fails, and what it leaves: the status, what is posted, and the
// keys after the session.
#[derive(Clone, Copy)]
struct Failure {
    call: u64,
    way: Way,
    status: u8,
    what: Posted,
    keys: &'static [u8],
}

// Each call of the worked session after the reads that open the drive, in their order: the fetches of the entry and of the value, the
// erases of two blocks for the epoch and of the other root block, both pages of the root, the erase of a block for values, both pages of
// the value, the fetch of the next entry, both pages of the commit, the post of the Store's record, the read of the value, the posts of
// the head and of the data of the Retrieve's record, and the fetch at the input's end. The last row has a number after the last call.
const FAILURES: [Failure; 45] = [
    Failure {
        call: 34,
        way: Way::Untouched,
        status: INPUT,
        what: Posted::Front(0),
        keys: b"",
    },
    Failure {
        call: 35,
        way: Way::Untouched,
        status: INPUT,
        what: Posted::Front(0),
        keys: b"",
    },
    Failure {
        call: 36,
        way: Way::Untouched,
        status: FLASH,
        what: Posted::Front(0),
        keys: b"",
    },
    Failure {
        call: 36,
        way: Way::Torn,
        status: FLASH,
        what: Posted::Front(0),
        keys: b"",
    },
    Failure {
        call: 37,
        way: Way::ByTurns,
        status: FLASH,
        what: Posted::Front(0),
        keys: b"",
    },
    Failure {
        call: 38,
        way: Way::Untouched,
        status: FLASH,
        what: Posted::Front(0),
        keys: b"",
    },
    Failure {
        call: 38,
        way: Way::Done,
        status: FLASH,
        what: Posted::Front(0),
        keys: b"",
    },
    Failure {
        call: 39,
        way: Way::Untouched,
        status: FLASH,
        what: Posted::Front(0),
        keys: b"",
    },
    Failure {
        call: 39,
        way: Way::Torn,
        status: FLASH,
        what: Posted::Front(0),
        keys: b"",
    },
    Failure {
        call: 39,
        way: Way::Done,
        status: FLASH,
        what: Posted::Front(0),
        keys: b"",
    },
    Failure {
        call: 40,
        way: Way::Untouched,
        status: FLASH,
        what: Posted::Front(0),
        keys: b"",
    },
    Failure {
        call: 40,
        way: Way::Torn,
        status: FLASH,
        what: Posted::Front(0),
        keys: b"",
    },
    Failure {
        call: 40,
        way: Way::Done,
        status: FLASH,
        what: Posted::Front(0),
        keys: b"",
    },
    Failure {
        call: 40,
        way: Way::WithEven(PageLeft::Untouched),
        status: FLASH,
        what: Posted::Front(0),
        keys: b"",
    },
    Failure {
        call: 40,
        way: Way::WithEven(PageLeft::Torn),
        status: FLASH,
        what: Posted::Front(0),
        keys: b"",
    },
    Failure {
        call: 40,
        way: Way::WithEven(PageLeft::Done),
        status: FLASH,
        what: Posted::Front(0),
        keys: b"",
    },
    Failure {
        call: 41,
        way: Way::Torn,
        status: FLASH,
        what: Posted::Front(0),
        keys: b"",
    },
    Failure {
        call: 42,
        way: Way::Untouched,
        status: FLASH,
        what: Posted::Front(0),
        keys: b"",
    },
    Failure {
        call: 42,
        way: Way::Torn,
        status: FLASH,
        what: Posted::Front(0),
        keys: b"",
    },
    Failure {
        call: 42,
        way: Way::Done,
        status: FLASH,
        what: Posted::Front(0),
        keys: b"",
    },
    Failure {
        call: 43,
        way: Way::Untouched,
        status: FLASH,
        what: Posted::Front(0),
        keys: b"",
    },
    Failure {
        call: 43,
        way: Way::Torn,
        status: FLASH,
        what: Posted::Front(0),
        keys: b"",
    },
    Failure {
        call: 43,
        way: Way::Done,
        status: FLASH,
        what: Posted::Front(0),
        keys: b"",
    },
    Failure {
        call: 43,
        way: Way::WithEven(PageLeft::Untouched),
        status: FLASH,
        what: Posted::Front(0),
        keys: b"",
    },
    Failure {
        call: 43,
        way: Way::WithEven(PageLeft::Torn),
        status: FLASH,
        what: Posted::Front(0),
        keys: b"",
    },
    Failure {
        call: 43,
        way: Way::WithEven(PageLeft::Done),
        status: FLASH,
        what: Posted::Front(0),
        keys: b"",
    },
    Failure {
        call: 44,
        way: Way::Untouched,
        status: INPUT,
        what: Posted::Front(24),
        keys: b"a",
    },
    Failure {
        call: 45,
        way: Way::Untouched,
        status: FLASH,
        what: Posted::Front(0),
        keys: b"",
    },
    Failure {
        call: 45,
        way: Way::Torn,
        status: FLASH,
        what: Posted::Front(0),
        keys: b"",
    },
    Failure {
        call: 45,
        way: Way::Done,
        status: FLASH,
        what: Posted::Front(0),
        keys: b"a",
    },
    Failure {
        call: 46,
        way: Way::Untouched,
        status: FLASH,
        what: Posted::Front(0),
        keys: b"a",
    },
    Failure {
        call: 46,
        way: Way::Torn,
        status: FLASH,
        what: Posted::Front(0),
        keys: b"a",
    },
    Failure {
        call: 46,
        way: Way::Done,
        status: FLASH,
        what: Posted::Front(0),
        keys: b"a",
    },
    Failure {
        call: 46,
        way: Way::WithEven(PageLeft::Untouched),
        status: FLASH,
        what: Posted::Front(0),
        keys: b"",
    },
    Failure {
        call: 46,
        way: Way::WithEven(PageLeft::Torn),
        status: FLASH,
        what: Posted::Front(0),
        keys: b"",
    },
    Failure {
        call: 46,
        way: Way::WithEven(PageLeft::Done),
        status: FLASH,
        what: Posted::Front(0),
        keys: b"a",
    },
    Failure {
        call: 47,
        way: Way::Untouched,
        status: OUTPUT,
        what: Posted::Front(0),
        keys: b"a",
    },
    Failure {
        call: 47,
        way: Way::Part(10),
        status: OUTPUT,
        what: Posted::Front(10),
        keys: b"a",
    },
    Failure {
        call: 48,
        way: Way::Untouched,
        status: DONE,
        what: Posted::Unread,
        keys: b"a",
    },
    Failure {
        call: 49,
        way: Way::Untouched,
        status: OUTPUT,
        what: Posted::Front(24),
        keys: b"a",
    },
    Failure {
        call: 49,
        way: Way::Part(10),
        status: OUTPUT,
        what: Posted::Front(34),
        keys: b"a",
    },
    Failure {
        call: 50,
        way: Way::Untouched,
        status: OUTPUT,
        what: Posted::Front(48),
        keys: b"a",
    },
    Failure {
        call: 50,
        way: Way::Part(10),
        status: OUTPUT,
        what: Posted::Front(51),
        keys: b"a",
    },
    Failure {
        call: 51,
        way: Way::Untouched,
        status: INPUT,
        what: Posted::Front(51),
        keys: b"a",
    },
    Failure {
        call: 52,
        way: Way::Untouched,
        status: DONE,
        what: Posted::Front(51),
        keys: b"a",
    },
];

// Serves the worked script on a made drive while this call fails.
fn served_with_fault<P: Program>(alloc: Global, call: u64, left: Left) -> Result<Session, Fail> {
    let mut flash = made_board::<P>(alloc, SCRIPT.to_vec(alloc)?)?;
    flash.fail(alloc, call, left)?;
    Ok(serve_board::<P>(alloc, flash))
}

// The keys after a session.
fn check_keys<P: Program>(
    alloc: Global,
    flash: &Flash,
    keys: &'static [u8],
    place: Place,
) -> Result<(), Fail> {
    let behind = served::<P>(alloc, worked()?, pages_left(alloc, flash)?, &[Ask::List])?;
    behind.posted(0, &records(alloc, &[Answer::Keys(keys)])?, place)
}

fn check_worked<P: Program>(alloc: Global, failure: &Failure) -> Result<Flash, Fail> {
    let left = left(alloc, failure.way)?;
    let place = Place::Call(failure.call);
    let done = served_with_fault::<P>(alloc, failure.call, left)?;
    done.posted(failure.status, &bytes_posted(alloc, failure.what)?, place)?;
    check_keys::<P>(alloc, &done.flash, failure.keys, place)?;
    Ok(done.flash)
}

/// Each call of the worked session after the reads that open the drive fails, in some ways, and the program of the second page of a
/// pair in all.
pub fn calls_of_the_worked_session<P: Program>(alloc: Global) -> Result<(), Fail> {
    for failure in &FAILURES {
        let _ = check_worked::<P>(alloc, failure)?;
    }
    Ok(())
}

/// Each read that opens the made drive fails: nothing of the input is taken, and nothing is posted or written.
pub fn reads_of_the_worked_opening<P: Program>(alloc: Global) -> Result<(), Fail> {
    for call in 0..34u64 {
        let failure = Failure {
            call,
            way: Way::Untouched,
            status: FLASH,
            what: Posted::Front(0),
            keys: b"",
        };
        let flash = check_worked::<P>(alloc, &failure)?;
        same(flash.marks(), 0, "marks")?;
    }
    Ok(())
}
