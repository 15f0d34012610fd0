//! Calls of the board that fail.

use pk_flash::{Left, PageLeft};
use pk_nand::Board;
use pk_nvme::opcode::DELETE;
use pk_test_scripts::boards::{Session, made, pages_left};
use pk_test_scripts::exits::{DONE, FLASH, INPUT, OUTPUT};
use pk_test_scripts::script::{Answer, Ask, Value, records, script};
use pk_test_scripts::steps::{answered, ask, ended_well, posted, serve, worked_board};
use pk_test_scripts::ways::by_turns;
use pk_test_scripts::{MAKE_WORKED, Place, Program, same};
use std::alloc::Global;
use std::test::*;

const THREE: Value = Value {
    first: 0x61,
    len: 3,
};

// Serves this script on a drive with the key `b`, which one session stored, while the call with this number fails. The drive is opened
// by 37 reads: 32 pages of the root blocks, the first page of the commit and the two Erased ones of the next, and both pages of the value.
fn ask_failing<P: Program>(
    alloc: Global,
    asks: &[Ask],
    call: u64,
    left: Left,
) -> Result<Session, Fail> {
    let first = ask::<P>(
        alloc,
        made::<P>(alloc, &MAKE_WORKED)?,
        &[Ask::Store(0x62, THREE)],
    )?;
    let first = ended_well(first, Place::Named("the first session"))?;
    let pages = pages_left(alloc, &first)?;
    let mut flash = worked_board(alloc, pages, script(alloc, asks)?)?;
    flash.fail(alloc, call, left)?;
    Ok(serve::<P>(alloc, flash))
}

/// The entry is fetched after the reads of opening, and then the page of the value is read.
pub fn read_of_retrieve<P: Program>(alloc: Global) -> Result<(), Fail> {
    let asks = [Ask::Retrieve(0x62), Ask::Retrieve(0x62)];
    let session = ask_failing::<P>(alloc, &asks, 38, Left::Untouched)?;
    let answers = [Answer::Unread, Answer::Found(THREE)];
    answered(alloc, &session, &answers, Place::Call(38))
}

/// Each read of opening fails once: nothing was posted and nothing was written, and the first byte of the input is still to be taken.
pub fn reads_of_opening<P: Program>(alloc: Global) -> Result<(), Fail> {
    for call in 0..37u64 {
        let asks = [Ask::Delete(0x62)];
        let mut session = ask_failing::<P>(alloc, &asks, call, Left::Untouched)?;
        posted(&session, FLASH, &[], Place::Call(call))?;
        same(session.flash.marks() as u64, 0, "marks")?;
        let mut byte = [0u8; 1];
        let fetched = session.flash.fetch(&mut byte);
        pk_test_scripts::holds(fetched == Ok(1), "a byte of the input")?;
        same(
            u64::from(byte[0]),
            u64::from(DELETE),
            "the first byte of the input",
        )?;
    }
    Ok(())
}

// What a call that fails leaves.
#[derive(Clone, Copy)]
enum Way {
    Untouched,
    Torn,
    Done,
    // The second page of a pair becomes this, and the first one is Torn.
    WithEven(PageLeft),
    // The pages of a block as they were, Erased or Torn by turns.
    ByTurns,
    // This many bytes of a post.
    Part(u32),
}

fn left(alloc: Global, way: Way) -> Result<Left, Fail> {
    Ok(match way {
        Way::Untouched => Left::Untouched,
        Way::Torn => Left::Torn,
        Way::Done => Left::Done,
        Way::WithEven(page) => Left::WithEven(page),
        Way::ByTurns => by_turns(alloc)?,
        Way::Part(count) => Left::Part(count),
    })
}

// A call that fails and what it leaves: the status, how many bytes of the Store's record are posted, and the keys after the session.
#[derive(Clone, Copy)]
struct Failure {
    call: u64,
    way: Way,
    status: u8,
    bytes: usize,
    keys: &'static [u8],
}

// The calls after those of opening are, in this order: the fetches of the entry and of the value, the erases of two blocks for the
// epoch and of the other root block, both pages of the root, the erase of a block for values, both pages of the value, the fetch at the
// input's end, both pages of the commit, and the post of the record.
const FAILURES: [Failure; 40] = [
    Failure {
        call: 37,
        way: Way::Untouched,
        status: INPUT,
        bytes: 0,
        keys: b"b",
    },
    Failure {
        call: 38,
        way: Way::Untouched,
        status: INPUT,
        bytes: 0,
        keys: b"b",
    },
    Failure {
        call: 39,
        way: Way::Torn,
        status: FLASH,
        bytes: 0,
        keys: b"b",
    },
    Failure {
        call: 40,
        way: Way::ByTurns,
        status: FLASH,
        bytes: 0,
        keys: b"b",
    },
    Failure {
        call: 41,
        way: Way::Untouched,
        status: FLASH,
        bytes: 0,
        keys: b"b",
    },
    Failure {
        call: 41,
        way: Way::Torn,
        status: FLASH,
        bytes: 0,
        keys: b"b",
    },
    Failure {
        call: 41,
        way: Way::Done,
        status: FLASH,
        bytes: 0,
        keys: b"b",
    },
    Failure {
        call: 41,
        way: Way::ByTurns,
        status: FLASH,
        bytes: 0,
        keys: b"b",
    },
    Failure {
        call: 42,
        way: Way::Untouched,
        status: FLASH,
        bytes: 0,
        keys: b"b",
    },
    Failure {
        call: 42,
        way: Way::Torn,
        status: FLASH,
        bytes: 0,
        keys: b"b",
    },
    Failure {
        call: 42,
        way: Way::Done,
        status: FLASH,
        bytes: 0,
        keys: b"b",
    },
    Failure {
        call: 43,
        way: Way::Untouched,
        status: FLASH,
        bytes: 0,
        keys: b"b",
    },
    Failure {
        call: 43,
        way: Way::Torn,
        status: FLASH,
        bytes: 0,
        keys: b"b",
    },
    Failure {
        call: 43,
        way: Way::Done,
        status: FLASH,
        bytes: 0,
        keys: b"b",
    },
    Failure {
        call: 43,
        way: Way::WithEven(PageLeft::Untouched),
        status: FLASH,
        bytes: 0,
        keys: b"b",
    },
    Failure {
        call: 43,
        way: Way::WithEven(PageLeft::Torn),
        status: FLASH,
        bytes: 0,
        keys: b"b",
    },
    Failure {
        call: 43,
        way: Way::WithEven(PageLeft::Done),
        status: FLASH,
        bytes: 0,
        keys: b"b",
    },
    Failure {
        call: 44,
        way: Way::ByTurns,
        status: FLASH,
        bytes: 0,
        keys: b"b",
    },
    Failure {
        call: 45,
        way: Way::Untouched,
        status: FLASH,
        bytes: 0,
        keys: b"b",
    },
    Failure {
        call: 45,
        way: Way::Torn,
        status: FLASH,
        bytes: 0,
        keys: b"b",
    },
    Failure {
        call: 45,
        way: Way::Done,
        status: FLASH,
        bytes: 0,
        keys: b"b",
    },
    Failure {
        call: 46,
        way: Way::Untouched,
        status: FLASH,
        bytes: 0,
        keys: b"b",
    },
    Failure {
        call: 46,
        way: Way::Torn,
        status: FLASH,
        bytes: 0,
        keys: b"b",
    },
    Failure {
        call: 46,
        way: Way::Done,
        status: FLASH,
        bytes: 0,
        keys: b"b",
    },
    Failure {
        call: 46,
        way: Way::WithEven(PageLeft::Untouched),
        status: FLASH,
        bytes: 0,
        keys: b"b",
    },
    Failure {
        call: 46,
        way: Way::WithEven(PageLeft::Torn),
        status: FLASH,
        bytes: 0,
        keys: b"b",
    },
    Failure {
        call: 46,
        way: Way::WithEven(PageLeft::Done),
        status: FLASH,
        bytes: 0,
        keys: b"b",
    },
    Failure {
        call: 47,
        way: Way::Untouched,
        status: INPUT,
        bytes: 24,
        keys: b"ab",
    },
    Failure {
        call: 48,
        way: Way::Untouched,
        status: FLASH,
        bytes: 0,
        keys: b"b",
    },
    Failure {
        call: 48,
        way: Way::Torn,
        status: FLASH,
        bytes: 0,
        keys: b"b",
    },
    Failure {
        call: 48,
        way: Way::Done,
        status: FLASH,
        bytes: 0,
        keys: b"ab",
    },
    Failure {
        call: 49,
        way: Way::Untouched,
        status: FLASH,
        bytes: 0,
        keys: b"ab",
    },
    Failure {
        call: 49,
        way: Way::Torn,
        status: FLASH,
        bytes: 0,
        keys: b"ab",
    },
    Failure {
        call: 49,
        way: Way::Done,
        status: FLASH,
        bytes: 0,
        keys: b"ab",
    },
    Failure {
        call: 49,
        way: Way::WithEven(PageLeft::Untouched),
        status: FLASH,
        bytes: 0,
        keys: b"b",
    },
    Failure {
        call: 49,
        way: Way::WithEven(PageLeft::Torn),
        status: FLASH,
        bytes: 0,
        keys: b"b",
    },
    Failure {
        call: 49,
        way: Way::WithEven(PageLeft::Done),
        status: FLASH,
        bytes: 0,
        keys: b"ab",
    },
    Failure {
        call: 50,
        way: Way::Untouched,
        status: OUTPUT,
        bytes: 0,
        keys: b"ab",
    },
    Failure {
        call: 50,
        way: Way::Part(7),
        status: OUTPUT,
        bytes: 7,
        keys: b"ab",
    },
    Failure {
        call: 51,
        way: Way::Untouched,
        status: DONE,
        bytes: 24,
        keys: b"ab",
    },
];

// Stores the key `a` while this call fails: what was posted, and the keys after the session.
fn check_store<P: Program>(alloc: Global, failure: &Failure) -> Result<(), Fail> {
    let place = Place::Call(failure.call);
    let left = left(alloc, failure.way)?;
    let session = ask_failing::<P>(alloc, &[Ask::Store(0x61, THREE)], failure.call, left)?;
    let record = records(alloc, &[Answer::Done])?;
    let front = record.get(..failure.bytes).unwrap_or(&record);
    posted(&session, failure.status, front, place)?;
    let next = ask::<P>(alloc, pages_left(alloc, &session.flash)?, &[Ask::List])?;
    answered(alloc, &next, &[Answer::Keys(failure.keys)], place)
}

/// Each call of the session of a Store fails, in some ways, and the program of the second page of a pair in all.
pub fn calls_of_store<P: Program>(alloc: Global) -> Result<(), Fail> {
    for failure in &FAILURES {
        check_store::<P>(alloc, failure)?;
    }
    Ok(())
}
