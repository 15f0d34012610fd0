//! The words of the program: those that need no image, and those that ask the drive, each a session of its own.

use pk_flash::{Flash, Left};
use pk_gen::{MOST_VALUE_BYTES, Workload};
use pk_nand::PageState;
use pk_nvme::Bytes;
use pk_test_scripts::boards::{Session, made, pages_left};
use pk_test_scripts::exits::{BAD_LINE, DONE, FLASH, NO_DRIVE, OUTPUT, WORDS};
use pk_test_scripts::program::{RECORDS, SCRIPT};
use pk_test_scripts::steps::{
    add, blank, ended, holds, made_board, posted, same_pages, serve, worked_board, wrote,
};
use pk_test_scripts::{MAKE_WORKED, Place, Program, same};
use pk_test_sessions::sessions::large_board;
use std::alloc::Global;
use std::test::*;

// The session of the words of a text, which single blanks divide.
fn run_words<P: Program>(alloc: Global, text: &str, mut flash: Flash) -> Result<Session, Fail> {
    let mut words = Vec::new(alloc);
    for word in text.split(' ') {
        words.push(word)?;
    }
    let status = P::run(alloc, &words, &mut flash);
    Ok(Session { status, flash })
}

// ---- on a board without an image

// Words that need no image.
const WELL: [&str; 8] = [
    "make 512 16 64",
    "make 512 16 64 100 392",
    "make 512 16 64 492",
    "make 512 16 64 1 1 1 1 1 1 1 485",
    "make 512 8 1860 2",
    "make 512 8 1861",
    "asm",
    "show",
];

// Words outside the table.
const OUTSIDE: [&str; 29] = [
    "make 512 32 64",
    "make 512 16 4096",
    "make 512 16 16",
    "make 500 16 64",
    "make 0512 16 64",
    "make 512 16",
    "make 512 16 64 0",
    "make 512 16 64 100 0392",
    "make 512 16 64 100 393",
    "make 512 16 64 4294967295 493",
    "make 512 16 64 1 1 1 1 1 1 1 1 1",
    "make 512 8 1861 2",
    "make 512 8 1861 9894",
    "make 512 16 64 100 392 ",
    "make 512 16 64 4294967296",
    "serve",
    "serve 16385",
    "serve 36 36",
    "hello",
    "",
    "put 61 61626",
    "put 61",
    "get 6",
    "get 6162636465666768696a6b6c6d6e6f7071",
    "list -",
    "stat 1",
    "asm 1",
    "show -",
    "gen 1",
];

// Words that need a drive.
const ON_DRIVES: [&str; 12] = [
    "serve 16384",
    "serve 36",
    "put 61 616263",
    "put 61 -",
    "get 6A",
    "get 6162636465666768696a6b6c6d6e6f70",
    "del 61",
    "has 61",
    "list",
    "list 61",
    "stat",
    "gen 1 3",
];

// These words have this status on a board without an image and without input.
fn check_words<P: Program>(alloc: Global, words: &[&'static str], status: u8) -> Result<(), Fail> {
    for text in words {
        let session = run_words::<P>(alloc, text, blank(alloc, None, &[])?)?;
        ended(&session, status, Place::Named(*text))?;
    }
    Ok(())
}

/// By the words: the status, on a board without an image and without input.
pub fn words<P: Program>(alloc: Global) -> Result<(), Fail> {
    check_words::<P>(alloc, &WELL, DONE)?;
    check_words::<P>(alloc, &OUTSIDE, WORDS)?;
    check_words::<P>(alloc, &ON_DRIVES, NO_DRIVE)
}

const TEXT: &[u8] = b"store 61 616263\nretrieve 61 3\n";

const SHOWN: &[u8] = b"cid=1 status=00 result=0 reads=0 data=-\n\
    cid=2 status=00 result=3 reads=1 data=616263\n";

// These words turn the input into these bytes.
fn check_text<P: Program>(
    alloc: Global,
    words: &'static str,
    input: &[u8],
    bytes: &[u8],
) -> Result<(), Fail> {
    let session = run_words::<P>(alloc, words, blank(alloc, None, input)?)?;
    posted(&session, DONE, bytes, Place::Named(words))
}

/// The text of the worked script is assembled to its bytes, and its records are shown.
pub fn texts<P: Program>(alloc: Global) -> Result<(), Fail> {
    check_text::<P>(alloc, "asm", TEXT, &SCRIPT)?;
    check_text::<P>(alloc, "show", &RECORDS, SHOWN)?;
    let bad = run_words::<P>(alloc, "asm", blank(alloc, None, b"flush\nstroe\n")?)?;
    ended(&bad, BAD_LINE, Place::Named("asm"))?;
    same(bad.flash.posted().len() as u64, 64, "posted bytes")
}

// ---- on a drive

// What `stat` prints after a Store of three bytes, one of no byte, and a Delete of the other key,
// each in a session of its own.
const NUMBERS: &[u8] =
    b"live 2\nlimit 492\nkeys 1\npinned 2\nframes 36\nleased 1\nactive 1\nfrozen 1\n\
    run1 1\nrun2 0\nrun3 0\nrun4 0\nepoch 1\nblocks 1\nready 0\nmerge 0\n";

// Words, and the text that they are to post with status 0.
#[derive(Clone, Copy)]
struct Said {
    words: &'static str,
    text: &'static [u8],
}

// A session of words on these pages.
fn session_of<P: Program>(
    alloc: Global,
    pages: Vec<PageState>,
    words: &str,
) -> Result<Session, Fail> {
    let flash = worked_board(alloc, pages, Vec::new(alloc))?;
    run_words::<P>(alloc, words, flash)
}

// The pages after a word.
fn behind<P: Program>(
    alloc: Global,
    pages: Vec<PageState>,
    said: &Said,
) -> Result<Vec<PageState>, Fail> {
    let session = session_of::<P>(alloc, pages, said.words)?;
    posted(&session, DONE, said.text, Place::Named(said.words))?;
    pages_left(alloc, &session.flash)
}

const SAID: [Said; 15] = [
    Said {
        words: "put 61 616263",
        text: b"ok\n",
    },
    Said {
        words: "put 63 -",
        text: b"ok\n",
    },
    Said {
        words: "get 61",
        text: b"ok 616263\n",
    },
    Said {
        words: "get 63",
        text: b"ok -\n",
    },
    Said {
        words: "get 62",
        text: b"refused 87\n",
    },
    Said {
        words: "list",
        text: b"61\n63\n",
    },
    Said {
        words: "list 62",
        text: b"63\n",
    },
    Said {
        words: "list 63",
        text: b"63\n",
    },
    Said {
        words: "list 64",
        text: b"",
    },
    Said {
        words: "has 61",
        text: b"ok\n",
    },
    Said {
        words: "has 62",
        text: b"refused 87\n",
    },
    Said {
        words: "del 61",
        text: b"ok\n",
    },
    Said {
        words: "stat",
        text: NUMBERS,
    },
    Said {
        words: "del 61",
        text: b"refused 87\n",
    },
    Said {
        words: "list",
        text: b"63\n",
    },
];

/// Each word has its text, and leaves the map that the next one finds.
pub fn words_that_ask<P: Program>(alloc: Global) -> Result<(), Fail> {
    let mut pages = made::<P>(alloc, &MAKE_WORKED)?;
    for said in &SAID {
        pages = behind::<P>(alloc, pages, said)?;
    }
    Ok(())
}

// The pages of a drive with the key `a`, whose value is in page 32.
fn with_one_key<P: Program>(alloc: Global) -> Result<Vec<PageState>, Fail> {
    Ok(behind::<P>(alloc, made::<P>(alloc, &MAKE_WORKED)?, &SAID[0])?)
}

// Words, of which the first call after opening fails: their status and text.
#[derive(Clone, Copy)]
struct Failing {
    words: &'static str,
    status: u8,
    text: &'static [u8],
}

const FAILING: [Failing; 5] = [
    Failing {
        words: "get 61",
        status: DONE,
        text: b"refused 88\n",
    },
    Failing {
        words: "stat",
        status: OUTPUT,
        text: b"",
    },
    Failing {
        words: "has 61",
        status: OUTPUT,
        text: b"",
    },
    Failing {
        words: "list",
        status: OUTPUT,
        text: b"",
    },
    Failing {
        words: "put 62 62",
        status: FLASH,
        text: b"",
    },
];

/// A read that fails after opening is reported, and so is an output that fails. How many reads open
/// the drive follows from a Report, which reads no page.
pub fn words_that_fail<P: Program>(alloc: Global) -> Result<(), Fail> {
    let quiet = session_of::<P>(alloc, with_one_key::<P>(alloc)?, "stat")?;
    ended(&quiet, DONE, Place::Named("stat"))?;
    let opened = quiet.flash.read_count();
    for failing in &FAILING {
        let mut flash = worked_board(alloc, with_one_key::<P>(alloc)?, Vec::new(alloc))?;
        flash.fail(alloc, opened, Left::Untouched)?;
        let session = run_words::<P>(alloc, failing.words, flash)?;
        posted(
            &session,
            failing.status,
            failing.text,
            Place::Named(failing.words),
        )?;
    }
    Ok(())
}

/// A drive whose value is torn is not opened by a word.
pub fn words_on_a_torn_value<P: Program>(alloc: Global) -> Result<(), Fail> {
    let mut pages = with_one_key::<P>(alloc)?;
    if let Some(page) = pages.get_mut(32) {
        *page = PageState::Torn;
    }
    let session = session_of::<P>(alloc, pages, "get 61")?;
    posted(&session, NO_DRIVE, b"", Place::Named("get 61"))?;
    same(session.flash.marks() as u64, 0, "marks")
}

// What a workload of three commands posts on a new drive of 512 blocks of 64 pages of 4,096 bytes: an Exist and a Delete of missing
// keys, and a Store.
const SUMMARY: &[u8] =
    b"commands 3\nok 1\nmissing 2\nlarge 0\nfull 0\nfailed 0\nkeys 1\nlive 2\nmost 0\n";

/// A workload has its summary.
pub fn workload<P: Program>(alloc: Global) -> Result<(), Fail> {
    let flash = large_board::<P>(alloc, Vec::new(alloc))?;
    let session = run_words::<P>(alloc, "gen 1 3", flash)?;
    posted(&session, DONE, SUMMARY, Place::Named("gen 1 3"))
}

// The first commands of the workload with this start, as a script.
fn generated(alloc: Global, start: u32, count: u32) -> Result<Vec<u8>, Fail> {
    let mut workload = Workload::new(start);
    let mut script = Vec::new(alloc);
    for _ in 0..count {
        let mut value = Bytes::with_room(alloc, MOST_VALUE_BYTES as usize)?;
        add(&mut script, &workload.next(&mut value))?;
        add(&mut script, value.bytes())?;
    }
    Ok(script)
}

/// A workload is committed in groups: it leaves the pages that `serve` leaves of the same commands, by as many programs and erases.
pub fn grouped_workload<P: Program>(alloc: Global) -> Result<(), Fail> {
    let place = Place::Named("gen 2 60");
    let script = generated(alloc, 2, 60)?;
    let served = serve::<P>(alloc, made_board::<P>(alloc, script)?);
    ended(&served, DONE, place)?;
    let flash = made_board::<P>(alloc, Vec::new(alloc))?;
    let session = run_words::<P>(alloc, "gen 2 60", flash)?;
    ended(&session, DONE, place)?;
    let programs = served.flash.program_count();
    wrote(&session, programs, served.flash.erase_count())?;
    let wanted = pages_left(alloc, &served.flash)?;
    let left = pages_left(alloc, &session.flash)?;
    same_pages(&left, &wanted, place)
}
