//! An image goes from session to session.

use pk_base::get_u32;
use pk_flash::{Flash, Left, PageLeft};
use pk_nand::{Mark, PageState};
use pk_nvme::Request;
use pk_nvme::opcode::{FLUSH, REPORT, RETRIEVE, STORE};
use pk_nvme::status::SUCCESSFUL_COMPLETION;
use pk_test_scripts::boards::{board, cut, made, pages_left, shape_of, worked};
use pk_test_scripts::exits::{DONE, FLASH, IMAGE_EXISTS, NO_DRIVE, TRUNCATED};
use pk_test_scripts::program::{RECORDS, SCRIPT};
use pk_test_scripts::script::{
    Answer, Ask, Value, entry, push_answer, push_done, push_found, push_head, push_value, records,
    script,
};
use pk_test_scripts::steps::{
    MAKE_SMALL, add, answered, ask, ask_small, blank, copied, ended, ended_well, holds, joined,
    last_program, made_board, posted, serve, worked_board, wrote,
};
use pk_test_scripts::{MAKE_WORKED, Place, Program, same};
use std::alloc::Global;
use std::test::*;

const THREE: Value = Value {
    first: 0x61,
    len: 3,
};

const LARGE: Value = Value {
    first: 7,
    len: 1000,
};

// ---- the worked script

// The record of the Retrieve as the first command of a session.
const RETRIEVED: [u8; 27] = [
    3, 0, 0, 0, 0, 0, 0, 0, 1, 0, 1, 0, 2, 0, 1, 0, 1, 0, 0, 0, 3, 0, 0, 0, 0x61, 0x62, 0x63,
];

// The record of a Store as the first command of a session.
const STORED: [u8; 24] = [
    0, 0, 0, 0, 0, 0, 0, 0, 1, 0, 1, 0, 1, 0, 1, 0, 0, 0, 0, 0, 0, 0, 0, 0,
];

/// An image is made once, and a script that ends inside an entry is reported as such.
pub fn makes_once<P: Program>(alloc: Global) -> Result<(), Fail> {
    let mut flash = blank(alloc, None, &SCRIPT[..70])?;
    let first = P::run(alloc, &MAKE_WORKED, &mut flash);
    same(u64::from(first), u64::from(DONE), "the status")?;
    same(flash.program_count(), 2, "programs")?;
    let next = P::run(alloc, &MAKE_WORKED, &mut flash);
    same(u64::from(next), u64::from(IMAGE_EXISTS), "the status")?;
    let session = serve::<P>(alloc, flash);
    let place = Place::Named("half a script");
    posted(&session, TRUNCATED, &RECORDS[..24], place)
}

// The pages after this script, which has to have these records.
fn behind<P: Program>(
    alloc: Global,
    pages: Vec<PageState>,
    script: Vec<u8>,
    want: &[u8],
) -> Result<Vec<PageState>, Fail> {
    let session = serve::<P>(alloc, worked_board(alloc, pages, script)?);
    posted(&session, DONE, want, Place::Named("the worked script"))?;
    pages_left(alloc, &session.flash)
}

// The pages after the Store of a byte under this key.
fn behind_store<P: Program>(
    alloc: Global,
    pages: Vec<PageState>,
    key: u8,
) -> Result<Vec<PageState>, Fail> {
    let value = Value { first: key, len: 1 };
    let script = script(alloc, &[Ask::Store(key, value)])?;
    behind::<P>(alloc, pages, script, &STORED)
}

/// The worked script gives the worked records, and the next session still has the value. Two more sessions each store a new key;
/// the second of them merges the frozen buffer into run 1 before it freezes the active one.
pub fn sessions<P: Program>(alloc: Global) -> Result<(), Fail> {
    let pages = made::<P>(alloc, &MAKE_WORKED)?;
    let pages = behind::<P>(alloc, pages, copied(alloc, &SCRIPT)?, &RECORDS)?;
    let retrieve = copied(alloc, &SCRIPT[67..])?;
    let pages = behind::<P>(alloc, pages, retrieve, &RETRIEVED)?;
    let pages = behind_store::<P>(alloc, pages, 0x62)?;
    let pages = behind_store::<P>(alloc, pages, 0x63)?;
    let retrieve = copied(alloc, &SCRIPT[67..])?;
    let _ = behind::<P>(alloc, pages, retrieve, &RETRIEVED)?;
    Ok(())
}

// The session of this board ends so, and leaves no mark.
fn check_unmarked<P: Program>(alloc: Global, flash: Flash, status: u8) -> Result<(), Fail> {
    let session = serve::<P>(alloc, flash);
    ended(&session, status, Place::Named("no drive"))?;
    same(session.flash.marks() as u64, 0, "marks")
}

/// A flash without a root is no drive, and neither is a board without an image. A read that fails while the drive is opened is
/// no missing drive.
pub fn refuses<P: Program>(alloc: Global) -> Result<(), Fail> {
    let rootless = blank(alloc, Some(worked()?), &SCRIPT)?;
    check_unmarked::<P>(alloc, rootless, NO_DRIVE)?;
    let mut unread = made_board::<P>(alloc, copied(alloc, &SCRIPT)?)?;
    unread.fail(alloc, 0, Left::Untouched)?;
    check_unmarked::<P>(alloc, unread, FLASH)?;
    let no_image = serve::<P>(alloc, blank(alloc, None, &[])?);
    ended(&no_image, NO_DRIVE, Place::Named("no image"))
}

// ---- sessions one after another

// What one session asks, and how it is answered.
#[derive(Clone, Copy)]
struct Talk {
    asks: &'static [Ask],
    answers: &'static [Answer],
}

const LOAD: Talk = Talk {
    asks: &[Ask::Retrieve(0x62), Ask::Retrieve(0x61)],
    answers: &[Answer::Found(LARGE), Answer::Found(THREE)],
};

const STAYING: [Talk; 3] = [
    Talk {
        asks: &[Ask::Store(0x61, THREE), Ask::Store(0x62, LARGE)],
        answers: &[Answer::Done, Answer::Done],
    },
    LOAD,
    LOAD,
];

const THREE_STORES: [Talk; 6] = [
    Talk {
        asks: &[Ask::Store(0x61, THREE)],
        answers: &[Answer::Done],
    },
    Talk {
        asks: &[Ask::List],
        answers: &[Answer::Keys(b"a")],
    },
    Talk {
        asks: &[Ask::Store(0x62, THREE)],
        answers: &[Answer::Done],
    },
    Talk {
        asks: &[Ask::List],
        answers: &[Answer::Keys(b"ab")],
    },
    Talk {
        asks: &[Ask::Store(0x63, THREE)],
        answers: &[Answer::Done],
    },
    Talk {
        asks: &[Ask::List],
        answers: &[Answer::Keys(b"abc")],
    },
];

// These sessions one after another, on a made drive.
fn check_talks<P: Program>(alloc: Global, talks: &[Talk]) -> Result<(), Fail> {
    let mut pages = made::<P>(alloc, &MAKE_WORKED)?;
    for talk in talks {
        let session = ask::<P>(alloc, pages, talk.asks)?;
        answered(alloc, &session, talk.answers, Place::Named("these asks"))?;
        pages = pages_left(alloc, &session.flash)?;
    }
    Ok(())
}

/// A value that one session stores is what the next one retrieves, byte for byte, and the one after
/// it.
pub fn values_stay<P: Program>(alloc: Global) -> Result<(), Fail> {
    check_talks::<P>(alloc, &STAYING)
}

/// Each session that stores begins an epoch. The third merges the frozen entries into run 1 before it freezes further ones.
pub fn three_stores<P: Program>(alloc: Global) -> Result<(), Fail> {
    check_talks::<P>(alloc, &THREE_STORES)
}

// A session that lists these keys, on these pages.
fn check_keys<P: Program>(
    alloc: Global,
    pages: Vec<PageState>,
    keys: &'static [u8],
) -> Result<(), Fail> {
    let session = ask::<P>(alloc, pages, &[Ask::List])?;
    answered(
        alloc,
        &session,
        &[Answer::Keys(keys)],
        Place::Named("a List"),
    )
}

/// A value is stored and deleted by a pair of pages for each of the root, the value and the commit; erased are the two blocks of the new
/// epoch, the other root block and the value's block. In the next session no key is there.
pub fn store_and_delete<P: Program>(alloc: Global) -> Result<(), Fail> {
    let asks = [Ask::Store(0x61, THREE), Ask::Delete(0x61)];
    let session = ask::<P>(alloc, made::<P>(alloc, &MAKE_WORKED)?, &asks)?;
    ended(&session, DONE, Place::Named("a Store and a Delete"))?;
    wrote(&session, 6, 4)?;
    check_keys::<P>(alloc, pages_left(alloc, &session.flash)?, &[])
}

/// Eight Stores of one key fill the two blocks that values may have, and the next one gives a block back, which has none that is live.
pub fn full_blocks<P: Program>(alloc: Global) -> Result<(), Fail> {
    let pages = made::<P>(alloc, &MAKE_SMALL)?;
    let filled = ask_small::<P>(alloc, pages, &[Ask::Store(0x61, THREE); 9])?;
    answered(
        alloc,
        &filled,
        &[Answer::Done; 9],
        Place::Named("full blocks"),
    )?;
    let pages = pages_left(alloc, &filled.flash)?;
    let next = ask_small::<P>(alloc, pages, &[Ask::Retrieve(0x61)])?;
    answered(
        alloc,
        &next,
        &[Answer::Found(THREE)],
        Place::Named("behind full blocks"),
    )
}

const COMMITS: [Ask; 4] = [
    Ask::Store(0x61, THREE),
    Ask::Flush,
    Ask::Store(0x62, THREE),
    Ask::Flush,
];

/// Two keys, each with a commit of its own, cut at the first page of the second commit, which is
/// not begun, torn or done; and at its second page, with the first one unchanged, or Torn.
pub fn pages_of_a_commit<P: Program>(alloc: Global) -> Result<(), Fail> {
    let session = ask::<P>(alloc, made::<P>(alloc, &MAKE_WORKED)?, &COMMITS)?;
    let flash = ended_well(session, Place::Named("two commits"))?;
    let second = last_program(&flash).ok_or("the second page of a commit")?;
    let first = second.checked_sub(1).ok_or("the first page of a commit")?;
    let cuts: [(usize, Left, &'static [u8]); 9] = [
        (first, Left::Untouched, b"a"),
        (first, Left::Torn, b"a"),
        (first, Left::Done, b"ab"),
        (second, Left::Untouched, b"ab"),
        (second, Left::Torn, b"ab"),
        (second, Left::Done, b"ab"),
        (second, Left::WithEven(PageLeft::Untouched), b"a"),
        (second, Left::WithEven(PageLeft::Torn), b"a"),
        (second, Left::WithEven(PageLeft::Done), b"ab"),
    ];
    for (k, left, keys) in &cuts {
        check_keys::<P>(alloc, cut(alloc, &flash, *k, left)?, *keys)?;
    }
    Ok(())
}

// The place of the program of the second page of a root among the marks of a session that makes one root.
fn second_of_root(flash: &Flash) -> Option<usize> {
    let mut found = None;
    for i in 0..flash.marks() {
        if let Mark::Program { page, .. } = flash.mark(i) {
            if *page < 32 && *page % 2 == 1 {
                found = Some(i);
            }
        }
    }
    found
}

/// A root, by which a Store begins an epoch over one with a key, is cut at its second page, and
/// both pages are Torn: the former root counts, and the map is the same. So is it if the first page
/// or the second one remains, by the new root.
pub fn pages_of_a_root<P: Program>(alloc: Global) -> Result<(), Fail> {
    let pages = made::<P>(alloc, &MAKE_WORKED)?;
    let first = ask::<P>(alloc, pages, &[Ask::Store(0x61, THREE)])?;
    let first = ended_well(first, Place::Named("the first key"))?;
    let pages = pages_left(alloc, &first)?;
    let next = ask::<P>(alloc, pages, &[Ask::Store(0x62, THREE)])?;
    let flash = ended_well(next, Place::Named("the second key"))?;
    let k = second_of_root(&flash).ok_or("a root")?;
    let ways = [
        (Left::WithEven(PageLeft::Torn), 0),
        (Left::WithEven(PageLeft::Untouched), 0),
        (Left::WithEven(PageLeft::Done), 1),
        (Left::Untouched, 1),
        (Left::Torn, 1),
    ];
    for (left, frozen) in &ways {
        let pages = cut(alloc, &flash, k, left)?;
        let session = ask::<P>(alloc, pages, &[Ask::List, Ask::Report])?;
        ended(&session, DONE, Place::Mark(k))?;
        let keys = records(alloc, &[Answer::Keys(b"a")])?;
        let is_so = session.flash.posted().starts_with(&keys);
        holds(is_so, "the keys", Place::Mark(k))?;
        check_numbers(session.flash.posted(), &[("frozen", 7, *frozen)])?;
    }
    Ok(())
}

// ---- Reports

// Adds the entry of a Store of three bytes, and its value.
fn add_store(into: &mut Vec<u8>, store: &[u8; 64]) -> Result<(), Fail> {
    add(into, store)?;
    add(into, b"abc")
}

// Stores of this many keys of two bytes, each with a value of two pages.
fn stores(alloc: Global, count: u8) -> Result<Vec<u8>, Fail> {
    let mut script = Vec::new(alloc);
    for i in 0..count {
        add_store(&mut script, &entry(u16::from(i), STORE, [0, i], 2, 3))?;
    }
    Ok(script)
}

// This many of them, and a Report.
fn stores_told(alloc: Global, count: u8) -> Result<Vec<u8>, Fail> {
    let mut script = stores(alloc, count)?;
    add(&mut script, &entry(31, REPORT, [0, 0], 0, 0))?;
    Ok(script)
}

// 17 Stores of one key, each followed by a Flush, and a Report.
fn many_commits(alloc: Global) -> Result<Vec<u8>, Fail> {
    let mut script = Vec::new(alloc);
    for _ in 0..17u8 {
        add_store(&mut script, &entry(1, STORE, [0x61, 0], 1, 3))?;
        add(&mut script, &entry(2, FLUSH, [0, 0], 0, 0))?;
    }
    add(&mut script, &entry(3, REPORT, [0, 0], 0, 0))?;
    Ok(script)
}

// The session of this script on a made drive, which is to end well.
fn on_made<P: Program>(alloc: Global, script: Vec<u8>) -> Result<Flash, Fail> {
    let session = serve::<P>(alloc, made_board::<P>(alloc, script)?);
    ended_well(session, Place::Named("a made drive"))
}

// The Report that ends the posted bytes has these numbers at these places.
fn check_numbers(posted: &[u8], numbers: &[(&str, usize, u32)]) -> Result<(), Fail> {
    pk_test_scripts::holds(posted.len() >= 64, "a Report")?;
    for (name, place, number) in numbers {
        pk_test_scripts::holds(*place < 16, "a place of a Report")?;
        let found = get_u32(posted, posted.len() - 64 + 4 * *place);
        same(u64::from(found), u64::from(*number), name)?;
    }
    Ok(())
}

const GROUPED: [(&str, usize, u32); 2] = [("active", 6, 16), ("epoch", 12, 2)];

/// Sixteen Stores make two commits: one of 15 entries, as many as a page of the journal has, and one before the Report. Two pages of a root,
/// 32 of values and four of commits are programmed; two blocks for the epoch, the other root block and two blocks for values are erased.
pub fn grouped_commits<P: Program>(alloc: Global) -> Result<(), Fail> {
    let session = serve::<P>(alloc, made_board::<P>(alloc, stores_told(alloc, 16)?)?);
    ended(&session, DONE, Place::Named("sixteen Stores"))?;
    wrote(&session, 38, 5)?;
    check_numbers(session.flash.posted(), &GROUPED)
}

/// A Store, a Flush, and 32 Stores of other keys: the 31st of these finds no room in the write buffer, commits the 14 entries that wait,
/// and begins an epoch. Two roots, 33 values and five commits are programmed, of two pages each; erased are two blocks for each of two
/// epochs, the other root block, and five blocks for values.
pub fn commit_before_a_freeze<P: Program>(alloc: Global) -> Result<(), Fail> {
    let first = entry(1, STORE, [0xff, 0xff], 2, 3);
    let flush = entry(2, FLUSH, [0, 0], 0, 0);
    let script = joined(alloc, &[&first, b"abc", &flush, &stores(alloc, 32)?])?;
    let session = serve::<P>(alloc, made_board::<P>(alloc, script)?);
    ended(&session, DONE, Place::Named("33 Stores"))?;
    wrote(&session, 80, 10)?;
    let posted = session.flash.posted().len() as u64;
    same(posted, 34 * 24, "posted bytes")
}

const FULL_BUFFER: [(&str, usize, u32); 9] = [
    ("live", 0, 62),
    ("limit", 1, 492),
    ("keys", 2, 31),
    ("pinned", 3, 2),
    ("frames", 4, 36),
    ("active", 6, 1),
    ("frozen", 7, 30),
    ("run1", 8, 0),
    ("epoch", 12, 1),
];

/// Thirty keys fill the write buffer, and the next one is the first of a new epoch, of which one commit is used after the one
/// before the Report.
pub fn full_buffer<P: Program>(alloc: Global) -> Result<(), Fail> {
    let flash = on_made::<P>(alloc, stores_told(alloc, 31)?)?;
    check_numbers(flash.posted(), &FULL_BUFFER)
}

/// The first of these keys is in the frozen buffer, so a Retrieve of it reads the value's page
/// alone.
pub fn first_of_full_buffer<P: Program>(alloc: Global) -> Result<(), Fail> {
    let mut script = stores_told(alloc, 31)?;
    add(&mut script, &entry(33, RETRIEVE, [0, 0], 2, 3))?;
    let flash = on_made::<P>(alloc, script)?;
    let mut record = Vec::new(alloc);
    push_answer(&mut record, 33, &Answer::Found(THREE))?;
    same(record.len() as u64, 27, "a record")?;
    let is_so = flash.posted().ends_with(&record);
    holds(is_so, "the posted bytes", Place::Named("the last record"))
}

const GREATEST_NUMBERS: [(&str, usize, u32); 3] = [
    ("live", 0, 4),
    ("limit", 1, 492),
    ("keys", 2, 1),
];

const GREATEST: Value = Value {
    first: 9,
    len: 2016,
};

/// A value of the greatest size has all the pages that a value may have.
pub fn greatest_value<P: Program>(alloc: Global) -> Result<(), Fail> {
    let asks = script(alloc, &[Ask::Store(0x61, GREATEST), Ask::Report])?;
    let flash = on_made::<P>(alloc, asks)?;
    check_numbers(flash.posted(), &GREATEST_NUMBERS)?;
    same(flash.posted().len() as u64, 24 + 88, "posted bytes")?;
    let want = records(alloc, &[Answer::Done])?;
    let is_so = flash.posted().starts_with(&want);
    holds(is_so, "the posted bytes", Place::Named("the first record"))
}

const FULL_EPOCH: [(&str, usize, u32); 5] = [
    ("live", 0, 2),
    ("keys", 2, 1),
    ("active", 6, 1),
    ("frozen", 7, 1),
    ("epoch", 12, 1),
];

/// Sixteen commits of one key fill an epoch, and the next one is the first of a new epoch.
pub fn full_epoch<P: Program>(alloc: Global) -> Result<(), Fail> {
    let flash = on_made::<P>(alloc, many_commits(alloc)?)?;
    check_numbers(flash.posted(), &FULL_EPOCH)
}

// ---- buffers and pages

/// A Retrieve returns as much of a value as its buffer takes, and reports its whole length. Without
/// a buffer it reads no page.
pub fn short_buffers<P: Program>(alloc: Global) -> Result<(), Fail> {
    let store = entry(1, STORE, [0x61, 0], 1, 5);
    let two_bytes = entry(2, RETRIEVE, [0x61, 0], 1, 2);
    let no_byte = entry(3, RETRIEVE, [0x61, 0], 1, 0);
    let script = joined(alloc, &[&store, b"hello", &two_bytes, &no_byte])?;
    let flash = on_made::<P>(alloc, script)?;
    let mut want = Vec::new(alloc);
    push_done(&mut want, 1)?;
    push_head(&mut want, 2, SUCCESSFUL_COMPLETION, 5, 1, 2)?;
    add(&mut want, b"he")?;
    push_head(&mut want, 3, SUCCESSFUL_COMPLETION, 5, 0, 0)?;
    let is_so = flash.posted() == want.as_slice();
    holds(is_so, "the posted bytes", Place::Named("short buffers"))
}

/// A session without commands posts nothing and leaves the flash alone.
pub fn no_commands<P: Program>(alloc: Global) -> Result<(), Fail> {
    let session = serve::<P>(alloc, made_board::<P>(alloc, Vec::new(alloc))?);
    posted(&session, DONE, &[], Place::Named("no commands"))?;
    wrote(&session, 0, 0)?;
    same(session.flash.marks() as u64, 0, "marks")
}

// The entry of a command on the key of a user.
fn of_user(cid: u16, opcode: u8, size: u32) -> [u8; 64] {
    let mut key = [0u8; 16];
    key.copy_from_slice(b"user:00000000042");
    Request {
        opcode,
        cid,
        namespace: 1,
        key_len: 16,
        key,
        size,
        options: 0,
    }
    .entry()
}

/// A value of 1,000 bytes under a key of sixteen, on pages of 4,096 bytes: it is read whole, by one read.
pub fn one_large_page<P: Program>(alloc: Global) -> Result<(), Fail> {
    let mut script = copied(alloc, &of_user(1, STORE, LARGE.len))?;
    push_value(&mut script, &LARGE)?;
    add(&mut script, &of_user(2, RETRIEVE, 4096))?;
    let session = serve::<P>(alloc, large_board::<P>(alloc, script)?);
    let mut want = Vec::new(alloc);
    push_done(&mut want, 1)?;
    push_found(&mut want, 2, 1, &LARGE)?;
    posted(&session, DONE, &want, Place::Named("one large page"))
}

/// A made drive of 512 blocks of 64 pages of 4,096 bytes, with this input.
pub fn large_board<P: Program>(alloc: Global, input: Vec<u8>) -> Result<Flash, Fail> {
    let pages = made::<P>(alloc, &["make", "4096", "64", "512"])?;
    Ok(board(alloc, shape_of(4096, 64, 512)?, pages, input)?)
}
