//! A session over two namespaces that is cut at every mark, and the session after it.

use crate::cuts::{retrieved, some_ways};
use pk_flash::{Flash, Left};
use pk_nand::PageState;
use pk_test_scripts::boards::{Session, board, cut, made};
use pk_test_scripts::cuts::bytes_out;
use pk_test_scripts::exits::DONE;
use pk_test_scripts::overwritten::record_at;
use pk_test_scripts::script::{Answer, Ask, Value, records, script_over};
use pk_test_scripts::steps::{at_least, holds, posted, serve, small};
use pk_test_scripts::{Place, Program};
use std::alloc::Global;
use std::test::*;

// Limits of 6 pages each: three values of two pages.
const MAKE: [&str; 6] = ["make", "512", "8", "33", "6", "6"];

const A1: Value = Value { first: 1, len: 100 };

const A1_LATER: Value = Value { first: 2, len: 992 };

const A2: Value = Value { first: 3, len: 600 };

const D2: Value = Value { first: 5, len: 0 };

// The value of the second session.
const E: Value = Value { first: 6, len: 10 };

// The key `a` of namespace 1, and `a` and `d` of namespace 2: four values, which fill one block.
const FIRST: [(u32, Ask); 9] = [
    (1, Ask::Store(0x61, A1)),
    (2, Ask::Store(0x61, A2)),
    (2, Ask::Flush),
    (1, Ask::Store(0x61, A1_LATER)),
    (2, Ask::Delete(0x61)),
    (1, Ask::Flush),
    (2, Ask::Tick(3)),
    (2, Ask::Store(0x64, D2)),
    (1, Ask::Delete(0x61)),
];

// The values of `a` of namespace 1, and of `a` and `d` of namespace 2.
type Held = [Option<Value>; 3];

// After this many commands of the first session.
const HELD: [Held; 10] = [
    [None, None, None],
    [Some(A1), None, None],
    [Some(A1), Some(A2), None],
    [Some(A1), Some(A2), None],
    [Some(A1_LATER), Some(A2), None],
    [Some(A1_LATER), None, None],
    [Some(A1_LATER), None, None],
    [Some(A1_LATER), None, None],
    [Some(A1_LATER), None, Some(D2)],
    [None, None, Some(D2)],
];

// Each key, in its own namespace and in the other; a Store and the same key in the other; and a Report of each.
const SECOND: [(u32, Ask); 9] = [
    (1, Ask::Retrieve(0x61)),
    (1, Ask::Retrieve(0x64)),
    (2, Ask::Retrieve(0x61)),
    (2, Ask::Retrieve(0x64)),
    (2, Ask::Store(0x65, E)),
    (1, Ask::Retrieve(0x65)),
    (2, Ask::Retrieve(0x65)),
    (1, Ask::Report),
    (2, Ask::Report),
];

// The answers of the second session on these values, but for those of the Reports.
fn second_answers(held: &Held) -> [Answer; 7] {
    [
        retrieved(held[0]),
        Answer::Missing,
        retrieved(held[1]),
        retrieved(held[2]),
        Answer::Done,
        Answer::Missing,
        Answer::Found(E),
    ]
}

// How many of these two keys exist.
fn keys_of(one: Option<Value>, other: Option<Value>) -> u8 {
    match (one, other) {
        (Some(_), Some(_)) => 2,
        (None, None) => 0,
        _ => 1,
    }
}

// The first three numbers of a Report of a namespace with this many keys.
fn numbers(keys: u8) -> [u8; 12] {
    [keys.saturating_mul(2), 0, 0, 0, 6, 0, 0, 0, keys, 0, 0, 0]
}

// Where the record of a Report ends that begins here, if it reports this many keys.
fn report_end(posted: &[u8], at: usize, keys: u8) -> Option<usize> {
    let record = record_at(posted, at)?;
    let data = posted.get(record.data..record.end())?;
    if record.is_done() && record.len == 64 && data.starts_with(&numbers(keys)) {
        Some(record.end())
    } else {
        None
    }
}

// Whether the second session posted what it has to on these values.
fn is_posted(alloc: Global, posted: &[u8], held: &Held) -> Result<bool, Fail> {
    let want = records(alloc, &second_answers(held))?;
    if !posted.starts_with(&want) {
        return Ok(false);
    }
    let first = report_end(posted, want.len(), keys_of(held[0], None));
    Ok(match first {
        Some(at) => {
            let second = report_end(posted, at, keys_of(held[1], held[2]).saturating_add(1));
            second == Some(posted.len())
        }
        None => false,
    })
}

// Serves this script on these pages.
fn ask_both<P: Program>(
    alloc: Global,
    pages: Vec<PageState>,
    asks: &[(u32, Ask)],
) -> Result<Session, Fail> {
    let input = script_over(alloc, asks)?;
    Ok(serve::<P>(alloc, board(alloc, small()?, pages, input)?))
}

// Whether the session after this cut has what is there after a number of commands of the first one, and all that were answered are among
// them: those with a byte of their record posted, which has 24.
fn is_kept<P: Program>(alloc: Global, first: &Flash, k: usize, left: &Left) -> Result<bool, Fail> {
    let second = ask_both::<P>(alloc, cut(alloc, first, k, left)?, &SECOND)?;
    if second.status != DONE {
        return Ok(false);
    }
    let least = bytes_out(first, k).div_ceil(24);
    for count in least..HELD.len() {
        if is_posted(alloc, second.flash.posted(), &HELD[count])? {
            return Ok(true);
        }
    }
    Ok(false)
}

// Interrupts this mark in some ways. How many there are.
fn check_mark<P: Program>(alloc: Global, first: &Flash, k: usize) -> Result<u32, Fail> {
    let mut way = 0u32;
    for left in &some_ways(alloc, first, k)? {
        let is_so = is_kept::<P>(alloc, first, k, left)?;
        holds(is_so, "what is there", Place::Way(k, way))?;
        way = way.saturating_add(1);
    }
    Ok(way)
}

/// A session over two namespaces is cut at each mark: a program in all ways, an erase in six.
pub fn every_cut_of_two<P: Program>(alloc: Global) -> Result<(), Fail> {
    let first = ask_both::<P>(alloc, made::<P>(alloc, &MAKE)?, &FIRST)?;
    let want = records(alloc, &[Answer::Done; 9])?;
    posted(&first, DONE, &want, Place::Named("the first session"))?;
    let mut cuts = 0u32;
    for k in 0..first.flash.marks().saturating_add(1) {
        cuts = cuts.saturating_add(check_mark::<P>(alloc, &first.flash, k)?);
    }
    at_least(cuts, 100, "cuts")
}
