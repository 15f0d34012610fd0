//! A session that is cut at every mark, and the session after it.

use crate::ways::{Ways, ways_of_erases};
use pk_flash::{EraseLeft, Flash, Left};
use pk_test_scripts::boards::{Session, cut, made};
use pk_test_scripts::cuts::bytes_out;
use pk_test_scripts::exits::DONE;
use pk_test_scripts::script::{Answer, Ask, Value, records};
use pk_test_scripts::steps::{MAKE_SMALL, answered, ask_small, holds};
use pk_test_scripts::ways::{Kind, kind_of, ways_of_program};
use pk_test_scripts::{Place, Program, same};
use std::alloc::Global;
use std::test::*;

const A_FIRST: Value = Value { first: 1, len: 100 };

const A_LATER: Value = Value { first: 2, len: 992 };

const B: Value = Value { first: 3, len: 600 };

const D: Value = Value { first: 5, len: 0 };

/// The value of the second session.
pub const E: Value = Value { first: 6, len: 10 };

// Four values of two pages each, which fill one block. The key `c` is never stored.
const FIRST: [Ask; 9] = [
    Ask::Store(0x61, A_FIRST),
    Ask::Store(0x62, B),
    Ask::Flush,
    Ask::Store(0x61, A_LATER),
    Ask::Delete(0x62),
    Ask::Flush,
    Ask::Tick(3),
    Ask::Store(0x64, D),
    Ask::Delete(0x61),
];

/// The values of the four keys.
pub type Held = [Option<Value>; 4];

/// After this many commands of the first session.
pub const HELD: [Held; 10] = [
    [None, None, None, None],
    [Some(A_FIRST), None, None, None],
    [Some(A_FIRST), Some(B), None, None],
    [Some(A_FIRST), Some(B), None, None],
    [Some(A_LATER), Some(B), None, None],
    [Some(A_LATER), None, None, None],
    [Some(A_LATER), None, None, None],
    [Some(A_LATER), None, None, None],
    [Some(A_LATER), None, None, Some(D)],
    [None, None, None, Some(D)],
];

const SECOND: [Ask; 6] = [
    Ask::Retrieve(0x61),
    Ask::Retrieve(0x62),
    Ask::Retrieve(0x63),
    Ask::Retrieve(0x64),
    Ask::Store(0x65, E),
    Ask::Retrieve(0x65),
];

/// The ways in which an interruption of the mark with this number is tried when it is one of two: all of a program, six of an erase, of
/// which each page may stay, be Erased or Torn (`Ways` has all of these); a post leaves the pages alone, whatever part of it went out.
/// After the last mark there is one way.
pub fn some_ways(alloc: Global, flash: &Flash, k: usize) -> Result<Vec<Left>, Fail> {
    Ok(match kind_of(flash, k) {
        Kind::None | Kind::Post => {
            let mut ways = Vec::new(alloc);
            ways.push(Left::Untouched)?;
            ways
        }
        Kind::First => ways_of_program(alloc, false)?,
        Kind::Second => ways_of_program(alloc, true)?,
        Kind::Erase => ways_of_erase(alloc)?,
    })
}

const KEPT: EraseLeft = EraseLeft::Kept;

const ERASED: EraseLeft = EraseLeft::Erased;

const TORN: EraseLeft = EraseLeft::Torn;

// Each page of a block of eight by itself.
const EACH: [[EraseLeft; 8]; 3] = [
    [KEPT, ERASED, TORN, KEPT, ERASED, TORN, KEPT, ERASED],
    [ERASED, KEPT, ERASED, KEPT, ERASED, KEPT, ERASED, KEPT],
    [TORN, KEPT, TORN, KEPT, TORN, KEPT, TORN, KEPT],
];

/// Each page of a block of eight becomes one of three, by itself.
pub fn each(alloc: Global, way: usize) -> Result<Left, Fail> {
    let pages = EACH.get(way).unwrap_or(&EACH[0]);
    Ok(Left::Each(pages.to_vec(alloc)?))
}

// Nothing is done, all is Torn, all is Erased, or each page is changed by itself.
fn ways_of_erase(alloc: Global) -> Result<Vec<Left>, Fail> {
    let mut ways = ways_of_program(alloc, false)?;
    for way in 0..EACH.len() {
        ways.push(each(alloc, way)?)?;
    }
    Ok(ways)
}

/// The answer to a Retrieve of a key with this value.
pub fn retrieved(value: Option<Value>) -> Answer {
    match value {
        Some(value) => Answer::Found(value),
        None => Answer::Missing,
    }
}

/// The answers of the second session on these values.
pub fn second_answers(held: &Held) -> [Answer; 6] {
    [
        retrieved(held[0]),
        retrieved(held[1]),
        retrieved(held[2]),
        retrieved(held[3]),
        Answer::Done,
        Answer::Found(E),
    ]
}

// The first number of commands, from this one on, after which the records of the second session are
// the posted ones.
fn commands_kept(alloc: Global, posted: &[u8], least: usize) -> Result<Option<usize>, Fail> {
    for count in least..HELD.len() {
        let want = records(alloc, &second_answers(&HELD[count]))?;
        if posted == want.as_slice() {
            return Ok(Some(count));
        }
    }
    Ok(None)
}

/// The second session on the pages that remain if the first one is cut here, and after how many
/// commands of the first one. Those with a byte of their record posted, which has 24, are among
/// them.
pub fn second_session<P: Program>(
    alloc: Global,
    first: &Flash,
    k: usize,
    left: &Left,
) -> Result<(Session, Option<usize>), Fail> {
    let second = ask_small::<P>(alloc, cut(alloc, first, k, left)?, &SECOND)?;
    let least = bytes_out(first, k).div_ceil(24);
    let kept = commands_kept(alloc, second.flash.posted(), least)?;
    Ok((second, kept))
}

/// The first session.
pub fn first_session<P: Program>(alloc: Global) -> Result<Session, Fail> {
    Ok(ask_small::<P>(alloc, made::<P>(alloc, &MAKE_SMALL)?, &FIRST)?)
}

// Interrupts this mark in all its ways.
fn check_mark<P: Program>(alloc: Global, first: &Flash, k: usize) -> Result<(), Fail> {
    let ways = Ways::of(alloc, first, k)?;
    for way in 0..ways.count {
        let left = ways.left(alloc, way)?;
        let (second, kept) = second_session::<P>(alloc, first, k, &left)?;
        let is_so = second.status == DONE && kept.is_some();
        holds(is_so, "the status, or what is there", Place::Way(k, way))?;
    }
    Ok(())
}

/// Each mark is interrupted in all its ways. Seven erase blocks without a Whole page, three of them in the Tick, and have 256 each.
pub fn every_cut<P: Program>(alloc: Global) -> Result<(), Fail> {
    let first = first_session::<P>(alloc)?;
    let place = Place::Named("the first session");
    answered(alloc, &first, &[Answer::Done; 9], place)?;
    let ways = ways_of_erases(alloc, &first.flash)?;
    same(u64::from(ways), 7 * 256, "ways")?;
    for k in 0..first.flash.marks().saturating_add(1) {
        check_mark::<P>(alloc, &first.flash, k)?;
    }
    Ok(())
}
