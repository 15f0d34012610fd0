//! The second session is cut at every mark, too, after a cut of the first one at each of its marks.

use crate::cuts::{
    E, HELD, Held, each, first_session, retrieved, second_answers, second_session, some_ways,
};
use crate::ways::{Ways, ways_of_erases};
use pk_flash::{Flash, Left, PageLeft};
use pk_test_scripts::boards::{Session, cut, made};
use pk_test_scripts::cuts::bytes_out;
use pk_test_scripts::exits::DONE;
use pk_test_scripts::script::{Answer, Ask, Value, records};
use pk_test_scripts::steps::{MAKE_SMALL, answered, ask_small, holds};
use pk_test_scripts::ways::{Kind, kind_of};
use pk_test_scripts::{Place, Program, same};
use std::alloc::Global;
use std::test::*;

const F: Value = Value { first: 7, len: 300 };

const THIRD: [Ask; 7] = [
    Ask::Retrieve(0x61),
    Ask::Retrieve(0x62),
    Ask::Retrieve(0x63),
    Ask::Retrieve(0x64),
    Ask::Retrieve(0x65),
    Ask::Store(0x66, F),
    Ask::Retrieve(0x66),
];

// The answers of the third session on these values, with this one under the fifth key. If the
// second session began an epoch over one with entries, the Store merges these before it freezes a
// second time; if values are in both blocks that they may have, it reclaims one of them.
fn third_answers(held: &Held, fifth: Option<Value>) -> [Answer; 7] {
    let [first, second, third, fourth] = *held;
    [
        retrieved(first),
        retrieved(second),
        retrieved(third),
        retrieved(fourth),
        retrieved(fifth),
        Answer::Done,
        Answer::Found(F),
    ]
}

// Whether values of the first session and the one of the second are in a block each, which are all
// that values may have: a further Store reclaims one of them.
fn fill_both_blocks(held: &Held, fifth: Option<Value>) -> bool {
    fifth.is_some() && held.iter().any(|value| value.is_some())
}

// Whether these are there, and the same.
fn both_are(one: Option<&[u8]>, other: Option<&[u8]>) -> bool {
    one.is_some() && one == other
}

// Whether these are the records that are expected, but for the count of reads of the one that
// begins at this byte.
fn same_but_reads(posted: &[u8], want: &[u8], at: usize) -> bool {
    let front = at.saturating_add(16);
    let behind = at.saturating_add(20);
    both_are(posted.get(..front), want.get(..front))
        && both_are(posted.get(behind..), want.get(behind..))
}

// Whether these are the records of the third session on these values, with this one under the fifth
// key. A Store that reclaims a block reports the pages that it read.
fn are_third(
    alloc: Global,
    posted: &[u8],
    held: &Held,
    fifth: Option<Value>,
) -> Result<bool, Fail> {
    let answers = third_answers(held, fifth);
    let want = records(alloc, &answers)?;
    if !fill_both_blocks(held, fifth) {
        return Ok(posted == want.as_slice());
    }
    let before = records(alloc, &answers[..5])?;
    Ok(same_but_reads(posted, &want, before.len()))
}

// Serves the third session after a cut of the second one. The fifth key exists if a byte of its
// Store's record was posted, and may exist otherwise; the records of the four Retrieves begin the
// second session.
fn check_recut<P: Program>(
    alloc: Global,
    second: &Flash,
    held: &Held,
    k: usize,
    way: u32,
    left: &Left,
) -> Result<(), Fail> {
    let third = ask_small::<P>(alloc, cut(alloc, second, k, left)?, &THIRD)?;
    let before = records(alloc, &second_answers(held)[..4])?;
    let is_told = bytes_out(second, k) > before.len();
    let posted = third.flash.posted();
    let is_new = are_third(alloc, posted, held, Some(E))?;
    let is_old = !is_told && are_third(alloc, posted, held, None)?;
    let is_so = third.status == DONE && (is_new || is_old);
    holds(is_so, "the status, or what is there", Place::Way(k, way))
}

// Interrupts each mark of the second session in some ways.
fn check_some_ways<P: Program>(alloc: Global, second: &Flash, held: &Held) -> Result<(), Fail> {
    for k in 0..second.marks().saturating_add(1) {
        let mut way = 0u32;
        for left in &some_ways(alloc, second, k)? {
            check_recut::<P>(alloc, second, held, k, way, left)?;
            way = way.saturating_add(1);
        }
    }
    Ok(())
}

// Interrupts this mark of the second session in all its ways.
fn check_all_ways<P: Program>(
    alloc: Global,
    second: &Flash,
    held: &Held,
    k: usize,
) -> Result<(), Fail> {
    let ways = Ways::of(alloc, second, k)?;
    for way in 0..ways.count {
        let left = ways.left(alloc, way)?;
        check_recut::<P>(alloc, second, held, k, way, &left)?;
    }
    Ok(())
}

// The number of one of the ways in which this mark is interrupted: the program of a first page is
// Torn, that of a second page is interrupted in all its ways but the first by turns, and of an
// erase each page is changed by itself.
fn one_way(flash: &Flash, k: usize) -> usize {
    match kind_of(flash, k) {
        Kind::None | Kind::Post => 0,
        Kind::First => 1,
        Kind::Second => 1 + k % 5,
        Kind::Erase => 3 + k % 3,
    }
}

/// The second session is cut at every mark in some ways, after one cut of the first session at each
/// of its marks.
pub fn cut_twice<P: Program>(alloc: Global) -> Result<(), Fail> {
    let first = first_session::<P>(alloc)?.flash;
    for k in 0..first.marks().saturating_add(1) {
        let ways = some_ways(alloc, &first, k)?;
        let left = ways.get(one_way(&first, k)).ok_or("a way")?;
        let (second, kept) = second_session::<P>(alloc, &first, k, left)?;
        let commands = kept.ok_or("a map")?;
        check_some_ways::<P>(alloc, &second.flash, &HELD[commands.min(9)])?;
    }
    Ok(())
}

// The second session after the whole first one.
fn second_behind_first<P: Program>(alloc: Global) -> Result<Session, Fail> {
    let first = first_session::<P>(alloc)?.flash;
    let (second, kept) = second_session::<P>(alloc, &first, first.marks(), &Left::Untouched)?;
    holds(
        kept == Some(9),
        "all commands",
        Place::Named("the second session"),
    )?;
    Ok(second)
}

/// The second session is cut at every mark in all its ways, after the whole first one. Of its four
/// erases one is that of the other root block, which has both pages of a root.
pub fn every_cut_of_second<P: Program>(alloc: Global) -> Result<(), Fail> {
    let second = second_behind_first::<P>(alloc)?.flash;
    let ways = ways_of_erases(alloc, &second)?;
    same(u64::from(ways), 3 * 256 + 9 * 64, "ways")?;
    for k in 0..second.marks().saturating_add(1) {
        check_all_ways::<P>(alloc, &second, &HELD[9], k)?;
    }
    Ok(())
}

// Where a session is cut, and what remains there.
#[derive(Clone, Copy)]
struct Cut {
    k: usize,
    way: Way,
}

#[derive(Clone, Copy)]
enum Way {
    Untouched,
    Torn,
    Done,
    // Each page of a block is changed by itself.
    Each(usize),
    // The second page of a pair becomes this, and the first one is Torn.
    WithEven(PageLeft),
}

const CUTS: [Cut; 15] = [
    Cut {
        k: 2,
        way: Way::Torn,
    },
    Cut {
        k: 3,
        way: Way::Torn,
    },
    Cut {
        k: 4,
        way: Way::Untouched,
    },
    Cut {
        k: 4,
        way: Way::WithEven(PageLeft::Torn),
    },
    Cut {
        k: 4,
        way: Way::Done,
    },
    Cut {
        k: 2,
        way: Way::Each(0),
    },
    Cut {
        k: 4,
        way: Way::WithEven(PageLeft::Done),
    },
    Cut {
        k: 4,
        way: Way::WithEven(PageLeft::Untouched),
    },
    Cut {
        k: 5,
        way: Way::Each(2),
    },
    Cut {
        k: 1,
        way: Way::Each(1),
    },
    Cut {
        k: 4,
        way: Way::Torn,
    },
    Cut {
        k: 7,
        way: Way::WithEven(PageLeft::Torn),
    },
    Cut {
        k: 8,
        way: Way::Torn,
    },
    Cut {
        k: 9,
        way: Way::WithEven(PageLeft::Untouched),
    },
    Cut {
        k: 11,
        way: Way::Untouched,
    },
];

fn left_by(alloc: Global, way: Way) -> Result<Left, Fail> {
    Ok(match way {
        Way::Untouched => Left::Untouched,
        Way::Torn => Left::Torn,
        Way::Done => Left::Done,
        Way::Each(number) => each(alloc, number)?,
        Way::WithEven(page) => Left::WithEven(page),
    })
}

/// Sessions that are cut one after another before an entry is on the flash, some after a root of
/// their own: the marks of each are the erases of two blocks for the epoch and of the other root
/// block, both pages of the root, the erase of a block for values, both pages of the value, both
/// pages of the commit, and the post. The last session is not cut.
pub fn cut_many_times<P: Program>(alloc: Global) -> Result<(), Fail> {
    let mut pages = made::<P>(alloc, &MAKE_SMALL)?;
    for at in &CUTS {
        let session = ask_small::<P>(alloc, pages, &[Ask::Store(0x66, F), Ask::Retrieve(0x66)])?;
        let place = Place::Mark(at.k);
        answered(alloc, &session, &[Answer::Done, Answer::Found(F)], place)?;
        let left = left_by(alloc, at.way)?;
        pages = cut(alloc, &session.flash, at.k, &left)?;
    }
    let last = ask_small::<P>(alloc, pages, &[Ask::Retrieve(0x66)])?;
    answered(
        alloc,
        &last,
        &[Answer::Found(F)],
        Place::Named("the last session"),
    )
}
