//! Drives whose roots have great numbers.

use pk_base::get_u64;
use pk_nand::{PageBytes, PageState};
use pk_test_scripts::boards::{made, pages_left};
use pk_test_scripts::exits::{DONE, WORN};
use pk_test_scripts::script::{Answer, Ask, Value, records};
use pk_test_scripts::steps::{answered, ask, copied, holds, posted};
use pk_test_scripts::{MAKE_WORKED, Place, Program, same};
use std::alloc::Global;
use std::test::*;

const STORES: [Ask; 2] = [
    Ask::Store(0x61, Value { first: 1, len: 3 }),
    Ask::Store(0x62, Value { first: 2, len: 3 }),
];

const ANSWERS: [Answer; 2] = [Answer::Done, Answer::Done];

// The root in this page with this number, which is at its byte 24.
fn root_with(
    alloc: Global,
    pages: &Vec<PageState>,
    at: usize,
    number: u64,
) -> Result<PageState, Fail> {
    let Some(PageState::Whole(bytes)) = pages.get(at) else {
        return Err(Fail::new("a root"));
    };
    let mut root = copied(alloc, bytes.bytes())?;
    pk_test_scripts::holds(root.len() >= 32, "a root")?;
    root[24..32].copy_from_slice(&number.to_le_bytes());
    Ok(PageState::Whole(PageBytes::of(root)))
}

// These pages with this number in the root of the pair that begins here.
fn with_number(
    alloc: Global,
    mut pages: Vec<PageState>,
    first: usize,
    number: u64,
) -> Result<Vec<PageState>, Fail> {
    for at in [first, first.saturating_add(1)] {
        let root = root_with(alloc, &pages, at, number)?;
        if let Some(page) = pages.get_mut(at) {
            *page = root;
        }
    }
    Ok(pages)
}

// A made drive whose root, the only one, has this number in both of its pages.
fn made_with_number<P: Program>(alloc: Global, number: u64) -> Result<Vec<PageState>, Fail> {
    Ok(with_number(alloc, made::<P>(alloc, &MAKE_WORKED)?, 0, number)?)
}

// By the number of the newest root and the commands that come: the status, and how many records are posted.
#[derive(Clone, Copy)]
struct Case {
    number: u64,
    commands: usize,
    status: u8,
    answered: usize,
}

const CASES: [Case; 8] = [
    Case {
        number: 1 << 63,
        commands: 0,
        status: DONE,
        answered: 0,
    },
    Case {
        number: 1 << 63,
        commands: 1,
        status: WORN,
        answered: 0,
    },
    Case {
        number: u64::MAX,
        commands: 0,
        status: DONE,
        answered: 0,
    },
    Case {
        number: u64::MAX,
        commands: 1,
        status: WORN,
        answered: 0,
    },
    Case {
        number: (1 << 63) - 1,
        commands: 0,
        status: DONE,
        answered: 0,
    },
    Case {
        number: (1 << 63) - 1,
        commands: 1,
        status: DONE,
        answered: 1,
    },
    Case {
        number: (1 << 63) - 1,
        commands: 2,
        status: WORN,
        answered: 1,
    },
    Case {
        number: (1 << 63) - 2,
        commands: 2,
        status: DONE,
        answered: 2,
    },
];

fn check<P: Program>(alloc: Global, case: &Case) -> Result<(), Fail> {
    let asks = STORES.get(..case.commands).unwrap_or(&STORES);
    let session = ask::<P>(alloc, made_with_number::<P>(alloc, case.number)?, asks)?;
    let answers = ANSWERS.get(..case.answered).unwrap_or(&ANSWERS);
    let want = records(alloc, answers)?;
    posted(&session, case.status, &want, Place::Root(case.number))
}

/// By the number of the newest root and the commands that come: the status, and how many records are posted. The Store that is the
/// last one of a drive begins an epoch by the root 2^63.
pub fn numbers<P: Program>(alloc: Global) -> Result<(), Fail> {
    for case in &CASES {
        check::<P>(alloc, case)?;
    }
    Ok(())
}

// The number of the root in this page.
fn number_in(pages: &[PageState], at: usize) -> Result<u64, Fail> {
    let Some(PageState::Whole(bytes)) = pages.get(at) else {
        return Err(Fail::new("a root"));
    };
    pk_test_scripts::holds(bytes.bytes().len() >= 32, "a root")?;
    Ok(get_u64(bytes.bytes(), 24))
}

/// The key of one session is merged by a Tick of the next one, whose roots go to the other root block from its first pair on. The Tick
/// ends at the first program of the root 2^63: the second page of its pair remains Erased, and a later session ends with 10.
pub fn tick_ends_at_the_last_root<P: Program>(alloc: Global) -> Result<(), Fail> {
    let place = Place::Root(1 << 63);
    let first = ask::<P>(alloc, made::<P>(alloc, &MAKE_WORKED)?, &STORES[..1])?;
    let pages = pages_left(alloc, &first.flash)?;
    let pages = with_number(alloc, pages, 16, (1 << 63) - 2)?;
    let session = ask::<P>(alloc, pages, &[STORES[1], Ask::Tick(1000)])?;
    answered(alloc, &session, &ANSWERS, place)?;
    let left = pages_left(alloc, &session.flash)?;
    same(number_in(&left, 2)?, 1 << 63, "the number")?;
    let is_erased = matches!(left.get(3), Some(PageState::Erased));
    holds(is_erased, "the second page is Erased", place)?;
    posted(&ask::<P>(alloc, left, &STORES[..1])?, WORN, &[], place)
}
