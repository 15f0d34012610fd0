//! Pages that no session left so.

use pk_nand::{PageBytes, PageState};
use pk_test_scripts::boards::Session;
use pk_test_scripts::damage::with_one_key;
use pk_test_scripts::exits::{DONE, NO_DRIVE};
use pk_test_scripts::script::Ask;
use pk_test_scripts::steps::{ask, ended, holds, wrote};
use pk_test_scripts::{Place, Program};
use std::alloc::Global;
use std::test::*;

// What a page is made.
#[derive(Clone, Copy)]
enum Damage {
    Erased,
    Torn,
    /// Whole, with bytes that no page has.
    Foreign,
    /// The same but for the byte at this place, which is one greater.
    Byte(usize),
}

// The bytes that a page is made of by a damage that leaves it Whole.
fn bytes_with(alloc: Global, page: &PageState, damage: Damage) -> Result<Vec<u8>, Fail> {
    let Damage::Byte(at) = damage else {
        return Ok(Vec::from_elem(alloc, 7u8, 512)?);
    };
    let PageState::Whole(bytes) = page else {
        return Err(Fail::new("a Whole page"));
    };
    let mut bytes = bytes.bytes().to_vec(alloc)?;
    if let Some(byte) = bytes.get_mut(at) {
        *byte = byte.wrapping_add(1);
    }
    Ok(bytes)
}

fn page_with(alloc: Global, page: &PageState, damage: Damage) -> Result<PageState, Fail> {
    Ok(match damage {
        Damage::Erased => PageState::Erased,
        Damage::Torn => PageState::Torn,
        Damage::Foreign | Damage::Byte(_) => {
            PageState::Whole(PageBytes::of(bytes_with(alloc, page, damage)?))
        }
    })
}

// The pages from one to another are damaged: the status of a session.
#[derive(Clone, Copy)]
struct Case {
    name: &'static str,
    from: usize,
    to: usize,
    damage: Damage,
    status: u8,
}

// The former root names the epoch whose first block has the value by now, so that this is no page of the epoch.
const CASES: [Case; 29] = [
    Case {
        name: "the value",
        from: 32,
        to: 33,
        damage: Damage::Torn,
        status: NO_DRIVE,
    },
    Case {
        name: "no value",
        from: 32,
        to: 33,
        damage: Damage::Erased,
        status: NO_DRIVE,
    },
    Case {
        name: "another value",
        from: 32,
        to: 33,
        damage: Damage::Foreign,
        status: NO_DRIVE,
    },
    Case {
        name: "the value's head of another key",
        from: 32,
        to: 33,
        damage: Damage::Byte(4),
        status: NO_DRIVE,
    },
    Case {
        name: "the value's head of another length",
        from: 32,
        to: 33,
        damage: Damage::Byte(20),
        status: NO_DRIVE,
    },
    Case {
        name: "the value's head with another text",
        from: 32,
        to: 33,
        damage: Damage::Byte(24),
        status: NO_DRIVE,
    },
    Case {
        name: "a byte after the value",
        from: 32,
        to: 33,
        damage: Damage::Byte(35),
        status: NO_DRIVE,
    },
    Case {
        name: "the last byte of the value's first page",
        from: 32,
        to: 33,
        damage: Damage::Byte(511),
        status: NO_DRIVE,
    },
    Case {
        name: "the value's second page, which has no byte of it",
        from: 33,
        to: 34,
        damage: Damage::Torn,
        status: NO_DRIVE,
    },
    Case {
        name: "no second page of the value",
        from: 33,
        to: 34,
        damage: Damage::Erased,
        status: NO_DRIVE,
    },
    Case {
        name: "a byte of the value's second page",
        from: 33,
        to: 34,
        damage: Damage::Byte(0),
        status: NO_DRIVE,
    },
    Case {
        name: "the page after the value",
        from: 34,
        to: 35,
        damage: Damage::Foreign,
        status: DONE,
    },
    Case {
        name: "the first page of the commit",
        from: 64,
        to: 65,
        damage: Damage::Foreign,
        status: NO_DRIVE,
    },
    Case {
        name: "a torn first page of the commit",
        from: 64,
        to: 65,
        damage: Damage::Torn,
        status: DONE,
    },
    Case {
        name: "no first page of the commit",
        from: 64,
        to: 65,
        damage: Damage::Erased,
        status: DONE,
    },
    Case {
        name: "the second page of the commit",
        from: 65,
        to: 66,
        damage: Damage::Foreign,
        status: DONE,
    },
    Case {
        name: "a torn second page of the commit",
        from: 65,
        to: 66,
        damage: Damage::Torn,
        status: DONE,
    },
    Case {
        name: "both pages of the commit",
        from: 64,
        to: 66,
        damage: Damage::Torn,
        status: DONE,
    },
    Case {
        name: "the first page of the next commit",
        from: 66,
        to: 67,
        damage: Damage::Foreign,
        status: NO_DRIVE,
    },
    Case {
        name: "a torn first page of the next commit",
        from: 66,
        to: 67,
        damage: Damage::Torn,
        status: DONE,
    },
    Case {
        name: "the second page of the next commit",
        from: 67,
        to: 68,
        damage: Damage::Foreign,
        status: NO_DRIVE,
    },
    Case {
        name: "the former root",
        from: 0,
        to: 2,
        damage: Damage::Torn,
        status: DONE,
    },
    Case {
        name: "the first page of the root",
        from: 16,
        to: 17,
        damage: Damage::Torn,
        status: DONE,
    },
    Case {
        name: "no first page of the root",
        from: 16,
        to: 17,
        damage: Damage::Erased,
        status: DONE,
    },
    Case {
        name: "the second page of the root",
        from: 17,
        to: 18,
        damage: Damage::Foreign,
        status: DONE,
    },
    Case {
        name: "both pages of the root",
        from: 16,
        to: 18,
        damage: Damage::Torn,
        status: NO_DRIVE,
    },
    Case {
        name: "a page after the root",
        from: 18,
        to: 19,
        damage: Damage::Foreign,
        status: DONE,
    },
    Case {
        name: "all pages",
        from: 0,
        to: 1024,
        damage: Damage::Erased,
        status: NO_DRIVE,
    },
    Case {
        name: "no pages",
        from: 0,
        to: 0,
        damage: Damage::Torn,
        status: DONE,
    },
];

// The pages of a drive with the key `a`, damaged so.
fn damaged_pages<P: Program>(alloc: Global, case: &Case) -> Result<Vec<PageState>, Fail> {
    let mut pages = with_one_key::<P>(alloc)?;
    for i in case.from..case.to {
        if i < pages.len() {
            pages[i] = page_with(alloc, &pages[i], case.damage)?;
        }
    }
    Ok(pages)
}

/// A session with this status posted nothing exactly if it is 8, and wrote nothing.
pub fn refused(session: &Session, status: u8, place: Place) -> Result<(), Fail> {
    ended(session, status, place)?;
    let is_empty = session.flash.posted().is_empty();
    holds(
        is_empty == (status == NO_DRIVE),
        "whether nothing was posted",
        place,
    )?;
    wrote(session, 0, 0)
}

/// By the pages from one to another that are damaged: the status of a session, which posts and
/// writes nothing if it is 8.
pub fn damaged<P: Program>(alloc: Global) -> Result<(), Fail> {
    for case in &CASES {
        let pages = damaged_pages::<P>(alloc, case)?;
        let session = ask::<P>(alloc, pages, &[Ask::Retrieve(0x61)])?;
        refused(&session, case.status, Place::Named(case.name))?;
    }
    Ok(())
}
