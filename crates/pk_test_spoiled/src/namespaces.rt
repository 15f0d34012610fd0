//! Flashes whose keys are in several namespaces, compared with their plain reading: an entry of a namespace that the root does not have,
//! limits that values pass, and damage.

use crate::opened::{Opened, Opens};
use crate::spoiled::{PAGES, check, check_bytes, with_page};
use pk_nand::{PageBytes, PageState};
use pk_test_scripts::holds;
use pk_test_scripts::runs::{with_two_epochs, with_two_spaces};
use std::alloc::{AllocError, Global};
use std::test::*;

// Keys from this one on are in namespace 2.
const FIRST: u8 = 30;

// A page of an epoch or of a run, and how many entries it has.
#[derive(Clone, Copy)]
struct EntryPage {
    page: u32,
    entries: u8,
}

const LISTED: [EntryPage; 11] = [
    EntryPage {
        page: 64,
        entries: 3,
    },
    EntryPage {
        page: 32,
        entries: 2,
    },
    EntryPage {
        page: 34,
        entries: 2,
    },
    EntryPage {
        page: 96,
        entries: 2,
    },
    EntryPage {
        page: 112,
        entries: 15,
    },
    EntryPage {
        page: 113,
        entries: 1,
    },
    EntryPage {
        page: 128,
        entries: 15,
    },
    EntryPage {
        page: 129,
        entries: 15,
    },
    EntryPage {
        page: 130,
        entries: 1,
    },
    EntryPage {
        page: 144,
        entries: 15,
    },
    EntryPage {
        page: 145,
        entries: 2,
    },
];

// The page, but for its entry with this number, which is of another namespace.
fn moved(alloc: Global, page: &PageState, entry: u8, space: u8) -> Result<PageState, Fail> {
    let PageState::Whole(bytes) = page else {
        return Err(Fail::from("a Whole page"));
    };
    let mut own = bytes.bytes().to_vec(alloc)?;
    match own.get_mut(34 + 32 * usize::from(entry)) {
        Some(byte) => *byte = space.wrapping_sub(1),
        None => return Err(Fail::from("an entry")),
    }
    Ok(PageState::Whole(PageBytes::of(own)))
}

// Each entry of this page is put into a namespace that the drive does not have: opening refuses the page.
fn check_listed<O: Opens>(
    alloc: Global,
    pages: &[PageState],
    listed: &EntryPage,
    spaces: u8,
) -> Result<(), Fail> {
    let Some(page) = pages.get(listed.page as usize) else {
        return Err(Fail::from("a page"));
    };
    for entry in 0..listed.entries {
        for space in spaces.saturating_add(1)..=9u8 {
            let moved = moved(alloc, page, entry, space)?;
            let spoiled = with_page(alloc, pages, listed.page, moved)?;
            let opened = check::<O>(alloc, &spoiled, "entry", usize::from(entry))?;
            holds(opened == Opened::Damaged(listed.page), "its page")?;
        }
    }
    Ok(())
}

/// Each entry of the epochs and of the runs is put into each namespace from the first that the drive does not have to the ninth, on a
/// drive of one namespace and on one of two.
pub fn entries_elsewhere<O: Opens>(alloc: Global) -> Result<(), Fail> {
    let one = with_two_epochs(alloc)?;
    let two = with_two_spaces(alloc, FIRST, &[38, 48])?;
    for listed in &LISTED {
        check_listed::<O>(alloc, &one, listed, 1)?;
        check_listed::<O>(alloc, &two, listed, 2)?;
    }
    Ok(())
}

// The limits of a root, and what opening answers: 19 values of two pages each are in namespace 1, and 24 of them in namespace 2. The
// value of a key begins at page 320 and twice the key.
#[derive(Clone, Copy)]
struct LimitsRow {
    name: &'static str,
    limits: &'static [u32],
    opened: Opened,
}

const LIMITED: [LimitsRow; 14] = [
    LimitsRow {
        name: "limits that are reached",
        limits: &[38, 48],
        opened: Opened::Keys(19),
    },
    LimitsRow {
        name: "limits of all pages",
        limits: &[444, 48],
        opened: Opened::Keys(19),
    },
    LimitsRow {
        name: "a third namespace",
        limits: &[38, 48, 406],
        opened: Opened::Keys(19),
    },
    LimitsRow {
        name: "eight namespaces",
        limits: &[38, 48, 1, 1, 1, 1, 1, 401],
        opened: Opened::Keys(19),
    },
    LimitsRow {
        name: "a limit of namespace 1 that its last value passes",
        limits: &[37, 455],
        opened: Opened::Damaged(376),
    },
    LimitsRow {
        name: "a limit of namespace 1 that its second value passes",
        limits: &[3, 48],
        opened: Opened::Damaged(322),
    },
    LimitsRow {
        name: "a limit of namespace 1 that its first value passes",
        limits: &[1, 491],
        opened: Opened::Damaged(320),
    },
    LimitsRow {
        name: "a limit of namespace 2 that its last value passes",
        limits: &[444, 47],
        opened: Opened::Damaged(480),
    },
    LimitsRow {
        name: "a limit of namespace 2 that its first value passes",
        limits: &[491, 1],
        opened: Opened::Damaged(384),
    },
    LimitsRow {
        name: "both limits",
        limits: &[37, 47],
        opened: Opened::Damaged(376),
    },
    LimitsRow {
        name: "one namespace",
        limits: &[492],
        opened: Opened::Damaged(64),
    },
    LimitsRow {
        name: "limits of more pages than the drive has",
        limits: &[445, 48],
        opened: Opened::NotFormatted,
    },
    LimitsRow {
        name: "a limit of no page",
        limits: &[444, 48, 0],
        opened: Opened::NotFormatted,
    },
    LimitsRow {
        name: "no namespace",
        limits: &[],
        opened: Opened::NotFormatted,
    },
];

/// Roots whose limits the values keep or pass, and roots that are none.
pub fn limits_passed<O: Opens>(alloc: Global) -> Result<(), Fail> {
    for row in &LIMITED {
        let pages = with_two_spaces(alloc, FIRST, row.limits)?;
        let opened = check::<O>(alloc, &pages, row.name, 0)?;
        holds(opened == row.opened, row.name)?;
    }
    Ok(())
}

/// Each byte of the root, whose second page is Torn, of the commits, of the first pages of the runs and of pages of two values is changed,
/// on a drive of two namespaces whose limits are reached.
pub fn every_byte_of_two<O: Opens>(alloc: Global) -> Result<(), Fail> {
    let both = with_two_spaces(alloc, FIRST, &[38, 48])?;
    let pages = with_page(alloc, &both, 1, PageState::Torn)?;
    for page in &PAGES {
        check_bytes::<O>(alloc, &pages, *page)?;
    }
    Ok(())
}
