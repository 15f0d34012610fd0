//! Flashes with something wrong, compared with their plain reading: opening refuses them at the page of the reading, or has its map, and
//! writes nothing.

use crate::opened::{Opened, Opens};
use crate::plain::{Item, pages_of, whole};
use crate::reading::{Held, Reading, reading_of};
use pk_base::Shape;
use pk_flash::{Flash, Room};
use pk_nand::{PageBytes, PageState};
use pk_nvme::Request;
use pk_nvme::opcode::{LIST, REPORT, RETRIEVE};
use pk_test_scripts::boards::{board_in, copied, worked};
use pk_test_scripts::damage::with_one_key;
use pk_test_scripts::exits::{DONE, WORN};
use pk_test_scripts::overwritten::record_at;
use pk_test_scripts::pages::{Note, journal_page, meta_page, root_page, set, write};
use pk_test_scripts::runs::with_two_epochs;
use pk_test_scripts::{holds, serve};
use std::alloc::{AllocError, Global};
use std::test::*;

const ROOM: Room = Room {
    posted: 32_768,
    marks: 120,
};

const NO_ROOM: Room = Room {
    posted: 0,
    marks: 0,
};

fn copies(alloc: Global, pages: &[PageState]) -> Result<Vec<PageState>, AllocError> {
    let mut all = Vec::with_capacity(alloc, pages.len())?;
    for page in pages {
        all.push(copied(alloc, page)?)?;
    }
    Ok(all)
}

// ---- the map of a session

fn push_command(into: &mut Vec<u8>, opcode: u8, item: &Item) -> Result<(), AllocError> {
    let request = Request {
        opcode,
        cid: 1,
        namespace: u32::from(item.space),
        key_len: item.key_len,
        key: item.key,
        size: 65_536,
        options: 0,
    };
    into.extend_from_slice(&request.entry())
}

// A List of all keys of each namespace and a Report of it, and a Retrieve of each key.
fn asks(alloc: Global, held: &Held) -> Result<Vec<u8>, AllocError> {
    let mut script = Vec::new(alloc);
    for space in 1..=held.spaces.count {
        let none = Item {
            space,
            key: [0; 16],
            key_len: 0,
            place: None,
        };
        push_command(&mut script, LIST, &none)?;
        push_command(&mut script, REPORT, &none)?;
    }
    for item in &held.items {
        push_command(&mut script, RETRIEVE, item)?;
    }
    Ok(script)
}

// Adds a key as a List spells it: its length in two bytes, its bytes, and zeros up to a word.
fn push_spelled(into: &mut Vec<u8>, item: &Item) -> Result<(), AllocError> {
    into.extend_from_slice(&[item.key_len, 0])?;
    let end = usize::from(item.key_len).saturating_add(2).div_ceil(4) * 4;
    for i in 2..end {
        into.push(item.key.get(i - 2).copied().unwrap_or(0))?;
    }
    Ok(())
}

// How many of these keys are in a namespace.
fn keys_in(items: &[Item], space: u8) -> u32 {
    let mut count = 0u32;
    for item in items {
        if item.space == space {
            count = count.saturating_add(1);
        }
    }
    count
}

// How many pages the values of these keys of a namespace take.
fn live_in(shape: &Shape, items: &[Item], space: u8) -> u32 {
    let mut sum = 0u32;
    for item in items {
        if let Some((_, len)) = item.place {
            if item.space == space {
                sum = sum.saturating_add(pages_of(shape, len).min(256) as u32);
            }
        }
    }
    sum
}

// The data of a List that gives these keys of a namespace.
fn listed(alloc: Global, items: &[Item], space: u8) -> Result<Vec<u8>, AllocError> {
    let mut data = Vec::new(alloc);
    data.extend_from_slice(&keys_in(items, space).to_le_bytes())?;
    for item in items {
        if item.space == space {
            push_spelled(&mut data, item)?;
        }
    }
    Ok(data)
}

// The first three numbers of a Report: the live pages, the limit and the keys of a namespace.
fn reported(alloc: Global, shape: &Shape, held: &Held, space: u8) -> Result<Vec<u8>, AllocError> {
    let mut data = Vec::new(alloc);
    let live = live_in(shape, &held.items, space);
    data.extend_from_slice(&live.to_le_bytes())?;
    data.extend_from_slice(&held.spaces.limit(space).to_le_bytes())?;
    data.extend_from_slice(&keys_in(&held.items, space).to_le_bytes())?;
    Ok(data)
}

// The value that these pages have at a place, after its head.
fn value_at(
    alloc: Global,
    pages: &[PageState],
    first: u32,
    len: u32,
) -> Result<Vec<u8>, AllocError> {
    let mut bytes = Vec::new(alloc);
    for i in 0..4u32 {
        if let Some(page) = whole(pages, first.saturating_add(i)) {
            bytes.extend_from_slice(page)?;
        }
    }
    let end = (len as usize).saturating_add(32);
    let value = bytes.get(32..end).unwrap_or(&[]);
    value.to_vec(alloc)
}

// The root in the first page has a number with which a drive is worn out.
fn is_worn(pages: &[PageState]) -> bool {
    match whole(pages, 0) {
        Some(page) => page.get(31).copied().unwrap_or(0) >= 128,
        None => false,
    }
}

// The record that begins here has these data, which may go on: where the next one begins.
fn record_from(posted: &[u8], at: usize, data: &[u8]) -> Option<usize> {
    let record = record_at(posted, at)?;
    let found = posted.get(record.data..record.end()).unwrap_or(&[]);
    if record.is_done() && found.starts_with(data) {
        Some(record.end())
    } else {
        None
    }
}

// The record that begins here has these data: where the next one begins.
fn record_with(posted: &[u8], at: usize, data: &[u8]) -> Option<usize> {
    let record = record_at(posted, at)?;
    if record.len == data.len() {
        record_from(posted, at, data)
    } else {
        None
    }
}

// The record of a Retrieve of this key begins here and has the value of these pages: where the next one begins.
fn value_end(
    alloc: Global,
    pages: &[PageState],
    item: &Item,
    posted: &[u8],
    at: usize,
) -> Result<Option<usize>, AllocError> {
    let Some((first, len)) = item.place else {
        return Ok(None);
    };
    let value = value_at(alloc, pages, first, len)?;
    Ok(record_with(posted, at, &value))
}

// The records of Retrieves of these keys have the values of these pages, and nothing follows them.
fn have_values(
    alloc: Global,
    pages: &[PageState],
    items: &[Item],
    posted: &[u8],
    from: usize,
) -> Result<bool, AllocError> {
    let mut at = from;
    for item in items {
        match value_end(alloc, pages, item, posted, at)? {
            Some(end) => at = end,
            None => return Ok(false),
        }
    }
    Ok(at == posted.len())
}

fn served_board(alloc: Global, pages: &[PageState], held: &Held) -> Result<Flash, Fail> {
    let shape = worked()?;
    let script = asks(alloc, held)?;
    let pages = copies(alloc, pages)?;
    board_in(alloc, shape, pages, script, ROOM)
}

// The first records have the keys and the numbers of each namespace: where the next one begins.
fn numbers_end(
    alloc: Global,
    shape: &Shape,
    held: &Held,
    posted: &[u8],
) -> Result<Option<usize>, AllocError> {
    let mut at = 0usize;
    for space in 1..=held.spaces.count {
        let keys = listed(alloc, &held.items, space)?;
        let Some(next) = record_with(posted, at, &keys) else {
            return Ok(None);
        };
        let numbers = reported(alloc, shape, held, space)?;
        match record_from(posted, next, &numbers) {
            Some(end) => at = end,
            None => return Ok(None),
        }
    }
    Ok(Some(at))
}

// A session that ended so has these keys, numbers and values, and nothing else; or the drive is worn out, and served no command.
fn has_map(
    alloc: Global,
    shape: &Shape,
    pages: &[PageState],
    held: &Held,
    status: u8,
    posted: &[u8],
) -> Result<bool, AllocError> {
    if is_worn(pages) {
        return Ok(status == WORN && posted.is_empty());
    }
    if status != DONE {
        return Ok(false);
    }
    match numbers_end(alloc, shape, held, posted)? {
        Some(at) => have_values(alloc, pages, &held.items, posted, at),
        None => Ok(false),
    }
}

// The session on these pages has these keys, numbers and values, and nothing else; or the drive is worn out, and serves no command.
fn serves_map<O: Opens>(
    alloc: Global,
    shape: &Shape,
    pages: &[PageState],
    held: &Held,
) -> Result<bool, Fail> {
    let mut flash = served_board(alloc, pages, held)?;
    let status = serve::<O>(alloc, &mut flash);
    Ok(has_map(alloc, shape, pages, held, status, flash.posted())?)
}

// ---- one flash

fn opened_of(reading: &Reading) -> Opened {
    match reading {
        Reading::NotFormatted => Opened::NotFormatted,
        Reading::Damaged(page) => Opened::Damaged(*page),
        Reading::Map(held) => Opened::Keys(keys_in(&held.items, 1)),
    }
}

// What opening answers on these pages, which it leaves alone.
fn opening<O: Opens>(alloc: Global, pages: &[PageState]) -> Result<Opened, Fail> {
    let shape = worked()?;
    let pages = copies(alloc, pages)?;
    let mut flash = board_in(alloc, shape, pages, Vec::new(alloc), NO_ROOM)?;
    let opened = O::opened(alloc, &mut flash);
    if flash.program_count() > 0 || flash.erase_count() > 0 {
        return Err(Fail::from("an opening that writes"));
    }
    Ok(opened)
}

// Opening answered as the reading of these pages does, and a session has the map.
fn is_as_read<O: Opens>(alloc: Global, pages: &[PageState], opened: Opened) -> Result<bool, Fail> {
    let shape = worked()?;
    let reading = reading_of(alloc, &shape, pages)?;
    if opened_of(&reading) != opened {
        return Ok(false);
    }
    match &reading {
        Reading::Map(held) => serves_map::<O>(alloc, &shape, pages, held),
        _ => Ok(true),
    }
}

// Opening answers as the reading does, and writes nothing. How it answers.
pub(crate) fn check<O: Opens>(
    alloc: Global,
    pages: &[PageState],
    what: &'static str,
    number: usize,
) -> Result<Opened, Fail> {
    let opened = opening::<O>(alloc, pages)?;
    if !is_as_read::<O>(alloc, pages, opened)? {
        return Err(Fail::new(format_args!("{what} {number}")));
    }
    Ok(opened)
}

// ---- bytes of a page

// The page, but for the byte at this place, to which this is added.
fn raised(alloc: Global, page: &PageState, at: usize, by: u8) -> Result<PageState, AllocError> {
    match page {
        PageState::Whole(bytes) => {
            let mut bytes = bytes.bytes().to_vec(alloc)?;
            if let Some(byte) = bytes.get_mut(at) {
                *byte = byte.wrapping_add(by);
            }
            Ok(PageState::Whole(PageBytes::of(bytes)))
        }
        PageState::Erased => Ok(PageState::Erased),
        PageState::Torn => Ok(PageState::Torn),
    }
}

pub(crate) fn with_page(
    alloc: Global,
    pages: &[PageState],
    at: u32,
    page: PageState,
) -> Result<Vec<PageState>, Fail> {
    let mut spoiled = copies(alloc, pages)?;
    set(&mut spoiled, at, page)?;
    Ok(spoiled)
}

fn with_byte(
    alloc: Global,
    pages: &[PageState],
    page: u32,
    at: usize,
    by: u8,
) -> Result<Vec<PageState>, Fail> {
    match pages.get(page as usize) {
        Some(found) => with_page(alloc, pages, page, raised(alloc, found, at, by)?),
        None => Err(Fail::from("a page")),
    }
}

// Opening answers as the reading does after a change of one byte.
fn check_byte<O: Opens>(
    alloc: Global,
    pages: &[PageState],
    page: u32,
    at: usize,
    by: u8,
) -> Result<Opened, Fail> {
    let spoiled = with_byte(alloc, pages, page, at, by)?;
    check::<O>(alloc, &spoiled, "byte", at)
}

// Where opening a drive with one key refuses it after a change of this byte of its journal page: at
// the journal page, or, if that is still one of the grammar, at the page at which no value of the
// entry is. No value begins at an odd page.
fn refused_at(byte: usize) -> u32 {
    match byte {
        32 | 36 | 56 | 57 => 32,
        53 => 288,
        _ => 64,
    }
}

/// Each of the first 64 bytes of the first page of the one commit is changed, greater by one. It has one entry, and the value begins at
/// page 32.
pub fn journal_bytes<O: Opens>(alloc: Global) -> Result<(), Fail> {
    let pages = with_one_key::<O>(alloc)?;
    for at in 0..64usize {
        let opened = check_byte::<O>(alloc, &pages, 64, at, 1)?;
        holds(
            opened == Opened::Damaged(refused_at(at)),
            "a byte that is refused",
        )?;
    }
    Ok(())
}

/// The same bytes, changed in every way.
pub fn journal_bytes_by_all<O: Opens>(alloc: Global) -> Result<(), Fail> {
    let pages = with_one_key::<O>(alloc)?;
    for way in 0..64 * 255u32 {
        let at = (way / 255) as usize;
        let opened = check_byte::<O>(alloc, &pages, 64, at, (way % 255) as u8 + 1)?;
        holds(
            matches!(opened, Opened::Damaged(_)),
            "a byte that is refused",
        )?;
    }
    Ok(())
}

// How much is added to bytes: the least number, the sign, and what makes the greatest of zero.
const BY: [u8; 3] = [1, 128, 255];

// Each byte of a page is changed in three ways.
pub(crate) fn check_bytes<O: Opens>(
    alloc: Global,
    pages: &[PageState],
    page: u32,
) -> Result<(), Fail> {
    for way in 0..512 * 3usize {
        let _ = check_byte::<O>(alloc, pages, page, way / 3, BY[way % 3])?;
    }
    Ok(())
}

// The root, the first pages of the commits, the first pages of the runs, those of the values of the keys 33 and 80, and the second one of
// the latter, which has zeros.
pub(crate) const PAGES: [u32; 11] = [0, 32, 34, 64, 96, 112, 128, 144, 386, 480, 481];

/// Each byte of the root, of each commit of the epochs, of the first pages of the runs of all levels, and of pages of two values.
pub fn every_byte<O: Opens>(alloc: Global) -> Result<(), Fail> {
    let pages = with_two_epochs(alloc)?;
    for page in &PAGES {
        check_bytes::<O>(alloc, &pages, *page)?;
    }
    Ok(())
}

// ---- whole pages

// What a page is made.
fn other(alloc: Global, way: u32) -> Result<PageState, AllocError> {
    match way {
        0 => Ok(PageState::Erased),
        1 => Ok(PageState::Torn),
        2 => Ok(PageState::Whole(PageBytes::of(Vec::from_elem(alloc, 0u8, 512)?))),
        _ => Ok(PageState::Whole(PageBytes::of(Vec::from_elem(alloc, 7u8, 512)?))),
    }
}

// Opening answers as the reading does if this page is made another.
fn check_page<O: Opens>(
    alloc: Global,
    pages: &[PageState],
    page: u32,
    way: u32,
) -> Result<(), Fail> {
    let spoiled = with_page(alloc, pages, page, other(alloc, way)?)?;
    let _ = check::<O>(alloc, &spoiled, "page", page as usize)?;
    Ok(())
}

/// Each page of half the flash, with all that the root names and all values, is Erased, Torn, or has bytes that no page has.
pub fn every_page<O: Opens>(alloc: Global) -> Result<(), Fail> {
    let pages = with_two_epochs(alloc)?;
    for way in 0..4 * 512u32 {
        check_page::<O>(alloc, &pages, way / 4, way % 4)?;
    }
    Ok(())
}

// The pages of two blocks of 16, exchanged.
fn exchange(pages: &mut Vec<PageState>, one: usize, other: usize) {
    for i in 0..16usize {
        let at = one.saturating_mul(16).saturating_add(i);
        let to = other.saturating_mul(16).saturating_add(i);
        if at < to && to < pages.len() {
            pages.swap(at, to);
        }
    }
}

// Opening answers as the reading does if the two blocks of this pair are exchanged.
fn check_exchanged<O: Opens>(alloc: Global, pages: &[PageState], pair: usize) -> Result<(), Fail> {
    let mut spoiled = copies(alloc, pages)?;
    exchange(&mut spoiled, pair / 32, pair % 32);
    let _ = check::<O>(alloc, &spoiled, "exchanged blocks", pair)?;
    Ok(())
}

/// Any two of the first 32 blocks are exchanged.
pub fn exchanged<O: Opens>(alloc: Global) -> Result<(), Fail> {
    let pages = with_two_epochs(alloc)?;
    for pair in 0..32 * 32usize {
        if pair / 32 < pair % 32 {
            check_exchanged::<O>(alloc, &pages, pair)?;
        }
    }
    Ok(())
}

// ---- the pages of pairs

// The first pages of the pairs of the root and of the three commits, and of the first pair after the newest epoch.
const PAIRS: [u32; 5] = [0, 32, 34, 36, 64];

// Opening answers as the reading does if both pages of this pair are unchanged or others.
fn check_pair<O: Opens>(
    alloc: Global,
    pages: &[PageState],
    first: u32,
    ways: u32,
) -> Result<(), Fail> {
    let mut spoiled = copies(alloc, pages)?;
    if ways % 5 < 4 {
        set(&mut spoiled, first, other(alloc, ways % 5)?)?;
    }
    if ways / 5 < 4 {
        let second = first.saturating_add(1);
        set(&mut spoiled, second, other(alloc, ways / 5)?)?;
    }
    let _ = check::<O>(alloc, &spoiled, "pair", first as usize)?;
    Ok(())
}

/// Each page of the pairs of the root and of the commits is as it was, Erased, Torn, or has bytes that no page has, and so is the other one.
pub fn every_pair<O: Opens>(alloc: Global) -> Result<(), Fail> {
    let pages = with_two_epochs(alloc)?;
    for first in &PAIRS {
        for ways in 0..25u32 {
            check_pair::<O>(alloc, &pages, *first, ways)?;
        }
    }
    Ok(())
}

// ---- pages that are others

// A page of the grammar.
#[derive(Clone, Copy)]
enum Kind {
    // A root with this number, of epoch 9 and no entry, which names these two blocks.
    Root(u64, [u16; 2]),
    // A page of the commit of an epoch with this index.
    Journal(u64, u32, &'static [Note]),
    // The page of a run with this index.
    Meta(u8, &'static [Note]),
}

// A page that is written over another one, and what opening answers then.
#[derive(Clone, Copy)]
struct Over {
    name: &'static str,
    page: u32,
    kind: Kind,
    opened: Opened,
}

fn bytes_of(kind: &Kind) -> [u8; 512] {
    match kind {
        Kind::Root(number, blocks) => root_page(*number, 9, 1, [0; 4], blocks),
        Kind::Journal(epoch, index, notes) => journal_page(*epoch, *index, notes),
        Kind::Meta(level, notes) => meta_page(*level, 0, notes),
    }
}

const FRONT: [Note; 2] = [Note::Gone(30), Note::Gone(31)];

const GONE: [Note; 2] = [Note::Gone(10), Note::Gone(20)];

// Roots next to the newest one, which has the number 7 and is in page 0. An empty drive has no key.
const ROOTS: [Over; 6] = [
    Over {
        name: "another root of the same number in the other page of its pair",
        page: 1,
        kind: Kind::Root(7, [40, 41]),
        opened: Opened::Keys(43),
    },
    Over {
        name: "another root of the same number in block 1",
        page: 16,
        kind: Kind::Root(7, [40, 41]),
        opened: Opened::Keys(43),
    },
    Over {
        name: "a root of a lower number",
        page: 16,
        kind: Kind::Root(6, [40, 41]),
        opened: Opened::Keys(43),
    },
    Over {
        name: "a root of a greater number",
        page: 31,
        kind: Kind::Root(10, [40, 41]),
        opened: Opened::Keys(0),
    },
    Over {
        name: "a root that names a block twice",
        page: 31,
        kind: Kind::Root(10, [40, 40]),
        opened: Opened::Keys(43),
    },
    Over {
        name: "a root whose epoch is above its number",
        page: 31,
        kind: Kind::Root(8, [40, 41]),
        opened: Opened::Keys(43),
    },
];

// Pages of epochs and runs that are not those that the root names. The value of the key 20 begins at page 360.
const LISTS: [Over; 13] = [
    Over {
        name: "the epoch of another drive in the page of a commit that is not read",
        page: 33,
        kind: Kind::Journal(9, 0, &FRONT),
        opened: Opened::Keys(43),
    },
    Over {
        name: "the next commit of another drive, by its second page alone",
        page: 37,
        kind: Kind::Journal(9, 2, &FRONT),
        opened: Opened::Damaged(37),
    },
    Over {
        name: "the next commit by its second page alone, whose keys are deleted",
        page: 37,
        kind: Kind::Journal(3, 2, &[Note::Gone(20), Note::Gone(18)]),
        opened: Opened::Keys(42),
    },
    Over {
        name: "a page that says that a value begins at an odd page",
        page: 96,
        kind: Kind::Meta(1, &[Note::Gone(10), Note::Put(20, 361, 100)]),
        opened: Opened::Damaged(96),
    },
    Over {
        name: "the epoch of another drive",
        page: 32,
        kind: Kind::Journal(9, 0, &FRONT),
        opened: Opened::Damaged(32),
    },
    Over {
        name: "a page of the same epoch of another drive, whose keys are deleted",
        page: 32,
        kind: Kind::Journal(3, 0, &[Note::Gone(20), Note::Gone(18)]),
        opened: Opened::Keys(42),
    },
    Over {
        name: "a page of the same epoch with the index of another",
        page: 32,
        kind: Kind::Journal(3, 1, &FRONT),
        opened: Opened::Damaged(32),
    },
    Over {
        name: "a page of the older epoch with the number of the newest",
        page: 64,
        kind: Kind::Journal(3, 0, &FRONT),
        opened: Opened::Damaged(64),
    },
    Over {
        name: "a page of another level",
        page: 96,
        kind: Kind::Meta(2, &GONE),
        opened: Opened::Damaged(96),
    },
    Over {
        name: "a page with other entries, as many",
        page: 96,
        kind: Kind::Meta(1, &GONE),
        opened: Opened::Keys(42),
    },
    Over {
        name: "a page with fewer entries",
        page: 96,
        kind: Kind::Meta(1, &[Note::Put(20, 360, 100)]),
        opened: Opened::Damaged(96),
    },
    Over {
        name: "a page whose keys do not rise",
        page: 96,
        kind: Kind::Meta(1, &[Note::Gone(21), Note::Gone(20)]),
        opened: Opened::Damaged(96),
    },
    Over {
        name: "a page that says that the value stands in a block of the root",
        page: 96,
        kind: Kind::Meta(1, &[Note::Gone(10), Note::Put(20, 40, 100)]),
        opened: Opened::Damaged(40),
    },
];

fn check_over<O: Opens>(alloc: Global, row: &Over) -> Result<(), Fail> {
    let mut pages = with_two_epochs(alloc)?;
    write(alloc, &mut pages, row.page, &bytes_of(&row.kind))?;
    let opened = check::<O>(alloc, &pages, row.name, row.page as usize)?;
    holds(opened == row.opened, row.name)
}

/// Pages of roots, epochs and runs that are of the grammar, and not those that were there.
pub fn others<O: Opens>(alloc: Global) -> Result<(), Fail> {
    for row in &ROOTS {
        check_over::<O>(alloc, row)?;
    }
    for row in &LISTS {
        check_over::<O>(alloc, row)?;
    }
    Ok(())
}
