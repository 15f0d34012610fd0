//! Drives of several namespaces, each with keys, a limit and numbers of its own; and drives of one, which are written as before there
//! were several.

use pk_base::{get_u16, get_u32};
use pk_flash::Flash;
use pk_nand::{Mark, PageState};
use pk_nvme::Request;
use pk_nvme::opcode::{EXIST, LIST, REPORT, STORE};
use pk_nvme::status::{CAPACITY_EXCEEDED, INVALID_NAMESPACE_OR_FORMAT, SUCCESSFUL_COMPLETION};
use pk_test_scripts::boards::{Session, made, pages_left, worked};
use pk_test_scripts::exits::DONE;
use pk_test_scripts::overwritten::{all_with, record_at};
use pk_test_scripts::pages::entries_of;
use pk_test_scripts::runs::with_two_epochs;
use pk_test_scripts::script::{Ask, Value, script as script_of};
use pk_test_scripts::steps::{
    add, ask, ended, holds, roomy_board, same_pages, serve, worked_board, wrote,
};
use pk_test_scripts::{MAKE_WORKED, Place, Program};
use std::alloc::Global;
use std::test::*;

const TWO: [&str; 6] = ["make", "512", "16", "64", "100", "392"];

// The bytes of each value, which take two pages.
const VALUE: [u8; 100] = [7; 100];

// Adds a command in a namespace on the key of this byte; 0 names no key.
fn push(into: &mut Vec<u8>, opcode: u8, namespace: u32, key: u8, size: u32) -> Result<(), Fail> {
    let mut bytes = [0u8; 16];
    bytes[0] = key;
    let request = Request {
        opcode,
        cid: 1,
        namespace,
        key_len: if key == 0 { 0 } else { 1 },
        key: bytes,
        size,
        options: 0,
    };
    add(into, &request.entry())
}

// 51 Stores of two pages each in namespace 1, one in namespace 2, and commands in namespaces 2 and 3.
fn script(alloc: Global) -> Result<Vec<u8>, Fail> {
    let mut bytes = Vec::new(alloc);
    for key in 1..=51u8 {
        push(&mut bytes, STORE, 1, key, 100)?;
        add(&mut bytes, &VALUE)?;
    }
    push(&mut bytes, STORE, 2, 9, 100)?;
    add(&mut bytes, &VALUE)?;
    push(&mut bytes, EXIST, 3, 9, 0)?;
    push(&mut bytes, LIST, 2, 0, 1000)?;
    push(&mut bytes, REPORT, 2, 0, 0)?;
    push(&mut bytes, REPORT, 1, 0, 0)?;
    Ok(bytes)
}

// The first three numbers of a Report.
fn numbers(live: u16, limit: u16, keys: u8) -> [u8; 12] {
    let [live_low, live_high] = live.to_le_bytes();
    let [limit_low, limit_high] = limit.to_le_bytes();
    [
        live_low, live_high, 0, 0, limit_low, limit_high, 0, 0, keys, 0, 0, 0,
    ]
}

// Where the record ends that begins here, which has to be done, with data that begin with these.
fn data_at(posted: &[u8], at: usize, data: &[u8], name: &'static str) -> Result<usize, Fail> {
    Ok(match record_at(posted, at) {
        Some(record) => {
            let found = posted.get(record.data..record.end()).unwrap_or(&[]);
            let is_so = record.is_done() && found.starts_with(data);
            holds(is_so, "the data", Place::Named(name))?;
            record.end()
        }
        None => return Err(Fail::new("a record")),
    })
}

// The end of this many records without data, each of this status.
fn statuses(posted: &[u8], at: usize, count: u32, status: u8) -> Result<usize, Fail> {
    Ok(all_with(posted, at, count, u32::from(status))?)
}

/// Limits of 100 and 392 pages: 50 values of two pages fill namespace 1, and namespace 2 has room and lists its own key alone. Its
/// numbers are two live pages, the limit and one key; those of the other are 100, the limit and 50. There is no namespace 3.
pub fn two_namespaces<P: Program>(alloc: Global) -> Result<(), Fail> {
    let pages = made::<P>(alloc, &TWO)?;
    let session = serve::<P>(alloc, worked_board(alloc, pages, script(alloc)?)?);
    ended(&session, DONE, Place::Named("two namespaces"))?;
    let posted = session.flash.posted();
    let full = statuses(posted, 0, 50, SUCCESSFUL_COMPLETION)?;
    let refused = statuses(posted, full, 1, CAPACITY_EXCEEDED)?;
    let stored = statuses(posted, refused, 1, SUCCESSFUL_COMPLETION)?;
    let missing = statuses(posted, stored, 1, INVALID_NAMESPACE_OR_FORMAT)?;
    let listed = data_at(posted, missing, &[1, 0, 0, 0, 1, 0, 9, 0], "a List")?;
    let second = data_at(posted, listed, &numbers(2, 392, 1), "a Report")?;
    let end = data_at(posted, second, &numbers(100, 100, 50), "the other")?;
    holds(
        end == posted.len(),
        "the end",
        Place::Named("two namespaces"),
    )
}

// ---- eight namespaces

const EIGHT: [&str; 12] = [
    "make", "512", "16", "64", "2", "4", "6", "8", "10", "12", "14", "436",
];

// A Store of as many keys in each namespace as its number, and one more key in each but the last, which has room for it; then a Report
// of each.
fn script_of_eight(alloc: Global) -> Result<Vec<u8>, Fail> {
    let mut bytes = Vec::new(alloc);
    for key in 1..=8u8 {
        for space in key.saturating_sub(1).max(1)..=8u8 {
            push(&mut bytes, STORE, u32::from(space), key, 100)?;
            add(&mut bytes, &VALUE)?;
        }
    }
    for space in 1..=8u32 {
        push(&mut bytes, REPORT, space, 0, 0)?;
    }
    Ok(bytes)
}

// Where the records of the Stores end: a namespace is full after as many keys as its number, but the last one.
fn stores_end(posted: &[u8]) -> Result<usize, Fail> {
    let mut at = 0usize;
    for key in 1..=8u8 {
        for space in key.saturating_sub(1).max(1)..=8u8 {
            let status = if space < key {
                CAPACITY_EXCEEDED
            } else {
                SUCCESSFUL_COMPLETION
            };
            at = statuses(posted, at, 1, status)?;
        }
    }
    Ok(at)
}

/// Eight namespaces, of which each has room for as many values as its number says, and the last one has more; a Report of each.
pub fn eight_namespaces<P: Program>(alloc: Global) -> Result<(), Fail> {
    let pages = made::<P>(alloc, &EIGHT)?;
    let input = script_of_eight(alloc)?;
    let session = serve::<P>(alloc, worked_board(alloc, pages, input)?);
    let place = Place::Named("eight namespaces");
    ended(&session, DONE, place)?;
    let posted = session.flash.posted();
    let mut at = stores_end(posted)?;
    for space in 1..=8u8 {
        let live = 2 * u16::from(space);
        let limit = if space == 8 { 436 } else { live };
        at = data_at(posted, at, &numbers(live, limit, space), "a Report")?;
    }
    holds(at == posted.len(), "the end", place)
}

// ---- what is written

// Overwrites of ten keys, with background steps after each: freezes and merges, and so roots.
fn session_of_roots<P: Program>(alloc: Global, pages: Vec<PageState>) -> Result<Session, Fail> {
    let mut asks = Vec::new(alloc);
    for number in 0..90u8 {
        let value = Value {
            first: number,
            len: 100,
        };
        asks.push(Ask::Store(number % 40, value))?;
        asks.push(Ask::Tick(40))?;
    }
    let input = script_of(alloc, &asks)?;
    Ok(serve::<P>(alloc, roomy_board(alloc, worked()?, pages, input)?))
}

// The bytes that the mark with this number programs; none if it programs no page.
fn programmed(flash: &Flash, k: usize) -> &[u8] {
    if k >= flash.marks() {
        return &[];
    }
    match flash.mark(k) {
        Mark::Program { bytes, .. } => bytes.bytes(),
        _ => &[],
    }
}

// Whether a page has the fields of a root with these limits, of which there are two; of none, those of a root without limits.
fn has_limits(page: &[u8], limits: &[u32]) -> bool {
    if page.len() < 96 {
        return false;
    }
    let version = get_u16(page, 8);
    let count = get_u32(page, 20) as usize;
    let are_these = match limits {
        [] => version == 2,
        [first, second] => {
            version == 3 && get_u32(page, 64) == *first && get_u32(page, 68) == *second
        }
        _ => false,
    };
    are_these && count == limits.len()
}

// How many roots a session programmed, each of which has these limits.
fn roots_with(flash: &Flash, limits: &[u32]) -> Result<u32, Fail> {
    let mut roots = 0u32;
    for k in 0..flash.marks() {
        let page = programmed(flash, k);
        if page.get(..8) == Some(b"PINKROOT".as_slice()) {
            holds(has_limits(page, limits), "limits", Place::Mark(k))?;
            roots = roots.saturating_add(1);
        }
    }
    Ok(roots)
}

// Whether each entry of a page of an epoch or a run, and the head of a value, is of namespace 1.
fn is_of_first(page: &[u8]) -> bool {
    for i in 0..entries_of(page) {
        if page.get(34 + 32 * usize::from(i)) != Some(&0) {
            return false;
        }
    }
    page.get(24..32) != Some(b"PINKDATA".as_slice()) || page.get(2) == Some(&0)
}

// Each root of a session on a drive that these words made has these limits.
fn check_limits<P: Program>(alloc: Global, words: &[&str], limits: &[u32]) -> Result<(), Fail> {
    let session = session_of_roots::<P>(alloc, made::<P>(alloc, words)?)?;
    ended(&session, DONE, Place::Named("a session of roots"))?;
    let roots = roots_with(&session.flash, limits)?;
    holds(roots >= 6, "several roots", Place::Named("roots"))
}

/// Each root of freezes and merges has the limits of the drive, or none if it was made without.
pub fn limits_of_roots<P: Program>(alloc: Global) -> Result<(), Fail> {
    check_limits::<P>(alloc, &MAKE_WORKED, &[])?;
    check_limits::<P>(alloc, &TWO, &[100, 392])
}

/// A drive of one namespace with all pages is made as one without limits, and all that is written on one without limits is in namespace
/// 1, as it was before there were others.
pub fn one_namespace<P: Program>(alloc: Global) -> Result<(), Fail> {
    let without = made::<P>(alloc, &MAKE_WORKED)?;
    let with = made::<P>(alloc, &["make", "512", "16", "64", "492"])?;
    same_pages(&with, &without, Place::Named("one limit"))?;
    let session = session_of_roots::<P>(alloc, without)?;
    for k in 0..session.flash.marks() {
        let page = programmed(&session.flash, k);
        holds(is_of_first(page), "namespace 1", Place::Mark(k))?;
    }
    Ok(())
}

/// A flash without limits, with two epochs and runs of all levels, is served; a List, a Report and Retrieves write nothing.
pub fn without_limits<P: Program>(alloc: Global) -> Result<(), Fail> {
    let pages = with_two_epochs(alloc)?;
    let asks = [Ask::List, Ask::Report, Ask::Retrieve(80), Ask::Retrieve(1)];
    let session = ask::<P>(alloc, pages, &asks)?;
    ended(&session, DONE, Place::Named("no limits"))?;
    wrote(&session, 0, 0)?;
    let posted = session.flash.posted();
    let listed = data_at(posted, 0, &[43, 0, 0, 0, 1, 0, 0, 0], "a List")?;
    let _ = data_at(posted, listed, &numbers(86, 492, 43), "a Report")?;
    let left = pages_left(alloc, &session.flash)?;
    let before = with_two_epochs(alloc)?;
    same_pages(&left, &before, Place::Named("no limits"))
}
