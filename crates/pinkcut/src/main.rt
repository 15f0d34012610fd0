//! Cuts the power of one Store, on the board in memory: at each mark, in each way that it may leave the flash. For each cut it prints
//! what the pages are that the drive has written, and what the program then answers to a Retrieve.
//!
//! `demo.sh --cut` makes pictures of these lines.
#![tactic(auto)]

use pk_base::Shape;
use pk_flash::{Flash, Left, PageLeft};
use pk_nand::{Mark, PageState};
use pk_test_scripts::boards::{Session, cut, made, pages_behind, served, worked};
use pk_test_scripts::script::{Ask, Value};
use pk_test_scripts::ways::{Kind, few_ways, kind_of};
use pk_test_scripts::{MAKE_WORKED, Program, board};
use pk_top::run;
use std::alloc::Global;
use std::fmt::Write;
use std::test::*;

/// The program, whose parts this repository proves.
struct Pink;

impl Program for Pink {
    fn run(alloc: Global, words: &[&str], flash: &mut Flash) -> u8 {
        run(alloc, words, flash).0
    }
}

/// The key `a`.
const KEY: u8 = 0x61;

/// The value `ABC`, which the key has before.
const OLD: Value = Value {
    first: 0x41,
    len: 3,
};

/// The value `XYZ`, which the Store gives it.
const NEW: Value = Value {
    first: 0x58,
    len: 3,
};

/// The drive of the Store, in whose session the power is cut.
fn store(alloc: Global, shape: Shape) -> Result<Session, Fail> {
    let empty = made::<Pink>(alloc, &MAKE_WORKED)?;
    let pages = pages_behind::<Pink>(alloc, shape, empty, &[Ask::Store(KEY, OLD)])?;
    served::<Pink>(alloc, shape, pages, &[Ask::Store(KEY, NEW)])
}

/// Lines of the pages that are Whole after the session, and their numbers.
fn push_written(alloc: Global, text: &mut String, flash: &Flash) -> Result<Vec<u32>, Fail> {
    let mut found = Vec::new(alloc);
    let shape = flash.shape().ok_or("a shape")?;
    for page in 0..shape.page_count() {
        if let PageState::Whole(bytes) = flash.page(page) {
            write!(text, "page {page} format={}\n", format_of(bytes.bytes()))?;
            found.push(page)?;
        }
    }
    Ok(found)
}

fn state_name(state: &PageState) -> &'static str {
    match state {
        PageState::Erased => "erased",
        PageState::Whole(_) => "whole",
        PageState::Torn => "torn",
    }
}

/// What a cut leaves of the call of its mark.
fn way_name(left: &Left) -> &'static str {
    match left {
        Left::Untouched => "old",
        Left::Torn => "torn",
        Left::Done => "whole",
        Left::WithEven(PageLeft::Untouched) => "old-even-torn",
        Left::WithEven(PageLeft::Torn) => "torn-even-torn",
        Left::WithEven(PageLeft::Done) => "whole-even-torn",
        Left::Each(_) => "by-turns",
        Left::Part(_) => "part",
    }
}

/// The ways in which this mark is cut. At a post, which leaves the flash as it is, there is one.
fn ways(alloc: Global, flash: &Flash, k: usize) -> Result<Vec<Left>, Fail> {
    let mut ways = few_ways(alloc, flash, k)?;
    if kind_of(flash, k) == Kind::Post {
        ways.push(Left::Untouched)?;
    }
    Ok(ways)
}

/// What the bytes of a page are, by the text of their format.
fn format_of(bytes: &[u8]) -> &'static str {
    if bytes.get(24..32) == Some(b"PINKDATA".as_slice()) {
        "value"
    } else if bytes.get(..8) == Some(b"PINKJRNL".as_slice()) {
        "commit"
    } else if bytes.get(..8) == Some(b"PINKROOT".as_slice()) {
        "root"
    } else {
        "data"
    }
}

/// A line of the mark: what the call does.
fn push_mark(text: &mut String, flash: &Flash, k: usize) -> Result<(), Fail> {
    if k >= flash.marks() {
        write!(text, "mark {k} end\n")?;
        return Ok(());
    }
    match flash.mark(k) {
        Mark::Program { page, bytes } => {
            let format = format_of(bytes.bytes());
            write!(text, "mark {k} program page={page} format={format}\n")?;
        }
        Mark::Erase { block } => write!(text, "mark {k} erase block={block}\n")?,
        Mark::Post { bytes } => write!(text, "mark {k} post bytes={}\n", bytes.bytes().len())?,
    }
    Ok(())
}

/// The states of these pages.
fn push_pages(text: &mut String, pages: &[PageState], watched: &[u32]) -> Result<(), Fail> {
    for page in watched {
        if let Some(state) = pages.get(*page as usize) {
            write!(text, " {page}={}", state_name(state))?;
        }
    }
    Ok(())
}

/// What the program answers to a Retrieve over these pages.
fn push_answer(
    alloc: Global,
    text: &mut String,
    shape: Shape,
    pages: Vec<PageState>,
) -> Result<(), Fail> {
    let mut flash = board(alloc, shape, pages, Vec::new(alloc))?;
    let status = Pink::run(alloc, &["get", "61"], &mut flash);
    write!(text, " status={status} answer=")?;
    for byte in flash.posted() {
        if *byte != 10 {
            text.push(char::from(*byte))?;
        }
    }
    text.push_str("\n")?;
    Ok(())
}

/// The lines of a mark: one for each way in which it is cut.
fn push_cuts(
    alloc: Global,
    text: &mut String,
    shape: Shape,
    flash: &Flash,
    watched: &[u32],
    k: usize,
) -> Result<(), Fail> {
    push_mark(text, flash, k)?;
    let ways = ways(alloc, flash, k)?;
    for left in &ways {
        let pages = cut(alloc, flash, k, left)?;
        write!(text, "cut {k} {}", way_name(left))?;
        push_pages(text, &pages, watched)?;
        push_answer(alloc, text, shape, pages)?;
    }
    Ok(())
}

/// All lines.
fn table(alloc: Global) -> Result<String, Fail> {
    let mut text = String::new(alloc);
    let shape = worked()?;
    let session = store(alloc, shape)?;
    text.push_str("drive key=61 old=414243 new=58595a\n")?;
    let watched = push_written(alloc, &mut text, &session.flash)?;
    for k in 0..session.flash.marks().saturating_add(1) {
        push_cuts(alloc, &mut text, shape, &session.flash, &watched, k)?;
    }
    Ok(text)
}

fn main(rt: HostRuntime) -> Result<(), Fail> {
    let text = table(rt.alloc())?;
    print!(rt; "{text}")?;
    Ok(())
}
