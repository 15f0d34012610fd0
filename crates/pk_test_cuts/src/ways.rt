//! All outcomes of an interruption.

use pk_flash::{EraseLeft, Flash, Left, PageLeft};
use pk_nand::{Mark, PageState};
use pk_test_scripts::boards::cut;
use pk_test_scripts::ways::{Kind, kind_of};
use std::alloc::Global;
use std::test::*;

/// In how many ways one mark may be interrupted, and each of them.
#[derive(Drop)]
pub struct Ways {
    // For each page of an erased block whether it was Whole before; no page for another mark.
    wholes: Vec<bool>,
    // Whether the mark programs the second page of a pair.
    is_second: bool,
    pub count: u32,
}

// The states that an erase may leave of a page, by their numbers.
fn page_left(number: u32) -> EraseLeft {
    match number {
        0 => EraseLeft::Kept,
        1 => EraseLeft::Erased,
        _ => EraseLeft::Torn,
    }
}

// For each page of this block whether it is Whole after the first k marks.
fn wholes(alloc: Global, flash: &Flash, k: usize, block: u32) -> Result<Vec<bool>, Fail> {
    let pages = cut(alloc, flash, k, &Left::Untouched)?;
    let shape = flash.shape().ok_or("a shape")?;
    let count = shape.block_pages() as usize;
    let first = count.saturating_mul(block as usize);
    let mut wholes = Vec::new(alloc);
    for page in pages.get(first..first.saturating_add(count)).unwrap_or(&[]) {
        wholes.push(matches!(page, PageState::Whole(_)))?;
    }
    Ok(wholes)
}

// The same of the block that the mark with this number erases; no page if it erases none.
fn wholes_of_erase(alloc: Global, flash: &Flash, k: usize) -> Result<Vec<bool>, Fail> {
    if k < flash.marks() {
        if let Mark::Erase { block } = flash.mark(k) {
            return Ok(wholes(alloc, flash, k, *block)?);
        }
    }
    Ok(Vec::new(alloc))
}

// What the way with this number leaves of a program, which may be that of the second page of a pair.
fn left_of_program(way: u32, is_second: bool) -> Left {
    match way {
        0 => Left::Untouched,
        1 => Left::Torn,
        3 if is_second => Left::WithEven(PageLeft::Untouched),
        4 if is_second => Left::WithEven(PageLeft::Torn),
        5 if is_second => Left::WithEven(PageLeft::Done),
        _ => Left::Done,
    }
}

// In how many ways an interrupted erase may leave a block. A Whole page may be unchanged, Erased or
// Torn; another one remains only as one of the two that an erase may make of it.
fn ways_of_block(wholes: &[bool]) -> u32 {
    let mut count = 1u32;
    for is_whole in wholes {
        count = count.saturating_mul(if *is_whole { 3 } else { 2 });
    }
    count
}

impl Ways {
    /// All ways of the mark with this number: three of a program, and as many more of the second page of a pair, whose first page may be
    /// Torn besides; those of all pages of an erase, each by itself; and one of a post, which leaves the pages alone, whatever part of it
    /// went out. After the last mark there is one way.
    pub fn of(alloc: Global, flash: &Flash, k: usize) -> Result<Ways, Fail> {
        let mut wholes_before = Vec::new(alloc);
        let mut count = 1u32;
        let kind = kind_of(flash, k);
        match kind {
            Kind::None | Kind::Post => {}
            Kind::First => count = 3,
            Kind::Second => count = 6,
            Kind::Erase => {
                wholes_before = wholes_of_erase(alloc, flash, k)?;
                count = ways_of_block(&wholes_before);
            }
        }
        Ok(Ways {
            wholes: wholes_before,
            is_second: kind == Kind::Second,
            count,
        })
    }

    /// What the way with this number leaves: of an erased block each page unchanged, Erased or
    /// Torn.
    pub fn left(&self, alloc: Global, way: u32) -> Result<Left, Fail> {
        if self.wholes.is_empty() {
            return Ok(left_of_program(way, self.is_second));
        }
        let mut pages = Vec::new(alloc);
        let mut rest = way;
        for is_whole in &self.wholes {
            let (ways, first) = if *is_whole { (3, 0) } else { (2, 1) };
            pages.push(page_left(rest % ways + first))?;
            rest = rest / ways;
        }
        Ok(Left::Each(pages))
    }
}

/// In how many ways the erases among the marks may be interrupted, together.
pub fn ways_of_erases(alloc: Global, flash: &Flash) -> Result<u32, Fail> {
    let mut count = 0u32;
    for k in 0..flash.marks() {
        if matches!(flash.mark(k), Mark::Erase { .. }) {
            count = count.saturating_add(Ways::of(alloc, flash, k)?.count);
        }
    }
    Ok(count)
}
