//! Outcomes of an interruption.

use pk_flash::{EraseLeft, Flash, Left, PageLeft};
use pk_nand::Mark;
use std::alloc::{AllocError, Global};

/// What an interruption of this mark may leave of it.
#[derive(Clone, Copy, PartialEq, Eq)]
pub enum Kind {
    /// There is no such mark.
    None,
    Post,
    /// A program of the first page of a pair.
    First,
    /// A program of the second page of a pair, which may tear the first one.
    Second,
    Erase,
}

/// What this mark is.
pub fn kind_of(flash: &Flash, k: usize) -> Kind {
    if k >= flash.marks() {
        return Kind::None;
    }
    match flash.mark(k) {
        Mark::Post { .. } => Kind::Post,
        Mark::Program { page, .. } if *page % 2 == 0 => Kind::First,
        Mark::Program { .. } => Kind::Second,
        Mark::Erase { .. } => Kind::Erase,
    }
}

/// All ways in which a program may be interrupted: its page is unchanged, Torn or done, and if it
/// is the second one of a pair, the first one may be Torn besides.
pub fn ways_of_program(alloc: Global, is_second: bool) -> Result<Vec<Left>, AllocError> {
    let mut ways = Vec::new(alloc);
    ways.push(Left::Untouched)?;
    ways.push(Left::Torn)?;
    ways.push(Left::Done)?;
    if is_second {
        ways.push(Left::WithEven(PageLeft::Untouched))?;
        ways.push(Left::WithEven(PageLeft::Torn))?;
        ways.push(Left::WithEven(PageLeft::Done))?;
    }
    Ok(ways)
}

/// Some ways in which this mark is interrupted: all of a program; an erase leaves all as it was, all Torn, all Erased, or each page by
/// turns. After the last mark there is one way; at a post, which leaves the pages as they are, there is none.
pub fn few_ways(alloc: Global, flash: &Flash, k: usize) -> Result<Vec<Left>, AllocError> {
    match kind_of(flash, k) {
        Kind::None => only_way(alloc),
        Kind::Post => Ok(Vec::new(alloc)),
        Kind::First => ways_of_program(alloc, false),
        Kind::Second => ways_of_program(alloc, true),
        Kind::Erase => few_of_erase(alloc),
    }
}

fn only_way(alloc: Global) -> Result<Vec<Left>, AllocError> {
    let mut ways = Vec::new(alloc);
    ways.push(Left::Untouched)?;
    Ok(ways)
}

fn few_of_erase(alloc: Global) -> Result<Vec<Left>, AllocError> {
    let mut ways = ways_of_program(alloc, false)?;
    ways.push(by_turns(alloc)?)?;
    Ok(ways)
}

const KEPT: EraseLeft = EraseLeft::Kept;

const ERASED: EraseLeft = EraseLeft::Erased;

const TORN: EraseLeft = EraseLeft::Torn;

/// Each of 16 pages unchanged, Erased or Torn by turns.
const BY_TURNS: [EraseLeft; 16] = [
    KEPT, ERASED, TORN, KEPT, ERASED, TORN, KEPT, ERASED, TORN, KEPT, ERASED, TORN, KEPT, ERASED,
    TORN, KEPT,
];

/// An erase that leaves the pages of a block of at most 16 unchanged, Erased or Torn by turns.
pub fn by_turns(alloc: Global) -> Result<Left, AllocError> {
    Ok(Left::Each(BY_TURNS.to_vec(alloc)?))
}

/// Whether what is programmed to a pair is there after the interruption of the program of its second page: in its first page, unless that
/// is Torn, or in its second one.
pub fn keeps_pair(left: &Left) -> bool {
    !matches!(
        left,
        Left::WithEven(PageLeft::Untouched) | Left::WithEven(PageLeft::Torn)
    )
}
