//! Drives of the smallest shapes that are cut in three sessions, each of which begins with a freeze.
//!
//! An epoch that was found at opening takes no entries, so the first entry of a session needs a
//! freeze. Each session retrieves all keys and overwrites one of them: on a full drive it begins
//! with a reclaim, whose moves need the freeze; `merged` has drives that freeze alone, or after a
//! merge into each level.

use pk_base::Shape;
use pk_flash::{Flash, Room};
use pk_nand::PageState;
use pk_nvme::opcode::{DELETE, FLUSH};
use pk_test_scripts::boards::{board_in, cut, made, pages_left};
use pk_test_scripts::cuts::bytes_out;
use pk_test_scripts::overwritten::{
    OTHER, firsts, firsts_behind, push_plain, push_retrieves, push_store, push_stores, value_of,
};
use pk_test_scripts::script::entry;
use pk_test_scripts::ways::few_ways;
use pk_test_scripts::{Program, holds, serve};
use std::alloc::{AllocError, Global};
use std::test::*;

const ROOM: Room = Room {
    posted: 8_192,
    marks: 180,
};

/// One of the smallest shapes: the words that make a drive of it, and the numbers among them.
#[derive(Clone, Copy)]
pub struct Smallest {
    pub words: [&'static str; 4],
    pub numbers: [u32; 3],
}

/// The smallest shape.
pub const SMALL: Smallest = Smallest {
    words: ["make", "512", "8", "33"],
    numbers: [512, 8, 33],
};

/// The smallest one with pages of 1,024 bytes.
pub const WIDE: Smallest = Smallest {
    words: ["make", "1024", "8", "32"],
    numbers: [1024, 8, 32],
};

/// The smallest one with 16 pages in a block.
pub const LONG: Smallest = Smallest {
    words: ["make", "512", "16", "22"],
    numbers: [512, 16, 22],
};

/// A drive of one of these shapes: how many keys of two pages each it has, with how many Stores of them it begins, and how many other
/// keys are stored and deleted after these.
#[derive(Clone, Copy)]
pub struct Few {
    pub smallest: Smallest,
    pub keys: u32,
    pub stores: u32,
    pub gone: u32,
}

/// The three smallest shapes, with as many keys as there is room for, and as many Stores as fill
/// the two blocks that values may have.
pub const SHAPES: [Few; 3] = [
    Few {
        smallest: SMALL,
        keys: 6,
        stores: 8,
        gone: 0,
    },
    Few {
        smallest: WIDE,
        keys: 6,
        stores: 8,
        gone: 0,
    },
    Few {
        smallest: LONG,
        keys: 12,
        stores: 16,
        gone: 0,
    },
];

/// Which cuts are made of three consecutive sessions: of the marks of the second and of the third
/// one of every n, which go on from cut to cut, and of each session in all ways, or in one by
/// turns.
#[derive(Clone, Copy)]
pub struct Part {
    pub every: usize,
    pub all_of_first: bool,
    pub all_of_second: bool,
    pub all_of_third: bool,
}

/// All ways, of one mark in `every`.
pub fn in_all_ways(every: usize) -> Part {
    Part {
        every,
        all_of_first: true,
        all_of_second: true,
        all_of_third: true,
    }
}

// Of the marks of the later sessions one of every two, and of the third session all ways.
const LAST: Part = Part {
    every: 2,
    all_of_first: false,
    all_of_second: false,
    all_of_third: true,
};

impl Few {
    /// The shape of the drive.
    pub fn shape(&self) -> Result<Shape, Fail> {
        let [page_bytes, block_pages, blocks] = self.smallest.numbers;
        match Shape::new(page_bytes, block_pages, blocks) {
            Ok(shape) => Ok(shape),
            Err(_) => Err(Fail::from("a shape")),
        }
    }
}

/// Sessions on a drive of few keys, and which cuts are made of them.
#[derive(Clone, Copy)]
pub struct Trial<'a> {
    pub alloc: Global,
    pub few: &'a Few,
    pub shape: Shape,
    pub part: &'a Part,
}

/// What a session has to find: these first bytes of the values of all keys, or the same but for one
/// key, which has this one, and surely if that was answered.
#[derive(Drop)]
pub struct Before {
    pub held: Vec<u8>,
    pub key: u32,
    pub first: u8,
    pub is_told: bool,
}

/// A session after its end: what it found, and its board.
#[derive(Drop)]
pub struct Behind {
    pub found: Vec<u8>,
    pub flash: Flash,
}

// A cut of a session: at this mark, which is interrupted in the way with this number.
#[derive(Clone, Copy)]
struct Interrupted {
    mark: usize,
    way: usize,
}

/// The first byte of what the session with this number stores, under the key with this number.
pub fn stored(number: u32) -> u8 {
    value_of(OTHER.saturating_add(number)).first
}

// The board after the session of its input, which has to end well.
fn served<P: Program>(alloc: Global, mut flash: Flash) -> Result<Flash, Fail> {
    if serve::<P>(alloc, &mut flash) != 0 {
        return Err(Fail::from("the status of a session on few blocks"));
    }
    Ok(flash)
}

fn first_at(firsts: &[u8], key: usize) -> Option<u8> {
    firsts.get(key).copied()
}

fn is_key_found(before: &Before, found: &[u8], key: usize) -> bool {
    let first = first_at(found, key);
    let is_old = first == first_at(&before.held, key);
    if key as u64 != u64::from(before.key) {
        return is_old;
    }
    first == Some(before.first) || is_old && !before.is_told
}

fn is_found(before: &Before, found: &[u8]) -> bool {
    for key in 0..before.held.len() {
        if !is_key_found(before, found, key) {
            return false;
        }
    }
    true
}

fn push_commands(into: &mut Vec<u8>, keys: u32, number: u32) -> Result<(), AllocError> {
    push_retrieves(into, keys)?;
    push_store(into, number, &value_of(OTHER.saturating_add(number)))?;
    push_plain(into, FLUSH, 0)
}

// The script of the session with this number: it retrieves each key, and overwrites the one with this number.
fn commands(alloc: Global, keys: u32, number: u32) -> Result<Vec<u8>, AllocError> {
    let mut script = Vec::new(alloc);
    push_commands(&mut script, keys, number)?;
    Ok(script)
}

/// The board of the session with this number on these pages.
pub fn few_board(trial: &Trial, pages: Vec<PageState>, number: u32) -> Result<Flash, Fail> {
    let script = commands(trial.alloc, trial.few.keys, number)?;
    board_in(trial.alloc, trial.shape, pages, script, ROOM)
}

// What the session of this board found, which is to be this.
fn found(trial: &Trial, before: &Before, flash: &Flash) -> Result<Vec<u8>, Fail> {
    let found = firsts(trial.alloc, flash.posted(), 0, trial.few.keys)?;
    if !is_found(before, &found) {
        return Err(Fail::from("the values of a session on few blocks"));
    }
    Ok(found)
}

/// The session with this number on these pages.
pub fn session<P: Program>(
    trial: &Trial,
    pages: Vec<PageState>,
    before: &Before,
    number: u32,
) -> Result<Behind, Fail> {
    let board = few_board(trial, pages, number)?;
    let flash = served::<P>(trial.alloc, board)?;
    match found(trial, before, &flash) {
        Ok(found) => Ok(Behind { found, flash }),
        Err(fail) => Err(fail),
    }
}

// What is known of the flash after a cut of a session at this mark.
fn known(trial: &Trial, behind: &Behind, number: u32, mark: usize) -> Result<Before, AllocError> {
    let retrieved = u64::from(trial.few.keys).saturating_mul(124);
    Ok(Before {
        held: behind.found.to_vec(trial.alloc)?,
        key: number,
        first: stored(number),
        is_told: bytes_out(&behind.flash, mark) as u64 > retrieved,
    })
}

// Adds the cuts at this mark: in some ways, or in the one whose turn it is.
fn push_cuts(
    into: &mut Vec<Interrupted>,
    mark: usize,
    ways: usize,
    turn: usize,
    all: bool,
) -> Result<(), AllocError> {
    if ways == 0 {
        return Ok(());
    }
    if !all {
        let way = turn % ways;
        into.push(Interrupted { mark, way })?;
        return Ok(());
    }
    for way in 0..ways {
        into.push(Interrupted { mark, way })?;
    }
    Ok(())
}

// In how many of some ways this mark is interrupted.
fn ways_at(alloc: Global, flash: &Flash, mark: usize) -> Result<usize, AllocError> {
    Ok(few_ways(alloc, flash, mark)?.len())
}

// The cuts of a session, at one mark in `every`.
fn cuts(
    alloc: Global,
    flash: &Flash,
    every: usize,
    turn: usize,
    all: bool,
) -> Result<Vec<Interrupted>, AllocError> {
    let mut cuts = Vec::new(alloc);
    for mark in 0..flash.marks().saturating_add(1) {
        if let Some(way) = turn_at(mark, turn, every) {
            push_cuts(&mut cuts, mark, ways_at(alloc, flash, mark)?, way, all)?;
        }
    }
    Ok(cuts)
}

// The turn of this mark if it is one of those that are cut, one in `every`. These have turns one after another, so that each way is
// tried, whatever the number of ways is.
fn turn_at(mark: usize, turn: usize, every: usize) -> Option<usize> {
    let at = mark.wrapping_add(turn);
    if every > 0 && at % every == 0 {
        Some(at / every)
    } else {
        None
    }
}

fn pages_at(alloc: Global, flash: &Flash, at: &Interrupted) -> Result<Vec<PageState>, Fail> {
    let ways = few_ways(alloc, flash, at.mark)?;
    match ways.get(at.way) {
        Some(left) => cut(alloc, flash, at.mark, left),
        None => Err(Fail::from("a way")),
    }
}

// The session after a cut of the one with this number, and what it finds.
fn session_behind<P: Program>(
    trial: &Trial,
    behind: &Behind,
    number: u32,
    at: &Interrupted,
) -> Result<Behind, Fail> {
    let known = known(trial, behind, number, at.mark)?;
    let pages = pages_at(trial.alloc, &behind.flash, at)?;
    session::<P>(trial, pages, &known, number.saturating_add(1))
}

// Cuts the third session, and looks at what remains. How many cuts.
fn check_third<P: Program>(trial: &Trial, third: &Behind, turn: usize) -> Result<usize, Fail> {
    let part = trial.part;
    let cuts = cuts(
        trial.alloc,
        &third.flash,
        part.every,
        turn,
        part.all_of_third,
    )?;
    for at in &cuts {
        let _ = session_behind::<P>(trial, third, 3, at)?;
    }
    Ok(cuts.len())
}

fn check_behind_second<P: Program>(
    trial: &Trial,
    second: &Behind,
    at: &Interrupted,
    turn: usize,
) -> Result<usize, Fail> {
    let third = session_behind::<P>(trial, second, 2, at)?;
    check_third::<P>(trial, &third, turn)
}

// The same of the second session, and of the third one after each cut.
fn check_second<P: Program>(trial: &Trial, second: &Behind, turn: usize) -> Result<usize, Fail> {
    let part = trial.part;
    let cuts = cuts(
        trial.alloc,
        &second.flash,
        part.every,
        turn,
        part.all_of_second,
    )?;
    let mut next = turn;
    let mut count = 0usize;
    for at in &cuts {
        count = count.saturating_add(check_behind_second::<P>(trial, second, at, next)?);
        next = next.wrapping_add(1);
    }
    Ok(count)
}

fn check_behind_first<P: Program>(
    trial: &Trial,
    first: &Behind,
    at: &Interrupted,
    turn: usize,
) -> Result<usize, Fail> {
    let second = session_behind::<P>(trial, first, 1, at)?;
    check_second::<P>(trial, &second, turn)
}

/// Cuts three consecutive sessions, of which this is the first: it at every mark. How many cuts of
/// the third one.
pub fn check<P: Program>(trial: &Trial, first: &Behind) -> Result<usize, Fail> {
    let cuts = cuts(trial.alloc, &first.flash, 1, 0, trial.part.all_of_first)?;
    let mut turn = 0usize;
    let mut count = 0usize;
    for at in &cuts {
        count = count.saturating_add(check_behind_first::<P>(trial, first, at, turn)?);
        turn = turn.wrapping_add(1);
    }
    Ok(count)
}

// The number of the first key that is deleted.
const FIRST_GONE: u32 = 1_000;

fn push_delete(into: &mut Vec<u8>, key: u32) -> Result<(), AllocError> {
    let [_, _, high, low] = key.to_be_bytes();
    into.extend_from_slice(&entry(4, DELETE, [high, low], 2, 0))
}

// Adds Stores of `count` keys, each with its Delete.
fn push_gone(into: &mut Vec<u8>, count: u32) -> Result<(), AllocError> {
    for i in 0..count {
        let key = FIRST_GONE.saturating_add(i);
        push_store(into, key, &value_of(i))?;
        push_delete(into, key)?;
    }
    Ok(())
}

// The room of the session that makes a drive.
fn making(few: &Few) -> Room {
    let gone = few.gone as usize;
    Room {
        posted: ROOM.posted.saturating_add(gone.saturating_mul(48)),
        marks: ROOM.marks.saturating_add(gone.saturating_mul(10)),
    }
}

fn push_making(into: &mut Vec<u8>, few: &Few) -> Result<(), AllocError> {
    push_stores(into, few.keys, 0, few.stores)?;
    push_gone(into, few.gone)
}

// The Stores with which a drive begins, and those of the keys that are deleted.
fn making_script(alloc: Global, few: &Few) -> Result<Vec<u8>, AllocError> {
    let mut script = Vec::new(alloc);
    push_making(&mut script, few)?;
    Ok(script)
}

fn making_board<P: Program>(trial: &Trial) -> Result<Flash, Fail> {
    let script = making_script(trial.alloc, trial.few)?;
    let pages = made::<P>(trial.alloc, &trial.few.smallest.words)?;
    board_in(trial.alloc, trial.shape, pages, script, making(trial.few))
}

/// The board of the drive.
pub fn drive<P: Program>(trial: &Trial) -> Result<Flash, Fail> {
    let board = making_board::<P>(trial)?;
    served::<P>(trial.alloc, board)
}

/// What the drive holds.
pub fn held(trial: &Trial) -> Result<Before, AllocError> {
    let few = trial.few;
    Ok(Before {
        held: firsts_behind(trial.alloc, few.keys, few.stores)?,
        key: few.keys,
        first: 0,
        is_told: false,
    })
}

fn drive_pages<P: Program>(trial: &Trial) -> Result<Vec<PageState>, Fail> {
    let drive = drive::<P>(trial)?;
    pages_left(trial.alloc, &drive)
}

/// The first session on the drive.
pub fn first<P: Program>(trial: &Trial) -> Result<Behind, Fail> {
    let held = held(trial)?;
    let pages = drive_pages::<P>(trial)?;
    session::<P>(trial, pages, &held, 1)
}

// From a full drive on, whose first session programs a root, the copies, the commit of their moves, the value and the commit of its entry,
// of two pages each.
fn check_full<P: Program>(trial: &Trial) -> Result<usize, Fail> {
    let first = first::<P>(trial)?;
    if first.flash.program_count() < 10 {
        return Err(Fail::from("the programs of a first session"));
    }
    check::<P>(trial, &first)
}

/// The first two sessions are cut in one way by turns.
pub fn three_deep<P: Program>(alloc: Global, few: &Few) -> Result<(), Fail> {
    let trial = Trial {
        alloc,
        few,
        shape: few.shape()?,
        part: &LAST,
    };
    let cuts = check_full::<P>(&trial)?;
    holds(cuts >= 3_000, "3,000 cuts")
}

/// All sessions are cut in all ways, the later two at one mark in `every`. This takes long.
pub fn three_deep_in_all_ways<P: Program>(
    alloc: Global,
    few: &Few,
    every: usize,
) -> Result<usize, Fail> {
    let part = in_all_ways(every);
    let trial = Trial {
        alloc,
        few,
        shape: few.shape()?,
        part: &part,
    };
    check_full::<P>(&trial)
}
