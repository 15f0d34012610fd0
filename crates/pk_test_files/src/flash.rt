//! Failing calls, cuts and rooms of the board in memory.

use pk_base::Shape;
use pk_flash::{EraseLeft, Flash, Left, PageLeft, Room};
use pk_nand::{Board, HostFault, Nand, NandFault, PageState};
use std::alloc::{AllocError, Global};
use std::test::*;

// Each way in which a call can fail, by a number.
fn left(alloc: Global, way: u8) -> Result<Left, AllocError> {
    match way {
        0 => Ok(Left::Untouched),
        1 => Ok(Left::Torn),
        2 => Ok(Left::Done),
        3 => Ok(Left::Each(Vec::from_slice(
            alloc,
            &[
                EraseLeft::Kept,
                EraseLeft::Erased,
                EraseLeft::Torn,
                EraseLeft::Torn,
            ],
        )?)),
        4 => Ok(Left::WithEven(PageLeft::Untouched)),
        5 => Ok(Left::WithEven(PageLeft::Torn)),
        6 => Ok(Left::WithEven(PageLeft::Done)),
        _ => Ok(Left::Part(2)),
    }
}

fn letter(page: &PageState) -> u8 {
    match page {
        PageState::Erased => b'e',
        PageState::Whole(_) => b'w',
        PageState::Torn => b't',
    }
}

// The first pages of a list, a letter for each.
fn front(pages: &Vec<PageState>) -> [u8; 8] {
    let mut letters = [b'-'; 8];
    for i in 0..8 {
        if let Some(page) = pages.get(i) {
            letters[i] = letter(page);
        }
    }
    letters
}

// The first pages of a board, a letter for each.
fn block(flash: &Flash) -> [u8; 8] {
    let mut letters = [b'-'; 8];
    match flash.shape() {
        None => {}
        Some(shape) => {
            if 8 <= shape.page_count() {
                for i in 0..8u32 {
                    letters[i as usize] = letter(flash.page(i));
                }
            }
        }
    }
    letters
}

fn program(flash: &mut Flash, page: u32) -> Result<(), NandFault> {
    match flash.shape() {
        None => Err(NandFault),
        Some(shape) => {
            if page < shape.page_count() && shape.page_bytes() == 512 {
                flash.program(page, &[7; 512])
            } else {
                Err(NandFault)
            }
        }
    }
}

fn erase(flash: &mut Flash, block: u32) -> Result<(), NandFault> {
    match flash.shape() {
        None => Err(NandFault),
        Some(shape) => {
            if block < shape.blocks() {
                flash.erase(block)
            } else {
                Err(NandFault)
            }
        }
    }
}

// A board of Erased pages of which the call with this number fails and leaves this.
fn planned(alloc: Global, call: u64, left: Left) -> Result<Flash, Fail> {
    let shape = Shape::new(512, 8, 33).ok().ok_or("a shape")?;
    let room = Room {
        posted: 10,
        marks: 6,
    };
    let mut flash = Flash::new(alloc, Some(shape), Vec::new(alloc), room)?;
    flash.fail(alloc, call, left)?;
    Ok(flash)
}

// Programs pages 0 and 1, erases their block, and posts two texts: what each of the calls answers.
fn five_calls(flash: &mut Flash) -> [bool; 5] {
    [
        program(flash, 0).is_ok(),
        program(flash, 1).is_ok(),
        erase(flash, 0).is_ok(),
        flash.post(b"foo").is_ok(),
        flash.post(b"ok").is_ok(),
    ]
}

// The board after these calls, of which the one with this number alone fails.
fn failed(alloc: Global, call: u8, way: u8) -> Result<Flash, Fail> {
    let mut flash = planned(alloc, u64::from(call), left(alloc, way)?)?;
    let done = five_calls(&mut flash);
    for (i, done) in done.iter().enumerate() {
        if *done == (i == usize::from(call)) {
            return Err("one call that fails")?;
        }
    }
    Ok(flash)
}

// The first pages after a program of page 0 that fails.
fn failed_program(alloc: Global, way: u8) -> Result<[u8; 8], Fail> {
    let mut flash = planned(alloc, 0, left(alloc, way)?)?;
    match program(&mut flash, 0) {
        Ok(()) => Err("a call that fails")?,
        Err(NandFault) => Ok(block(&flash)),
    }
}

// The first pages after programs of pages 0 and 1, of which the second fails.
fn failed_second(alloc: Global, way: u8) -> Result<[u8; 8], Fail> {
    let mut flash = planned(alloc, 1, left(alloc, way)?)?;
    match (program(&mut flash, 0), program(&mut flash, 1)) {
        (Ok(()), Err(NandFault)) => Ok(block(&flash)),
        _ => Err("a call that fails")?,
    }
}

// The first pages after five calls of which the erase fails.
fn failed_erase(alloc: Global, way: u8) -> Result<[u8; 8], Fail> {
    let flash = failed(alloc, 2, way)?;
    Ok(block(&flash))
}

// Whether these are the bytes that were sent after five calls of which the first post fails.
fn failed_post(alloc: Global, way: u8, wanted: &[u8]) -> Result<bool, Fail> {
    let flash = failed(alloc, 3, way)?;
    Ok(flash.posted() == wanted)
}

// A program, an erase or a post that fails leaves what was planned; what does not fit it counts as untouched.
#[test]
fn failures(rt: HostRuntime) -> Result<(), Fail> {
    let alloc = rt.alloc();
    for (way, programmed, second, erased, posted) in [
        (
            0,
            *b"eeeeeeee",
            *b"weeeeeee",
            *b"wweeeeee",
            b"ok".as_slice(),
        ),
        (1, *b"teeeeeee", *b"wteeeeee", *b"tttttttt", b"ok"),
        (2, *b"weeeeeee", *b"wweeeeee", *b"eeeeeeee", b"ok"),
        (3, *b"eeeeeeee", *b"weeeeeee", *b"wetteeee", b"ok"),
        (4, *b"eeeeeeee", *b"teeeeeee", *b"wweeeeee", b"ok"),
        (5, *b"eeeeeeee", *b"tteeeeee", *b"wweeeeee", b"ok"),
        (6, *b"eeeeeeee", *b"tweeeeee", *b"wweeeeee", b"ok"),
        (7, *b"eeeeeeee", *b"weeeeeee", *b"wweeeeee", b"fook"),
    ] {
        assert_eq!(rt; failed_program(alloc, way)?, programmed, "way {way}");
        assert_eq!(rt; failed_second(alloc, way)?, second, "way {way}");
        assert_eq!(rt; failed_erase(alloc, way)?, erased, "way {way}");
        assert!(rt; failed_post(alloc, way, posted)?, "way {way}");
    }
    Ok(())
}

// The first pages after five calls, if their trail is cut at this mark, which is interrupted in
// this way.
fn front_of_cut(alloc: Global, k: usize, way: u8) -> Result<[u8; 8], Fail> {
    let flash = failed(alloc, 100, 0)?;
    if flash.marks() < k || flash.shape().is_none() {
        return Err("a mark")?;
    }
    Ok(front(&flash.cut(alloc, k, &left(alloc, way)?)?))
}

// The pages if the trail is cut at each mark, with each outcome.
#[test]
fn cuts(rt: HostRuntime) -> Result<(), Fail> {
    let alloc = rt.alloc();
    for (k, way, want) in [
        (0, 0, *b"eeeeeeee"),
        (0, 1, *b"teeeeeee"),
        (0, 2, *b"weeeeeee"),
        (0, 3, *b"eeeeeeee"),
        (1, 0, *b"weeeeeee"),
        (1, 1, *b"wteeeeee"),
        (1, 2, *b"wweeeeee"),
        (0, 4, *b"eeeeeeee"),
        (0, 6, *b"eeeeeeee"),
        (1, 4, *b"teeeeeee"),
        (1, 5, *b"tteeeeee"),
        (1, 6, *b"tweeeeee"),
        (1, 7, *b"weeeeeee"),
        (2, 0, *b"wweeeeee"),
        (2, 1, *b"tttttttt"),
        (2, 2, *b"eeeeeeee"),
        (2, 3, *b"wetteeee"),
        (2, 5, *b"wweeeeee"),
        (2, 7, *b"wweeeeee"),
        (3, 1, *b"eeeeeeee"),
        (5, 1, *b"eeeeeeee"),
    ] {
        assert_eq!(rt; front_of_cut(alloc, k, way)?, want, "{k} marks, way {way}");
    }
    Ok(())
}

// A board without an image gets one, and has room for three marks and ten posted bytes.
fn with_few_marks(alloc: Global) -> Result<Flash, Fail> {
    let shape = Shape::new(512, 8, 33).ok().ok_or("a shape")?;
    let room = Room {
        posted: 10,
        marks: 3,
    };
    let mut flash = Flash::new(alloc, None, b"input".to_vec(alloc)?, room)?;
    if flash.shape().is_none() && flash.make(alloc, shape).is_err() {
        return Err("an image")?;
    }
    Ok(flash)
}

// What three fetches answer.
fn fetched(flash: &mut Flash) -> [Result<usize, HostFault>; 3] {
    let mut bytes = [0u8; 3];
    [
        flash.fetch(&mut bytes),
        flash.fetch(&mut bytes),
        flash.fetch(&mut bytes),
    ]
}

// Whether three posts are done, of which the second has no room.
fn posted(flash: &mut Flash) -> [bool; 3] {
    [
        flash.post(b"abc").is_ok(),
        flash.post(b"12345678").is_ok(),
        flash.post(b"hi").is_ok(),
    ]
}

// A call that would pass the room fails with nothing done.
#[test]
fn rooms(rt: HostRuntime) -> Result<(), Fail> {
    let mut flash = with_few_marks(rt.alloc())?;
    let fetched = fetched(&mut flash);
    let posted = posted(&mut flash);
    let done = five_calls(&mut flash);
    assert!(rt; flash.posted() == b"abchi".as_slice());
    let first = block(&flash);
    drop(flash);
    assert_eq!(rt; first, *b"weeeeeee");
    assert_eq!(rt; fetched, [Ok(3), Ok(2), Ok(0)]);
    assert_eq!(rt; posted, [true, false, true]);
    assert_eq!(rt; done, [true, false, false, false, false]);
    Ok(())
}
