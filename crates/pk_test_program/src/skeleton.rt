//! The program over the skeleton of a board, as the firmware of a part would run it: each run has a new board over the parts as the one
//! before left them.

use pk_flash::Left;
use pk_skeleton::{ChipBoard, MemoryLink, SimulatedChips};
use pk_test_scripts::program::{RECORDS, SCRIPT};
use pk_test_scripts::{MAKE_WORKED, holds, same};
use pk_top::{Status, run};
use std::alloc::Global;
use std::test::*;

// The parts after a run of these words, its status, and what the host was given.
fn run_over(
    alloc: Global,
    chips: SimulatedChips,
    words: &[&str],
    says: Vec<u8>,
) -> (SimulatedChips, u8, MemoryLink) {
    let mut board = ChipBoard::new(chips, MemoryLink::new(alloc, says));
    let status = run(alloc, words, &mut board).0;
    let (chips, link) = board.into_parts();
    (chips, status, link)
}

// Parts with a drive that holds `abc` under the key `a`, which a session stored and retrieved.
fn stored(alloc: Global) -> Result<SimulatedChips, Fail> {
    let chips = SimulatedChips::blank(alloc, 500)?;
    let (chips, status, _) = run_over(alloc, chips, &["get", "61"], Vec::new(alloc));
    same(status, Status::NO_DRIVE.0, "blank parts")?;
    let (chips, status, _) = run_over(alloc, chips, &MAKE_WORKED, Vec::new(alloc));
    same(status, Status::DONE.0, "a made drive")?;
    let script = SCRIPT.as_slice().to_vec(alloc)?;
    let (chips, status, link) = run_over(alloc, chips, &["serve", "36"], script);
    same(status, Status::DONE.0, "a session")?;
    holds(link.given() == RECORDS.as_slice(), "its records")?;
    Ok(chips)
}

/// A drive is made, a session stores and retrieves a value, and the next opening has it.
#[test]
fn reopened(rt: HostRuntime) -> Result<(), Fail> {
    let alloc = rt.alloc();
    let chips = stored(alloc)?;
    let (chips, status, link) = run_over(alloc, chips, &["get", "61"], Vec::new(alloc));
    same(status, Status::DONE.0, "an opening")?;
    holds(link.given() == b"ok 616263\n".as_slice(), "the value")?;
    let (_, status, _) = run_over(alloc, chips, &MAKE_WORKED, Vec::new(alloc));
    same(status, Status::IMAGE_EXISTS.0, "a second make")
}

// How many calls of the parts an opening and a Retrieve take.
fn calls_of_get(alloc: Global) -> Result<u64, Fail> {
    let chips = stored(alloc)?;
    let before = chips.calls();
    let (chips, _, _) = run_over(alloc, chips, &["get", "61"], Vec::new(alloc));
    Ok(chips.calls().saturating_sub(before))
}

// The status of a `put` of which the call of the parts after this many fails and leaves its page Torn. The next opening has the new value if
// the word was done, and else the old one or the new one.
fn put_failing(alloc: Global, calls: u64) -> Result<u8, Fail> {
    let mut chips = stored(alloc)?;
    let call = chips.calls().saturating_add(calls);
    chips.fail(call, Left::Torn)?;
    let put = ["put", "61", "58595a"];
    let (chips, status, _) = run_over(alloc, chips, &put, Vec::new(alloc));
    let (_, _, link) = run_over(alloc, chips, &["get", "61"], Vec::new(alloc));
    let is_new = link.given() == b"ok 58595a\n".as_slice();
    let is_old = link.given() == b"ok 616263\n".as_slice();
    holds(is_new || is_old && status != Status::DONE.0, "the value")?;
    Ok(status)
}

/// Calls of the parts from the end of an opening on fail, one in each run: some of these runs end with a failed flash, and one that fails
/// after the last call of `put` does not.
#[test]
fn failing(rt: HostRuntime) -> Result<(), Fail> {
    let alloc = rt.alloc();
    let opening = calls_of_get(alloc)?.saturating_sub(4);
    let mut failed = 0u32;
    for more in 0..8u64 {
        if put_failing(alloc, opening.saturating_add(more))? == Status::FLASH.0 {
            failed = failed.saturating_add(1);
        }
    }
    holds(failed >= 4, "runs that failed")?;
    let status = put_failing(alloc, opening.saturating_add(100))?;
    same(status, Status::DONE.0, "no failure")
}
