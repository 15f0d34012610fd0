//! A session over a smaller drive with spare blocks, in which each call of the inner flash after the opening fails, in each way, alone
//! and together with each later one. Which calls there are is a list, by the rules of a session and of a move; the counts of the flash
//! have to agree with it.

use crate::spared::{
    Failing, Image, MAKE_SMALL, Ran, left, made_by, one, serve, serve_failing, way,
};
use pk_flash::Left;
use pk_test_scripts::script::{Answer, Ask, Value, records, script};
use pk_test_scripts::ways::by_turns;
use pk_top::Status;
use std::alloc::{AllocError, Global};
use std::process::Abort;
use std::test::*;

// One call of the inner flash.
#[derive(Clone, Copy)]
enum Call {
    Fetch,
    // The read of a value that a Retrieve asks for.
    Read,
    // The read of the first page of a pair, before the program of the second one.
    Partner,
    // The program of this page of a block.
    Program(u32),
    Erase,
    Post,
}

impl Call {
    // In how many ways it may fail.
    fn ways(self) -> u8 {
        match self {
            Call::Fetch | Call::Read | Call::Partner => 1,
            // nothing is sent, or one byte
            Call::Post => 2,
            Call::Program(page) => { if page % 2 == 0 { 3 } else { 6 } }
            Call::Erase => 4,
        }
    }

    // What it leaves if it fails in the way with this number.
    fn left(self, rt: &impl Abort, alloc: Global, number: u8) -> Left {
        match self {
            Call::Post if number == 1 => Left::Part(1),
            Call::Erase if number == 3 => by_turns(alloc).expect(rt, "memory"),
            _ => way(number),
        }
    }
}

// The opening reads each of the 16 pages of the table blocks and of the root blocks, and the two pages of the first commit.
const OPENING: u64 = 34;

const FIRST: Value = Value {
    first: 0x61,
    len: 3,
};

const SECOND: Value = Value { first: 7, len: 100 };

const THIRD: Value = Value { first: 9, len: 600 };

// The session: two Stores, whose values are in one block, and a Retrieve.
const ASKS: [Ask; 3] = [
    Ask::Store(0x61, FIRST),
    Ask::Store(0x62, SECOND),
    Ask::Retrieve(0x61),
];

// Its calls after the opening.
const CALLS: [Call; 27] = [
    // the first Store: its entry and its value, the blocks of an epoch, the other root block and its root, a block for values, the value
    Call::Fetch,
    Call::Fetch,
    Call::Erase,
    Call::Erase,
    Call::Erase,
    Call::Program(0),
    Call::Partner,
    Call::Program(1),
    Call::Erase,
    Call::Program(0),
    Call::Partner,
    Call::Program(1),
    // the second Store
    Call::Fetch,
    Call::Fetch,
    Call::Program(2),
    Call::Partner,
    Call::Program(3),
    // the Retrieve: its entry, the commit that precedes it, the records of both Stores, the value, the record and its data
    Call::Fetch,
    Call::Program(0),
    Call::Partner,
    Call::Program(1),
    Call::Post,
    Call::Post,
    Call::Read,
    Call::Post,
    Call::Post,
    // the end of the input
    Call::Fetch,
];

// The places in the list: from the first one on the entry of the first Store waits for the commit, from the second one on that of the second
// Store, too, until the commit.
const ONE_WAITS: usize = 12;

const BOTH_WAIT: usize = 17;

const COMMIT: usize = 18;

// Adds the calls that move a block to a spare block: the spare block is erased, the pages before the one that failed are copied, of which
// the first page of its pair is in memory already, and the page is programmed; the block for the next table is erased, and the table
// programmed to a pair.
fn push_moved(into: &mut Vec<Call>, failed: Call) -> Result<(), AllocError> {
    into.push(Call::Erase)?;
    if let Call::Program(page) = failed {
        for copy in 0..page {
            if page % 2 == 0 || copy.saturating_add(1) < page {
                into.push(Call::Read)?;
            }
            into.push(Call::Program(copy))?;
        }
        into.push(failed)?;
    }
    into.extend_from_slice(&[Call::Erase, Call::Program(0), Call::Program(1)])
}

// The calls of the list between these places.
fn between(from: usize, to: usize) -> &'static [Call] {
    CALLS.get(from..to).unwrap_or(&[])
}

// Adds the calls after the one at this place, if it fails alone. After a failed program or erase the block is moved and the session goes on;
// it goes on, too, if the value that a Retrieve asks for cannot be read, whose record has no data then. If the first page of a pair cannot
// be read, its second page is not programmed, and the drive stops. After a failed fetch the entries that wait are committed, and the
// records of their Stores are posted.
fn push_after(into: &mut Vec<Call>, at: usize, failed: Call) -> Result<(), AllocError> {
    match failed {
        Call::Program(_) | Call::Erase => {
            push_moved(into, failed)?;
            into.extend_from_slice(between(at.saturating_add(1), CALLS.len()))
        }
        Call::Read => into.extend_from_slice(&[Call::Post, Call::Fetch]),
        Call::Fetch if at >= ONE_WAITS && at < BOTH_WAIT => {
            into.extend_from_slice(between(COMMIT, COMMIT + 4))
        }
        Call::Fetch if at >= BOTH_WAIT && at < COMMIT => {
            into.extend_from_slice(between(COMMIT, COMMIT + 5))
        }
        Call::Fetch | Call::Partner | Call::Post => Ok(()),
    }
}

// These calls.
fn calls_after(alloc: Global, at: usize, failed: Call) -> Result<Vec<Call>, AllocError> {
    let mut calls = Vec::new(alloc);
    push_after(&mut calls, at, failed)?;
    Ok(calls)
}

// ---- what a session with faults may do

// The answers that were given in full or in part.
fn answered(posted: &[u8]) -> usize {
    posted.len().div_ceil(24)
}

// The records of the session, or of one whose Retrieve cannot read the value, begin with what was posted; all were posted if the status is 0.
fn check_posted(rt: &impl Abort, alloc: Global, ran: &Ran) {
    let posted = ran.flash.posted();
    let found = [Answer::Done, Answer::Done, Answer::Found(FIRST)];
    let found = records(alloc, &found).expect(rt, "memory");
    let unread = [Answer::Done, Answer::Done, Answer::Unread];
    let unread = records(alloc, &unread).expect(rt, "memory");
    let is_whole = posted == found.as_slice() || posted == unread.as_slice();
    assert!(rt; found.starts_with(posted) || unread.starts_with(posted));
    assert!(rt; is_whole || ran.status != Status::DONE);
}

const FOUND: Answer = Answer::Found(FIRST);

// What the next session retrieves after no Store, after the first one, and after both.
const KEPT: [[Answer; 2]; 3] = [
    [Answer::Missing, Answer::Missing],
    [FOUND, Answer::Missing],
    [FOUND, Answer::Found(SECOND)],
];

// The next session retrieves both values and stores another one: the drive has the values after as many Stores as were answered, or more.
fn check_next(rt: &impl Abort, alloc: Global, image: &Image, least: usize) {
    let asks = [
        Ask::Retrieve(0x61),
        Ask::Retrieve(0x62),
        Ask::Store(0x62, THIRD),
        Ask::Retrieve(0x62),
    ];
    let input = script(alloc, &asks).expect(rt, "memory");
    let ran = serve(rt, alloc, image, &input);
    assert!(rt; ran.status == Status::DONE);
    let mut is_kept = false;
    for stored in least.min(2)..3 {
        if let Some([first, second]) = KEPT.get(stored) {
            let wanted = [*first, *second, Answer::Done, Answer::Found(THIRD)];
            let wanted = records(alloc, &wanted).expect(rt, "memory");
            is_kept = is_kept || ran.flash.posted() == wanted.as_slice();
        }
    }
    assert!(rt; is_kept);
}

fn check(rt: &impl Abort, alloc: Global, image: &Image, failing: Vec<Failing>) -> Ran {
    let input = script(alloc, &ASKS).expect(rt, "memory");
    let ran = serve_failing(rt, alloc, image, &input, failing);
    check_posted(rt, alloc, &ran);
    let least = answered(ran.flash.posted());
    check_next(rt, alloc, &left(rt, alloc, &ran.flash), least);
    ran
}

// ---- one call

// How many reads, programs and erases these calls are.
fn operations(calls: &[Call]) -> [u64; 3] {
    let mut counts = [0u64; 3];
    for call in calls {
        let kind = match call {
            Call::Read | Call::Partner => 0usize,
            Call::Program(_) => 1,
            Call::Erase => 2,
            Call::Fetch | Call::Post => continue,
        };
        counts[kind] = counts[kind].saturating_add(1);
    }
    counts
}

// The session made these calls after its opening.
fn made_these(rt: &impl Abort, ran: &Ran, calls: &[Call]) {
    let [reads, programs, erases] = operations(calls);
    assert!(rt; ran.flash.read_count() == OPENING.saturating_add(reads));
    assert!(rt; ran.flash.program_count() == programs);
    assert!(rt; ran.flash.erase_count() == erases);
}

// All calls of the session in which the one at this place fails alone.
fn calls_with(alloc: Global, at: usize, failed: Call) -> Result<Vec<Call>, AllocError> {
    let mut calls = between(0, at).to_vec(alloc)?;
    calls.push(failed)?;
    push_after(&mut calls, at, failed)?;
    Ok(calls)
}

// The number of the call at this place after the opening.
fn number_of(at: usize) -> u64 {
    OPENING.saturating_add(at as u64)
}

// The call at this place fails alone, in each way. If it is a program or an erase, the session ends
// well, and at most the Retrieve is answered that its read failed.
fn check_alone(rt: &impl Abort, alloc: Global, image: &Image, at: usize, failed: Call) {
    let calls = calls_with(alloc, at, failed).expect(rt, "memory");
    for number in 0..failed.ways() {
        let left = failed.left(rt, alloc, number);
        let ran = check(rt, alloc, image, one(rt, alloc, number_of(at), left));
        made_these(rt, &ran, &calls);
        if let Call::Program(_) | Call::Erase = failed {
            assert!(rt; ran.status == Status::DONE && ran.left == 3);
        }
    }
}

/// Each call after the opening fails alone, in each way, and the flash counts the calls of the list.
#[test]
fn each_call_alone(rt: HostRuntime) {
    let alloc = rt.alloc();
    let image = made_by(&rt, alloc, &MAKE_SMALL);
    made_these(&rt, &check(&rt, alloc, &image, Vec::new(alloc)), &CALLS);
    for (at, failed) in CALLS.iter().enumerate() {
        check_alone(&rt, alloc, &image, at, *failed);
    }
}

// ---- two calls

// Two calls that fail, by their places, and in which ways.
#[derive(Clone, Copy)]
struct Both {
    at: usize,
    failed: Call,
    way: u8,
    later: usize,
    then: Call,
}

// They fail, the second one in each way: how many ways these are.
fn check_both(rt: &impl Abort, alloc: Global, image: &Image, both: Both) -> u32 {
    for number in 0..both.then.ways() {
        let left = both.failed.left(rt, alloc, both.way);
        let mut failing = one(rt, alloc, number_of(both.at), left);
        failing
            .push(Failing {
                call: number_of(both.later),
                left: both.then.left(rt, alloc, number),
            })
            .expect(rt, "memory");
        check(rt, alloc, image, failing);
    }
    u32::from(both.then.ways())
}

// The call at this place fails, in each way, and so does each later one, in each way: how many sessions these are.
fn check_with_later(rt: &impl Abort, alloc: Global, image: &Image, at: usize, failed: Call) -> u32 {
    let after = calls_after(alloc, at, failed).expect(rt, "memory");
    let mut tried = 0u32;
    for way in 0..failed.ways() {
        for (more, then) in after.iter().enumerate() {
            let both = Both {
                at,
                failed,
                way,
                later: at.saturating_add(more).saturating_add(1),
                then: *then,
            };
            tried = tried.saturating_add(check_both(rt, alloc, image, both));
        }
    }
    tried
}

// For each program and erase in the list the ways of its failure, times those of the calls that move its block and of the calls after it
// in the list; for each fetch after the first Store and for the read of a value those of the calls after it.
const PAIRS: u32 = 3263;

/// Each two calls fail, each in each way: a call after the opening, and a call after that one, those that move the first one's block
/// among them.
#[test]
fn each_two_calls(rt: HostRuntime) {
    let alloc = rt.alloc();
    let image = made_by(&rt, alloc, &MAKE_SMALL);
    let mut tried = 0u32;
    for (at, failed) in CALLS.iter().enumerate() {
        let more = check_with_later(&rt, alloc, &image, at, *failed);
        tried = tried.saturating_add(more);
    }
    assert!(rt; tried == PAIRS);
}
