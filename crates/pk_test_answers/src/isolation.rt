//! What is done in one namespace never changes what another is answered: workloads over several namespaces, and the commands of each of
//! them alone, on a drive of its own.

use pk_base::Shape;
use pk_nand::PageState;
use pk_nvme::Request;
use pk_nvme::opcode::{DELETE, EXIST, FLUSH, LIST, REPORT, RETRIEVE, STORE, TICK};
use pk_nvme::status::CAPACITY_EXCEEDED;
use pk_test_scripts::boards::{made, pages_left, shape_of};
use pk_test_scripts::exits::DONE;
use pk_test_scripts::overwritten::{Record, record_at};
use pk_test_scripts::script::UNKNOWN;
use pk_test_scripts::steps::{add, ended, holds, roomy_board, serve};
use pk_test_scripts::{Place, Program};
use std::alloc::Global;
use std::test::*;

// The sessions of a workload, and the commands of each.
const SESSIONS: u64 = 3;

const COMMANDS: u64 = 250;

// Where the workload is now.
#[derive(Clone, Copy)]
struct Draws {
    state: u32,
}

impl Draws {
    // A number of 0 to 32,767.
    fn next(&mut self) -> u32 {
        let product = self.state.wrapping_mul(1_103_515_245);
        self.state = product.wrapping_add(12_345) % (1 << 31);
        self.state / 65_536
    }

    // A namespace of this many, or once in 16 the one after them, or all.
    fn namespace(&mut self, spaces: u32) -> u32 {
        let drawn = self.next();
        match drawn % 32 {
            0 => spaces.saturating_add(1),
            1 => 0xffff_ffff,
            _ => (drawn / 32 % spaces.max(1)).saturating_add(1),
        }
    }

    // One of 24 keys, of one byte or two.
    fn key(&mut self) -> ([u8; 16], u8) {
        let drawn = self.next();
        let mut bytes = [0u8; 16];
        bytes[0] = (drawn % 12) as u8 + 0x61;
        bytes[1] = 0x62;
        (bytes, (drawn / 12 % 2) as u8 + 1)
    }

    // The next command: in 20 of them nine Stores, of which some are too long, five Retrieves and Exists, two Deletes, and one of each
    // other kind.
    fn request(&mut self, spaces: u32, cid: u16) -> Request {
        let namespace = self.namespace(spaces);
        let (key, key_len) = self.key();
        let kind = self.next();
        let size = self.next();
        let (opcode, size) = match kind % 20 {
            0..=8 => (STORE, size % 2060),
            9..=11 => (RETRIEVE, size % 1200),
            12 | 13 => (DELETE, 0),
            14 | 15 => (EXIST, 0),
            16 => (LIST, size % 128),
            17 => (FLUSH, 0),
            18 => (TICK, size % 16),
            _ if size % 4 == 0 => (UNKNOWN, 0),
            _ => (REPORT, 0),
        };
        let options = match kind / 20 % 8 {
            0 => 1,
            1 => 2,
            2 => 3,
            _ => 0,
        };
        Request {
            opcode,
            cid,
            namespace,
            key_len,
            key,
            size,
            options,
        }
    }
}

// A drive of several namespaces, whose words end with their limits.
#[derive(Clone, Copy)]
struct Trial {
    name: &'static str,
    words: &'static [&'static str],
    // Whose first Stores of a namespace are refused for want of space.
    is_full: bool,
    start: u32,
}

const TRIALS: [Trial; 4] = [
    Trial {
        name: "two namespaces",
        words: &["make", "512", "16", "64", "22", "470"],
        is_full: true,
        start: 1,
    },
    Trial {
        name: "two namespaces with room",
        words: &["make", "512", "16", "64", "246", "246"],
        is_full: false,
        start: 2,
    },
    Trial {
        name: "eight namespaces",
        words: &[
            "make", "512", "16", "64", "2", "6", "10", "14", "18", "22", "30", "390",
        ],
        is_full: true,
        start: 3,
    },
    Trial {
        name: "two namespaces of a small drive",
        words: &["make", "512", "8", "33", "4", "8"],
        is_full: true,
        start: 4,
    },
];

impl Trial {
    fn shape(&self) -> Result<Shape, Fail> {
        Ok(match self.words.get(2) {
            Some(word) if *word == "8" => shape_of(512, 8, 33)?,
            _ => shape_of(512, 16, 64)?,
        })
    }

    // How many namespaces it has.
    fn spaces(&self) -> u32 {
        self.words.len().saturating_sub(4).min(8) as u32
    }

    // The words of a drive that has this namespace alone.
    fn words_alone(&self, alloc: Global, space: u32) -> Result<Vec<&'static str>, Fail> {
        let mut words = Vec::new(alloc);
        for i in 0..4usize {
            words.push(self.words.get(i).copied().unwrap_or(""))?;
        }
        let at = (space as usize).saturating_add(3);
        words.push(self.words.get(at).copied().unwrap_or(""))?;
        Ok(words)
    }

    // The next commands, or those of one namespace, as of namespace 1.
    fn script(&self, alloc: Global, draws: &mut Draws, only: Option<u32>) -> Result<Vec<u8>, Fail> {
        let mut script = Vec::new(alloc);
        for number in 0..COMMANDS {
            let mut request = draws.request(self.spaces(), (number % 65_536) as u16);
            let is_in = match only {
                Some(space) => request.namespace == space,
                None => true,
            };
            if is_in {
                request.namespace = if only.is_some() { 1 } else { request.namespace };
                push(&mut script, &request, (number % 256) as u8)?;
            }
        }
        Ok(script)
    }

    // What sessions one after another post, from these pages of a made drive on.
    fn posted<P: Program>(
        &self,
        alloc: Global,
        made: Vec<PageState>,
        only: Option<u32>,
    ) -> Result<Vec<u8>, Fail> {
        let mut posted = Vec::new(alloc);
        let mut pages = made;
        let mut draws = Draws { state: self.start };
        for _ in 0..SESSIONS {
            let script = self.script(alloc, &mut draws, only)?;
            let board = roomy_board(alloc, self.shape()?, pages, script)?;
            let session = serve::<P>(alloc, board);
            ended(&session, DONE, Place::Named(self.name))?;
            add(&mut posted, session.flash.posted())?;
            pages = pages_left(alloc, &session.flash)?;
        }
        Ok(posted)
    }
}

// Adds a command, and the value of a Store.
fn push(into: &mut Vec<u8>, request: &Request, byte: u8) -> Result<(), Fail> {
    add(into, &request.entry())?;
    for _ in 0..request.value_bytes() {
        into.push(byte)?;
    }
    Ok(())
}

// The data of a record; of a Report the five numbers that its namespace alone decides.
fn data_of<'a>(posted: &'a [u8], record: &Record, opcode: u8) -> &'a [u8] {
    let end = if opcode == REPORT && record.is_done() {
        record.data.saturating_add(20)
    } else {
        record.end()
    };
    posted.get(record.data..end).unwrap_or(&[])
}

// Whether two records answer a command alike: the first two dwords, the CID and the status, the length of the data, and the data.
fn is_same_answer(
    together: &[u8],
    at: usize,
    alone: &[u8],
    own: usize,
    opcode: u8,
) -> Option<bool> {
    let record = record_at(together, at)?;
    let single = record_at(alone, own)?;
    let dwords = together.get(at..at.saturating_add(8))? == alone.get(own..own.saturating_add(8))?;
    let cid = together.get(at.saturating_add(12)..at.saturating_add(16))?
        == alone.get(own.saturating_add(12)..own.saturating_add(16))?;
    let data = data_of(together, &record, opcode) == data_of(alone, &single, opcode);
    Some(dwords && cid && data && record.len == single.len)
}

// Each command of this namespace is answered as on the drive of its own. How many are refused for want of space.
fn check_space(trial: &Trial, together: &[u8], alone: &[u8], space: u32) -> Result<u32, Fail> {
    let mut draws = Draws { state: trial.start };
    let mut at = 0usize;
    let mut own = 0usize;
    let mut full = 0u32;
    for number in 0..SESSIONS * COMMANDS {
        let request = draws.request(trial.spaces(), 0);
        let record = record_at(together, at).ok_or("a record")?;
        if request.namespace == space {
            let single = record_at(alone, own).ok_or("a record of one alone")?;
            let is_so = is_same_answer(together, at, alone, own, request.opcode) == Some(true);
            holds(is_so, trial.name, Place::Call(number))?;
            own = single.end();
            if record.status == u32::from(CAPACITY_EXCEEDED) {
                full = full.saturating_add(1);
            }
        }
        at = record.end();
    }
    let is_end = at == together.len() && own == alone.len();
    holds(is_end, "the end", Place::Named(trial.name))?;
    Ok(full)
}

// The trial of a drive: each of its namespaces.
fn check<P: Program>(alloc: Global, trial: &Trial) -> Result<(), Fail> {
    let pages = made::<P>(alloc, trial.words)?;
    let together = trial.posted::<P>(alloc, pages, None)?;
    for space in 1..=trial.spaces() {
        let words = trial.words_alone(alloc, space)?;
        let pages = made::<P>(alloc, &words)?;
        let alone = trial.posted::<P>(alloc, pages, Some(space))?;
        let full = check_space(trial, &together, &alone, space)?;
        let is_so = space > 1 || !trial.is_full || full > 0;
        holds(
            is_so,
            "a refusal for want of space",
            Place::Named(trial.name),
        )?;
    }
    Ok(())
}

/// Each namespace of drives of two is answered as on a drive of its own.
pub fn isolation_of_two<P: Program>(alloc: Global) -> Result<(), Fail> {
    check::<P>(alloc, &TRIALS[0])?;
    check::<P>(alloc, &TRIALS[1])
}

/// The same with eight namespaces.
pub fn isolation_of_eight<P: Program>(alloc: Global) -> Result<(), Fail> {
    check::<P>(alloc, &TRIALS[2])
}

/// The same with two on a drive that reclaims every few Stores.
pub fn isolation_in_reclaims<P: Program>(alloc: Global) -> Result<(), Fail> {
    check::<P>(alloc, &TRIALS[3])
}
