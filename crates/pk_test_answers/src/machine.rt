//! Scripts that are answered as the machine in memory answers them.

use pk_base::get_u32;
use pk_model::{Answer, MapMachine};
use pk_nvme::opcode::{DELETE, EXIST, FLUSH, LIST, RETRIEVE, STORE, TICK};
use pk_nvme::{Request, completion, record_head};
use pk_test_scripts::boards::{made, worked};
use pk_test_scripts::exits::DONE;
use pk_test_scripts::overwritten::record_at;
use pk_test_scripts::script::UNKNOWN;
use pk_test_scripts::space::full_script;
use pk_test_scripts::steps::{add, copied, ended, holds, made_board, posted, roomy_board, serve};
use pk_test_scripts::{MAKE_WORKED, Place, Program, same};
use std::alloc::Global;
use std::test::*;

// A command on a key of one byte, and the value that it stores.
#[derive(Clone, Copy)]
struct Command {
    opcode: u8,
    key: u8,
    size: u32,
    options: u8,
    value: &'static [u8],
}

const COMMANDS: [Command; 18] = [
    Command {
        opcode: STORE,
        key: 0x61,
        size: 3,
        options: 0,
        value: b"abc",
    },
    Command {
        opcode: STORE,
        key: 0x62,
        size: 0,
        options: 2,
        value: b"",
    },
    Command {
        opcode: RETRIEVE,
        key: 0x61,
        size: 2,
        options: 0,
        value: b"",
    },
    Command {
        opcode: RETRIEVE,
        key: 0x61,
        size: 0,
        options: 0,
        value: b"",
    },
    Command {
        opcode: RETRIEVE,
        key: 0x62,
        size: 9,
        options: 0,
        value: b"",
    },
    Command {
        opcode: STORE,
        key: 0x62,
        size: 2,
        options: 2,
        value: b"no",
    },
    Command {
        opcode: STORE,
        key: 0x63,
        size: 2,
        options: 1,
        value: b"no",
    },
    Command {
        opcode: EXIST,
        key: 0x62,
        size: 0,
        options: 0,
        value: b"",
    },
    Command {
        opcode: LIST,
        key: 0x61,
        size: 64,
        options: 0,
        value: b"",
    },
    Command {
        opcode: DELETE,
        key: 0x61,
        size: 0,
        options: 0,
        value: b"",
    },
    Command {
        opcode: DELETE,
        key: 0x61,
        size: 0,
        options: 0,
        value: b"",
    },
    Command {
        opcode: RETRIEVE,
        key: 0x61,
        size: 9,
        options: 0,
        value: b"",
    },
    Command {
        opcode: FLUSH,
        key: 0,
        size: 0,
        options: 0,
        value: b"",
    },
    Command {
        opcode: TICK,
        key: 0,
        size: 5,
        options: 0,
        value: b"",
    },
    Command {
        opcode: UNKNOWN,
        key: 0x61,
        size: 0,
        options: 0,
        value: b"",
    },
    Command {
        opcode: LIST,
        key: 0x61,
        size: 3,
        options: 0,
        value: b"",
    },
    Command {
        opcode: STORE,
        key: 0x61,
        size: 2017,
        options: 0,
        value: &[7u8; 2017],
    },
    Command {
        opcode: EXIST,
        key: 0x61,
        size: 0,
        options: 0,
        value: b"",
    },
];

// The command with this number.
fn request(number: u16, command: &Command) -> Request {
    let mut key = [0u8; 16];
    key[0] = command.key;
    Request {
        opcode: command.opcode,
        cid: number,
        namespace: 1,
        key_len: 1,
        key,
        size: command.size,
        options: command.options,
    }
}

// The answer of the machine in memory to a command, whose value has its size.
fn answer_of(
    alloc: Global,
    machine: &mut MapMachine,
    request: &Request,
    value: &[u8],
) -> Result<Answer, Fail> {
    if value.len() == request.value_bytes() as usize {
        return Ok(machine.step(alloc, &request.entry(), value)?);
    }
    Err(Fail::new("a value of its size"))
}

// Adds the record of a command by the machine in memory. A value that is handed out is read from one page.
fn add_record(
    alloc: Global,
    machine: &mut MapMachine,
    request: &Request,
    value: &[u8],
    into: &mut Vec<u8>,
) -> Result<(), Fail> {
    let answer = answer_of(alloc, machine, request, value)?;
    let data = answer.bytes.bytes();
    let is_value = request.opcode == RETRIEVE && !data.is_empty();
    let reads = if is_value { 1 } else { 0 };
    let taken = u32::from(request.cid);
    let entry = completion(request.cid, taken, answer.status, answer.result);
    let size = u32::try_from(data.len()).map_err(Fail::new)?;
    add(into, &record_head(&entry, reads, size))?;
    add(into, data)
}

// The records of several commands are those of the machine in memory, byte for byte.
pub fn as_the_machine<P: Program>(alloc: Global) -> Result<(), Fail> {
    let mut machine = MapMachine::new(alloc, worked()?)?;
    let mut script = Vec::new(alloc);
    let mut records = Vec::new(alloc);
    let mut number = 0u16;
    for command in &COMMANDS {
        number = number.wrapping_add(1);
        let request = request(number, command);
        add(&mut script, &request.entry())?;
        add(&mut script, command.value)?;
        add_record(alloc, &mut machine, &request, command.value, &mut records)?;
    }
    let session = serve::<P>(alloc, made_board::<P>(alloc, script)?);
    posted(&session, DONE, &records, Place::Named("these commands"))
}

// One command of a script: its entry, and the bytes that follow it.
#[derive(Clone, Copy)]
struct Asked<'s> {
    entry: &'s [u8],
    value: &'s [u8],
}

// The command that begins at this byte of a script. The size of a Store is in the entry's eleventh number.
fn asked_at(script: &[u8], at: usize) -> Option<Asked<'_>> {
    let entry = script.get(at..at.checked_add(64)?)?;
    let size = if entry[0] == STORE {
        get_u32(entry, 40) as usize
    } else {
        0
    };
    let start = at.checked_add(64)?;
    let value = script.get(start..start.checked_add(size)?)?;
    Some(Asked { entry, value })
}

// The command of an entry of 64 bytes.
fn request_of(bytes: &[u8]) -> Result<Request, Fail> {
    let mut entry = [0u8; 64];
    if bytes.len() != entry.len() {
        return Err(Fail::new("an entry"));
    }
    entry.copy_from_slice(bytes);
    Ok(Request::of(&entry))
}

// The record that begins at this byte is the answer of the machine, but for the pages that were read: where the next one begins.
fn check_record(
    alloc: Global,
    machine: &mut MapMachine,
    asked: &Asked,
    number: u32,
    record: &[u8],
) -> Result<usize, Fail> {
    let request = request_of(asked.entry)?;
    let answer = answer_of(alloc, machine, &request, asked.value)?;
    let data = answer.bytes.bytes();
    let found = record_at(record, 0).ok_or("a record")?;
    let head = completion(request.cid, number, answer.status, answer.result);
    let size = u32::try_from(data.len()).map_err(Fail::new)?;
    let mut wanted = Vec::new(alloc);
    add(&mut wanted, &record_head(&head, found.reads, size))?;
    add(&mut wanted, data)?;
    let place = Place::Call(u64::from(number));
    holds(record.starts_with(&wanted), "the record", place)?;
    Ok(wanted.len())
}

/// A drive that becomes full answers as the machine in memory, command by command: with the same statuses, results and data.
pub fn full_as_the_machine<P: Program>(alloc: Global) -> Result<(), Fail> {
    let script = full_script(alloc)?;
    let input = copied(alloc, &script)?;
    let pages = made::<P>(alloc, &MAKE_WORKED)?;
    let session = serve::<P>(alloc, roomy_board(alloc, worked()?, pages, input)?);
    ended(&session, DONE, Place::Named("a drive that becomes full"))?;
    let posted = session.flash.posted();
    let mut machine = MapMachine::new(alloc, worked()?)?;
    let mut at = 0usize;
    let mut end = 0usize;
    for number in 1..255u32 {
        if let Some(asked) = asked_at(&script, at) {
            let record = posted.get(end..).unwrap_or(&[]);
            let len = check_record(alloc, &mut machine, &asked, number, record)?;
            end = end.saturating_add(len);
            at = at.saturating_add(64).saturating_add(asked.value.len());
        }
    }
    same(at as u64, script.len() as u64, "the bytes asked")?;
    same(end as u64, posted.len() as u64, "the bytes posted")
}
