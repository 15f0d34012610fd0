//! What a drive holds after the first commands of a script, by a plain map, and the records of a session that reads all of it.
ghost use Rattle.std.specs.Prelude.{◌≤◌, ◌<◌};

use pk_test_scripts::script::{Answer, Ask, Value, push_answer, push_found, push_list};
use std::alloc::{AllocError, Global};

/// Keys of the scripts: this many bytes from this one on.
pub const KEYS: usize = 6;

pub const FIRST_KEY: u8 = 0x61;

/// Bytes of a record before its data.
pub const RECORD_BYTES: usize = 24;

/// A session that reads all keys, and lists them.
pub const READING: [Ask; KEYS + 1] = [
    Ask::Retrieve(0x61),
    Ask::Retrieve(0x62),
    Ask::Retrieve(0x63),
    Ask::Retrieve(0x64),
    Ask::Retrieve(0x65),
    Ask::Retrieve(0x66),
    Ask::List,
];

/// The value of each key, if it has one.
#[derive(Clone, Copy)]
pub struct Map([Option<Value>; KEYS]);

impl Map {
    pub const EMPTY: Map = Map([None; KEYS]);

    fn set(&mut self, key: u8, value: Option<Value>) {
        let place = key.wrapping_sub(FIRST_KEY) as usize;
        if place < KEYS {
            self.0[place] = value;
        }
    }

    /// Does what a command does that succeeds.
    pub fn apply(&mut self, ask: &Ask) {
        match ask {
            Ask::Store(key, value) => self.set(*key, Some(*value)),
            Ask::Delete(key) => self.set(*key, None),
            _ => {}
        }
    }

    // Adds the record of the Retrieve of the key at this place; whether it has a value.
    fn push_record(&self, records: &mut Vec<u8>, place: usize) -> Result<bool, AllocError>
        requires { place < KEYS }
    {
        let number = place as u16 + 1;
        match self.0[place] {
            Some(value) => {
                push_found(records, number, 0, &value)?;
                Ok(true)
            }
            None => {
                push_answer(records, number, &Answer::Missing)?;
                Ok(false)
            }
        }
    }

    /// The records of the reading session, with no count of reads.
    pub fn records(&self, alloc: Global) -> Result<Vec<u8>, AllocError> {
        let (mut records, mut keys) = (Vec::new(alloc), Vec::new(alloc));
        for place in 0..KEYS {
            if self.push_record(&mut records, place)? {
                keys.push(FIRST_KEY + place as u8)?;
            }
        }
        push_list(&mut records, KEYS as u16 + 1, 0, &keys)?;
        Ok(records)
    }
}

// The length of the data of the record at a place; 0 if there is no whole head.
fn data_len(records: &[u8], at: usize) -> usize {
    match records.get(at.saturating_add(20)..at.saturating_add(RECORD_BYTES)) {
        Some(bytes) if bytes.len() == 4 => {
            u32::from_le_bytes([bytes[0], bytes[1], bytes[2], bytes[3]]) as usize
        }
        _ => 0,
    }
}

/// Sets the count of reads of each record of the reading session to 0. It says how many pages this
/// run read, which depends on what of them is in memory, and no promise is made on it after a crash.
pub fn without_reads(records: &mut Vec<u8>) {
    let mut at = 0usize;
    for _ in 0..READING.len() {
        let (first, end) = (at.saturating_add(16), at.saturating_add(20));
        if first <= end && end <= records.len() {
            records[first..end].fill(0);
        }
        let len = data_len(records, at);
        at = at.saturating_add(RECORD_BYTES).saturating_add(len);
    }
}
