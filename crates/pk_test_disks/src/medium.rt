//! A file in memory, of which some calls fail, and which keeps what was done since its last sync. Its clauses speak of a kill alone, which
//! leaves what a read returns; what a loss of power may leave is made of the changes.
ghost use Rattle.std.specs.Prelude.{◌≡◌, ◌≤◌, true, false, refl, length, is_ok, OnOk};
ghost use Rattle.sqlite_disk.specs.Disk.{Holds, Mixed, Cut, CountsFault};
ghost use Rattle.sqlite_disk.specs.Refusal.{finds_no_room};

use sqlite_disk::{Disk, Tally, digest_of};
use std::alloc::{AllocError, Global};
use std::io;

/// What a call does that fails.
#[derive(Clone, Copy, PartialEq, Eq)]
pub enum Effect {
    Nothing,
    /// Of a write the first half, and of any other call nothing.
    Half,
    /// All that it does when it succeeds.
    Everything,
}

/// Which calls fail.
#[derive(Clone, Copy, PartialEq, Eq)]
pub enum Fails {
    Never,
    /// All from this one on: the machine has stopped.
    From(u32),
    /// This one alone.
    Once(u32, Effect),
}

/// The kind of the error that a call answers which is made to fail.
pub const MADE_TO_FAIL: io::ErrorKind = io::ErrorKind::TimedOut;

/// What was done to a file since its last sync.
#[derive(Drop)]
pub enum Unsynced {
    Write { at: usize, bytes: Vec<u8> },
    Len(usize),
}

#[derive(Drop)]
pub struct Medium {
    bytes: Vec<u8>,
    synced: Vec<u8>,
    changes: Vec<Unsynced>,
    /// A loss of power leaves each byte of a write old or new, below the old end of the file.
    is_mixing: bool,
    fails: Fails,
    calls: u32,
    syncs: u32,
    faults: u64,
    caught: u64,
    is_usable: bool,
    late: u32,
}

impl Medium {
    /// A file that holds these bytes, synced.
    pub fn new(
        alloc: Global,
        bytes: &[u8],
        is_mixing: bool,
        fails: Fails,
    ) -> Result<Medium, AllocError> {
        Ok(Medium {
            bytes: bytes.to_vec(alloc)?,
            synced: bytes.to_vec(alloc)?,
            changes: Vec::new(alloc),
            is_mixing,
            fails,
            calls: 0,
            syncs: 0,
            faults: 0,
            caught: 0,
            is_usable: true,
            late: 0,
        })
    }

    pub fn bytes(&self) -> &[u8] {
        &self.bytes
    }

    pub fn synced(&self) -> &[u8] {
        &self.synced
    }

    /// The changes since the last sync, the oldest first; one that failed is among them.
    pub fn changes(&self) -> &[Unsynced] {
        &self.changes
    }

    /// How many calls were made.
    pub fn calls(&self) -> u32 {
        self.calls
    }

    /// How many syncs succeeded.
    pub fn syncs(&self) -> u32 {
        self.syncs
    }

    /// How many calls failed.
    pub fn failures(&self) -> u64 {
        self.faults
    }

    /// How many writes were asked for after a sync had failed.
    pub fn late_writes(&self) -> u32 {
        self.late
    }
}

// Counts a call, and answers what it does if it fails.
fn refusal(fails: Fails, calls: &mut u32) -> Option<Effect> {
    let call = *calls;
    *calls = call.saturating_add(1);
    match fails {
        Fails::From(first) if call >= first => Some(Effect::Nothing),
        Fails::Once(only, effect) if call == only => Some(effect),
        _ => None,
    }
}

fn refuse(faults: &mut u64) -> io::Result<()>
    ensures fails { is_ok result ≡ false }
    ensures kind { finds_no_room result ≡ false }
    ensures faults { CountsFault result faults.old faults.new }
{
    *faults = faults.saturating_add(1);
    Err(io::Error::from(io::ErrorKind::TimedOut))
}

// Counts a call that changes nothing if it fails.
fn pass(fails: Fails, calls: &mut u32, faults: &mut u64) -> io::Result<()>
    ensures kind { finds_no_room result ≡ false }
    ensures faults { CountsFault result faults.old faults.new }
{
    match refusal(fails, calls) {
        Some(_) => refuse(faults),
        None => Ok(()),
    }
}

// How many of the bytes of a write that fails get to the file.
fn taken(effect: Effect, len: usize) -> usize
    ensures { result ≤ len }
{
    match effect {
        Effect::Nothing => 0,
        Effect::Half => len / 2,
        Effect::Everything => len,
    }
}

fn count(outcome: Result<(), AllocError>, faults: &mut u64) -> io::Result<()>
    ensures variant { is_ok result ≡ is_ok outcome }
    ensures kind { finds_no_room result ≡ false }
    ensures faults { CountsFault result faults.old faults.new }
{
    if outcome.is_err() {
        *faults = faults.saturating_add(1);
        return Err(io::Error::from(io::ErrorKind::OutOfMemory));
    }
    Ok(())
}

fn note_write(changes: &mut Vec<Unsynced>, at: usize, bytes: &[u8]) -> Result<(), AllocError> {
    let copy = bytes.to_vec(*changes.allocator())?;
    changes.push(Unsynced::Write { at, bytes: copy })?;
    Ok(())
}

fn note_len(changes: &mut Vec<Unsynced>, len: usize) -> Result<(), AllocError> {
    changes.push(Unsynced::Len(len))?;
    Ok(())
}

// Brings these bytes to the disk.
fn settle(
    synced: &mut Vec<u8>,
    changes: &mut Vec<Unsynced>,
    bytes: &Vec<u8>,
) -> Result<(), AllocError> {
    *synced = bytes.to_vec(*synced.allocator())?;
    changes.clear();
    Ok(())
}

fn resize(file: &mut Vec<u8>, len: usize) -> Result<(), AllocError>
    ensures len { OnOk result (length file.new.items ≡ len) }
    ensures others { Cut len file.old.items file.new.items }
{
    file.resize(len, 0)
}

// Writes the first of these bytes, as many as are taken.
fn put(file: &mut Vec<u8>, at: usize, bytes: &[u8], taken: usize) -> Result<(), AllocError>
    requires { taken ≤ length bytes.now }
    ensures written { OnOk result (taken ≡ length bytes.now → Holds file.new.items at bytes.now) }
    ensures mixed { Mixed at bytes.now file.old.items file.new.items }
{
    let end = at.checked_add(taken).ok_or(AllocError)?;
    if end > file.len() {
        resize(file, end)?;
    }
    file[at..end].copy_from_slice(&bytes[..taken]);
    Ok(())
}

impl Disk for Medium {
    ghost seen = { λ m. m.bytes.items };

    ghost may_leave = { λ m c. c ≡ m.bytes.items };

    ghost is_usable = { λ m. m.is_usable };

    ghost faults = { λ m. m.faults };

    ghost tally_of = { λ m. record { caught = m.caught; refused = 0 } };

    ghost is_clean = { λ _. true };

    ghost key_of = { λ _. 0 };

    ghost is_fair = { λ _ _. true };

    ghost fair_if_clean = { λ _ _ _. refl };

    ghost seen_may_stay = { λ _. refl };

    ghost is_mixing = { λ m. m.is_mixing };

    fn mixes(&self) -> bool {
        self.is_mixing
    }

    fn key(&self) -> u64 {
        0
    }

    fn tally(&self) -> Tally {
        Tally {
            caught: self.caught,
            refused: 0,
        }
    }

    fn may_be_used(&self) -> bool {
        self.is_usable
    }

    fn len(&mut self) -> io::Result<usize> {
        pass(self.fails, &mut self.calls, &mut self.faults)?;
        Ok(self.bytes.len())
    }

    fn read_at(&mut self, at: usize, buf: &mut [u8]) -> io::Result<()> {
        pass(self.fails, &mut self.calls, &mut self.faults)?;
        if at > self.bytes.len() || buf.len() > self.bytes.len() - at {
            return Err(io::ErrorKind::UnexpectedEof.into());
        }
        buf.copy_from_slice(&self.bytes[at..at + buf.len()]);
        Ok(())
    }

    fn read_checked(&mut self, key: u64, want: u64, at: usize, buf: &mut [u8]) -> io::Result<()> {
        self.read_at(at, buf)?;
        if digest_of(key, buf) != want {
            self.faults = self.faults.saturating_add(1);
            self.caught = self.caught.saturating_add(1);
            return Err(io::ErrorKind::InvalidData.into());
        }
        Ok(())
    }

    fn write_at(&mut self, at: usize, bytes: &[u8]) -> io::Result<()> {
        if !self.is_usable {
            self.late = self.late.saturating_add(1);
        }
        count(note_write(&mut self.changes, at, bytes), &mut self.faults)?;
        match refusal(self.fails, &mut self.calls) {
            Some(effect) => {
                let _ = put(&mut self.bytes, at, bytes, taken(effect, bytes.len()));
                refuse(&mut self.faults)
            }
            None => count(
                put(&mut self.bytes, at, bytes, bytes.len()),
                &mut self.faults,
            ),
        }
    }

    fn set_len(&mut self, len: usize) -> io::Result<()> {
        count(note_len(&mut self.changes, len), &mut self.faults)?;
        pass(self.fails, &mut self.calls, &mut self.faults)?;
        count(resize(&mut self.bytes, len), &mut self.faults)
    }

    fn sync(&mut self) -> io::Result<()> {
        self.is_usable = false;
        match refusal(self.fails, &mut self.calls) {
            Some(effect) => {
                if effect == Effect::Everything {
                    let _ = settle(&mut self.synced, &mut self.changes, &self.bytes);
                }
                refuse(&mut self.faults)
            }
            None => {
                count(
                    settle(&mut self.synced, &mut self.changes, &self.bytes),
                    &mut self.faults,
                )?;
                self.syncs = self.syncs.saturating_add(1);
                self.is_usable = true;
                Ok(())
            }
        }
    }
}
