//! A batch: its head, which tells whether a byte of it is missing, and its bytes.
ghost use Rattle.std.specs.Prelude.{◌≡◌, ◌+◌, ◌-◌, ◌*◌, ◌^◌, ◌<◌, ◌≤◌, ◌↔◌, length, slice_index, drop, IsTrue, MatchOption};
ghost use Rattle.sqlite_disk.specs.Disk.{Torn};
ghost use Rattle.pk_redo.specs.Bytes.{number_in, zeros_in};
ghost use Rattle.pk_redo.specs.Log.{IsBatch, IsSealed, len_at};

use pk_base::{get_u32, put_u32};

/// The place of the first batch, in bytes. Before it are the byte that opens the log, and zeros.
pub const FIRST_BATCH: usize = 16;

/// Bytes of a batch before its own: one that begins it, its length, and its count.
pub const BATCH_HEAD: usize = 9;

/// The first byte of a log that is open.
pub const OPEN: u8 = 0x50;

/// The first byte of a batch.
pub const BEGUN: u8 = 1;

/// Most bytes of a batch after its head, so that its count fits four bytes.
pub const MOST_BATCH: usize = 0x4000_0000;

/// The number of four bytes at a place, the lowest byte first.
pub(crate) fn get_number(bytes: &[u8], at: usize) -> u32
    requires { at + 4 ≤ length bytes.now }
    ensures { result ≡ number_in bytes.now at }
{
    get_u32(bytes, at)
}

/// Writes a number to four bytes.
pub(crate) fn put_number(bytes: &mut [u8], at: usize, number: u32)
    requires { at + 4 ≤ length bytes.old }
    ensures written { number_in bytes.new at ≡ number }
    ensures others { Torn at 4 bytes.old bytes.new }
    ensures len { length bytes.new ≡ length bytes.old }
{
    put_u32(bytes, at, number);
}

/// Bytes whose zeros are counted in a byte, so that the machine takes many bytes at a time.
const COUNTED_BYTES: usize = 240;

/// How many of a few bytes from a place on are 0.
fn count_few(bytes: &[u8], at: usize, len: usize) -> u8
    requires within { at + len ≤ length bytes.now }
    requires few { len ≤ COUNTED_BYTES }
    ensures value { result ≡ zeros_in bytes.now at len }
    ensures few { result ≤ len }
{
    let mut count = 0u8;
    for i in 0..len {
        if bytes[at + i] == 0 {
            count += 1;
        }
    }
    count
}

/// How many of `len` bytes from a place on are 0.
fn count_zeros(bytes: &[u8], at: usize, len: usize) -> usize
    requires { at + len ≤ length bytes.now }
    ensures value { result ≡ zeros_in bytes.now at len }
    ensures few { result ≤ len }
{
    let mut count = 0;
    let mut done = 0;
    while done < len {
        let more = COUNTED_BYTES.min(len - done);
        count += count_few(bytes, at + done, more) as usize;
        done += more;
    }
    count
}

/// The count of a batch, whose bytes these are from a place on.
fn tally_of(bytes: &[u8], at: usize, len: usize) -> u32
    requires within { at + len ≤ length bytes.now }
    requires short { len ≤ MOST_BATCH }
    ensures { result ≡ zeros_in bytes.now at len + 2 * (MOST_BATCH - len) }
{
    (count_zeros(bytes, at, len) + 2 * (MOST_BATCH - len)) as u32
}

/// Makes a batch of bytes that have room for its head before them.
pub fn seal(batch: &mut [u8])
    requires long { BATCH_HEAD ≤ length batch.old }
    requires short { length batch.old ≤ BATCH_HEAD + MOST_BATCH }
    ensures sealed { IsSealed batch.new }
    ensures body { drop BATCH_HEAD batch.new ≡ drop BATCH_HEAD batch.old }
{
    let len = batch.len() - BATCH_HEAD;
    let count = tally_of(batch, BATCH_HEAD, len);
    batch[0] = BEGUN;
    put_number(batch, 1, len as u32);
    put_number(batch, 5, count);
}

/// Whether a log with these bytes is open.
pub fn is_open(log: &[u8]) -> bool
    ensures { IsTrue result ↔ (slice_index log.now 0 ≡ OPEN) }
{
    match log.first() {
        Some(byte) => *byte == OPEN,
        None => false,
    }
}

/// The length of the batch at a place, if one is there.
pub fn batch_at(log: &[u8], at: usize) -> Option<usize>
    requires { at < 2 ^ 63 }
    ensures { MatchOption result (¬ IsBatch log.now at)
        (λ len. IsBatch log.now at × (len ≡ len_at log.now at)) }
{
    if log.len() < at + BATCH_HEAD || log[at] != BEGUN {
        return None;
    }
    let len = get_number(log, at + 1) as usize;
    if log.len() - at - BATCH_HEAD < len || len > MOST_BATCH {
        return None;
    }
    if get_number(log, at + 5) != tally_of(log, at + BATCH_HEAD, len) {
        return None;
    }
    Some(len)
}
