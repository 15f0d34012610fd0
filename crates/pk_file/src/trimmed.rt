//! The bytes of a page without the zeros at its end: a page is filled up with zeros after what it
//! holds, and these take no memory.
ghost use Rattle.std.specs.Prelude.{◌≡◌, ◌≤◌, ◌<◌, ◌-◌, length, true, IfOk};
ghost use Rattle.pk_file.specs.Trims.{bytes_in, ZerosFrom};

use pk_base::{are_zeros, put_text, put_zeros};
use std::alloc::{AllocError, Global};

/// Bytes that are tested together for zeros at the end of a page, at first and then.
const LONG_STEP: usize = 128;

const SHORT_STEP: usize = 8;

/// Bytes, and how many zeros follow them.
#[derive(Drop)]
pub struct Trimmed {
    pub front: Vec<u8>,
    pub zeros: usize,
}

/// Whether the bytes up to a place end in this many zeros.
fn ends_in_zeros(bytes: &[u8], end: usize, count: usize) -> bool
    requires { end ≤ length bytes.now }
    ensures within { result ≡ true → count ≤ end }
    ensures zeros { result ≡ true → ZerosFrom end bytes.now → ZerosFrom (end - count) bytes.now }
{
    count <= end && are_zeros(&bytes[end - count..end])
}

/// The place from which on bytes are zeros if they are so from `end` on, found in steps of `step`
/// bytes.
fn zeros_from(bytes: &[u8], end: usize, step: usize) -> usize
    requires exists { end ≤ length bytes.now }
    requires some { 0 < step }
    ensures within { result ≤ end }
    ensures zeros { ZerosFrom end bytes.now → ZerosFrom result bytes.now }
{
    let mut at = end;
    while ends_in_zeros(bytes, at, step) {
        at -= step;
    }
    at
}

/// How many bytes to keep of these: zeros follow them, and the last of them is none.
fn front_len(bytes: &[u8]) -> usize
    ensures within { result ≤ length bytes.now }
    ensures zeros { ZerosFrom result bytes.now }
{
    let end = zeros_from(bytes, bytes.len(), LONG_STEP);
    let end = zeros_from(bytes, end, SHORT_STEP);
    zeros_from(bytes, end, 1)
}

impl Trimmed {
    /// These bytes.
    pub fn of(alloc: Global, bytes: &[u8]) -> Result<Trimmed, AllocError>
        ensures { IfOk result (λ kept. bytes_in kept ≡ bytes.now) }
    {
        let len = front_len(bytes);
        match Vec::from_slice(alloc, &bytes[..len]) {
            Ok(front) => Ok(Trimmed {
                front,
                zeros: bytes.len() - len,
            }),
            Err(error) => Err(error),
        }
    }

    /// Fills a buffer with them.
    pub fn fill(&self, into: &mut [u8])
        requires { length into.old ≡ length (bytes_in self.now) }
        ensures { into.new ≡ bytes_in self.now }
    {
        let len = self.front.len();
        let end = into.len();
        put_text(into, 0, self.front.as_slice());
        put_zeros(into, len, end);
    }
}
