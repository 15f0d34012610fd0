//! Completions, and the heads of the records in which they are posted.
ghost use Rattle.std.specs.Prelude.{◌≡◌, ◌<◌, ◌≤◌, ◌^◌, ◌++◌, ◌%◌, ℕ, length};
ghost use Rattle.pk_base.specs.Fields.{u32 as u32_bytes};
ghost use Rattle.pk_nvme.specs.Reply.{completion as completion_bytes, cid_at, status_at, result_at, reads_at, data_bytes_at};

use crate::sizes::{COMPLETION_BYTES, RECORD_HEAD_BYTES};
use pk_base::{get_u16, get_u32, put_text, put_u16, put_u32, put_zeros};

/// The completion entry of the command with this CID, after `taken` entries were taken, this one
/// included.
pub fn completion(cid: u16, taken: u32, status: u8, result_field: u32) -> [u8; COMPLETION_BYTES]
    ensures { result ≡ completion_bytes cid taken status result_field }
{
    let mut entry = [0u8; COMPLETION_BYTES];
    put_u32(&mut entry, 0, result_field);
    put_zeros(&mut entry, 4, 8);
    put_u16(&mut entry, 8, (taken % 65536) as u16);
    put_u16(&mut entry, 10, 1);
    put_u16(&mut entry, 12, cid);
    put_u16(&mut entry, 14, 1 + 2 * u16::from(status));
    entry
}

/// The bytes of a record before its data: the completion, the pages read and the bytes of the data.
pub fn record_head(
    completion: &[u8; COMPLETION_BYTES],
    reads: u32,
    data_len: u32,
) -> [u8; RECORD_HEAD_BYTES]
    ensures { result ≡ completion.now ++ u32_bytes reads ++ u32_bytes data_len }
{
    let mut head = [0u8; RECORD_HEAD_BYTES];
    put_text(&mut head, 0, completion);
    put_u32(&mut head, COMPLETION_BYTES, reads);
    put_u32(&mut head, COMPLETION_BYTES + 4, data_len);
    head
}

/// The command identifier of a completion entry, which may be the start of a record.
pub fn cid_in(entry: &[u8]) -> u16
    requires { COMPLETION_BYTES ≤ length entry.now }
    ensures { result ≡ cid_at entry.now }
{
    get_u16(entry, 12)
}

/// The status code of a completion entry, which may be the start of a record.
pub fn status_in(entry: &[u8]) -> u8
    requires { COMPLETION_BYTES ≤ length entry.now }
    ensures field { result ≡ status_at entry.now }
    ensures told { (cid taken status field : ℕ)
        → entry.now ≡ completion_bytes cid taken status field → status < 256 → result ≡ status }
{
    (get_u16(entry, 14) / 2 % 256) as u8
}

/// The result of a completion entry, which may be the start of a record.
pub fn result_in(entry: &[u8]) -> u32
    requires { COMPLETION_BYTES ≤ length entry.now }
    ensures field { result ≡ result_at entry.now }
    ensures told { (cid taken status field : ℕ)
        → entry.now ≡ completion_bytes cid taken status field → field < 2 ^ 32 → result ≡ field }
{
    get_u32(entry, 0)
}

/// The pages read, of the head of a record.
pub fn reads_in(head: &[u8]) -> u32
    requires { RECORD_HEAD_BYTES ≤ length head.now }
    ensures { result ≡ reads_at head.now }
{
    get_u32(head, COMPLETION_BYTES)
}

/// The bytes of the data, of the head of a record.
pub fn data_bytes_in(head: &[u8]) -> u32
    requires { RECORD_HEAD_BYTES ≤ length head.now }
    ensures { result ≡ data_bytes_at head.now }
{
    get_u32(head, COMPLETION_BYTES + 4)
}
