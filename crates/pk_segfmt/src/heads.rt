//! The head before a value.
ghost use Rattle.std.specs.Prelude.{◌≡◌, ◌≤◌, List, ℕ, length, take, nat_le, IfOk, IfErr, MatchResult, Ok, Some, None};
ghost use Rattle.pk_base.specs.declared.sizes.TheConstants.{HEAD_BYTES};
ghost use Rattle.pk_base.specs.Fields.{number_at};
ghost use Rattle.pk_base.specs.FieldFaults.{Finds};
ghost use Rattle.pk_base.specs.EntryBytes.{cell_key};
ghost use Rattle.pk_base.specs.Shape.{IsShape, greatest};
ghost use Rattle.pk_segfmt.specs.Value.{head_bytes};
ghost use Rattle.pk_segfmt.specs.Head.{IsHead, head_fault};
ghost use Rattle.pk_segfmt.specs.Stored.{page_of};

use crate::found::{BadHead, Head};
use pk_base::{
    HEAD_BYTES, KEY_BYTES, Key, MOST_SPACES, Shape, Wrong, get_u32, padding, passes, put_padded,
    put_text, put_u8, put_u32, put_zeros, text,
};

/// The kind of a page that begins with a head, in byte 1: no entry has it.
pub const KIND: u8 = 0x44;

// The text at the end of a head.
const MAGIC: [u8; 8] = *b"PINKDATA";

/// A value may have this length.
fn is_len(shape: &Shape, len: u32) -> bool
    ensures { result ≡ nat_le len (greatest shape.now) }
{
    len <= shape.greatest()
}

/// The first wrong field.
#[tactic(auto, unfolding(crate::specs::Head::head_fault))]
fn checked(shape: &Shape, bytes: &[u8]) -> Result<(), Wrong>
    requires { length bytes.now ≡ HEAD_BYTES }
    ensures { Finds result (head_fault shape.now bytes.now) }
{
    let size = bytes[0];
    passes(0, size >= 1 && size as usize <= KEY_BYTES)?;
    text(bytes, 1, &[KIND])?;
    passes(2, bytes[2] < MOST_SPACES && bytes[3] == 0)?;
    padding(bytes, 4, 4 + size as usize, 20)?;
    passes(20, is_len(shape, get_u32(bytes, 20)))?;
    text(bytes, 24, &MAGIC)
}

/// The head of bytes that are one.
fn read(shape: &Shape, bytes: &[u8]) -> Head
    requires sized { length bytes.now ≡ HEAD_BYTES }
    requires good { head_fault shape.now bytes.now ≡ None }
    ensures { result ≡ record {
      key = cell_key bytes.now;
      len = number_at 4 20 bytes.now;
    } }
{
    let _ = shape;
    let size = bytes[0] as usize;
    Head {
        key: Key::of(bytes[2] + 1, &bytes[4..4 + size]),
        len: get_u32(bytes, 20),
    }
}

/// The head of these bytes, or the first wrong field.
fn head_of(shape: &Shape, bytes: &[u8]) -> Result<Head, BadHead>
    requires { length bytes.now ≡ HEAD_BYTES }
    ensures exact { MatchResult result (λ h. (head_fault shape.now bytes.now ≡ None) × (h
        ≡ record {
          key = cell_key bytes.now;
          len = number_at 4 20
              bytes.now;
        })) (λ bad. head_fault shape.now bytes.now ≡ Some bad.at) }
    ensures shape { IsShape shape.now }
{
    shape.known();
    match checked(shape, bytes) {
        Ok(()) => Ok(read(shape, bytes)),
        Err(wrong) => Err(BadHead { at: wrong.at }),
    }
}

/// The head of its bytes.
fn decode(shape: &Shape, bytes: &[u8]) -> Result<Head, BadHead>
    requires { length bytes.now ≡ HEAD_BYTES }
    ensures found { IfOk result
        (λ h. IsHead shape.now h.key h.len × (bytes.now ≡ head_bytes h.key h.len)) }
    ensures only { (key : List ℕ) (len : ℕ) → IsHead shape.now key len
        → bytes.now ≡ head_bytes key len → result ≡ Ok (record { key = key; len = len }) }
    ensures exact { IfErr result (λ bad. head_fault shape.now bytes.now ≡ Some bad.at) }
{
    head_of(shape, bytes)
}

/// The head of a value's first page.
pub fn head(shape: &Shape, page: &[u8]) -> Result<Head, BadHead>
    requires { length page.now ≡ shape.now.page_bytes }
    // What is found may be a head, and the bytes begin with it.
    ensures found { IfOk result
        (λ h. IsHead shape.now h.key h.len × (take HEAD_BYTES page.now ≡ head_bytes h.key h.len)) }
    // A head that bytes begin with is found.
    ensures only { (key : List ℕ) (len : ℕ) → IsHead shape.now key len
        → take HEAD_BYTES page.now ≡ head_bytes key len
        → result ≡ Ok (record { key = key; len = len }) }
    // The head of a value that was written is found.
    ensures written { (key value : List ℕ) → IsHead shape.now key (length value)
        → page.now ≡ page_of shape.now key value 0
        → result ≡ Ok (record { key = key; len = length value }) }
    // Else the first wrong field is named.
    ensures exact { IfErr result
        (λ bad. head_fault shape.now (take HEAD_BYTES page.now) ≡ Some bad.at) }
{
    shape.known();
    decode(shape, &page[..HEAD_BYTES])
}

/// Writes the head of a value of `len` bytes.
pub(crate) fn put_head(key: &Key, len: u32, into: &mut [u8])
    requires { HEAD_BYTES ≤ length into.old }
    ensures front { take HEAD_BYTES into.new ≡ head_bytes key.now len }
    ensures len { length into.new ≡ length into.old }
{
    let bytes = key.bytes();
    put_u8(into, 0, bytes.len() as u8);
    put_u8(into, 1, KIND);
    put_u8(into, 2, key.space() - 1);
    put_zeros(into, 3, 4);
    put_padded(into, 4, KEY_BYTES, bytes);
    put_u32(into, 20, len);
    put_text(into, 24, &MAGIC);
}
