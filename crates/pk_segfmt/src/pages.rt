//! The pages of a value.
ghost use Rattle.std.specs.Prelude.{◌≡◌, ◌<◌, ◌≤◌, ◌+◌, ◌-◌, ◌*◌, ◌++◌, length, take, drop};
ghost use Rattle.pk_base.specs.Fields.{padded};
ghost use Rattle.pk_base.specs.Shape.{greatest, charge};
ghost use Rattle.pk_segfmt.specs.Value.{head_bytes};
ghost use Rattle.pk_segfmt.specs.Stored.{page_of, ValueReadsBack, StandsWhereRead, BeginsWithHead};

use crate::heads::put_head;
use pk_base::{HEAD_BYTES, Key, Shape, put_padded};

/// Writes a text from this place on, as much as there is room for, and zeros after it.
fn put_rest(into: &mut [u8], at: usize, text: &[u8])
    requires { at ≤ length into.old }
    ensures { into.new
        ≡ take at into.old ++ padded (length into.old - at) (take (length into.old - at) text.now) }
{
    let room = into.len() - at;
    let size = text.len().min(room);
    put_padded(into, at, room, &text[..size]);
}

/// The text from this place on; nothing if it ends before.
fn rest_of(text: &[u8], from: usize) -> &[u8]
    ensures { result.now ≡ drop from text.now }
{
    text.get(from..).unwrap_or(&[])
}

/// Writes page `i` of a value's pages; `into` has the bytes of a page.
pub fn page(shape: &Shape, key: &Key, value: &[u8], i: u32, into: &mut [u8])
    requires short { length value.now ≤ greatest shape.now }
    requires within { i < charge shape.now (length value.now) }
    requires sized { length into.old ≡ shape.now.page_bytes }
    ensures { into.new ≡ page_of shape.now key.now value.now i }
{
    shape.known();
    // so that the key is known to be one
    let _ = key.bytes();
    if i == 0 {
        put_head(key, value.len() as u32, into);
        put_rest(into, HEAD_BYTES, value);
    } else {
        let start = i as usize * into.len() - HEAD_BYTES;
        put_rest(into, 0, rest_of(value, start));
    }
}

/// If the pages of a value are there, the reading of a flash finds the value.
pub fn reads_back()
    ensures { ValueReadsBack }
{}

/// If the reading of a flash finds a value, its pages are there.
pub fn stands_where_read()
    ensures { StandsWhereRead }
{}

/// The first page of a value begins with its head.
pub fn begins_with_head()
    ensures { BeginsWithHead }
{}
