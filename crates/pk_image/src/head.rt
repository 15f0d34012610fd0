//! The header of an image: its text and the numbers of the shape.
ghost use Rattle.std.specs.Prelude.{◌≡◌, ◌≤◌, length, IfOk, IfErr, MatchResult, Ok, Some, None};
ghost use Rattle.pk_base.specs.FieldFaults.{Finds};
ghost use Rattle.pk_base.specs.Shape as spec;
ghost use Rattle.pk_image.specs.Header.{file_size, header_bytes, named_shape, is_shape, has_size, header_fault, IsHeader, refusal_place};

use pk_base::{
    Shape, ShapeError, Wrong, get_u32, passes, put_text, put_u32, put_zeros, text, zeros,
};
use thiserror::Error;

/// The bytes of a header; the state bytes follow it.
pub const HEADER_BYTES: usize = 32;

const MAGIC: [u8; 8] = *b"PINKIMG1";

/// Bytes are no image: the place of the first wrong one.
#[derive(Clone, Copy, Debug, PartialEq, Eq, Error)]
pub enum ImageError {
    #[error("Bad")]
    Bad { at: u64 },
}

/// The header of an image of this shape.
pub fn header(shape: &Shape) -> [u8; HEADER_BYTES]
    ensures { result ≡ header_bytes shape.now }
{
    let mut bytes = [0u8; HEADER_BYTES];
    put_header(shape, &mut bytes);
    bytes
}

/// Writes a header over these bytes.
fn put_header(shape: &Shape, into: &mut [u8])
    requires { length into.old ≡ HEADER_BYTES }
    ensures { into.new ≡ header_bytes shape.now }
{
    put_text(into, 0, &MAGIC);
    put_u32(into, 8, shape.page_bytes());
    put_u32(into, 12, shape.block_pages());
    put_u32(into, 16, shape.blocks());
    put_zeros(into, 20, HEADER_BYTES);
}

/// The length in bytes of an image file of this shape.
pub fn file_len(shape: &Shape) -> u64
    ensures { result ≡ file_size shape.now }
{
    let pages = u64::from(shape.page_count());
    let bytes = u64::from(shape.page_bytes());
    HEADER_BYTES as u64 + pages * (bytes + 1)
}

/// The shape of the numbers of a header.
fn shape_in(bytes: &[u8]) -> Result<Shape, ShapeError>
    requires { length bytes.now ≡ HEADER_BYTES }
    ensures value { result ≡ spec.checked (named_shape bytes.now) }
    ensures named { IfOk result (λ shape. shape ≡ named_shape bytes.now) }
{
    Shape::new(get_u32(bytes, 8), get_u32(bytes, 12), get_u32(bytes, 16))
}

/// The numbers of a header are those of a shape.
fn names_shape(bytes: &[u8]) -> bool
    requires { length bytes.now ≡ HEADER_BYTES }
    ensures { result ≡ is_shape (named_shape bytes.now) }
{
    match shape_in(bytes) {
        Ok(_) => true,
        Err(_) => false,
    }
}

/// A file of this length has room for exactly the pages that a header names.
fn fits(bytes: &[u8], size: u64) -> bool
    requires { length bytes.now ≡ HEADER_BYTES }
    ensures { result ≡ has_size (named_shape bytes.now) size }
{
    match shape_in(bytes) {
        Ok(shape) => size == file_len(&shape),
        Err(_) => false,
    }
}

/// The first wrong field of a header, in a file of this length.
#[tactic(auto, unfolding(crate::specs::Header::header_fault))]
fn checked(bytes: &[u8], size: u64) -> Result<(), Wrong>
    requires sized { length bytes.now ≡ HEADER_BYTES }
    requires long { HEADER_BYTES ≤ size }
    ensures { Finds result (header_fault bytes.now size) }
{
    text(bytes, 0, &MAGIC)?;
    passes(8, names_shape(bytes))?;
    zeros(bytes, 20, HEADER_BYTES)?;
    passes(HEADER_BYTES as u32, fits(bytes, size))
}

/// The shape that a header names, or the first wrong field.
fn shape_of(bytes: &[u8], file_len: u64) -> Result<Shape, ImageError>
    requires { length bytes.now ≡ HEADER_BYTES }
    ensures { MatchResult result
        (λ shape. (header_fault bytes.now file_len ≡ None) × (shape ≡ named_shape bytes.now))
        (λ bad. header_fault bytes.now file_len ≡ Some (refusal_place bad)) }
{
    if file_len < HEADER_BYTES as u64 {
        return Err(ImageError::Bad { at: file_len });
    }
    match checked(bytes, file_len) {
        Ok(()) => match shape_in(bytes) {
            Ok(shape) => Ok(shape),
            Err(_) => unreachable!(),
        },
        Err(wrong) => Err(ImageError::Bad {
            at: u64::from(wrong.at),
        }),
    }
}

/// The shape of an image, of its header and the length of its file. Of a shorter file the bytes past its end do not matter.
pub fn read_header(bytes: &[u8; HEADER_BYTES], file_len: u64) -> Result<Shape, ImageError>
    // What is read is a shape whose header this is, in a file of its length.
    ensures found { IfOk result (λ shape. IsHeader shape bytes.now file_len) }
    // The header of a shape is read as this shape.
    ensures only { (shape : spec.Shape) → IsHeader shape bytes.now file_len → result ≡ Ok shape }
    // Else the first wrong field is named.
    ensures exact { IfErr result (λ bad. header_fault bytes.now file_len ≡ Some (refusal_place bad)) }
{
    shape_of(bytes, file_len)
}
