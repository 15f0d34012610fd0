//! The state bytes of an image, and the places of its parts.
ghost use Rattle.std.specs.Prelude.{◌≡◌, ◌<◌, Some, None, IfOk, MatchResult};
ghost use Rattle.pk_base.specs.Shape.{page_count};
ghost use Rattle.pk_image.specs.Header.{refusal_place};
ghost use Rattle.pk_image.specs.Image.{byte_of, state_place, page_place};

use crate::head::{HEADER_BYTES, ImageError};
use pk_base::Shape;

/// The state byte of an Erased page.
pub const ERASED: u8 = 0;
/// The state byte of a Whole page.
pub const WHOLE: u8 = 1;
/// The state byte of a Torn page; no state has a greater one.
pub const TORN: u8 = 2;

/// The state of a page.
#[derive(Clone, Copy, Debug, PartialEq, Eq)]
pub enum PageTag {
    Erased,
    Whole,
    Torn,
}

impl PageTag {
    /// The byte that says this state.
    pub fn byte(self) -> u8
        ensures { result ≡ byte_of self }
    {
        match self {
            PageTag::Erased => ERASED,
            PageTag::Whole => WHOLE,
            PageTag::Torn => TORN,
        }
    }
}

/// The state that the byte at this place says.
pub fn state(byte: u8, at: u64) -> Result<PageTag, ImageError>
    // Each state has one byte, and every other byte is wrong at its place.
    ensures { MatchResult result (λ tag. byte ≡ byte_of tag)
        (λ bad. (TORN < byte) × (refusal_place bad ≡ at)) }
{
    match byte {
        ERASED => Ok(PageTag::Erased),
        WHOLE => Ok(PageTag::Whole),
        TORN => Ok(PageTag::Torn),
        _ => Err(ImageError::Bad { at }),
    }
}

/// The place of the state byte of a page.
pub fn state_at(shape: &Shape, page: u32) -> u64
    requires { page < page_count shape.now }
    ensures { result ≡ state_place page }
{
    let _ = shape;
    HEADER_BYTES as u64 + u64::from(page)
}

/// The place of the first byte of a page.
pub fn page_at(shape: &Shape, page: u32) -> u64
    requires { page < page_count shape.now }
    ensures { result ≡ page_place shape.now page }
{
    let states = u64::from(shape.page_count());
    HEADER_BYTES as u64 + states + u64::from(page) * u64::from(shape.page_bytes())
}
