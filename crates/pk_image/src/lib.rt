//! Image files: their header, the state byte of each page, and the places of both. A header is read
//! exactly if it is one, and otherwise refused at its first wrong field. Two laws say that a file
//! without a wrong byte is the image of the pages that are read of it, and of no others.
//! The bytes: `docs/FORMATS.md#image-file`.
#![tactic(auto)]

mod head;
mod laws;
mod tag;

pub use head::{HEADER_BYTES, ImageError, file_len, header, read_header};
pub use laws::{every_image_is_read, what_is_read_is_an_image};
pub use tag::{PageTag, page_at, state, state_at};
