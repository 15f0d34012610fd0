//! Sizes of texts.
use pk_base::KEY_BYTES;

/// The most bytes of the line of a key: two digits for each of its bytes, and a line feed.
pub const LINE_BYTES: usize = 2 * KEY_BYTES + 1;
