//! What the layout of a root page fixes.

use pk_base::MOST_SPACES;

/// The version of the layout of a drive with one namespace that has the limit of the shape: roots,
/// commits and values are in pairs of pages. An image is opened by every later program that reads
/// this version; any change of the bytes of a page or of the file, or of what they are read as,
/// raises it, and an image of another version is refused with status 8 and not changed.
pub const VERSION: u16 = 2;
/// The version of the same layout with the limits of its namespaces in the root.
pub const LIMITS_VERSION: u16 = 3;
/// The place from which on the blocks of the epochs and of the runs are listed, two bytes each; in
/// a page with limits the limits are here, and the blocks after them.
pub const LIST_FROM: usize = 64;
/// The most namespaces of a drive, as a length.
pub const SPACES: usize = MOST_SPACES as usize;
/// The bytes of the limits, four each.
pub const LIMITS_BYTES: usize = 4 * SPACES;
