//! The owners of blocks.

/// Who may own a block of the flash after the two root blocks.
#[derive(Clone, Copy, Debug, PartialEq, Eq)]
pub enum Owner {
    Journal,
    Meta,
    Values,
}
