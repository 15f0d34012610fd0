//! Where values go: the live map of a drive, and the data block that is being filled.
//!
//! A value's pages are the next Erased ones of the open block, or the first of a block that was
//! allocated for it. The live map represents the values of the keys that exist, whatever of them is
//! written, replaced or removed.
#![tactic(auto)]

mod laws;
mod span;
mod values;

pub use laws::{elsewhere, starts_with_none, value_blocks};
pub use pk_live::OpenBlock;
pub use span::Span;
pub use values::Values;
