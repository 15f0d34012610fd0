//! The drive.
use pk_parts::Parts;
use pk_region::Region;
use std::marker::Model;

/// A drive. Contracts see its parts, and how they match the flash by `DriveOnFlash`. No call but
/// `open` takes memory.
#[derive(Drop)]
pub struct Drive<A: Region> {
    pub(crate) parts: Parts<A>,
}

impl<A: Region> Model for Drive<A> {
    ghost use Rattle.pk_parts.specs.Parts.{Parts};

    ghost Value = { Parts };

    ghost view = { λ d. d.parts };
}
