//! A page in memory, and how far its bytes in the file may differ from zero.
ghost use Rattle.std.specs.Prelude.{◌≡◌};
ghost use Rattle.pk_base.specs.Page.{erased, torn};
ghost use Rattle.pk_file.specs.Slots.{slot_page};
ghost use Rattle.pk_file.specs.Trims.{ZerosFrom};
ghost use Rattle.pk_file.specs.Extents.{extent_of, StaysWithin};

use crate::trimmed::Trimmed;

/// A page; only a Whole one keeps bytes. In the file bytes of an earlier program may be at the
/// place of another: from `extent` on, in bytes, these are zeros.
#[derive(Drop)]
pub enum Slot {
    Erased { extent: usize },
    Whole(Trimmed),
    Torn { extent: usize },
}

impl Slot {
    /// How many bytes at the page's place in the file may differ from zero; zeros follow them.
    pub fn extent(&self) -> usize
        ensures { result ≡ extent_of self.now }
    {
        match self {
            Slot::Erased { extent } => *extent,
            Slot::Whole(kept) => kept.front.len(),
            Slot::Torn { extent } => *extent,
        }
    }

    /// The page when it is erased, which leaves its bytes in the file.
    pub fn erased(&self) -> Slot
        ensures page { slot_page result ≡ erased }
        ensures extent { extent_of result ≡ extent_of self.now }
    {
        Slot::Erased {
            extent: self.extent(),
        }
    }

    /// The page when a program of these bytes broke off, of which only zeros follow the first
    /// `front`.
    pub fn torn(&self, bytes: &[u8], front: usize) -> Slot
        requires { ZerosFrom front bytes.now }
        ensures page { slot_page result ≡ torn }
        ensures extent { StaysWithin (extent_of self.now) bytes.now (extent_of result) }
    {
        let _ = bytes;
        Slot::Torn {
            extent: self.extent().max(front),
        }
    }
}
