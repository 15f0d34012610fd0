//! What a page's error is for the whole flash.
use crate::errors::{OpenError, PageError};

impl From<PageError> for OpenError {
    ghost use Rattle.std.specs.Prelude.{◌≡◌};
    ghost use Rattle.pk_scan.specs.OpeningParts.{opening_of};

    ghost from_gives = { λ e r. r ≡ opening_of e };

    fn from(error: PageError) -> OpenError {
        match error {
            PageError::Damaged { page } => OpenError::Damaged { page },
            PageError::Fault => OpenError::Fault,
        }
    }
}
