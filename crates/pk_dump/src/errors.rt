//! What is answered if a flash is not printed.

use std::alloc::AllocError;

/// Why a flash is not printed. Nothing but reads was done on it.
#[derive(Clone, Copy, Debug, PartialEq, Eq)]
pub enum DumpError {
    /// A read failed.
    Fault,
    /// The allocator has not enough memory.
    Memory,
}

impl From<AllocError> for DumpError {
    ghost use Rattle.std.specs.Prelude.{◌≡◌};
    ghost use Rattle.pk_dump.specs.declared.errors.DumpError.TheVariants.{Memory};

    ghost from_gives = { λ e r. r ≡ Memory };

    fn from(_error: AllocError) -> DumpError {
        DumpError::Memory
    }
}
