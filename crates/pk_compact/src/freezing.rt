//! A freeze in steps.
ghost use Rattle.std.specs.Prelude.{◌≡◌, ℕ, length};
ghost use Rattle.pk_base.specs.Map.{Map};
ghost use Rattle.pk_nand.specs.Calls.{IsReady};
ghost use Rattle.pk_rootfmt.specs.Root.{Root as RootValue};
ghost use Rattle.pk_model.specs.Found.{Found};
ghost use Rattle.pk_compact.specs.FreezeSteps.{IsFreezing, FreezeSteps, FreezeStepBreaks};
ghost use Rattle.pk_compact.specs.Steps.{StepByCall};

use crate::blocks::take_block;
use crate::next::follow;
use crate::roots::{install_root, prepare_root};
use pk_nand::{Fault, Nand};
use pk_pool::Pool;
use pk_root::Installer;
use pk_rootfmt::Root;
use std::alloc::Allocator;

/// A freeze between its steps: the blocks that it has taken for the epoch that it begins.
#[derive(Clone, Copy, Debug, PartialEq, Eq)]
pub enum FreezeJob {
    /// None runs, or it has no block yet.
    Idle,
    /// It has the first block.
    HasOne { first: u16 },
    /// It has both blocks, and installs its root.
    HasTwo { first: u16, second: u16 },
}

/// One step of a freeze, by at most one flash operation: it takes the first block of an empty
/// epoch, then the second one, and then installs the root that names them, after an erase if one is
/// next. True exactly if this call made the root's first program: the root is the newest one then,
/// its second program is next, and the blocks of a former epoch without entries are to be given
/// back after that one. Until then root and lists are unchanged, and commands may be served between
/// the steps. `Stopped` if the operation fails; pool, root, installer and freeze may not be used
/// after that. `buf` has the size of a page and is overwritten.
pub fn freeze_step<B: Nand, A: Allocator>(
    board: &mut B,
    pool: &mut Pool<A>,
    root: &mut Root<A>,
    installer: &mut Installer,
    job: &mut FreezeJob,
    has_entries: bool,
    buf: &mut [u8],
) -> Result<bool, Fault>
    // The board, what the freeze has done, and a page's bytes.
    requires ready { IsReady (B.state board.old) root.old.shape }
    requires may { (top : ℕ × RootValue) × (found : Found) × (m : Map)
        × IsFreezing pool.old root.old installer.old job.old (B.state board.old).pages
        has_entries top found m }
    requires room { length buf.old ≡ root.old.shape.page_bytes }

    // What the step did, or the call that failed.
    ensures step { StepByCall
        (λ done. FreezeSteps pool.old root.old installer.old job.old (B.state board.old) has_entries
        done pool.new root.new installer.new job.new (B.state board.new))
        (FreezeStepBreaks pool.old root.old installer.old job.old has_entries (B.state board.old)
        (B.state board.new))
        root.old.shape 1 (B.state board.old) (B.state board.new) result }

    // What is unchanged in any case.
    ensures root_shape { root.new.shape ≡ root.old.shape }
    ensures buffer { length buf.new ≡ length buf.old }
{
    pool.known();
    match *job {
        FreezeJob::Idle => match take_block(board, pool) {
            Ok(first) => {
                *job = FreezeJob::HasOne { first };
                Ok(false)
            }
            Err(fault) => Err(fault),
        },
        FreezeJob::HasOne { first } => match take_block(board, pool) {
            Ok(second) => {
                *job = FreezeJob::HasTwo { first, second };
                Ok(false)
            }
            Err(fault) => Err(fault),
        },
        FreezeJob::HasTwo { first, second } => {
            if installer.erases() {
                match prepare_root(board, root.shape(), installer) {
                    Ok(()) => Ok(false),
                    Err(fault) => Err(fault),
                }
            } else {
                follow(root, [first, second], has_entries);
                match install_root(board, root, installer, buf) {
                    Ok(()) => {
                        *job = FreezeJob::Idle;
                        Ok(true)
                    }
                    Err(fault) => Err(fault),
                }
            }
        }
    }
}
