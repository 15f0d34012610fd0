//! The word that makes an image.
ghost use Rattle.std.specs.Prelude.{◌≡◌, true};
ghost use Rattle.pk_top.specs.Loads.{load_status};
ghost use Rattle.pk_top.specs.Makes.{MakeRun, Makes};
ghost use Rattle.pk_top.specs.Statuses.{Tells};

use crate::status::Status;
use pk_core::format;
use pk_nand::{Board, LoadFault};
use pk_space::Limits;
use std::alloc::Global;

/// What a refused load or make of an image ends with.
pub fn of_load_fault(fault: LoadFault) -> Status
    ensures { result.0 ≡ load_status fault }
{
    match fault {
        LoadFault::Fault => Status::FLASH,
        LoadFault::BadImage { .. } => Status::NO_DRIVE,
        LoadFault::Memory => Status::MEMORY,
    }
}

/// Makes an image if there is none, and formats its flash.
fn make_image<B: Board>(alloc: Global, limits: &Limits, board: &mut B) -> Status
    requires { (B.state board.old).bare ≡ true }
    ensures { Makes limits.now.shape limits.now.each (B.state board.old) (B.state board.new)
        result.0 }
{
    let shape = *limits.shape();
    match board.make(alloc, shape) {
        Ok(()) => match format(board, shape, limits) {
            Ok(()) => Status::DONE,
            Err(_) => Status::FLASH,
        },
        Err(fault) => of_load_fault(fault),
    }
}

/// Makes a drive whose namespaces have these limits of a shape, if there is no image.
pub fn make<B: Board>(alloc: Global, limits: &Limits, board: &mut B) -> Status
    ensures runs { MakeRun limits.now.shape limits.now.each (B.state board.old)
        (B.state board.new) result.0 }
    ensures tells { Tells (B.state board.old) (B.state board.new) result.0 }
{
    match board.load(alloc) {
        Ok(Some(_)) => Status::IMAGE_EXISTS,
        Ok(None) => make_image(alloc, limits, board),
        Err(fault) => of_load_fault(fault),
    }
}
