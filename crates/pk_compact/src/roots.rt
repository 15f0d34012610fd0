//! The install of the next root in three steps, by one flash operation each: the erase before it,
//! if one is next, and its two programs.
ghost use Rattle.std.specs.Prelude.{◌≡◌, ◌≤◌, ℕ, length, true, false};
ghost use Rattle.pk_base.specs.Map.{Map};
ghost use Rattle.pk_base.specs.Page.{SameBehind};
ghost use Rattle.pk_nand.specs.Calls.{IsReady};
ghost use Rattle.pk_nand.specs.Effects.{OneProgram};
ghost use Rattle.pk_rootfmt.specs.Root.{Root as RootValue};
ghost use Rattle.pk_model.specs.Found.{Found};
ghost use Rattle.pk_model.specs.Wear.{roots};
ghost use Rattle.pk_root.specs.Installing.{erases_next, programs_next, repeats_next};
ghost use Rattle.pk_compact.specs.Installing.{CanPrepare, Prepares, PrepareBreaks, CanInstall, InstallsRoot, InstallBreaks, CanRepeat, RepeatsRoot, RepeatBreaks};
ghost use Rattle.pk_compact.specs.Steps.{StepByCall};

use pk_base::Shape;
use pk_nand::{Fault, Nand};
use pk_root::Installer;
use pk_rootfmt::Root;
use std::alloc::Allocator;

/// Erases the root block that is next, after which the next root is programmed: the one flash
/// operation. The newest root and the map are the same wherever it is cut. `Stopped` if it fails;
/// the installer is as before then.
pub fn prepare_root<B: Nand>(
    board: &mut B,
    shape: &Shape,
    installer: &mut Installer,
) -> Result<(), Fault>
    requires ready { IsReady (B.state board.old) shape.now }
    requires erases { erases_next installer.old ≡ true }
    requires can { (top : ℕ × RootValue) × (found : Found) × (m : Map)
        × CanPrepare shape.now installer.old (B.state board.old).pages top found m }
    ensures step { StepByCall
        (λ u. Prepares shape.now installer.old (B.state board.old) installer.new
        (B.state board.new))
        (PrepareBreaks shape.now installer.old (B.state board.old) (B.state board.new))
        shape.now 0 (B.state board.old) (B.state board.new) result }
{
    shape.known();
    installer.erase(board, shape)
}

/// Programs a root that may follow the newest one in the first page of the pair that is next: the
/// one flash operation. The root is the newest one then, and its second program is next. Wherever
/// it is cut, the map is the same. `Stopped` if it fails; the installer is as before then. `buf`
/// has the size of a page and is overwritten.
pub fn install_root<B: Nand, A: Allocator>(
    board: &mut B,
    root: &Root<A>,
    installer: &mut Installer,
    buf: &mut [u8],
) -> Result<(), Fault>
    // The board, a root that may follow, whose first program is next, and a page's bytes.
    requires ready { IsReady (B.state board.old) root.now.shape }
    requires programs { programs_next installer.old ≡ true }
    requires can { (top : ℕ × RootValue) × (found : Found) × (then_found : Found) × (m : Map)
        × CanInstall root.now.shape root.now.root installer.old (B.state board.old).pages
        top found then_found m }
    requires room { length buf.old ≡ root.now.shape.page_bytes }

    // The root was installed, or the call failed.
    ensures step { StepByCall
        (λ u. InstallsRoot root.now.shape root.now.root installer.old (B.state board.old)
        installer.new (B.state board.new))
        (InstallBreaks root.now.shape root.now.root installer.old (B.state board.old)
        (B.state board.new))
        root.now.shape 1 (B.state board.old) (B.state board.new) result }

    // What is unchanged in any case.
    ensures buffer { length buf.new ≡ length buf.old }
{
    root.shape().known();
    installer.program(board, root, buf)
}

/// Programs the newest root once more, in the second page of its pair: the one flash operation.
/// Wherever it is cut, the map is the same. `Stopped` if it fails; the installer is as before then.
/// `buf` has the size of a page and is overwritten.
pub fn repeat_root<B: Nand, A: Allocator>(
    board: &mut B,
    root: &Root<A>,
    installer: &mut Installer,
    buf: &mut [u8],
) -> Result<(), Fault>
    // The board, the newest root, whose second program is next, and a page's bytes.
    requires ready { IsReady (B.state board.old) root.now.shape }
    requires repeats { repeats_next installer.old ≡ true }
    requires can { (top : ℕ × RootValue) × (found : Found) × (m : Map)
        × CanRepeat root.now.shape root.now.root installer.old (B.state board.old).pages
        top found m }
    requires room { length buf.old ≡ root.now.shape.page_bytes }

    // Its pair is whole, or the call failed.
    ensures step { StepByCall
        (λ u. RepeatsRoot root.now.shape root.now.root installer.old (B.state board.old)
        installer.new (B.state board.new))
        (RepeatBreaks root.now.shape root.now.root installer.old (B.state board.old)
        (B.state board.new))
        root.now.shape 1 (B.state board.old) (B.state board.new) result }
    ensures program { OneProgram (B.state board.old) (B.state board.new) }
    ensures number { roots (B.state board.new) ≤ roots (B.state board.old) }

    // What is unchanged in any case.
    ensures buffer { length buf.new ≡ length buf.old }
{
    root.shape().known();
    installer.repeat(board, root, buf)
}
