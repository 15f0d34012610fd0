//! The install of a merge.
ghost use Rattle.std.specs.Prelude.{◌≡◌, ◌≤◌, ◌<◌, ◌+◌, ℕ, length, true};
ghost use Rattle.std.specs.List.{concat};
ghost use Rattle.pk_base.specs.Map.{Map};
ghost use Rattle.pk_base.specs.Shape.{meta_blocks};
ghost use Rattle.pk_nand.specs.Calls.{IsReady};
ghost use Rattle.pk_rootfmt.specs.Root.{Root as RootValue, last_number};
ghost use Rattle.pk_model.specs.Found.{Found};
ghost use Rattle.pk_root.specs.Installing.{programs_next};
ghost use Rattle.pk_law_steps.specs.Merging.{merged_root};
ghost use Rattle.pk_compact.specs.Merging.{CanMerge, MergesRoot, MergeBreaks, without_source};
ghost use Rattle.pk_compact.specs.Steps.{StepByCall};

use crate::roots::install_root;
use pk_nand::{Fault, Nand};
use pk_root::Installer;
use pk_rootfmt::Root;
use std::alloc::Allocator;

// Empties the source of a merge into this level: the older epoch, or the run above.
fn empty_source<A: Allocator>(root: &mut Root<A>, level: u8)
    requires level { 1 ≤ level × level ≤ 4 }
    requires newest { length root.old.root.newest ≡ 2 }
    requires room { length (concat root.old.root.runs) ≤ meta_blocks root.old.shape }
    ensures { root.new ≡ record root.old { root = without_source root.old.root level } }
{
    if level == 1 {
        let epoch = root.epoch();
        let newest = root.newest();
        root.set_epochs(epoch, newest, None);
    } else {
        root.set_run(level - 1, 0, &[]);
    }
}

// Makes the root the one after a merge into this level, whose output has `count` entries, in these
// blocks.
fn follow<A: Allocator>(root: &mut Root<A>, level: u8, count: u32, taken: &[u16])
    requires level { 1 ≤ level × level ≤ 4 }
    requires number { root.old.root.number < last_number }
    requires newest { length root.old.root.newest ≡ 2 }
    requires room { length (concat root.old.root.runs) + length taken.now
        ≤ meta_blocks root.old.shape }
    ensures { root.new ≡ record root.old {
      root = merged_root root.old.root level count taken.now;
    } }
{
    let number = root.number() + 1;
    root.set_number(number);
    root.set_run(level, count, taken);
    empty_source(root, level);
}

/// Installs the root after a merge into this level, whose output, of `count` entries, is in these
/// blocks: its first program is the one flash operation, and its second one is next. Wherever it is
/// cut, the map is the same. `Stopped` if it fails; root and installer may not be used after that.
/// `buf` has the size of a page and is overwritten.
pub fn install_merge<B: Nand, A: Allocator>(
    board: &mut B,
    root: &mut Root<A>,
    installer: &mut Installer,
    level: u8,
    count: u32,
    taken: &[u16],
    buf: &mut [u8],
) -> Result<(), Fault>
    // The board, a root that may follow, whose first program is next, and a page's bytes.
    requires ready { IsReady (B.state board.old) root.old.shape }
    requires programs { programs_next installer.old ≡ true }
    requires can { (top : ℕ × RootValue) × (found : Found) × (m : Map)
        × CanMerge root.old installer.old (B.state board.old).pages top found m
        level count taken.now }
    requires room { length buf.old ≡ root.old.shape.page_bytes }

    // The root was installed, or the call failed.
    ensures step { StepByCall
        (λ u. MergesRoot root.old installer.old (B.state board.old) level count taken.now
        root.new.root installer.new (B.state board.new))
        (MergeBreaks root.old installer.old (B.state board.old) level count taken.now
        (B.state board.new))
        root.old.shape 1 (B.state board.old) (B.state board.new) result }

    // What is unchanged in any case.
    ensures shape { root.new.shape ≡ root.old.shape }
    ensures buffer { length buf.new ≡ length buf.old }
{
    root.shape().known();
    follow(root, level, count, taken);
    install_root(board, root, installer, buf)
}
