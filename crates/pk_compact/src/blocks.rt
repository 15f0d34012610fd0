//! The two blocks of an epoch, taken from the pool, and leaving it.
ghost use Rattle.std.specs.Prelude.{◌≡◌, ◌≤◌, ◌<◌, ◌≢◌, ◌+◌, ◌*◌, ℕ, ◌∷◌, [], List, length, slice_get, slice_index, Some, if◌then◌else◌, IfOk, IfErr, OnOk, OnErr};
ghost use Rattle.pk_base.specs.Page.{Flash};
ghost use Rattle.pk_plan.specs.declared.owner.Owner.{Owner as OwnerSpec};
ghost use Rattle.pk_plan.specs.declared.owner.Owner.TheVariants.{Journal};
ghost use Rattle.pk_nand.specs.Calls.{IsReady};
ghost use Rattle.pk_nand.specs.Operations.{IsErasedBlock};
ghost use Rattle.pk_nand.specs.declared.types.Fault.TheVariants.{Stopped};
ghost use Rattle.pk_pool.specs.declared.state.BlockState.TheVariants.{Owned};
ghost use Rattle.pk_pool.specs.Blocks.{used_by, with_state, left_by, IsSpare, PoolOnFlash};
ghost use Rattle.pk_pool.specs.Taking.{FailsToErase};
ghost use Rattle.pk_compact.specs.Steps.{AtMostErases};

use pk_base::{EPOCH_BLOCKS, ROOT_BLOCKS};
use pk_nand::{Fault, Nand};
use pk_pool::{Owner, Pool};
use std::alloc::Allocator;

/// Takes a block for an epoch, by at most one erase. `Stopped` if it fails.
pub(crate) fn take_block<B: Nand, A: Allocator>(
    board: &mut B,
    pool: &mut Pool<A>,
) -> Result<u16, Fault>
    requires room { used_by Journal pool.old.states < 2 * EPOCH_BLOCKS }
    requires ready { IsReady (B.state board.old) pool.old.shape }
    requires fits { PoolOnFlash pool.old (B.state board.old).pages }

    // The journal has one block more, which is Erased.
    ensures taken { IfOk result (λ b. (pool.new ≡ with_state pool.old b (Owned Journal))
        × AtMostErases b (B.state board.old) (B.state board.new)) }
    ensures spare { IfOk result (λ b. IsSpare pool.old b × (ROOT_BLOCKS ≤ b)
        × (b < pool.old.shape.blocks) × IsErasedBlock pool.old.shape (B.state board.new).pages b) }
    ensures counted { OnOk result
        (used_by Journal pool.new.states ≡ used_by Journal pool.old.states + 1) }

    // Or the erase failed.
    ensures stopped { IfErr result (λ e. e ≡ Stopped) }
    ensures failed { OnErr result (FailsToErase pool.old (B.state board.old) (B.state board.new)) }

    ensures ready { IsReady (B.state board.new) pool.old.shape }
    ensures fits { PoolOnFlash pool.new (B.state board.new).pages }
{
    pool.known();
    match pool.take(board, Owner::Journal) {
        Ok(block) => Ok(block as u16),
        Err(fault) => Err(fault),
    }
}

/// Retires an epoch, which is no longer named: if it has no entries, its blocks leave the journal.
pub fn retire_epoch<A: Allocator>(pool: &mut Pool<A>, blocks: [u16; 2], has_entries: bool)
    requires first { slice_get pool.old.states (slice_index blocks 0) ≡ Some (Owned Journal) }
    requires second { slice_get pool.old.states (slice_index blocks 1) ≡ Some (Owned Journal) }
    requires different { slice_index blocks 1 ≢ slice_index blocks 0 }
    ensures left { pool.new ≡ left_by Journal pool.old
        (if has_entries then [] else slice_index blocks 0 ∷ slice_index blocks 1 ∷ []) }
    ensures counted { (o : OwnerSpec) → used_by o pool.new.states ≡ used_by o pool.old.states }
    ensures fits { (flash : Flash) → PoolOnFlash pool.old flash → PoolOnFlash pool.new flash }
{
    if has_entries {
        return;
    }
    pool.leave(blocks[0] as u32);
    pool.leave(blocks[1] as u32);
}
