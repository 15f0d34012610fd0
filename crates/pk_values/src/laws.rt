//! What holds of placed values whatever others do, each the contract of a function that does nothing.
ghost use Rattle.pk_values.specs.Laws.{FlashElsewhere, BlockElsewhere, LieInFew, NoneInSpare, StartsWithNone};

/// Values stay placed if the flash changes in blocks that are not for values, and if such a block
/// changes its owner.
pub fn elsewhere()
    ensures flash { FlashElsewhere }
    ensures block { BlockElsewhere }
{}

/// Placed values are in the blocks that the pool has for them, at most one less than all data
/// blocks, and in no block without an owner.
pub fn value_blocks()
    ensures few { LieInFew }
    ensures none_in_spare { NoneInSpare }
{}

/// At first no value is placed.
pub fn starts_with_none()
    ensures { StartsWithNone }
{}
