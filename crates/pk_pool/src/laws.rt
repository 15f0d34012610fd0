//! What calls of other crates leave of a pool's view of a flash.
ghost use Rattle.pk_pool.specs.Laws.{ChangesElsewhere, ProgramElsewhere, EraseElsewhere, ErasedInOrder};
ghost use Rattle.pk_pool.specs.Leaving.{LeftAndFreed, FreedWith, FreedSame, SpareFreed, LeavingFreed, OwnedFreed, LeftUnready, FreedUnready};
ghost use Rattle.pk_pool.specs.Unready.{Erased, TakenReady, TakenFree, GivenBack, AllCounted, TakePays};

/// Changes within a block that does not count as erased leave the pool fitting.
pub fn changes_elsewhere()
    ensures { ChangesElsewhere }
{}

/// A program in such a block, done or interrupted, leaves the pool fitting.
pub fn program_elsewhere()
    ensures { ProgramElsewhere }
{}

/// An erase of such a block, done or interrupted, leaves the pool fitting.
pub fn erase_elsewhere()
    ensures { EraseElsewhere }
{}

/// The first page of an erased block is the next one to be programmed.
pub fn erased_in_order()
    ensures { ErasedInOrder }
{}

/// What erases, takes and returns make of the number of blocks that are not ready.
pub fn blocks_not_ready()
    ensures erased { Erased }
    ensures taken_ready { TakenReady }
    ensures taken_free { TakenFree }
    ensures given_back { GivenBack }
    ensures counted { AllCounted }
    ensures pays { TakePays }
{}

/// What becomes of blocks that leave, if they are freed.
pub fn blocks_that_leave()
    ensures left { LeftAndFreed }
    ensures with { FreedWith }
    ensures same { FreedSame }
    ensures spare { SpareFreed }
    ensures leaving { LeavingFreed }
    ensures owned { OwnedFreed }
    ensures left_unready { LeftUnready }
    ensures freed_unready { FreedUnready }
{}
