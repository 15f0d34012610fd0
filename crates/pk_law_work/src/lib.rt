//! How much work remains in the background, and how many flash operations a command makes:
//! definitions, and laws over them, each the contract of a function that does nothing.
#![tactic(auto)]

ghost use Rattle.pk_law_work.specs.Laws.{WorkMost, MergingMost, MergeMoves, MergeEnds, FreezeMoves, FreezeEnds, PairEnds, Reclaims, FrameFills, Erases, RoomForMoves, FrozenIsRoom, LightVictim, RoomBehind, MergeWithin, MergePrograms, MergeTakes, FreezeWithin, FreezeTakes, ReclaimWithin, ReclaimReads, ReclaimPrograms, FewPages, FewBlocks};
ghost use Rattle.pk_law_work.specs.Calls.{CallsMost};

/// There are never more background steps left than four times the most calls of a command, and two for each block.
pub fn bounds()
    ensures work { WorkMost }
    ensures merging { MergingMost }
{}

/// Each step of a merge lowers the work, and after the end of one the merge into the level above it is due, or none.
pub fn merges()
    ensures moves { MergeMoves }
    ensures ends { MergeEnds }
{}

/// Each step of a freeze lowers the work, with the merges that are due after it, and so does the
/// second program of a root.
#[tactic(auto, unfolding(crate::specs::Work::work, crate::specs::Backlog::due_level))]
pub fn freezes()
    ensures moves { FreezeMoves }
    ensures ends { FreezeEnds }
    ensures pair { PairEnds }
{}

/// Each step of a reclaim lowers the work, and so do a page that is read into a frame and an erase of a free block.
#[tactic(auto, unfolding(crate::specs::Work::work, crate::specs::Backlog::due_level))]
pub fn reclaims()
    ensures steps { Reclaims }
    ensures fills { FrameFills }
    ensures erases { Erases }
    ensures room { RoomForMoves }
    ensures frozen { FrozenIsRoom }
    ensures victim { LightVictim }
    ensures behind { RoomBehind }
{}

/// What a job has left, by how far it has come.
pub fn jobs()
    // Of a merge.
    ensures merge { MergeWithin }
    ensures merge_programs { MergePrograms }
    ensures merge_takes { MergeTakes }

    // Of a freeze.
    ensures freeze { FreezeWithin }
    ensures freeze_takes { FreezeTakes }

    // Of a reclaim.
    ensures reclaim { ReclaimWithin }
    ensures reclaim_reads { ReclaimReads }
    ensures reclaim_programs { ReclaimPrograms }
{}

/// How many pages and blocks a run takes.
pub fn pages()
    ensures few { FewPages }
    ensures few_blocks { FewBlocks }
{}

/// No command makes more flash operations than its parts can, and these add up to the most
/// operations of a command.
pub fn commands()
    ensures { CallsMost }
{}
