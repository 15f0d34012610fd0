//! What calls of the inner flash leave of the outer flash, call by call.
ghost use Rattle.pk_remap.specs.Stepping.{ErasesSpare, FailsToEraseSpare, ReadsSource, WritesInOrder, WritesSpare, FailsToWriteSpare, Fills, ErasesTable, FailsToEraseTable, WritesFirst, FailsToWriteFirst, WritesSecond, FailsToWriteSecond};
ghost use Rattle.pk_remap.specs.Beginning.{CallsBelow, DoneBelow, FailsBelow};
ghost use Rattle.pk_remap.specs.CallsInTurn.{CutsShowCuts};

/// A call of the outer flash is the same call of the inner flash, on the inner block that has its block: done, cut or failed.
pub fn calls()
    ensures cut { CallsBelow }
    ensures done { DoneBelow }
    ensures failed { FailsBelow }
{}

/// The steps of a relocation in the spare: wherever one is cut, the outer flash is what the call that it serves may leave.
pub fn in_spare()
    // The erase of the spare block.
    ensures erases { ErasesSpare }
    ensures fails_to_erase { FailsToEraseSpare }

    // The pages that are read and written.
    ensures source { ReadsSource }
    ensures order { WritesInOrder }
    ensures writes { WritesSpare }
    ensures fails_to_write { FailsToWriteSpare }

    // The order in which they are.
    ensures fills { Fills }
{}

/// Its steps in the table blocks: the same, and after the last one the call is done.
pub fn in_tables()
    ensures erases { ErasesTable }
    ensures fails_to_erase { FailsToEraseTable }
    ensures first { WritesFirst }
    ensures fails_first { FailsToWriteFirst }
    ensures second { WritesSecond }
    ensures fails_second { FailsToWriteSecond }
{}

/// Programs, erases, reads, loads, fetches and posts of the outer flash one after another, each as its clauses say it: at each cut of the
/// inner calls the inner flash shows a cut of the outer trail.
pub fn in_turn()
    ensures { CutsShowCuts }
{}
