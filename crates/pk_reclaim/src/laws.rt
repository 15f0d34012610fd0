//! What others do between the steps of a reclaim, and what its steps make of placed values.
ghost use Rattle.pk_reclaim.specs.Laws.{FreezeMakesRoom};
ghost use Rattle.pk_reclaim.specs.Values.{OutputTaken, DeadGivenBack, CopyProgrammed, MovesPlaced, EndPlaced, VictimGivenBack};

/// After a freeze the moves of a reclaim find room: a step that needed the freeze needs none then.
pub fn behind_freeze()
    ensures { FreezeMakesRoom }
{}

/// Values remain placed after each step of a reclaim, with the block that it holds from then on.
pub fn values_stay()
    ensures output { OutputTaken }
    ensures dead { DeadGivenBack }
    ensures copy { CopyProgrammed }
    ensures moves { MovesPlaced }
    ensures end { EndPlaced }
    ensures given { VictimGivenBack }
{}
