//! What the moves of a reclaim make of the values, each the contract of a function that does nothing.
ghost use Rattle.pk_gc.specs.Copied.{Empties, MayMove};
ghost use Rattle.pk_gc.specs.Cuts.{CommitBegins, CommitBeginFails, CommitEnds, CommitEndFails};
ghost use Rattle.pk_gc.specs.Ending.{GivesUp};
ghost use Rattle.pk_gc.specs.Falling.{StartRuns, ReadRuns, ProgramRuns, BeginRuns, ReadFalls, ProgramFalls, BeginFalls, ProgramSparse, BeginSparse, FewerSparse};
ghost use Rattle.pk_gc.specs.Going.{NextIsValue};
ghost use Rattle.pk_gc.specs.Buffering.{MovesBuffered, MovesFit};
ghost use Rattle.pk_gc.specs.Lowering.{StepLowers, LiveOfBlock};
ghost use Rattle.pk_gc.specs.Keeping.{RunsElsewhere, RunsStored, RunsDeleted};

/// If a victim is copied, the moves that remain take all values out of it, and their commit does
/// not change the map.
pub fn copied()
    ensures empties { Empties }
    ensures may_move { MayMove }
{}

/// A reclaim runs on as it is, whatever is written in other blocks, and whichever keys get a value
/// there or lose theirs.
pub fn in_mid_copy()
    ensures elsewhere { RunsElsewhere }
    ensures stored { RunsStored }
    ensures deleted { RunsDeleted }
{}

/// Every cut of the commit of the moves holds the same map, by either of its two programs.
pub fn cuts()
    ensures begins { CommitBegins }
    ensures begin_fails { CommitBeginFails }
    ensures ends { CommitEnds }
    ensures end_fails { CommitEndFails }
{}

/// A reclaim runs on after each step of its copy, with fewer steps remaining and at most three
/// quarters of a block to copy.
pub fn steps()
    // It runs after each of them.
    ensures start { StartRuns }
    ensures read { ReadRuns }
    ensures program { ProgramRuns }
    ensures begin { BeginRuns }

    // Fewer steps remain then.
    ensures read_falls { ReadFalls }
    ensures program_falls { ProgramFalls }
    ensures begin_falls { BeginFalls }

    // At most three quarters of a block are copied still.
    ensures program_sparse { ProgramSparse }
    ensures begin_sparse { BeginSparse }
    ensures fewer_sparse { FewerSparse }
{}

/// A reclaim that has copied its victim can be ended.
pub fn at_end()
    ensures { GivesUp }
{}

/// The first head that was not seen is that of the next value.
pub fn next_value()
    ensures { NextIsValue }
{}

/// Each step that needs no freeze lowers what remains, in which a block that is taken counts twice.
pub fn lowers()
    ensures steps { StepLowers }
    ensures live { LiveOfBlock }
{}

/// After the moves the active buffer mirrors the newest epoch with their entries, which has no more
/// keys than a buffer takes.
pub fn buffered()
    ensures moves { MovesBuffered }
    ensures fit { MovesFit }
{}
