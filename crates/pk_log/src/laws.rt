//! What calls of other crates leave of a log.
ghost use Rattle.pk_log.specs.Laws.{LogsElsewhere};

/// If no page of the root blocks and of the blocks that the newest root names differs, a log is as
/// before.
pub fn elsewhere()
    ensures { LogsElsewhere }
{}
