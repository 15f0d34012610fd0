//! The end of a merge.
ghost use Rattle.pk_merge.specs.Laws.{IdleBehindOne, IdleBehindTwo};

/// A job is idle again once its output was taken and what it replaces was freed.
pub fn idle_again()
    ensures one { IdleBehindOne }
    ensures two { IdleBehindTwo }
{}
