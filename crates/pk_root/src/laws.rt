//! What calls of other crates leave of the roots of a flash.
ghost use Rattle.pk_root.specs.Laws.{NewestBySame, FitsBySame};

/// Changes after the root blocks do not change the newest root, and an installer still fits.
pub fn changes_behind()
    ensures newest { NewestBySame }
    ensures fits { FitsBySame }
{}
