//! What calls of other crates leave of an epoch.
ghost use Rattle.pk_jrn.specs.Laws.{ChangesElsewhere, FitsElsewhere, ReadsElsewhere};

/// If no page of its blocks differs, the epoch fits the flash as before.
pub fn fits_elsewhere()
    ensures { FitsElsewhere }
{}

/// If no page of its blocks differs, the entries of the epoch are the same.
pub fn reads_elsewhere()
    ensures { ReadsElsewhere }
{}

/// If nothing differs outside some pages of another block, no page of the blocks differs.
pub fn changes_elsewhere()
    ensures { ChangesElsewhere }
{}
