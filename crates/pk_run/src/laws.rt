//! What calls of others leave of a run.
ghost use Rattle.pk_run.specs.Laws.{StandsElsewhere, StandsOutside, FrameTaken, FrameFilled, FrameGiven};
ghost use Rattle.pk_run.specs.Leases.{LeasesAreLeased, LeasesAreApart, StandsBare};

/// If no page of a run differs, and the frames of its leases are the same, it is as before.
pub fn stands_elsewhere()
    ensures { StandsElsewhere }
{}

/// If nothing differs outside some pages that are none of the run's, it is as before.
pub fn stands_outside()
    ensures { StandsOutside }
{}

/// If a free frame is taken, a run is as before, and the frame is none of its own.
pub fn frame_taken()
    ensures { FrameTaken }
{}

/// If a frame is filled that is none of its own, a run is as before.
pub fn frame_filled()
    ensures { FrameFilled }
{}

/// If a frame is freed that is none of its own, a run is as before.
pub fn frame_given()
    ensures { FrameGiven }
{}

/// The frames of a run may be freed, and nobody else has one of them; without them the run is as
/// before.
pub fn leases_of_a_run()
    ensures leased { LeasesAreLeased }
    ensures apart { LeasesAreApart }
    ensures bare { StandsBare }
{}
