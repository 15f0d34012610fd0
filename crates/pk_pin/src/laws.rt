//! What calls leave of the leases of all who have some.
ghost use Rattle.pk_pin.specs.Laws.{NoneLeased, LeaseTaken, LeaseGiven, LeasesFilled, LeasesCounted, FreeAndLeased};

/// Nobody has a frame of an arena whose frames are all free.
pub fn none_leased()
    ensures { NoneLeased }
{}

/// If a free frame is taken, it is one lease more.
pub fn lease_taken()
    ensures { LeaseTaken }
{}

/// If a frame is freed, its lease is gone and all others are unchanged.
pub fn lease_given()
    ensures { LeaseGiven }
{}

/// If a frame is filled, the leases are unchanged.
pub fn leases_filled()
    ensures { LeasesFilled }
{}

/// There are as many leases as frames that are leased.
pub fn leases_counted()
    ensures { LeasesCounted }
{}

/// Free and leased frames together are all frames.
pub fn free_and_leased()
    ensures { FreeAndLeased }
{}
