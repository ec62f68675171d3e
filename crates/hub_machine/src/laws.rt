//! Laws of the machine: each is the contract of a function that does nothing.
ghost use Rattle.hub_machine.specs.Causes.{RefusedForItsCause};
ghost use Rattle.hub_machine.specs.Laws.{RefusalChangesNothing, RefusedLeavesNothing};

/// Where a step is refused, or has nothing to do, nothing changes.
pub fn refusals_change_nothing()
    ensures { RefusalChangesNothing }
{}

/// A packet that is refused leaves what its fault alone would leave.
pub fn refused_packets_leave_nothing()
    ensures { RefusedLeavesNothing }
{}

/// A packet of a live connection is refused for exactly its cause: too many events, or what is
/// against one of them where nothing is against those before it.
pub fn refused_packets_have_their_cause()
    ensures { RefusedForItsCause }
{}
