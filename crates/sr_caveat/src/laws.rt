//! Laws of the definitions: each is the contract of a function that does nothing.
ghost use Rattle.sr_caveat.specs.Laws.{NoGuardFromTheWire, CaveatsAreReadBack, CapsAreTheirValues};

/// What was read from the wire holds no guard.
pub fn no_guard_from_the_wire()
    ensures { NoGuardFromTheWire }
{}

/// A caveat that was read is read back from its value.
pub fn caveats_are_read_back()
    ensures { CaveatsAreReadBack }
{}

/// A value that is read as a reference is the value of it. That each reference is read from its
/// value is a clause of `Cap::to_value`.
pub fn caps_are_their_values()
    ensures { CapsAreTheirValues }
{}
