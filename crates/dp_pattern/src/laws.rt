//! Laws of the definitions: each is the contract of a function that does nothing.
ghost use Rattle.dp_pattern.specs.Laws.{CapturesAreBinds};

/// Where a value matches, as many values are captured as the pattern has binds.
pub fn captures_are_binds()
    ensures { CapturesAreBinds }
{}
