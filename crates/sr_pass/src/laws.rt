//! Laws of the definitions: each is the contract of a function that does nothing.
ghost use Rattle.sr_pass.specs.Laws.{NewestComesFirst, AttenuatingNarrows, BindingsAreBinds};
ghost use Rattle.sr_pass.specs.Laws.{UnknownIsRefused};

/// The newest caveat comes first, and the older ones see what it gives.
pub fn newest_comes_first()
    ensures { NewestComesFirst }
{}

/// What passes a reference with further caveats is what the older ones make of some value.
pub fn attenuating_narrows()
    ensures { AttenuatingNarrows }
{}

/// Where a value matches, as many values are bound as the pattern binds.
pub fn bindings_are_binds()
    ensures { BindingsAreBinds }
{}

/// Nothing conforms to a name that a schema doesn't define, so a guard of it refuses.
pub fn unknown_is_refused()
    ensures { UnknownIsRefused }
{}
