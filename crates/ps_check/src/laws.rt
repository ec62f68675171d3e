//! Laws of the definition: each is the contract of a function that does nothing.
ghost use Rattle.ps_check.specs.Laws.{HasMeaning, OneMeaning};

/// In a schema a value conforms to a name just where it matches the pattern that the name stands
/// for, as the table of patterns says it of names that mean what conforms to them.
pub fn has_meaning()
    ensures { HasMeaning }
{}

/// Names of a schema have no other meaning.
pub fn one_meaning()
    ensures { OneMeaning }
{}
