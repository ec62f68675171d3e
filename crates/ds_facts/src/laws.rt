//! A law of the definitions: the contract of a function that does nothing.
ghost use Rattle.ds_facts.specs.Laws.{FactsAreMembers};

/// What is kept of a list of values goes by which values are there, not by their order or number.
pub fn facts_are_members()
    ensures { FactsAreMembers }
{}
