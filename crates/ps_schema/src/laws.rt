//! Laws of the definitions: each is the contract of a function that does nothing.
ghost use Rattle.ps_schema.specs.Laws.{WaysEnd, RefusedIsNone};

/// In a schema each way at one value ends within as many names as there are.
pub fn ways_end()
    ensures { WaysEnd }
{}

/// Definitions that are refused are no schema.
pub fn one_verdict()
    ensures { RefusedIsNone }
{}
