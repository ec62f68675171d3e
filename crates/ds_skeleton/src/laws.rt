//! Laws of the definitions: each is the contract of a function that does nothing.
ghost use Rattle.ds_skeleton.specs.Laws.{LeavesCountCaptures, CountsAreWants};

/// The count that the index has of a capture list, where an observation has its place, is the
/// number of the distinct values of which the observation's pattern captures that list.
pub fn leaves_count_captures()
    ensures { LeavesCountCaptures }
{}

/// What is wanted is what has a count where its observation has its place.
pub fn counts_are_wants()
    ensures { CountsAreWants }
{}
