//! Laws of the definitions: each is the contract of a function that does nothing.
ghost use Rattle.std.specs.Prelude.{◌≡◌};
ghost use Rattle.ds_space.specs.Limits.{most_wanted_weight};
ghost use Rattle.ds_space.specs.Laws.{WantsAscend, NothingOfNothing, WantsAreTheRule};
ghost use Rattle.ds_space.specs.Laws.{ChangesAreExact};

use crate::limits::WANTED_WEIGHT;

/// What is wanted ascends strictly, and over nothing nothing is wanted.
pub fn wants_are_in_order()
    ensures whole { WantsAscend }
    ensures none { NothingOfNothing }
{}

/// What is wanted is what the rule says: for each observation among the values, and for each list
/// of captures of its pattern in one of them, the key of the two.
pub fn wants_are_the_rule()
    ensures { WantsAreTheRule }
{}

/// The changes that a space answers are fixed by the lists of what is wanted before and after.
pub fn changes_are_exact()
    ensures { ChangesAreExact }
{}

/// The limit is the one that the definitions have.
pub fn limit_is_as_defined()
    ensures { WANTED_WEIGHT ≡ most_wanted_weight }
{}
