//! No cascade: whoever ends takes nobody along. What holds after every list of steps whose callers
//! saw to their conditions. Each law is the contract of a function that does nothing, and is proved
//! of the definitions alone.
#![tactic(auto)]

ghost use Rattle.hub_cascade.specs.Laws.{NobodyIsOver, AnEndingEndsOne};
ghost use Rattle.hub_cascade.specs.Laws.{ATurnEndsAtMostItself, RetractionsEndNobody};

/// Between steps no more is held and waits for a live connection than may be.
pub fn nobody_is_over()
    ensures { NobodyIsOver }
{}

/// A connection that closes, that sends what is no packet, or whose packet is refused ends, and
/// nobody else does; others are told of retractions alone.
pub fn an_ending_ends_one()
    ensures { AnEndingEndsOne }
{}

/// A connection's turn ends at most the connection itself, and that only where it is refused;
/// others are told of retractions at most.
pub fn a_turn_ends_at_most_itself()
    ensures { ATurnEndsAtMostItself }
{}

/// A turn over a batch of retractions alone ends nobody, whoever takes it, and others are told of
/// retractions at most.
pub fn retractions_end_nobody()
    ensures { RetractionsEndNobody }
{}
