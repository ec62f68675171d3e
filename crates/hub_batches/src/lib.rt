//! Batches: what a turn takes out of its actor's inbox, and what each is told in it, in order. Each
//! law is the contract of a function that does nothing, and is proved of the definitions alone.
#![tactic(auto)]

ghost use Rattle.hub_batches.specs.Laws.{ATurnTakesOneBatch, AStepTakesOneBatch};
ghost use Rattle.hub_batches.specs.Laws.{EventsTellInOrder, GotInOrder, RowsGoFirst};
ghost use Rattle.hub_batches.specs.Laws.{EachSideAscends, RetractionsTellNothingBack};

/// A turn takes exactly the first batch out of its actor's inbox, and no other out of any. Each
/// live actor to which it tells something, its own among them, gets that as one batch, in order,
/// behind those that wait; a connection's turn tells nothing. Where none waits, or the actor isn't
/// live, nothing happens. At the end of its step inboxes only grow, each by at most one batch of
/// retractions of each of those who end there. It isn't said who ends, nor in which order.
pub fn a_turn_takes_one_batch()
    ensures turn { ATurnTakesOneBatch }
    ensures step { AStepTakesOneBatch }
{}

/// What a system actor's turn tells another is what each event of its batch tells, one after the
/// other: a message what is captured of it over what the actor has got by then, an assertion or
/// retraction what it changes of the actor's own rows, a sync its answer. An event for which its
/// maker ends tells nothing. In which facets rows come isn't said.
pub fn events_tell_in_order()
    ensures told { EventsTellInOrder }
    ensures got { GotInOrder }
{}

/// Of an assertion or a retraction the rows go first, in the order of their keys, and then others
/// come, in theirs. It is said of one event; a later one of the batch may take back what an
/// earlier one asserted.
pub fn rows_go_before_others_come()
    ensures rows { RowsGoFirst }
    ensures sides { EachSideAscends }
{}

/// A turn over a batch of retractions alone takes it out of its actor's inbox, to which nothing
/// comes in its step, by the turn or by an ending.
pub fn retractions_tell_nothing_back()
    ensures { RetractionsTellNothingBack }
{}
