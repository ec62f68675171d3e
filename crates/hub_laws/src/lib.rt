//! Laws of the machine over all its runs: what holds after every list of steps whose callers saw to
//! their conditions; and of single steps, and of what is posted and said in them, from any state.
//! Each is the contract of a function that does nothing, and is proved of the definitions alone:
//! `specs/Laws.antt` has most of them, `specs/Posting.antt` and `specs/Saying.antt` the others.
//!
//! `hub_authority` walks through a step too, for what it shows of one: what both need is in
//! `hub_valid`. `hub_authority` and `hub_cascade` take some lemmas from the proofs here.
#![tactic(auto)]

ghost use Rattle.hub_laws.specs.Laws.{Delivery, SettledDelivery, Wants, Endings};
ghost use Rattle.hub_laws.specs.Laws.{Holdings, Notes, SettledHoldings, Presence, Handles};
ghost use Rattle.hub_laws.specs.Laws.{Refusals, WhoEnds, WhichWatchersEnd, EndsAtOnce};
ghost use Rattle.hub_laws.specs.Laws.{EndingsSpareOthers};
ghost use Rattle.hub_laws.specs.Posting.{PostedOnce, AreOutboxes};
ghost use Rattle.hub_laws.specs.Saying.{SaysMessages, AnswersSyncs, MessagesArrive};

/// Delivery: what a live actor has got, followed by the events of its inbox, is what stands at it.
pub fn what_stands_is_delivered()
    ensures { Delivery }
{}

/// Settled delivery: where nothing is pending, what a live actor has got is what stands at it.
pub fn what_stands_is_got()
    ensures { SettledDelivery }
{}

/// Wants: the rows that a live system actor owns are those of what it wants by what it has got, one
/// for each key that gets through, and no others, but for the observation that a watcher makes
/// first.
pub fn rows_are_wants()
    ensures { Wants }
{}

/// Endings: no row has an owner that isn't live, and nothing is kept of an ended connection, nor
/// what an ended watcher has got.
pub fn endings_leave_nothing()
    ensures { Endings }
{}

/// Holdings: what each live connection holds by the packets that it was sent is what it has got, by
/// its exports of now; and it notes exactly which numbers the rows mention that it has got.
pub fn holdings_are_what_was_got()
    ensures holdings { Holdings }
    ensures notes { Notes }
{}

/// Settled holdings: where nothing is pending, each live connection holds exactly what is captured
/// from scratch, each pair of an object and a value as often.
pub fn settled_holdings_are_from_scratch()
    ensures { SettledHoldings }
{}

/// Presence: the gatekeeper and the dataspaces are always live, a live watcher was made, a live
/// connection has names, and faults are kept of ended connections alone.
pub fn the_live_have_names()
    ensures { Presence }
{}

/// The next handle never goes back.
pub fn handles_never_go_back()
    ensures { Handles }
{}

/// Refusals: a connection that is refused isn't live, its fault waits for it, no handle was drawn,
/// and all rows stand but its own and those of others that the step's end ended.
pub fn refusals_leave_their_fault()
    ensures { Refusals }
{}

/// Who ends: the connection that a step closes or refuses, those that its turn names, and those for
/// which too much is held and waits; these are weighed as the step leaves them, whoever else ends.
/// A watcher ends only where a turn names it.
pub fn nobody_else_ends()
    ensures ends { WhoEnds }
    ensures watchers { WhichWatchersEnd }
    ensures weighed { EndsAtOnce }
{}

/// An ending ends nobody else: what has come to another actor and waits for it counts as before.
pub fn endings_spare_others()
    ensures { EndingsSpareOthers }
{}

/// What is posted: each live actor that is told something gets it as one batch, in its order,
/// behind those that wait for it; and the events of each turn are posted so.
pub fn posted_as_one_batch()
    ensures once { PostedOnce }
    ensures outboxes { AreOutboxes }
{}

/// Messages: of one that comes to a dataspace each distinct observation is told what it captures,
/// as the caveats of its reference let it pass, and nobody else is told anything; the gatekeeper
/// and watchers drop it; a sync is answered.
pub fn messages_go_to_observers()
    ensures messages { SaysMessages }
    ensures syncs { AnswersSyncs }
    ensures arrive { MessagesArrive }
{}
