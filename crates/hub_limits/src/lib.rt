//! The limits, in words: who is counted for them, whom they bar, and whom they end. Each law is the
//! contract of a function that does nothing, and is proved of the definitions alone.
#![tactic(auto)]

ghost use Rattle.hub_limits.specs.Laws.{WhoIsCounted, BarredForACause, WatchesAreFine};
ghost use Rattle.hub_limits.specs.Laws.{EventsEndWhoIsToBlame, TurnsEndThoseOfTheirEvents};
ghost use Rattle.hub_limits.specs.Weighing.{RowsAreWeighed};

/// Who is counted: after every list of steps whose callers saw to their conditions, the connections
/// whose names are kept are exactly those that are live, each once, and they are 32 at most. One
/// more is refused as `Full` exactly where there are 32 and nothing else is against it. That a
/// connection is live doesn't say that its peer is still there.
pub fn the_live_are_counted()
    ensures { WhoIsCounted }
{}

/// Barred: a binding, a watcher or an arrival is barred exactly where one of its causes holds and
/// the numbers aren't used up; no other step is barred. It doesn't say which of several causes it
/// was: the reply names none.
pub fn barred_for_a_cause()
    ensures { BarredForACause }
{}

/// Whom an event ends: the one that is to blame for what would be wanted or sent, where that would
/// weigh more than 33,554,432, with that weight, where it is live and isn't to end already; and
/// nobody else. A turn ends those of its events, in their order. It doesn't say that they are over
/// once the step is done: that is the machine's end of a step.
pub fn events_end_who_is_to_blame()
    ensures event { EventsEndWhoIsToBlame }
    ensures turn { TurnsEndThoseOfTheirEvents }
{}

/// Watches: after every list of steps whose callers saw to their conditions each watcher that was
/// made watches a pattern at one dataspace, has a behaviour that is known and asserts at a
/// dataspace, and no dataspace is both watched and asserted at. It doesn't say that the watcher is
/// still live.
pub fn watches_are_fine()
    ensures { WatchesAreFine }
{}

/// Within a packet: in each state to which allowed steps lead, after any events of a packet against
/// which there is no cause, what is summed of the connection's rows is what those rows weigh that
/// would stand then, and no more than 4,194,304. It says nothing of what waits (the backlog).
pub fn rows_are_weighed_within_a_packet()
    ensures { RowsAreWeighed }
{}
