//! Each handle is drawn once, and a turn takes all of its batch. What holds after every list of
//! steps whose callers saw to their conditions. Each law is the contract of a function that does
//! nothing, and is proved of the definitions alone.
#![tactic(auto)]

ghost use Rattle.hub_handles.specs.Laws.{HandlesAreDrawn, RowsAreDrawnOnce};
ghost use Rattle.hub_handles.specs.Laws.{AssertionsAreSentOnce, AssertionsAreNew, TurnsTakeAll};

/// Each handle that a state has was drawn: of its rows, of the events that wait, of what actors
/// have got and keep, and of the rows for which the handles of connections stand. It isn't said
/// that a row still stands for each.
pub fn handles_are_drawn()
    ensures { HandlesAreDrawn }
{}

/// A row that comes has a handle that wasn't drawn before. So what stands under one handle at two
/// times is one row, and once it has gone nothing stands under its handle again. It isn't said
/// that each handle that is drawn goes to a row.
pub fn rows_are_drawn_once()
    ensures { RowsAreDrawnOnce }
{}

/// No two assertions that a connection is sent have one handle, in whatever packets: their handles
/// ascend. And each handle of which it is told was drawn. It isn't said that a retraction is sent
/// once, or after its assertion.
pub fn assertions_are_sent_once()
    ensures { AssertionsAreSentOnce }
{}

/// A system actor hasn't got a row under the handle of an assertion that it takes, whatever came
/// before it in the batch.
pub fn assertions_are_new()
    ensures { AssertionsAreNew }
{}

/// Whoever takes its turn, and is still live after it, has got all of its first batch, in order;
/// of a system actor but for the assertions with which it would want too much. The other batches
/// wait as before, and what came since is behind them. It isn't said what else the turn does.
pub fn turns_take_all()
    ensures { TurnsTakeAll }
{}
