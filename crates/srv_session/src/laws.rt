//! What a gate's history over the hub is, and whom a step calls.
ghost use Rattle.srv_session.specs.Laws.{HistoriesAreTheMachines};
ghost use Rattle.srv_session.specs.News.{ConnectionsAreSeen, WorkIsSeen};
ghost use Rattle.srv_session.specs.Called.{NewsAreCalled};

use ds_space::Space;
use hub_laws::the_live_have_names;
use lc_watch::Behaves;
use sr_pass::Judge;

/// A legal history over a hub goes on with the machine's run behind the steps that made this hub,
/// which may be none: the state that it leaves is the machine's after those steps and the
/// history's, each of them was allowed, and the replies to the history's are the machine's. What a
/// closing gate answers, and what a pass has seen at any time, is one.
pub fn histories_are_the_machines<S: Space + Drop, J: Judge + Drop, B: Behaves + Drop>()
    ensures { HistoriesAreTheMachines S J B }
{}

/// News are seen: whoever has something to do behind a step, and had nothing to do before it, is
/// known from the step and from the state that it leaves. A connection that isn't answered `Idle`
/// any more is closed by the step, or a batch waits for it, or its peer is still to be told a
/// fault, or no handle is left. And where work isn't answered `Idle`, a batch waits for a system
/// actor, or the server is to stop, or no handle is left. That holds in any state, whatever the
/// step.
pub fn news_are_seen()
    ensures connections { ConnectionsAreSeen }
    ensures workers { WorkIsSeen }
{}

/// News are called: behind each step of each run, a connection that has something to do and had
/// nothing to do before is at a place that the step calls ([`Replayed::called_by`]) or at which it
/// leaves work ([`Replayed::work`]); and so are the workers, where the system's actors have
/// something to do.
///
/// [`Replayed::called_by`]: turn_gate::Replayed::called_by
/// [`Replayed::work`]: turn_gate::Replayed::work
pub fn news_are_called()
    ensures { NewsAreCalled }
{
    the_live_have_names();
    news_are_seen();
}
