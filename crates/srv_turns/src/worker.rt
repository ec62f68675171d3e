//! A worker, which does the work of the system's actors.
ghost use Rattle.std.specs.Prelude.{◌≡◌, List, ◌++◌};
ghost use Rattle.hub_machine.specs.declared.steps.Reply.{Reply as ReplyOf};
ghost use Rattle.srv_turns.specs.Rounds.{worked};
ghost use Rattle.srv_turns.specs.Working.{HasWorked};
ghost use Rattle.srv_turns.specs.Pausing.{after_work, after_row, end_at};

use crate::committing::{Behind, Turns};
use crate::rows::Row;
use hub_machine::{Reply, Step};
use std::alloc::Global;
use std::sync::Wait;
use turn_gate::GateFault;

/// Why a worker ended.
#[derive(Clone, Copy, Debug, PartialEq, Eq)]
pub enum WorkerEnd {
    /// The server stops, and nothing is left to do.
    Stopped,
    /// The numbers of handles are used up.
    Worn,
    /// As many steps stand as are taken.
    Spent,
    /// Memory ran out.
    NoMemory,
}

/// What a worker does behind a reply.
#[derive(Clone, Copy)]
enum After {
    More,
    Rest,
    Over(WorkerEnd),
}

/// What a worker does behind this reply to its work.
fn after_work(reply: Reply) -> After
    ensures { result ≡ after_work reply }
{
    match reply {
        Reply::Idle => After::Rest,
        Reply::Halted => After::Over(WorkerEnd::Stopped),
        Reply::Worn => After::Over(WorkerEnd::Worn),
        _ => After::More,
    }
}

/// What a worker does behind a row of its work with this last reply.
fn after_row(last: Option<Reply>) -> After
    ensures { result ≡ after_row last }
{
    match last {
        Some(reply) => after_work(reply),
        None => After::More,
    }
}

/// How a worker ends where no step was done.
fn end_at(fault: GateFault) -> WorkerEnd
    ensures { result ≡ end_at fault }
{
    match fault {
        GateFault::Spent => WorkerEnd::Spent,
        GateFault::NoMemory => WorkerEnd::NoMemory,
    }
}

/// Commits rows of work until the server stops. Where nothing is to be done it rests.
fn work<Rt: Wait, T: Turns>(rt: &Rt, row: &mut Row, turns: &mut T) -> WorkerEnd
    ensures { (rs : List ReplyOf) × (T.pairs turns.new ≡ T.pairs turns.old ++ worked rs)
        × HasWorked rs (T.spent turns.new) result }
{
    for _ in rt.forever() {
        match row.commit(rt, Step::Work, Behind::Work, turns) {
            Ok(()) => match after_row(row.last()) {
                After::More => {}
                After::Rest => turns.rest(rt),
                After::Over(end) => return end,
            },
            Err(fault) => return end_at(fault),
        }
    }
    unreachable!()
}

/// Commits work until the server stops, up to 33 steps in one hold. Where nothing is to be done it
/// rests.
pub fn serve_worker<Rt: Wait, T: Turns>(rt: &Rt, alloc: Global, turns: &mut T) -> WorkerEnd
    ensures { (rs : List ReplyOf) × (T.pairs turns.new ≡ T.pairs turns.old ++ worked rs)
        × HasWorked rs (T.spent turns.new) result }
{
    let Ok(mut row) = Row::new(alloc) else {
        return WorkerEnd::NoMemory;
    };
    work(rt, &mut row, turns)
}
