//! The jobs of a server: a session for each half of a link, and workers.
ghost use Rattle.std.specs.Prelude.{◌≡◌, ◌≤◌, ◌^◌, ℕ, List, Bool};
ghost use Rattle.out_ports.specs.Ports.{raised};
ghost use Rattle.hub_machine.specs.declared.steps.Reply.{Reply as ReplyOf};
ghost use Rattle.srv_turns.specs.Rounds.{Pair};
ghost use Rattle.srv_turns.specs.Reading.{HasRead, AreTaken};
ghost use Rattle.srv_turns.specs.Writing.{HasWritten};
ghost use Rattle.srv_desk.specs.Jobs.{IsClosed, IsLeft, is_reader_out, is_writer_out};

use ds_space::Space;
use hub_machine::Step;
use lc_watch::Behaves;
use out_ports::ports::{Incoming, Outgoing, Run};
use sr_pass::Judge;
use srv_session::{Seated, Served};
use srv_turns::{ReaderEnd, Turns, WriterEnd, serve_reader, serve_worker, serve_writer};
use std::alloc::Global;
use std::sync::Wait;
use turn_gate::{GateFault, Replayed};

/// One half of a link.
#[derive(Drop)]
pub enum Half<R, W> {
    Reads(R),
    Writes(W),
}

/// Closes a connection of which a half ended for want of memory.
fn close<Rt: Wait, T: Turns>(rt: &Rt, connection: u32, turns: &mut T)
    ensures { IsClosed connection (T.pairs turns.old) (T.pairs turns.new) (T.spent turns.new)
        (T.lost turns.new) }
{
    match turns.commit(rt, Step::Close(connection)) {
        Ok(reply) => drop(reply),
        Err(GateFault::Spent) => {}
        Err(GateFault::NoMemory) => {}
    }
}

/// Commits what the peer of a connection sends, until its link ends or no more is taken.
///
/// A reader that ends for want of memory commits nothing more, so the connection is closed behind
/// it: else its writer would wait for ever, and with it the server.
pub fn serve_reads<Rt: Wait, R: Incoming, T: Turns>(
    rt: &Rt,
    alloc: Global,
    connection: u32,
    reads: &mut R,
    turns: &mut T,
) -> ReaderEnd
    ensures read { (b : List ℕ) × (between : List Pair) × (spent : Bool)
        × AreTaken b (R.left reads.old) (R.left reads.new) (R.given reads.old) (R.given reads.new)
        × HasRead connection b (T.pairs turns.old) between spent result
        × IsLeft connection (is_reader_out result) between (T.pairs turns.new) (T.spent turns.new)
        (T.lost turns.new) }
{
    let end = serve_reader(rt, alloc, connection, reads, turns);
    if end == ReaderEnd::NoMemory {
        close(rt, connection, turns);
    }
    end
}

/// Puts what a connection is sent, until it has ended, and finishes its link.
///
/// Behind a writer that ends for want of memory the connection is closed too.
pub fn serve_writes<Rt: Wait, W: Outgoing, T: Turns>(
    rt: &Rt,
    alloc: Global,
    connection: u32,
    writes: &mut W,
    turns: &mut T,
) -> WriterEnd
    requires { connection ≤ 2 ^ 31 }
    ensures written { (rs : List ReplyOf) × (between : List Pair) × (spent : Bool)
        × HasWritten connection rs (T.pairs turns.old) between spent (W.held writes.old)
        (W.held writes.new) result
        × IsLeft connection (is_writer_out result) between (T.pairs turns.new) (T.spent turns.new)
        (T.lost turns.new) }
    ensures finished { W.finishes writes.new ≡ raised 1 (W.finishes writes.old) }
{
    let end = serve_writer(rt, alloc, connection, writes, turns);
    if end == WriterEnd::NoMemory {
        close(rt, connection, turns);
    }
    end
}

/// A job that serves one half of the link of a connection: it commits what the peer sends
/// ([`serve_reads`]), or puts what the connection is sent ([`serve_writes`]).
#[derive(Drop)]
pub struct Session<'g, T: Replayed, R, W> {
    connection: u32,
    half: Half<R, W>,
    seat: Seated<'g, T>,
    alloc: Global,
    ghost few: { connection ≤ 2 ^ 31 },
}

impl<'g, T: Replayed, R, W> Session<'g, T, R, W> {
    pub(crate) fn new(
        alloc: Global,
        connection: u32,
        half: Half<R, W>,
        seat: Seated<'g, T>,
    ) -> Session<'g, T, R, W>
        requires { connection ≤ 2 ^ 31 }
        ensures connection { result.connection ≡ connection }
        ensures half { result.half ≡ half }
        ensures seat { result.seat ≡ seat.entry }
    {
        Session {
            connection,
            half,
            seat,
            alloc,
        }
    }
}

impl<
    'g,
    S: Space + Drop,
    J: Judge + Drop,
    B: Behaves + Drop,
    R: Incoming + Drop,
    W: Outgoing + Drop,
> Run for Session<'g, Served<S, J, B>, R, W> {
    fn run<Rt: Wait>(self, rt: &Rt) {
        let Session {
            connection,
            half,
            mut seat,
            alloc,
        } = self;
        match half {
            Half::Reads(mut reads) => {
                serve_reads(rt, alloc, connection, &mut reads, &mut seat);
            }
            Half::Writes(mut writes) => {
                serve_writes(rt, alloc, connection, &mut writes, &mut seat);
            }
        }
    }
}

/// A job that does the work of the system's actors, until the server stops.
#[derive(Drop)]
pub struct Worker<'g, T: Replayed> {
    alloc: Global,
    seat: Seated<'g, T>,
}

impl<'g, T: Replayed> Worker<'g, T> {
    /// A worker with this seat. The replies to its steps take this memory.
    pub fn new(alloc: Global, seat: Seated<'g, T>) -> Worker<'g, T>
        ensures { result.seat ≡ seat.entry }
    {
        Worker { alloc, seat }
    }
}

impl<'g, S: Space + Drop, J: Judge + Drop, B: Behaves + Drop> Run for Worker<'g, Served<S, J, B>> {
    fn run<Rt: Wait>(self, rt: &Rt) {
        let Worker { alloc, mut seat } = self;
        serve_worker(rt, alloc, &mut seat);
    }
}
