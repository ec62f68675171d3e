//! The packets of what was heard.
ghost use Rattle.std.specs.Prelude.{◌≡◌, ◌≤◌, ℕ, IfOk, IfErr};
ghost use Rattle.out_ports.specs.Dialled.{IsDialled};
ghost use Rattle.pv_binary.specs.OneOfThree.{AreBytes};
ghost use Rattle.dq_core.specs.Answers.{IsTaken, IsFaultOf};
ghost use Rattle.dq_core.specs.Reactions.{heard};
ghost use Rattle.dq_link.specs.Asked.{RestStays, rest_of};
ghost use Rattle.dq_link.specs.Asked.{CauseOf};
ghost use Rattle.dq_link.specs.Going.{end_of, Reacts, Takes, GoesOn, OnlySaid};

use crate::asker::Asker;
use crate::dialling::{QueryEnd, bytes_have_courses};
use crate::printing::{say, write_lines};
use crate::received::Received;
use dq_core::{Client, QueryFault, Reaction};
use out_ports::ports::{Host, Sink};
use rl_packet::Packet;
use rl_stream::Next;
use std::alloc::Global;

/// How a query ends for a fault of its client.
fn end_of(fault: QueryFault) -> QueryEnd
    ensures { result ≡ end_of fault }
{
    match fault {
        QueryFault::Rejected => QueryEnd::Rejected,
        QueryFault::ServerError => QueryEnd::Left,
        QueryFault::BadServer => QueryEnd::BadServer,
        QueryFault::NoMemory => QueryEnd::NoMemory,
    }
}

/// Writes the lines of a reaction, as far as they are to be written, and says what it asks. Answers
/// how many lines are still to be written.
fn react<H: Host, O: Sink>(
    alloc: Global,
    host: &mut H,
    out: &mut O,
    reaction: Reaction,
    left: u64,
) -> Result<u64, QueryEnd>
    requires { IsDialled (H.link host.old) }
    ensures reacts { Reacts reaction left result (O.held out.old) (O.held out.new)
        (H.link host.old).said.held (H.link host.new).said.held }
    ensures only { OnlySaid (H.link host.old) (H.link host.new) }
    ensures cause { IfErr result (λ e. CauseOf e (H.link host.old) (H.link host.new)
        (O.faults out.old) (O.faults out.new)) }
    ensures output_lasting { O.faults out.old ≤ O.faults out.new }
    ensures unfinished { O.finishes out.new ≡ O.finishes out.old }
    // What is told of files, ports and links that come stays.
    ensures rest { RestStays
        (rest_of (H.files host.old) (H.address host.old) (H.closed host.old) (H.gave host.old)
        (H.stops host.old) (H.file_faults host.old) (H.port_faults host.old) (H.faults host.old))
        (rest_of (H.files host.new) (H.address host.new) (H.closed host.new) (H.gave host.new)
        (H.stops host.new) (H.file_faults host.new) (H.port_faults host.new) (H.faults host.new)) }
{
    let Reaction { lines, ask } = reaction;
    let count = lines.len();
    if left <= count as u64 {
        write_lines(alloc, out, &lines.as_slice()[..left as usize])?;
        return Err(QueryEnd::Done);
    }
    write_lines(alloc, out, lines.as_slice())?;
    if let Some(turn) = ask {
        say(alloc, host, turn)?;
    }
    Ok(left - count as u64)
}

/// What a packet brings.
fn hear_packet(alloc: Global, client: Client, p: Packet) -> Result<(Client, Reaction), QueryFault>
    ensures taken { IfOk result (IsTaken (heard p client)) }
    ensures fault { IfErr result (IsFaultOf (heard p client)) }
{
    client.take(alloc, &p)
}

/// A packet was read.
fn packet<H: Host, O: Sink>(
    alloc: Global,
    host: &mut H,
    out: &mut O,
    p: Packet,
    asker: Asker,
) -> Result<Asker, QueryEnd>
    requires { IsDialled (H.link host.old) }
    ensures takes { Takes p asker result (O.held out.old) (O.held out.new)
        (H.link host.old).said.held (H.link host.new).said.held }
    ensures only { OnlySaid (H.link host.old) (H.link host.new) }
    ensures cause { IfErr result (λ e. CauseOf e (H.link host.old) (H.link host.new)
        (O.faults out.old) (O.faults out.new)) }
    ensures output_lasting { O.faults out.old ≤ O.faults out.new }
    ensures unfinished { O.finishes out.new ≡ O.finishes out.old }
    // What is told of files, ports and links that come stays.
    ensures rest { RestStays
        (rest_of (H.files host.old) (H.address host.old) (H.closed host.old) (H.gave host.old)
        (H.stops host.old) (H.file_faults host.old) (H.port_faults host.old) (H.faults host.old))
        (rest_of (H.files host.new) (H.address host.new) (H.closed host.new) (H.gave host.new)
        (H.stops host.new) (H.file_faults host.new) (H.port_faults host.new) (H.faults host.new)) }
{
    let Asker { client, left } = asker;
    match hear_packet(alloc, client, p) {
        Ok((client, reaction)) => {
            let left = react(alloc, host, out, reaction, left)?;
            Ok(Asker { client, left })
        }
        Err(fault) => Err(end_of(fault)),
    }
}

/// Reads all packets that are there.
pub(crate) fn packets<H: Host, O: Sink>(
    alloc: Global,
    host: &mut H,
    out: &mut O,
    received: &mut Received,
    asker: Asker,
) -> Result<Asker, QueryEnd>
    requires { IsDialled (H.link host.old) }
    ensures goes { AreBytes received.old.stream.rest → GoesOn asker received.old received.new
        (O.held out.old) (O.held out.new) (H.link host.old).said.held (H.link host.new).said.held
        result }
    ensures only { OnlySaid (H.link host.old) (H.link host.new) }
    ensures cause { IfErr result (λ e. CauseOf e (H.link host.old) (H.link host.new)
        (O.faults out.old) (O.faults out.new)) }
    ensures output_lasting { O.faults out.old ≤ O.faults out.new }
    ensures unfinished { O.finishes out.new ≡ O.finishes out.old }
    // What is told of files, ports and links that come stays.
    ensures rest { RestStays
        (rest_of (H.files host.old) (H.address host.old) (H.closed host.old) (H.gave host.old)
        (H.stops host.old) (H.file_faults host.old) (H.port_faults host.old) (H.faults host.old))
        (rest_of (H.files host.new) (H.address host.new) (H.closed host.new) (H.gave host.new)
        (H.stops host.new) (H.file_faults host.new) (H.port_faults host.new) (H.faults host.new)) }
{
    bytes_have_courses();
    let mut asker = asker;
    loop {
        let Ok(next) = received.first(alloc) else {
            return Err(QueryEnd::NoMemory);
        };
        match next {
            Next::Whole(p, size) => {
                received.read_off(size);
                asker = packet(alloc, host, out, p, asker)?;
            }
            Next::BadBytes(_, _) | Next::BadPacket => return Err(QueryEnd::BadServer),
            Next::Waits => return Ok(asker),
        }
    }
}
