//! The link, piece by piece.
ghost use Rattle.std.specs.Prelude.{◌≡◌, ◌≤◌, ◌<◌, ◌++◌, ℕ, List, [], IfErr};
ghost use Rattle.out_ports.specs.Dialled.{IsDialled};
ghost use Rattle.pv_binary.specs.OneOfThree.{AreBytes};
ghost use Rattle.dq_link.specs.Asked.{RestStays, rest_of};
ghost use Rattle.dq_link.specs.Asked.{AreHeard, HasAsked, CauseOf, NoneFell};
ghost use Rattle.dq_link.specs.Going.{Hears, GoesRound, OnlyHeard, SameLink};

use crate::asker::Asker;
use crate::dialling::{QueryEnd, bytes_have_courses};
use crate::packets::packets;
use crate::printing::say;
use crate::received::Received;
use out_ports::ports::{Host, Sink, Took};
use pv_value::NoMemory;
use rl_packet::Turn;
use std::alloc::Global;

/// How many bytes one call asks the link for at most.
const PIECE: usize = 4096;

/// Hears a piece more.
fn hear<H: Host>(host: &mut H, received: &mut Received) -> Result<(), QueryEnd>
    requires { IsDialled (H.link host.old) }
    ensures heard { (m : List ℕ)
        × AreBytes m
        × AreHeard m (H.link host.old).heard (H.link host.new).heard
        × Hears m received.old received.new (H.link host.new).heard result }
    ensures only { OnlyHeard (H.link host.old) (H.link host.new) }
    ensures cause { (outs : ℕ) → IfErr result (λ e.
        CauseOf e (H.link host.old) (H.link host.new) outs outs) }
    // What is told of files, ports and links that come stays.
    ensures rest { RestStays
        (rest_of (H.files host.old) (H.address host.old) (H.closed host.old) (H.gave host.old)
        (H.stops host.old) (H.file_faults host.old) (H.port_faults host.old) (H.faults host.old))
        (rest_of (H.files host.new) (H.address host.new) (H.closed host.new) (H.gave host.new)
        (H.stops host.new) (H.file_faults host.new) (H.port_faults host.new) (H.faults host.new)) }
{
    let room = received.room(PIECE);
    if room == 0 {
        return Err(QueryEnd::Spent);
    }
    let mut buf = [0; PIECE];
    match host.hear(&mut buf[..room]) {
        Took::Some(n) => match received.add(&buf[..n]) {
            Ok(()) => Ok(()),
            Err(NoMemory) => Err(QueryEnd::NoMemory),
        },
        Took::End => Err(QueryEnd::Left),
        Took::Failed => Err(QueryEnd::HearFailed),
    }
}

/// Reads all packets that are there, and hears a piece more.
fn round<H: Host, O: Sink>(
    alloc: Global,
    host: &mut H,
    out: &mut O,
    received: &mut Received,
    asker: Asker,
) -> Result<Asker, QueryEnd>
    requires { IsDialled (H.link host.old) }
    ensures heard { (m : List ℕ)
        × AreBytes m
        × AreHeard m (H.link host.old).heard (H.link host.new).heard
        × (AreBytes received.old.stream.rest → GoesRound m asker received.old received.new
        (O.held out.old) (O.held out.new) (H.link host.old).said.held (H.link host.new).said.held
        (H.link host.new).heard result) }
    ensures same { SameLink (H.link host.old) (H.link host.new) }
    ensures cause { IfErr result (λ e. CauseOf e (H.link host.old) (H.link host.new)
        (O.faults out.old) (O.faults out.new)) }
    ensures output_lasting { O.faults out.old ≤ O.faults out.new }
    ensures unfinished { O.finishes out.new ≡ O.finishes out.old }
    // What is told of files, ports and links that come stays.
    ensures rest { RestStays
        (rest_of (H.files host.old) (H.address host.old) (H.closed host.old) (H.gave host.old)
        (H.stops host.old) (H.file_faults host.old) (H.port_faults host.old) (H.faults host.old))
        (rest_of (H.files host.new) (H.address host.new) (H.closed host.new) (H.gave host.new)
        (H.stops host.new) (H.file_faults host.new) (H.port_faults host.new) (H.faults host.new)) }
{
    bytes_have_courses();
    let asker = packets(alloc, host, out, received, asker)?;
    hear(host, received)?;
    Ok(asker)
}

/// Says the first turn, and hears the server until the query ends.
pub(crate) fn ask<H: Host, O: Sink>(
    alloc: Global,
    host: &mut H,
    out: &mut O,
    opening: Turn,
    asker: Asker,
) -> QueryEnd
    requires { IsDialled (H.link host.old) }
    ensures asked { (b : List ℕ)
        × AreHeard b (H.link host.old).heard (H.link host.new).heard
        × HasAsked opening asker.client asker.left b (O.held out.old) (O.held out.new)
        (H.link host.old).said.held (H.link host.new).said.held (H.link host.new).heard result }
    ensures same { SameLink (H.link host.old) (H.link host.new) }
    ensures cause { CauseOf result (H.link host.old) (H.link host.new)
        (O.faults out.old) (O.faults out.new) }
    ensures output_lasting { O.faults out.old ≤ O.faults out.new }
    ensures unfinished { O.finishes out.new ≡ O.finishes out.old }
    // What is told of files, ports and links that come stays.
    ensures rest { RestStays
        (rest_of (H.files host.old) (H.address host.old) (H.closed host.old) (H.gave host.old)
        (H.stops host.old) (H.file_faults host.old) (H.port_faults host.old) (H.faults host.old))
        (rest_of (H.files host.new) (H.address host.new) (H.closed host.new) (H.gave host.new)
        (H.stops host.new) (H.file_faults host.new) (H.port_faults host.new) (H.faults host.new)) }
{
    bytes_have_courses();
    if let Err(end) = say(alloc, host, opening) {
        return end;
    }
    let mut asker = asker;
    let mut received = Received::new(alloc);
    loop {
        match round(alloc, host, out, &mut received, asker) {
            Ok(next) => asker = next,
            Err(end) => return end,
        }
    }
}
