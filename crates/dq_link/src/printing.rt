//! Lines on the way out, and turns on the way to the server.
ghost use Rattle.std.specs.Prelude.{◌≡◌, ◌≤◌, ◌∷◌, []};
ghost use Rattle.out_ports.specs.Dialled.{IsDialled};
ghost use Rattle.dq_core.specs.Lines.{line_text, lines_text};
ghost use Rattle.dq_link.specs.Asked.{RestStays, rest_of};
ghost use Rattle.dq_link.specs.Asked.{spelled};
ghost use Rattle.dq_link.specs.Going.{Written, Said, OnlySaid};

use crate::dialling::QueryEnd;
use dq_core::Line;
use out_ports::ports::{Host, Sink};
use out_ports::streams::{say_all, write_all};
use pv_value::NoMemory;
use rl_packet::{Packet, Turn, write_packet_into};
use std::alloc::Global;

/// Writes one line.
fn write_line<O: Sink>(alloc: Global, out: &mut O, line: &Line) -> Result<(), QueryEnd>
    ensures written { Written result (O.held out.old) (O.held out.new) (line_text line.now)
        (O.faults out.old) (O.faults out.new) }
    ensures lasting { O.faults out.old ≤ O.faults out.new }
    ensures unfinished { O.finishes out.new ≡ O.finishes out.old }
{
    let mut text = Vec::new(alloc);
    if let Err(NoMemory) = line.write_into(&mut text) {
        return Err(QueryEnd::NoMemory);
    }
    match write_all(out, &text) {
        Ok(()) => Ok(()),
        Err(_) => Err(QueryEnd::OutputFailed),
    }
}

/// Writes lines, one after another.
pub(crate) fn write_lines<O: Sink>(
    alloc: Global,
    out: &mut O,
    lines: &[Line],
) -> Result<(), QueryEnd>
    ensures written { Written result (O.held out.old) (O.held out.new) (lines_text lines.now)
        (O.faults out.old) (O.faults out.new) }
    ensures lasting { O.faults out.old ≤ O.faults out.new }
    ensures unfinished { O.finishes out.new ≡ O.finishes out.old }
{
    for line in lines {
        write_line(alloc, out, line)?;
    }
    Ok(())
}

/// Says a turn.
pub(crate) fn say<H: Host>(alloc: Global, host: &mut H, turn: Turn) -> Result<(), QueryEnd>
    requires { IsDialled (H.link host.old) }
    ensures said { Said result (H.link host.old).said (H.link host.new).said (spelled (turn ∷ [])) }
    ensures only { OnlySaid (H.link host.old) (H.link host.new) }
    // What is told of files, ports and links that come stays.
    ensures rest { RestStays
        (rest_of (H.files host.old) (H.address host.old) (H.closed host.old) (H.gave host.old)
        (H.stops host.old) (H.file_faults host.old) (H.port_faults host.old) (H.faults host.old))
        (rest_of (H.files host.new) (H.address host.new) (H.closed host.new) (H.gave host.new)
        (H.stops host.new) (H.file_faults host.new) (H.port_faults host.new) (H.faults host.new)) }
{
    let mut bytes = Vec::new(alloc);
    if let Err(NoMemory) = write_packet_into(&mut bytes, &Packet::Turn(turn)) {
        return Err(QueryEnd::NoMemory);
    }
    match say_all(host, &bytes) {
        Ok(()) => Ok(()),
        Err(_) => Err(QueryEnd::SayFailed),
    }
}
