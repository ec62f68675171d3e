//! What a run leaves.
ghost use Rattle.std.specs.Prelude.{◌≡◌, ℕ, IfOk, IfErr};
ghost use Rattle.sc_script.specs.Runs.{Running, spelled as spelled_bytes};
ghost use Rattle.sc_script.specs.Keeping.{IsAt};
ghost use Rattle.sc_script.specs.Leavings.{connection_after, connections_after, ran_of};
ghost use Rattle.sc_script.specs.Scripts.{LeavesAs, StopsAt};

use crate::faults::ScriptFault;
use crate::runs::Run;
use crate::scripts::run_of;
use ds_space::Space;
use lc_guard::Predicate;
use lc_watch::{Behaves, Behaviour};
use pv_value::{Blob, NoMemory};
use rl_packet::{Packet, held, write_packet_into};
use sc_events::Form;
use sc_report::{Connection, Ran};
use sr_pass::Judge;
use std::alloc::Global;

/// The written spellings of packets, one behind another.
fn spelled(alloc: Global, packets: &[Packet]) -> Result<Blob, NoMemory>
    ensures { IfOk result (λ bytes. bytes ≡ spelled_bytes packets.now) }
{
    let mut bytes = Vec::new(alloc);
    for packet in packets {
        write_packet_into(&mut bytes, packet)?;
    }
    Blob::from_vec(bytes)
}

/// What a run leaves of the connection of this number.
fn left_of<S: Space + Drop, J: Judge + Drop, B: Behaves + Drop>(
    alloc: Global,
    run: &Run<S, J, B>,
    number: u32,
) -> Result<Connection, NoMemory>
    ensures { IfOk result (λ c. (r : Running) → IsAt r run.now
        → c ≡ connection_after r.schema r.steps number) }
{
    let packets = run.outs.of(number);
    Ok(Connection {
        live: run.hub.live(number),
        out: spelled(alloc, packets)?,
        held: held(alloc, packets)?,
    })
}

/// The connections that have come, ascending.
fn connections<S: Space + Drop, J: Judge + Drop, B: Behaves + Drop>(
    alloc: Global,
    run: &Run<S, J, B>,
) -> Result<Vec<Connection>, NoMemory>
    ensures { IfOk result (λ cs. (r : Running) → IsAt r run.now
        → cs.items ≡ connections_after r.schema r.steps run.now.state.world.opened) }
{
    let mut connections = Vec::new(alloc);
    for earlier in 0..run.hub.opened() {
        connections.push(left_of(alloc, run, earlier + 1)?)?;
    }
    Ok(connections)
}

/// What a run leaves.
fn left_by<S: Space + Drop, J: Judge + Drop, B: Behaves + Drop>(
    alloc: Global,
    run: &Run<S, J, B>,
) -> Result<Ran, NoMemory>
    ensures { IfOk result (λ ran. (r : Running) → IsAt r run.now → ran ≡ ran_of r.schema r.steps) }
{
    Ok(Ran {
        pending: run.hub.pending(),
        connections: connections(alloc, run)?,
    })
}

/// What the run of the script leaves that an input is, over any body of a dataspace, or the first
/// cause that stops it. The input's length is looked at first, and whether a text is UTF-8; then
/// its values in order, each done before the next is judged. Guards judge by the schema that the
/// first value gives, through the one function, and watchers act through the other.
pub fn run_script<S: Space + Drop, F: Predicate + Drop, G: Behaviour + Drop>(
    alloc: Global,
    bytes: &[u8],
    form: Form,
    predicate: F,
    behaviour: G,
) -> Result<Ran, ScriptFault>
    ensures run { IfOk result (LeavesAs form bytes.now) }
    ensures stop { IfErr result (StopsAt form bytes.now) }
{
    let run = run_of::<S, F, G>(alloc, bytes, form, predicate, behaviour)?;
    Ok(left_by(alloc, &run)?)
}
