//! Serving, and telling how it went.
ghost use Rattle.std.specs.Prelude.{◌≡◌, ◌≢◌, ◌≤◌, ◌+◌, ◌++◌, Some, decimal};
ghost use Rattle.std.specs.Prelude.{IfOk, IfErr, OnOk, OnErr, IsErrOf};
ghost use Rattle.out_ports.specs.Ports.{Rose, Appends, AppendsFront};
ghost use Rattle.dsd_top.specs.declared.faults.Fault.TheVariants as fault;
ghost use Rattle.dsd_serve.specs.Limits.{most_links};
ghost use Rattle.dsd_serve.specs.Causes.{IsWhyUnserved, status_for};
ghost use Rattle.dsd_serve.specs.Causes.{IsWritingFault, IsListeningFault, IsServingFault};
ghost use Rattle.dsd_serve.specs.Serving.{AreAccepts, IsServed, served_line, rest_in};
ghost use Rattle.dsd_serve.specs.declared.unserved.Unserved.TheVariants.{Of, Unheard};

use crate::unserved::Unserved;
use crate::words::Serving;
use ds_skeleton::Skeleton;
use dsd_config::hub_in;
use dsd_top::{Conformance, Fault};
use hub_core::Hub;
use itoa::Buffer;
use lc_guard::Guards;
use lc_watch::{Table, Watcher};
use out_ports::ports::{Host, HostFault, Sink};
use out_ports::streams::write_all;
use pv_value::{NoMemory, push_bytes};
use srv_loop::Tally;
use srv_serve::serve;
use std::alloc::Global;
use std::sync::Wait;
use std::thread::Threads;

/// Appends a number in decimal digits.
fn push_number(line: &mut Vec<u8>, number: u64) -> Result<(), NoMemory>
    ensures { OnOk result (line.new.items ≡ line.old.items ++ decimal number) }
{
    let mut buffer = Buffer::new();
    push_bytes(line, buffer.format(number).as_bytes())
}

/// The line of how many links were served, and how many weren't or failed to come.
fn served_line(alloc: Global, served: u64, rest: u64) -> Result<Vec<u8>, NoMemory>
    ensures { IfOk result (λ line. line.items ≡ served_line served rest) }
{
    let mut line = Vec::new(alloc);
    push_bytes(&mut line, b"<served ")?;
    push_number(&mut line, served)?;
    push_bytes(&mut line, b" ")?;
    push_number(&mut line, rest)?;
    push_bytes(&mut line, b">\n")?;
    Ok(line)
}

/// How many links weren't served, and accepts that failed.
fn rest_of(tally: &Tally) -> u64
    ensures { result ≡ tally.now.full + tally.now.failed + tally.now.unserved }
{
    u64::from(tally.full) + u64::from(tally.failed) + u64::from(tally.unserved)
}

/// Writes the line of how links fared.
fn write_tally<O: Sink>(alloc: Global, tally: &Tally, out: &mut O) -> Result<(), Fault>
    ensures written { OnOk result (Appends (O.held out.old) (O.held out.new)
        (served_line tally.now.served (rest_in tally.now))) }
    ensures cut { IsErrOf result fault.WriteFailed →
        AppendsFront (O.held out.old) (O.held out.new)
        (served_line tally.now.served (rest_in tally.now)) }
    ensures cause { IfErr result IsWritingFault }
    ensures write_failed { IsErrOf result fault.WriteFailed →
        Rose (O.faults out.old) (O.faults out.new) }
    ensures unwritten { IsErrOf result fault.NoMemory → O.held out.new ≡ O.held out.old }
    ensures unfinished { O.finishes out.new ≡ O.finishes out.old }
{
    let Ok(line) = served_line(alloc, u64::from(tally.served), rest_of(tally)) else {
        return Err(Fault::NoMemory);
    };
    write_all(out, &line)?;
    Ok(())
}

/// Listens at the address.
fn listen<H: Host>(alloc: Global, address: &str, host: &mut H) -> Result<(), Unserved>
    ensures open { OnOk result (H.address host.new ≡ Some address.now) }
    ensures closed { OnErr result (H.address host.new ≡ H.address host.old) }
    ensures cause { IfErr result IsListeningFault }
    ensures failed { IsErrOf result Unheard →
        Rose (H.port_faults host.old) (H.port_faults host.new) }
    ensures same { (H.files host.new ≡ H.files host.old)
        × (H.gave host.new ≡ H.gave host.old) × (H.stops host.new ≡ H.stops host.old) }
    ensures lasting { (H.file_faults host.old ≤ H.file_faults host.new)
        × (H.port_faults host.old ≤ H.port_faults host.new)
        × (H.faults host.old ≤ H.faults host.new) }
{
    match host.port(alloc, address) {
        Ok(()) => Ok(()),
        Err(HostFault::Failed) => Err(Unserved::Unheard),
        Err(HostFault::NoMemory) => Err(Unserved::Of(Fault::NoMemory)),
    }
}

/// Serves over a hub, and writes how it went.
pub(crate) fn serve_hub<Rt: Threads + Wait + Sync, O: Sink, H: Host>(
    rt: &Rt,
    alloc: Global,
    hub: Hub<Skeleton, Guards<Conformance>, Watcher<Table>>,
    serving: &Serving,
    out: &mut O,
    host: &mut H,
) -> Result<(), Unserved>
where
    H::R: Send + Drop,
    H::W: Send + Drop,
    requires { serving.now.connections ≤ most_links }
    ensures done { OnOk result (IsServed Appends
        (λ a f. AreAccepts serving.now.connections a f (H.gave host.old) (H.gave host.new)
        (H.stops host.old) (H.stops host.new) (H.faults host.old) (H.faults host.new))
        (O.held out.old) (O.held out.new)) }
    ensures cut { IsErrOf result (Of fault.WriteFailed) → IsServed AppendsFront
        (λ a f. AreAccepts serving.now.connections a f (H.gave host.old) (H.gave host.new)
        (H.stops host.old) (H.stops host.new) (H.faults host.old) (H.faults host.new))
        (O.held out.old) (O.held out.new) }
    ensures place { OnOk result (H.address host.new ≡ Some serving.now.address) }
    ensures place_too { IsErrOf result (Of fault.WriteFailed) →
        H.address host.new ≡ Some serving.now.address }
    ensures cause { IfErr result IsServingFault }
    ensures listen_failed { IsErrOf result Unheard →
        Rose (H.port_faults host.old) (H.port_faults host.new) }
    ensures write_failed { IsErrOf result (Of fault.WriteFailed) →
        Rose (O.faults out.old) (O.faults out.new) }
    ensures unwritten { IfErr result (λ why. status_for why ≢ 4 →
        O.held out.new ≡ O.held out.old) }
    ensures unfinished { O.finishes out.new ≡ O.finishes out.old }
    ensures unopened { IfErr result (λ why. status_for why ≢ 4 → status_for why ≢ 5 →
        (H.address host.new ≡ H.address host.old)
        × (H.gave host.new ≡ H.gave host.old) × (H.stops host.new ≡ H.stops host.old)) }
    ensures same_files { H.files host.new ≡ H.files host.old }
    ensures lasting { (H.file_faults host.old ≤ H.file_faults host.new)
        × (H.port_faults host.old ≤ H.port_faults host.new)
        × (H.faults host.old ≤ H.faults host.new) }
{
    listen(alloc, serving.address, host)?;
    let tally = serve(rt, alloc, hub, host, serving.workers, serving.connections)?;
    write_tally(alloc, &tally, out)?;
    Ok(())
}

/// Serves by the configuration in the file, and writes how it went.
pub(crate) fn serve_and_tell<Rt: Threads + Wait + Sync, O: Sink, H: Host>(
    rt: &Rt,
    alloc: Global,
    serving: &Serving,
    out: &mut O,
    host: &mut H,
) -> Result<(), Unserved>
where
    H::R: Send + Drop,
    H::W: Send + Drop,
    requires { serving.now.connections ≤ most_links }
    ensures done { OnOk result (IsServed Appends
        (λ a f. AreAccepts serving.now.connections a f (H.gave host.old) (H.gave host.new)
        (H.stops host.old) (H.stops host.new) (H.faults host.old) (H.faults host.new))
        (O.held out.old) (O.held out.new)) }
    ensures cut { IsErrOf result (Of fault.WriteFailed) → IsServed AppendsFront
        (λ a f. AreAccepts serving.now.connections a f (H.gave host.old) (H.gave host.new)
        (H.stops host.old) (H.stops host.new) (H.faults host.old) (H.faults host.new))
        (O.held out.old) (O.held out.new) }
    ensures place { OnOk result (H.address host.new ≡ Some serving.now.address) }
    ensures place_too { IsErrOf result (Of fault.WriteFailed) →
        H.address host.new ≡ Some serving.now.address }
    ensures cause { IfErr result (IsWhyUnserved serving.now (H.files host.old)) }
    ensures read_failed { IsErrOf result (Of fault.ReadFailed) →
        Rose (H.file_faults host.old) (H.file_faults host.new) }
    ensures listen_failed { IsErrOf result Unheard →
        Rose (H.port_faults host.old) (H.port_faults host.new) }
    ensures write_failed { IsErrOf result (Of fault.WriteFailed) →
        Rose (O.faults out.old) (O.faults out.new) }
    ensures unwritten { IfErr result (λ why. status_for why ≢ 4 →
        O.held out.new ≡ O.held out.old) }
    ensures unfinished { O.finishes out.new ≡ O.finishes out.old }
    ensures unopened { IfErr result (λ why. status_for why ≢ 4 → status_for why ≢ 5 →
        (H.address host.new ≡ H.address host.old)
        × (H.gave host.new ≡ H.gave host.old) × (H.stops host.new ≡ H.stops host.old)) }
    ensures same_files { H.files host.new ≡ H.files host.old }
    ensures lasting { (H.file_faults host.old ≤ H.file_faults host.new)
        × (H.port_faults host.old ≤ H.port_faults host.new)
        × (H.faults host.old ≤ H.faults host.new) }
{
    let hub = hub_in::<Skeleton, Conformance, Table, H>(
        alloc,
        serving.file,
        Conformance,
        Table,
        host,
    )?;
    serve_hub(rt, alloc, hub, serving, out, host)
}
