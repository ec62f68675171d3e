//! The hub that a configuration sets up.
ghost use Rattle.std.specs.Prelude.{◌≡◌, ◌≤◌, length, IfOk, IfErr, IsErrOf};
ghost use Rattle.out_ports.specs.Ports.{Rose};
ghost use Rattle.sc_config.specs.Configs.{IsConfigured};
ghost use Rattle.dsd_top.specs.Limits.{most_file};
ghost use Rattle.dsd_top.specs.declared.faults.Fault.TheVariants as fault;
ghost use Rattle.dsd_config.specs.Configs.{IsConfigIn, IsWhyTextRefused, IsWhyRefused};

use ds_space::Space;
use dsd_top::{FILE_BYTES, Fault};
use hub_core::Hub;
use lc_guard::{Guards, Predicate};
use lc_watch::{Behaviour, Watcher};
use out_ports::ports::{Host, HostFault};
use sc_config::{ConfigFault, configured};
use std::alloc::Global;

/// The hub that a text sets up.
fn hub_of<S: Space + Drop, F: Predicate + Drop, G: Behaviour + Drop>(
    alloc: Global,
    text: &[u8],
    predicate: F,
    behaviour: G,
) -> Result<Hub<S, Guards<F>, Watcher<G>>, Fault>
    ensures hub { IfOk result (λ hub. (length text.now ≤ most_file) × IsConfigured text.now hub) }
    ensures refused { IfErr result (IsWhyTextRefused text.now) }
{
    if text.len() > FILE_BYTES {
        return Err(Fault::BadConfig(0));
    }
    match configured(alloc, text, predicate, behaviour) {
        Ok(hub) => Ok(hub),
        Err(ConfigFault::Bad(n)) => Err(Fault::BadConfig(n)),
        Err(ConfigFault::NoMemory) => Err(Fault::NoMemory),
    }
}

/// The hub that the configuration in a file sets up.
pub fn hub_in<S: Space + Drop, F: Predicate + Drop, G: Behaviour + Drop, H: Host>(
    alloc: Global,
    file: &str,
    predicate: F,
    behaviour: G,
    host: &mut H,
) -> Result<Hub<S, Guards<F>, Watcher<G>>, Fault>
    ensures hub { IfOk result (IsConfigIn (H.files host.old) file.now) }
    ensures refused { IfErr result (IsWhyRefused (H.files host.old) file.now) }
    ensures read_failed { IsErrOf result fault.ReadFailed →
        Rose (H.file_faults host.old) (H.file_faults host.new) }
    ensures same_host { (H.files host.new ≡ H.files host.old)
        × (H.address host.new ≡ H.address host.old)
        × (H.gave host.new ≡ H.gave host.old) × (H.stops host.new ≡ H.stops host.old) }
    ensures lasting { (H.file_faults host.old ≤ H.file_faults host.new)
        × (H.port_faults host.old ≤ H.port_faults host.new)
        × (H.faults host.old ≤ H.faults host.new) }
{
    match host.file(alloc, file) {
        Ok(text) => hub_of(alloc, &text, predicate, behaviour),
        Err(HostFault::Failed) => Err(Fault::ReadFailed),
        Err(HostFault::NoMemory) => Err(Fault::NoMemory),
    }
}
