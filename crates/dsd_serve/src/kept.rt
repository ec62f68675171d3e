//! Serving by kept bindings.
ghost use Rattle.std.specs.Prelude.{◌≡◌, ◌≢◌, ◌≤◌, [], ◌∷◌, Some, Contains};
ghost use Rattle.std.specs.Prelude.{IfOk, IfErr, OnOk, IsErrOf};
ghost use Rattle.out_ports.specs.Ports.{Rose, Appends, AppendsFront};
ghost use Rattle.dsd_top.specs.Commands.{texts};
ghost use Rattle.dsd_top.specs.declared.faults.Fault.TheVariants as fault;
ghost use Rattle.dsd_serve.specs.Limits.{most_links};
ghost use Rattle.dsd_serve.specs.Causes.{status_for};
ghost use Rattle.dsd_serve.specs.Kept.{kept_statuses, IsKeptConfig, IsWhyUnbound};
ghost use Rattle.dsd_serve.specs.Kept.{IsWhyUnservedKept, IsUnservedKept, SaysWhyKept};
ghost use Rattle.dsd_serve.specs.Serving.{AreAccepts, IsServed, AskToServeKept, IfServingKept};
ghost use Rattle.dsd_serve.specs.declared.unserved.Unserved.TheVariants.{Of, Unheard, KeeperFailed};

use crate::serving::serve_hub;
use crate::unserved::{Unserved, tell_why};
use crate::words::{Serving, find_serving};
use ds_skeleton::Skeleton;
use ds_space::Space;
use dsd_top::{Conformance, Fault, refuse};
use hub_core::Hub;
use kp_keeper::Keeping;
use lc_guard::{Guards, Predicate};
use lc_watch::{Behaviour, Table, Watcher};
use out_ports::ports::{Host, Sink};
use sc_kept::configured;
use std::alloc::Global;
use std::sync::Wait;
use std::thread::Threads;

/// The hub that the bindings set up which a file keeps.
fn hub_kept<S: Space + Drop, F: Predicate + Drop, G: Behaviour + Drop, K: Keeping>(
    file: &str,
    predicate: F,
    behaviour: G,
    keeper: &mut K,
) -> Result<Hub<S, Guards<F>, Watcher<G>>, Unserved>
    ensures hub { IfOk result (IsKeptConfig (K.kept keeper.old)) }
    ensures cause { IfErr result (IsWhyUnbound (K.kept keeper.old)) }
    ensures keeper_failed { IsErrOf result KeeperFailed →
        Rose (K.faults keeper.old) (K.faults keeper.new) }
    ensures place { OnOk result (K.file keeper.new ≡ Some file.now) }
    ensures same { K.kept keeper.new ≡ K.kept keeper.old }
    ensures lasting { K.faults keeper.old ≤ K.faults keeper.new }
{
    keeper.keep(file)?;
    let records = keeper.list()?;
    Ok(configured(&records, predicate, behaviour)?)
}

/// Serves by the bindings that the file keeps, and writes how it went. The keeper isn't called once
/// the server listens.
fn serve_kept<Rt: Threads + Wait + Sync, O: Sink, H: Host, K: Keeping>(
    rt: &Rt,
    alloc: Global,
    serving: &Serving,
    out: &mut O,
    host: &mut H,
    keeper: &mut K,
) -> Result<(), Unserved>
where
    H::R: Send + Drop,
    H::W: Send + Drop,
    requires { serving.now.connections ≤ most_links }
    ensures done { OnOk result (IsServed Appends
        (λ a f. AreAccepts serving.now.connections a f (H.gave host.old) (H.gave host.new)
        (H.stops host.old) (H.stops host.new) (H.faults host.old) (H.faults host.new))
        (O.held out.old) (O.held out.new)) }
    ensures cut { IsErrOf result (Of fault.WriteFailed) → IsServed AppendsFront
        (λ a f. AreAccepts serving.now.connections a f (H.gave host.old) (H.gave host.new)
        (H.stops host.old) (H.stops host.new) (H.faults host.old) (H.faults host.new))
        (O.held out.old) (O.held out.new) }
    ensures place { OnOk result (H.address host.new ≡ Some serving.now.address) }
    ensures place_too { IsErrOf result (Of fault.WriteFailed) →
        H.address host.new ≡ Some serving.now.address }
    ensures file { OnOk result (K.file keeper.new ≡ Some serving.now.file) }
    ensures file_too { IsErrOf result (Of fault.WriteFailed) →
        K.file keeper.new ≡ Some serving.now.file }
    ensures cause { IfErr result (IsWhyUnservedKept (K.kept keeper.old)) }
    ensures keeper_failed { IsErrOf result KeeperFailed →
        Rose (K.faults keeper.old) (K.faults keeper.new) }
    ensures listen_failed { IsErrOf result Unheard →
        Rose (H.port_faults host.old) (H.port_faults host.new) }
    ensures write_failed { IsErrOf result (Of fault.WriteFailed) →
        Rose (O.faults out.old) (O.faults out.new) }
    ensures unwritten { IfErr result (λ why. status_for why ≢ 4 →
        O.held out.new ≡ O.held out.old) }
    ensures unfinished { O.finishes out.new ≡ O.finishes out.old }
    ensures unopened { IfErr result (λ why. status_for why ≢ 4 → status_for why ≢ 5 →
        (H.address host.new ≡ H.address host.old)
        × (H.gave host.new ≡ H.gave host.old) × (H.stops host.new ≡ H.stops host.old)) }
    ensures same_files { H.files host.new ≡ H.files host.old }
    ensures same_kept { K.kept keeper.new ≡ K.kept keeper.old }
    ensures lasting { (H.file_faults host.old ≤ H.file_faults host.new)
        × (H.port_faults host.old ≤ H.port_faults host.new)
        × (H.faults host.old ≤ H.faults host.new)
        × (K.faults keeper.old ≤ K.faults keeper.new) }
{
    let hub = hub_kept::<Skeleton, Conformance, Table, K>(
        serving.file,
        Conformance,
        Table,
        keeper,
    )?;
    serve_hub(rt, alloc, hub, serving, out, host)
}

/// Serves by kept bindings as the words say, and answers the status. The file is opened and its
/// records are listed before the address is listened at. Each record is a binding of the hub, in
/// their order, and there is no schema; what is bound or let go later is for servers that begin
/// later. Else it is as `serve`.
pub fn serve_kept_words<Rt: Threads + Wait + Sync, O: Sink, E: Sink, H: Host, K: Keeping>(
    rt: &Rt,
    alloc: Global,
    words: &[String],
    out: &mut O,
    diag: &mut E,
    host: &mut H,
    keeper: &mut K,
) -> u8
where
    H::R: Send + Drop,
    H::W: Send + Drop,
    // Each status, and when it comes. Where the words are of the table, no count rose and no cause
    // of 7 stands, the status is 0, or 5 for want of memory.
    ensures known { Contains kept_statuses result }
    ensures words { result ≡ 2 → AskToServeKept (texts words.now) → ⊥ }
    ensures other_words { (AskToServeKept (texts words.now) → ⊥) → result ≡ 2 }
    ensures cause { result ≢ 0 → IsUnservedKept (texts words.now) (K.kept keeper.old) result }
    ensures keeper_failed { result ≡ 15 → Rose (K.faults keeper.old) (K.faults keeper.new) }
    ensures listen_failed { result ≡ 8 → Rose (H.port_faults host.old) (H.port_faults host.new) }
    ensures write_failed { result ≡ 4 → Rose (O.faults out.old) (O.faults out.new) }

    // The host accepts at the address, the file opened last is that of the words, and the line
    // tells how many links were served and how many weren't.
    ensures served { result ≡ 0 → IfServingKept (texts words.now) (λ s. IsServed Appends
        (λ a f. AreAccepts s.connections a f (H.gave host.old) (H.gave host.new)
        (H.stops host.old) (H.stops host.new) (H.faults host.old) (H.faults host.new))
        (O.held out.old) (O.held out.new)) }
    ensures served_front { result ≡ 4 → IfServingKept (texts words.now) (λ s. IsServed AppendsFront
        (λ a f. AreAccepts s.connections a f (H.gave host.old) (H.gave host.new)
        (H.stops host.old) (H.stops host.new) (H.faults host.old) (H.faults host.new))
        (O.held out.old) (O.held out.new)) }
    ensures place { Contains (0 ∷ 4 ∷ []) result → IfServingKept (texts words.now)
        (λ s. (H.address host.new ≡ Some s.address) × (K.file keeper.new ≡ Some s.file)) }

    // What stands after it.
    ensures unasked { result ≡ 2 → (host.new ≡ host.old) × (keeper.new ≡ keeper.old) }
    ensures unopened { result ≢ 0 → result ≢ 4 → result ≢ 5 →
        (H.address host.new ≡ H.address host.old)
        × (H.gave host.new ≡ H.gave host.old) × (H.stops host.new ≡ H.stops host.old) }
    ensures same_files { H.files host.new ≡ H.files host.old }
    ensures same_kept { K.kept keeper.new ≡ K.kept keeper.old }
    ensures lasting { (H.file_faults host.old ≤ H.file_faults host.new)
        × (H.port_faults host.old ≤ H.port_faults host.new)
        × (H.faults host.old ≤ H.faults host.new)
        × (K.faults keeper.old ≤ K.faults keeper.new) }
    ensures unwritten { result ≢ 0 → result ≢ 4 → O.held out.new ≡ O.held out.old }
    ensures unfinished { (O.finishes out.new ≡ O.finishes out.old)
        × (E.finishes diag.new ≡ E.finishes diag.old) }

    // Standard error: nothing at 0, else a front of the line of a cause that stands, with its
    // number, and all of it where the count of its faults hasn't risen.
    ensures silent { result ≡ 0 → E.held diag.new ≡ E.held diag.old }
    ensures said { result ≢ 0 → SaysWhyKept AppendsFront (texts words.now) (K.kept keeper.old)
        result (E.held diag.old) (E.held diag.new) }
    ensures said_all { result ≢ 0 → (Rose (E.faults diag.old) (E.faults diag.new) → ⊥)
        → SaysWhyKept Appends (texts words.now) (K.kept keeper.old)
        result (E.held diag.old) (E.held diag.new) }
{
    let Some(serving) = find_serving("serve-kept", words) else {
        return refuse(diag, Fault::BadWords);
    };
    match serve_kept(rt, alloc, &serving, out, host, keeper) {
        Ok(()) => 0,
        Err(why) => tell_why(diag, why),
    }
}
