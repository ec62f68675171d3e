//! The accept loop.
ghost use Rattle.std.specs.Prelude.{◌≡◌, ℕ, ◌+◌, ◌*◌, nat_eq, ◌≤◌, true, false, List, [], ◌∷◌};
ghost use Rattle.std.specs.Prelude.{length, take, IfOk, OnErr};
ghost use Rattle.out_ports.specs.Ports.{raised, Rose, RoseBy, gave_after, stops_after};
ghost use Rattle.srv_loop.specs.Fates.{full_in, unserved_in, IsFateOf};
ghost use Rattle.srv_loop.specs.Links.{Opened, AreLed, AreTaken, jobs_of, OnlyGrew};
ghost use Rattle.srv_loop.specs.Tallies.{links_of, accepts_of, Counts, HasEnded};

use crate::desk::{Desk, NoMemory};
use crate::tally::{Fate, Tally};
use out_ports::ports::{Accepted, Listen, Spawner};
use std::alloc::Global;
use std::sync::Wait;

/// Accepts `count` times, or until no more links come, and then closes the listener. Each link is
/// welcomed once. Its first job is started, and its second one where the spawner took the first. A
/// link that was opened and of which the spawner didn't take both jobs is dismissed once. What was
/// done before want of memory stands; that of a desk that is over is told where nobody comes.
pub fn accept_all<Rt: Wait, Li: Listen, D: Desk<Li::R, Li::W>, Sp: Spawner<D::Job>>(
    rt: &Rt,
    alloc: Global,
    listener: &mut Li,
    desk: &mut D,
    spawner: &mut Sp,
    count: u32,
) -> Result<Tally, NoMemory>
    requires { (job : D.Job) → Sp.can_start spawner.old job }
    // How many accepts there were, and what they gave.
    ensures ends { IfOk result (λ tally. HasEnded (accepts_of tally) count
        (Li.stops listener.old) (Li.stops listener.new)) }
    ensures links { IfOk result (λ tally.
        RoseBy (links_of tally) (Li.gave listener.old) (Li.gave listener.new)) }
    ensures failed { IfOk result (λ tally.
        raised tally.failed (Li.faults listener.old) ≤ Li.faults listener.new) }
    // What became of the links.
    ensures full { IfOk result (λ tally.
        RoseBy tally.full (D.deeds desk.old).full (D.deeds desk.new).full) }
    ensures unserved { IfOk result (λ tally.
        raised tally.unserved (Sp.faults spawner.old) ≤ Sp.faults spawner.new) }
    ensures opened { IfOk result (λ tally. (links : List (Opened D.Job)) × Counts links tally
        × AreLed D.is_first D.is_second links (D.deeds desk.old) (D.deeds desk.new)
        × AreTaken (jobs_of links) (Sp.jobs spawner.old) (Sp.jobs spawner.new)
        (Sp.took spawner.old) (Sp.took spawner.new)) }
    ensures many { IfOk result (λ tally. length (D.deeds desk.new).opened
        ≡ length (D.deeds desk.old).opened + tally.served + tally.unserved) }
    ensures jobs { IfOk result (λ tally.
        raised (2 * tally.served) (Sp.took spawner.old) ≤ Sp.took spawner.new) }
    ensures spent { (D.deeds desk.old).spent ≡ true → (D.deeds desk.new).spent ≡ true }
    ensures can_start { (job : D.Job) → Sp.can_start spawner.new job }
    // However it ends, who connects later is refused.
    ensures closed { Li.closed listener.new ≡ true }
    // Counts of faults never fall, and what else a host tells stays.
    ensures lasting { Li.faults listener.old ≤ Li.faults listener.new }
    ensures spawner_lasting { Sp.faults spawner.old ≤ Sp.faults spawner.new }
    ensures place { Li.address listener.new ≡ Li.address listener.old }
    ensures same_files { Li.files listener.new ≡ Li.files listener.old }
    ensures same_file_faults { Li.file_faults listener.new ≡ Li.file_faults listener.old }
    ensures same_port_faults { Li.port_faults listener.new ≡ Li.port_faults listener.old }
    ensures same_link { Li.link listener.new ≡ Li.link listener.old }
    // After want of memory.
    ensures stands { OnErr result (OnlyGrew (D.deeds desk.old) (D.deeds desk.new)
        (Sp.jobs spawner.old) (Sp.jobs spawner.new)) }
{
    let mut tally = Tally::new();
    for _ in 0..count {
        match next_answer(rt, alloc, listener, desk) {
            Accepted::Link(reads, writes) => match lead(rt, desk, spawner, reads, writes) {
                Ok(fate) => tally.count(fate),
                Err(NoMemory) => {
                    listener.close();
                    return Err(NoMemory);
                }
            },
            Accepted::Failed => tally.failed += 1,
            Accepted::Stopped => {
                listener.close();
                return Ok(tally);
            }
            Accepted::Nobody | Accepted::NoMemory => {
                listener.close();
                return Err(NoMemory);
            }
        }
    }
    listener.close();
    Ok(tally)
}

/// Waits for an answer of the listener other than that nobody came, or that nobody came and the
/// desk is over.
fn next_answer<Rt: Wait, Li: Listen, D: Desk<Li::R, Li::W>>(
    rt: &Rt,
    alloc: Global,
    listener: &mut Li,
    desk: &D,
) -> Accepted<Li::R, Li::W>
    ensures links { Li.gave listener.new ≡ gave_after result (Li.gave listener.old) }
    ensures ends { Li.stops listener.new ≡ stops_after result (Li.stops listener.old) }
    ensures place { Li.address listener.new ≡ Li.address listener.old }
    ensures same_files { Li.files listener.new ≡ Li.files listener.old }
    ensures same_file_faults { Li.file_faults listener.new ≡ Li.file_faults listener.old }
    ensures same_port_faults { Li.port_faults listener.new ≡ Li.port_faults listener.old }
    ensures same_link { Li.link listener.new ≡ Li.link listener.old }
    ensures lasting { Li.faults listener.old ≤ Li.faults listener.new }
    ensures cause { result ≡ Accepted.Failed →
        Rose (Li.faults listener.old) (Li.faults listener.new) }
{
    for _ in rt.forever() {
        match listener.accept(alloc) {
            Accepted::Nobody => {
                if desk.is_over() {
                    return Accepted::Nobody;
                }
            }
            answer => return answer,
        }
    }
    unreachable!()
}

/// Leads a link to the desk, and its jobs to the spawner.
fn lead<Rt: Wait, R, W, D: Desk<R, W>, Sp: Spawner<D::Job>>(
    rt: &Rt,
    desk: &mut D,
    spawner: &mut Sp,
    reads: R,
    writes: W,
) -> Result<Fate, NoMemory>
    requires { (job : D.Job) → Sp.can_start spawner.old job }
    ensures full { IfOk result (λ fate.
        RoseBy (full_in fate) (D.deeds desk.old).full (D.deeds desk.new).full) }
    ensures unserved { IfOk result (λ fate.
        raised (unserved_in fate) (Sp.faults spawner.old) ≤ Sp.faults spawner.new) }
    ensures opened { IfOk result (λ fate. (links : List (Opened D.Job)) × IsFateOf links fate
        × AreLed D.is_first D.is_second links (D.deeds desk.old) (D.deeds desk.new)
        × AreTaken (jobs_of links) (Sp.jobs spawner.old) (Sp.jobs spawner.new)
        (Sp.took spawner.old) (Sp.took spawner.new)) }
    ensures spent { (D.deeds desk.old).spent ≡ true → (D.deeds desk.new).spent ≡ true }
    ensures can_start { (job : D.Job) → Sp.can_start spawner.new job }
    ensures lasting { Sp.faults spawner.old ≤ Sp.faults spawner.new }
    // After want of memory.
    ensures stands { OnErr result (OnlyGrew (D.deeds desk.old) (D.deeds desk.new)
        (Sp.jobs spawner.old) (Sp.jobs spawner.new)) }
{
    let Some((number, first, second)) = desk.welcome(rt, reads, writes)? else {
        return Ok(Fate::Full);
    };
    if start_both(spawner, first, second) {
        return Ok(Fate::Served);
    }
    desk.dismiss(rt, number)?;
    Ok(Fate::Unserved)
}

/// Starts two jobs, the second only where the first was taken, and tells whether both were.
fn start_both<J: Drop, Sp: Spawner<J>>(spawner: &mut Sp, first: J, second: J) -> bool
    requires { (job : J) → Sp.can_start spawner.old job }
    ensures can_start { (job : J) → Sp.can_start spawner.new job }
    ensures jobs { (n : ℕ) × (nat_eq (length (take n (first ∷ second ∷ []))) 2 ≡ result)
        × AreTaken (take n (first ∷ second ∷ [])) (Sp.jobs spawner.old) (Sp.jobs spawner.new)
        (Sp.took spawner.old) (Sp.took spawner.new) }
    ensures lasting { Sp.faults spawner.old ≤ Sp.faults spawner.new }
    ensures cause { result ≡ false →
        raised 1 (Sp.faults spawner.old) ≤ Sp.faults spawner.new }
{
    if !spawner.start(first) {
        return false;
    }
    spawner.start(second)
}
