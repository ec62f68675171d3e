//! A desk at a gate over the hub.
ghost use Rattle.std.specs.Prelude.{◌≡◌, ◌<◌, true, [], IfOk, IfSome, OnOk, OnErr};
ghost use Rattle.turn_gate.specs.Gates.{view, IsPassOf};
ghost use Rattle.turn_gate.specs.Passes.{own_pairs};
ghost use Rattle.hub_machine.specs.declared.steps.Step.TheVariants as steps;
ghost use Rattle.srv_turns.specs.Replies.{CanBeReplied};
ghost use Rattle.srv_desk.specs.Desks.{pairs_by, is_spent, IsAnswered, IsDone, HasCome, number_in};

use crate::jobs::{Half, Session};
use ds_space::Space;
use hub_core::{Reply, Step, class_of};
use lc_watch::Behaves;
use out_ports::ports::{Incoming, Outgoing};
use sr_pass::Judge;
use srv_loop::{Desk, NoMemory};
use srv_session::{Seated, Served, ServedStep};
use std::alloc::Global;
use std::sync::Wait;
use turn_gate::{Gate, GateFault, Pass, Replayed};

/// Where links come to the hub behind a gate.
///
/// It has the gate's first pass, from which it splits one for each caller that it seats.
#[derive(Drop)]
pub struct GateDesk<'g, T: Replayed> {
    gate: &'g Gate<T>,
    pass: Pass<T>,
    alloc: Global,
    full: u64,
    ghost of_gate: { IsPassOf gate.now pass },
    ghost first: { (view pass).name ≡ 0 },
}

/// That the hub was told that no connection is to come any more: [`GateDesk::stop`] alone makes
/// one.
#[derive(Drop)]
pub struct Stopped {
    _told: (),
}

/// The number of the connection that came, by the reply to its arrival, where one did.
fn number_in(reply: Reply) -> Option<u32>
    ensures { result ≡ number_in reply }
{
    match reply {
        Reply::Opened(number) => Some(number),
        _ => None,
    }
}

impl<'g, T: Replayed> GateDesk<'g, T> {
    /// A desk at this gate, with its first pass. Sessions take this memory.
    pub fn new(alloc: Global, gate: &'g Gate<T>, pass: Pass<T>) -> GateDesk<'g, T>
        requires gate { IsPassOf gate.now pass }
        requires first { (view pass).name ≡ 0 }
        ensures gate { result.gate.now ≡ gate.now }
        ensures pass { result.pass ≡ pass }
        ensures full { result.full ≡ 0 }
    {
        GateDesk {
            gate,
            pass,
            alloc,
            full: 0,
        }
    }

    /// The memory that sessions take.
    pub fn alloc(&self) -> Global
        ensures { result ≡ self.now.alloc }
    {
        self.alloc
    }

    /// A seat at the gate for another caller, which has done nothing yet and rests at this place.
    pub fn seat(&mut self, place: usize) -> Seated<'g, T>
        requires { place < 64 }
        ensures new { own_pairs (view result.pass) ≡ [] }
        ensures gate { result.gate.now ≡ self.old.gate.now }
        ensures same_gate { self.new.gate.now ≡ self.old.gate.now }
        ensures same { own_pairs (view self.new.pass) ≡ own_pairs (view self.old.pass) }
        ensures floor { (view self.new.pass).floor ≡ (view self.old.pass).floor }
        ensures full { self.new.full ≡ self.old.full }
    {
        let Ok(pass) = self.gate.split(&mut self.pass, place) else {
            unreachable!()
        };
        Seated::new(self.gate, pass)
    }
}

impl<'g, S: Space + Drop, J: Judge + Drop, B: Behaves + Drop> GateDesk<'g, Served<S, J, B>> {
    /// Does a step, and answers its reply, or None where as many steps stand as are taken.
    fn commit<R: Wait>(&mut self, rt: &R, step: Step) -> Result<Option<Reply>, NoMemory>
        ensures done { IfOk result (λ answer. IsAnswered step answer
            (pairs_by (view self.old.pass))
            (pairs_by (view self.new.pass)) (is_spent (view self.new.pass))) }
        ensures reply { IfOk result (λ answer. IfSome answer (CanBeReplied step)) }
        ensures spent { is_spent (view self.old.pass) ≡ true
            → is_spent (view self.new.pass) ≡ true }
        ensures full { self.new.full ≡ self.old.full }
        // After want of memory.
        ensures same { OnErr result (pairs_by (view self.new.pass)
            ≡ pairs_by (view self.old.pass)) }
    {
        match self.gate.commit(rt, &mut self.pass, ServedStep::new(step)) {
            Ok(reply) => Ok(Some(reply)),
            Err(GateFault::Spent) => Ok(None),
            Err(GateFault::NoMemory) => Err(NoMemory),
        }
    }

    /// A connection comes, whose object 0 is the gatekeeper. Answers its number, or None where it
    /// doesn't come.
    #[tactic(auto, using(crate::proofs::Coming::has_come, crate::proofs::Coming::none_came))]
    pub fn open<R: Wait>(&mut self, rt: &R) -> Result<Option<u32>, NoMemory>
        ensures come { IfOk result (λ answer. HasCome answer
            (pairs_by (view self.old.pass))
            (pairs_by (view self.new.pass)) (is_spent (view self.new.pass))) }
        ensures spent { is_spent (view self.old.pass) ≡ true
            → is_spent (view self.new.pass) ≡ true }
        ensures full { self.new.full ≡ self.old.full }
        // After want of memory.
        ensures same { OnErr result (pairs_by (view self.new.pass)
            ≡ pairs_by (view self.old.pass)) }
    {
        match self.commit(rt, Step::Arrive(0))? {
            Some(reply) => Ok(number_in(reply)),
            None => Ok(None),
        }
    }

    /// The connection of this number goes.
    pub fn close<R: Wait>(&mut self, rt: &R, number: u32) -> Result<(), NoMemory>
        ensures done { OnOk result (IsDone (steps.Close number)
            (pairs_by (view self.old.pass))
            (pairs_by (view self.new.pass)) (is_spent (view self.new.pass))) }
        ensures spent { is_spent (view self.old.pass) ≡ true
            → is_spent (view self.new.pass) ≡ true }
        ensures full { self.new.full ≡ self.old.full }
        // After want of memory.
        ensures same { OnErr result (pairs_by (view self.new.pass)
            ≡ pairs_by (view self.old.pass)) }
    {
        let answer = self.commit(rt, Step::Close(number))?;
        drop(answer);
        Ok(())
    }

    /// No connection is to come any more, and workers end once nothing is left to do.
    pub fn stop<R: Wait>(&mut self, rt: &R) -> Result<Stopped, NoMemory>
        ensures done { OnOk result (IsDone steps.Stop
            (pairs_by (view self.old.pass))
            (pairs_by (view self.new.pass)) (is_spent (view self.new.pass))) }
        ensures spent { is_spent (view self.old.pass) ≡ true
            → is_spent (view self.new.pass) ≡ true }
        ensures full { self.new.full ≡ self.old.full }
        // After want of memory.
        ensures same { OnErr result (pairs_by (view self.new.pass)
            ≡ pairs_by (view self.old.pass)) }
    {
        let answer = self.commit(rt, Step::Stop)?;
        drop(answer);
        Ok(Stopped { _told: () })
    }
}

impl<
    'g,
    S: Space + Drop,
    J: Judge + Drop,
    B: Behaves + Drop,
    R: Incoming + Drop,
    W: Outgoing + Drop,
> Desk<R, W> for GateDesk<'g, Served<S, J, B>> {
    ghost use Rattle.std.specs.Prelude.{◌≡◌, [], true, false};
    ghost use Rattle.turn_gate.specs.Gates.{view};
    ghost use Rattle.turn_gate.specs.Passes.{own_pairs};
    ghost use Rattle.srv_desk.specs.Desks.{pairs_by, is_spent, deeds_of};
    ghost use Rattle.srv_desk.specs.Jobs.{is_reading};

    type Job = Session<'g, Served<S, J, B>, R, W>;

    ghost deeds = { λ s. deeds_of (pairs_by (view s.pass)) s.full (is_spent (view s.pass)) };

    ghost is_first = { λ number job. (job.connection ≡ number) × (is_reading job.half ≡ false)
        × (own_pairs (view job.seat.pass) ≡ []) };

    ghost is_second = { λ number job. (job.connection ≡ number) × (is_reading job.half ≡ true)
        × (own_pairs (view job.seat.pass) ≡ []) };

    /// The writer is the first job. Where the reader doesn't start, the close of the connection
    /// ends the writer, which finishes the link. A reader alone would wait for a peer that waits
    /// for it.
    #[tactic(auto, using(crate::proofs::Adding::welcomes))]
    fn welcome<Rt: Wait>(
        &mut self,
        rt: &Rt,
        reads: R,
        writes: W,
    ) -> Result<Option<(u32, Self::Job, Self::Job)>, NoMemory> {
        let Some(number) = self.open(rt)? else {
            self.full = self.full.saturating_add(1);
            return Ok(None);
        };
        let place = class_of(number);
        let reader = Session::new(self.alloc, number, Half::Reads(reads), self.seat(place));
        let writer = Session::new(self.alloc, number, Half::Writes(writes), self.seat(place));
        Ok(Some((number, writer, reader)))
    }

    fn is_over(&self) -> bool {
        self.gate.is_lost()
    }

    #[tactic(auto, using(crate::proofs::Adding::one_closed, crate::proofs::Adding::still_opened))]
    fn dismiss<Rt: Wait>(&mut self, rt: &Rt, number: u32) -> Result<(), NoMemory> {
        self.close(rt, number)
    }
}
