//! The calls of a gate.
ghost use Rattle.std.specs.Prelude.{◌≡◌, ◌≢◌, ◌≤◌, ◌++◌, ◌∷◌, [], true, false, length, IfOk};
ghost use Rattle.std.specs.Prelude.{IfErr, IsOk, MatchOption, MatchResult, ◌<◌, ◌-◌, List, map};
ghost use Rattle.std.specs.Prelude.{vec_capacity, vec_len};
ghost use Rattle.turn_gate.specs.History.{after, IsLegal};
ghost use Rattle.turn_gate.specs.Passes.{IsFirst, Stood, Failed, Committed, HasOneMore, IsChild};
ghost use Rattle.turn_gate.specs.Passes.{IsUnion, HasAll, IsWhole, IsSame, IsAsked, own_pairs};
ghost use Rattle.turn_gate.specs.Rows.{IsRow, IsCutRow, AreCommitted, AreCutShort};
ghost use Rattle.turn_gate.specs.Gates.{opening_of, view, IsPassOf};

use crate::gate::{Gate, GateFault, Pass};
use crate::replayed::{Course, NoMemory, Replayed};
use std::alloc::Global;
use std::sync::Wait;

impl<T: Replayed> Gate<T> {
    /// A gate that holds `t`, and its first pass, which rests at place 0.
    ///
    /// `seats` is for how many callers room to wait may be taken. This gate takes none, since its
    /// callers wait on words of the gate, and any number of passes may be split from the first.
    pub fn begin(alloc: Global, t: T, seats: u32) -> Result<(Gate<T>, Pass<T>), NoMemory>
        requires { (1 ≤ seats) × (seats ≤ 256) }
        ensures gate { IfOk result (λ r. IsPassOf r.0 r.1 × (opening_of r.0 ≡ t)) }
        ensures first { IfOk result (λ r. IsFirst (view r.1)) }
    {
        let _ = seats;
        match Gate::begin_at(alloc, t) {
            Ok((gate, seat)) => Ok((
                gate,
                Pass {
                    seat,
                    place: 0,
                    heard: 0,
                },
            )),
            Err(failed) => Err(failed),
        }
    }

    /// Does the step `s`, adds it with its reply to the history, and answers the reply.
    ///
    /// While another caller does a step this one waits, first by turns that give way and then
    /// asleep. After [`GateFault::NoMemory`] the value is gone, and each later commit of any pass
    /// answers so too.
    pub fn commit<R: Wait>(
        &self,
        rt: &R,
        pass: &mut Pass<T>,
        s: T::Step,
    ) -> Result<T::Reply, GateFault>
        requires gate { IsPassOf self.now pass.old }
        ensures gate { IsPassOf self.now pass.new }
        ensures ok { IfOk result
            (λ r. Committed T.next (opening_of self.now) (view pass.old) s r (view pass.new)) }
        ensures err { IfErr result (λ e. Failed (view pass.old) e (view pass.new)) }
        ensures own { MatchResult result
            (λ r. own_pairs (view pass.new) ≡ own_pairs (view pass.old) ++ (s, r) ∷ [])
            (λ e. own_pairs (view pass.new) ≡ own_pairs (view pass.old)) }
    {
        self.commit_at(rt, &mut pass.seat, s, &mut pass.heard)
    }

    /// Does a step and those that go on behind it, all in one hold of the value: as many as there
    /// is room for in `replies`, to which their replies are added.
    ///
    /// Each further step is the course's answer to the reply before. No other caller's step stands
    /// between them. Where a step isn't done those before it stand.
    pub fn commit_row<R: Wait, C: Course<T>>(
        &self,
        rt: &R,
        pass: &mut Pass<T>,
        s: T::Step,
        course: &C,
        replies: &mut Vec<T::Reply>,
    ) -> Result<(), GateFault>
        requires gate { IsPassOf self.now pass.old }
        requires room { vec_len replies.old < vec_capacity replies.old }
        ensures gate { IsPassOf self.now pass.new }
        ensures capacity { vec_capacity replies.new ≡ vec_capacity replies.old }
        ensures row { (ps : List (T.Step × T.Reply)) × MatchResult result
            (λ _. IsRow (C.further course.now) (vec_capacity replies.old - vec_len replies.old) s ps
            × AreCommitted T.next (opening_of self.now) (view pass.old) ps (view pass.new))
            (λ e. IsCutRow (C.further course.now) (vec_capacity replies.old - vec_len replies.old)
            s ps × AreCutShort T.next (opening_of self.now) (view pass.old) ps e (view pass.new))
            × (replies.new.items ≡ replies.old.items ++ map (λ p. p.1) ps)
            × (own_pairs (view pass.new) ≡ own_pairs (view pass.old) ++ ps) }
        ensures same { IsSame (view pass.old) (view pass.new) }
    {
        self.row_at(rt, &mut pass.seat, s, course, replies, &mut pass.heard)
    }

    /// Whether what goes by this number is over, as the value says that stands now
    /// ([`Replayed::is_over`]), or the value was given up. It does no step, and nobody is called.
    pub fn ask<R: Wait>(&self, rt: &R, pass: &mut Pass<T>, about: u32) -> bool
        requires gate { IsPassOf self.now pass.old }
        ensures gate { IsPassOf self.now pass.new }
        ensures asked { IsAsked T.next (opening_of self.now) T.over (view pass.old) about result
            (view pass.new) }
        ensures own { own_pairs (view pass.new) ≡ own_pairs (view pass.old) }
    {
        self.ask_at(rt, &mut pass.seat, about)
    }

    /// How many steps stand now, at least. It never waits.
    pub fn seen(&self, pass: &mut Pass<T>) -> u64
        requires gate { IsPassOf self.now pass.old }
        ensures gate { IsPassOf self.now pass.new }
        ensures least { ((view pass.old).floor ≤ result)
            × (length (view pass.old).seen ≤ result) }
        ensures floor { (view pass.new).floor ≡ result }
        ensures same { Stood (view pass.old) (view pass.new)
            × ((view pass.new).lost ≡ (view pass.old).lost) }
    {
        self.seen_at(&mut pass.seat)
    }

    /// Sleeps until the place at which the pass rests was called for a step behind those that the
    /// pass has seen, or the gate is at its end. It may end sooner.
    ///
    /// A step calls its own place ([`Replayed::called_by`]) and those at which it leaves work
    /// ([`Replayed::work`]).
    pub fn rest<R: Wait>(&self, rt: &R, pass: &Pass<T>)
        requires gate { IsPassOf self.now pass.now }
    {
        self.rest_at(rt, pass.place, pass.heard);
    }

    /// Sleeps as [`Gate::rest`] does, but until the place was called for a step behind the first
    /// `known`, and answers for how many steps it was called. It may end sooner.
    ///
    /// It is for who commits nothing, and so hears of no step: handed in again, the answer is what
    /// it knows by then. No clause speaks of the answer.
    pub fn rest_beyond<R: Wait>(&self, rt: &R, pass: &Pass<T>, known: u64) -> u64
        requires gate { IsPassOf self.now pass.now }
    {
        self.rest_at(rt, pass.place, known)
    }

    /// Whether the value was given up. No clause speaks of it: who needs it for a promise commits.
    pub fn is_lost(&self) -> bool {
        self.was_given_up()
    }

    /// A new pass, for another caller, which has seen as much as the first one and rests at this
    /// place.
    ///
    /// It takes no memory and always succeeds.
    pub fn split(&self, pass: &mut Pass<T>, place: usize) -> Result<Pass<T>, NoMemory>
        requires gate { IsPassOf self.now pass.old }
        requires first { (view pass.old).name ≡ 0 }
        requires place { place < 64 }
        ensures always { IsOk result }
        ensures gate { IsPassOf self.now pass.new × IfOk result (λ r. IsPassOf self.now r) }
        ensures same { HasOneMore (view pass.old) (view pass.new) }
        ensures new { IfOk result (λ r. IsChild (view pass.old) (view r)) }
    {
        let seat = self.split_at(&mut pass.seat);
        Ok(Pass {
            seat,
            place,
            heard: pass.heard,
        })
    }

    /// Takes in what another pass has seen, a pass that was split from this one.
    pub fn join(&self, pass: &mut Pass<T>, other: Pass<T>)
        requires gate { IsPassOf self.now pass.old × IsPassOf self.now other }
        requires first { (view pass.old).name ≡ 0 }
        requires other { (view other).name ≢ 0 }
        ensures gate { IsPassOf self.now pass.new }
        ensures both { IsUnion (view pass.old) (view other) (view pass.new) }
    {
        let Pass { seat, heard, .. } = other;
        self.join_at(&mut pass.seat, seat);
        pass.heard = pass.heard.max(heard);
    }

    /// The value that all steps left, or none where a step found no memory.
    ///
    /// The pass is the first one, and each pass that was split from it was joined into it. What it
    /// has seen is then the whole history: one legal list of steps, in which each caller's steps
    /// stand with the replies that it got, in its order, and nothing else stands.
    pub fn close(self, pass: Pass<T>) -> Option<T>
        requires gate { IsPassOf self pass }
        requires first { ((view pass).name ≡ 0) × HasAll (view pass) }
        ensures value { MatchOption result
            ((view pass).lost ≡ true)
            (λ t. (t ≡ after T.next (opening_of self) (view pass).seen)
            × ((view pass).lost ≡ false)) }
        ensures legal { IsLegal T.next (opening_of self) (view pass).seen }
        ensures whole { IsWhole (view pass) }
    {
        let Pass { seat, .. } = pass;
        self.close_at(seat)
    }
}
