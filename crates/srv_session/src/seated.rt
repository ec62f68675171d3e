//! A seat at a gate over the hub.
ghost use Rattle.std.specs.Prelude.{◌≡◌};
ghost use Rattle.turn_gate.specs.Gates.{IsPassOf};

use crate::served::{Served, ServedStep};
use ds_space::Space;
use hub_core::{Reply, Step};
use lc_watch::Behaves;
use sr_pass::Judge;
use srv_turns::{Behind, Turns};
use std::sync::Wait;
use turn_gate::{Course, Gate, GateFault, Pass, Replayed};

/// A session's seat: a gate, and a pass of it.
#[derive(Drop)]
pub struct Seated<'g, T: Replayed> {
    pub gate: &'g Gate<T>,
    pub pass: Pass<T>,
    ghost seated: { IsPassOf gate.now pass },
}

impl<'g, T: Replayed> Seated<'g, T> {
    /// A seat at this gate.
    pub fn new(gate: &'g Gate<T>, pass: Pass<T>) -> Seated<'g, T>
        requires { IsPassOf gate.now pass }
        ensures gate { result.gate.now ≡ gate.now }
        ensures pass { result.pass ≡ pass }
    {
        Seated { gate, pass }
    }
}

/// What a session does behind a step, as steps of a gate over the hub.
#[derive(Drop)]
struct Following {
    behind: Behind,
}

impl<S: Space + Drop, J: Judge + Drop, B: Behaves + Drop> Course<Served<S, J, B>> for Following {
    ghost use Rattle.srv_session.specs.Served.{served_behind};

    ghost further = { λ f r. served_behind f.behind r };

    fn further(&self, reply: &Reply) -> Option<ServedStep> {
        match self.behind.further(reply) {
            Some(Step::Work) => Some(ServedStep { step: Step::Work }),
            Some(Step::Turn(actor)) => Some(ServedStep {
                step: Step::Turn(actor),
            }),
            _ => None,
        }
    }
}

impl<'g, S: Space + Drop, J: Judge + Drop, B: Behaves + Drop> Turns
    for Seated<'g, Served<S, J, B>> {
    ghost use Rattle.std.specs.Prelude.{◌==◌};
    ghost use Rattle.turn_gate.specs.Limits.{most_steps};
    ghost use Rattle.turn_gate.specs.Gates.{view};
    ghost use Rattle.turn_gate.specs.Passes.{own_pairs};
    ghost use Rattle.srv_session.specs.Seats.{step_pairs};

    ghost pairs = { λ s. step_pairs (own_pairs (view s.pass)) };

    ghost spent = { λ s. (view s.pass).floor == most_steps };

    ghost lost = { λ s. (view s.pass).lost };

    fn commit<R: Wait>(&mut self, rt: &R, step: Step) -> Result<Reply, GateFault> {
        self.gate.commit(rt, &mut self.pass, ServedStep::new(step))
    }

    fn commit_row<R: Wait>(
        &mut self,
        rt: &R,
        step: Step,
        behind: Behind,
        replies: &mut Vec<Reply>,
    ) -> Result<(), GateFault> {
        let first = ServedStep::new(step);
        let course = Following { behind };
        self.gate
            .commit_row(rt, &mut self.pass, first, &course, replies)
    }

    fn rest<R: Wait>(&mut self, rt: &R) {
        self.gate.rest(rt, &self.pass);
    }

    fn has_ended<R: Wait>(&mut self, rt: &R, connection: u32) -> bool {
        self.gate.ask(rt, &mut self.pass, connection)
    }
}
