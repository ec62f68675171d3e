//! Through what a session commits its steps.
ghost use Rattle.std.specs.Prelude.{◌≡◌, ◌-◌, ◌<◌, List, [], ◌∷◌, ◌++◌, Bool, true};
ghost use Rattle.std.specs.Prelude.{IfOk, IsErrOf, MatchResult, vec_len, vec_capacity};
ghost use Rattle.hub_machine.specs.declared.steps.Step.{Step as StepOf};
ghost use Rattle.hub_machine.specs.declared.steps.Reply.{Reply as ReplyOf};
ghost use Rattle.turn_gate.specs.Rows.{IsRow, IsCutRow};
ghost use Rattle.srv_turns.specs.Replies.{CanBeReplied};
ghost use Rattle.srv_turns.specs.Rounds.{Pair};
ghost use Rattle.srv_turns.specs.Rows.{further_behind, AreAdded, IsIdle};

use hub_machine::{Reply, Step};
use std::sync::Wait;
use turn_gate::GateFault;

/// What a session does behind a step, in the same hold.
#[derive(Clone, Copy, Debug, PartialEq, Eq)]
pub enum Behind {
    /// Work, behind a step that was taken and behind work that ran.
    Work,
    /// A turn of this actor, behind one that sent a packet.
    Turns(u32),
}

impl Behind {
    /// The step that comes next, behind one that got this reply, where one does.
    pub fn further(self, reply: &Reply) -> Option<Step>
        ensures { result ≡ further_behind self reply.now }
    {
        match (self, reply) {
            (Behind::Work, Reply::Taken | Reply::Ran) => Some(Step::Work),
            (Behind::Turns(actor), Reply::Sent(_)) => Some(Step::Turn(actor)),
            _ => None,
        }
    }
}

/// The most steps of one hold.
pub const ROW: usize = 33;

/// A caller of the server, whose steps are done one at a time between those of other callers.
pub trait Turns {
    /// Its own steps with the replies that it got, in order.
    ghost pairs: { Self → List (StepOf × ReplyOf) };

    /// Whether as many steps stand as are taken.
    ghost spent: { Self → Bool };

    /// Whether what steps change was given up for want of memory.
    ghost lost: { Self → Bool };

    /// Does a step, and answers its reply. It may wait.
    fn commit<R: Wait>(&mut self, rt: &R, step: Step) -> Result<Reply, GateFault>
        ensures added { MatchResult result
            (λ r. pairs self.new ≡ pairs self.old ++ (step, r) ∷ [])
            (λ e. pairs self.new ≡ pairs self.old) }
        ensures reply { IfOk result (CanBeReplied step) }
        ensures cause { IsErrOf result GateFault.Spent → spent self.new ≡ true }
        ensures given_up { IsErrOf result GateFault.NoMemory → lost self.new ≡ true };

    /// Does a step and those behind it, one after another with no other caller's between them: as
    /// many as there is room for in `replies`, to which their replies are added. It may wait.
    fn commit_row<R: Wait>(
        &mut self,
        rt: &R,
        step: Step,
        behind: Behind,
        replies: &mut Vec<Reply>,
    ) -> Result<(), GateFault>
        requires room { vec_len replies.old < vec_capacity replies.old }
        ensures capacity { vec_capacity replies.new ≡ vec_capacity replies.old }
        ensures row { (ps : List Pair)
            × MatchResult result
            (λ done. IsRow (further_behind behind)
            (vec_capacity replies.old - vec_len replies.old) step ps)
            (λ e. IsCutRow (further_behind behind)
            (vec_capacity replies.old - vec_len replies.old) step ps)
            × AreAdded ps (pairs self.old) (pairs self.new) replies.old.items replies.new.items }
        ensures cause { IsErrOf result GateFault.Spent → spent self.new ≡ true };

    /// May wait for another caller's step, and does none. Its last reply was `Idle`.
    fn rest<R: Wait>(&mut self, rt: &R)
        requires idle { IsIdle (pairs self.old) }
        ensures same { pairs self.new ≡ pairs self.old };

    /// Whether a connection has ended by now. Does no step.
    fn has_ended<R: Wait>(&mut self, rt: &R, connection: u32) -> bool
        ensures same { pairs self.new ≡ pairs self.old }
        ensures lasting { spent self.old ≡ true → spent self.new ≡ true };
}
