//! One step of a session, and the work behind it.
ghost use Rattle.std.specs.Prelude.{◌≡◌, List, ◌∷◌, ◌++◌, true, IfOk, OnErr, IsErrOf};
ghost use Rattle.hub_machine.specs.declared.steps.Reply.{Reply as ReplyOf};
ghost use Rattle.srv_turns.specs.Replies.{CanBeReplied};
ghost use Rattle.srv_turns.specs.Rounds.{Pair, is_taken, worked};
ghost use Rattle.srv_turns.specs.Rounds.{IsWorkBehind, IsCutRound};
ghost use Rattle.srv_turns.specs.Rows.{is_of_peer};

use crate::committing::{Behind, Turns};
use crate::rows::Row;
use hub_machine::{Reply, Step};
use std::sync::Wait;
use turn_gate::GateFault;

/// Commits a step that a peer brings about, and where it was taken the work behind it, all in one
/// hold. Answers its reply.
pub(crate) fn round<Rt: Wait, T: Turns>(
    rt: &Rt,
    step: Step,
    row: &mut Row,
    turns: &mut T,
) -> Result<Reply, GateFault>
    requires { is_of_peer step ≡ true }
    ensures done { IfOk result (λ r. (rs : List ReplyOf) × IsWorkBehind (is_taken r) rs
        × (T.pairs turns.new ≡ T.pairs turns.old ++ (step, r) ∷ worked rs)) }
    ensures reply { IfOk result (CanBeReplied step) }
    ensures cut { OnErr result ((half : List Pair) × IsCutRound step half
        × (T.pairs turns.new ≡ T.pairs turns.old ++ half)) }
    ensures cause { IsErrOf result GateFault.Spent → T.spent turns.new ≡ true }
{
    row.commit(rt, step, Behind::Work, turns)?;
    Ok(row.first())
}
