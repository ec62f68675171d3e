//! A row of steps, which are done one behind another in one hold.
ghost use Rattle.std.specs.Prelude.{◌≡◌, ◌<◌, ℕ, List, [], true, MatchResult, IfOk, IsErrOf};
ghost use Rattle.std.specs.Prelude.{length, vec_capacity, slice_index_or};
ghost use Rattle.turn_gate.specs.Rows.{IsRow, IsCutRow};
ghost use Rattle.srv_turns.specs.Rounds.{Pair};
ghost use Rattle.srv_turns.specs.Rows.{further_behind, AreAdded, IsLast};

use crate::committing::{Behind, ROW, Turns};
use hub_machine::{Reply, Step};
use pv_value::NoMemory;
use std::alloc::Global;
use std::sync::Wait;
use turn_gate::GateFault;

/// The replies to the steps of one row, for which room was made once.
#[derive(Drop)]
pub(crate) struct Row {
    replies: Vec<Reply>,
    ghost room: { vec_capacity replies ≡ 33 },
}

impl Row {
    /// No step was done.
    pub(crate) fn new(alloc: Global) -> Result<Row, NoMemory>
        ensures none { IfOk result (λ row. row.replies.items ≡ []) }
    {
        Ok(Row {
            replies: Vec::with_capacity(alloc, ROW)?,
        })
    }

    /// The replies.
    pub(crate) fn replies(&self) -> &[Reply]
        ensures { result.now ≡ self.now.replies.items }
    {
        &self.replies
    }

    /// Does a step and those behind it, 33 at most, and keeps their replies alone.
    pub(crate) fn commit<Rt: Wait, T: Turns>(
        &mut self,
        rt: &Rt,
        step: Step,
        behind: Behind,
        turns: &mut T,
    ) -> Result<(), GateFault>
        ensures row { (ps : List Pair)
            × MatchResult result
            (λ done. IsRow (further_behind behind) 33 step ps)
            (λ e. IsCutRow (further_behind behind) 33 step ps)
            × AreAdded ps (T.pairs turns.old) (T.pairs turns.new) [] self.new.replies.items }
        ensures cause { IsErrOf result GateFault.Spent → T.spent turns.new ≡ true }
    {
        self.replies.clear();
        turns.commit_row(rt, step, behind, &mut self.replies)
    }

    /// The first reply. All are let go.
    pub(crate) fn first(&mut self) -> Reply
        requires { 0 < length self.old.replies.items }
        ensures first { result ≡ slice_index_or self.old.replies.items 0 result }
        ensures none { self.new.replies.items ≡ [] }
    {
        let reply = self.replies.swap_remove(0);
        self.replies.clear();
        reply
    }

    /// The last reply, where there is one. All are let go.
    pub(crate) fn last(&mut self) -> Option<Reply>
        ensures last { IsLast self.old.replies.items result }
        ensures none { self.new.replies.items ≡ [] }
    {
        let reply = self.replies.pop();
        self.replies.clear();
        reply
    }
}
