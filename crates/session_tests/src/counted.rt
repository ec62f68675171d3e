//! A seat whose steps are counted.
use hub_machine::{Reply, Step};
use srv_turns::{Behind, Turns};
use std::sync::Wait;
use turn_gate::GateFault;

/// How many steps of a connection were committed, of each kind that its reader may commit but for
/// work.
#[derive(Clone, Copy, Debug, PartialEq, Eq)]
pub struct Counts {
    pub packets: u64,
    pub bads: u64,
    pub closes: u64,
}

impl Counts {
    pub fn none() -> Counts {
        Counts {
            packets: 0,
            bads: 0,
            closes: 0,
        }
    }

    fn note(&mut self, step: &Step) {
        match step {
            Step::Packet(_, _) => self.packets = self.packets.saturating_add(1),
            Step::Bad(_, _) => self.bads = self.bads.saturating_add(1),
            Step::Close(_) => self.closes = self.closes.saturating_add(1),
            _ => {}
        }
    }
}

/// A caller whose steps are counted. While it rests, another caller closes connection 1.
#[derive(Drop)]
pub struct Counted<T, U> {
    pub turns: T,
    pub other: U,
    pub counts: Counts,
}

impl<T: Turns, U: Turns> Turns for Counted<T, U> {
    ghost pairs = { λ s. T.pairs s.turns };

    ghost spent = { λ s. T.spent s.turns };

    ghost lost = { λ s. T.lost s.turns };

    fn commit<R: Wait>(&mut self, rt: &R, step: Step) -> Result<Reply, GateFault> {
        self.counts.note(&step);
        self.turns.commit(rt, step)
    }

    fn commit_row<R: Wait>(
        &mut self,
        rt: &R,
        step: Step,
        behind: Behind,
        replies: &mut Vec<Reply>,
    ) -> Result<(), GateFault> {
        self.counts.note(&step);
        self.turns.commit_row(rt, step, behind, replies)
    }

    fn rest<R: Wait>(&mut self, rt: &R) {
        let _ = self.other.commit(rt, Step::Close(1));
    }

    fn has_ended<R: Wait>(&mut self, rt: &R, connection: u32) -> bool {
        self.turns.has_ended(rt, connection)
    }
}
