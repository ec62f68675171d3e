//! The machine that a row of steps is tried on.
ghost use Rattle.std.specs.Prelude.{◌≡◌, IfOk};
ghost use Rattle.rl_packet.specs.Holding.{held as held_by};
ghost use Rattle.hub_outs.specs.Outs.{sent_of};
ghost use Rattle.row_asking.specs.Replies.{holdings_value};
ghost use Rattle.row_steps.specs.Hands.{first_hand, hand_of};
ghost use Rattle.row_steps.specs.Stepping.{IsStepped, IsAnswered};

use ds_space::PlainSpace;
use hub_core::{Hub, Reply, Step};
use hub_outs::{Outs, turning};
use lc_watch::{Table, Watcher};
use pv_value::{NoMemory, Value};
use pv_words::number;
use rl_packet::held;
use row_asking::{Asked, actor_value, holdings_value, reply_value};
use sr_pass::NoNames;
use std::alloc::Global;

/// A hub, and what it sent to each connection.
#[derive(Drop)]
pub struct Machine {
    hub: Hub<PlainSpace, NoNames, Watcher<Table>>,
    outs: Outs,
}

impl Machine {
    /// A machine at its beginning.
    pub fn begin(alloc: Global) -> Result<Machine, NoMemory>
        ensures { IfOk result (λ machine. hand_of machine ≡ first_hand) }
    {
        Ok(Machine {
            hub: Hub::begin(alloc, NoNames, Watcher::new(Table))?,
            outs: Outs::new(alloc),
        })
    }

    /// The machine after a case, and what is answered.
    pub fn answer(self, alloc: Global, asked: Asked) -> Result<(Machine, Value), NoMemory>
        ensures { IfOk result (λ done.
            IsAnswered (hand_of self) asked (hand_of done.0) done.1) }
    {
        let given = match asked {
            Asked::Step(step) => return self.step(alloc, step),
            Asked::Pending => number(self.hub.pending()),
            Asked::Lowest => actor_value(alloc, self.hub.lowest())?,
            Asked::Live(connection) => Value::boolean(self.hub.live(connection)),
            Asked::Holds(connection) => self.holdings(alloc, connection)?,
        };
        Ok((self, given))
    }

    /// What the peer of a connection holds by the packets that it was sent.
    fn holdings(&self, alloc: Global, connection: u32) -> Result<Value, NoMemory>
        ensures { IfOk result (λ v. v
            ≡ holdings_value (held_by (sent_of connection self.now.outs))) }
    {
        let holdings = held(alloc, self.outs.of(connection))?;
        holdings_value(alloc, &holdings)
    }

    /// The machine after a step, and its reply.
    fn step(self, alloc: Global, step: Step) -> Result<(Machine, Value), NoMemory>
        ensures { IfOk result (λ done.
            IsStepped (hand_of self) step (hand_of done.0) done.1) }
    {
        let Machine { hub, mut outs } = self;
        let actor = turning(&step);
        let (hub, reply) = hub.step(alloc, step)?;
        let given = reply_value(alloc, &reply)?;
        if let Reply::Sent(packet) = reply {
            outs.keep(actor, packet)?;
        }
        Ok((Machine { hub, outs }, given))
    }
}
