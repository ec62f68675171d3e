//! The client, packet by packet.
ghost use Rattle.std.specs.Prelude.{◌≡◌, ◌<◌, ◌^◌, [], false, true, IfOk, IfErr, OnOk, OnErr};
ghost use Rattle.std.specs.Prelude.{is_some, IfSome, Some};
ghost use Rattle.rl_packet.specs.Wired.{IsTurnEvent, is_wired};
ghost use Rattle.sr_caveat.specs.Embedded.{has_embedded};
ghost use Rattle.dq_core.specs.declared.client.QueryFault.TheVariants as fault;
ghost use Rattle.dq_core.specs.Asking.{opening, observation};
ghost use Rattle.dq_core.specs.Clients.{begun, under, with_standing, without, with_answer};
ghost use Rattle.dq_core.specs.Reactions.{heard};
ghost use Rattle.dq_core.specs.Answers.{IsTaken, IsFaultOf};

use crate::asks;
use crate::hearing::Hearing;
use crate::lines::Lines;
use pv_value::{NoMemory, Value};
use rl_packet::{Packet, Turn, TurnEvent};
use std::alloc::{AllocFailed, Global};
use std::collections::BTreeMap;
use std::marker::Model;
use thiserror::Error;

/// Why the client goes no further.
#[derive(Clone, Copy, Debug, PartialEq, Eq, Error)]
pub enum QueryFault {
    /// The server rejected the reference.
    #[error("the reference was rejected")]
    Rejected,
    /// The server sent an error packet.
    #[error("the server sent an error")]
    ServerError,
    /// The server sent what no server may: an event at an object that the client doesn't have, an
    /// assertion under a handle that stands, a retraction of a handle that doesn't stand at its
    /// object, a turn of the older dialect, or an answer that neither accepts nor rejects.
    #[error("the server broke the protocol")]
    BadServer,
    #[error("out of memory")]
    NoMemory,
}

impl From<NoMemory> for QueryFault {
    ghost from_gives = { λ _ e. e ≡ fault.NoMemory };

    fn from(_: NoMemory) -> QueryFault {
        QueryFault::NoMemory
    }
}

impl<T: Drop> From<AllocFailed<T>> for QueryFault {
    ghost from_gives = { λ _ e. e ≡ fault.NoMemory };

    fn from(_: AllocFailed<T>) -> QueryFault {
        QueryFault::NoMemory
    }
}

/// What the server asserts under a handle: a value, at an object of the client.
#[derive(Drop)]
pub struct Standing {
    pub oid: u64,
    pub value: Value,
}

/// What one packet brings: lines to be printed, and a turn to be said, where anything is asked.
#[derive(Drop)]
pub struct Reaction {
    pub lines: Lines,
    pub ask: Option<Turn>,
}

/// A client of one server.
///
/// It keeps what the server asserts and hasn't taken back, and nothing else of what it heard.
#[derive(Drop)]
pub struct Client {
    pattern: Value,
    answered: bool,
    standing: BTreeMap<u64, Standing>,
}

impl Model for Client {
    ghost use Rattle.std.specs.Prelude.{◌≡◌, true};
    ghost use Rattle.std.specs.Coded.{codes};
    ghost use Rattle.pv_value.specs.Lemmas.Coded.{plain_code};
    ghost use Rattle.dq_core.specs.States.{ClientState};

    ghost Value = { ClientState };

    ghost coded = { Prim.hlevel (codes, plain_code) };

    ghost view = { λ c. record {
      pattern = c.pattern;
      answered = c.answered;
      standing = c.standing.entries;
    } };

    ghost use Rattle.rl_packet.specs.Wired.{is_wired};

    ghost invariant = { λ c. is_wired c.pattern ≡ true };
}

impl Client {
    /// A client that asks for what the reference names and is to observe the pattern there, and the
    /// turn that it says first.
    pub fn begin(
        alloc: Global,
        reference: Value,
        pattern: Value,
    ) -> Result<(Client, Turn), NoMemory>
        requires plain_reference { has_embedded reference ≡ false }
        requires plain_pattern { has_embedded pattern ≡ false }
        ensures client { IfOk result (λ x. x.0 ≡ begun pattern) }
        ensures turn { IfOk result (λ x. x.1 ≡ opening reference) }
    {
        let turn = asks::opening(alloc, reference)?;
        let client = Client {
            pattern,
            answered: false,
            standing: BTreeMap::new(alloc),
        };
        Ok((client, turn))
    }

    /// What a packet of the server brings. After a fault the client is gone, and nothing of the
    /// packet is told.
    pub fn take(self, alloc: Global, p: &Packet) -> Result<(Client, Reaction), QueryFault>
        ensures taken { IfOk result (IsTaken (heard p.now self)) }
        ensures fault { IfErr result (IsFaultOf (heard p.now self)) }
    {
        let mut hearing = Hearing::new(alloc, self);
        hearing.packet(alloc, p)?;
        Ok(hearing.finish())
    }

    /// Whether the server has answered for the reference.
    pub(crate) fn is_answered(&self) -> bool
        ensures { result ≡ self.now.answered }
    {
        self.answered
    }

    /// Whether something stands under a handle.
    pub(crate) fn has(&self, handle: u64) -> bool
        ensures { result ≡ is_some (under handle self.now) }
    {
        self.standing.contains_key(&handle)
    }

    /// A value stands under a handle from now on.
    pub(crate) fn put(&mut self, handle: u64, oid: u64, value: Value) -> Result<(), NoMemory>
        ensures { OnOk result (self.new ≡ with_standing handle oid value self.old) }
    {
        self.standing.insert(handle, Standing { oid, value })?;
        Ok(())
    }

    /// Nothing stands under a handle from now on. Answers what stood there.
    pub(crate) fn remove(&mut self, handle: u64) -> Option<Standing>
        ensures was { result ≡ under handle self.old }
        ensures gone { self.new ≡ without handle self.old }
    {
        self.standing.remove(&handle)
    }

    /// The server has answered. Answers the event by which the pattern is observed at its object n.
    pub(crate) fn accept(&mut self, alloc: Global, n: u64) -> Result<TurnEvent, NoMemory>
        requires { n < 2 ^ 63 }
        ensures answered { OnOk result (self.new ≡ with_answer self.old) }
        ensures event { IfOk result (λ e. e ≡ observation n self.old.pattern) }
        ensures good { IfOk result IsTurnEvent }
    {
        let event = asks::observation(alloc, n, self.pattern.copy()?)?;
        self.answered = true;
        Ok(event)
    }
}
