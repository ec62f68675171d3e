//! What connections were sent.
ghost use Rattle.std.specs.Prelude.{◌≡◌, [], OnOk, OnErr};
ghost use Rattle.hub_outs.specs.Outs.{sent_of, with_sent, turning, kept};

use ac_world::BEFORE_CONNECTIONS;
use hub_machine::Step;
use pv_value::NoMemory;
use rl_packet::Packet;
use std::alloc::Global;
use std::collections::BTreeMap;
use std::marker::Model;

/// The packets that one connection was sent, in order.
#[derive(Drop)]
struct Packets {
    list: Vec<Packet>,
}

impl Model for Packets {
    ghost use Rattle.std.specs.Prelude.{List};
    ghost use Rattle.std.specs.Coded.{codes};
    ghost use Rattle.pv_value.specs.Lemmas.Coded.{plain_code};
    ghost use Rattle.rl_packet.specs.declared.packets.Packet.{Packet};

    ghost Value = { List Packet };

    ghost coded = { Prim.hlevel (codes, plain_code) };

    ghost view = { λ p. p.list.items };
}

/// The packets of each connection, by its number.
#[derive(Drop)]
pub struct Outs {
    alloc: Global,
    lists: BTreeMap<u32, Packets>,
}

impl Model for Outs {
    ghost use Rattle.std.specs.Coded.{codes};
    ghost use Rattle.pv_value.specs.Lemmas.Coded.{plain_code};
    ghost use Rattle.hub_outs.specs.Outs.{OutsState};

    ghost Value = { OutsState };

    ghost coded = { Prim.hlevel (codes, plain_code) };

    ghost view = { λ o. o.lists.entries };

    ghost use Rattle.std.specs.BTreeMap.{IsOrdered};
    ghost use Rattle.std.specs.Ordering.{nat_cmp};

    ghost invariant = { λ o. IsOrdered nat_cmp o.lists };
}

impl Outs {
    /// Nobody was sent anything.
    pub fn new(alloc: Global) -> Outs
        ensures { result ≡ [] }
    {
        Outs {
            alloc,
            lists: BTreeMap::new(alloc),
        }
    }

    /// What a connection was sent.
    pub fn of(&self, connection: u32) -> &[Packet]
        ensures { result.now ≡ sent_of connection self.now }
    {
        match self.lists.get(&connection) {
            Some(packets) => &packets.list,
            None => &[],
        }
    }

    /// Keeps a packet that a step sent, which is an actor's turn: for the connection that the actor
    /// is, where it is one. For want of memory nothing changes.
    pub fn keep(&mut self, actor: Option<u32>, packet: Packet) -> Result<(), NoMemory>
        ensures kept { OnOk result (self.new ≡ kept actor packet self.old) }
        ensures undone { OnErr result (self.new ≡ self.old) }
    {
        match actor {
            Some(actor) if actor >= BEFORE_CONNECTIONS => {
                self.add(actor - BEFORE_CONNECTIONS, packet)
            }
            _ => Ok(()),
        }
    }

    /// One more packet for a connection.
    fn add(&mut self, connection: u32, packet: Packet) -> Result<(), NoMemory>
        ensures kept { OnOk result (self.new ≡ with_sent connection packet self.old) }
        ensures undone { OnErr result (self.new ≡ self.old) }
    {
        if let Some(packets) = self.lists.get_mut(&connection) {
            packets.list.push(packet)?;
            return Ok(());
        }
        let mut list = Vec::new(self.alloc);
        list.push(packet)?;
        self.lists.insert(connection, Packets { list })?;
        Ok(())
    }
}

/// The actor whose turn a step is.
pub fn turning(step: &Step) -> Option<u32>
    ensures { result ≡ turning step.now }
{
    match step {
        Step::Turn(actor) => Some(*actor),
        _ => None,
    }
}
