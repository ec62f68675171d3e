//! What a peer holds by the packets that it was sent.
ghost use Rattle.std.specs.Prelude.{◌≡◌, ◌++◌, ◌∷◌, List, map, true, IfOk, OnOk};
ghost use Rattle.std.specs.BTreeSet.{Updates};
ghost use Rattle.std.specs.Ordering.{nat_cmp};
ghost use Rattle.rl_packet.specs.declared.packets.TurnEvent.{TurnEvent as EventOf};
ghost use Rattle.rl_packet.specs.Holding.{events_in, held as holdings_of};
ghost use Rattle.rl_packet.specs.Kept.{holding_at, AreNumbered, IsPut, IsKept};

use crate::packets::{Event, Packet, TurnEvent};
use pv_value::{NoMemory, Value};
use std::alloc::Global;
use std::collections::{BTreeMap, BTreeSet};

/// An assertion that stands at an object of a peer.
#[derive(Drop)]
pub struct Holding {
    pub oid: u64,
    pub handle: u64,
    pub value: Value,
}

/// Where a holding stands among the others: by its object, then by its handle, and then behind
/// those with a lower number.
#[derive(Clone, Copy, PartialEq, Eq, PartialOrd, Ord)]
struct Place {
    oid: u64,
    handle: u64,
    number: usize,
}

/// What the last events leave: the handles that they retract, and the assertions that stand, in
/// order.
#[derive(Drop)]
struct Kept {
    retracted: BTreeSet<u64>,
    holdings: BTreeMap<Place, Value>,
}

impl Kept {
    /// What is left with one event before the others.
    fn event_before(&mut self, event: &TurnEvent) -> Result<(), NoMemory>
        ensures { OnOk result
            ((later : List EventOf) → IsKept later self.old
            → IsKept (event.now ∷ later) self.new) }
    {
        match &event.event {
            Event::Assert(value, handle) => {
                if self.retracted.contains(handle) {
                    Ok(())
                } else {
                    put(&mut self.holdings, event.oid, *handle, value)
                }
            }
            Event::Retract(handle) => retract(&mut self.retracted, *handle),
            Event::Message(_) | Event::Sync(_) => Ok(()),
        }
    }

    /// What is left with a turn's events before the others.
    fn turn_before(&mut self, events: &[TurnEvent]) -> Result<(), NoMemory>
        ensures { OnOk result
            ((later : List EventOf) → IsKept later self.old
            → IsKept (events.now ++ later) self.new) }
    {
        let count = events.len();
        for done in 0..count {
            self.event_before(&events[count - 1 - done])?;
        }
        Ok(())
    }

    /// What is left with a packet before the others.
    fn packet_before(&mut self, packet: &Packet) -> Result<(), NoMemory>
        ensures { OnOk result
            ((later : List EventOf) → IsKept later self.old
            → IsKept (events_in packet.now ++ later) self.new) }
    {
        match packet {
            Packet::Turn(turn) => self.turn_before(turn.events.as_slice()),
            Packet::Error(_, _) | Packet::Nop | Packet::Extension(_) => Ok(()),
        }
    }
}

/// One handle more is retracted.
fn retract(retracted: &mut BTreeSet<u64>, handle: u64) -> Result<(), NoMemory>
    ensures { OnOk result (Updates nat_cmp retracted.old retracted.new handle true) }
{
    retracted.insert(handle)?;
    Ok(())
}

/// One holding more, behind those that are there already at its object and handle.
fn put(
    holdings: &mut BTreeMap<Place, Value>,
    oid: u64,
    handle: u64,
    value: &Value,
) -> Result<(), NoMemory>
    ensures { OnOk result (AreNumbered holdings.old.entries
        → IsPut (record { oid = oid; handle = handle; value = value.now })
        holdings.old.entries holdings.new.entries) }
{
    let place = Place {
        oid,
        handle,
        number: holdings.len(),
    };
    holdings.insert(place, value.copy()?)?;
    Ok(())
}

/// The holdings at these places.
fn in_order(alloc: Global, holdings: BTreeMap<Place, Value>) -> Result<Vec<Holding>, NoMemory>
    ensures { IfOk result (λ hs. hs.items ≡ map holding_at holdings.entries) }
{
    let mut list = Vec::with_capacity(alloc, holdings.len())?;
    for (place, value) in holdings {
        list.push(Holding {
            oid: place.oid,
            handle: place.handle,
            value,
        })?;
    }
    Ok(list)
}

/// The assertions that stand after these packets, by object and then by handle.
pub fn held(alloc: Global, packets: &[Packet]) -> Result<Vec<Holding>, NoMemory>
    ensures { IfOk result (λ hs. hs.items ≡ holdings_of packets.now) }
{
    let mut kept = Kept {
        retracted: BTreeSet::new(alloc),
        holdings: BTreeMap::new(alloc),
    };
    let count = packets.len();
    for done in 0..count {
        kept.packet_before(&packets[count - 1 - done])?;
    }
    let Kept {
        retracted: _,
        holdings,
    } = kept;
    in_order(alloc, holdings)
}
