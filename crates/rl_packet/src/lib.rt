//! Packets: what connections send and get, as values, and what a peer holds by the packets that it
//! was sent.
//!
//! A packet's value is that of `specs/Packets.antt`, and `specs/Grammar.antt` says which values are
//! packets.
#![tactic(auto)]

mod holding;
mod laws;
mod packets;
mod reading;
mod spelled;
mod writing;

pub use holding::{Holding, held};
pub use laws::one_packet_a_value;
pub use packets::{Dialect, Event, Packet, Turn, TurnEvent, TurnEvents, packet_value};
pub use reading::{PacketFault, packet_of};
pub use spelled::turn_in;
pub use writing::{packet_size, write_packet_into};
