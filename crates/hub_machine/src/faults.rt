//! Why connections end.
ghost use Rattle.std.specs.Prelude.{◌≡◌, ◌++◌, map, IfOk};
ghost use Rattle.pv_words.specs.Words.{number as number_told};
ghost use Rattle.hub_machine.specs.Faults.{error_with, error_of, over as is_over};
ghost use Rattle.hub_machine.specs.Faults.{overrun as is_overrun};

use pv_value::{Items, NoMemory, Text, Value};
use pv_words::number;
use rl_packet::Packet;
use std::alloc::Global;

/// Why a connection ended. Its peer is told by one error packet.
#[derive(Clone, Copy, Debug, PartialEq, Eq)]
pub enum Fault {
    /// What it sent is no value: the kind of the fault, from 2 on, and its place in all that was
    /// sent.
    BadBytes(u8, u64),
    /// What it sent is no packet.
    BadPacket,
    /// No object has this number.
    UnknownOid(u64),
    /// Something is asserted under this handle already.
    HandleInUse(u64),
    /// Nothing is asserted under this handle.
    UnknownHandle(u64),
    /// A packet goes past the limit of this number: what was counted.
    Limit(u8, u64),
    /// More waits for it, or is held for it, than may be. 1 is told with a count, 2 with a weight.
    Overrun(u8, u64),
    /// What it did would make a dataspace want or send so much.
    Spread(u64),
}

/// The limit of this number, where n is more than the most that may be.
pub fn over(most: u64, which: u8, n: u64) -> Option<Fault>
    ensures { result ≡ is_over most which n }
{
    if n > most {
        Some(Fault::Limit(which, n))
    } else {
        None
    }
}

/// The same of what is delivered.
pub fn overrun(most: u64, which: u8, n: u64) -> Option<Fault>
    ensures { result ≡ is_overrun most which n }
{
    if n > most {
        Some(Fault::Overrun(which, n))
    } else {
        None
    }
}

/// `<error message [number ..]>`
fn error(alloc: Global, message: &str, numbers: &[u64]) -> Result<Packet, NoMemory>
    ensures { IfOk result (λ p. p ≡ error_with message.now numbers.now) }
{
    let mut items = Vec::new(alloc);
    for n in numbers {
        items.push(number(*n))?;
    }
    let detail = Value::sequence(Items::from_vec(alloc, items)?);
    let message = Value::string(Text::from_str(alloc, message)?);
    Ok(Packet::Error(message, detail))
}

impl Fault {
    /// The error packet that tells it.
    pub fn packet(self, alloc: Global) -> Result<Packet, NoMemory>
        ensures { IfOk result (λ p. p ≡ error_of self) }
    {
        match self {
            Fault::BadBytes(kind, place) => error(alloc, "bad bytes", &[u64::from(kind), place]),
            Fault::BadPacket => error(alloc, "bad packet", &[30]),
            Fault::UnknownOid(oid) => error(alloc, "unknown oid", &[31, oid]),
            Fault::HandleInUse(handle) => error(alloc, "handle in use", &[32, handle]),
            Fault::UnknownHandle(handle) => error(alloc, "unknown handle", &[33, handle]),
            Fault::Limit(which, n) => error(alloc, "limit", &[34, u64::from(which), n]),
            Fault::Overrun(which, n) => error(alloc, "overrun", &[35, u64::from(which), n]),
            Fault::Spread(weight) => error(alloc, "spread", &[36, weight]),
        }
    }
}
