//! What the hub answers, as values.
ghost use Rattle.std.specs.Prelude.{◌≡◌, [], ◌∷◌, IfOk};
ghost use Rattle.pv_value.specs.Plain.{symbol};
ghost use Rattle.pv_words.specs.Words.{labelled as labelled_value};
ghost use Rattle.row_asking.specs.Replies.{reply_value, actor_value, holdings_value};

use hub_machine::Reply;
use pv_value::{NoMemory, Text, Value};
use pv_words::{labelled, number};
use rl_packet::{Holding, packet_value};
use sc_report::holdings;
use std::alloc::Global;

/// A reply: a word, or a record of a number or of a packet.
pub fn reply_value(alloc: Global, reply: &Reply) -> Result<Value, NoMemory>
    ensures { IfOk result (λ v. v ≡ reply_value reply.now) }
{
    match reply {
        Reply::Opened(connection) => with(alloc, "opened", number(u64::from(*connection))),
        Reply::Refused(fault) => {
            let packet = fault.packet(alloc)?;
            with(alloc, "refused", packet_value(alloc, &packet)?)
        }
        Reply::Sent(packet) => with(alloc, "sent", packet_value(alloc, packet)?),
        Reply::Worn => word(alloc, "worn"),
        Reply::Barred => word(alloc, "barred"),
        Reply::Halted => word(alloc, "halted"),
        Reply::Full => word(alloc, "full"),
        Reply::Gone => word(alloc, "gone"),
        Reply::Idle => word(alloc, "idle"),
        Reply::Ran => word(alloc, "ran"),
        Reply::Taken => word(alloc, "taken"),
    }
}

fn word(alloc: Global, word: &str) -> Result<Value, NoMemory>
    ensures { IfOk result (λ v. v ≡ symbol word.now) }
{
    Ok(Value::symbol(Text::from_str(alloc, word)?))
}

/// A record of one field.
fn with(alloc: Global, label: &str, field: Value) -> Result<Value, NoMemory>
    ensures { IfOk result (λ v. v ≡ labelled_value label.now (field ∷ [])) }
{
    let mut fields = Vec::new(alloc);
    fields.push(field)?;
    labelled(alloc, label, fields)
}

/// An actor's number, or `none`.
pub fn actor_value(alloc: Global, actor: Option<u32>) -> Result<Value, NoMemory>
    ensures { IfOk result (λ v. v ≡ actor_value actor) }
{
    match actor {
        Some(actor) => Ok(number(u64::from(actor))),
        None => word(alloc, "none"),
    }
}

/// `[<holds oid handle value> ..]`
pub fn holdings_value(alloc: Global, held: &[Holding]) -> Result<Value, NoMemory>
    ensures { IfOk result (λ v. v ≡ holdings_value held.now) }
{
    Ok(Value::sequence(holdings(alloc, held)?))
}
