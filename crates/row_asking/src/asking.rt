//! What a case of a row of steps does, or what it asks.
ghost use Rattle.std.specs.Prelude.{◌≡◌, [], ◌∷◌, codes, IfOk};
ghost use Rattle.pv_value.specs.Plain.{symbol};
ghost use Rattle.pv_words.specs.Words.{labelled, number as number_value};
ghost use Rattle.row_asking.specs.Asking.{Asks, AsksBinding, AsksWatcher, IsTurnAt, IsCause};
ghost use Rattle.row_asking.specs.Asking.{fill_of};
ghost use Rattle.hub_machine.specs.declared.faults.Fault.TheVariants.{BadBytes};

use ac_world::Watched;
use gk_sturdy::Binding;
use hub_machine::{Fault as Cause, Step};
use pv_value::{Node, Value};
use pv_words::{is_word, number_in, worded};
use rl_packet::{Dialect, Event, Packet, PacketFault, Turn, TurnEvent, TurnEvents, packet_of};
use row_cases::Fault;
use sc_events::reference_to;
use std::alloc::Global;

/// What a case does, or what it asks.
#[derive(Drop)]
pub enum Asked {
    Step(Step),
    /// How much is pending.
    Pending,
    /// The lowest actor that has work.
    Lowest,
    /// Whether a connection is there.
    Live(u32),
    /// What the peer of a connection holds.
    Holds(u32),
}

/// What a value says.
pub fn asked_of(alloc: Global, value: &Value) -> Result<Asked, Fault>
    ensures { IfOk result (λ asked. Asks value.now asked) }
{
    if let Node::Sym(word) = &value.node {
        return asked_by_word(word.as_str());
    }
    match worded(value) {
        Some((word, fields)) => asked_by_record(alloc, word.as_str(), fields),
        None => Err(Fault::Form("no step or question")),
    }
}

fn asked_by_word(word: &str) -> Result<Asked, Fault>
    ensures { IfOk result (λ asked. Asks (symbol word.now) asked) }
{
    match word {
        "work" => Ok(Asked::Step(Step::Work)),
        "stop" => Ok(Asked::Step(Step::Stop)),
        "pending" => Ok(Asked::Pending),
        "lowest" => Ok(Asked::Lowest),
        _ => Err(Fault::Form("no step or question of this name")),
    }
}

/// What a record of this label and these fields says.
fn asked_by_record(alloc: Global, word: &str, fields: &[Value]) -> Result<Asked, Fault>
    ensures { IfOk result (λ asked. Asks (labelled word.now fields.now) asked) }
{
    match fields {
        [number] => asked_of_number(word, small_number(number)?),
        [connection, what] => sent_by(alloc, word, small_number(connection)?, what),
        [connection, value, handle, count] if word == "fill" => {
            let turn = assertions(alloc, value, number(handle)?, small_number(count)?)?;
            Ok(Asked::Step(Step::Packet(small_number(connection)?, turn)))
        }
        [oid, key, actor, caveats] if word == "bind" => {
            let binding = binding(alloc, oid, key, actor, caveats)?;
            Ok(Asked::Step(Step::Bind(binding)))
        }
        [from, pattern, to, name] if word == "watch" => {
            Ok(Asked::Step(Step::Watch(watched(from, pattern, to, name)?)))
        }
        _ => Err(Fault::Form("no step or question of so many fields")),
    }
}

/// The same of one field, a number.
fn asked_of_number(word: &str, n: u32) -> Result<Asked, Fault>
    ensures { IfOk result (λ asked. Asks (labelled word.now (number_value n ∷ [])) asked) }
{
    match word {
        "arrive" => match u8::try_from(n) {
            Ok(space) => Ok(Asked::Step(Step::Arrive(space))),
            Err(_) => Err(Fault::Form("no dataspace of 8 bits")),
        },
        "close" => Ok(Asked::Step(Step::Close(n))),
        "turn" => Ok(Asked::Step(Step::Turn(n))),
        "live" => Ok(Asked::Live(n)),
        "holds" => Ok(Asked::Holds(n)),
        _ => Err(Fault::Form("no step or question of this name")),
    }
}

/// The same of a connection's number, and what it sends.
fn sent_by(alloc: Global, word: &str, connection: u32, what: &Value) -> Result<Asked, Fault>
    ensures { IfOk result (λ asked.
        Asks (labelled word.now (number_value connection ∷ what.now ∷ [])) asked) }
{
    match word {
        "packet" => {
            let turn = turn_of(alloc, what)?;
            Ok(Asked::Step(Step::Packet(connection, turn)))
        }
        "bad" => Ok(Asked::Step(Step::Bad(connection, cause_of(what)?))),
        _ => Err(Fault::Form("no step of this name")),
    }
}

/// What is bound: an oid, to a key and to the reference to an actor itself with these caveats.
fn binding(
    alloc: Global,
    oid: &Value,
    key: &Value,
    actor: &Value,
    caveats: &Value,
) -> Result<Binding, Fault>
    ensures { IfOk result (λ b. AsksBinding
        (labelled (codes "bind") (oid.now ∷ key.now ∷ actor.now ∷ caveats.now ∷ [])) b) }
{
    let (Node::Bytes(key), Node::Seq(caveats)) = (&key.node, &caveats.node) else {
        return Err(Fault::Form("no key, or no caveats"));
    };
    let actor = small_number(actor)?;
    Ok(Binding {
        oid: oid.copy()?,
        key: key.copy()?,
        cap: reference_to(alloc, actor, caveats.as_slice())?,
    })
}

/// The watcher that a record of these fields is of.
fn watched(from: &Value, pattern: &Value, to: &Value, name: &Value) -> Result<Watched, Fault>
    ensures { IfOk result (λ x. AsksWatcher
        (labelled (codes "watch") (from.now ∷ pattern.now ∷ to.now ∷ name.now ∷ [])) x) }
{
    let Node::Sym(name) = &name.node else {
        return Err(Fault::Form("no name of a behaviour"));
    };
    Ok(Watched {
        from: space_number(from)?,
        pattern: pattern.copy()?,
        to: space_number(to)?,
        name: name.copy()?,
    })
}

/// A number of 8 bits.
fn space_number(value: &Value) -> Result<u8, Fault>
    ensures { IfOk result (λ n. value.now ≡ number_value n) }
{
    match u8::try_from(small_number(value)?) {
        Ok(n) => Ok(n),
        Err(_) => Err(Fault::Form("no number of 8 bits")),
    }
}

/// A turn as it stands on the wire.
fn turn_of(alloc: Global, value: &Value) -> Result<Turn, Fault>
    ensures { IfOk result (λ turn. IsTurnAt value.now turn) }
{
    match packet_of(alloc, value) {
        Ok(Packet::Turn(turn)) => Ok(turn),
        Ok(_) => Err(Fault::Form("a packet that is no turn")),
        Err(PacketFault::BadPacket) => Err(Fault::Form("no packet")),
        Err(PacketFault::NoMemory) => Err(Fault::NoMemory),
    }
}

/// A turn in the newer dialect that asserts a value so often, under the handles from this one on.
fn assertions(alloc: Global, value: &Value, handle: u64, count: u32) -> Result<Turn, Fault>
    ensures { IfOk result (λ turn. turn ≡ fill_of value.now handle count) }
{
    let mut events = Vec::new(alloc);
    for i in 0..count {
        let handle = handle.saturating_add(u64::from(i));
        let event = Event::Assert(value.copy()?, handle);
        events.push(TurnEvent { oid: 0, event })?;
    }
    match TurnEvents::of_events(events) {
        Some(events) => Ok(Turn::of(Dialect::Newer, events)),
        None => Err(Fault::Form("no packet")),
    }
}

/// Why what a connection sent is no packet: `bad-packet`, or `<bad-bytes kind place>`.
fn cause_of(value: &Value) -> Result<Cause, Fault>
    ensures { IfOk result (λ cause. IsCause value.now cause) }
{
    match (&value.node, worded(value)) {
        (Node::Sym(word), _) if is_word(word, b"bad-packet") => Ok(Cause::BadPacket),
        (_, Some((word, [kind, place]))) if is_word(word, b"bad-bytes") => {
            bad_bytes(small_number(kind)?, number(place)?)
        }
        _ => Err(Fault::Form("no fault: bad-packet, or <bad-bytes kind place>")),
    }
}

fn bad_bytes(kind: u32, place: u64) -> Result<Cause, Fault>
    ensures { IfOk result (λ cause. cause ≡ BadBytes kind place) }
{
    match u8::try_from(kind) {
        Ok(kind) => Ok(Cause::BadBytes(kind, place)),
        Err(_) => Err(Fault::Form("no kind of 8 bits")),
    }
}

fn number(value: &Value) -> Result<u64, Fault>
    ensures { IfOk result (λ n. value.now ≡ number_value n) }
{
    match number_in(value) {
        Some(n) => Ok(n),
        None => Err(Fault::Form("no number")),
    }
}

fn small_number(value: &Value) -> Result<u32, Fault>
    ensures { IfOk result (λ n. value.now ≡ number_value n) }
{
    match u32::try_from(number(value)?) {
        Ok(n) => Ok(n),
        Err(_) => Err(Fault::Form("no number of 32 bits")),
    }
}
