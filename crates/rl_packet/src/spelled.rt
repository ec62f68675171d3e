//! The turn that bytes begin with, of which no value is made but those that its events hold.
ghost use Rattle.std.specs.Prelude.{◌≡◌, ℕ, ◌<◌, ◌^◌, List, [], ◌∷◌, pos, map};
ghost use Rattle.std.specs.Prelude.{IfOk, IfSome, IfNone};
ghost use Rattle.std.specs.List.{AllByRecursion};
ghost use Rattle.pv_value.specs.Plain.{Plain};
ghost use Rattle.pv_words.specs.Words.{number};
ghost use Rattle.pv_binary.specs.Reads.{BeginsWith};
ghost use Rattle.rl_packet.specs.Packets.{Dialect, Newer, Older, TurnRecord, event_value};
ghost use Rattle.rl_packet.specs.Packets.{aimed_value};
ghost use Rattle.rl_packet.specs.Packets.{turn_value};
ghost use Rattle.rl_packet.specs.Packets.{assert_word, retract_word, message_word, sync_word};
ghost use Rattle.rl_packet.specs.Wired.{IsEvent, IsTurnEvent};
ghost use Rattle.rl_packet.specs.Grammar.{IsTurn};
ghost use Rattle.rl_packet.specs.Spelled.{Begins, BeginsAll, opened, label_of, Kind};
ghost use Rattle.rl_packet.specs.Spelled.{NoNumber, NoEvent, NoAimed, NoEvents, NoTurn};

use crate::packets::{Dialect, Event, Turn, TurnEvent, TurnEvents};
use crate::reading::{is_peer, is_wired};
use pv_binary::{read_int, read_within, tags};
use pv_read::READ_DEPTH;
use pv_value::{NoMemory, Value};
use std::alloc::Global;

/// How deep a value in an event may nest: the turn, the event at its object and the event itself
/// are three levels more.
const VALUE_DEPTH: u32 = READ_DEPTH - 3;

/// The turn that the bytes begin with, and how many bytes spell it; none only where they begin with
/// something else, or with a turn that isn't whole or nests deeper than is read: what that is,
/// `read` and `packet_of` tell. In the dialect that isn't the turn's the first event is refused,
/// and nothing behind it is looked at.
pub fn turn_in(alloc: Global, bytes: &[u8]) -> Result<Option<(Turn, usize)>, NoMemory>
    ensures turn { IfOk result (λ o. IfSome o (λ x.
        BeginsWith bytes.now x.1 (turn_value x.0))) }
    ensures good { IfOk result (λ o. IfSome o (λ x. IsTurn x.0)) }
    ensures none { IfOk result (λ o. IfNone o ((t : TurnRecord) (n : ℕ)
        → IsTurn t → BeginsWith bytes.now n (turn_value t) → ⊥)) }
{
    let likely = likely_dialect(bytes);
    match spoken_in(alloc, likely, bytes)? {
        Some(found) => Ok(Some(found)),
        None => spoken_in(alloc, likely.other(), bytes),
    }
}

/// The dialect to try first: the older one where the word that is the first event's label has more
/// than one letter. Nothing but how long it takes goes by it.
fn likely_dialect(bytes: &[u8]) -> Dialect {
    match first_word_len(bytes) {
        Some(0 | 1) | None => Dialect::Newer,
        Some(_) => Dialect::Older,
    }
}

/// What stands where a turn has the length of its first event's label, behind the length of the
/// event's oid.
fn first_word_len(bytes: &[u8]) -> Option<u8> {
    let oid_len = *bytes.get(3)?;
    bytes.get(usize::from(oid_len) + 6).copied()
}

/// The turn in the dialect that the bytes begin with, and how many bytes spell it.
fn spoken_in(
    alloc: Global,
    dialect: Dialect,
    bytes: &[u8],
) -> Result<Option<(Turn, usize)>, NoMemory>
    ensures turn { IfOk result (λ o. IfSome o (λ x.
        BeginsWith bytes.now x.1 (turn_value x.0))) }
    ensures good { IfOk result (λ o. IfSome o (λ x. IsTurn x.0)) }
    ensures none { IfOk result (λ o. IfNone o (NoTurn dialect bytes.now)) }
{
    let Some(rest) = behind(bytes, tags::SEQUENCE) else {
        return Ok(None);
    };
    let Some((events, rest)) = events_in(alloc, dialect, rest)? else {
        return Ok(None);
    };
    let size = bytes.len() - rest.len();
    let turn = Turn::of(dialect, TurnEvents::from_vec(events));
    Ok(Some((turn, size)))
}

/// The bytes behind this one, where they begin with it.
fn behind(bytes: &[u8], first: u8) -> Option<&[u8]>
    ensures found { IfSome result (λ rest. bytes.now ≡ first ∷ rest.now) }
    ensures none { IfNone result ((rest : List ℕ) → bytes.now ≡ first ∷ rest → ⊥) }
{
    let Some((byte, rest)) = bytes.split_first() else {
        return None;
    };
    if *byte != first {
        return None;
    }
    Some(rest)
}

/// The number that an integer is, where it is from 0 to `i64::MAX`.
fn number_of(n: i128) -> Option<u64>
    ensures found { IfSome result (λ m. (m < 2 ^ 63) × (n ≡ pos m)) }
    ensures none { IfNone result ((m : ℕ) → m < 2 ^ 63 → n ≡ pos m → ⊥) }
{
    if n < 0 || n >= 1 << 63 {
        return None;
    }
    Some(n as u64)
}

/// The number that the bytes begin with, and the bytes behind it.
fn number_in(bytes: &[u8]) -> Option<(u64, &[u8])>
    ensures found { IfSome result (λ x.
        (x.0 < 2 ^ 63) × Begins 0 bytes.now (number x.0) x.1.now) }
    ensures none { IfNone result (NoNumber bytes.now) }
{
    let Some(digits) = behind(bytes, tags::INTEGER) else {
        return None;
    };
    let Ok((z, rest)) = read_int(digits) else {
        return None;
    };
    let Some(n) = number_of(z) else {
        return None;
    };
    Some((n, rest))
}

/// The events up to the end of their sequence, and the bytes behind it. Most turns have one, for
/// which there is room at once.
fn events_in(
    alloc: Global,
    dialect: Dialect,
    bytes: &[u8],
) -> Result<Option<(Vec<TurnEvent>, &[u8])>, NoMemory>
    ensures good { IfOk result (λ o. IfSome o (λ x. AllByRecursion IsTurnEvent x.0.items)) }
    ensures events { IfOk result (λ o. IfSome o (λ x.
        BeginsAll 63 bytes.now (map (aimed_value dialect) x.0.items) x.1.now)) }
    ensures none { IfOk result (λ o. IfNone o (NoEvents dialect bytes.now)) }
{
    let mut events = Vec::with_capacity(alloc, 1)?;
    let mut rest = bytes;
    for _ in 0..bytes.len() {
        if let Some(after) = behind(rest, tags::END) {
            return Ok(Some((events, after)));
        }
        let Some((event, after)) = aimed_in(alloc, dialect, rest)? else {
            return Ok(None);
        };
        events.push(event)?;
        rest = after;
    }
    Ok(None)
}

/// The event at an object that the bytes begin with, and the bytes behind it.
fn aimed_in(
    alloc: Global,
    dialect: Dialect,
    bytes: &[u8],
) -> Result<Option<(TurnEvent, &[u8])>, NoMemory>
    ensures good { IfOk result (λ o. IfSome o (λ x. IsTurnEvent x.0)) }
    ensures event { IfOk result (λ o. IfSome o (λ x.
        Begins 63 bytes.now (aimed_value dialect x.0) x.1.now)) }
    ensures none { IfOk result (λ o. IfNone o (NoAimed dialect bytes.now)) }
{
    let Some(aim) = behind(bytes, tags::SEQUENCE) else {
        return Ok(None);
    };
    let Some((oid, record)) = number_in(aim) else {
        return Ok(None);
    };
    let Some((event, end)) = event_in(alloc, dialect, record)? else {
        return Ok(None);
    };
    let Some(rest) = behind(end, tags::END) else {
        return Ok(None);
    };
    Ok(Some((TurnEvent { oid, event }, rest)))
}

/// The word that is the label of the record that the bytes begin with, where a byte tells how long
/// it is, and the bytes of the record's fields.
fn word_in(bytes: &[u8]) -> Option<(&[u8], &[u8])>
    ensures found { IfSome result (λ x. bytes.now ≡ opened x.0.now x.1.now) }
    ensures none { IfNone result ((word : List ℕ) (fields : List ℕ)
        → bytes.now ≡ opened word fields → ⊥) }
{
    let Some(label) = behind(bytes, tags::RECORD) else {
        return None;
    };
    let Some(symbol) = behind(label, tags::SYMBOL) else {
        return None;
    };
    let Some((count, text)) = symbol.split_first() else {
        return None;
    };
    let count = usize::from(*count);
    if text.len() < count {
        return None;
    }
    Some(text.split_at(count))
}

/// What an event is, told by the label of its record.
#[derive(Clone, Copy)]
enum Kind {
    Assertion,
    Retraction,
    Message,
    Sync,
}

/// The kind of event whose label the word is in the dialect.
fn kind_in(dialect: Dialect, word: &[u8]) -> Option<Kind>
    ensures found { IfSome result (λ kind. word.now ≡ label_of dialect kind) }
    ensures none { IfNone result ((kind : Kind) → word.now ≡ label_of dialect kind → ⊥) }
{
    match dialect {
        Dialect::Newer => kind_by_letter(word),
        Dialect::Older => kind_by_word(word),
    }
}

/// The kind whose label is one letter.
fn kind_by_letter(word: &[u8]) -> Option<Kind>
    ensures found { IfSome result (λ kind. word.now ≡ label_of Newer kind) }
    ensures none { IfNone result ((kind : Kind) → word.now ≡ label_of Newer kind → ⊥) }
{
    let [letter] = word else {
        return None;
    };
    match *letter {
        b'A' => Some(Kind::Assertion),
        b'R' => Some(Kind::Retraction),
        b'M' => Some(Kind::Message),
        b'S' => Some(Kind::Sync),
        _ => None,
    }
}

/// The kind whose label is a whole word.
fn kind_by_word(word: &[u8]) -> Option<Kind>
    ensures found { IfSome result (λ kind. word.now ≡ label_of Older kind) }
    ensures none { IfNone result ((kind : Kind) → word.now ≡ label_of Older kind → ⊥) }
{
    if word == Dialect::Older.assert_word().as_bytes() {
        Some(Kind::Assertion)
    } else if word == Dialect::Older.retract_word().as_bytes() {
        Some(Kind::Retraction)
    } else if word == Dialect::Older.message_word().as_bytes() {
        Some(Kind::Message)
    } else if word == Dialect::Older.sync_word().as_bytes() {
        Some(Kind::Sync)
    } else {
        None
    }
}

/// The event that the bytes begin with, and the bytes behind it.
fn event_in(
    alloc: Global,
    dialect: Dialect,
    bytes: &[u8],
) -> Result<Option<(Event, &[u8])>, NoMemory>
    ensures good { IfOk result (λ o. IfSome o (λ x. IsEvent x.0)) }
    ensures event { IfOk result (λ o. IfSome o (λ x.
        Begins 62 bytes.now (event_value dialect x.0) x.1.now)) }
    ensures none { IfOk result (λ o. IfNone o (NoEvent dialect bytes.now)) }
{
    let Some((word, fields)) = word_in(bytes) else {
        return Ok(None);
    };
    match kind_in(dialect, word) {
        Some(Kind::Assertion) => assertion_in(alloc, fields),
        Some(Kind::Retraction) => Ok(retraction_in(fields)),
        Some(Kind::Message) => message_in(alloc, fields),
        Some(Kind::Sync) => sync_in(alloc, fields),
        None => Ok(None),
    }
}

/// The assertion whose fields the bytes begin with, and the bytes behind it.
fn assertion_in(alloc: Global, bytes: &[u8]) -> Result<Option<(Event, &[u8])>, NoMemory>
    ensures good { IfOk result (λ o. IfSome o (λ x. IsEvent x.0)) }
    ensures event { (d : Dialect) → IfOk result (λ o. IfSome o (λ x.
        Begins 62 (opened (assert_word d) bytes.now) (event_value d x.0) x.1.now)) }
    ensures none { (d : Dialect) → IfOk result (λ o. IfNone o
        (NoEvent d (opened (assert_word d) bytes.now))) }
{
    let Some((value, count)) = read_within(alloc, bytes, VALUE_DEPTH)? else {
        return Ok(None);
    };
    let Some((handle, end)) = number_in(count) else {
        return Ok(None);
    };
    let Some(rest) = behind(end, tags::END) else {
        return Ok(None);
    };
    if !is_wired(&value) {
        return Ok(None);
    }
    Ok(Some((Event::Assert(value, handle), rest)))
}

/// The retraction whose field the bytes begin with, and the bytes behind it.
fn retraction_in(bytes: &[u8]) -> Option<(Event, &[u8])>
    ensures good { IfSome result (λ x. IsEvent x.0) }
    ensures event { (d : Dialect) → IfSome result (λ x.
        Begins 62 (opened (retract_word d) bytes.now) (event_value d x.0) x.1.now) }
    ensures none { (d : Dialect) → IfNone result
        (NoEvent d (opened (retract_word d) bytes.now)) }
{
    let Some((handle, end)) = number_in(bytes) else {
        return None;
    };
    let Some(rest) = behind(end, tags::END) else {
        return None;
    };
    Some((Event::Retract(handle), rest))
}

/// The one field of a record that the bytes begin with, up to the record's end, and the bytes
/// behind that.
fn field_in(alloc: Global, bytes: &[u8]) -> Result<Option<(Value, &[u8])>, NoMemory>
    ensures found { IfOk result (λ o. IfSome o (λ x. BeginsAll 61 bytes.now (x.0 ∷ []) x.1.now)) }
    ensures none { IfOk result (λ o. IfNone o ((v : Plain) (rest : List ℕ)
        → BeginsAll 61 bytes.now (v ∷ []) rest → ⊥)) }
{
    let Some((value, end)) = read_within(alloc, bytes, VALUE_DEPTH)? else {
        return Ok(None);
    };
    let Some(rest) = behind(end, tags::END) else {
        return Ok(None);
    };
    Ok(Some((value, rest)))
}

/// The message whose field the bytes begin with, and the bytes behind it.
fn message_in(alloc: Global, bytes: &[u8]) -> Result<Option<(Event, &[u8])>, NoMemory>
    ensures good { IfOk result (λ o. IfSome o (λ x. IsEvent x.0)) }
    ensures event { (d : Dialect) → IfOk result (λ o. IfSome o (λ x.
        Begins 62 (opened (message_word d) bytes.now) (event_value d x.0) x.1.now)) }
    ensures none { (d : Dialect) → IfOk result (λ o. IfNone o
        (NoEvent d (opened (message_word d) bytes.now))) }
{
    let Some((body, rest)) = field_in(alloc, bytes)? else {
        return Ok(None);
    };
    if !is_wired(&body) {
        return Ok(None);
    }
    Ok(Some((Event::Message(body), rest)))
}

/// The sync whose field the bytes begin with, and the bytes behind it.
fn sync_in(alloc: Global, bytes: &[u8]) -> Result<Option<(Event, &[u8])>, NoMemory>
    ensures good { IfOk result (λ o. IfSome o (λ x. IsEvent x.0)) }
    ensures event { (d : Dialect) → IfOk result (λ o. IfSome o (λ x.
        Begins 62 (opened (sync_word d) bytes.now) (event_value d x.0) x.1.now)) }
    ensures none { (d : Dialect) → IfOk result (λ o. IfNone o
        (NoEvent d (opened (sync_word d) bytes.now))) }
{
    let Some((peer, rest)) = field_in(alloc, bytes)? else {
        return Ok(None);
    };
    if !is_peer(&peer) {
        return Ok(None);
    }
    Ok(Some((Event::Sync(peer), rest)))
}
