//! Reading values.
ghost use Rattle.std.specs.Prelude.{◌≡◌, ◌-◌, true, map, length, Option};
ghost use Rattle.pv_read.specs.Answers.{Gives};
ghost use Rattle.pv_lex.specs.declared.faults.TextKind.TheVariants as text;
ghost use Rattle.pv_read.specs.declared.ReadFault.TheVariants.{Bad};
ghost use Rattle.pv_text.specs.Ends.{end_fault};
ghost use Rattle.pv_text.specs.Reading.{closed_at, colon_at, entry_at, or_duplicate};
ghost use Rattle.pv_text.specs.Reading.{compound_at, opens, core_at, deeper_at, value_at};
ghost use Rattle.pv_value.specs.Plain.{Plain};
ghost use Rattle.pv_value.specs.Sets.{IsMade};
ghost use Rattle.pv_value.specs.View.{key_and_value};

use pv_lex::{Lexeme, Mark, TextFault, TextKind, lexeme_at, skip_blank};
use pv_value::{Entry, Items, SetFault, Value};
use std::alloc::Global;

/// What the end of the text is: the place of what isn't closed, or the end where no value was
/// begun.
#[derive(Clone, Copy)]
pub(crate) struct End {
    pub(crate) kind: TextKind,
    pub(crate) place: usize,
}

impl End {
    /// Inside what begins at this place.
    fn inside(place: usize) -> End
        ensures { end_fault result ≡ record { kind = text.Unclosed; place = place } }
    {
        End {
            kind: TextKind::Unclosed,
            place,
        }
    }

    pub(crate) fn fault(self) -> TextFault
        ensures { result ≡ Bad self.kind self.place }
    {
        TextFault::Bad(self.kind, self.place)
    }
}

/// The value behind a gap that nests at most `budget` deep, and the bytes after it, which are the
/// last of `total`. Annotations before it are read and dropped; they open no level, so they are
/// read without recursion.
#[cycle(read)]
pub(crate) fn read_value<'a>(
    alloc: Global,
    total: usize,
    budget: u32,
    commas: bool,
    at_end: End,
    bytes: &'a [u8],
) -> Result<(Value, &'a [u8]), TextFault>
    ensures { Gives (λ x. (x.0, x.1.now)) result
        (value_at total budget commas (end_fault at_end) bytes.now) }
{
    let mut pending = Vec::new(alloc);
    let mut at_end = at_end;
    let mut whole = skip_blank(commas, bytes);
    let most = whole.len();
    for _ in 0..most {
        let Some((first, after)) = whole.split_first() else {
            return Err(at_end.fault());
        };
        if *first == b'@' {
            let place = total.saturating_sub(whole.len());
            pending.push(place)?;
            at_end = End::inside(place);
            whole = skip_blank(commas, after);
            continue;
        }
        let (value, after) = read_core(alloc, total, budget, commas, whole)?;
        let Some(place) = pending.pop() else {
            return Ok((value, after));
        };
        at_end = End::inside(place);
        whole = skip_blank(commas, after);
    }
    Err(at_end.fault())
}

/// The value without annotations that the bytes begin with.
#[cycle(read)]
#[tactic(auto, unfolding(crate::specs::Reading::core_at, crate::specs::Reading::behind))]
fn read_core<'a>(
    alloc: Global,
    total: usize,
    budget: u32,
    commas: bool,
    whole: &'a [u8],
) -> Result<(Value, &'a [u8]), TextFault>
    ensures { Gives (λ x. (x.0, x.1.now)) result
        (core_at total (deeper_at total budget commas) whole.now) }
{
    let (lexeme, rest) = lexeme_at(alloc, total, whole)?;
    let mark = match lexeme {
        Lexeme::Atom(_, value) => return Ok((value, rest)),
        Lexeme::Mark(mark) => mark,
    };
    let place = total.saturating_sub(whole.len());
    if !opens(mark) {
        return Err(TextFault::Bad(TextKind::Unexpected, place));
    }
    if budget == 0 {
        return Err(TextFault::Bad(TextKind::TooDeep, place));
    }
    read_compound(alloc, total, budget - 1, commas, whole, mark, rest)
}

/// Whether a mark opens a level of nesting.
fn opens(mark: Mark) -> bool
    ensures { result ≡ opens mark }
{
    match mark {
        Mark::Embedded
        | Mark::RecordOpen
        | Mark::SequenceOpen
        | Mark::SetOpen
        | Mark::DictionaryOpen => true,
        _ => false,
    }
}

/// What stands behind the mark of the compound that `whole` begins with, whose values nest at most
/// `budget` deep.
#[cycle(read)]
#[tactic(auto, unfolding(crate::specs::Reading::compound_at))]
fn read_compound<'a>(
    alloc: Global,
    total: usize,
    budget: u32,
    commas: bool,
    whole: &[u8],
    mark: Mark,
    bytes: &'a [u8],
) -> Result<(Value, &'a [u8]), TextFault>
    ensures { Gives (λ x. (x.0, x.1.now)) result
        (compound_at total (value_at total budget) commas whole.now mark bytes.now) }
{
    let place = total.saturating_sub(whole.len());
    let at_end = End::inside(place);
    match mark {
        Mark::Embedded => {
            let (inside, rest) = read_value(alloc, total, budget, commas, at_end, bytes)?;
            Ok((Value::embedded(alloc, inside)?, rest))
        }
        Mark::RecordOpen => {
            let (label, rest) = read_value(alloc, total, budget, false, at_end, bytes)?;
            let (fields, rest) = read_items(alloc, total, budget, false, b'>', at_end, rest)?;
            Ok((Value::record(alloc, label, fields)?, rest))
        }
        Mark::SequenceOpen => {
            let (items, rest) = read_items(alloc, total, budget, true, b']', at_end, bytes)?;
            Ok((Value::sequence(Items::from_vec(alloc, items)?), rest))
        }
        Mark::SetOpen => {
            let (items, rest) = read_items(alloc, total, budget, true, b'}', at_end, bytes)?;
            Ok((or_duplicate(place, Value::set(alloc, items))?, rest))
        }
        Mark::DictionaryOpen => {
            let (entries, rest) = read_entries(alloc, total, budget, at_end, bytes)?;
            Ok((or_duplicate(place, Value::dict(alloc, entries))?, rest))
        }
        _ => Err(TextFault::Bad(TextKind::Unexpected, place)),
    }
}

/// Values up to the close.
#[cycle(read)]
fn read_items<'a>(
    alloc: Global,
    total: usize,
    budget: u32,
    commas: bool,
    close: u8,
    at_end: End,
    bytes: &'a [u8],
) -> Result<(Vec<Value>, &'a [u8]), TextFault>
    ensures { Gives (λ x. (x.0.items, x.1.now)) result
        (closed_at commas close (end_fault at_end)
        (value_at total budget commas (end_fault at_end)) bytes.now) }
{
    let mut items = Vec::new(alloc);
    let mut rest = bytes;
    for _ in 0..bytes.len() {
        let next = skip_blank(commas, rest);
        let Some((first, after)) = next.split_first() else {
            return Err(at_end.fault());
        };
        if *first == close {
            return Ok((items, after));
        }
        let (value, after) = read_value(alloc, total, budget, commas, at_end, next)?;
        items.push(value)?;
        rest = after;
    }
    Err(at_end.fault())
}

/// Entries up to the close.
#[cycle(read)]
fn read_entries<'a>(
    alloc: Global,
    total: usize,
    budget: u32,
    at_end: End,
    bytes: &'a [u8],
) -> Result<(Vec<Entry>, &'a [u8]), TextFault>
    ensures { Gives (λ x. (map key_and_value x.0.items, x.1.now)) result
        (closed_at true 125 (end_fault at_end)
        (entry_at total (value_at total budget true (end_fault at_end)) (end_fault at_end))
        bytes.now) }
{
    let mut entries = Vec::new(alloc);
    let mut rest = bytes;
    for _ in 0..bytes.len() {
        let next = skip_blank(true, rest);
        let Some((first, after)) = next.split_first() else {
            return Err(at_end.fault());
        };
        if *first == b'}' {
            return Ok((entries, after));
        }
        let (entry, after) = read_entry(alloc, total, budget, at_end, next)?;
        entries.push(entry)?;
        rest = after;
    }
    Err(at_end.fault())
}

/// A key, a colon and a value.
#[cycle(read)]
#[tactic(auto, unfolding(crate::specs::Reading::entry_at))]
fn read_entry<'a>(
    alloc: Global,
    total: usize,
    budget: u32,
    at_end: End,
    bytes: &'a [u8],
) -> Result<(Entry, &'a [u8]), TextFault>
    ensures { Gives (λ x. (key_and_value x.0, x.1.now)) result
        (entry_at total (value_at total budget true (end_fault at_end)) (end_fault at_end)
        bytes.now) }
{
    let (key, rest) = read_value(alloc, total, budget, true, at_end, bytes)?;
    let rest = behind_colon(total, at_end, rest)?;
    let (value, rest) = read_value(alloc, total, budget, true, at_end, rest)?;
    Ok((Entry { key, value }, rest))
}

/// What follows the colon of an entry.
fn behind_colon(total: usize, at_end: End, bytes: &[u8]) -> Result<&[u8], TextFault>
    ensures { Gives (λ x. x.now) result (colon_at total (end_fault at_end) bytes.now) }
{
    let next = skip_blank(true, bytes);
    match next.split_first() {
        None => Err(at_end.fault()),
        Some((b':', after)) => Ok(after),
        Some(_) => Err(TextFault::Bad(TextKind::Unexpected, total.saturating_sub(next.len()))),
    }
}

/// The set or dictionary that was made of what begins at this place.
fn or_duplicate(place: usize, made: Result<Value, SetFault>) -> Result<Value, TextFault>
    ensures { (o : Option Plain) → IsMade made o → Gives (λ v. v) result (or_duplicate place o) }
{
    match made {
        Ok(v) => Ok(v),
        Err(SetFault::NoMemory) => Err(TextFault::NoMemory),
        Err(SetFault::Duplicate(_)) => Err(TextFault::Bad(TextKind::Duplicate, place)),
    }
}
