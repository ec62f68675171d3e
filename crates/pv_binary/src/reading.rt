//! Reading values.
ghost use Rattle.std.specs.Prelude.{◌≡◌, ◌≤◌, ℕ, List, [], ◌∷◌, ◌++◌, length, map, IfOk, IfSome};
ghost use Rattle.std.specs.Prelude.{IfNone, Option};
ghost use Rattle.pv_value.specs.Plain.{Plain};
ghost use Rattle.pv_value.specs.Sets.{IsMade};
ghost use Rattle.pv_value.specs.View.{key_and_value};
ghost use Rattle.pv_read.specs.Answers.{Gives, IsAnswer, IsExact, IsFault};
ghost use Rattle.pv_read.specs.Limits.{read_depth};
ghost use Rattle.pv_read.specs.Results.{Fault, within};
ghost use Rattle.pv_binary.specs.Fronts.{Front, truncated, Stands};
ghost use Rattle.pv_binary.specs.Reading.{no_tag, atom_at, made_at, items_at, pairs_at};
ghost use Rattle.pv_binary.specs.Reading.{compound_at, value_at};
ghost use Rattle.pv_binary.specs.Reads.{BeginsWith, LeadsWithin, Stops};
ghost use Rattle.pv_binary.specs.declared.faults.BinKind.{BinKind};
ghost use Rattle.pv_binary.specs.declared.tag.Tag.TheVariants as kind;

use crate::atoms::{read_counted, read_double, read_int, read_text};
use crate::faults::{BinFault, BinKind};
use crate::tag::Tag;
use crate::tags::{self, END};
use pv_read::{READ_DEPTH, at};
use pv_value::{Blob, Entry, Items, NoMemory, SetFault, Text, Value};
use std::alloc::Global;

/// The value that the bytes begin with, and how many bytes spell it. Bytes may follow.
#[inline(always)]
pub fn read(alloc: Global, bytes: &[u8]) -> Result<(Value, usize), BinFault>
    // What is read is spelled so.
    ensures found { IfOk result (λ x. BeginsWith bytes.now x.1 x.0) }
    // What is spelled so is read, unless memory runs out.
    ensures only { (n : ℕ) (v : Plain) → BeginsWith bytes.now n v
        → IsAnswer {Y = Plain × ℕ} (λ x. (x.0, x.1)) result (v, n) }
    // A fault comes only where nothing is spelled so.
    ensures bad { IsExact result (λ f. (n : ℕ) (v : Plain) → BeginsWith bytes.now n v → ⊥) }

    // A fault that is answered stands there: the bytes end within a value, or what follows can be
    // no part of one.
    ensures exact { IsExact result (Stops bytes.now) }
    // A fault that stands is answered, unless memory runs out.
    ensures only_fault { (f : Fault BinKind) → Stands bytes.now f → IsFault result f }
    ensures only_front { (path : List ℕ) → Front bytes.now path
        → IsFault result (truncated bytes.now path) }
{
    let mut rest = bytes;
    let value = read_value(alloc, &mut rest, bytes.len(), READ_DEPTH)?;
    Ok((value, bytes.len() - rest.len()))
}

/// The value that the bytes begin with, where it nests at most `budget` deep, and the bytes behind
/// it. For who reads what stands around it; why there is none, `read` tells.
#[inline(always)]
pub fn read_within(
    alloc: Global,
    bytes: &[u8],
    budget: u32,
) -> Result<Option<(Value, &[u8])>, NoMemory>
    requires { budget ≤ read_depth }
    ensures found { IfOk result (λ o. IfSome o (λ x. LeadsWithin budget bytes.now x.0 x.1.now)) }
    ensures none { IfOk result (λ o. IfNone o ((v : Plain) (more : List ℕ)
        → LeadsWithin budget bytes.now v more → ⊥)) }
{
    let mut rest = bytes;
    match read_value(alloc, &mut rest, bytes.len(), budget) {
        Ok(value) => Ok(Some((value, rest))),
        Err(BinFault::NoMemory) => Err(NoMemory),
        Err(BinFault::Bad(_, _)) => Ok(None),
    }
}

/// The value that the input begins with, which nests at most `budget` deep. The bytes after it are
/// left; where there is no value, it isn't said what is. The input is the last of `total` bytes,
/// which tells the place of a fault.
#[cycle(read)]
#[tactic(auto, unfolding(crate::specs::Reading::value_at, crate::specs::Reading::behind))]
fn read_value(
    alloc: Global,
    input: &mut &[u8],
    total: usize,
    budget: u32,
) -> Result<Value, BinFault>
    ensures { Gives (λ v. (v, input.new.now)) result (value_at total budget input.old.now) }
{
    let bytes: &[u8] = *input;
    let place = total.saturating_sub(bytes.len());
    let Some((byte, rest)) = bytes.split_first() else {
        return Err(BinFault::Bad(BinKind::Truncated, total));
    };
    *input = rest;
    let tag = Tag::of(*byte);
    if !tag.is_compound() {
        return read_atom(alloc, tag, input, place);
    }
    if budget == 0 {
        return Err(BinFault::Bad(BinKind::TooDeep, place));
    }
    read_compound(alloc, tag, input, total, place, budget - 1)
}

/// What stands behind the tag of an atom.
#[tactic(auto, unfolding(crate::specs::Reading::atom_at))]
fn read_atom(alloc: Global, tag: Tag, input: &mut &[u8], place: usize) -> Result<Value, BinFault>
    ensures { Gives (λ v. (v, input.new.now)) result (atom_at place tag input.old.now) }
{
    match tag {
        Tag::False => Ok(Value::boolean(false)),
        Tag::True => Ok(Value::boolean(true)),
        Tag::Double => {
            let (bits, rest) = at(place, read_double(*input))?;
            *input = rest;
            Ok(Value::double(bits))
        }
        Tag::Integer => {
            let (n, rest) = at(place, read_int(*input))?;
            *input = rest;
            Ok(Value::integer(n))
        }
        Tag::String => {
            let (text, rest) = at(place, read_text(*input))?;
            *input = rest;
            Ok(Value::string(Text::from_str(alloc, text)?))
        }
        Tag::ByteString => {
            let (blob, rest) = at(place, read_counted(*input))?;
            *input = rest;
            Ok(Value::byte_string(Blob::from_slice(alloc, blob)?))
        }
        Tag::Symbol => {
            let (text, rest) = at(place, read_text(*input))?;
            *input = rest;
            Ok(Value::symbol(Text::from_str(alloc, text)?))
        }
        _ => Err(BinFault::Bad(BinKind::BadTag, place)),
    }
}

/// What stands behind the tag of a compound, which holds values that nest at most `budget` deep.
#[cycle(read)]
#[tactic(auto, unfolding(crate::specs::Reading::compound_at))]
fn read_compound(
    alloc: Global,
    tag: Tag,
    input: &mut &[u8],
    total: usize,
    place: usize,
    budget: u32,
) -> Result<Value, BinFault>
    ensures { Gives (λ v. (v, input.new.now)) result
        (compound_at total place (value_at total budget) tag input.old.now) }
{
    match tag {
        Tag::Embedded => read_embedded(alloc, input, total, place, budget),
        Tag::Record => read_record(alloc, input, total, place, budget),
        Tag::Sequence => read_sequence(alloc, input, total, place, budget),
        Tag::Set => read_set(alloc, input, total, place, budget),
        Tag::Dictionary => read_dictionary(alloc, input, total, place, budget),
        _ => Err(BinFault::Bad(BinKind::BadTag, place)),
    }
}

// Each kind of compound has a function of its own, which keeps no more than that kind needs.

#[cycle(read)]
#[tactic(auto, unfolding(crate::specs::Reading::compound_at))]
fn read_embedded(
    alloc: Global,
    input: &mut &[u8],
    total: usize,
    place: usize,
    budget: u32,
) -> Result<Value, BinFault>
    ensures { Gives (λ v. (v, input.new.now)) result
        (compound_at total place (value_at total budget) kind.Embedded input.old.now) }
{
    let inside = read_value(alloc, input, total, budget)?;
    Ok(Value::embedded(alloc, inside)?)
}

#[cycle(read)]
#[tactic(auto, unfolding(crate::specs::Reading::compound_at))]
fn read_record(
    alloc: Global,
    input: &mut &[u8],
    total: usize,
    place: usize,
    budget: u32,
) -> Result<Value, BinFault>
    ensures { Gives (λ v. (v, input.new.now)) result
        (compound_at total place (value_at total budget) kind.Record input.old.now) }
{
    let label = read_value(alloc, input, total, budget)?;
    let fields = read_items(alloc, input, total, budget)?;
    Ok(Value::record(alloc, label, fields)?)
}

#[cycle(read)]
#[tactic(auto, unfolding(crate::specs::Reading::compound_at))]
fn read_sequence(
    alloc: Global,
    input: &mut &[u8],
    total: usize,
    place: usize,
    budget: u32,
) -> Result<Value, BinFault>
    ensures { Gives (λ v. (v, input.new.now)) result
        (compound_at total place (value_at total budget) kind.Sequence input.old.now) }
{
    let items = read_items(alloc, input, total, budget)?;
    Ok(Value::sequence(Items::from_vec(alloc, items)?))
}

#[cycle(read)]
#[tactic(auto, unfolding(crate::specs::Reading::compound_at))]
fn read_set(
    alloc: Global,
    input: &mut &[u8],
    total: usize,
    place: usize,
    budget: u32,
) -> Result<Value, BinFault>
    ensures { Gives (λ v. (v, input.new.now)) result
        (compound_at total place (value_at total budget) kind.Set input.old.now) }
{
    let items = read_items(alloc, input, total, budget)?;
    Ok(made(place, Value::set(alloc, items))?)
}

#[cycle(read)]
#[tactic(auto, unfolding(crate::specs::Reading::compound_at))]
fn read_dictionary(
    alloc: Global,
    input: &mut &[u8],
    total: usize,
    place: usize,
    budget: u32,
) -> Result<Value, BinFault>
    ensures { Gives (λ v. (v, input.new.now)) result
        (compound_at total place (value_at total budget) kind.Dictionary input.old.now) }
{
    let entries = read_pairs(alloc, input, total, budget)?;
    Ok(made(place, Value::dict(alloc, entries))?)
}

/// Values up to the end, which is passed.
#[cycle(read)]
fn read_items(
    alloc: Global,
    input: &mut &[u8],
    total: usize,
    budget: u32,
) -> Result<Vec<Value>, BinFault>
    ensures { Gives (λ xs. (xs.items, input.new.now)) result
        (items_at total (value_at total budget) input.old.now) }
{
    let bytes: &[u8] = *input;
    let mut items = Vec::new(alloc);
    let mut rest = bytes;
    for _ in 0..bytes.len() {
        let Some((byte, after)) = rest.split_first() else {
            return Err(BinFault::Bad(BinKind::Truncated, total));
        };
        if *byte == END {
            *input = after;
            return Ok(items);
        }
        let value = read_value(alloc, &mut rest, total, budget)?;
        append(&mut items, value, rest)?;
    }
    Err(BinFault::Bad(BinKind::Truncated, total))
}

/// Keys and values by turns up to the end, which is passed.
#[cycle(read)]
fn read_pairs(
    alloc: Global,
    input: &mut &[u8],
    total: usize,
    budget: u32,
) -> Result<Vec<Entry>, BinFault>
    ensures { Gives (λ ps. (map key_and_value ps.items, input.new.now)) result
        (pairs_at total (value_at total budget) input.old.now) }
{
    let bytes: &[u8] = *input;
    let mut entries = Vec::new(alloc);
    let mut rest = bytes;
    for _ in 0..bytes.len() {
        let Some((byte, after)) = rest.split_first() else {
            return Err(BinFault::Bad(BinKind::Truncated, total));
        };
        if *byte == END {
            *input = after;
            return Ok(entries);
        }
        let key = read_value(alloc, &mut rest, total, budget)?;
        let value = read_value(alloc, &mut rest, total, budget)?;
        append(&mut entries, Entry { key, value }, rest)?;
    }
    Err(BinFault::Bad(BinKind::Truncated, total))
}

/// Appends what stands before these bytes. The first item takes room for the items that the list is
/// likely to have, so that a short list takes memory once and keeps what it took.
fn append<T: Drop>(list: &mut Vec<T>, item: T, after: &[u8]) -> Result<(), NoMemory>
    ensures { IfOk result (λ _. list.new.items ≡ list.old.items ++ item ∷ []) }
{
    if list.is_empty() {
        list.reserve_exact(likely_items(after))?;
    }
    list.push(item)?;
    Ok(())
}

/// How many items a list is likely to have of which the first stands before these bytes: one where
/// the end follows, two where a compound follows, or one short atom and then the end, and else
/// three.
#[inline(always)]
fn likely_items(after: &[u8]) -> usize
    ensures { (1 ≤ result) × (result ≤ 3) }
{
    match after {
        [tag, ..] if *tag == END => 1,
        [tag, ..] if *tag >= tags::RECORD || *tag == tags::EMBEDDED => 2,
        [_, count, rest @ ..] => match rest.get(usize::from(*count)) {
            Some(byte) if *byte == END => 2,
            _ => 3,
        },
        _ => 3,
    }
}

/// What the elements or entries of a compound make, whose tag stands at this place.
fn made(place: usize, made: Result<Value, SetFault>) -> Result<Value, BinFault>
    ensures { (o : Option Plain) → IsMade made o → Gives (λ v. v) result (made_at place o) }
{
    match made {
        Ok(value) => Ok(value),
        Err(SetFault::NoMemory) => Err(BinFault::NoMemory),
        Err(SetFault::Duplicate(_)) => Err(BinFault::Bad(BinKind::Duplicate, place)),
    }
}
