//! How far the bytes of a value are looked at that isn't whole yet: the compounds that are open,
//! and the place up to which they and what stands in them is known.
ghost use Rattle.std.specs.Prelude.{◌≡◌, ◌+◌, ◌≤◌, ◌<◌, length, slice_index, slice_range};
ghost use Rattle.std.specs.Prelude.{[], ◌∷◌, ◌++◌, IfOk, IfErr, IfSome, IsTrue, IsFalse};
ghost use Rattle.pv_read.specs.Answers.{IsExact};
ghost use Rattle.pv_read.specs.Limits.{read_depth};
ghost use Rattle.pv_binary.specs.Reads.{Stops};
ghost use Rattle.pv_binary.specs.Reading.{is_compound};
ghost use Rattle.pv_binary.specs.Tags.{tag_of};
ghost use Rattle.pv_binary.specs.OneOfThree.{IsFront};
ghost use Rattle.pv_stream.specs.Walks.{IsAt, IsValue, IsFound, IsMeasured, IsListed};
ghost use Rattle.pv_stream.specs.Walks.{IsAtom, IsCutWhere, Goes, GoesTo};

use crate::passing::past_atom;
use pv_binary::tags::{DICTIONARY, EMBEDDED, END, RECORD, SEQUENCE, SET};
use pv_binary::{BinFault, BinKind, read};
use pv_read::READ_DEPTH;
use pv_value::{NoMemory, depth};
use std::alloc::Global;

/// A compound that is open: the place and the byte of its tag.
#[derive(Clone, Copy)]
pub(crate) struct Level {
    place: usize,
    byte: u8,
}

/// What the next part of a value does.
enum Step {
    /// It is there, up to this place.
    To(usize),
    /// It is cut off: more is to come.
    Waits,
    /// It may end the value, or be a fault: the value is to be read.
    Looks,
}

/// Goes on from this place, as far as parts of the value are there. Where it answers a place, more
/// is to come; where it answers none, the value is to be read.
pub(crate) fn walk(
    alloc: Global,
    left: &[u8],
    start: usize,
    levels: &mut Vec<Level>,
) -> Result<Option<usize>, NoMemory>
    requires { IsAt left.now start levels.old.items }
    ensures { IfOk result (λ o. IfSome o (λ place.
        IsAt left.now place levels.new.items × IsFront left.now)) }
{
    let mut place = start;
    while place < left.len() {
        match advance(alloc, left, place, levels)? {
            Step::To(next) => place = next,
            Step::Waits => return Ok(Some(place)),
            Step::Looks => return Ok(None),
        }
    }
    Ok(Some(place))
}

/// Goes on by one tag, one end or one atom.
fn advance(
    alloc: Global,
    left: &[u8],
    place: usize,
    levels: &mut Vec<Level>,
) -> Result<Step, NoMemory>
    requires at { IsAt left.now place levels.old.items }
    requires within { place < length left.now }
    ensures { IfOk result (Goes left.now place levels.new.items) }
{
    let byte = left[place];
    if opens(byte) {
        return open(left, place, levels);
    }
    if byte == END {
        return close(alloc, left, place, levels);
    }
    pass_atom(left, place, levels)
}

/// Whether it is the tag of a compound.
pub(crate) fn opens(byte: u8) -> bool
    ensures { result ≡ is_compound (tag_of byte) }
{
    match byte {
        EMBEDDED | RECORD | SEQUENCE | SET | DICTIONARY => true,
        _ => false,
    }
}

/// One more compound is open.
fn open(left: &[u8], place: usize, levels: &mut Vec<Level>) -> Result<Step, NoMemory>
    requires at { IsAt left.now place levels.old.items }
    requires within { place < length left.now }
    requires compound { IsTrue (is_compound (tag_of (slice_index left.now place))) }
    ensures { IfOk result (Goes left.now place levels.new.items) }
{
    if levels.len() >= READ_DEPTH as usize {
        return Ok(Step::Looks);
    }
    let byte = left[place];
    levels.push(Level { place, byte })?;
    Ok(Step::To(place + 1))
}

/// The innermost compound ends at this place, or a fault stands there.
fn close(
    alloc: Global,
    left: &[u8],
    place: usize,
    levels: &mut Vec<Level>,
) -> Result<Step, NoMemory>
    requires at { IsAt left.now place levels.old.items }
    requires within { place < length left.now }
    requires ends { slice_index left.now place ≡ 0x84 }
    ensures { IfOk result (Goes left.now place levels.new.items) }
{
    let Some(level) = levels.pop() else {
        return Ok(Step::Looks);
    };
    if !is_closed(alloc, left, place, level, levels)? {
        return Ok(Step::Looks);
    }
    arrive_at(left, level.place, place + 1, levels)
}

/// Whether this compound, the innermost one, is a value with the end at this place.
fn is_closed(
    alloc: Global,
    left: &[u8],
    place: usize,
    level: Level,
    outer: &[Level],
) -> Result<bool, NoMemory>
    requires at { IsAt left.now place (outer.now ++ level ∷ []) }
    requires within { place < length left.now }
    requires ends { slice_index left.now place ≡ 0x84 }
    ensures { IfOk result (λ b. IsTrue b
        → IsFound left.now level.place (place + 1) (length outer.now)) }
{
    if is_listed(level, place) {
        return Ok(true);
    }
    is_whole(alloc, between(left, level.place, place + 1), outer.len())
}

/// The bytes from one place to another.
fn between(bytes: &[u8], start: usize, end: usize) -> &[u8]
    requires order { start ≤ end }
    requires within { end ≤ length bytes.now }
    ensures { result.now ≡ slice_range bytes.now start end }
{
    &bytes[start..end]
}

/// Whether the compound may end at this place whatever stands in it: a sequence, or a record with
/// a label.
fn is_listed(level: Level, place: usize) -> bool
    ensures { IsTrue result → IsListed level place }
{
    match level.byte {
        SEQUENCE => true,
        RECORD => place.saturating_sub(level.place) > 1,
        _ => false,
    }
}

/// Whether the bytes are a value that may stand inside so many compounds.
fn is_whole(alloc: Global, bytes: &[u8], outer: usize) -> Result<bool, NoMemory>
    requires { outer ≤ read_depth }
    ensures { IfOk result (λ b. IsTrue b → IsValue bytes.now outer) }
{
    match measure(alloc, bytes) {
        Ok((size, deep)) => Ok(size == bytes.len() && deep as usize + outer <= READ_DEPTH as usize),
        Err(BinFault::Bad(_, _)) => Ok(false),
        Err(BinFault::NoMemory) => Err(NoMemory),
    }
}

/// What stands at this place is an atom, or a fault. No value is made of it.
fn pass_atom(left: &[u8], place: usize, levels: &mut Vec<Level>) -> Result<Step, NoMemory>
    requires at { IsAt left.now place levels.old.items }
    requires within { place < length left.now }
    requires atom { IsFalse (is_compound (tag_of (slice_index left.now place))) }
    ensures { IfOk result (Goes left.now place levels.new.items) }
{
    match end_of_atom(left, place) {
        Ok(end) => arrive_at(left, place, end, levels),
        Err(BinKind::Truncated) => Ok(Step::Waits),
        Err(_) => Ok(Step::Looks),
    }
}

/// Where the atom at this place ends, or why none is there. It takes no memory.
fn end_of_atom(left: &[u8], place: usize) -> Result<usize, BinKind>
    requires within { place < length left.now }
    requires atom { IsFalse (is_compound (tag_of (slice_index left.now place))) }
    ensures found { IfOk result (IsAtom left.now place) }
    ensures cut { IfErr result (IsCutWhere left.now place) }
{
    match past_atom(left[place], &left[place + 1..], place) {
        Ok(rest) => Ok(left.len().saturating_sub(rest.len())),
        Err(stop) => Err(stop.kind),
    }
}

/// How many bytes spell the value that the bytes begin with, and how deep it nests.
fn measure(alloc: Global, bytes: &[u8]) -> Result<(usize, u32), BinFault>
    ensures found { IfOk result (λ x. IsMeasured bytes.now x.0 x.1) }
    ensures exact { IsExact result (Stops bytes.now) }
{
    let (value, size) = read(alloc, bytes)?;
    Ok((size, depth(&value)))
}

/// A value is there, in these bytes, and so are the embedded values that it fills. Where it is the
/// whole one, it is to be read.
fn arrive_at(left: &[u8], from: usize, to: usize, levels: &mut Vec<Level>) -> Result<Step, NoMemory>
    requires at { IsAt left.now from levels.old.items }
    requires found { IsFound left.now from to (length levels.old.items) }
    ensures { IfOk result (GoesTo left.now to levels.new.items) }
{
    let Some(level) = levels.pop() else {
        return Ok(Step::Looks);
    };
    if level.byte == EMBEDDED {
        return arrive_at(left, level.place, to, levels);
    }
    levels.push(level)?;
    Ok(Step::To(to))
}
