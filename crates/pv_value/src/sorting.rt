//! Lists of copies put in order by what stands first of each value: the place of its kind, and a
//! number. These are compared at once, and their order is that of the values, but where many values
//! begin alike; who calls looks whether the list ascends, and sorts by the values themselves what
//! doesn't.
ghost use Rattle.std.specs.Prelude.{◌≡◌, map, IfOk};
ghost use Rattle.std.specs.List.Sorted.{IsPermutation};

use crate::order::{place_of_double, rank_of};
use crate::{Entry, NoMemory, Node, Value};
use std::alloc::Global;

/// What stands in a list by a value.
pub(crate) trait ByValue: Drop {
    /// The value by which it stands there.
    fn value(&self) -> &Value;

    /// An equal one, which shares what is inside.
    fn shared(&self) -> Result<Self, NoMemory>
        ensures { IfOk result (λ copy. copy ≡ self.now) };
}

impl ByValue for Value {
    fn value(&self) -> &Value {
        self
    }

    fn shared(&self) -> Result<Value, NoMemory> {
        self.copy()
    }
}

impl ByValue for Entry {
    fn value(&self) -> &Value {
        &self.key
    }

    fn shared(&self) -> Result<Entry, NoMemory> {
        self.copy()
    }
}

/// One of a list, and what stands first of its value.
#[derive(Clone, Copy)]
struct Fronted<'a, T> {
    front: (u8, u128),
    item: &'a T,
}

/// The same, by ascending fronts.
pub(crate) fn by_fronts<T: ByValue>(alloc: Global, items: &[T]) -> Result<Vec<T>, NoMemory>
    ensures { IfOk result (λ list. IsPermutation items.now list.items) }
{
    let mut fronts = fronts_of(alloc, items)?;
    fronts.sort_unstable_by_key(|f| f.front);
    let list = copies(alloc, &fronts)?;
    Ok(list)
}

fn fronts_of<'a, T: ByValue>(alloc: Global, items: &'a [T]) -> Result<Vec<Fronted<'a, T>>, NoMemory>
    ensures { IfOk result (λ fronts. map (λ f. f.item.now) fronts.items ≡ items.now) }
{
    let mut fronts = Vec::with_capacity(alloc, items.len())?;
    for item in items {
        let front = front(item.value());
        fronts.push(Fronted { front, item })?;
    }
    Ok(fronts)
}

fn copies<T: ByValue>(alloc: Global, fronts: &[Fronted<T>]) -> Result<Vec<T>, NoMemory>
    ensures { IfOk result (λ list. list.items ≡ map (λ f. f.item.now) fronts.now) }
{
    let mut list = Vec::with_capacity(alloc, fronts.len())?;
    for f in fronts {
        list.push(f.item.shared()?)?;
    }
    Ok(list)
}

/// The place of a value's kind among the kinds, and what stands first in it.
fn front(value: &Value) -> (u8, u128) {
    (rank_of(&value.node), first_inside(value))
}

/// What stands first in a value: an atom's number or its first bytes, and of a compound what begins
/// the first two values in it.
fn first_inside(value: &Value) -> u128 {
    match &value.node {
        Node::Bool(b) => u128::from(*b),
        Node::Double(bits) => u128::from(place_of_double(*bits)),
        Node::Int(n) => n.cast_unsigned() ^ (1 << 127),
        Node::Str(text) | Node::Sym(text) => first_bytes(text.as_bytes()),
        Node::Bytes(bytes) => first_bytes(bytes.as_slice()),
        Node::Rec(rec) => both(beginning(&rec.label), beginning_of(rec.fields.first())),
        Node::Seq(items) => first_two(items.as_slice()),
        Node::Set(items) => first_two(items.as_slice()),
        Node::Dict(entries) => match entries.as_slice().first() {
            Some(entry) => both(beginning(&entry.key), beginning(&entry.value)),
            None => 0,
        },
        Node::Emb(inside) => both(beginning(inside), 0),
    }
}

/// What begins the first two of these.
fn first_two(items: &[Value]) -> u128 {
    both(beginning_of(items.first()), beginning_of(items.get(1)))
}

/// Two numbers as one, the first of which counts for more.
fn both(first: u64, second: u64) -> u128 {
    (u128::from(first) << 64) | u128::from(second)
}

/// What begins a value; 0 where there is none.
fn beginning_of(value: Option<&Value>) -> u64 {
    match value {
        Some(value) => beginning(value),
        None => 0,
    }
}

/// What begins a value that stands in another: the same as its front, in half as many bits; 0 of a
/// compound.
fn beginning(value: &Value) -> u64 {
    match &value.node {
        Node::Bool(b) => u64::from(*b),
        Node::Double(bits) => place_of_double(*bits),
        Node::Int(n) => place_of_integer(*n),
        Node::Str(text) | Node::Sym(text) => (first_bytes(text.as_bytes()) >> 64) as u64,
        Node::Bytes(bytes) => (first_bytes(bytes.as_slice()) >> 64) as u64,
        _ => 0,
    }
}

/// Where an integer stands among those of 64 bits: the others are all at the two ends.
fn place_of_integer(n: i128) -> u64 {
    if n < -(1 << 63) {
        return 0;
    }
    if n >= 1 << 63 {
        return u64::MAX;
    }
    (n + (1 << 63)) as u64
}

/// The first sixteen bytes as a number, big-endian, with zeros behind fewer.
fn first_bytes(bytes: &[u8]) -> u128 {
    let mut first = [0u8; 16];
    let n = bytes.len().min(16);
    let place = &mut first[..n];
    place.copy_from_slice(&bytes[..n]);
    u128::from_be_bytes(first)
}
