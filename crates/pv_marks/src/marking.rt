//! How a value's mark is reckoned.
ghost use Rattle.std.specs.Prelude.{◌≡◌, map, unsigned_abs};
ghost use Rattle.pv_value.specs.Plain.{plains, pairs};
ghost use Rattle.pv_value.specs.View.{key_and_value};
ghost use Rattle.pv_marks.specs.Marks.{mark, mixed, all_mixed, marked, all_marked, pairs_marked};

use pv_value::{Entry, Node, Value};

/// What a mark is multiplied by as a number comes into it.
const FACTOR: u64 = 6_364_136_223_846_793_005;

/// What comes into a mark behind the items of a list.
const END: u64 = 13;

/// The mark of a value. It takes no memory.
#[tactic(auto, unfolding(crate::specs::Marks::mark))]
pub fn mark(value: &Value) -> u64
    ensures { result ≡ mark value.now }
{
    marked(0, value)
}

/// A number comes into a mark.
#[tactic(auto, unfolding(crate::specs::Marks::mixed))]
fn mixed(before: u64, number: u64) -> u64
    ensures { result ≡ mixed before number }
{
    before.wrapping_mul(FACTOR).wrapping_add(number)
}

/// Each byte comes into a mark.
fn all_mixed(before: u64, bytes: &[u8]) -> u64
    ensures { result ≡ all_mixed before bytes.now }
{
    let mut mark = before;
    for byte in bytes {
        mark = mixed(mark, u64::from(*byte));
    }
    mark
}

/// An integer's magnitude comes into a mark, by its low 64 bits.
#[tactic(auto, unfolding(crate::specs::Marks::mixed))]
fn magnitude_mixed(before: u64, number: i128) -> u64
    ensures { result ≡ mixed before (unsigned_abs number) }
{
    mixed(before, (number.unsigned_abs() % (1 << 64)) as u64)
}

#[cycle(marked)]
fn marked(before: u64, value: &Value) -> u64
    ensures { result ≡ marked before value.now }
{
    match &value.node {
        Node::Bool(false) => mixed(before, 1),
        Node::Bool(true) => mixed(before, 2),
        Node::Double(bits) => mixed(mixed(before, 3), *bits),
        Node::Int(number) => magnitude_mixed(mixed(before, 4), *number),
        Node::Str(text) => all_mixed(mixed(before, 5), text.as_bytes()),
        Node::Bytes(bytes) => all_mixed(mixed(before, 6), bytes.as_slice()),
        Node::Sym(text) => all_mixed(mixed(before, 7), text.as_bytes()),
        Node::Rec(rec) => {
            let label = marked(mixed(before, 8), &rec.label);
            all_marked(label, rec.fields.as_slice())
        }
        Node::Seq(items) => all_marked(mixed(before, 9), items.as_slice()),
        Node::Set(set) => all_marked(mixed(before, 10), set.as_slice()),
        Node::Dict(entries) => pairs_marked(mixed(before, 11), entries.as_slice()),
        Node::Emb(inside) => marked(mixed(before, 12), inside),
    }
}

#[cycle(marked)]
fn all_marked(before: u64, items: &[Value]) -> u64
    ensures { result ≡ all_marked before (plains items.now) }
{
    let mut mark = before;
    for item in items {
        mark = marked(mark, item);
    }
    mixed(mark, END)
}

#[cycle(marked)]
fn pairs_marked(before: u64, entries: &[Entry]) -> u64
    ensures { result ≡ pairs_marked before (pairs (map key_and_value entries.now)) }
{
    let mut mark = before;
    for entry in entries {
        mark = marked(mark, &entry.key);
        mark = marked(mark, &entry.value);
    }
    mixed(mark, END)
}
