//! Whether an embedded value stands anywhere in a value.
ghost use Rattle.std.specs.Prelude.{◌≡◌, map};
ghost use Rattle.pv_value.specs.Plain.{plains, pairs};
ghost use Rattle.pv_value.specs.View.{key_and_value};
ghost use Rattle.sr_caveat.specs.Embedded.{has_embedded, any_embedded, any_pair_embedded};

use pv_value::{Entry, Node, Value};

/// Whether a value is embedded, or an embedded one stands in it at any depth: in a label, a field,
/// an item, an element, a key or what stands under one.
#[cycle(embedded)]
pub fn has_embedded(value: &Value) -> bool
    ensures { result ≡ has_embedded value.now }
{
    match &value.node {
        Node::Emb(_) => true,
        Node::Rec(rec) => has_embedded(&rec.label) || any_embedded(rec.fields.as_slice()),
        Node::Seq(items) => any_embedded(items.as_slice()),
        Node::Set(set) => any_embedded(set.as_slice()),
        Node::Dict(entries) => any_pair_embedded(entries.as_slice()),
        _ => false,
    }
}

#[cycle(embedded)]
fn any_embedded(values: &[Value]) -> bool
    ensures { result ≡ any_embedded (plains values.now) }
{
    for x in values {
        if has_embedded(x) {
            return true;
        }
    }
    false
}

#[cycle(embedded)]
fn any_pair_embedded(entries: &[Entry]) -> bool
    ensures { result ≡ any_pair_embedded (pairs (map key_and_value entries.now)) }
{
    for e in entries {
        if has_embedded(&e.key) || has_embedded(&e.value) {
            return true;
        }
    }
    false
}
