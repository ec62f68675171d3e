//! References as a connection writes them, and the caveats of references.
ghost use Rattle.std.specs.Prelude.{◌≡◌, ◌++◌, map, IfOk, OnOk};
ghost use Rattle.rl_wire.specs.Crossing.{wire_of, wire_value, caveats_in, caveat_kept};
ghost use Rattle.rl_wire.specs.Crossing.{with_caveats};

use crate::rebuilding::copies;
use pv_value::{Items, NoMemory, Node, Value};
use pv_words::{number, number_in};
use sr_caveat::parse_caveat;
use std::alloc::Global;

/// What a wire reference names, apart from its caveats.
#[derive(Clone, Copy)]
pub enum Wire {
    /// An object of its sender's own.
    Own(u64),
    /// An export, by its number.
    ExportedAs(u64),
}

/// What `[0 e]` and `[1 n caveat ..]` name.
pub(crate) fn wire_of(value: &Value) -> Option<Wire>
    ensures { result ≡ wire_of value.now }
{
    let Node::Seq(items) = &value.node else {
        return None;
    };
    let items = items.as_slice();
    if items.len() < 2 {
        return None;
    }
    let whose = number_in(&items[0])?;
    let which = number_in(&items[1])?;
    match whose {
        0 if items.len() == 2 => Some(Wire::Own(which)),
        1 => Some(Wire::ExportedAs(which)),
        _ => None,
    }
}

/// The value `[whose n]`.
pub(crate) fn wire_value(alloc: Global, whose: u64, n: u64) -> Result<Value, NoMemory>
    ensures { IfOk result (λ v. v ≡ wire_value whose n) }
{
    let mut items = Vec::new(alloc);
    items.push(number(whose))?;
    items.push(number(n))?;
    Ok(Value::sequence(Items::from_vec(alloc, items)?))
}

/// What stands behind the two numbers of a reference, on the wire or in the server.
pub(crate) fn caveats_in(value: &Value) -> &[Value]
    ensures { result.now ≡ caveats_in value.now }
{
    let Node::Seq(items) = &value.node else {
        return &[];
    };
    let items = items.as_slice();
    if items.len() < 2 {
        return &[];
    }
    &items[2..]
}

/// The reference with these caveats behind its own, each as one that came over the wire. Where
/// there are none it is shared.
pub(crate) fn with_caveats(
    alloc: Global,
    reference: &Value,
    caveats: &[Value],
) -> Result<Value, NoMemory>
    ensures { IfOk result (λ v. v ≡ with_caveats caveats.now reference.now) }
{
    let Node::Seq(items) = &reference.node else {
        return reference.copy();
    };
    if caveats.is_empty() {
        return reference.copy();
    }
    let mut all = copies(alloc, items.as_slice())?;
    add_kept(alloc, &mut all, caveats)?;
    Ok(Value::sequence(Items::from_vec(alloc, all)?))
}

/// Adds what stands for each caveat that came over the wire.
fn add_kept(alloc: Global, all: &mut Vec<Value>, caveats: &[Value]) -> Result<(), NoMemory>
    ensures { OnOk result (all.new.items ≡ all.old.items ++ map caveat_kept caveats.now) }
{
    for caveat in caveats {
        all.push(caveat_kept(alloc, caveat)?)?;
    }
    Ok(())
}

/// What stands for a caveat that came over the wire.
fn caveat_kept(alloc: Global, caveat: &Value) -> Result<Value, NoMemory>
    ensures { IfOk result (λ v. v ≡ caveat_kept caveat.now) }
{
    parse_caveat(alloc, caveat, false)?.to_value(alloc)
}
