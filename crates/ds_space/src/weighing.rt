//! How much is wanted.
ghost use Rattle.std.specs.Prelude.{◌≡◌, ◌-◌, ◌^◌, min, IfOk};
ghost use Rattle.pv_value.specs.Plain.{sequence, plains};
ghost use Rattle.pv_value.specs.Weight.{weight};
ghost use Rattle.ds_space.specs.Wants.{weight_of_key, weight_of_keys};
ghost use Rattle.ds_space.specs.Fans.{weight_of_fanned};

use crate::space::Fanned;
use pv_value::{Items, NoMemory, Node, Value, weight};

/// The weight of the captures in a key.
fn weigh_key(key: &Value) -> u64
    ensures { result ≡ min (weight_of_key key.now) (2 ^ 64 - 1) }
{
    let Node::Seq(items) = &key.node else {
        return 0;
    };
    match items.as_slice() {
        [_, captures] => weight(captures),
        _ => 0,
    }
}

/// The weight of what is wanted under these keys, at most the greatest u64.
pub(crate) fn weigh_keys(keys: &[Value]) -> u64
    ensures { result ≡ min (weight_of_keys keys.now) (2 ^ 64 - 1) }
{
    let mut total: u64 = 0;
    for key in keys {
        total = total.saturating_add(weigh_key(key));
    }
    total
}

/// What the captures weigh as a sequence.
fn weigh_captures(captures: &Items) -> Result<u64, NoMemory>
    ensures { IfOk result (λ w. w ≡ min (weight (sequence (plains captures.now))) (2 ^ 64 - 1)) }
{
    let value = Value::sequence(captures.copy()?);
    Ok(weight(&value))
}

/// The weight of what is sent, at most the greatest u64.
pub(crate) fn weigh_fanned(list: &[Fanned]) -> Result<u64, NoMemory>
    ensures { IfOk result (λ w. w ≡ min (weight_of_fanned list.now) (2 ^ 64 - 1)) }
{
    let mut total: u64 = 0;
    for fanned in list {
        total = total.saturating_add(weigh_captures(&fanned.captures)?);
    }
    Ok(total)
}
