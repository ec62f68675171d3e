//! How much is wanted.
ghost use Rattle.std.specs.Prelude.{◌≡◌, ◌+◌, ◌-◌, ◌^◌, ◌≤◌, min};
ghost use Rattle.ac_watch.specs.Watching.{weight_of_all};

use pv_value::{Items, Value, weight};

/// What the values weigh together, at most the greatest u64.
fn weigh_all(values: &[Value]) -> u64
    ensures { result ≡ min (weight_of_all values.now) (2 ^ 64 - 1) }
{
    let mut total: u64 = 0;
    for value in values {
        total = total.saturating_add(weight(value));
    }
    total
}

/// The weight with what is made as well, at most the greatest u64.
pub(crate) fn weight_with(weight: u64, made: &Items) -> u64
    ensures { result ≡ min (weight + weight_of_all made.now) (2 ^ 64 - 1) }
{
    weight.saturating_add(weigh_all(made.as_slice()))
}

/// The weight without what is made, which is a part of it.
pub(crate) fn weight_without(weight: u64, made: &Items) -> u64
    requires { weight_of_all made.now ≤ weight }
    ensures { result ≡ weight - weight_of_all made.now }
{
    weight - weigh_all(made.as_slice())
}
