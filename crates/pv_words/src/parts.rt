//! The parts of values that a place or a key names.
ghost use Rattle.std.specs.Prelude.{◌≡◌, map, option_copied};
ghost use Rattle.pv_value.specs.Plain.{plains, pairs};
ghost use Rattle.pv_value.specs.View.{key_and_value};
ghost use Rattle.pv_value.specs.WellFormed.{KeysAscend};
ghost use Rattle.pv_words.specs.Parts.{item_under, value_under};

use crate::words::number_in;
use pv_value::{Entries, Entry, Value, compare};
use std::cmp::Ordering;

/// The item at the place that a value tells.
pub fn item_under<'a>(items: &'a [Value], key: &Value) -> Option<&'a Value>
    ensures { option_copied result ≡ item_under (plains items.now) key.now }
{
    let place = number_in(key)?;
    items.get(place as usize)
}

/// The value under a key, which is looked for by halves.
pub fn value_under<'a>(entries: &'a Entries, key: &Value) -> Option<&'a Value>
    ensures { option_copied result ≡ value_under (pairs entries.now) key.now }
{
    value_among(entries.as_slice(), key)
}

/// The value under a key, among entries whose keys ascend.
fn value_among<'a>(entries: &'a [Entry], key: &Value) -> Option<&'a Value>
    requires { KeysAscend (map key_and_value entries.now) }
    ensures { option_copied result ≡ value_under (pairs (map key_and_value entries.now)) key.now }
{
    let (before, rest) = entries.split_at(entries.len() / 2);
    let (entry, behind) = rest.split_first()?;
    match compare(&entry.key, key) {
        Ordering::Less => value_among(behind, key),
        Ordering::Equal => Some(&entry.value),
        Ordering::Greater => value_among(before, key),
    }
}
