//! Reading bytes that are a canonical form.
ghost use Rattle.std.specs.Prelude.{◌≡◌, ◌↔◌, true, List, [], IfOk, IfSome, IfNone, option_map};
ghost use Rattle.pv_value.specs.Plain.{Plain, plains, sequence};
ghost use Rattle.pv_value.specs.WellFormed.{IsWellFormed};
ghost use Rattle.pv_canon.specs.Canonical.{canonical};
ghost use Rattle.kp_bound.specs.Forms.{IsFormOf, IsBareFormOf, sequence_in};

use pv_binary::{read_within, spellings_are_unique};
use pv_canon::{canon, canonical_is_exact};
use pv_read::READ_DEPTH;
use pv_value::{Items, NoMemory, Node, Value};
use sr_caveat::has_embedded;
use std::alloc::Global;

/// Whether nothing is left behind the value, and its canonical form is these bytes.
fn is_whole(alloc: Global, value: &Value, rest: &[u8], bytes: &[u8]) -> Result<bool, NoMemory>
    ensures whole { IfOk result (λ b. (b ≡ true)
        ↔ ((rest.now ≡ []) × (canonical value.now ≡ bytes.now))) }
    ensures well_formed { IsWellFormed value.now }
{
    let _ = &value.node;
    if !rest.is_empty() {
        return Ok(false);
    }
    Ok(canon(alloc, value)?.as_slice() == bytes)
}

/// The value whose canonical form the bytes are.
fn value_of(alloc: Global, bytes: &[u8]) -> Result<Option<Value>, NoMemory>
    ensures some { IfOk result (λ o. IfSome o (IsFormOf bytes.now)) }
    ensures only { IfOk result (λ o. IfSome o (λ w. (v : Plain) → IsFormOf bytes.now v → w ≡ v)) }
    ensures none { IfOk result (λ o. IfNone o ((v : Plain) → IsFormOf bytes.now v → ⊥)) }
{
    // the proof learns here that no other value has these bytes
    spellings_are_unique();
    canonical_is_exact();
    let read = read_within(alloc, bytes, READ_DEPTH)?;
    match read {
        Some((value, rest)) => {
            let whole = is_whole(alloc, &value, rest, bytes)?;
            if whole { Ok(Some(value)) } else { Ok(None) }
        }
        None => Ok(None),
    }
}

/// The value whose canonical form the bytes are, where nothing is embedded in it.
pub(crate) fn bare_value_of(alloc: Global, bytes: &[u8]) -> Result<Option<Value>, NoMemory>
    ensures some { IfOk result (λ o. IfSome o (IsBareFormOf bytes.now)) }
    ensures only { IfOk result (λ o. IfSome o (λ w. (v : Plain) → IsFormOf bytes.now v → w ≡ v)) }
    ensures none { IfOk result (λ o. IfNone o ((v : Plain) → IsBareFormOf bytes.now v → ⊥)) }
{
    let found = value_of(alloc, bytes)?;
    match found {
        Some(value) => {
            if has_embedded(&value) {
                Ok(None)
            } else {
                Ok(Some(value))
            }
        }
        None => Ok(None),
    }
}

/// The items of a sequence.
fn items_of(value: &Value) -> Result<Option<Items>, NoMemory>
    ensures { IfOk result (λ o. option_map plains o ≡ sequence_in value.now) }
{
    match &value.node {
        Node::Seq(items) => Ok(Some(items.copy()?)),
        _ => Ok(None),
    }
}

/// The items of the sequence whose canonical form the bytes are, where nothing is embedded in them.
pub(crate) fn bare_items_of(alloc: Global, bytes: &[u8]) -> Result<Option<Items>, NoMemory>
    ensures some { IfOk result (λ o. IfSome o (λ xs.
        IsBareFormOf bytes.now (sequence (plains xs)))) }
    ensures none { IfOk result (λ o. IfNone o ((xs : List Plain)
        → IsBareFormOf bytes.now (sequence (plains xs)) → ⊥)) }
{
    let found = bare_value_of(alloc, bytes)?;
    match found {
        Some(value) => items_of(&value),
        None => Ok(None),
    }
}
