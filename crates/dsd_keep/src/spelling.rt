//! What words spell: an oid, and a record.
ghost use Rattle.std.specs.Prelude.{◌≡◌, List, ℕ, [], ◌∷◌, ◌++◌, IfOk, OnOk, MatchOption};
ghost use Rattle.pv_value.specs.Plain.{Plain};
ghost use Rattle.kp_keeper.specs.declared.records.Record.{Record};
ghost use Rattle.dsd_top.specs.Asked.{texts};
ghost use Rattle.dsd_top.specs.Minting.{IsFound};
ghost use Rattle.dsd_top.specs.Numbers.{IsNumberWithin};
ghost use Rattle.dsd_keep.specs.Requests.{IsForm, ArePlainTexts, AreCaveats, IsSpelledBy};
ghost use Rattle.dsd_keep.specs.Requests.{IsRecordBy};

use crate::words::Adding;
use dsd_top::{WordsFault, key_of, number_within, plain_value};
use kp_bound::parts_of;
use kp_keeper::Record;
use pv_canon::canon;
use pv_value::{Blob, Items, NoMemory, Value};
use std::alloc::Global;

/// The canonical form of the value that a word is in text.
pub(crate) fn form_in(alloc: Global, word: &str) -> Result<Blob, WordsFault>
    ensures found { IsFound (λ form. form) (IsForm word.now) result }
    ensures only { IfOk result (λ form. (other : List ℕ) → IsForm word.now other → other ≡ form) }
{
    let value = plain_value(alloc, word)?;
    let form = canon(alloc, &value)?;
    Ok(form)
}

fn push_value(values: &mut Vec<Value>, value: Value) -> Result<(), NoMemory>
    ensures { OnOk result (values.new.items ≡ values.old.items ++ value ∷ []) }
{
    values.push(value)?;
    Ok(())
}

/// The values that words are in text.
fn values_in(alloc: Global, words: &[String]) -> Result<Vec<Value>, WordsFault>
    ensures found { IsFound (λ values. values.items) (ArePlainTexts (texts words.now)) result }
    ensures only { IfOk result (λ values. (others : List Plain)
        → ArePlainTexts (texts words.now) others → others ≡ values.items) }
{
    let mut values = Vec::new(alloc);
    for word in words {
        let value = plain_value(alloc, word.as_str())?;
        push_value(&mut values, value)?;
    }
    Ok(values)
}

/// The canonical form of the sequence of the values that words are in text.
fn caveats_in(alloc: Global, words: &[String]) -> Result<Blob, WordsFault>
    ensures found { IsFound (λ form. form) (AreCaveats (texts words.now)) result }
    ensures only { IfOk result (λ form. (other : List ℕ)
        → AreCaveats (texts words.now) other → other ≡ form) }
{
    let values = values_in(alloc, words)?;
    let list = Value::sequence(Items::from_vec(alloc, values)?);
    let form = canon(alloc, &list)?;
    Ok(form)
}

/// The number of a dataspace, from 1 to 8.
fn space_in(word: &str) -> Option<u8>
    ensures { MatchOption result
        ((n : ℕ) → IsNumberWithin 1 8 word.now n → ⊥)
        (IsNumberWithin 1 8 word.now) }
{
    let space = number_within(word, 1, 8)?;
    Some(space as u8)
}

/// The record that the words behind `add` spell.
fn spelled_by(alloc: Global, adding: &Adding) -> Result<Record, WordsFault>
    ensures found { IsFound (λ r. r) (IsSpelledBy adding.now) result }
    ensures only { IfOk result (λ r. (other : Record) → IsSpelledBy adding.now other → other ≡ r) }
{
    let Some(space) = space_in(adding.space) else {
        return Err(WordsFault::Bad);
    };
    let oid = form_in(alloc, adding.oid)?;
    let key = key_of(alloc, adding.key)?;
    let caveats = caveats_in(alloc, adding.caveats)?;
    let key = Blob::from_vec(key)?;
    Ok(Record {
        oid,
        key,
        space,
        caveats,
    })
}

/// The record that the words behind `add` spell, where it can be read again.
pub(crate) fn record_by(alloc: Global, adding: &Adding) -> Result<Record, WordsFault>
    ensures { IsFound (λ r. r) (IsRecordBy adding.now) result }
{
    let spelled = spelled_by(alloc, adding)?;
    match parts_of(alloc, &spelled)? {
        Some(_) => Ok(spelled),
        None => Err(WordsFault::Bad),
    }
}
