//! Lists of values by entries. An empty list isn't kept.
ghost use Rattle.std.specs.Prelude.{◌≡◌, ◌&&◌, ◌||◌, not, OnOk};
ghost use Rattle.pv_value.specs.Plain.{Plain};
ghost use Rattle.pv_value.specs.declared.Entry.{Entry};
ghost use Rattle.pv_words.specs.Parts.{same};
ghost use Rattle.ds_facts.specs.Atoms.{same_entry};
ghost use Rattle.ds_facts.specs.Keeping.{keeps, AreFilled};

use crate::atoms::entry_of;
use ds_small::SmallSet;
use pv_value::{Entry, NoMemory, Value};
use std::alloc::Global;
use std::collections::BTreeMap;

/// The values that have an entry, for each entry that one has.
pub(crate) type Places = BTreeMap<Entry, SmallSet>;

/// The value is kept at the entry, which is new mostly: so the value is put there alone, and a list
/// that was there is put back with the value in it.
pub(crate) fn put(
    alloc: Global,
    places: &mut Places,
    entry: &Entry,
    value: &Value,
) -> Result<(), NoMemory>
    ensures keeps { OnOk result ((e : Entry) (v : Plain) → keeps places.new e v
        ≡ (keeps places.old e v || (same_entry e entry.now && same value.now v))) }
    ensures filled { OnOk result (AreFilled places.old → AreFilled places.new) }
{
    let alone = SmallSet::one(value.copy()?);
    let place = entry_of(&entry.key, &entry.value)?;
    let before = places.insert(place, alone)?;
    let Some(mut list) = before else {
        return Ok(());
    };
    list.insert(alloc, value.copy()?)?;
    let again = entry_of(&entry.key, &entry.value)?;
    places.insert(again, list)?;
    Ok(())
}

/// The value isn't kept at the entry.
pub(crate) fn take_out(places: &mut Places, entry: &Entry, value: &Value)
    ensures keeps { (e : Entry) (v : Plain) → keeps places.new e v
        ≡ (keeps places.old e v && not (same_entry e entry.now && same value.now v)) }
    ensures filled { AreFilled places.old → AreFilled places.new }
{
    let Some(list) = places.get_mut(entry) else {
        return;
    };
    let _ = list.remove(value);
    if list.is_empty() {
        let _ = places.remove(entry);
    }
}
