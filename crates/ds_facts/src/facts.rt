//! The distinct values by what stands in them.
ghost use Rattle.std.specs.Prelude.{◌≡◌, ◌∷◌, [], false, List, OnOk};
ghost use Rattle.pv_value.specs.Plain.{Plain};
ghost use Rattle.ds_space.specs.Changes.{among};
ghost use Rattle.ds_facts.specs.Keeping.{AreFacts};

use crate::atoms::entries_of;
use crate::keeping::{Places, put, take_out};
use pv_value::{NoMemory, Value};
use std::alloc::Global;
use std::collections::BTreeMap;

/// Distinct values, found by the atoms that stand in them at root places: at a field of a record,
/// at an item of a sequence, under a key of a dictionary.
///
/// A field and an item of the same number share a list.
#[derive(Drop)]
pub struct Facts {
    pub(crate) places: Places,
}

impl Facts {
    /// No values.
    pub fn new(alloc: Global) -> Facts
        ensures { AreFacts [] result }
    {
        Facts {
            places: BTreeMap::new(alloc),
        }
    }

    /// One value more.
    pub fn add(&mut self, alloc: Global, value: &Value) -> Result<(), NoMemory>
        ensures { OnOk result ((vs : List Plain) → AreFacts vs self.old
            → AreFacts (value.now ∷ vs) self.new) }
    {
        let entries = entries_of(alloc, value)?;
        for entry in &entries {
            put(alloc, &mut self.places, entry, value)?;
        }
        Ok(())
    }

    /// One value fewer.
    pub fn remove(&mut self, alloc: Global, value: &Value) -> Result<(), NoMemory>
        ensures { OnOk result ((vs : List Plain) → AreFacts (value.now ∷ vs) self.old
            → among value.now vs ≡ false → AreFacts vs self.new) }
    {
        let entries = entries_of(alloc, value)?;
        for entry in &entries {
            take_out(&mut self.places, entry, value);
        }
        Ok(())
    }
}
