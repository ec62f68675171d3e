//! Rows that come and go.
ghost use Rattle.std.specs.Prelude.{◌≡◌, [], not, None, IfOk, OnOk, OnErr, IfSome, IfNone};
ghost use Rattle.std.specs.Prelude.{option_map, is_some};
ghost use Rattle.std.specs.List.{list_any};
ghost use Rattle.std.specs.Map.{values_of, lookup, remove_entry};
ghost use Rattle.std.specs.BTreeMap.{insert_entry, is_at};
ghost use Rattle.std.specs.Ordering.{nat_cmp};
ghost use Rattle.pv_words.specs.Parts.{same};

use crate::counting::{Counts, count_in, count_out};
use pv_value::{NoMemory, Value};
use std::alloc::Global;
use std::collections::BTreeMap;
use std::marker::Model;

/// Rows, a value under each handle, and how many of them have each value.
#[derive(Drop)]
pub struct Rows {
    by_handle: BTreeMap<u64, Value>,
    by_value: Counts,
}

impl Model for Rows {
    ghost use Rattle.std.specs.Prelude.{List, ℕ};
    ghost use Rattle.std.specs.Coded.{coded_list, coded×, coded_ℕ};
    ghost use Rattle.pv_value.specs.Plain.{Plain};
    ghost use Rattle.pv_value.specs.Lemmas.Coded.{plain_code};
    ghost use Rattle.ds_rows.specs.Counts.{AreCounted};

    ghost Value = { List (ℕ × Plain) };

    ghost coded = { coded_list (coded× coded_ℕ plain_code) };

    ghost view = { λ r. r.by_handle.entries };

    ghost invariant = { λ r. AreCounted r.by_handle.entries r.by_value.entries };
}

impl Rows {
    /// No rows. This takes no memory.
    pub fn new(alloc: Global) -> Rows
        ensures { result ≡ [] }
    {
        Rows {
            by_handle: BTreeMap::new(alloc),
            by_value: BTreeMap::new(alloc),
        }
    }

    /// Whether a row has this handle.
    pub fn has(&self, handle: u64) -> bool
        ensures { result ≡ is_some (lookup (is_at (nat_cmp handle)) self.now) }
    {
        self.by_handle.contains_key(&handle)
    }

    /// Whether a row has this value.
    pub fn stands(&self, value: &Value) -> bool
        ensures { result ≡ list_any (same value.now) (values_of self.now) }
    {
        self.by_value.contains_key(value)
    }

    /// A row comes, under a handle that is new. The answer is whether it is the first that has its
    /// value. For want of memory the rows are as they were; so they are after 2^64 - 1 rows of the
    /// value.
    pub fn add(&mut self, handle: u64, value: Value) -> Result<bool, NoMemory>
        requires { lookup (is_at (nat_cmp handle)) self.old ≡ None }
        ensures added { OnOk result (self.new ≡ insert_entry nat_cmp self.old handle value) }
        ensures first { IfOk result
            (λ first. first ≡ not (list_any (same value) (values_of self.old))) }
        ensures undone { OnErr result (self.new ≡ self.old) }
    {
        self.by_handle.insert(handle, value.copy()?)?;
        match count_in(&mut self.by_value, value) {
            Ok(first) => Ok(first),
            Err(error) => {
                let _ = self.by_handle.remove(&handle);
                Err(error)
            }
        }
    }

    /// The row of a handle goes, where it is there. The answer is its value, and whether it was the
    /// last that had it. This takes no memory.
    pub fn remove(&mut self, handle: u64) -> Option<(Value, bool)>
        ensures removed { self.new ≡ remove_entry (is_at (nat_cmp handle)) self.old }
        ensures value { option_map (λ gone. gone.0) result
            ≡ lookup (is_at (nat_cmp handle)) self.old }
        ensures last { IfSome result
            (λ gone. gone.1 ≡ not (list_any (same gone.0) (values_of self.new))) }
        ensures unchanged { IfNone result (self.new ≡ self.old) }
    {
        let value = self.by_handle.remove(&handle)?;
        let last = count_out(&mut self.by_value, &value);
        Some((value, last))
    }
}
