//! The small lists, which copies share.
ghost use Rattle.std.specs.Prelude.{◌≡◌, map, length, IfOk, ◌==◌};
ghost use Rattle.pv_value.specs.Plain.{plains, pairs};
ghost use Rattle.pv_value.specs.View.{key_and_value};
ghost use Rattle.pv_value.specs.WellFormed.{IsBlob, AreWellFormed, ArePairsWellFormed, Ascend};
ghost use Rattle.pv_value.specs.WellFormed.{KeysAscend};

use crate::{Blob, Entries, Entry, Items, NoMemory, SetItems, Value};
use std::alloc::Global;
use std::sync::{Arc, ArcSlice};

impl Blob {
    /// The same bytes.
    pub fn from_slice(alloc: Global, bytes: &[u8]) -> Result<Blob, NoMemory>
        ensures { IfOk result (λ b. b ≡ bytes.now) }
    {
        Blob::from_vec(Vec::from_slice(alloc, bytes)?)
    }

    pub fn from_vec(bytes: Vec<u8>) -> Result<Blob, NoMemory>
        ensures { IfOk result (λ b. b ≡ bytes.items) }
    {
        let bytes = ArcSlice::from_vec(fitted(bytes))?;
        Ok(Blob { bytes })
    }

    pub fn as_slice(&self) -> &[u8]
        ensures same { result.now ≡ self.now }
        ensures blob { IsBlob self.now }
    {
        let bytes: &[u8] = self.bytes.as_slice();
        bytes
    }

    pub fn len(&self) -> usize
        ensures { result ≡ length self.now }
    {
        self.as_slice().len()
    }

    pub fn is_empty(&self) -> bool
        ensures { result ≡ (length self.now == 0) }
    {
        self.as_slice().is_empty()
    }
}

impl Items {
    #[inline(always)]
    pub fn from_vec(alloc: Global, list: Vec<Value>) -> Result<Items, NoMemory>
        ensures { IfOk result (λ xs. xs ≡ list.items) }
    {
        see_all(&list);
        let list = Arc::new(alloc, fitted(list))?;
        Ok(Items { list })
    }

    pub fn as_slice(&self) -> &[Value]
        ensures same { result.now ≡ self.now }
        ensures well_formed { AreWellFormed (plains self.now) }
    {
        self.list.as_slice()
    }

    pub fn len(&self) -> usize
        ensures { result ≡ length self.now }
    {
        self.as_slice().len()
    }

    pub fn is_empty(&self) -> bool
        ensures { result ≡ (length self.now == 0) }
    {
        self.as_slice().is_empty()
    }
}

/// The same list, without the room for more where it has room for as many again.
#[inline(always)]
pub(crate) fn fitted<T: Drop>(mut list: Vec<T>) -> Vec<T>
    ensures { result.items ≡ list.items }
{
    if list.capacity() / 2 >= list.len() {
        list.shrink_to_fit();
    }
    list
}

/// Each value keeps what is true of all values.
#[inline(always)]
pub(crate) fn see_all(values: &[Value])
    ensures { AreWellFormed (plains values.now) }
{
    for value in values {
        let _ = &value.node;
    }
}

/// Each key and each value keeps what is true of all values.
pub(crate) fn see_all_entries(entries: &[Entry])
    ensures { ArePairsWellFormed (pairs (map key_and_value entries.now)) }
{
    for entry in entries {
        let key = &entry.key;
        let value = &entry.value;
        let _ = &key.node;
        let _ = &value.node;
    }
}

impl SetItems {
    /// The elements, in ascending order.
    pub fn as_slice(&self) -> &[Value]
        ensures same { result.now ≡ self.now }
        ensures ascending { Ascend self.now }
    {
        self.list.as_slice()
    }

    pub fn len(&self) -> usize
        ensures { result ≡ length self.now }
    {
        self.as_slice().len()
    }

    pub fn is_empty(&self) -> bool
        ensures { result ≡ (length self.now == 0) }
    {
        self.as_slice().is_empty()
    }
}

impl Entries {
    /// The entries, in ascending order of their keys.
    pub fn as_slice(&self) -> &[Entry]
        ensures same { map key_and_value result.now ≡ self.now }
        ensures ascending { KeysAscend self.now }
    {
        self.list.as_slice()
    }

    pub fn len(&self) -> usize
        ensures { result ≡ length self.now }
    {
        self.as_slice().len()
    }

    pub fn is_empty(&self) -> bool
        ensures { result ≡ (length self.now == 0) }
    {
        self.as_slice().is_empty()
    }
}
