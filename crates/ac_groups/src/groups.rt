//! The handles of keys and the facets of their groups.
ghost use Rattle.std.specs.Prelude.{◌≡◌, [], OnOk, OnErr, IfOk, option_and_then};
ghost use Rattle.std.specs.BTreeMap.{insert_entry, is_at};
ghost use Rattle.std.specs.Map.{lookup, remove_entry};
ghost use Rattle.pv_value.specs.Order.{order};
ghost use Rattle.ac_groups.specs.Groups.{group_of};

pub use crate::group::Taken;
use crate::group::{ByGroup, facet_of, put, put_facet, take, take_facet};
use crate::parts::parts;
use pv_marks::Marked;
use pv_value::{NoMemory, Value};
use std::alloc::Global;
use std::collections::BTreeMap;
use std::marker::Model;

/// The handle of each key, and the facet of each group that has one.
#[derive(Drop)]
pub struct Groups {
    alloc: Global,
    groups: ByGroup,
    /// The handles of keys of any other form than `[o c]`.
    others: BTreeMap<Value, u64>,
}

impl Model for Groups {
    ghost use Rattle.std.specs.Coded.{codes};
    ghost use Rattle.pv_value.specs.Lemmas.Coded.{plain_code};
    ghost use Rattle.ac_groups.specs.Groups.{Grouped};

    ghost Value = { Grouped };

    ghost coded = { Prim.hlevel (codes, plain_code) };

    ghost use Rattle.ac_groups.specs.Kept.{all_handles, all_facets, IsKept};

    ghost view = { λ a. record {
      handles = all_handles a.groups.entries a.others.entries;
      facets = all_facets a.groups.entries;
    } };

    ghost invariant = { λ a. IsKept a.groups a.others };
}

impl Groups {
    /// No key has a handle, and no group a facet. This takes no memory.
    pub fn new(alloc: Global) -> Groups
        ensures handles { result.handles ≡ [] }
        ensures facets { result.facets ≡ [] }
    {
        Groups {
            alloc,
            groups: BTreeMap::new(alloc),
            others: BTreeMap::new(alloc),
        }
    }

    /// The handle of a key goes. The answer tells it, and the facet of the key's group. For want of
    /// memory nothing changes.
    pub fn take(&mut self, key: &Value) -> Result<Taken, NoMemory>
        ensures handle { IfOk result (λ taken. taken.handle
            ≡ lookup (is_at (order key.now)) self.old.handles) }
        ensures facet { IfOk result (λ taken. taken.facet ≡ option_and_then
            (λ o. lookup (is_at (order o)) self.old.facets) (group_of key.now)) }
        ensures handles { OnOk result (self.new.handles
            ≡ remove_entry (is_at (order key.now)) self.old.handles) }
        ensures facets { OnOk result (self.new.facets ≡ self.old.facets) }
        ensures stands { OnErr result (self.new ≡ self.old) }
    {
        if let Some((group, rest)) = parts(key) {
            let marked = Marked::of(group)?;
            return Ok(take(&mut self.groups, &marked, rest));
        }
        let facet = facet_of(&self.groups, key)?;
        let handle = self.others.remove(key);
        Ok(Taken { handle, facet })
    }

    /// A key has a handle from now on; answers the facet of the key's group. For want of memory
    /// nothing changes.
    pub fn put(&mut self, key: &Value, handle: u64) -> Result<Option<u32>, NoMemory>
        ensures facet { IfOk result (λ facet. facet ≡ option_and_then
            (λ o. lookup (is_at (order o)) self.old.facets) (group_of key.now)) }
        ensures handles { OnOk result (self.new.handles
            ≡ insert_entry order self.old.handles key.now handle) }
        ensures facets { self.new.facets ≡ self.old.facets }
        ensures stands { OnErr result (self.new ≡ self.old) }
    {
        if let Some((group, rest)) = parts(key) {
            let marked = Marked::of(group)?;
            return put(self.alloc, &mut self.groups, marked, rest, handle);
        }
        let facet = facet_of(&self.groups, key)?;
        self.others.insert(key.copy()?, handle)?;
        Ok(facet)
    }

    /// A group has a facet from now on. For want of memory nothing changes.
    pub fn put_facet(&mut self, group: &Value, facet: u32) -> Result<(), NoMemory>
        ensures facets { OnOk result (self.new.facets
            ≡ insert_entry order self.old.facets group.now facet) }
        ensures handles { self.new.handles ≡ self.old.handles }
        ensures stands { OnErr result (self.new ≡ self.old) }
    {
        let marked = Marked::of(group)?;
        put_facet(self.alloc, &mut self.groups, marked, facet)
    }

    /// A group's facet goes. For want of memory nothing changes.
    pub fn take_facet(&mut self, group: &Value) -> Result<(), NoMemory>
        ensures facets { OnOk result (self.new.facets
            ≡ remove_entry (is_at (order group.now)) self.old.facets) }
        ensures handles { OnOk result (self.new.handles ≡ self.old.handles) }
        ensures stands { OnErr result (self.new ≡ self.old) }
    {
        let marked = Marked::of(group)?;
        take_facet(&mut self.groups, &marked);
        Ok(())
    }
}
