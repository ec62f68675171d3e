//! An actor's facets: a tree, and the rows in each.
ghost use Rattle.std.specs.Prelude.{◌≡◌, ◌∷◌, [], ◌<◌, ◌≤◌, ◌+◌, ◌^◌, ◌&&◌, ◌||◌, not, filter};
ghost use Rattle.std.specs.Prelude.{◌==◌};
ghost use Rattle.std.specs.Prelude.{true, false, OnOk, OnErr, IfOk, IfSome, ℕ, IsSome, length};
ghost use Rattle.std.specs.Ordering.{nat_cmp};
ghost use Rattle.std.specs.List.{list_any};
ghost use Rattle.std.specs.BTreeMap.{insert_entry, IsOrdered};
ghost use Rattle.std.specs.BTreeSet.{IsOrdered as IsOrderedSet};
ghost use Rattle.ac_table.specs.Facets.{is_facet, IsLeastFree, AreBelow, IsTree, least_free};
ghost use Rattle.ac_table.specs.Maps.{is_key};
ghost use Rattle.ac_table.specs.Placed.{bare, tree_in, SameTree, SameRows, HasRow, has_at};
ghost use Rattle.ac_table.specs.Placed.{SameFacets, KeepsLinks, LinksAt, is_child, has_some};

use crate::sets::{find, free_all, insert_all, keeps_its_order, keeps_map_order, remove_all};
use pv_value::NoMemory;
use std::alloc::Global;
use std::collections::{BTreeMap, BTreeSet};
use std::marker::Model;

/// A facet: the one right above it, those right below it, and the handles of its rows.
#[derive(Drop)]
pub(crate) struct Facet {
    parent: u32,
    below: BTreeSet<u32>,
    rows: BTreeSet<u64>,
}

impl Facet {
    /// One with nothing in it.
    fn below(alloc: Global, parent: u32) -> Facet
        ensures parent { result.parent ≡ parent }
        ensures below { result.below.keys ≡ [] }
        ensures rows { result.rows.keys ≡ [] }
    {
        Facet {
            parent,
            below: BTreeSet::new(alloc),
            rows: BTreeSet::new(alloc),
        }
    }
}

/// An actor's facets by number, and the numbers below `end` that none of them has.
#[derive(Drop)]
pub(crate) struct Facets {
    all: BTreeMap<u32, Facet>,
    free: BTreeSet<u32>,
    end: u64,
}

impl Model for Facets {
    ghost use Rattle.std.specs.Prelude.{List, ℕ, map};
    ghost use Rattle.std.specs.Coded.{codes};
    ghost use Rattle.ac_table.specs.Placed.{FacetState, facet_seen, IsPlaced};

    ghost Value = { List (ℕ × FacetState) };

    ghost coded = { Prim.hlevel codes };

    ghost view = { λ x. map facet_seen x.all.entries };

    ghost invariant = { λ x. IsPlaced x.all.entries x.free.keys x.end };
}

/// One more number among those below a facet.
fn link(all: &mut BTreeMap<u32, Facet>, facet: u32, number: u32) -> Result<(), NoMemory>
    ensures same { SameFacets all.old.entries all.new.entries }
    ensures linked { OnOk result (LinksAt facet number all.new.entries) }
    ensures kept { KeepsLinks (λ k. true) all.old.entries all.new.entries }
    ensures ordered { IsOrdered nat_cmp all.new }
{
    keeps_map_order(all);
    let Some(it) = all.get_mut(&facet) else {
        return Ok(());
    };
    it.below.insert(number)?;
    Ok(())
}

/// A facet is no more among those below its parent.
fn unlink(all: &mut BTreeMap<u32, Facet>, facet: u32)
    ensures same { SameFacets all.old.entries all.new.entries }
    ensures kept { KeepsLinks (λ k. not (k == facet)) all.old.entries all.new.entries }
    ensures ordered { IsOrdered nat_cmp all.new }
{
    keeps_map_order(all);
    let Some(it) = all.get(&facet) else {
        return;
    };
    let parent = it.parent;
    let Some(it) = all.get_mut(&parent) else {
        return;
    };
    it.below.remove(&facet);
}

impl Facets {
    /// The root alone.
    pub(crate) fn new(alloc: Global) -> Result<Facets, NoMemory>
        ensures { IfOk result (λ x. x ≡ (0, bare 0) ∷ []) }
    {
        let mut all = BTreeMap::new(alloc);
        all.insert(0, Facet::below(alloc, 0))?;
        Ok(Facets {
            all,
            free: BTreeSet::new(alloc),
            end: 1,
        })
    }

    /// What is true of the facets.
    pub(crate) fn keeps_its_tree(&self)
        ensures { IsTree (tree_in self.now) }
    {
        let _ = &self.all;
    }

    pub(crate) fn has(&self, facet: u32) -> bool
        ensures { result ≡ is_facet facet (tree_in self.now) }
    {
        self.all.contains_key(&facet)
    }

    /// Whether a facet has rows.
    pub(crate) fn has_rows(&self, facet: u32) -> bool
        ensures { result ≡ has_some facet self.now }
    {
        match self.all.get(&facet) {
            Some(it) => !it.rows.is_empty(),
            None => false,
        }
    }

    /// The least number from 1 that no facet has, where there is one.
    fn least_free(&self) -> Option<u32>
        requires { is_facet 0 (tree_in self.now) ≡ true }
        ensures { IfSome result (λ n. IsLeastFree n (tree_in self.now)) }
    {
        if let Some(number) = self.free.first() {
            return Some(*number);
        }
        if self.end < 1 << 32 {
            Some(self.end as u32)
        } else {
            None
        }
    }

    /// One more facet, right below one that is there, with the least number from 1 that none has.
    pub(crate) fn add(&mut self, alloc: Global, parent: u32) -> Result<u32, NoMemory>
        requires { is_facet parent (tree_in self.old) ≡ true }
        ensures made { IfOk result (λ n. self.new
            ≡ insert_entry nat_cmp self.old n (bare parent)) }
        ensures least { IfOk result (λ n. IsLeastFree n (tree_in self.old)) }
        ensures number { IfOk result (λ n. n ≡ least_free (tree_in self.old)) }
        ensures same { OnErr result (self.new ≡ self.old) }
    {
        let Some(number) = self.least_free() else {
            return Err(NoMemory);
        };
        link(&mut self.all, parent, number)?;
        self.all.insert(number, Facet::below(alloc, parent))?;
        if !self.free.remove(&number) {
            self.end += 1;
        }
        Ok(number)
    }

    /// One more row in a facet that is there.
    pub(crate) fn put(&mut self, facet: u32, handle: u64) -> Result<(), NoMemory>
        requires { is_facet facet (tree_in self.old) ≡ true }
        ensures tree { SameTree self.old self.new }
        ensures put { OnOk result (HasRow facet handle true self.old self.new) }
        ensures same { OnErr result (SameRows self.old self.new) }
    {
        let Some(it) = self.all.get_mut(&facet) else {
            return Ok(());
        };
        it.rows.insert(handle)?;
        Ok(())
    }

    /// One row less in a facet.
    pub(crate) fn remove_row(&mut self, facet: u32, handle: u64)
        ensures tree { SameTree self.old self.new }
        ensures gone { HasRow facet handle false self.old self.new }
    {
        let Some(it) = self.all.get_mut(&facet) else {
            return;
        };
        it.rows.remove(&handle);
    }

    /// Whether a facet stands right below another.
    fn is_child(&self, facet: u32, parent: u32) -> bool
        ensures { result ≡ is_child facet parent (tree_in self.now) }
    {
        match self.all.get(&facet) {
            Some(it) => facet > 0 && it.parent == parent,
            None => false,
        }
    }

    /// A facet is found, where it stands right below another.
    fn find_child(
        &self,
        facet: u32,
        parent: u32,
        found: &mut BTreeSet<u32>,
        left: &mut BTreeSet<u32>,
    ) -> Result<(), NoMemory>
        ensures found { OnOk result ((g : ℕ) → is_key g found.new.keys
            ≡ (is_key g found.old.keys || (g == facet && is_child g parent (tree_in self.now)))) }
        ensures left { OnOk result ((g : ℕ) → is_key g left.new.keys
            ≡ (is_key g left.old.keys || (not (is_key facet found.old.keys)
            && (g == facet && is_child g parent (tree_in self.now))))) }
        ensures count { OnOk result (length left.new.keys + length found.old.keys
            ≤ length left.old.keys + length found.new.keys) }
        ensures ordered { OnOk result (IsOrderedSet nat_cmp found.new) }
    {
        keeps_its_order(found);
        if !self.is_child(facet, parent) {
            return Ok(());
        }
        find(facet, found, left)
    }

    /// Those right below a facet are found; those that weren't found before are left to look at.
    fn look_below(
        &self,
        facet: u32,
        found: &mut BTreeSet<u32>,
        left: &mut BTreeSet<u32>,
    ) -> Result<(), NoMemory>
        ensures found { OnOk result ((g : ℕ) → is_key g found.new.keys
            ≡ (is_key g found.old.keys || is_child g facet (tree_in self.now))) }
        ensures left { OnOk result ((g : ℕ) → is_key g left.new.keys
            ≡ (is_key g left.old.keys
            || (not (is_key g found.old.keys) && is_child g facet (tree_in self.now)))) }
        ensures count { OnOk result (length left.new.keys + length found.old.keys
            ≤ length left.old.keys + length found.new.keys) }
        ensures ordered { OnOk result (IsOrderedSet nat_cmp found.new) }
    {
        keeps_its_order(found);
        let Some(it) = self.all.get(&facet) else {
            return Ok(());
        };
        for child in it.below.iter() {
            self.find_child(*child, facet, found, left)?;
        }
        Ok(())
    }

    /// A facet that is there, and those below it.
    pub(crate) fn all_below(&self, alloc: Global, facet: u32) -> Result<BTreeSet<u32>, NoMemory>
        requires { is_facet facet (tree_in self.now) ≡ true }
        ensures { IfOk result (λ facets. AreBelow facet (tree_in self.now) facets.keys) }
    {
        self.keeps_its_tree();
        let mut found = BTreeSet::new(alloc);
        let mut left = BTreeSet::new(alloc);
        find(facet, &mut found, &mut left)?;
        while let Some(next) = left.pop_first() {
            self.look_below(next, &mut found, &mut left)?;
        }
        Ok(found)
    }

    /// The handles of the rows in a facet too.
    fn add_rows(&self, facet: u32, handles: &mut BTreeSet<u64>) -> Result<(), NoMemory>
        ensures rows { OnOk result ((h : ℕ) → is_key h handles.new.keys
            ≡ (is_key h handles.old.keys || has_at facet h self.now)) }
        ensures ordered { OnOk result (IsOrderedSet nat_cmp handles.new) }
    {
        keeps_its_order(handles);
        match self.all.get(&facet) {
            Some(it) => insert_all(handles, &it.rows),
            None => Ok(()),
        }
    }

    /// The handles of the rows in these facets.
    pub(crate) fn rows_in(
        &self,
        alloc: Global,
        facets: &BTreeSet<u32>,
    ) -> Result<BTreeSet<u64>, NoMemory>
        ensures rows { IfOk result (λ handles. (h : ℕ) → is_key h handles.keys
            ≡ list_any (λ f. has_at f h self.now) facets.now.keys) }
        ensures ascending { IfOk result (λ handles. IsOrderedSet nat_cmp handles) }
    {
        let mut handles = BTreeSet::new(alloc);
        for facet in facets.iter() {
            self.add_rows(*facet, &mut handles)?;
        }
        Ok(handles)
    }

    /// A facet and those below it go.
    pub(crate) fn remove(&mut self, facet: u32, facets: &BTreeSet<u32>) -> Result<(), NoMemory>
        requires there { is_facet facet (tree_in self.old) ≡ true }
        requires below { AreBelow facet (tree_in self.old) facets.now.keys }
        ensures gone { OnOk result (self.new
            ≡ filter (λ e. not (is_key e.0 facets.now.keys)) self.old) }
        ensures same { OnErr result (self.new ≡ self.old) }
    {
        keeps_map_order(&self.all);
        free_all(&mut self.free, facets)?;
        unlink(&mut self.all, facet);
        remove_all(&mut self.all, facets);
        Ok(())
    }
}
