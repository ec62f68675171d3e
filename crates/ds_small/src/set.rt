//! A set of values.
ghost use Rattle.std.specs.Prelude.{◌≡◌, ◌∷◌, [], ◌↔◌, true, false, not, IsTrue, IfOk, OnOk, OnErr};
ghost use Rattle.std.specs.Prelude.{if◌then◌else◌};
ghost use Rattle.std.specs.BTreeSet.{btree_set_len, contains, insert_key, IsOrdered};
ghost use Rattle.std.specs.List.{list_any};
ghost use Rattle.std.specs.Set.{remove_key};
ghost use Rattle.std.specs.BTreeMap.{is_at};
ghost use Rattle.pv_value.specs.Plain.{Plain};
ghost use Rattle.pv_value.specs.Order.{order};
ghost use Rattle.pv_words.specs.Parts.{same};
ghost use Rattle.ds_small.specs.Sets.{held_keys};

use pv_value::{NoMemory, Value};
use std::alloc::Global;
use std::collections::BTreeSet;
use std::marker::Model;

/// The keys, where they are kept.
#[derive(Drop)]
pub(crate) enum Keys {
    Nothing,
    One(Value),
    Many(BTreeSet<Value>),
}

/// A set of values. One value takes no memory besides.
#[derive(Drop)]
pub struct SmallSet {
    kept: Keys,
}

/// The keys of a set, to go over them in order.
#[derive(Clone, Copy)]
pub enum Held<'a> {
    Nothing,
    One(&'a Value),
    Many(&'a BTreeSet<Value>),
}

impl Model for SmallSet {
    ghost use Rattle.std.specs.BTreeSet.{BTreeSet};
    ghost use Rattle.std.specs.Coded.{codes};
    ghost use Rattle.pv_value.specs.Plain.{Plain};
    ghost use Rattle.pv_value.specs.Lemmas.Coded.{plain_code};

    ghost Value = { BTreeSet Plain };

    ghost coded = { Prim.hlevel (codes, plain_code) };

    ghost use Rattle.ds_small.specs.Sets.{set_of};

    ghost view = { λ s. set_of s.kept };
}

/// A tree of a first key and a second.
fn two(alloc: Global, first: &Value, second: Value) -> Result<BTreeSet<Value>, NoMemory>
    ensures members { IfOk result (λ tree. (q : Plain) → contains order tree q
        ≡ (if same second q then true else list_any (same q) (first.now ∷ []))) }
    ensures keys { IfOk result (λ tree. tree.keys ≡ insert_key order (first.now ∷ []) second) }
{
    let mut tree = BTreeSet::new(alloc);
    tree.insert(first.copy()?)?;
    tree.insert(second)?;
    Ok(tree)
}

/// Other keys are kept.
fn keep(kept: &mut Keys, keys: Keys)
    ensures { kept.new ≡ keys }
{
    *kept = keys;
}

impl SmallSet {
    /// No keys. This takes no memory.
    pub fn new() -> SmallSet
        ensures { result.keys ≡ [] }
    {
        SmallSet {
            kept: Keys::Nothing,
        }
    }

    /// One key. This takes no memory.
    pub fn one(key: Value) -> SmallSet
        ensures { result.keys ≡ key ∷ [] }
    {
        SmallSet {
            kept: Keys::One(key),
        }
    }

    /// The keys, to go over them.
    pub fn held(&self) -> Held<'_>
        ensures keys { held_keys result ≡ self.now.keys }
        ensures ordered { IsOrdered order self.now }
    {
        match &self.kept {
            Keys::Nothing => Held::Nothing,
            Keys::One(key) => Held::One(key),
            Keys::Many(tree) => {
                let _ = tree.len();
                Held::Many(tree)
            }
        }
    }

    /// How many keys there are.
    pub fn len(&self) -> usize
        ensures len { result ≡ btree_set_len self.now }
        ensures ordered { IsOrdered order self.now }
    {
        match &self.kept {
            Keys::Nothing => 0,
            Keys::One(_) => 1,
            Keys::Many(tree) => tree.len(),
        }
    }

    /// Whether there are no keys.
    pub fn is_empty(&self) -> bool
        ensures { IsTrue result ↔ (btree_set_len self.now ≡ 0) }
    {
        self.len() == 0
    }

    /// Whether the key is there.
    pub fn contains(&self, key: &Value) -> bool
        ensures { result ≡ contains order self.now key.now }
    {
        match &self.kept {
            Keys::Nothing => false,
            Keys::One(there) => *key == *there,
            Keys::Many(tree) => tree.contains(key),
        }
    }

    /// One key more. The answer is whether it is new. For want of memory nothing changes.
    pub fn insert(&mut self, alloc: Global, key: Value) -> Result<bool, NoMemory>
        ensures added { IfOk result (λ added. added ≡ not (contains order self.old key)) }
        ensures members { OnOk result ((q : Plain) → contains order self.new q
            ≡ (if same key q then true else contains order self.old q)) }
        ensures keys { OnOk result (self.new.keys ≡ insert_key order self.old.keys key) }
        ensures undone { OnErr result (self.new.keys ≡ self.old.keys) }
    {
        match &mut self.kept {
            Keys::Nothing => {
                keep(&mut self.kept, Keys::One(key));
                Ok(true)
            }
            Keys::One(there) => {
                if key == *there {
                    return Ok(false);
                }
                let tree = two(alloc, there, key)?;
                keep(&mut self.kept, Keys::Many(tree));
                Ok(true)
            }
            Keys::Many(tree) => {
                let added = tree.insert(key)?;
                Ok(added)
            }
        }
    }

    /// One key fewer. The answer is whether it was there.
    pub fn remove(&mut self, key: &Value) -> bool
        ensures test { result ≡ contains order self.old key.now }
        ensures members { (q : Plain) → contains order self.new q
            ≡ (if same key.now q then false else contains order self.old q) }
        ensures keys { self.new.keys ≡ remove_key (is_at (order key.now)) self.old.keys }
    {
        match &mut self.kept {
            Keys::Nothing => false,
            Keys::One(there) => {
                if *key == *there {
                    keep(&mut self.kept, Keys::Nothing);
                    return true;
                }
                false
            }
            Keys::Many(tree) => tree.remove(key),
        }
    }
}
