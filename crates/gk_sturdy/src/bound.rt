//! What oids stand for.
ghost use Rattle.std.specs.Prelude.{◌≡◌, ◌<◌, [], ◌∷◌, ◌++◌, Some, IfOk, OnOk, OnErr, cond, not};
ghost use Rattle.std.specs.Prelude.{option_copied, vec_len, vec_capacity};
ghost use Rattle.std.specs.BTreeMap.{is_at};
ghost use Rattle.pv_value.specs.Plain.{Plain};
ghost use Rattle.pv_value.specs.Order.{order};
ghost use Rattle.gk_sturdy.specs.Bindings.{binding_for, bound, with_binding, AreBoundOnce};
ghost use Rattle.gk_sturdy.specs.Kept.{place_at};

use pv_value::{Blob, NoMemory, Value};
use sr_caveat::Cap;
use std::alloc::Global;
use std::collections::BTreeMap;
use std::marker::Model;

/// An oid, the key under which references to it are signed, and the reference that these give.
#[derive(Drop)]
pub struct Binding {
    pub oid: Value,
    pub key: Blob,
    pub cap: Cap,
}

/// Bindings, one for each oid, in the order in which they were added.
#[derive(Drop)]
pub struct Bindings {
    list: Vec<Binding>,
    places: BTreeMap<Value, usize>,
}

impl Model for Bindings {
    ghost use Rattle.std.specs.Prelude.{List};
    ghost use Rattle.std.specs.Coded.{codes};
    ghost use Rattle.pv_value.specs.Lemmas.Coded.{plain_code};
    ghost use Rattle.sr_caveat.specs.Lemmas.Coded.{caveat_code};
    ghost use Rattle.gk_sturdy.specs.Bindings.{Binding};

    ghost Value = { List Binding };

    ghost coded = { Prim.hlevel (codes, plain_code, caveat_code) };

    ghost view = { λ b. b.list.items };

    ghost use Rattle.gk_sturdy.specs.Kept.{IsKept};

    ghost invariant = { λ b. IsKept b.list.items b.places.entries };
}

impl Bindings {
    /// No oid has a binding. This takes no memory.
    pub fn new(alloc: Global) -> Bindings
        ensures { result ≡ [] }
    {
        Bindings {
            list: Vec::new(alloc),
            places: BTreeMap::new(alloc),
        }
    }

    /// One binding more, behind the others, and whether it was added: it wasn't where its oid has
    /// one, which stays as it is. For want of memory nothing has changed.
    pub fn add(&mut self, binding: Binding) -> Result<bool, NoMemory>
        ensures added { IfOk result (λ added. added ≡ not (bound binding.oid self.old)) }
        ensures done { OnOk result (self.new ≡ with_binding binding self.old) }
        ensures undone { OnErr result (self.new ≡ self.old) }
    {
        if self.has(&binding.oid) {
            return Ok(false);
        }
        put(&mut self.list, &mut self.places, binding)?;
        Ok(true)
    }

    /// Whether an oid has a binding.
    pub fn has(&self, oid: &Value) -> bool
        ensures { result ≡ bound oid.now self.now }
    {
        self.get(oid).is_some()
    }

    /// The binding of an oid, which is looked for by halves.
    #[tactic(auto, using(crate::proofs::Places::found))]
    pub fn get(&self, oid: &Value) -> Option<&Binding>
        ensures found { option_copied result ≡ binding_for oid.now self.now }
        ensures once { AreBoundOnce self.now }
    {
        let place = self.places.get(oid)?;
        self.list.get(*place)
    }
}

/// One binding more, and its place, or neither.
fn put(
    list: &mut Vec<Binding>,
    places: &mut BTreeMap<Value, usize>,
    binding: Binding,
) -> Result<(), NoMemory>
    ensures list { OnOk result (list.new.items ≡ list.old.items ++ binding ∷ []) }
    ensures places { OnOk result ((oid : Plain) → place_at oid places.new.entries
        ≡ cond (is_at (order binding.oid) oid) (Some (vec_len list.old))
        (place_at oid places.old.entries)) }
    ensures same_list { OnErr result (list.new.items ≡ list.old.items) }
    ensures same_places { OnErr result (places.new.entries ≡ places.old.entries) }
{
    list.reserve(1)?;
    places.insert(binding.oid.copy()?, list.len())?;
    append(list, binding);
    Ok(())
}

/// One binding more, where there is room for it.
fn append(list: &mut Vec<Binding>, binding: Binding)
    requires { vec_len list.old < vec_capacity list.old }
    ensures { list.new.items ≡ list.old.items ++ binding ∷ [] }
{
    let _ = list.push(binding);
}
