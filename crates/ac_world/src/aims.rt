//! What arrives of what is sent through references, and where.
ghost use Rattle.std.specs.Prelude.{◌≡◌, false, IfOk, List, option_copied, option_and_then};
ghost use Rattle.ps_schema.specs.declared.Definition.{Definition};
ghost use Rattle.ac_world.specs.Aims.{aim_by, aim_at, observer_in, observation_of, has_caveats};

use ds_space::{Reference, reference_of};
use pv_value::{NoMemory, Node, Value};
use sr_caveat::Cap;
use sr_pass::{Judge, pass};
use std::alloc::Global;

/// What is to be told, and at which object.
#[derive(Drop)]
pub struct Aim {
    pub at: Reference,
    pub value: Value,
}

/// What the caveats of a reference let pass of a value.
fn aim_by<J: Judge>(
    alloc: Global,
    judge: &J,
    value: &Value,
    cap: &Cap,
) -> Result<Option<Aim>, NoMemory>
    ensures { IfOk result (λ aim. aim ≡ aim_by (J.schema judge.now) value.now cap.now) }
{
    let Some(value) = pass(alloc, cap.caveats.as_slice(), value, judge)? else {
        return Ok(None);
    };
    let at = Reference {
        actor: cap.actor,
        entity: cap.entity,
    };
    Ok(Some(Aim { at, value }))
}

/// What arrives of a value that is sent through a reference, where there is one.
pub(crate) fn aim_through<J: Judge>(
    alloc: Global,
    judge: &J,
    value: &Value,
    cap: &Option<Cap>,
) -> Result<Option<Aim>, NoMemory>
    ensures { IfOk result (λ aim. aim
        ≡ option_and_then (aim_by (J.schema judge.now) value.now) cap.now) }
{
    match cap {
        Some(cap) => aim_by(alloc, judge, value, cap),
        None => Ok(None),
    }
}

/// Whether a value is as long as that of a reference with caveats.
pub(crate) fn has_caveats(reference: &Value) -> bool
    ensures { result ≡ has_caveats reference.now }
{
    match &reference.node {
        Node::Seq(items) => items.as_slice().len() > 2,
        _ => false,
    }
}

/// What arrives of a value that is sent through a reference without caveats, as it is. To read one
/// takes no memory.
#[tactic(auto, using(crate::proofs::Bare::bare_aim))]
pub(crate) fn aim_bare(value: &Value, reference: &Value) -> Result<Option<Aim>, NoMemory>
    requires { has_caveats reference.now ≡ false }
    ensures { IfOk result
        (λ aim. (ds : List Definition) → aim ≡ aim_at ds value.now reference.now) }
{
    let Some(at) = reference_of(reference) else {
        return Ok(None);
    };
    Ok(Some(Aim {
        at,
        value: value.copy()?,
    }))
}

/// The observation o to which a key `[o c]` belongs.
pub(crate) fn observation_of(key: &Value) -> Option<&Value>
    ensures { option_copied result ≡ observation_of key.now }
{
    match &key.node {
        Node::Seq(items) => items.as_slice().first(),
        _ => None,
    }
}

/// The reference that an observation `<Observe p #:r>` names, r. It may be the value of none.
pub(crate) fn observer_in(observation: &Value) -> Option<&Value>
    ensures { option_copied result ≡ observer_in observation.now }
{
    let Node::Rec(record) = &observation.node else {
        return None;
    };
    let [_, observer] = record.fields.as_slice() else {
        return None;
    };
    match &observer.node {
        Node::Emb(inside) => Some(inside),
        _ => None,
    }
}
