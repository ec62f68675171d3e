//! What signed references give.
ghost use Rattle.std.specs.Prelude.{◌≡◌, [], ◌∷◌, ◌++◌, map, Some, false, IfOk, OnOk};
ghost use Rattle.std.specs.List.{AllByRecursion};
ghost use Rattle.pv_words.specs.Words.{labelled};
ghost use Rattle.sr_caveat.specs.Caps.{attenuated, IsReadBack};
ghost use Rattle.sr_caveat.specs.Written.{caveat_of};
ghost use Rattle.gk_sturdy.specs.Chain.{due};
ghost use Rattle.gk_sturdy.specs.Answers.{BadSig, if_within, answer_by, answer_of};
ghost use Rattle.gk_sturdy.specs.Answers.{answer_value, reply_to};

use crate::bound::{Binding, Bindings};
use crate::links::{Link, due, is_same};
use crate::refs::{SturdyRef, read_ref};
use pv_value::{Blob, NoMemory, Text, Value};
use pv_words::labelled;
use sr_caveat::{Cap, Caveat, Caveats, REFERENCE_CAVEATS, REFERENCE_WEIGHT, parse_caveat};
use sr_weight::{cap_weight, weight_of_caveats};
use std::alloc::Global;

/// What a value is answered, as a signed reference.
#[derive(Drop)]
pub enum Answer {
    /// The reference that it gives.
    Accepted(Cap),
    Rejected(Why),
}

/// Why a value gives no reference. Nobody is told but who asks here: `due` would let whoever has it
/// in.
#[derive(Drop)]
pub enum Why {
    /// The value is no signed reference.
    NotARef,
    /// Its oid has no binding.
    NoBinding,
    /// Its signature isn't the one that is due.
    BadSig { given: Blob, due: Blob },
    /// What it gives would have so many caveats, more than a reference may have.
    Caveats(u64),
    /// What it gives would weigh so much, more than a reference may.
    Heavy(u64),
}

/// What a value gives, as a signed reference. The causes of a rejection are looked at in the order
/// of [`Why`].
pub fn resolve(alloc: Global, bindings: &Bindings, value: &Value) -> Result<Answer, NoMemory>
    ensures { IfOk result (λ a. a ≡ answer_of bindings.now value.now) }
{
    let Some(r) = read_ref(alloc, value)? else {
        return Ok(Answer::Rejected(Why::NotARef));
    };
    match bindings.get(&r.oid) {
        Some(binding) => answer_by(alloc, binding, &r),
        None => Ok(Answer::Rejected(Why::NoBinding)),
    }
}

/// The value with which a value is answered.
pub fn reply(alloc: Global, bindings: &Bindings, value: &Value) -> Result<Value, NoMemory>
    ensures { IfOk result (λ v. v ≡ reply_to bindings.now value.now) }
{
    let answer = resolve(alloc, bindings, value)?;
    answer.to_value(alloc)
}

impl Answer {
    /// `<accepted #:cap>` or `<rejected "refused">`, which tells nothing of the cause.
    pub fn to_value(&self, alloc: Global) -> Result<Value, NoMemory>
        ensures { IfOk result (λ v. v ≡ answer_value self.now) }
    {
        match self {
            Answer::Accepted(cap) => {
                let cap = Value::embedded(alloc, cap.to_value(alloc)?)?;
                with_one(alloc, "accepted", cap)
            }
            Answer::Rejected(_) => {
                let refused = Value::string(Text::from_str(alloc, "refused")?);
                with_one(alloc, "rejected", refused)
            }
        }
    }
}

/// `<word x>`.
fn with_one(alloc: Global, word: &str, x: Value) -> Result<Value, NoMemory>
    ensures { IfOk result (λ v. v ≡ labelled word.now (x ∷ [])) }
{
    let mut fields = Vec::new(alloc);
    fields.push(x)?;
    labelled(alloc, word, fields)
}

/// What a reference to an oid with this binding gives.
fn answer_by(alloc: Global, binding: &Binding, r: &SturdyRef) -> Result<Answer, NoMemory>
    ensures { IfOk result (λ a. a ≡ answer_by r.now (Some binding.now)) }
{
    let due = due(alloc, binding.key.as_slice(), r)?;
    if !is_same(r.sig.as_slice(), &due) {
        return Ok(Answer::Rejected(bad_sig(alloc, &r.sig, &due)?));
    }
    if_within(alloc, &binding.cap, r.caveats.as_slice())
}

fn bad_sig(alloc: Global, given: &Blob, due: &Link) -> Result<Why, NoMemory>
    ensures { IfOk result (λ why. why ≡ BadSig given.now due.now) }
{
    Ok(Why::BadSig {
        given: given.copy()?,
        due: Blob::from_slice(alloc, due)?,
    })
}

/// The reference with these caveats behind its own, where it is within the bounds. They are counted
/// before any is read, and weighed before any is copied. A guard among them is unknown.
fn if_within(alloc: Global, cap: &Cap, behind: &[Value]) -> Result<Answer, NoMemory>
    ensures { IfOk result (λ a. a
        ≡ if_within (attenuated (map (caveat_of false) behind.now) cap.now)) }
{
    let count = cap.caveats.as_slice().len().saturating_add(behind.len());
    if count > REFERENCE_CAVEATS {
        return Ok(Answer::Rejected(Why::Caveats(count as u64)));
    }
    let behind = parsed(alloc, behind)?;
    let weight = cap_weight(cap).saturating_add(weight_of_caveats(&behind));
    if weight > REFERENCE_WEIGHT {
        return Ok(Answer::Rejected(Why::Heavy(weight)));
    }
    Ok(Answer::Accepted(attenuated(alloc, cap, &behind)?))
}

/// The reference with these caveats behind its own.
fn attenuated(alloc: Global, cap: &Cap, behind: &[Caveat]) -> Result<Cap, NoMemory>
    requires { AllByRecursion IsReadBack behind.now }
    ensures { IfOk result (λ c. c ≡ attenuated behind.now cap.now) }
{
    let mut all = Vec::new(alloc);
    add_copies(&mut all, cap.caveats.as_slice())?;
    add_copies(&mut all, behind)?;
    Ok(Cap {
        actor: cap.actor,
        entity: cap.entity,
        caveats: Caveats::from_vec(alloc, all)?,
    })
}

fn add_copies(all: &mut Vec<Caveat>, more: &[Caveat]) -> Result<(), NoMemory>
    ensures { OnOk result (all.new.items ≡ all.old.items ++ more.now) }
{
    for caveat in more {
        all.push(caveat.copy()?)?;
    }
    Ok(())
}

/// The caveats that these values write. A guard is unknown.
fn parsed(alloc: Global, list: &[Value]) -> Result<Vec<Caveat>, NoMemory>
    ensures { IfOk result (λ cs. cs.items ≡ map (caveat_of false) list.now) }
{
    let mut caveats = Vec::new(alloc);
    for caveat in list {
        caveats.push(parse_caveat(alloc, caveat, false)?)?;
    }
    Ok(caveats)
}
