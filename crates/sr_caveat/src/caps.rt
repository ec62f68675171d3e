//! References with caveats.
ghost use Rattle.std.specs.Prelude.{◌≡◌, IfOk, OnOk, ◌++◌, Some};
ghost use Rattle.pv_value.specs.Plain.{plains};
ghost use Rattle.sr_caveat.specs.Caps.{cap_of, cap_value, cap_read, attenuated, caveats_from};
ghost use Rattle.sr_caveat.specs.Caps.{if_spelled};

use crate::Caveat;
use crate::caveats::parse_caveat;
use crate::spelling::caveat_values;
use pv_value::{Items, NoMemory, Node, Value};
use pv_words::{number, number_in};
use std::alloc::Global;
use std::marker::Model;
use std::sync::Arc;

/// A list of caveats, the oldest first, which copies share.
#[derive(Drop)]
pub struct Caveats {
    list: Arc<Vec<Caveat>>,
}

impl Model for Caveats {
    ghost use Rattle.std.specs.Prelude.{List};
    ghost use Rattle.std.specs.Coded.{coded_list};
    ghost use Rattle.sr_caveat.specs.Patterns.{Caveat};
    ghost use Rattle.sr_caveat.specs.Lemmas.Coded.{caveat_code};

    ghost Value = { List Caveat };

    ghost coded = { coded_list caveat_code };

    ghost view = { λ a. a.list.value.items };
}

impl Caveats {
    /// These caveats, the oldest first. For want of memory the list is gone.
    pub fn from_vec(alloc: Global, list: Vec<Caveat>) -> Result<Caveats, NoMemory>
        ensures { IfOk result (λ cs. cs ≡ list.items) }
    {
        let list = Arc::new(alloc, list)?;
        Ok(Caveats { list })
    }

    /// The caveats, the oldest first.
    pub fn as_slice(&self) -> &[Caveat]
        ensures { result.now ≡ self.now }
    {
        self.list.as_slice()
    }

    /// An equal list.
    pub fn copy(&self) -> Result<Caveats, NoMemory>
        ensures { IfOk result (λ cs. cs ≡ self.now) }
    {
        let list = Arc::try_clone(&self.list)?;
        Ok(Caveats { list })
    }
}

/// A reference: an object of an actor, and the caveats that stand before it, the oldest first.
///
/// Each one is read back from the value that it writes: `IsSound` of `specs/Caps.antt` holds of
/// every `Cap`, and is to be proved where one is made or a field is changed.
#[derive(Drop)]
pub struct Cap {
    pub actor: u32,
    pub entity: u64,
    pub caveats: Caveats,
}

impl Model for Cap {
    ghost use Rattle.std.specs.Coded.{codes};
    ghost use Rattle.sr_caveat.specs.Lemmas.Coded.{caveat_code};
    ghost use Rattle.sr_caveat.specs.Caps.{Cap as CapOf, IsSound};

    ghost Value = { CapOf };

    ghost coded = { Prim.hlevel (codes, caveat_code) };

    ghost view = { λ c. record { actor = c.actor; entity = c.entity; caveats = c.caveats } };

    ghost invariant = { λ c.
        IsSound (record { actor = c.actor; entity = c.entity; caveats = c.caveats }) };
}

impl Cap {
    /// An equal reference.
    pub fn copy(&self) -> Result<Cap, NoMemory>
        ensures { IfOk result (λ c. c ≡ self.now) }
    {
        Ok(Cap {
            actor: self.actor,
            entity: self.entity,
            caveats: self.caveats.copy()?,
        })
    }

    /// The value of the same reference with these caveats behind its own.
    pub fn attenuated_value(&self, alloc: Global, caveats: &[Caveat]) -> Result<Value, NoMemory>
        ensures { IfOk result (λ v. v ≡ cap_value (attenuated caveats.now self.now)) }
    {
        let caveats = joined(alloc, self.caveats.as_slice(), caveats)?;
        written(alloc, self.actor, self.entity, &caveats)
    }

    /// The value `[actor entity caveat ..]` that writes the reference.
    pub fn to_value(&self, alloc: Global) -> Result<Value, NoMemory>
        ensures written { IfOk result (λ v. v ≡ cap_value self.now) }
        ensures read_back { IfOk result (λ v. cap_of v ≡ Some self.now) }
    {
        written(alloc, self.actor, self.entity, self.caveats.as_slice())
    }

    /// The reference that a value writes, where it is the value of one.
    pub fn of_value(alloc: Global, value: &Value) -> Result<Option<Cap>, NoMemory>
        ensures { IfOk result (λ c. c ≡ cap_of value.now) }
    {
        let Some(cap) = read_cap(alloc, value)? else {
            return Ok(None);
        };
        if_spelled(alloc, value, cap)
    }
}

impl Caveat {
    /// An equal caveat.
    pub fn copy(&self) -> Result<Caveat, NoMemory>
        ensures { IfOk result (λ c. c ≡ self.now) }
    {
        let rule = Arc::try_clone(&self.rule)?;
        Ok(Caveat { rule })
    }
}

/// The value `[actor entity caveat ..]`.
fn written(alloc: Global, actor: u32, entity: u64, caveats: &[Caveat]) -> Result<Value, NoMemory>
    ensures { IfOk result (λ v. v
        ≡ cap_value (record { actor = actor; entity = entity; caveats = caveats.now })) }
{
    let mut items = Vec::new(alloc);
    items.push(number(u64::from(actor)))?;
    items.push(number(entity))?;
    let caveats = caveat_values(alloc, caveats)?;
    add_values(&mut items, &caveats)?;
    Ok(Value::sequence(Items::from_vec(alloc, items)?))
}

/// Equal caveats, one list behind the other.
fn joined(alloc: Global, first: &[Caveat], second: &[Caveat]) -> Result<Vec<Caveat>, NoMemory>
    ensures { IfOk result (λ cs. cs.items ≡ first.now ++ second.now) }
{
    let mut all = Vec::new(alloc);
    add_copies(&mut all, first)?;
    add_copies(&mut all, second)?;
    Ok(all)
}

fn add_copies(all: &mut Vec<Caveat>, more: &[Caveat]) -> Result<(), NoMemory>
    ensures { OnOk result (all.new.items ≡ all.old.items ++ more.now) }
{
    for caveat in more {
        all.push(caveat.copy()?)?;
    }
    Ok(())
}

fn add_values(all: &mut Vec<Value>, more: &[Value]) -> Result<(), NoMemory>
    ensures { OnOk result (all.new.items ≡ all.old.items ++ more.now) }
{
    for value in more {
        all.push(value.copy()?)?;
    }
    Ok(())
}

/// The reference that a value is read as, though the value may write some of it in another way.
fn read_cap(alloc: Global, value: &Value) -> Result<Option<Cap>, NoMemory>
    ensures { IfOk result (λ c. c ≡ cap_read value.now) }
{
    let Node::Seq(items) = &value.node else {
        return Ok(None);
    };
    let items = items.as_slice();
    if items.len() < 2 {
        return Ok(None);
    }
    match (number_in(&items[0]), number_in(&items[1])) {
        (Some(actor), Some(entity)) if actor < 1 << 32 => {
            let caveats = parse_all(alloc, &items[2..])?;
            Ok(Some(Cap {
                actor: actor as u32,
                entity,
                caveats: Caveats::from_vec(alloc, caveats)?,
            }))
        }
        _ => Ok(None),
    }
}

/// The caveats of these values, each read as one of the server's own.
fn parse_all(alloc: Global, values: &[Value]) -> Result<Vec<Caveat>, NoMemory>
    ensures { IfOk result (λ cs. cs.items ≡ caveats_from (plains values.now)) }
{
    let mut caveats = Vec::new(alloc);
    for value in values {
        caveats.push(parse_caveat(alloc, value, true)?)?;
    }
    Ok(caveats)
}

/// The reference, where the value is the very one that writes it.
fn if_spelled(alloc: Global, value: &Value, cap: Cap) -> Result<Option<Cap>, NoMemory>
    ensures { IfOk result (λ c. c ≡ if_spelled value.now cap) }
{
    if cap.to_value(alloc)? == *value {
        Ok(Some(cap))
    } else {
        Ok(None)
    }
}
