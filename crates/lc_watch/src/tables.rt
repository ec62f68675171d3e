//! The table of behaviours, as a function.
ghost use Rattle.std.specs.Prelude.{◌≡◌, IfOk, ◌∷◌, [], codes, take, length};
ghost use Rattle.pv_words.specs.Words.{labelled, number};

use crate::Behaviour;
use pv_value::{Items, NoMemory, Value};
use pv_words::{labelled, number};
use std::alloc::Global;

/// The most values that `each` makes.
const EACH: usize = 8;

/// The behaviours `each`, `tuple` and `size`.
#[derive(Clone, Copy, Debug, Drop)]
pub struct Table;

impl Behaviour for Table {
    fn made(&self, alloc: Global, name: &[u8], captures: &Items) -> Result<Items, NoMemory> {
        let captures = captures.as_slice();
        match name {
            b"each" => each(alloc, captures),
            b"tuple" => tuple(alloc, captures),
            _ => size(alloc, captures),
        }
    }
}

/// The first eight captures.
fn each(alloc: Global, captures: &[Value]) -> Result<Items, NoMemory>
    ensures { IfOk result (λ made. made ≡ take 8 captures.now) }
{
    let few = captures.len().min(EACH);
    Items::from_vec(alloc, copies(alloc, &captures[..few])?)
}

/// One record that has the captures as its fields.
fn tuple(alloc: Global, captures: &[Value]) -> Result<Items, NoMemory>
    ensures { IfOk result (λ made. made ≡ labelled (codes "tuple") captures.now ∷ []) }
{
    let fields = copies(alloc, captures)?;
    one(alloc, labelled(alloc, "tuple", fields)?)
}

/// One record that has the number of captures.
fn size(alloc: Global, captures: &[Value]) -> Result<Items, NoMemory>
    ensures { IfOk result (λ made. made
        ≡ labelled (codes "size") (number (length captures.now) ∷ []) ∷ []) }
{
    let mut fields = Vec::with_capacity(alloc, 1)?;
    fields.push(number(captures.len() as u64))?;
    one(alloc, labelled(alloc, "size", fields)?)
}

/// A list of one value.
fn one(alloc: Global, value: Value) -> Result<Items, NoMemory>
    ensures { IfOk result (λ made. made ≡ value ∷ []) }
{
    let mut list = Vec::with_capacity(alloc, 1)?;
    list.push(value)?;
    Items::from_vec(alloc, list)
}

/// Equal values.
fn copies(alloc: Global, values: &[Value]) -> Result<Vec<Value>, NoMemory>
    ensures { IfOk result (λ made. made.items ≡ values.now) }
{
    let mut made = Vec::with_capacity(alloc, values.len())?;
    for value in values {
        made.push(value.copy()?)?;
    }
    Ok(made)
}
