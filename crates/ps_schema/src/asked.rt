//! Names for which patterns ask at more than one place, and what a judgement keeps of them.
use crate::{Definition, Field, Form, Pattern, Schema};
use pv_value::{NoMemory, Text, Value};
use std::alloc::Global;
use std::collections::BTreeMap;

/// The names for which patterns ask, as symbols, and whether they ask at two or more places.
type Asked = BTreeMap<Value, bool>;

impl Schema {
    /// Where the tables of a judgement take their memory.
    pub fn alloc(&self) -> Global {
        self.alloc
    }

    /// Whether verdicts on the definition at this place are worth keeping: its name stands at two
    /// or more places in the schema's patterns, and its own pattern isn't found out at a glance.
    pub fn is_asked_again(&self, place: usize) -> bool {
        match self.asked_again.get(place) {
            Some(again) => *again,
            None => false,
        }
    }
}

/// For each definition whether verdicts on it are worth keeping.
pub(crate) fn asked_again(alloc: Global, defs: &[Definition]) -> Result<Vec<bool>, NoMemory> {
    let mut asked = BTreeMap::new(alloc);
    for definition in defs {
        ask(&mut asked, &definition.pattern)?;
    }
    let mut again = Vec::new(alloc);
    for definition in defs {
        again.push(is_worth_keeping(&asked, definition)?)?;
    }
    Ok(again)
}

fn is_worth_keeping(asked: &Asked, definition: &Definition) -> Result<bool, NoMemory> {
    match &definition.pattern.form {
        Form::Any => Ok(false),
        Form::OfKind(_) => Ok(false),
        _ => match asked.get(&symbol(&definition.name)?) {
            Some(again) => Ok(*again),
            None => Ok(false),
        },
    }
}

fn symbol(name: &Text) -> Result<Value, NoMemory> {
    let name = name.copy()?;
    Ok(Value::symbol(name))
}

fn ask_name(asked: &mut Asked, name: &Text) -> Result<(), NoMemory> {
    let again = asked.contains_key(&symbol(name)?);
    asked.insert(symbol(name)?, again)?;
    Ok(())
}

/// Adds the names for which the pattern asks, wherever they stand in it.
#[cycle(ask)]
fn ask(asked: &mut Asked, pattern: &Pattern) -> Result<(), NoMemory> {
    match &pattern.form {
        Form::Name(name) => ask_name(asked, name),
        Form::Embedded(inside) => ask(asked, inside),
        Form::Record(_, fields) => ask_all(asked, fields),
        Form::RecordOf(label, fields) => ask_both(asked, label, fields),
        Form::Tuple(items) => ask_all(asked, items),
        Form::TupleWithRest(items, rest) => ask_items(asked, items, rest),
        Form::SetOf(element) => ask(asked, element),
        Form::DictOf(key, value) => ask_both(asked, key, value),
        Form::Dict(fields) => ask_fields(asked, fields),
        Form::OneOf(patterns) => ask_all(asked, patterns),
        Form::AllOf(patterns) => ask_all(asked, patterns),
        _ => Ok(()),
    }
}

#[cycle(ask)]
fn ask_both(asked: &mut Asked, first: &Pattern, second: &Pattern) -> Result<(), NoMemory> {
    ask(asked, first)?;
    ask(asked, second)
}

#[cycle(ask)]
fn ask_items(asked: &mut Asked, items: &[Pattern], rest: &Pattern) -> Result<(), NoMemory> {
    ask_all(asked, items)?;
    ask(asked, rest)
}

#[cycle(ask)]
fn ask_all(asked: &mut Asked, all: &[Pattern]) -> Result<(), NoMemory> {
    for pattern in all {
        ask(asked, pattern)?;
    }
    Ok(())
}

#[cycle(ask)]
fn ask_fields(asked: &mut Asked, fields: &[Field]) -> Result<(), NoMemory> {
    for field in fields {
        ask(asked, &field.pattern)?;
    }
    Ok(())
}
