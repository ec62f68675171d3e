//! Guards by names that a schema defines.

use lc_guard::{Guards, Predicate, all_known};
use ps_check::conforms;
use ps_read::read_schema;
use ps_schema::Schema;
use pv_text::read_text;
use pv_value::Value;
use sr_caveat::{Caveat, parse_caveat};
use sr_pass::pass;
use std::alloc::Global;
use std::test::Fail;

const SCHEMA: &str = "version 1 . Greeting = <hello string> .";

/// Answers what conforms.
#[derive(Drop)]
struct Checked;

impl Predicate for Checked {
    fn holds(&self, schema: &Schema, name: &[u8], value: &Value) -> bool {
        conforms(schema, name, value)
    }
}

/// Guards that judge by the schema.
fn guards(alloc: Global) -> Result<Guards<Checked>, Fail> {
    let schema = read_schema(alloc, SCHEMA.as_bytes())?;
    Ok(Guards::new(schema, Checked))
}

/// The value of a text.
fn value(alloc: Global, text: &str) -> Result<Value, Fail> {
    let (value, _) = read_text(alloc, text.as_bytes())?;
    Ok(value)
}

/// The caveat that a text writes, as one of the server's own.
fn caveat(alloc: Global, text: &str) -> Result<Caveat, Fail> {
    let written = value(alloc, text)?;
    Ok(parse_caveat(alloc, &written, true)?)
}

/// Whether a text's value passes the caveat of another one.
fn passes(alloc: Global, text: &str, sent: &str) -> Result<bool, Fail> {
    let guards = guards(alloc)?;
    let caveat = caveat(alloc, text)?;
    let sent = value(alloc, sent)?;
    Ok(pass(alloc, &[caveat], &sent, &guards)?.is_some())
}

/// Whether the guards of a text's caveat are all of names that the schema defines.
fn is_known(alloc: Global, text: &str) -> Result<bool, Fail> {
    let guards = guards(alloc)?;
    let caveat = caveat(alloc, text)?;
    Ok(all_known(&guards, &[caveat]))
}

#[test]
fn what_conforms_passes(rt: HostRuntime) -> Result<(), Fail> {
    assert!(rt; passes(rt.alloc(), "<guard Greeting>", "<hello \"ann\">")?);
    assert!(rt; !passes(rt.alloc(), "<guard Greeting>", "<hello 7>")?);
    Ok(())
}

#[test]
fn an_unknown_name_refuses(rt: HostRuntime) -> Result<(), Fail> {
    assert!(rt; !passes(rt.alloc(), "<guard Farewell>", "<hello \"ann\">")?);
    assert!(rt; is_known(rt.alloc(), "<guard Greeting>")?);
    assert!(rt; !is_known(rt.alloc(), "<guard Farewell>")?);
    Ok(())
}
