//! Caveats and references: what no row of `dsd_rows` shows.

use pv_text::read_text;
use pv_value::{Items, Value, push_bytes};
use sr_caveat::{Cap, Caveat, parse_caveat};
use sr_pass::{NoNames, pass};
use std::alloc::Global;
use std::test::Fail;

/// A template that names two bindings.
const TWO: &str = "<arr [<ref 0> <ref 299>]>";

/// The value of a text.
fn value(alloc: Global, text: &str) -> Result<Value, Fail> {
    let (value, _) = read_text(alloc, text.as_bytes())?;
    Ok(value)
}

/// The caveat that a text writes, as one of the server's own.
fn caveat(alloc: Global, text: &str) -> Result<Caveat, Fail> {
    let written = value(alloc, text)?;
    Ok(parse_caveat(alloc, &written, true)?)
}

/// Whether the caveat writes the text's value.
fn writes(alloc: Global, caveat: &Caveat, text: &str) -> Result<bool, Fail> {
    let written = caveat.to_value(alloc)?;
    Ok(written == value(alloc, text)?)
}

/// Whether a copy of a text's caveat writes the same value.
fn is_copied(alloc: Global, text: &str) -> Result<bool, Fail> {
    let copied = caveat(alloc, text)?.copy()?;
    writes(alloc, &copied, text)
}

/// Whether something passes the caveat of a text, where no name is known.
fn passes(alloc: Global, text: &str, sent: &Value) -> Result<bool, Fail> {
    let caveat = caveat(alloc, text)?;
    Ok(pass(alloc, &[caveat], sent, &NoNames)?.is_some())
}

/// The reference that a text writes, copied.
fn cap(alloc: Global, text: &str) -> Result<Option<Cap>, Fail> {
    let written = value(alloc, text)?;
    match Cap::of_value(alloc, &written)? {
        Some(cap) => Ok(Some(cap.copy()?)),
        None => Ok(None),
    }
}

/// Whether a text is read as a reference, a copy of which writes the text's value.
fn is_reference(alloc: Global, text: &str) -> Result<bool, Fail> {
    match cap(alloc, text)? {
        Some(cap) => Ok(cap.to_value(alloc)? == value(alloc, text)?),
        None => Ok(false),
    }
}

/// The caveat that binds the whole value three hundred times and makes of it what the template
/// gives.
fn many_bindings(alloc: Global, template: &str) -> Result<Caveat, Fail> {
    let mut text = Vec::new(alloc);
    push_bytes(&mut text, b"<rewrite <and [")?;
    for _ in 0..300 {
        push_bytes(&mut text, b"<bind <_>> ")?;
    }
    push_bytes(&mut text, b"]> ")?;
    push_bytes(&mut text, template.as_bytes())?;
    push_bytes(&mut text, b">")?;
    let (written, _) = read_text(alloc, &text)?;
    Ok(parse_caveat(alloc, &written, true)?)
}

/// A sequence of so many sevens. Each weighs 51, and the sequence 50 more than they.
fn sevens(alloc: Global, count: usize) -> Result<Value, Fail> {
    let mut items = Vec::new(alloc);
    for _ in 0..count {
        items.push(Value::integer(7))?;
    }
    Ok(Value::sequence(Items::from_vec(alloc, items)?))
}

/// Whether twenty thousand sevens, bound three hundred times, come out of the template as they
/// were.
fn gives_the_sevens(alloc: Global, template: &str) -> Result<bool, Fail> {
    let caveat = many_bindings(alloc, template)?;
    let sent = sevens(alloc, 20_000)?;
    match pass(alloc, &[caveat], &sent, &NoNames)? {
        Some(given) => Ok(given == sent),
        None => Ok(false),
    }
}

/// Whether nothing comes out of the template for so many sevens, bound three hundred times.
fn refuses_sevens(alloc: Global, count: usize, template: &str) -> Result<bool, Fail> {
    let caveat = many_bindings(alloc, template)?;
    let sent = sevens(alloc, count)?;
    Ok(pass(alloc, &[caveat], &sent, &NoNames)?.is_none())
}

/// Two sequences of so many sevens, in one.
fn twice_the_sevens(alloc: Global, count: usize) -> Result<Value, Fail> {
    let mut items = Vec::new(alloc);
    items.push(sevens(alloc, count)?)?;
    items.push(sevens(alloc, count)?)?;
    Ok(Value::sequence(Items::from_vec(alloc, items)?))
}

/// Whether so many sevens, bound three hundred times, come twice out of a template that names two
/// of the three hundred.
fn gives_the_sevens_twice(alloc: Global, count: usize) -> Result<bool, Fail> {
    let caveat = many_bindings(alloc, TWO)?;
    let sent = sevens(alloc, count)?;
    match pass(alloc, &[caveat], &sent, &NoNames)? {
        Some(given) => Ok(given == twice_the_sevens(alloc, count)?),
        None => Ok(false),
    }
}

/// The template that names all three hundred, one after another.
fn all_named(alloc: Global) -> Result<String, Fail> {
    let mut text = String::from_str(alloc, "<arr [")?;
    for i in 0..300 {
        text.push_str(&format!(in alloc; "<ref {i}> ")?)?;
    }
    text.push_str("]>")?;
    Ok(text)
}

/// Whether nothing comes out of that template for so many sevens.
fn refuses_all(alloc: Global, count: usize) -> Result<bool, Fail> {
    let template = all_named(alloc)?;
    refuses_sevens(alloc, count, &template)
}

/// Twenty thousand sevens weigh 1,020,050, and no value may weigh more than 1,048,576.
#[test]
fn only_what_a_template_names_counts(rt: HostRuntime) -> Result<(), Fail> {
    assert!(rt; gives_the_sevens(rt.alloc(), "<ref 299>")?);
    assert!(rt; refuses_sevens(rt.alloc(), 20_000, TWO)?);
    assert!(rt; refuses_all(rt.alloc(), 20_000)?);
    Ok(())
}

/// Two sequences of 10,278 sevens, in one, weigh 1,048,506, and two of 10,279 weigh 1,048,608.
#[test]
fn two_that_a_template_names_count_twice(rt: HostRuntime) -> Result<(), Fail> {
    assert!(rt; gives_the_sevens_twice(rt.alloc(), 10_278)?);
    assert!(rt; refuses_sevens(rt.alloc(), 10_279, TWO)?);
    Ok(())
}

#[test]
fn copies_write_the_same(rt: HostRuntime) -> Result<(), Fail> {
    assert!(rt; is_copied(rt.alloc(), "<guard Greeting>")?);
    assert!(rt; is_reference(rt.alloc(), "[18 4 <reject <bind <_>>>]")?);
    Ok(())
}

#[test]
fn a_guard_of_the_servers_own_refuses_what_no_name_judges(rt: HostRuntime) -> Result<(), Fail> {
    assert!(rt; !passes(rt.alloc(), "<guard Greeting>", &Value::integer(7))?);
    Ok(())
}
