//! Schemas, read from texts, and values that are checked.

use ps_check::conforms;
use ps_read::{SchemaFault, read_schema};
use ps_schema::{Definition, Defs, Form, Pattern, Schema, SchemaFault as Fault};
use pv_text::read_text;
use pv_value::Text;
use std::alloc::Global;
use std::test::Fail;

/// A list of tuples: an integer, and strings behind it.
const LISTS: &str = "version 1 . L = [int string ...] .";

/// Twenty names, each of which asks twice for the next one.
const CHAIN: &str = "version 1 . A = B & B . B = C & C . C = D & D . D = E & E . E = F & F .
    F = G & G . G = H & H . H = I & I . I = J & J . J = K & K . K = L / L . L = M / M . M = N / N .
    N = O / O . O = P / P . P = Q / Q . Q = R / R . R = S / S . S = T / T . T = int .";

/// Sums and differences, whose alternatives begin with the same expression.
const EXPRESSIONS: &str = "version 1 . Expr = <op Expr \"+\" Expr> / <op Expr \"-\" Expr> / int .";

/// Pairs, as sequences or as records' fields, of which each asks twice for what stands last.
const LINKS: &str = "version 1 . L = F / R / int . F = [int L] & [any L] .
    R = <<rec> any F> & <<rec> any F> .";

/// A text between as many openings and closings.
fn nested(
    alloc: Global,
    deep: usize,
    opening: &str,
    inner: &str,
    closing: &str,
) -> Result<String, Fail> {
    let mut text = String::new(alloc);
    for _ in 0..deep {
        text.push_str(opening)?;
    }
    text.push_str(inner)?;
    for _ in 0..deep {
        text.push_str(closing)?;
    }
    Ok(text)
}

/// A difference of differences, so deep, around an innermost text.
fn difference(alloc: Global, deep: usize, inner: &str) -> Result<String, Fail> {
    nested(alloc, deep, "<op ", inner, " \"-\" 1>")
}

/// The names N0 to the last one, each of which asks twice for the next, and the last for integers.
fn chain(alloc: Global, last: usize) -> Result<String, Fail> {
    let mut text = String::from_str(alloc, "version 1 .")?;
    for i in 0..last {
        let next = i + 1;
        text.push_str(&format!(in alloc; " N{i} = N{next} & N{next} .")?)?;
    }
    text.push_str(&format!(in alloc; " N{last} = int .")?)?;
    Ok(text)
}

/// Whether an expression of differences around an innermost text is one.
fn is_expression(alloc: Global, deep: usize, inner: &str) -> Result<bool, Fail> {
    let value = difference(alloc, deep, inner)?;
    checks(alloc, EXPRESSIONS, "Expr", &value)
}

/// Whether the value of a text conforms to the first name of a chain.
fn is_at_the_end(alloc: Global, last: usize, value: &str) -> Result<bool, Fail> {
    let schema = chain(alloc, last)?;
    checks(alloc, &schema, "N0", value)
}

/// Whether the value of a text between so many openings and closings is of links.
fn are_links(
    alloc: Global,
    deep: usize,
    opening: &str,
    inner: &str,
    closing: &str,
) -> Result<bool, Fail> {
    let value = nested(alloc, deep, opening, inner, closing)?;
    checks(alloc, LINKS, "L", &value)
}

/// Whether the value of a text conforms to a name of a schema's text.
fn checks(alloc: Global, schema: &str, name: &str, value: &str) -> Result<bool, Fail> {
    let schema = read_schema(alloc, schema.as_bytes())?;
    let (value, _) = read_text(alloc, value.as_bytes())?;
    if !schema.knows(name.as_bytes()) {
        return Ok(false);
    }
    Ok(conforms(&schema, name.as_bytes(), &value))
}

/// Where a text has a value that can't stand, and whether it asks for another schema there.
fn misfit(alloc: Global, schema: &str) -> Option<(usize, bool)> {
    match read_schema(alloc, schema.as_bytes()) {
        Err(SchemaFault::BadSchema(n)) => Some((n, false)),
        Err(SchemaFault::NotSupported(n)) => Some((n, true)),
        _ => None,
    }
}

#[test]
fn items_behind_the_first_are_strings(rt: HostRuntime) -> Result<(), Fail> {
    assert!(rt; !checks(rt.alloc(), LISTS, "L", "[]")?);
    assert!(rt; checks(rt.alloc(), LISTS, "L", "[1]")?);
    assert!(rt; checks(rt.alloc(), LISTS, "L", "[1 \"a\" \"b\"]")?);
    assert!(rt; !checks(rt.alloc(), LISTS, "L", "[1 2]")?);
    Ok(())
}

#[test]
fn a_name_is_judged_once(rt: HostRuntime) -> Result<(), Fail> {
    assert!(rt; checks(rt.alloc(), CHAIN, "A", "1")?);
    assert!(rt; !checks(rt.alloc(), CHAIN, "A", "x")?);
    Ok(())
}

#[test]
fn a_value_inside_is_judged_once(rt: HostRuntime) -> Result<(), Fail> {
    assert!(rt; is_expression(rt.alloc(), 47, "1")?);
    assert!(rt; !is_expression(rt.alloc(), 47, "x")?);
    assert!(rt; !is_expression(rt.alloc(), 47, "<op 1 \"*\" 1>")?);
    Ok(())
}

#[test]
fn fields_are_judged_apart_from_their_record(rt: HostRuntime) -> Result<(), Fail> {
    assert!(rt; are_links(rt.alloc(), 47, "[1 ", "2", "]")?);
    assert!(rt; !are_links(rt.alloc(), 47, "[1 ", "x", "]")?);
    assert!(rt; are_links(rt.alloc(), 47, "<r 1 ", "2", ">")?);
    assert!(rt; !are_links(rt.alloc(), 47, "<r 1 ", "x", ">")?);
    Ok(())
}

#[test]
fn a_long_chain_of_names_is_judged_once(rt: HostRuntime) -> Result<(), Fail> {
    assert!(rt; is_at_the_end(rt.alloc(), 199, "1")?);
    assert!(rt; !is_at_the_end(rt.alloc(), 199, "x")?);
    Ok(())
}

#[test]
fn a_chain_of_four_thousand_names_is_judged_once(rt: HostRuntime) -> Result<(), Fail> {
    assert!(rt; is_at_the_end(rt.alloc(), 3_999, "1")?);
    assert!(rt; !is_at_the_end(rt.alloc(), 3_999, "x")?);
    Ok(())
}

#[test]
fn the_first_misfit_is_told(rt: HostRuntime) -> Result<(), Fail> {
    assert!(rt; misfit(rt.alloc(), "version 1 . A = int") == Some((6, false)));
    assert!(rt; misfit(rt.alloc(), "version 1 . include x .") == Some((3, true)));
    Ok(())
}

/// So many names, `N0` and so on, each of which is defined by the next, and the last by a pattern.
fn definitions(alloc: Global, count: usize, last: Form) -> Result<Vec<Definition>, Fail> {
    let mut list = Vec::new(alloc);
    for i in 1..count {
        let form = Form::Name(numbered(alloc, i)?);
        list.push(defined(alloc, i - 1, form)?)?;
    }
    list.push(defined(alloc, count.saturating_sub(1), last)?)?;
    Ok(list)
}

fn defined(alloc: Global, number: usize, form: Form) -> Result<Definition, Fail> {
    Ok(Definition {
        name: numbered(alloc, number)?,
        pattern: Pattern { form },
    })
}

fn numbered(alloc: Global, number: usize) -> Result<Text, Fail> {
    Ok(Text::from_string(format!(in alloc; "N{number}")?)?)
}

#[test]
fn a_long_chain_is_a_schema(rt: HostRuntime) -> Result<(), Fail> {
    let list = definitions(rt.alloc(), 20_000, Form::Any)?;
    let schema = Schema::new(rt.alloc(), Defs::from_vec(list))?;
    assert!(rt; schema.place(b"N0") == Some(0));
    assert!(rt; schema.place(b"N19999") == Some(19_999));
    assert!(rt; schema.place(b"N20000") == None);
    Ok(())
}

/// The text of so many names, `N0` and so on, each of which stands for integers, but the last,
/// which stands for lists of pairs of the first name and the one before the last.
fn many_names(alloc: Global, count: usize) -> Result<String, Fail> {
    let mut text = String::from_str(alloc, "version 1 .")?;
    let last = count.saturating_sub(1);
    for i in 0..last {
        text.push_str(&format!(in alloc; " N{i} = int .")?)?;
    }
    let before = last.saturating_sub(1);
    text.push_str(&format!(in alloc; " N{last} = [[N0 N{before}] ...] .")?)?;
    Ok(text)
}

/// Whether the value of a text conforms to the last of so many names.
fn is_of_many(alloc: Global, count: usize, value: &str) -> Result<bool, Fail> {
    let schema = many_names(alloc, count)?;
    let last = count.saturating_sub(1);
    let name = format!(in alloc; "N{last}")?;
    checks(alloc, &schema, &name, value)
}

#[test]
fn a_value_is_judged_by_many_definitions(rt: HostRuntime) -> Result<(), Fail> {
    assert!(rt; is_of_many(rt.alloc(), 20_000, "[[1 2] [3 -4]]")?);
    assert!(rt; !is_of_many(rt.alloc(), 20_000, "[[1 2] [3 x]]")?);
    Ok(())
}

#[test]
fn the_end_of_a_long_chain_leads_back(rt: HostRuntime) -> Result<(), Fail> {
    let last = Form::Name(numbered(rt.alloc(), 19_999)?);
    let list = definitions(rt.alloc(), 20_000, last)?;
    let made = Schema::new(rt.alloc(), Defs::from_vec(list));
    let told = match &made {
        Err(Fault::Unguarded(name)) => name.as_str() == "N19999",
        _ => false,
    };
    assert!(rt; told);
    Ok(())
}
