//! The lines of a file of rows of steps.
ghost use Rattle.std.specs.Prelude.{IfOk};
ghost use Rattle.row_files.specs.Lines.{IsCaseLine};
ghost use Rattle.row_files.specs.Cases.{IsCase, IsTimes, IsValueIn};

use crate::lines::is_left_out;
use pv_text::read_all;
use pv_value::Value;
use row_cases::{Fault, Form, bytes_in};
use std::alloc::Global;

/// What a line is.
#[derive(Clone, Copy)]
pub enum Line<'a> {
    /// Empty, or a comment.
    Nothing,
    /// The name of a row, which begins.
    Row(&'a str),
    /// A case of the row.
    Case(&'a str),
}

/// What a line is.
pub fn line_of(line: &str) -> Line<'_>
    ensures { IsCaseLine line.now result }
{
    if is_left_out(line) {
        return Line::Nothing;
    }
    match line.strip_prefix("row ") {
        Some(name) => Line::Row(name),
        None => Line::Case(line),
    }
}

/// What is done or asked, how often, and what has to be answered each time.
#[derive(Drop)]
pub struct Case {
    pub times: u32,
    pub asked: Value,
    pub wanted: Value,
}

/// The case of a line: `ASKED => WANTED`, or `N times ASKED => WANTED`.
pub fn case_of(alloc: Global, line: &str) -> Result<Case, Fault>
    ensures { IfOk result (λ case. IsCase line.now case) }
{
    let Some((asked, wanted)) = line.split_once("=>") else {
        return Err(Fault::Form("no => in the line"));
    };
    let (times, asked) = times_of(asked);
    Ok(Case {
        times,
        asked: value_in(alloc, asked)?,
        wanted: value_in(alloc, wanted)?,
    })
}

/// How often it is done or asked, and the rest of the text: once, where no number says it.
fn times_of(text: &str) -> (u32, &str)
    ensures { IsTimes text.now result.0 result.1.now }
{
    let Some((count, rest)) = text.split_once(" times ") else {
        return (1, text);
    };
    match count.parse() {
        Ok(count) if count > 0 => (count, rest),
        _ => (1, text),
    }
}

/// The value that a text is, once its repetitions and escapes are read.
fn value_in(alloc: Global, text: &str) -> Result<Value, Fault>
    ensures { IfOk result (λ v. IsValueIn text.now v) }
{
    let bytes = bytes_in(alloc, Form::Text, text)?;
    let values = match read_all(alloc, &bytes) {
        Ok(values) => values,
        Err(fault) => return Err(Fault::NoValues(format!(in alloc; "{fault}")?)),
    };
    match values.as_slice() {
        [value] => Ok(value.copy()?),
        _ => Err(Fault::Form("not one value")),
    }
}
