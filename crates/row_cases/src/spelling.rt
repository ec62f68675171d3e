//! Bytes as a person writes them: as text, in hexadecimal, or as values.
ghost use Rattle.std.specs.Prelude.{◌≡◌, ◌++◌, ℕ, List, IfOk, OnOk, string_bytes};
ghost use Rattle.std.specs.List.{repeat};
ghost use Rattle.std.specs.Str.Parse.{ParsesUnsigned};
ghost use Rattle.row_cases.specs.Calls.{AreWritten};
ghost use Rattle.row_cases.specs.Forms.{form_named, IsIn, IsPlainly, opening, closing, IsShown};
ghost use Rattle.row_cases.specs.Forms.{IsExpanded, IsRepetition, IsPacked, IsEscaped, IsEscape};
ghost use Rattle.row_cases.specs.Forms.{IsPart, AreDigits, AreLines};

use crate::codecs::{Answer, written};
use crate::faults::Fault;
use std::alloc::Global;

const NO_REPETITION: Fault = Fault::Form("%( isn't followed by a number, a blank and %)");

/// How bytes are written.
#[derive(Clone, Copy)]
pub enum Form {
    /// As they are.
    Text,
    /// In pairs of hexadecimal digits.
    Hex,
    /// As values in text, for their written spellings.
    Values,
}

/// The form that a word names.
pub fn find_form(word: &str) -> Option<Form>
    ensures { result ≡ form_named word.now }
{
    match word {
        "text" => Some(Form::Text),
        "hex" => Some(Form::Hex),
        "values" => Some(Form::Values),
        _ => None,
    }
}

/// The bytes that are written so.
pub fn bytes_in(alloc: Global, form: Form, body: &str) -> Result<Vec<u8>, Fault>
    ensures { IfOk result (λ bytes. IsIn form body.now bytes.items) }
{
    let body = expanded(alloc, Marked::Repetition, body)?;
    let body = expanded(alloc, Marked::Packet, body.as_str())?;
    plain_bytes_in(alloc, form, body.as_str())
}

/// The same of a body without repetitions and packets.
fn plain_bytes_in(alloc: Global, form: Form, body: &str) -> Result<Vec<u8>, Fault>
    ensures { IfOk result (λ bytes. IsPlainly form body.now bytes.items) }
{
    match form {
        Form::Text => escaped(alloc, body),
        Form::Hex => from_lines(alloc, body),
        Form::Values => from_values(alloc, &escaped(alloc, body)?),
    }
}

/// What may stand between two marks of a body.
#[derive(Clone, Copy)]
enum Marked {
    /// `%(N TEXT%)`: the text so often.
    Repetition,
    /// `%[VALUES%]`: a byte string of the written spellings.
    Packet,
}

impl Marked {
    fn opening(self) -> &'static str
        ensures { result.now ≡ opening self }
    {
        match self {
            Marked::Repetition => "%(",
            Marked::Packet => "%[",
        }
    }

    fn closing(self) -> &'static str
        ensures { result.now ≡ closing self }
    {
        match self {
            Marked::Repetition => "%)",
            Marked::Packet => "%]",
        }
    }

    /// Why what stands behind the opening isn't closed.
    fn unclosed(self) -> Fault {
        match self {
            Marked::Repetition => NO_REPETITION,
            Marked::Packet => Fault::Form("%[ isn't followed by %]"),
        }
    }

    /// Appends what stands for what is between the marks.
    fn push(self, alloc: Global, out: &mut String, inside: &str) -> Result<(), Fault>
        ensures { OnOk result ((shown : List ℕ) × IsShown self inside.now shown
            × (string_bytes out.new ≡ string_bytes out.old ++ shown)) }
    {
        match self {
            Marked::Repetition => push_repetition(out, inside),
            Marked::Packet => push_packet(alloc, out, inside),
        }
    }
}

/// The body with what its marks stand for in their place.
fn expanded(alloc: Global, marked: Marked, body: &str) -> Result<String, Fault>
    ensures { IfOk result (λ out. IsExpanded marked body.now (string_bytes out)) }
{
    let mut out = String::new(alloc);
    let mut rest = body;
    while let Some((front, behind)) = rest.split_once(marked.opening()) {
        let Some((inside, after)) = behind.split_once(marked.closing()) else {
            return Err(marked.unclosed());
        };
        out.push_str(front)?;
        marked.push(alloc, &mut out, inside)?;
        rest = after;
    }
    out.push_str(rest)?;
    Ok(out)
}

/// Appends a text so often as the number before it says. No repetition may stand in it.
fn push_repetition(out: &mut String, inside: &str) -> Result<(), Fault>
    ensures { OnOk result ((shown : List ℕ) × IsRepetition inside.now shown
        × (string_bytes out.new ≡ string_bytes out.old ++ shown)) }
{
    let Some((count, text)) = inside.split_once(' ') else {
        return Err(NO_REPETITION);
    };
    if text.contains("%(") {
        return Err(Fault::Form("a repetition in another"));
    }
    push_times(out, number(count)?, text)
}

fn number(text: &str) -> Result<u32, Fault>
    ensures { ParsesUnsigned 32 10 text.now result }
{
    match text.parse() {
        Ok(n) => Ok(n),
        Err(_) => Err(NO_REPETITION),
    }
}

/// Appends a text so often.
fn push_times(out: &mut String, count: u32, text: &str) -> Result<(), Fault>
    ensures { OnOk result
        (string_bytes out.new ≡ string_bytes out.old ++ repeat count text.now) }
{
    for _ in 0..count {
        out.push_str(text)?;
    }
    Ok(())
}

/// Appends a byte string of the written spellings of the values.
fn push_packet(alloc: Global, out: &mut String, values: &str) -> Result<(), Fault>
    ensures { OnOk result ((shown : List ℕ) × IsPacked values.now shown
        × (string_bytes out.new ≡ string_bytes out.old ++ shown)) }
{
    let bytes = from_values(alloc, &escaped(alloc, values)?)?;
    let digits = hex::encode(alloc, &bytes)?;
    let digits = digits.as_str();
    write!(out, "#x\"{digits}\"")?;
    Ok(())
}

/// The bytes of a text, with the byte HH for each `%HH`: they are the text's own, where it has no
/// percent sign.
pub fn escaped(alloc: Global, body: &str) -> Result<Vec<u8>, Fault>
    ensures { IfOk result (λ bytes. IsEscaped body.now bytes.items) }
{
    let mut out = Vec::new(alloc);
    let mut is_behind = false;
    for part in body.split('%') {
        push_part(alloc, &mut out, is_behind, part)?;
        is_behind = true;
    }
    Ok(out)
}

/// Appends a part: where it stands behind a percent sign, a byte for two digits, and what follows
/// them.
fn push_part(alloc: Global, out: &mut Vec<u8>, is_behind: bool, part: &str) -> Result<(), Fault>
    ensures { OnOk result ((bytes : List ℕ) × IsPart is_behind part.now bytes
        × (out.new.items ≡ out.old.items ++ bytes)) }
{
    if !is_behind {
        out.extend_from_slice(part.as_bytes())?;
        return Ok(());
    }
    let bytes = unescaped(alloc, part)?;
    out.extend_from_slice(&bytes)?;
    Ok(())
}

/// A byte for two digits, and what follows them.
fn unescaped(alloc: Global, part: &str) -> Result<Vec<u8>, Fault>
    ensures { IfOk result (λ bytes. IsEscape part.now bytes.items) }
{
    let Some((digits, after)) = part.split_at_checked(2) else {
        return Err(Fault::Form("% isn't followed by two digits"));
    };
    let mut bytes = from_digits(alloc, digits)?;
    bytes.extend_from_slice(after.as_bytes())?;
    Ok(bytes)
}

/// The bytes of pairs of digits in lines.
fn from_lines(alloc: Global, body: &str) -> Result<Vec<u8>, Fault>
    ensures { IfOk result (λ bytes. AreLines body.now bytes.items) }
{
    let mut out = Vec::new(alloc);
    for line in body.split('\n') {
        let bytes = from_digits(alloc, line)?;
        out.extend_from_slice(&bytes)?;
    }
    Ok(out)
}

/// The bytes of pairs of digits, between which blanks don't count.
fn from_digits(alloc: Global, line: &str) -> Result<Vec<u8>, Fault>
    ensures { IfOk result (λ bytes. AreDigits line.now bytes.items) }
{
    let mut out = Vec::new(alloc);
    for word in line.split(' ') {
        match hex::decode(alloc, word) {
            Ok(bytes) => out.extend_from_slice(&bytes)?,
            Err(_) => return Err(Fault::Form("no pairs of hexadecimal digits")),
        }
    }
    Ok(out)
}

/// The written spellings of the values of a text.
fn from_values(alloc: Global, text: &[u8]) -> Result<Vec<u8>, Fault>
    ensures { IfOk result (λ bytes. AreWritten text.now bytes.items) }
{
    match written(alloc, text)? {
        Answer::Bytes(bytes) => Ok(bytes),
        Answer::Text(text) | Answer::Stops(text) => Err(Fault::NoValues(text)),
    }
}
