//! The calls of the codecs, each with its answer in a form that a table can hold.
ghost use Rattle.std.specs.Prelude.{◌≡◌, ℕ, ◌-◌, ◌++◌, List, codes, IfOk, OnOk, string_bytes};
ghost use Rattle.std.specs.Fmt.{decimal};
ghost use Rattle.pv_value.specs.Plain.{plains};
ghost use Rattle.pv_binary.specs.Written.{written_all};
ghost use Rattle.pv_canon.specs.Canonical.{canonical};
ghost use Rattle.pv_print.specs.Printed.{printed};
ghost use Rattle.row_cases.specs.Names.{text_fault_name, binary_fault_name};
ghost use Rattle.row_cases.specs.Told.{IsTold, told_up_to};
ghost use Rattle.row_cases.specs.Told.{told_before, token_told, tokens_told, said, IsWithout};
ghost use Rattle.row_cases.specs.Shown.{behind_first};
ghost use Rattle.row_cases.specs.Calls.{GivesWritten, GivesFirst, GivesPrinted, GivesCanonical};
ghost use Rattle.row_cases.specs.Calls.{GivesFirstEnd, GivesLaterStop, GivesNext, GivesTokens};
ghost use Rattle.row_cases.specs.Calls.{GivesRead, GivesReadUpTo, GivesSpelled, GivesFronts};

use crate::faults::Fault;
use crate::names::{binary_fault_name, text_fault_name, token_name};
use crate::shown::push_between;
use pv_binary::{BinFault, read, write_into};
use pv_canon::{canon, canon_len};
use pv_lex::{TextFault, Token, tokens};
use pv_print::print;
use pv_text::{next_value, read_all, read_text};
use pv_value::{NoMemory, Value};
use std::alloc::{AllocError, Global};

/// What a call gives.
#[derive(Drop)]
pub enum Answer {
    Bytes(Vec<u8>),
    Text(String),
    /// The fault and its place.
    Stops(String),
}

/// The fault and its place; want of memory is none that a table tells.
fn text_stop(alloc: Global, fault: &TextFault) -> Result<String, Fault>
    ensures { IfOk result (λ s. IsTold text_fault_name fault.now (string_bytes s)) }
{
    match fault {
        TextFault::Bad(kind, place) => Ok(told_fault(alloc, text_fault_name(*kind), *place)?),
        TextFault::NoMemory => Err(Fault::NoMemory),
    }
}

/// The same of a fault of the binary form.
fn binary_fault(alloc: Global, fault: &BinFault) -> Result<String, Fault>
    ensures { IfOk result (λ s. IsTold binary_fault_name fault.now (string_bytes s)) }
{
    match fault {
        BinFault::Bad(kind, place) => Ok(told_fault(alloc, binary_fault_name(*kind), *place)?),
        BinFault::NoMemory => Err(Fault::NoMemory),
    }
}

fn told_fault(alloc: Global, name: &str, place: usize) -> Result<String, AllocError>
    ensures { IfOk result (λ s. string_bytes s ≡ name.now ++ (codes " at " ++ decimal place)) }
{
    format!(in alloc; "{name} at {place}")
}

/// A value printed, and where it ends.
fn shown_up_to(alloc: Global, value: &Value, end: usize) -> Result<String, NoMemory>
    ensures { IfOk result (λ s. string_bytes s ≡ told_up_to value.now end) }
{
    let printed = print(alloc, value)?;
    let printed = printed.as_str();
    Ok(format!(in alloc; "{printed} up to {end}")?)
}

/// A value printed, and how many bytes are left behind it.
fn shown_before(alloc: Global, value: &Value, left: usize) -> Result<String, NoMemory>
    ensures { IfOk result (λ s. string_bytes s ≡ told_before value.now left) }
{
    let printed = print(alloc, value)?;
    let printed = printed.as_str();
    Ok(format!(in alloc; "{printed}, {left} left")?)
}

/// The value printed.
fn shown_value(alloc: Global, value: &Value) -> Result<String, NoMemory>
    ensures { IfOk result (λ s. string_bytes s ≡ printed value.now) }
{
    let printed = print(alloc, value)?;
    Ok(String::from_str(alloc, printed.as_str())?)
}

/// The values of a text, each in its written spelling.
pub fn written(alloc: Global, text: &[u8]) -> Result<Answer, Fault>
    ensures { IfOk result (λ a. GivesWritten text.now a) }
{
    match read_all(alloc, text) {
        Ok(values) => Ok(Answer::Bytes(spellings(alloc, values.as_slice())?)),
        Err(fault) => Ok(Answer::Stops(text_stop(alloc, &fault)?)),
    }
}

/// The written spellings of values, one behind another.
fn spellings(alloc: Global, values: &[Value]) -> Result<Vec<u8>, NoMemory>
    ensures { IfOk result (λ bytes. bytes.items ≡ written_all (plains values.now)) }
{
    let mut bytes = Vec::new(alloc);
    for value in values {
        write_into(&mut bytes, value)?;
    }
    Ok(bytes)
}

/// The first value of a text, printed, and where it ends.
pub fn first_value(alloc: Global, text: &[u8]) -> Result<Answer, Fault>
    ensures { IfOk result (λ a. GivesFirst text.now a) }
{
    match read_text(alloc, text) {
        Ok((value, end)) => Ok(Answer::Text(shown_up_to(alloc, &value, end)?)),
        Err(fault) => Ok(Answer::Stops(text_stop(alloc, &fault)?)),
    }
}

/// The value of a text, printed.
pub fn printed(alloc: Global, text: &[u8]) -> Result<Answer, Fault>
    ensures { IfOk result (λ a. GivesPrinted text.now a) }
{
    match read_text(alloc, text) {
        Ok((value, _)) => Ok(Answer::Text(shown_value(alloc, &value)?)),
        Err(fault) => Ok(Answer::Stops(text_stop(alloc, &fault)?)),
    }
}

/// The value of a text in its canonical form, whose length has to be told alike.
pub fn canonical(alloc: Global, text: &[u8]) -> Result<Answer, Fault>
    ensures { IfOk result (λ a. GivesCanonical text.now a) }
{
    match read_text(alloc, text) {
        Ok((value, _)) => Ok(Answer::Bytes(canonical_form(alloc, &value)?)),
        Err(fault) => Ok(Answer::Stops(text_stop(alloc, &fault)?)),
    }
}

fn canonical_form(alloc: Global, value: &Value) -> Result<Vec<u8>, Fault>
    ensures { IfOk result (λ bytes. bytes.items ≡ canonical value.now) }
{
    let form = canon(alloc, value)?;
    if canon_len(value) != form.len() as u64 {
        return Err(Fault::Form("the length of the canonical form is told otherwise"));
    }
    Ok(Vec::from_slice(alloc, form.as_slice())?)
}

/// The value that the bytes spell, printed; with a byte behind them that is left.
pub fn spelled(alloc: Global, bytes: &[u8]) -> Result<Answer, Fault>
    ensures { IfOk result (λ a. GivesSpelled bytes.now a) }
{
    let mut longer = Vec::from_slice(alloc, bytes)?;
    longer.push(0x84)?;
    read_up_to(alloc, &longer, bytes.len())
}

/// The value that so many bytes spell, printed; more are left.
fn read_up_to(alloc: Global, bytes: &[u8], end: usize) -> Result<Answer, Fault>
    ensures { IfOk result (λ a. GivesReadUpTo bytes.now end a) }
{
    match read(alloc, bytes) {
        Ok((_, count)) if count != end => {
            Err(Fault::Form("the value has another number of bytes"))
        }
        Ok((value, _)) => Ok(Answer::Text(shown_value(alloc, &value)?)),
        Err(fault) => Ok(Answer::Stops(binary_fault(alloc, &fault)?)),
    }
}

/// Where reading bytes stops.
pub fn binary_stop(alloc: Global, bytes: &[u8]) -> Result<Answer, Fault>
    ensures { IfOk result (λ a. GivesRead bytes.now a) }
{
    match read(alloc, bytes) {
        Ok((value, _)) => Ok(Answer::Text(shown_value(alloc, &value)?)),
        Err(fault) => Ok(Answer::Stops(binary_fault(alloc, &fault)?)),
    }
}

/// The tokens of a text, each by its kind, its beginning and its end.
pub fn tokens_of(alloc: Global, text: &[u8]) -> Result<Answer, Fault>
    ensures { IfOk result (λ a. GivesTokens text.now a) }
{
    match tokens(alloc, text) {
        Ok(tokens) => Ok(Answer::Text(listed(alloc, tokens.as_slice())?)),
        Err(fault) => Ok(Answer::Stops(text_stop(alloc, &fault)?)),
    }
}

fn listed(alloc: Global, tokens: &[Token]) -> Result<String, AllocError>
    ensures { IfOk result (λ line. string_bytes line ≡ tokens_told tokens.now) }
{
    let mut line = String::new(alloc);
    for (i, token) in tokens.iter().enumerate() {
        push_between(&mut line, i, ", ")?;
        push_token(&mut line, token)?;
    }
    Ok(line)
}

/// Appends a token: its kind, its beginning and its end.
fn push_token(line: &mut String, token: &Token) -> Result<(), AllocError>
    ensures { OnOk result (string_bytes line.new ≡ string_bytes line.old ++ token_told token.now) }
{
    let name = token_name(token.kind);
    let (start, end) = (token.start, token.end);
    write!(line, "{name} {start} {end}")
}

/// Where the first value of a text stops.
pub fn first_stop(alloc: Global, text: &[u8]) -> Result<Answer, Fault>
    ensures { IfOk result (λ a. GivesFirstEnd text.now a) }
{
    match read_text(alloc, text) {
        Ok(found) => Ok(Answer::Text(told_end(alloc, found.1)?)),
        Err(fault) => Ok(Answer::Stops(text_stop(alloc, &fault)?)),
    }
}

fn told_end(alloc: Global, end: usize) -> Result<String, AllocError>
    ensures { IfOk result (λ s. string_bytes s ≡ codes "a value up to " ++ decimal end) }
{
    format!(in alloc; "a value up to {end}")
}

/// Where a text stops behind its first value.
pub fn later_stop(alloc: Global, text: &[u8]) -> Result<Answer, Fault>
    ensures { IfOk result (λ a. GivesLaterStop text.now a) }
{
    match read_text(alloc, text) {
        Ok(_found) => written(alloc, text),
        Err(fault) => Ok(Answer::Text(no_first_value(alloc, &fault)?)),
    }
}

fn no_first_value(alloc: Global, fault: &TextFault) -> Result<String, Fault>
    ensures { IfOk result (λ s. (told : List ℕ) × IsTold text_fault_name fault.now told
        × (string_bytes s ≡ codes "no first value: " ++ told)) }
{
    let told = text_stop(alloc, fault)?;
    let told = told.as_str();
    Ok(format!(in alloc; "no first value: {told}")?)
}

/// How long the text is whose last bytes [`next_of`] is given.
const TOTAL: usize = 100;

/// The next value of the last bytes of a text, printed, and how many bytes are left.
pub fn next_of(alloc: Global, bytes: &[u8]) -> Result<Answer, Fault>
    ensures { IfOk result (λ a. GivesNext bytes.now a) }
{
    match next_value(alloc, bytes, TOTAL) {
        Ok(Some((value, rest))) => { Ok(Answer::Text(shown_before(alloc, &value, rest.len())?)) }
        Ok(None) => Ok(Answer::Text(String::from_str(alloc, "none")?)),
        Err(fault) => Ok(Answer::Stops(text_stop(alloc, &fault)?)),
    }
}

/// Where reading stops for each front of the bytes, of one byte and more: the place alone where
/// they are cut off.
pub fn binary_fronts(alloc: Global, bytes: &[u8]) -> Result<Answer, Fault>
    ensures { IfOk result (λ a. GivesFronts GivesRead (codes "Truncated at ") bytes.now a) }
{
    let mut line = String::new(alloc);
    for count in 1..bytes.len() {
        let stop = binary_stop(alloc, &bytes[..count])?;
        push_stop(&mut line, count, "Truncated at ", &stop)?;
    }
    Ok(Answer::Text(line))
}

/// The same for each front of a text: the place alone where it isn't closed.
pub fn text_fronts(alloc: Global, text: &[u8]) -> Result<Answer, Fault>
    ensures { IfOk result (λ a. GivesFronts GivesFirstEnd (codes "Unclosed at ") text.now a) }
{
    let mut line = String::new(alloc);
    for count in 1..text.len() {
        let stop = first_stop(alloc, &text[..count])?;
        push_stop(&mut line, count, "Unclosed at ", &stop)?;
    }
    Ok(Answer::Text(line))
}

/// Appends what the answer for the front of so many bytes says, without what all are to begin
/// with.
fn push_stop(
    line: &mut String,
    count: usize,
    beginning: &str,
    answer: &Answer,
) -> Result<(), AllocError>
    ensures { OnOk result ((rest : List ℕ) × IsWithout beginning.now (said answer.now) rest
        × (string_bytes line.new
        ≡ string_bytes line.old ++ (behind_first (count - 1) (codes ", ") ++ rest))) }
{
    push_between(line, count.saturating_sub(1), ", ")?;
    line.push_str(without(said(answer), beginning))
}

/// What an answer says.
fn said(answer: &Answer) -> &str
    ensures { result.now ≡ said answer.now }
{
    match answer {
        Answer::Text(text) | Answer::Stops(text) => text.as_str(),
        Answer::Bytes(_) => "bytes",
    }
}

/// The text without this beginning, or all of it where it begins otherwise.
fn without<'a>(text: &'a str, beginning: &str) -> &'a str
    ensures { IsWithout beginning.now text.now result.now }
{
    match text.strip_prefix(beginning) {
        Some(rest) => rest,
        None => text,
    }
}
