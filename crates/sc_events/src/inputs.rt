//! The values of inputs, in the binary form or in text, one after another.
ghost use Rattle.std.specs.Prelude.{◌≡◌, ◌↔◌, ◌<◌, ℕ, true, false, List, [], option_map};
ghost use Rattle.std.specs.Prelude.{IfOk, IfSome, IsErrOf};
ghost use Rattle.std.specs.Str.{IsUtf8};
ghost use Rattle.pv_value.specs.Plain.{Plain};
ghost use Rattle.pv_text.specs.Reads.{IsNext};
ghost use Rattle.sc_events.specs.declared.inputs.Form.{Form};
ghost use Rattle.sc_events.specs.Inputs.{BeginNone};
ghost use Rattle.sc_events.specs.TextInputs.{BeginNoText};
ghost use Rattle.sc_events.specs.Readings.{AreReadAs};
ghost use Rattle.sc_events.specs.SoFar.{AreSoFar, left, GoOn};
ghost use Rattle.sc_events.specs.SoFar.{form_of, AreReadTo, IsNextValue, IsNextAs, StopAs};

use pv_binary::{BinFault, read};
use pv_text::{TextFault, next_value};
use pv_value::Value;
use simdutf8::compat::from_utf8;
use std::alloc::Global;
use thiserror::Error;

/// The most bytes of an input.
pub const INPUT_BYTES: usize = 67_108_864;

/// How the values of an input are written.
#[derive(Clone, Copy, Debug, PartialEq, Eq)]
pub enum Form {
    /// In the binary form.
    Binary,
    /// In text.
    Text,
}

/// Why no value is read.
#[derive(Clone, Copy, Debug, PartialEq, Eq, Error)]
pub enum NextFault {
    /// The input goes on with what begins no value.
    #[error("no value")]
    Bad,
    #[error("out of memory")]
    NoMemory,
}

/// How an input is read.
#[derive(Clone, Copy)]
enum Reading {
    Binary,
    Text,
    /// It is to be text, and isn't UTF-8.
    NoText,
}

/// The values of an input that are still to be read.
#[derive(Drop)]
pub struct Values<'a> {
    reading: Reading,
    rest: &'a [u8],
    /// How many bytes the input has.
    total: usize,
}

/// Whether the bytes are UTF-8.
fn is_text(bytes: &[u8]) -> bool
    ensures { (result ≡ true) ↔ IsUtf8 bytes.now }
{
    match from_utf8(bytes) {
        Ok(_) => true,
        Err(_) => false,
    }
}

/// The next value in the binary form, and the bytes after it; none at the end.
#[inline(always)]
fn next_binary(alloc: Global, rest: &[u8]) -> Result<Option<(Value, &[u8])>, NextFault>
    ensures next { IfOk result (λ o. IsNextValue rest.now (option_map (λ x. (x.0, x.1.now)) o)) }
    ensures stop { IsErrOf result NextFault.Bad → BeginNone rest.now }
{
    if rest.is_empty() {
        return Ok(None);
    }
    match read(alloc, rest) {
        Ok((value, size)) => Ok(Some((value, &rest[size..]))),
        Err(BinFault::Bad(_, _)) => Err(NextFault::Bad),
        Err(BinFault::NoMemory) => Err(NextFault::NoMemory),
    }
}

/// The next value of a text of `total` bytes, and the bytes after it; none at the end.
fn next_text(alloc: Global, rest: &[u8], total: usize) -> Result<Option<(Value, &[u8])>, NextFault>
    ensures next { IfOk result (λ o. IsNext rest.now (option_map (λ x. (x.0, x.1.now)) o)) }
    ensures stop { IsErrOf result NextFault.Bad → BeginNoText total rest.now }
{
    match next_value(alloc, rest, total) {
        Ok(next) => Ok(next),
        Err(TextFault::Bad(_, _)) => Err(NextFault::Bad),
        Err(TextFault::NoMemory) => Err(NextFault::NoMemory),
    }
}

/// The next value of an input of `total` bytes, and the bytes after it; none at the end.
#[inline(always)]
fn next_as(
    alloc: Global,
    reading: Reading,
    rest: &[u8],
    total: usize,
) -> Result<Option<(Value, &[u8])>, NextFault>
    ensures next { IfOk result (λ o.
        IsNextAs reading rest.now (option_map (λ x. (x.0, x.1.now)) o)) }
    ensures stop { IsErrOf result NextFault.Bad → StopAs reading total rest.now }
{
    match reading {
        Reading::Binary => next_binary(alloc, rest),
        Reading::Text => next_text(alloc, rest, total),
        Reading::NoText => Err(NextFault::Bad),
    }
}

/// How an input in this form is read.
fn reading_of(bytes: &[u8], form: Form) -> Reading
    ensures read { AreReadTo result bytes.now [] bytes.now }
    ensures form { form_of result ≡ form }
{
    match form {
        Form::Binary => Reading::Binary,
        Form::Text if is_text(bytes) => Reading::Text,
        Form::Text => Reading::NoText,
    }
}

impl<'a> Values<'a> {
    /// The values of an input. Whether a text is UTF-8 is looked at here.
    pub fn of(bytes: &'a [u8], form: Form) -> Values<'a>
        ensures { AreSoFar form bytes.now [] result }
    {
        Values {
            reading: reading_of(bytes, form),
            rest: bytes,
            total: bytes.len(),
        }
    }

    /// The next value; none at the end of the input. A text that isn't UTF-8 has none, and goes on
    /// with what begins none.
    #[inline(always)]
    pub fn next(&mut self, alloc: Global) -> Result<Option<Value>, NextFault>
        ensures next { IfOk result (λ o. (form : Form) (bytes : List ℕ) (vs : List Plain)
            → AreSoFar form bytes vs self.old → GoOn form bytes vs o self.new) }
        ensures stop { IsErrOf result NextFault.Bad
            → (form : Form) (bytes : List ℕ) (vs : List Plain)
            → AreSoFar form bytes vs self.old → AreReadAs form bytes vs false }
        ensures shorter { IfOk result (λ o. IfSome o (λ v. left self.new < left self.old)) }
    {
        match next_as(alloc, self.reading, self.rest, self.total) {
            Ok(Some((value, more))) => {
                self.rest = more;
                Ok(Some(value))
            }
            Ok(None) => Ok(None),
            Err(fault) => Err(fault),
        }
    }
}
