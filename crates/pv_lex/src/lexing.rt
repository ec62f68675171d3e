//! Tokens with their contents.
ghost use Rattle.std.specs.Prelude.{◌≡◌, ◌<◌, ◌-◌, ◌∷◌, length, IfOk};
ghost use Rattle.pv_lex.specs.Lexing.{BeginsBare, bare_atom, bare_at, string_at, symbol_at};
ghost use Rattle.pv_lex.specs.Lexing.{ascii_at, hex_at, base64_at, double_at};
ghost use Rattle.pv_lex.specs.Lexing.{double_mark_at, hex_mark_at, hash_at, long_at, lexeme_at};
ghost use Rattle.pv_read.specs.Results.{within};
ghost use Rattle.pv_read.specs.Answers.{Gives};

use crate::characters::is_bare;
use crate::contents::{ascii_content, quoted_text, text_of};
use crate::faults::{TextFault, TextKind};
use crate::hexadecimal::{double_bits, hex_bytes};
use crate::kinds::{AtomForm, Lexeme, Mark};
use crate::numbers::{integer_of, is_decimal_double, is_integer_text};
use crate::runs::{Class, Quotes, enclosed, run};
use crate::sextets::base64_bytes;
use pv_read::{ReadFault, at};
use pv_value::{Blob, Value};
use std::alloc::Global;

/// The token that the bytes begin with, where no gap stands before it, with its content; and the
/// bytes behind it.
///
/// The bytes are the last of `total`, which tells a fault's place.
#[tactic(auto, unfolding(crate::specs::Lexing::lexeme_at))]
pub fn lexeme_at(alloc: Global, total: usize, bytes: &[u8]) -> Result<(Lexeme, &[u8]), TextFault>
    ensures value { let place = total - length bytes.now in
        Gives (λ x. (x.0, x.1.now)) result (within place (lexeme_at bytes.now)) }
    ensures shorter { IfOk result (λ x. length x.1.now < length bytes.now) }
{
    let place = total.saturating_sub(bytes.len());
    let Some((first, rest)) = bytes.split_first() else {
        return Err(ReadFault::Bad(TextKind::Unexpected, place));
    };
    let mark = match *first {
        b'<' => Mark::RecordOpen,
        b'>' => Mark::RecordClose,
        b'[' => Mark::SequenceOpen,
        b']' => Mark::SequenceClose,
        b'{' => Mark::DictionaryOpen,
        b'}' => Mark::BraceClose,
        b':' => Mark::Colon,
        b',' => Mark::Comma,
        b'@' => Mark::Annotation,
        _ => return long_at(alloc, place, *first, bytes, rest),
    };
    Ok((Lexeme::Mark(mark), rest))
}

/// What no mark of one character begins: `bytes` are `first` and then `rest`.
#[tactic(auto, unfolding(crate::specs::Lexing::long_at))]
fn long_at<'a>(
    alloc: Global,
    place: usize,
    first: u8,
    bytes: &'a [u8],
    rest: &'a [u8],
) -> Result<(Lexeme, &'a [u8]), TextFault>
    requires { bytes.now ≡ first ∷ rest.now }
    ensures value { Gives (λ x. (x.0, x.1.now)) result (within place (long_at first rest.now)) }
    ensures shorter { IfOk result (λ x. length x.1.now < length bytes.now) }
{
    match first {
        b'"' => string_at(alloc, place, rest),
        b'|' => symbol_at(alloc, place, rest),
        b'#' => hash_at(alloc, place, rest),
        _ => {
            if is_bare(first) {
                return bare_at(alloc, place, bytes);
            }
            Err(ReadFault::Bad(TextKind::Unexpected, place))
        }
    }
}

/// A bare token, which begins with the first of the bytes.
#[tactic(auto, unfolding(crate::specs::Lexing::bare_at))]
fn bare_at(alloc: Global, place: usize, bytes: &[u8]) -> Result<(Lexeme, &[u8]), TextFault>
    requires { BeginsBare bytes.now }
    ensures value { Gives (λ x. (x.0, x.1.now)) result (within place (bare_at bytes.now)) }
    ensures shorter { IfOk result (λ x. length x.1.now < length bytes.now) }
{
    let (text, rest) = run(Class::Bare, bytes);
    let atom = bare_atom(alloc, place, text)?;
    Ok((atom, rest))
}

/// A number or a symbol.
#[tactic(auto, unfolding(crate::specs::Lexing::bare_atom))]
fn bare_atom(alloc: Global, place: usize, text: &[u8]) -> Result<Lexeme, TextFault>
    ensures { Gives (λ x. x) result (within place (bare_atom text.now)) }
{
    if is_integer_text(text) {
        let Some(n) = integer_of(text) else {
            return Err(ReadFault::Bad(TextKind::TooWide, place));
        };
        return Ok(Lexeme::Atom(AtomForm::Integer, Value::integer(n)));
    }
    if is_decimal_double(text) {
        return Err(ReadFault::Bad(TextKind::DecimalDouble, place));
    }
    let text = text_of(alloc, place, text)?;
    Ok(Lexeme::Atom(AtomForm::Symbol, Value::symbol(text)))
}

/// Behind `"`.
#[tactic(auto, unfolding(crate::specs::Lexing::string_at))]
fn string_at(alloc: Global, place: usize, bytes: &[u8]) -> Result<(Lexeme, &[u8]), TextFault>
    ensures value { Gives (λ x. (x.0, x.1.now)) result (within place (string_at bytes.now)) }
    ensures shorter { IfOk result (λ x. length x.1.now < length bytes.now) }
{
    let (text, rest) = quoted_text(alloc, place, Quotes::String, bytes)?;
    Ok((Lexeme::Atom(AtomForm::String, Value::string(text)), rest))
}

/// Behind `|`.
#[tactic(auto, unfolding(crate::specs::Lexing::symbol_at))]
fn symbol_at(alloc: Global, place: usize, bytes: &[u8]) -> Result<(Lexeme, &[u8]), TextFault>
    ensures value { Gives (λ x. (x.0, x.1.now)) result (within place (symbol_at bytes.now)) }
    ensures shorter { IfOk result (λ x. length x.1.now < length bytes.now) }
{
    let (text, rest) = quoted_text(alloc, place, Quotes::Symbol, bytes)?;
    Ok((
        Lexeme::Atom(AtomForm::QuotedSymbol, Value::symbol(text)),
        rest,
    ))
}

/// Behind a `#` that begins no comment.
#[tactic(auto, unfolding(crate::specs::Lexing::hash_at))]
fn hash_at(alloc: Global, place: usize, bytes: &[u8]) -> Result<(Lexeme, &[u8]), TextFault>
    ensures value { Gives (λ x. (x.0, x.1.now)) result (within place (hash_at bytes.now)) }
    ensures shorter { IfOk result (λ x. length x.1.now < length bytes.now) }
{
    let Some((first, rest)) = bytes.split_first() else {
        return Err(ReadFault::Bad(TextKind::Unclosed, place));
    };
    match *first {
        b't' => Ok((Lexeme::Atom(AtomForm::True, Value::boolean(true)), rest)),
        b'f' => Ok((Lexeme::Atom(AtomForm::False, Value::boolean(false)), rest)),
        b'{' => Ok((Lexeme::Mark(Mark::SetOpen), rest)),
        b':' => Ok((Lexeme::Mark(Mark::Embedded), rest)),
        b'"' => ascii_at(alloc, place, rest),
        b'x' => hex_mark_at(alloc, place, rest),
        b'[' => base64_at(alloc, place, rest),
        _ => Err(ReadFault::Bad(TextKind::Unexpected, place)),
    }
}

/// Behind `#x`.
#[tactic(auto, unfolding(crate::specs::Lexing::hex_mark_at))]
fn hex_mark_at(alloc: Global, place: usize, bytes: &[u8]) -> Result<(Lexeme, &[u8]), TextFault>
    ensures value { Gives (λ x. (x.0, x.1.now)) result (within place (hex_mark_at bytes.now)) }
    ensures shorter { IfOk result (λ x. length x.1.now < length bytes.now) }
{
    let Some((first, rest)) = bytes.split_first() else {
        return Err(ReadFault::Bad(TextKind::Unclosed, place));
    };
    match *first {
        b'"' => hex_at(alloc, place, rest),
        b'd' => double_mark_at(alloc, place, rest),
        _ => Err(ReadFault::Bad(TextKind::Unexpected, place)),
    }
}

/// Behind `#xd`.
#[tactic(auto, unfolding(crate::specs::Lexing::double_mark_at))]
fn double_mark_at(alloc: Global, place: usize, bytes: &[u8]) -> Result<(Lexeme, &[u8]), TextFault>
    ensures value { Gives (λ x. (x.0, x.1.now)) result (within place (double_mark_at bytes.now)) }
    ensures shorter { IfOk result (λ x. length x.1.now < length bytes.now) }
{
    let Some((first, rest)) = bytes.split_first() else {
        return Err(ReadFault::Bad(TextKind::Unclosed, place));
    };
    match *first {
        b'"' => double_at(alloc, place, rest),
        _ => Err(ReadFault::Bad(TextKind::Unexpected, place)),
    }
}

/// Behind `#"`.
#[tactic(auto, unfolding(crate::specs::Lexing::ascii_at))]
fn ascii_at(alloc: Global, place: usize, bytes: &[u8]) -> Result<(Lexeme, &[u8]), TextFault>
    ensures value { Gives (λ x. (x.0, x.1.now)) result (within place (ascii_at bytes.now)) }
    ensures shorter { IfOk result (λ x. length x.1.now < length bytes.now) }
{
    let (content, rest) = ascii_content(alloc, place, bytes)?;
    let content = Value::byte_string(Blob::from_vec(content)?);
    Ok((Lexeme::Atom(AtomForm::AsciiBytes, content), rest))
}

/// Behind `#x"`.
#[tactic(auto, unfolding(crate::specs::Lexing::hex_at))]
fn hex_at(alloc: Global, place: usize, bytes: &[u8]) -> Result<(Lexeme, &[u8]), TextFault>
    ensures value { Gives (λ x. (x.0, x.1.now)) result (within place (hex_at bytes.now)) }
    ensures shorter { IfOk result (λ x. length x.1.now < length bytes.now) }
{
    let (digits, rest) = at(place, enclosed(Class::Hexadecimal, b'"', bytes))?;
    let Some(content) = hex_bytes(alloc, digits)? else {
        return Err(ReadFault::Bad(TextKind::BadBytes, place));
    };
    let content = Value::byte_string(Blob::from_vec(content)?);
    Ok((Lexeme::Atom(AtomForm::HexBytes, content), rest))
}

/// Behind `#[`.
#[tactic(auto, unfolding(crate::specs::Lexing::base64_at))]
fn base64_at(alloc: Global, place: usize, bytes: &[u8]) -> Result<(Lexeme, &[u8]), TextFault>
    ensures value { Gives (λ x. (x.0, x.1.now)) result (within place (base64_at bytes.now)) }
    ensures shorter { IfOk result (λ x. length x.1.now < length bytes.now) }
{
    let (digits, rest) = at(place, enclosed(Class::Base64, b']', bytes))?;
    let Some(content) = base64_bytes(alloc, digits)? else {
        return Err(ReadFault::Bad(TextKind::BadBytes, place));
    };
    let content = Value::byte_string(Blob::from_vec(content)?);
    Ok((Lexeme::Atom(AtomForm::Base64Bytes, content), rest))
}

/// Behind `#xd"`.
#[tactic(auto, unfolding(crate::specs::Lexing::double_at))]
fn double_at(alloc: Global, place: usize, bytes: &[u8]) -> Result<(Lexeme, &[u8]), TextFault>
    ensures value { Gives (λ x. (x.0, x.1.now)) result (within place (double_at bytes.now)) }
    ensures shorter { IfOk result (λ x. length x.1.now < length bytes.now) }
{
    let (digits, rest) = at(place, enclosed(Class::Hexadecimal, b'"', bytes))?;
    let Some(bits) = double_bits(alloc, digits)? else {
        return Err(ReadFault::Bad(TextKind::BadBytes, place));
    };
    Ok((Lexeme::Atom(AtomForm::Double, Value::double(bits)), rest))
}
