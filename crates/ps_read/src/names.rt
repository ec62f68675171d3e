//! What symbols write by themselves.
ghost use Rattle.std.specs.Prelude.{◌≡◌, ◌<◌, ◌∷◌, [], length, IfOk, IfSome, MatchOption};
ghost use Rattle.ps_read.specs.Pieces.{pieces};
ghost use Rattle.std.specs.List.{list_all};
ghost use Rattle.std.specs.Str.{bytes_eq};
ghost use Rattle.ps_read.specs.Names.{word_pattern, is_letter_or_digit, is_named, is_name};
ghost use Rattle.ps_read.specs.Names.{are_names, symbol_pattern, equals_pattern, kind_named};
ghost use Rattle.ps_read.specs.Names.{is_point};
ghost use Rattle.ps_schema.specs.View.{view_form};

use ps_schema::{Form, Pattern};
use pv_value::{NoMemory, Text, Value};
use pv_words::AtomKind;
use std::alloc::Global;

pub(crate) fn pattern(form: Form) -> Pattern
    ensures { result ≡ view_form form }
{
    Pattern { form }
}

/// The pattern that a symbol writes.
pub(crate) fn symbol_pattern(alloc: Global, text: &Text) -> Result<Option<Pattern>, NoMemory>
    ensures { IfOk result (λ p. p ≡ symbol_pattern text.now) }
{
    let bytes = text.as_bytes();
    if let Some(word) = word_pattern(bytes) {
        return Ok(Some(word));
    }
    if let Some(literal) = equals_pattern(alloc, text)? {
        return Ok(Some(literal));
    }
    if are_names(bytes) {
        return Ok(Some(pattern(Form::Name(text.copy()?))));
    }
    Ok(None)
}

fn is(bytes: &[u8], word: &[u8]) -> bool
    ensures { result ≡ bytes_eq bytes.now word.now }
{
    bytes == word
}

/// The pattern of one of the seven words.
pub(crate) fn word_pattern(word: &[u8]) -> Option<Pattern>
    ensures { result ≡ word_pattern word.now }
{
    if is(word, b"any") {
        return Some(pattern(Form::Any));
    }
    match kind_named(word) {
        Some(kind) => Some(pattern(Form::OfKind(kind))),
        None => None,
    }
}

fn kind_named(word: &[u8]) -> Option<AtomKind>
    ensures { result ≡ kind_named word.now }
{
    if is(word, b"bool") {
        Some(AtomKind::Boolean)
    } else if is(word, b"double") {
        Some(AtomKind::Double)
    } else if is(word, b"int") {
        Some(AtomKind::SignedInteger)
    } else if is(word, b"string") {
        Some(AtomKind::String)
    } else if is(word, b"bytes") {
        Some(AtomKind::ByteString)
    } else if is(word, b"symbol") {
        Some(AtomKind::Symbol)
    } else {
        None
    }
}

/// The symbol that stands behind `=`, as a literal.
fn equals_pattern(alloc: Global, text: &Text) -> Result<Option<Pattern>, NoMemory>
    ensures { IfOk result (λ p. p ≡ equals_pattern text.now) }
{
    let Some(rest) = text.as_str().strip_prefix('=') else {
        return Ok(None);
    };
    let symbol = Value::symbol(Text::from_str(alloc, rest)?);
    Ok(Some(pattern(Form::Literal(symbol))))
}

/// Whether a symbol is a name.
pub(crate) fn is_name(bytes: &[u8]) -> bool
    ensures { result ≡ is_name bytes.now }
{
    is_named(bytes) && word_pattern(bytes).is_none()
}

fn is_named(bytes: &[u8]) -> bool
    ensures { result ≡ is_named bytes.now }
{
    match bytes.split_first() {
        Some((first, rest)) => first.is_ascii_alphabetic() && are_letters_or_digits(rest),
        None => false,
    }
}

fn are_letters_or_digits(bytes: &[u8]) -> bool
    ensures { result ≡ list_all is_letter_or_digit bytes.now }
{
    for byte in bytes {
        if !byte.is_ascii_alphanumeric() && *byte != b'_' {
            return false;
        }
    }
    true
}

/// Whether they are names joined by points, or one name.
fn are_names(bytes: &[u8]) -> bool
    ensures { result ≡ are_names bytes.now }
{
    let mut rest = bytes;
    'pieces: loop {
        let (piece, behind) = first_piece(rest);
        if !is_name(piece) {
            return false;
        }
        let Some(after) = behind else {
            return true;
        };
        rest = after;
    }
}

/// The bytes before the first point, and those behind it, where there is one.
fn first_piece(bytes: &[u8]) -> (&[u8], Option<&[u8]>)
    ensures pieces { MatchOption result.1
        (pieces is_point bytes.now ≡ result.0.now ∷ [])
        (λ rest. pieces is_point bytes.now ≡ result.0.now ∷ pieces is_point rest.now) }
    ensures shorter { IfSome result.1 (λ rest. length rest.now < length bytes.now) }
{
    for i in 0..bytes.len() {
        if bytes[i] == b'.' {
            return (&bytes[..i], Some(&bytes[i + 1..]));
        }
    }
    (bytes, None)
}
