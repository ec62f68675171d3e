//! Runs of characters of one class.
ghost use Rattle.std.specs.Prelude.{◌≡◌, ◌++◌, ◌<◌, length, is_some, IfOk};
ghost use Rattle.pv_lex.specs.Characters.{run};
ghost use Rattle.pv_lex.specs.ByteTexts.{sextet, may_stand_in_hex, may_stand_in_base64, enclosed};
ghost use Rattle.pv_lex.specs.Classes.{quote_of, is_plain, has};
ghost use Rattle.pv_read.specs.Answers.{Answers};

use crate::characters::{hex_digit, is_bare, is_space};
use crate::faults::TextKind;

/// What kind of text stands in quotes.
#[derive(Clone, Copy)]
pub(crate) enum Quotes {
    String,
    Symbol,
    Ascii,
}

/// A set of characters.
#[derive(Clone, Copy)]
pub(crate) enum Class {
    Bare,
    /// Hexadecimal digits and white space.
    Hexadecimal,
    /// Digits of base64 in either alphabet, padding and white space.
    Base64,
    /// What stands for itself in quotes.
    Plain(Quotes),
}

/// The longest front of characters of a class, and what follows it.
pub(crate) fn run(class: Class, bytes: &[u8]) -> (&[u8], &[u8])
    ensures value { (result.0.now, result.1.now) ≡ run (has class) bytes.now }
    ensures whole { bytes.now ≡ result.0.now ++ result.1.now }
{
    for (i, b) in bytes.iter().enumerate() {
        if !has(class, *b) {
            return bytes.split_at(i);
        }
    }
    (bytes, &[])
}

/// The digits up to the closing character, and what follows that.
pub(crate) fn enclosed(class: Class, close: u8, bytes: &[u8]) -> Result<(&[u8], &[u8]), TextKind>
    ensures value { let given = enclosed (has class) close bytes.now in
        Answers (λ x. (x.0.now, x.1.now)) result given }
    ensures shorter { IfOk result (λ x. length x.1.now < length bytes.now) }
{
    let (digits, rest) = run(class, bytes);
    let Some((first, rest)) = rest.split_first() else {
        return Err(TextKind::Unclosed);
    };
    if *first != close {
        return Err(TextKind::BadBytes);
    }
    Ok((digits, rest))
}

fn has(class: Class, b: u8) -> bool
    ensures { result ≡ has class b }
{
    match class {
        Class::Bare => is_bare(b),
        Class::Hexadecimal => is_space(b) || hex_digit(b).is_some(),
        Class::Base64 => is_space(b) || b == b'=' || is_sextet(b),
        Class::Plain(quotes) => is_plain(quotes, b),
    }
}

/// A character that stands for itself.
fn is_plain(quotes: Quotes, b: u8) -> bool
    ensures { result ≡ is_plain quotes b }
{
    match quotes {
        Quotes::String => b != b'"' && b != b'\\',
        Quotes::Symbol => b != b'|' && b != b'\\',
        Quotes::Ascii => b >= b' ' && b <= b'~' && b != b'"' && b != b'\\',
    }
}

/// The quote that closes the text, and that opened it.
pub(crate) fn quote(quotes: Quotes) -> u8
    ensures { result ≡ quote_of quotes }
{
    match quotes {
        Quotes::String | Quotes::Ascii => b'"',
        Quotes::Symbol => b'|',
    }
}

/// A digit of base64, in either alphabet.
fn is_sextet(b: u8) -> bool
    ensures { result ≡ is_some (sextet b) }
{
    (b >= b'A' && b <= b'Z')
        || (b >= b'a' && b <= b'z')
        || (b >= b'0' && b <= b'9')
        || b == b'+'
        || b == b'-'
        || b == b'/'
        || b == b'_'
}
