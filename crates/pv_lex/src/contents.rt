//! What stands in quotes.
ghost use Rattle.std.specs.Prelude.{◌≡◌, ◌<◌, length, IfOk};
ghost use Rattle.pv_lex.specs.Lexing.{as_text, as_texts, text_at};
ghost use Rattle.pv_lex.specs.Classes.{content_at};
ghost use Rattle.pv_lex.specs.declared.runs.Quotes.TheVariants as a_quotes;
ghost use Rattle.pv_read.specs.Results.{within};
ghost use Rattle.pv_read.specs.Answers.{Gives};
ghost use Rattle.pv_read.specs.Lemmas.Fronts.{behind_front};

use crate::faults::{TextFault, TextKind};
use crate::quoted::{item, push_piece};
use crate::runs::{Class, Quotes, quote, run};
use pv_read::{ReadFault, at};
use pv_value::Text;
use simdutf8::compat::from_utf8;
use std::alloc::Global;

/// These bytes as text.
pub(crate) fn text_of(alloc: Global, place: usize, bytes: &[u8]) -> Result<Text, TextFault>
    ensures { Gives (λ t. t) result (within place (as_text bytes.now)) }
{
    match from_utf8(bytes) {
        Ok(text) => Ok(Text::from_str(alloc, text)?),
        Err(_) => Err(ReadFault::Bad(TextKind::BadUtf8, place)),
    }
}

/// The text behind the opening quote of a string or a symbol, and what follows the closing one.
pub(crate) fn quoted_text(
    alloc: Global,
    place: usize,
    quotes: Quotes,
    bytes: &[u8],
) -> Result<(Text, &[u8]), TextFault>
    ensures value { Gives (λ x. (x.0, x.1.now)) result (within place (text_at quotes bytes.now)) }
    ensures shorter { IfOk result (λ x. length x.1.now < length bytes.now) }
{
    let (plain, tail) = run(Class::Plain(quotes), bytes);
    text_after(alloc, place, quotes, plain, tail)
}

/// The same, where these plain characters stand before the bytes. Where nothing is escaped the text
/// is made of the characters as they are.
fn text_after<'a>(
    alloc: Global,
    place: usize,
    quotes: Quotes,
    plain: &[u8],
    bytes: &'a [u8],
) -> Result<(Text, &'a [u8]), TextFault>
    ensures value { let content = behind_front plain.now (content_at quotes bytes.now) in
        Gives (λ x. (x.0, x.1.now)) result (within place (as_texts content)) }
    ensures shorter { IfOk result (λ x. length x.1.now < length bytes.now) }
{
    match bytes.split_first() {
        Some((first, rest)) if *first == quote(quotes) => {
            Ok((text_of(alloc, place, plain)?, rest))
        }
        _ => {
            let (content, rest) = content_after(alloc, place, quotes, plain, bytes)?;
            Ok((text_of(alloc, place, &content)?, rest))
        }
    }
}

/// The bytes behind the opening quote of an ASCII text, and what follows the closing one.
pub(crate) fn ascii_content(
    alloc: Global,
    place: usize,
    bytes: &[u8],
) -> Result<(Vec<u8>, &[u8]), TextFault>
    ensures value { let content = content_at a_quotes.Ascii bytes.now in
        Gives (λ x. (x.0.items, x.1.now)) result (within place content) }
    ensures shorter { IfOk result (λ x. length x.1.now < length bytes.now) }
{
    let (plain, tail) = run(Class::Plain(Quotes::Ascii), bytes);
    content_after(alloc, place, Quotes::Ascii, plain, tail)
}

/// The plain characters and what the text behind them stands for, and what follows the closing
/// quote.
fn content_after<'a>(
    alloc: Global,
    place: usize,
    quotes: Quotes,
    plain: &[u8],
    bytes: &'a [u8],
) -> Result<(Vec<u8>, &'a [u8]), TextFault>
    ensures value { let content = behind_front plain.now (content_at quotes bytes.now) in
        Gives (λ x. (x.0.items, x.1.now)) result (within place content) }
    ensures shorter { IfOk result (λ x. length x.1.now < length bytes.now) }
{
    let mut out = Vec::from_slice(alloc, plain)?;
    let mut rest = bytes;
    while let Some((first, after)) = rest.split_first() {
        if *first == quote(quotes) {
            return Ok((out, after));
        }
        let (piece, after) = at(place, item(quotes, rest))?;
        push_piece(&mut out, piece)?;
        let (plain, tail) = run(Class::Plain(quotes), after);
        out.extend_from_slice(plain)?;
        rest = tail;
    }
    Err(ReadFault::Bad(TextKind::Unclosed, place))
}
