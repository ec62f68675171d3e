//! Escapes: what stands behind a backslash.
ghost use Rattle.std.specs.Prelude.{◌≡◌, ◌<◌, length, IfOk, IfSome, IsTrue};
ghost use Rattle.pv_lex.specs.Escapes.{short_escape, mark_at, digit_at, pair_at, unit_at};
ghost use Rattle.pv_lex.specs.Escapes.{is_high_surrogate, is_low_surrogate, joined, low_at};
ghost use Rattle.pv_lex.specs.Escapes.{unicode_at, escape_at};
ghost use Rattle.pv_lex.specs.ByteTexts.{byte_escape_at};
ghost use Rattle.pv_read.specs.Answers.{Answers};

use crate::characters::hex_digit;
use crate::faults::TextKind;

/// Behind a backslash in a text with this closing quote: the character meant, and the bytes after
/// the escape.
#[tactic(auto, unfolding(crate::specs::Escapes::escape_at))]
pub(crate) fn escape_at(quote: u8, bytes: &[u8]) -> Result<(char, &[u8]), TextKind>
    requires { quote < 128 }
    ensures value { Answers (λ x. (x.0, x.1.now)) result (escape_at quote bytes.now) }
    ensures shorter { IfOk result (λ x. length x.1.now < length bytes.now) }
{
    let Some((first, rest)) = bytes.split_first() else {
        return Err(TextKind::Unclosed);
    };
    if *first == quote {
        return Ok((quote as char, rest));
    }
    if *first == b'u' {
        return unicode_at(rest);
    }
    match short_escape(*first) {
        Some(byte) => Ok((byte as char, rest)),
        None => Err(TextKind::BadEscape),
    }
}

/// Behind a backslash in the text of a byte string: the byte meant, and the bytes after the escape.
#[tactic(auto, unfolding(crate::specs::ByteTexts::byte_escape_at))]
pub(crate) fn byte_escape_at(bytes: &[u8]) -> Result<(u8, &[u8]), TextKind>
    ensures value { Answers (λ x. (x.0, x.1.now)) result (byte_escape_at bytes.now) }
    ensures shorter { IfOk result (λ x. length x.1.now < length bytes.now) }
{
    let Some((first, rest)) = bytes.split_first() else {
        return Err(TextKind::Unclosed);
    };
    if *first == b'"' {
        return Ok((b'"', rest));
    }
    if *first == b'x' {
        return pair_at(rest);
    }
    match short_escape(*first) {
        Some(byte) => Ok((byte, rest)),
        None => Err(TextKind::BadEscape),
    }
}

/// What one letter behind the backslash stands for.
fn short_escape(letter: u8) -> Option<u8>
    ensures value { result ≡ short_escape letter }
    ensures ascii { IfSome result (λ b. b < 128) }
{
    match letter {
        b'\\' => Some(b'\\'),
        b'/' => Some(b'/'),
        b'b' => Some(8),
        b'f' => Some(12),
        b'n' => Some(b'\n'),
        b'r' => Some(b'\r'),
        b't' => Some(b'\t'),
        _ => None,
    }
}

/// Behind `\u`: four digits, and behind those of a high surrogate the low one.
#[tactic(auto, unfolding(crate::specs::Escapes::unicode_at))]
fn unicode_at(bytes: &[u8]) -> Result<(char, &[u8]), TextKind>
    ensures value { Answers (λ x. (x.0, x.1.now)) result (unicode_at bytes.now) }
    ensures shorter { IfOk result (λ x. length x.1.now < length bytes.now) }
{
    let (unit, rest) = unit_at(bytes)?;
    if is_high_surrogate(unit) {
        let (low, rest) = low_at(rest)?;
        return Ok((joined(unit, low), rest));
    }
    match char::from_u32(u32::from(unit)) {
        Some(character) => Ok((character, rest)),
        None => Err(TextKind::BadEscape),
    }
}

/// A second `\uXXXX`, with a low surrogate.
#[tactic(auto, unfolding(crate::specs::Escapes::low_at))]
fn low_at(bytes: &[u8]) -> Result<(u16, &[u8]), TextKind>
    ensures value { Answers (λ x. (x.0, x.1.now)) result (low_at bytes.now) }
    ensures low { IfOk result (λ x. IsTrue (is_low_surrogate x.0)) }
    ensures shorter { IfOk result (λ x. length x.1.now < length bytes.now) }
{
    let rest = mark_at(b'\\', bytes)?;
    let rest = mark_at(b'u', rest)?;
    let (unit, rest) = unit_at(rest)?;
    if !is_low_surrogate(unit) {
        return Err(TextKind::BadEscape);
    }
    Ok((unit, rest))
}

/// The character of a pair of surrogates.
fn joined(high: u16, low: u16) -> char
    requires high { IsTrue (is_high_surrogate high) }
    requires low { IsTrue (is_low_surrogate low) }
    ensures { result ≡ joined high low }
{
    let code = 0x10000 + 0x400 * u32::from(high - 0xd800) + u32::from(low - 0xdc00);
    char::from_u32(code).unwrap()
}

fn is_high_surrogate(unit: u16) -> bool
    ensures { result ≡ is_high_surrogate unit }
{
    unit >= 0xd800 && unit <= 0xdbff
}

fn is_low_surrogate(unit: u16) -> bool
    ensures { result ≡ is_low_surrogate unit }
{
    unit >= 0xdc00 && unit <= 0xdfff
}

/// This character, which must stand here.
fn mark_at(mark: u8, bytes: &[u8]) -> Result<&[u8], TextKind>
    ensures value { Answers (λ x. x.now) result (mark_at mark bytes.now) }
    ensures shorter { IfOk result (λ x. length x.now < length bytes.now) }
{
    let Some((first, rest)) = bytes.split_first() else {
        return Err(TextKind::Unclosed);
    };
    if *first != mark {
        return Err(TextKind::BadEscape);
    }
    Ok(rest)
}

/// Four hexadecimal digits.
#[tactic(auto, unfolding(crate::specs::Escapes::unit_at))]
fn unit_at(bytes: &[u8]) -> Result<(u16, &[u8]), TextKind>
    ensures value { Answers (λ x. (x.0, x.1.now)) result (unit_at bytes.now) }
    ensures shorter { IfOk result (λ x. length x.1.now < length bytes.now) }
{
    let (high, rest) = pair_at(bytes)?;
    let (low, rest) = pair_at(rest)?;
    Ok((256 * u16::from(high) + u16::from(low), rest))
}

/// Two hexadecimal digits.
#[tactic(auto, unfolding(crate::specs::Escapes::pair_at))]
fn pair_at(bytes: &[u8]) -> Result<(u8, &[u8]), TextKind>
    ensures value { Answers (λ x. (x.0, x.1.now)) result (pair_at bytes.now) }
    ensures shorter { IfOk result (λ x. length x.1.now < length bytes.now) }
{
    let (high, rest) = digit_at(bytes)?;
    let (low, rest) = digit_at(rest)?;
    Ok((16 * high + low, rest))
}

/// A hexadecimal digit.
fn digit_at(bytes: &[u8]) -> Result<(u8, &[u8]), TextKind>
    ensures value { Answers (λ x. (x.0, x.1.now)) result (digit_at bytes.now) }
    ensures small { IfOk result (λ x. x.0 < 16) }
    ensures shorter { IfOk result (λ x. length x.1.now < length bytes.now) }
{
    let Some((first, rest)) = bytes.split_first() else {
        return Err(TextKind::Unclosed);
    };
    match hex_digit(*first) {
        Some(digit) => Ok((digit, rest)),
        None => Err(TextKind::BadEscape),
    }
}
