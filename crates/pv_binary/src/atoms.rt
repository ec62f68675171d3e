//! Reading atoms, from behind their tags. Nothing here takes memory.
ghost use Rattle.std.specs.Prelude.{◌≡◌, ◌≤◌, ◌<◌, ◌*◌, ◌^◌, [], ◌∷◌, length};
ghost use Rattle.std.specs.Prelude.{IfOk, MatchOption};
ghost use Rattle.std.specs.Prelude.{IsTrue};
ghost use Rattle.std.specs.Int.{w64, from_be_bytes};
ghost use Rattle.std.specs.Str.{IsUtf8, IsAscii};
ghost use Rattle.pv_read.specs.Answers.{Answers};
ghost use Rattle.pv_binary.specs.Reading.{sign, pad, is_minimal, int_value, int_at, varint_at};
ghost use Rattle.pv_binary.specs.Reading.{split_at, counted_at, text_at, double_at};

use crate::faults::BinKind;
use crate::tags::DOUBLE_BYTES;
use crate::writing::repeats_sign;
use simdutf8::basic::from_utf8;

/// The bits of the double behind its tag, and the bytes behind it: the 8, and the eight bytes of
/// its bits.
#[tactic(auto, unfolding(crate::specs::Reading::double_at))]
pub fn read_double(bytes: &[u8]) -> Result<(u64, &[u8]), BinKind>
    ensures { Answers (λ x. (x.0, x.1.now)) result (double_at bytes.now) }
{
    let Some((count, rest)) = bytes.split_first() else {
        return Err(BinKind::Truncated);
    };
    if *count != DOUBLE_BYTES {
        return Err(BinKind::BadTag);
    }
    let (bits, rest) = split(rest, 8)?;
    Ok((bits_of(bits), rest))
}

/// The text behind its count, and the bytes behind it.
#[inline(always)]
#[tactic(auto, unfolding(crate::specs::Reading::text_at))]
pub fn read_text(bytes: &[u8]) -> Result<(&str, &[u8]), BinKind>
    ensures { Answers (λ x. (x.0.now, x.1.now)) result (text_at bytes.now) }
{
    let (text, rest) = read_counted(bytes)?;
    let Some(text) = as_text(text) else {
        return Err(BinKind::BadUtf8);
    };
    Ok((text, rest))
}

/// These bytes as text. Few of them, as most texts have, are looked at one by one first: below 128
/// each is a character.
#[inline(always)]
fn as_text(bytes: &[u8]) -> Option<&str>
    ensures { MatchOption result (IsUtf8 bytes.now → ⊥)
        (λ s. (s.now ≡ bytes.now) × IsUtf8 bytes.now) }
{
    if bytes.len() < 64 && is_ascii(bytes) {
        return Some(ascii_text(bytes));
    }
    match from_utf8(bytes) {
        Ok(text) => Some(text),
        Err(_) => None,
    }
}

/// Whether each byte is below 128.
fn is_ascii(bytes: &[u8]) -> bool
    ensures { IsTrue result → IsAscii bytes.now }
{
    for i in 0..bytes.len() {
        let byte = bytes[i];
        if byte >= 128 {
            return false;
        }
    }
    true
}

/// Bytes below 128 as text.
#[inline(always)]
fn ascii_text(bytes: &[u8]) -> &str
    requires { IsAscii bytes.now }
    ensures same { result.now ≡ bytes.now }
    ensures text { IsUtf8 bytes.now }
{
    unsafe { std::str::from_utf8_unchecked(bytes) }
}

/// The integer behind its count, in as few bytes as will do, and the bytes behind it. Most have at
/// most four, which are looked at where they stand.
#[tactic(auto, unfolding(crate::specs::Reading::int_at))]
#[inline(always)]
pub fn read_int(bytes: &[u8]) -> Result<(i128, &[u8]), BinKind>
    ensures { Answers (λ x. (x.0, x.1.now)) result (int_at bytes.now) }
{
    if let [0, rest @ ..] = bytes {
        return Ok((int_of_none(), rest));
    }
    if let [1, a, rest @ ..] = bytes {
        if *a != 0 {
            return Ok((int_of_one(*a), rest));
        }
    }
    if let [2, a, b, rest @ ..] = bytes {
        if !repeats_sign(*a, *b) {
            return Ok((int_of_two(*a, *b), rest));
        }
    }
    if let [3, a, b, c, rest @ ..] = bytes {
        if !repeats_sign(*a, *b) {
            return Ok((int_of_three(*a, *b, *c), rest));
        }
    }
    if let [4, a, b, c, d, rest @ ..] = bytes {
        if !repeats_sign(*a, *b) {
            return Ok((int_of_four(*a, *b, *c, *d), rest));
        }
    }
    read_long_int(bytes)
}

/// The same, where the bytes are more than four or don't stand for an integer.
#[inline(never)]
#[tactic(auto, unfolding(crate::specs::Reading::int_at))]
fn read_long_int(bytes: &[u8]) -> Result<(i128, &[u8]), BinKind>
    ensures { Answers (λ x. (x.0, x.1.now)) result (int_at bytes.now) }
{
    let (count, rest) = read_count(bytes)?;
    if count > 16 {
        return Err(BinKind::TooWide);
    }
    let (digits, rest) = split(rest, count)?;
    if !is_minimal(digits) {
        return Err(BinKind::LongInteger);
    }
    Ok((int_of(digits), rest))
}

/// The bytes behind their count, and those behind them.
#[tactic(auto, unfolding(crate::specs::Reading::counted_at))]
#[inline(always)]
pub fn read_counted(bytes: &[u8]) -> Result<(&[u8], &[u8]), BinKind>
    ensures { Answers (λ x. (x.0.now, x.1.now)) result (counted_at bytes.now) }
{
    let (count, rest) = read_count(bytes)?;
    split(rest, count)
}

/// The first `count` bytes, and the others.
#[inline(always)]
fn split(bytes: &[u8], count: u64) -> Result<(&[u8], &[u8]), BinKind>
    ensures { Answers (λ x. (x.0.now, x.1.now)) result (split_at count bytes.now) }
{
    if count > bytes.len() as u64 {
        return Err(BinKind::Truncated);
    }
    Ok(bytes.split_at(count as usize))
}

/// A count in its shortest form, which most often is one byte.
#[inline(always)]
fn read_count(bytes: &[u8]) -> Result<(u64, &[u8]), BinKind>
    ensures { Answers (λ x. (x.0, x.1.now)) result (varint_at 9 bytes.now) }
{
    if let Some((byte, rest)) = bytes.split_first() {
        if *byte < 128 {
            return Ok((u64::from(*byte), rest));
        }
    }
    read_varint(bytes, 9)
}

/// A count in its shortest form; after `left` more bytes the tenth is reached, which holds one bit.
fn read_varint(bytes: &[u8], left: u32) -> Result<(u64, &[u8]), BinKind>
    requires { left ≤ 9 }
    ensures value { Answers (λ x. (x.0, x.1.now)) result (varint_at left bytes.now) }
    ensures small { IfOk result (λ x. x.0 < 2 * 128 ^ left) }
{
    let Some((byte, rest)) = bytes.split_first() else {
        return Err(BinKind::Truncated);
    };
    if left == 0 {
        return match *byte {
            1 => Ok((1, rest)),
            _ => Err(BinKind::LongVarint),
        };
    }
    if *byte < 128 {
        return Ok((u64::from(*byte), rest));
    }
    let (high, rest) = read_varint(rest, left - 1)?;
    if high == 0 {
        return Err(BinKind::LongVarint);
    }
    Ok((u64::from(*byte - 128) + 128 * high, rest))
}

/// No byte only repeats the sign.
fn is_minimal(digits: &[u8]) -> bool
    ensures { result ≡ is_minimal digits.now }
{
    match digits {
        [] => true,
        [only] => *only != 0,
        [first, second, ..] => !repeats_sign(*first, *second),
    }
}

/// What at most 16 bytes of two's complement stand for.
fn int_of(digits: &[u8]) -> i128
    requires { length digits.now ≤ 16 }
    ensures { result ≡ int_value digits.now }
{
    i128::from_be_bytes(padded(digits))
}

/// The same in 16 bytes.
fn padded(digits: &[u8]) -> [u8; 16]
    requires { length digits.now ≤ 16 }
    ensures { result ≡ pad digits.now }
{
    let mut bytes = [sign_byte(digits); 16];
    let start = 16 - digits.len();
    let place = &mut bytes[start..];
    place.copy_from_slice(digits);
    bytes
}

/// The byte that repeats the sign.
fn sign_byte(digits: &[u8]) -> u8
    ensures { result ≡ sign digits.now }
{
    match digits {
        [] => 0,
        [first, ..] => sign_of(*first),
    }
}

/// The byte that repeats the sign of this one.
#[inline(always)]
fn sign_of(first: u8) -> u8
    ensures { result ≡ sign (first ∷ []) }
{
    if first < 128 { 0 } else { 255 }
}

/// What no bytes stand for.
#[inline(always)]
#[tactic(auto, unfolding(crate::specs::Reading::int_value))]
fn int_of_none() -> i128
    ensures { result ≡ int_value [] }
{
    0
}

/// What a byte of two's complement stands for.
#[inline(always)]
fn int_of_one(byte: u8) -> i128
    ensures { result ≡ int_value (byte ∷ []) }
{
    i128::from(i8::from_be_bytes([byte]))
}

/// What two bytes of two's complement stand for.
#[inline(always)]
fn int_of_two(first: u8, second: u8) -> i128
    ensures { result ≡ int_value (first ∷ second ∷ []) }
{
    let sign = sign_of(first);
    int_of_four(sign, sign, first, second)
}

/// What three bytes of two's complement stand for.
#[inline(always)]
fn int_of_three(first: u8, second: u8, third: u8) -> i128
    ensures { result ≡ int_value (first ∷ second ∷ third ∷ []) }
{
    int_of_four(sign_of(first), first, second, third)
}

/// What four bytes of two's complement stand for.
#[inline(always)]
fn int_of_four(first: u8, second: u8, third: u8, fourth: u8) -> i128
    ensures { result ≡ int_value (first ∷ second ∷ third ∷ fourth ∷ []) }
{
    i128::from(i32::from_be_bytes([first, second, third, fourth]))
}

/// The number of eight bytes, big-endian.
fn bits_of(bytes: &[u8]) -> u64
    requires { length bytes.now ≡ 8 }
    ensures { result ≡ from_be_bytes w64 bytes.now }
{
    let mut eight = [0u8; 8];
    eight.copy_from_slice(bytes);
    u64::from_be_bytes(eight)
}
