//! Numbers among the bare tokens.
ghost use Rattle.std.specs.Prelude.{◌≡◌, ◌≤◌, ◌<◌, ◌^◌, pos, neg_ℤ, MatchOption, if◌then◌else◌};
ghost use Rattle.pv_lex.specs.Numbers.{begins_digit, after_sign, after_fraction, after_exponent};
ghost use Rattle.pv_lex.specs.Numbers.{is_integer_text, is_decimal_double, is_negative};
ghost use Rattle.pv_lex.specs.Numbers.{digits_value, is_wide, integer_value, integer_of};

use crate::characters::{is_digit, skip_digits};

/// 2^127: the least size that no positive integer of 128 bits has.
const TOP: u128 = 0x8000_0000_0000_0000_0000_0000_0000_0000;

/// 2^124: a number from this on that has one more digit is above 2^127.
const NEAR_TOP: u128 = 0x1000_0000_0000_0000_0000_0000_0000_0000;

/// The integer that a text stands for: an optional sign and digits, of at most 128 bits in two's
/// complement.
#[tactic(auto, unfolding(crate::specs::Numbers::integer_of))]
pub fn integer_of(text: &[u8]) -> Option<i128>
    ensures { result ≡ integer_of text.now }
{
    if !is_integer_text(text) {
        return None;
    }
    integer_value(text)
}

/// What sign and digits stand for, unless that has more than 128 bits.
#[tactic(auto, unfolding(crate::specs::Numbers::is_wide, crate::specs::Numbers::integer_value))]
fn integer_value(text: &[u8]) -> Option<i128>
    ensures { result ≡ (if is_wide text.now then None else Some (integer_value text.now)) }
{
    let size = magnitude(skip_sign(text))?;
    if is_negative(text) {
        Some(negated(size))
    } else if size < TOP {
        Some(size as i128)
    } else {
        None
    }
}

fn negated(size: u128) -> i128
    requires { size ≤ 2 ^ 127 }
    ensures { result ≡ neg_ℤ (pos size) }
{
    if size == TOP {
        i128::MIN
    } else {
        -(size as i128)
    }
}

/// The number of these digits, unless it is above 2^127.
fn magnitude(digits: &[u8]) -> Option<u128>
    ensures { let value = digits_value 0 digits.now in
        MatchOption result (2 ^ 127 < value) (λ n. (n ≡ value) × (n ≤ 2 ^ 127)) }
{
    let mut size: u128 = 0;
    for b in digits {
        if size >= NEAR_TOP {
            return None;
        }
        size = 10 * size + u128::from(b.saturating_sub(48));
    }
    if size > TOP { None } else { Some(size) }
}

fn is_negative(text: &[u8]) -> bool
    ensures { result ≡ is_negative text.now }
{
    match text {
        [] => false,
        [first, ..] => *first == b'-',
    }
}

/// An optional sign and digits.
pub fn is_integer_text(text: &[u8]) -> bool
    ensures { result ≡ is_integer_text text.now }
{
    let digits = skip_sign(text);
    begins_digit(digits) && skip_digits(digits).is_empty()
}

/// That with a fraction, an exponent or both.
pub fn is_decimal_double(text: &[u8]) -> bool
    ensures { result ≡ is_decimal_double text.now }
{
    let digits = skip_sign(text);
    let rest = skip_digits(digits);
    begins_digit(digits) && !rest.is_empty() && skip_exponent(skip_fraction(rest)).is_empty()
}

/// What follows an optional sign.
fn skip_sign(bytes: &[u8]) -> &[u8]
    ensures { result.now ≡ after_sign bytes.now }
{
    match bytes.split_first() {
        Some((first, rest)) if *first == b'+' || *first == b'-' => rest,
        _ => bytes,
    }
}

/// What follows an optional point and digits.
fn skip_fraction(bytes: &[u8]) -> &[u8]
    ensures { result.now ≡ after_fraction bytes.now }
{
    match bytes.split_first() {
        Some((first, rest)) if *first == b'.' && begins_digit(rest) => skip_digits(rest),
        _ => bytes,
    }
}

/// What follows an optional exponent: e or E, an optional sign, and digits.
fn skip_exponent(bytes: &[u8]) -> &[u8]
    ensures { result.now ≡ after_exponent bytes.now }
{
    match bytes.split_first() {
        Some((first, rest))
            if (*first == b'e' || *first == b'E') && begins_digit(skip_sign(rest)) => {
            skip_digits(skip_sign(rest))
        }
        _ => bytes,
    }
}

fn begins_digit(bytes: &[u8]) -> bool
    ensures { result ≡ begins_digit bytes.now }
{
    match bytes {
        [] => false,
        [first, ..] => is_digit(*first),
    }
}
