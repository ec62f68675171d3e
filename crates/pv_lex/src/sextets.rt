//! Base64 in either alphabet, with or without padding and with white space.
ghost use Rattle.std.specs.Prelude.{◌≡◌, IfOk, IfSome, option_map, vec_items};
ghost use Rattle.pv_lex.specs.ByteTexts.{base64_bytes};
ghost use Rattle.std.specs.Result.{result_ok};
ghost use Rattle.base64.specs.GeneralPurpose.{IsBytes, IsStrict, decode_of, encode_of};
ghost use Rattle.pv_lex.specs.Unspaced.{standard_digit, standard_digits};

use crate::characters::is_space;
use base64::DecodeAllocError;
use base64::engine::general_purpose::{GeneralPurpose, STANDARD, STANDARD_NO_PAD};
use std::alloc::{AllocError, Global};

/// The bytes that the text stands for: padding is either whole, and then the digits and it come in
/// fours, or left out.
pub(crate) fn base64_bytes(alloc: Global, text: &[u8]) -> Result<Option<Vec<u8>>, AllocError>
    ensures { IfOk result (λ r. option_map vec_items r ≡ base64_bytes text.now) }
{
    let digits = standard_digits(alloc, text)?;
    if digits.len() % 4 == 0 {
        decoded(alloc, &STANDARD, digits.as_slice())
    } else {
        decoded(alloc, &STANDARD_NO_PAD, digits.as_slice())
    }
}

/// The bytes whose encoding the digits are.
fn decoded(
    alloc: Global,
    engine: &GeneralPurpose,
    digits: &[u8],
) -> Result<Option<Vec<u8>>, AllocError>
    requires { IsStrict engine.now }
    ensures value { let given = result_ok (decode_of engine.now digits.now) in
        IfOk result (λ r. option_map vec_items r ≡ given) }
    ensures exact { let encoding = encode_of engine.now in
        IfOk result (λ r. IfSome r (λ v. (digits.now ≡ encoding v.items) × IsBytes v.items)) }
{
    match engine.decode(alloc, digits) {
        Ok(bytes) => Ok(Some(bytes)),
        Err(DecodeAllocError::OutOfMemory) => Err(AllocError),
        Err(DecodeAllocError::DecodeError(_)) => Ok(None),
    }
}

/// The text without white space, in the standard alphabet.
fn standard_digits(alloc: Global, text: &[u8]) -> Result<Vec<u8>, AllocError>
    ensures { IfOk result (λ v. v.items ≡ standard_digits text.now) }
{
    let mut out = Vec::with_capacity(alloc, text.len())?;
    for b in text {
        if !is_space(*b) {
            out.push(standard_digit(*b))?;
        }
    }
    Ok(out)
}

/// The digit of the standard alphabet in place of one of the alphabet for URLs.
fn standard_digit(b: u8) -> u8
    ensures { result ≡ standard_digit b }
{
    match b {
        b'-' => b'+',
        b'_' => b'/',
        _ => b,
    }
}
