//! Characters.
ghost use Rattle.std.specs.Prelude.{◌≡◌, ◌≤◌, ◌<◌, length, IfOk, IfSome};
ghost use Rattle.pv_lex.specs.Characters.{is_line_end, is_space, is_digit, is_letter, is_bare_sign};
ghost use Rattle.pv_lex.specs.Characters.{is_bare, hex_digit, after_digits};
ghost use Rattle.pv_lex.specs.Unspaced.{without_spaces};

use std::alloc::{AllocError, Global};

/// The bytes that are no white space.
pub(crate) fn without_spaces(alloc: Global, bytes: &[u8]) -> Result<Vec<u8>, AllocError>
    ensures { IfOk result (λ v. v.items ≡ without_spaces bytes.now) }
{
    let mut out = Vec::with_capacity(alloc, bytes.len())?;
    for b in bytes {
        if !is_space(*b) {
            out.push(*b)?;
        }
    }
    Ok(out)
}

/// What follows digits.
pub(crate) fn skip_digits(bytes: &[u8]) -> &[u8]
    ensures { result.now ≡ after_digits bytes.now }
{
    let mut rest = bytes;
    while let Some((first, after)) = rest.split_first() {
        if !is_digit(*first) {
            return rest;
        }
        rest = after;
    }
    rest
}

/// CR or LF.
pub(crate) fn is_line_end(b: u8) -> bool
    ensures { result ≡ is_line_end b }
{
    b == b'\r' || b == b'\n'
}

pub(crate) fn is_space(b: u8) -> bool
    ensures { result ≡ is_space b }
{
    b == b' ' || b == b'\t' || is_line_end(b)
}

pub(crate) fn is_digit(b: u8) -> bool
    ensures { result ≡ is_digit b }
{
    b >= b'0' && b <= b'9'
}

fn is_letter(b: u8) -> bool
    ensures { result ≡ is_letter b }
{
    (b >= b'A' && b <= b'Z') || (b >= b'a' && b <= b'z')
}

fn is_bare_sign(b: u8) -> bool
    ensures { result ≡ is_bare_sign b }
{
    b == b'~'
        || b == b'!'
        || b == b'$'
        || b == b'%'
        || b == b'^'
        || b == b'&'
        || b == b'*'
        || b == b'?'
        || b == b'_'
        || b == b'='
        || b == b'+'
        || b == b'-'
        || b == b'/'
        || b == b'.'
}

/// Part of a bare token, as every byte of a character from 80 hexadecimal up.
pub fn is_bare(b: u8) -> bool
    ensures { result ≡ is_bare b }
{
    is_letter(b) || is_digit(b) || is_bare_sign(b) || b >= 0x80
}

/// What a hexadecimal digit in either case stands for.
pub(crate) fn hex_digit(b: u8) -> Option<u8>
    ensures value { result ≡ hex_digit b }
    ensures small { IfSome result (λ d. d < 16) }
{
    if is_digit(b) {
        Some(b - b'0')
    } else if b >= b'a' && b <= b'f' {
        Some(b - 87)
    } else if b >= b'A' && b <= b'F' {
        Some(b - 55)
    } else {
        None
    }
}
