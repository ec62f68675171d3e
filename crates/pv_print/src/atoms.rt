//! Atoms other than symbols.
ghost use Rattle.std.specs.Prelude.{◌≡◌, ◌≤◌, ◌++◌, ◌∷◌, [], length, take, OnOk};
ghost use Rattle.std.specs.Fmt.{signed_decimal};
ghost use Rattle.std.specs.Int.{w64, to_be_bytes};
ghost use Rattle.std.specs.Io.{StartsWith};
ghost use Rattle.pv_print.specs.Hex.{hex_pairs};
ghost use Rattle.pv_print.specs.Escaped.{control_escape, stands_raw, escape, escaped, quoted};

use crate::bytes::push_hex;
use itoa::Buffer;
use pv_value::{NoMemory, push_byte, push_bytes};

pub(crate) fn push_int(out: &mut Vec<u8>, n: i128) -> Result<(), NoMemory>
    ensures exact { OnOk result (out.new.items ≡ out.old.items ++ signed_decimal n) }
    ensures front { StartsWith out.new.items out.old.items }
{
    let mut buffer = Buffer::new();
    push_bytes(out, buffer.format(n).as_bytes())
}

/// The bits of a double, big-endian.
pub(crate) fn push_double(out: &mut Vec<u8>, bits: u64) -> Result<(), NoMemory>
    ensures exact { OnOk result (out.new.items ≡ out.old.items
        ++ 35 ∷ 120 ∷ 100 ∷ 34 ∷ (hex_pairs (to_be_bytes w64 bits) ++ 34 ∷ [])) }
    ensures front { StartsWith out.new.items out.old.items }
{
    push_bytes(out, b"#xd\"")?;
    push_hex(out, &bits.to_be_bytes())?;
    push_byte(out, b'"')
}

/// Text between quotes.
pub(crate) fn push_quoted(out: &mut Vec<u8>, quote: u8, text: &[u8]) -> Result<(), NoMemory>
    ensures exact { OnOk result (out.new.items ≡ out.old.items ++ quoted quote text.now) }
    ensures front { StartsWith out.new.items out.old.items }
{
    push_byte(out, quote)?;
    push_escapes(out, quote, text)?;
    push_byte(out, quote)
}

/// Text as it stands between quotes. What stands as it is goes in a run.
fn push_escapes(out: &mut Vec<u8>, quote: u8, text: &[u8]) -> Result<(), NoMemory>
    ensures exact { OnOk result (out.new.items ≡ out.old.items ++ escaped quote text.now) }
    ensures front { StartsWith out.new.items out.old.items }
{
    let mut rest = text;
    while !rest.is_empty() {
        let (run, behind) = rest.split_at(raw_length(quote, rest));
        push_bytes(out, run)?;
        let Some((first, after)) = behind.split_first() else {
            return Ok(());
        };
        push_escaped(out, quote, *first)?;
        rest = after;
    }
    Ok(())
}

/// How many bytes stand as they are, up to the first that doesn't.
fn raw_length(quote: u8, text: &[u8]) -> usize
    ensures within { result ≤ length text.now }
    ensures raw { escaped quote (take result text.now) ≡ take result text.now }
{
    let mut n = 0;
    while n < text.len() && stands_raw(quote, text[n]) {
        n += 1;
    }
    n
}

fn stands_raw(quote: u8, b: u8) -> bool
    ensures { result ≡ stands_raw quote b }
{
    b != quote && b != b'\\' && b >= 32
}

fn push_escaped(out: &mut Vec<u8>, quote: u8, b: u8) -> Result<(), NoMemory>
    ensures exact { OnOk result (out.new.items ≡ out.old.items ++ escape quote b) }
    ensures front { StartsWith out.new.items out.old.items }
{
    if b == quote || b == b'\\' {
        push_bytes(out, &[b'\\', b])
    } else if b < 32 {
        push_control(out, b)
    } else {
        push_byte(out, b)
    }
}

fn push_control(out: &mut Vec<u8>, b: u8) -> Result<(), NoMemory>
    ensures exact { OnOk result (out.new.items ≡ out.old.items ++ control_escape b) }
    ensures front { StartsWith out.new.items out.old.items }
{
    match b {
        8 => push_bytes(out, b"\\b"),
        9 => push_bytes(out, b"\\t"),
        10 => push_bytes(out, b"\\n"),
        12 => push_bytes(out, b"\\f"),
        13 => push_bytes(out, b"\\r"),
        _ => {
            push_bytes(out, b"\\u00")?;
            push_hex(out, &[b])
        }
    }
}
