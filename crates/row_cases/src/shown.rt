//! Bytes and answers as a line of the report shows them.
ghost use Rattle.std.specs.Prelude.{◌≡◌, ◌<◌, ◌++◌, false, OnOk, string_bytes};
ghost use Rattle.std.specs.Fmt.{digit_glyph};
ghost use Rattle.row_cases.specs.Shown.{hex_digits, shown_byte, shown, digits_shown};
ghost use Rattle.row_cases.specs.Shown.{answer_shown, behind_first};

use crate::codecs::Answer;
use std::alloc::AllocError;

/// Appends the bytes as a text of printable ASCII, with `%HH` for each other byte.
pub fn push_shown(line: &mut String, bytes: &[u8]) -> Result<(), AllocError>
    ensures { OnOk result (string_bytes line.new ≡ string_bytes line.old ++ shown bytes.now) }
{
    for byte in bytes {
        push_byte(line, *byte)?;
    }
    Ok(())
}

fn push_byte(line: &mut String, byte: u8) -> Result<(), AllocError>
    ensures { OnOk result (string_bytes line.new ≡ string_bytes line.old ++ shown_byte byte) }
{
    if b' ' <= byte && byte <= b'~' && byte != b'%' {
        return line.push(char::from(byte));
    }
    line.push('%')?;
    push_pair(line, byte)
}

/// Appends a byte in two hexadecimal digits.
fn push_pair(line: &mut String, byte: u8) -> Result<(), AllocError>
    ensures { OnOk result (string_bytes line.new ≡ string_bytes line.old ++ hex_digits byte) }
{
    line.push(digit(byte / 16))?;
    line.push(digit(byte % 16))
}

/// A hexadecimal digit.
fn digit(n: u8) -> char
    requires { n < 16 }
    ensures glyph { result ≡ digit_glyph false n }
    ensures ascii { result < 128 }
{
    if n < 10 {
        char::from(b'0' + n)
    } else {
        char::from(b'a' + (n - 10))
    }
}

/// Appends the bytes in pairs of hexadecimal digits, with blanks between them.
fn push_digits(line: &mut String, bytes: &[u8]) -> Result<(), AllocError>
    ensures { OnOk result
        (string_bytes line.new ≡ string_bytes line.old ++ digits_shown bytes.now) }
{
    for (i, byte) in bytes.iter().enumerate() {
        push_between(line, i, " ")?;
        push_pair(line, *byte)?;
    }
    Ok(())
}

/// Appends the text, unless the place is the first.
pub fn push_between(line: &mut String, place: usize, text: &str) -> Result<(), AllocError>
    ensures { OnOk result
        (string_bytes line.new ≡ string_bytes line.old ++ behind_first place text.now) }
{
    if place > 0 {
        line.push_str(text)?;
    }
    Ok(())
}

/// Appends an answer.
pub fn push_answer(line: &mut String, answer: &Answer) -> Result<(), AllocError>
    ensures { OnOk result
        (string_bytes line.new ≡ string_bytes line.old ++ answer_shown answer.now) }
{
    match answer {
        Answer::Bytes(bytes) => push_digits(line, bytes),
        Answer::Text(text) | Answer::Stops(text) => push_shown(line, text.as_bytes()),
    }
}
