//! The bytes behind an atom. Nothing here takes memory.
ghost use Rattle.std.specs.Prelude.{◌≡◌, IsFalse};
ghost use Rattle.pv_read.specs.Answers.{Answers};
ghost use Rattle.pv_binary.specs.Reading.{atom_at, is_compound, int_at};
ghost use Rattle.pv_binary.specs.Reading.{counted_at, text_at, double_at};
ghost use Rattle.pv_binary.specs.Tags.{tag_of};
ghost use Rattle.pv_stream.specs.Scans.{past, stop_at, Tells};

use crate::stops::Stop;
use pv_binary::tags::{BYTE_STRING, DOUBLE, FALSE, INTEGER, STRING, SYMBOL, TRUE};
use pv_binary::{BinKind, read_counted, read_double, read_int, read_text};

/// The bytes behind the atom whose tag, this byte, stands at this place.
#[tactic(auto, unfolding(pv_binary::specs::Reading::atom_at))]
pub(crate) fn past_atom(byte: u8, bytes: &[u8], place: usize) -> Result<&[u8], Stop>
    requires { IsFalse (is_compound (tag_of byte)) }
    ensures { Tells (λ x. x.now) result (past (atom_at place (tag_of byte) bytes.now)) }
{
    match byte {
        FALSE | TRUE => Ok(bytes),
        DOUBLE => at(place, past_double(bytes)),
        INTEGER => at(place, past_int(bytes)),
        STRING | SYMBOL => at(place, past_text(bytes)),
        BYTE_STRING => at(place, past_counted(bytes)),
        _ => Err(Stop {
            kind: BinKind::BadTag,
            place,
        }),
    }
}

/// What is told of an atom's bytes, for the atom that stands at this place.
fn at<T>(place: usize, told: Result<T, BinKind>) -> Result<T, Stop>
    ensures { result ≡ stop_at place told }
{
    match told {
        Ok(rest) => Ok(rest),
        Err(kind) => Err(Stop { kind, place }),
    }
}

/// The bytes behind a double.
fn past_double(bytes: &[u8]) -> Result<&[u8], BinKind>
    ensures { Answers (λ x. x.now) result (past (double_at bytes.now)) }
{
    let (_, rest) = read_double(bytes)?;
    Ok(rest)
}

/// The bytes behind a text.
fn past_text(bytes: &[u8]) -> Result<&[u8], BinKind>
    ensures { Answers (λ x. x.now) result (past (text_at bytes.now)) }
{
    let (_, rest) = read_text(bytes)?;
    Ok(rest)
}

/// The bytes behind an integer.
fn past_int(bytes: &[u8]) -> Result<&[u8], BinKind>
    ensures { Answers (λ x. x.now) result (past (int_at bytes.now)) }
{
    let (_, rest) = read_int(bytes)?;
    Ok(rest)
}

/// The bytes behind a byte string.
fn past_counted(bytes: &[u8]) -> Result<&[u8], BinKind>
    ensures { Answers (λ x. x.now) result (past (counted_at bytes.now)) }
{
    let (_, rest) = read_counted(bytes)?;
    Ok(rest)
}
