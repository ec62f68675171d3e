//! Items of text in quotes: characters as they stand, and escapes.
ghost use Rattle.std.specs.Prelude.{◌≡◌, ◌++◌, ◌∷◌, [], ◌<◌, length, IfOk, OnOk};
ghost use Rattle.pv_lex.specs.Escapes.{text_item};
ghost use Rattle.pv_lex.specs.Pieces.{piece_bytes};
ghost use Rattle.pv_lex.specs.ByteTexts.{byte_item};
ghost use Rattle.pv_lex.specs.Classes.{item_of};
ghost use Rattle.pv_read.specs.Answers.{Answers};

use crate::escapes::{byte_escape_at, escape_at};
use crate::faults::TextKind;
use crate::runs::Quotes;
use std::alloc::AllocError;

/// What an item of a text stands for.
#[derive(Clone, Copy)]
pub(crate) enum Piece {
    Byte(u8),
    Character(char),
}

/// The first item of a text in such quotes, and the bytes behind it.
pub(crate) fn item(quotes: Quotes, bytes: &[u8]) -> Result<(Piece, &[u8]), TextKind>
    ensures value { Answers (λ x. (piece_bytes x.0, x.1.now)) result (item_of quotes bytes.now) }
    ensures shorter { IfOk result (λ x. length x.1.now < length bytes.now) }
{
    match quotes {
        Quotes::String => text_item(b'"', bytes),
        Quotes::Symbol => text_item(b'|', bytes),
        Quotes::Ascii => {
            let (byte, rest) = byte_item(bytes)?;
            Ok((Piece::Byte(byte), rest))
        }
    }
}

/// A raw byte or an escape, and the bytes behind it.
#[tactic(auto, unfolding(crate::specs::Escapes::text_item))]
fn text_item(quote: u8, bytes: &[u8]) -> Result<(Piece, &[u8]), TextKind>
    requires { quote < 128 }
    ensures value { Answers (λ x. (piece_bytes x.0, x.1.now)) result (text_item quote bytes.now) }
    ensures shorter { IfOk result (λ x. length x.1.now < length bytes.now) }
{
    let Some((first, rest)) = bytes.split_first() else {
        return Err(TextKind::Unclosed);
    };
    if *first == b'\\' {
        let (character, rest) = escape_at(quote, rest)?;
        return Ok((Piece::Character(character), rest));
    }
    if *first == quote {
        return Err(TextKind::BadBytes);
    }
    Ok((Piece::Byte(*first), rest))
}

/// A printable ASCII character or an escape, and the bytes behind it.
#[tactic(auto, unfolding(crate::specs::ByteTexts::byte_item))]
fn byte_item(bytes: &[u8]) -> Result<(u8, &[u8]), TextKind>
    ensures value { Answers (λ x. (x.0 ∷ [], x.1.now)) result (byte_item bytes.now) }
    ensures shorter { IfOk result (λ x. length x.1.now < length bytes.now) }
{
    let Some((first, rest)) = bytes.split_first() else {
        return Err(TextKind::Unclosed);
    };
    if *first == b'\\' {
        return byte_escape_at(rest);
    }
    if *first < b' ' || *first > b'~' || *first == b'"' {
        return Err(TextKind::BadBytes);
    }
    Ok((*first, rest))
}

pub(crate) fn push_piece(out: &mut Vec<u8>, piece: Piece) -> Result<(), AllocError>
    ensures { OnOk result (out.new.items ≡ out.old.items ++ piece_bytes piece) }
{
    match piece {
        Piece::Byte(byte) => {
            out.push(byte)?;
        }
        Piece::Character(character) => {
            let mut room = [0u8; 4];
            out.extend_from_slice(character.encode_utf8(&mut room).as_bytes())?;
        }
    }
    Ok(())
}
