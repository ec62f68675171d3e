//! The names by which tables tell the kinds of faults and of tokens.
ghost use Rattle.std.specs.Prelude.{◌≡◌};
ghost use Rattle.row_cases.specs.Names.{text_fault_name, binary_fault_name};
ghost use Rattle.row_cases.specs.Names.{mark_name, form_name, token_name};

use pv_binary::BinKind;
use pv_lex::{AtomForm, Mark, TextKind, TokenKind};

pub fn text_fault_name(kind: TextKind) -> &'static str
    ensures { result.now ≡ text_fault_name kind }
{
    match kind {
        TextKind::Unexpected => "Unexpected",
        TextKind::BadEscape => "BadEscape",
        TextKind::DecimalDouble => "DecimalDouble",
        TextKind::BadBytes => "BadBytes",
        TextKind::Unclosed => "Unclosed",
        TextKind::TooWide => "TooWide",
        TextKind::TooDeep => "TooDeep",
        TextKind::Duplicate => "Duplicate",
        TextKind::BadUtf8 => "BadUtf8",
    }
}

pub fn binary_fault_name(kind: BinKind) -> &'static str
    ensures { result.now ≡ binary_fault_name kind }
{
    match kind {
        BinKind::Truncated => "Truncated",
        BinKind::BadTag => "BadTag",
        BinKind::LongVarint => "LongVarint",
        BinKind::LongInteger => "LongInteger",
        BinKind::TooWide => "TooWide",
        BinKind::BadUtf8 => "BadUtf8",
        BinKind::Duplicate => "Duplicate",
        BinKind::TooDeep => "TooDeep",
    }
}

pub fn token_name(kind: TokenKind) -> &'static str
    ensures { result.now ≡ token_name kind }
{
    match kind {
        TokenKind::Mark(mark) => mark_name(mark),
        TokenKind::Atom(form) => form_name(form),
    }
}

fn mark_name(mark: Mark) -> &'static str
    ensures { result.now ≡ mark_name mark }
{
    match mark {
        Mark::RecordOpen => "RecordOpen",
        Mark::RecordClose => "RecordClose",
        Mark::SequenceOpen => "SequenceOpen",
        Mark::SequenceClose => "SequenceClose",
        Mark::SetOpen => "SetOpen",
        Mark::DictionaryOpen => "DictionaryOpen",
        Mark::BraceClose => "BraceClose",
        Mark::Colon => "Colon",
        Mark::Comma => "Comma",
        Mark::Annotation => "Annotation",
        Mark::Embedded => "Embedded",
    }
}

fn form_name(form: AtomForm) -> &'static str
    ensures { result.now ≡ form_name form }
{
    match form {
        AtomForm::False => "False",
        AtomForm::True => "True",
        AtomForm::Integer => "Integer",
        AtomForm::Symbol => "Symbol",
        AtomForm::QuotedSymbol => "QuotedSymbol",
        AtomForm::String => "String",
        AtomForm::AsciiBytes => "AsciiBytes",
        AtomForm::HexBytes => "HexBytes",
        AtomForm::Base64Bytes => "Base64Bytes",
        AtomForm::Double => "Double",
    }
}
