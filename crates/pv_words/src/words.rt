//! Records whose label is a symbol, and numbers.
ghost use Rattle.std.specs.Prelude.{◌≡◌, IfOk, MatchOption};
ghost use Rattle.pv_words.specs.Words.{is_word, labelled, number, number_in, HasNoWord};

use pv_value::{NoMemory, Node, Text, Value};
use std::alloc::Global;

/// Whether a symbol's text is this word.
pub fn is_word(text: &Text, word: &[u8]) -> bool
    ensures { result ≡ is_word text.now word.now }
{
    text.as_bytes() == word
}

/// The word and the fields of a record whose label is a symbol.
pub fn worded(value: &Value) -> Option<(&Text, &[Value])>
    ensures { MatchOption result (HasNoWord value.now) (λ p. value.now ≡ labelled p.0.now p.1.now) }
{
    let Node::Rec(rec) = &value.node else {
        return None;
    };
    let Node::Sym(word) = &rec.label.node else {
        return None;
    };
    Some((word, rec.fields.as_slice()))
}

/// The record with this word as its label.
pub fn labelled(alloc: Global, word: &str, fields: Vec<Value>) -> Result<Value, NoMemory>
    ensures { IfOk result (λ v. v ≡ labelled word.now fields.items) }
{
    Value::record(alloc, Value::symbol(Text::from_str(alloc, word)?), fields)
}

pub fn number(n: u64) -> Value
    ensures { result ≡ number n }
{
    Value::integer(n as i128)
}

/// The number that a value is, where it is from 0 to `i64::MAX`.
pub fn number_in(value: &Value) -> Option<u64>
    ensures { result ≡ number_in value.now }
{
    let Node::Int(n) = &value.node else {
        return None;
    };
    if *n < 0 || *n >= 1 << 63 {
        return None;
    }
    Some(*n as u64)
}
