//! What observes.
ghost use Rattle.std.specs.Prelude.{◌≡◌, IfOk};
ghost use Rattle.ds_space.specs.Wants.{observer_of, observer_by, is_observer};

use crate::references::names_observer;
use dp_pattern::{DPat, parse};
use pv_value::{NoMemory, Node, Text, Value};
use pv_words::{is_word, worded};
use std::alloc::Global;

/// The pattern of an observation.
///
/// A value observes where it is `<Observe p #:r>`, r names an object of a watcher or of a
/// connection, and p is a pattern. None says that it isn't such a record, or that p is no pattern.
pub fn observer_of(alloc: Global, value: &Value) -> Result<Option<DPat>, NoMemory>
    ensures { IfOk result (λ p. p ≡ observer_of value.now) }
{
    let Some((word, fields)) = worded(value) else {
        return Ok(None);
    };
    match fields {
        [pattern, observer] => observer_by(alloc, word, pattern, observer),
        _ => Ok(None),
    }
}

fn observer_by(
    alloc: Global,
    word: &Text,
    pattern: &Value,
    observer: &Value,
) -> Result<Option<DPat>, NoMemory>
    ensures { IfOk result (λ p. p ≡ observer_by word.now pattern.now observer.now) }
{
    if is_word(word, b"Observe") && is_observer(observer) {
        parse(alloc, pattern)
    } else {
        Ok(None)
    }
}

/// Whether it is an embedded reference to what may observe: to an object of a watcher or of a
/// connection, actor 9 or above.
pub fn is_observer(value: &Value) -> bool
    ensures { result ≡ is_observer value.now }
{
    match &value.node {
        Node::Emb(inside) => names_observer(inside),
        _ => false,
    }
}
