//! What the client looks for in a server's values.
ghost use Rattle.std.specs.Prelude.{◌≡◌};
ghost use Rattle.dq_core.specs.Words.{own_oid, pair_oid, accepted_oid, is_rejected};

use pv_value::{Node, Value};
use pv_words::{is_word, number_in, worded};

/// The n of `#:[0 n]`, an object of who sends it.
pub(crate) fn own_oid(value: &Value) -> Option<u64>
    ensures { result ≡ own_oid value.now }
{
    match &value.node {
        Node::Emb(inside) => pair_oid(inside),
        _ => None,
    }
}

/// The n of `[0 n]`.
fn pair_oid(pair: &Value) -> Option<u64>
    ensures { result ≡ pair_oid pair.now }
{
    let Node::Seq(items) = &pair.node else {
        return None;
    };
    let [kind, oid] = items.as_slice() else {
        return None;
    };
    match number_in(kind) {
        Some(0) => number_in(oid),
        _ => None,
    }
}

/// The n of `<accepted #:[0 n]>`.
pub(crate) fn accepted_oid(value: &Value) -> Option<u64>
    ensures { result ≡ accepted_oid value.now }
{
    let (word, fields) = worded(value)?;
    match fields {
        [reference] if is_word(word, b"accepted") => own_oid(reference),
        _ => None,
    }
}

/// Whether it is `<rejected ..>`, whatever its fields.
pub(crate) fn is_rejected(value: &Value) -> bool
    ensures { result ≡ is_rejected value.now }
{
    match worded(value) {
        Some((word, _)) => is_word(word, b"rejected"),
        None => false,
    }
}
