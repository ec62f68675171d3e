//! The group of a key, and the rest of it.
ghost use Rattle.std.specs.Prelude.{◌≡◌, option_copied, option_map};
ghost use Rattle.ac_groups.specs.Groups.{parts, group_of};

use pv_value::{Node, Value};

/// The group o and the rest c of a key `[o c]`.
pub(crate) fn parts(key: &Value) -> Option<(&Value, &Value)>
    ensures { option_map (λ p. (p.0.now, p.1.now)) result ≡ parts key.now }
{
    let Node::Seq(items) = &key.node else {
        return None;
    };
    match items.as_slice() {
        [group, rest] => Some((group, rest)),
        _ => None,
    }
}

/// The group of a key, which is its first item.
pub(crate) fn group_of(key: &Value) -> Option<&Value>
    ensures { option_copied result ≡ group_of key.now }
{
    match &key.node {
        Node::Seq(items) => items.as_slice().first(),
        _ => None,
    }
}
