//! The parts of values that keys name.
ghost use Rattle.std.specs.Prelude.{◌≡◌, option_copied, IfOk};
ghost use Rattle.dp_pattern.specs.Matching.{is_met_by, is_of, part_of};

use crate::{Extent, Group};
use pv_value::{NoMemory, Node, Value};
use pv_words::{item_under, value_under};

/// Whether the value is of the group's kind, and has as many parts as the group wants.
pub fn is_of(group: &Group, value: &Value) -> bool
    ensures { result ≡ is_of group.now value.now }
{
    match (group, &value.node) {
        (Group::InRecord(label, extent), Node::Rec(rec)) => {
            rec.label == *label && extent.is_met_by(rec.fields.as_slice().len())
        }
        (Group::InSequence(extent), Node::Seq(items)) => extent.is_met_by(items.len()),
        (Group::InDictionary, Node::Dict(_)) => true,
        _ => false,
    }
}

impl Group {
    /// An equal group.
    pub fn copy(&self) -> Result<Group, NoMemory>
        ensures { IfOk result (λ g. g ≡ self.now) }
    {
        match self {
            Group::InRecord(label, extent) => Ok(Group::InRecord(label.copy()?, *extent)),
            Group::InSequence(extent) => Ok(Group::InSequence(*extent)),
            Group::InDictionary => Ok(Group::InDictionary),
        }
    }
}

impl Extent {
    /// Whether so many fields or items are as many as there are to be.
    pub fn is_met_by(self, count: usize) -> bool
        ensures { result ≡ is_met_by self count }
    {
        match self {
            Extent::Open => true,
            Extent::Exactly(wanted) => count == wanted,
        }
    }
}

/// The field, the item or the value that stands under a key.
pub(crate) fn part_of<'a>(group: &Group, value: &'a Value, key: &Value) -> Option<&'a Value>
    ensures { option_copied result ≡ part_of group.now value.now key.now }
{
    match (group, &value.node) {
        (Group::InRecord(_, _), Node::Rec(rec)) => item_under(rec.fields.as_slice(), key),
        (Group::InSequence(_), Node::Seq(items)) => item_under(items.as_slice(), key),
        (Group::InDictionary, Node::Dict(entries)) => value_under(entries, key),
        _ => None,
    }
}
