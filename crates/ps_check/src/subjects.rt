//! What is held against a pattern.
ghost use Rattle.std.specs.Prelude.{◌≡◌, option_map};
ghost use Rattle.std.specs.Ordering.{eq_by_cmp};
ghost use Rattle.pv_value.specs.Plain.{plains, pairs, sequence};
ghost use Rattle.pv_value.specs.Order.{orders};
ghost use Rattle.pv_words.specs.Kinds.{is_of_kind};
ghost use Rattle.ps_schema.specs.Conforms.{is_value};
ghost use Rattle.ps_check.specs.Subjects.{seen, inside_of, label_of, fields_of, fields_under};
ghost use Rattle.ps_check.specs.Subjects.{in_fields, items_of, elements_of, entries_of};

use pv_value::{Entries, Node, Value};
use pv_words::AtomKind;

/// What is held against a pattern: a value, or the sequence of a record's fields.
#[derive(Clone, Copy)]
pub(crate) enum Subject<'a> {
    Whole(&'a Value),
    /// By the record.
    Fields(&'a Value),
}

impl<'a> Subject<'a> {
    pub(crate) fn is_of_kind(self, kind: AtomKind) -> bool
        ensures { result ≡ is_of_kind kind (seen self.entry) }
    {
        let Subject::Whole(value) = self else {
            return false;
        };
        kind.has(value)
    }

    pub(crate) fn is(self, literal: &Value) -> bool
        ensures { result ≡ is_value literal.now (seen self.entry) }
    {
        match self {
            Subject::Whole(value) => value == literal,
            Subject::Fields(record) => match &literal.node {
                Node::Seq(items) => are_same(fields_in(record), items.as_slice()),
                _ => false,
            },
        }
    }

    /// What is inside an embedded value.
    pub(crate) fn inside(self) -> Option<Subject<'a>>
        ensures { option_map seen result ≡ inside_of (seen self.entry) }
    {
        let Subject::Whole(value) = self else {
            return None;
        };
        match &value.node {
            Node::Emb(inside) => Some(Subject::Whole(inside)),
            _ => None,
        }
    }

    /// The label of a record.
    pub(crate) fn label(self) -> Option<Subject<'a>>
        ensures { option_map seen result ≡ label_of (seen self.entry) }
    {
        let Subject::Whole(value) = self else {
            return None;
        };
        match &value.node {
            Node::Rec(rec) => Some(Subject::Whole(&rec.label)),
            _ => None,
        }
    }

    /// The fields of a record.
    pub(crate) fn fields(self) -> Option<Subject<'a>>
        ensures { option_map seen result ≡ fields_of (seen self.entry) }
    {
        let Subject::Whole(value) = self else {
            return None;
        };
        match &value.node {
            Node::Rec(_) => Some(Subject::Fields(value)),
            _ => None,
        }
    }

    /// The fields of a record of this label.
    pub(crate) fn fields_under(self, label: &Value) -> Option<&'a [Value]>
        ensures { option_map (λ xs. plains xs.now) result
            ≡ fields_under label.now (seen self.entry) }
    {
        let Subject::Whole(value) = self else {
            return None;
        };
        let Node::Rec(rec) = &value.node else {
            return None;
        };
        if rec.label == *label {
            Some(&rec.fields)
        } else {
            None
        }
    }

    /// The items of a sequence.
    pub(crate) fn items(self) -> Option<&'a [Value]>
        ensures { option_map (λ xs. plains xs.now) result ≡ items_of (seen self.entry) }
    {
        let value = match self {
            Subject::Whole(value) => value,
            Subject::Fields(record) => return Some(fields_in(record)),
        };
        match &value.node {
            Node::Seq(items) => Some(items.as_slice()),
            _ => None,
        }
    }

    /// The elements of a set.
    pub(crate) fn elements(self) -> Option<&'a [Value]>
        ensures { option_map (λ xs. plains xs.now) result ≡ elements_of (seen self.entry) }
    {
        let Subject::Whole(value) = self else {
            return None;
        };
        match &value.node {
            Node::Set(elements) => Some(elements.as_slice()),
            _ => None,
        }
    }

    /// The entries of a dictionary.
    pub(crate) fn entries(self) -> Option<&'a Entries>
        ensures { option_map (λ es. pairs es.now) result ≡ entries_of (seen self.entry) }
    {
        let Subject::Whole(value) = self else {
            return None;
        };
        match &value.node {
            Node::Dict(entries) => Some(entries),
            _ => None,
        }
    }
}

/// The fields of a record; no other value has any.
fn fields_in(value: &Value) -> &[Value]
    ensures { sequence (plains result.now) ≡ in_fields value.now }
{
    match &value.node {
        Node::Rec(rec) => &rec.fields,
        _ => &[],
    }
}

/// Whether both are the same values.
fn are_same(values: &[Value], others: &[Value]) -> bool
    ensures { result ≡ eq_by_cmp orders (plains values.now) (plains others.now) }
{
    let mut left = others;
    for value in values {
        let Some((other, rest)) = left.split_first() else {
            return false;
        };
        if value != other {
            return false;
        }
        left = rest;
    }
    left.is_empty()
}
