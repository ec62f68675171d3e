//! Values made of their parts.
ghost use Rattle.std.specs.Prelude.{◌≡◌, IfOk};
ghost use Rattle.pv_value.specs.Plain.{boolean, double, integer, string, byte_string, symbol};
ghost use Rattle.pv_value.specs.Plain.{record_of, sequence, embedded, plains};

use crate::lists::{fitted, see_all};
use crate::{Blob, Items, NoMemory, Node, Rec, Text, Value};
use std::alloc::Global;
use std::sync::Arc;

impl Value {
    pub fn boolean(b: bool) -> Value
        ensures { result ≡ boolean b }
    {
        Value {
            node: Node::Bool(b),
        }
    }

    /// The double of these 64 bits (IEEE 754, binary64).
    pub fn double(bits: u64) -> Value
        ensures { result ≡ double bits }
    {
        Value {
            node: Node::Double(bits),
        }
    }

    pub fn integer(n: i128) -> Value
        ensures { result ≡ integer n }
    {
        Value { node: Node::Int(n) }
    }

    pub fn string(text: Text) -> Value
        ensures { result ≡ string text }
    {
        let _ = text.as_str();
        Value {
            node: Node::Str(text),
        }
    }

    pub fn byte_string(bytes: Blob) -> Value
        ensures { result ≡ byte_string bytes }
    {
        let _ = bytes.as_slice();
        Value {
            node: Node::Bytes(bytes),
        }
    }

    pub fn symbol(text: Text) -> Value
        ensures { result ≡ symbol text }
    {
        let _ = text.as_str();
        Value {
            node: Node::Sym(text),
        }
    }

    #[inline(always)]
    pub fn record(alloc: Global, label: Value, fields: Vec<Value>) -> Result<Value, NoMemory>
        ensures { IfOk result (λ v. v ≡ record_of label (plains fields.items)) }
    {
        let _ = &label.node;
        see_all(&fields);
        let fields = fitted(fields);
        let rec = Arc::new(alloc, Rec { label, fields })?;
        Ok(Value {
            node: Node::Rec(rec),
        })
    }

    pub fn sequence(items: Items) -> Value
        ensures { result ≡ sequence (plains items) }
    {
        let _ = items.as_slice();
        Value {
            node: Node::Seq(items),
        }
    }

    pub fn embedded(alloc: Global, inside: Value) -> Result<Value, NoMemory>
        ensures { IfOk result (λ v. v ≡ embedded inside) }
    {
        let _ = &inside.node;
        let inside = Arc::new(alloc, inside)?;
        Ok(Value {
            node: Node::Emb(inside),
        })
    }
}
