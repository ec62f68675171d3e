//! Copies of values, which share what is inside with the original: a copy costs one count and takes
//! no memory, but fails where there are as many copies as can be counted.
ghost use Rattle.std.specs.Prelude.{◌≡◌, IfOk};
ghost use Rattle.pv_value.specs.View.{view_node};

use crate::{Blob, Entries, Entry, Items, NoMemory, Node, SetItems, Value};
use std::sync::Arc;

impl Value {
    /// An equal value.
    pub fn copy(&self) -> Result<Value, NoMemory>
        ensures { IfOk result (λ w. w ≡ self.now) }
    {
        let node = copy_node(&self.node)?;
        Ok(Value { node })
    }
}

impl Entry {
    /// An equal entry.
    pub fn copy(&self) -> Result<Entry, NoMemory>
        ensures { IfOk result (λ e. e ≡ self.now) }
    {
        let key = self.key.copy()?;
        let value = self.value.copy()?;
        Ok(Entry { key, value })
    }
}

impl Blob {
    /// Equal bytes.
    pub fn copy(&self) -> Result<Blob, NoMemory>
        ensures { IfOk result (λ b. b ≡ self.now) }
    {
        let bytes = self.bytes.clone()?;
        Ok(Blob { bytes })
    }
}

impl Items {
    /// An equal list.
    pub fn copy(&self) -> Result<Items, NoMemory>
        ensures { IfOk result (λ xs. xs ≡ self.now) }
    {
        let list = Arc::try_clone(&self.list)?;
        Ok(Items { list })
    }
}

impl SetItems {
    /// The elements of the same set.
    pub fn copy(&self) -> Result<SetItems, NoMemory>
        ensures { IfOk result (λ xs. xs ≡ self.now) }
    {
        let list = Arc::try_clone(&self.list)?;
        Ok(SetItems { list })
    }
}

impl Entries {
    /// The entries of the same dictionary.
    pub fn copy(&self) -> Result<Entries, NoMemory>
        ensures { IfOk result (λ ps. ps ≡ self.now) }
    {
        let list = Arc::try_clone(&self.list)?;
        Ok(Entries { list })
    }
}

fn copy_node(node: &Node) -> Result<Node, NoMemory>
    ensures { IfOk result (λ copied. view_node copied ≡ view_node node.now) }
{
    match node {
        Node::Bool(b) => Ok(Node::Bool(*b)),
        Node::Double(bits) => Ok(Node::Double(*bits)),
        Node::Int(n) => Ok(Node::Int(*n)),
        Node::Str(text) => Ok(Node::Str(text.copy()?)),
        Node::Bytes(bytes) => Ok(Node::Bytes(bytes.copy()?)),
        Node::Sym(text) => Ok(Node::Sym(text.copy()?)),
        Node::Rec(rec) => Ok(Node::Rec(Arc::try_clone(rec)?)),
        Node::Seq(items) => Ok(Node::Seq(items.copy()?)),
        Node::Set(set) => Ok(Node::Set(set.copy()?)),
        Node::Dict(entries) => Ok(Node::Dict(entries.copy()?)),
        Node::Emb(inside) => Ok(Node::Emb(Arc::try_clone(inside)?)),
    }
}
