//! Values of the Preserves data model: plain data of eleven kinds, their total order, how deep they
//! nest and how much they weigh.
//!
//! Contracts see a [`Value`] as the data `Plain` of `specs/Plain.antt`, and the small lists as
//! lists of it.
//!
//! A value never changes once it is made, and what is inside is shared: a copy costs one count,
//! whatever the value's size.
//!
//! What makes records, lists and texts has the hint `inline(always)`: a reader makes one of each
//! few bytes, and by a call their parts move through memory.
#![tactic(auto)]

mod appending;
mod copying;
mod lists;
mod making;
mod nesting;
mod order;
mod sets;
mod sorting;
mod texts;
mod weighing;

pub use appending::{push_byte, push_bytes};
pub use nesting::depth;
pub use order::{compare, order_is_total};
pub use sets::SetFault;
use std::alloc::{AllocError, AllocFailed};
use std::marker::Model;
use std::sync::{Arc, ArcSlice, ArcStr};
use thiserror::Error;
pub use weighing::{canonical_size, weight};

/// Memory ran out.
#[derive(Debug, Drop, Error)]
#[error("out of memory")]
pub struct NoMemory;

impl From<AllocError> for NoMemory {
    fn from(_: AllocError) -> NoMemory {
        NoMemory
    }
}

impl<T: Drop> From<AllocFailed<T>> for NoMemory {
    fn from(_: AllocFailed<T>) -> NoMemory {
        NoMemory
    }
}

/// A value, which keeps at every level that sets and dictionaries ascend strictly, that text is
/// UTF-8 and that lengths and numbers are such as every spelling needs.
///
/// Match on `&value.node` to look inside.
#[cycle(value)]
#[derive(Drop)]
pub struct Value {
    pub node: Node,
}

/// The kinds of values, in their order (Preserves specification, section "Total order").
#[cycle(value)]
#[derive(Drop)]
pub enum Node {
    Bool(bool),
    /// The 64 bits of an IEEE 754 double; no arithmetic is done on it.
    Double(u64),
    Int(i128),
    Str(Text),
    Bytes(Blob),
    Sym(Text),
    Rec(Arc<Rec>),
    Seq(Items),
    Set(SetItems),
    Dict(Entries),
    /// An embedded value, as the value inside it.
    Emb(Arc<Value>),
}

/// A label and the fields behind it.
#[cycle(value)]
#[derive(Drop)]
pub struct Rec {
    pub label: Value,
    pub fields: Vec<Value>,
}

/// A key and its value.
#[cycle(value)]
#[derive(Drop)]
pub struct Entry {
    pub key: Value,
    pub value: Value,
}

/// UTF-8 text, as its bytes. Short text stands in place, and copies share longer text.
#[derive(Drop)]
pub struct Text {
    kept: Kept,
}

/// Where the bytes of a text are.
#[derive(Drop)]
enum Kept {
    /// How many there are, and these, with zeros behind them.
    Short(u8, [u8; SHORT]),
    Long(ArcStr),
}

/// The most bytes of a text that stands in place.
const SHORT: usize = 22;

/// Bytes, which copies share.
#[derive(Drop)]
pub struct Blob {
    bytes: ArcSlice<u8>,
}

/// A list of values, which copies share.
#[cycle(value)]
#[derive(Drop)]
pub struct Items {
    list: Arc<Vec<Value>>,
}

/// The elements of a set, each once, in ascending order, which copies share.
#[cycle(value)]
#[derive(Drop)]
pub struct SetItems {
    list: Arc<Vec<Value>>,
}

/// The entries of a dictionary, each key once, in ascending order of the keys, which copies share.
#[cycle(value)]
#[derive(Drop)]
pub struct Entries {
    list: Arc<Vec<Entry>>,
}

impl Model for Text {
    ghost use Rattle.std.specs.Prelude.{List, ℕ};
    ghost use Rattle.std.specs.Coded.{coded_list, coded_ℕ};

    ghost Value = { List ℕ };

    ghost coded = { coded_list coded_ℕ };

    ghost use Rattle.pv_value.specs.Kept.{kept_bytes, IsKept};

    ghost view = { λ a. kept_bytes a.kept };

    ghost invariant = { λ a. IsKept a.kept };
}

impl Model for Blob {
    ghost use Rattle.std.specs.Prelude.{List, ℕ};
    ghost use Rattle.std.specs.Arc.{arc_slice_items};

    ghost Value = { List ℕ };

    ghost view = { λ a. arc_slice_items a.bytes };
}

impl Model for Value {
    ghost use Rattle.pv_value.specs.Plain.{Plain};
    ghost use Rattle.pv_value.specs.Lemmas.Measures.{measure};
    ghost use Rattle.pv_value.specs.Lemmas.Coded.{plain_code};

    ghost Value = { Plain };

    ghost coded = { plain_code };

    ghost use Rattle.pv_value.specs.View.{view_node};
    ghost use Rattle.pv_value.specs.WellFormed.{IsWellFormed};

    ghost view = { λ a. view_node a.node };

    ghost invariant = { λ a. IsWellFormed (view_node a.node) };

    ghost size = { measure };

    ghost use Rattle.pv_value.specs.Lemmas.Falls.{falls};

    ghost size_decreases = { λ a h. falls a.node };
}

impl Model for Items {
    ghost use Rattle.std.specs.Prelude.{List};
    ghost use Rattle.std.specs.Coded.{coded_list};
    ghost use Rattle.pv_value.specs.Plain.{Plain, plains};
    ghost use Rattle.pv_value.specs.Lemmas.Measures.{measure_all};
    ghost use Rattle.pv_value.specs.Lemmas.Coded.{plain_code};
    ghost use Rattle.pv_value.specs.WellFormed.{AreWellFormed};

    ghost Value = { List Plain };

    ghost coded = { coded_list plain_code };

    ghost view = { λ a. a.list.value.items };

    ghost invariant = { λ a. AreWellFormed (plains a.list.value.items) };

    ghost size = { λ xs. measure_all (plains xs) };

    ghost use Rattle.std.proofs.Common.{arith};
    ghost use Rattle.pv_value.specs.Lemmas.Falls.{most-items};

    ghost size_decreases = { λ a h. Prim.omega (arith, most-items a.list.value.items) };
}

impl Model for SetItems {
    ghost use Rattle.std.specs.Prelude.{List};
    ghost use Rattle.std.specs.Coded.{coded_list};
    ghost use Rattle.pv_value.specs.Plain.{Plain, plains};
    ghost use Rattle.pv_value.specs.Lemmas.Measures.{measure_all};
    ghost use Rattle.pv_value.specs.Lemmas.Coded.{plain_code};
    ghost use Rattle.pv_value.specs.WellFormed.{IsWellFormedSet};

    ghost Value = { List Plain };

    ghost coded = { coded_list plain_code };

    ghost view = { λ a. a.list.value.items };

    ghost invariant = { λ a. IsWellFormedSet (plains a.list.value.items) };

    ghost size = { λ xs. measure_all (plains xs) };

    ghost use Rattle.std.proofs.Common.{arith};
    ghost use Rattle.pv_value.specs.Lemmas.Falls.{most-items};

    ghost size_decreases = { λ a h. Prim.omega (arith, most-items a.list.value.items) };
}

impl Model for Entries {
    ghost use Rattle.std.specs.Prelude.{List, map};
    ghost use Rattle.std.specs.Coded.{coded_list, coded×};
    ghost use Rattle.pv_value.specs.Plain.{Plain, pairs};
    ghost use Rattle.pv_value.specs.Lemmas.Measures.{measure_pairs};
    ghost use Rattle.pv_value.specs.Lemmas.Coded.{plain_code};
    ghost use Rattle.pv_value.specs.WellFormed.{IsWellFormedDictionary};

    ghost Value = { List (Plain × Plain) };

    ghost coded = { coded_list (coded× plain_code plain_code) };

    ghost use Rattle.pv_value.specs.View.{key_and_value};

    ghost view = { λ a. map key_and_value a.list.value.items };

    ghost invariant = { λ a.
        IsWellFormedDictionary (pairs (map key_and_value a.list.value.items)) };

    ghost size = { λ ps. measure_pairs (pairs ps) };

    ghost use Rattle.std.proofs.Common.{arith};
    ghost use Rattle.pv_value.specs.Lemmas.Falls.{most-entries};

    ghost size_decreases = { λ a h. Prim.omega (arith, most-entries a.list.value.items) };
}
