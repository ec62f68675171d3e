//! How much symbols, compounds and keys weigh.
ghost use Rattle.std.specs.Prelude.{◌≡◌, ◌+◌, ◌-◌, ◌^◌, min, map};
ghost use Rattle.pv_value.specs.Depth.{deepest};
ghost use Rattle.pv_value.specs.Plain.{symbol};
ghost use Rattle.pv_value.specs.View.{key_and_value};
ghost use Rattle.pv_value.specs.Weight.{count_size, counted_size, size_with, sizes_with};
ghost use Rattle.sr_caveat.specs.Spelled.{kind_name};
ghost use Rattle.sr_caveat.specs.View.{keys_of};

use pv_value::{Entry, depth, weight};
use pv_words::AtomKind;
use sr_caveat::Kind;

/// What each node weighs beside its bytes.
const NODE_WEIGHT: u64 = 48;

/// What a compound weighs beside what is in it.
const COMPOUND_WEIGHT: u64 = 50;

/// The weight of `<word ..>` whose fields weigh so much.
pub(crate) fn labelled_weight(word: &str, fields: u64) -> u64
    ensures { result ≡ min (50 + size_with 48 (symbol word.now) + fields) (2 ^ 64 - 1) }
{
    let label = symbol_weight(word.len() as u64);
    list_weight(label.saturating_add(fields))
}

/// The weight of a sequence, or of a dictionary, in which so much stands.
pub(crate) fn list_weight(inside: u64) -> u64
    ensures { result ≡ min (50 + inside) (2 ^ 64 - 1) }
{
    inside.saturating_add(COMPOUND_WEIGHT)
}

/// The weight of the symbol that names a kind.
pub(crate) fn kind_weight(kind: Kind) -> u64
    ensures { result ≡ min (size_with 48 (symbol (kind_name kind))) (2 ^ 64 - 1) }
{
    let name = match kind {
        Kind::Atom(AtomKind::Boolean) => "Boolean",
        Kind::Atom(AtomKind::Double) => "Double",
        Kind::Atom(AtomKind::SignedInteger) => "SignedInteger",
        Kind::Atom(AtomKind::String) => "String",
        Kind::Atom(AtomKind::ByteString) => "ByteString",
        Kind::Atom(AtomKind::Symbol) => "Symbol",
        Kind::Embedded => "Embedded",
    };
    symbol_weight(name.len() as u64)
}

/// The weight of a symbol of so many bytes: itself, a tag, the count, and the bytes.
pub(crate) fn symbol_weight(bytes: u64) -> u64
    ensures { result ≡ min (48 + counted_size bytes) (2 ^ 64 - 1) }
{
    count_size(bytes)
        .saturating_add(bytes)
        .saturating_add(NODE_WEIGHT + 1)
}

/// How many bytes of seven bits a number needs.
fn count_size(n: u64) -> u64
    ensures { result ≡ min (count_size n) (2 ^ 64 - 1) }
{
    if n < 128 {
        return 1;
    }
    count_size(n / 128).saturating_add(1)
}

/// The weight of the entries' keys.
#[tactic(auto, unfolding(pv_value::specs::Weight::weight))]
pub fn weight_of_keys(entries: &[Entry]) -> u64
    ensures { result ≡ min (sizes_with 48 (keys_of (map key_and_value entries.now))) (2 ^ 64 - 1) }
{
    let mut total: u64 = 0;
    for e in entries {
        total = total.saturating_add(weight(&e.key));
    }
    total
}

/// How deep the deepest of the entries' keys nests.
pub fn depth_of_keys(entries: &[Entry]) -> u32
    ensures { result ≡ min (deepest (keys_of (map key_and_value entries.now))) (2 ^ 32 - 1) }
{
    let mut deepest: u32 = 0;
    for e in entries {
        deepest = deepest.max(depth(&e.key));
    }
    deepest
}
