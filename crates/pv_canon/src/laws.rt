//! Laws of the canonical form.
ghost use Rattle.std.specs.Prelude.{◌≡◌, ◌+◌, ◌*◌, length};
ghost use Rattle.pv_value.specs.Plain.{Plain};
ghost use Rattle.pv_value.specs.Weight.{canonical_size, weight, node_count};
ghost use Rattle.pv_value.specs.WellFormed.{IsWellFormed};
ghost use Rattle.pv_binary.specs.Spells.{Spells};
ghost use Rattle.pv_binary.specs.Written.{written};
ghost use Rattle.pv_canon.specs.Canonical.{canonical};

use pv_binary::spellings_are_unique;

/// No two values have one canonical form, which is a spelling as long as the written one.
pub fn canonical_is_exact()
    ensures spells { (v : Plain) → IsWellFormed v → Spells (canonical v) v }
    ensures exact { (v w : Plain) → IsWellFormed v → IsWellFormed w → canonical v ≡ canonical w
        → v ≡ w }
    ensures length { (v : Plain) → length (canonical v) ≡ length (written v) }
    ensures size { (v : Plain) → IsWellFormed v → length (canonical v) ≡ canonical_size v }
{
    spellings_are_unique();
}

/// A value weighs the length of its canonical form, and 48 for each node.
pub fn weight_counts_nodes()
    ensures { (v : Plain) → IsWellFormed v → weight v ≡ length (canonical v) + 48 * node_count v }
{}
