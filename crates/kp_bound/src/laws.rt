//! A law of records.
ghost use Rattle.std.specs.Prelude.{◌≡◌, ℕ, List};
ghost use Rattle.kp_keeper.specs.declared.records.Record.{Record};
ghost use Rattle.gk_sturdy.specs.declared.bound.Binding.{Binding};
ghost use Rattle.kp_bound.specs.Spelled.{IsFirstBad};
ghost use Rattle.kp_bound.specs.Bound.{AreBindingsOf};

use pv_canon::canonical_is_exact;

/// Records have one list of bindings at most, and none where one of them is bad.
pub fn records_have_one_reading()
    ensures one { (rs : List Record) (bs cs : List Binding)
        → AreBindingsOf rs bs → AreBindingsOf rs cs → bs ≡ cs }
    ensures or_bad { (rs : List Record) (bs : List Binding) (n : ℕ)
        → AreBindingsOf rs bs → IsFirstBad rs n → ⊥ }
{
    canonical_is_exact();
}
