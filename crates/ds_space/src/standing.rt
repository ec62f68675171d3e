//! What stands in a row: a value, which is read as an observation once.
ghost use Rattle.std.specs.Prelude.{◌≡◌, IfOk, option_map, option_copied};
ghost use Rattle.ds_space.specs.Wants.{observer_of};

use crate::observing::observer_of;
use dp_pattern::DPat;
use pv_value::{NoMemory, Value, compare};
use std::alloc::Global;
use std::cmp::Ordering;
use std::marker::Model;
use std::sync::Arc;

/// The value of a row, and its pattern where it is an observation.
///
/// Contracts see the value alone: the pattern is that of the value.
#[derive(Drop)]
pub(crate) struct Standing {
    value: Value,
    pattern: Option<Arc<DPat>>,
}

impl Model for Standing {
    ghost use Rattle.std.specs.Prelude.{◌≡◌, option_map};
    ghost use Rattle.pv_value.specs.Plain.{Plain};
    ghost use Rattle.pv_value.specs.Lemmas.Coded.{plain_code};
    ghost use Rattle.ds_space.specs.Wants.{observer_of};

    ghost Value = { Plain };

    ghost coded = { plain_code };

    ghost view = { λ s. s.value };

    ghost invariant = { λ s. option_map (λ p. p.value) s.pattern ≡ observer_of s.value };
}

/// The pattern, which copies share.
fn shared(alloc: Global, pattern: Option<DPat>) -> Result<Option<Arc<DPat>>, NoMemory>
    ensures { IfOk result (λ p. option_map (λ q. q.value) p ≡ pattern) }
{
    match pattern {
        Some(pattern) => Ok(Some(Arc::new(alloc, pattern)?)),
        None => Ok(None),
    }
}

/// The same pattern, shared.
fn copied(pattern: &Option<Arc<DPat>>) -> Result<Option<Arc<DPat>>, NoMemory>
    ensures { IfOk result (λ p. option_map (λ q. q.value) p
        ≡ option_map (λ q. q.value) pattern.now) }
{
    match pattern {
        Some(pattern) => Ok(Some(Arc::try_clone(pattern)?)),
        None => Ok(None),
    }
}

impl Standing {
    /// What stands in a row of this value. For want of memory the value is gone.
    pub(crate) fn new(alloc: Global, value: Value) -> Result<Standing, NoMemory>
        ensures { IfOk result (λ s. s ≡ value) }
    {
        let pattern = observer_of(alloc, &value)?;
        let pattern = shared(alloc, pattern)?;
        Ok(Standing { value, pattern })
    }

    pub(crate) fn value(&self) -> &Value
        ensures { result.now ≡ self.now }
    {
        &self.value
    }

    /// The pattern, where the value is an observation.
    pub(crate) fn pattern(&self) -> Option<&DPat>
        ensures { option_copied result ≡ observer_of self.now }
    {
        match &self.pattern {
            Some(pattern) => Some(&**pattern),
            None => None,
        }
    }

    /// An equal one.
    pub(crate) fn copy(&self) -> Result<Standing, NoMemory>
        ensures { IfOk result (λ s. s ≡ self.now) }
    {
        let value = self.value.copy()?;
        let pattern = copied(&self.pattern)?;
        Ok(Standing { value, pattern })
    }

    pub(crate) fn into_value(self) -> Value
        ensures { result ≡ self }
    {
        let Standing { value, .. } = self;
        value
    }
}

impl PartialEq for Standing {
    ghost use Rattle.std.specs.Ordering.{eq_by_cmp};
    ghost use Rattle.std.specs.Cmp.{partial_equiv_from_equiv, eq_by_cmp_equiv};
    ghost use Rattle.pv_value.specs.Order.{order};
    ghost use Rattle.pv_value.specs.Lemmas.OrderLaws.{order_total};

    ghost eq = { eq_by_cmp order };

    ghost laws = { partial_equiv_from_equiv (eq_by_cmp_equiv order_total) };

    fn eq(&self, other: &Standing) -> bool {
        compare(&self.value, &other.value).is_eq()
    }
}

impl Eq for Standing {
    ghost use Rattle.std.specs.Cmp.{eq_by_cmp_equiv};
    ghost use Rattle.pv_value.specs.Lemmas.OrderLaws.{order_total};

    ghost laws = { eq_by_cmp_equiv order_total };
}

impl PartialOrd for Standing {
    ghost use Rattle.std.specs.Prelude.{refl};
    ghost use Rattle.std.specs.Ordering.{as_partial_cmp};
    ghost use Rattle.std.specs.Cmp.{partial_order_from_agreeing_total};
    ghost use Rattle.pv_value.specs.Order.{order};
    ghost use Rattle.pv_value.specs.Lemmas.OrderLaws.{order_total};

    ghost partial_cmp = { as_partial_cmp order };

    ghost laws = { partial_order_from_agreeing_total order order_total (λ x y. refl)
        (λ x y. refl) };

    fn partial_cmp(&self, other: &Standing) -> Option<Ordering> {
        Some(compare(&self.value, &other.value))
    }
}

impl Ord for Standing {
    ghost use Rattle.std.specs.Prelude.{refl};
    ghost use Rattle.pv_value.specs.Order.{order};
    ghost use Rattle.pv_value.specs.Lemmas.OrderLaws.{order_total};

    ghost cmp = { order };

    ghost total = { order_total };

    ghost matches_partial_cmp = { λ x y. refl };

    ghost matches_eq = { λ x y. refl };

    fn cmp(&self, other: &Standing) -> Ordering {
        compare(&self.value, &other.value)
    }
}
