//! Values with their marks, and their order.
ghost use Rattle.std.specs.Prelude.{◌≡◌, IfOk};
ghost use Rattle.std.specs.Cmp.{IsTotalOrder};
ghost use Rattle.std.specs.declared.cmp.Ordering.TheVariants.{Equal};
ghost use Rattle.pv_value.specs.Plain.{Plain};
ghost use Rattle.pv_marks.specs.MarkedOrder.{marked_order};

use crate::marking::mark;
use pv_value::{NoMemory, Value, compare};
use std::cmp::Ordering;
use std::marker::Model;

/// A value with its mark.
#[derive(Drop)]
pub struct Marked {
    mark: u64,
    value: Value,
}

impl Model for Marked {
    ghost use Rattle.pv_value.specs.Plain.{Plain};
    ghost use Rattle.pv_value.specs.Lemmas.Coded.{plain_code};

    ghost Value = { Plain };

    ghost coded = { plain_code };

    ghost use Rattle.pv_marks.specs.Marks.{IsMarkOf};

    ghost view = { λ a. a.value };

    ghost invariant = { λ a. IsMarkOf a.mark a.value };
}

impl Marked {
    /// The same value, with its mark. It takes no memory, but fails where there are as many copies
    /// as can be counted.
    pub fn of(value: &Value) -> Result<Marked, NoMemory>
        ensures { IfOk result (λ m. m ≡ value.now) }
    {
        let mark = mark(value);
        let value = value.copy()?;
        Ok(Marked { mark, value })
    }

    pub fn value(&self) -> &Value
        ensures { result.now ≡ self.now }
    {
        &self.value
    }
}

/// How a value stands to another by their marks: where these differ, nothing else is looked at.
fn compare_marked(a: &Marked, b: &Marked) -> Ordering
    ensures { result ≡ marked_order a.now b.now }
{
    if a.mark != b.mark {
        return a.mark.cmp(&b.mark);
    }
    compare(&a.value, &b.value)
}

/// The order by marks is total, and only a value itself is equal to it.
pub fn marked_order_is_total()
    ensures total { IsTotalOrder marked_order }
    ensures same { (x y : Plain) → marked_order x y ≡ Equal → x ≡ y }
{}

impl PartialEq for Marked {
    ghost use Rattle.std.specs.Ordering.{eq_by_cmp};
    ghost use Rattle.std.specs.Cmp.{partial_equiv_from_equiv, eq_by_cmp_equiv};
    ghost use Rattle.pv_marks.specs.MarkedOrder.{marked_order};
    ghost use Rattle.pv_marks.specs.Lemmas.MarkedOrderLaws.{marked_order_total};

    ghost eq = { eq_by_cmp marked_order };

    ghost laws = { partial_equiv_from_equiv (eq_by_cmp_equiv marked_order_total) };

    fn eq(&self, other: &Marked) -> bool {
        compare_marked(self, other).is_eq()
    }
}

impl Eq for Marked {
    ghost use Rattle.std.specs.Cmp.{eq_by_cmp_equiv};
    ghost use Rattle.pv_marks.specs.Lemmas.MarkedOrderLaws.{marked_order_total};

    ghost laws = { eq_by_cmp_equiv marked_order_total };
}

impl PartialOrd for Marked {
    ghost use Rattle.std.specs.Prelude.{refl};
    ghost use Rattle.std.specs.Ordering.{as_partial_cmp};
    ghost use Rattle.std.specs.Cmp.{partial_order_from_agreeing_total};
    ghost use Rattle.pv_marks.specs.MarkedOrder.{marked_order};
    ghost use Rattle.pv_marks.specs.Lemmas.MarkedOrderLaws.{marked_order_total};

    ghost partial_cmp = { as_partial_cmp marked_order };

    ghost laws = { partial_order_from_agreeing_total marked_order marked_order_total (λ x y. refl)
        (λ x y. refl) };

    fn partial_cmp(&self, other: &Marked) -> Option<Ordering> {
        Some(compare_marked(self, other))
    }
}

impl Ord for Marked {
    ghost use Rattle.std.specs.Prelude.{refl};
    ghost use Rattle.pv_marks.specs.MarkedOrder.{marked_order};
    ghost use Rattle.pv_marks.specs.Lemmas.MarkedOrderLaws.{marked_order_total};

    ghost cmp = { marked_order };

    ghost total = { marked_order_total };

    ghost matches_partial_cmp = { λ x y. refl };

    ghost matches_eq = { λ x y. refl };

    fn cmp(&self, other: &Marked) -> Ordering {
        compare_marked(self, other)
    }
}
