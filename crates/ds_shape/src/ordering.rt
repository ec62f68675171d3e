//! Outlines in the order of their values, which are not made for it.
ghost use Rattle.std.specs.Prelude.{◌≡◌, map};
ghost use Rattle.std.specs.Ordering.{nat_cmp};
ghost use Rattle.pv_value.specs.Order.{order, orders};
ghost use Rattle.pv_value.specs.Plain.{plains};
ghost use Rattle.dp_pattern.specs.declared.Group.TheVariants.{InRecord};
ghost use Rattle.ds_shape.specs.Keys.{step_value, path_value, extent_value, group_value};
ghost use Rattle.ds_shape.specs.Keys.{kind_value, test_value, outline_order};

use crate::outlines::{Kind, Outline, Test};
use crate::paths::{Path, Step};
use dp_pattern::{Extent, Group};
use pv_value::Value;
use std::cmp::Ordering;

fn compare_outlines(a: &Outline, b: &Outline) -> Ordering
    ensures { result ≡ outline_order a.now b.now }
{
    let by_tests = compare_all_tests(&a.tests, &b.tests);
    if by_tests.is_ne() {
        return by_tests;
    }
    let by_constants = compare_all_paths(&a.constants, &b.constants);
    if by_constants.is_ne() {
        return by_constants;
    }
    compare_all_paths(&a.captures, &b.captures)
}

fn compare_all_tests(a: &[Test], b: &[Test]) -> Ordering
    ensures { result ≡ orders (plains (map test_value a.now)) (plains (map test_value b.now)) }
{
    for i in 0..a.len().min(b.len()) {
        let by_first = compare_tests(&a[i], &b[i]);
        if by_first.is_ne() {
            return by_first;
        }
    }
    a.len().cmp(&b.len())
}

fn compare_all_paths(a: &[Path], b: &[Path]) -> Ordering
    ensures { result ≡ orders (plains (map path_value a.now)) (plains (map path_value b.now)) }
{
    for i in 0..a.len().min(b.len()) {
        let by_first = compare_paths(&a[i], &b[i]);
        if by_first.is_ne() {
            return by_first;
        }
    }
    a.len().cmp(&b.len())
}

/// By the path, and then by the kind.
fn compare_tests(a: &Test, b: &Test) -> Ordering
    ensures { result ≡ order (test_value a.now) (test_value b.now) }
{
    let by_path = compare_paths(&a.path, &b.path);
    if by_path.is_ne() {
        return by_path;
    }
    compare_kinds(&a.kind, &b.kind)
}

fn compare_paths(a: &Path, b: &Path) -> Ordering
    ensures { result ≡ order (path_value a.now) (path_value b.now) }
{
    compare_all_steps(a.as_slice(), b.as_slice())
}

fn compare_all_steps(a: &[Step], b: &[Step]) -> Ordering
    ensures { result ≡ orders (plains (map step_value a.now)) (plains (map step_value b.now)) }
{
    for i in 0..a.len().min(b.len()) {
        let by_first = compare_steps(&a[i], &b[i]);
        if by_first.is_ne() {
            return by_first;
        }
    }
    a.len().cmp(&b.len())
}

/// Fields come first, then items, then what is under keys.
fn compare_steps(a: &Step, b: &Step) -> Ordering
    ensures { result ≡ order (step_value a.now) (step_value b.now) }
{
    match (a, b) {
        (Step::Field(x), Step::Field(y)) => x.cmp(y),
        (Step::Item(x), Step::Item(y)) => x.cmp(y),
        (Step::Under(x), Step::Under(y)) => x.cmp(y),
        (Step::Field(_), _) | (Step::Item(_), Step::Under(_)) => Ordering::Less,
        (Step::Item(_) | Step::Under(_), _) => Ordering::Greater,
    }
}

/// In the order of the words: `any` comes before those of groups.
fn compare_kinds(a: &Kind, b: &Kind) -> Ordering
    ensures { result ≡ order (kind_value a.now) (kind_value b.now) }
{
    match (a, b) {
        (Kind::Any, Kind::Any) => Ordering::Equal,
        (Kind::Any, Kind::Of(_)) => Ordering::Less,
        (Kind::Of(_), Kind::Any) => Ordering::Greater,
        (Kind::Of(g), Kind::Of(h)) => compare_groups(g, h),
    }
}

/// In the order of the words: `arr`, `dict`, `rec`.
fn compare_groups(a: &Group, b: &Group) -> Ordering
    ensures { result ≡ order (group_value a.now) (group_value b.now) }
{
    match (a, b) {
        (Group::InSequence(d), Group::InSequence(e)) => compare_extents(*d, *e),
        (Group::InDictionary, Group::InDictionary) => Ordering::Equal,
        (Group::InRecord(x, d), Group::InRecord(y, e)) => compare_records(x, *d, y, *e),
        (_, Group::InRecord(_, _)) | (Group::InSequence(_), Group::InDictionary) => Ordering::Less,
        _ => Ordering::Greater,
    }
}

/// By label, then by extent.
fn compare_records(x: &Value, d: Extent, y: &Value, e: Extent) -> Ordering
    ensures { result ≡ order (group_value (InRecord x.now d)) (group_value (InRecord y.now e)) }
{
    let by_label = x.cmp(y);
    if by_label.is_ne() {
        return by_label;
    }
    compare_extents(d, e)
}

/// Any number first, then by number.
fn compare_extents(d: Extent, e: Extent) -> Ordering
    ensures { result ≡ order (extent_value d) (extent_value e) }
{
    match (d, e) {
        (Extent::Open, Extent::Open) => Ordering::Equal,
        (Extent::Open, Extent::Exactly(_)) => Ordering::Less,
        (Extent::Exactly(_), Extent::Open) => Ordering::Greater,
        (Extent::Exactly(n), Extent::Exactly(m)) => n.cmp(&m),
    }
}

impl PartialEq for Outline {
    ghost use Rattle.std.specs.Ordering.{eq_by_cmp};
    ghost use Rattle.std.specs.Cmp.{partial_equiv_from_equiv, eq_by_cmp_equiv};
    ghost use Rattle.ds_shape.specs.Keys.{outline_order};
    ghost use Rattle.ds_shape.specs.Lemmas.Telling.{outline_order_total};

    ghost eq = { eq_by_cmp outline_order };

    ghost laws = { partial_equiv_from_equiv (eq_by_cmp_equiv outline_order_total) };

    fn eq(&self, other: &Outline) -> bool {
        compare_outlines(self, other).is_eq()
    }
}

impl Eq for Outline {
    ghost use Rattle.std.specs.Cmp.{eq_by_cmp_equiv};
    ghost use Rattle.ds_shape.specs.Lemmas.Telling.{outline_order_total};

    ghost laws = { eq_by_cmp_equiv outline_order_total };
}

impl PartialOrd for Outline {
    ghost use Rattle.std.specs.Prelude.{refl};
    ghost use Rattle.std.specs.Ordering.{as_partial_cmp};
    ghost use Rattle.std.specs.Cmp.{partial_order_from_agreeing_total};
    ghost use Rattle.ds_shape.specs.Keys.{outline_order};
    ghost use Rattle.ds_shape.specs.Lemmas.Telling.{outline_order_total};

    ghost partial_cmp = { as_partial_cmp outline_order };

    ghost laws = { partial_order_from_agreeing_total outline_order outline_order_total
        (λ x y. refl) (λ x y. refl) };

    fn partial_cmp(&self, other: &Outline) -> Option<Ordering> {
        Some(compare_outlines(self, other))
    }
}

impl Ord for Outline {
    ghost use Rattle.std.specs.Prelude.{refl};
    ghost use Rattle.ds_shape.specs.Keys.{outline_order};
    ghost use Rattle.ds_shape.specs.Lemmas.Telling.{outline_order_total};

    ghost cmp = { outline_order };

    ghost total = { outline_order_total };

    ghost matches_partial_cmp = { λ x y. refl };

    ghost matches_eq = { λ x y. refl };

    fn cmp(&self, other: &Outline) -> Ordering {
        compare_outlines(self, other)
    }
}
