//! Exports with their marks: a pin, and how many notes mention each.
ghost use Rattle.std.specs.Prelude.{◌≡◌, ◌+◌, ◌^◌, ◌<◌, ◌≤◌, map, IfSome};
ghost use Rattle.std.specs.BTreeMap.{is_at, IsOrdered};
ghost use Rattle.std.specs.Map.{lookup};
ghost use Rattle.std.specs.Ordering.{nat_cmp};
ghost use Rattle.std.specs.List.{AllByRecursion};
ghost use Rattle.rl_ports.specs.Kept.{at_number, at_numbers, raised, lowered, with_pin, times};

use crate::reading::ReadReference;
use std::collections::BTreeMap;

/// An export, whether it is pinned, and how many notes mention it.
#[derive(Drop)]
pub(crate) struct Export {
    pub(crate) reference: ReadReference,
    pub(crate) pinned: bool,
    pub(crate) mentions: u64,
}

/// A note more mentions the export of this number, where there is one.
fn raise_one(kept: &mut BTreeMap<u64, Export>, number: u64)
    requires { IfSome (lookup (is_at (nat_cmp number)) kept.old.entries)
        (λ e. e.mentions + 1 < 2 ^ 64) }
    ensures { kept.new.entries ≡ map (at_number raised number) kept.old.entries }
{
    if let Some(export) = kept.get_mut(&number) {
        export.mentions += 1;
    }
}

/// A note more mentions each of these.
pub(crate) fn raise(kept: &mut BTreeMap<u64, Export>, numbers: &[u64])
    requires { AllByRecursion (λ e. e.1.mentions + times e.0 numbers.now < 2 ^ 64)
        kept.old.entries }
    ensures { kept.new.entries ≡ at_numbers raised numbers.now kept.old.entries }
{
    for number in numbers {
        raise_one(kept, *number);
    }
}

/// A note less mentions the export of this number, where there is one.
fn lower_one(kept: &mut BTreeMap<u64, Export>, number: u64)
    requires { IfSome (lookup (is_at (nat_cmp number)) kept.old.entries) (λ e. 1 ≤ e.mentions) }
    ensures { kept.new.entries ≡ map (at_number lowered number) kept.old.entries }
{
    if let Some(export) = kept.get_mut(&number) {
        export.mentions -= 1;
    }
}

/// A note less mentions each of these.
pub(crate) fn lower(kept: &mut BTreeMap<u64, Export>, numbers: &[u64])
    requires { AllByRecursion (λ e. times e.0 numbers.now ≤ e.1.mentions) kept.old.entries }
    ensures { kept.new.entries ≡ at_numbers lowered numbers.now kept.old.entries }
{
    for number in numbers {
        lower_one(kept, *number);
    }
}

/// The export of this number is pinned, where there is one.
fn pin_one(kept: &mut BTreeMap<u64, Export>, number: u64)
    ensures { kept.new.entries ≡ map (at_number with_pin number) kept.old.entries }
{
    if let Some(export) = kept.get_mut(&number) {
        export.pinned = true;
    }
}

/// Each of these is pinned.
pub(crate) fn pin(kept: &mut BTreeMap<u64, Export>, numbers: &[u64])
    ensures { kept.new.entries ≡ at_numbers with_pin numbers.now kept.old.entries }
{
    for number in numbers {
        pin_one(kept, *number);
    }
}
