//! Exports by number, and the number of each.
ghost use Rattle.std.specs.Prelude.{◌≡◌, ◌+◌, ◌-◌, ◌<◌, ◌≤◌, ◌==◌, ◌^◌, [], ◌∷◌, ◌++◌, length};
ghost use Rattle.std.specs.Prelude.{cond, false, true, nat_le, nat_lt, filter};
ghost use Rattle.std.specs.Prelude.{None, Some, IfOk, IfErr, OnOk, OnErr};
ghost use Rattle.std.specs.BTreeMap.{is_at, insert_entry, IsOrdered};
ghost use Rattle.std.specs.Map.{lookup, remove_entry, values_of};
ghost use Rattle.std.specs.Ordering.{nat_cmp};
ghost use Rattle.std.specs.List.{AllByRecursion, list_any};
ghost use Rattle.std.specs.Option.{option_copied};
ghost use Rattle.pv_value.specs.Plain.{Plain};
ghost use Rattle.pv_value.specs.Order.{order};
ghost use Rattle.pv_value.specs.Weight.{weight};
ghost use Rattle.rl_ports.specs.Limits.{most_exports};
ghost use Rattle.rl_ports.specs.Ports.{place_of, export_fault, IsWhy, AreNumbered};
ghost use Rattle.rl_ports.specs.Ports.{has_number, told};
ghost use Rattle.rl_ports.specs.Kept.{number_at, fault_of, shown, table_of, new_export, times};
ghost use Rattle.rl_ports.specs.Kept.{at_numbers, raised, lowered, with_pin, released_where};
ghost use Rattle.rl_ports.specs.Kept.{is_idle, is_idle_where};

use crate::marking::{Export, lower, pin, raise};
use crate::oids::Oids;
use crate::ports::{EXPORTS, EXPORTS_WEIGHT, PortsFault};
use crate::reading::ReadReference;
use pv_value::{NoMemory, Value, weight};
use std::alloc::Global;
use std::collections::BTreeMap;
use std::marker::Model;

/// No export has this number or a greater one, so that each number can stand in a value.
const NO_NUMBER: u64 = (1 << 63) - 1;

/// Exports by their numbers, one for each reference.
#[derive(Drop)]
pub(crate) struct ExportList {
    kept: BTreeMap<u64, Export>,
    numbers: BTreeMap<Value, u64>,
    next: u64,
    weight: u64,
}

impl Model for ExportList {
    ghost use Rattle.std.specs.Coded.{codes};
    ghost use Rattle.pv_value.specs.Lemmas.Coded.{plain_code};
    ghost use Rattle.rl_ports.specs.Kept.{Listed, table_of, IsKept, IsFirstPinned};

    ghost Value = { Listed };

    ghost coded = { Prim.hlevel (codes, plain_code) };

    ghost view = { λ e. record { kept = e.kept.entries; next = e.next } };

    ghost invariant = { λ e. IsKept (table_of (record { kept = e.kept.entries; next = e.next }))
        e.numbers.entries e.weight × IsFirstPinned e.kept.entries };
}

impl ExportList {
    /// Export 0 is that reference, whatever it weighs, and is pinned.
    pub(crate) fn new(alloc: Global, first: Value) -> Result<ExportList, NoMemory>
        ensures { IfOk result
            (λ e. e ≡ record { kept = (0, new_export true first) ∷ []; next = 1 }) }
    {
        let weight = weight(&first);
        let reference = ReadReference::new(alloc, first)?;
        let mut kept = BTreeMap::new(alloc);
        let mut numbers = BTreeMap::new(alloc);
        let export = Export {
            reference,
            pinned: true,
            mentions: 0,
        };
        put(&mut kept, &mut numbers, 0, export)?;
        Ok(ExportList {
            kept,
            numbers,
            next: 1,
            weight,
        })
    }

    /// The export of this number.
    pub(crate) fn get(&self, number: u64) -> Option<&ReadReference>
        ensures { option_copied result ≡ lookup (is_at (nat_cmp number)) (shown self.now.kept) }
    {
        let export = self.kept.get(&number)?;
        Some(&export.reference)
    }

    /// How many there are. They are few.
    pub(crate) fn len(&self) -> usize
        ensures count { result ≡ length self.now.kept }
        ensures few { result ≤ most_exports }
    {
        self.kept.len()
    }

    /// The number of the next one.
    pub(crate) fn next(&self) -> u64
        ensures same { result ≡ self.now.next }
        ensures some { 1 ≤ result }
        ensures numbered { AreNumbered (table_of self.now) }
    {
        self.next
    }

    /// The number of an export.
    pub(crate) fn number(&self, reference: &Value) -> Option<u64>
        ensures { result ≡ place_of reference.now (shown self.now.kept) }
    {
        self.numbers.get(reference).copied()
    }

    /// One export more, which has the next number. After a fault nothing has changed.
    pub(crate) fn add(&mut self, alloc: Global, reference: &Value) -> Result<u64, PortsFault>
        requires { place_of reference.now (shown self.old.kept) ≡ None }
        ensures number { IfOk result (λ n. n ≡ self.old.next) }
        ensures fits { OnOk result
            (export_fault (values_of (shown self.old.kept) ++ reference.now ∷ []) ≡ None) }
        ensures done { OnOk result (self.new ≡ record {
          kept = self.old.kept ++ (self.old.next, new_export false reference.now) ∷ [];
          next = self.old.next + 1;
        }) }
        ensures fault { IfErr result
            (IsWhy (export_fault (values_of (shown self.old.kept) ++ reference.now ∷ []))) }
        ensures undone { OnErr result (self.new ≡ self.old) }
    {
        let number = self.next;
        let sum = self.weight.saturating_add(weight(reference));
        check(self.kept.len() as u64 + 1, sum)?;
        if number >= NO_NUMBER {
            return Err(PortsFault::NoMemory);
        }
        let reference = ReadReference::new(alloc, reference.copy()?)?;
        let export = Export {
            reference,
            pinned: false,
            mentions: 0,
        };
        put(&mut self.kept, &mut self.numbers, number, export)?;
        self.weight = sum;
        self.next = number + 1;
        Ok(number)
    }

    /// The exports from this number on go, which is the next one again.
    pub(crate) fn truncate(&mut self, next: u64)
        requires some { 1 ≤ next }
        requires next { next ≤ self.old.next }
        ensures { self.new ≡ record {
          kept = filter (λ e. nat_lt e.0 next) self.old.kept;
          next = next;
        } }
    {
        let _ = self.next();
        self.cut(next);
    }

    /// The same, where it is known that numbers are below the next one.
    fn cut(&mut self, next: u64)
        requires some { 1 ≤ next }
        requires next { next ≤ self.old.next }
        requires numbered { AreNumbered (table_of self.old) }
        ensures { self.new ≡ record {
          kept = filter (λ e. nat_lt e.0 next) self.old.kept;
          next = next;
        } }
    {
        while self.next > next {
            self.pop();
        }
    }

    /// The last number goes, with its export, where there is one.
    fn pop(&mut self)
        requires { 1 < self.old.next }
        ensures { self.new ≡ record {
          kept = remove_entry (is_at (nat_cmp (self.old.next - 1))) self.old.kept;
          next = self.old.next - 1;
        } }
    {
        let last = self.next - 1;
        self.take(last);
        self.next = last;
    }

    /// A note more mentions each of these.
    pub(crate) fn raise(&mut self, numbers: &[u64])
        requires { AllByRecursion (λ e. e.1.mentions + times e.0 numbers.now < 2 ^ 64)
            self.old.kept }
        ensures { self.new ≡ record self.old {
          kept = at_numbers raised numbers.now self.old.kept;
        } }
    {
        raise(&mut self.kept, numbers);
    }

    /// A note less mentions each of these.
    pub(crate) fn lower(&mut self, numbers: &[u64])
        requires { AllByRecursion (λ e. times e.0 numbers.now ≤ e.1.mentions) self.old.kept }
        ensures { self.new ≡ record self.old {
          kept = at_numbers lowered numbers.now self.old.kept;
        } }
    {
        lower(&mut self.kept, numbers);
    }

    /// Each of these is pinned.
    pub(crate) fn pin(&mut self, numbers: &[u64])
        ensures { self.new ≡ record self.old {
          kept = at_numbers with_pin numbers.now self.old.kept;
        } }
    {
        pin(&mut self.kept, numbers);
    }

    /// The export of this number goes, where there is one that is idle.
    fn release(&mut self, number: u64)
        ensures { self.new ≡ record self.old {
          kept = released_where (λ n. number == n) self.old.kept;
        } }
    {
        if is_idle(&self.kept, number) {
            self.take(number);
        }
    }

    /// The export of this number goes, where there is one. It isn't export 0.
    fn take(&mut self, number: u64)
        requires { 0 < number }
        ensures { self.new ≡ record self.old {
          kept = remove_entry (is_at (nat_cmp number)) self.old.kept;
        } }
    {
        if let Some(export) = self.kept.remove(&number) {
            self.weight -= take_number(&mut self.numbers, export);
        }
    }

    /// Of these numbers the idle exports go.
    pub(crate) fn release_all(&mut self, numbers: &[u64])
        ensures { self.new ≡ record self.old {
          kept = released_where (λ n. has_number n numbers.now) self.old.kept;
        } }
    {
        for number in numbers {
            self.release(*number);
        }
    }

    /// Of the numbers in these notes the idle exports go.
    pub(crate) fn release_noted(&mut self, notes: &[Oids])
        ensures { self.new ≡ record self.old {
          kept = released_where (λ n. list_any (has_number n) notes.now) self.old.kept;
        } }
    {
        for note in notes {
            self.release_all(note.as_slice());
        }
    }

    /// From this number on the idle exports go.
    pub(crate) fn release_from(&mut self, first: u64)
        ensures { self.new ≡ record self.old {
          kept = released_where (λ n. nat_le first n) self.old.kept;
        } }
    {
        for number in first..self.next {
            self.release(number);
        }
    }
}

/// Whether there is an export of this number that is idle.
fn is_idle(kept: &BTreeMap<u64, Export>, number: u64) -> bool
    ensures idle { result ≡ is_idle_where (lookup (is_at (nat_cmp number)) kept.now.entries) }
    ensures ordered { IsOrdered nat_cmp kept.now }
{
    let _ = kept.len();
    match kept.get(&number) {
        Some(export) => !export.pinned && export.mentions == 0,
        None => false,
    }
}

/// Whether so many exports, of this weight, are neither too many nor too heavy.
fn check(count: u64, weight: u64) -> Result<(), PortsFault>
    ensures fits { OnOk result (fault_of count weight ≡ None) }
    ensures fault { IfErr result (λ f. fault_of count weight ≡ Some f) }
{
    if count > EXPORTS as u64 {
        return Err(PortsFault::Exports(count));
    }
    if weight > EXPORTS_WEIGHT {
        return Err(PortsFault::Weight(weight));
    }
    Ok(())
}

/// The export has no number any more. What it weighs is answered.
fn take_number(numbers: &mut BTreeMap<Value, u64>, export: Export) -> u64
    ensures weight { result ≡ told (weight export.reference) }
    ensures numbers { (r : Plain) → number_at r numbers.new.entries
        ≡ cond (is_at (order export.reference) r) None (number_at r numbers.old.entries) }
{
    numbers.remove(export.reference.value());
    weight(export.reference.value())
}

/// One export more, and its number, or neither.
fn put(
    kept: &mut BTreeMap<u64, Export>,
    numbers: &mut BTreeMap<Value, u64>,
    number: u64,
    export: Export,
) -> Result<(), NoMemory>
    requires { number_at export.reference numbers.old.entries ≡ None }
    ensures kept { OnOk result
        (kept.new.entries ≡ insert_entry nat_cmp kept.old.entries number export) }
    ensures numbers { OnOk result ((r : Plain) → number_at r numbers.new.entries
        ≡ cond (is_at (order export.reference) r) (Some number)
        (number_at r numbers.old.entries)) }
    ensures same_kept { OnErr result (kept.new.entries ≡ kept.old.entries) }
    ensures same_numbers { OnErr result
        ((r : Plain) → number_at r numbers.new.entries ≡ number_at r numbers.old.entries) }
    ensures ordered { IsOrdered nat_cmp kept.new }
{
    let _ = kept.len();
    numbers.insert(export.reference.value().copy()?, number)?;
    match kept.insert(number, export) {
        Ok(_) => Ok(()),
        Err(failed) => {
            numbers.remove(failed.value.1.reference.value());
            Err(NoMemory)
        }
    }
}
