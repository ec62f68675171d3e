//! The exports and the inbound handles of one connection, and its dialect.
ghost use Rattle.std.specs.Prelude.{◌≡◌, ◌≤◌, ◌<◌, ◌+◌, ◌^◌, ◌++◌, ◌∷◌, [], None, Some, ℕ, List};
ghost use Rattle.std.specs.Prelude.{IfOk, IfErr, OnOk, OnErr};
ghost use Rattle.std.specs.Prelude.{length, filter, nat_lt, vec_len, vec_capacity};
ghost use Rattle.std.specs.List.{AllByRecursion};
ghost use Rattle.rl_ports.specs.Limits.{most_exports};
ghost use Rattle.rl_ports.specs.Ports.{ports_to, inbound_of, taken_into_use, freed, standing};
ghost use Rattle.rl_ports.specs.Ports.{exported, number_of, fault_at, with_exports, place_of};
ghost use Rattle.rl_ports.specs.Ports.{IsWhy, speaking, noted, forgotten, pinned_with, swept};
ghost use Rattle.rl_ports.specs.Ports.{AreNumbered, AreGiven, NotesAreGiven};
ghost use Rattle.rl_ports.specs.Kept.{note_of, times, at_numbers, raised};
ghost use Rattle.rl_ports.specs.Shown.{standing_shown};

use crate::export_list::ExportList;
use crate::oids::Oids;
use crate::reading::ReadReference;
use pv_value::{NoMemory, Value};
use rl_packet::Dialect;
use sr_caveat::Cap;
use std::alloc::Global;
use std::collections::BTreeMap;
use std::marker::Model;
use thiserror::Error;

/// The most exports of a connection, export 0 among them.
pub const EXPORTS: usize = 4096;

/// The most that they weigh together.
pub const EXPORTS_WEIGHT: u64 = 4_194_304;

/// What a handle stands for that a connection has in use.
#[derive(Clone, Copy, Debug, PartialEq, Eq)]
pub enum Inbound {
    /// The row of this handle of the server's.
    Row(u64),
    /// An assertion that made no row.
    Refused,
}

/// Why a reference can't be exported.
#[derive(Clone, Copy, Debug, PartialEq, Eq, Error)]
pub enum PortsFault {
    /// There would be so many exports.
    #[error("too many exports: {0}")]
    Exports(u64),
    /// The exports would weigh so much.
    #[error("exports too heavy: {0}")]
    Weight(u64),
    /// Memory ran out.
    #[error("out of memory")]
    NoMemory,
}

impl From<NoMemory> for PortsFault {
    ghost use Rattle.std.specs.Prelude.{◌≡◌};
    ghost use Rattle.rl_ports.specs.declared.ports.PortsFault.TheVariants.{NoMemory as no_memory};

    ghost from_gives = { λ _ e. e ≡ no_memory };

    fn from(_: NoMemory) -> PortsFault {
        PortsFault::NoMemory
    }
}

/// What stands under a number.
pub enum Exported<'a> {
    /// An export in force.
    InForce(&'a ReadReference),
    /// One that was released.
    Released,
    /// None that ever was.
    Never,
}

/// Exports in force by their numbers, one for each reference, with pins; the numbers that held
/// rows mention; inbound handles; and the dialect, where one is fixed.
#[derive(Drop)]
pub struct Ports {
    exports: ExportList,
    /// The numbers that each held row mentions, by its handle.
    notes: BTreeMap<u64, Oids>,
    /// The notes that went since the last sweep.
    dropped: Vec<Oids>,
    /// What came before this number was looked at by the last sweep.
    settled: u64,
    handles: BTreeMap<u64, Inbound>,
    dialect: Option<Dialect>,
}

impl Model for Ports {
    ghost use Rattle.std.specs.Prelude.{vec_capacity};
    ghost use Rattle.std.specs.Coded.{codes};
    ghost use Rattle.pv_value.specs.Lemmas.Coded.{plain_code};
    ghost use Rattle.rl_ports.specs.Ports.{PortsState};
    ghost use Rattle.rl_ports.specs.Kept.{table_of, pins, AreCounted};

    ghost Value = { PortsState };

    ghost coded = { Prim.hlevel (codes, plain_code) };

    ghost view = { λ p. record {
      exports = table_of p.exports;
      pinned = pins p.exports.kept;
      notes = p.notes.entries;
      handles = p.handles.entries;
      dialect = p.dialect;
    } };

    ghost invariant = { λ p. AreCounted p.exports p.notes.entries p.settled p.dropped.items
        (vec_capacity p.dropped) };
}

impl Ports {
    /// Export 0 is that reference, whatever it weighs, and is pinned; no row is noted, no handle is
    /// in use, and no dialect is fixed.
    pub fn new(alloc: Global, first: Value) -> Result<Ports, NoMemory>
        ensures { IfOk result (λ p. p ≡ ports_to first) }
    {
        Ok(Ports {
            exports: ExportList::new(alloc, first)?,
            notes: BTreeMap::new(alloc),
            dropped: Vec::new(alloc),
            settled: 1,
            handles: BTreeMap::new(alloc),
            dialect: None,
        })
    }

    /// The dialect, where one is fixed.
    pub fn dialect(&self) -> Option<Dialect>
        ensures { result ≡ self.now.dialect }
    {
        self.dialect
    }

    /// The dialect is that of a turn from now on, where the turn has one and none was fixed.
    pub fn speak(&mut self, dialect: Option<Dialect>)
        ensures { self.new ≡ speaking dialect self.old }
    {
        self.dialect = self.dialect.or(dialect);
    }

    /// What stands under this number. An export was read when it came.
    pub fn cap_of(&self, oid: u64) -> Exported<'_>
        ensures { standing_shown result ≡ standing oid self.now.exports }
    {
        match self.exports.get(oid) {
            Some(reference) => Exported::InForce(reference),
            None if oid < self.exports.next() => Exported::Released,
            None => Exported::Never,
        }
    }

    /// The number of a reference, where it is exported.
    pub fn oid_of(&self, cap: &Value) -> Option<u64>
        ensures { result ≡ place_of cap.now self.now.exports.in_force }
    {
        self.exports.number(cap)
    }

    /// How many exports are in force, at most [`EXPORTS`].
    pub fn exports(&self) -> usize
        ensures count { result ≡ length self.now.exports.in_force }
        ensures few { result ≤ most_exports }
    {
        self.exports.len()
    }

    /// The number of the next export. What notes mention is below it, and what is pinned.
    pub fn next_oid(&self) -> u64
        ensures same { result ≡ self.now.exports.next }
        ensures some { 1 ≤ result }
        ensures numbered { AreNumbered self.now.exports }
        ensures noted { NotesAreGiven self.now }
        ensures pinned { AreGiven self.now.exports.next self.now.pinned }
    {
        self.exports.next()
    }

    /// What the handle stands for, where it is in use.
    pub fn row_of(&self, handle: u64) -> Option<Inbound>
        ensures { result ≡ inbound_of handle self.now }
    {
        self.handles.get(&handle).copied()
    }

    /// How many handles are in use.
    pub fn in_use(&self) -> usize
        ensures { result ≡ length self.now.handles }
    {
        self.handles.len()
    }

    /// The handle, which isn't in use, stands for this from now on.
    pub fn take_handle(&mut self, handle: u64, what: Inbound) -> Result<(), NoMemory>
        requires { inbound_of handle self.old ≡ None }
        ensures taken { OnOk result (self.new ≡ taken_into_use handle what self.old) }
        ensures undone { OnErr result (self.new ≡ self.old) }
    {
        self.handles.insert(handle, what)?;
        Ok(())
    }

    /// The handle isn't in use any more. What it stood for is answered.
    pub fn free_handle(&mut self, handle: u64) -> Option<Inbound>
        ensures was { result ≡ inbound_of handle self.old }
        ensures freed { self.new ≡ freed handle self.old }
    {
        self.handles.remove(&handle)
    }

    /// The number of a reference, which is exported where it wasn't. After a fault nothing has
    /// changed. No number is given twice; where they are used up, memory has run out.
    pub fn oid_for(&mut self, alloc: Global, cap: &Value) -> Result<u64, PortsFault>
        ensures number { IfOk result (λ n. n ≡ number_of cap.now self.old.exports) }
        ensures fits { IfOk result (λ n. fault_at cap.now self.old.exports ≡ None) }
        ensures done { OnOk result
            (self.new ≡ with_exports (exported cap.now self.old.exports) self.old) }
        ensures fault { IfErr result (IsWhy (fault_at cap.now self.old.exports)) }
        ensures undone { OnErr result (self.new ≡ self.old) }
    {
        match self.exports.number(cap) {
            Some(number) => Ok(number),
            None => self.exports.add(alloc, cap),
        }
    }

    /// The exports from this number on go, and the next one has it again: nobody was told of them,
    /// no note mentions them, and none is pinned.
    pub fn forget(&mut self, next: u64)
        requires some { 1 ≤ next }
        requires next { next ≤ self.old.exports.next }
        requires noted { AllByRecursion (λ e. AreGiven next e.1) self.old.notes }
        requires pinned { AreGiven next self.old.pinned }
        ensures { self.new ≡ with_exports (record {
          in_force = filter (λ e. nat_lt e.0 next) self.old.exports.in_force;
          next = next;
        }) self.old }
    {
        self.exports.truncate(next);
        if next < self.settled {
            self.settled = next;
        }
    }

    /// The held row of this handle mentions these numbers from now on, and no others. For want of
    /// memory nothing has changed.
    pub fn hold(&mut self, handle: u64, oids: Oids) -> Result<(), NoMemory>
        requires { AreGiven self.old.exports.next oids }
        ensures done { OnOk result (self.new ≡ noted handle oids self.old) }
        ensures undone { OnErr result (self.new ≡ self.old) }
    {
        let _ = oids.as_slice();
        self.dropped.reserve(self.notes.len() + 1)?;
        let earlier = self.notes.insert(handle, oids)?;
        raise_noted(&mut self.exports, &self.notes, handle);
        if let Some(earlier) = earlier {
            self.exports.lower(earlier.as_slice());
            drop_note(&mut self.dropped, earlier);
        }
        Ok(())
    }

    /// There is no held row of this handle any more.
    pub fn let_go(&mut self, handle: u64)
        ensures { self.new ≡ forgotten handle self.old }
    {
        if let Some(oids) = self.notes.remove(&handle) {
            self.exports.lower(oids.as_slice());
            drop_note(&mut self.dropped, oids);
        }
    }

    /// The exports of these numbers are pinned.
    pub fn pin(&mut self, oids: &Oids)
        ensures { self.new ≡ pinned_with oids.now self.old }
    {
        let _ = self.exports.next();
        self.exports.pin(oids.as_slice());
    }

    /// Each export is released that is neither pinned nor mentioned by a held row. Those alone are
    /// looked at that came, or that a note mentioned which went, since the last time.
    pub fn sweep(&mut self)
        ensures { self.new ≡ swept self.old }
    {
        let next = self.exports.next();
        self.exports.release_noted(self.dropped.as_slice());
        self.exports.release_from(self.settled);
        self.settled = next;
        self.dropped.clear();
    }
}

/// The note of this handle, where there is one, counts at each export that it mentions.
fn raise_noted(exports: &mut ExportList, notes: &BTreeMap<u64, Oids>, handle: u64)
    requires { (ns : List ℕ) → note_of handle notes.now.entries ≡ Some ns
        → AllByRecursion (λ e. e.1.mentions + times e.0 ns < 2 ^ 64) exports.old.kept }
    ensures { (ns : List ℕ) → note_of handle notes.now.entries ≡ Some ns
        → exports.new ≡ record exports.old { kept = at_numbers raised ns exports.old.kept } }
{
    if let Some(note) = notes.get(&handle) {
        exports.raise(note.as_slice());
    }
}

/// A note more that went, where there is room for it.
fn drop_note(dropped: &mut Vec<Oids>, oids: Oids)
    requires { vec_len dropped.old < vec_capacity dropped.old }
    ensures items { dropped.new.items ≡ dropped.old.items ++ oids ∷ [] }
    ensures room { vec_capacity dropped.old ≤ vec_capacity dropped.new }
{
    let _ = dropped.push(oids);
}
