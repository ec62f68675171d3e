//! What is kept of bindings.
ghost use Rattle.std.specs.Prelude.{◌≡◌, ◌↔◌, true, [], length};
ghost use Rattle.std.specs.Prelude.{IfOk, IfSome, OnErr, MatchResult, is_some};
ghost use Rattle.kp_keeper.specs.Records.{Ascend, is_kept, without};
ghost use Rattle.kp_keeper.specs.Keeping.{put_answer, after_put};
ghost use Rattle.kp_keeper.specs.Places.{IsThere, IsGap};

use crate::keeper::{Kept, MOST_RECORDS};
use pv_value::{Blob, NoMemory};
use std::alloc::Global;
use std::marker::Model;

/// What is kept of a binding.
#[derive(Drop)]
pub struct Record {
    /// The oid, in its canonical form.
    pub oid: Blob,
    /// The key under which references to the oid are signed.
    pub key: Blob,
    /// The dataspace that they are to.
    pub space: u8,
    /// The sequence of the binding's caveats, in its canonical form.
    pub caveats: Blob,
}

impl Record {
    /// An equal record.
    pub fn copy(&self) -> Result<Record, NoMemory>
        ensures { IfOk result (λ r. r ≡ self.now) }
    {
        Ok(Record {
            oid: self.oid.copy()?,
            key: self.key.copy()?,
            space: self.space,
            caveats: self.caveats.copy()?,
        })
    }
}

/// Records that ascend by the bytes of their oids, of which no two are equal.
#[derive(Drop)]
pub struct Records {
    list: Vec<Record>,
}

impl Model for Records {
    ghost use Rattle.std.specs.Prelude.{List};
    ghost use Rattle.kp_keeper.specs.Records.{Record, Ascend};

    ghost Value = { List Record };

    ghost view = { λ a. a.list.items };

    ghost invariant = { λ a. Ascend a.list.items };
}

impl Records {
    /// No record. This takes no memory.
    pub fn new(alloc: Global) -> Records
        ensures { result ≡ [] }
    {
        Records {
            list: Vec::new(alloc),
        }
    }

    /// These records, where they ascend. This takes no memory.
    pub fn from_vec(list: Vec<Record>) -> Option<Records>
        ensures same { IfSome result (λ rs. rs ≡ list.items) }
        ensures some { (is_some result ≡ true) ↔ Ascend list.items }
    {
        if !ascend(&list) {
            return None;
        }
        Some(Records { list })
    }

    /// The records, in ascending order.
    pub fn as_slice(&self) -> &[Record]
        ensures same { result.now ≡ self.now }
        ensures ascending { Ascend self.now }
    {
        &self.list
    }

    pub fn len(&self) -> usize
        ensures { result ≡ length self.now }
    {
        self.list.len()
    }

    /// What allocates the list.
    pub fn allocator(&self) -> Global {
        *self.list.allocator()
    }

    /// An equal list.
    pub fn copy(&self) -> Result<Records, NoMemory>
        ensures { IfOk result (λ rs. rs ≡ self.now) }
    {
        let list = copies(self.allocator(), &self.list)?;
        Ok(Records { list })
    }

    /// One record more, in its place, unless one of its oid is there or there are so many that
    /// no more is taken. For want of memory nothing has changed.
    pub fn put(&mut self, added: &Record) -> Result<Kept, NoMemory>
        ensures answer { IfOk result (λ kept. kept ≡ put_answer added.now self.old) }
        ensures done { IfOk result (λ kept. self.new ≡ after_put kept added.now self.old) }
        ensures stays { OnErr result (self.new ≡ self.old) }
    {
        let Err(place) = position(&self.list, added.oid.as_slice()) else {
            return Ok(Kept::There);
        };
        if self.list.len() >= MOST_RECORDS {
            return Ok(Kept::Full(MOST_RECORDS as u64));
        }
        self.list.insert(place, added.copy()?)?;
        Ok(Kept::Done)
    }

    /// The list without the record of this oid, and whether there was one.
    pub fn remove(&mut self, oid: &[u8]) -> bool
        ensures answer { result ≡ is_kept oid.now self.old }
        ensures done { self.new ≡ without oid.now self.old }
    {
        match position(&self.list, oid) {
            Ok(place) => {
                self.list.remove(place);
                true
            }
            Err(_) => false,
        }
    }
}

/// Whether each oid comes before all later ones.
fn ascend(records: &[Record]) -> bool
    ensures { (result ≡ true) ↔ Ascend records.now }
{
    records.is_sorted_by(|a, b| a.oid.as_slice().cmp(b.oid.as_slice()).is_lt())
}

/// Where the record of an oid stands, or where it is to be put.
fn position(records: &[Record], oid: &[u8]) -> Result<usize, usize>
    requires { Ascend records.now }
    ensures { MatchResult result (IsThere oid.now records.now) (IsGap oid.now records.now) }
{
    records.binary_search_by(|record| record.oid.as_slice().cmp(oid))
}

/// Equal records.
fn copies(alloc: Global, records: &[Record]) -> Result<Vec<Record>, NoMemory>
    ensures { IfOk result (λ rs. rs.items ≡ records.now) }
{
    let mut all = Vec::new(alloc);
    for record in records {
        all.push(record.copy()?)?;
    }
    Ok(all)
}
