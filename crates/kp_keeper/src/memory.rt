//! Keepers in memory, for tests. Each works for so many calls and then fails at every later one.
ghost use Rattle.std.specs.Prelude.{◌≡◌, ℕ, ◌≤◌, ◌↔◌, ◌==◌, true, false, [], Some, None, Ok, Err};
ghost use Rattle.std.specs.Prelude.{IfOk, OnOk, OnErr, IsErrOf, IsTrue, is_none, is_ok};
ghost use Rattle.std.specs.Option.{option_copied};
ghost use Rattle.kp_keeper.specs.Records.{is_kept, without};
ghost use Rattle.kp_keeper.specs.Keeping.{most_records, put_answer, after_put};
ghost use Rattle.kp_keeper.specs.Memory.{keeper_of, is_worn, after_fault, after_call, keeping};
ghost use Rattle.kp_keeper.specs.Memory.{fails, after_use, keeping_in_file, after_keep};

use crate::keeper::{KeepFault, Keeper, Keeping, Kept};
use crate::records::{Record, Records};
use std::marker::Model;

/// Records in memory. It tells them, and needs no file.
#[derive(Drop)]
pub struct MemKeeper {
    records: Records,
    works: u64,
    faults: u64,
}

impl Model for MemKeeper {
    ghost use Rattle.kp_keeper.specs.Memory.{ToldKeeper};

    ghost Value = { ToldKeeper };

    ghost view = { λ k. record { records = k.records; works = k.works; faults = k.faults } };
}

impl MemKeeper {
    /// A keeper of these records, which works for so many calls.
    pub fn new(records: Records, works: u64) -> MemKeeper
        ensures { result ≡ keeper_of records works }
    {
        MemKeeper {
            records,
            works,
            faults: 0,
        }
    }

    /// What it keeps. This is no call of a keeper.
    pub fn records(&self) -> &Records
        ensures { result.now ≡ self.now.records }
    {
        &self.records
    }

    /// Counts a fault.
    fn fail(&mut self) -> KeepFault
        ensures failed { result ≡ KeepFault.Failed }
        ensures counted { self.new ≡ after_fault self.old }
        ensures lasting { self.old.faults ≤ self.new.faults }
    {
        self.faults = self.faults.saturating_add(1);
        KeepFault::Failed
    }

    /// Counts a call, which fails where it doesn't work any more.
    fn call(&mut self) -> Result<(), KeepFault>
        ensures fails { OnErr result (IsTrue (is_worn self.old)) }
        ensures works { OnOk result (is_worn self.old ≡ false) }
        ensures failed { OnErr result (result ≡ Err KeepFault.Failed) }
        ensures counted { self.new ≡ after_call self.old }
        ensures lasting { self.old.faults ≤ self.new.faults }
    {
        if self.works == 0 {
            return Err(self.fail());
        }
        self.works -= 1;
        Ok(())
    }
}

impl Keeper for MemKeeper {
    ghost kept = { λ k. Some k.records };

    ghost faults = { λ k. k.faults };

    ghost file = { λ _. Some [] };

    fn keep_faults(&self) -> u64 {
        self.faults
    }

    fn list(&mut self) -> Result<Records, KeepFault>
        // It fails where it is worn and nowhere else.
        ensures fails { IsErrOf result KeepFault.Failed ↔ IsTrue (is_worn self.old) }
        ensures content { IfOk result (λ rs. rs ≡ self.old.records) }
        ensures after { self.new ≡ after_call self.old }
        ensures lasting { self.old.faults ≤ self.new.faults }
    {
        self.call()?;
        Ok(self.records.copy()?)
    }

    fn put(&mut self, added: &Record) -> Result<Kept, KeepFault>
        // It fails where it is worn and nowhere else.
        ensures fails { IsErrOf result KeepFault.Failed ↔ IsTrue (is_worn self.old) }
        ensures answer { IfOk result (λ kept. kept ≡ put_answer added.now self.old.records) }
        ensures done { IfOk result (λ kept. self.new
            ≡ keeping (after_put kept added.now self.old.records) (after_call self.old)) }
        ensures undone { OnErr result (self.new ≡ after_call self.old) }
        ensures limit { (n : ℕ) → result ≡ Ok (Kept.Full n) → n ≡ most_records }
        ensures lasting { self.old.faults ≤ self.new.faults }
    {
        self.call()?;
        Ok(self.records.put(added)?)
    }

    fn remove(&mut self, oid: &[u8]) -> Result<bool, KeepFault>
        // It fails where it is worn and nowhere else.
        ensures fails { IsErrOf result KeepFault.Failed ↔ IsTrue (is_worn self.old) }
        ensures answer { IfOk result (λ there. there ≡ is_kept oid.now self.old.records) }
        ensures done { OnOk result (self.new
            ≡ keeping (without oid.now self.old.records) (after_call self.old)) }
        ensures undone { OnErr result (self.new ≡ after_call self.old) }
        ensures lasting { self.old.faults ≤ self.new.faults }
    {
        self.call()?;
        Ok(self.records.remove(oid))
    }
}

/// Records in memory that are at hand once a file was opened: the same ones, whatever its name.
#[derive(Drop)]
pub struct MemKeeping {
    keeper: MemKeeper,
    file: Option<String>,
}

impl Model for MemKeeping {
    ghost use Rattle.std.specs.Option.{option_map};
    ghost use Rattle.std.specs.String.{string_bytes};
    ghost use Rattle.kp_keeper.specs.Memory.{ToldKeeping};

    ghost Value = { ToldKeeping };

    ghost view = { λ k. record { keeper = k.keeper; file = option_map string_bytes k.file } };
}

impl MemKeeping {
    /// No file is open.
    pub fn new(keeper: MemKeeper) -> MemKeeping
        ensures { result ≡ record { keeper = keeper; file = None } }
    {
        MemKeeping { keeper, file: None }
    }

    /// What is in the files. This is no call of a keeper.
    pub fn keeper(&self) -> &MemKeeper
        ensures { result.now ≡ self.now.keeper }
    {
        &self.keeper
    }

    /// The name of the file that was opened last.
    pub fn file(&self) -> Option<&str>
        ensures { option_copied result ≡ self.now.file }
    {
        Some(self.file.as_ref()?.as_str())
    }

    /// Counts a fault where no file is open.
    fn open(&mut self) -> Result<(), KeepFault>
        ensures open { OnOk result (is_none self.old.file ≡ false) }
        ensures same { OnOk result (self.new ≡ self.old) }
        ensures none { OnErr result (IsTrue (is_none self.old.file)) }
        ensures counted { OnErr result (self.new ≡ after_use self.old) }
        ensures failed { OnErr result (result ≡ Err KeepFault.Failed) }
        ensures lasting { self.old.keeper.faults ≤ self.new.keeper.faults }
    {
        if self.file.is_none() {
            return Err(self.keeper.fail());
        }
        Ok(())
    }
}

impl Keeper for MemKeeping {
    ghost kept = { λ k. Some k.keeper.records };

    ghost faults = { λ k. k.keeper.faults };

    ghost file = { λ k. k.file };

    fn keep_faults(&self) -> u64 {
        self.keeper.keep_faults()
    }

    fn list(&mut self) -> Result<Records, KeepFault>
        // It fails where no file is open or it is worn, and nowhere else.
        ensures fails { IsErrOf result KeepFault.Failed ↔ IsTrue (fails self.old) }
        ensures content { IfOk result (λ rs. rs ≡ self.old.keeper.records) }
        ensures after { self.new ≡ after_use self.old }
        ensures lasting { self.old.keeper.faults ≤ self.new.keeper.faults }
    {
        self.open()?;
        self.keeper.list()
    }

    fn put(&mut self, added: &Record) -> Result<Kept, KeepFault>
        // It fails where no file is open or it is worn, and nowhere else.
        ensures fails { IsErrOf result KeepFault.Failed ↔ IsTrue (fails self.old) }
        ensures answer { IfOk result (λ kept.
            kept ≡ put_answer added.now self.old.keeper.records) }
        ensures done { IfOk result (λ kept. self.new ≡ keeping_in_file
            (after_put kept added.now self.old.keeper.records) (after_use self.old)) }
        ensures undone { OnErr result (self.new ≡ after_use self.old) }
        ensures limit { (n : ℕ) → result ≡ Ok (Kept.Full n) → n ≡ most_records }
        ensures lasting { self.old.keeper.faults ≤ self.new.keeper.faults }
    {
        self.open()?;
        self.keeper.put(added)
    }

    fn remove(&mut self, oid: &[u8]) -> Result<bool, KeepFault>
        // It fails where no file is open or it is worn, and nowhere else.
        ensures fails { IsErrOf result KeepFault.Failed ↔ IsTrue (fails self.old) }
        ensures answer { IfOk result (λ there. there ≡ is_kept oid.now self.old.keeper.records) }
        ensures done { OnOk result (self.new ≡ keeping_in_file
            (without oid.now self.old.keeper.records) (after_use self.old)) }
        ensures undone { OnErr result (self.new ≡ after_use self.old) }
        ensures lasting { self.old.keeper.faults ≤ self.new.keeper.faults }
    {
        self.open()?;
        self.keeper.remove(oid)
    }
}

impl Keeping for MemKeeping {
    /// A call of its keeper, as the others are.
    fn keep(&mut self, name: &str) -> Result<(), KeepFault>
        // It fails where it is worn and nowhere else.
        ensures fails { IsErrOf result KeepFault.Failed ↔ IsTrue (is_worn self.old.keeper) }
        ensures after { self.new ≡ after_keep name.now (is_ok result) self.old }
        ensures lasting { self.old.keeper.faults ≤ self.new.keeper.faults }
    {
        self.keeper.call()?;
        self.file = Some(String::from_str(self.keeper.records.allocator(), name)?);
        Ok(())
    }
}
