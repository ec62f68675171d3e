//! Who keeps records.
//!
//! A keeper counts its own faults, in a count that never falls and stops at the greatest u64. A
//! call that answers `Failed` has raised that count, and code that is generic over a trait can't
//! raise it. What is kept is told by some keepers and not by others.
ghost use Rattle.std.specs.Prelude.{◌≡◌, ℕ, ◌≤◌, List, Option, None, Some, Ok};
ghost use Rattle.std.specs.Prelude.{IfOk, IfSome, IsErrOf, OnOk, OnErr, option_map};
ghost use Rattle.out_ports.specs.Ports.{Rose};
ghost use Rattle.kp_keeper.specs.Records.{Record, is_kept, without};
ghost use Rattle.kp_keeper.specs.Keeping.{most_records, put_answer, after_put};

use crate::records::{Record, Records};
use pv_value::NoMemory;
use std::alloc::AllocError;
use thiserror::Error;

/// The most records that are kept.
pub const MOST_RECORDS: usize = 10_000;

/// The answer to a record that is to be kept.
#[derive(Clone, Copy, Debug, PartialEq, Eq)]
pub enum Kept {
    /// It is kept.
    Done,
    /// A record of its oid was kept before, and stays.
    There,
    /// So many records are kept, which is the most.
    Full(u64),
}

/// Why a keeper's call failed. What is kept is unchanged then.
#[derive(Clone, Copy, Debug, PartialEq, Eq, Error)]
pub enum KeepFault {
    #[error("the keeper failed")]
    Failed,
    #[error("out of memory")]
    NoMemory,
}

impl From<NoMemory> for KeepFault {
    ghost use Rattle.kp_keeper.specs.declared.keeper.KeepFault.TheVariants.{NoMemory};

    ghost from_gives = { λ _ fault. fault ≡ NoMemory };

    fn from(_: NoMemory) -> KeepFault {
        KeepFault::NoMemory
    }
}

impl From<AllocError> for KeepFault {
    ghost use Rattle.kp_keeper.specs.declared.keeper.KeepFault.TheVariants.{NoMemory};

    ghost from_gives = { λ _ fault. fault ≡ NoMemory };

    fn from(_: AllocError) -> KeepFault {
        KeepFault::NoMemory
    }
}

/// Something that keeps records.
pub trait Keeper {
    /// The records that are kept, where the keeper tells them.
    ghost kept: { Self → Option (List Record) };

    /// How often it has failed.
    ghost faults: { Self → ℕ };

    /// The name of the file that was opened last, none before the first. A keeper that needs no
    /// file has one of the empty name from its beginning on.
    ghost file: { Self → Option (List ℕ) };

    /// How often it has failed.
    fn keep_faults(&self) -> u64
        ensures { result ≡ faults self.now };

    /// The records that are kept.
    fn list(&mut self) -> Result<Records, KeepFault>
        ensures content { IfOk result (λ rs. IfSome (kept self.old) (λ told. rs ≡ told)) }
        ensures same { kept self.new ≡ kept self.old }
        ensures no_file { file self.old ≡ None → IsErrOf result KeepFault.Failed }
        ensures same_file { file self.new ≡ file self.old }
        ensures lasting { faults self.old ≤ faults self.new }
        ensures cause { IsErrOf result KeepFault.Failed
            → Rose (faults self.old) (faults self.new) };

    /// Keeps one record more.
    fn put(&mut self, added: &Record) -> Result<Kept, KeepFault>
        ensures answer { IfOk result (λ kept_now. IfSome (kept self.old) (λ told.
            kept_now ≡ put_answer added.now told)) }
        ensures done { IfOk result (λ kept_now. kept self.new
            ≡ option_map (after_put kept_now added.now) (kept self.old)) }
        ensures limit { (n : ℕ) → result ≡ Ok (Kept.Full n) → n ≡ most_records }
        ensures stays { OnErr result (kept self.new ≡ kept self.old) }
        ensures no_file { file self.old ≡ None → IsErrOf result KeepFault.Failed }
        ensures same_file { file self.new ≡ file self.old }
        ensures lasting { faults self.old ≤ faults self.new }
        ensures cause { IsErrOf result KeepFault.Failed
            → Rose (faults self.old) (faults self.new) };

    /// Lets the record of an oid go, and tells whether there was one.
    fn remove(&mut self, oid: &[u8]) -> Result<bool, KeepFault>
        ensures answer { IfOk result (λ there. IfSome (kept self.old) (λ told.
            there ≡ is_kept oid.now told)) }
        ensures done { OnOk result (kept self.new ≡ option_map (without oid.now) (kept self.old)) }
        ensures stays { OnErr result (kept self.new ≡ kept self.old) }
        ensures no_file { file self.old ≡ None → IsErrOf result KeepFault.Failed }
        ensures same_file { file self.new ≡ file self.old }
        ensures lasting { faults self.old ≤ faults self.new }
        ensures cause { IsErrOf result KeepFault.Failed
            → Rose (faults self.old) (faults self.new) };
}

/// A keeper whose records are in files. Its other calls use the file that was opened last.
pub trait Keeping: Keeper {
    /// Opens the file of this name, which is made where there is none.
    fn keep(&mut self, name: &str) -> Result<(), KeepFault>
        ensures open { OnOk result (Self.file self.new ≡ Some name.now) }
        ensures stays { OnErr result (Self.file self.new ≡ Self.file self.old) }
        ensures same { Self.kept self.new ≡ Self.kept self.old }
        ensures lasting { Self.faults self.old ≤ Self.faults self.new }
        ensures cause { IsErrOf result KeepFault.Failed →
            Rose (Self.faults self.old) (Self.faults self.new) };
}
