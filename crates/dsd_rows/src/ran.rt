//! How many files of a folder were run, and what came of them.
ghost use Rattle.std.specs.Prelude.{◌≡◌, ◌≤◌, vec_len};
ghost use Rattle.row_cases.specs.Findings.{capped_sum};

use crate::Folder;
use row_cases::{Findings, Tally};

/// How many files of a folder were run, and what came of their cases.
#[derive(Clone, Copy)]
pub struct Ran {
    pub folder: Folder,
    pub files: u64,
    pub cases: Tally,
}

/// What was run of each folder.
#[derive(Clone, Copy)]
pub struct AllRan {
    pub rows: Ran,
    pub steps: Ran,
    pub tables: Ran,
}

impl Ran {
    pub fn nothing(folder: Folder) -> Ran
        ensures folder { result.folder ≡ folder }
        ensures files { result.files ≡ 0 }
        ensures failed { result.cases.failed ≡ 0 }
    {
        Ran {
            folder,
            files: 0,
            cases: Tally::new(),
        }
    }

    /// Adds what came of a file.
    pub fn add(&mut self, findings: &Findings)
        ensures folder { self.new.folder ≡ self.old.folder }
        ensures files { self.new.files ≡ capped_sum self.old.files 1 }
        ensures failed { self.new.cases.failed
            ≡ capped_sum self.old.cases.failed (vec_len findings.now.differences) }
        ensures lasting { self.old.cases.failed ≤ self.new.cases.failed }
    {
        self.files = self.files.saturating_add(1);
        self.cases.add(findings);
    }

    /// Adds what differs in no file.
    pub fn add_fault(&mut self, findings: &Findings)
        ensures folder { self.new.folder ≡ self.old.folder }
        ensures files { self.new.files ≡ self.old.files }
        ensures failed { self.new.cases.failed
            ≡ capped_sum self.old.cases.failed (vec_len findings.now.differences) }
        ensures lasting { self.old.cases.failed ≤ self.new.cases.failed }
    {
        self.cases.add(findings);
    }
}

/// The sum of three numbers, at most the greatest `u64`.
fn sum_of(first: u64, second: u64, third: u64) -> u64
    ensures { result ≡ capped_sum (capped_sum first second) third }
{
    first.saturating_add(second).saturating_add(third)
}

impl AllRan {
    /// How many files were run.
    pub fn files(self) -> u64
        ensures { result ≡ capped_sum (capped_sum self.rows.files self.steps.files)
            self.tables.files }
    {
        sum_of(self.rows.files, self.steps.files, self.tables.files)
    }

    /// What came of all cases.
    pub fn cases(self) -> Tally
        ensures passed { result.passed
            ≡ capped_sum (capped_sum self.rows.cases.passed self.steps.cases.passed)
            self.tables.cases.passed }
        ensures failed { result.failed
            ≡ capped_sum (capped_sum self.rows.cases.failed self.steps.cases.failed)
            self.tables.cases.failed }
    {
        let (rows, steps, tables) = (self.rows.cases, self.steps.cases, self.tables.cases);
        Tally {
            passed: sum_of(rows.passed, steps.passed, tables.passed),
            failed: sum_of(rows.failed, steps.failed, tables.failed),
        }
    }
}
