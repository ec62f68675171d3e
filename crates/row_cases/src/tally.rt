//! What came of cases: how many passed, and a line for each of the others.
ghost use Rattle.std.specs.Prelude.{◌≡◌, ◌≤◌, [], ◌∷◌, None, IfSome, OnOk, IfOk, IsTrue, ◌↔◌};
ghost use Rattle.std.specs.Prelude.{vec_len, string_bytes};
ghost use Rattle.std.specs.declared.string.String.{String};
ghost use Rattle.std.specs.declared.alloc.Global.{Global};

use std::alloc::{AllocError, Global};

/// What came of the cases of a file.
#[derive(Drop)]
pub struct Findings {
    pub passed: u64,
    /// What differs, a line for each case that does.
    pub differences: Vec<String>,
}

impl Findings {
    ghost use Rattle.row_cases.specs.Findings.{HasPassed, Differs};

    pub fn new(alloc: Global) -> Findings
        ensures passed { result.passed ≡ 0 }
        ensures differences { result.differences.items ≡ [] }
    {
        Findings {
            passed: 0,
            differences: Vec::new(alloc),
        }
    }

    /// Counts a case: it passed where there is no difference.
    pub fn note(&mut self, difference: Option<String>) -> Result<(), AllocError>
        ensures passed { OnOk result (difference ≡ None → HasPassed self.old self.new) }
        ensures failed { OnOk result (IfSome difference (Differs self.old self.new)) }
    {
        match difference {
            Some(line) => self.differences.push(line)?,
            None => self.passed = self.passed.saturating_add(1),
        }
        Ok(())
    }

    pub fn failed(&self) -> usize
        ensures { result ≡ vec_len self.now.differences }
    {
        self.differences.len()
    }
}

/// One difference, and no case that passed.
pub fn one_difference(alloc: Global, line: &str) -> Result<Findings, AllocError>
    ensures passed { IfOk result (λ found. found.passed ≡ 0) }
    ensures line { IfOk result (λ found. (s : String Global)
        × (found.differences.items ≡ s ∷ []) × (string_bytes s ≡ line.now)) }
{
    let mut findings = Findings::new(alloc);
    findings.note(Some(String::from_str(alloc, line)?))?;
    Ok(findings)
}

/// How many cases passed, and how many didn't, in all files.
#[derive(Clone, Copy)]
pub struct Tally {
    pub passed: u64,
    pub failed: u64,
}

impl Tally {
    ghost use Rattle.row_cases.specs.Findings.{capped_sum};

    pub fn new() -> Tally
        ensures { result ≡ record { passed = 0; failed = 0 } }
    {
        Tally {
            passed: 0,
            failed: 0,
        }
    }

    /// Adds what came of a file.
    pub fn add(&mut self, findings: &Findings)
        ensures passed { self.new.passed ≡ capped_sum self.old.passed findings.now.passed }
        ensures failed { self.new.failed
            ≡ capped_sum self.old.failed (vec_len findings.now.differences) }
        ensures lasting { self.old.failed ≤ self.new.failed }
    {
        self.passed = self.passed.saturating_add(findings.passed);
        self.failed = self.failed.saturating_add(findings.failed() as u64);
    }

    /// Whether no case failed.
    pub fn is_clean(self) -> bool
        ensures { IsTrue result ↔ (self.failed ≡ 0) }
    {
        self.failed == 0
    }
}
