//! Runs the worked rows and the tables of cases that lie in `data/`, prints which of them differ,
//! how many of each file passed and how many files there were, and ends with 1 where one differs, a
//! file can't be read or a folder has none.
//!
//! `data/rows/` has files of rows, each what dsd is given and what has to come of it:
//!
//!     row a set stands in the order of its bytes
//!     words canon
//!     input values #{1 -1 256 "a"}
//!     status 0
//!     output hex b6 b0 01 01 b0 01 ff b0 02 01 00 b1 01 61 84
//!
//! Bytes are written as `text`, in `hex` or as `values` in text, behind that word or below it on
//! lines that begin with a bar. `%HH` is a byte, `%(N TEXT%)` a repetition, and `%[VALUES%]` a byte
//! string of written spellings. Behind the status stands the line on standard error. `input` and
//! `output` may also say which calls fail.
//!
//! `data/steps/` has files of rows for the machine alone, each a list of steps that are done to a
//! hub and of questions that are asked of it, a case a line:
//!
//!     row a sync is answered
//!     <arrive 1> => <opened 1>
//!     <packet 1 [[0 <S #:[0 5]>]]> => taken
//!     work => ran
//!     <turn 17> => <sent [[5 <M #t>]]>
//!     pending => 0
//!
//! Both sides are values in text, and repetitions may stand in them. `64 times` before a step has
//! it done so often. A packet stands as on the wire.
//!
//! `data/tables/` has tables for the calls of the codecs and of schemas, a case a line: what the
//! call is given, an arrow `=>`, and what it answers. `data/README` has all of it.
#![tactic(auto)]

ghost use Rattle.std.specs.Prelude.{◌≡◌, ◌≢◌, ◌≤◌, [], length, None, IfOk, IfErr};
ghost use Rattle.row_cases.specs.Findings.{capped_sum};
ghost use Rattle.row_cases.specs.Tables.{table_named as codec_table_named};
ghost use Rattle.row_cases.specs.declared.faults.Fault.TheVariants as fault;
ghost use Rattle.row_schemas.specs.Tables.{table_named};
ghost use Rattle.dsd_rows.specs.Counts.{IsRunOf, RanEach};
ghost use Rattle.dsd_rows.specs.Files.{FileHolds, TableHolds};

mod ran;

use crate::ran::{AllRan, Ran};
use row_cases::{Fault, Findings, Tally, one_difference};
use row_schemas::find_table;
use std::alloc::{AllocError, Global};
use std::process::ExitCode;
use std::rt::Runtime;
use std::{fs, io};

/// The folders of data, each with files of one kind.
#[derive(Clone, Copy)]
pub enum Folder {
    Rows,
    Steps,
    Tables,
}

impl Folder {
    fn name(self) -> &'static str {
        match self {
            Folder::Rows => "rows",
            Folder::Steps => "steps",
            Folder::Tables => "tables",
        }
    }
}

fn main(rt: HostRuntime) -> ExitCode {
    match run(&rt) {
        Ok(ran) if ran.cases().is_clean() => ExitCode::SUCCESS,
        _ => ExitCode::FAILURE,
    }
}

/// Runs all files, and prints what came of each. Of each folder a file at least was run, where no
/// case of it failed.
fn run<R: Runtime + AllocGlobal>(rt: &R) -> io::Result<AllRan>
    ensures { IfOk result RanEach }
{
    let ran = AllRan {
        rows: run_folder(rt, Folder::Rows)?,
        steps: run_folder(rt, Folder::Steps)?,
        tables: run_folder(rt, Folder::Tables)?,
    };
    let files = ran.files();
    let Tally { passed, failed } = ran.cases();
    println!(rt; "rows: {files} files, {passed} passed, {failed} failed")?;
    Ok(ran)
}

/// Runs the files of a folder, in the order of their names. One that can't be listed, or in which
/// nothing lies, is one difference.
fn run_folder<R: Runtime + AllocGlobal>(rt: &R, folder: Folder) -> io::Result<Ran>
    ensures { IfOk result (IsRunOf folder) }
{
    match names_in(rt, folder.name()) {
        Ok(names) if !names.is_empty() => run_files(rt, folder, &names),
        Ok(_) => fail_folder(rt, folder, "nothing lies in it"),
        Err(_) => fail_folder(rt, folder, "it can't be listed"),
    }
}

/// A difference for a folder, of which no file is run.
fn fail_folder<R: Runtime + AllocGlobal>(rt: &R, folder: Folder, why: &str) -> io::Result<Ran>
    ensures folder { IfOk result (λ ran. ran.folder ≡ folder) }
    ensures failed { IfOk result (λ ran. 1 ≤ ran.cases.failed) }
{
    let name = folder.name();
    println!(rt; "{name}: {why}")?;
    let mut ran = Ran::nothing(folder);
    ran.add_fault(&one_difference(rt.alloc(), why)?);
    Ok(ran)
}

/// Runs the files of these names, each of which is counted.
fn run_files<R: Runtime + AllocGlobal>(rt: &R, folder: Folder, names: &[String]) -> io::Result<Ran>
    ensures folder { IfOk result (λ ran. ran.folder ≡ folder) }
    ensures files { IfOk result (λ ran. ran.files ≡ capped_sum 0 (length names.now)) }
{
    let mut ran = Ran::nothing(folder);
    for name in names {
        let name = name.as_str();
        let findings = findings_of(rt, folder, name)?;
        print_findings(rt, folder.name(), name, &findings)?;
        ran.add(&findings);
    }
    Ok(ran)
}

/// Prints what differs in a file, and how many of it passed and failed.
fn print_findings<R: Runtime + AllocGlobal>(
    rt: &R,
    folder: &str,
    name: &str,
    findings: &Findings,
) -> io::Result<()> {
    for line in &findings.differences {
        println!(rt; "{folder}/{name}: {line}")?;
    }
    let (passed, failed) = (findings.passed, findings.failed());
    println!(rt; "{folder}/{name}: {passed} passed, {failed} failed")
}

/// The names of what lies in a folder, in ascending order.
fn names_in<R: Runtime + AllocGlobal>(rt: &R, folder: &str) -> io::Result<Vec<String>> {
    let mut names = Vec::new(rt.alloc());
    for entry in fs::read_dir(rt, folder)? {
        let entry = entry?;
        names.push(String::from_str(rt.alloc(), entry.file_name())?)?;
    }
    names.sort()?;
    Ok(names)
}

/// What came of a file. One that can't be read or judged is one difference.
fn findings_of<R: Runtime + AllocGlobal>(
    rt: &R,
    folder: Folder,
    name: &str,
) -> Result<Findings, AllocError> {
    let alloc = rt.alloc();
    let path = format!(in alloc; "{}/{name}", folder.name())?;
    match fs::read_to_string(rt, path.as_str()) {
        Ok(text) => findings_in(alloc, folder, name, text.as_str()),
        Err(_) => one_difference(alloc, "it can't be read"),
    }
}

/// What came of the text of a file: where nothing differs it holds.
fn findings_in(
    alloc: Global,
    folder: Folder,
    name: &str,
    text: &str,
) -> Result<Findings, AllocError>
    ensures { IfOk result (λ found. found.differences.items ≡ []
        → FileHolds folder name.now text.now found.passed) }
{
    match judge(alloc, folder, name, text) {
        Ok(findings) => Ok(findings),
        Err(fault) => {
            let why = format!(in alloc; "{fault}")?;
            one_difference(alloc, why.as_str())
        }
    }
}

fn judge(alloc: Global, folder: Folder, name: &str, text: &str) -> Result<Findings, Fault>
    ensures { IfOk result (λ found. found.differences.items ≡ []
        → FileHolds folder name.now text.now found.passed) }
{
    match folder {
        Folder::Rows => Ok(row_runs::judge_file(alloc, text)?),
        Folder::Steps => Ok(row_steps::judge_file(alloc, text)?),
        Folder::Tables => judge_in_table(alloc, name, text),
    }
}

/// What came of the cases of a table: one of schemas, or one of the codecs and the hash.
fn judge_in_table(alloc: Global, name: &str, text: &str) -> Result<Findings, Fault>
    ensures passing { IfOk result (λ found. found.differences.items ≡ []
        → TableHolds (table_named name.now) name.now text.now) }
    ensures unnamed { IfErr result (λ f. f ≢ fault.NoMemory
        → (table_named name.now ≡ None) × (codec_table_named name.now ≡ None)) }
{
    match find_table(name) {
        Some(table) => Ok(row_schemas::judge_table(alloc, table, text)?),
        None => row_cases::judge_table(alloc, name, text),
    }
}
