//! Tables of cases: a line each, with what a call of the codecs or the hash is given and what it
//! answers.
ghost use Rattle.std.specs.Prelude.{◌≡◌, ◌≢◌, ◌+◌, ℕ, List, None, IfOk, IfErr, IfSome, OnOk, All};
ghost use Rattle.std.specs.Prelude.{count_by};
ghost use Rattle.std.specs.Prelude.{[], length, string_bytes};
ghost use Rattle.row_cases.specs.Tables.{table_named, given_form, IsWanted, Gives};
ghost use Rattle.row_cases.specs.Cases.{lines_of, is_case, SidesPass, Passes, LinePasses};
ghost use Rattle.row_cases.specs.Cases.{TableHolds};
ghost use Rattle.row_cases.specs.Cases.{IsJudged, case_told};
ghost use Rattle.row_cases.specs.Findings.{AreJudged};
ghost use Rattle.row_cases.specs.declared.faults.Fault.TheVariants as fault;

use crate::codecs::{
    Answer, binary_fronts, binary_stop, canonical, first_stop, first_value, later_stop, next_of,
    printed, spelled, text_fronts, tokens_of, written,
};
use crate::differences::answers_differ;
use crate::faults::Fault;
use crate::hashes::{digest_of, mac_of};
use crate::spelling::{Form, bytes_in};
use crate::tally::Findings;
use std::alloc::{AllocError, Global};

/// Which call the cases of a table try.
#[derive(Clone, Copy)]
pub enum Table {
    /// Texts whose first value stops.
    TextFaults,
    /// Texts that stop behind their first value.
    LaterTextFaults,
    /// Texts and the written spellings of their values.
    Texts,
    /// Texts, their first value printed, and where it ends.
    FirstValues,
    /// The last bytes of a text, the next value printed, and how many bytes are left.
    NextValues,
    /// The last bytes of a text of 100 bytes, whose next value stops.
    NextFaults,
    /// Bytes at which reading stops.
    BinaryFaults,
    /// Bytes that spell a value, and it printed.
    Binary,
    /// Texts of a value, and it printed.
    Printed,
    /// Texts of a value, and its canonical form.
    Canonical,
    /// Texts and their tokens.
    Tokens,
    /// Texts that have a faulty token.
    TokenFaults,
    /// Texts of a value, and where each front of them stops.
    TextFronts,
    /// Bytes of a value, and where each front of them stops.
    BinaryFronts,
    /// Keys and messages, and the digest.
    Digests,
    /// Keys and messages, and the code.
    Macs,
}

/// The table of a file's name.
pub fn find_table(name: &str) -> Option<Table>
    ensures { result ≡ table_named name.now }
{
    match name {
        "text_faults" => Some(Table::TextFaults),
        "later_text_faults" => Some(Table::LaterTextFaults),
        "texts" => Some(Table::Texts),
        "first_values" => Some(Table::FirstValues),
        "next_values" => Some(Table::NextValues),
        "next_faults" => Some(Table::NextFaults),
        "binary_faults" => Some(Table::BinaryFaults),
        "binary" => Some(Table::Binary),
        "printed" => Some(Table::Printed),
        "canonical" => Some(Table::Canonical),
        "tokens" => Some(Table::Tokens),
        "token_faults" => Some(Table::TokenFaults),
        "text_fronts" => Some(Table::TextFronts),
        "binary_fronts" => Some(Table::BinaryFronts),
        "blake2s" => Some(Table::Digests),
        "hmac" => Some(Table::Macs),
        _ => None,
    }
}

impl Table {
    /// How what is given to the call is written.
    fn given_form(self) -> Form
        ensures { result ≡ given_form self }
    {
        match self {
            Table::BinaryFaults
            | Table::Binary
            | Table::BinaryFronts
            | Table::Digests
            | Table::Macs => Form::Hex,
            _ => Form::Text,
        }
    }

    /// What has to be answered, of what stands behind the arrow.
    fn wanted(self, alloc: Global, text: &str) -> Result<Answer, Fault>
        ensures { IfOk result (λ a. IsWanted self text.now a) }
    {
        match self {
            Table::Texts | Table::Canonical | Table::Digests | Table::Macs => {
                Ok(Answer::Bytes(bytes_in(alloc, Form::Hex, text)?))
            }
            Table::TextFaults
            | Table::LaterTextFaults
            | Table::NextFaults
            | Table::BinaryFaults
            | Table::TokenFaults => Ok(Answer::Stops(String::from_str(alloc, text)?)),
            _ => match String::from_utf8(bytes_in(alloc, Form::Text, text)?) {
                Ok(text) => Ok(Answer::Text(text)),
                Err(_) => Err(Fault::Form("an answer that isn't UTF-8")),
            },
        }
    }

    /// What the call answers.
    fn answer(self, alloc: Global, given: &[u8]) -> Result<Answer, Fault>
        ensures { IfOk result (λ a. Gives self given.now a) }
    {
        match self {
            Table::TextFaults => first_stop(alloc, given),
            Table::LaterTextFaults => later_stop(alloc, given),
            Table::Texts => written(alloc, given),
            Table::FirstValues => first_value(alloc, given),
            Table::NextValues | Table::NextFaults => next_of(alloc, given),
            Table::BinaryFaults => binary_stop(alloc, given),
            Table::Binary => spelled(alloc, given),
            Table::Printed => printed(alloc, given),
            Table::Canonical => canonical(alloc, given),
            Table::Tokens | Table::TokenFaults => tokens_of(alloc, given),
            Table::TextFronts => text_fronts(alloc, given),
            Table::BinaryFronts => binary_fronts(alloc, given),
            Table::Digests => digest_of(alloc, given),
            Table::Macs => mac_of(alloc, given),
        }
    }

    /// What differs in a case, none where nothing does.
    fn difference(self, alloc: Global, line: &str) -> Result<Option<String>, Fault>
        ensures { IfOk result (λ found. found ≡ None → Passes self line.now) }
    {
        let Some((given, wanted)) = line.split_once("=>") else {
            return Err(Fault::Form("no => in the line"));
        };
        self.sides_differ(alloc, given.trim_matches(' '), wanted.trim_matches(' '))
    }

    /// What differs between what is wanted and what the call answers of what is given.
    fn sides_differ(self, alloc: Global, given: &str, wanted: &str) -> Result<Option<String>, Fault>
        ensures { IfOk result (λ found. found ≡ None → SidesPass self given.now wanted.now) }
    {
        let given = bytes_in(alloc, self.given_form(), given)?;
        let wanted = self.wanted(alloc, wanted)?;
        let answer = self.answer(alloc, &given)?;
        Ok(answers_differ(alloc, &wanted, &answer)?)
    }
}

/// What came of the cases of the table of a file's name, the lines of its text: each is counted,
/// and where nothing differs each passes.
pub fn judge_table(alloc: Global, name: &str, text: &str) -> Result<Findings, Fault>
    ensures counted { IfOk result (λ found. found.passed + length found.differences.items
        ≡ count_by is_case (lines_of text.now)) }
    ensures passing { IfOk result (λ found. found.differences.items ≡ []
        → TableHolds name.now text.now) }
    ensures unnamed { IfErr result (λ f. f ≢ fault.NoMemory → table_named name.now ≡ None) }
{
    match find_table(name) {
        Some(table) => Ok(judge_cases(alloc, table, text)?),
        None => Err(Fault::Form("no table of this name")),
    }
}

fn judge_cases(alloc: Global, table: Table, text: &str) -> Result<Findings, AllocError>
    ensures { IfOk result (AreJudged is_case (lines_of text.now)
        (All (LinePasses table) (lines_of text.now))) }
{
    let mut findings = Findings::new(alloc);
    let mut place = 0usize;
    for line in text.split('\n') {
        place = place.saturating_add(1);
        judge_line(alloc, table, place, line, &mut findings)?;
    }
    Ok(findings)
}

/// Notes what came of a line at its place: nothing, where it is no case.
fn judge_line(
    alloc: Global,
    table: Table,
    place: usize,
    line: &str,
    findings: &mut Findings,
) -> Result<(), AllocError>
    ensures { OnOk result (IsJudged table line.now findings.old findings.new) }
{
    if is_case(line) {
        let found = judge_case(alloc, table, place, line)?;
        findings.note(found)?;
    }
    Ok(())
}

/// Whether a line is neither empty nor a comment.
fn is_case(line: &str) -> bool
    ensures { result ≡ is_case line.now }
{
    !line.is_empty() && !line.starts_with("# ") && line != "#"
}

/// What differs in a case at its place, none where nothing does.
fn judge_case(
    alloc: Global,
    table: Table,
    place: usize,
    line: &str,
) -> Result<Option<String>, AllocError>
    ensures passing { IfOk result (λ found. found ≡ None → Passes table line.now) }
    ensures told { IfOk result (λ found. IfSome found (λ s.
        (why : List ℕ) × (string_bytes s ≡ case_told place line.now why))) }
{
    match table.difference(alloc, line) {
        Ok(None) => Ok(None),
        Ok(Some(what)) => Ok(Some(named(alloc, place, line, what.as_str())?)),
        Err(fault) => {
            let why = format!(in alloc; "{fault}")?;
            Ok(Some(named(alloc, place, line, why.as_str())?))
        }
    }
}

fn named(alloc: Global, place: usize, line: &str, what: &str) -> Result<String, AllocError>
    ensures { IfOk result (λ s. string_bytes s ≡ case_told place line.now what.now) }
{
    format!(in alloc; "{place}: {line}: {what}")
}
