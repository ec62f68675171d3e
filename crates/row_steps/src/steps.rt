//! Rows of steps, tried on the hub.
ghost use Rattle.std.specs.Prelude.{◌≡◌, [], None, Option, option_map, IfOk, IfSome};
ghost use Rattle.std.specs.Prelude.{string_bytes};
ghost use Rattle.row_cases.specs.Findings.{AreJudged};
ghost use Rattle.row_files.specs.Lines.{lines_of, is_case_line};
ghost use Rattle.row_steps.specs.Hands.{Hand, first_hand, hand_of, hand_in};
ghost use Rattle.row_steps.specs.Rows.{AnswersOnce, AnswersSo, IsJudged, LinesHold, FileHolds};
ghost use Rattle.row_steps.specs.Rows.{case_told};

use crate::machines::Machine;
use pv_print::print;
use pv_value::{NoMemory, Value};
use row_asking::asked_of;
use row_cases::{Fault, Findings, one_difference};
use row_files::{Case, Line, LineFault, case_of, line_of};
use std::alloc::{AllocError, Global};

/// A row as far as it is tried: its name, and its machine.
#[derive(Drop)]
struct Trial {
    name: String,
    machine: Machine,
}

impl Trial {
    fn begin(alloc: Global, name: &str) -> Result<Trial, NoMemory>
        ensures name { IfOk result (λ trial. string_bytes trial.name ≡ name.now) }
        ensures machine { IfOk result (λ trial. hand_in trial ≡ first_hand) }
    {
        Ok(Trial {
            name: String::from_str(alloc, name)?,
            machine: Machine::begin(alloc)?,
        })
    }

    /// The row after a case, and what differs first, none where nothing does.
    fn judge(self, alloc: Global, case: &Case) -> Result<(Trial, Option<String>), Fault>
        ensures name { IfOk result (λ done. done.0.name ≡ self.name) }
        ensures holds { IfOk result (λ done. done.1 ≡ None
            → AnswersSo case.now.times case.now.asked case.now.wanted
            (hand_in self) (hand_in done.0)) }
    {
        let Trial { name, machine } = self;
        let (machine, difference) = answer_all(alloc, machine, case)?;
        Ok((Trial { name, machine }, difference))
    }

    /// A difference with its line and its row.
    fn named(
        &self,
        alloc: Global,
        place: usize,
        difference: Option<String>,
    ) -> Result<Option<String>, AllocError>
        ensures none { IfOk result (λ found. found ≡ None → difference ≡ None) }
        ensures some { IfOk result (λ found. IfSome found (λ s. IfSome difference (λ how.
            string_bytes s
            ≡ case_told place (string_bytes self.now.name) (string_bytes how)))) }
    {
        let Some(what) = difference else {
            return Ok(None);
        };
        Ok(Some(named(alloc, place, self.name.as_str(), what.as_str())?))
    }
}

fn named(alloc: Global, place: usize, row: &str, what: &str) -> Result<String, AllocError>
    ensures { IfOk result (λ s. string_bytes s ≡ case_told place row.now what.now) }
{
    format!(in alloc; "{place}: {row}: {what}")
}

/// The machine after a case, done or asked as often as it says, and what differs first, none where
/// nothing does.
fn answer_all(
    alloc: Global,
    machine: Machine,
    case: &Case,
) -> Result<(Machine, Option<String>), Fault>
    ensures { IfOk result (λ done. done.1 ≡ None
        → AnswersSo case.now.times case.now.asked case.now.wanted (hand_of machine)
        (hand_of done.0)) }
{
    let mut machine = machine;
    let mut first = None;
    for _ in 0..case.times {
        let (after, difference) = answer_once(alloc, machine, case)?;
        machine = after;
        first = first.or(difference);
    }
    Ok((machine, first))
}

/// The machine after a case, done or asked once, and what differs.
fn answer_once(
    alloc: Global,
    machine: Machine,
    case: &Case,
) -> Result<(Machine, Option<String>), Fault>
    ensures { IfOk result (λ done. done.1 ≡ None
        → AnswersOnce case.now.asked case.now.wanted (hand_of machine) (hand_of done.0)) }
{
    let asked = asked_of(alloc, &case.asked)?;
    let (after, given) = machine.answer(alloc, asked)?;
    let difference = difference(alloc, &case.wanted, &given)?;
    Ok((after, difference))
}

/// What differs between what is wanted and what is given, none where nothing does.
fn difference(alloc: Global, wanted: &Value, given: &Value) -> Result<Option<String>, Fault>
    ensures { IfOk result (λ found. found ≡ None → given.now ≡ wanted.now) }
{
    if given == wanted {
        return Ok(None);
    }
    Ok(Some(unlike(alloc, wanted, given)?))
}

fn unlike(alloc: Global, wanted: &Value, given: &Value) -> Result<String, NoMemory> {
    let wanted = print(alloc, wanted)?;
    let given = print(alloc, given)?;
    let (wanted, given) = (wanted.as_str(), given.as_str());
    Ok(format!(in alloc; "expected {wanted}, given {given}")?)
}

/// What came of the rows of a file. One that isn't written as it must be is one difference; else
/// where nothing differs each line holds.
pub fn judge_file(alloc: Global, text: &str) -> Result<Findings, AllocError>
    ensures { IfOk result (λ found. found.differences.items ≡ []
        → FileHolds text.now found.passed) }
{
    match judge_lines(alloc, text) {
        Ok(findings) => Ok(findings),
        Err(fault) => {
            let why = format!(in alloc; "{fault}")?;
            one_difference(alloc, why.as_str())
        }
    }
}

/// What came of the lines of a file: each case is counted, and where nothing differs each line
/// holds.
fn judge_lines(alloc: Global, text: &str) -> Result<Findings, LineFault>
    ensures { IfOk result (λ found. (last : Option Hand)
        × AreJudged is_case_line (lines_of text.now) (LinesHold (lines_of text.now) last) found) }
{
    let mut findings = Findings::new(alloc);
    let mut trial = None;
    let mut place = 1usize;
    for line in text.split('\n') {
        trial = match judge_line(alloc, trial, place, line, &mut findings) {
            Ok(after) => after,
            Err(fault) => return Err(LineFault { line: place, fault }),
        };
        place = place.saturating_add(1);
    }
    Ok(findings)
}

/// The row after a line: the one that the line begins, or the one of which it is a case.
fn judge_line(
    alloc: Global,
    trial: Option<Trial>,
    place: usize,
    line: &str,
    findings: &mut Findings,
) -> Result<Option<Trial>, Fault>
    ensures { IfOk result (λ after. IsJudged line.now (option_map hand_in trial)
        (option_map hand_in after) findings.old findings.new) }
{
    match (line_of(line), trial) {
        (Line::Nothing, trial) => Ok(trial),
        (Line::Row(name), _) => Ok(Some(Trial::begin(alloc, name)?)),
        (Line::Case(_), None) => Err(Fault::Form("a case before the first row")),
        (Line::Case(case), Some(trial)) => {
            let (trial, difference) = trial.judge(alloc, &case_of(alloc, case)?)?;
            findings.note(trial.named(alloc, place, difference)?)?;
            Ok(Some(trial))
        }
    }
}
