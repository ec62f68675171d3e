//! Rows: what the program is given, and what it has to answer.
ghost use Rattle.std.specs.Prelude.{◌≡◌, ℕ, ◌++◌, [], false, map, replicate, IfOk, OnOk};
ghost use Rattle.std.specs.Prelude.{string_bytes};
ghost use Rattle.std.specs.Str.Parse.{ParsesUnsigned};
ghost use Rattle.row_files.specs.Lines.{first_word};
ghost use Rattle.row_files.specs.Sections.{section_told};
ghost use Rattle.row_files.specs.Rows.{AddsNumber, AddsWord, AreNumbers, AreWords, behind_form};
ghost use Rattle.row_files.specs.Rows.{AreWrittenIn, AreTimes, row_told, empty_row, with_end};
ghost use Rattle.row_files.specs.Rows.{nothing_said, IsPlaced, SaysPiece, SaysTakes, SaysRoom};
ghost use Rattle.row_files.specs.Rows.{SaysPuts, TakesWords, TakesInput, TakesOutput};
ghost use Rattle.row_files.specs.Rows.{TakesStatus, TakesFile, Takes, AddsSection, AreRows};
ghost use Rattle.row_files.specs.Rows.{AreRowsIn};

use crate::faults::LineFault;
use crate::lines::word_and_rest;
use crate::sections::{Section, sections_of};
use row_cases::{Fault, Outcome, bytes_in, escaped, find_form};
use std::alloc::Global;

/// What the program is given, and what has to come of it.
#[derive(Drop)]
pub struct Row {
    /// Its line, counted from 1.
    pub place: usize,
    pub name: String,
    pub words: Vec<String>,
    pub input: Vec<u8>,
    /// How many bytes a take gives at most.
    pub piece: usize,
    /// The takes that fail, counted from 0.
    pub takes: Vec<u64>,
    /// How many bytes the output holds.
    pub room: usize,
    /// The puts that fail, counted from 0.
    pub puts: Vec<u64>,
    /// The files that there are.
    pub files: Vec<RowFile>,
    pub wanted: Outcome,
    said: Said,
}

/// A file, and what it holds.
#[derive(Drop)]
pub struct RowFile {
    pub name: String,
    pub bytes: Vec<u8>,
}

/// Which of the things that a row may say but once it has said.
#[derive(Clone, Copy)]
struct Said {
    words: bool,
    pieces: bool,
    takes: bool,
    room: bool,
    puts: bool,
    status: bool,
}

impl Said {
    fn nothing() -> Said
        ensures { result ≡ nothing_said }
    {
        Said {
            words: false,
            pieces: false,
            takes: false,
            room: false,
            puts: false,
            status: false,
        }
    }
}

/// Refuses what was said before.
fn once(said: bool) -> Result<(), Fault>
    ensures { OnOk result (said ≡ false) }
{
    if said {
        return Err(Fault::Form("said before in this row"));
    }
    Ok(())
}

/// Refuses a body where there is to be none.
fn bare(body: &str) -> Result<(), Fault>
    ensures { OnOk result (body.now ≡ []) }
{
    if !body.is_empty() {
        return Err(Fault::Form("a body that belongs to no form"));
    }
    Ok(())
}

/// Refuses a body that stands elsewhere than below a form alone on its line.
fn placed(rest: &str, body: &str) -> Result<(), Fault>
    ensures { OnOk result (IsPlaced rest.now body.now) }
{
    match find_form(rest) {
        Some(_) => Ok(()),
        None => bare(body),
    }
}

/// How many bytes a take gives, where a row doesn't say it.
const PIECE: usize = 100;

/// How many bytes an output holds, where a row doesn't say it.
const ROOM: usize = 1_048_576;

/// A status that never comes, for a row that names none.
const NO_STATUS: u8 = 255;

impl Row {
    /// A row of this name in which nothing else is said.
    fn new(alloc: Global, place: usize, name: &str) -> Result<Row, Fault>
        ensures { IfOk result (λ row. row_told row ≡ empty_row place name.now) }
    {
        Ok(Row {
            place,
            name: String::from_str(alloc, name)?,
            words: Vec::new(alloc),
            input: Vec::new(alloc),
            piece: PIECE,
            takes: Vec::new(alloc),
            room: ROOM,
            puts: Vec::new(alloc),
            files: Vec::new(alloc),
            wanted: Outcome {
                status: NO_STATUS,
                line: Vec::new(alloc),
                output: Vec::new(alloc),
            },
            said: Said::nothing(),
        })
    }

    /// Takes in what a section says.
    fn take(&mut self, alloc: Global, section: &Section) -> Result<(), Fault>
        ensures { OnOk result
            (Takes (section_told section.now) (row_told self.old) (row_told self.new)) }
    {
        let rest = section.rest.as_str();
        let body = section.body.as_str();
        match section.keyword.as_str() {
            "words" => self.take_words(alloc, rest, body),
            "input" => self.take_input(alloc, rest, body),
            "output" => self.take_output(alloc, rest, body),
            "status" => self.take_status(alloc, rest, body),
            "file" => self.take_file(alloc, rest, body),
            _ => Err(Fault::Form("no keyword of rows")),
        }
    }

    fn take_words(&mut self, alloc: Global, rest: &str, body: &str) -> Result<(), Fault>
        ensures { OnOk result
            (TakesWords rest.now body.now (row_told self.old) (row_told self.new)) }
    {
        bare(body)?;
        once(self.said.words)?;
        self.words = words_of(alloc, rest)?;
        self.said.words = true;
        Ok(())
    }

    /// `pieces N`, `fails at N ..`, `times N HH`, or a form and a body.
    fn take_input(&mut self, alloc: Global, rest: &str, body: &str) -> Result<(), Fault>
        ensures placed { OnOk result (IsPlaced rest.now body.now) }
        ensures taken { OnOk result
            (TakesInput rest.now body.now (row_told self.old) (row_told self.new)) }
    {
        placed(rest, body)?;
        if let Some(piece) = rest.strip_prefix("pieces ") {
            return self.say_piece(number(piece)?);
        }
        if let Some(takes) = rest.strip_prefix("fails at ") {
            return self.say_takes(numbers(alloc, takes)?);
        }
        if let Some(times) = rest.strip_prefix("times ") {
            let bytes = bytes_of_times(alloc, times)?;
            self.input.extend_from_slice(&bytes)?;
            return Ok(());
        }
        let bytes = written_bytes(alloc, rest, body)?;
        self.input.extend_from_slice(&bytes)?;
        Ok(())
    }

    fn say_piece(&mut self, piece: usize) -> Result<(), Fault>
        ensures { OnOk result (SaysPiece piece (row_told self.old) (row_told self.new)) }
    {
        once(self.said.pieces)?;
        self.piece = piece;
        self.said.pieces = true;
        Ok(())
    }

    fn say_takes(&mut self, takes: Vec<u64>) -> Result<(), Fault>
        ensures { OnOk result (SaysTakes takes.items (row_told self.old) (row_told self.new)) }
    {
        once(self.said.takes)?;
        self.takes = takes;
        self.said.takes = true;
        Ok(())
    }

    /// `room N`, `fails at N ..`, or a form and a body.
    fn take_output(&mut self, alloc: Global, rest: &str, body: &str) -> Result<(), Fault>
        ensures placed { OnOk result (IsPlaced rest.now body.now) }
        ensures taken { OnOk result
            (TakesOutput rest.now body.now (row_told self.old) (row_told self.new)) }
    {
        placed(rest, body)?;
        if let Some(room) = rest.strip_prefix("room ") {
            return self.say_room(number(room)?);
        }
        if let Some(puts) = rest.strip_prefix("fails at ") {
            return self.say_puts(numbers(alloc, puts)?);
        }
        let bytes = written_bytes(alloc, rest, body)?;
        self.wanted.output.extend_from_slice(&bytes)?;
        Ok(())
    }

    fn say_room(&mut self, room: usize) -> Result<(), Fault>
        ensures { OnOk result (SaysRoom room (row_told self.old) (row_told self.new)) }
    {
        once(self.said.room)?;
        self.room = room;
        self.said.room = true;
        Ok(())
    }

    fn say_puts(&mut self, puts: Vec<u64>) -> Result<(), Fault>
        ensures { OnOk result (SaysPuts puts.items (row_told self.old) (row_told self.new)) }
    {
        once(self.said.puts)?;
        self.puts = puts;
        self.said.puts = true;
        Ok(())
    }

    /// A status, and the line that is written with it.
    fn take_status(&mut self, alloc: Global, rest: &str, body: &str) -> Result<(), Fault>
        ensures { OnOk result
            (TakesStatus rest.now body.now (row_told self.old) (row_told self.new)) }
    {
        bare(body)?;
        once(self.said.status)?;
        let (status, line) = word_and_rest(rest);
        self.wanted.status = status_of(status)?;
        self.wanted.line = line_with_end(alloc, line)?;
        self.said.status = true;
        Ok(())
    }

    /// A file's name, and a form and what it holds.
    fn take_file(&mut self, alloc: Global, rest: &str, body: &str) -> Result<(), Fault>
        ensures { OnOk result
            (TakesFile rest.now body.now (row_told self.old) (row_told self.new)) }
    {
        let (name, rest) = word_and_rest(rest);
        placed(rest, body)?;
        let file = file_of(alloc, name, rest, body)?;
        self.files.push(file)?;
        Ok(())
    }
}

/// A file of this name, with the bytes of a form.
fn file_of(alloc: Global, name: &str, rest: &str, body: &str) -> Result<RowFile, Fault>
    ensures name { IfOk result (λ file. string_bytes file.name ≡ name.now) }
    ensures bytes { IfOk result (λ file. AreWrittenIn rest.now body.now file.bytes.items) }
{
    let bytes = written_bytes(alloc, rest, body)?;
    let name = String::from_str(alloc, name)?;
    Ok(RowFile { name, bytes })
}

fn status_of(text: &str) -> Result<u8, Fault>
    ensures { ParsesUnsigned 8 10 text.now result }
{
    match text.parse() {
        Ok(status) => Ok(status),
        Err(_) => Err(Fault::Form("no status")),
    }
}

/// A line with its line feed, or nothing where it is empty.
fn line_with_end(alloc: Global, line: &str) -> Result<Vec<u8>, Fault>
    ensures { IfOk result (λ bytes. bytes.items ≡ with_end line.now) }
{
    let mut bytes = Vec::from_slice(alloc, line.as_bytes())?;
    if !line.is_empty() {
        bytes.push(b'\n')?;
    }
    Ok(bytes)
}

/// A number, and a byte in two digits, which comes so often.
fn bytes_of_times(alloc: Global, times: &str) -> Result<Vec<u8>, Fault>
    ensures { IfOk result (λ bytes. AreTimes times.now bytes.items) }
{
    let Some((count, digits)) = times.split_once(' ') else {
        return Err(Fault::Form("no number and byte"));
    };
    repeated(alloc, number(count)?, byte_of(digits)?)
}

fn byte_of(digits: &str) -> Result<u8, Fault>
    ensures { ParsesUnsigned 8 16 digits.now result }
{
    match u8::from_str_radix(digits, 16) {
        Ok(byte) => Ok(byte),
        Err(_) => Err(Fault::Form("no byte")),
    }
}

/// A byte so often.
fn repeated(alloc: Global, count: usize, byte: u8) -> Result<Vec<u8>, Fault>
    ensures { IfOk result (λ bytes. bytes.items ≡ replicate count byte) }
{
    Ok(vec![in alloc; byte; count]?)
}

/// The bytes of a form and what follows it, on its line or in a body.
fn written_bytes(alloc: Global, rest: &str, body: &str) -> Result<Vec<u8>, Fault>
    ensures { IfOk result (λ bytes. AreWrittenIn rest.now body.now bytes.items) }
{
    let (word, text) = form_and_text(rest, body);
    match find_form(word) {
        Some(form) => bytes_in(alloc, form, text),
        None => Err(Fault::Form("no form: text, hex or values")),
    }
}

/// The first word of a line and what follows it, or the body where there is but a word.
fn form_and_text<'a>(rest: &'a str, body: &'a str) -> (&'a str, &'a str)
    ensures word { result.0.now ≡ first_word rest.now }
    ensures text { result.1.now ≡ behind_form rest.now body.now }
{
    match rest.split_once(' ') {
        Some((word, text)) => (word, text),
        None => (rest, body),
    }
}

fn number(text: &str) -> Result<usize, Fault>
    ensures { ParsesUnsigned 64 10 text.now result }
{
    match text.parse() {
        Ok(n) => Ok(n),
        Err(_) => Err(Fault::Form("no number")),
    }
}

/// The numbers that blanks part.
fn numbers(alloc: Global, text: &str) -> Result<Vec<u64>, Fault>
    ensures { IfOk result (λ all. AreNumbers text.now all.items) }
{
    let mut all = Vec::new(alloc);
    for word in text.split(' ') {
        push_number(&mut all, word)?;
    }
    Ok(all)
}

fn push_number(all: &mut Vec<u64>, word: &str) -> Result<(), Fault>
    ensures { OnOk result (AddsNumber all.old.items word.now all.new.items) }
{
    if word.is_empty() {
        return Ok(());
    }
    let n = number(word)?;
    all.push(n as u64)?;
    Ok(())
}

/// The words that blanks part.
fn words_of(alloc: Global, text: &str) -> Result<Vec<String>, Fault>
    ensures { IfOk result (λ words. AreWords text.now (map string_bytes words.items)) }
{
    let mut words = Vec::new(alloc);
    for word in text.split(' ') {
        push_word(alloc, &mut words, word)?;
    }
    Ok(words)
}

fn push_word(alloc: Global, words: &mut Vec<String>, word: &str) -> Result<(), Fault>
    ensures { OnOk result (AddsWord (map string_bytes words.old.items) word.now
        (map string_bytes words.new.items)) }
{
    if word.is_empty() {
        return Ok(());
    }
    match String::from_utf8(escaped(alloc, word)?) {
        Ok(word) => words.push(word)?,
        Err(_) => return Err(Fault::Form("a word that isn't UTF-8")),
    }
    Ok(())
}

/// The rows of a file. One is refused in which a row says twice what it may say but once, a body
/// stands below a line that takes none, or anything stands before the first row.
pub fn rows_of(alloc: Global, text: &str) -> Result<Vec<Row>, LineFault>
    ensures { IfOk result (λ rows. AreRowsIn text.now (map row_told rows.items)) }
{
    let sections = sections_of(alloc, text)?;
    rows_in(alloc, &sections)
}

/// The rows of sections.
fn rows_in(alloc: Global, sections: &[Section]) -> Result<Vec<Row>, LineFault>
    ensures { IfOk result (λ rows. AreRows (map section_told sections.now)
        (map row_told rows.items)) }
{
    let mut rows = Vec::new(alloc);
    for section in sections {
        if let Err(fault) = add_section(alloc, &mut rows, section) {
            let line = section.line;
            return Err(LineFault { line, fault });
        }
    }
    Ok(rows)
}

fn add_section(alloc: Global, rows: &mut Vec<Row>, section: &Section) -> Result<(), Fault>
    ensures { OnOk result (AddsSection (map row_told rows.old.items) (section_told section.now)
        (map row_told rows.new.items)) }
{
    if section.keyword.as_str() == "row" {
        bare(section.body.as_str())?;
        rows.push(Row::new(alloc, section.line, section.rest.as_str())?)?;
        return Ok(());
    }
    let Some(mut row) = rows.pop() else {
        return Err(Fault::Form("a section before the first row"));
    };
    row.take(alloc, section)?;
    rows.push(row)?;
    Ok(())
}
