//! A file of rows as its sections: a line with a keyword, and the lines of its body.
ghost use Rattle.std.specs.Prelude.{◌≡◌, ◌++◌, ◌∷◌, [], Some, map, IfOk, OnOk, string_bytes};
ghost use Rattle.row_files.specs.Lines.{IsSectionLine};
ghost use Rattle.row_files.specs.Sections.{section_told, with_more, with_line, AreSections};

use crate::faults::LineFault;
use crate::lines::{is_left_out, without_blank, word_and_rest};
use row_cases::Fault;
use std::alloc::Global;

/// A keyword and what stands behind it.
#[derive(Drop)]
pub struct Section {
    /// The line of the keyword, counted from 1.
    pub line: usize,
    pub keyword: String,
    /// What follows the keyword on its line.
    pub rest: String,
    /// The lines that begin with a bar, without it, each with its line feed.
    pub body: String,
}

/// What a line of a file is.
#[derive(Clone, Copy)]
enum Line<'a> {
    /// Empty, or a comment.
    Nothing,
    /// A line of a body.
    More(&'a str),
    /// A keyword, and what follows it.
    Says(&'a str, &'a str),
}

fn line_of(line: &str) -> Line<'_>
    ensures { IsSectionLine line.now result }
{
    if is_left_out(line) {
        return Line::Nothing;
    }
    if let Some(rest) = line.strip_prefix('|') {
        return Line::More(without_blank(rest));
    }
    let (keyword, rest) = word_and_rest(line);
    Line::Says(keyword, rest)
}

/// The sections of a file. A line of a body before the first keyword is refused.
pub fn sections_of(alloc: Global, text: &str) -> Result<Vec<Section>, LineFault>
    ensures { IfOk result (λ sections.
        AreSections text.now (map section_told sections.items)) }
{
    let mut sections = Vec::new(alloc);
    let mut place = 1usize;
    for line in text.split('\n') {
        if let Err(fault) = add_line(alloc, &mut sections, place, line) {
            return Err(LineFault { line: place, fault });
        }
        place = place.saturating_add(1);
    }
    Ok(sections)
}

/// Takes in a line at its place.
fn add_line(
    alloc: Global,
    sections: &mut Vec<Section>,
    place: usize,
    line: &str,
) -> Result<(), Fault>
    ensures { OnOk result (with_line place line.now (map section_told sections.old.items)
        ≡ Some (map section_told sections.new.items)) }
{
    match line_of(line) {
        Line::Nothing => Ok(()),
        Line::More(rest) => add_more(sections, rest),
        Line::Says(keyword, rest) => {
            sections.push(Section {
                line: place,
                keyword: String::from_str(alloc, keyword)?,
                rest: String::from_str(alloc, rest)?,
                body: String::new(alloc),
            })?;
            Ok(())
        }
    }
}

/// Takes a line into the body of the last section.
fn add_more(sections: &mut Vec<Section>, line: &str) -> Result<(), Fault>
    ensures { OnOk result (with_more (line.now ++ 10 ∷ []) (map section_told sections.old.items)
        ≡ Some (map section_told sections.new.items)) }
{
    let Some(last) = sections.pop() else {
        return Err(Fault::Form("a body without a keyword"));
    };
    let section = with_body_line(last, line)?;
    sections.push(section)?;
    Ok(())
}

/// The section with a line more in its body.
fn with_body_line(section: Section, line: &str) -> Result<Section, Fault>
    ensures { IfOk result (λ longer. section_told longer
        ≡ record (section_told section) {
          body = string_bytes section.body ++ (line.now ++ 10 ∷ []);
        }) }
{
    let Section {
        line: place,
        keyword,
        rest,
        mut body,
    } = section;
    body.push_str(line)?;
    body.push('\n')?;
    Ok(Section {
        line: place,
        keyword,
        rest,
        body,
    })
}
