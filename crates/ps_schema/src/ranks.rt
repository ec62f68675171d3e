//! Ranks of definitions: one for all that lead to one another, and a higher one for those behind.
//!
//! No clause speaks of them: who gets ranks looks itself whether they fall anywhere.
use crate::indexed::Indexed;
use crate::{Form, Pattern};
use pv_value::NoMemory;
use std::alloc::Global;

/// What is to be done in a walk.
#[derive(Clone, Copy, Drop)]
enum Step {
    /// To go on behind the definition at a place.
    Enter(usize),
    /// The walk has been everywhere behind it.
    Leave(usize),
}

/// For the definition at each place the places of others.
type Links = Vec<Vec<usize>>;

/// The rank of the definition at each place, from 1 on. The last one that a walk in depth leaves is
/// behind no other, but for those that it leads to and that lead to it, and so on with the rest.
pub(crate) fn ranks(alloc: Global, defs: &Indexed) -> Result<Vec<usize>, NoMemory> {
    let asked = all_asked(alloc, defs)?;
    let askers = turned(alloc, &asked)?;
    let mut left = left_in_turn(alloc, &asked)?;
    let mut ranks = vec![in alloc; 0; asked.len()]?;
    for rank in 1..usize::MAX {
        let Some(place) = left.pop() else {
            break;
        };
        give_rank(alloc, &askers, place, rank, &mut ranks)?;
    }
    Ok(ranks)
}

/// For which others each definition asks at the same value.
fn all_asked(alloc: Global, defs: &Indexed) -> Result<Links, NoMemory> {
    let mut all = Vec::new(alloc);
    for definition in defs.all() {
        let mut asked = Vec::new(alloc);
        list_asked(defs, &definition.pattern, &mut asked)?;
        all.push(asked)?;
    }
    Ok(all)
}

/// Adds the places of the definitions for which the pattern asks at the same value.
#[cycle(list_asked)]
fn list_asked(defs: &Indexed, pattern: &Pattern, asked: &mut Vec<usize>) -> Result<(), NoMemory> {
    match &pattern.form {
        Form::Name(name) => {
            if let Some(place) = defs.place(name.as_bytes()) {
                asked.push(place)?;
            }
            Ok(())
        }
        Form::OneOf(patterns) => list_all_asked(defs, patterns, asked),
        Form::AllOf(patterns) => list_all_asked(defs, patterns, asked),
        _ => Ok(()),
    }
}

#[cycle(list_asked)]
fn list_all_asked(defs: &Indexed, all: &[Pattern], asked: &mut Vec<usize>) -> Result<(), NoMemory> {
    for pattern in all {
        list_asked(defs, pattern, asked)?;
    }
    Ok(())
}

/// The same links, each from its other end.
fn turned(alloc: Global, links: &[Vec<usize>]) -> Result<Links, NoMemory> {
    let mut turned = Vec::new(alloc);
    for _ in links {
        turned.push(Vec::new(alloc))?;
    }
    for (from, all) in links.iter().enumerate() {
        for to in all {
            if let Some(back) = turned.get_mut(*to) {
                back.push(from)?;
            }
        }
    }
    Ok(turned)
}

/// All places, each once a walk in depth has been everywhere behind it.
fn left_in_turn(alloc: Global, asked: &[Vec<usize>]) -> Result<Vec<usize>, NoMemory> {
    let mut left = Vec::new(alloc);
    let mut seen = vec![in alloc; false; asked.len()]?;
    let mut steps = Vec::new(alloc);
    for start in 0..asked.len() {
        steps.push(Step::Enter(start))?;
        for _ in 0..usize::MAX {
            match steps.pop() {
                Some(Step::Enter(place)) => enter(asked, place, &mut seen, &mut steps)?,
                Some(Step::Leave(place)) => left.push(place)?,
                None => break,
            }
        }
    }
    Ok(left)
}

/// Goes on behind the definition at the place, where the walk hasn't been there.
fn enter(
    asked: &[Vec<usize>],
    place: usize,
    seen: &mut [bool],
    steps: &mut Vec<Step>,
) -> Result<(), NoMemory> {
    if place >= seen.len() || place >= asked.len() || seen[place] {
        return Ok(());
    }
    seen[place] = true;
    steps.push(Step::Leave(place))?;
    for next in &asked[place] {
        steps.push(Step::Enter(*next))?;
    }
    Ok(())
}

/// Gives the rank to the definition at the place, and to all that lead there and have none.
fn give_rank(
    alloc: Global,
    askers: &[Vec<usize>],
    start: usize,
    rank: usize,
    ranks: &mut [usize],
) -> Result<(), NoMemory> {
    let mut places = Vec::new(alloc);
    places.push(start)?;
    for _ in 0..usize::MAX {
        let Some(place) = places.pop() else {
            break;
        };
        if place < ranks.len() && place < askers.len() && ranks[place] == 0 {
            ranks[place] = rank;
            places.extend_from_slice(&askers[place])?;
        }
    }
    Ok(())
}
