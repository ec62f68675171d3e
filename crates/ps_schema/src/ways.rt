//! Ways from names back to themselves, at one value.
ghost use Rattle.std.specs.Prelude.{◌≡◌, IfOk, OnOk, MatchOption, option_copied};
ghost use Rattle.std.specs.Bool.{Decides};
ghost use Rattle.std.specs.Str.{bytes_eq};
ghost use Rattle.ps_schema.specs.Patterns.{patterns};
ghost use Rattle.ps_schema.specs.Schemas.{asks, one_asks, leads, LeadsBack, IsFirstBack};
ghost use Rattle.ps_schema.specs.Seen.{among, Sees, NoneBack};

use crate::indexed::Indexed;
use crate::ranks::ranks;
use crate::rising::{never_fall, rises};
use crate::{Form, Pattern};
use pv_value::{NoMemory, Text};
use std::alloc::Global;

/// The name of the first definition that leads back to itself. Walks begin only at names
/// behind which ranks don't rise, so at none that doesn't lead back.
pub(crate) fn first_back(alloc: Global, defs: &Indexed) -> Result<Option<&Text>, NoMemory>
    ensures { IfOk result (λ o. MatchOption o (NoneBack defs.now defs.now)
        (λ a. IsFirstBack defs.now defs.now a.now)) }
{
    let ranks = ranks(alloc, defs)?;
    let ranked = never_fall(defs, &ranks);
    for definition in defs.all() {
        if ranked && rises(defs, &ranks, &definition.name, 1) {
            continue;
        }
        if leads_back(alloc, defs, &definition.name)? {
            return Ok(Some(&definition.name));
        }
    }
    Ok(None)
}

/// Whether the name leads back to itself. It looks behind each name once, and compares each name
/// that it meets with all that were seen.
fn leads_back(alloc: Global, defs: &Indexed, name: &Text) -> Result<bool, NoMemory>
    ensures { IfOk result (λ b. Decides b (LeadsBack defs.now name.now)) }
{
    let mut seen = Vec::new(alloc);
    see_behind(defs, name, &mut seen)?;
    let mut at = 0;
    'names: while at < seen.len() {
        let next = seen[at].copy()?;
        see_behind(defs, &next, &mut seen)?;
        at += 1;
    }
    Ok(is_among(&seen, name))
}

/// Adds the names to which a name leads at once.
fn see_behind(defs: &Indexed, name: &Text, seen: &mut Vec<Text>) -> Result<(), NoMemory>
    ensures { OnOk result
        (Sees defs.now (leads defs.now name.now) seen.old.items seen.new.items) }
{
    match defs.pattern(name.as_bytes()) {
        Some(pattern) => see(defs, pattern, seen),
        None => Ok(()),
    }
}

/// Adds the names for which the pattern asks at the same value.
#[cycle(see)]
fn see(defs: &Indexed, pattern: &Pattern, seen: &mut Vec<Text>) -> Result<(), NoMemory>
    ensures { OnOk result (Sees defs.now (asks pattern.now) seen.old.items seen.new.items) }
{
    match &pattern.form {
        Form::Name(name) => see_name(defs, name, seen),
        Form::OneOf(patterns) => see_all(defs, patterns, seen),
        Form::AllOf(patterns) => see_all(defs, patterns, seen),
        _ => Ok(()),
    }
}

#[cycle(see)]
fn see_all(defs: &Indexed, all: &[Pattern], seen: &mut Vec<Text>) -> Result<(), NoMemory>
    ensures { OnOk result
        (Sees defs.now (one_asks (patterns all.now)) seen.old.items seen.new.items) }
{
    for pattern in all {
        see(defs, pattern, seen)?;
    }
    Ok(())
}

/// Adds the name, where it has a definition and was not seen.
fn see_name(defs: &Indexed, name: &Text, seen: &mut Vec<Text>) -> Result<(), NoMemory>
    ensures { OnOk result (Sees defs.now (bytes_eq name.now) seen.old.items seen.new.items) }
{
    if is_among(seen, name) {
        return Ok(());
    }
    if !defs.knows(name.as_bytes()) {
        return Ok(());
    }
    seen.push(name.copy()?)?;
    Ok(())
}

fn is_among(seen: &[Text], name: &Text) -> bool
    ensures { result ≡ among seen.now name.now }
{
    for other in seen {
        if other.as_bytes() == name.as_bytes() {
            return true;
        }
    }
    false
}
