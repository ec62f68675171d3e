//! What passes caveats.
ghost use Rattle.std.specs.Prelude.{◌≡◌, IfOk, option_and_then, if◌then◌else◌, Some, None};
ghost use Rattle.sr_caveat.specs.View.{listed_rewrites};
ghost use Rattle.sr_pass.specs.Binding.{bound};
ghost use Rattle.sr_pass.specs.Filling.{filled};
ghost use Rattle.sr_pass.specs.Passing.{passed, applied, if_fits, rewritten};

use crate::filling::made;
use crate::matching::{bindings, matches};
use crate::sizes::fits;
use pv_value::{NoMemory, Value};
use sr_caveat::{CPat, Caveat, Rewrite, Rule, Tmpl};
use std::alloc::Global;

/// What guards judge by: a schema.
pub trait Judge {
    ghost use Rattle.std.specs.Prelude.{◌≡◌, List};
    ghost use Rattle.ps_schema.specs.Names.{knows};
    ghost use Rattle.ps_schema.specs.Conforms.{conforms};
    ghost use Rattle.ps_schema.specs.declared.Definition.{Definition};

    /// The schema's definitions.
    ghost schema: { Self → List Definition };

    /// Whether a name has a definition.
    fn knows(&self, name: &[u8]) -> bool
        ensures { result ≡ knows (schema self.now) name.now };

    /// Whether a value conforms to a name's definition. To a name that has none nothing conforms.
    fn judge(&self, name: &[u8], value: &Value) -> bool
        ensures { result ≡ conforms (schema self.now) name.now value.now };
}

/// The schema that defines no name, so that each guard refuses.
#[derive(Clone, Copy, Debug, Drop)]
pub struct NoNames;

impl Judge for NoNames {
    ghost use Rattle.std.specs.Prelude.{[]};

    ghost schema = { λ j. [] };

    fn knows(&self, _: &[u8]) -> bool {
        false
    }

    fn judge(&self, _: &[u8], _: &Value) -> bool {
        false
    }
}

/// What passes a list of caveats, of which the oldest stands first: the newest comes first, and
/// what it gives goes to the one before it. What is too heavy or too deep after a caveat is
/// refused. Where there is no caveat, the value passes as it is.
pub fn pass<J: Judge>(
    alloc: Global,
    caveats: &[Caveat],
    value: &Value,
    judge: &J,
) -> Result<Option<Value>, NoMemory>
    ensures { IfOk result (λ w. w ≡ passed (J.schema judge.now) caveats.now value.now) }
{
    let mut passing = value.copy()?;
    for left in 0..caveats.len() {
        let place = caveats.len() - 1 - left;
        let Some(next) = apply(alloc, &caveats[place], &passing, judge)? else {
            return Ok(None);
        };
        passing = next;
    }
    Ok(Some(passing))
}

/// What one caveat makes of a value, within the bounds.
fn apply<J: Judge>(
    alloc: Global,
    caveat: &Caveat,
    value: &Value,
    judge: &J,
) -> Result<Option<Value>, NoMemory>
    ensures { IfOk result (λ w. w ≡ applied (J.schema judge.now) caveat.now value.now) }
{
    match &*caveat.rule {
        Rule::Rewrite(rewrite) => rewritten(alloc, &rewrite.pattern, &rewrite.template, value),
        Rule::Or(rewrites) => first_rewritten(alloc, rewrites, value),
        Rule::Reject(pattern) => kept(!matches(pattern, value), value),
        Rule::Guard(name) => kept(judge.judge(name.as_bytes(), value), value),
    }
}

/// What the template makes of what the pattern binds.
fn rewritten(
    alloc: Global,
    pattern: &CPat,
    template: &Tmpl,
    value: &Value,
) -> Result<Option<Value>, NoMemory>
    ensures { IfOk result (λ w. w ≡ option_and_then if_fits
        (option_and_then (filled template.now) (bound pattern.now value.now))) }
{
    match bindings(alloc, pattern, value)? {
        Some(found) => made(alloc, template, &found),
        None => Ok(None),
    }
}

/// What the first rewrite that matches makes of the value.
fn first_rewritten(
    alloc: Global,
    rewrites: &[Rewrite],
    value: &Value,
) -> Result<Option<Value>, NoMemory>
    ensures { IfOk result (λ w. w
        ≡ option_and_then if_fits (rewritten (listed_rewrites rewrites.now) value.now)) }
{
    for rewrite in rewrites {
        if matches(&rewrite.pattern, value) {
            return rewritten(alloc, &rewrite.pattern, &rewrite.template, value);
        }
    }
    Ok(None)
}

/// The value as it is, where it isn't refused.
fn kept(is_kept: bool, value: &Value) -> Result<Option<Value>, NoMemory>
    ensures { IfOk result (λ w. w
        ≡ option_and_then if_fits (if is_kept then Some value.now else None)) }
{
    if is_kept && fits(value) {
        Ok(Some(value.copy()?))
    } else {
        Ok(None)
    }
}
