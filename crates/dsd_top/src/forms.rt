//! The forms in which values are written, and what else is made of a value.
ghost use Rattle.std.specs.Prelude.{◌≡◌, ◌++◌, OnOk, IfOk};
ghost use Rattle.dsd_top.specs.Forms.{in_form, verdict, made_of, IsKnown};

use ps_check::conforms;
use ps_schema::Schema;
use pv_binary::write_into;
use pv_canon::canon_into;
use pv_print::print_into;
use pv_value::{NoMemory, Value, push_bytes};
use std::alloc::Global;

/// How a value is written.
#[derive(Clone, Copy)]
pub enum Form {
    /// In its written binary spelling.
    Written,
    /// In its canonical binary spelling.
    Canonical,
    /// As text, on a line of its own.
    Printed,
}

/// Appends the value in this form.
#[inline(always)]
fn push_value(alloc: Global, out: &mut Vec<u8>, value: &Value, form: Form) -> Result<(), NoMemory>
    ensures { OnOk result (out.new.items ≡ out.old.items ++ in_form form value.now) }
{
    match form {
        Form::Written => write_into(out, value),
        Form::Canonical => canon_into(alloc, out, value),
        Form::Printed => {
            print_into(out, value)?;
            out.push(b'\n')?;
            Ok(())
        }
    }
}

/// What is made of each value of an input.
#[derive(Clone, Copy)]
pub enum Each<'a> {
    /// The value itself.
    In(Form),
    /// Whether it conforms to the schema's name.
    Verdict(&'a Schema, &'a str),
}

/// Whether a value conforms, on a line.
fn verdict(conforms: bool) -> &'static str
    ensures { result.now ≡ verdict conforms }
{
    if conforms { "yes\n" } else { "no\n" }
}

/// Appends what is made of the value, and lets go of it.
#[inline(always)]
pub fn push_made(alloc: Global, out: &mut Vec<u8>, value: Value, each: Each) -> Result<(), NoMemory>
    requires { IsKnown each }
    ensures { OnOk result (out.new.items ≡ out.old.items ++ made_of each.entry value) }
{
    match each {
        Each::In(form) => push_value(alloc, out, &value, form),
        Each::Verdict(schema, name) => {
            let line = verdict(conforms(schema, name.as_bytes(), &value));
            push_bytes(out, line.as_bytes())
        }
    }
}

/// The value in this form.
pub fn value_in(alloc: Global, value: &Value, form: Form) -> Result<Vec<u8>, NoMemory>
    ensures { IfOk result (λ bytes. bytes.items ≡ in_form form value.now) }
{
    let mut out = Vec::new(alloc);
    push_value(alloc, &mut out, value, form)?;
    Ok(out)
}
