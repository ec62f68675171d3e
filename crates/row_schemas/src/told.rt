//! How a table tells what reading a schema answers.
ghost use Rattle.std.specs.Prelude.{◌≡◌, ◌++◌, codes, IfOk, string_bytes};
ghost use Rattle.std.specs.Fmt.{decimal};
ghost use Rattle.row_cases.specs.Names.{text_fault_name};
ghost use Rattle.row_schemas.specs.Told.{IsTold};

use ps_read::SchemaFault;
use pv_lex::TextKind;
use row_cases::Fault;
use std::alloc::{AllocError, Global};

/// The fault, by its name and by what it says; want of memory is none that a table tells.
pub fn fault_told(alloc: Global, fault: &SchemaFault) -> Result<String, Fault>
    ensures { IfOk result (λ s. IsTold fault.now (string_bytes s)) }
{
    match fault {
        SchemaFault::NoMemory => Err(Fault::NoMemory),
        SchemaFault::Unguarded(name) => Ok(told_name(alloc, "Unguarded", name.as_str())?),
        SchemaFault::NoSuchName(name) => Ok(told_name(alloc, "NoSuchName", name.as_str())?),
        SchemaFault::NameTwice(name) => Ok(told_name(alloc, "NameTwice", name.as_str())?),
        SchemaFault::BadSchema(n) => Ok(told_place(alloc, "BadSchema", *n)?),
        SchemaFault::NotSupported(n) => Ok(told_place(alloc, "NotSupported", *n)?),
        SchemaFault::Text(kind, place) => Ok(told_text(alloc, *kind, *place)?),
    }
}

fn told_name(alloc: Global, fault: &str, name: &str) -> Result<String, AllocError>
    ensures { IfOk result (λ s. string_bytes s ≡ fault.now ++ (codes " " ++ name.now)) }
{
    format!(in alloc; "{fault} {name}")
}

fn told_place(alloc: Global, fault: &str, n: usize) -> Result<String, AllocError>
    ensures { IfOk result (λ s. string_bytes s ≡ fault.now ++ (codes " " ++ decimal n)) }
{
    format!(in alloc; "{fault} {n}")
}

/// A fault of the text, and its place.
fn told_text(alloc: Global, kind: TextKind, place: usize) -> Result<String, AllocError>
    ensures { IfOk result (λ s. string_bytes s
        ≡ codes "Text " ++ (text_fault_name kind ++ (codes " at " ++ decimal place))) }
{
    let name = text_fault_name(kind);
    format!(in alloc; "Text {name} at {place}")
}

fn text_fault_name(kind: TextKind) -> &'static str
    ensures { result.now ≡ text_fault_name kind }
{
    match kind {
        TextKind::Unexpected => "Unexpected",
        TextKind::BadEscape => "BadEscape",
        TextKind::DecimalDouble => "DecimalDouble",
        TextKind::BadBytes => "BadBytes",
        TextKind::Unclosed => "Unclosed",
        TextKind::TooWide => "TooWide",
        TextKind::TooDeep => "TooDeep",
        TextKind::Duplicate => "Duplicate",
        TextKind::BadUtf8 => "BadUtf8",
    }
}
