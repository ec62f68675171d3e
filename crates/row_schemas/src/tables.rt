//! The tables by their names.
ghost use Rattle.std.specs.Prelude.{◌≡◌, ◌+◌, [], length, count_by, IfOk};
ghost use Rattle.row_cases.specs.Cases.{lines_of, is_case};
ghost use Rattle.row_schemas.specs.Tables.{table_named, TableHolds};

use crate::fault_cases::judge_faults;
use crate::value_cases::judge_values;
use row_cases::Findings;
use std::alloc::{AllocError, Global};

/// Which call the cases of a table try.
#[derive(Clone, Copy)]
pub enum Table {
    /// Texts, and the fault that each has as a schema.
    SchemaFaults,
    /// Schemas, and values that conform to one of their names or don't.
    Conforming,
}

/// The table of a file's name.
pub fn find_table(name: &str) -> Option<Table>
    ensures { result ≡ table_named name.now }
{
    match name {
        "schema_faults" => Some(Table::SchemaFaults),
        "conforming" => Some(Table::Conforming),
        _ => None,
    }
}

/// What came of the cases of a table, the lines of its text: each is counted, and where nothing
/// differs each passes.
pub fn judge_table(alloc: Global, table: Table, text: &str) -> Result<Findings, AllocError>
    ensures counted { IfOk result (λ found. found.passed + length found.differences.items
        ≡ count_by is_case (lines_of text.now)) }
    ensures passing { IfOk result (λ found. found.differences.items ≡ []
        → TableHolds table text.now) }
{
    match table {
        Table::SchemaFaults => judge_faults(alloc, text),
        Table::Conforming => judge_values(alloc, text),
    }
}
