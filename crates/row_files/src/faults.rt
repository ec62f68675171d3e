//! Where a file of rows isn't written as it must be.

use row_cases::Fault;
use thiserror::Error;

/// The line of a file, counted from 1, that isn't written as it must be, and why.
#[derive(Debug, Drop, Error)]
#[error("line {line}: {fault}")]
pub struct LineFault {
    pub line: usize,
    pub fault: Fault,
}
