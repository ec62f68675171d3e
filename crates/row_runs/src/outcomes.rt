//! What comes of a row.
ghost use Rattle.std.specs.Prelude.{◌≡◌, ◌≢◌, ◌≤◌, ◌++◌, ◌∷◌, [], false, IfOk, IfErr, OnOk, map};
ghost use Rattle.out_ports.specs.MemHost.{told_files, host_of};
ghost use Rattle.out_ports.specs.MemListen.{listener_of};
ghost use Rattle.out_ports.specs.MemSource.{source_of as source_told};
ghost use Rattle.out_ports.specs.MemSink.{sink_of as sink_told};
ghost use Rattle.dsd_top.specs.Commands.{texts, is_serve as begins_with_serve};
ghost use Rattle.row_cases.specs.declared.faults.Fault.TheVariants.{NoMemory};
ghost use Rattle.row_files.specs.Rows.{row_told, file_told};
ghost use Rattle.row_runs.specs.Outcomes.{Streams, streams_of, IsRun, IsOutcome, IsUnfit};

use dsd_top::{dsd_once, is_serve};
use out_ports::memory::{MemFile, MemHost, MemListen, MemSink, MemSource};
use row_cases::{Fault, Outcome};
use row_files::{Row, RowFile};
use std::alloc::{AllocError, Global};

/// How many bytes are kept of what is written to standard error.
const LINE_ROOM: usize = 4096;

/// What comes of what a row gives. A row whose first word begins with `serve`, or whose pieces have
/// no byte, is refused by its form.
pub fn outcome_of(alloc: Global, row: &Row) -> Result<Outcome, Fault>
    ensures outcome { IfOk result (λ outcome. IsOutcome (row_told row.now)
        outcome.status outcome.line.items outcome.output.items) }
    ensures refused { IfErr result (λ f. f ≢ NoMemory
        → IsUnfit (texts row.now.words.items) row.now.piece) }
{
    if is_serve(&row.words) {
        return Err(Fault::Form("words that begin with serve"));
    }
    if row.piece == 0 {
        return Err(Fault::Form("pieces of no byte"));
    }
    let input = source_of(row)?;
    Ok(run_over(alloc, row, input)?)
}

/// The input that a row gives.
fn source_of(row: &Row) -> Result<MemSource, AllocError>
    requires { 1 ≤ row.now.piece }
    ensures { IfOk result (λ input. input
        ≡ source_told row.now.input.items row.now.piece row.now.takes.items) }
{
    let bytes = row.input.clone()?;
    let takes = row.takes.clone()?;
    Ok(MemSource::new(bytes, row.piece, takes))
}

/// What comes of a row over its input.
fn run_over(alloc: Global, row: &Row, input: MemSource) -> Result<Outcome, AllocError>
    requires words { begins_with_serve (texts row.now.words.items) ≡ false }
    requires input { input ≡ (streams_of (row_told row.now)).input }
    ensures { IfOk result (λ outcome. IsOutcome (row_told row.now)
        outcome.status outcome.line.items outcome.output.items) }
{
    let mut out = sink_of(alloc, row.room, &row.puts)?;
    let mut diag = sink_of(alloc, LINE_ROOM, &[])?;
    let host = host_of(alloc, &row.files)?;
    let status = status_of(alloc, row, input, host, &mut out, &mut diag);
    outcome_with(alloc, status, &diag, &out)
}

/// A host of these files, which gives no links.
fn host_of(alloc: Global, files: &[RowFile]) -> Result<MemHost, AllocError>
    ensures { IfOk result (λ host.
        host ≡ host_of (map file_told files.now) (listener_of [] []) [] []) }
{
    let files = files_of(alloc, files)?;
    let links = MemListen::new(Vec::new(alloc), Vec::new(alloc));
    Ok(MemHost::new(files, links, Vec::new(alloc), Vec::new(alloc)))
}

/// The files of a host.
fn files_of(alloc: Global, files: &[RowFile]) -> Result<Vec<MemFile>, AllocError>
    ensures { IfOk result (λ all. told_files all.items ≡ map file_told files.now) }
{
    let mut all = Vec::new(alloc);
    for file in files {
        push_file(alloc, &mut all, file)?;
    }
    Ok(all)
}

fn push_file(alloc: Global, all: &mut Vec<MemFile>, file: &RowFile) -> Result<(), AllocError>
    ensures { OnOk result
        (told_files all.new.items ≡ told_files all.old.items ++ file_told file.now ∷ []) }
{
    let name = file.name.clone()?;
    let bytes = Vec::from_slice(alloc, &file.bytes)?;
    all.push(MemFile { name, bytes })?;
    Ok(())
}

/// An empty sink of so much room, whose puts of these numbers fail.
fn sink_of(alloc: Global, room: usize, puts: &[u64]) -> Result<MemSink, AllocError>
    ensures { IfOk result (λ sink. sink ≡ sink_told room puts.now) }
{
    let puts = Vec::from_slice(alloc, puts)?;
    Ok(MemSink::new(Vec::with_capacity(alloc, room)?, puts))
}

/// The program's status.
fn status_of(
    alloc: Global,
    row: &Row,
    mut input: MemSource,
    mut host: MemHost,
    out: &mut MemSink,
    diag: &mut MemSink,
) -> u8
    requires words { begins_with_serve (texts row.now.words.items) ≡ false }
    requires input { input ≡ (streams_of (row_told row.now)).input }
    requires host { host ≡ (streams_of (row_told row.now)).host }
    requires out { out.old ≡ (streams_of (row_told row.now)).out }
    requires diag { diag.old ≡ (streams_of (row_told row.now)).diag }
    ensures { (now : Streams) × IsRun (texts row.now.words.items)
        (streams_of (row_told row.now)) now result × (out.new ≡ now.out) × (diag.new ≡ now.diag) }
{
    dsd_once(alloc, &row.words, &mut input, out, diag, &mut host)
}

/// A status, and what two sinks hold.
fn outcome_with(
    alloc: Global,
    status: u8,
    diag: &MemSink,
    out: &MemSink,
) -> Result<Outcome, AllocError>
    ensures status { IfOk result (λ outcome. outcome.status ≡ status) }
    ensures line { IfOk result (λ outcome. outcome.line.items ≡ diag.now.held) }
    ensures output { IfOk result (λ outcome. outcome.output.items ≡ out.now.held) }
{
    let line = Vec::from_slice(alloc, diag.held())?;
    let output = Vec::from_slice(alloc, out.held())?;
    Ok(Outcome {
        status,
        line,
        output,
    })
}
