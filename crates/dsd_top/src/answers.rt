//! What a command makes of its input.
ghost use Rattle.std.specs.Prelude.{◌≡◌, ◌≤◌, Some, None, IfOk, IfErr, IsErrOf};
ghost use Rattle.out_ports.specs.Ports.{Rose};
ghost use Rattle.sc_script.specs.Scripts.{StopsAt};
ghost use Rattle.dsd_top.specs.Makings.{IsReported, IsMadeOf};
ghost use Rattle.dsd_top.specs.Statuses.{file_of};
ghost use Rattle.dsd_top.specs.Works.{IsReady, IsUnready, CanJudge, IsAnswerBy, IsCauseBy};
ghost use Rattle.dsd_top.specs.Works.{IsUnmadeFor};
ghost use Rattle.dsd_top.specs.declared.faults.Fault.TheVariants as fault;

use crate::conformance::Conformance;
use crate::faults::Fault;
use crate::forms::{Each, Form, value_in};
use crate::schemas::schema_of;
use crate::values::values_to_end;
use crate::words::{Command, Making};
use ds_skeleton::Skeleton;
use hub_laws::settled_holdings_are_from_scratch;
use lc_watch::Table;
use out_ports::ports::Host;
use ps_schema::Schema;
use sc_report::report;
use sc_script::{Form as Input, ScriptFault, run_script};
use std::alloc::Global;

/// What is done with the input, once the files are read and judged.
#[derive(Drop)]
pub enum Work<'a> {
    Make(Making),
    /// Each value is judged by the schema's name, which it knows.
    Judge(Schema, &'a str),
}

/// What the command does with the input. The file that it names is read and judged.
pub fn ready<'a, H: Host>(
    alloc: Global,
    command: &Command<'a>,
    host: &mut H,
) -> Result<Work<'a>, Fault>
    ensures ready { IfOk result (IsReady (H.files host.old) command.now) }
    ensures cause { IfErr result (IsUnready (H.files host.old) command.now) }
    ensures read_failed { IsErrOf result fault.ReadFailed →
        Rose (H.file_faults host.old) (H.file_faults host.new) }
    ensures unasked { file_of (Some command.now) ≡ None → host.new ≡ host.old }
    ensures same_host { (H.files host.new ≡ H.files host.old)
        × (H.address host.new ≡ H.address host.old)
        × (H.gave host.new ≡ H.gave host.old) × (H.stops host.new ≡ H.stops host.old) }
    ensures lasting { (H.file_faults host.old ≤ H.file_faults host.new)
        × (H.port_faults host.old ≤ H.port_faults host.new)
        × (H.faults host.old ≤ H.faults host.new) }
{
    match command {
        Command::Make(making) => Ok(Work::Make(*making)),
        Command::Check(checking) => {
            let schema = schema_of(alloc, checking, host)?;
            Ok(Work::Judge(schema, checking.name))
        }
    }
}

/// What comes of the input.
pub fn answer(alloc: Global, work: &Work, bytes: &[u8]) -> Result<Vec<u8>, Fault>
    requires { CanJudge work.now }
    ensures answer { IfOk result (λ out. IsAnswerBy work.now bytes.now out.items) }
    ensures cause { IfErr result (IsCauseBy work.now bytes.now) }
{
    match work {
        Work::Make(making) => made(alloc, *making, bytes),
        Work::Judge(schema, name) => {
            let verdict = Each::Verdict(schema, name);
            Ok(values_to_end(alloc, bytes, Input::Text, verdict)?)
        }
    }
}

/// What is made of the input alone.
fn made(alloc: Global, making: Making, bytes: &[u8]) -> Result<Vec<u8>, Fault>
    ensures answer { IfOk result (λ out. IsMadeOf making bytes.now out.items) }
    ensures cause { IfErr result (IsUnmadeFor making bytes.now) }
{
    match making {
        Making::Run => Ok(report_in(alloc, bytes, Input::Binary, Form::Written)?),
        Making::RunText => Ok(report_in(alloc, bytes, Input::Text, Form::Printed)?),
        Making::CanonicalForms => {
            Ok(values_to_end(alloc, bytes, Input::Binary, Each::In(Form::Canonical))?)
        }
        Making::Printed => {
            Ok(values_to_end(alloc, bytes, Input::Binary, Each::In(Form::Printed))?)
        }
        Making::Written => Ok(values_to_end(alloc, bytes, Input::Text, Each::In(Form::Written))?),
    }
}

/// The report of the run of the script that the input is, in this form.
fn report_in(alloc: Global, bytes: &[u8], input: Input, form: Form) -> Result<Vec<u8>, ScriptFault>
    ensures answer { IfOk result (λ out. IsReported input form bytes.now out.items) }
    ensures stop { IfErr result (StopsAt input bytes.now) }
{
    settled_holdings_are_from_scratch();
    let ran = run_script::<Skeleton, Conformance, Table>(alloc, bytes, input, Conformance, Table)?;
    let value = report(alloc, &ran)?;
    Ok(value_in(alloc, &value, form)?)
}
