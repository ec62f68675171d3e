//! What the program does once its words, streams and host are handed in.
ghost use Rattle.std.specs.Prelude.{◌≡◌, ◌≢◌, ◌≤◌, ◌⊎◌, [], ◌∷◌, true, false, Some, None};
ghost use Rattle.std.specs.Prelude.{Contains, IfSome, IfErr, OnOk, IsErrOf};
ghost use Rattle.out_ports.specs.Ports.{Rose};
ghost use Rattle.dsd_top.specs.Commands.{texts, request_of, command_of, notice_of, AreOfTable};
ghost use Rattle.dsd_top.specs.Commands.{IsRightlyAsked, is_serve as begins_with_serve};
ghost use Rattle.dsd_top.specs.Statuses.{IsStatus, statuses_by, statuses_told, statuses_of};
ghost use Rattle.dsd_top.specs.Statuses.{IfTold, file_of, IsAnswered, IsCut, IsShown};
ghost use Rattle.dsd_top.specs.Statuses.{IsShownFront, IsBadInput, IsOver, IsBadConfig};
ghost use Rattle.dsd_top.specs.Statuses.{status_of, IsBehindInput, Stands};
ghost use Rattle.dsd_top.specs.Statuses.{IsToldFault, IsUntold};
ghost use Rattle.dsd_top.specs.Lines.{Says, SaysFront};
ghost use Rattle.dsd_top.specs.declared.faults.Fault.TheVariants as fault;
ghost use Rattle.dsd_top.specs.declared.words.Request.TheVariants.{Do};

use crate::answers::{answer, ready};
use crate::faults::Fault;
use crate::inputs::read_input;
use crate::lines::refuse;
use crate::loading::load_line;
use crate::minting::reference_line;
use crate::words::{Command, Notice, Request, find_request, usage, version};
use out_ports::ports::{Host, Sink, Source};
use out_ports::streams::write_all;
use std::alloc::Global;

/// Reads the file that the command names, then the whole input, and writes what comes of it.
fn do_command<I: Source, O: Sink, H: Host>(
    alloc: Global,
    command: &Command,
    input: &mut I,
    out: &mut O,
    host: &mut H,
) -> Result<(), Fault>
    ensures known { IfErr result (λ f. Contains (statuses_by command.now) (status_of f)) }
    ensures ended { OnOk result (I.ended input.new ≡ true) }
    ensures ended_first { IfErr result (λ f. IsBehindInput command.now f
        → I.ended input.new ≡ true) }
    ensures unread { IfErr result (λ f. status_of f ≡ 7 → file_of (Some command.now) ≢ None
        → input.new ≡ input.old) }
    ensures done { OnOk result (IfSome (I.left input.old) (λ bytes. IsAnswered
        (H.files host.old) command.now bytes (O.held out.old) (O.held out.new))) }
    ensures cause { IfErr result (Stands (Some (Do command.now))
        (H.files host.old) (I.left input.old)) }
    ensures cut { IsErrOf result fault.WriteFailed → IfSome (I.left input.old) (λ bytes. IsCut
        (H.files host.old) command.now bytes (O.held out.old) (O.held out.new)) }
    ensures unwritten { IfErr result (λ f. status_of f ≢ 4 → O.held out.new ≡ O.held out.old) }
    ensures read_failed { IsErrOf result fault.ReadFailed →
        Rose (I.faults input.old) (I.faults input.new)
        ⊎ ((file_of (Some command.now) ≢ None) × (input.new ≡ input.old)
        × Rose (H.file_faults host.old) (H.file_faults host.new)) }
    ensures write_failed { IsErrOf result fault.WriteFailed →
        Rose (O.faults out.old) (O.faults out.new) }
    ensures unfinished { O.finishes out.new ≡ O.finishes out.old }
    ensures unasked { file_of (Some command.now) ≡ None → host.new ≡ host.old }
    ensures same_host { (H.files host.new ≡ H.files host.old)
        × (H.address host.new ≡ H.address host.old)
        × (H.gave host.new ≡ H.gave host.old) × (H.stops host.new ≡ H.stops host.old) }
    ensures lasting { (H.file_faults host.old ≤ H.file_faults host.new)
        × (H.port_faults host.old ≤ H.port_faults host.new)
        × (H.faults host.old ≤ H.faults host.new) }
{
    let work = ready(alloc, command, host)?;
    let bytes = read_input(alloc, input)?;
    let answer = answer(alloc, &work, &bytes)?;
    write_all(out, &answer)?;
    Ok(())
}

/// Writes the text of a notice.
fn tell<O: Sink>(alloc: Global, notice: &Notice, out: &mut O) -> Result<(), Fault>
    ensures known { IfErr result (λ f. Contains (statuses_told notice.now) (status_of f)) }
    ensures done { OnOk result (IsShown notice.now (O.held out.old) (O.held out.new)) }
    ensures cause { IfErr result (IsToldFault notice.now) }
    ensures cut { IsErrOf result fault.WriteFailed →
        IsShownFront notice.now (O.held out.old) (O.held out.new) }
    ensures unwritten { IfErr result (λ f. status_of f ≢ 4 → O.held out.new ≡ O.held out.old) }
    ensures write_failed { IsErrOf result fault.WriteFailed →
        Rose (O.faults out.old) (O.faults out.new) }
    ensures unfinished { O.finishes out.new ≡ O.finishes out.old }
{
    match notice {
        Notice::Usage => write_all(out, usage().as_bytes())?,
        Notice::Version => write_all(out, version().as_bytes())?,
        Notice::Reference(minting) => {
            let line = reference_line(alloc, minting)?;
            write_all(out, &line)?;
        }
        Notice::Load(loading) => {
            let line = load_line(alloc, loading)?;
            write_all(out, &line)?;
        }
    }
    Ok(())
}

/// Writes a notice, and answers the status.
fn show<O: Sink, E: Sink>(alloc: Global, notice: &Notice, out: &mut O, diag: &mut E) -> u8
    ensures known { Contains (statuses_told notice.now) result }
    ensures refused { result ≡ 2 → IsRightlyAsked notice.now → ⊥ }
    ensures other_words { (IsRightlyAsked notice.now → ⊥) → Contains (2 ∷ 5 ∷ []) result }
    ensures done { result ≡ 0 → IsShown notice.now (O.held out.old) (O.held out.new) }
    ensures cut { result ≡ 4 → IsShownFront notice.now (O.held out.old) (O.held out.new) }
    ensures untold { result ≢ 0 → IsUntold result notice.now }
    ensures unwritten { result ≢ 0 → result ≢ 4 → O.held out.new ≡ O.held out.old }
    ensures write_failed { result ≡ 4 → Rose (O.faults out.old) (O.faults out.new) }
    ensures unfinished { (O.finishes out.new ≡ O.finishes out.old)
        × (E.finishes diag.new ≡ E.finishes diag.old) }
    ensures silent { result ≡ 0 → E.held diag.new ≡ E.held diag.old }
    ensures said { result ≢ 0 → SaysFront (IsToldFault notice.now) result
        (E.held diag.old) (E.held diag.new) }
    ensures said_all { result ≢ 0 → (Rose (E.faults diag.old) (E.faults diag.new) → ⊥)
        → Says (IsToldFault notice.now) result (E.held diag.old) (E.held diag.new) }
{
    match tell(alloc, notice, out) {
        Ok(()) => 0,
        Err(fault) => refuse(diag, fault),
    }
}

/// Does what the words say, and answers the status: 0 where all input was read, or a notice asked
/// for, and all output written, 1 where a value of the input is malformed, 2 where the words are
/// none of the table's, 3 where the input or a file failed, 4 where the output failed, 5 for want
/// of memory, 6 where a limit is passed, 7 where a file is refused, or what a script says of its
/// schema.
/// At every status but 0 one line on `diag` says why, or a front of it where a put fails; a fault
/// of `diag` changes nothing else.
pub fn dsd_once<I: Source, O: Sink, E: Sink, H: Host>(
    alloc: Global,
    words: &[String],
    input: &mut I,
    out: &mut O,
    diag: &mut E,
    host: &mut H,
) -> u8
    requires { begins_with_serve (texts words.now) ≡ false }
    // Each status, and when it comes. Where the words are of the table, no count rose and no cause
    // of 1, 6 or 7 stands, the status is 0, or 5 for want of memory.
    ensures known { IsStatus result }
    ensures of_request { Contains (statuses_of (request_of (texts words.now))) result }
    ensures words { result ≡ 2 → AreOfTable (texts words.now) → ⊥ }
    ensures other_words { (AreOfTable (texts words.now) → ⊥) → Contains (2 ∷ 5 ∷ []) result }
    ensures done { result ≡ 0 → IfTold (command_of (texts words.now)) (I.left input.old)
        (λ c bytes. IsAnswered (H.files host.old) c bytes (O.held out.old) (O.held out.new)) }
    ensures bad_input { result ≡ 1
        → IfTold (command_of (texts words.now)) (I.left input.old) (IsBadInput (H.files host.old)) }
    ensures limit { result ≡ 6
        → IfTold (command_of (texts words.now)) (I.left input.old) (IsOver (H.files host.old)) }
    ensures bad_config { result ≡ 7
        → IfTold (command_of (texts words.now)) (I.left input.old)
        (IsBadConfig (H.files host.old)) }
    // The count that rose is that of the input, or that of the host's files before anything was
    // read of the input.
    ensures read_failed { result ≡ 3 → Rose (I.faults input.old) (I.faults input.new)
        ⊎ ((file_of (command_of (texts words.now)) ≢ None) × (input.new ≡ input.old)
        × Rose (H.file_faults host.old) (H.file_faults host.new)) }
    ensures write_failed { result ≡ 4 → Rose (O.faults out.old) (O.faults out.new) }

    // A command has its file judged and then reads the input to its end, before anything else
    // decides; what is no command leaves the input unread.
    ensures ended { result ≢ 3 → result ≢ 5
        → (result ≡ 7 → file_of (command_of (texts words.now)) ≡ None)
        → IfSome (command_of (texts words.now)) (λ c. I.ended input.new ≡ true) }
    ensures unread { command_of (texts words.now) ≡ None → input.new ≡ input.old }
    ensures unread_yet { result ≡ 7 → file_of (command_of (texts words.now)) ≢ None
        → input.new ≡ input.old }

    // A notice is written, or isn't for a cause that stands of it.
    ensures shown { result ≡ 0 → IfSome (notice_of (texts words.now))
        (λ n. IsShown n (O.held out.old) (O.held out.new)) }
    ensures shown_front { result ≡ 4 → IfSome (notice_of (texts words.now))
        (λ n. IsShownFront n (O.held out.old) (O.held out.new)) }
    ensures untold { result ≢ 0 → IfSome (notice_of (texts words.now)) (IsUntold result) }

    // What stands after it. The host is asked for a file, where a command reads one, and for
    // nothing else.
    ensures cut { result ≡ 4 → IfTold (command_of (texts words.now)) (I.left input.old)
        (λ c bytes. IsCut (H.files host.old) c bytes (O.held out.old) (O.held out.new)) }
    ensures unwritten { result ≢ 0 → result ≢ 4 → O.held out.new ≡ O.held out.old }
    ensures unfinished { (O.finishes out.new ≡ O.finishes out.old)
        × (E.finishes diag.new ≡ E.finishes diag.old) }
    ensures unasked { file_of (command_of (texts words.now)) ≡ None → host.new ≡ host.old }
    ensures same_host { (H.files host.new ≡ H.files host.old)
        × (H.address host.new ≡ H.address host.old)
        × (H.gave host.new ≡ H.gave host.old) × (H.stops host.new ≡ H.stops host.old) }
    ensures lasting { (H.file_faults host.old ≤ H.file_faults host.new)
        × (H.port_faults host.old ≤ H.port_faults host.new)
        × (H.faults host.old ≤ H.faults host.new) }

    // Standard error: nothing at 0, else a front of the line of a cause that stands, with its
    // number, and all of it where the count of its faults hasn't risen.
    ensures silent { result ≡ 0 → E.held diag.new ≡ E.held diag.old }
    ensures said { result ≢ 0 → SaysFront
        (Stands (request_of (texts words.now)) (H.files host.old) (I.left input.old))
        result (E.held diag.old) (E.held diag.new) }
    ensures said_all { result ≢ 0 → (Rose (E.faults diag.old) (E.faults diag.new) → ⊥) → Says
        (Stands (request_of (texts words.now)) (H.files host.old) (I.left input.old))
        result (E.held diag.old) (E.held diag.new) }
{
    let command = match find_request(words) {
        Some(Request::Do(command)) => command,
        Some(Request::Tell(notice)) => return show(alloc, &notice, out, diag),
        None => return refuse(diag, Fault::BadWords),
    };
    match do_command(alloc, &command, input, out, host) {
        Ok(()) => 0,
        Err(fault) => refuse(diag, fault),
    }
}
