//! What is said on standard error.
ghost use Rattle.std.specs.Prelude.{◌≡◌, ◌++◌, ◌∷◌, [], OnOk, OnErr};
ghost use Rattle.out_ports.specs.Ports.{Rose, Appends, AppendsFront};
ghost use Rattle.dsd_top.specs.Lines.{line_of};
ghost use Rattle.dsd_top.specs.Statuses.{status_of};

use crate::faults::Fault;
use itoa::Buffer;
use out_ports::ports::Sink;
use out_ports::streams::{WriteFault, write_all};

/// Writes three pieces, one behind another. After a fault the sink holds a front of them.
fn write_three<E: Sink>(
    sink: &mut E,
    first: &[u8],
    second: &[u8],
    third: &[u8],
) -> Result<(), WriteFault>
    ensures written { OnOk result (Appends (E.held sink.old) (E.held sink.new)
        (first.now ++ second.now ++ third.now)) }
    ensures front { OnErr result (AppendsFront (E.held sink.old) (E.held sink.new)
        (first.now ++ second.now ++ third.now)) }
    ensures cause { OnErr result (Rose (E.faults sink.old) (E.faults sink.new)) }
    ensures unfinished { E.finishes sink.new ≡ E.finishes sink.old }
{
    if let Err(fault) = write_all(sink, first) {
        return Err(fault);
    }
    if let Err(fault) = write_all(sink, second) {
        return Err(fault);
    }
    write_all(sink, third)
}

/// Writes a line of words and of a number behind them, where there is one. After a fault the sink
/// holds a front of it.
fn write_line<E: Sink>(diag: &mut E, words: &str, number: &str) -> Result<(), WriteFault>
    ensures written { OnOk result (Appends (E.held diag.old) (E.held diag.new)
        (words.now ++ number.now ++ 10 ∷ [])) }
    ensures front { OnErr result (AppendsFront (E.held diag.old) (E.held diag.new)
        (words.now ++ number.now ++ 10 ∷ [])) }
    ensures cause { OnErr result (Rose (E.faults diag.old) (E.faults diag.new)) }
    ensures unfinished { E.finishes diag.new ≡ E.finishes diag.old }
{
    write_three(diag, words.as_bytes(), number.as_bytes(), b"\n")
}

/// Says a line of words and of a number behind them, where there is one. What can't be written is
/// left.
pub fn say<E: Sink>(diag: &mut E, words: &str, number: &str)
    ensures said { AppendsFront (E.held diag.old) (E.held diag.new)
        (words.now ++ number.now ++ 10 ∷ []) }
    ensures said_all { (Rose (E.faults diag.old) (E.faults diag.new) → ⊥)
        → Appends (E.held diag.old) (E.held diag.new) (words.now ++ number.now ++ 10 ∷ []) }
    ensures unfinished { E.finishes diag.new ≡ E.finishes diag.old }
{
    let _ = write_line(diag, words, number);
}

/// Says why the status isn't 0, and answers it. What can't be written is left.
pub fn refuse<E: Sink>(diag: &mut E, fault: Fault) -> u8
    ensures status { result ≡ status_of fault }
    ensures said { AppendsFront (E.held diag.old) (E.held diag.new) (line_of fault) }
    ensures said_all { (Rose (E.faults diag.old) (E.faults diag.new) → ⊥)
        → Appends (E.held diag.old) (E.held diag.new) (line_of fault) }
    ensures unfinished { E.finishes diag.new ≡ E.finishes diag.old }
{
    let mut buffer = Buffer::new();
    let number = fault.number(&mut buffer);
    say(diag, fault.words(), number);
    fault.status()
}
