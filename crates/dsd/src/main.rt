//! `dsd`, a server of Syndicate dataspaces: the real outside world is handed to the program.
#![tactic(auto)]

ghost use Rattle.std.specs.Prelude.{◌≡◌, ◌↔◌, [], ◌∷◌, Contains};
ghost use Rattle.std.specs.declared.io.ErrorKind.TheVariants.{OutOfMemory};

use dsd_program::run_words;
use kp_sqlite::SqlKeeper;
use out_ports::ports::Sink;
use out_ports::streams::write_all;
use out_real::{ReadSource, RealHost, STACK_BYTES, WriteSink};
use std::env;
use std::io::{self, ErrorKind};
use std::process::ExitCode;
use std::rt::Env;
use std::thread::{self, Builder};

/// Does what the words after the program's name say, in a thread of its own, and ends with the
/// status: the stack of a program's first thread isn't the program's to choose. Where there can be
/// no such thread, nothing is done, and memory is wanting. Bindings are kept in files.
fn main(rt: HostRuntime) -> ExitCode {
    let mut diag = WriteSink::new(rt.stderr());
    let words = match words_of(&rt) {
        Ok(words) => words,
        Err(error) => return ExitCode::from(refuse(&mut diag, error.kind())),
    };
    let mut input = ReadSource::new(rt.stdin());
    let mut out = WriteSink::new(rt.stdout());
    let mut host = RealHost::new(&rt);
    let status = thread::scope(thread::scope_env(), &rt, |scope| {
        let started = Builder::new()
            .stack_size(STACK_BYTES)
            .spawn_scoped(scope, || {
                let mut keeper = SqlKeeper::new(&rt);
                run_words(
                    &rt,
                    rt.alloc(),
                    &words,
                    &mut input,
                    &mut out,
                    &mut diag,
                    &mut host,
                    &mut keeper,
                )
            });
        match started {
            Ok(thread) => Some(thread.join(&rt)),
            Err(_) => None,
        }
    });
    let status = match status {
        Some(status) => status,
        None => refuse(&mut diag, ErrorKind::OutOfMemory),
    };
    ExitCode::from(status)
}

/// The words after the program's name. One that isn't UTF-8 is an error.
fn words_of<R: Env + AllocGlobal>(rt: &R) -> io::Result<Vec<String>> {
    let mut words = Vec::new(rt.alloc());
    for word in env::args(rt)?.skip(1) {
        words.push(word)?;
    }
    Ok(words)
}

/// Says why nothing is done, and answers the status: 5 for want of memory, and 2 for words that
/// can't be read.
fn refuse<E: Sink>(diag: &mut E, kind: ErrorKind) -> u8
    ensures known { Contains (2 ∷ 5 ∷ []) result }
    ensures memory { (result ≡ 5) ↔ (kind ≡ OutOfMemory) }
{
    let (status, line) = match kind {
        ErrorKind::OutOfMemory => (5, "dsd: out of memory\n"),
        _ => (2, "dsd: bad words\n"),
    };
    let _ = write_all(diag, line.as_bytes());
    status
}
