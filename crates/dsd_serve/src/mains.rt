//! The program over an outside world that is handed in.
ghost use Rattle.std.specs.Prelude.{◌≡◌, ◌≢◌, ◌≤◌, ◌⊎◌, [], ◌∷◌, true, false, Some, None};
ghost use Rattle.std.specs.Prelude.{Contains, IfSome};
ghost use Rattle.out_ports.specs.Ports.{Rose, Appends, AppendsFront};
ghost use Rattle.dsd_top.specs.Commands.{texts, request_of, command_of, notice_of};
ghost use Rattle.dsd_top.specs.Commands.{is_serve as begins_with_serve};
ghost use Rattle.dsd_top.specs.Lines.{Says, SaysFront};
ghost use Rattle.dsd_top.specs.Statuses.{IsStatus, statuses_of, IfTold, file_of, IsAnswered};
ghost use Rattle.dsd_top.specs.Statuses.{IsCut, IsShown, IsShownFront, IsBadInput, IsOver};
ghost use Rattle.dsd_top.specs.Statuses.{IsBadConfig, IsUntold, Stands};
ghost use Rattle.dsd_serve.specs.Causes.{serve_statuses, SaysWhy, SaysWhyFront};
ghost use Rattle.dsd_config.specs.Configs.{IsBadConfigAt};
ghost use Rattle.dsd_serve.specs.Serving.{AskToServe, AskForSomething, IfServing, AreAccepts};
ghost use Rattle.dsd_serve.specs.Serving.{IsServed};

use crate::serving::serve_and_tell;
use crate::unserved::tell_why;
use crate::words::find_serving;
use dsd_top::{Fault, dsd_once, is_serve, refuse};
use out_ports::ports::{Host, Sink, Source};
use std::alloc::Global;
use std::sync::Wait;
use std::thread::Threads;

/// Serves as the words say, and answers the status.
fn serve_words<Rt: Threads + Wait + Sync, O: Sink, E: Sink, H: Host>(
    rt: &Rt,
    alloc: Global,
    words: &[String],
    out: &mut O,
    diag: &mut E,
    host: &mut H,
) -> u8
where
    H::R: Send + Drop,
    H::W: Send + Drop,
    requires { begins_with_serve (texts words.now) ≡ true }
    ensures known { Contains serve_statuses result }
    ensures asked { AskToServe (texts words.now) → result ≢ 2 }
    ensures found { result ≢ 2 → AskToServe (texts words.now) }
    ensures unasked { (AskToServe (texts words.now) → ⊥) → result ≡ 2 }
    ensures served { result ≡ 0 → IfServing (texts words.now) (λ s. IsServed Appends
        (λ a f. AreAccepts s.connections a f (H.gave host.old) (H.gave host.new)
        (H.stops host.old) (H.stops host.new) (H.faults host.old) (H.faults host.new))
        (O.held out.old) (O.held out.new)) }
    ensures served_front { result ≡ 4 → IfServing (texts words.now) (λ s. IsServed AppendsFront
        (λ a f. AreAccepts s.connections a f (H.gave host.old) (H.gave host.new)
        (H.stops host.old) (H.stops host.new) (H.faults host.old) (H.faults host.new))
        (O.held out.old) (O.held out.new)) }
    ensures place { Contains (0 ∷ 4 ∷ []) result → IfServing (texts words.now)
        (λ s. H.address host.new ≡ Some s.address) }
    ensures bad_config { result ≡ 7 → IfServing (texts words.now)
        (λ s. (n : _) × IsBadConfigAt (H.files host.old) s.file n) }
    ensures read_failed { result ≡ 3 → Rose (H.file_faults host.old) (H.file_faults host.new) }
    ensures listen_failed { result ≡ 8 → Rose (H.port_faults host.old) (H.port_faults host.new) }
    ensures write_failed { result ≡ 4 → Rose (O.faults out.old) (O.faults out.new) }
    ensures unopened { result ≢ 0 → result ≢ 4 → result ≢ 5 →
        (H.address host.new ≡ H.address host.old)
        × (H.gave host.new ≡ H.gave host.old) × (H.stops host.new ≡ H.stops host.old) }
    ensures same_files { H.files host.new ≡ H.files host.old }
    ensures lasting { (H.file_faults host.old ≤ H.file_faults host.new)
        × (H.port_faults host.old ≤ H.port_faults host.new)
        × (H.faults host.old ≤ H.faults host.new) }
    ensures unwritten { result ≢ 0 → result ≢ 4 → O.held out.new ≡ O.held out.old }
    ensures unfinished { (O.finishes out.new ≡ O.finishes out.old)
        × (E.finishes diag.new ≡ E.finishes diag.old) }
    ensures silent { result ≡ 0 → E.held diag.new ≡ E.held diag.old }
    ensures said { result ≢ 0 → SaysWhyFront (texts words.now) (H.files host.old) result
        (E.held diag.old) (E.held diag.new) }
    ensures said_all { result ≢ 0 → (Rose (E.faults diag.old) (E.faults diag.new) → ⊥)
        → SaysWhy (texts words.now) (H.files host.old) result
        (E.held diag.old) (E.held diag.new) }
{
    let Some(serving) = find_serving("serve", words) else {
        return refuse(diag, Fault::BadWords);
    };
    match serve_and_tell(rt, alloc, &serving, out, host) {
        Ok(()) => 0,
        Err(why) => tell_why(diag, why),
    }
}

/// Does what the words say, with threads and waits at hand, and answers the status. Words whose
/// first one doesn't begin with `serve` it does as [`dsd_once`]. To serve it reads and judges the
/// configuration's file, does its steps, listens at the address, accepts so many links or until no
/// more come, and waits for their sessions: the status is 0 where all of it went so and the line of
/// it was written, 3 where the file can't be read, 7 where it is refused, 8 where the address can't
/// be listened at.
pub fn dsd_main<Rt: Threads + Wait + Sync, I: Source, O: Sink, E: Sink, H: Host>(
    rt: &Rt,
    alloc: Global,
    words: &[String],
    input: &mut I,
    out: &mut O,
    diag: &mut E,
    host: &mut H,
) -> u8
where
    H::R: Send + Drop,
    H::W: Send + Drop,
    // Each status, and when it comes. Where the words are of the table, no count rose and no cause
    // of 1, 6 or 7 stands, the status is 0, or 5 for want of memory.
    ensures known { IsStatus result ⊎ (result ≡ 8) }
    ensures of_request { begins_with_serve (texts words.now) ≡ false →
        Contains (statuses_of (request_of (texts words.now))) result }
    ensures of_serving { begins_with_serve (texts words.now) ≡ true →
        Contains serve_statuses result }
    ensures words { result ≡ 2 → AskForSomething (texts words.now) → ⊥ }
    ensures other_words { (AskForSomething (texts words.now) → ⊥) →
        Contains (2 ∷ 5 ∷ []) result }
    ensures done { result ≡ 0 → IfTold (command_of (texts words.now)) (I.left input.old)
        (λ c bytes. IsAnswered (H.files host.old) c bytes (O.held out.old) (O.held out.new)) }
    ensures bad_input { result ≡ 1
        → IfTold (command_of (texts words.now)) (I.left input.old) (IsBadInput (H.files host.old)) }
    ensures limit { result ≡ 6
        → IfTold (command_of (texts words.now)) (I.left input.old) (IsOver (H.files host.old)) }
    ensures bad_config { result ≡ 7
        → IfTold (command_of (texts words.now)) (I.left input.old)
        (IsBadConfig (H.files host.old)) }
    // The count that rose is that of the input, or that of the host's files before anything was
    // read of the input.
    ensures read_failed { result ≡ 3 → Rose (I.faults input.old) (I.faults input.new)
        ⊎ (((file_of (command_of (texts words.now)) ≢ None) ⊎ AskToServe (texts words.now))
        × (input.new ≡ input.old)
        × Rose (H.file_faults host.old) (H.file_faults host.new)) }
    ensures write_failed { result ≡ 4 → Rose (O.faults out.old) (O.faults out.new) }

    // A command has its file judged and then reads the input to its end, before anything else
    // decides; what is no command leaves the input unread.
    ensures ended { result ≢ 3 → result ≢ 5
        → (result ≡ 7 → file_of (command_of (texts words.now)) ≡ None)
        → IfSome (command_of (texts words.now)) (λ c. I.ended input.new ≡ true) }
    ensures unread { command_of (texts words.now) ≡ None → input.new ≡ input.old }
    ensures unread_yet { result ≡ 7 → file_of (command_of (texts words.now)) ≢ None
        → input.new ≡ input.old }

    // A notice is written, or isn't for a cause that stands of it.
    ensures shown { result ≡ 0 → IfSome (notice_of (texts words.now))
        (λ n. IsShown n (O.held out.old) (O.held out.new)) }
    ensures shown_front { result ≡ 4 → IfSome (notice_of (texts words.now))
        (λ n. IsShownFront n (O.held out.old) (O.held out.new)) }
    ensures untold { result ≢ 0 → IfSome (notice_of (texts words.now)) (IsUntold result) }

    // To serve: the host accepts at the address, and the line tells how many links were served and
    // how many weren't, which together are those that the host gave and failed to give.
    ensures served { result ≡ 0 → IfServing (texts words.now) (λ s. IsServed Appends
        (λ a f. AreAccepts s.connections a f (H.gave host.old) (H.gave host.new)
        (H.stops host.old) (H.stops host.new) (H.faults host.old) (H.faults host.new))
        (O.held out.old) (O.held out.new)) }
    ensures served_front { result ≡ 4 → IfServing (texts words.now) (λ s. IsServed AppendsFront
        (λ a f. AreAccepts s.connections a f (H.gave host.old) (H.gave host.new)
        (H.stops host.old) (H.stops host.new) (H.faults host.old) (H.faults host.new))
        (O.held out.old) (O.held out.new)) }
    ensures place { Contains (0 ∷ 4 ∷ []) result → IfServing (texts words.now)
        (λ s. H.address host.new ≡ Some s.address) }
    ensures bad_server { result ≡ 7 → IfServing (texts words.now)
        (λ s. (n : _) × IsBadConfigAt (H.files host.old) s.file n) }
    ensures listen_failed { result ≡ 8 → AskToServe (texts words.now)
        × Rose (H.port_faults host.old) (H.port_faults host.new) }
    // Before the configuration is judged and the address open nothing is accepted.
    ensures unopened { begins_with_serve (texts words.now) ≡ true
        → result ≢ 0 → result ≢ 4 → result ≢ 5 →
        (H.address host.new ≡ H.address host.old)
        × (H.gave host.new ≡ H.gave host.old) × (H.stops host.new ≡ H.stops host.old) }

    // What stands after it. Of words that don't serve, the host is asked for a file, where a
    // command reads one, and for nothing else.
    ensures cut { result ≡ 4 → IfTold (command_of (texts words.now)) (I.left input.old)
        (λ c bytes. IsCut (H.files host.old) c bytes (O.held out.old) (O.held out.new)) }
    ensures unwritten { result ≢ 0 → result ≢ 4 → O.held out.new ≡ O.held out.old }
    ensures unfinished { (O.finishes out.new ≡ O.finishes out.old)
        × (E.finishes diag.new ≡ E.finishes diag.old) }
    ensures unasked { begins_with_serve (texts words.now) ≡ false
        → file_of (command_of (texts words.now)) ≡ None → host.new ≡ host.old }
    ensures same_host { begins_with_serve (texts words.now) ≡ false →
        (H.address host.new ≡ H.address host.old)
        × (H.gave host.new ≡ H.gave host.old) × (H.stops host.new ≡ H.stops host.old) }
    ensures same_files { H.files host.new ≡ H.files host.old }
    ensures lasting { (H.file_faults host.old ≤ H.file_faults host.new)
        × (H.port_faults host.old ≤ H.port_faults host.new)
        × (H.faults host.old ≤ H.faults host.new) }

    // Standard error: nothing at 0, else a front of the line of a cause that stands, with its
    // number, and all of it where the count of its faults hasn't risen.
    ensures silent { result ≡ 0 → E.held diag.new ≡ E.held diag.old }
    ensures said { begins_with_serve (texts words.now) ≡ false → result ≢ 0 → SaysFront
        (Stands (request_of (texts words.now)) (H.files host.old) (I.left input.old))
        result (E.held diag.old) (E.held diag.new) }
    ensures said_all { begins_with_serve (texts words.now) ≡ false → result ≢ 0
        → (Rose (E.faults diag.old) (E.faults diag.new) → ⊥) → Says
        (Stands (request_of (texts words.now)) (H.files host.old) (I.left input.old))
        result (E.held diag.old) (E.held diag.new) }
    ensures said_why { begins_with_serve (texts words.now) ≡ true → result ≢ 0
        → SaysWhyFront (texts words.now) (H.files host.old) result
        (E.held diag.old) (E.held diag.new) }
    ensures said_all_why { begins_with_serve (texts words.now) ≡ true → result ≢ 0
        → (Rose (E.faults diag.old) (E.faults diag.new) → ⊥)
        → SaysWhy (texts words.now) (H.files host.old) result
        (E.held diag.old) (E.held diag.new) }
{
    if is_serve(words) {
        return serve_words(rt, alloc, words, out, diag, host);
    }
    dsd_once(alloc, words, input, out, diag, host)
}
