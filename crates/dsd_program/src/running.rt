//! All words.
ghost use Rattle.dsd_top.specs.Asked.{texts};
ghost use Rattle.dq_link.specs.Asked.{rest_of};
ghost use Rattle.dsd_program.specs.Told.{source_of, sink_of, keeper_of, world_of};
ghost use Rattle.dsd_program.specs.Does.{Does};

use crate::word::{Word, word_of};
use dsd_keep::bindings_words;
use dsd_query::query_words;
use dsd_serve::{dsd_main, serve_kept_words};
use kp_keeper::Keeping;
use out_ports::ports::{Host, Sink, Source};
use std::alloc::Global;
use std::sync::Wait;
use std::thread::Threads;

/// Does what the words say, with threads and waits at hand, and answers the status. The first word
/// picks the call that does them: `query` asks a server, `bindings` goes to the keeper alone, and
/// `serve-kept` serves by what it keeps; all other words are [`dsd_main`]'s.
pub fn run_words<Rt: Threads + Wait + Sync, I: Source, O: Sink, E: Sink, H: Host, K: Keeping>(
    rt: &Rt,
    alloc: Global,
    words: &[String],
    input: &mut I,
    out: &mut O,
    diag: &mut E,
    host: &mut H,
    keeper: &mut K,
) -> u8
where
    H::R: Send + Drop,
    H::W: Send + Drop,
    // What the call ensures that the first word picks.
    ensures does { Does (texts words.now) result
        (world_of (source_of (I.left input.old) (I.ended input.old) (I.faults input.old))
        (sink_of (O.held out.old) (O.finishes out.old) (O.faults out.old))
        (sink_of (E.held diag.old) (E.finishes diag.old) (E.faults diag.old))
        (H.link host.old)
        (rest_of (H.files host.old) (H.address host.old) (H.closed host.old) (H.gave host.old)
        (H.stops host.old) (H.file_faults host.old) (H.port_faults host.old) (H.faults host.old))
        (keeper_of (K.kept keeper.old) (K.file keeper.old) (K.faults keeper.old)))
        (world_of (source_of (I.left input.new) (I.ended input.new) (I.faults input.new))
        (sink_of (O.held out.new) (O.finishes out.new) (O.faults out.new))
        (sink_of (E.held diag.new) (E.finishes diag.new) (E.faults diag.new))
        (H.link host.new)
        (rest_of (H.files host.new) (H.address host.new) (H.closed host.new) (H.gave host.new)
        (H.stops host.new) (H.file_faults host.new) (H.port_faults host.new) (H.faults host.new))
        (keeper_of (K.kept keeper.new) (K.file keeper.new) (K.faults keeper.new))) }
{
    match word_of(words) {
        Word::Query => query_words(alloc, words, out, diag, host),
        Word::Bindings => bindings_words(alloc, words, out, diag, keeper),
        Word::ServeKept => serve_kept_words(rt, alloc, words, out, diag, host, keeper),
        Word::Main => dsd_main(rt, alloc, words, input, out, diag, host),
    }
}
