//! Runs of scripts, over any body of a dataspace.
ghost use Rattle.std.specs.Prelude.{◌≡◌, ◌≢◌, ◌+◌, ◌-◌, ◌^◌, ◌<◌, ◌≤◌, ℕ, min};
ghost use Rattle.std.specs.Prelude.{IfOk, IfErr, IfSome, List};
ghost use Rattle.rl_stream.specs.Nexts.{Decider, Decides};
ghost use Rattle.hub_machine.specs.Machine.{IsAllowed, step as step_of};
ghost use Rattle.hub_machine.specs.declared.steps.Step.TheVariants as steps;
ghost use Rattle.hub_outs.specs.Outs.{turning};
ghost use Rattle.sr_caveat.specs.Caps.{IsSound};
ghost use Rattle.rl_packet.specs.declared.packets.Packet.TheVariants as packets;
ghost use Rattle.sc_events.specs.Events.{event_of, IsSoundEvent};
ghost use Rattle.sc_events.specs.declared.events.ScriptEvent.TheVariants as events;
ghost use Rattle.sc_script.specs.Limits.{most_sent};
ghost use Rattle.sc_script.specs.declared.faults.ScriptFault.TheVariants as fault;
ghost use Rattle.sc_script.specs.Runs.{Running, Course, goes, beginning, stepped, turned, drained};
ghost use Rattle.sc_script.specs.Runs.{with_stream, with_no_packet, packets_read, bytes_come};
ghost use Rattle.sc_script.specs.Runs.{set_up, binds, was_opened, may_turn, with_packet};
ghost use Rattle.sc_script.specs.Runs.{read_where, unless_barred};
ghost use Rattle.sc_schema.specs.Courses.{after_value};
ghost use Rattle.sc_script.specs.Runs.{after_event, doing};
ghost use Rattle.sc_script.specs.Keeping.{size_of, noted, SetsUp, IsAt, RunsAs, StopsAs, ReadsOn};
ghost use Rattle.sc_script.specs.Keeping.{made, fault_of, IsUnbarred, IsBehind, IsReplyStop};
ghost use Rattle.sc_script.specs.Keeping.{IsStopped};

use crate::faults::ScriptFault;
use ac_world::BEFORE_CONNECTIONS;
use ds_space::Space;
use gk_sturdy::Binding;
use hub_core::{Fault, Hub, Reply, Step};
use hub_outs::{Outs, turning};
use lc_guard::all_known;
use lc_watch::Behaves;
use pv_canon::canonical_is_exact;
use pv_value::{Blob, NoMemory, Value};
use rl_packet::{Packet, Turn, packet_size};
use rl_stream::{Next, Stream};
use sc_events::{ScriptEvent, event_of};
use sc_streams::Streams;
use sr_pass::Judge;
use std::alloc::Global;
use std::marker::Model;

/// The most bytes that a run sends.
const SENT_BYTES: u64 = 268_435_456;

/// A run so far: the server, what connections were sent and how many bytes, and what they sent.
#[derive(Drop)]
pub(crate) struct Run<S: Space + Drop, J: Judge + Drop, B: Behaves + Drop> {
    pub(crate) hub: Hub<S, J, B>,
    pub(crate) outs: Outs,
    size: u64,
    streams: Streams,
}

impl<S: Space + Drop, J: Judge + Drop, B: Behaves + Drop> Model for Run<S, J, B> {
    ghost use Rattle.std.specs.Coded.{codes};
    ghost use Rattle.pv_value.specs.Lemmas.Coded.{plain_code};
    ghost use Rattle.sr_caveat.specs.Lemmas.Coded.{caveat_code};
    ghost use Rattle.ps_schema.specs.Lemmas.CodedDefinitions.{definition_code};
    ghost use Rattle.sc_script.specs.Keeping.{RunState};
    ghost use Rattle.sc_script.specs.Limits.{most_sent};

    ghost Value = { RunState };

    ghost coded = { Prim.hlevel (codes, plain_code, caveat_code, definition_code) };

    ghost view = { λ r. record {
      state = r.hub;
      outs = r.outs;
      size = r.size;
      streams = r.streams;
    } };

    ghost use Rattle.std.specs.Prelude.{◌≤◌};

    ghost invariant = { λ r. r.size ≤ most_sent };
}

/// How many bytes a packet has on the wire, of which none is made. It stops at `u64::MAX`.
fn size_of(packet: &Packet) -> u64
    ensures { result ≡ min (size_of packet.now) (2 ^ 64 - 1) }
{
    // the canonical form is as long as what is written
    canonical_is_exact();
    packet_size(packet)
}

/// The fault for which a connection ends, where what is next in its stream is bad.
fn fault_of(next: Next) -> Option<Fault>
    ensures { result ≡ fault_of next }
{
    match next {
        Next::BadBytes(number, place) => Some(Fault::BadBytes(number, place)),
        Next::BadPacket => Some(Fault::BadPacket),
        _ => None,
    }
}

impl<S: Space + Drop, J: Judge + Drop, B: Behaves + Drop> Run<S, J, B> {
    /// What a run holds is let go here: a world has many parts, and the proof of each function in
    /// which one ends goes through all of them.
    #[inline(never)]
    pub(crate) fn let_go(self) {}

    /// Nothing is done yet. Guards judge by what is handed in, and watchers act by it.
    pub(crate) fn begin(alloc: Global, judge: J, behaves: B) -> Result<Run<S, J, B>, NoMemory>
        ensures { IfOk result (IsAt (beginning (J.schema judge))) }
    {
        Ok(Run {
            hub: Hub::begin(alloc, judge, behaves)?,
            outs: Outs::new(alloc),
            size: 0,
            streams: Streams::new(alloc),
        })
    }

    /// A packet was sent by a step, which is an actor's turn: it is kept for its connection, and
    /// its bytes count.
    #[inline(always)]
    fn note(self, actor: Option<u32>, packet: Packet) -> Result<Run<S, J, B>, ScriptFault>
        ensures run { IfOk result (λ run. (run ≡ noted actor packet self)
            × (run.size ≤ most_sent)) }
        ensures stop { IfErr result (λ f. f ≢ fault.NoMemory
            → (f ≡ fault.Limit 4) × (most_sent < self.size + size_of packet)) }
    {
        let Run {
            hub,
            mut outs,
            size,
            streams,
        } = self;
        let size = size.saturating_add(size_of(&packet));
        if size > SENT_BYTES {
            return Err(ScriptFault::Limit(4));
        }
        outs.keep(actor, packet)?;
        Ok(Run {
            hub,
            outs,
            size,
            streams,
        })
    }

    /// A step is made. What it sends isn't noted.
    fn made(self, alloc: Global, event: Step) -> Result<(Run<S, J, B>, Reply), NoMemory>
        ensures run { IfOk result (λ done. done.0 ≡ made event self) }
        ensures reply { IfOk result (λ done. done.1 ≡ (step_of self.state event).reply) }
    {
        let Run {
            hub,
            outs,
            size,
            streams,
        } = self;
        let (hub, reply) = hub.step(alloc, event)?;
        Ok((
            Run {
                hub,
                outs,
                size,
                streams,
            },
            reply,
        ))
    }

    /// The step of event `place` was answered so: it is bad where it was barred.
    fn set_up_by(self, place: u64, reply: &Reply) -> Result<Run<S, J, B>, ScriptFault>
        ensures run { IfOk result (λ run. (run ≡ self) × IsUnbarred reply.now) }
        ensures stop { IfErr result (λ f. (r : Running)
            → IsStopped (unless_barred place reply.now r) f) }
    {
        match reply {
            Reply::Worn => {
                self.let_go();
                Err(ScriptFault::Limit(5))
            }
            Reply::Barred => {
                self.let_go();
                Err(ScriptFault::Bad(place))
            }
            _ => Ok(self),
        }
    }

    /// Event `place` binds a reference or makes a watcher: it is bad where that is barred.
    fn set_up(self, alloc: Global, place: u64, event: Step) -> Result<Run<S, J, B>, ScriptFault>
        requires allowed { IsAllowed self.state event }
        requires sets_up { SetsUp event }
        ensures run { IfOk result (RunsAs self (λ N. set_up place event)) }
        ensures stop { IfErr result (StopsAs self (λ N. set_up place event)) }
    {
        let (run, reply) = self.made(alloc, event)?;
        run.set_up_by(place, &reply)
    }

    /// Event `place` binds a reference. The names of its guards are looked at first.
    fn bind(self, alloc: Global, place: u64, binding: Binding) -> Result<Run<S, J, B>, ScriptFault>
        requires { IsSound binding.cap }
        ensures run { IfOk result (RunsAs self (λ N. binds place binding)) }
        ensures stop { IfErr result (StopsAs self (λ N. binds place binding)) }
    {
        if !all_known(self.hub.judge(), binding.cap.caveats.as_slice()) {
            self.let_go();
            return Err(ScriptFault::Schema(place));
        }
        self.set_up(alloc, place, Step::Bind(binding))
    }

    /// A step was answered so: what it sent is noted.
    #[inline(always)]
    fn replied(self, actor: Option<u32>, reply: Reply) -> Result<Run<S, J, B>, ScriptFault>
        ensures run { IfOk result (IsBehind actor reply self) }
        ensures stop { IfErr result (IsReplyStop reply self) }
    {
        match reply {
            Reply::Worn => {
                self.let_go();
                Err(ScriptFault::Limit(5))
            }
            Reply::Full => {
                self.let_go();
                Err(ScriptFault::Limit(2))
            }
            Reply::Sent(packet) => self.note(actor, packet),
            _ => Ok(self),
        }
    }

    /// A step, whose condition is seen to.
    #[inline(always)]
    fn step(self, alloc: Global, event: Step) -> Result<Run<S, J, B>, ScriptFault>
        requires { IsAllowed self.state event }
        ensures run { IfOk result (RunsAs self (λ N. stepped event)) }
        ensures stop { IfErr result (StopsAs self (λ N. stepped event)) }
    {
        let actor = turning(&event);
        let (run, reply) = self.made(alloc, event)?;
        run.replied(actor, reply)
    }

    /// A turn of an actor.
    #[inline(always)]
    fn turn(self, alloc: Global, actor: u32) -> Result<Run<S, J, B>, ScriptFault>
        ensures run { IfOk result (RunsAs self (λ N. turned actor)) }
        ensures stop { IfErr result (StopsAs self (λ N. turned actor)) }
    {
        self.step(alloc, Step::Turn(actor))
    }

    /// Up to so many turns of the lowest actor that has work.
    fn drain(self, alloc: Global, turns: u64) -> Result<Run<S, J, B>, ScriptFault>
        ensures run { IfOk result (RunsAs self (λ N. drained turns)) }
        ensures stop { IfErr result (StopsAs self (λ N. drained turns)) }
    {
        let mut run = self;
        for _ in 0..turns {
            let Some(actor) = run.hub.lowest() else {
                return Ok(run);
            };
            run = run.turn(alloc, actor)?;
        }
        Ok(run)
    }

    /// A connection's stream is put back.
    #[inline(always)]
    fn with_stream(self, connection: u32, stream: Stream) -> Result<Run<S, J, B>, NoMemory>
        ensures { IfOk result (RunsAs self (λ N r. goes (with_stream connection stream r))) }
    {
        let Run {
            hub,
            outs,
            size,
            mut streams,
        } = self;
        streams.put(connection, stream)?;
        Ok(Run {
            hub,
            outs,
            size,
            streams,
        })
    }

    /// A turn of a connection.
    #[inline(always)]
    fn send(self, alloc: Global, connection: u32, turn: Turn) -> Result<Run<S, J, B>, ScriptFault>
        ensures run { IfOk result (RunsAs self (λ N. stepped (steps.Packet connection turn))) }
        ensures stop { IfErr result (StopsAs self (λ N. stepped (steps.Packet connection turn))) }
    {
        // the proof learns here that its events may stand on the wire
        let _ = turn.events.as_slice();
        self.step(alloc, Step::Packet(connection, turn))
    }

    /// What is next isn't a packet: the connection ends where it is bad. Its stream is put back.
    fn stop_reading(
        self,
        alloc: Global,
        connection: u32,
        next: Next,
        stream: Stream,
    ) -> Result<Run<S, J, B>, ScriptFault>
        ensures run { IfOk result (RunsAs self (λ N. with_no_packet connection next stream)) }
        ensures stop { IfErr result (StopsAs self (λ N. with_no_packet connection next stream)) }
    {
        let bad = fault_of(next);
        let run = self.with_stream(connection, stream)?;
        match bad {
            Some(fault) => run.step(alloc, Step::Bad(connection, fault)),
            None => Ok(run),
        }
    }

    /// A connection's stream is kept where the connection is still there, and else put back.
    #[inline(always)]
    fn read_where(
        self,
        connection: u32,
        stream: Stream,
    ) -> Result<(Run<S, J, B>, Option<Stream>), NoMemory>
        ensures run { IfOk result (λ done. (N : Decider) → Decides N → (r : Running) → IsAt r self
            → ReadsOn done.0 done.1 stream (λ more. read_where connection stream more r)) }
        ensures left { IfOk result (λ done. IfSome done.1 (λ left. left ≡ stream)) }
    {
        if self.hub.live(connection) {
            return Ok((self, Some(stream)));
        }
        Ok((self.with_stream(connection, stream)?, None))
    }

    /// A turn of a connection, whose stream is put back where it isn't there behind it.
    #[inline(always)]
    fn turn_sent(
        self,
        alloc: Global,
        connection: u32,
        turn: Turn,
        stream: Stream,
    ) -> Result<(Run<S, J, B>, Option<Stream>), ScriptFault>
        ensures run { IfOk result (λ done. (N : Decider) → Decides N → (r : Running) → IsAt r self
            → ReadsOn done.0 done.1 stream
            (λ more. with_packet connection (packets.Turn turn) stream more r)) }
        ensures left { IfOk result (λ done. IfSome done.1 (λ left. left ≡ stream)) }
        ensures stop { IfErr result (λ f. (more : Running → Course)
            → StopsAs self (λ N. with_packet connection (packets.Turn turn) stream more) f) }
    {
        let run = self.send(alloc, connection, turn)?;
        Ok(run.read_where(connection, stream)?)
    }

    /// A connection sent an error: it ends, and its stream is put back.
    fn error_sent(
        self,
        alloc: Global,
        connection: u32,
        stream: Stream,
    ) -> Result<(Run<S, J, B>, Option<Stream>), ScriptFault>
        ensures run { IfOk result (λ done. (N : Decider) → Decides N → (r : Running) → IsAt r self
            → ReadsOn done.0 done.1 stream
            (λ more. stepped (steps.Close connection) (with_stream connection stream r))) }
        ensures left { IfOk result (λ done. IfSome done.1 (λ left. left ≡ stream)) }
        ensures stop { IfErr result (λ f. (more : Running → Course)
            → StopsAs self (λ N r. stepped (steps.Close connection)
            (with_stream connection stream r)) f) }
    {
        let run = self.with_stream(connection, stream)?;
        Ok((run.step(alloc, Step::Close(connection))?, None))
    }

    /// A packet of a connection. The stream behind it is put back where no more is read.
    #[inline(always)]
    fn packet(
        self,
        alloc: Global,
        connection: u32,
        packet: Packet,
        stream: Stream,
    ) -> Result<(Run<S, J, B>, Option<Stream>), ScriptFault>
        ensures run { IfOk result (λ done. (N : Decider) → Decides N → (r : Running) → IsAt r self
            → ReadsOn done.0 done.1 stream
            (λ more. with_packet connection packet stream more r)) }
        ensures left { IfOk result (λ done. IfSome done.1 (λ left. left ≡ stream)) }
        ensures stop { IfErr result (λ f. (more : Running → Course)
            → StopsAs self (λ N. with_packet connection packet stream more) f) }
    {
        match packet {
            Packet::Turn(turn) => self.turn_sent(alloc, connection, turn, stream),
            Packet::Error(_, _) => self.error_sent(alloc, connection, stream),
            Packet::Nop | Packet::Extension(_) => Ok((self, Some(stream))),
        }
    }

    /// The packets in the stream of a connection that is there. The stream was taken out, and is
    /// put back.
    fn read_packets(
        self,
        alloc: Global,
        connection: u32,
        mut stream: Stream,
    ) -> Result<Run<S, J, B>, ScriptFault>
        ensures run { IfOk result
            (RunsAs self (λ N. packets_read N connection stream)) }
        ensures stop { IfErr result
            (StopsAs self (λ N. packets_read N connection stream)) }
    {
        let mut run = self;
        loop {
            let next = stream.first(alloc)?;
            let Next::Whole(packet, size) = next else {
                return run.stop_reading(alloc, connection, next, stream);
            };
            stream.read_off(size);
            let (now, left) = run.packet(alloc, connection, packet, stream)?;
            let Some(left) = left else {
                return Ok(now);
            };
            run = now;
            stream = left;
        }
    }

    /// Bytes of a connection come.
    #[inline(always)]
    fn bytes(
        self,
        alloc: Global,
        connection: u32,
        bytes: &[u8],
    ) -> Result<Run<S, J, B>, ScriptFault>
        ensures run { IfOk result
            (RunsAs self (λ N. bytes_come N connection bytes.now)) }
        ensures stop { IfErr result
            (StopsAs self (λ N. bytes_come N connection bytes.now)) }
    {
        if !self.hub.live(connection) {
            return Ok(self);
        }
        let Run {
            hub,
            outs,
            size,
            mut streams,
        } = self;
        let stream = streams.take(connection, bytes)?;
        let run = Run {
            hub,
            outs,
            size,
            streams,
        };
        run.read_packets(alloc, connection, stream)
    }

    /// Whether a connection was ever opened.
    fn was_opened(&self, connection: u32) -> bool
        ensures { (r : Running) → IsAt r self.now → result ≡ was_opened connection r }
    {
        connection >= 1 && connection <= self.hub.opened()
    }

    /// Whether an actor may be asked for a turn: one of the system, or a connection that was ever
    /// opened.
    fn may_turn(&self, actor: u32) -> bool
        ensures { (r : Running) → IsAt r self.now → result ≡ may_turn actor r }
    {
        actor <= BEFORE_CONNECTIONS || self.was_opened(actor - BEFORE_CONNECTIONS)
    }

    /// Event `place` brings bytes of a connection: it is bad where none was opened by this number.
    #[inline(always)]
    fn opened_bytes(
        self,
        alloc: Global,
        place: u64,
        connection: u32,
        sent: Blob,
    ) -> Result<Run<S, J, B>, ScriptFault>
        ensures run { IfOk result
            (RunsAs self (λ N. after_event N place (events.Bytes connection sent))) }
        ensures stop { IfErr result
            (StopsAs self (λ N. after_event N place (events.Bytes connection sent))) }
    {
        if !self.was_opened(connection) {
            self.let_go();
            return Err(ScriptFault::Bad(place));
        }
        self.bytes(alloc, connection, sent.as_slice())
    }

    /// Event `place` ends a connection: it is bad where none was opened by this number.
    #[inline(always)]
    fn opened_close(
        self,
        alloc: Global,
        place: u64,
        connection: u32,
    ) -> Result<Run<S, J, B>, ScriptFault>
        ensures run { IfOk result
            (RunsAs self (λ N. after_event N place (events.Close connection))) }
        ensures stop { IfErr result
            (StopsAs self (λ N. after_event N place (events.Close connection))) }
    {
        if !self.was_opened(connection) {
            self.let_go();
            return Err(ScriptFault::Bad(place));
        }
        self.step(alloc, Step::Close(connection))
    }

    /// Event `place` asks an actor for a turn: it is bad where that may not be asked.
    #[inline(always)]
    fn asked_turn(self, alloc: Global, place: u64, actor: u32) -> Result<Run<S, J, B>, ScriptFault>
        ensures run { IfOk result (RunsAs self (λ N. after_event N place (events.Turn actor))) }
        ensures stop { IfErr result (StopsAs self (λ N. after_event N place (events.Turn actor))) }
    {
        if !self.may_turn(actor) {
            self.let_go();
            return Err(ScriptFault::Bad(place));
        }
        self.turn(alloc, actor)
    }

    /// Event `place` gives a schema, whatever its text is: only the first one may.
    fn schema_at(self, place: u64) -> Result<Run<S, J, B>, ScriptFault>
        ensures run { IfOk result (λ run. (text : List ℕ)
            → RunsAs self (λ N. after_event N place (events.Schema text)) run) }
        ensures stop { IfErr result (λ f. (text : List ℕ)
            → StopsAs self (λ N. after_event N place (events.Schema text)) f) }
    {
        if place == 0 {
            return Ok(self);
        }
        self.let_go();
        Err(ScriptFault::Bad(place))
    }

    /// Event `place` of a script.
    #[inline(always)]
    fn event(
        self,
        alloc: Global,
        place: u64,
        event: ScriptEvent,
    ) -> Result<Run<S, J, B>, ScriptFault>
        requires { IsSoundEvent event }
        ensures run { IfOk result (RunsAs self (λ N. after_event N place event)) }
        ensures stop { IfErr result (StopsAs self (λ N. after_event N place event)) }
    {
        match event {
            ScriptEvent::Bind(binding) => self.bind(alloc, place, binding),
            ScriptEvent::Watch(watched) => self.set_up(alloc, place, Step::Watch(watched)),
            ScriptEvent::Open(space) => self.step(alloc, Step::Arrive(space)),
            ScriptEvent::Bytes(connection, bytes) => {
                self.opened_bytes(alloc, place, connection, bytes)
            }
            ScriptEvent::Close(connection) => self.opened_close(alloc, place, connection),
            ScriptEvent::Turn(actor) => self.asked_turn(alloc, place, actor),
            ScriptEvent::Drain(turns) => self.drain(alloc, turns),
            ScriptEvent::LongDrain => {
                self.let_go();
                Err(ScriptFault::Limit(3))
            }
            ScriptEvent::Schema(_) => self.schema_at(place),
        }
    }

    /// Value `place` of a script.
    pub(crate) fn value(
        self,
        alloc: Global,
        place: u64,
        value: &Value,
    ) -> Result<Run<S, J, B>, ScriptFault>
        ensures run { IfOk result
            (RunsAs self (λ N. after_value (doing N) place (event_of value.now))) }
        ensures stop { IfErr result
            (StopsAs self (λ N. after_value (doing N) place (event_of value.now))) }
    {
        match event_of(alloc, value)? {
            Some(event) => self.event(alloc, place, event),
            None => {
                self.let_go();
                Err(ScriptFault::Bad(place))
            }
        }
    }
}
