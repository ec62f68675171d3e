//! Two readers at one gate, of which the first one's steps wait until the second one was answered.
use crate::guests::wait_for;
use ds_skeleton::Skeleton;
use ds_space::Space;
use hub_machine::{Reply, Step};
use lc_watch::{Behaves, Table, Watcher};
use out_ports::memory::MemSource;
use out_ports::ports::Run;
use out_real::start_in;
use sr_pass::{Judge, NoNames};
use srv_desk::GateDesk;
use srv_session::{Seated, Served};
use srv_turns::{Behind, Turns, serve_reader};
use std::alloc::{AllocError, Global};
use std::sync::atomic::{AtomicU64, Ordering};
use std::sync::{Arc, Wait};
use std::test::Fail;
use std::thread::{self, Threads};
use turn_gate::{Gate, GateFault};

/// An empty turn, as it is written.
const TURN: [u8; 2] = [0xb5, 0x84];

/// How many steps were answered, and how many waited in vain.
#[derive(Drop)]
struct Counts {
    answered: AtomicU64,
    lost: AtomicU64,
}

/// A caller whose steps wait, where it is so, until so many steps were answered.
#[derive(Drop)]
struct Held<T> {
    turns: T,
    least: u64,
    counts: Arc<Counts>,
}

impl<T: Turns> Turns for Held<T> {
    ghost pairs = { λ s. T.pairs s.turns };

    ghost spent = { λ s. T.spent s.turns };

    ghost lost = { λ s. T.lost s.turns };

    fn commit<R: Wait>(&mut self, rt: &R, step: Step) -> Result<Reply, GateFault> {
        wait_for(&self.counts.answered, self.least, &self.counts.lost);
        let answer = self.turns.commit(rt, step);
        self.counts.answered.fetch_add(1, Ordering::SeqCst);
        answer
    }

    fn commit_row<R: Wait>(
        &mut self,
        rt: &R,
        step: Step,
        behind: Behind,
        replies: &mut Vec<Reply>,
    ) -> Result<(), GateFault> {
        wait_for(&self.counts.answered, self.least, &self.counts.lost);
        let answer = self.turns.commit_row(rt, step, behind, replies);
        self.counts.answered.fetch_add(1, Ordering::SeqCst);
        answer
    }

    fn rest<R: Wait>(&mut self, rt: &R) {
        self.turns.rest(rt);
    }

    fn has_ended<R: Wait>(&mut self, rt: &R, connection: u32) -> bool {
        self.turns.has_ended(rt, connection)
    }
}

/// A reader of a link.
#[derive(Drop)]
struct Reader<T> {
    alloc: Global,
    connection: u32,
    link: MemSource,
    turns: Held<T>,
}

impl<T: Turns + Drop> Run for Reader<T> {
    fn run<Rt: Wait>(self, rt: &Rt) {
        let Reader {
            alloc,
            connection,
            mut link,
            mut turns,
        } = self;
        serve_reader(rt, alloc, connection, &mut link, &mut turns);
    }
}

/// A link with one turn.
fn link(alloc: Global) -> Result<MemSource, AllocError> {
    let bytes = Vec::from_slice(alloc, &TURN)?;
    Ok(MemSource::new(bytes, 64, Vec::new(alloc)))
}

/// A reader, for the next connection that comes, whose steps wait for so many answers.
fn seated_reader<'g, Rt: Wait, S: Space + Drop, J: Judge + Drop, B: Behaves + Drop>(
    rt: &Rt,
    alloc: Global,
    desk: &mut GateDesk<'g, Served<S, J, B>>,
    least: u64,
    counts: &Arc<Counts>,
) -> Option<Reader<Seated<'g, Served<S, J, B>>>> {
    let connection = desk.open(rt).ok()??;
    let turns = Held {
        turns: desk.seat(0),
        least,
        counts: Arc::try_clone(counts).ok()?,
    };
    let link = link(alloc).ok()?;
    Some(Reader {
        alloc,
        connection,
        link,
        turns,
    })
}

/// How many steps of two readers were answered, and how many waited in vain: those of the first
/// wait until one of the second was.
fn two_readers<Rt, S, J, B>(rt: &Rt, alloc: Global, judge: J, behaves: B) -> Option<(u64, u64)>
where
    Rt: Threads + Wait + Sync,
    S: Space + Drop + Send,
    J: Judge + Drop + Send,
    B: Behaves + Drop + Send,
{
    let served = Served::<S, J, B>::begin(alloc, judge, behaves).ok()?;
    let Ok((gate, pass)) = Gate::begin(alloc, served, 2) else {
        return None;
    };
    let counts = Counts {
        answered: AtomicU64::new(0),
        lost: AtomicU64::new(0),
    };
    let counts = Arc::new(alloc, counts).ok()?;
    let mut desk = GateDesk::new(alloc, &gate, pass);
    let first = seated_reader(rt, alloc, &mut desk, 1, &counts)?;
    let second = seated_reader(rt, alloc, &mut desk, 0, &counts)?;
    thread::scope(thread::scope_env(), rt, move |scope| {
        start_in(rt, scope, first);
        start_in(rt, scope, second);
    });
    Some((
        counts.answered.load(Ordering::SeqCst),
        counts.lost.load(Ordering::SeqCst),
    ))
}

/// Whether both got on: each commits its turn, work behind it, and its end with work behind that.
fn both_get_on<Rt: Threads + Wait + Sync>(rt: &Rt, alloc: Global) -> bool {
    let behaves = Watcher::new(Table);
    match two_readers::<Rt, Skeleton, NoNames, Watcher<Table>>(rt, alloc, NoNames, behaves) {
        Some((answered, lost)) => answered >= 4 && lost == 0,
        None => false,
    }
}

#[test]
fn a_reader_that_waits_holds_nobody_up(rt: HostRuntime) -> Result<(), Fail> {
    assert!(rt; both_get_on(&rt, rt.alloc()));
    Ok(())
}
