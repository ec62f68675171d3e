//! Serving the links of a listener.
ghost use Rattle.std.specs.Prelude.{◌≡◌, ◌≤◌, IfOk, OnOk};
ghost use Rattle.out_ports.specs.Ports.{raised, RoseBy};
ghost use Rattle.srv_loop.specs.Tallies.{links_of, accepts_of, HasEnded};

use ds_space::Space;
use hub_core::Hub;
use lc_watch::Behaves;
use out_ports::ports::{Listen, Run, Spawner};
use out_real::{ScopeSpawner, start_in};
use sr_pass::Judge;
use srv_desk::{GateDesk, Stopped, Worker};
use srv_loop::{Desk, NoMemory, Tally, accept_all};
use srv_session::Served;
use std::alloc::Global;
use std::sync::Wait;
use std::thread::{self, Scope, Threads};
use turn_gate::Gate;

/// What is done at a desk while its jobs run in a scope. A value of a closure's own type says more
/// of what the closure wrote than a `&mut` that it borrows.
trait Work<D, J> {
    type Output;

    /// What it answers.
    ghost gives: { Self → Self.Output → Type 0 };

    fn work<Rt: Wait, Sp: Spawner<J>>(self, rt: &Rt, desk: &mut D, spawner: &mut Sp) -> Self::Output
        requires { (job : J) → Sp.can_start spawner.old job }
        ensures { gives self result };

    /// It isn't begun, for want of memory.
    fn give_up(self) -> Self::Output
        ensures { gives self result };
}

/// Accepting so many links.
#[derive(Drop)]
struct Accepting<'a, Li> {
    alloc: Global,
    listener: &'a mut Li,
    connections: u32,
}

impl<'a, Li: Listen, J: Drop, D: Desk<Li::R, Li::W, Job = J>> Work<D, J> for Accepting<'a, Li> {
    /// The listener is handed back.
    type Output = (Result<Tally, NoMemory>, &'a mut Li);

    ghost gives = { λ work answer. (answer.1.ghost_name ≡ work.listener.ghost_name)
        × IfOk answer.0 (λ tally. HasEnded (accepts_of tally) work.connections
        (Li.stops work.listener.now) (Li.stops answer.1.now))
        × IfOk answer.0 (λ tally.
        RoseBy (links_of tally) (Li.gave work.listener.now) (Li.gave answer.1.now))
        × IfOk answer.0 (λ tally.
        raised tally.failed (Li.faults work.listener.now) ≤ Li.faults answer.1.now)
        × (Li.faults work.listener.now ≤ Li.faults answer.1.now)
        × (Li.address answer.1.now ≡ Li.address work.listener.now)
        × (Li.files answer.1.now ≡ Li.files work.listener.now)
        × (Li.file_faults answer.1.now ≡ Li.file_faults work.listener.now)
        × (Li.port_faults answer.1.now ≡ Li.port_faults work.listener.now) };

    fn work<Rt: Wait, Sp: Spawner<J>>(
        self,
        rt: &Rt,
        desk: &mut D,
        spawner: &mut Sp,
    ) -> (Result<Tally, NoMemory>, &'a mut Li) {
        let Accepting {
            alloc,
            listener,
            connections,
        } = self;
        let tally = accept_all(rt, alloc, listener, desk, spawner, connections);
        (tally, listener)
    }

    fn give_up(self) -> (Result<Tally, NoMemory>, &'a mut Li) {
        let Accepting { listener, .. } = self;
        listener.close();
        (Err(NoMemory), listener)
    }
}

/// A desk that has workers.
trait Team<V> {
    /// That the workers were told to end: whoever has one has told them, since nothing else makes
    /// one.
    type Told: Drop;

    /// Between the first and the second the workers were told to end.
    ghost told: { Self → Self → Type 0 };

    /// One more worker, which isn't started yet.
    fn worker(&mut self) -> V;

    /// Tells all workers to end once nothing is left to do.
    fn end_workers<Rt: Wait>(&mut self, rt: &Rt) -> Result<Self::Told, NoMemory>
        ensures { OnOk result (told self.old self.new) };
}

impl<'g, S: Space + Drop, J: Judge + Drop, B: Behaves + Drop> Team<Worker<'g, Served<S, J, B>>>
    for GateDesk<'g, Served<S, J, B>> {
    ghost use Rattle.turn_gate.specs.Gates.{view};
    ghost use Rattle.hub_machine.specs.declared.steps.Step.TheVariants as steps;
    ghost use Rattle.srv_desk.specs.Desks.{pairs_by, is_spent, IsDone};

    type Told = Stopped;

    ghost told = { λ before now. IsDone steps.Stop (pairs_by (view before.pass))
        (pairs_by (view now.pass)) (is_spent (view now.pass)) };

    fn worker(&mut self) -> Worker<'g, Served<S, J, B>> {
        Worker::new(self.alloc(), self.seat(0))
    }

    fn end_workers<Rt: Wait>(&mut self, rt: &Rt) -> Result<Stopped, NoMemory> {
        self.stop(rt)
    }
}

/// Starts so many workers, or as many as there can be threads. Answers whether there is one at
/// least, where any is wanted.
fn start_workers<'s, E, Rt, D, V>(
    rt: &'s Rt,
    scope: &Scope<'s, E>,
    desk: &mut D,
    workers: u32,
) -> bool
where
    Rt: Wait + Sync,
    V: Run + Send + Drop + 's,
    D: Team<V>,
{
    for started in 0..workers {
        if !start_in(rt, scope, desk.worker()) {
            return started > 0;
        }
    }
    true
}

/// Does the work at the desk, and returns once all jobs that it started have ended.
fn in_scope<Rt, D, J, K, A>(rt: &Rt, desk: &mut D, work: K) -> A
where
    Rt: Threads + Wait + Sync,
    J: Run + Send + Drop,
    K: Work<D, J, Output = A> + Drop,
    ensures { K.gives work result }
{
    thread::scope(
        thread::scope_env(),
        rt,
        move |scope| -> A
            ensures { K.gives work result }
        {
            let mut spawner = ScopeSpawner::new(|job: J| start_in(rt, scope, job));
            work.work(rt, desk, &mut spawner)
        },
    )
}

/// Does the work at the desk, or gives it up where it has no workers: what connections leave behind
/// would stay undone.
fn work_or_give_up<Rt, D, J, K, A>(rt: &Rt, desk: &mut D, work: K, has_workers: bool) -> A
where
    Rt: Threads + Wait + Sync,
    J: Run + Send + Drop,
    K: Work<D, J, Output = A> + Drop,
    ensures { K.gives work result }
{
    if has_workers {
        in_scope(rt, desk, work)
    } else {
        work.give_up()
    }
}

/// Does the work at the desk, and once all jobs that it started have ended tells the workers to.
fn work_and_end<Rt, D, V, J, K, A>(
    rt: &Rt,
    desk: &mut D,
    work: K,
    has_workers: bool,
) -> (A, Result<D::Told, NoMemory>)
where
    Rt: Threads + Wait + Sync,
    D: Team<V>,
    J: Run + Send + Drop,
    K: Work<D, J, Output = A> + Drop,
    ensures done { K.gives work result.0 }
    ensures told { OnOk result.1 ((before : D) × D.told before desk.new) }
{
    let answer = work_or_give_up(rt, desk, work, has_workers);
    (answer, desk.end_workers(rt))
}

/// Does the work at the desk with so many workers beside, and returns once all of these have ended
/// too: they are told to stop when the jobs that it started have ended.
fn beside_workers<Rt, D, V, J, K, A>(
    rt: &Rt,
    desk: &mut D,
    work: K,
    workers: u32,
) -> (A, Result<D::Told, NoMemory>)
where
    Rt: Threads + Wait + Sync,
    V: Run + Send + Drop,
    D: Team<V>,
    J: Run + Send + Drop,
    K: Work<D, J, Output = A> + Drop,
    ensures { K.gives work result.0 }
{
    thread::scope(
        thread::scope_env(),
        rt,
        move |scope| -> (A, Result<D::Told, NoMemory>)
            ensures { K.gives work result.0 }
        {
            let has_workers = start_workers(rt, scope, desk, workers);
            work_and_end(rt, desk, work, has_workers)
        },
    )
}

/// Ends the borrow of what an answer hands back.
fn take_back<T>(lent: &mut T)
    ensures { lent.new ≡ lent.old }
{}

/// Serves the links that a listener gives, each by two sessions in threads of their own, until so
/// many were accepted or no more come. Beside them so many workers do the work of the system's
/// actors, or as many as there can be threads. Where not one of them can be started it accepts no
/// link and answers want of memory.
///
/// It returns once all threads that it started have ended: first the sessions, and then, told to
/// stop, the workers.
pub fn serve<Rt, S, J, B, Li>(
    rt: &Rt,
    alloc: Global,
    hub: Hub<S, J, B>,
    listener: &mut Li,
    workers: u32,
    connections: u32,
) -> Result<Tally, NoMemory>
where
    Rt: Threads + Wait + Sync,
    S: Space + Drop + Send,
    J: Judge + Drop + Send,
    B: Behaves + Drop + Send,
    Li: Listen,
    Li::R: Send + Drop,
    Li::W: Send + Drop,
    // How many accepts there were, and what they gave.
    ensures ends { IfOk result (λ tally. HasEnded (accepts_of tally) connections
        (Li.stops listener.old) (Li.stops listener.new)) }
    ensures links { IfOk result (λ tally.
        RoseBy (links_of tally) (Li.gave listener.old) (Li.gave listener.new)) }
    ensures failed { IfOk result (λ tally.
        raised tally.failed (Li.faults listener.old) ≤ Li.faults listener.new) }
    // The count of faults never falls, and what else a host tells stays.
    ensures lasting { Li.faults listener.old ≤ Li.faults listener.new }
    ensures place { Li.address listener.new ≡ Li.address listener.old }
    ensures same_files { Li.files listener.new ≡ Li.files listener.old }
    ensures same_file_faults { Li.file_faults listener.new ≡ Li.file_faults listener.old }
    ensures same_port_faults { Li.port_faults listener.new ≡ Li.port_faults listener.old }
{
    let Ok((gate, pass)) = Gate::begin(alloc, Served::of(alloc, hub), 1) else {
        return Err(NoMemory);
    };
    let mut desk = GateDesk::new(alloc, &gate, pass);
    let work = Accepting {
        alloc,
        listener,
        connections,
    };
    let ((tally, listener), told) = beside_workers(rt, &mut desk, work, workers);
    take_back(listener);
    let _told = told?;
    tally
}
