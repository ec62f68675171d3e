//! The hub as a value that a gate holds.
ghost use Rattle.std.specs.Prelude.{◌≡◌, ◌<◌, ℕ, [], false, get_or, IfOk};
ghost use Rattle.hub_machine.specs.State.{opening};
ghost use Rattle.hub_machine.specs.Machine.{IsAllowed};
ghost use Rattle.srv_session.specs.Allowed.{allowed_once};
ghost use Rattle.hub_core.specs.Work.{has_work};
ghost use Rattle.srv_session.specs.Called.{called_by};

use ds_space::Space;
use hub_core::{Hub, Reply, Step, class_of};
use lc_watch::Behaves;
use sr_pass::Judge;
use std::alloc::Global;
use turn_gate::{NoMemory, PLACES, Replayed};

/// A step that may come: a reference that it binds is one that is read back, and the events of a
/// packet may stand on the wire.
#[derive(Drop)]
pub struct ServedStep {
    pub step: Step,
    pub ghost allowed: { IsAllowed (opening []) step } by { allowed_once (opening []) step },
}

impl ServedStep {
    /// The step, of whose parts their types keep this.
    pub fn new(step: Step) -> ServedStep
        ensures { result.step ≡ step }
    {
        match step {
            Step::Packet(connection, turn) => ServedStep {
                step: Step::Packet(connection, turn),
            },
            Step::Bind(binding) => ServedStep {
                step: Step::Bind(binding),
            },
            step => ServedStep { step },
        }
    }
}

/// The hub, with the memory that its steps take.
#[derive(Drop)]
pub struct Served<S: Space + Drop, J: Judge + Drop, B: Behaves + Drop> {
    pub hub: Hub<S, J, B>,
    pub alloc: Global,
}

impl<S: Space + Drop, J: Judge + Drop, B: Behaves + Drop> Served<S, J, B> {
    /// The hub at its beginning. Guards judge by what is handed in, and watchers act by it.
    pub fn begin(alloc: Global, judge: J, behaves: B) -> Result<Served<S, J, B>, pv_value::NoMemory>
        ensures { IfOk result (λ s. s.hub ≡ opening (J.schema judge)) }
    {
        let hub = Hub::begin(alloc, judge, behaves)?;
        Ok(Served::of(alloc, hub))
    }

    /// This hub, at which steps may have been done before.
    pub fn of(alloc: Global, hub: Hub<S, J, B>) -> Served<S, J, B>
        ensures { result.hub ≡ hub }
    {
        Served { hub, alloc }
    }
}

impl<S: Space + Drop, J: Judge + Drop, B: Behaves + Drop> Replayed for Served<S, J, B> {
    ghost use Rattle.srv_session.specs.Served.{served_next, served_over};

    type Step = ServedStep;

    type Reply = Reply;

    ghost next = { served_next };

    ghost over = { served_over };

    /// Who waits for a connection's end rests at the place of its class.
    fn called_by(s: &ServedStep) -> Option<usize>
        ensures { result ≡ called_by s.now.step }
    {
        match &s.step {
            Step::Close(connection) => Some(class_of(*connection)),
            _ => None,
        }
    }

    /// Its places are the classes of the hub.
    fn work(&self) -> [bool; PLACES]
        ensures { (p : ℕ) → p < 64 → get_or result p false ≡ has_work p self.now.hub }
    {
        self.hub.work_by_class()
    }

    /// Whether a connection isn't there.
    fn is_over(&self, about: u32) -> bool {
        !self.hub.live(about)
    }

    fn step(self, s: ServedStep) -> Result<(Served<S, J, B>, Reply), NoMemory> {
        let Served { hub, alloc } = self;
        match hub.step(alloc, s.step) {
            Ok((hub, reply)) => Ok((Served { hub, alloc }, reply)),
            Err(_no_memory) => Err(NoMemory),
        }
    }
}
