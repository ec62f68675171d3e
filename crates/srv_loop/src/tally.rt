//! How the links of an accept loop fared.
ghost use Rattle.std.specs.Prelude.{◌≡◌, ◌+◌, ◌-◌, ◌<◌, ◌^◌};
ghost use Rattle.srv_loop.specs.Fates.{served_in, full_in, unserved_in};
ghost use Rattle.srv_loop.specs.Tallies.{accepts_of};

/// How the links of an accept loop fared.
#[derive(Clone, Copy, Debug, PartialEq, Eq)]
pub struct Tally {
    /// Links of which the spawner took both jobs.
    pub served: u32,
    /// Links that the desk didn't open.
    pub full: u32,
    /// Accepts that failed.
    pub failed: u32,
    /// Links that were opened and of which the spawner didn't take both jobs.
    pub unserved: u32,
}

/// What became of a link.
#[derive(Clone, Copy)]
pub(crate) enum Fate {
    Served,
    Full,
    Unserved,
}

impl Tally {
    /// Before the first accept.
    pub(crate) fn new() -> Tally
        ensures { accepts_of result ≡ 0 }
    {
        Tally {
            served: 0,
            full: 0,
            failed: 0,
            unserved: 0,
        }
    }

    /// Counts a link.
    pub(crate) fn count(&mut self, fate: Fate)
        requires { accepts_of self.old < 2 ^ 32 - 1 }
        ensures served { self.new.served ≡ self.old.served + served_in fate }
        ensures full { self.new.full ≡ self.old.full + full_in fate }
        ensures failed { self.new.failed ≡ self.old.failed }
        ensures unserved { self.new.unserved ≡ self.old.unserved + unserved_in fate }
    {
        match fate {
            Fate::Served => self.served += 1,
            Fate::Full => self.full += 1,
            Fate::Unserved => self.unserved += 1,
        }
    }
}
