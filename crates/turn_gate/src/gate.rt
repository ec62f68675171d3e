//! The gate and its passes, and its calls as the table sees them.
ghost use Rattle.std.specs.Prelude.{◌≡◌, ℕ, ◌≤◌, ◌<◌, ◌^◌, [], ◌∷◌, true, false, ◌≢◌, length};
ghost use Rattle.std.specs.Prelude.{IfOk, MatchResult, MatchOption, Some};
ghost use Rattle.turn_gate.specs.declared.view.Has.TheVariants.{Nothing};
ghost use Rattle.turn_gate.specs.History.{places};

use crate::plays::{Again, Compare, Family, Give, Law, Look, Note, Take, Touch, Visit};
use crate::replayed::{NoMemory, PLACES, Replayed};
use crate::view::{Held, View};
use atomic_table::{Seat, Table};
use crossbeam_utils::Backoff;
use std::alloc::Global;
use std::snapshot::Snapshot;
use std::sync::Wait;
use std::time::Duration;
use thiserror::Error;

/// Why a commit did no step.
#[derive(Debug, Drop, Error)]
pub enum GateFault {
    /// As many steps stand as a gate takes.
    #[error("the gate is spent")]
    Spent,
    /// This step or an earlier one found no memory, and the value was given up.
    #[error("out of memory")]
    NoMemory,
}

/// The most steps that a gate takes.
pub const MOST: u64 = 1 << 62;

// How many words are a line of the processor's memory, which one thread at a time writes. The count
// and the lock have one each; the words by which callers sleep for the lock share one.
const LINE: usize = 8;

// How many steps stand.
const COUNT: usize = 0;

// 1 while a pass has the slot, and else 0.
const LOCK: usize = 8;

// How many callers sleep until the lock is free.
const WAITERS: usize = 16;

// How many callers have slept for it in vain, and are to have it before others.
const STARVED: usize = 17;

// How often the lock was given back while somebody was starved; these sleep until it changes.
const TURNS: usize = 18;

// How often a caller sleeps in vain before it counts as starved.
const NAPS: u32 = 16;

// How many thousandths of a second it sleeps at once, where nobody wakes it.
const NAP: u64 = 1;

// 1 once the value was given up.
const ENDED: usize = 24;

// From this word on each place has a line, which begins with how many steps stood when the place
// was called last.
const CALLS: usize = 32;

// From this word on, in the same lines, those who rest at each place are counted.
const RESTERS: usize = 33;

// How many words there are.
const WORDS: usize = 544;

/// A value that callers change in steps, each through a pass of its own.
///
/// It is shared by reference between threads. Of its words two are under a rule, how many steps
/// stand and the lock; by the others callers wake one another, and no clause speaks of them.
#[derive(Drop)]
pub struct Gate<T: Replayed> {
    pub(crate) table: Table<Held<T, T::Step>, View<T, T::Step, T::Reply>, Snapshot<T>, Law, Global>,
    ghost sized: { (table.shared.table_id.words ≡ 544) × (table.shared.table_id.slots ≡ 1) },
}

// What a pass is to the table.
pub(crate) type Place<T> = Seat<
    Held<T, <T as Replayed>::Step>,
    View<T, <T as Replayed>::Step, <T as Replayed>::Reply>,
>;

/// One caller's token of one gate, with what the caller has seen of the gate.
///
/// It may be dropped. The gate then can't be closed any more, and goes on.
#[derive(Drop)]
pub struct Pass<T: Replayed> {
    pub(crate) seat: Seat<Held<T, T::Step>, View<T, T::Step, T::Reply>>,
    // Where the caller rests.
    pub(crate) place: usize,
    // How many steps the pass has seen: what it has heard of.
    pub(crate) heard: u64,
    ghost placed: { place < 64 },
    ghost empty: { seat.me.1 ≡ [] },
    ghost idle: { seat.me.0.has ≡ Nothing },
    ghost named: { seat.me.0.named ≡ true },
    pub ghost own: { seat.me.0.mine ≡ places seat.me.0.name seat.me.0.seen },
    pub ghost hears: { heard ≡ length seat.me.0.seen },
}

// What became of a step that was to be noted.
pub(crate) enum Noted<T, R> {
    // It left this value with this reply, and so many steps stand now.
    Done(T, R, u64),
    // As many steps stand as a gate takes.
    Full(T),
    // It found no memory.
    Lost,
}

// This place is called too, where there is one.
pub(crate) fn add_place(called: &mut [bool; PLACES], place: Option<usize>) {
    if let Some(place) = place
        && place < PLACES
    {
        called[place] = true;
    }
}

impl<T: Replayed> Gate<T> {
    ghost use Rattle.turn_gate.specs.Passes.{IsFirst, Stood, Failed, Committed, IsChild, IsUnion};
    ghost use Rattle.turn_gate.specs.Passes.{HasAll, IsWhole};
    ghost use Rattle.turn_gate.specs.Passes.{IsAsked};
    ghost use Rattle.turn_gate.specs.Places.{place_view, IsFreeAt, HasOut, Holds, HasMark};
    ghost use Rattle.turn_gate.specs.Places.{HasNoted};
    ghost use Rattle.turn_gate.specs.Table.{Took, Ready, gave, giving, asking, parent};
    ghost use Rattle.turn_gate.specs.History.{after, IsLegal};
    ghost use Rattle.turn_gate.specs.declared.view.Held.TheVariants.{Value, Mark, Ask};
    ghost use mathlib.Core.Option.{some};

    // How many steps stand now.
    pub(crate) fn seen_at(&self, pass: &mut Place<T>) -> u64
        requires gate { (pass.old.table_id ≡ self.now.table.shared.table_id)
            × IsFreeAt self.now.table.shared.key.value pass.old }
        ensures gate { (pass.new.table_id ≡ pass.old.table_id)
            × IsFreeAt self.now.table.shared.key.value pass.new }
        ensures seen { (place_view pass.old).floor ≤ result
            × (length (place_view pass.old).seen ≤ result) }
        ensures floor { (place_view pass.new).floor ≡ result }
        ensures same { Stood (place_view pass.old) (place_view pass.new)
            × ((place_view pass.new).lost ≡ (place_view pass.old).lost) }
    {
        self.table.shared.load::<Look>(pass, COUNT)
    }

    // Sleeps while the lock is taken, for a nap at most. It counts itself first, so that who gives
    // back wakes it.
    fn wait<R: Wait>(&self, rt: &R, pass: &mut Place<T>)
        requires gate { pass.old.table_id ≡ self.now.table.shared.table_id }
        ensures gate { (pass.new.table_id ≡ pass.old.table_id) × (pass.new.id ≡ pass.old.id) }
        ensures same { pass.new.me ≡ pass.old.me }
    {
        self.table.shared.fetch_add::<Touch>(pass, WAITERS, 1);
        self.table
            .shared
            .park_timeout(rt, LOCK, 1, Duration::from_millis(NAP));
        self.table.shared.fetch_sub::<Touch>(pass, WAITERS, 1);
    }

    // One more caller is starved.
    fn count_as_starved(&self, pass: &mut Place<T>)
        requires gate { pass.old.table_id ≡ self.now.table.shared.table_id }
        ensures gate { (pass.new.table_id ≡ pass.old.table_id) × (pass.new.id ≡ pass.old.id) }
        ensures same { pass.new.me ≡ pass.old.me }
    {
        self.table.shared.fetch_add::<Touch>(pass, STARVED, 1);
    }

    // One caller less is starved.
    fn count_no_more(&self, pass: &mut Place<T>)
        requires gate { pass.old.table_id ≡ self.now.table.shared.table_id }
        ensures gate { (pass.new.table_id ≡ pass.old.table_id) × (pass.new.id ≡ pass.old.id) }
        ensures same { pass.new.me ≡ pass.old.me }
    {
        self.table.shared.fetch_sub::<Touch>(pass, STARVED, 1);
    }

    // Sleeps until the lock is given back, for a nap at most. It is counted as starved, so that who
    // gives back wakes it.
    fn wait_starved<R: Wait>(&self, rt: &R) {
        let turns = self.table.shared.peek(TURNS);
        if self.table.shared.peek(LOCK) != 0 {
            let turns = (turns & 0xffff_ffff) as u32;
            self.table
                .shared
                .park_timeout(rt, TURNS, turns, Duration::from_millis(NAP));
        }
    }

    // Whether a caller may take the lock, as far as a look tells: it is free, and nobody is starved
    // but who asks.
    fn may_take(&self, starved: bool) -> bool {
        self.table.shared.peek(LOCK) == 0 && (starved || self.table.shared.peek(STARVED) == 0)
    }

    // Those who rest at this place and have heard of fewer steps than these are to look again: they
    // wake, if any do.
    fn call(&self, pass: &mut Place<T>, place: usize, steps: u64)
        requires gate { pass.old.table_id ≡ self.now.table.shared.table_id }
        requires place { place < 64 }
        ensures gate { (pass.new.table_id ≡ pass.old.table_id) × (pass.new.id ≡ pass.old.id) }
        ensures same { pass.new.me ≡ pass.old.me }
    {
        self.table
            .shared
            .fetch_max::<Touch>(pass, place * LINE + CALLS, steps);
        if self.table.shared.peek(place * LINE + RESTERS) != 0 {
            self.table.shared.wake_all(place * LINE + CALLS);
        }
    }

    // Calls these places, where so many steps stand.
    fn tell(&self, pass: &mut Place<T>, called: &[bool; PLACES], steps: u64)
        requires gate { pass.old.table_id ≡ self.now.table.shared.table_id }
        ensures gate { pass.new.table_id ≡ pass.old.table_id }
        ensures same { pass.new.me ≡ pass.old.me }
    {
        for place in 0..PLACES {
            if called[place] {
                self.call(pass, place, steps);
            }
        }
    }

    // How many steps stood when this place was called last.
    fn called(&self, place: usize) -> u64
        requires { place < 64 }
    {
        self.table.shared.peek(place * LINE + CALLS)
    }

    // Whether the value was given up.
    pub(crate) fn was_given_up(&self) -> bool {
        self.table.shared.peek(ENDED) != 0
    }

    // Sleeps until this place was called for a step behind those that were heard of, or the value
    // was given up. Answers for how many steps it was called.
    pub(crate) fn rest_at<R: Wait>(&self, rt: &R, place: usize, heard: u64) -> u64
        requires { place < 64 }
    {
        let (_count, mut seat) = self.table.shared.load_new_seat::<Visit>(COUNT);
        self.table
            .shared
            .fetch_add::<Touch>(&mut seat, place * LINE + RESTERS, 1);
        let mut called = self.called(place);
        for _ in rt.forever() {
            if called > heard || self.was_given_up() {
                break;
            }
            self.table
                .shared
                .park(rt, place * LINE + CALLS, (called & 0xffff_ffff) as u32);
            called = self.called(place);
        }
        self.table
            .shared
            .fetch_sub::<Touch>(&mut seat, place * LINE + RESTERS, 1);
        called
    }

    // Takes the slot, and leaves in the view which step is to be done, where one is announced.
    fn seize<R: Wait>(&self, rt: &R, pass: &mut Place<T>, ask: &Held<T, T::Step>)
        requires gate { (pass.old.table_id ≡ self.now.table.shared.table_id)
            × (pass.old.me.1 ≡ []) × ((place_view pass.old).named ≡ true) }
        ensures gate { (pass.new.table_id ≡ pass.old.table_id) × (pass.new.id ≡ pass.old.id) }
        ensures took { Took T.next pass.old.me (some ask.now) pass.new.me }
    {
        let backoff = Backoff::new();
        let mut naps: u32 = 0;
        for _ in rt.forever() {
            let starved = naps >= NAPS;
            // A look first: who only looks takes the word from nobody.
            if self.may_take(starved)
                && self
                    .table
                    .shared
                    .compare_exchange_with::<Take>(pass, LOCK, 0, 1, ask)
                    == 0
            {
                if starved {
                    self.count_no_more(pass);
                }
                return;
            }
            if !backoff.is_completed() || self.table.shared.peek(LOCK) == 0 {
                backoff.snooze();
            } else if starved {
                self.wait_starved(rt);
            } else {
                self.wait(rt, pass);
                naps += 1;
                if naps == NAPS {
                    self.count_as_starved(pass);
                }
            }
        }
        unreachable!()
    }

    // Takes the slot, and leaves in the view which step is to be done.
    pub(crate) fn take<R: Wait>(&self, rt: &R, pass: &mut Place<T>, s: T::Step) -> T::Step
        requires gate { (pass.old.table_id ≡ self.now.table.shared.table_id)
            × (pass.old.me.1 ≡ []) × ((place_view pass.old).named ≡ true) }
        ensures gate { (pass.new.table_id ≡ pass.old.table_id) × (pass.new.id ≡ pass.old.id) }
        ensures same { result ≡ s }
        ensures took { Took T.next pass.old.me (some (Ask s)) pass.new.me }
    {
        let ask: Held<T, T::Step> = Held::Ask(s);
        self.seize(rt, pass, &ask);
        match ask {
            Held::Ask(s) => s,
            Held::Value(_t) => unreachable!(),
            Held::Mark => unreachable!(),
        }
    }

    // Leaves in the view which step is to be done next. The pass has the slot, and keeps it.
    pub(crate) fn announce(&self, pass: &mut Place<T>, s: T::Step) -> T::Step
        requires gate { pass.old.table_id ≡ self.now.table.shared.table_id }
        ensures gate { (pass.new.table_id ≡ pass.old.table_id) × (pass.new.id ≡ pass.old.id) }
        ensures same { result ≡ s }
        ensures asked { pass.new.me ≡ (asking (place_view pass.old) (Some s), pass.old.me.1) }
    {
        let ask: Held<T, T::Step> = Held::Ask(s);
        self.table
            .shared
            .compare_exchange_with::<Again>(pass, LOCK, 1, 1, &ask);
        match ask {
            Held::Ask(s) => s,
            Held::Value(_t) => unreachable!(),
            Held::Mark => unreachable!(),
        }
    }

    // Gives the slot back with what is in it.
    fn release(&self, pass: &mut Place<T>)
        requires gate { pass.old.table_id ≡ self.now.table.shared.table_id }
        requires ready { ((place_view pass.old).named ≡ true)
            × ((x : _) × (pass.old.me.1 ≡ (0, x) ∷ [])
            × Ready T.next self.now.table.shared.key.value (place_view pass.old) x) }
        ensures gate { pass.new.table_id ≡ pass.old.table_id }
        ensures gave { gave pass.old.me pass.new.me }
    {
        self.table.shared.store::<Give>(pass, LOCK, 0);
        if self.table.shared.peek(STARVED) != 0 {
            self.table.shared.fetch_add::<Touch>(pass, TURNS, 1);
            self.table.shared.wake_one(TURNS);
        } else if self.table.shared.peek(WAITERS) != 0 {
            self.table.shared.wake_one(LOCK);
        }
    }

    // Gives the slot back with what is in it, and calls these places, where so many steps stand.
    fn give(&self, pass: &mut Place<T>, called: &[bool; PLACES], steps: u64)
        requires gate { pass.old.table_id ≡ self.now.table.shared.table_id }
        requires ready { ((place_view pass.old).named ≡ true)
            × ((x : _) × (pass.old.me.1 ≡ (0, x) ∷ [])
            × Ready T.next self.now.table.shared.key.value (place_view pass.old) x) }
        ensures gate { pass.new.table_id ≡ pass.old.table_id }
        ensures gave { gave pass.old.me pass.new.me }
    {
        self.release(pass);
        self.tell(pass, called, steps);
    }

    // Puts the value into the slot, which holds the mark.
    fn put(&self, pass: &mut Place<T>, t: T)
        requires gate { pass.old.table_id ≡ self.now.table.shared.table_id }
        requires slot { pass.old.me.1 ≡ (0, Mark) ∷ [] }
        ensures gate { pass.new.table_id ≡ pass.old.table_id }
        ensures put { pass.new.me ≡ (place_view pass.old, (0, Value t) ∷ []) }
    {
        match self.table.shared.exchange(pass, 0, Held::Value(t)) {
            Held::Mark => {}
            Held::Value(_t) => unreachable!(),
            Held::Ask(_s) => unreachable!(),
        }
    }

    // Puts the value back, gives the slot back, and calls these places, where so many steps stand.
    pub(crate) fn put_back(&self, pass: &mut Place<T>, t: T, called: &[bool; PLACES], steps: u64)
        requires gate { pass.old.table_id ≡ self.now.table.shared.table_id }
        requires out { HasOut T.next self.now.table.shared.key.value pass.old.me t }
        ensures gate { (pass.new.table_id ≡ pass.old.table_id)
            × IsFreeAt self.now.table.shared.key.value pass.new }
        ensures same { pass.new.me ≡ (giving (place_view pass.old) false, []) }
    {
        self.put(pass, t);
        self.give(pass, called, steps);
    }

    // Gives the slot back, in which the mark stays, and calls all places.
    pub(crate) fn give_up(&self, pass: &mut Place<T>)
        requires gate { pass.old.table_id ≡ self.now.table.shared.table_id }
        requires mark { HasMark T.next self.now.table.shared.key.value pass.old.me }
        ensures gate { (pass.new.table_id ≡ pass.old.table_id)
            × IsFreeAt self.now.table.shared.key.value pass.new }
        ensures lost { pass.new.me ≡ (giving (place_view pass.old) true, []) }
    {
        self.give(pass, &[true; PLACES], u64::MAX);
    }

    // Does the step with the value that was taken out, and notes it.
    pub(crate) fn note(&self, pass: &mut Place<T>, t: T, s: T::Step) -> Noted<T, T::Reply>
        requires gate { pass.old.table_id ≡ self.now.table.shared.table_id }
        requires holds { Holds T.next self.now.table.shared.key.value pass.old.me t s }
        ensures gate { pass.new.table_id ≡ pass.old.table_id }
        ensures noted { HasNoted T.next self.now.table.shared.key.value pass.old.me s result
            pass.new.me }
    {
        let n = self.table.shared.load::<Look>(pass, COUNT);
        if n >= MOST {
            return Noted::Full(t);
        }
        match t.step(s) {
            Ok((t, reply)) => {
                self.table.shared.fetch_add::<Note>(pass, COUNT, 1);
                Noted::Done(t, reply, n + 1)
            }
            Err(NoMemory) => {
                self.table.shared.store::<Touch>(pass, ENDED, 1);
                Noted::Lost
            }
        }
    }

    // Does the step with the value that was taken out, and gives the slot back.
    fn advance(
        &self,
        pass: &mut Place<T>,
        t: T,
        s: T::Step,
        heard: &mut u64,
    ) -> Result<T::Reply, GateFault>
        requires gate { pass.old.table_id ≡ self.now.table.shared.table_id }
        requires holds { Holds T.next self.now.table.shared.key.value pass.old.me t s }
        requires heard { heard.old ≡ length (place_view pass.old).seen }
        ensures gate { (pass.new.table_id ≡ pass.old.table_id)
            × IsFreeAt self.now.table.shared.key.value pass.new }
        ensures reply { MatchResult result
            (λ r. Committed T.next self.now.table.shared.key.value (place_view pass.old) s r
            (place_view pass.new))
            (λ e. Failed (place_view pass.old) e (place_view pass.new)) }
        ensures heard { heard.new ≡ length (place_view pass.new).seen }
    {
        let asked = T::called_by(&s);
        match self.note(pass, t, s) {
            Noted::Done(t, reply, steps) => {
                *heard = steps;
                let mut called = t.work();
                add_place(&mut called, asked);
                self.put_back(pass, t, &called, steps);
                Ok(reply)
            }
            Noted::Full(t) => {
                self.put_back(pass, t, &[true; PLACES], u64::MAX);
                Err(GateFault::Spent)
            }
            Noted::Lost => {
                self.give_up(pass);
                Err(GateFault::NoMemory)
            }
        }
    }

    // Adds one step to the history, and answers its reply.
    pub(crate) fn commit_at<R: Wait>(
        &self,
        rt: &R,
        pass: &mut Place<T>,
        s: T::Step,
        heard: &mut u64,
    ) -> Result<T::Reply, GateFault>
        requires gate { (pass.old.table_id ≡ self.now.table.shared.table_id)
            × IsFreeAt self.now.table.shared.key.value pass.old }
        requires heard { heard.old ≡ length (place_view pass.old).seen }
        ensures gate { (pass.new.table_id ≡ pass.old.table_id)
            × IsFreeAt self.now.table.shared.key.value pass.new }
        ensures reply { MatchResult result
            (λ r. Committed T.next self.now.table.shared.key.value (place_view pass.old) s r
            (place_view pass.new))
            (λ e. Failed (place_view pass.old) e (place_view pass.new)) }
        ensures heard { heard.new ≡ length (place_view pass.new).seen }
    {
        let s = self.take(rt, pass, s);
        match self.table.shared.exchange(pass, 0, Held::Mark) {
            Held::Value(t) => self.advance(pass, t, s, heard),
            Held::Mark => {
                self.give_up(pass);
                Err(GateFault::NoMemory)
            }
            Held::Ask(_s) => unreachable!(),
        }
    }

    // Asks the value whether what goes by this number is over. One that was given up answers so.
    pub(crate) fn ask_at<R: Wait>(&self, rt: &R, pass: &mut Place<T>, about: u32) -> bool
        requires gate { (pass.old.table_id ≡ self.now.table.shared.table_id)
            × IsFreeAt self.now.table.shared.key.value pass.old }
        ensures gate { (pass.new.table_id ≡ pass.old.table_id)
            × IsFreeAt self.now.table.shared.key.value pass.new }
        ensures asked { IsAsked T.next self.now.table.shared.key.value T.over
            (place_view pass.old) about result (place_view pass.new) }
    {
        self.seize(rt, pass, &Held::Mark);
        match self.table.shared.exchange(pass, 0, Held::Mark) {
            Held::Value(t) => {
                let over = t.is_over(about);
                self.put(pass, t);
                self.release(pass);
                over
            }
            Held::Mark => {
                self.release(pass);
                true
            }
            Held::Ask(_s) => unreachable!(),
        }
    }

    // A gate with this value, and its first pass.
    pub(crate) fn begin_at(alloc: Global, t: T) -> Result<(Gate<T>, Place<T>), NoMemory>
        ensures gate { IfOk result (λ r. (r.1.table_id ≡ r.0.table.shared.table_id)
            × IsFreeAt t r.1) }
        ensures first { IfOk result (λ r. IsFirst (place_view r.1)) }
        ensures opening { IfOk result (λ r. r.0.table.shared.key.value ≡ t) }
    {
        let opening = Snapshot::of(&t);
        let mut slots = Vec::new(alloc);
        let Ok(()) = slots.push(Held::Value(t)) else {
            return Err(NoMemory);
        };
        match Table::new(alloc, &[0; WORDS], slots, &opening) {
            Ok((table, pass)) => Ok((Gate { table }, pass)),
            Err(_refused) => Err(NoMemory),
        }
    }

    // A new pass, for another caller, which has seen as much as the first one.
    pub(crate) fn split_at(&self, pass: &mut Place<T>) -> Place<T>
        requires gate { (pass.old.table_id ≡ self.now.table.shared.table_id)
            × IsFreeAt self.now.table.shared.key.value pass.old }
        requires first { (place_view pass.old).name ≡ 0 }
        ensures gate { (pass.new.table_id ≡ pass.old.table_id)
            × IsFreeAt self.now.table.shared.key.value pass.new }
        ensures same { place_view pass.new ≡ parent (place_view pass.old) }
        ensures new { (result.table_id ≡ pass.old.table_id)
            × IsFreeAt self.now.table.shared.key.value result
            × IsChild (place_view pass.old) (place_view result) }
    {
        let mut new = self.table.shared.split_seat::<Family>(pass);
        self.table.shared.load::<Compare>(&mut new, COUNT);
        new
    }

    // Takes in what another pass has seen.
    pub(crate) fn join_at(&self, pass: &mut Place<T>, other: Place<T>)
        requires gate { (pass.old.table_id ≡ self.now.table.shared.table_id)
            × IsFreeAt self.now.table.shared.key.value pass.old }
        requires first { (place_view pass.old).name ≡ 0 }
        requires other { (other.table_id ≡ self.now.table.shared.table_id)
            × IsFreeAt self.now.table.shared.key.value other × ((place_view other).name ≢ 0) }
        requires own { (place_view other).mine ≡ places (place_view other).name
            (place_view other).seen }
        ensures gate { (pass.new.table_id ≡ pass.old.table_id)
            × IsFreeAt self.now.table.shared.key.value pass.new }
        ensures both { IsUnion (place_view pass.old) (place_view other) (place_view pass.new) }
    {
        self.table.shared.join_seat::<Family>(pass, other);
        self.table.shared.load::<Compare>(pass, COUNT);
    }

    // The value that all steps left, or none where a step found no memory.
    pub(crate) fn close_at(self, pass: Place<T>) -> Option<T>
        requires gate { (pass.table_id ≡ self.table.shared.table_id)
            × IsFreeAt self.table.shared.key.value pass }
        requires first { ((place_view pass).name ≡ 0) × HasAll (place_view pass) }
        ensures value { MatchOption result ((place_view pass).lost ≡ true)
            (λ t. (t ≡ after T.next self.table.shared.key.value (place_view pass).seen)
            × ((place_view pass).lost ≡ false)) }
        ensures legal { IsLegal T.next self.table.shared.key.value (place_view pass).seen }
        ensures whole { IsWhole (place_view pass) }
    {
        let Gate { table } = self;
        let mut closed = table.close_with(pass);
        let held = closed.take(0);
        closed.free();
        match held {
            Held::Value(t) => Some(t),
            Held::Mark => None,
            Held::Ask(_s) => unreachable!(),
        }
    }
}
