//! Rows as the table sees them: several steps in one hold of the slot.
ghost use Rattle.std.specs.Prelude.{◌≡◌, ◌⊎◌, ◌<◌, ◌≤◌, ◌+◌, ◌-◌, ◌∷◌, [], ◌++◌, List, length, map};
ghost use Rattle.std.specs.Prelude.{cond, false, Some, None, IfNone, IfSome, vec_capacity, vec_len};

use crate::gate::{Gate, GateFault, Noted, Place, add_place};
use crate::replayed::{Course, PLACES, Replayed};
use crate::view::Held;
use std::sync::Wait;

// These places are called too.
fn add_places(called: &mut [bool; PLACES], others: &[bool; PLACES]) {
    for place in 0..PLACES {
        if others[place] {
            called[place] = true;
        }
    }
}

// The step behind this reply, where there is one and room for it.
fn further_within<T: Replayed, C: Course<T>>(
    course: &C,
    reply: &T::Reply,
    room: bool,
) -> Option<T::Step>
    ensures { result ≡ cond room (C.further course.now reply.now) None }
{
    if room { course.further(reply) } else { None }
}

impl<T: Replayed> Gate<T> {
    ghost use Rattle.turn_gate.specs.Passes.{IsSame, own_pairs};
    ghost use Rattle.turn_gate.specs.Places.{place_view, IsFreeAt, HasOut, Holds};
    ghost use Rattle.turn_gate.specs.Table.{giving, asking};
    ghost use Rattle.turn_gate.specs.History.{places};
    ghost use Rattle.turn_gate.specs.Rows.{HasDone};

    // Goes on behind a step that left this value with this reply, where so many steps stand:
    // announces a further one, or gives the slot back.
    fn go_behind<C: Course<T>>(
        &self,
        pass: &mut Place<T>,
        left: (T, T::Reply),
        course: &C,
        replies: &mut Vec<T::Reply>,
        called: &mut [bool; PLACES],
        steps: u64,
    ) -> Option<(T, T::Step)>
        requires gate { pass.old.table_id ≡ self.now.table.shared.table_id }
        requires out { HasOut T.next self.now.table.shared.key.value pass.old.me left.0 }
        requires room { vec_len replies.old < vec_capacity replies.old }
        ensures gate { pass.new.table_id ≡ pass.old.table_id }
        ensures capacity { vec_capacity replies.new ≡ vec_capacity replies.old }
        ensures len { vec_len replies.new ≡ vec_len replies.old + 1 }
        ensures items { replies.new.items ≡ replies.old.items ++ left.1 ∷ [] }
        ensures end { IfNone result (IsFreeAt self.now.table.shared.key.value pass.new
            × (place_view pass.new ≡ giving (place_view pass.old) false)
            × ((C.further course.now left.1 ≡ None)
            ⊎ (vec_len replies.new ≡ vec_capacity replies.new))) }
        ensures further { IfSome result (λ r. Holds T.next self.now.table.shared.key.value
            pass.new.me r.0 r.1 × (place_view pass.new ≡ asking (place_view pass.old) (Some r.1))
            × (C.further course.now left.1 ≡ Some r.1)
            × (vec_len replies.new < vec_capacity replies.new)) }
    {
        let (t, reply) = left;
        let next = further_within(course, &reply, replies.len() + 1 < replies.capacity());
        replies.push_reserved(reply);
        match next {
            Some(s) => {
                let s = self.announce(pass, s);
                Some((t, s))
            }
            None => {
                add_places(called, &t.work());
                self.put_back(pass, t, called, steps);
                None
            }
        }
    }

    // Does this step with the value that was taken out, and those behind it, and gives the slot
    // back.
    fn go_on<C: Course<T>>(
        &self,
        pass: &mut Place<T>,
        first: (T, T::Step),
        course: &C,
        replies: &mut Vec<T::Reply>,
        heard: &mut u64,
    ) -> Result<(), GateFault>
        requires gate { pass.old.table_id ≡ self.now.table.shared.table_id }
        requires holds { Holds T.next self.now.table.shared.key.value pass.old.me first.0 first.1 }
        requires heard { heard.old ≡ length (place_view pass.old).seen }
        requires room { vec_len replies.old < vec_capacity replies.old }
        ensures gate { (pass.new.table_id ≡ pass.old.table_id)
            × IsFreeAt self.now.table.shared.key.value pass.new }
        ensures capacity { vec_capacity replies.new ≡ vec_capacity replies.old }
        ensures row { (ps : List (T.Step × T.Reply))
            × HasDone T.next self.now.table.shared.key.value (C.further course.now)
            (vec_capacity replies.old - vec_len replies.old) (place_view pass.old) first.1 result ps
            (place_view pass.new)
            × (replies.new.items ≡ replies.old.items ++ map (λ p. p.1) ps) }
        ensures heard { heard.new ≡ length (place_view pass.new).seen }
    {
        let (mut t, mut s) = first;
        let mut called = [false; PLACES];
        'row: loop {
            add_place(&mut called, T::called_by(&s));
            match self.note(pass, t, s) {
                Noted::Done(left, reply, steps) => {
                    *heard = steps;
                    let left = (left, reply);
                    match self.go_behind(pass, left, course, replies, &mut called, steps) {
                        Some((left, next)) => {
                            t = left;
                            s = next;
                        }
                        None => return Ok(()),
                    }
                }
                Noted::Full(left) => {
                    self.put_back(pass, left, &[true; PLACES], u64::MAX);
                    return Err(GateFault::Spent);
                }
                Noted::Lost => {
                    self.give_up(pass);
                    return Err(GateFault::NoMemory);
                }
            }
        }
    }

    // Does a step and those behind it in one hold of the slot.
    pub(crate) fn row_at<R: Wait, C: Course<T>>(
        &self,
        rt: &R,
        pass: &mut Place<T>,
        s: T::Step,
        course: &C,
        replies: &mut Vec<T::Reply>,
        heard: &mut u64,
    ) -> Result<(), GateFault>
        requires gate { (pass.old.table_id ≡ self.now.table.shared.table_id)
            × IsFreeAt self.now.table.shared.key.value pass.old }
        requires heard { heard.old ≡ length (place_view pass.old).seen }
        requires own { (place_view pass.old).mine
            ≡ places (place_view pass.old).name (place_view pass.old).seen }
        requires room { vec_len replies.old < vec_capacity replies.old }
        ensures gate { (pass.new.table_id ≡ pass.old.table_id)
            × IsFreeAt self.now.table.shared.key.value pass.new }
        ensures capacity { vec_capacity replies.new ≡ vec_capacity replies.old }
        ensures row { (ps : List (T.Step × T.Reply))
            × HasDone T.next self.now.table.shared.key.value (C.further course.now)
            (vec_capacity replies.old - vec_len replies.old) (place_view pass.old) s result ps
            (place_view pass.new)
            × (replies.new.items ≡ replies.old.items ++ map (λ p. p.1) ps)
            × (own_pairs (place_view pass.new) ≡ own_pairs (place_view pass.old) ++ ps) }
        ensures same { IsSame (place_view pass.old) (place_view pass.new) }
        ensures own { (place_view pass.new).mine
            ≡ places (place_view pass.new).name (place_view pass.new).seen }
        ensures heard { heard.new ≡ length (place_view pass.new).seen }
    {
        let s = self.take(rt, pass, s);
        match self.table.shared.exchange(pass, 0, Held::Mark) {
            Held::Value(t) => self.go_on(pass, (t, s), course, replies, heard),
            Held::Mark => {
                self.give_up(pass);
                Err(GateFault::NoMemory)
            }
            Held::Ask(_s) => unreachable!(),
        }
    }
}
