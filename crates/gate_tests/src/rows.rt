//! Rows of steps in one hold of the value, and questions to it.
ghost use Rattle.std.specs.Prelude.{◌<◌};

use crate::alone::answer;
use crate::{Sum, UpTo};
use std::alloc::Global;
use std::sync::Wait;
use std::test::Fail;
use turn_gate::Gate;

/// What came of a row: its replies, whether all of it was done, how many steps stand then, and what
/// the gate closes with.
#[derive(Drop)]
struct Row {
    replies: Vec<u64>,
    done: bool,
    seen: u64,
    total: Option<u64>,
}

/// A row that begins with 2, at a gate of its own.
fn row_from_two<R: Wait>(rt: &R, alloc: Global, room: usize, course: &UpTo) -> Option<Row>
    requires { 0 < room }
{
    let Ok((gate, mut pass)) = Gate::begin(alloc, Sum { total: 0 }, 1) else {
        return None;
    };
    let Ok(mut replies) = Vec::with_capacity(alloc, room) else {
        return None;
    };
    let done = gate
        .commit_row(rt, &mut pass, 2, course, &mut replies)
        .is_ok();
    let seen = gate.seen(&mut pass);
    let total = match gate.close(pass) {
        Some(sum) => Some(sum.total),
        None => None,
    };
    Some(Row {
        replies,
        done,
        seen,
        total,
    })
}

/// Whether a row that goes on up to 10 by this step has these replies, which all of its steps that
/// stand were given, and leaves the last of them where it was done to its end.
fn is_row<R: Wait>(
    rt: &R,
    alloc: Global,
    room: usize,
    step: u64,
    replies: &[u64],
    total: Option<u64>,
) -> bool
    requires { 0 < room }
{
    match row_from_two(rt, alloc, room, &UpTo { limit: 10, step }) {
        Some(row) => {
            row.replies.as_slice() == replies
                && row.seen == replies.len() as u64
                && row.done == total.is_some()
                && row.total == total
        }
        None => false,
    }
}

#[test]
fn a_row_goes_on_by_its_replies(rt: HostRuntime) -> Result<(), Fail> {
    assert!(rt; is_row(&rt, rt.alloc(), 8, 3, &[2, 5, 8, 11], Some(11)));
    assert!(rt; is_row(&rt, rt.alloc(), 4, 3, &[2, 5, 8, 11], Some(11)));
    Ok(())
}

#[test]
fn a_row_ends_where_there_is_no_more_room(rt: HostRuntime) -> Result<(), Fail> {
    assert!(rt; is_row(&rt, rt.alloc(), 3, 3, &[2, 5, 8], Some(8)));
    assert!(rt; is_row(&rt, rt.alloc(), 1, 3, &[2], Some(2)));
    Ok(())
}

#[test]
fn the_steps_before_a_refused_one_stand(rt: HostRuntime) -> Result<(), Fail> {
    assert!(rt; is_row(&rt, rt.alloc(), 8, 1001, &[2], None));
    Ok(())
}

/// Whether the sum has come to 5 before a step of 7 and behind it, and to 5000 once it was given
/// up.
fn come_to<R: Wait>(rt: &R, alloc: Global) -> (bool, bool, bool) {
    let Ok((gate, mut pass)) = Gate::begin(alloc, Sum { total: 0 }, 1) else {
        return (true, false, false);
    };
    let before = gate.ask(rt, &mut pass, 5);
    let _ = answer(rt, &gate, &mut pass, 7);
    let behind = gate.ask(rt, &mut pass, 5);
    let _ = answer(rt, &gate, &mut pass, 1001);
    (before, behind, gate.ask(rt, &mut pass, 5000))
}

#[test]
fn the_value_is_asked(rt: HostRuntime) -> Result<(), Fail> {
    assert!(rt; come_to(&rt, rt.alloc()) == (false, true, true));
    Ok(())
}

/// Rests at a place at which another caller's step left work, and then answers true.
fn called_by_work<R: Wait>(rt: &R, alloc: Global) -> bool {
    let Ok((gate, mut first)) = Gate::begin(alloc, Sum { total: 900 }, 2) else {
        return false;
    };
    let Ok(other) = gate.split(&mut first, 63) else {
        return false;
    };
    let _ = answer(rt, &gate, &mut first, 200);
    gate.rest(rt, &other);
    true
}

#[test]
fn work_calls_its_place(rt: HostRuntime) -> Result<(), Fail> {
    assert!(rt; called_by_work(&rt, rt.alloc()));
    Ok(())
}

/// For how many steps a place was called, as one hears of it who rests there and commits nothing:
/// first of a step that left work there, and then of another.
fn calls_heard<R: Wait>(rt: &R, alloc: Global) -> (u64, u64) {
    let Ok((gate, mut first)) = Gate::begin(alloc, Sum { total: 900 }, 2) else {
        return (0, 0);
    };
    let Ok(other) = gate.split(&mut first, 63) else {
        return (0, 0);
    };
    let _ = answer(rt, &gate, &mut first, 200);
    let once = gate.rest_beyond(rt, &other, 0);
    let _ = answer(rt, &gate, &mut first, 200);
    (once, gate.rest_beyond(rt, &other, once))
}

#[test]
fn who_commits_nothing_hears_of_each_call(rt: HostRuntime) -> Result<(), Fail> {
    assert!(rt; calls_heard(&rt, rt.alloc()) == (1, 2));
    Ok(())
}
