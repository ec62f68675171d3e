//! Callers in several threads.
ghost use Rattle.std.specs.Prelude.{◌≡◌, []};
ghost use Rattle.std.specs.Thread.{IsSync};
ghost use Rattle.turn_gate.specs.Gates.{view, IsPassOf};
ghost use Rattle.turn_gate.specs.Passes.{IsSame};

use crate::Sum;
use crate::alone::answer;
use std::alloc::Global;
use std::sync::Wait;
use std::test::Fail;
use std::thread::{Threads, join};
use turn_gate::{Gate, Pass};

/// A pass after some commits, and the replies to the first two of them, 0 where there was none.
#[derive(Drop)]
struct Done {
    pass: Pass<Sum>,
    replies: (u64, u64),
}

/// Commits two steps.
fn two_steps<R: Wait>(rt: &R, gate: &Gate<Sum>, mut pass: Pass<Sum>, steps: (u64, u64)) -> Done
    requires { IsPassOf gate.now pass }
    ensures gate { IsPassOf gate.now result.pass }
    ensures same { IsSame (view pass) (view result.pass) }
{
    let one = gate.commit(rt, &mut pass, steps.0).unwrap_or(0);
    let two = gate.commit(rt, &mut pass, steps.1).unwrap_or(0);
    Done {
        pass,
        replies: (one, two),
    }
}

/// Commits one step.
fn one_step<R: Wait>(rt: &R, gate: &Gate<Sum>, mut pass: Pass<Sum>, step: u64) -> Done
    requires { IsPassOf gate.now pass }
    ensures gate { IsPassOf gate.now result.pass }
    ensures same { IsSame (view pass) (view result.pass) }
{
    let one = gate.commit(rt, &mut pass, step).unwrap_or(0);
    Done {
        pass,
        replies: (one, 0),
    }
}

/// Joins the second pass into the first, which has split no other, and closes the gate: how many
/// steps each has seen before, and the total.
fn closed(gate: Gate<Sum>, mut first: Pass<Sum>, mut second: Pass<Sum>) -> Option<((u64, u64), u64)>
    requires gate { IsPassOf gate first × IsPassOf gate second }
    requires first { ((view first).name ≡ 0) × ((view first).kids ≡ 1)
        × ((view first).joined ≡ []) }
    requires second { (view second).name ≡ 1 }
{
    let seen = (gate.seen(&mut first), gate.seen(&mut second));
    gate.join(&mut first, second);
    let sum = gate.close(first)?;
    Some((seen, sum.total))
}

/// What two threads got of which one commits 5 and then 7 and the other 9: their replies, how many
/// steps each has seen when both are done, and what the gate closes with.
fn three_steps<R: Threads + Wait + Sync>(
    rt: &R,
    alloc: Global,
) -> Option<((u64, u64, u64), (u64, u64), u64)> {
    let Ok((gate, mut first)) = Gate::begin(alloc, Sum { total: 0 }, 2) else {
        return None;
    };
    let shared = &gate;
    let Ok(second) = shared.split(&mut first, 0) else {
        return None;
    };
    let (one, two) = join(
        rt,
        || -> Done
            requires { IsSync R.row × IsPassOf shared.now first }
            ensures { IsPassOf shared.entry.now result.pass
                × IsSame (view first) (view result.pass) }
        { two_steps(rt, shared, first, (5, 7)) },
        || -> Done
            requires { IsSync R.row × IsPassOf shared.now second }
            ensures { IsPassOf shared.entry.now result.pass
                × IsSame (view second) (view result.pass) }
        { one_step(rt, shared, second, 9) },
    );
    let replies = (one.replies.0, one.replies.1, two.replies.0);
    let (seen, total) = closed(gate, one.pass, two.pass)?;
    Some((replies, seen, total))
}

/// Whether the replies are those of one of the three orders in which 5 comes before 7.
fn is_one_order(replies: (u64, u64, u64)) -> bool {
    replies == (5, 12, 21) || replies == (5, 21, 14) || replies == (14, 21, 9)
}

#[test]
fn two_threads_make_one_history(rt: HostRuntime) -> Result<(), Fail> {
    assert!(rt;
        match three_steps(&rt, rt.alloc()) {
            Some((replies, seen, total)) => is_one_order(replies) && seen == (3, 3) && total == 21,
            None => false,
        }
    );
    Ok(())
}

/// A pass that has rested before its first step, and how many steps it then saw.
fn rested<R: Wait>(rt: &R, gate: &Gate<Sum>, mut pass: Pass<Sum>) -> Done
    requires { IsPassOf gate.now pass }
    ensures gate { IsPassOf gate.now result.pass }
    ensures same { IsSame (view pass) (view result.pass) }
{
    gate.rest(rt, &pass);
    let seen = gate.seen(&mut pass);
    Done {
        pass,
        replies: (seen, 0),
    }
}

/// How many steps a thread sees that rests while another commits one.
fn woken<R: Threads + Wait + Sync>(rt: &R, alloc: Global) -> u64 {
    let Ok((gate, mut first)) = Gate::begin(alloc, Sum { total: 0 }, 2) else {
        return 0;
    };
    let shared = &gate;
    let Ok(second) = shared.split(&mut first, 0) else {
        return 0;
    };
    let (resting, _committing) = join(
        rt,
        || -> Done
            requires { IsSync R.row × IsPassOf shared.now first }
            ensures { IsPassOf shared.entry.now result.pass }
        { rested(rt, shared, first) },
        || -> Done
            requires { IsSync R.row × IsPassOf shared.now second }
            ensures { IsPassOf shared.entry.now result.pass }
        { one_step(rt, shared, second, 9) },
    );
    resting.replies.0
}

#[test]
fn a_caller_that_rests_sees_the_step(rt: HostRuntime) -> Result<(), Fail> {
    assert!(rt; woken(&rt, rt.alloc()) == 1);
    Ok(())
}

/// Commits a hundred steps, and rests before each, but before the first of the caller that begins.
/// The first reply is 1 where all replies are those of strict turns: 200 is added, which calls
/// place 2, then 100, which calls place 1, and so on.
fn turns<R: Wait>(rt: &R, gate: &Gate<Sum>, mut pass: Pass<Sum>, begins: bool) -> Done
    requires { IsPassOf gate.now pass }
    ensures gate { IsPassOf gate.now result.pass }
    ensures same { IsSame (view pass) (view result.pass) }
{
    let mut strict = true;
    for turn in 0..100 {
        if !begins || turn > 0 {
            gate.rest(rt, &pass);
        }
        let (step, total) = if begins {
            (200, 300 * turn + 200)
        } else {
            (100, 300 * turn + 300)
        };
        let reply = answer(rt, gate, &mut pass, step);
        strict = strict && reply == total;
    }
    Done {
        pass,
        replies: (u64::from(strict), 0),
    }
}

/// Whether two callers that rest at places 1 and 2 take strict turns, each called by the other's
/// steps alone. One that was called by its own steps too wouldn't wait for the other's.
fn take_turns<R: Threads + Wait + Sync>(rt: &R, alloc: Global) -> bool {
    let Ok((gate, mut first)) = Gate::begin(alloc, Sum { total: 0 }, 3) else {
        return false;
    };
    let shared = &gate;
    let Ok(second) = shared.split(&mut first, 1) else {
        return false;
    };
    let Ok(third) = shared.split(&mut first, 2) else {
        return false;
    };
    let (one, two) = join(
        rt,
        || -> Done
            requires { IsSync R.row × IsPassOf shared.now second }
            ensures { IsPassOf shared.entry.now result.pass }
        { turns(rt, shared, second, true) },
        || -> Done
            requires { IsSync R.row × IsPassOf shared.now third }
            ensures { IsPassOf shared.entry.now result.pass }
        { turns(rt, shared, third, false) },
    );
    one.replies.0 == 1 && two.replies.0 == 1
}

#[test]
fn a_step_calls_its_place_alone(rt: HostRuntime) -> Result<(), Fail> {
    assert!(rt; take_turns(&rt, rt.alloc()));
    Ok(())
}

/// Commits so many steps of 1.
fn many_steps<R: Wait>(rt: &R, gate: &Gate<Sum>, mut pass: Pass<Sum>, count: u32) -> Pass<Sum>
    requires { IsPassOf gate.now pass }
    ensures gate { IsPassOf gate.now result }
    ensures same { IsSame (view pass) (view result) }
{
    for _ in 0..count {
        let _ = gate.commit(rt, &mut pass, 1);
    }
    pass
}

/// The total of twenty thousand steps in each of two threads, and how many steps stand then.
fn crowded<R: Threads + Wait + Sync>(rt: &R, alloc: Global) -> Option<(u64, u64)> {
    let Ok((gate, mut first)) = Gate::begin(alloc, Sum { total: 0 }, 2) else {
        return None;
    };
    let shared = &gate;
    let Ok(second) = shared.split(&mut first, 0) else {
        return None;
    };
    let (first, second) = join(
        rt,
        || -> Pass<Sum>
            requires { IsSync R.row × IsPassOf shared.now first }
            ensures { IsPassOf shared.entry.now result × IsSame (view first) (view result) }
        { many_steps(rt, shared, first, 20_000) },
        || -> Pass<Sum>
            requires { IsSync R.row × IsPassOf shared.now second }
            ensures { IsPassOf shared.entry.now result × IsSame (view second) (view result) }
        { many_steps(rt, shared, second, 20_000) },
    );
    let (seen, total) = closed(gate, first, second)?;
    Some((seen.0, total))
}

#[test]
fn no_step_of_a_crowd_is_lost(rt: HostRuntime) -> Result<(), Fail> {
    assert!(rt; crowded(&rt, rt.alloc()) == Some((40_000, 40_000)));
    Ok(())
}
