//! One caller, or passes that one thread has.
ghost use Rattle.std.specs.Prelude.{◌≡◌};
ghost use Rattle.turn_gate.specs.Gates.{view, IsPassOf};
ghost use Rattle.turn_gate.specs.Passes.{IsSame};

use crate::Sum;
use std::alloc::Global;
use std::sync::Wait;
use std::test::Fail;
use turn_gate::{Gate, GateFault, Pass};

/// What a commit of this step answers: its reply, or 1 for a gate that is spent and 2 for want of
/// memory.
pub(crate) fn answer<R: Wait>(rt: &R, gate: &Gate<Sum>, pass: &mut Pass<Sum>, step: u64) -> u64
    requires { IsPassOf gate.now pass.old }
    ensures gate { IsPassOf gate.now pass.new }
    ensures same { IsSame (view pass.old) (view pass.new) }
{
    match gate.commit(rt, pass, step) {
        Ok(reply) => reply,
        Err(GateFault::Spent) => 1,
        Err(GateFault::NoMemory) => 2,
    }
}

/// The answers to three steps, of which the second is refused, and whether the gate then closes
/// without a value.
fn second_refused<R: Wait>(rt: &R, alloc: Global) -> ([u64; 3], bool) {
    match Gate::begin(alloc, Sum { total: 0 }, 1) {
        Ok((gate, mut pass)) => {
            let first = answer(rt, &gate, &mut pass, 5);
            let second = answer(rt, &gate, &mut pass, 1001);
            let third = answer(rt, &gate, &mut pass, 7);
            ([first, second, third], gate.close(pass).is_none())
        }
        Err(_no_memory) => ([0; 3], false),
    }
}

#[test]
fn is_lost_once_a_step_found_no_memory(rt: HostRuntime) -> Result<(), Fail> {
    assert!(rt; second_refused(&rt, rt.alloc()) == ([5, 2, 2], true));
    Ok(())
}

/// What a gate closes with from which two passes were split, each with a step, and joined in the
/// other order.
fn three_passes<R: Wait>(rt: &R, alloc: Global) -> Option<u64> {
    let Ok((gate, mut first)) = Gate::begin(alloc, Sum { total: 100 }, 3) else {
        return None;
    };
    let Ok(mut second) = gate.split(&mut first, 0) else {
        return None;
    };
    let Ok(mut third) = gate.split(&mut first, 0) else {
        return None;
    };
    let _ = answer(rt, &gate, &mut third, 20);
    let _ = answer(rt, &gate, &mut first, 1);
    let _ = answer(rt, &gate, &mut second, 300);
    gate.join(&mut first, third);
    gate.join(&mut first, second);
    Some(gate.close(first)?.total)
}

#[test]
fn passes_join_in_any_order(rt: HostRuntime) -> Result<(), Fail> {
    assert!(rt; three_passes(&rt, rt.alloc()) == Some(421));
    Ok(())
}

/// The answers to two steps with a pass of which another was split and dropped.
fn one_dropped<R: Wait>(rt: &R, alloc: Global) -> (u64, u64) {
    let Ok((gate, mut first)) = Gate::begin(alloc, Sum { total: 0 }, 2) else {
        return (0, 0);
    };
    let Ok(mut second) = gate.split(&mut first, 0) else {
        return (0, 0);
    };
    let before = answer(rt, &gate, &mut second, 3);
    drop(second);
    let after = answer(rt, &gate, &mut first, 4);
    (before, after)
}

#[test]
fn goes_on_without_a_dropped_pass(rt: HostRuntime) -> Result<(), Fail> {
    assert!(rt; one_dropped(&rt, rt.alloc()) == (3, 7));
    Ok(())
}
