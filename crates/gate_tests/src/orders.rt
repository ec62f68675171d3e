//! Ten passes that one thread has, split and joined in any order.
ghost use Rattle.std.specs.Prelude.{◌≡◌, [], OnSome};
ghost use Rattle.turn_gate.specs.Gates.{view};
ghost use Rattle.gate_tests.specs.Families.{AreOf, AreOthers, NoneIsLost};

use crate::Sum;
use crate::alone::answer;
use std::alloc::Global;
use std::sync::Wait;
use std::test::Fail;
use turn_gate::{Gate, Pass};

/// What is done with the passes that were split from the first one.
#[derive(Clone, Copy)]
enum Move {
    /// One more is split, and commits a step.
    Split,
    /// The one at this place, of those that are left, commits a step and is joined.
    Join(usize),
}

use Move::{Join, Split};

/// All are split, and join in the order in which they were split.
const FIRST_JOINS_FIRST: [Move; 18] = [
    Split,
    Split,
    Split,
    Split,
    Split,
    Split,
    Split,
    Split,
    Split,
    Join(0),
    Join(0),
    Join(0),
    Join(0),
    Join(0),
    Join(0),
    Join(0),
    Join(0),
    Join(0),
];

/// All are split, and join the other way round.
const LAST_JOINS_FIRST: [Move; 18] = [
    Split,
    Split,
    Split,
    Split,
    Split,
    Split,
    Split,
    Split,
    Split,
    Join(8),
    Join(7),
    Join(6),
    Join(5),
    Join(4),
    Join(3),
    Join(2),
    Join(1),
    Join(0),
];

/// Some join before others are split.
const SPLIT_BETWEEN: [Move; 18] = [
    Split,
    Split,
    Split,
    Join(1),
    Split,
    Split,
    Join(3),
    Join(0),
    Split,
    Split,
    Split,
    Join(2),
    Join(3),
    Split,
    Join(0),
    Join(2),
    Join(1),
    Join(0),
];

/// Splits one more pass, which commits a step.
fn split_one<R: Wait>(
    rt: &R,
    gate: &Gate<Sum>,
    first: &mut Pass<Sum>,
    others: &mut Vec<Pass<Sum>>,
    step: u64,
) -> Option<()>
    requires { AreOf gate.now first.old others.old.items }
    ensures of { OnSome result (AreOf gate.now first.new others.new.items) }
    ensures none_lost { OnSome result (NoneIsLost (view first.old) others.old.items
        → NoneIsLost (view first.new) others.new.items) }
{
    let Ok(mut pass) = gate.split(first, 0) else {
        return None;
    };
    let _ = answer(rt, gate, &mut pass, step);
    match others.push(pass) {
        Ok(()) => Some(()),
        Err(_no_memory) => None,
    }
}

/// Joins the pass at this place, where there is one, once it has committed a step.
fn join_one<R: Wait>(
    rt: &R,
    gate: &Gate<Sum>,
    first: &mut Pass<Sum>,
    others: &mut Vec<Pass<Sum>>,
    place: usize,
    step: u64,
)
    requires { AreOf gate.now first.old others.old.items }
    ensures of { AreOf gate.now first.new others.new.items }
    ensures none_lost { NoneIsLost (view first.old) others.old.items
        → NoneIsLost (view first.new) others.new.items }
{
    if place < others.len() {
        let mut pass = others.remove(place);
        let _ = answer(rt, gate, &mut pass, step);
        gate.join(first, pass);
    }
}

fn make<R: Wait>(
    rt: &R,
    gate: &Gate<Sum>,
    first: &mut Pass<Sum>,
    others: &mut Vec<Pass<Sum>>,
    next: Move,
    step: u64,
) -> Option<()>
    requires { AreOf gate.now first.old others.old.items }
    ensures of { OnSome result (AreOf gate.now first.new others.new.items) }
    ensures none_lost { OnSome result (NoneIsLost (view first.old) others.old.items
        → NoneIsLost (view first.new) others.new.items) }
{
    match next {
        Move::Split => split_one(rt, gate, first, others, step),
        Move::Join(place) => {
            join_one(rt, gate, first, others, place, step);
            Some(())
        }
    }
}

/// Joins all passes that are left.
fn join_all(gate: &Gate<Sum>, first: &mut Pass<Sum>, others: &mut Vec<Pass<Sum>>)
    requires { AreOf gate.now first.old others.old.items }
    ensures of { AreOf gate.now first.new others.new.items }
    ensures none { others.new.items ≡ [] }
    ensures none_lost { NoneIsLost (view first.old) others.old.items
        → NoneIsLost (view first.new) others.new.items }
{
    while let Some(pass) = others.pop() {
        gate.join(first, pass);
    }
}

/// How many steps stand behind these moves, each of which commits its place, and what the gate
/// closes with.
fn closed_after<R: Wait>(rt: &R, alloc: Global, moves: &[Move]) -> Option<(u64, u64)> {
    let Ok((gate, mut first)) = Gate::begin(alloc, Sum { total: 0 }, 10) else {
        return None;
    };
    let mut others = Vec::new(alloc);
    for (place, next) in moves.iter().enumerate() {
        make(rt, &gate, &mut first, &mut others, *next, place as u64)?;
    }
    join_all(&gate, &mut first, &mut others);
    let seen = gate.seen(&mut first);
    Some((seen, gate.close(first)?.total))
}

#[test]
fn ten_passes_join_in_any_order(rt: HostRuntime) -> Result<(), Fail> {
    assert!(rt; closed_after(&rt, rt.alloc(), &FIRST_JOINS_FIRST) == Some((18, 153)));
    assert!(rt; closed_after(&rt, rt.alloc(), &LAST_JOINS_FIRST) == Some((18, 153)));
    assert!(rt; closed_after(&rt, rt.alloc(), &SPLIT_BETWEEN) == Some((18, 153)));
    Ok(())
}

/// Drops the pass at this place, where there is one.
fn drop_one(others: &mut Vec<Pass<Sum>>, place: usize)
    ensures { (gate : _) → AreOthers gate others.old.items → AreOthers gate others.new.items }
{
    if place < others.len() {
        drop(others.remove(place));
    }
}

/// What the last step of 1 is answered where nine passes were split from the first, each with such
/// a step, one of them was dropped, and the others were joined, each with one more. The gate can't
/// be closed then, and goes on.
fn one_of_ten_dropped<R: Wait>(rt: &R, alloc: Global, place: usize) -> Option<u64> {
    let Ok((gate, mut first)) = Gate::begin(alloc, Sum { total: 0 }, 10) else {
        return None;
    };
    let mut others = Vec::new(alloc);
    for _ in 0..9 {
        split_one(rt, &gate, &mut first, &mut others, 1)?;
    }
    drop_one(&mut others, place);
    for _ in 0..8 {
        join_one(rt, &gate, &mut first, &mut others, 0, 1);
    }
    Some(answer(rt, &gate, &mut first, 1))
}

#[test]
fn goes_on_without_one_of_ten(rt: HostRuntime) -> Result<(), Fail> {
    assert!(rt; one_of_ten_dropped(&rt, rt.alloc(), 0) == Some(18));
    assert!(rt; one_of_ten_dropped(&rt, rt.alloc(), 4) == Some(18));
    assert!(rt; one_of_ten_dropped(&rt, rt.alloc(), 8) == Some(18));
    Ok(())
}
