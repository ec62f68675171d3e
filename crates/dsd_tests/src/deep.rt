//! Walks over a value deeper than the limits let any be, in a thread as the server starts them:
//! that its stack holds them is no clause.
use ds_space::{Reference, reference_value};
use out_ports::ports::Run;
use out_real::start_in;
use pv_binary::write;
use pv_canon::canon;
use pv_print::print;
use pv_value::{NoMemory, Value, canonical_size, compare, depth, weight};
use pv_words::{labelled, number};
use rl_ports::Ports;
use rl_wire::wire_out;
use sr_caveat::has_embedded;
use std::alloc::Global;
use std::sync::Wait;
use std::sync::atomic::{AtomicU64, Ordering};
use std::test::Fail;
use std::thread::{self, Threads};

/// What a watcher makes weighs at most 33,554,432, and 105 a level.
const LEVELS: u64 = 320_000;

/// What a connection is told weighs half as much at most.
const TOLD_LEVELS: u64 = 160_000;

/// What the behaviour `tuple` makes of this value alone.
fn around(alloc: Global, value: Value) -> Result<Value, NoMemory> {
    let mut fields = Vec::new(alloc);
    fields.push(value)?;
    labelled(alloc, "tuple", fields)
}

/// The same again and again.
fn nested(alloc: Global, inside: Value, levels: u64) -> Result<Value, NoMemory> {
    let mut value = inside;
    for _ in 0..levels {
        value = around(alloc, value)?;
    }
    Ok(value)
}

/// Whether what is counted of the value is right.
fn is_counted(value: &Value) -> bool {
    u64::from(depth(value)) == LEVELS
        && weight(value) == 105 * LEVELS + 51
        && canonical_size(value) == 9 * LEVELS + 3
        && !has_embedded(value)
}

/// Whether a copy is equal to it.
fn is_copied(value: &Value) -> Result<bool, NoMemory> {
    let copy = value.copy()?;
    Ok(compare(value, &copy).is_eq())
}

/// Whether its spellings are as long as they should be.
fn is_spelled(alloc: Global, value: &Value) -> Result<bool, NoMemory> {
    let written = write(alloc, value)?.len() as u64;
    let canonical = canon(alloc, value)?.len() as u64;
    let printed = print(alloc, value)?.len() as u64;
    Ok(written == 9 * LEVELS + 3 && canonical == written && printed == 8 * LEVELS + 1)
}

/// The reference to an object of the actor, without caveats.
fn object(alloc: Global, actor: u32) -> Result<Value, NoMemory> {
    reference_value(alloc, Reference { actor, entity: 0 })
}

/// Whether a connection is told what it should be of a reference so deep: it has another number
/// there.
fn is_told(alloc: Global) -> Result<bool, NoMemory> {
    let reference = Value::embedded(alloc, object(alloc, 18)?)?;
    let value = nested(alloc, reference, TOLD_LEVELS)?;
    let mut ports = Ports::new(alloc, object(alloc, 1)?)?;
    match wire_out(alloc, &mut ports, 1, &value) {
        Ok((told, _)) => Ok(depth(&told) == depth(&value)),
        Err(_) => Ok(false),
    }
}

/// Whether all walks end, and give what they should.
fn all_end(alloc: Global) -> Result<bool, NoMemory> {
    let value = nested(alloc, number(7), LEVELS)?;
    Ok(is_counted(&value) && is_copied(&value)? && is_spelled(alloc, &value)? && is_told(alloc)?)
}

/// The walks as a job, which counts one where they ended as they should.
#[derive(Drop)]
struct Walks<'a> {
    alloc: Global,
    ended: &'a AtomicU64,
}

impl<'a> Run for Walks<'a> {
    fn run<Rt: Wait>(self, _rt: &Rt) {
        let Walks { alloc, ended } = self;
        if all_end(alloc).unwrap_or(false) {
            ended.fetch_add(1, Ordering::SeqCst);
        }
    }
}

/// How many threads' walks ended as they should, of one thread.
fn walked<Rt: Threads + Wait + Sync>(rt: &Rt, alloc: Global) -> u64 {
    let ended = AtomicU64::new(0);
    let shared = &ended;
    thread::scope(thread::scope_env(), rt, |scope| {
        start_in(
            rt,
            scope,
            Walks {
                alloc,
                ended: shared,
            },
        );
    });
    ended.into_inner()
}

#[test]
fn a_stack_holds_the_deepest_value(rt: HostRuntime) -> Result<(), Fail> {
    assert!(rt; walked(&rt, rt.alloc()) == 1);
    Ok(())
}
