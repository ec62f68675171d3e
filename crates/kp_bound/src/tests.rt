//! Two records, and records that have no binding.
use crate::bound::{bindings_of, shown_of};
use crate::faults::RecordFault;
use kp_keeper::{Record, Records};
use pv_binary::{BinFault, read, write};
use pv_value::{Blob, NoMemory, Value};
use sr_caveat::{Cap, Rule};
use std::alloc::Global;
use std::test::Fail;

const A: &[u8] = b"\xb1\x01a";

const B: &[u8] = b"\xb1\x01b";

const NONE: &[u8] = b"\xb5\x84";

/// `[<reject <_>>]`.
const REJECT: &[u8] = b"\xb5\xb4\xb3\x06reject\xb4\xb3\x01_\x84\x84\x84";

/// `[<guard Name>]`.
const GUARD: &[u8] = b"\xb5\xb4\xb3\x05guard\xb3\x04Name\x84\x84";

fn record(alloc: Global, oid: &[u8], space: u8, caveats: &[u8]) -> Result<Record, NoMemory> {
    Ok(Record {
        oid: Blob::from_slice(alloc, oid)?,
        key: Blob::from_slice(alloc, b"key")?,
        space,
        caveats: Blob::from_slice(alloc, caveats)?,
    })
}

/// `"a"` in space 2 with a caveat, and `"b"` in space 1 with none.
fn two(alloc: Global, caveats: &[u8]) -> Result<Records, NoMemory> {
    let mut records = Records::new(alloc);
    records.put(&record(alloc, B, 1, NONE)?)?;
    records.put(&record(alloc, A, 2, caveats)?)?;
    Ok(records)
}

fn is_spelled(alloc: Global, value: &Value, bytes: &[u8]) -> Result<bool, NoMemory> {
    Ok(write(alloc, value)?.as_slice() == bytes)
}

fn are_shown(alloc: Global) -> Result<bool, NoMemory> {
    match shown_of(&two(alloc, REJECT)?) {
        Ok(values) => match values.as_slice() {
            [a, b] => {
                let first = b"\xb4\xb3\x07binding\xb1\x01a\xb0\x01\x02\
                    \xb5\xb4\xb3\x06reject\xb4\xb3\x01_\x84\x84\x84\x84";
                let second = b"\xb4\xb3\x07binding\xb1\x01b\xb0\x01\x01\xb5\x84\x84";
                Ok(is_spelled(alloc, a, first)? && is_spelled(alloc, b, second)?)
            }
            _ => Ok(false),
        },
        Err(_) => Err(NoMemory),
    }
}

#[test]
fn records_are_shown_without_their_keys(rt: HostRuntime) -> Result<(), Fail> {
    assert!(rt; are_shown(rt.alloc())?);
    Ok(())
}

fn value(alloc: Global, bytes: &[u8]) -> Result<Value, NoMemory> {
    match read(alloc, bytes) {
        Ok((value, _)) => Ok(value),
        Err(BinFault::Bad(_, _)) => Err(NoMemory),
        Err(BinFault::NoMemory) => Err(NoMemory),
    }
}

/// Whether the reference is to this dataspace itself with one caveat, which refuses.
fn is_refusing(cap: &Cap, space: u32) -> bool {
    match cap.caveats.as_slice() {
        [caveat] => {
            let rejects = match &*caveat.rule {
                Rule::Reject(_) => true,
                _ => false,
            };
            cap.actor == space && cap.entity == 0 && rejects
        }
        _ => false,
    }
}

/// The caveat refuses everything, as a guard does, which is unknown here.
fn are_bound(alloc: Global, caveats: &[u8]) -> Result<bool, NoMemory> {
    let Ok(bindings) = bindings_of(&two(alloc, caveats)?) else {
        return Err(NoMemory);
    };
    let first = match bindings.get(&value(alloc, A)?) {
        Some(binding) => {
            binding.key.as_slice() == b"key".as_slice() && is_refusing(&binding.cap, 2)
        }
        None => false,
    };
    Ok(first && bindings.has(&value(alloc, B)?) && !bindings.has(&value(alloc, NONE)?))
}

#[test]
fn records_are_bound(rt: HostRuntime) -> Result<(), Fail> {
    assert!(rt; are_bound(rt.alloc(), REJECT)?);
    assert!(rt; are_bound(rt.alloc(), GUARD)?);
    Ok(())
}

/// Whether such a record behind a good one is told as bad.
fn is_bad(alloc: Global, oid: &[u8], space: u8, caveats: &[u8]) -> Result<bool, NoMemory> {
    let mut records = Records::new(alloc);
    records.put(&record(alloc, b"\x80", 1, NONE)?)?;
    records.put(&record(alloc, oid, space, caveats)?)?;
    let bound = match bindings_of(&records) {
        Ok(_) => false,
        Err(fault) => fault == RecordFault::Bad(1),
    };
    let shown = match shown_of(&records) {
        Ok(_) => false,
        Err(fault) => fault == RecordFault::Bad(1),
    };
    Ok(bound && shown)
}

#[test]
fn a_record_out_of_its_form_is_bad(rt: HostRuntime) -> Result<(), Fail> {
    let alloc = rt.alloc();
    // The elements of a set out of their order, a byte too many, a byte too few, an embedded value.
    assert!(rt; is_bad(alloc, b"\xb6\xb0\x01\x02\xb0\x01\x01\x84", 1, NONE)?);
    assert!(rt; is_bad(alloc, b"\xb1\x01a\x80", 1, NONE)?);
    assert!(rt; is_bad(alloc, b"\xb1\x02a", 1, NONE)?);
    assert!(rt; is_bad(alloc, b"\x86\x80", 1, NONE)?);
    assert!(rt; is_bad(alloc, A, 0, NONE)?);
    assert!(rt; is_bad(alloc, A, 9, NONE)?);
    assert!(rt; is_bad(alloc, A, 1, b"\xb6\x84")?);
    Ok(())
}
